ghost use Rattle.std.specs.Prelude.{◌≡◌, ℕ, ◌<◌, true, false, length, IfSome, IsNone, slice_index_or};
ghost use Rattle.destinations.specs.Noting.{is_destination};
ghost use Rattle.capture.specs.Held.{view};
ghost use Rattle.capture.specs.Tally.{nothing, noted};

use crate::destination::Destination;
use crate::find::{find, found_or_put};
use capture::endpoint::Endpoint;
use capture::frame::{Datagram, Frame};
use capture::tally::Tally;
use layout::sheet::Sheet;
use std::alloc::{AllocError, Global};

// the survey of a capture: its destinations, in the order of their first datagram, and how many records of each sort
#[derive(Drop)]
pub struct Table {
    pub destinations: Vec<Destination>,
    pub last: usize,
    pub records: u64,
    pub tally: Tally,
}

fn is_destination(destination: &Destination, to: Endpoint) -> bool
    ensures { result ≡ is_destination destination.now to }
{
    destination.to == to
}

// kept: the heap and the sheet are the caller's, and a table that held the sheet would have its lifetime wherever it is named
impl Table {
    // Nothing read yet.
    pub fn new(heap: Global) -> Table
        ensures { result.tally ≡ nothing }
    {
        Table {
            destinations: Vec::new(heap),
            last: 0,
            records: 0,
            tally: Tally::new(),
        }
    }

    // The place of an address and port. It is left out of line, so that the search keeps its own registers.
    #[inline(never)]
    fn destination(&self, to: Endpoint) -> Option<usize>
        ensures found { IfSome result (λ i. (i < length self.now.destinations.items) × ((d : Destination) → is_destination (slice_index_or self.now.destinations.items i d) to ≡ true)) }
        ensures absent { IsNone result → (k : ℕ) (d : Destination) → k < length self.now.destinations.items → is_destination (slice_index_or self.now.destinations.items k d) to ≡ false }
    {
        find(
            self.destinations.as_slice(),
            self.last,
            |destination| is_destination(destination, to),
        )
    }

    // Notes a datagram under its destination.
    fn datagram(
        &mut self,
        heap: Global,
        sheet: &Sheet,
        datagram: &Datagram,
    ) -> Result<(), AllocError>
        ensures { self.new.tally ≡ self.old.tally }
    {
        let to = datagram.to;
        let found = self.destination(to);
        let place = found_or_put(&mut self.destinations, found, || Destination::new(heap, to))?;
        self.last = place;
        self.destinations[place].note(heap, sheet, datagram.payload, self.records)
    }

    // Notes what a record holds.
    pub fn note(&mut self, heap: Global, sheet: &Sheet, frame: &Frame) -> Result<(), AllocError>
        ensures { self.new.tally ≡ noted self.old.tally (view frame.now) }
    {
        self.records = self.records.saturating_add(1);
        self.tally.note(frame);
        match frame {
            Frame::Datagram(datagram) => self.datagram(heap, sheet, datagram),
            Frame::Cut => Ok(()),
            Frame::Fragment => Ok(()),
            Frame::NoUdp => Ok(()),
        }
    }
}
