use crate::source::{Sees, Source};
use capture::endpoint::Endpoint;
use capture::frame::Frame;
use destinations::feeds::feed_of;
use destinations::table::Table;
use layout::sheet::Sheet;
use message::fields::security_of;
use packet::checked::Checked;
use packet::rules::check;
use std::alloc::{AllocError, Global};

// more instruments than a receiver can watch
const MANY: usize = 65;

// what a first pass over a capture finds by a sheet: its destinations, and of each the instruments that its packets name, up to one
// too many
// kept: names has a place for each destination of the table, which another crate makes: by its place they are found without a search
#[derive(Drop)]
pub struct Finding<'s> {
    heap: Global,
    sheet: &'s Sheet,
    pub table: Table,
    names: Vec<Vec<u64>>,
}

// Adds the instruments of a packet to those found, each once.
fn note_names(names: &mut Vec<u64>, packet: &Checked) -> Result<(), AllocError> {
    let mut walk = packet.walk();
    while let Some(message) = walk.next() {
        if let Some(id) = security_of(&message) {
            if names.len() < MANY && !names.contains(&id) {
                names.push(id)?;
            }
        }
    }
    Ok(())
}

impl<'s> Finding<'s> {
    // Notes the instruments of a packet under its destination.
    fn name(&mut self, place: usize, payload: &[u8]) -> Result<(), AllocError> {
        for _ in self.names.len()..place.saturating_add(1) {
            self.names.push(Vec::new(self.heap))?;
        }
        if let Some(names) = self.names.get_mut(place) {
            if names.len() < MANY && check(self.sheet, payload).is_ok() {
                note_names(names, &Checked::new(self.sheet, payload))?;
            }
        }
        Ok(())
    }

    // The place of a destination in the table.
    pub fn place_of(&self, endpoint: Endpoint) -> Option<usize> {
        self.table
            .destinations
            .iter()
            .position(|d| d.to == endpoint)
    }

    // The instruments that packets to a destination name.
    pub fn names_at(&self, endpoint: Endpoint) -> &[u64] {
        match self
            .place_of(endpoint)
            .and_then(|place| self.names.get(place))
        {
            Some(names) => names.as_slice(),
            None => &[],
        }
    }

    // Lists the destinations of the capture on standard error.
    pub fn list(&self, rt: &HostRuntime) -> anyhow::Result<()> {
        eprintln!(rt; "the capture has packets to:")?;
        for d in self.table.destinations.as_slice() {
            let to = d.to;
            let packets = d.packets;
            let feed = feed_of(&d.counts);
            eprintln!(rt; "  {to} {feed}, packets that keep the rules: {packets}")?;
        }
        Ok(())
    }
}

impl<'s> Sees for Finding<'s> {
    // Notes a record in the table, and the instruments of its packet under its destination.
    fn see(&mut self, _rt: &HostRuntime, frame: &Frame) -> anyhow::Result<()> {
        self.table.note(self.heap, self.sheet, frame)?;
        if let Frame::Datagram(datagram) = frame {
            self.name(self.table.last, datagram.payload)?;
        }
        Ok(())
    }
}

// The first pass over a capture, to the file's end or to the fault that it breaks with.
pub fn find<'s>(rt: &HostRuntime, path: &str, sheet: &'s Sheet) -> anyhow::Result<Finding<'s>> {
    let heap = rt.alloc();
    let mut finding = Finding {
        heap,
        sheet,
        table: Table::new(heap),
        names: Vec::new(heap),
    };
    let source = Source {
        path,
        progress: false,
    };
    let _ = source.show(rt, &mut finding)?;
    Ok(finding)
}
