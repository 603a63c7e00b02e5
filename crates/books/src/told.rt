use figures::figures::Figures;
use recovery::answers::Sign;
use shares::share::Share;
use std::alloc::{AllocError, Global};
use std::fmt;

// where a row stands: the record's time, and the highest packet heard; `marked` says that the book's mark is new
#[derive(Clone, Copy)]
pub struct Stamp {
    pub time: u64,
    pub heard: u64,
    pub instrument: u64,
    pub sign: Sign,
    pub number: u64,
    pub marked: bool,
}

// what was told last of an instrument, and at how many packets its book had each mark: `since` packets were taken when it got the
// present one, and `from` was the highest heard
#[derive(Drop)]
pub struct Told {
    pub instrument: u64,
    pub sign: Sign,
    pub number: u64,
    pub figures: Option<Figures>,
    pub values: Vec<Option<i64>>,
    pub since: u64,
    pub from: u64,
    pub share: Share,
}

// The columns that every row begins with; a stale book is as of no packet.
impl fmt::Display for Stamp {
    fn fmt<W: fmt::Write>(&self, f: &mut fmt::Formatter<W>) -> fmt::Result {
        let time = self.time;
        let heard = self.heard;
        let instrument = self.instrument;
        let sign = self.sign;
        let number = self.number;
        match sign {
            Sign::Stale => write!(f, "{time},{heard},{instrument},{sign},"),
            Sign::Recovering | Sign::Current => {
                write!(f, "{time},{heard},{instrument},{sign},{number}")
            }
        }
    }
}

impl Told {
    // Nothing told yet of an instrument, by a sheet with so many statistics.
    pub fn new(heap: Global, instrument: u64, statistics: usize) -> Result<Told, AllocError> {
        Ok(Told {
            instrument,
            sign: Sign::Current,
            number: 0,
            figures: None,
            values: vec![in heap; None; statistics]?,
            since: 0,
            from: 0,
            share: Share::new(),
        })
    }

    // Closes the stretch of packets at which the book had its mark, the last of which was number `packets`.
    pub fn close_stretch(&mut self, packets: u64, heard: u64) {
        let times = packets.saturating_sub(self.since);
        self.share.note(self.sign, times, self.from, heard);
        self.since = packets;
    }

    // Whether a side that was told has so many orders.
    pub fn was_full(&self, depth: usize) -> bool {
        self.figures
            .is_some_and(|f| f.bid.orders >= depth || f.offer.orders >= depth)
    }
}
