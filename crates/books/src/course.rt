use capture::endpoint::Endpoint;
use destinations::received::Received;
use std::alloc::{AllocError, Global};
use std::fmt;

// one incremental feed, or both feeds A and B
#[derive(Clone, Copy)]
pub struct Feeds {
    pub first: Endpoint,
    pub second: Option<Endpoint>,
}

// what the books are rebuilt from: one channel and version, the incremental feeds, the snapshot loop, the instruments
#[derive(Drop)]
pub struct Course {
    pub channel: u8,
    pub version: u16,
    pub feeds: Feeds,
    pub snapshot: Option<Endpoint>,
    pub watch: Vec<u64>,
}

// what packets come to a destination
#[derive(Clone, Copy, Debug, PartialEq, Eq)]
pub enum Role {
    Incremental,
    Snapshot,
}

// a destination of a course, and what became of its packets
#[derive(Clone, Copy)]
pub struct Lane {
    pub role: Role,
    pub to: Endpoint,
    pub received: Received,
}

impl fmt::Display for Role {
    fn fmt<W: fmt::Write>(&self, f: &mut fmt::Formatter<W>) -> fmt::Result {
        match self {
            Role::Incremental => write!(f, "incremental"),
            Role::Snapshot => write!(f, "snapshot"),
        }
    }
}

impl Course {
    // The destinations, the incremental feeds first.
    pub fn lanes(&self, heap: Global) -> Result<Vec<Lane>, AllocError> {
        let all = [
            (Role::Incremental, Some(self.feeds.first)),
            (Role::Incremental, self.feeds.second),
            (Role::Snapshot, self.snapshot),
        ];
        let mut lanes = Vec::new(heap);
        for (role, to) in all {
            if let Some(to) = to {
                lanes.push(Lane {
                    role,
                    to,
                    received: Received::new(),
                })?;
            }
        }
        Ok(lanes)
    }
}
