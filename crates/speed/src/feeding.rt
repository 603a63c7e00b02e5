use crate::calls::{Calls, Entry, Kind, poke};
use layout::sheet::Sheet;
use message::fields::security_of;
use packet::checked::Checked;
use packet::rules::check;
use recovery::fault::StreamFault;
use refusal::Refusal;
use replay::call::{Answer, Call};
use replay::desk::Desk;
use store::store::Store;

// a receiver, and what its calls are lent: the store and the shelf
pub struct Feeding<'f, S> {
    pub desk: Desk,
    pub store: &'f mut S,
    pub shelf: &'f mut [u8],
}

// A refusal as a number.
fn refused(fault: StreamFault) -> u64 {
    let refusal = Refusal::from(fault);
    (u64::from(refusal.reason.number()) << 32) | (refusal.place as u64)
}

// An answer as a number.
// kept: the sum and the digest are made of numbers, which an enum of codes would only repeat
fn code(answer: Answer) -> u64 {
    match answer {
        Answer::Taken | Answer::Joined | Answer::Left => 1000,
        Answer::Adopted(adoptions) => (adoptions as u64).saturating_add(1000),
        Answer::Repeat => 1,
        Answer::Standing(_) => 2,
        Answer::Refused(fault) => refused(fault),
    }
}

impl<'f, S: Store> Feeding<'f, S> {
    // Does what an entry of that kind with these bytes says; the answer as a number.
    pub fn perform(&mut self, kind: Kind, bytes: &[u8]) -> u64 {
        let call = match kind {
            Kind::Incremental => Call::Incremental(bytes),
            Kind::Snapshot => Call::Snapshot(bytes),
            Kind::Join => Call::Join,
            Kind::Leave => Call::Leave,
            Kind::Poke => {
                poke(self.shelf, bytes);
                return 0;
            }
        };
        code(self.desk.perform(self.store, self.shelf, call))
    }

    // The sum of all answers.
    pub fn feed(&mut self, input: &[u8]) -> u64 {
        let mut sum: u64 = 0;
        for Entry { kind, bytes } in (Calls { rest: input }) {
            sum = sum.wrapping_add(self.perform(kind, bytes));
        }
        sum
    }
}

// The sum of the instruments of a packet's messages, where it keeps the rules.
fn walk_packet(sheet: &Sheet, bytes: &[u8]) -> Option<u64> {
    if check(sheet, bytes).is_err() {
        return None;
    }
    let mut sum: u64 = 0;
    let mut walk = Checked::new(sheet, bytes).walk();
    while let Some(m) = walk.next() {
        if let Some(id) = security_of(&m) {
            sum = sum.wrapping_add(id);
        }
    }
    Some(sum)
}

// Checks every packet and walks over its messages; the sum of their instruments.
pub fn walk_all(sheet: &Sheet, input: &[u8]) -> u64 {
    let mut sum: u64 = 0;
    for Entry { kind, bytes } in (Calls { rest: input }) {
        if let Kind::Incremental | Kind::Snapshot = kind {
            if let Some(ids) = walk_packet(sheet, bytes) {
                sum = sum.wrapping_add(ids);
            }
        }
    }
    sum
}
