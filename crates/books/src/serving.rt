use crate::course::Role;
use crate::source::{Sees, Source};
use crate::state::State;
use crate::tables::Tells;
use crate::told::Stamp;
use capture::fault::CaptureFault;
use capture::frame::{Datagram, Frame};
use changes::due::{look_due, shows_adoption};
use recovery::answers::{Sign, Standing};
use refusal::Refusal;
use replay::call::{Answer, Call};
use replay::desk::Desk;
use store::store::Store;

// a receiver over a store, with what its calls are lent, and where the pass over a capture stands
pub struct Pass<'p, S> {
    pub desk: Desk,
    pub store: &'p mut S,
    pub shelf: Vec<u8>,
    pub state: &'p mut State,
}

impl<'p, S: Store + Tells> Pass<'p, S> {
    // Tells what changed of the book at a slot.
    fn look_at(&mut self, slot: usize, time: u64, standing: Standing) -> anyhow::Result<()> {
        let state = &mut *self.state;
        let Some(told) = state.told.get_mut(slot) else {
            return Ok(());
        };
        let first = state.packets == 1;
        let marked = first || told.sign != standing.sign;
        if marked {
            told.close_stretch(state.packets.saturating_sub(1), state.heard);
            told.from = standing.heard;
            if let Some(depth) = &mut state.depth {
                if !first && standing.sign == Sign::Stale && told.was_full(depth.orders) {
                    depth.full = true;
                }
            }
            told.sign = standing.sign;
        }
        let stamp = Stamp {
            time,
            heard: standing.heard,
            instrument: told.instrument,
            sign: standing.sign,
            number: standing.number,
            marked,
        };
        self.store.tell(slot, &stamp, told, &mut state.out)
    }

    // Tells what changed of the book at a slot, where it is to be looked at; the highest packet heard.
    fn look_slot(&mut self, slot: usize, time: u64, adopted: bool) -> anyhow::Result<u64> {
        let state = &mut *self.state;
        let all = adopted || state.packets == 1;
        let standing = self.desk.standing_at(slot);
        let Some(told) = state.told.get_mut(slot) else {
            return Ok(standing.heard);
        };
        let sign = told.sign;
        let before = told.number;
        told.number = standing.number;
        if let Some(picture) = &mut state.picture {
            let risen = standing.heard > state.heard.saturating_add(1);
            if risen || all || sign != standing.sign {
                picture.tell(slot, state.heard, standing);
            }
            if adopted && shows_adoption(sign, before, standing.sign, standing.number) {
                picture.adopt(slot, standing.number);
            }
        }
        let latest = state.named.latest_of(slot);
        if all || look_due(sign, before, standing.sign, standing.number, latest) {
            self.look_at(slot, time, standing)?;
        }
        Ok(standing.heard)
    }

    // Tells what changed of all books; after an adoption, and at the first packet, every book is looked at.
    fn look(&mut self, time: u64, adopted: bool) -> anyhow::Result<()> {
        let mut heard = self.state.heard;
        if self.state.packets == 1 {
            let state = &mut *self.state;
            if let Some(picture) = &mut state.picture {
                let first = self.desk.standing_at(0).heard;
                picture.begin(state.heap, state.told.len(), first)?;
                state.heard = first.saturating_sub(1);
            }
        }
        // kept: the number of a slot goes to the receiver and to the store alike
        for slot in 0..self.state.told.len() {
            heard = self.look_slot(slot, time, adopted)?;
        }
        self.state.heard = heard;
        Ok(())
    }

    // Brings a datagram to the receiver, and tells what changed.
    fn take(&mut self, datagram: &Datagram) -> anyhow::Result<()> {
        let state = &mut *self.state;
        let Some(lane) = state.lanes.iter_mut().find(|lane| lane.to == datagram.to) else {
            return Ok(());
        };
        let role = lane.role;
        let payload = datagram.payload;
        let call = match role {
            Role::Incremental => Call::Incremental(payload),
            Role::Snapshot => Call::Snapshot(payload),
        };
        let adopted = match self
            .desk
            .perform(self.store, self.shelf.as_mut_slice(), call)
        {
            Answer::Taken => false,
            Answer::Adopted(adoptions) => {
                state.adoptions = state.adoptions.saturating_add(adoptions as u64);
                adoptions > 0
            }
            Answer::Repeat => {
                lane.received.repeat();
                return Ok(());
            }
            Answer::Refused(fault) => {
                lane.received.refuse(Refusal::from(fault), state.records);
                return Ok(());
            }
            Answer::Joined | Answer::Left | Answer::Standing(_) => return Ok(()),
        };
        lane.received.take();
        state.packets = state.packets.saturating_add(1);
        state.name(payload, role);
        self.look(datagram.time, adopted)
    }

    // Brings the records of a capture to the receiver, to the file's end or to the fault that it breaks with.
    pub fn attend(
        &mut self,
        rt: &HostRuntime,
        source: Source,
    ) -> anyhow::Result<Result<(), CaptureFault>> {
        self.state.out.text.push_str(self.store.columns())?;
        if self.state.course.snapshot.is_some() {
            let _ = self
                .desk
                .perform(self.store, self.shelf.as_mut_slice(), Call::Join);
        }
        source.show(rt, self)
    }
}

impl<'p, S: Store + Tells> Sees for Pass<'p, S> {
    // Brings what a record holds to the receiver.
    fn see(&mut self, rt: &HostRuntime, frame: &Frame) -> anyhow::Result<()> {
        self.state.records = self.state.records.saturating_add(1);
        if let Frame::Datagram(datagram) = frame {
            self.take(datagram)?;
            self.state.out.settle(rt)?;
        }
        Ok(())
    }
}
