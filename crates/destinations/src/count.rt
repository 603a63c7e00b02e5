ghost use Rattle.std.specs.Prelude.{◌≡◌, ◌<◌, replicate, slice_index, slice_set};
ghost use Rattle.message.specs.Meaning.{Msg};
ghost use Rattle.packet.specs.Refusals.{frame_refusal};
ghost use Rattle.packet.specs.Rules.{messages_from};
ghost use Rattle.message.specs.Views.{view};
ghost use Rattle.destinations.specs.Counting.{place_of, kind_at, one_more, all_noted, never, refused_noted, all_counted};

use crate::counts::Counts;
use crate::refusals::Refusals;
use layout::kinds::Kind;
use message::message::Message;
use packet::checked::Walk;
use packet::fault::FrameFault;
use refusal::Refusal;

// The place of a kind among the counts; `None` is the kind of a template that the sheet does not list.
fn place_of(kind: Option<Kind>) -> usize
    ensures value { result ≡ place_of kind }
    ensures within { result < 8 }
{
    kind.map_or(7, |kind| kind as usize)
}

impl Counts {
    // Nothing came yet.
    pub fn none() -> Counts
        ensures kinds { result.kinds ≡ replicate 8 0 }
        ensures reasons { result.refusals.all ≡ replicate 8 never }
    {
        Counts {
            kinds: [0; 8],
            refusals: Refusals::none(),
        }
    }

    // Counts a message under its kind.
    fn message(&mut self, message: &Message)
        ensures kinds { self.new.kinds ≡ slice_set self.old.kinds (kind_at (view message.now).layout) (one_more (slice_index self.old.kinds (kind_at (view message.now).layout))) }
        ensures reasons { self.new.refusals ≡ self.old.refusals }
    {
        let kind = place_of(message.kind());
        self.kinds[kind] = self.kinds[kind].saturating_add(1);
    }

    // Counts every message that a walk has still to hand out.
    pub fn messages(&mut self, mut walk: Walk)
        ensures kinds { self.new.kinds ≡ all_noted self.old.kinds (messages_from walk.entry.sheet.now 0 walk.entry.rest.now) }
        ensures reasons { self.new.refusals ≡ self.old.refusals }
    {
        while let Some(message) = walk.next() {
            self.message(&message);
        }
    }

    // Counts a refusal under its reason, in the record with that index.
    pub fn refuse(&mut self, fault: FrameFault, index: u64)
        ensures kinds { self.new.kinds ≡ self.old.kinds }
        ensures reasons { self.new.refusals.all ≡ refused_noted self.old.refusals.all (frame_refusal fault) index }
    {
        self.refusals.note(Refusal::from(fault), index);
    }

    // How many messages of a kind came; of `None`, how many have a template that the sheet does not list.
    pub fn of(&self, kind: Option<Kind>) -> u64
        ensures { result ≡ slice_index self.now.kinds (place_of kind) }
    {
        self.kinds[place_of(kind)]
    }

    // How many messages of all kinds came.
    pub fn all_messages(&self) -> u64
        ensures { result ≡ all_counted self.now.kinds }
    {
        self.kinds
            .iter()
            .fold(0, |all: u64, count| all.saturating_add(*count))
    }
}
