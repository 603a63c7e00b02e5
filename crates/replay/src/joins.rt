ghost use Rattle.std.specs.Prelude.{◌≡◌, true, false, [], is_some, Some, None};
ghost use Rattle.recovery.specs.Answers.{join_check, present_join};
ghost use Rattle.recovery.specs.Updates.{when_ok};
ghost use Rattle.receiver.specs.Standings.{opening_of, plain_of};
ghost use Rattle.receiver.specs.Joins.{joining, leaving};
ghost use Rattle.replay.specs.declared.call.Answer.TheVariants as answers;
ghost use Rattle.replay.specs.Replies.{of_check};

use crate::call::Answer;
use crate::desk::Desk;
use receiver::join::Join;
use receiver::receiver::Receiver;
use recovery::fault::StreamFault;

// Keeps a join where none is held.
fn keep(held: &mut Option<Join>, join: Join)
    requires { is_some held.old ≡ false }
    ensures { held.new ≡ Some join }
{
    match held.replace(join) {
        None => {}
        Some(_) => unreachable(),
    }
}

// Gives the receiver its own join back, which is never refused.
fn give_back(receiver: &mut Receiver, join: Join)
    requires { (receiver.old.plain.joined ≡ true) × (join.own ≡ receiver.old.sub.own) }
    ensures after { receiver.new.plain ≡ leaving receiver.old.plain }
    ensures opening { receiver.new.sub ≡ receiver.old.sub }
{
    match receiver.leave(join) {
        Ok(()) => {}
        Err(_) => unreachable(),
    }
}

impl Desk {
    // Asks the receiver for a join, and keeps it.
    pub(crate) fn enter(&mut self) -> Answer
        ensures answer { result ≡ of_check answers.Joined (join_check (plain_of self.old.receiver.sub.sheet self.old.receiver.plain [])) }
        ensures after { self.new.receiver.plain ≡ when_ok (join_check (plain_of self.old.receiver.sub.sheet self.old.receiver.plain [])) (joining self.old.receiver.plain) self.old.receiver.plain }
        ensures opening { self.new.receiver.sub ≡ self.old.receiver.sub }
    {
        match self.receiver.join() {
            Ok(join) => {
                keep(&mut self.held, join);
                Answer::Joined
            }
            Err(fault) => Answer::Refused(fault),
        }
    }

    // Gives the join that is held back to the receiver; with none held the call is refused.
    pub(crate) fn part(&mut self) -> Answer
        ensures answer { result ≡ of_check answers.Left (present_join (opening_of self.old.receiver.sub) (plain_of self.old.receiver.sub.sheet self.old.receiver.plain []) self.old.receiver.sub.own) }
        ensures after { self.new.receiver.plain ≡ when_ok (present_join (opening_of self.old.receiver.sub) (plain_of self.old.receiver.sub.sheet self.old.receiver.plain []) self.old.receiver.sub.own) (leaving self.old.receiver.plain) self.old.receiver.plain }
        ensures opening { self.new.receiver.sub ≡ self.old.receiver.sub }
        ensures none { self.new.held ≡ None }
    {
        match self.held.take() {
            Some(join) => {
                give_back(&mut self.receiver, join);
                Answer::Left
            }
            None => Answer::Refused(StreamFault::Join),
        }
    }
}
