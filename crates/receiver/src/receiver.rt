ghost use Rattle.std.specs.Prelude.{◌≡◌, true};
ghost use Rattle.settling.specs.Watched.{watch_of};
ghost use Rattle.receiver.specs.Standings.{attended};

use crate::plain::Plain;
use crate::subscription::Subscription;

// a receiver of one channel: what it was opened with, and its plain part
#[derive(Drop)]
pub struct Receiver {
    pub(crate) sub: Subscription,
    pub(crate) plain: Plain,
    ghost attends: { attended (watch_of sub.watch) plain.pending ≡ true },
}
