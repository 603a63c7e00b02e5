ghost use Rattle.std.specs.Prelude.{◌≡◌, ◌*◌, ◌/◌, ◌^◌, ◌<◌, List, [], ◌++◌, length, replicate, if◌then◌else◌, nat_eq};
ghost use Rattle.recovery.specs.declared.answers.Sign.{Sign as Marked};
ghost use Rattle.shares.specs.Noted.{nothing, noted, further, longer};
ghost use Rattle.shares.specs.Stands.{Stands};

use crate::share::{Share, Stretch};
use recovery::answers::Sign;

// A stretch with the packets of the next behind its own.
fn further(before: Option<Stretch>, next: Stretch) -> Stretch
    ensures { result ≡ further before next.packets next.from next.to }
{
    match before {
        Some(stretch) => Stretch {
            packets: stretch.packets.saturating_add(next.packets),
            to: next.to,
            ..stretch
        },
        None => next,
    }
}

// The longer of two, and the first where they are as long.
fn longer(longest: Option<Stretch>, stretch: Stretch) -> Stretch
    ensures { result ≡ longer longest stretch }
{
    match longest {
        Some(longest) if longest.packets >= stretch.packets => longest,
        _ => stretch,
    }
}

// kept: many rows of marks leave the same shares, so that there is no one model
impl Share {
    // No packet noted yet.
    pub fn new() -> Share
        ensures value { result ≡ nothing }
        ensures law { Stands result [] }
    {
        Share::default()
    }

    // Notes the mark that a book had at so many packets, at the first and the last of which these numbers were heard.
    pub fn note(&mut self, sign: Sign, times: u64, from: u64, to: u64)
        ensures value { self.new ≡ noted self.old sign times from to }
        ensures law { (marks : List Marked) → Stands self.old marks → Stands self.new (replicate times sign ++ marks) }
    {
        let packets = times;
        self.count(sign, Stretch { packets, from, to });
    }

    fn count(&mut self, sign: Sign, stretch: Stretch)
        ensures { self.new ≡ noted self.old sign stretch.packets stretch.from stretch.to }
    {
        let times = stretch.packets;
        if times == 0 {
            return;
        }
        match sign {
            Sign::Current => {
                self.current = self.current.saturating_add(times);
                self.now_stale = None;
            }
            Sign::Recovering => {
                self.recovering = self.recovering.saturating_add(times);
                self.now_stale = None;
            }
            Sign::Stale => {
                self.stale = self.stale.saturating_add(times);
                let stretch = further(self.now_stale, stretch);
                self.now_stale = Some(stretch);
                self.longest = Some(longer(self.longest, stretch));
            }
        }
    }

    // How many packets were noted.
    pub fn packets(&self) -> u64
        ensures { (marks : List Marked) → Stands self.now marks → length marks < 2 ^ 64 → result ≡ length marks }
    {
        self.current
            .saturating_add(self.recovering)
            .saturating_add(self.stale)
    }
}

// A part of a whole in hundredths of a percent, rounded down; 0 of nothing.
// kept: scaled of coverage cuts a part at the whole and fits 64 bits, where this does neither
pub fn hundredths(part: u64, whole: u64) -> u128
    ensures { result ≡ (if nat_eq whole 0 then 0 else part * 10000 / whole) }
{
    if whole == 0 {
        return 0;
    }
    u128::from(part) * 10000 / u128::from(whole)
}
