ghost use Rattle.std.specs.Prelude.{◌≡◌};
ghost use Rattle.changes.specs.Due.{look_due, shows_adoption};

use recovery::answers::Sign;

// Whether a book that was told with this mark, as of this packet, is to be looked at now that it has that mark and number;
// `latest` is the highest packet that names its instrument.
pub fn look_due(told: Sign, before: u64, sign: Sign, number: u64, latest: u64) -> bool
    ensures { result ≡ look_due told before sign number latest }
{
    told != sign || before != number && before < latest
}

// Whether a book that was told with this mark, as of this packet, was adopted in a call that adopted some, now that it has that mark
// and number.
pub fn shows_adoption(told: Sign, before: u64, sign: Sign, number: u64) -> bool
    ensures { result ≡ shows_adoption told before sign number }
{
    sign != Sign::Stale && (told == Sign::Stale || before < number)
}
