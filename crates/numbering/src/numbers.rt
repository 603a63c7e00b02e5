ghost use Rattle.std.specs.Prelude.{◌≡◌, ◌^◌};
ghost use Rattle.numbering.specs.Spans.{held};
ghost use Rattle.numbering.specs.Counting.{count};

use crate::spans::Spans;

// the sequence numbers of one stream that came, by spans, and how many came
#[derive(Drop)]
pub struct Numbers {
    pub(crate) spans: Spans,
    pub(crate) came: u64,
    ghost total: { came ≡ count (held spans.list.items) (2 ^ 32) },
}
