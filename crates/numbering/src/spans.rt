ghost use Rattle.std.specs.Prelude.{◌≡◌, true};
ghost use Rattle.numbering.specs.Spans.{rising};

use crate::span::Span;

// spans in rising order with a gap between each two
#[derive(Drop)]
pub struct Spans {
    pub(crate) list: Vec<Span>,
    ghost rises: { rising 0 list.items ≡ true },
}
