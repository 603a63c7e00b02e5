ghost use Rattle.std.specs.Prelude.{◌≡◌, ◌≤◌, vec_len, take, drop};
ghost use Rattle.numbering.specs.Spans.{held, Clear, Near};
ghost use Rattle.numbering.specs.Answer.{Answer};

use crate::seen::Seen;
use crate::span::Span;
use crate::spans::Spans;

impl Spans {
    // How many spans end so far below `n` that `n` does not touch them.
    pub(crate) fn place(&self, n: u32) -> usize
        ensures within { result ≤ vec_len self.now.list }
        ensures before { Clear n (take result self.now.list.items) }
        ensures behind { Near n (drop result self.now.list.items) }
    {
        match self.list.last() {
            Some(last) if n.saturating_sub(last.high) > 1 => self.list.len(),
            _ => self
                .list
                .partition_point(|span| n.saturating_sub(span.high) > 1),
        }
    }

    // What `n` is to the numbers of the spans, by its place.
    // kept: place and number apart, since a type of both would lend out the spans that entering the number changes
    pub(crate) fn seen_at(&self, p: usize, n: u32) -> Seen
        requires within { p ≤ vec_len self.now.list }
        requires before { Clear n (take p self.now.list.items) }
        requires behind { Near n (drop p self.now.list.items) }
        ensures { Answer (held self.now.list.items) n result }
    {
        if p == self.list.len() {
            return Seen::New;
        }
        let Span { low, high } = self.list[p];
        if n < low {
            return Seen::Late;
        }
        if n <= high {
            return Seen::Repeated;
        }
        if p + 1 == self.list.len() {
            Seen::New
        } else {
            Seen::Late
        }
    }
}
