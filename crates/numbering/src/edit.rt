ghost use Rattle.std.specs.Prelude.{◌≡◌, ◌+◌, ◌<◌, ◌≤◌, false, ◌∷◌, ◌++◌, length, take, drop, vec_len, MatchResult};
ghost use Rattle.numbering.specs.Spans.{held, Clear, Near, Entered};

use crate::span::Span;
use crate::spans::Spans;
use std::alloc::AllocError;

// Puts a span in the place of one.
fn replace(spans: &mut Vec<Span>, p: usize, span: Span)
    requires { p < vec_len spans.old }
    ensures { spans.new.items ≡ take p spans.old.items ++ span ∷ drop (p + 1) spans.old.items }
{
    spans[p] = span;
}

// Puts a span in the place of two.
fn unite(spans: &mut Vec<Span>, p: usize, span: Span)
    requires { p + 1 < vec_len spans.old }
    ensures { spans.new.items ≡ take p spans.old.items ++ span ∷ drop (p + 2) spans.old.items }
{
    spans[p] = span;
    spans.remove(p + 1);
}

impl Spans {
    // Lets the span at `p`, which ends right below `n`, reach to `n`, and joins it to the next where they touch.
    fn extend(&mut self, p: usize, span: Span, n: u32)
        requires within { p < vec_len self.old.list }
        requires before { Clear n (take p self.old.list.items) }
        requires here { drop p self.old.list.items ≡ span ∷ drop (p + 1) self.old.list.items }
        requires touches { span.high + 1 ≡ n }
        ensures { Entered n self.old.list.items self.new.list.items }
    {
        if p + 1 < self.list.len() {
            let Span { low, high } = self.list[p + 1];
            if low - 1 == n {
                return unite(
                    &mut self.list,
                    p,
                    Span {
                        low: span.low,
                        high,
                    },
                );
            }
        }
        replace(
            &mut self.list,
            p,
            Span {
                low: span.low,
                high: n,
            },
        )
    }

    // Enters `n`, which is no member, at its place.
    pub(crate) fn enter(&mut self, p: usize, n: u32) -> Result<(), AllocError>
        requires within { p ≤ vec_len self.old.list }
        requires before { Clear n (take p self.old.list.items) }
        requires behind { Near n (drop p self.old.list.items) }
        requires absent { held self.old.list.items n ≡ false }
        ensures { MatchResult result (λ _. Entered n self.old.list.items self.new.list.items) (λ _. self.new.list.items ≡ self.old.list.items) }
    {
        if p < self.list.len() {
            let Span { low, high } = self.list[p];
            if low <= n {
                self.extend(p, Span { low, high }, n);
                return Ok(());
            }
            if n + 1 == low {
                replace(&mut self.list, p, Span { low: n, high });
                return Ok(());
            }
        }
        self.list.insert(p, Span { low: n, high: n })?;
        Ok(())
    }
}
