ghost use Rattle.std.specs.Prelude.{◌≡◌, ℕ, ◌<◌, true, false, length, slice_index_or, vec_len, IfSome, IsNone, IfOk};
ghost use Rattle.std.specs.Fn.{FnReturnsAt};
ghost use Rattle.std.specs.Option.{ForNone};

use std::alloc::AllocError;

// The place of an item that passes a test: the one at `last`, or else the last that does; `None` where none does.
pub fn find<T, F: Fn(&T) -> bool>(items: &[T], last: usize, passes: F) -> Option<usize>
    requires { F.IsAlwaysCallable passes }
    ensures found { IfSome result (λ i. (i < length items.now) × ((d : T) → FnReturnsAt F.Fn passes (slice_index_or items.now i d) true)) }
    ensures absent { IsNone result → (k : ℕ) (d : T) → k < length items.now → FnReturnsAt F.Fn passes (slice_index_or items.now k d) false }
{
    if let Some(item) = items.get(last) {
        if passes(item) {
            return Some(last);
        }
    }
    // kept: split_last in place of rposition, whose clauses on a caller's test the check did not bring to the items of a slice
    let mut rest = items;
    while let Some((item, front)) = rest.split_last() {
        if passes(item) {
            return Some(front.len());
        }
        rest = front;
    }
    None
}

// The place that was found, or else that of an item that is made and put behind the others.
pub(crate) fn found_or_put<T: Drop, M: FnOnce() -> T>(
    items: &mut Vec<T>,
    found: Option<usize>,
    make: M,
) -> Result<usize, AllocError>
    requires there { IfSome found (λ i. i < vec_len items.old) }
    requires callable { ForNone found (M.pre make) }
    ensures { IfOk result (λ i. i < vec_len items.new) }
{
    match found {
        Some(place) => Ok(place),
        None => {
            items.push(make())?;
            Ok(items.len() - 1)
        }
    }
}
