ghost use Rattle.std.specs.Prelude.{◌≡◌, ℕ, ◌≤◌, List, [], length, take, IfOk, Some, None, MatchResult};
ghost use Rattle.sheet_text.specs.Text.{rows};
ghost use Rattle.sheet_text.specs.Sheets.{first_wrong, field_lines};
ghost use Rattle.sheet_text.specs.Opening.{opening_rows};
ghost use Rattle.sheet_text.specs.Kept.{Kept};

use crate::follows::{is_complete, may_follow};
use crate::line::field_line;
use crate::text::next_line;
use crate::types::{FieldLine, SheetFault};

// Reads the field lines of a text from its fifth line on, to the front of `lines`; gives their number.
// kept: a sheet is filled without the heap, so the lines stand at the front of an array of the caller's, with their number
pub(crate) fn read_fields(text: &[u8], lines: &mut [FieldLine]) -> Result<usize, SheetFault>
    requires { length lines.old ≡ 320 }
    ensures answer { MatchResult result (λ _. ((line : List ℕ) → first_wrong (opening_rows line) (rows text.now) ≡ None)) (λ e. ((line : List ℕ) → first_wrong (opening_rows line) (rows text.now) ≡ Some e.line)) }
    ensures found { IfOk result (λ n. (n ≤ 320) × (take n lines.new ≡ field_lines (rows text.now)) × Kept (take n lines.new)) }
{
    let mut rest = text;
    let mut n: usize = 0;
    while !rest.is_empty() {
        let Some((line, more)) = next_line(rest) else {
            return Err(SheetFault { line: n + 5 });
        };
        let Some(x) = field_line(line) else {
            return Err(SheetFault { line: n + 5 });
        };
        if !may_follow(&lines[0..n], &x) {
            return Err(SheetFault { line: n + 5 });
        }
        lines[n] = x;
        n += 1;
        rest = more;
    }
    if !is_complete(&lines[0..n]) {
        return Err(SheetFault { line: n + 5 });
    }
    Ok(n)
}
