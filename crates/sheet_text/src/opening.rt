ghost use Rattle.std.specs.Prelude.{◌≡◌, ℕ, true, false, List, [], ◌∷◌, ◌++◌, IfSome, IfOk, Some, None, MatchOption, MatchResult};
ghost use Rattle.layout.specs.Lawful.{different};
ghost use Rattle.sheet_text.specs.Text.{rows, number_of};
ghost use Rattle.sheet_text.specs.Sheets.{if_different, actions_of, first_wrong};
ghost use Rattle.sheet_text.specs.Opening.{starts_with, actions_first, opening_rows};

use crate::text::{cut, next_line, number};
use crate::types::SheetFault;
use layout::kinds::Actions;
use layout::making::are_different;

fn action(word: &[u8]) -> Option<u8>
    ensures { result ≡ number_of 255 word.now }
{
    let n = number(255, word)?;
    Some(n as u8)
}

fn if_different(a: Actions) -> Option<Actions>
    ensures value { result ≡ if_different a }
    ensures different { IfSome result (λ x. different x ≡ true) }
{
    are_different(a).then_some(a)
}

// Reads the line of the four actions' numbers.
fn actions(line: &[u8]) -> Option<Actions>
    ensures value { result ≡ actions_of line.now }
    ensures different { IfSome result (λ x. different x ≡ true) }
{
    let (new, rest) = cut(line, b' ')?;
    let (change, rest) = cut(rest, b' ')?;
    let (topcut, bottomcut) = cut(rest, b' ')?;
    if_different(Actions {
        new: action(new)?,
        change: action(change)?,
        topcut: action(topcut)?,
        bottomcut: action(bottomcut)?,
    })
}

// What is behind the first line, where it reads so.
fn behind<'a>(text: &'a [u8], want: &[u8]) -> Option<&'a [u8]>
    ensures { MatchOption result (starts_with want.now (rows text.now) ≡ false) (λ p. rows text.now ≡ Some want.now ∷ rows p.now) }
{
    let (line, rest) = next_line(text)?;
    if line == want { Some(rest) } else { None }
}

// The actions of the first line, and what is behind it.
fn action_line<'a>(text: &'a [u8]) -> Option<(Actions, &'a [u8])>
    ensures value { MatchOption result (actions_first (rows text.now) ≡ None) (λ p. ((line : List ℕ) × ((rows text.now ≡ Some line ∷ rows p.1.now) × (actions_of line ≡ Some p.0)))) }
    ensures different { IfSome result (λ p. different p.0 ≡ true) }
{
    let (line, rest) = next_line(text)?;
    let a = actions(line)?;
    Some((a, rest))
}

// The actions of a text, and what is behind its first four lines.
pub(crate) fn opening<'a>(text: &'a [u8]) -> Result<(Actions, &'a [u8]), SheetFault>
    ensures value { MatchResult result (λ p. ((line : List ℕ) × ((rows text.now ≡ opening_rows line ++ rows p.1.now) × (actions_of line ≡ Some p.0)))) (λ e. first_wrong [] (rows text.now) ≡ Some e.line) }
    ensures different { IfOk result (λ p. different p.0 ≡ true) }
{
    let Some(rest) = behind(text, b"new change topcut bottomcut") else {
        return Err(SheetFault { line: 1 });
    };
    let Some((a, rest)) = action_line(rest) else {
        return Err(SheetFault { line: 2 });
    };
    let Some(rest) = behind(rest, b"") else {
        return Err(SheetFault { line: 3 });
    };
    let Some(rest) = behind(rest, b"template kind field offset width") else {
        return Err(SheetFault { line: 4 });
    };
    Ok((a, rest))
}
