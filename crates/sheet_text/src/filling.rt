ghost use Rattle.std.specs.Prelude.{◌≡◌, [], drop, Some, MatchResult, OnOk};
ghost use Rattle.sheet_text.specs.Text.{rows};
ghost use Rattle.sheet_text.specs.Sheets.{first_wrong, field_lines, answer};
ghost use Rattle.sheet_text.specs.Laws.{Accepted, RefusedAt, Honoured};
ghost use Rattle.sheet_text.specs.Meaning.{listing, actions_in, templates_in};

use crate::building::build;
use crate::opening::opening;
use crate::reading::read_fields;
use crate::types::{Field, FieldLine, SheetFault};
use layout::kinds::{Kind, Spot};
use layout::sheet::Sheet;
use layout::width::Width;

const BLANK: FieldLine = FieldLine {
    template: 0,
    kind: Kind::Order,
    field: Field::Security,
    spot: Spot {
        offset: 0,
        width: Width::One,
    },
};

fn load(sheet: &mut Sheet, text: &[u8]) -> Result<(), SheetFault>
    ensures answer { result ≡ answer (first_wrong [] (rows text.now)) }
    ensures filled { MatchResult result (λ _. (actions_in (rows text.now) ≡ Some sheet.new.actions) × (listing sheet.new.templates.items ≡ templates_in (rows text.now))) (λ _. sheet.new ≡ sheet.old) }
{
    let (actions, rest) = opening(text)?;
    let mut lines = [BLANK; 320];
    let n = read_fields(rest, &mut lines)?;
    build(sheet, actions, &lines[0..n]);
    Ok(())
}

// Fills a sheet by its text, or refuses the text and leaves the sheet as it was.
pub fn fill(sheet: &mut Sheet, text: &[u8]) -> Result<(), SheetFault>
    ensures answer { result ≡ answer (first_wrong [] (rows text.now)) }
    ensures filled { MatchResult result (λ _. (actions_in (rows text.now) ≡ Some sheet.new.actions) × (listing sheet.new.templates.items ≡ templates_in (rows text.now))) (λ _. sheet.new ≡ sheet.old) }
    ensures judged { MatchResult result (λ _. Accepted (rows text.now)) (λ e. RefusedAt (rows text.now) e.line) }
    ensures honoured { OnOk result (Honoured sheet.new.templates.items (field_lines (drop 4 (rows text.now)))) }
{
    load(sheet, text)
}
