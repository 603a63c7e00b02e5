ghost use Rattle.std.specs.Prelude.{◌≡◌, true, IfSome};
ghost use Rattle.sheet_text.specs.Names.{fields_of};
ghost use Rattle.sheet_text.specs.FieldLines.{allowed, sound, if_sound, field_line};

use crate::names::{field, fields_of, kind, width};
use crate::text::{cut, number};
use crate::types::{Field, FieldLine};
use layout::kinds::Spot;
use layout::making::{is_just, is_up_to};
use layout::wire::bytes_of;

// Whether a field may lie there.
fn is_allowed(field: Field, s: &Spot) -> bool
    ensures { result ≡ allowed field s.now }
{
    match field {
        Field::Security => is_up_to(8, s),
        Field::Action => is_just(1, s),
        Field::Side => is_just(1, s),
        Field::Position => is_up_to(4, s),
        Field::Price => is_just(8, s),
        Field::Size => is_up_to(8, s),
        Field::Oid => is_up_to(8, s),
        Field::Firm => is_up_to(4, s),
        Field::Value => is_up_to(8, s),
        Field::Last => is_up_to(4, s),
        Field::Bids => is_up_to(4, s),
        Field::Offers => is_up_to(4, s),
        Field::Stats => is_up_to(4, s),
        Field::Group => (s.offset == 0) & (bytes_of(s.width) <= 2),
    }
}

fn if_sound(x: FieldLine) -> Option<FieldLine>
    ensures value { result ≡ if_sound x }
    ensures sound { IfSome result (λ y. sound y ≡ true) }
{
    if fields_of(x.kind).contains(&x.field) && is_allowed(x.field, &x.spot) {
        Some(x)
    } else {
        None
    }
}

// Reads a field line: template, kind, field, offset and width, parted by one space.
pub(crate) fn field_line(line: &[u8]) -> Option<FieldLine>
    ensures value { result ≡ field_line line.now }
    ensures sound { IfSome result (λ y. sound y ≡ true) }
{
    let (template_word, rest) = cut(line, b' ')?;
    let (kind_word, rest) = cut(rest, b' ')?;
    let (field_word, rest) = cut(rest, b' ')?;
    let (offset_word, width_word) = cut(rest, b' ')?;
    if_sound(FieldLine {
        template: number(65535, template_word)?,
        kind: kind(kind_word)?,
        field: field(field_word)?,
        spot: Spot {
            offset: number(65535, offset_word)?,
            width: width(width_word)?,
        },
    })
}
