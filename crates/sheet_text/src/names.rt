ghost use Rattle.std.specs.Prelude.{◌≡◌};
ghost use Rattle.sheet_text.specs.Names.{fields_of, kind_of, field_of, width_of};

use crate::types::Field;
use layout::kinds::Kind;
use layout::width::Width;

// The fields of a kind.
pub(crate) fn fields_of(kind: Kind) -> &'static [Field]
    ensures { result.now ≡ fields_of kind }
{
    match kind {
        Kind::Order => &[
            Field::Security,
            Field::Action,
            Field::Side,
            Field::Position,
            Field::Price,
            Field::Size,
            Field::Oid,
            Field::Firm,
        ],
        Kind::Delete => &[Field::Security, Field::Side, Field::Position],
        Kind::Mass => &[Field::Security, Field::Action, Field::Side, Field::Position],
        Kind::Empty => &[Field::Security],
        Kind::Stat => &[Field::Security, Field::Value],
        Kind::Header => &[
            Field::Security,
            Field::Last,
            Field::Bids,
            Field::Offers,
            Field::Stats,
        ],
        Kind::Entries => &[
            Field::Security,
            Field::Group,
            Field::Side,
            Field::Position,
            Field::Price,
            Field::Size,
            Field::Oid,
            Field::Firm,
        ],
    }
}

// The kind that a word names.
pub(crate) fn kind(word: &[u8]) -> Option<Kind>
    ensures { result ≡ kind_of word.now }
{
    match word {
        b"order" => Some(Kind::Order),
        b"delete" => Some(Kind::Delete),
        b"mass" => Some(Kind::Mass),
        b"empty" => Some(Kind::Empty),
        b"stat" => Some(Kind::Stat),
        b"header" => Some(Kind::Header),
        b"entries" => Some(Kind::Entries),
        _ => None,
    }
}

// The field that a word names.
pub(crate) fn field(word: &[u8]) -> Option<Field>
    ensures { result ≡ field_of word.now }
{
    match word {
        b"security" => Some(Field::Security),
        b"action" => Some(Field::Action),
        b"side" => Some(Field::Side),
        b"position" => Some(Field::Position),
        b"price" => Some(Field::Price),
        b"size" => Some(Field::Size),
        b"oid" => Some(Field::Oid),
        b"firm" => Some(Field::Firm),
        b"value" => Some(Field::Value),
        b"last" => Some(Field::Last),
        b"bids" => Some(Field::Bids),
        b"offers" => Some(Field::Offers),
        b"stats" => Some(Field::Stats),
        b"group" => Some(Field::Group),
        _ => None,
    }
}

// The width that a word names.
pub(crate) fn width(word: &[u8]) -> Option<Width>
    ensures { result ≡ width_of word.now }
{
    match word {
        b"1" => Some(Width::One),
        b"2" => Some(Width::Two),
        b"4" => Some(Width::Four),
        b"8" => Some(Width::Eight),
        _ => None,
    }
}
