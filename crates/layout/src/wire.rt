ghost use Rattle.std.specs.Prelude.{◌≡◌, ◌^◌, ◌<◌};
ghost use Rattle.std.specs.Int.{w64};
ghost use Rattle.std.proofs.Common.{to_z};
ghost use Rattle.std.specs.Option.{option_map};
ghost use Rattle.layout.specs.Wire.{bytes_of, number_at, field_at};

use crate::kinds::Spot;
use crate::width::Width;

// The number at the front of `part`.
fn front(part: &[u8], width: Width) -> Option<u64>
    ensures { result ≡ number_at part.now 0 (bytes_of width) }
{
    match width {
        Width::One => {
            let [a, ..] = part else {
                return None;
            };
            Some(u64::from(*a))
        }
        Width::Two => {
            let [a, b, ..] = part else {
                return None;
            };
            Some(u64::from(u16::from_le_bytes([*a, *b])))
        }
        Width::Four => {
            let [a, b, c, d, ..] = part else {
                return None;
            };
            Some(u64::from(u32::from_le_bytes([*a, *b, *c, *d])))
        }
        Width::Eight => {
            let [a, b, c, d, e, f, g, h, ..] = part else {
                return None;
            };
            Some(u64::from_le_bytes([*a, *b, *c, *d, *e, *f, *g, *h]))
        }
    }
}

// The number of that width at an offset, where the bytes reach that far.
pub fn number(bytes: &[u8], offset: usize, width: Width) -> Option<u64>
    ensures { result ≡ number_at bytes.now offset (bytes_of width) }
{
    if offset > bytes.len() {
        return None;
    }
    front(&bytes[offset..], width)
}

// The field at a spot of a block or an entry, counted from 0.
pub fn field(block: &[u8], spot: &Spot) -> Option<u64>
    ensures { result ≡ field_at block.now spot.now }
{
    number(block, usize::from(spot.offset), spot.width)
}

// How many bytes a width stands for.
pub fn bytes_of(width: Width) -> usize
    ensures { result ≡ bytes_of width }
{
    match width {
        Width::One => 1,
        Width::Two => 2,
        Width::Four => 4,
        Width::Eight => 8,
    }
}
