ghost use Rattle.std.specs.Prelude.{◌≡◌, ℕ, ◌+◌, ◌-◌, ◌*◌, ◌^◌, min};
ghost use Rattle.coverage.specs.Geometry.{Scaled};
ghost use Rattle.coverage_svg.specs.Sizes.{pitch_for, Fits};

use crate::figures::Tenths;
use coverage::band::Band;
use coverage::geometry::scaled;

// where the first row begins, in units of the picture; the plot goes from 172 to 1132 in each row
pub const TOP: u64 = 118;

// the packet numbers that a picture shows: so many, from the first one on
#[derive(Clone, Copy)]
pub struct Span {
    pub first: u64,
    pub numbers: u64,
}

impl Span {
    // The numbers that a band tells.
    pub fn of(band: &Band) -> Span
        ensures { (result.first ≡ band.now.first) × (result.numbers ≡ band.now.since - band.now.first) }
    {
        Span {
            first: band.first(),
            numbers: band.numbers(),
        }
    }
}

// how a row is laid out: its height, the height of its band, of the mark of an adoption above it, and of its text
#[derive(Clone, Copy)]
pub struct Rows {
    pub pitch: u64,
    pub band: u64,
    pub tick: u64,
    pub text: u64,
}

impl Rows {
    // Where a row begins, from the first one on.
    pub fn top(&self, row: usize) -> u64
        ensures { result ≡ min (118 + min (row * self.now.pitch) (2 ^ 64 - 1)) (2 ^ 64 - 1) }
    {
        (row as u64).saturating_mul(self.pitch).saturating_add(TOP)
    }
}

// The layout of the rows for so many bands: the more, the lower.
pub fn rows_for(bands: usize) -> Rows
    ensures { (result.pitch ≡ pitch_for bands) × (Fits result) }
{
    if bands <= 8 {
        Rows {
            pitch: 38,
            band: 22,
            tick: 8,
            text: 13,
        }
    } else if bands <= 24 {
        Rows {
            pitch: 24,
            band: 13,
            tick: 6,
            text: 12,
        }
    } else {
        Rows {
            pitch: 16,
            band: 9,
            tick: 4,
            text: 11,
        }
    }
}

// Where a number stands, of so many from the plot's left edge to its right one: in tenths of a unit from the picture's edge.
pub fn place(number: u64, numbers: u64) -> Tenths
    ensures { (s : ℕ) × Scaled number numbers 9600 s × (result.0 ≡ min (s + 1720) (2 ^ 64 - 1)) }
{
    Tenths(scaled(number, numbers, 9600).saturating_add(1720))
}
