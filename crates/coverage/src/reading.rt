ghost use Rattle.std.specs.Prelude.{◌≡◌, ◌-◌, ◌*◌, ◌^◌, min, slice_index};
ghost use Rattle.coverage.specs.Geometry.{Scaled, RunOf};

use crate::band::Band;
use crate::coverage::Coverage;
use crate::geometry;
use crate::levels::Levels;

impl Levels {
    // The level of a column; 0 past the last one.
    pub fn level(&self, column: usize) -> u8
        ensures { result ≡ slice_index self.now.cells.items column }
    {
        self.cells.get(column).copied().unwrap_or(0)
    }

    // The first number of a column, or the highest of 64 bits where that is lower.
    pub fn edge(&self, column: usize) -> u64
        ensures { result ≡ min (column * self.now.width) (2 ^ 64 - 1) }
    {
        (column as u64).saturating_mul(self.width)
    }

    // How many numbers a column has.
    pub fn width(&self) -> u64
        ensures { result ≡ self.now.width }
    {
        self.width
    }

    // Where the columns that are like the one at a place end.
    pub fn run_end(&self, column: usize) -> usize
        ensures { RunOf self.now.cells.items column result }
    {
        geometry::run_end(self.cells.as_slice(), column)
    }
}

impl Band {
    // The number that the band begins with.
    pub fn first(&self) -> u64
        ensures { result ≡ self.now.first }
    {
        self.first
    }

    // How many numbers are told, from the first one on.
    pub fn numbers(&self) -> u64
        ensures { result ≡ self.now.since - self.now.first }
    {
        self.since - self.first
    }

    // The book by column: the level of its worst shade.
    pub fn shades(&self) -> &Levels
        ensures { result.now ≡ self.now.shades }
    {
        &self.shades
    }

    // The adoptions by column: 1 where there is one.
    pub fn adoptions(&self) -> &Levels
        ensures { result.now ≡ self.now.adoptions }
    {
        &self.adoptions
    }

    // At how many numbers of a thousand the book was current, rounded down.
    pub fn share(&self) -> u64
        ensures { Scaled self.now.current (self.now.since - self.now.first) 1000 result }
    {
        geometry::scaled(self.current, self.since - self.first, 1000)
    }
}

impl Coverage {
    // The bands by slot.
    pub fn bands(&self) -> &[Band]
        ensures { result.now ≡ self.now.bands.items }
    {
        self.bands.as_slice()
    }
}
