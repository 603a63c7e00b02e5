ghost use Rattle.std.specs.Prelude.{◌≡◌, ◌≤◌, length};
ghost use Rattle.coverage.specs.Cells.{Lifted, Halved};

// Lifts the cells from one place to before another to a level, where they are below it.
pub(crate) fn lift(cells: &mut [u8], from: usize, end: usize, level: u8)
    requires { (from ≤ end) × (end ≤ length cells.old) }
    ensures { Lifted cells.old cells.new from end level }
{
    let lifted = &mut cells[from..end];
    for cell in lifted.iter_mut() {
        *cell = (*cell).max(level);
    }
}

// Puts the higher of each two neighbours into the lower half, and 0 into the upper half.
pub(crate) fn halve(cells: &mut [u8])
    requires { length cells.old ≡ 1024 }
    ensures { Halved cells.old cells.new }
{
    // kept: a cell is written while two cells further on in the same slice are read, which no iterator lends at once
    for k in 0..512 {
        cells[k] = cells[2 * k].max(cells[2 * k + 1]);
    }
    cells[512..].fill(0);
}
