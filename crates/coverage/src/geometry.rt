ghost use Rattle.std.specs.Prelude.{◌≡◌, length};
ghost use Rattle.coverage.specs.Geometry.{Scaled, Step, RunOf};

// A part of a whole on a scale, rounded down.
pub fn scaled(part: u64, whole: u64, scale: u16) -> u64
    ensures { Scaled part whole scale result }
{
    if whole == 0 {
        return 0;
    }
    let least = part.min(whole);
    (u128::from(least) * u128::from(scale) / u128::from(whole)) as u64
}

// The smallest round number that goes at most ten times into a number.
pub fn step(n: u64) -> u64
    ensures { Step n result }
{
    let mut ten: u64 = 1;
    while n / ten > 10 {
        if n / (2 * ten) <= 10 {
            return 2 * ten;
        }
        if n / (5 * ten) <= 10 {
            return 5 * ten;
        }
        ten *= 10;
    }
    ten
}

// Where the cells that are like the one at a place end.
pub fn run_end(cells: &[u8], from: usize) -> usize
    ensures { RunOf cells.now from result }
{
    let Some(first) = cells.get(from) else {
        return cells.len();
    };
    let run = cells[from..].iter().position(|cell| cell != first);
    run.map_or(cells.len(), |run| from + run)
}
