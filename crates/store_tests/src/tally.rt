ghost use Rattle.std.specs.Prelude.{◌≡◌, length};

// counts of statistics for four slots, and one staged
#[derive(Drop)]
pub struct Tally {
    pub(crate) slots: [u32; 4],
    pub(crate) staged: u32,
    pub(crate) owed: u32,
    ghost room: { length slots ≡ 4 },
}
