ghost use Rattle.std.specs.Prelude.{◌≡◌, ℕ, ◌*◌, ◌<◌, ◌≤◌, length, slice_index};

use message::values::Order;

// rows of orders in a lent table: row r has `lens[r]` orders, from place r * `depth` of the table on
// kept: lengths beside a lent table, since a store takes no memory of its own
#[derive(Drop)]
pub struct Rows<'t> {
    pub table: &'t mut [Order],
    pub lens: [usize; 130],
    pub depth: usize,
    pub count: usize,
    ghost size: { length lens ≡ 130 },
    ghost few: { count ≤ 130 },
    ghost room: { count * depth ≤ length table.now },
    ghost within: { (r : ℕ) → r < count → slice_index lens r ≤ depth },
}
