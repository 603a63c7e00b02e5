ghost use Rattle.std.specs.Prelude.{◌≡◌, ℕ, ◌≤◌, length, slice_index};
ghost use Rattle.settling.specs.Placed.{numbers_of, sizes_of};

// the number and the size of the packet at a place of the shelf
#[derive(Clone, Copy)]
pub struct Place {
    pub number: u64,
    pub size: usize,
}

// the highest packet heard, and what lies at each place of the shelf
#[derive(Clone, Copy)]
pub struct Places {
    pub heard: u64,
    pub at: [Place; 32],
    ghost places: { length at ≡ 32 },
    ghost low: { (p : ℕ) → slice_index (numbers_of at) p ≤ heard },
    ghost fit: { (p : ℕ) → slice_index (sizes_of at) p ≤ 1400 },
}
