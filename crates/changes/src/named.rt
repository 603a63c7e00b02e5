ghost use Rattle.std.specs.Prelude.{◌≡◌, length};

// for each slot the highest number of a packet that names its instrument, and the deepest place of a side that a message of a
// watched instrument names
#[derive(Clone, Copy)]
pub struct Named {
    pub latest: [u64; 64],
    pub deepest: u64,
    ghost long: { length latest ≡ 64 },
}
