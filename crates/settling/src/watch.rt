ghost use Rattle.std.specs.Prelude.{◌≡◌, ◌≤◌, true, length, take};
ghost use Rattle.recovery.specs.State.{distinct};
ghost use Rattle.settling.specs.Slots.{Near};

// the watched instruments, all different, each at its slot; `first` tells for the last digits of an instrument where a
// search for it may start
// kept: a sheet's table of places has another size, another key and another law, so that one type for both would share three lines
#[derive(Clone, Copy)]
pub struct Watch {
    pub(crate) ids: [u64; 64],
    pub(crate) count: usize,
    pub(crate) first: [u8; 1024],
    ghost few: { count ≤ 64 },
    ghost long: { length ids ≡ 64 },
    ghost hints: { length first ≡ 1024 },
    ghost apart: { distinct (take count ids) ≡ true },
    ghost near: { Near first (take count ids) },
}
