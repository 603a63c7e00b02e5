ghost use Rattle.std.specs.Prelude.{◌≡◌, length};

// a panel: a place for the latest number of each template that is listed
#[derive(Clone, Copy)]
pub struct Numbers {
    pub(crate) places: [Option<i64>; 16],
    ghost size: { length places ≡ 16 },
}
