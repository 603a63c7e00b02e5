ghost use Rattle.std.specs.Prelude.{◌≡◌, ◌<◌, vec_len};

// the highest level noted in each of 1,024 columns, where each column holds `width` numbers, the first column those from 0 on
#[derive(Drop)]
pub struct Levels {
    // kept: a cell holds a level and no shade, since adoptions have columns too, and each fact of what is noted compares levels
    pub(crate) cells: Vec<u8>,
    pub(crate) width: u64,
    ghost full: { vec_len cells ≡ 1024 },
    ghost wide: { 0 < width },
}
