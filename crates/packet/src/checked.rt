ghost use Rattle.std.specs.Prelude.{◌≡◌, ◌+◌, ◌≤◌, true, length, is_ok};
ghost use Rattle.packet.specs.Rules.{packet_check, walk_check};

use layout::sheet::Sheet;

// the bytes of a packet that keeps every rule, with the sheet it was checked by
#[derive(Drop)]
pub struct Checked<'a, 's> {
    pub(crate) bytes: &'a [u8],
    pub(crate) sheet: &'s Sheet,
    ghost whole: { is_ok (packet_check sheet.now bytes.now) ≡ true },
}

// what is left of a checked packet, from the byte `at` on
#[derive(Drop)]
pub struct Walk<'a, 's> {
    pub(crate) rest: &'a [u8],
    pub(crate) at: usize,
    pub(crate) sheet: &'s Sheet,
    ghost whole: { is_ok (walk_check sheet.now 0 rest.now at) ≡ true },
    ghost near: { at + length rest.now ≤ 1400 },
}
