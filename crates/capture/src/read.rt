ghost use Rattle.std.specs.Prelude.{◌≡◌, ◌+◌, ◌≤◌, length};
ghost use Rattle.capture.specs.Numbers.{number_at, big_at};

use crate::order::ByteOrder;

// The number of four bytes at `at`.
pub(crate) fn four(order: ByteOrder, bytes: &[u8], at: usize) -> u32
    requires { at + 4 ≤ length bytes.now }
    ensures { result ≡ number_at order bytes.now at 4 }
{
    let word = [bytes[at], bytes[at + 1], bytes[at + 2], bytes[at + 3]];
    match order {
        ByteOrder::Little => u32::from_le_bytes(word),
        ByteOrder::Big => u32::from_be_bytes(word),
    }
}

// The number of two bytes at `at`, the highest byte first.
// kept: a number of another type, and of these none comes with the lowest byte first
pub(crate) fn two(bytes: &[u8], at: usize) -> u16
    requires { at + 2 ≤ length bytes.now }
    ensures { result ≡ big_at bytes.now at 2 }
{
    u16::from_be_bytes([bytes[at], bytes[at + 1]])
}
