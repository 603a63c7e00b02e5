#![tactic(auto)]

ghost use Rattle.std.specs.Prelude.{◌≡◌, [], length, IfOk, MatchOption};
ghost use Rattle.hex_digits.specs.Hex.{digit_of, byte_of, digits_of, word_bytes};

use std::alloc::AllocError;

fn digit(c: u8) -> Option<u8>
    ensures { result ≡ digit_of c }
{
    match c {
        b'0'..=b'9' => Some(c - b'0'),
        b'a'..=b'f' => Some(c - b'a' + 10),
        _ => None,
    }
}

// The byte that two digits stand for.
fn byte(a: u8, b: u8) -> Option<u8>
    ensures { result ≡ byte_of (digit_of a) (digit_of b) }
{
    let x = digit(a)?;
    let y = digit(b)?;
    Some(x * 16 + y)
}

// Fills `room` with the bytes that a word stands for, where it stands for some: digits, at least two, or a lone `-` for no byte. It
// tells how many; where the word stands for none, `room` is empty then.
pub fn decode(word: &[u8], room: &mut Vec<u8>) -> Result<Option<usize>, AllocError>
    ensures { IfOk result (λ count. MatchOption (word_bytes word.now) ((count ≡ None) × (room.new.items ≡ [])) (λ bytes. (count ≡ Some (length bytes)) × (room.new.items ≡ bytes))) }
{
    room.clear();
    match word {
        b"-" => Ok(Some(0)),
        [] | [_] => Ok(None),
        _ => digits(word, room),
    }
}

// Fills room that is empty with the bytes of an even number of digits.
fn digits(word: &[u8], room: &mut Vec<u8>) -> Result<Option<usize>, AllocError>
    requires { room.old.items ≡ [] }
    ensures { IfOk result (λ count. MatchOption (digits_of word.now) ((count ≡ None) × (room.new.items ≡ [])) (λ bytes. (count ≡ Some (length bytes)) × (room.new.items ≡ bytes))) }
{
    let mut left = word;
    while let [a, b, rest @ ..] = left {
        let Some(byte) = byte(*a, *b) else {
            room.clear();
            return Ok(None);
        };
        room.push(byte)?;
        left = rest;
    }
    if !left.is_empty() {
        room.clear();
        return Ok(None);
    }
    Ok(Some(room.len()))
}
