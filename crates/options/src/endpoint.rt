ghost use Rattle.std.specs.Prelude.{◌≡◌};
ghost use Rattle.options.specs.Endpoints.{address_of, endpoint_of};

use capture::endpoint::Endpoint;
use commands::number::decimal_in;
use sheet_text::text::cut;

// The address that a word says.
fn address_in(word: &[u8]) -> Option<u32>
    ensures { result ≡ address_of word.now }
{
    let (first, rest) = cut(word, b'.')?;
    let (second, rest) = cut(rest, b'.')?;
    let (third, fourth) = cut(rest, b'.')?;
    let a = decimal_in(first)?;
    let b = decimal_in(second)?;
    let c = decimal_in(third)?;
    let d = decimal_in(fourth)?;
    Some(u32::from_be_bytes([a, b, c, d]))
}

// The address and port that a word says.
pub fn endpoint_in(word: &[u8]) -> Option<Endpoint>
    ensures { result ≡ endpoint_of word.now }
{
    let (before, after) = cut(word, b':')?;
    let address = address_in(before)?;
    let port = decimal_in(after)?;
    Some(Endpoint { address, port })
}
