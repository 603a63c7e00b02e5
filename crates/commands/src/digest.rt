ghost use Rattle.std.specs.Prelude.{◌≡◌};
ghost use Rattle.commands.specs.Digest.{mixed, digest_of};

const BASIS: u64 = 14695981039346656037;

const PRIME: u64 = 1099511628211;

// The digest with one byte more.
fn mix(digest: u64, byte: u8) -> u64
    ensures { result ≡ mixed digest byte }
{
    (digest ^ u64::from(byte)).wrapping_mul(PRIME)
}

// The 64-bit FNV-1a of these bytes.
pub fn digest(bytes: &[u8]) -> u64
    ensures { result ≡ digest_of bytes.now }
{
    bytes.iter().fold(BASIS, |sum, b| mix(sum, *b))
}
