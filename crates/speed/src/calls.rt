ghost use Rattle.std.specs.Prelude.{length};
ghost use Rattle.std.specs.Iterator.{at_most};

// what an entry of a file of calls says: which call of the receiver it is, or that its bytes are written into the shelf
#[derive(Clone, Copy)]
pub enum Kind {
    Incremental,
    Snapshot,
    Poke,
    Join,
    Leave,
}

// an entry of a file of calls: what it says, and the bytes that it brings
#[derive(Clone, Copy)]
pub struct Entry<'a> {
    pub kind: Kind,
    pub bytes: &'a [u8],
}

// what is left of a file of calls: each a byte for its kind, two for the length of what it brings, and those bytes
#[derive(Drop)]
pub struct Calls<'a> {
    pub rest: &'a [u8],
}

impl From<u8> for Kind {
    fn from(number: u8) -> Kind {
        match number {
            0 => Kind::Incremental,
            1 => Kind::Snapshot,
            3 => Kind::Join,
            4 => Kind::Leave,
            _ => Kind::Poke,
        }
    }
}

// A file that is cut ends there.
impl<'a> Iterator for Calls<'a> {
    type Item = Entry<'a>;

    ghost remaining = { λ s. at_most (length s.rest.now) };

    fn next(&mut self) -> Option<Entry<'a>> {
        let [kind, low, high, behind @ ..] = self.rest else {
            return None;
        };
        let n = usize::from(u16::from_le_bytes([*low, *high]));
        let (bytes, after) = behind.split_at_checked(n)?;
        self.rest = after;
        Some(Entry {
            kind: Kind::from(*kind),
            bytes,
        })
    }
}

// Writes into the shelf what a poke says, where it lies inside: two bytes say where, and the others are written.
pub fn poke(shelf: &mut [u8], bytes: &[u8]) {
    let [low, high, written @ ..] = bytes else {
        return;
    };
    let at = usize::from(u16::from_le_bytes([*low, *high]));
    let n = written.len();
    if at <= shelf.len() && n <= shelf.len() - at {
        shelf[at..at + n].copy_from_slice(written);
    }
}
