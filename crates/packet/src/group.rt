ghost use Rattle.std.specs.Prelude.{◌≡◌, [], ◌∷◌, MatchOption};
ghost use Rattle.message.specs.Meaning.{parts, entry_parts};

use crate::walk::head_of;
use layout::kinds::EntriesLayout;
use layout::width::Width;
use layout::wire::{bytes_of, number};

// the entries of a group that are still to come: `left` parts of `size` bytes
#[derive(Drop)]
pub struct Entries<'a> {
    pub(crate) rest: &'a [u8],
    pub(crate) size: usize,
    pub(crate) left: u64,
}

fn no_entries<'a>(part: &'a [u8]) -> Entries<'a>
    ensures { parts result.size result.left result.rest.now ≡ [] }
{
    Entries {
        rest: part,
        size: 0,
        left: 0,
    }
}

// The group behind the root block of an `entries` message.
pub fn entries_of<'a>(l: &EntriesLayout, part: &'a [u8]) -> Entries<'a>
    ensures { parts result.size result.left result.rest.now ≡ entry_parts l.now part.now }
{
    let Some(head) = head_of(part) else {
        return no_entries(part);
    };
    let start = 12 + usize::from(head.block);
    let Some(size) = number(part, start, Width::Two) else {
        return no_entries(part);
    };
    let Some(left) = number(part, start + 2, l.count) else {
        return no_entries(part);
    };
    Entries {
        rest: &part[start + 2 + bytes_of(l.count)..],
        size: size as usize,
        left,
    }
}

impl<'a> Entries<'a> {
    // The next entry's bytes, or None behind the last.
    pub fn next(&mut self) -> Option<&'a [u8]>
        ensures { MatchOption result (parts self.old.size self.old.left self.old.rest.now ≡ []) (λ e. parts self.old.size self.old.left self.old.rest.now ≡ e.now ∷ parts self.new.size self.new.left self.new.rest.now) }
    {
        if self.left == 0 {
            return None;
        }
        let rest = self.rest;
        let (entry, after) = rest.split_at(self.size.min(rest.len()));
        self.rest = after;
        self.left -= 1;
        Some(entry)
    }
}
