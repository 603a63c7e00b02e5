ghost use Rattle.std.specs.Prelude.{◌≡◌};
ghost use Rattle.layout.specs.Reach.{reach, order_reach, group_reach, root_reach, entry_reach};

use crate::kinds::{EntriesLayout, Layout, OrderLayout, Spot};
use crate::wire::bytes_of;

// How far a block must reach for a field.
pub fn reach_of(s: &Spot) -> usize
    ensures { result ≡ reach s.now }
{
    usize::from(s.offset) + bytes_of(s.width)
}

fn order_reach(l: &OrderLayout) -> usize
    ensures { result ≡ order_reach l.now }
{
    let front = reach_of(&l.security)
        .max(reach_of(&l.action))
        .max(reach_of(&l.side).max(reach_of(&l.position)));
    let back = reach_of(&l.price)
        .max(reach_of(&l.size))
        .max(reach_of(&l.oid).max(reach_of(&l.firm)));
    front.max(back)
}

fn group_reach(l: &EntriesLayout) -> usize
    ensures { result ≡ group_reach l.now }
{
    let back = reach_of(&l.price)
        .max(reach_of(&l.size))
        .max(reach_of(&l.oid).max(reach_of(&l.firm)));
    reach_of(&l.side).max(reach_of(&l.position)).max(back)
}

// The least length of a root block with these fields.
pub fn root_reach(layout: &Layout) -> usize
    ensures { result ≡ root_reach layout.now }
{
    match layout {
        Layout::Order(l) => order_reach(l),
        Layout::Delete(l) => reach_of(&l.security).max(reach_of(&l.side).max(reach_of(
            &l.position,
        ))),
        Layout::Mass(l) => {
            reach_of(&l.security)
                .max(reach_of(&l.action))
                .max(reach_of(&l.side).max(reach_of(&l.position)))
        }
        Layout::Empty(l) => reach_of(&l.security),
        Layout::Stat(l) => reach_of(&l.security).max(reach_of(&l.value)),
        Layout::Header(l) => {
            let counts = reach_of(&l.bids).max(reach_of(&l.offers).max(reach_of(&l.stats)));
            reach_of(&l.security).max(reach_of(&l.last)).max(counts)
        }
        Layout::Entries(l) => reach_of(&l.security),
    }
}

// The least length of an entry with these fields.
pub fn entry_reach(layout: &Layout) -> usize
    ensures { result ≡ entry_reach layout.now }
{
    match layout {
        Layout::Entries(l) => group_reach(l),
        _ => 0,
    }
}
