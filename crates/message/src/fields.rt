ghost use Rattle.std.specs.Prelude.{◌≡◌, Some, None, MatchOption};
ghost use Rattle.message.specs.Meaning.{root_block, price_at, value_at, order_at, order_fields, delete_fields, mass_fields, stat_fields, header_fields, entry_fields, security};
ghost use Rattle.message.specs.Views.{view};

use crate::message::Message;
use crate::values::{
    DeleteFields, EntryFields, HeaderFields, MassFields, Order, OrderFields, StatFields,
};
use layout::kinds::{
    DeleteLayout, EntriesLayout, HeaderLayout, MassLayout, OrderLayout, Spot, StatLayout,
};
use layout::width::Width;
use layout::wire::{field, number};

// The root block of a message, behind its header.
pub fn root_block<'a>(part: &'a [u8]) -> Option<&'a [u8]>
    ensures { MatchOption result (root_block part.now ≡ None) (λ b. root_block part.now ≡ Some b.now) }
{
    let [_, _, _, _, _, _, _, _, _, _, _, _, root @ ..] = part else {
        return None;
    };
    Some(root)
}

// A price, which is signed.
fn price(block: &[u8], spot: &Spot) -> Option<i64>
    ensures { result ≡ price_at block.now spot.now }
{
    let n = number(block, usize::from(spot.offset), Width::Eight)?;
    Some(n.cast_signed())
}

// A statistic's number: signed where it has eight bytes.
fn value(block: &[u8], spot: &Spot) -> Option<i64>
    ensures { result ≡ value_at block.now spot.now }
{
    match spot.width {
        Width::Eight => price(block, spot),
        Width::One | Width::Two | Width::Four => Some(field(block, spot)? as i64),
    }
}

// The order whose fields lie at these spots.
fn order_at(
    block: &[u8],
    at_price: &Spot,
    at_size: &Spot,
    at_oid: &Spot,
    at_firm: &Spot,
) -> Option<Order>
    ensures { result ≡ order_at block.now at_price.now at_size.now at_oid.now at_firm.now }
{
    let price = price(block, at_price)?;
    let size = field(block, at_size)?;
    let oid = field(block, at_oid)?;
    let firm = field(block, at_firm)?;
    Some(Order {
        price,
        size,
        oid,
        firm,
    })
}

// The fields of an `order` message.
pub fn order_fields(l: &OrderLayout, part: &[u8]) -> Option<OrderFields>
    ensures { result ≡ order_fields l.now part.now }
{
    let root = root_block(part)?;
    let action = field(root, &l.action)?;
    let side = field(root, &l.side)?;
    let position = field(root, &l.position)?;
    let order = order_at(root, &l.price, &l.size, &l.oid, &l.firm)?;
    Some(OrderFields {
        action,
        side,
        position,
        order,
    })
}

// The fields of a `delete` message.
pub fn delete_fields(l: &DeleteLayout, part: &[u8]) -> Option<DeleteFields>
    ensures { result ≡ delete_fields l.now part.now }
{
    let root = root_block(part)?;
    let side = field(root, &l.side)?;
    let position = field(root, &l.position)?;
    Some(DeleteFields { side, position })
}

// The fields of a `mass` message.
pub fn mass_fields(l: &MassLayout, part: &[u8]) -> Option<MassFields>
    ensures { result ≡ mass_fields l.now part.now }
{
    let root = root_block(part)?;
    let action = field(root, &l.action)?;
    let side = field(root, &l.side)?;
    let position = field(root, &l.position)?;
    Some(MassFields {
        action,
        side,
        position,
    })
}

// The fields of a `stat` message.
pub fn stat_fields(l: &StatLayout, part: &[u8]) -> Option<StatFields>
    ensures { result ≡ stat_fields l.now part.now }
{
    let root = root_block(part)?;
    let value = value(root, &l.value)?;
    let template = number(part, 6, Width::Two)?;
    Some(StatFields { template, value })
}

// The fields of a `header` message.
pub fn header_fields(l: &HeaderLayout, part: &[u8]) -> Option<HeaderFields>
    ensures { result ≡ header_fields l.now part.now }
{
    let root = root_block(part)?;
    let last = field(root, &l.last)?;
    let bids = field(root, &l.bids)?;
    let offers = field(root, &l.offers)?;
    let stats = field(root, &l.stats)?;
    Some(HeaderFields {
        last,
        bids,
        offers,
        stats,
    })
}

// The fields of one entry of a group.
pub fn entry_fields(l: &EntriesLayout, entry: &[u8]) -> Option<EntryFields>
    ensures { result ≡ entry_fields l.now entry.now }
{
    let side = field(entry, &l.side)?;
    let position = field(entry, &l.position)?;
    let order = order_at(entry, &l.price, &l.size, &l.oid, &l.firm)?;
    Some(EntryFields {
        side,
        position,
        order,
    })
}

// The instrument that a message is about.
pub fn security_of(m: &Message) -> Option<u64>
    ensures { result ≡ security (view m.now) }
{
    let (spot, part) = match *m {
        Message::Order(l, part) => (&l.security, part),
        Message::Delete(l, part) => (&l.security, part),
        Message::Mass(l, part) => (&l.security, part),
        Message::Empty(l, part) => (&l.security, part),
        Message::Stat(l, part) => (&l.security, part),
        Message::Header(l, part) => (&l.security, part),
        Message::Entries(l, part) => (&l.security, part),
        Message::Other(_) => return None,
    };
    let root = root_block(part)?;
    field(root, spot)
}
