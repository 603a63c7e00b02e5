use layout::kinds::{Actions, EntriesLayout, MassLayout, OrderLayout, Spot};
use layout::width::Width;
use message::message::{Message, Piece};
use message::values::{HeaderFields, Order};
use orders::order_store::OrderStore;
use orders::side::Side;
use std::test::Fail;
use store::fault::StoreFault;
use store::store::Store;

fn one(offset: u16) -> Spot {
    Spot {
        offset,
        width: Width::One,
    }
}

fn price() -> Spot {
    Spot {
        offset: 4,
        width: Width::Eight,
    }
}

fn actions() -> Actions {
    Actions {
        new: 0,
        change: 1,
        topcut: 4,
        bottomcut: 3,
    }
}

// Applies an `order` message to slot 0.
fn order(s: &mut OrderStore, action: u8, side: u8, at: u8, oid: u8) -> Result<(), StoreFault> {
    let l = OrderLayout {
        security: one(0),
        action: one(1),
        side: one(2),
        position: one(3),
        price: price(),
        size: one(12),
        oid: one(13),
        firm: one(14),
    };
    let part = [
        0, 0, 0, 0, 0, 0, 0, 0, 0, 0, 0, 0, 7, action, side, at, 0, 0, 0, 0, 0, 0, 0, 0, 5, oid, 9,
    ];
    s.apply(0, &Message::Order(&l, &part))
}

// Applies a `mass` message to slot 0.
fn mass(s: &mut OrderStore, action: u8, side: u8, at: u8) -> Result<(), StoreFault> {
    let l = MassLayout {
        security: one(0),
        action: one(1),
        side: one(2),
        position: one(3),
    };
    let part = [0, 0, 0, 0, 0, 0, 0, 0, 0, 0, 0, 0, 7, action, side, at];
    s.apply(0, &Message::Mass(&l, &part))
}

// Adds an entry to the staged book.
fn entry(s: &mut OrderStore, side: u8, at: u8, oid: u8) -> Result<(), StoreFault> {
    let l = EntriesLayout {
        security: one(0),
        count: Width::One,
        side: one(2),
        position: one(3),
        price: price(),
        size: one(12),
        oid: one(13),
        firm: one(14),
    };
    let part = [0, 0, side, at, 0, 0, 0, 0, 0, 0, 0, 0, 5, oid, 9];
    s.add(&Piece::Entry(&l, &part))
}

// Whether slot 0 shows just these orders on a side.
fn shows(s: &OrderStore, side: Side, oids: &[u64]) -> bool {
    if s.count(0, side) != oids.len() {
        return false;
    }
    for (k, oid) in oids.iter().enumerate() {
        if !s.order(0, side, k + 1).is_some_and(|x| x.oid == *oid) {
            return false;
        }
    }
    true
}

// The orders of the worked book: four bids and three offers.
fn worked(s: &mut OrderStore) -> Result<(), StoreFault> {
    order(s, 0, 48, 1, 1)?;
    order(s, 0, 48, 2, 2)?;
    order(s, 0, 48, 3, 3)?;
    order(s, 0, 48, 4, 4)?;
    order(s, 0, 49, 1, 5)?;
    order(s, 0, 49, 2, 6)?;
    order(s, 0, 49, 3, 7)
}

#[test]
fn orders_move_by_position(rt: HostRuntime) -> Result<(), Fail> {
    let mut table = [Order::default(); 64];
    let mut s = OrderStore::open(actions(), 8, &mut table);
    order(&mut s, 0, 48, 1, 1)?;
    order(&mut s, 0, 48, 2, 2)?;
    order(&mut s, 0, 48, 3, 3)?;
    order(&mut s, 0, 48, 2, 4)?;
    assert!(rt; shows(&s, Side::Bid, &[1, 4, 2, 3]));
    mass(&mut s, 4, 48, 2)?;
    assert!(rt; shows(&s, Side::Bid, &[2, 3]));
    mass(&mut s, 3, 48, 2)?;
    assert!(rt; shows(&s, Side::Bid, &[2]));
    Ok(())
}

#[test]
fn swept_bids_leave_the_last(rt: HostRuntime) -> Result<(), Fail> {
    let mut table = [Order::default(); 64];
    let mut s = OrderStore::open(actions(), 8, &mut table);
    worked(&mut s)?;
    mass(&mut s, 4, 48, 3)?;
    assert!(rt; shows(&s, Side::Bid, &[4]));
    assert!(rt; shows(&s, Side::Offer, &[5, 6, 7]));
    Ok(())
}

#[test]
fn cancelled_bids_leave_the_offers(rt: HostRuntime) -> Result<(), Fail> {
    let mut table = [Order::default(); 64];
    let mut s = OrderStore::open(actions(), 8, &mut table);
    worked(&mut s)?;
    mass(&mut s, 3, 48, 1)?;
    assert!(rt; shows(&s, Side::Bid, &[]));
    assert!(rt; shows(&s, Side::Offer, &[5, 6, 7]));
    Ok(())
}

#[test]
fn a_book_is_adopted_once_whole(rt: HostRuntime) -> Result<(), Fail> {
    let mut table = [Order::default(); 64];
    let mut s = OrderStore::open(actions(), 8, &mut table);
    s.stage(&HeaderFields {
        last: 9,
        bids: 2,
        offers: 1,
        stats: 0,
    })?;
    entry(&mut s, 48, 1, 1)?;
    entry(&mut s, 49, 1, 2)?;
    assert!(rt; s.adopt(0) == Err(StoreFault::Owed));
    assert!(rt; entry(&mut s, 48, 3, 3) == Err(StoreFault::Unfit));
    entry(&mut s, 48, 2, 3)?;
    s.adopt(0)?;
    assert!(rt; shows(&s, Side::Bid, &[1, 3]));
    assert!(rt; shows(&s, Side::Offer, &[2]));
    Ok(())
}
