use crate::calls::{Calls, Entry};
use crate::feeding::Feeding;
use commands::digest::digest;
use message::values::Order;
use orders::order_store::OrderStore;
use orders::side::Side;
use recovery::answers::Standing;

// the words of a digest so far
#[derive(Drop)]
struct Mixed(u64);

impl Mixed {
    // One word more.
    fn word(&mut self, word: u64) {
        self.0 = (self.0 ^ word).wrapping_mul(1099511628211);
    }

    // How a book stands.
    fn standing(&mut self, standing: Standing) {
        self.word(standing.sign as u64);
        self.word(standing.number);
        self.word(standing.heard);
    }

    // The orders of a side.
    fn side(&mut self, orders: &[Order]) {
        self.word(orders.len() as u64);
        for o in orders {
            self.word(o.price.cast_unsigned());
            self.word(o.size);
            self.word(o.oid);
            self.word(o.firm);
        }
    }

    // The books of the first n slots.
    fn books(&mut self, store: &OrderStore, n: usize) {
        for slot in 0..n {
            self.side(store.side(slot, Side::Bid));
            self.side(store.side(slot, Side::Offer));
        }
    }
}

impl<'f, 't> Feeding<'f, OrderStore<'t>> {
    // How the books of these instruments stand.
    fn mix_marks(&self, mixed: &mut Mixed, ids: &[u64]) {
        for id in ids {
            if let Ok(standing) = self.desk.question(self.store, self.shelf, *id) {
                mixed.standing(standing);
            }
        }
    }

    // A digest of every answer and mark, of the books once in 64 calls and at the end, and of the shelf.
    pub fn digest(&mut self, input: &[u8], ids: &[u64]) -> u64 {
        let mut mixed = Mixed(0);
        let mut count: u64 = 0;
        for Entry { kind, bytes } in (Calls { rest: input }) {
            mixed.word(self.perform(kind, bytes));
            self.mix_marks(&mut mixed, ids);
            count = count.saturating_add(1);
            if count % 64 == 0 {
                mixed.books(self.store, ids.len());
            }
        }
        mixed.books(self.store, ids.len());
        mixed.word(digest(self.shelf));
        mixed.0
    }
}
