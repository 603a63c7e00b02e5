ghost use Rattle.orders.specs.declared.due.Due.{Due};
ghost use Rattle.orders.specs.Book.{Book};
ghost use Rattle.orders.specs.Kind.{Setup, orders};
ghost use Rattle.orders.specs.Image.{BookImage};
ghost use Rattle.orders.specs.ImageLaw.{orders_image, orders-sound};
ghost use Rattle.orders.specs.Model.{setup_of, model_of};

use crate::due::Due;
use crate::order_store::OrderStore;
use message::fields::{entry_fields, stat_fields};
use message::message::{Message, Piece};
use message::values::HeaderFields;
use store::store::Store;

impl<'t> Store for OrderStore<'t> {
    ghost Value = { Book };

    ghost Owed = { Due };

    ghost Setup = { Setup };

    ghost setup = { setup_of };

    ghost kind = { orders };

    ghost Image = { BookImage };

    ghost model = { model_of };

    ghost image = { orders_image };

    ghost sound = { orders-sound };

    fn slots(&self) -> usize {
        self.slots
    }

    fn fits_at(&self, slot: usize, m: &Message) -> bool {
        self.rows.fits_in(self.actions, slot + 1, m)
    }

    fn apply_at(&mut self, slot: usize, m: &Message) -> bool {
        let actions = self.actions;
        self.rows.apply_in(actions, slot + 1, m)
    }

    fn freshen_at(&mut self, slot: usize) {
        self.rows.clear_book(slot + 1);
    }

    fn adopt_at(&mut self, slot: usize) {
        self.rows.copy_book(0, slot + 1);
    }

    fn fits_header(&self, h: &HeaderFields) -> bool {
        h.bids <= self.rows.depth as u64 && h.offers <= self.rows.depth as u64
    }

    fn begin(&mut self, h: &HeaderFields) {
        self.rows.clear_book(0);
        self.owed = Due {
            bids: h.bids as usize,
            offers: h.offers as usize,
        };
    }

    fn fits_piece(&self, p: &Piece) -> bool {
        match *p {
            Piece::Entry(l, part) => match entry_fields(l, part) {
                Some(e) => self.fits_entry(&e),
                None => false,
            },
            Piece::Stat(l, part) => stat_fields(l, part).is_some(),
        }
    }

    fn take(&mut self, p: &Piece) -> bool {
        match *p {
            Piece::Entry(l, part) => match entry_fields(l, part) {
                Some(e) => self.take_entry(&e),
                None => false,
            },
            Piece::Stat(_, _) => self.fits_piece(p),
        }
    }

    fn whole(&self) -> bool {
        self.owed.bids == 0 && self.owed.offers == 0
    }
}
