ghost use Rattle.std.specs.Prelude.{◌≡◌, ◌+◌, ◌*◌, ◌<◌, ◌&&◌, length, if◌then◌else◌};
ghost use Rattle.message.specs.Views.{meant};
ghost use Rattle.orders.specs.Book.{is_side, side_of};
ghost use Rattle.orders.specs.Kind.{setup, fits_book, after_book};
ghost use Rattle.orders.specs.Rows.{PutsBook, book_at};

use crate::rows::Rows;
use crate::side_edit::SideEdit;
use crate::sides::row_of;
use layout::kinds::Actions;
use message::fields::{delete_fields, mass_fields, order_fields, stat_fields};
use message::message::Message;

impl<'t> Rows<'t> {
    // Whether an edit fits the side of a book that it is of.
    fn edit_fits<E: SideEdit>(&self, a: Actions, book: usize, e: &E) -> bool
        requires { 2 * book + 1 < self.now.count }
        ensures { result ≡ (is_side (E.side_number e.now) && E.suits a self.now.depth (length (side_of (book_at self.now book) (E.side_number e.now))) e.now) }
    {
        match row_of(book, e.side()) {
            Some(r) => e.fits(a, self.depth, self.len(r)),
            None => false,
        }
    }

    // Whether a message fits a book.
    pub(crate) fn fits_in(&self, a: Actions, book: usize, m: &Message) -> bool
        requires { 2 * book + 1 < self.now.count }
        ensures { result ≡ fits_book (setup a self.now.depth) (book_at self.now book) (meant m.now) }
    {
        match *m {
            Message::Order(l, part) => match order_fields(l, part) {
                Some(f) => self.edit_fits(a, book, &f),
                None => false,
            },
            Message::Delete(l, part) => match delete_fields(l, part) {
                Some(f) => self.edit_fits(a, book, &f),
                None => false,
            },
            Message::Mass(l, part) => match mass_fields(l, part) {
                Some(f) => self.edit_fits(a, book, &f),
                None => false,
            },
            Message::Stat(l, part) => stat_fields(l, part).is_some(),
            Message::Empty(_, _) => true,
            Message::Header(_, _) => true,
            Message::Entries(_, _) => true,
            Message::Other(_) => true,
        }
    }

    // Changes a book by a message, where it fits.
    pub(crate) fn apply_in(&mut self, a: Actions, book: usize, m: &Message) -> bool
        requires { 2 * book + 1 < self.old.count }
        ensures fits { result ≡ fits_book (setup a self.old.depth) (book_at self.old book) (meant m.now) }
        ensures puts { PutsBook self.old self.new book (if result then after_book (setup a self.old.depth) (book_at self.old book) (meant m.now) else book_at self.old book) }
    {
        match *m {
            Message::Order(l, part) => match order_fields(l, part) {
                Some(f) => self.edit_in(a, book, &f),
                None => false,
            },
            Message::Delete(l, part) => match delete_fields(l, part) {
                Some(f) => self.edit_in(a, book, &f),
                None => false,
            },
            Message::Mass(l, part) => match mass_fields(l, part) {
                Some(f) => self.edit_in(a, book, &f),
                None => false,
            },
            Message::Empty(_, _) => {
                self.clear_book(book);
                true
            }
            Message::Stat(l, part) => stat_fields(l, part).is_some(),
            Message::Header(_, _) => true,
            Message::Entries(_, _) => true,
            Message::Other(_) => true,
        }
    }
}
