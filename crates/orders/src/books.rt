ghost use Rattle.std.specs.Prelude.{◌≡◌, ◌+◌, ◌*◌, ◌<◌, ◌&&◌, [], ◌∷◌, ◌++◌, length, if◌then◌else◌};
ghost use Rattle.orders.specs.Book.{empty_book, is_side, side_of, with_side};
ghost use Rattle.orders.specs.Rows.{PutsBook, book_at};

use crate::rows::Rows;
use crate::side_edit::SideEdit;
use crate::sides::row_of;
use layout::kinds::Actions;

// What a message does to a book, where it fits.
impl<'t> Rows<'t> {
    // Edits the side of a book that an edit is of, where it fits.
    pub(crate) fn edit_in<E: SideEdit>(&mut self, a: Actions, book: usize, e: &E) -> bool
        requires { 2 * book + 1 < self.old.count }
        ensures fits { result ≡ (is_side (E.side_number e.now) && E.suits a self.old.depth (length (side_of (book_at self.old book) (E.side_number e.now))) e.now) }
        ensures puts { PutsBook self.old self.new book (if result then with_side (book_at self.old book) (E.side_number e.now) (E.leaves a (side_of (book_at self.old book) (E.side_number e.now)) e.now) else book_at self.old book) }
    {
        match row_of(book, e.side()) {
            Some(r) => e.edit(a, self, r),
            None => false,
        }
    }

    // An empty book.
    pub(crate) fn clear_book(&mut self, book: usize)
        requires { 2 * book + 1 < self.old.count }
        ensures { PutsBook self.old self.new book empty_book }
    {
        self.clear(2 * book);
        self.clear(2 * book + 1);
    }

    // One book in the place of another.
    pub(crate) fn copy_book(&mut self, from: usize, to: usize)
        requires { (2 * from + 1 < self.old.count) × (2 * to + 1 < self.old.count) }
        ensures { PutsBook self.old self.new to (book_at self.old from) }
    {
        self.copy(2 * from, 2 * to);
        self.copy(2 * from + 1, 2 * to + 1);
    }
}
