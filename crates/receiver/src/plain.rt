use recovery::marks::{Followed, Group};
use settling::places::Places;
use settling::table::Marks;

// kept: the messages of a packet borrow the sheet of the subscription while the marks change, so that the two parts of a receiver
// are lent side by side, and what holds between them (`attended`) stands in the contracts
// the plain part of a receiver, which holds no book: what lies on the shelf, the mark of each instrument, whether it is joined,
// the snapshot loop that it follows and the group whose pieces are being added
#[derive(Clone, Copy)]
pub struct Plain {
    pub places: Places,
    pub marks: Marks,
    pub joined: bool,
    pub followed: Option<Followed>,
    pub pending: Option<Group>,
}
