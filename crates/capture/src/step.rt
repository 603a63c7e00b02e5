use crate::frame::Frame;

// what a window on a file shows
#[derive(Clone, Copy, Debug, PartialEq, Eq)]
pub enum Step<'a> {
    End,
    More(usize),
    Taken(Frame<'a>, usize),
}
