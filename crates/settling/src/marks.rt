// what the book of an instrument meets: the packet after this number was applied, or keeps the rules no more; a message does
// not fit; this is the highest packet heard; a snapshot as of the first number is whole, and the second is the highest heard
// kept: the machine's step is defined at every number, so that a number with a packet behind it (`Small`) as a type of its own
// would have to be proved inside the definitions
#[derive(Clone, Copy)]
pub enum Event {
    Taken(u64),
    Spoilt(u64),
    Misfit,
    Aged(u64),
    Whole(u64, u64),
}
