// kept: the bytes of all packets lie in one buffer, which keeps its room from row to row; a Vec in each entry would be made anew for
// each packet, and `size` be a sum over the entries
// a call on a tape; the bytes of a packet lie there from a place on, and are so many
#[derive(Clone, Copy)]
pub enum Entry {
    Incremental(usize, usize),
    Join,
    Leave,
    Snapshot(usize, usize),
    Question(u64),
}
