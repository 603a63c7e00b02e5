use crate::format::Format;

// a capture file in memory, and the offset of its next record
#[derive(Drop)]
pub struct Capture<'a> {
    pub(crate) format: Format,
    pub(crate) bytes: &'a [u8],
    pub(crate) at: usize,
}
