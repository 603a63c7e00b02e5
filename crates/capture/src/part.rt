use crate::format::Format;

// bytes of a file, whose records have that format, and which stand at `offset` of it; `last` says that the file ends with them
#[derive(Clone, Copy)]
pub struct Part<'a> {
    pub format: Format,
    pub bytes: &'a [u8],
    pub offset: u64,
    pub last: bool,
}
