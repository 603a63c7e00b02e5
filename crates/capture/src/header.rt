ghost use Rattle.std.specs.Prelude.{◌≡◌};
ghost use Rattle.capture.specs.Header.{offset_of, magic_of, link_of, format_of};

use crate::fault::CaptureFault;
use crate::format::{Format, Link, Precision};
use crate::order::ByteOrder;
use crate::read::four;

impl CaptureFault {
    // Where in the file the fault lies.
    pub fn offset(self) -> u64
        ensures { result ≡ offset_of self }
    {
        match self {
            CaptureFault::NotCapture => 0,
            CaptureFault::UnknownLink => 20,
            CaptureFault::HeaderCut(at) => at,
            CaptureFault::RecordCut(at) => at,
            CaptureFault::RecordLong(at) => at,
        }
    }
}

// What the magic number says.
fn magic(head: &[u8]) -> Result<(ByteOrder, Precision), CaptureFault>
    ensures { result ≡ magic_of head.now }
{
    if head.len() < 4 {
        return Err(CaptureFault::HeaderCut(head.len() as u64));
    }
    match four(ByteOrder::Little, head, 0) {
        0xa1b2c3d4 => return Ok((ByteOrder::Little, Precision::Micro)),
        0xa1b23c4d => return Ok((ByteOrder::Little, Precision::Nano)),
        _ => {}
    }
    match four(ByteOrder::Big, head, 0) {
        0xa1b2c3d4 => Ok((ByteOrder::Big, Precision::Micro)),
        0xa1b23c4d => Ok((ByteOrder::Big, Precision::Nano)),
        _ => Err(CaptureFault::NotCapture),
    }
}

// What the link type says.
fn link(order: ByteOrder, head: &[u8]) -> Result<Link, CaptureFault>
    ensures { result ≡ link_of order head.now }
{
    if head.len() < 24 {
        return Err(CaptureFault::HeaderCut(head.len() as u64));
    }
    match four(order, head, 20) {
        1 => Ok(Link::Ethernet),
        101 | 228 | 12 | 14 => Ok(Link::RawIp),
        _ => Err(CaptureFault::UnknownLink),
    }
}

// What the file header says, of which `head` has the 24 bytes, or as many as the file has.
pub fn format(head: &[u8]) -> Result<Format, CaptureFault>
    ensures { result ≡ format_of head.now }
{
    let (order, precision) = magic(head)?;
    let link = link(order, head)?;
    Ok(Format {
        order,
        precision,
        link,
    })
}
