use capture::order::ByteOrder;
use std::alloc::{AllocError, Global};

// A file header: magic number, version 2.4, zone, accuracy, longest capture, link type.
pub fn header(
    heap: Global,
    order: ByteOrder,
    magic: u32,
    link: u32,
) -> Result<Vec<u8>, AllocError> {
    let mut file = Vec::new(heap);
    put(&mut file, order, magic)?;
    match order {
        ByteOrder::Little => file.extend_from_slice(&[2, 0, 4, 0])?,
        ByteOrder::Big => file.extend_from_slice(&[0, 2, 0, 4])?,
    }
    put(&mut file, order, 0)?;
    put(&mut file, order, 0)?;
    put(&mut file, order, 262144)?;
    put(&mut file, order, link)?;
    Ok(file)
}

// One number of four bytes.
pub fn put(file: &mut Vec<u8>, order: ByteOrder, number: u32) -> Result<(), AllocError> {
    match order {
        ByteOrder::Little => file.extend_from_slice(&number.to_le_bytes()),
        ByteOrder::Big => file.extend_from_slice(&number.to_be_bytes()),
    }
}

// One record, with the original length given apart.
pub fn record(
    file: &mut Vec<u8>,
    order: ByteOrder,
    fraction: u32,
    frame: &[u8],
    original: u32,
) -> Result<(), AllocError> {
    put(file, order, 2)?;
    put(file, order, fraction)?;
    put(file, order, (frame.len() % 65536) as u32)?;
    put(file, order, original)?;
    file.extend_from_slice(frame)
}

// Two Ethernet addresses.
pub const ADDRESSES: [u8; 12] = [1, 0, 94, 55, 1, 1, 2, 0, 0, 0, 0, 1];

// An IPv4 packet with a UDP datagram of three bytes, sent to 239.55.1.1 at port 10055, and two bytes of padding.
pub const PACKET: [u8; 33] = [
    69, 0, 0, 31, 0, 1, 0, 0, 16, 17, 0, 0, 10, 0, 0, 1, 239, 55, 1, 1, 117, 48, 39, 71, 0, 11, 0,
    0, 7, 8, 9, 0, 0,
];

// An Ethernet frame of a type and what stands behind it.
pub fn ethernet(heap: Global, kind: &[u8], packet: &[u8]) -> Result<Vec<u8>, AllocError> {
    let mut frame = Vec::new(heap);
    frame.extend_from_slice(&ADDRESSES)?;
    frame.extend_from_slice(kind)?;
    frame.extend_from_slice(packet)?;
    Ok(frame)
}
