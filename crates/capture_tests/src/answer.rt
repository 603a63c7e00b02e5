use capture::endpoint::Endpoint;
use capture::fault::CaptureFault;
use capture::file::Capture;
use capture::format::Link;
use capture::frame::{Datagram, Frame};
use capture::network::datagram;

// The datagram of the packet that the tests build, at that time.
pub fn got(time: u64) -> Frame<'static> {
    Frame::Datagram(Datagram {
        time,
        to: Endpoint {
            address: 0xef370101,
            port: 10055,
        },
        payload: b"\x07\x08\x09",
    })
}

// What a record says of a frame that was not captured whole.
pub fn cut() -> Frame<'static> {
    Frame::Cut
}

// What a frame holds.
pub fn holds(link: Link, frame: &[u8]) -> Frame<'_> {
    datagram(link, 5, frame)
}

// What the first record of a file holds.
pub fn first(file: &[u8]) -> Result<Option<Frame<'_>>, CaptureFault> {
    let mut capture = Capture::open(file)?;
    capture.next()
}
