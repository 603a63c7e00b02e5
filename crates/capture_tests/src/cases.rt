#[cfg(test)]
mod tests {
    use crate::answer::{cut, first, got, holds};
    use crate::build::*;
    use capture::count::count;
    use capture::fault::CaptureFault;
    use capture::format::{Format, Link, Precision};
    use capture::frame::Frame;
    use capture::header::format;
    use capture::order::ByteOrder;
    use capture::part::Part;
    use capture::step::Step;
    use capture::tally::Tally;
    use std::test::Fail;

    #[test]
    fn frames_by_kind(rt: HostRuntime) -> Result<(), Fail> {
        let heap = rt.alloc();
        let plain = ethernet(heap, &[8, 0], &PACKET)?;
        assert_eq!(rt; holds(Link::Ethernet, plain.as_slice()), got(5));
        assert_eq!(rt; holds(Link::RawIp, &PACKET), got(5));
        let tagged = ethernet(heap, &[0x81, 0, 0, 7, 0x88, 0xa8, 0, 9, 8, 0], &PACKET)?;
        assert_eq!(rt; holds(Link::Ethernet, tagged.as_slice()), got(5));
        let torn = ethernet(heap, &[0x81, 0, 0], &[])?;
        assert_eq!(rt; holds(Link::Ethernet, torn.as_slice()), Frame::Cut);
        let arp = ethernet(heap, &[8, 6], &PACKET)?;
        assert_eq!(rt; holds(Link::Ethernet, arp.as_slice()), Frame::NoUdp);
        Ok(())
    }

    #[test]
    fn packets_by_kind(rt: HostRuntime) -> Result<(), Fail> {
        let mut tcp = PACKET;
        tcp[9] = 6;
        assert_eq!(rt; holds(Link::RawIp, &tcp), Frame::NoUdp);
        let mut first_part = PACKET;
        first_part[6] = 32;
        assert_eq!(rt; holds(Link::RawIp, &first_part), Frame::Fragment);
        let mut last_part = PACKET;
        last_part[7] = 1;
        assert_eq!(rt; holds(Link::RawIp, &last_part), Frame::Fragment);
        let mut long = PACKET;
        long[3] = 34;
        assert_eq!(rt; holds(Link::RawIp, &long), Frame::Cut);
        let mut options = PACKET;
        options[0] = 70;
        assert_eq!(rt; holds(Link::RawIp, &options), Frame::Cut);
        let mut whole = options.to_vec(rt.alloc())?;
        whole.insert(20, 1)?;
        whole.insert(20, 1)?;
        whole.insert(20, 1)?;
        whole.insert(20, 1)?;
        assert!(rt; whole.len() == 37);
        whole[3] = 35;
        assert_eq!(rt; holds(Link::RawIp, whole.as_slice()), got(5));
        Ok(())
    }

    #[test]
    fn headers(rt: HostRuntime) {
        assert_eq!(rt; format(b""), Err(CaptureFault::HeaderCut(0)));
        assert_eq!(rt; format(b"\xd4"), Err(CaptureFault::HeaderCut(1)));
        assert_eq!(rt; format(b"\x0a\x0d\x0d\x0a"), Err(CaptureFault::NotCapture));
        assert_eq!(rt; CaptureFault::UnknownLink.offset(), 20);
    }

    #[test]
    fn orders_and_precisions(rt: HostRuntime) -> Result<(), Fail> {
        let heap = rt.alloc();
        let mut big = header(heap, ByteOrder::Big, 0xa1b2c3d4, 101)?;
        record(&mut big, ByteOrder::Big, 3, &PACKET, 33)?;
        assert_eq!(rt; first(big.as_slice()), Ok(Some(got(2000003000))));
        let mut nano = header(heap, ByteOrder::Little, 0xa1b23c4d, 228)?;
        record(&mut nano, ByteOrder::Little, 3, &PACKET, 33)?;
        assert_eq!(rt; first(nano.as_slice()), Ok(Some(got(2000000003))));
        let unknown = header(heap, ByteOrder::Little, 0xa1b2c3d4, 113)?;
        assert_eq!(rt; format(unknown.as_slice()), Err(CaptureFault::UnknownLink));
        Ok(())
    }

    #[test]
    fn records_cut_or_too_long(rt: HostRuntime) -> Result<(), Fail> {
        let mut file = header(rt.alloc(), ByteOrder::Little, 0xa1b2c3d4, 101)?;
        record(&mut file, ByteOrder::Little, 3, &PACKET, 34)?;
        assert_eq!(rt; first(file.as_slice()), Ok(Some(cut())));
        assert!(rt; file.len() == 73);
        file[34] = 5;
        assert_eq!(rt; first(file.as_slice()), Err(CaptureFault::RecordLong(24)));
        Ok(())
    }

    // A file of two records that is cut at every offset: what stands before the cut is handed out, then the fault comes.
    #[test]
    fn cut_at_every_offset(rt: HostRuntime) -> Result<(), Fail> {
        let mut file = header(rt.alloc(), ByteOrder::Little, 0xa1b2c3d4, 101)?;
        record(&mut file, ByteOrder::Little, 3, &PACKET, 33)?;
        record(&mut file, ByteOrder::Little, 4, &PACKET, 33)?;
        let bytes = file.as_slice();
        assert!(rt; bytes.len() == 122);
        for n in 0..123 {
            let datagrams = if n < 73 {
                0
            } else if n < 122 {
                1
            } else {
                2
            };
            let fault = match n {
                0..24 => Some(CaptureFault::HeaderCut(n as u64)),
                24 | 73 | 122 => None,
                25..73 => Some(CaptureFault::RecordCut(24)),
                _ => Some(CaptureFault::RecordCut(73)),
            };
            assert_eq!(rt;
                count(&bytes[0..n]),
                Tally {
                    datagrams,
                    cut: 0,
                    fragments: 0,
                    other: 0,
                    fault,
                }
            );
        }
        Ok(())
    }

    #[test]
    fn windows(rt: HostRuntime) -> Result<(), Fail> {
        let format = Format {
            order: ByteOrder::Little,
            precision: Precision::Nano,
            link: Link::RawIp,
        };
        let window = b"\x02\0\0\0\x03\0\0\0\x04\0\0\0\x04\0\0\0\x45\0\0\0";
        let short = Part {
            format,
            bytes: &window[0..7],
            offset: 24,
            last: false,
        };
        assert_eq!(rt; short.step(), Ok(Step::More(16)));
        let longer = Part {
            bytes: &window[0..19],
            ..short
        };
        assert_eq!(rt; longer.step(), Ok(Step::More(20)));
        let whole = Part {
            bytes: window,
            ..short
        };
        assert_eq!(rt; whole.step(), Ok(Step::Taken(Frame::Cut, 20)));
        Ok(())
    }
}
