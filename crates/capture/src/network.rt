ghost use Rattle.std.specs.Prelude.{◌≡◌, ◌+◌, ◌≤◌, length};
ghost use Rattle.capture.specs.Held.{view};
ghost use Rattle.capture.specs.Sent.{Sent, Sendable, sent_over, arrived};
ghost use Rattle.capture.specs.Network.{udp_held, ipv4_held, is_ipv4, is_udp, is_fragment, is_tag, untagged, typed_held, link_held};

use crate::endpoint::Endpoint;
use crate::format::Link;
use crate::frame::{Datagram, Frame};
use crate::order::ByteOrder;
use crate::read::{four, two};

// The datagram of a UDP header and what is behind it.
// kept: each layer cuts the bytes, and the time goes through as it is, so that a type of both would be made anew in each
fn udp<'a>(time: u64, address: u32, segment: &'a [u8]) -> Frame<'a>
    ensures { view result ≡ udp_held time address segment.now }
{
    if segment.len() < 8 {
        return Frame::Cut;
    }
    let length = usize::from(two(segment, 4));
    if length < 8 {
        return Frame::NoUdp;
    }
    if segment.len() < length {
        return Frame::Cut;
    }
    Frame::Datagram(Datagram {
        time,
        to: Endpoint {
            address,
            port: two(segment, 2),
        },
        payload: &segment[8..length],
    })
}

// Whether the first byte and the lengths are those of an IPv4 packet.
fn is_ipv4(packet: &[u8]) -> bool
    requires { 20 ≤ length packet.now }
    ensures { result ≡ is_ipv4 packet.now }
{
    let header = 4 * usize::from(packet[0] % 16);
    packet[0] / 16 == 4 && header >= 20 && header <= usize::from(two(packet, 2))
}

// The datagram of an IPv4 packet, which padding may follow.
fn ipv4<'a>(time: u64, packet: &'a [u8]) -> Frame<'a>
    ensures { view result ≡ ipv4_held time packet.now }
{
    if packet.len() < 20 {
        return Frame::Cut;
    }
    if !is_ipv4(packet) || packet[9] != 17 {
        return Frame::NoUdp;
    }
    if two(packet, 6) % 16384 != 0 {
        return Frame::Fragment;
    }
    let header = 4 * usize::from(packet[0] % 16);
    let total = usize::from(two(packet, 2));
    if packet.len() < total {
        return Frame::Cut;
    }
    udp(
        time,
        four(ByteOrder::Big, packet, 16),
        &packet[header..total],
    )
}

// Whether a tag stands at the front.
fn is_tag(bytes: &[u8]) -> bool
    ensures { result ≡ is_tag bytes.now }
{
    if bytes.len() < 2 {
        return false;
    }
    let kind = two(bytes, 0);
    kind == 0x8100 || kind == 0x88a8 || kind == 0x9100
}

// What stands behind all tags.
fn behind_tags<'a>(bytes: &'a [u8]) -> &'a [u8]
    ensures { result.now ≡ untagged 0 bytes.now }
{
    let mut rest = bytes;
    while is_tag(rest) {
        rest = &rest[rest.len().min(4)..];
    }
    rest
}

// What stands from the type of an Ethernet frame on.
fn typed<'a>(time: u64, bytes: &'a [u8]) -> Frame<'a>
    ensures { view result ≡ typed_held time bytes.now }
{
    if bytes.len() < 2 {
        return Frame::Cut;
    }
    if two(bytes, 0) != 0x0800 {
        return Frame::NoUdp;
    }
    ipv4(time, &bytes[2..])
}

// What stands in a frame of a link type.
fn linked<'a>(link: Link, time: u64, frame: &'a [u8]) -> Frame<'a>
    ensures { view result ≡ link_held link time frame.now }
{
    match link {
        Link::Ethernet => typed(time, behind_tags(&frame[frame.len().min(12)..])),
        Link::RawIp => ipv4(time, frame),
    }
}

// What a frame holds that was captured whole; a datagram comes out as it was sent.
pub fn datagram<'a>(link: Link, time: u64, frame: &'a [u8]) -> Frame<'a>
    ensures value { view result ≡ link_held link time frame.now }
    ensures sent { (s : Sent) → Sendable s → frame.now ≡ sent_over link s → view result ≡ arrived time s }
{
    linked(link, time, frame)
}
