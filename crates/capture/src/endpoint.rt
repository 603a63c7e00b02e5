use std::fmt;

// an IPv4 address and a UDP port
// kept: the address is one number in every definition of a datagram, and std's SocketAddrV4 has four
#[derive(Clone, Copy, Debug, PartialEq, Eq)]
pub struct Endpoint {
    pub address: u32,
    pub port: u16,
}

impl fmt::Display for Endpoint {
    // The four figures of the address with points, a colon, the port.
    fn fmt<W: fmt::Write>(&self, f: &mut fmt::Formatter<W>) -> fmt::Result {
        let [a, b, c, d] = self.address.to_be_bytes();
        let port = self.port;
        write!(f, "{a}.{b}.{c}.{d}:{port}")
    }
}
