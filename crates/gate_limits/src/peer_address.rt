//! Where a peer is, as far as its places are counted.
ghost use Rattle.gate_limits.specs.PeerAddress.{IsPeerAddress};

use std::net::{IpAddr, SocketAddr};

/// Where a peer is, as far as its places are counted.
#[derive(Clone, Copy)]
pub struct PeerAddress {
    /// A number that those have in common whose places are counted together: of an IPv4 address its 32 bits, and of an
    /// IPv6 address the first 64 bits, since a network has all that begin so (RFC 4291, section 2.5.4). No IPv6 address of
    /// a peer has the number of an IPv4 one: those that begin with 32 zero bits are reserved, but for this machine's own.
    pub number: u64,
    /// Whether it is this machine itself (127.0.0.0/8, `::1`).
    pub is_loopback: bool,
}

impl PeerAddress {
    /// The peer of a socket that is at this address. An IPv4 address that is written as an IPv6 one (`::ffff:0:0/96`) is
    /// the IPv4 one.
    pub fn of(address: &SocketAddr) -> PeerAddress
        ensures { IsPeerAddress address.now result }
    {
        let ip = address.ip().to_canonical();
        PeerAddress {
            number: match ip {
                IpAddr::V4(ip) => u64::from(ip.to_bits()),
                IpAddr::V6(ip) => (ip.to_bits() >> 64) as u64,
            },
            is_loopback: ip.is_loopback(),
        }
    }
}
