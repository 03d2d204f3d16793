//! Peers, and the addresses of their sockets: on a socket of IPv6 an IPv4 peer is shown as
//! `::ffff:192.0.2.1` (RFC 4291 section 2.5.5.2).
ghost use Rattle.dns_sockets.specs.Peers.{IsAddressOf, IsPeerOf};

use dns_primary::Peer;
use std::net::{IpAddr, SocketAddr};

/// The peer of a socket's address, which sent to the server's address with this index. An IPv4 peer is its
/// IPv4 address on a socket of either family, so that lists and the log mean the same on both.
pub(crate) fn peer_of(address: SocketAddr, local: u8) -> Peer
    ensures { IsPeerOf address local result }
{
    Peer {
        address: address.ip().to_canonical(),
        port: address.port(),
        local,
    }
}

/// The address that a socket sends to for a peer, on a socket of IPv6 if `by_ipv6`.
pub(crate) fn address_of(peer: Peer, by_ipv6: bool) -> SocketAddr
    ensures { IsAddressOf by_ipv6 peer result }
{
    let shown = match peer.address {
        IpAddr::V4(ip) if by_ipv6 => IpAddr::V6(ip.to_ipv6_mapped()),
        other => other,
    };
    SocketAddr::new(shown, peer.port)
}
