//! A socket of datagrams on an address of the server.
ghost use Rattle.std.specs.Prelude.{◌≡◌, ◌≤◌, ◌∷◌, [], length, take, IfOk, OnErr};
ghost use Rattle.dns_sockets.specs.Udp.{HasReceived, HasSent, HavePassed, by_ipv6, local_of};

use crate::peers::{address_of, peer_of};
use crate::system::DatagramCalls;
use dns_network::DatagramSocket;
use dns_primary::Peer;
use std::io::{self, ErrorKind};

/// How many datagrams are tried where the system reports an error in place of one, as after an answer to a
/// port that is closed.
const TRIES: usize = 16;

/// The socket of datagrams on an address.
#[derive(Drop)]
pub struct Udp<C> {
    socket: C,
    /// Whether it is a socket of IPv6.
    is_ipv6: bool,
    /// The index of its address.
    local: u8,
}

impl<C: DatagramCalls> Udp<C> {
    /// That of the address with this index, whose family is IPv6 or not.
    pub(crate) fn new(socket: C, is_ipv6: bool, local: u8) -> Udp<C>
        ensures local { local_of result ≡ local }
        ensures family { by_ipv6 result ≡ is_ipv6 }
    {
        Udp {
            socket,
            is_ipv6,
            local,
        }
    }

    /// Asks once for a datagram.
    fn receive_once(&mut self, into: &mut [u8]) -> io::Result<(usize, Peer)>
        ensures few { IfOk result (λ r. r.0 ≤ length into.new) }
        ensures came { IfOk result
            (λ r. HavePassed C.DatagramCalls ((take r.0 into.new, r.1) ∷ []) [] self.old self.new) }
        ensures none { OnErr result (HavePassed C.DatagramCalls [] [] self.old self.new) }
    {
        match self.socket.recv_from(into) {
            Ok((count, address)) => Ok((count, peer_of(address, self.local))),
            Err(error) => Err(error),
        }
    }
}

impl<C: DatagramCalls> DatagramSocket for Udp<C> {
    ghost receives = { HasReceived C.DatagramCalls };

    ghost sends = { HasSent C.DatagramCalls };

    fn receive(&mut self, into: &mut [u8]) -> Option<(usize, Peer)> {
        for _try in 0..TRIES {
            match self.receive_once(into) {
                Ok(datagram) => return Some(datagram),
                Err(error) if error.kind() == ErrorKind::WouldBlock => return None,
                Err(_) => {}
            }
        }
        None
    }

    fn send(&mut self, to: Peer, octets: &[u8]) {
        let _sent = self.socket.send_to(octets, address_of(to, self.is_ipv6));
    }
}

#[cfg(test)]
mod tests {
    use super::*;
    use crate::memory_sockets::{MemoryDatagrams, PacketCall};
    use dns_memory::heap;
    use std::net::{IpAddr, Ipv4Addr, Ipv6Addr, SocketAddr};
    use std::test::Fail;

    /// The address to which a datagram was sent, if the last call sent one.
    fn last_sent(socket: &MemoryDatagrams) -> Option<SocketAddr> {
        match socket.calls()?.last()? {
            PacketCall::Sent(packet) => Some(packet.address),
            PacketCall::Received(_) => None,
        }
    }

    #[test]
    fn an_ipv4_peer_of_a_socket_of_ipv6_is_its_ipv4_address(rt: HostRuntime) -> Result<(), Fail> {
        let heap = heap(rt.alloc())?;
        let mapped = Ipv6Addr::new(0, 0, 0, 0, 0, 0xffff, 0xc000, 0x0201);
        let from = SocketAddr::new(IpAddr::V6(mapped), 5353);
        let mut socket = MemoryDatagrams::new(heap);
        socket.give(b"query", from)?;
        let mut udp = Udp::new(socket, true, 0);
        let mut buffer = [0; 512];
        let (_count, peer) = udp.receive(&mut buffer).ok_or("none came")?;
        assert_eq!(rt; peer.address, IpAddr::V4(Ipv4Addr::new(192, 0, 2, 1)));
        udp.send(peer, b"reply");
        assert_eq!(rt; last_sent(&udp.socket), Some(from));
        Ok(())
    }

    #[test]
    fn a_list_of_calls_that_was_lost_stays_lost(rt: HostRuntime) -> Result<(), Fail> {
        let heap = heap(rt.alloc())?;
        let from = SocketAddr::new(IpAddr::V4(Ipv4Addr::new(192, 0, 2, 1)), 5353);
        let mut socket = MemoryDatagrams::new(heap);
        socket.give(b"query", from)?;
        let mut udp = Udp::new(socket, false, 0);
        let mut buffer = [0; 512];
        heap.refuse(1);
        let (count, peer) = udp.receive(&mut buffer).ok_or("none came")?;
        heap.refuse(0);
        assert_eq!(rt; count, 5);
        udp.send(peer, b"reply");
        assert!(rt; udp.socket.calls().is_none());
        Ok(())
    }
}
