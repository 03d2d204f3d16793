//! The sockets of datagrams of a server, one on each of its addresses.
ghost use Rattle.std.specs.Prelude.{◌≡◌, ◌≤◌, ◌<◌, ◌∷◌, [], suc, length, take, IfSome, OnOk, OnErr};
ghost use Rattle.std.specs.Option.{option_map};
ghost use Rattle.dns_sockets.specs.DatagramSockets.{AreInOrder, HaveBrought, HaveCarried, sockets_of};

use crate::system::DatagramCalls;
use crate::udp::Udp;
use dns_memory::Heap;
use dns_network::Datagrams;
use dns_primary::Peer;
use std::alloc::AllocError;

/// The sockets of datagrams, by the indices of their addresses.
#[derive(Drop)]
pub(crate) struct DatagramSockets<C: DatagramCalls> {
    sockets: Vec<Datagrams<Udp<C>>, Heap>,
    /// Which is asked first for the next datagram.
    first: usize,
}

/// The index after this one, the first coming after the last.
pub(crate) fn following(index: usize, count: usize) -> usize
    ensures { 0 < count → result < count }
{
    match index.checked_add(1) {
        Some(next) if next < count => next,
        _ => 0,
    }
}

impl<C: DatagramCalls + Drop> DatagramSockets<C> {
    /// None.
    pub(crate) fn new(heap: Heap) -> DatagramSockets<C>
        ensures { sockets_of result ≡ [] }
    {
        DatagramSockets {
            sockets: Vec::new(heap),
            first: 0,
        }
    }

    /// How many there are.
    pub(crate) fn count(&self) -> usize
        ensures { result ≡ length (sockets_of self.now) }
    {
        self.sockets.len()
    }

    /// Adds that of the next address, whose family is IPv6 or not.
    pub(crate) fn add(&mut self, heap: Heap, socket: C, is_ipv6: bool) -> Result<(), AllocError>
        requires { length (sockets_of self.old) < 256 }
        ensures order { AreInOrder (sockets_of self.old) → AreInOrder (sockets_of self.new) }
        ensures more { OnOk result (length (sockets_of self.new) ≡ suc (length (sockets_of self.old))) }
        ensures same { OnErr result (sockets_of self.new ≡ sockets_of self.old) }
    {
        let local = self.sockets.len() as u8;
        let datagrams = Datagrams::new(heap, Udp::new(socket, is_ipv6, local))?;
        self.sockets.push(datagrams)?;
        Ok(())
    }

    /// The next datagram that came by the socket with this index.
    fn receive_by(&mut self, index: usize, into: &mut [u8]) -> Option<(usize, Peer)>
        ensures few { IfSome result (λ r. r.0 ≤ length into.new) }
        ensures came { HaveBrought C.DatagramCalls (sockets_of self.old)
            (option_map (λ r. (take r.0 into.new, r.1)) result) (sockets_of self.new) }
    {
        self.sockets.get_mut(index)?.receive(into)
    }

    /// The next datagram that came. The sockets are asked in turn, so that none of them keeps the others
    /// waiting.
    pub(crate) fn receive(&mut self, into: &mut [u8]) -> Option<(usize, Peer)>
        ensures few { IfSome result (λ r. r.0 ≤ length into.new) }
        ensures came { HaveBrought C.DatagramCalls (sockets_of self.old)
            (option_map (λ r. (take r.0 into.new, r.1)) result) (sockets_of self.new) }
    {
        let count = self.sockets.len();
        let mut index = self.first;
        self.first = following(index, count);
        for _socket in 0..count {
            if let Some(datagram) = self.receive_by(index, into) {
                return Some(datagram);
            }
            index = following(index, count);
        }
        None
    }

    /// Sends a datagram by the socket to whose address the peer sent.
    pub(crate) fn send(&mut self, to: Peer, octets: &[u8])
        ensures { HaveCarried C.DatagramCalls ((octets.now, to) ∷ []) [] (sockets_of self.old)
            (sockets_of self.new) }
    {
        if let Some(datagrams) = self.sockets.get_mut(usize::from(to.local)) {
            datagrams.send(to, octets);
        }
    }

    /// Sends all datagrams that the socket with this index holds back.
    fn send_all_by(&mut self, index: usize)
        ensures { HaveCarried C.DatagramCalls [] [] (sockets_of self.old) (sockets_of self.new) }
    {
        if let Some(datagrams) = self.sockets.get_mut(index) {
            datagrams.send_all();
        }
    }

    /// Sends all datagrams that are held back.
    pub(crate) fn send_all(&mut self)
        ensures { HaveCarried C.DatagramCalls [] [] (sockets_of self.old) (sockets_of self.new) }
    {
        for index in 0..self.sockets.len() {
            self.send_all_by(index);
        }
    }
}

#[cfg(test)]
mod tests {
    use super::*;
    use crate::memory_sockets::MemoryDatagrams;
    use dns_memory::heap;
    use std::cell::Cell;
    use std::io;
    use std::net::{IpAddr, Ipv4Addr, SocketAddr};
    use std::rc::Rc;
    use std::test::Fail;

    /// A socket in memory, with a place for how many octets it sent.
    #[derive(Drop)]
    struct Counted {
        socket: MemoryDatagrams,
        sent: Rc<Cell<usize>, Heap>,
    }

    impl DatagramCalls for Counted {
        ghost calls = { λ counted. ⟦<MemoryDatagrams as DatagramCalls>⟧.calls counted.socket };

        fn recv_from(&mut self, into: &mut [u8]) -> io::Result<(usize, SocketAddr)> {
            self.socket.recv_from(into)
        }

        fn send_to(&mut self, octets: &[u8], to: SocketAddr) -> io::Result<usize> {
            self.sent.set(octets.len());
            self.socket.send_to(octets, to)
        }
    }

    #[test]
    fn a_datagram_is_answered_by_the_socket_by_which_it_came(rt: HostRuntime) -> Result<(), Fail> {
        let heap = heap(rt.alloc())?;
        let from = SocketAddr::new(IpAddr::V4(Ipv4Addr::new(192, 0, 2, 1)), 5353);
        let by_first = Rc::new(heap, Cell::new(0))?;
        let by_second = Rc::new(heap, Cell::new(0))?;
        let first = MemoryDatagrams::new(heap);
        let mut second = MemoryDatagrams::new(heap);
        second.give(b"query", from)?;
        let mut sockets = DatagramSockets::new(heap);
        let counted = Counted {
            socket: first,
            sent: by_first.clone()?,
        };
        sockets.add(heap, counted, false)?;
        let counted = Counted {
            socket: second,
            sent: by_second.clone()?,
        };
        assert!(rt; sockets.count() < 256);
        sockets.add(heap, counted, false)?;
        let mut buffer = [0; 512];
        let (count, peer) = sockets.receive(&mut buffer).ok_or("none came")?;
        assert_eq!(rt; &buffer[..count], b"query".as_slice());
        sockets.send(peer, b"answer");
        sockets.send_all();
        assert_eq!(rt; by_first.get(), 0);
        assert_eq!(rt; by_second.get(), 6);
        Ok(())
    }
}
