//! The stream of a connection.
ghost use Rattle.std.specs.Prelude.{◌≡◌, ◌<◌, [], IsSome, IsTrue, Some, unwrap_or};
ghost use Rattle.std.specs.Result.{result_unwrap_or};
ghost use Rattle.dns_network.specs.Stream.{IfOctets, moved};
ghost use Rattle.dns_sockets.specs.Places.{place_number};
ghost use Rattle.dns_sockets.specs.Socket.{HasNotMoved, socket_place, socket_stream};
ghost use Rattle.dns_sockets.specs.SystemCalls.{EndsStream};

use crate::readiness::Place;
use crate::system::StreamCalls;
use dns_network::{Moved, Stream};
use mio::{Registry, Token};
use std::io::{self, ErrorKind};

/// The connection of a peer.
#[derive(Drop)]
pub struct Socket<T> {
    stream: T,
    slot: Place,
}

impl<T: StreamCalls> Socket<T> {
    /// That of a stream that isn't watched yet.
    pub(crate) fn new(stream: T, slot: Place) -> Socket<T>
        ensures { socket_stream result ≡ stream }
    {
        Socket { stream, slot }
    }

    /// Lets the events of the stream be reported by a token, and gives it this number. That can be refused.
    pub(crate) fn watch(&mut self, registry: &Registry, token: Token, number: usize) -> bool
        ensures same { HasNotMoved T.StreamCalls self.old self.new }
        ensures by { IsTrue result → place_number (socket_place self.new) ≡ Some number }
    {
        match self.stream.watch(registry, token) {
            Ok(()) => self.slot.put(number),
            Err(_) => false,
        }
    }
}

/// What became of a read or a write, by the answer of the system.
fn what_moved(answer: &io::Result<usize>) -> Moved
    ensures count { moved result ≡ result_unwrap_or answer.now 0 }
    ensures some { IfOctets result (0 < moved result) }
    ensures ended { result ≡ Moved.Ended → EndsStream answer.now }
{
    match answer {
        Ok(0) => Moved::Ended,
        Ok(count) => Moved::Octets(*count),
        Err(error) => match error.kind() {
            ErrorKind::WouldBlock | ErrorKind::Interrupted => Moved::Later,
            _ => Moved::Ended,
        },
    }
}

impl<T: StreamCalls> Stream for Socket<T> {
    ghost received = { λ socket. unwrap_or (T.received (socket_stream socket)) [] };

    ghost sent = { λ socket. unwrap_or (T.sent (socket_stream socket)) [] };

    ghost is_faithful = { λ socket.
        IsSome (T.received (socket_stream socket)) × IsSome (T.sent (socket_stream socket)) };

    ghost has_ended = { λ socket. T.has_ended (socket_stream socket) };

    ghost answers = { λ _ _ _. Unit {0} };

    /// Where the last read would have waited, and no event came since, the system isn't asked.
    fn read(&mut self, into: &mut [u8]) -> Moved {
        if !self.slot.may_read() {
            return Moved::Later;
        }
        let answer = self.stream.read(into);
        self.slot.note_read(&answer);
        what_moved(&answer)
    }

    /// Where the last write would have waited, and no event came since, the system isn't asked.
    fn write(&mut self, octets: &[u8]) -> Moved {
        if !self.slot.may_write() {
            return Moved::Later;
        }
        let answer = self.stream.write(octets);
        self.slot.note_write(&answer);
        what_moved(&answer)
    }
}

#[cfg(test)]
mod tests {
    use super::*;
    use crate::memory_peer::MemoryPeer;
    use crate::readiness::Readiness;
    use dns_memory::{Heap, heap};
    use std::alloc::AllocError;
    use std::rc::Rc;
    use std::test::Fail;

    /// The connection with a number, on which these octets came.
    fn connection(
        heap: Heap,
        readiness: &Rc<Readiness, Heap>,
        number: usize,
        octets: &[u8],
    ) -> Result<Socket<MemoryPeer>, AllocError> {
        let mut slot = Place::new(readiness.clone()?);
        let _is_put = slot.put(number);
        let mut stream = MemoryPeer::new(heap);
        stream.give(octets)?;
        Ok(Socket::new(stream, slot))
    }

    #[test]
    fn octets_of_two_streams_do_not_mix(rt: HostRuntime) -> Result<(), Fail> {
        let heap = heap(rt.alloc())?;
        let readiness = Rc::new(heap, Readiness::new())?;
        let mut first = connection(heap, &readiness, 0, b"one")?;
        let mut second = connection(heap, &readiness, 1, b"three")?;
        let mut buffer = [0; 8];
        assert_eq!(rt; second.read(&mut buffer), Moved::Octets(5));
        assert_eq!(rt; first.read(&mut buffer), Moved::Octets(3));
        assert_eq!(rt; &buffer, b"oneee\0\0\0");
        assert_eq!(rt; first.write(b"1"), Moved::Octets(1));
        assert_eq!(rt; second.write(b"22"), Moved::Octets(2));
        assert_eq!(rt; first.read(&mut buffer), Moved::Later);
        assert_eq!(rt; first.stream.sent(), b"1".as_slice());
        assert_eq!(rt; second.stream.sent(), b"22".as_slice());
        Ok(())
    }

    #[test]
    fn nothing_moves_if_memory_for_the_record_is_refused(rt: HostRuntime) -> Result<(), Fail> {
        let heap = heap(rt.alloc())?;
        let readiness = Rc::new(heap, Readiness::new())?;
        let mut socket = connection(heap, &readiness, 0, b"one")?;
        let mut buffer = [0; 8];
        heap.refuse(1);
        assert_eq!(rt; socket.read(&mut buffer), Moved::Ended);
        heap.refuse(1);
        assert_eq!(rt; socket.write(b"two"), Moved::Ended);
        heap.refuse(0);
        assert_eq!(rt; socket.read(&mut buffer), Moved::Octets(3));
        assert_eq!(rt; socket.stream.sent(), b"".as_slice());
        Ok(())
    }
}
