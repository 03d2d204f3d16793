//! The calls of the system on sockets. Those of mio's keep no list of them: what the system answers is not
//! proved.
ghost use Rattle.std.specs.Prelude.{◌≡◌, ◌≤◌, ◌∷◌, [], ℕ, List, Option, None, IfOk, length, take};
ghost use Rattle.std.specs.Io.KnownBytes.{append_known};
ghost use Rattle.std.specs.Result.{result_ok, result_unwrap_or};
ghost use Rattle.dns_configuration.specs.Calls.{HasCalled};
ghost use Rattle.dns_sockets.specs.SystemCalls.{Accept, DatagramCall, EndsStream, ListenerCall, RecvFrom};
ghost use Rattle.dns_sockets.specs.SystemCalls.{SendTo, datagram_in};

use mio::net::{TcpListener, TcpStream, UdpSocket};
use mio::{Interest, Registry, Token};
use std::io::{self, Read as Reading, Write as Writing};
use std::net::SocketAddr;

/// A socket of datagrams, whose calls don't wait.
pub trait DatagramCalls {
    /// The calls so far, in order; `None` if they are not known, as those of a system are not.
    ghost calls: { Self → Option (List DatagramCall) };

    /// The next datagram that came, read into a buffer: how many octets it has there, and the address from
    /// which it came. What doesn't fit is cut off.
    fn recv_from(&mut self, into: &mut [u8]) -> io::Result<(usize, SocketAddr)>
        ensures few { IfOk result (λ came. came.0 ≤ length into.new) }
        ensures called { HasCalled (calls self.old) (calls self.new)
            (RecvFrom (datagram_in into.new result) ∷ []) };

    /// Sends a datagram to an address.
    fn send_to(&mut self, octets: &[u8], to: SocketAddr) -> io::Result<usize>
        ensures { HasCalled (calls self.old) (calls self.new) (SendTo (octets.now, to) ∷ []) };
}

impl DatagramCalls for UdpSocket {
    ghost calls = { λ _. None };

    fn recv_from(&mut self, into: &mut [u8]) -> io::Result<(usize, SocketAddr)> {
        UdpSocket::recv_from(self, into)
    }

    fn send_to(&mut self, octets: &[u8], to: SocketAddr) -> io::Result<usize> {
        UdpSocket::send_to(self, octets, to)
    }
}

/// A socket on which peers connect, whose calls don't wait.
pub trait ListenerCalls<T> {
    /// The calls so far, in order; `None` if they are not known.
    ghost calls: { Self → Option (List (ListenerCall T)) };

    /// The next connection that a peer made, and the peer's address.
    fn accept(&mut self) -> io::Result<(T, SocketAddr)>
        ensures { HasCalled (calls self.old) (calls self.new) (Accept (result_ok result) ∷ []) };
}

impl ListenerCalls<TcpStream> for TcpListener {
    ghost calls = { λ _. None };

    fn accept(&mut self) -> io::Result<(TcpStream, SocketAddr)> {
        TcpListener::accept(self)
    }
}

/// The stream of a connection, whose calls don't wait.
pub trait StreamCalls {
    /// The octets that were read from it so far; `None` if they are not known, as those of a system are not.
    ghost received: { Self → Option (List ℕ) };

    /// The octets that it took so far; `None` if they are not known.
    ghost sent: { Self → Option (List ℕ) };

    /// It says itself that it ended, or failed.
    ghost has_ended: { Self → Type 0 };

    /// Reads octets that came into a buffer, and answers how many.
    fn read(&mut self, into: &mut [u8]) -> io::Result<usize>
        ensures few { IfOk result (λ count. count ≤ length into.new) }
        ensures came { received self.new
            ≡ append_known (received self.old) (take (result_unwrap_or result 0) into.new) }
        ensures still { sent self.new ≡ sent self.old }
        ensures ended { EndsStream result → has_ended self.new };

    /// Hands octets over, and answers how many of them were taken, from the front.
    fn write(&mut self, octets: &[u8]) -> io::Result<usize>
        ensures few { IfOk result (λ count. count ≤ length octets.now) }
        ensures went { sent self.new
            ≡ append_known (sent self.old) (take (result_unwrap_or result 0) octets.now) }
        ensures still { received self.new ≡ received self.old }
        ensures ended { EndsStream result → has_ended self.new };

    /// Lets events of the stream be reported by a token, and each write leave at once.
    fn watch(&mut self, registry: &Registry, token: Token) -> io::Result<()>
        ensures received { received self.new ≡ received self.old }
        ensures sent { sent self.new ≡ sent self.old };
}

impl StreamCalls for TcpStream {
    ghost received = { λ _. None };

    ghost sent = { λ _. None };

    ghost has_ended = { λ _. Unit {0} };

    fn read(&mut self, into: &mut [u8]) -> io::Result<usize> {
        Reading::read(self, into)
    }

    fn write(&mut self, octets: &[u8]) -> io::Result<usize> {
        Writing::write(self, octets)
    }

    fn watch(&mut self, registry: &Registry, token: Token) -> io::Result<()> {
        self.set_nodelay(true)?;
        registry.register(self, token, Interest::READABLE | Interest::WRITABLE)
    }
}
