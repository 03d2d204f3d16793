//! Other servers, by their addresses, and streams to them on which one may wait.
ghost use Rattle.std.specs.Prelude.{◌≡◌, ◌↔◌, List, [], ◌∷◌, Option, None};
ghost use Rattle.dns_configuration.specs.Calls.{HasCalled};
ghost use Rattle.dns_fetch.specs.Connecting.{ConnectCall};

use dns_memory::Heap;
use dns_network::{Moved, Stream};
use mio::net::TcpStream;
use mio::{Events, Interest, Poll, Token};
use std::io::{self, ErrorKind, Read, Write};
use std::net::{Net, SocketAddr};
use std::time::{Clock, Duration, Instant};

/// How many seconds a wait for a server lasts at most.
const PATIENCE: u64 = 30;

/// How many events are taken up at once. One socket is waited for.
const EVENTS: usize = 4;

/// How often a connection that is being made is waited for.
const TRIES: usize = 4;

/// The one socket, in events.
const SOCKET: Token = Token(0);

/// A stream of octets on which one may wait.
pub trait WaitingStream: Stream {
    /// Waits until octets may have come, or may be taken, and answers whether that was so before the time for
    /// it was over. It neither reads nor sends.
    fn wait(&mut self) -> bool
        ensures received { Self.is_faithful self.old → Self.received self.new ≡ Self.received self.old }
        ensures sent { Self.is_faithful self.old → Self.sent self.new ≡ Self.sent self.old }
        ensures faithful { Self.is_faithful self.new ↔ Self.is_faithful self.old };
}

/// Servers by their addresses. Whoever has them may answer a call differently from one time to the next, as
/// a network does.
pub trait Servers<S> {
    /// The calls so far, in order; `None` if they are not known, as those of a system are not.
    ghost calls: { Self → Option (List (ConnectCall S)) };

    /// A stream to the server at an address, if that can be reached.
    fn connect(&mut self, address: SocketAddr) -> Option<S>
        ensures { HasCalled (calls self.old) (calls self.new) ((address, result) ∷ []) };
}

/// Servers by TCP, each of which is given so many seconds in all. Nothing that is proved says what the system
/// answers.
#[derive(Clone, Copy)]
pub struct Tcp<'a, R> {
    pub heap: Heap,
    pub rt: &'a R,
    pub seconds: u64,
}

/// A stream by TCP.
///
/// Nothing that is proved says what the system does with a socket, so this one is never taken to be faithful.
#[derive(Drop)]
pub struct TcpSocket<'a, R> {
    stream: TcpStream,
    poll: Poll,
    events: Events<Heap>,
    rt: &'a R,
    start: Instant,
    /// How many seconds from the start on it is used.
    seconds: u64,
}

impl<'a, R: Net + Clock> TcpSocket<'a, R> {
    /// A stream to an address, of which it is not known yet whether it can be reached.
    fn begin(servers: &Tcp<'a, R>, address: SocketAddr) -> io::Result<TcpSocket<'a, R>> {
        let rt = servers.rt;
        let mut stream = TcpStream::connect(rt, address)?;
        let poll = Poll::new(rt)?;
        let both = Interest::READABLE | Interest::WRITABLE;
        poll.registry().register(&mut stream, SOCKET, both)?;
        Ok(TcpSocket {
            stream,
            poll,
            events: Events::with_capacity(servers.heap, EVENTS)?,
            rt,
            start: Instant::now(rt)?,
            seconds: servers.seconds,
        })
    }

    /// How many seconds are left.
    fn seconds_left(&self) -> u64 {
        match self.start.elapsed(self.rt) {
            Ok(passed) => self.seconds.saturating_sub(passed.as_secs()),
            Err(_) => 0,
        }
    }

    /// Waits for an event of the socket, and answers whether there was one, or a signal, while seconds are
    /// left.
    fn has_event(&mut self) -> bool {
        let left = self.seconds_left();
        if left == 0 {
            return false;
        }
        let most = Duration::from_secs(left.min(PATIENCE));
        match self.poll.poll(&mut self.events, Some(most)) {
            Ok(()) => !self.events.is_empty(),
            Err(error) => error.kind() == ErrorKind::Interrupted,
        }
    }

    /// Waits until the server is reached, and answers whether it is.
    fn is_reached(&mut self) -> bool {
        for _try in 0..TRIES {
            if !self.has_event() {
                return false;
            }
            match self.stream.take_error() {
                Ok(None) => {}
                _ => return false,
            }
            match self.stream.peer_addr() {
                Ok(_) => return true,
                Err(error) if error.kind() == ErrorKind::NotConnected => {}
                Err(_) => return false,
            }
        }
        false
    }
}

impl<'a, R: Net + Clock> Servers<TcpSocket<'a, R>> for Tcp<'a, R> {
    ghost calls = { λ _. None };

    fn connect(&mut self, address: SocketAddr) -> Option<TcpSocket<'a, R>> {
        let mut socket = TcpSocket::begin(self, address).ok()?;
        if !socket.is_reached() {
            return None;
        }
        Some(socket)
    }
}

impl<R: Net + Clock> Stream for TcpSocket<'_, R> {
    ghost received = { λ _. [] };

    ghost sent = { λ _. [] };

    ghost is_faithful = { λ _. ⊥ };

    ghost has_ended = { λ _. Unit {0} };

    ghost answers = { λ _ _ _. Unit {0} };

    /// Where no second is left nothing is read, so that a server that never pauses is given up like one that
    /// sends too slowly.
    fn read(&mut self, into: &mut [u8]) -> Moved {
        if self.seconds_left() == 0 {
            return Moved::Later;
        }
        match self.stream.read(into) {
            Ok(0) => Moved::Ended,
            Ok(count) => Moved::Octets(count),
            Err(error) => Moved::after_error(&error),
        }
    }

    fn write(&mut self, octets: &[u8]) -> Moved {
        match self.stream.write(octets) {
            Ok(0) => Moved::Ended,
            Ok(count) => Moved::Octets(count),
            Err(error) => Moved::after_error(&error),
        }
    }
}

/// The system reports each change once. A wait comes only after a call that would have waited, so that
/// nothing is there that was reported already.
impl<R: Net + Clock> WaitingStream for TcpSocket<'_, R> {
    fn wait(&mut self) -> bool {
        self.has_event()
    }
}
