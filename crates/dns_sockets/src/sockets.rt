//! The sockets of a server. None of their calls waits but `wait`, which waits until one of them is ready.
ghost use Rattle.std.specs.Prelude.{◌≡◌, ◌∷◌, [], IfOk, None, false};
ghost use Rattle.std.specs.List.{list_any};
ghost use Rattle.dns_sockets.specs.DatagramSockets.{AreInOrder, HaveBrought, HaveCarried};
ghost use Rattle.dns_sockets.specs.Listeners.{may_connect};
ghost use Rattle.dns_sockets.specs.Sockets.{HasAccepted, IsWatched, connects_of, datagrams_of};

use crate::datagram_sockets::DatagramSockets;
use crate::listeners::Listeners;
use crate::readiness::{Place, Readiness};
use crate::socket::Socket;
use crate::system::{DatagramCalls, ListenerCalls, StreamCalls};
use dns_memory::Heap;
use dns_network::Network;
use dns_primary::Peer;
use mio::net::{TcpListener, UdpSocket};
use mio::{Events, Interest, Poll, Token};
use std::io::{self, ErrorKind};
use std::net::{Net, SocketAddr};
use std::rc::Rc;
use std::time::Duration;

/// How many events are taken up at once.
const EVENTS: usize = 64;

/// At most this many addresses have sockets. In events the one for connections has the index of its address,
/// and the one for datagrams that index after those. An event of datagrams only ends a wait: they are looked
/// for in every turn.
const ADDRESSES: usize = 8;

/// The connection with the number 0, in events; the others follow by their numbers.
const CONNECTIONS: usize = 2 * ADDRESSES;

/// The sockets of a server's addresses, one for connections and one for datagrams on each.
#[derive(Drop)]
pub struct Sockets<C: DatagramCalls, L> {
    listeners: Listeners<L>,
    datagrams: DatagramSockets<C>,
    poll: Poll,
    events: Events<Heap>,
    /// What may be ready of each connection: whether a read or a write may find something to do.
    readiness: Rc<Readiness, Heap>,
}

impl Sockets<UdpSocket, TcpListener> {
    /// Those of no address.
    fn new<R: Net>(heap: Heap, rt: &R) -> io::Result<Sockets<UdpSocket, TcpListener>>
        ensures { IfOk result (λ sockets. datagrams_of sockets ≡ []) }
    {
        Ok(Sockets {
            listeners: Listeners::new(heap),
            datagrams: DatagramSockets::new(heap),
            poll: Poll::new(rt)?,
            events: Events::with_capacity(heap, EVENTS)?,
            readiness: Rc::new(heap, Readiness::new())?,
        })
    }

    /// Adds those of an address. Refused where the system refuses one, or eight addresses have theirs.
    fn add<R: Net>(&mut self, heap: Heap, rt: &R, address: SocketAddr) -> io::Result<()>
        ensures { AreInOrder (datagrams_of self.old) → AreInOrder (datagrams_of self.new) }
    {
        let index = self.datagrams.count();
        if index >= ADDRESSES {
            return Err(ErrorKind::Other.into());
        }
        let mut listener = TcpListener::bind(rt, address)?;
        let mut socket = UdpSocket::bind(rt, address)?;
        let registry = self.poll.registry();
        registry.register(&mut listener, Token(index), Interest::READABLE)?;
        registry.register(&mut socket, Token(ADDRESSES + index), Interest::READABLE)?;
        self.datagrams.add(heap, socket, address.is_ipv6())?;
        self.listeners.add(listener)?;
        Ok(())
    }

    /// The sockets of these addresses, or the first address that can't be had. That is the first of all where
    /// the system has no events to tell.
    pub fn bind<R: Net>(
        heap: Heap,
        rt: &R,
        addresses: &[SocketAddr],
    ) -> Result<Sockets<UdpSocket, TcpListener>, Option<SocketAddr>>
        ensures { IfOk result (λ sockets. AreInOrder (datagrams_of sockets)) }
    {
        let Ok(mut sockets) = Sockets::new(heap, rt) else {
            return Err(addresses.first().copied());
        };
        for address in addresses {
            if sockets.add(heap, rt, *address).is_err() {
                return Err(Some(*address));
            }
        }
        Ok(sockets)
    }
}

impl<C: DatagramCalls + Drop, L: Drop> Sockets<C, L> {
    /// Waits at most so long for events, and takes up what they say. The system reports each change once, and
    /// keeps those for which there was no room.
    fn take_events(&mut self, timeout: Duration)
        ensures { datagrams_of self.new ≡ datagrams_of self.old }
    {
        let _polled = self.poll.poll(&mut self.events, Some(timeout));
        for event in &self.events {
            let token = event.token().0;
            if self.listeners.wake(token) {
                continue;
            }
            if let Some(number) = token.checked_sub(CONNECTIONS) {
                self.readiness.wake(number);
            }
        }
    }
}

impl<C: DatagramCalls + Drop, L: ListenerCalls<T> + Drop, T: StreamCalls + Drop> Network<Socket<T>>
    for Sockets<C, L> {
    ghost accepts = { HasAccepted L.ListenerCalls };

    ghost watches = { IsWatched T.StreamCalls };

    ghost receives = { λ old got new.
        HaveBrought C.DatagramCalls (datagrams_of old) got (datagrams_of new) };

    ghost sends = { λ old peer octets new.
        HaveCarried C.DatagramCalls ((octets, peer) ∷ []) [] (datagrams_of old)
        (datagrams_of new) };

    ghost looks = { λ old new.
        HaveCarried C.DatagramCalls [] [] (datagrams_of old) (datagrams_of new) };

    ghost keeps_still = { λ _. Unit {0} };

    /// Whether some listener was woken by an event, and has not said since that it would wait.
    #[inline(always)]
    fn may_accept(&self) -> bool
        ensures none { result ≡ false → HasAccepted L.ListenerCalls self.now None self.now }
        ensures ready { result ≡ list_any may_connect (connects_of self.now) }
    {
        self.listeners.may_accept()
    }

    fn accept(&mut self) -> Option<(Socket<T>, Peer)> {
        let slot = Place::new(self.readiness.clone().ok()?);
        let (stream, peer) = self.listeners.accept()?;
        Some((Socket::new(stream, slot), peer))
    }

    fn watch(&mut self, number: usize, socket: Socket<T>) -> Option<Socket<T>> {
        let token = Token(CONNECTIONS.checked_add(number)?);
        let mut socket = socket;
        if !socket.watch(self.poll.registry(), token, number) {
            return None;
        }
        Some(socket)
    }

    fn receive(&mut self, into: &mut [u8]) -> Option<(usize, Peer)> {
        self.datagrams.receive(into)
    }

    /// Sends a datagram by the socket to whose address the peer sent. If a connection may have something to
    /// do a turn may take long, so nothing is held back.
    fn send(&mut self, to: Peer, octets: &[u8]) {
        self.datagrams.send(to, octets);
        if !self.readiness.is_still() {
            self.datagrams.send_all();
        }
    }

    /// Looks which sockets may be ready, and doesn't wait itself. A server that has something to do in every
    /// turn never waits, and would see neither a new connection nor what comes on one that was silent.
    fn look(&mut self) {
        self.datagrams.send_all();
        self.take_events(Duration::ZERO);
    }

    fn is_still(&self) -> bool {
        self.readiness.is_still()
    }

    /// Waits until a socket is ready, or about a second has passed. Each of them had nothing to do.
    fn wait(&mut self) {
        self.datagrams.send_all();
        self.take_events(Duration::from_secs(1));
    }
}
