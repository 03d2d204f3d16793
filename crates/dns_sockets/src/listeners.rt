//! The sockets on which peers connect, one on each address of the server.
ghost use Rattle.std.specs.Prelude.{◌≡◌, ◌∷◌, [], MatchOption, None, Some, OnErr, OnOk, length, suc};
ghost use Rattle.std.specs.List.{list_any};
ghost use Rattle.dns_sockets.specs.Listeners.{HaveAccepted, HaveConnected, listeners_of, may_connect};

use crate::datagram_sockets::following;
use crate::peers::peer_of;
use crate::system::ListenerCalls;
use dns_memory::Heap;
use dns_primary::Peer;
use std::alloc::AllocError;
use std::io::ErrorKind;

/// The socket of connections on an address.
#[derive(Drop)]
struct Listener<L> {
    socket: L,
    /// Whether a connection may be waiting. It is false only after a call that found none, and up to the next
    /// event of the listener.
    may_accept: bool,
}

impl<L> Listener<L> {
    /// The next connection that came, and its peer, on the address with this index.
    fn accept<T>(&mut self, local: u8) -> Option<(T, Peer)>
    where
        L: ListenerCalls<T>,
        ensures { MatchOption result (HaveConnected L.ListenerCalls local [] self.old self.new)
            (λ one. (one.1.local ≡ local)
            × HaveConnected L.ListenerCalls local (one ∷ []) self.old self.new) }
    {
        if !self.may_accept {
            return None;
        }
        match self.socket.accept() {
            Ok((stream, address)) => Some((stream, peer_of(address, local))),
            Err(error) => {
                self.may_accept = error.kind() != ErrorKind::WouldBlock;
                None
            }
        }
    }
}

/// The listeners, by the indices of their addresses.
#[derive(Drop)]
pub(crate) struct Listeners<L> {
    listeners: Vec<Listener<L>, Heap>,
    /// Which is asked first for the next connection.
    first: usize,
}

impl<L: Drop> Listeners<L> {
    /// None.
    pub(crate) fn new(heap: Heap) -> Listeners<L>
        ensures { listeners_of result ≡ [] }
    {
        Listeners {
            listeners: Vec::new(heap),
            first: 0,
        }
    }

    /// Adds that of the next address.
    pub(crate) fn add(&mut self, socket: L) -> Result<(), AllocError>
        ensures more { OnOk result (length (listeners_of self.new) ≡ suc (length (listeners_of self.old))) }
        ensures same { OnErr result (listeners_of self.new ≡ listeners_of self.old) }
    {
        let listener = Listener {
            socket,
            may_accept: true,
        };
        self.listeners.push(listener)?;
        Ok(())
    }

    /// Takes up an event of the listener with this index, and answers whether there is one.
    pub(crate) fn wake(&mut self, index: usize) -> bool {
        match self.listeners.get_mut(index) {
            Some(listener) => {
                listener.may_accept = true;
                true
            }
            None => false,
        }
    }

    /// Whether a connection may be waiting at one of them.
    #[inline(always)]
    pub(crate) fn may_accept(&self) -> bool
        ensures { result ≡ list_any may_connect (listeners_of self.now) }
    {
        self.listeners.iter().any(|listener| listener.may_accept)
    }

    /// The next connection that came to the listener with this index, and its peer.
    fn accept_by<T>(&mut self, index: usize) -> Option<(T, Peer)>
    where
        L: ListenerCalls<T>,
        ensures { HaveAccepted L.ListenerCalls result (listeners_of self.old) (listeners_of self.new) }
    {
        let local = u8::try_from(index).ok()?;
        self.listeners.get_mut(index)?.accept(local)
    }

    /// The next connection that came, and its peer. The listeners are asked in turn.
    pub(crate) fn accept<T>(&mut self) -> Option<(T, Peer)>
    where
        L: ListenerCalls<T>,
        ensures { HaveAccepted L.ListenerCalls result (listeners_of self.old) (listeners_of self.new) }
    {
        let count = self.listeners.len();
        let mut index = self.first;
        self.first = following(index, count);
        for _listener in 0..count {
            if let Some(connection) = self.accept_by(index) {
                return Some(connection);
            }
            index = following(index, count);
        }
        None
    }
}
