//! Datagrams of a socket. Where many wait, some are read before the first of them is handed over, and replies
//! are held back until the last of them is answered: a system call takes less time after another of its kind,
//! and a peer that waits is woken once for many.
ghost use Rattle.std.specs.Prelude.{◌≡◌, ◌≤◌, ◌<◌, ◌++◌, ◌∷◌, [], List, ℕ, length, take, drop, IfOk, IfSome};
ghost use Rattle.std.specs.Prelude.{IfNone, MatchOption, None, Some, true, false};
ghost use Rattle.dns_network.specs.Datagrams.{Datagram as Stated, AllHaveGone, AreRead, HaveGone, HaveCome};
ghost use Rattle.dns_network.specs.Datagrams.{IsHandedOver, NoneHasCome, IsLeaving, arrived_of, leaving_of};
ghost use Rattle.dns_network.specs.Datagrams.{socket_of, stands_in};

use crate::DatagramSocket;
use dns_memory::Heap;
use dns_primary::Peer;
use std::alloc::AllocError;
use std::marker::Model;
use std::net::{IpAddr, Ipv4Addr};

/// How many datagrams are read before the first of them is handed over, and how many are held back, at most.
const MOST: usize = 64;

/// After how many that came one after the other more are read ahead. So a peer that asks one question after
/// the other costs no call in vain.
const FEW: usize = 8;

/// How many octets of a datagram are read: as many as the longest message has (RFC 1035 section 2.3.4), and
/// one that tells a longer one from it.
const ROOM: usize = 513;

/// A place for a datagram, and the peer from which it came or to which it goes.
#[derive(Clone, Copy)]
struct Datagram {
    octets: [u8; ROOM],
    count: usize,
    peer: Peer,
}

impl Datagram {
    /// One without octets.
    fn empty() -> Datagram {
        Datagram {
            octets: [0; ROOM],
            count: 0,
            peer: Peer {
                address: IpAddr::V4(Ipv4Addr::UNSPECIFIED),
                port: 0,
                local: 0,
            },
        }
    }

    /// Its octets.
    fn octets(&self) -> &[u8]
        ensures { result.now ≡ take self.now.count self.now.octets }
    {
        &self.octets[..self.count.min(ROOM)]
    }

    /// Puts these octets and this peer there, if there is room.
    fn put(&mut self, octets: &[u8], peer: Peer) -> bool
        ensures put { result ≡ true → stands_in self.new ≡ (octets.now, peer) }
        ensures full { result ≡ false → self.new ≡ self.old }
    {
        if octets.len() > ROOM {
            return false;
        }
        self.octets[..octets.len()].copy_from_slice(octets);
        self.count = octets.len();
        self.peer = peer;
        true
    }

    /// Reads the next datagram of a socket there, and tells whether one had come.
    fn read<S: DatagramSocket>(&mut self, socket: &mut S) -> bool
        ensures came { result ≡ true → S.receives socket.old (Some (stands_in self.new)) socket.new }
        ensures none { result ≡ false → S.receives socket.old None socket.new }
    {
        let Some((count, peer)) = socket.receive(&mut self.octets) else {
            self.count = 0;
            return false;
        };
        self.count = count;
        self.peer = peer;
        true
    }
}

/// Datagrams in their order, for at most `MOST` of which there are places.
#[derive(Drop)]
struct Queue {
    places: Vec<Datagram, Heap>,
    /// The places before it hold a datagram.
    end: usize,
    /// Of those, the ones before it are done with.
    done: usize,
}

impl Model for Queue {
    ghost use Rattle.std.specs.Prelude.{ℕ, List, ◌≤◌, ◌<◌, map, take, drop, length};
    ghost use Rattle.dns_primary.specs.declared.event.Peer.{Peer};

    ghost Value = { List (List ℕ × Peer) };

    ghost use Rattle.dns_network.specs.Datagrams.{stands_in};

    ghost view = { λ q. map stands_in (drop q.done (take q.end q.places.items)) };

    ghost invariant = { λ q. (q.done ≤ q.end) × (q.end ≤ length q.places.items)
        × (0 < length q.places.items) };
}

impl Queue {
    /// No datagram, and the places for all.
    fn new(heap: Heap) -> Result<Queue, AllocError>
        ensures { IfOk result (λ q. q ≡ []) }
    {
        let mut places = Vec::new(heap);
        places.resize(MOST, Datagram::empty())?;
        Ok(Queue {
            places,
            end: 0,
            done: 0,
        })
    }

    /// Whether all are done with.
    fn is_empty(&self) -> bool
        ensures some { result ≡ false → 0 < length self.now }
        ensures none { result ≡ true → self.now ≡ [] }
    {
        self.done == self.end
    }

    /// Lets all go.
    fn clear(&mut self)
        ensures { self.new ≡ [] }
    {
        self.end = 0;
        self.done = 0;
    }

    /// The first.
    fn first(&self) -> Option<&Datagram>
        ensures { MatchOption result (self.now ≡ [])
            (λ d. (rest : List Stated) × (self.now ≡ stands_in d.now ∷ rest)) }
    {
        if self.is_empty() {
            return None;
        }
        self.places.get(self.done)
    }

    /// Lets the first go, if there is one.
    fn skip(&mut self)
        ensures { self.new ≡ drop 1 self.old }
    {
        if self.done < self.end {
            self.done += 1;
        }
    }

    /// Puts a datagram after the others, if there is room for it.
    fn push(&mut self, octets: &[u8], peer: Peer) -> bool
        ensures put { result ≡ true → self.new ≡ self.old ++ (octets.now, peer) ∷ [] }
        ensures full { result ≡ false → self.new ≡ self.old }
    {
        let Some(slot) = self.places.get_mut(self.end) else {
            return false;
        };
        if !slot.put(octets, peer) {
            return false;
        }
        self.end += 1;
        true
    }

    /// Reads the next datagram of a socket in place of all others, and tells whether one had come.
    fn read_first<S: DatagramSocket>(&mut self, socket: &mut S) -> bool
        ensures came { result ≡ true
            → (one : Stated) × (self.new ≡ one ∷ [])
            × HaveCome S.DatagramSocket (one ∷ []) socket.old socket.new }
        ensures none { result ≡ false → (self.new ≡ []) × S.receives socket.old None socket.new }
    {
        self.end = 0;
        self.done = 0;
        let Some(slot) = self.places.first_mut() else {
            return false;
        };
        if !slot.read(socket) {
            return false;
        }
        self.end = 1;
        true
    }

    /// Reads the next datagram of a socket after the others, and tells whether one had come and there was
    /// room.
    fn read<S: DatagramSocket>(&mut self, socket: &mut S) -> bool
        ensures came { result ≡ true
            → (one : Stated) × (self.new ≡ self.old ++ one ∷ [])
            × HaveCome S.DatagramSocket (one ∷ []) socket.old socket.new }
        ensures none { result ≡ false
            → (self.new ≡ self.old) × AreRead S.DatagramSocket [] socket.old socket.new }
    {
        let Some(slot) = self.places.get_mut(self.end) else {
            return false;
        };
        if !slot.read(socket) {
            return false;
        }
        self.end += 1;
        true
    }

    /// Sends all.
    fn send<S: DatagramSocket>(&mut self, socket: &mut S)
        ensures sent { HaveGone S.DatagramSocket self.old socket.old socket.new }
        ensures gone { self.new ≡ [] }
    {
        for datagram in &self.places[self.done..self.end] {
            socket.send(datagram.peer, datagram.octets());
        }
        self.clear();
    }
}

/// The socket of datagrams, those that were read ahead, and those that are to be sent.
pub struct Datagrams<S: DatagramSocket> {
    socket: S,
    arrived: Queue,
    leaving: Queue,
    /// How often in a row all had come that were read.
    full: usize,
}

// What is to be sent is sent before the socket is let go.
impl<S: DatagramSocket + Drop> Drop for Datagrams<S> {
    fn drop(self) {
        let Datagrams {
            socket,
            arrived,
            leaving,
            full: _,
        } = self;
        let mut socket = socket;
        let mut leaving = leaving;
        leaving.send(&mut socket);
        drop((socket, arrived, leaving));
    }
}

impl<S: DatagramSocket + Drop> Datagrams<S> {
    /// Those of a socket: none yet. Refused where the memory for them is.
    pub fn new(heap: Heap, socket: S) -> Result<Datagrams<S>, AllocError>
        ensures { IfOk result (λ d. (socket_of d ≡ socket) × (arrived_of d ≡ []) × (leaving_of d ≡ [])) }
    {
        Ok(Datagrams {
            socket,
            arrived: Queue::new(heap)?,
            leaving: Queue::new(heap)?,
            full: 0,
        })
    }

    /// Sends all that is to be sent.
    pub fn send_all(&mut self)
        ensures { AllHaveGone S.DatagramSocket self.old self.new }
    {
        self.leaving.send(&mut self.socket);
    }

    /// Reads one datagram, or where many came as many as there are and there is room for, in place of those
    /// that were read before.
    fn read_ahead(&mut self)
        ensures read { AreRead S.DatagramSocket (arrived_of self.new) (socket_of self.old)
            (socket_of self.new) }
        ensures none { arrived_of self.new ≡ [] → S.receives (socket_of self.old) None (socket_of self.new) }
        ensures leaving { leaving_of self.new ≡ leaving_of self.old }
    {
        let full = self.full;
        self.full = 0;
        if !self.arrived.read_first(&mut self.socket) {
            return;
        }
        let most = if full < FEW { 1 } else { MOST };
        for _datagram in 1..most {
            if !self.arrived.read(&mut self.socket) {
                return;
            }
        }
        self.full = full.saturating_add(1);
    }

    /// The next datagram that came, put into a buffer: how many octets it has there, and its peer. What
    /// doesn't fit is cut off. Where none is left of those that were read ahead, what is to be sent is sent,
    /// and some are read.
    pub fn receive(&mut self, into: &mut [u8]) -> Option<(usize, Peer)>
        ensures few { IfSome result (λ r. r.0 ≤ length into.new) }
        ensures handed { IfSome result
            (λ r. (octets : List ℕ) × (take r.0 into.new ≡ take (length into.new) octets)
            × IsHandedOver S.DatagramSocket (octets, r.1) self.old self.new) }
        ensures none { IfNone result (NoneHasCome S.DatagramSocket self.old self.new) }
    {
        if self.arrived.is_empty() {
            self.send_all();
            self.read_ahead();
        }
        let first = self.arrived.first()?;
        let octets = first.octets();
        let count = octets.len().min(into.len());
        into[..count].copy_from_slice(&octets[..count]);
        let peer = first.peer;
        self.arrived.skip();
        Some((count, peer))
    }

    /// Sends a datagram: at once where no other was read ahead, and else after the replies to those.
    pub fn send(&mut self, to: Peer, octets: &[u8])
        ensures leaving { IsLeaving S.DatagramSocket (octets.now, to) self.old self.new }
        ensures prompt { arrived_of self.old ≡ [] → leaving_of self.new ≡ [] }
    {
        if self.arrived.is_empty() || !self.leaving.push(octets, to) {
            self.send_all();
            self.socket.send(to, octets);
        }
    }
}
