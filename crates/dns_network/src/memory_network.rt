//! A network in memory, for tests.
ghost use Rattle.std.specs.Prelude.{◌≡◌, ◌++◌, ◌∷◌, [], map, OnOk, OnErr};
ghost use Rattle.dns_network.specs.MemoryNetwork.{Accepts, Observes, Receives, SendsDatagram, SendsNothing};
ghost use Rattle.dns_network.specs.MemoryNetwork.{TakesNote};
ghost use Rattle.dns_network.specs.MemoryNetwork.{Watches, datagrams_from};

use crate::{MemoryStream, Network, Note, Observer, Octets};
use dns_memory::Heap;
use dns_primary::{Effects, Event, Peer};
use std::alloc::AllocError;

/// A network in memory. What is sent by it is kept, and so is what is reported of turns.
pub struct MemoryNetwork {
    alloc: Heap,
    streams: Vec<(MemoryStream, Peer), Heap>,
    datagrams: Vec<(Octets, Peer), Heap>,
    sent: Vec<(Octets, Peer), Heap>,
    sends_fail: bool,
}

// Written out, so that a proof lets one go by one call (docs/GATE.md).
impl Drop for MemoryNetwork {
    fn drop(self) {
        let MemoryNetwork {
            alloc: _,
            streams,
            datagrams,
            sent,
            sends_fail: _,
        } = self;
        drop((streams, datagrams, sent));
    }
}

impl MemoryNetwork {
    /// A network on which nothing came yet.
    pub fn new(alloc: Heap) -> MemoryNetwork {
        MemoryNetwork {
            alloc,
            streams: Vec::new(alloc),
            datagrams: Vec::new(alloc),
            sent: Vec::new(alloc),
            sends_fail: false,
        }
    }

    /// A peer connects, by this stream.
    pub fn connect(&mut self, stream: MemoryStream, peer: Peer) -> Result<(), AllocError> {
        self.streams.push((stream, peer))?;
        Ok(())
    }

    /// A peer sends a datagram.
    pub fn give(&mut self, octets: &[u8], peer: Peer) -> Result<(), AllocError> {
        let octets = Vec::from_slice(self.alloc, octets)?;
        self.datagrams.push((octets, peer))?;
        Ok(())
    }

    /// The datagrams that were sent, in their order, each with its peer.
    pub fn sent(&self) -> &[(Octets, Peer)]
        ensures { map (λ d. (d.0.items, d.1)) result.now ≡ datagrams_from self.now }
    {
        &self.sent
    }

    /// From here on datagrams can be sent or not.
    pub fn set_sends_fail(&mut self, sends_fail: bool) {
        self.sends_fail = sends_fail;
    }

    // Keeps a datagram that is sent.
    fn keep(&mut self, octets: &[u8], peer: Peer) -> Result<(), AllocError>
        ensures kept { OnOk result
            (datagrams_from self.new ≡ datagrams_from self.old ++ (octets.now, peer) ∷ []) }
        ensures refused { OnErr result (datagrams_from self.new ≡ datagrams_from self.old) }
    {
        let octets = Vec::from_slice(self.alloc, octets)?;
        self.sent.push((octets, peer))?;
        Ok(())
    }
}

impl Network<MemoryStream> for MemoryNetwork {
    ghost accepts = { Accepts };

    ghost watches = { Watches };

    ghost receives = { Receives };

    ghost sends = { SendsDatagram };

    ghost looks = { SendsNothing };

    ghost keeps_still = { λ _. ⊥ };

    fn may_accept(&self) -> bool {
        !self.streams.is_empty()
    }

    fn accept(&mut self) -> Option<(MemoryStream, Peer)> {
        if self.streams.is_empty() {
            return None;
        }
        Some(self.streams.remove(0))
    }

    fn watch(&mut self, _number: usize, stream: MemoryStream) -> Option<MemoryStream> {
        Some(stream)
    }

    fn receive(&mut self, into: &mut [u8]) -> Option<(usize, Peer)> {
        if self.datagrams.is_empty() {
            return None;
        }
        let (octets, peer) = self.datagrams.remove(0);
        let count = octets.len().min(into.len());
        into[..count].copy_from_slice(&octets[..count]);
        Some((count, peer))
    }

    fn send(&mut self, to: Peer, octets: &[u8]) {
        if !self.sends_fail {
            let _kept = self.keep(octets, to);
        }
    }

    fn look(&mut self) {}

    fn is_still(&self) -> bool {
        false
    }

    fn wait(&mut self) {}
}

/// Notes in memory, for tests: one that memory is refused for is dropped.
#[derive(Drop)]
pub struct MemoryNotes {
    notes: Vec<Note, Heap>,
}

impl MemoryNotes {
    /// No note.
    pub fn new(alloc: Heap) -> MemoryNotes {
        MemoryNotes {
            notes: Vec::new(alloc),
        }
    }

    /// The notes, in their order.
    pub fn as_slice(&self) -> &[Note] {
        &self.notes
    }
}

impl Observer for MemoryNotes {
    ghost takes = { TakesNote };

    ghost observes = { Observes };

    fn note(&mut self, note: Note) {
        let _kept = self.notes.push(note);
    }

    fn observe(&mut self, _event: Event<'_>, _effects: &Effects) {}
}
