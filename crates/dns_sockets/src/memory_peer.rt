//! The stream of a connection in memory, for tests.
ghost use Rattle.std.specs.Prelude.{◌≡◌, [], IfOk, Some, true};
ghost use Rattle.dns_sockets.specs.MemoryPeers.{PeerHasEnded};

use crate::system::StreamCalls;
use dns_devices::Twin;
use dns_memory::Heap;
use mio::{Registry, Token};
use std::alloc::AllocError;
use std::cmp::min;
use std::io::{self, ErrorKind};
use std::marker::Model;

/// The stream of a connection in memory, which keeps a record of what was read from it and of what it took. A
/// call for whose record memory is refused fails, and moves nothing.
pub(crate) struct MemoryPeer {
    /// What the peer wrote and nobody read yet.
    waiting: Vec<u8, Heap>,
    received: Vec<u8, Heap>,
    sent: Vec<u8, Heap>,
    /// Whether the peer writes no more.
    is_closed: bool,
    /// Whether a call failed.
    has_failed: bool,
}

impl Model for MemoryPeer {
    ghost use Rattle.dns_sockets.specs.MemoryPeers.{PeerInMemory, peer_in};

    ghost Value = { PeerInMemory };

    ghost view = { peer_in };
}

// Written out, so that a proof lets one go by one call (docs/GATE.md).
impl Drop for MemoryPeer {
    fn drop(self) {
        let MemoryPeer {
            waiting,
            received,
            sent,
            is_closed: _,
            has_failed: _,
        } = self;
        drop((waiting, received, sent));
    }
}

impl MemoryPeer {
    /// A stream on which nothing came yet.
    pub(crate) fn new(heap: Heap) -> MemoryPeer
        ensures received { result.received ≡ [] }
        ensures sent { result.sent ≡ [] }
    {
        MemoryPeer {
            waiting: Vec::new(heap),
            received: Vec::new(heap),
            sent: Vec::new(heap),
            is_closed: false,
            has_failed: false,
        }
    }

    /// The peer writes these octets.
    pub(crate) fn give(&mut self, octets: &[u8]) -> Result<(), AllocError>
        ensures received { self.new.received ≡ self.old.received }
        ensures sent { self.new.sent ≡ self.old.sent }
    {
        self.waiting.extend_from_slice(octets)
    }

    /// The peer writes no more.
    pub(crate) fn close(&mut self)
        ensures { self.new ≡ record self.old { is_closed = true } }
    {
        self.is_closed = true;
    }

    /// What it took so far.
    pub(crate) fn sent(&self) -> &[u8]
        ensures { result.now ≡ self.now.sent }
    {
        &self.sent
    }
}

impl StreamCalls for MemoryPeer {
    ghost received = { λ peer. Some peer.received };

    ghost sent = { λ peer. Some peer.sent };

    ghost has_ended = { PeerHasEnded };

    fn read(&mut self, into: &mut [u8]) -> io::Result<usize> {
        let count = min(into.len(), self.waiting.len());
        if count == 0 {
            return match self.is_closed && self.waiting.is_empty() {
                true => Ok(0),
                false => Err(ErrorKind::WouldBlock.into()),
            };
        }
        into[..count].copy_from_slice(&self.waiting[..count]);
        match self.received.extend_from_slice(&into[..count]) {
            Ok(()) => {
                self.waiting.drain(..count);
                Ok(count)
            }
            Err(_) => {
                self.has_failed = true;
                Err(ErrorKind::OutOfMemory.into())
            }
        }
    }

    fn write(&mut self, octets: &[u8]) -> io::Result<usize> {
        if octets.is_empty() {
            return Err(ErrorKind::WouldBlock.into());
        }
        match self.sent.extend_from_slice(octets) {
            Ok(()) => Ok(octets.len()),
            Err(_) => {
                self.has_failed = true;
                Err(ErrorKind::OutOfMemory.into())
            }
        }
    }

    fn watch(&mut self, _registry: &Registry, _token: Token) -> io::Result<()> {
        Ok(())
    }
}

/// These octets again.
fn again(heap: Heap, octets: &[u8]) -> Result<Vec<u8, Heap>, AllocError>
    ensures { IfOk result (λ again. again.items ≡ octets.now) }
{
    let mut again = Vec::new(heap);
    again.extend_from_slice(octets)?;
    Ok(again)
}

impl Twin for MemoryPeer {
    fn twin(&self, heap: Heap) -> Result<MemoryPeer, AllocError> {
        Ok(MemoryPeer {
            waiting: again(heap, &self.waiting)?,
            received: again(heap, &self.received)?,
            sent: again(heap, &self.sent)?,
            is_closed: self.is_closed,
            has_failed: self.has_failed,
        })
    }
}
