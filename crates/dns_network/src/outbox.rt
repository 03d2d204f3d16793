//! What is left to write to a stream: `Outbox`.
ghost use Rattle.std.specs.Prelude.{◌≡◌, ◌<◌, ◌≤◌, ◌==◌, ◌↔◌, ◌++◌, [], length, take, drop, OnOk, OnErr};
ghost use Rattle.dns_network.specs.Framed.{pending_length};
ghost use Rattle.dns_network.specs.Stream.{IfOctets, moved};

use crate::{Moved, Octets, Stream, length_octets};
use dns_memory::Heap;
use std::alloc::AllocError;
use std::marker::Model;

/// The octets that are left to write to a stream: replies in their order, each after its length, the first
/// one perhaps cut.
#[derive(Drop)]
pub struct Outbox {
    octets: Octets,
}

impl Model for Outbox {
    ghost use Rattle.std.specs.Prelude.{ℕ, List};

    ghost Value = { List ℕ };

    ghost view = { λ o. o.octets.items };
}

impl Outbox {
    /// Nothing is left to write.
    pub fn new(alloc: Heap) -> Outbox
        ensures { result ≡ [] }
    {
        Outbox {
            octets: Vec::new(alloc),
        }
    }

    /// Whether nothing is left to write.
    pub fn is_empty(&self) -> bool
        ensures { result ≡ (length self.now == 0) }
    {
        self.octets.is_empty()
    }

    /// Puts a reply after all that is left to write. Where memory is refused it isn't there.
    pub fn push(&mut self, reply: &[u8]) -> Result<(), AllocError>
        requires { length reply.now < 65536 }
        ensures queued { OnOk result (self.new ≡ self.old ++ pending_length reply.now) }
        ensures refused { OnErr result (self.new ≡ self.old) }
    {
        let before = self.octets.len();
        self.octets.extend_from_slice(&length_octets(reply))?;
        match self.octets.extend_from_slice(reply) {
            Ok(()) => Ok(()),
            Err(refused) => {
                self.octets.truncate(before);
                Err(refused)
            }
        }
    }

    /// Hands to the stream what is left to write, and keeps what it doesn't take.
    pub fn write<S: Stream>(&mut self, stream: &mut S) -> Moved
        ensures few { moved result ≤ length self.old }
        ensures some { IfOctets result (0 < moved result) }
        ensures rest { self.new ≡ drop (moved result) self.old }
        // What was taken by the stream and what is left are what they were, in order.
        ensures went { S.is_faithful stream.old
            → S.sent stream.new ++ self.new ≡ S.sent stream.old ++ self.old }
        ensures took { S.is_faithful stream.old
            → S.sent stream.new ≡ S.sent stream.old ++ take (moved result) self.old }
        ensures still { S.is_faithful stream.old → S.received stream.new ≡ S.received stream.old }
        ensures faithful { S.is_faithful stream.new ↔ S.is_faithful stream.old }
        ensures answered { S.answers stream.old result stream.new }
        ensures ended { result ≡ Moved.Ended → S.has_ended stream.new }
    {
        let moved = stream.write(self.octets.as_slice());
        if let Moved::Octets(count) = moved {
            self.octets.drain(..count);
        }
        moved
    }
}
