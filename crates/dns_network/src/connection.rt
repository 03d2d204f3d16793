//! A connection: its stream, what came on it and what is to go out.
ghost use Rattle.std.specs.Prelude.{◌≡◌, ◌≢◌, ◌<◌, ◌==◌, ◌++◌, ◌∷◌, ℕ, List, [], not, length, drop};
ghost use Rattle.std.specs.Prelude.{◌↔◌, IsTrue, IfOk, OnOk, OnErr, OnSome, IfNone, MatchOption};
ghost use Rattle.dns_network.specs.Framed.{IsFramed};
ghost use Rattle.dns_network.specs.Stream.{IfOctets, moved};
ghost use Rattle.dns_network.specs.Connection.{HasLost, HasMoved, HasRead, IsQueued, IsSilent, IsStalled};
ghost use Rattle.dns_network.specs.Connection.{held_of, rest_of, stream_of, unwritten_of, used_after};
ghost use Rattle.dns_network.specs.Connection.{used_of};

use crate::{Framing, Moved, Octets, Outbox, Stream};
use dns_memory::Heap;
use std::alloc::AllocError;

/// A connection that wasn't used for so many seconds may be closed.
const SILENCE: u64 = 30;

/// A connection: its stream, the messages that came and weren't handled yet, what is left to write, and the
/// second in which it was last used: it came, a whole message was handed over, or its stream took an octet.
pub struct Connection<S: Stream> {
    stream: S,
    framing: Framing,
    messages: Vec<Octets, Heap>,
    outbox: Outbox,
    used: u64,
}

/// The second in which a connection was last used, after a write in the second `now`.
fn used_after(moved: Moved, now: u64, before: u64) -> u64
    ensures { result ≡ used_after moved now before }
{
    match moved {
        Moved::Octets(_) => now,
        Moved::Later | Moved::Ended => before,
    }
}

// Written out, so that a proof lets one go by one call (docs/GATE.md).
impl<S: Stream + Drop> Drop for Connection<S> {
    fn drop(self) {
        let Connection {
            stream,
            framing,
            messages,
            outbox,
            used: _,
        } = self;
        drop((stream, framing, messages, outbox));
    }
}

impl<S: Stream + Drop> Connection<S> {
    /// A connection of which nothing was read and to which nothing was written, in the second `now`.
    pub fn new(alloc: Heap, stream: S, now: u64) -> Connection<S>
        ensures stream { stream_of result ≡ stream }
        ensures left { unwritten_of result ≡ [] }
        ensures held { held_of result ≡ [] }
        ensures rest { rest_of result ≡ [] }
        ensures used { used_of result ≡ now }
    {
        Connection {
            stream,
            framing: Framing::new(alloc),
            messages: Vec::new(alloc),
            outbox: Outbox::new(alloc),
            used: now,
        }
    }

    /// The stream.
    pub fn stream_mut(&mut self) -> &mut S
        ensures value { result.now ≡ stream_of self.old }
    {
        &mut self.stream
    }

    /// Whether octets are left to write.
    pub fn has_left(&self) -> bool
        ensures { result ≡ not (length (unwritten_of self.now) == 0) }
    {
        !self.outbox.is_empty()
    }

    /// Puts a reply after all that is left to write, with its length before it. Where memory is refused it
    /// isn't there.
    pub fn push(&mut self, reply: &[u8]) -> Result<(), AllocError>
        requires { length reply.now < 65536 }
        ensures queued { OnOk result (IsQueued reply.now self.old self.new) }
        ensures refused { OnErr result (self.new ≡ self.old) }
    {
        self.outbox.push(reply)
    }

    /// Writes what is left to write, as far as the stream takes it.
    pub fn write(&mut self, now: u64) -> Moved
        ensures left { unwritten_of self.new ≡ drop (moved result) (unwritten_of self.old) }
        // What the stream took and what is left are what they were, in order.
        ensures moved { HasMoved S.Stream now self.old self.new }
        ensures answered { S.answers (stream_of self.old) result (stream_of self.new) }
        ensures ended { result ≡ Moved.Ended → S.has_ended (stream_of self.new) }
        ensures used { used_of self.new ≡ used_after result now (used_of self.old) }
        ensures still { S.is_faithful (stream_of self.old)
            → S.received (stream_of self.new) ≡ S.received (stream_of self.old) }
        ensures held { held_of self.new ≡ held_of self.old }
        ensures rest { rest_of self.new ≡ rest_of self.old }
    {
        let moved = self.outbox.write(&mut self.stream);
        self.used = used_after(moved, now, self.used);
        moved
    }

    /// Reads one piece of the stream into the buffer, and takes the messages that are whole with it; nothing
    /// is read while octets are left to write, or a whole message is held. Where memory is refused the piece
    /// is lost.
    pub fn read(&mut self, alloc: Heap, buffer: &mut [u8]) -> Result<Moved, AllocError>
        ensures writes_first { unwritten_of self.old ≢ [] → self.new ≡ self.old }
        ensures held_first { held_of self.old ≢ [] → self.new ≡ self.old }
        // The piece that was read follows what was read before, and its messages are held.
        ensures came { S.is_faithful (stream_of self.old) → IfOk result (λ moved. IfOctets moved
            ((piece : List ℕ) × (S.received (stream_of self.new) ≡ S.received (stream_of self.old) ++ piece)
            × IsFramed (rest_of self.old ++ piece) (held_of self.new) (rest_of self.new))) }
        ensures moved { (now : ℕ) → IfOk result (λ moved. HasRead S.Stream now moved self.old self.new) }
        ensures lost { OnErr result (HasLost S.Stream self.old self.new) }
        ensures still { S.is_faithful (stream_of self.old)
            → S.sent (stream_of self.new) ≡ S.sent (stream_of self.old) }
        ensures left { unwritten_of self.new ≡ unwritten_of self.old }
        // What is read counts for nothing until a whole message is handed over.
        ensures used { used_of self.new ≡ used_of self.old }
    {
        if self.has_left() || !self.messages.is_empty() {
            return Ok(Moved::Later);
        }
        let moved = self.stream.read(buffer);
        if let Moved::Octets(count) = moved {
            self.messages = self.framing.feed(alloc, &buffer[..count])?;
        }
        Ok(moved)
    }

    /// The first of the messages that came and weren't handled yet, which is handed over in the second `now`.
    pub fn next_message(&mut self, now: u64) -> Option<Octets>
        ensures first { MatchOption result (held_of self.old ≡ [])
            (λ m. held_of self.old ≡ m.items ∷ held_of self.new) }
        ensures left { unwritten_of self.new ≡ unwritten_of self.old }
        ensures stream { stream_of self.new ≡ stream_of self.old }
        ensures rest { rest_of self.new ≡ rest_of self.old }
        ensures used { OnSome result (used_of self.new ≡ now) }
        ensures none { IfNone result (self.new ≡ self.old) }
    {
        if self.messages.is_empty() {
            return None;
        }
        self.used = now;
        Some(self.messages.remove(0))
    }

    /// Whether nothing is left to write or to handle, and it wasn't used for 30 seconds.
    pub fn is_silent(&self, now: u64) -> bool
        ensures { IsTrue result ↔ IsSilent now self.now }
    {
        self.outbox.is_empty()
            && self.messages.is_empty()
            && now.saturating_sub(self.used) >= SILENCE
    }

    /// Whether octets are left to write, and it wasn't used for 30 seconds: the peer takes none of them.
    pub fn is_stalled(&self, now: u64) -> bool
        ensures { IsTrue result ↔ IsStalled now self.now }
    {
        self.has_left() && now.saturating_sub(self.used) >= SILENCE
    }
}
