//! Connections that come and go.
ghost use Rattle.std.specs.Prelude.{◌≡◌, ◌≢◌, [], map, length, IfOk};
ghost use Rattle.dns_primary.specs.declared.event.Waiting.{Waiting as Stated};
ghost use Rattle.dns_primary.specs.declared.event.Noted.TheVariants.{OutOfMemory as StatedLack};
ghost use Rattle.dns_primary.specs.Machine.{Machine};
ghost use Rattle.dns_primary.specs.Connections.{most_connections, without_connection};
ghost use Rattle.dns_primary.specs.Step.{Step, Connect, Closed};
ghost use Rattle.dns_primary.specs.Keeps.{IsKept};
ghost use Rattle.dns_primary.specs.Steps.{Stepped};

use crate::transfers::forget;
use crate::{Effects, Peer, Primary, To, Waiting};
use dns_memory::Heap;
use dns_store::ZoneStore;
use dns_zone::ZoneIndex;
use slab::Slab;
use std::alloc::AllocError;

/// How many connections there may be.
const MOST_CONNECTIONS: usize = 64;

/// No connection, with memory for as many as there may be, and for no more: so each number is below that.
pub(crate) fn no_connections(alloc: Heap) -> Result<Slab<Peer, Heap>, AllocError>
    ensures none { IfOk result (λ s. s.slots ≡ []) }
    ensures room { IfOk result (λ s. s.capacity ≡ most_connections) }
{
    let connections = Slab::with_capacity(alloc, MOST_CONNECTIONS)?;
    if connections.capacity() != MOST_CONNECTIONS {
        return Err(AllocError);
    }
    Ok(connections)
}

/// Where a reply goes when the connection with that number is closed.
fn without_connection(to: To, number: usize) -> To
    ensures { result ≡ without_connection number to }
{
    match to {
        To::Address(peer) => To::Address(peer),
        To::Connection(other) => {
            if other == number {
                To::Nowhere
            } else {
                To::Connection(other)
            }
        }
        To::Nowhere => To::Nowhere,
    }
}

/// What was to go to the connection with that number goes nowhere.
fn redirect(waiting: &mut [Waiting], number: usize)
    ensures { waiting.new
        ≡ map (λ (w : Stated). record w { to = without_connection number w.to }) waiting.old }
{
    for one in waiting.iter_mut() {
        one.to = without_connection(one.to, number);
    }
}

impl<I: ZoneIndex, S: ZoneStore> Primary<I, S> {
    /// A peer connects: it gets a number below how many there may be that no other has, or none where there
    /// are as many.
    pub(crate) fn connect(&mut self, peer: Peer) -> Effects
        ensures step { (old : Machine) → IsKept self.old old
            → Stepped old self.old self.new result
            (λ fails stated next. Step fails old (Connect peer) stated next) }
        ensures memory { result.noted ≢ StatedLack }
        ensures as_many { length self.new.pending.items ≡ length self.old.pending.items }
    {
        let mut effects = Effects::nothing(*self.places.allocator());
        if self.connections.len() >= MOST_CONNECTIONS {
            return effects;
        }
        let number = self.connections.insert_reserved(peer);
        effects.accepted = Some(number);
        effects
    }

    /// A connection is closed. What waits to go to it keeps its place, and goes nowhere; the transfer that is
    /// open on it is forgotten.
    pub(crate) fn close(&mut self, number: usize) -> Effects
        ensures step { (old : Machine) → IsKept self.old old
            → Stepped old self.old self.new result
            (λ fails stated next. Step fails old (Closed number) stated next) }
        ensures memory { result.noted ≢ StatedLack }
        ensures as_many { length self.new.pending.items ≡ length self.old.pending.items }
    {
        let _closed = self.connections.try_remove(number);
        redirect(self.waiting.as_mut_slice(), number);
        forget(&mut self.transfers, number);
        Effects::nothing(*self.places.allocator())
    }
}
