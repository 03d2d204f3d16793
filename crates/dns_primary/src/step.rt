//! The events, one step each.
ghost use Rattle.std.specs.Prelude.{◌≡◌, ◌≢◌, ◌<◌, ◌≤◌, ℕ, false, None, Some, MatchOption};
ghost use Rattle.std.specs.Prelude.{length, slice_get};
ghost use Rattle.dns_primary.specs.declared.event.Noted.TheVariants.{OutOfMemory as StatedLack};
ghost use Rattle.dns_primary.specs.Connections.{most_connections};
ghost use Rattle.dns_primary.specs.Machine.{Machine};
ghost use Rattle.dns_primary.specs.Step.{Arrives, takes_memory};
ghost use Rattle.dns_primary.specs.Fresh.{IsShown};
ghost use Rattle.dns_primary.specs.Open.{count_of};
ghost use Rattle.dns_primary.specs.Keeps.{IsKept};
ghost use Rattle.dns_primary.specs.Steps.{SteppedBy, event_shown};

use crate::{Effects, Event, Primary, To};
use dns_memory::Heap;
use dns_request::Transport;
use dns_store::ZoneStore;
use dns_zone::{Zone, ZoneIndex};

impl<I: ZoneIndex, S: ZoneStore> Primary<I, S> {
    /// Does with a message on a connection what is to be done with it. On a connection that isn't there
    /// nothing happens.
    fn arrive(&mut self, alloc: Heap, number: usize, octets: &[u8]) -> Effects
        ensures step { (old : Machine) → IsKept self.old old
            → SteppedBy old (Arrives number octets.now) self.old self.new result }
        ensures as_many { length self.new.pending.items ≡ length self.old.pending.items }
    {
        match self.connections.get(number).copied() {
            Some(peer) => self.serve(alloc, peer, To::Connection(number), octets, Transport::Tcp),
            None => Effects::nothing(alloc),
        }
    }

    /// Lets an event happen, and reports what it does to the world.
    ///
    /// - `Datagram`, `Message`: queries are answered of what is shown. An update is tested, judged on the
    ///   newest version and staged, and its reply waits for the next flush; one that is refused before it is
    ///   judged is answered at once. Where 32 wait, a flush comes first; where the entry is over what is left
    ///   of the zone's journal, a flush and a checkpoint that leaves its sectors. Where that fails, its zone
    ///   is closed, and it is answered with SERVFAIL at once. One for which the zone has no room waits with
    ///   SERVFAIL. A request for a transfer is answered at once by UDP, and opens one on its connection by
    ///   TCP.
    /// - `Pump`: the transfer that is open on the connection gives its next message, and the last one ends
    ///   it. Where memory is refused nothing goes out, and the next pump gives the same message.
    /// - `Connect`: the connection gets a number below 64 that no other has, or none where there are 64.
    ///   `Closed`: what waits to go there goes nowhere, and the transfer that is open there is forgotten.
    ///   `Flush`: what was staged is made durable and shown, and what waits goes out. None of the three takes
    ///   memory.
    /// - `Checkpoint`: all zones are flushed; then the one at the position, unless it is closed, gets a later
    ///   base, and keeps the newest changes alone.
    ///
    /// Where memory is refused, a request is answered with SERVFAIL, and nothing has changed but by the flush
    /// and the checkpoint that came first.
    #[inline(always)]
    pub fn step(&mut self, alloc: Heap, event: Event<'_>) -> Effects
        // Whatever older versions there were, it is the step of the machine, on any devices; and a crash at
        // any moment of it leaves each honest device so that it opens as the versions shown and the first of
        // those staged, and the zone of a checkpoint, also of one that comes before an update, so or with its
        // next base. Each device is as honest as it was.
        ensures step { (old : Machine) → IsKept self.old old
            → SteppedBy old (event_shown event.entry) self.old self.new result }
        ensures memory { takes_memory (event_shown event.entry) ≡ false → result.noted ≢ StatedLack }
        // Also of a primary that keeps no machine.
        ensures count { count_of self.new ≡ count_of self.old }
        ensures few { length result.headers.items ≤ 32 }
        ensures below { (number : ℕ) → result.accepted ≡ Some number → number < most_connections }
    {
        match event {
            Event::Datagram(peer, octets) => {
                self.serve(alloc, peer, To::Address(peer), octets, Transport::Udp)
            }
            Event::Connect(peer) => self.connect(peer),
            Event::Message(number, octets) => self.arrive(alloc, number, octets),
            Event::Flush => self.flush(),
            Event::Checkpoint(index) => self.checkpoint(index),
            Event::Pump(number) => self.pump(alloc, number),
            Event::Closed(number) => self.close(number),
        }
    }

    /// The version of the zone at a position that is shown: its number, the loaded one having 0, and the
    /// zone.
    pub fn shown(&self, index: usize) -> Option<(u64, &Zone<I>)>
        ensures { (m : Machine) → IsKept self.now m
            → MatchOption result (slice_get m.zones index ≡ None)
            (λ shown. IsShown shown.0 shown.1.now (slice_get m.zones index)) }
    {
        match self.zones.get(index) {
            Some(zone) => Some((self.pending[index].number, zone)),
            None => None,
        }
    }
}
