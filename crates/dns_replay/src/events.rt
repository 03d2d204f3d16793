//! Primaries over any store, as a script lets events happen to them and sees what they show.
//!
//! A call that names both a store over a device and the memory of every collection has no proof, so here the
//! memory, the event and its effects are type parameters.
ghost use Rattle.std.specs.Prelude.{◌≡◌, ℕ, Option, slice_get};
ghost use Rattle.dns_primary.specs.Machine.{Machine};
ghost use Rattle.dns_primary.specs.Keeps.{IsKept};
ghost use Rattle.dns_primary.specs.Steps.{HasSameState, SteppedBy, event_shown};
ghost use Rattle.dns_replay.specs.Scripts.{shown_version};

use dns_memory::Heap;
use dns_primary::{Effects, Event, Primary};
use dns_store::ZoneStore;
use dns_zone::ZoneIndex;

/// What events happen to.
pub(crate) trait TakesEvents<H, E, R> {
    /// It took a step of an event, with these effects.
    ghost stepped: { Self → Self → E → R → Type 0 };

    /// Lets an event happen.
    fn take_event(&mut self, heap: H, event: E) -> R
        ensures { stepped self.old self.new event result };
}

impl<'e, I: ZoneIndex, S: ZoneStore> TakesEvents<Heap, Event<'e>, Effects> for Primary<I, S> {
    ghost stepped = { λ old new event effects. (m : Machine) → IsKept old m
        → SteppedBy m (event_shown event) old new effects };

    fn take_event(&mut self, heap: Heap, event: Event<'e>) -> Effects {
        self.step(heap, event)
    }
}

/// Lets an event happen.
pub(crate) fn happen<H, E, R, P: TakesEvents<H, E, R>>(primary: &mut P, heap: H, event: E) -> R
    ensures { P.stepped primary.old primary.new event result }
{
    primary.take_event(heap, event)
}

/// What takes back the memory of effects that have been printed, as a server does when they were sent.
pub(crate) trait TakesBack<H, R> {
    /// It has the state that it had.
    ghost stays: { Self → Self → Type 0 };

    /// Takes back the memory of effects.
    fn take_back(&mut self, heap: H, effects: R)
        ensures { stays self.old self.new };
}

impl<I: ZoneIndex, S: ZoneStore> TakesBack<Heap, Effects> for Primary<I, S> {
    ghost stays = { λ old new. HasSameState old new };

    fn take_back(&mut self, heap: Heap, effects: Effects) {
        self.lend(effects.into_octets(heap));
    }
}

/// Gives back the memory of effects that have been printed.
pub(crate) fn give_back<H, R, P: TakesBack<H, R>>(primary: &mut P, heap: H, effects: R)
    ensures { P.stays primary.old primary.new }
{
    primary.take_back(heap, effects);
}

/// What shows a version of each of its zones.
pub(crate) trait ShowsVersions {
    /// The zone at a position is shown in the version with this number, and this serial.
    ghost shows: { Self → ℕ → Option (ℕ × ℕ) → Type 0 };

    /// The number of the version that is shown of the zone at a position, and its serial.
    fn version_at(&self, index: usize) -> Option<(u64, u32)>
        ensures { shows self.now index result };
}

impl<I: ZoneIndex, S: ZoneStore> ShowsVersions for Primary<I, S> {
    ghost shows = { λ p index version. (m : Machine) → IsKept p m
        → version ≡ shown_version (slice_get m.zones index) };

    fn version_at(&self, index: usize) -> Option<(u64, u32)> {
        let (number, zone) = self.shown(index)?;
        Some((number, zone.soa().serial()))
    }
}

/// The number of the version that is shown of the zone at a position, and its serial.
pub(crate) fn version_at<P: ShowsVersions>(primary: &P, index: usize) -> Option<(u64, u32)>
    ensures { P.shows primary.now index result }
{
    primary.version_at(index)
}
