//! Checkpoints: all zones are flushed, and then the base of one is moved, so that its journal has room again.
ghost use Rattle.std.specs.Prelude.{◌≡◌, ◌<◌, Some, None, length};
ghost use Rattle.dns_versions.specs.Held.{newest_each};
ghost use Rattle.dns_primary.specs.Machine.{Machine};
ghost use Rattle.dns_primary.specs.Step.{Checkpoint};
ghost use Rattle.dns_primary.specs.Keeps.{IsKept};
ghost use Rattle.dns_primary.specs.Steps.{IsBegunOrLacks, SteppedBy, SteppedOn, noted_moved};

use crate::{Effects, Noted, Primary};
use dns_store::{CheckpointError, ZoneStore};
use dns_zone::ZoneIndex;

/// What is noted after the move of the base of the zone at a position.
fn noted_pending(noted: Noted, index: usize, moved: Result<(), CheckpointError>) -> Noted
    ensures { result ≡ noted_moved noted index moved }
{
    match moved {
        Ok(()) => noted,
        Err(CheckpointError::Device) => match noted {
            Noted::Nothing => Noted::Device(index),
            Noted::OutOfMemory => Noted::OutOfMemory,
            Noted::Device(earlier) => Noted::Device(earlier),
        },
        Err(CheckpointError::Closed) => noted,
        Err(CheckpointError::OutOfMemory) => Noted::OutOfMemory,
    }
}

impl<I: ZoneIndex, S: ZoneStore> Primary<I, S> {
    /// Flushes all zones, and then moves the base of the one at a position to the version shown less as many
    /// changes as it is to keep, where their entries leave so many sectors of its journal.
    pub(crate) fn make_room(&mut self, index: usize, room: usize) -> Effects
        requires inside { index < length self.old.pending.items }
        ensures step { (old : Machine) → IsKept self.old old
            → SteppedOn old (Some (index, room)) self.old self.new result
            (IsBegunOrLacks old (Some (index, room))) }
        ensures room { length self.new.waiting.items < 32 }
        ensures bare { result.message ≡ None }
        ensures as_many { length self.new.pending.items ≡ length self.old.pending.items }
        ensures newest { newest_each self.new.zones.items self.new.pending.items
            ≡ newest_each self.old.zones.items self.old.pending.items }
    {
        let mut effects = self.flush();
        let keep = self.settings[index].keep as usize;
        let versions = &mut self.pending[index];
        let moved = versions.store.checkpoint(keep, room);
        effects.noted = noted_pending(effects.noted, index, moved);
        effects
    }

    /// Flushes all zones, and then moves the base of the one at a position to the version shown less as many
    /// changes as it is to keep, where their entries fit in its journal. Where there is no such zone nothing
    /// happens.
    pub(crate) fn checkpoint(&mut self, index: usize) -> Effects
        ensures step { (old : Machine) → IsKept self.old old
            → SteppedBy old (Checkpoint index) self.old self.new result }
        ensures bare { result.message ≡ None }
        ensures as_many { length self.new.pending.items ≡ length self.old.pending.items }
    {
        if index >= self.pending.len() {
            return Effects::nothing(*self.places.allocator());
        }
        self.make_room(index, 0)
    }
}
