//! A change with the octets of its entry, as it goes to a journal.
ghost use Rattle.std.specs.Prelude.{◌≡◌, IfOk};
ghost use Rattle.dns_changes.specs.Entry.{entry, HasEntry};

use crate::Change;
use dns_memory::Heap;
use std::alloc::AllocError;
use std::marker::Model;

/// A change, and the octets of its entry in a journal. They are made once, before it is known whether there
/// is room for them: how much room the entry takes is read from them, and they are what is written.
#[derive(Debug)]
pub struct PreparedEntry {
    change: Change,
    octets: Vec<u8, Heap>,
}

// Written out, so that a proof lets one go by one call (docs/GATE.md).
impl Drop for PreparedEntry {
    fn drop(self) {
        let PreparedEntry { change, octets } = self;
        drop((change, octets));
    }
}

impl Model for PreparedEntry {
    ghost use Rattle.std.specs.Prelude.{◌≡◌};
    ghost use Rattle.dns_changes.specs.Change.{Change as Stated};
    ghost use Rattle.dns_changes.specs.Entry.{entry, HasEntry};

    ghost Value = { Stated };

    ghost view = { λ p. p.change };

    ghost invariant = { λ p. HasEntry p.change × (p.octets.items ≡ entry p.change) };
}

impl PreparedEntry {
    /// The entry of a change. `AllocError` where memory is refused.
    pub fn new(alloc: Heap, change: Change) -> Result<PreparedEntry, AllocError>
        ensures { IfOk result (λ p. p ≡ change) }
    {
        match change.encode(alloc) {
            Ok(octets) => Ok(PreparedEntry { change, octets }),
            Err(error) => {
                drop(change);
                Err(error)
            }
        }
    }

    /// The change.
    pub fn change(&self) -> &Change
        ensures { result.now ≡ self.now }
    {
        &self.change
    }

    /// The octets of the entry.
    pub fn octets(&self) -> &[u8]
        ensures octets { result.now ≡ entry self.now }
        ensures valid { HasEntry self.now }
    {
        &self.octets
    }

    /// The change alone.
    pub fn into_change(self) -> Change
        ensures { result ≡ self }
    {
        let PreparedEntry { change, octets } = self;
        drop(octets);
        change
    }
}
