//! The changes that lead to a version of a zone.
ghost use Rattle.std.specs.Prelude.{◌≡◌, ◌↔◌, [], ◌∷◌, ◌++◌, drop, length, slice_get, IsTrue, IfOk, OnOk};
ghost use Rattle.std.specs.Prelude.{OnErr};
ghost use Rattle.std.specs.Option.{option_copied};

use dns_changes::Change;
use dns_memory::Heap;
use dns_records::Record;
use std::alloc::AllocError;
use std::marker::Model;

/// The changes that lead from one version of a zone to a later one, the oldest first.
#[derive(Drop)]
pub struct History {
    changes: Vec<Change, Heap>,
}

impl Model for History {
    ghost use Rattle.std.specs.Prelude.{List};
    ghost use Rattle.dns_changes.specs.Change.{Change as Stated};

    ghost Value = { List Stated };

    ghost view = { λ h. h.changes.items };
}

/// Copies of records.
fn copied_records(alloc: Heap, records: &[Record]) -> Result<Vec<Record, Heap>, AllocError>
    ensures { IfOk result (λ copies. copies.items ≡ records.now) }
{
    let mut copies = Vec::with_capacity(alloc, records.len())?;
    for record in records {
        copies.push_reserved(record.clone()?);
    }
    Ok(copies)
}

/// A copy of a change.
fn copied_change(alloc: Heap, change: &Change) -> Result<Change, AllocError>
    ensures { IfOk result (λ copy. copy ≡ change.now) }
{
    let removed = copied_records(alloc, change.removed())?;
    let added = copied_records(alloc, change.added())?;
    let old_soa = change.old_soa().clone()?;
    let new_soa = change.new_soa().clone()?;
    Ok(Change::new(old_soa, removed, new_soa, added))
}

impl History {
    /// The history of no change.
    pub fn new(alloc: Heap) -> History
        ensures { result ≡ [] }
    {
        History {
            changes: Vec::new(alloc),
        }
    }

    /// Puts a newer change after the others.
    pub fn push(&mut self, change: Change) -> Result<(), AllocError>
        ensures ok { OnOk result (self.new ≡ self.old ++ change ∷ []) }
        ensures err { OnErr result (self.new ≡ self.old) }
    {
        self.changes.push(change)?;
        Ok(())
    }

    /// Copies of changes, those from a number on.
    pub fn copied(alloc: Heap, changes: &[Change], first: usize) -> Result<History, AllocError>
        ensures { IfOk result (λ h. h ≡ drop first changes.now) }
    {
        let mut history = History::new(alloc);
        let mut number = first;
        'changes: while number < changes.len() {
            history.push(copied_change(alloc, &changes[number])?)?;
            number += 1;
        }
        Ok(history)
    }

    /// How many changes there are.
    pub fn len(&self) -> usize
        ensures { result ≡ length self.now }
    {
        self.changes.len()
    }

    /// Whether there is none.
    pub fn is_empty(&self) -> bool
        ensures { IsTrue result ↔ (self.now ≡ []) }
    {
        self.changes.is_empty()
    }

    /// The change with that number, the oldest having 0.
    pub fn get(&self, number: usize) -> Option<&Change>
        ensures { option_copied result ≡ slice_get self.now number }
    {
        self.changes.get(number)
    }
}
