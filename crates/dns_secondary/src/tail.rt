//! Records that came in order, one after the other.
ghost use Rattle.std.specs.Prelude.{◌≡◌, ◌-◌, ◌^◌, min, length, List, [], ◌∷◌, ◌++◌, true, None};
ghost use Rattle.std.specs.Prelude.{IfOk, IfSome, OnErr, OnOk};
ghost use Rattle.std.specs.List.{flat_map};
ghost use Rattle.dns_records.specs.Record.{Record as Stated};

use dns_memory::Heap;
use dns_records::Record;
use std::alloc::AllocError;
use std::marker::Model;
use std::rc::Rc;

/// Records of one message, or of successive ones, which copies share.
struct Run {
    records: Rc<Vec<Record, Heap>, Heap>,
}

// Written out, so that a proof lets one go by one call (docs/GATE.md).
impl Drop for Run {
    fn drop(self) {
        let Run { records } = self;
        drop(records);
    }
}

impl Model for Run {
    ghost use Rattle.std.specs.Prelude.{List};
    ghost use Rattle.dns_records.specs.Record.{Record as Stated};

    ghost Value = { List Stated };

    ghost view = { λ r. r.records.value.items };
}

impl Clone for Run {
    ghost is_clone = { λ r copy. copy ≡ r };

    fn clone(&self) -> Result<Self, AllocError> {
        Ok(Run {
            records: self.records.clone()?,
        })
    }
}

impl Run {
    /// The records.
    fn records(&self) -> &[Record]
        ensures { result.now ≡ self.now }
    {
        self.records.as_ref()
    }
}

/// The last of records.
fn last_of(records: &[Record]) -> Option<&Record>
    ensures { IfSome result (λ r. (front : List Stated) × (records.now ≡ front ++ r.now ∷ [])) }
{
    let (last, _) = records.split_last()?;
    Some(last)
}

/// Records one after the other. Those of the messages before the last are shared by all copies, in runs each
/// of which is at least twice as long as the next, so that a copy of 65,536 records costs at most 17
/// pointers.
pub(crate) struct Tail {
    runs: Vec<Run, Heap>,
    newest: Vec<Record, Heap>,
}

// Written out, so that a proof lets one go by one call (docs/GATE.md).
impl Drop for Tail {
    fn drop(self) {
        let Tail { runs, newest } = self;
        drop((runs, newest));
    }
}

impl Model for Tail {
    ghost use Rattle.std.specs.Prelude.{List, ◌++◌};
    ghost use Rattle.std.specs.List.{flat_map};
    ghost use Rattle.dns_records.specs.Record.{Record as Stated};

    ghost Value = { List Stated };

    ghost view = { λ t. flat_map (λ run. run) t.runs.items ++ t.newest.items };
}

impl Tail {
    /// No record.
    pub(crate) fn new(alloc: Heap) -> Tail
        ensures { result ≡ [] }
    {
        Tail {
            runs: Vec::new(alloc),
            newest: Vec::new(alloc),
        }
    }

    /// What its memory comes from.
    pub(crate) fn allocator(&self) -> Heap {
        *self.newest.allocator()
    }

    /// Whether there is no record: it may say no of none.
    pub(crate) fn is_empty(&self) -> bool
        ensures { result ≡ true → self.now ≡ [] }
    {
        self.runs.is_empty() && self.newest.is_empty()
    }

    /// Puts a record after the others.
    pub(crate) fn push(&mut self, added: Record) -> Result<(), AllocError>
        ensures ok { OnOk result (self.new ≡ self.old ++ added ∷ []) }
        ensures err { OnErr result (self.new ≡ self.old) }
    {
        self.newest.push(added)?;
        Ok(())
    }

    /// The last record. It may be missed where the last message had none.
    pub(crate) fn last(&self) -> Option<&Record>
        ensures { IfSome result (λ r. (front : List Stated) × (self.now ≡ front ++ r.now ∷ [])) }
    {
        if self.newest.is_empty() {
            let (run, _) = self.runs.as_slice().split_last()?;
            let shared = last_of(run.records())?;
            return Some(shared);
        }
        let last = last_of(&self.newest)?;
        Some(last)
    }

    /// The same again.
    pub(crate) fn fork(&self) -> Result<Tail, AllocError>
        ensures { IfOk result (λ fork. fork ≡ self.now) }
    {
        Ok(Tail {
            runs: self.runs.clone()?,
            newest: self.newest.clone()?,
        })
    }

    /// How many records there are, at most as many as can be counted.
    pub(crate) fn count(&self) -> usize
        ensures { result ≡ min (length self.now) (2 ^ 64 - 1) }
    {
        let mut count = self.newest.len();
        'runs: for run in self.runs.iter() {
            count = count.saturating_add(run.records().len());
        }
        count
    }

    /// The same, its records ready to be shared.
    pub(crate) fn sealed(self) -> Result<Tail, AllocError>
        ensures { IfOk result (λ sealed. sealed ≡ self) }
    {
        let Tail { mut runs, newest } = self;
        if newest.is_empty() {
            return Ok(Tail { runs, newest });
        }
        let alloc = *newest.allocator();
        let merged = merge(&mut runs, newest)?;
        runs.push(Run {
            records: Rc::new(alloc, merged)?,
        })?;
        Ok(Tail {
            runs,
            newest: Vec::new(alloc),
        })
    }

    /// Puts copies of the records after others.
    pub(crate) fn copy_to(&self, out: &mut Vec<Record, Heap>) -> Result<(), AllocError>
        ensures { OnOk result (out.new.items ≡ out.old.items ++ self.now) }
    {
        'runs: for run in self.runs.iter() {
            push_copies(out, run.records())?;
        }
        push_copies(out, &self.newest)
    }
}

/// Takes the last run out, where it is shorter than twice so many records.
fn take_short(runs: &mut Vec<Run, Heap>, count: usize) -> Option<Run>
    ensures taken { IfSome result (λ run. runs.old.items ≡ runs.new.items ++ run ∷ []) }
    ensures stays { result ≡ None → runs.new ≡ runs.old }
{
    let (last, _) = runs.as_slice().split_last()?;
    if last.records().len() / 2 >= count {
        return None;
    }
    runs.pop()
}

/// The records of a run, and those after it.
fn joined(run: &Run, after: Vec<Record, Heap>) -> Result<Vec<Record, Heap>, AllocError>
    ensures { IfOk result (λ both. both.items ≡ run.now ++ after.entry.items) }
{
    let mut after = after;
    let mut both = Vec::new(*after.allocator());
    push_copies(&mut both, run.records())?;
    both.append(&mut after)?;
    Ok(both)
}

/// Takes the last runs out, as long as each is shorter than twice the records after it, and puts their
/// records before those.
fn merge(
    runs: &mut Vec<Run, Heap>,
    newest: Vec<Record, Heap>,
) -> Result<Vec<Record, Heap>, AllocError>
    ensures { IfOk result
        (λ merged. flat_map (λ run. run) runs.new.items ++ merged.items
        ≡ flat_map (λ run. run) runs.old.items ++ newest.entry.items) }
{
    let mut merged = newest;
    while let Some(run) = take_short(runs, merged.len()) {
        merged = joined(&run, merged)?;
    }
    Ok(merged)
}

/// Puts copies of records after others.
fn push_copies(out: &mut Vec<Record, Heap>, records: &[Record]) -> Result<(), AllocError>
    ensures { OnOk result (out.new.items ≡ out.old.items ++ records.now) }
{
    out.reserve(records.len())?;
    for record in records {
        out.push_reserved(record.clone()?);
    }
    Ok(())
}
