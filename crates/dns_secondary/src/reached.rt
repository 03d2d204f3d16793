//! The set that an answer has led to so far.
ghost use Rattle.std.specs.Prelude.{◌≡◌, ◌-◌, ◌^◌, min, length, List, [], ◌∷◌, ◌++◌, true, false};
ghost use Rattle.std.specs.Prelude.{IfOk, IfSome, OnErr, OnOk};
ghost use Rattle.dns_records.specs.Record.{Record as Stated};
ghost use Rattle.dns_zone.specs.Records.{contains, has, is_ordered, put, without};

use crate::tail::Tail;
use dns_changes::{holds, holds_key, take_out};
use dns_memory::Heap;
use dns_records::Record;
use dns_zone::{Records, ZoneIndex};
use std::alloc::AllocError;
use std::marker::Model;

/// How many records a set has at most after which a list of records is begun. What is put into a larger one
/// comes in no order, and costs a search.
const FEW: usize = 64;

/// The set that an answer has led to so far. Records that come after all others in order are kept beside it,
/// and none of them is searched, until another record comes or the set is asked for.
pub(crate) struct Reached<I: ZoneIndex> {
    set: I,
    tail: Tail,
}

// Written out, so that a proof lets one go by one call (docs/GATE.md).
impl<I: ZoneIndex> Drop for Reached<I> {
    fn drop(self) {
        let Reached { set, tail } = self;
        drop((set, tail));
    }
}

impl<I: ZoneIndex> Model for Reached<I> {
    ghost use Rattle.std.specs.Prelude.{◌≡◌, ◌-◌, ◌^◌, min, length, List, ◌++◌, true};
    ghost use Rattle.dns_records.specs.Record.{Record as Stated};
    ghost use Rattle.dns_zone.specs.Records.{is_ordered};

    ghost Value = { List Stated };

    ghost view = { λ r. I.records r.set ++ r.tail };

    ghost invariant = { λ r. is_ordered (I.records r.set ++ r.tail) ≡ true };
}

/// The last record of a small set. It may be missed.
fn last_of<I: ZoneIndex>(set: &I) -> Option<&Record>
    ensures { IfSome result (λ r. (front : List Stated) × (I.records set.now ≡ front ++ r.now ∷ [])) }
{
    let len = set.len();
    if len == 0 || len > FEW {
        return None;
    }
    set.run_from(len - 1).first()
}

/// Copies of the records of a set.
fn copies_of<I: ZoneIndex>(alloc: Heap, set: &I) -> Result<Vec<Record, Heap>, AllocError>
    ensures { IfOk result (λ copies. copies.items ≡ I.records set.now) }
{
    let mut copies = Vec::new(alloc);
    for record in Records::of(set) {
        copies.push(record.clone()?)?;
    }
    Ok(copies)
}

/// The set of the records of one and of a list of those after them.
fn joined<I: ZoneIndex>(set: &I, tail: &Tail) -> Result<I, AllocError>
    requires { is_ordered (I.records set.now ++ tail.now) ≡ true }
    ensures { IfOk result (λ whole. I.records whole ≡ I.records set.now ++ tail.now) }
{
    let alloc = tail.allocator();
    let mut whole = copies_of(alloc, set)?;
    tail.copy_to(&mut whole)?;
    I::from_sorted(alloc, whole)
}

/// Moves the records of the list into the set, after which it has none.
fn settle<I: ZoneIndex>(set: &mut I, tail: &mut Tail) -> Result<(), AllocError>
    requires { is_ordered (I.records set.old ++ tail.old) ≡ true }
    ensures set { OnOk result (I.records set.new ≡ I.records set.old ++ tail.old) }
    ensures none { OnOk result (tail.new ≡ []) }
    ensures stays { OnErr result ((I.records set.new ≡ I.records set.old) × (tail.new ≡ tail.old)) }
{
    if tail.is_empty() {
        return Ok(());
    }
    *set = joined(set, tail)?;
    *tail = Tail::new(tail.allocator());
    Ok(())
}

impl<I: ZoneIndex> Reached<I> {
    /// A set as it is.
    pub(crate) fn of(alloc: Heap, set: I) -> Reached<I>
        ensures { result ≡ I.records set }
    {
        Reached {
            set,
            tail: Tail::new(alloc),
        }
    }

    /// The same again. What is done to one does not change the other.
    pub(crate) fn fork(&self) -> Result<Reached<I>, AllocError>
        ensures { IfOk result (λ fork. fork ≡ self.now) }
    {
        let tail = self.tail.fork()?;
        match self.set.fork() {
            Ok(set) => Ok(Reached { set, tail }),
            Err(error) => {
                drop(tail);
                Err(error)
            }
        }
    }

    /// The set alone.
    pub(crate) fn into_set(self) -> Result<I, AllocError>
        ensures { IfOk result (λ set. I.records set ≡ self) }
    {
        let Reached { mut set, mut tail } = self;
        let settled = settle(&mut set, &mut tail);
        drop(tail);
        match settled {
            Ok(()) => Ok(set),
            Err(error) => {
                drop(set);
                Err(error)
            }
        }
    }

    /// The last record. It may be missed.
    fn last(&self) -> Option<&Record>
        ensures last { IfSome result (λ r. (front : List Stated) × (self.now ≡ front ++ r.now ∷ [])) }
        ensures ordered { is_ordered self.now ≡ true }
    {
        if self.tail.is_empty() {
            let of_set = last_of(&self.set)?;
            return Some(of_set);
        }
        let last = self.tail.last()?;
        Some(last)
    }

    /// Whether a record comes after all others in order. It may say no of one that does.
    pub(crate) fn ends_before(&self, next: &Record) -> bool
        ensures { result ≡ true → is_ordered (self.now ++ next.now ∷ []) ≡ true }
    {
        match self.last() {
            Some(last) => last.compare(next).is_lt(),
            None => false,
        }
    }

    /// Puts a record after all others.
    pub(crate) fn push(&mut self, added: Record) -> Result<(), AllocError>
        requires { is_ordered (self.old ++ added ∷ []) ≡ true }
        ensures ok { OnOk result (self.new ≡ self.old ++ added ∷ []) }
        ensures err { OnErr result (self.new ≡ self.old) }
    {
        self.tail.push(added)
    }

    /// The same, its records ready to be shared.
    pub(crate) fn sealed(self) -> Result<Reached<I>, AllocError>
        ensures { IfOk result (λ sealed. sealed ≡ self) }
    {
        let Reached { set, tail } = self;
        match tail.sealed() {
            Ok(tail) => Ok(Reached { set, tail }),
            Err(error) => {
                drop(set);
                Err(error)
            }
        }
    }

    /// How many records there are, at most as many as can be counted.
    pub(crate) fn count(&self) -> usize
        ensures { result ≡ min (length self.now) (2 ^ 64 - 1) }
    {
        self.set.len().saturating_add(self.tail.count())
    }

    /// Whether it has the record, with its TTL.
    pub(crate) fn holds(&mut self, wanted: &Record) -> Result<bool, AllocError>
        ensures there { IfOk result (λ there. there ≡ contains self.old wanted.now) }
        ensures stays { self.new ≡ self.old }
    {
        settle(&mut self.set, &mut self.tail)?;
        Ok(holds(&self.set, wanted))
    }

    /// Whether it has a record of that owner, type and data.
    pub(crate) fn holds_key(&mut self, wanted: &Record) -> Result<bool, AllocError>
        ensures there { IfOk result (λ there. there ≡ has wanted.now self.old) }
        ensures stays { self.new ≡ self.old }
    {
        settle(&mut self.set, &mut self.tail)?;
        Ok(holds_key(&self.set, wanted))
    }

    /// Puts a record in. It replaces one of equal owner, type and data, and so its TTL.
    pub(crate) fn insert(&mut self, added: Record) -> Result<(), AllocError>
        ensures ok { OnOk result (self.new ≡ put added self.old) }
        ensures err { OnErr result (self.new ≡ self.old) }
    {
        match settle(&mut self.set, &mut self.tail) {
            Ok(()) => self.set.insert(added),
            Err(error) => {
                drop(added);
                Err(error)
            }
        }
    }

    /// Takes a record out, and answers whether it was there.
    pub(crate) fn take_out(&mut self, gone: &Record) -> Result<bool, AllocError>
        ensures present { IfOk result (λ present. present ≡ contains self.old gone.now) }
        ensures left { IfOk result
            (λ present. present ≡ true → self.new ≡ without gone.now self.old) }
    {
        settle(&mut self.set, &mut self.tail)?;
        take_out(&mut self.set, gone)
    }
}
