//! A change between two versions of a zone: the SOAs, and the records that go and that come (RFC 1995
//! section 4).
ghost use Rattle.std.specs.Prelude.{◌≡◌, ◌⊎◌, true, false, not, ◌∷◌, Some, None, IfOk, IfErr, OnOk, OnErr};
ghost use Rattle.std.specs.Prelude.{MatchResult};
ghost use Rattle.dns_zone.specs.Records.{contains, has, is_ordered, put, united, without};
ghost use Rattle.dns_changes.specs.Change.{AreFew, is_formed, change_of, applied, are_present, are_new};
ghost use Rattle.dns_changes.specs.Change.{change_fault, removed_from};

use crate::ChangeError;
use crate::group::{put_each, take_each};
use dns_memory::Heap;
use dns_records::Record;
use dns_zone::{ZoneIndex, find_record};
use std::alloc::AllocError;
use std::marker::Model;

/// A change from one version of a zone to another (RFC 1995 section 4): its SOA before and after, and the
/// other records that go and come, each with its TTL.
#[derive(Debug)]
pub struct Change {
    old_soa: Record,
    removed: Vec<Record, Heap>,
    new_soa: Record,
    added: Vec<Record, Heap>,
}

// Written out, so that a proof lets one go by one call (docs/GATE.md).
impl Drop for Change {
    fn drop(self) {
        let Change {
            old_soa,
            removed,
            new_soa,
            added,
        } = self;
        drop((old_soa, removed, new_soa, added));
    }
}

impl Model for Change {
    ghost use Rattle.std.specs.Prelude.{◌≡◌, true};
    ghost use Rattle.dns_changes.specs.Change.{Change as Stated, AreFew, is_formed};

    ghost Value = { Stated };

    ghost view = { λ c.
        record {
          old_soa = c.old_soa;
          removed = c.removed.items;
          new_soa = c.new_soa;
          added = c.added.items;
        } };

    ghost invariant = { λ c. AreFew c.removed.items c.added.items
        × (is_formed
        (record {
          old_soa = c.old_soa;
          removed = c.removed.items;
          new_soa = c.new_soa;
          added = c.added.items;
        })
        ≡ true) };
}

impl Change {
    /// The change of these records, of which the two SOAs alone are SOAs and none goes and comes. Each list
    /// is in order, and so short that its length has 32 bits.
    pub fn new(
        old_soa: Record,
        removed: Vec<Record, Heap>,
        new_soa: Record,
        added: Vec<Record, Heap>,
    ) -> Change
        requires few { AreFew removed.items added.items }
        requires formed { is_formed (change_of old_soa removed.items new_soa added.items) ≡ true }
        ensures { result ≡ change_of old_soa removed.entry.items new_soa added.entry.items }
    {
        Change {
            old_soa,
            removed,
            new_soa,
            added,
        }
    }

    /// The SOA before.
    pub fn old_soa(&self) -> &Record
        ensures { result.now ≡ self.now.old_soa }
    {
        &self.old_soa
    }

    /// The other records that go.
    pub fn removed(&self) -> &[Record]
        ensures records { result.now ≡ self.now.removed }
        ensures few { AreFew self.now.removed self.now.added }
        ensures formed { is_formed self.now ≡ true }
    {
        &self.removed
    }

    /// The SOA after.
    pub fn new_soa(&self) -> &Record
        ensures { result.now ≡ self.now.new_soa }
    {
        &self.new_soa
    }

    /// The other records that come.
    pub fn added(&self) -> &[Record]
        ensures records { result.now ≡ self.now.added }
        ensures few { AreFew self.now.removed self.now.added }
        ensures formed { is_formed self.now ≡ true }
    {
        &self.added
    }

    /// Takes the records that go out of a set, and puts those that come into it, name by name: what a name
    /// owns is copied once for all that go there and once for all that come, and for the SOAs. Where the
    /// change doesn't fit the set, or memory is refused, the set stays.
    pub fn apply<I: ZoneIndex>(&self, index: &mut I) -> Result<(), ChangeError>
        ensures applied { OnOk result (I.records index.new ≡ applied self.now (I.records index.old)) }
        ensures fits { OnOk result (change_fault self.now (I.records index.old) ≡ None) }
        ensures refused { IfErr result
            (λ e. (e ≡ ChangeError.OutOfMemory) ⊎ (change_fault self.now (I.records index.old) ≡ Some e)) }
        ensures stays { OnErr result (I.records index.new ≡ I.records index.old) }
    {
        let mut set = index.fork()?;
        self.remove_all(&mut set)?;
        self.add_all(&mut set)?;
        *index = set;
        Ok(())
    }

    /// Takes the old SOA and the records that go out of a set, which is of no use where that is refused.
    fn remove_all<I: ZoneIndex>(&self, set: &mut I) -> Result<(), ChangeError>
        ensures present { OnOk result
            ((contains (I.records set.old) self.now.old_soa ≡ true)
            × (are_present (I.records set.old) (self.now.old_soa ∷ self.now.removed) ≡ true)) }
        ensures left { OnOk result
            (I.records set.new ≡ removed_from (I.records set.old) (self.now.old_soa ∷ self.now.removed)) }
        ensures refused { IfErr result
            (λ e. (e ≡ ChangeError.OutOfMemory) ⊎ (change_fault self.now (I.records set.old) ≡ Some e)) }
    {
        if !take_out(set, self.old_soa())? {
            return Err(ChangeError::WrongSoa);
        }
        if !take_each(*self.removed.allocator(), set, self.removed())? {
            return Err(ChangeError::RemovesAbsent);
        }
        Ok(())
    }

    /// Puts the new SOA and the records that come into a set, which is of no use where that is refused.
    fn add_all<I: ZoneIndex>(&self, set: &mut I) -> Result<(), ChangeError>
        ensures new { OnOk result (are_new (I.records set.old) (self.now.new_soa ∷ self.now.added) ≡ true) }
        ensures left { OnOk result
            (I.records set.new ≡ united (I.records set.old) (self.now.new_soa ∷ self.now.added)) }
        ensures refused { IfErr result
            (λ e. (e ≡ ChangeError.OutOfMemory)
            ⊎ ((are_new (I.records set.old) (self.now.new_soa ∷ self.now.added) ≡ false)
            × (e ≡ ChangeError.AddsPresent))) }
    {
        if !put_in(set, self.new_soa())? {
            return Err(ChangeError::AddsPresent);
        }
        if !put_each(*self.added.allocator(), set, self.added())? {
            return Err(ChangeError::AddsPresent);
        }
        Ok(())
    }
}

/// Whether the record is one of these, which are in order, with its TTL. It is looked for at a position
/// first, and then from there on, and the position is moved past it, so that records that are looked for in
/// order are found soon.
pub(crate) fn is_among(records: &[Record], wanted: &Record, near: &mut usize) -> bool
    requires { is_ordered records.now ≡ true }
    ensures { result ≡ contains records.now wanted.now }
{
    if *near < records.len() && records[*near] == *wanted {
        *near += 1;
        return true;
    }
    match find_record(records, wanted, Some(*near)) {
        Ok(at) => {
            *near = at + 1;
            records[at] == *wanted
        }
        Err(at) => {
            *near = at;
            false
        }
    }
}

/// Whether the set has the record, with its TTL.
pub fn holds<I: ZoneIndex>(set: &I, wanted: &Record) -> bool
    ensures { result ≡ contains (I.records set.now) wanted.now }
{
    let rrset = set.rrset(&wanted.owner().lend(), wanted.rtype());
    is_among(rrset, wanted, &mut 0)
}

/// Whether the set has a record of that owner, type and data.
pub fn holds_key<I: ZoneIndex>(set: &I, wanted: &Record) -> bool
    ensures { result ≡ has wanted.now (I.records set.now) }
{
    let rrset = set.rrset(&wanted.owner().lend(), wanted.rtype());
    find_record(rrset, wanted, None).is_ok()
}

/// Takes a record out, and answers whether it was there.
pub fn take_out<I: ZoneIndex>(set: &mut I, gone: &Record) -> Result<bool, AllocError>
    ensures present { IfOk result (λ present. present ≡ contains (I.records set.old) gone.now) }
    ensures left { IfOk result
        (λ present. present ≡ true → I.records set.new ≡ without gone.now (I.records set.old)) }
    ensures stays { MatchResult result (λ present. present ≡ false → I.records set.new ≡ I.records set.old)
        (λ _. I.records set.new ≡ I.records set.old) }
{
    if !holds(set, gone) {
        return Ok(false);
    }
    set.remove(gone)?;
    Ok(true)
}

/// Puts a copy of a record in where none of its owner, type and data is there, and answers whether it did.
fn put_in<I: ZoneIndex>(set: &mut I, come: &Record) -> Result<bool, AllocError>
    ensures new { IfOk result (λ new. not new ≡ has come.now (I.records set.old)) }
    ensures left { IfOk result (λ new. new ≡ true → I.records set.new ≡ put come.now (I.records set.old)) }
{
    if holds_key(set, come) {
        return Ok(false);
    }
    set.insert(come.clone()?)?;
    Ok(true)
}
