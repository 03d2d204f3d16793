//! The change from one set of records to another, made from what some names own in the two.
ghost use Rattle.std.specs.Prelude.{◌≡◌, ◌<◌, ◌^◌, ◌++◌, true, [], ◌∷◌, length, IfOk, OnOk};
ghost use Rattle.dns_zone.specs.Records.{is_ordered};
ghost use Rattle.dns_zone.specs.Zone.{soas};
ghost use Rattle.dns_changes.specs.Change.{IsChange, is_lone, only_in};
ghost use Rattle.dns_changes.specs.Touched.{DifferAt};

use crate::Change;
use crate::change::is_among;
use dns_memory::Heap;
use dns_names::Name;
use dns_records::Record;
use dns_records::types::SOA;
use dns_zone::ZoneIndex;
use std::alloc::AllocError;

/// Whether the record is no SOA, and not among the others with its TTL. It is searched for from a position
/// on, and the position is moved to it.
fn is_lone(r: &Record, others: &[Record], near: &mut usize) -> bool
    requires { is_ordered others.now ≡ true }
    ensures { result ≡ is_lone others.now r.now }
{
    r.rtype() != SOA && !is_among(others, r, near)
}

/// Puts copies of the records that are not among the others, SOAs aside, at the end of a list.
fn push_lone(
    lone: &mut Vec<Record, Heap>,
    records: &[Record],
    others: &[Record],
) -> Result<(), AllocError>
    requires { is_ordered others.now ≡ true }
    ensures { OnOk result (lone.new.items ≡ lone.old.items ++ only_in records.now others.now) }
{
    let mut near = 0;
    for record in records {
        if is_lone(record, others, &mut near) {
            lone.push(record.clone()?)?;
        }
    }
    Ok(())
}

/// Copies of the records of a set that are not in another, SOAs aside, in order. What the names own is all
/// that is compared.
fn only_in<I: ZoneIndex>(
    alloc: Heap,
    set: &I,
    other: &I,
    names: &[Name],
) -> Result<Vec<Record, Heap>, AllocError>
    requires { DifferAt names.now (I.records set.now) (I.records other.now) }
    ensures { IfOk result (λ lone. lone.items ≡ only_in (I.records set.now) (I.records other.now)) }
{
    let mut lone = Vec::new(alloc);
    for name in names {
        let name = name.lend();
        push_lone(&mut lone, set.records_at(&name), other.records_at(&name))?;
    }
    Ok(lone)
}

impl Change {
    /// The change from a set to another that differs from it only in what these names own. Each has one SOA,
    /// and so few records that their number has 32 bits.
    pub fn between<I: ZoneIndex>(
        alloc: Heap,
        before: &I,
        old_soa: &Record,
        after: &I,
        new_soa: &Record,
        names: &[Name],
    ) -> Result<Change, AllocError>
        requires old { soas (I.records before.now) ≡ old_soa.now ∷ [] }
        requires new { soas (I.records after.now) ≡ new_soa.now ∷ [] }
        requires few_before { length (I.records before.now) < 2 ^ 32 }
        requires few_after { length (I.records after.now) < 2 ^ 32 }
        requires touched { DifferAt names.now (I.records before.now) (I.records after.now) }
        ensures { IfOk result (λ c. IsChange (I.records before.now) (I.records after.now) c) }
    {
        let removed = only_in(alloc, before, after, names)?;
        let added = only_in(alloc, after, before, names)?;
        Ok(Change::new(old_soa.clone()?, removed, new_soa.clone()?, added))
    }
}
