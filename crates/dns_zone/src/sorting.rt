//! A list of records in any order, gathered into a set.
ghost use Rattle.std.specs.Prelude.{◌≡◌, true, ◌==◌, ◌&&◌, length, map, Some, IfOk, OnOk, IsPermutation};
ghost use Rattle.std.specs.List.{All, AllByRecursion, list_all};
ghost use Rattle.std.specs.List.Sorted.{IsSorted};
ghost use Rattle.dns_names.specs.Name.{names_eq, under};
ghost use Rattle.dns_records.specs.Record.{IsRecord, record_cmp};
ghost use Rattle.dns_records.specs.Types.{type_soa};
ghost use Rattle.dns_zone.specs.Records.{is_ordered, owns_type};
ghost use Rattle.dns_zone.specs.SortKey.{HasSortKey, keyed_cmp};
ghost use Rattle.dns_zone.specs.Zone.{has_twice, soas, zone_fault};

use crate::key::sort_key;
use crate::{ZoneError, ZoneIndex};
use dns_memory::Heap;
use dns_names::NameRef;
use dns_records::Record;
use dns_records::types::{NS, SOA};
use std::alloc::AllocError;
use std::cmp::Ordering;

/// A record beside the sort key of its owner.
#[derive(Drop)]
pub(crate) struct Keyed {
    pub(crate) key: u64,
    pub(crate) value: Record,
}

impl Keyed {
    /// The order of sort keys, and of records where these tie.
    #[inline(always)]
    fn compare(&self, other: &Keyed) -> Ordering
        ensures { result ≡ keyed_cmp self.now other.now }
    {
        let keys = self.key.cmp(&other.key);
        if keys.is_eq() {
            return self.value.compare(&other.value);
        }
        keys
    }
}

/// Puts the records in order. Those of equal owner, type and data are adjacent then. The sort keys decide
/// most comparisons if most owners differ in the first octets of their labels next to the apex.
pub(crate) fn sort(
    alloc: Heap,
    apex: &NameRef<'_>,
    records: &mut Vec<Record, Heap>,
) -> Result<(), AllocError>
    ensures same { IsPermutation records.old.items records.new.items }
    ensures sorted { OnOk result (IsSorted record_cmp records.new.items) }
{
    let mut keyed = with_keys(alloc, apex, records)?;
    keyed.sort_unstable_by(|a, b| a.compare(b));
    *records = without_keys(alloc, &keyed)?;
    Ok(())
}

/// The records beside their sort keys.
fn with_keys(
    alloc: Heap,
    apex: &NameRef<'_>,
    records: &[Record],
) -> Result<Vec<Keyed, Heap>, AllocError>
    ensures values { IfOk result (λ keyed. map (λ k. k.value) keyed.items ≡ records.now) }
    ensures keys { IfOk result (λ keyed. All (HasSortKey apex.now) keyed.items) }
{
    let mut keyed = Vec::with_capacity(alloc, records.len())?;
    for record in records {
        let value = record.clone()?;
        let key = sort_key(&value.owner().lend(), apex);
        keyed.push(Keyed { key, value })?;
    }
    Ok(keyed)
}

/// The records alone.
fn without_keys(alloc: Heap, keyed: &[Keyed]) -> Result<Vec<Record, Heap>, AllocError>
    ensures { IfOk result (λ records. records.items ≡ map (λ k. k.value) keyed.now) }
{
    let mut records = Vec::with_capacity(alloc, keyed.len())?;
    for each in keyed {
        records.push(each.value.clone()?)?;
    }
    Ok(records)
}

/// Whether each record is above the one before it.
pub fn rises(records: &[Record]) -> bool
    ensures { result ≡ is_ordered records.now }
{
    records.is_sorted_by(|a, b| a.compare(b).is_lt())
}

/// Tells that each is a valid record, as any value of that type is.
pub fn are_valid(records: &[Record])
    ensures { AllByRecursion IsRecord records.now }
{
    for record in records {
        let _valid = record.rdata();
    }
}

/// The set of records in order.
pub fn set_of<I: ZoneIndex>(alloc: Heap, records: Vec<Record, Heap>) -> Result<I, AllocError>
    requires { is_ordered records.items ≡ true }
    ensures { IfOk result (λ index. I.records index ≡ records.entry.items) }
{
    I::from_sorted(alloc, records)
}

/// Whether the record is of that owner and type.
fn is_of(r: &Record, owner: &NameRef<'_>, rtype: u16) -> bool
    ensures { result ≡ (names_eq r.now.owner owner.now && r.now.rtype == rtype) }
{
    r.owner().lend().is(owner) & (r.rtype() == rtype)
}

/// Whether the record is a SOA.
fn is_soa(r: &Record) -> bool
    ensures { result ≡ (r.now.rtype == type_soa) }
{
    r.rtype() == SOA
}

/// Whether the record has an owner at the name or under it.
fn stands_under(r: &Record, apex: &NameRef<'_>) -> bool
    ensures { result ≡ under r.now.owner apex.now }
{
    r.owner().lend().is_under(apex)
}

/// Whether one of the records is of that owner and type.
fn one_is_of(records: &[Record], owner: &NameRef<'_>, rtype: u16) -> bool
    ensures { result ≡ owns_type records.now owner.now rtype }
{
    records.iter().any(|r| is_of(r, owner, rtype))
}

/// How many of the records are SOAs.
fn count_soas(records: &[Record]) -> usize
    ensures { result ≡ length (soas records.now) }
{
    records.iter().filter(|r| is_soa(r)).count()
}

/// Whether each record has an owner at the name or under it.
fn all_stand_under(records: &[Record], apex: &NameRef<'_>) -> bool
    ensures { result ≡ list_all (λ r. under r.owner apex.now) records.now }
{
    records.iter().all(|r| stands_under(r, apex))
}

/// Why records of which two have one owner, type and data are no zone.
pub(crate) fn refusal_of_doubles(apex: &NameRef<'_>, records: &[Record]) -> ZoneError
    requires { has_twice records.now ≡ true }
    ensures { zone_fault apex.now records.now ≡ Some result }
{
    if !one_is_of(records, apex, SOA) {
        ZoneError::NoSoa
    } else if count_soas(records) > 1 {
        ZoneError::ManySoa
    } else if !one_is_of(records, apex, NS) {
        ZoneError::NoNs
    } else if !all_stand_under(records, apex) {
        ZoneError::OutOfZone
    } else {
        ZoneError::Duplicate
    }
}
