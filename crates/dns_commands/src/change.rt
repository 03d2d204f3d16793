//! The change from a zone to another version of it, each of which has all its records.
ghost use Rattle.std.specs.Prelude.{◌≡◌, ◌↔◌, true, List, IfOk, IsTrue};
ghost use Rattle.dns_records.specs.Record.{Record as Stated};
ghost use Rattle.dns_zone.specs.Records.{is_ordered};
ghost use Rattle.dns_changes.specs.Change.{IsChange, is_lone, only_in};
ghost use Rattle.dns_commands.specs.Load.{IsChangeTo};

use dns_changes::{Change, holds};
use dns_devices::DeviceFault;
use dns_memory::Heap;
use dns_records::Record;
use dns_records::types::SOA;
use dns_serial::Serial;
use dns_zone::{Zone, ZoneIndex};
use std::alloc::AllocError;

/// Whether the record is no SOA, and not in the set with its TTL.
fn is_lone<I: ZoneIndex>(r: &Record, set: &I) -> bool
    ensures { result ≡ is_lone (I.records set.now) r.now }
{
    r.rtype() != SOA && !holds(set, r)
}

/// Copies of the records of a zone that are not in another, SOAs aside, in order.
fn only_in<I: ZoneIndex>(
    heap: Heap,
    zone: &Zone<I>,
    other: &Zone<I>,
) -> Result<Vec<Record, Heap>, AllocError>
    ensures { IfOk result (λ lone. lone.items ≡ only_in zone.now.records other.now.records) }
{
    let mut lone = Vec::new(heap);
    for record in zone.records() {
        if is_lone(record, other.index()) {
            lone.push(record.clone()?)?;
        }
    }
    Ok(lone)
}

/// The change from a zone to another.
pub(crate) fn change_between<I: ZoneIndex>(
    heap: Heap,
    before: &Zone<I>,
    after: &Zone<I>,
) -> Result<Change, AllocError>
    ensures { IfOk result (λ c. IsChange before.now.records after.now.records c) }
{
    let _valid = before.apex();
    let _also = after.apex();
    let removed = only_in(heap, before, after)?;
    let added = only_in(heap, after, before)?;
    let old_soa = before.soa().clone()?;
    let new_soa = after.soa().clone()?;
    Ok(Change::new(old_soa, removed, new_soa, added))
}

/// Whether the change leads from a version to one with the same records.
pub(crate) fn is_no_change(change: &Change) -> bool
    ensures { (before after : List Stated) → is_ordered before ≡ true → is_ordered after ≡ true
        → IsChange before after change.now → IsTrue result ↔ after ≡ before }
{
    if !change.removed().is_empty() {
        return false;
    }
    if !change.added().is_empty() {
        return false;
    }
    *change.old_soa() == *change.new_soa()
}

/// The change from the newest version of a zone to the records of its master file, or none where it has these
/// records. `SerialNotRaised` where the serial of the file isn't greater (RFC 1982).
pub fn change_to<I: ZoneIndex>(
    heap: Heap,
    newest: &Zone<I>,
    zone: &Zone<I>,
) -> Result<Option<Change>, DeviceFault>
    ensures { IsChangeTo newest.now.records zone.now.records result }
{
    let Ok(change) = change_between(heap, newest, zone) else {
        return Err(DeviceFault::OutOfMemory);
    };
    let _valid = newest.apex();
    let _also = zone.apex();
    if is_no_change(&change) {
        drop(change);
        return Ok(None);
    }
    let (old, new) = (Serial(newest.soa().serial()), Serial(zone.soa().serial()));
    if !new.greater(old) {
        drop(change);
        return Err(DeviceFault::SerialNotRaised);
    }
    Ok(Some(change))
}
