//! What an update asks of the zone before anything is done.
ghost use Rattle.std.specs.Prelude.{◌≡◌, ◌==◌, None, IfOk, if◌then◌else◌};
ghost use Rattle.std.specs.List.{find, list_all};
ghost use Rattle.std.specs.Option.{option_copied};
ghost use Rattle.dns_records.specs.Types.{class_in};
ghost use Rattle.dns_zone.specs.Records.{alike, owns};
ghost use Rattle.dns_update.specs.ResourceRecord.{as_record, first_fault};
ghost use Rattle.dns_update.specs.Listed.{is_counted, is_met, listed};
ghost use Rattle.dns_update.specs.Prerequisites.{are_rrsets, in_use_fault, prerequisite_fault};
ghost use Rattle.dns_update.specs.Prerequisites.{prerequisites_fault, unused_fault};

use crate::item::{ResourceRecord, find_named};
use dns_memory::Heap;
use dns_names::NameRef;
use dns_records::Record;
use dns_records::types::{ANY, CLASS_ANY, CLASS_IN, CLASS_NONE};
use dns_wire::Rcode;
use dns_zone::{RecordList, Zone, ZoneIndex, owns_type};
use std::alloc::AllocError;

/// Whether the name owns a record.
fn owns<I: ZoneIndex>(index: &I, name: &NameRef<'_>) -> bool
    ensures { result ≡ owns (I.records index.now) name.now }
{
    !index.records_at(name).is_empty()
}

/// What fails a prerequisite of class ANY: that the name is in use, or that the RRset exists (RFC 2136
/// section 3.2.1).
fn in_use_fault<I: ZoneIndex>(index: &I, item: &ResourceRecord) -> Option<Rcode>
    ensures { result ≡ in_use_fault (I.records index.now) item.now }
{
    let name = item.owner().lend();
    if !item.is_empty() {
        Some(Rcode::FormErr)
    } else if item.rtype() == ANY {
        (!owns(index, &name)).then_some(Rcode::NxDomain)
    } else {
        (!owns_type(index, &name, item.rtype())).then_some(Rcode::NxRrset)
    }
}

/// What fails a prerequisite of class NONE: that the name is not in use, or that the RRset doesn't exist
/// (RFC 2136 section 3.2.2).
fn unused_fault<I: ZoneIndex>(index: &I, item: &ResourceRecord) -> Option<Rcode>
    ensures { result ≡ unused_fault (I.records index.now) item.now }
{
    let name = item.owner().lend();
    if !item.is_empty() {
        Some(Rcode::FormErr)
    } else if item.rtype() == ANY {
        owns(index, &name).then_some(Rcode::YxDomain)
    } else {
        owns_type(index, &name, item.rtype()).then_some(Rcode::YxRrset)
    }
}

/// What fails a prerequisite by itself (RFC 2136 section 3.2).
fn prerequisite_fault<I: ZoneIndex>(zone: &Zone<I>, item: &ResourceRecord) -> Option<Rcode>
    ensures { result ≡ prerequisite_fault zone.now item.now }
{
    if item.ttl() != 0 {
        return Some(Rcode::FormErr);
    }
    if !item.is_in_zone(zone.apex()) {
        return Some(Rcode::NotZone);
    }
    match item.class() {
        CLASS_ANY => in_use_fault(zone.index(), item),
        CLASS_NONE => unused_fault(zone.index(), item),
        CLASS_IN if !(item.is_of_known_type() && item.is_empty()) => None,
        _ => Some(Rcode::FormErr),
    }
}

/// What fails the first prerequisite that fails by itself.
fn first_fault<I: ZoneIndex>(zone: &Zone<I>, items: &[ResourceRecord]) -> Option<Rcode>
    ensures { result ≡ first_fault (prerequisite_fault zone.now) items.now }
{
    for item in items {
        let fault = prerequisite_fault(zone, item);
        if fault.is_some() {
            return fault;
        }
    }
    None
}

/// The record that the item lists: one of class IN lists that of its owner, type and data.
fn listed_record<'s, I: ZoneIndex>(index: &'s I, item: &ResourceRecord) -> Option<&'s Record>
    ensures { option_copied result
        ≡ (if item.now.class == class_in
        then find (alike (as_record item.now)) (I.records index.now) else None) }
{
    if item.class() != CLASS_IN {
        return None;
    }
    find_named(index, item)
}

/// The set of the records that the items list.
fn listed_set<I: ZoneIndex, L: ZoneIndex>(
    alloc: Heap,
    index: &I,
    items: &[ResourceRecord],
) -> Result<L, AllocError>
    ensures { IfOk result (λ set. L.records set ≡ listed (I.records index.now) items.now) }
{
    let mut set = L::empty(alloc)?;
    for item in items {
        if let Some(record) = listed_record(index, item) {
            set.insert(record.clone()?)?;
        }
    }
    Ok(set)
}

/// Whether the item's record is there, and of its RRset as many are listed as there are.
fn is_counted<I: ZoneIndex, L: ZoneIndex>(index: &I, listed: &L, item: &ResourceRecord) -> bool
    ensures { result ≡ is_counted (L.records listed.now) (I.records index.now) item.now }
{
    let owner = item.owner().lend();
    let count = listed.rrset(&owner, item.rtype()).len();
    find_named(index, item).is_some() & (count == index.rrset(&owner, item.rtype()).len())
}

/// Whether the item isn't of class IN, or its RRset is listed.
fn is_met<I: ZoneIndex, L: ZoneIndex>(index: &I, listed: &L, item: &ResourceRecord) -> bool
    ensures { result ≡ is_met (L.records listed.now) (I.records index.now) item.now }
{
    item.class() != CLASS_IN || is_counted(index, listed, item)
}

/// Whether of no RRset a part is listed.
fn all_met<I: ZoneIndex, L: ZoneIndex>(index: &I, listed: &L, items: &[ResourceRecord]) -> bool
    ensures { result ≡ list_all (is_met (L.records listed.now) (I.records index.now)) items.now }
{
    items.iter().all(|item| is_met(index, listed, item))
}

/// Whether what is listed is the RRset, no more and no less, for each name and type (RFC 2136 section 3.2.3).
/// What is listed is gathered as a set, so that two counts tell whether it is the whole of an RRset: in one
/// list, since a tree keeps what a name owns in a list of its own, which it copies for each record that
/// comes.
fn are_rrsets<I: ZoneIndex>(
    alloc: Heap,
    index: &I,
    items: &[ResourceRecord],
) -> Result<bool, AllocError>
    ensures { IfOk result (λ met. met ≡ are_rrsets (I.records index.now) items.now) }
{
    let listed: RecordList = listed_set(alloc, index, items)?;
    Ok(all_met(index, &listed, items))
}

/// What fails the prerequisites (RFC 2136 section 3.2).
pub(crate) fn prerequisites_fault<I: ZoneIndex>(
    alloc: Heap,
    zone: &Zone<I>,
    items: &[ResourceRecord],
) -> Result<Option<Rcode>, AllocError>
    ensures { IfOk result (λ fault. fault ≡ prerequisites_fault zone.now items.now) }
{
    let fault = first_fault(zone, items);
    if fault.is_some() || are_rrsets(alloc, zone.index(), items)? {
        return Ok(fault);
    }
    Ok(Some(Rcode::NxRrset))
}
