//! Changes of the records that one name owns, which are in a list, in order.
ghost use Rattle.std.specs.Prelude.{◌≡◌, ◌≤◌, ◌++◌, ◌&&◌, ◌==◌, nat_lt, true, not, filter, length, take};
ghost use Rattle.std.specs.Prelude.{drop, OnOk, IfOk};
ghost use Rattle.std.specs.List.{list_any, list_all, find};
ghost use Rattle.std.specs.Option.{option_copied};
ghost use Rattle.std.specs.Ordering.{is_lt};
ghost use Rattle.dns_records.specs.Record.{record_cmp, serial_of};
ghost use Rattle.dns_records.specs.Types.{type_cname, type_soa};
ghost use Rattle.dns_serial.specs.Serial.{greater};
ghost use Rattle.dns_zone.specs.Records.{alike, are_of, is_ordered, owns_type, put, rrset, without};
ghost use Rattle.dns_update.specs.ResourceRecord.{as_record};
ghost use Rattle.dns_update.specs.Ranges.{is_outside};
ghost use Rattle.dns_update.specs.Effect.{owns_other, succeeds};

use crate::item::ResourceRecord;
use dns_memory::Heap;
use dns_names::NameRef;
use dns_records::Record;
use dns_records::types::{CNAME, SOA};
use dns_serial::Serial;
use dns_zone::{find_parts, find_record, of_type};
use std::alloc::AllocError;

/// A copy of a record that was found.
fn copy_of(found: Option<&Record>) -> Result<Option<Record>, AllocError>
    ensures { IfOk result (λ copy. copy ≡ option_copied found.entry) }
{
    match found {
        None => Ok(None),
        Some(r) => Ok(Some(r.clone()?)),
    }
}

/// Puts a record among others in order, in place of one of equal owner, type and data.
pub(crate) fn put_among(records: &mut Vec<Record, Heap>, come: Record) -> Result<(), AllocError>
    requires { is_ordered records.old.items ≡ true }
    ensures { OnOk result (records.new.items ≡ put come records.old.items) }
{
    match find_record(records, &come, None) {
        Ok(at) => records[at] = come,
        Err(at) => records.insert(at, come)?,
    }
    Ok(())
}

/// Takes a record out of others in order.
fn take_among(records: &mut Vec<Record, Heap>, gone: &Record)
    requires { is_ordered records.old.items ≡ true }
    ensures { records.new.items ≡ without gone.now records.old.items }
{
    if let Ok(at) = find_record(records, gone, None) {
        records.remove(at);
    }
}

/// Whether one of the records is of another type.
fn has_other(records: &[Record], rtype: u16) -> bool
    ensures { result ≡ list_any (λ r. not (r.rtype == rtype)) records.now }
{
    records.iter().any(|r| r.rtype() != rtype)
}

/// Whether the record is a SOA with a serial less than that one.
fn is_older(r: &Record, serial: Serial) -> bool
    ensures { result ≡ (r.now.rtype == type_soa && greater serial.0 (serial_of r.now)) }
{
    r.rtype() == SOA && serial.greater(Serial(r.serial()))
}

/// Whether one of the records is a SOA with a serial less than that one.
fn has_older(records: &[Record], serial: Serial) -> bool
    ensures { result ≡ list_any (λ r. r.rtype == type_soa && greater serial.0 (serial_of r)) records.now }
{
    records.iter().any(|r| is_older(r, serial))
}

/// Takes out those from one position up to another. Those after them move at once.
fn take_between(records: &mut Vec<Record, Heap>, begin: usize, end: usize)
    requires order { begin ≤ end }
    requires inside { end ≤ length records.old.items }
    ensures { records.new.items ≡ take begin records.old.items ++ drop end records.old.items }
{
    records.drain(begin..end);
}

/// Takes those out of the records of a name whose types are from one on up to another.
pub(crate) fn take_types(records: &mut Vec<Record, Heap>, name: &NameRef<'_>, first: u16, last: u16)
    requires rise { first ≤ last }
    requires order { is_ordered records.old.items ≡ true }
    requires owned { are_of name.now records.old.items ≡ true }
    ensures { records.new.items ≡ filter (is_outside first last) records.old.items }
{
    let _name = name;
    let begin = records.partition_point(|r| r.rtype() < first);
    let end = records.partition_point(|r| !(last < r.rtype()));
    take_between(records, begin, end);
}

/// Takes those out of the records of a name whose types are greater than `last`.
pub(crate) fn take_types_behind(records: &mut Vec<Record, Heap>, name: &NameRef<'_>, last: u16)
    requires order { is_ordered records.old.items ≡ true }
    requires owned { are_of name.now records.old.items ≡ true }
    ensures { records.new.items ≡ filter (λ r. not (nat_lt last r.rtype)) records.old.items }
{
    let _name = name;
    let end = records.partition_point(|r| !(last < r.rtype()));
    records.truncate(end);
}

/// Whether one of the records of the name is of another type than CNAME.
pub(crate) fn owns_other(records: &[Record], name: &NameRef<'_>) -> bool
    requires { are_of name.now records.now ≡ true }
    ensures { result ≡ owns_other records.now name.now type_cname }
{
    let _name = name;
    has_other(records, CNAME)
}

/// Whether one of the records of the name is of the type.
pub(crate) fn has_type(records: &[Record], name: &NameRef<'_>, rtype: u16) -> bool
    requires order { is_ordered records.now ≡ true }
    requires owned { are_of name.now records.now ≡ true }
    ensures { result ≡ owns_type records.now name.now rtype }
{
    let _name = name;
    !of_type(records, rtype).is_empty()
}

/// Whether just one of the records of the name is of the type.
pub(crate) fn has_one(records: &[Record], name: &NameRef<'_>, rtype: u16) -> bool
    requires order { is_ordered records.now ≡ true }
    requires owned { are_of name.now records.now ≡ true }
    ensures { result ≡ (length (rrset records.now name.now rtype) == 1) }
{
    let _name = name;
    of_type(records, rtype).len() == 1
}

/// Whether the SOA comes after one of the records, which are its owner's (RFC 1982).
pub(crate) fn succeeds_one(records: &[Record], soa: &Record) -> bool
    requires soa { soa.now.rtype ≡ type_soa }
    requires order { is_ordered records.now ≡ true }
    requires owned { are_of soa.now.owner records.now ≡ true }
    ensures { result ≡ list_any (succeeds soa.now) records.now }
{
    has_older(of_type(records, SOA), Serial(soa.serial()))
}

/// Whether all records, which are in order, are above that one.
pub(crate) fn are_above(records: &[Record], one: &Record) -> bool
    requires { is_ordered records.now ≡ true }
    ensures { result ≡ list_all (λ r. is_lt (record_cmp one.now r)) records.now }
{
    match records.first() {
        None => true,
        Some(first) => one.compare(first).is_lt(),
    }
}

/// A copy of the record that the item names, if it is one of these.
fn named(records: &[Record], item: &ResourceRecord) -> Result<Option<Record>, AllocError>
    requires { is_ordered records.now ≡ true }
    ensures { IfOk result (λ found. found ≡ find (alike (as_record item.now)) records.now) }
{
    copy_of(find_parts(records, &item.owner().lend(), item.rtype(), item.rdata()))
}

/// Takes the record that an item names out of others in order, if it is one of them.
pub(crate) fn take_named(
    records: &mut Vec<Record, Heap>,
    item: &ResourceRecord,
) -> Result<(), AllocError>
    requires { is_ordered records.old.items ≡ true }
    ensures { OnOk result (records.new.items ≡ without (as_record item.now) records.old.items) }
{
    if let Some(gone) = named(records, item)? {
        take_among(records, &gone);
    }
    Ok(())
}
