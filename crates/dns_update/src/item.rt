//! A record of an update as it came, and the record of a zone that it names.
ghost use Rattle.std.specs.Prelude.{◌≡◌, ◌<◌, ◌≤◌, ◌^◌, ◌⊎◌, true, length, IfOk};
ghost use Rattle.std.specs.List.{find};
ghost use Rattle.std.specs.Option.{option_copied};
ghost use Rattle.dns_names.specs.Name.{names_eq, under};
ghost use Rattle.dns_records.specs.Record.{IsRData, data_of};
ghost use Rattle.dns_records.specs.Refusals.{RefusesData};
ghost use Rattle.dns_records.specs.Types.{is_data_type, is_known};
ghost use Rattle.dns_wire.specs.Copied.{record_copied};
ghost use Rattle.dns_zone.specs.Records.{alike};
ghost use Rattle.dns_update.specs.ResourceRecord.{as_record, is_empty, is_meta};

use dns_memory::Heap;
use dns_names::{Name, NameRef};
use dns_records::types::{AXFR, IXFR, MAILA, MAILB};
use dns_records::{RData, Record, RecordError, form};
use dns_wire::{CopiedRecord, Section};
use dns_zone::{ZoneIndex, find_parts};
use std::alloc::AllocError;
use std::marker::Model;

/// A record of an update, of any class and type (RFC 2136 sections 2.4 and 2.5).
#[derive(Debug)]
pub(crate) struct ResourceRecord {
    owner: Name,
    rtype: u16,
    class: u16,
    ttl: u32,
    rdata: Vec<u8, Heap>,
}

// Written out, so that a proof lets one go by one call (docs/GATE.md).
impl Drop for ResourceRecord {
    fn drop(self) {
        let ResourceRecord {
            owner,
            rtype: _,
            class: _,
            ttl: _,
            rdata,
        } = self;
        drop((owner, rdata));
    }
}

impl Model for ResourceRecord {
    ghost use Rattle.dns_wire.specs.Message.{ResourceRecord as Stated};

    ghost Value = { Stated };

    ghost view = { λ i.
        record { owner = i.owner; rtype = i.rtype; class = i.class; ttl = i.ttl; rdata = i.rdata.items } };
}

impl ResourceRecord {
    /// The record of a message.
    fn of(copied: CopiedRecord) -> ResourceRecord
        ensures { result ≡ record_copied copied }
    {
        let CopiedRecord {
            owner,
            rtype,
            class,
            ttl,
            rdata,
        } = copied;
        ResourceRecord {
            owner,
            rtype,
            class,
            ttl,
            rdata,
        }
    }

    /// Whose record it is.
    pub(crate) fn owner(&self) -> &Name
        ensures { result.now ≡ self.now.owner }
    {
        &self.owner
    }

    /// The type of the record, or one that stands for others.
    pub(crate) fn rtype(&self) -> u16
        ensures { result ≡ self.now.rtype }
    {
        self.rtype
    }

    /// The class, which tells what the item is for.
    pub(crate) fn class(&self) -> u16
        ensures { result ≡ self.now.class }
    {
        self.class
    }

    /// The time to live, in seconds.
    pub(crate) fn ttl(&self) -> u32
        ensures { result ≡ self.now.ttl }
    {
        self.ttl
    }

    /// The data in plain form.
    pub(crate) fn rdata(&self) -> &[u8]
        ensures { result.now ≡ self.now.rdata }
    {
        &self.rdata
    }

    /// Whether it has no data.
    pub(crate) fn is_empty(&self) -> bool
        ensures { result ≡ is_empty self.now }
    {
        self.rdata.is_empty()
    }

    /// Whether its owner is the apex or is under it.
    pub(crate) fn is_in_zone(&self, apex: &Name) -> bool
        ensures { result ≡ under self.now.owner apex.now }
    {
        self.owner().is_under(apex)
    }

    /// Whether that name is its owner.
    pub(crate) fn is_owned_by(&self, name: &NameRef<'_>) -> bool
        ensures { result ≡ names_eq self.now.owner name.now }
    {
        self.owner().lend().is(name)
    }

    /// Whether the data of its type has a form here.
    pub(crate) fn is_of_known_type(&self) -> bool
        ensures { result ≡ is_known self.now.rtype }
    {
        form(self.rtype()).is_some()
    }

    /// Whether questions alone have its type, and it isn't ANY.
    pub(crate) fn is_of_meta_type(&self) -> bool
        ensures { result ≡ is_meta self.now.rtype }
    {
        matches!(self.rtype(), IXFR | AXFR | MAILB | MAILA)
    }

    /// The item as a record of the zone.
    pub(crate) fn to_record(&self, alloc: Heap) -> Result<Record, AllocError>
        requires rtype { is_data_type self.now.rtype ≡ true }
        requires short { length self.now.rdata ≤ 4096 }
        requires form { IsRData self.now.rtype self.now.rdata }
        ensures { IfOk result (λ r. r ≡ as_record self.now) }
    {
        let rdata = self.data(alloc)?;
        Record::new(alloc, self.owner().clone()?, self.ttl(), rdata)
    }

    /// The type and the data, where a zone can have them.
    fn data(&self, alloc: Heap) -> Result<RData, AllocError>
        requires rtype { is_data_type self.now.rtype ≡ true }
        requires short { length self.now.rdata ≤ 4096 }
        requires form { IsRData self.now.rtype self.now.rdata }
        ensures { IfOk result (λ d. d ≡ data_of (as_record self.now)) }
    {
        match RData::new(alloc, self.rtype(), self.rdata()) {
            Ok(data) => Ok(data),
            Err(error) => Err(refused_memory(error, self)),
        }
    }
}

/// The record of the item's owner, type and data, if the set has it.
pub(crate) fn find_named<'s, I: ZoneIndex>(set: &'s I, item: &ResourceRecord) -> Option<&'s Record>
    ensures { option_copied result ≡ find (alike (as_record item.now)) (I.records set.now) }
{
    let owner = item.owner().lend();
    let rrset = set.rrset(&owner, item.rtype());
    find_parts(rrset, &owner, item.rtype(), item.rdata())
}

/// What is said of data that is refused though it has the form of its type: memory was.
fn refused_memory(error: RecordError, item: &ResourceRecord) -> AllocError
    requires rtype { is_data_type item.now.rtype ≡ true }
    requires short { length item.now.rdata ≤ 4096 }
    requires form { IsRData item.now.rtype item.now.rdata }
    requires refused { (error ≡ RecordError.OutOfMemory) ⊎ RefusesData (data_of (as_record item.now)) error }
    ensures { error ≡ RecordError.OutOfMemory }
{
    match error {
        RecordError::OutOfMemory => AllocError,
        RecordError::BadData => unreachable!(),
        RecordError::TooLong => unreachable!(),
        RecordError::UnknownType => unreachable!(),
    }
}

/// The records of a section, in order.
pub(crate) fn items_of(
    alloc: Heap,
    section: Section<'_>,
) -> Result<Vec<ResourceRecord, Heap>, AllocError>
    ensures all { IfOk result (λ items. items.items ≡ section.entry) }
    ensures few { length section.entry < 2 ^ 16 }
{
    let _count = section.len();
    let mut copied = section.copied(alloc)?;
    let mut items = Vec::new(alloc);
    'items: while let Some(record) = copied.next()? {
        items.push(ResourceRecord::of(record))?;
    }
    Ok(items)
}
