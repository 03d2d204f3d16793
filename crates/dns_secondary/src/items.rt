//! The records of a message, one after another.
ghost use Rattle.std.specs.Prelude.{◌≡◌, ◌⊎◌, IfOk, IfErr};
ghost use Rattle.dns_wire.specs.Copied.{record_copied};
ghost use Rattle.dns_wire.specs.Message.{record_of_item};
ghost use Rattle.dns_secondary.specs.Step.{IsFit, TakesRecord, RefusesRecord};
ghost use Rattle.dns_secondary.specs.Rest.{Reaches, FailsBy};
ghost use Rattle.dns_secondary.specs.Stated.{fault_of};

use crate::Fault;
use crate::reading::Reading;
use dns_memory::Heap;
use dns_names::Name;
use dns_records::types::CLASS_IN;
use dns_records::{Record, RecordError};
use dns_wire::{CopiedRecord, Section};
use dns_zone::{Zone, ZoneIndex};

/// The fault that a record is whose data is refused.
fn fault_of(error: RecordError) -> Fault
    ensures { result ≡ fault_of error }
{
    match error {
        RecordError::OutOfMemory => Fault::OutOfMemory,
        RecordError::BadData => Fault::BadSequence,
        RecordError::TooLong => Fault::BadSequence,
        RecordError::UnknownType => Fault::BadSequence,
    }
}

/// A record of a message as a record of a zone.
fn fit_record(alloc: Heap, item: CopiedRecord) -> Result<Record, Fault>
    ensures fit { IfOk result
        (λ r. IsFit (record_copied item) × (r ≡ record_of_item (record_copied item))) }
    ensures refused { IfErr result
        (λ e. (e ≡ Fault.OutOfMemory) ⊎ ((IsFit (record_copied item) → ⊥) × (e ≡ Fault.BadSequence))) }
{
    if item.class != CLASS_IN {
        return Err(Fault::BadSequence);
    }
    match item.into_record(alloc) {
        Ok(r) => {
            let _valid = r.rdata();
            Ok(r)
        }
        Err(error) => Err(fault_of(error)),
    }
}

impl<I: ZoneIndex> Reading<I> {
    /// The next record of a message.
    fn take_item(
        self,
        alloc: Heap,
        apex: &Name,
        held: &Option<Zone<I>>,
        item: CopiedRecord,
    ) -> Result<Reading<I>, Fault>
        ensures taken { IfOk result
            (λ next. TakesRecord apex.now held.now self (record_copied item) next) }
        ensures refused { IfErr result
            (λ e. (e ≡ Fault.OutOfMemory) ⊎ RefusesRecord apex.now held.now self (record_copied item) e) }
    {
        match fit_record(alloc, item) {
            Ok(r) => self.take(alloc, apex, held, r),
            Err(fault) => {
                drop(self);
                Err(fault)
            }
        }
    }

    /// All records of a section. It stops at the first that is a fault.
    pub(crate) fn take_all(
        self,
        alloc: Heap,
        apex: &Name,
        held: &Option<Zone<I>>,
        section: Section<'_>,
    ) -> Result<Reading<I>, Fault>
        ensures reached { IfOk result (λ next. Reaches apex.now held.now self section.entry next) }
        ensures refused { IfErr result
            (λ e. (e ≡ Fault.OutOfMemory) ⊎ FailsBy apex.now held.now self section.entry e) }
    {
        let mut reading = self;
        let mut copied = section.copied(alloc)?;
        'records: while let Some(item) = copied.next()? {
            reading = reading.take_item(alloc, apex, held, item)?;
        }
        Ok(reading.sealed()?)
    }
}
