//! One record of an answer applied to the set that was reached.
ghost use Rattle.std.specs.Prelude.{◌≡◌, ◌⊎◌, ◌==◌, [], true, false, Ok, Err, IfOk, IfErr, OnOk};
ghost use Rattle.dns_names.specs.Name.{names_eq};
ghost use Rattle.dns_records.specs.Record.{Record as Stated, serial_of};
ghost use Rattle.dns_zone.specs.Zone.{soas};
ghost use Rattle.dns_zone.specs.Records.{has, put, same};
ghost use Rattle.dns_changes.specs.Change.{is_soa};
ghost use Rattle.dns_secondary.specs.State.{Whole};
ghost use Rattle.dns_secondary.specs.Step.{begin, collect, last, within_whole, remove, removing, add, adding};
ghost use Rattle.dns_secondary.specs.Step.{sequence_from, new_soa, first_sequence, second, step};

use crate::Fault;
use crate::reached::Reached;
use crate::reading::{Phase, Reading};
use dns_memory::Heap;
use dns_names::Name;
use dns_records::Record;
use dns_records::types::SOA;
use dns_zone::{Zone, ZoneIndex};
use std::alloc::AllocError;

/// Whether the record is a SOA.
fn is_soa(r: &Record) -> bool
    ensures { result ≡ is_soa r.now }
{
    r.rtype() == SOA
}

/// Whether the name owns the record.
fn is_at(r: &Record, name: &Name) -> bool
    ensures { result ≡ names_eq r.now.owner name.now }
{
    r.owner().lend().is(&name.lend())
}

/// Whether the two records are one, with their TTLs.
fn is_same(a: &Record, b: &Record) -> bool
    ensures { result ≡ same a.now b.now }
{
    *a == *b
}

/// Whether two SOAs have one serial.
fn have_one_serial(a: &Record, b: &Record) -> bool
    requires first { is_soa a.now ≡ true }
    requires second { is_soa b.now ≡ true }
    ensures { result ≡ (serial_of a.now == serial_of b.now) }
{
    a.serial() == b.serial()
}

/// A record of a whole zone that comes anywhere in the order of those before it.
fn gather_among<I: ZoneIndex>(set: &mut Reached<I>, r: Record) -> Result<(), Fault>
    ensures taken { OnOk result ((soa : Stated) → collect soa set.old r ≡ Ok (Whole soa set.new)) }
    ensures refused { IfErr result
        (λ e. (e ≡ Fault.OutOfMemory) ⊎ ((soa : Stated) → collect soa set.old r ≡ Err e)) }
{
    if !set.holds_key(&r)? {
        set.insert(r)?;
        return Ok(());
    }
    if !set.holds(&r)? {
        return Err(Fault::InvalidZone);
    }
    Ok(())
}

/// A record of a whole zone. Most come after those before it in order, and cost no search.
fn gather<I: ZoneIndex>(set: &mut Reached<I>, r: Record) -> Result<(), Fault>
    ensures taken { OnOk result ((soa : Stated) → collect soa set.old r ≡ Ok (Whole soa set.new)) }
    ensures refused { IfErr result
        (λ e. (e ≡ Fault.OutOfMemory) ⊎ ((soa : Stated) → collect soa set.old r ≡ Err e)) }
{
    if set.ends_before(&r) {
        set.push(r)?;
        return Ok(());
    }
    gather_among(set, r)
}

/// A record of a whole zone.
fn collect<I: ZoneIndex>(set: Reached<I>, soa: Record, r: Record) -> Result<Reading<I>, Fault>
    requires { is_soa soa ≡ true }
    ensures taken { IfOk result (λ next. collect soa set r ≡ Ok next) }
    ensures refused { IfErr result (λ e. (e ≡ Fault.OutOfMemory) ⊎ (collect soa set r ≡ Err e)) }
{
    let mut set = set;
    match gather(&mut set, r) {
        Ok(()) => Ok(Reading {
            phase: Phase::Whole(soa),
            set,
        }),
        Err(fault) => {
            drop((set, soa));
            Err(fault)
        }
    }
}

/// The SOA that is to be the last record.
fn end<I: ZoneIndex>(set: Reached<I>, soa: &Record, r: &Record) -> Result<Reading<I>, Fault>
    ensures taken { IfOk result (λ next. last soa.now set r.now ≡ Ok next) }
    ensures refused { IfErr result (λ e. last soa.now set r.now ≡ Err e) }
{
    if !is_same(r, soa) {
        return Err(Fault::BadSequence);
    }
    Ok(Reading {
        phase: Phase::Ended,
        set,
    })
}

/// A record after the first ones of a whole zone.
fn go_on<I: ZoneIndex>(set: Reached<I>, soa: Record, r: Record) -> Result<Reading<I>, Fault>
    requires { is_soa soa ≡ true }
    ensures taken { IfOk result (λ next. within_whole soa set r ≡ Ok next) }
    ensures refused { IfErr result
        (λ e. (e ≡ Fault.OutOfMemory) ⊎ (within_whole soa set r ≡ Err e)) }
{
    if is_soa(&r) {
        return end(set, &soa, &r);
    }
    collect(set, soa, r)
}

/// A record that goes.
fn remove<I: ZoneIndex>(set: Reached<I>, soa: Record, r: &Record) -> Result<Reading<I>, Fault>
    requires { is_soa soa ≡ true }
    ensures taken { IfOk result (λ next. remove soa set r.now ≡ Ok next) }
    ensures refused { IfErr result
        (λ e. (e ≡ Fault.OutOfMemory) ⊎ (remove soa set r.now ≡ Err e)) }
{
    let mut set = set;
    if !set.take_out(r)? {
        return Err(Fault::RemovesAbsent);
    }
    Ok(Reading {
        phase: Phase::Removing(soa),
        set,
    })
}

/// Puts a record that comes among the others.
fn bring<I: ZoneIndex>(set: &mut Reached<I>, r: Record) -> Result<(), Fault>
    ensures new { OnOk result ((has r set.old ≡ false) × (set.new ≡ put r set.old)) }
    ensures refused { IfErr result
        (λ e. (e ≡ Fault.OutOfMemory) ⊎ ((has r set.old ≡ true) × (e ≡ Fault.AddsPresent))) }
{
    if set.holds_key(&r)? {
        return Err(Fault::AddsPresent);
    }
    set.insert(r)?;
    Ok(())
}

/// A record that comes, after the new SOA that was reached.
fn add<I: ZoneIndex>(
    set: Reached<I>,
    soa: Record,
    reached: Record,
    r: Record,
) -> Result<Reading<I>, Fault>
    requires leading { is_soa soa ≡ true }
    requires new { is_soa reached ≡ true }
    ensures taken { IfOk result (λ next. add soa set reached r ≡ Ok next) }
    ensures refused { IfErr result
        (λ e. (e ≡ Fault.OutOfMemory) ⊎ (add soa set reached r ≡ Err e)) }
{
    let mut set = set;
    match bring(&mut set, r) {
        Ok(()) => Ok(Reading {
            phase: Phase::Adding(soa, reached),
            set,
        }),
        Err(fault) => {
            drop((set, soa, reached));
            Err(fault)
        }
    }
}

/// The SOA with which a sequence is to begin.
fn begin_sequence<I: ZoneIndex>(
    set: Reached<I>,
    soa: Record,
    reached: &Record,
    r: &Record,
) -> Result<Reading<I>, Fault>
    requires { is_soa soa ≡ true }
    ensures taken { IfOk result (λ next. sequence_from soa set reached.now r.now ≡ Ok next) }
    ensures refused { IfErr result
        (λ e. (e ≡ Fault.OutOfMemory) ⊎ (sequence_from soa set reached.now r.now ≡ Err e)) }
{
    if !is_same(r, reached) {
        return Err(Fault::BadSequence);
    }
    remove(set, soa, r)
}

/// The new SOA of a sequence.
fn renew<I: ZoneIndex>(set: Reached<I>, soa: Record, r: Record) -> Result<Reading<I>, Fault>
    requires leading { is_soa soa ≡ true }
    requires new { is_soa r ≡ true }
    ensures taken { IfOk result (λ next. new_soa soa set r ≡ Ok next) }
    ensures refused { IfErr result (λ e. (e ≡ Fault.OutOfMemory) ⊎ (new_soa soa set r ≡ Err e)) }
{
    if have_one_serial(&r, &soa) & !is_same(&r, &soa) {
        drop((set, soa, r));
        return Err(Fault::BadSequence);
    }
    match r.clone() {
        Ok(reached) => add(set, soa, reached, r),
        Err(_) => {
            drop((set, soa, r));
            Err(Fault::OutOfMemory)
        }
    }
}

/// The SOA that marks changes of the version that is held: the first sequence begins with it.
fn begin_changes<I: ZoneIndex>(
    alloc: Heap,
    zone: &Zone<I>,
    soa: Record,
    r: &Record,
) -> Result<Reading<I>, Fault>
    requires { is_soa soa ≡ true }
    ensures taken { IfOk result
        (λ next. first_sequence soa zone.now.records (soas zone.now.records) r.now ≡ Ok next) }
    ensures refused { IfErr result
        (λ e. (e ≡ Fault.OutOfMemory)
        ⊎ (first_sequence soa zone.now.records (soas zone.now.records) r.now ≡ Err e)) }
{
    let reached = zone.soa();
    if have_one_serial(&soa, reached) {
        return Err(Fault::BadSequence);
    }
    begin_sequence(Reached::of(alloc, zone.index().fork()?), soa, reached, r)
}

/// A set of one record.
fn set_of<I: ZoneIndex>(alloc: Heap, r: &Record) -> Result<Reached<I>, AllocError>
    ensures { IfOk result (λ set. set ≡ put r.now []) }
{
    let mut set = I::empty(alloc)?;
    set.insert(r.clone()?)?;
    Ok(Reached::of(alloc, set))
}

/// The record after the SOA that leads.
fn second<I: ZoneIndex>(
    alloc: Heap,
    held: &Option<Zone<I>>,
    soa: Record,
    r: Record,
) -> Result<Reading<I>, Fault>
    requires { is_soa soa ≡ true }
    ensures taken { IfOk result (λ next. second held.now soa r ≡ Ok next) }
    ensures refused { IfErr result
        (λ e. (e ≡ Fault.OutOfMemory) ⊎ (second held.now soa r ≡ Err e)) }
{
    if let Some(zone) = held {
        if is_soa(&r) {
            let begun = begin_changes(alloc, zone, soa, &r);
            drop(r);
            return begun;
        }
    }
    match set_of(alloc, &soa) {
        Ok(set) => go_on(set, soa, r),
        Err(_) => {
            drop((soa, r));
            Err(Fault::OutOfMemory)
        }
    }
}

/// The first record, which is to be a SOA of the zone.
fn begin<I: ZoneIndex>(set: Reached<I>, apex: &Name, r: Record) -> Result<Reading<I>, Fault>
    ensures taken { IfOk result (λ next. begin apex.now r ≡ Ok next) }
    ensures refused { IfErr result (λ e. begin apex.now r ≡ Err e) }
{
    if !(is_soa(&r) & is_at(&r, apex)) {
        return Err(Fault::BadSequence);
    }
    Ok(Reading {
        phase: Phase::Led(r),
        set,
    })
}

/// A record after those that go of a sequence.
fn go_on_removing<I: ZoneIndex>(
    set: Reached<I>,
    soa: Record,
    r: Record,
) -> Result<Reading<I>, Fault>
    requires { is_soa soa ≡ true }
    ensures taken { IfOk result (λ next. removing soa set r ≡ Ok next) }
    ensures refused { IfErr result (λ e. (e ≡ Fault.OutOfMemory) ⊎ (removing soa set r ≡ Err e)) }
{
    if is_soa(&r) {
        return renew(set, soa, r);
    }
    remove(set, soa, &r)
}

/// A record after those that come of a sequence.
fn go_on_adding<I: ZoneIndex>(
    set: Reached<I>,
    soa: Record,
    reached: Record,
    r: Record,
) -> Result<Reading<I>, Fault>
    requires leading { is_soa soa ≡ true }
    requires new { is_soa reached ≡ true }
    ensures taken { IfOk result (λ next. adding soa set reached r ≡ Ok next) }
    ensures refused { IfErr result
        (λ e. (e ≡ Fault.OutOfMemory) ⊎ (adding soa set reached r ≡ Err e)) }
{
    if !is_soa(&r) {
        return add(set, soa, reached, r);
    }
    if have_one_serial(&reached, &soa) {
        let ended = end(set, &soa, &r);
        drop((soa, reached, r));
        return ended;
    }
    let begun = begin_sequence(set, soa, &reached, &r);
    drop((reached, r));
    begun
}

impl<I: ZoneIndex> Reading<I> {
    /// The next record, for one who holds a version or nothing.
    pub(crate) fn take(
        self,
        alloc: Heap,
        apex: &Name,
        held: &Option<Zone<I>>,
        r: Record,
    ) -> Result<Reading<I>, Fault>
        ensures taken { IfOk result (λ next. step apex.now held.now self r ≡ Ok next) }
        ensures refused { IfErr result
            (λ e. (e ≡ Fault.OutOfMemory) ⊎ (step apex.now held.now self r ≡ Err e)) }
    {
        let Reading { phase, set } = self;
        match phase {
            Phase::Begun => begin(set, apex, r),
            Phase::Led(soa) => second(alloc, held, soa, r),
            Phase::Whole(soa) => go_on(set, soa, r),
            Phase::Removing(soa) => go_on_removing(set, soa, r),
            Phase::Adding(soa, reached) => go_on_adding(set, soa, reached, r),
            Phase::Ended => Err(Fault::BadSequence),
        }
    }
}
