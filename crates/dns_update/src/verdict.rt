//! The verdict on an update.
ghost use Rattle.std.specs.Prelude.{◌≡◌, ◌<◌, ◌+◌, ◌^◌, true, [], ◌∷◌, length, None, IfOk, OnOk};
ghost use Rattle.std.specs.List.{AllByRecursion, list_all, list_any};
ghost use Rattle.dns_names.specs.Name.{names_eq};
ghost use Rattle.dns_records.specs.Types.{type_soa};
ghost use Rattle.dns_zone.specs.Records.{records_at};
ghost use Rattle.dns_zone.specs.Zone.{soas};
ghost use Rattle.dns_changes.specs.Change.{Change as StatedChange};
ghost use Rattle.dns_changes.specs.Touched.{DifferAt};
ghost use Rattle.dns_update.specs.ResourceRecord.{HasForm, first_fault, otherwise};
ghost use Rattle.dns_update.specs.Prerequisites.{prerequisites_fault};
ghost use Rattle.dns_update.specs.Prescan.{prescan_fault};
ghost use Rattle.dns_update.specs.Effect.{effects};
ghost use Rattle.dns_zone.specs.Soa.{HasSoa};
ghost use Rattle.dns_changes.specs.Version.{IsVersionAfter};
ghost use Rattle.dns_update.specs.Verdict.{IsVerdict, IsJudged, Leaves, same_set, versioned};
ghost use Rattle.dns_update.specs.Verdict.{with_next_serial};

use crate::Judged;
use crate::effect::take_effects;
use crate::item::{ResourceRecord, items_of};
use crate::prerequisites::prerequisites_fault;
use crate::prescan::prescan;
use crate::runs::sort_by_owner;
use crate::touched::touched_names;
use dns_changes::Change;
use dns_memory::Heap;
use dns_names::{Name, NameRef};
use dns_records::Record;
use dns_serial::Serial;
use dns_wire::{Message, Rcode};
use dns_zone::{Zone, ZoneIndex, soa_of};
use std::alloc::AllocError;

/// Whether the name owns the same records in two sets, with all TTLs.
fn owns_same<I: ZoneIndex>(a: &I, b: &I, name: &NameRef<'_>) -> bool
    ensures { result
        ≡ same_set (records_at (I.records a.now) name.now) (records_at (I.records b.now) name.now) }
{
    a.records_at(name) == b.records_at(name)
}

/// Whether each of the names owns the same records in two sets, with all TTLs.
fn own_same<I: ZoneIndex>(a: &I, b: &I, names: &[Name]) -> bool
    ensures { result
        ≡ list_all (λ n. same_set (records_at (I.records a.now) n) (records_at (I.records b.now) n))
        names.now }
{
    names.iter().all(|name| owns_same(a, b, &name.lend()))
}

/// Whether two sets are the same, with all TTLs, that differ at most in what the names own.
fn is_same_set<I: ZoneIndex>(a: &I, b: &I, names: &[Name]) -> bool
    requires { DifferAt names.now (I.records a.now) (I.records b.now) }
    ensures { result ≡ same_set (I.records a.now) (I.records b.now) }
{
    own_same(a, b, names)
}

/// Advances the serial of a zone by one (RFC 2136 section 3.6).
fn advance<I: ZoneIndex>(alloc: Heap, set: &mut I, soa: &Record) -> Result<(), AllocError>
    requires one { soas (I.records set.old) ≡ soa.now ∷ [] }
    requires soa { soa.now.rtype ≡ type_soa }
    ensures { OnOk result
        (I.records set.new ≡ with_next_serial (soas (I.records set.old)) (I.records set.old)) }
{
    let next = soa.with_serial(alloc, Serial(soa.serial()).next().0)?;
    set.remove(soa)?;
    set.insert(next)
}

/// The change of a zone to a set with one SOA.
fn change_to<I: ZoneIndex>(
    alloc: Heap,
    zone: &Zone<I>,
    after: I,
    names: &[Name],
) -> Result<Judged<I>, AllocError>
    requires one { HasSoa zone.now.apex (I.records after) }
    requires few { length (I.records after) < 2 ^ 32 }
    requires touched { DifferAt names.now zone.now.records (I.records after) }
    ensures { IfOk result (IsVerdict I.records zone.now.records (Leaves (I.records after))) }
{
    let new = soa_of(&after, &zone.apex().lend());
    let change = Change::between(alloc, zone.index(), zone.soa(), &after, new, names)?;
    Ok(Judged::Accepted(change, after))
}

/// The change of a zone to a set with one SOA, once its serial is advanced.
fn advanced_change<I: ZoneIndex>(
    alloc: Heap,
    zone: &Zone<I>,
    after: I,
    names: &[Name],
) -> Result<Judged<I>, AllocError>
    requires one { HasSoa zone.now.apex (I.records after) }
    requires few { length (I.records after) + 1 < 2 ^ 32 }
    requires touched { DifferAt names.now zone.now.records (I.records after) }
    requires apex { list_any (names_eq zone.now.apex) names.now ≡ true }
    ensures { IfOk result
        (IsVerdict I.records zone.now.records
        (Leaves (with_next_serial (soas (I.records after)) (I.records after)))) }
{
    let mut after = after;
    let soa = soa_of(&after, &zone.apex().lend()).clone()?;
    advance(alloc, &mut after, &soa)?;
    change_to(alloc, zone, after, names)
}

/// What becomes of a zone by what an update left of its records.
fn versioned<I: ZoneIndex>(
    alloc: Heap,
    zone: &Zone<I>,
    after: I,
    names: &[Name],
) -> Result<Judged<I>, AllocError>
    requires one { HasSoa zone.now.apex (I.records after) }
    requires few { length (I.records after) + 1 < 2 ^ 32 }
    requires touched { DifferAt names.now zone.now.records (I.records after) }
    requires apex { list_any (names_eq zone.now.apex) names.now ≡ true }
    ensures { IfOk result
        (IsVerdict I.records zone.now.records (versioned zone.now.records (I.records after))) }
{
    if is_same_set(zone.index(), &after, names) {
        return Ok(Judged::NoChange);
    }
    let old = Serial(zone.soa().serial());
    let new = Serial(soa_of(&after, &zone.apex().lend()).serial());
    if new.0 == old.0 {
        return advanced_change(alloc, zone, after, names);
    }
    if new.greater(old) {
        return change_to(alloc, zone, after, names);
    }
    Ok(Judged::Refused(Rcode::Refused))
}

/// What refuses the items: the prerequisites, else the scan of the update section.
fn fault<I: ZoneIndex>(
    alloc: Heap,
    zone: &Zone<I>,
    prerequisites: &[ResourceRecord],
    items: &[ResourceRecord],
) -> Result<Option<Rcode>, AllocError>
    ensures { IfOk result
        (λ fault. fault
        ≡ otherwise (prerequisites_fault zone.now prerequisites.now)
        (first_fault (prescan_fault zone.now.apex) items.now)) }
{
    let first = prerequisites_fault(alloc, zone, prerequisites)?;
    if first.is_some() {
        return Ok(first);
    }
    Ok(prescan(zone.apex(), items))
}

/// What becomes of an update of items that all pass the scan.
fn judge_passed<I: ZoneIndex>(
    alloc: Heap,
    zone: &Zone<I>,
    items: &[ResourceRecord],
) -> Result<Judged<I>, AllocError>
    requires few { length items.now < 2 ^ 16 }
    requires form { AllByRecursion HasForm items.now }
    requires pass { first_fault (prescan_fault zone.now.apex) items.now ≡ None }
    ensures verdict { IfOk result
        (IsVerdict I.records zone.now.records
        (versioned zone.now.records (effects zone.now.apex zone.now.records items.now))) }
    ensures next { IfOk result
        (λ judged. (change : StatedChange) (next : I)
        → judged ≡ Judged.Accepted change next
        → IsVersionAfter zone.now change (I.records next)) }
{
    let mut after = zone.index().fork()?;
    take_effects(alloc, &mut after, &zone.apex().lend(), items)?;
    let names = touched_names(alloc, zone.apex(), items)?;
    versioned(alloc, zone, after, &names)
}

/// What becomes of an update of these prerequisites and items. The items are scanned in their order, and done
/// name by name.
fn judge_items<I: ZoneIndex>(
    alloc: Heap,
    zone: &Zone<I>,
    prerequisites: &[ResourceRecord],
    items: Vec<ResourceRecord, Heap>,
) -> Result<Judged<I>, AllocError>
    requires few { length items.items < 2 ^ 16 }
    requires form { AllByRecursion HasForm items.items }
    ensures verdict { IfOk result (IsJudged I.records zone.now prerequisites.now items.entry.items) }
    ensures next { IfOk result
        (λ judged. (change : StatedChange) (next : I)
        → judged ≡ Judged.Accepted change next
        → IsVersionAfter zone.now change (I.records next)) }
{
    if let Some(rcode) = fault(alloc, zone, prerequisites, &items)? {
        drop(items);
        return Ok(Judged::Refused(rcode));
    }
    let _valid = zone.apex();
    let mut items = items;
    sort_by_owner(&mut items)?;
    judge_passed(alloc, zone, &items)
}

/// What becomes of an update of the zone, which stays as it is (RFC 2136 sections 3.2 to 3.6). What is
/// accepted is the change and the records that it leads to: a valid zone with a greater serial, but that the
/// caller sees to its room, as there may be more than 65,536 of them.
pub fn judge<I: ZoneIndex>(
    alloc: Heap,
    zone: &Zone<I>,
    message: &Message<'_>,
) -> Result<Judged<I>, AllocError>
    ensures verdict { IfOk result
        (IsJudged I.records zone.now message.now.message.answers message.now.message.authorities) }
    ensures next { IfOk result
        (λ judged. (change : StatedChange) (next : I)
        → judged ≡ Judged.Accepted change next
        → IsVersionAfter zone.now change (I.records next)) }
{
    let _reads = message.octets();
    let prerequisites = items_of(alloc, message.answers())?;
    let items = items_of(alloc, message.authorities())?;
    judge_items(alloc, zone, &prerequisites, items)
}
