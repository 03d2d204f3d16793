//! What an update does to the records of a zone. An item says something of what its owner owns, so that the
//! items of one name are done to a copy of that, which is put in its place once for all of them.
ghost use Rattle.std.specs.Prelude.{◌≡◌, ◌==◌, true, false, None, OnOk, IfOk};
ghost use Rattle.std.specs.List.{AllByRecursion, list_all};
ghost use Rattle.dns_names.specs.Name.{names_eq};
ghost use Rattle.dns_records.specs.Types.{type_any};
ghost use Rattle.dns_zone.specs.Records.{are_of, is_ordered, others, records_at, united};
ghost use Rattle.dns_update.specs.ResourceRecord.{as_record, HasForm, first_fault};
ghost use Rattle.dns_update.specs.Prescan.{prescan_fault};
ghost use Rattle.dns_update.specs.Effect.{added, deleted, deleted_set, effect, effects, is_spared, replaced};

use crate::held::{Halves, Held};
use crate::item::ResourceRecord;
use crate::runs::first_run;
use dns_memory::Heap;
use dns_names::NameRef;
use dns_records::Record;
use dns_records::types::{ANY, CLASS_ANY, CLASS_IN, CNAME, NS, SOA};
use dns_zone::ZoneIndex;
use std::alloc::AllocError;

/// Takes all out of the records of the apex but its SOA and its NS.
fn take_but_vital<H: Held>(held: &mut H, apex: &NameRef<'_>)
    requires order { is_ordered (H.records held.old) ≡ true }
    requires owned { are_of apex.now (H.records held.old) ≡ true }
    ensures { H.records held.new ≡ deleted_set apex.now (H.records held.old) apex.now type_any }
{
    held.take_types_behind(apex, SOA);
    held.take_types(apex, NS + 1, SOA - 1);
    held.take_types(apex, 0, NS - 1);
}

/// Whether the two names are one.
fn is_same(name: &NameRef<'_>, other: &NameRef<'_>) -> bool
    ensures { result ≡ names_eq name.now other.now }
{
    name.is(other)
}

/// Takes those of a type out of the records of a name, or all where the type is ANY; but the SOA and the NS
/// of the apex stay.
fn take_deleted<H: Held>(held: &mut H, apex: &NameRef<'_>, name: &NameRef<'_>, rtype: u16)
    requires order { is_ordered (H.records held.old) ≡ true }
    requires owned { are_of name.now (H.records held.old) ≡ true }
    ensures { H.records held.new ≡ deleted_set apex.now (H.records held.old) name.now rtype }
{
    let is_apex = is_same(name, apex);
    if rtype == ANY {
        if is_apex {
            take_but_vital(held, apex);
            return;
        }
        held.take_all();
        return;
    }
    if is_apex & ((rtype == SOA) | (rtype == NS)) {
        return;
    }
    held.take_types(name, rtype, rtype);
}

/// Puts a record among those of its owner, in place of all of its type.
fn replace<H: Held>(held: &mut H, come: Record) -> Result<(), AllocError>
    requires order { is_ordered (H.records held.old) ≡ true }
    requires owned { are_of come.owner (H.records held.old) ≡ true }
    requires rtype { (come.rtype == type_any) ≡ false }
    ensures { OnOk result (H.records held.new ≡ replaced (H.records held.old) come) }
{
    held.take_types(&come.owner().lend(), come.rtype(), come.rtype());
    held.put(come)
}

/// Adds a record to those of its owner (RFC 2136 section 3.4.2.2).
fn add<H: Held>(held: &mut H, come: Record) -> Result<(), AllocError>
    requires order { is_ordered (H.records held.old) ≡ true }
    requires owned { are_of come.owner (H.records held.old) ≡ true }
    ensures { OnOk result (H.records held.new ≡ added (H.records held.old) come) }
{
    if come.rtype() == CNAME {
        if held.has_other(&come.owner().lend()) {
            drop(come);
            return Ok(());
        }
        return replace(held, come);
    }
    if held.has_type(&come.owner().lend(), CNAME) {
        drop(come);
        return Ok(());
    }
    if come.rtype() == SOA {
        if held.has_older(&come) {
            return replace(held, come);
        }
        drop(come);
        return Ok(());
    }
    held.put(come)
}

/// Whether the item names a SOA, or the last NS of the apex. The records are those of its owner.
fn is_spared<H: Held>(held: &H, apex: &NameRef<'_>, item: &ResourceRecord) -> bool
    requires order { is_ordered (H.records held.now) ≡ true }
    requires owned { are_of item.now.owner (H.records held.now) ≡ true }
    ensures { result ≡ is_spared apex.now (H.records held.now) (as_record item.now) }
{
    let last = held.has_one(&item.owner().lend(), NS);
    (item.rtype() == SOA) | ((item.rtype() == NS) & item.is_owned_by(apex) & last)
}

/// Deletes one record of those of its owner (RFC 2136 section 3.4.2.4).
fn delete<H: Held>(
    held: &mut H,
    apex: &NameRef<'_>,
    item: &ResourceRecord,
) -> Result<(), AllocError>
    requires order { is_ordered (H.records held.old) ≡ true }
    requires owned { are_of item.now.owner (H.records held.old) ≡ true }
    ensures { OnOk result (H.records held.new ≡ deleted apex.now (H.records held.old) (as_record item.now)) }
{
    if is_spared(held, apex, item) {
        return Ok(());
    }
    held.take_named(item)
}

/// Does what one item says to the records of its owner (RFC 2136 section 3.4.2).
fn take_effect<H: Held>(
    alloc: Heap,
    held: &mut H,
    apex: &NameRef<'_>,
    item: &ResourceRecord,
) -> Result<(), AllocError>
    requires passes { prescan_fault apex.now item.now ≡ None }
    requires form { HasForm item.now }
    requires order { is_ordered (H.records held.old) ≡ true }
    requires owned { are_of item.now.owner (H.records held.old) ≡ true }
    ensures { OnOk result (H.records held.new ≡ effect apex.now (H.records held.old) item.now) }
{
    match item.class() {
        CLASS_IN => add(held, item.to_record(alloc)?),
        CLASS_ANY => {
            take_deleted(held, apex, &item.owner().lend(), item.rtype());
            Ok(())
        }
        _ => delete(held, apex, item),
    }
}

/// Does what items of one name say to the records of the name, in order.
fn take_each<H: Held>(
    alloc: Heap,
    held: &mut H,
    apex: &NameRef<'_>,
    name: &NameRef<'_>,
    items: &[ResourceRecord],
) -> Result<(), AllocError>
    requires pass { first_fault (prescan_fault apex.now) items.now ≡ None }
    requires form { AllByRecursion HasForm items.now }
    requires named { list_all (λ i. names_eq i.owner name.now) items.now ≡ true }
    requires order { is_ordered (H.records held.old) ≡ true }
    requires owned { are_of name.now (H.records held.old) ≡ true }
    ensures done { OnOk result (H.records held.new ≡ effects apex.now (H.records held.old) items.now) }
    ensures order { OnOk result (is_ordered (H.records held.new) ≡ true) }
    ensures owned { OnOk result (are_of name.now (H.records held.new) ≡ true) }
{
    let _name = name;
    for item in items {
        take_effect(alloc, held, apex, item)?;
    }
    Ok(())
}

/// Does what items of one name say to the records of the name, in order, which are held in a form that suits.
fn take_held<H: Held>(
    alloc: Heap,
    owned: Vec<Record, Heap>,
    apex: &NameRef<'_>,
    name: &NameRef<'_>,
    items: &[ResourceRecord],
) -> Result<Vec<Record, Heap>, AllocError>
    requires pass { first_fault (prescan_fault apex.now) items.now ≡ None }
    requires form { AllByRecursion HasForm items.now }
    requires named { list_all (λ i. names_eq i.owner name.now) items.now ≡ true }
    requires order { is_ordered owned.items ≡ true }
    requires owned { are_of name.now owned.items ≡ true }
    ensures done { IfOk result (λ left. left.items ≡ effects apex.now owned.entry.items items.now) }
    ensures order { IfOk result (λ left. is_ordered left.items ≡ true) }
    ensures owned { IfOk result (λ left. are_of name.now left.items ≡ true) }
{
    let mut held = H::of(owned)?;
    take_each(alloc, &mut held, apex, name, items)?;
    held.into_list()
}

/// The records of a name are held in parts while items are done to them, if there are as many as this.
const LONG: usize = 1024;

/// The items that the parts are made for are at least so many.
const SEVERAL: usize = 8;

/// Does what items of one name say to the records of the name, in order. Of a long name a part of the records
/// moves for an item.
fn take_owned(
    alloc: Heap,
    owned: Vec<Record, Heap>,
    apex: &NameRef<'_>,
    name: &NameRef<'_>,
    items: &[ResourceRecord],
) -> Result<Vec<Record, Heap>, AllocError>
    requires pass { first_fault (prescan_fault apex.now) items.now ≡ None }
    requires form { AllByRecursion HasForm items.now }
    requires named { list_all (λ i. names_eq i.owner name.now) items.now ≡ true }
    requires order { is_ordered owned.items ≡ true }
    requires owned { are_of name.now owned.items ≡ true }
    ensures done { IfOk result (λ left. left.items ≡ effects apex.now owned.entry.items items.now) }
    ensures order { IfOk result (λ left. is_ordered left.items ≡ true) }
    ensures owned { IfOk result (λ left. are_of name.now left.items ≡ true) }
{
    if (owned.len() < LONG) | (items.len() < SEVERAL) {
        return take_held::<Vec<Record, Heap>>(alloc, owned, apex, name, items);
    }
    take_held::<Halves<Halves<Vec<Record, Heap>>>>(alloc, owned, apex, name, items)
}

/// A copy of the records that a name owns.
fn copy_at<I: ZoneIndex>(
    alloc: Heap,
    set: &I,
    name: &NameRef<'_>,
) -> Result<Vec<Record, Heap>, AllocError>
    ensures { IfOk result (λ copy. copy.items ≡ records_at (I.records set.now) name.now) }
{
    set.records_at(name).to_vec(alloc)
}

/// Puts what a name is to own in place of what it owns, unless it owns that.
fn put_back<I: ZoneIndex>(
    set: &mut I,
    name: &NameRef<'_>,
    held: Vec<Record, Heap>,
) -> Result<(), AllocError>
    requires order { is_ordered held.items ≡ true }
    requires owned { are_of name.now held.items ≡ true }
    ensures { OnOk result
        (I.records set.new ≡ united (others (I.records set.old) name.now) held.entry.items) }
{
    if set.records_at(name) == held.as_slice() {
        drop(held);
        return Ok(());
    }
    set.replace_at(name, held)
}

/// Does what items of one name say, in order.
fn take_run<I: ZoneIndex>(
    alloc: Heap,
    set: &mut I,
    apex: &NameRef<'_>,
    name: &NameRef<'_>,
    items: &[ResourceRecord],
) -> Result<(), AllocError>
    requires pass { first_fault (prescan_fault apex.now) items.now ≡ None }
    requires form { AllByRecursion HasForm items.now }
    requires named { list_all (λ i. names_eq i.owner name.now) items.now ≡ true }
    ensures { OnOk result (I.records set.new ≡ effects apex.now (I.records set.old) items.now) }
{
    let owned = copy_at(alloc, set, name)?;
    let left = take_owned(alloc, owned, apex, name, items)?;
    put_back(set, name, left)
}

/// Does what the items say, in order. Where memory is refused the set is of no use.
pub(crate) fn take_effects<I: ZoneIndex>(
    alloc: Heap,
    set: &mut I,
    apex: &NameRef<'_>,
    items: &[ResourceRecord],
) -> Result<(), AllocError>
    requires pass { first_fault (prescan_fault apex.now) items.now ≡ None }
    requires form { AllByRecursion HasForm items.now }
    ensures { OnOk result (I.records set.new ≡ effects apex.now (I.records set.old) items.now) }
{
    let mut rest = items;
    'runs: while let Some((first, run, others)) = first_run(rest) {
        take_run(alloc, set, apex, &first.owner().lend(), run)?;
        rest = others;
    }
    Ok(())
}
