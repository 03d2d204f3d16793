//! The tree of names of records that are in order, made in one go: first the children of a name, each from
//! the records under it.
ghost use Rattle.std.specs.Prelude.{◌≡◌, ◌<◌, [], ◌↔◌, IsTrue, length, drop, reverse, IfOk, IfSome};
ghost use Rattle.std.specs.Prelude.{IfNone, MatchOption};
ghost use Rattle.std.specs.List.{slice_get};
ghost use Rattle.std.specs.Option.{option_copied};
ghost use Rattle.dns_zoneindex.specs.Children.{items, AreChildren};
ghost use Rattle.dns_zoneindex.specs.Growth.{from_depth, BelongToName, HasLabel, IsFront, IsTakenOff, Rising};

use crate::count::sum;
use crate::group::in_levels;
use crate::node::{Children, Node, Slot};
use crate::records::Records;
use dns_memory::Heap;
use dns_names::NameRef;
use dns_records::Record;
use dns_zone::split;
use smallvec::SmallVec;
use std::alloc::AllocError;
use std::mem;

/// The label with so many before it on the way up to the root.
fn label_behind<'n>(name: &NameRef<'n>, skipped: usize) -> Option<&'n [u8]>
    ensures { option_copied result ≡ slice_get name.now skipped }
{
    match split(name) {
        None => None,
        Some((label, _)) if skipped == 0 => Some(label),
        Some((_, above)) => label_behind(&above, skipped - 1),
    }
}

/// The label of the owner at a depth: the one next to the root is at 0.
fn label_at(r: &Record, depth: usize) -> Option<&[u8]>
    ensures found { IfSome result (λ label. HasLabel depth label.now r.now) }
    ensures none { IfNone result (drop depth (reverse r.now.owner) ≡ []) }
{
    let owner = r.owner().lend();
    let count = owner.label_count();
    if depth >= count {
        return None;
    }
    label_behind(&owner, count - 1 - depth)
}

/// Whether the owner has the label at the depth.
fn has_label(r: &Record, depth: usize, label: &[u8]) -> bool
    ensures { IsTrue result ↔ HasLabel depth label.now r.now }
{
    match label_at(r, depth) {
        Some(own) => own == label,
        None => false,
    }
}

/// The records before the last ones that have the label at the depth.
fn front_of<'r>(records: &'r [Record], depth: usize, label: &[u8]) -> &'r [Record]
    ensures { IsFront depth label.now records.now result.now }
{
    let mut front = records;
    'front: while let Some((last, others)) = front.split_last() {
        if !has_label(last, depth, label) {
            return front;
        }
        front = others;
    }
    front
}

/// Takes the last records off, those that have one label at the depth, with that label. None are left but the
/// name's own, if there is no label.
fn take_off(
    alloc: Heap,
    records: &mut Vec<Record, Heap>,
    depth: usize,
) -> Result<Option<(SmallVec<u8, 24, Heap>, Vec<Record, Heap>)>, AllocError>
    requires { Rising (from_depth depth records.old.items) }
    ensures { IfOk result (λ taken. MatchOption taken
        (BelongToName depth records.old.items records.new.items)
        (λ p. IsTakenOff depth p.0.items records.old.items records.new.items p.1.items)) }
{
    let Some((last, others)) = records.split_last() else {
        return Ok(None);
    };
    let Some(label) = label_at(last, depth) else {
        return Ok(None);
    };
    let label = SmallVec::from_slice(alloc, label)?;
    let start = front_of(others, depth, label.as_slice()).len();
    if start == 0 {
        return Ok(Some((label, mem::replace(records, Vec::new(alloc)))));
    }
    let group = records.split_off(start)?;
    Ok(Some((label, group)))
}

/// The records in a list with room for no more, if a list is to hold them.
fn trimmed(records: Vec<Record, Heap>) -> Result<Vec<Record, Heap>, AllocError>
    ensures { IfOk result (λ exact. exact.items ≡ records.entry.items) }
{
    if records.len() < 2 || records.len() == records.capacity() {
        return Ok(records);
    }
    let mut roomy = records;
    roomy.split_off(0)
}

/// Names in order as the children of one.
fn children_of(alloc: Heap, nodes: &[Node]) -> Result<Children, AllocError>
    requires { AreChildren nodes.now }
    ensures made { IfOk result (λ children. items children ≡ nodes.now) }
    ensures kept { IfOk result (λ children. AreChildren (items children)) }
{
    let mut slots = Vec::with_capacity(alloc, nodes.len())?;
    for node in nodes {
        slots.push(Slot::one(node.share()?))?;
    }
    in_levels(alloc, slots)
}

/// What is stored at and under a name, by its label and by the records, whose owners' labels down to the
/// depth lead to it.
pub(crate) fn grow(
    alloc: Heap,
    label: &[u8],
    depth: usize,
    records: Vec<Record, Heap>,
) -> Result<Node, AllocError>
    requires some { 0 < length records.items }
    requires order { Rising (from_depth depth records.items) }
    ensures label { IfOk result (λ node. node.label ≡ label.now) }
    ensures own { IfOk result (λ node. node.own ≡ from_depth depth records.entry.items) }
{
    let below = sum(depth, 1)?;
    let mut own = records;
    let mut nodes = Vec::new(alloc);
    'groups: while let Some((label, group)) = take_off(alloc, &mut own, depth)? {
        let node = grow(alloc, label.as_slice(), below, group)?;
        let _some = node.records();
        nodes.push(node)?;
    }
    let own = Records::of(alloc, trimmed(own)?)?;
    nodes.reverse();
    let children = children_of(alloc, &nodes)?;
    Node::new(alloc, label, own, children)
}
