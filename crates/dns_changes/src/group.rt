//! Records that go out of a set or come into it name by name: what a name owns is replaced at once.
ghost use Rattle.std.specs.Prelude.{◌≡◌, ◌≤◌, true, not, ◌∷◌, ◌++◌, length, IfOk, OnOk, MatchOption};
ghost use Rattle.std.specs.List.{AllWithin, list_all, list_any};
ghost use Rattle.dns_names.specs.Name.{names_eq};
ghost use Rattle.dns_zone.specs.Records.{are_of, contains, has, is_ordered, put, united};
ghost use Rattle.dns_changes.specs.Change.{are_present, are_new, removed_from};
ghost use Rattle.dns_changes.specs.Group.{IsOwnerGroup};

use crate::change::is_among;
use dns_memory::Heap;
use dns_names::NameRef;
use dns_records::Record;
use dns_zone::{ZoneIndex, find_record};
use std::alloc::AllocError;

/// How many of the first records the name owns.
fn count_owned(records: &[Record], name: &NameRef<'_>) -> usize
    ensures bound { result ≤ length records.now }
    ensures owned { AllWithin (λ r. names_eq r.owner name.now ≡ true) records.now 0 result }
{
    let mut count = 0;
    'owned: while count < records.len() && records[count].owner().lend().is(name) {
        count += 1;
    }
    count
}

/// The first of the records, those at the front that its owner owns, and the others.
fn first_group(records: &[Record]) -> Option<(&Record, &[Record], &[Record])>
    ensures { MatchOption result
        (length records.now ≡ 0)
        (λ group. IsOwnerGroup (λ r. r.owner) records.now group.0.now group.1.now group.2.now) }
{
    let (first, others) = records.split_first()?;
    let count = count_owned(others, &first.owner().lend());
    let (group, rest) = records.split_at(1 + count);
    Some((first, group, rest))
}

/// Whether each of the records is among the others, with its TTL.
fn are_among(records: &[Record], others: &[Record]) -> bool
    requires { is_ordered others.now ≡ true }
    ensures { result ≡ list_all (contains others.now) records.now }
{
    let mut near = 0;
    for record in records {
        if !is_among(others, record, &mut near) {
            return false;
        }
    }
    true
}

/// Copies of the records that are not among the others.
fn copies_but(
    alloc: Heap,
    records: &[Record],
    others: &[Record],
) -> Result<Vec<Record, Heap>, AllocError>
    requires { is_ordered others.now ≡ true }
    ensures { IfOk result (λ kept. kept.items ≡ removed_from records.now others.now) }
{
    let mut kept = Vec::new(alloc);
    let mut near = 0;
    for record in records {
        if !is_among(others, record, &mut near) {
            kept.push(record.clone()?)?;
        }
    }
    Ok(kept)
}

/// Takes records that the name owns out, if all are there, and answers whether they are.
fn take_owned<I: ZoneIndex>(
    alloc: Heap,
    set: &mut I,
    name: &NameRef<'_>,
    gone: &[Record],
) -> Result<bool, AllocError>
    requires order { is_ordered gone.now ≡ true }
    requires owned { are_of name.now gone.now ≡ true }
    ensures present { IfOk result (λ present. present ≡ are_present (I.records set.old) gone.now) }
    ensures left { IfOk result
        (λ present. present ≡ true → I.records set.new ≡ removed_from (I.records set.old) gone.now) }
{
    let held = set.records_at(name);
    if !are_among(gone, held) {
        return Ok(false);
    }
    let kept = copies_but(alloc, held, gone)?;
    set.replace_at(name, kept)?;
    Ok(true)
}

/// Takes records in order out name by name, up to the first name that doesn't own its own, and answers
/// whether all were there.
pub(crate) fn take_each<I: ZoneIndex>(
    alloc: Heap,
    set: &mut I,
    gone: &[Record],
) -> Result<bool, AllocError>
    requires { is_ordered gone.now ≡ true }
    ensures present { IfOk result (λ present. present ≡ are_present (I.records set.old) gone.now) }
    ensures left { IfOk result
        (λ present. present ≡ true → I.records set.new ≡ removed_from (I.records set.old) gone.now) }
{
    let mut rest = gone;
    'names: while let Some((first, group, others)) = first_group(rest) {
        if !take_owned(alloc, set, &first.owner().lend(), group)? {
            return Ok(false);
        }
        rest = others;
    }
    Ok(true)
}

/// Whether of none of the records owner, type and data are among the others.
fn are_apart(records: &[Record], others: &[Record]) -> bool
    requires { is_ordered others.now ≡ true }
    ensures { result ≡ not (list_any (λ r. has r others.now) records.now) }
{
    let mut near = 0;
    for record in records {
        match find_record(others, record, Some(near)) {
            Ok(_) => return false,
            Err(at) => near = at,
        }
    }
    true
}

/// Puts copies of records at the end of a list.
fn push_copies(all: &mut Vec<Record, Heap>, records: &[Record]) -> Result<(), AllocError>
    ensures { OnOk result (all.new.items ≡ all.old.items ++ records.now) }
{
    for record in records {
        all.push(record.clone()?)?;
    }
    Ok(())
}

/// Copies of records in order with others put among them.
fn merged(alloc: Heap, records: &[Record], come: &[Record]) -> Result<Vec<Record, Heap>, AllocError>
    requires held { is_ordered records.now ≡ true }
    requires order { is_ordered come.now ≡ true }
    ensures { IfOk result (λ all. all.items ≡ united records.now come.now) }
{
    let mut all = Vec::new(alloc);
    let mut rest = records;
    for record in come {
        let (before, behind) = parted(rest, record);
        push_copies(&mut all, before)?;
        all.push(record.clone()?)?;
        rest = behind;
    }
    push_copies(&mut all, rest)?;
    Ok(all)
}

/// The records before one, and those after it: one of equal owner, type and data is neither.
fn parted<'r>(records: &'r [Record], r: &Record) -> (&'r [Record], &'r [Record])
    requires { is_ordered records.now ≡ true }
    ensures parts { put r.now records.now ≡ result.0.now ++ r.now ∷ result.1.now }
{
    match find_record(records, r, Some(0)) {
        Ok(at) => (&records[..at], &records[at + 1..]),
        Err(at) => records.split_at(at),
    }
}

/// Puts copies of records that the name owns in, if none of them is there, and answers whether it did.
fn put_owned<I: ZoneIndex>(
    alloc: Heap,
    set: &mut I,
    name: &NameRef<'_>,
    come: &[Record],
) -> Result<bool, AllocError>
    requires order { is_ordered come.now ≡ true }
    requires owned { are_of name.now come.now ≡ true }
    ensures new { IfOk result (λ new. new ≡ are_new (I.records set.old) come.now) }
    ensures left { IfOk result (λ new. new ≡ true → I.records set.new ≡ united (I.records set.old) come.now) }
{
    let held = set.records_at(name);
    if !are_apart(come, held) {
        return Ok(false);
    }
    let all = merged(alloc, held, come)?;
    set.replace_at(name, all)?;
    Ok(true)
}

/// Puts copies of records in order in name by name, up to the first name that owns one of them, and answers
/// whether none was there.
pub(crate) fn put_each<I: ZoneIndex>(
    alloc: Heap,
    set: &mut I,
    come: &[Record],
) -> Result<bool, AllocError>
    requires { is_ordered come.now ≡ true }
    ensures new { IfOk result (λ new. new ≡ are_new (I.records set.old) come.now) }
    ensures left { IfOk result (λ new. new ≡ true → I.records set.new ≡ united (I.records set.old) come.now) }
{
    let mut rest = come;
    'names: while let Some((first, group, others)) = first_group(rest) {
        if !put_owned(alloc, set, &first.owner().lend(), group)? {
            return Ok(false);
        }
        rest = others;
    }
    Ok(true)
}
