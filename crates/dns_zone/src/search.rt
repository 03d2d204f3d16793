//! Searching by halves in a list of records in order.
ghost use Rattle.std.specs.Prelude.{◌≡◌, ◌<◌, ◌≤◌, true, false, length, filter, Some, IfOk, IfErr};
ghost use Rattle.std.specs.List.{AllWithin, find};
ghost use Rattle.std.specs.Ordering.{is_lt, is_eq};
ghost use Rattle.std.specs.Option.{option_copied};
ghost use Rattle.dns_records.specs.Record.{record_cmp};
ghost use Rattle.dns_zone.specs.Records.{alike, is_ordered, next_after};
ghost use Rattle.dns_zone.specs.Place.{IsRecordAt, BelongsAt};
ghost use Rattle.dns_zone.specs.Side.{side_of};

use dns_names::NameRef;
use dns_records::Record;
use std::cmp::Ordering;

/// What is looked for.
#[derive(Drop)]
pub(crate) enum Key<'a> {
    /// The records of a name.
    Owner(NameRef<'a>),
    /// Those of a name and a type.
    Type(NameRef<'a>, u16),
    /// The one of equal owner, type and data.
    Data(&'a Record),
    /// The one of that owner, type and data in plain form.
    Parts(NameRef<'a>, u16, &'a [u8]),
}

/// On which side of an owner, a type and data in plain form the record lies. Most records that a search looks
/// at have the owner, so that the order of names is asked for only where the two differ.
fn side_of_parts(r: &Record, owner: &NameRef<'_>, rtype: u16, rdata: &[u8]) -> Ordering
    ensures { result
        ≡ record_cmp r.now (record { owner = owner.now; rtype = rtype; ttl = 0; rdata = rdata.now }) }
{
    let own = r.owner().lend();
    if own.is(owner) {
        return r.rtype().cmp(&rtype).then(r.rdata().cmp(rdata));
    }
    own.cmp(owner)
}

/// On which side of the key the record lies.
fn side(key: &Key<'_>, r: &Record) -> Ordering
    ensures { result ≡ side_of key.now r.now }
{
    match key {
        Key::Owner(name) => r.owner().lend().cmp(name),
        Key::Type(name, rtype) => r.owner().lend().cmp(name).then(r.rtype().cmp(rtype)),
        Key::Data(other) => side_of_parts(r, &other.owner().lend(), other.rtype(), other.rdata()),
        Key::Parts(name, rtype, rdata) => side_of_parts(r, name, *rtype, rdata),
    }
}

/// Whether the record is what is looked for.
fn is_match(key: &Key<'_>, r: &Record) -> bool
    ensures { result ≡ is_eq (side_of key.now r.now) }
{
    match key {
        Key::Owner(name) => r.owner().lend().is(name),
        Key::Type(name, rtype) => r.owner().lend().is(name) & (r.rtype() == *rtype),
        Key::Data(_) => side(key, r).is_eq(),
        Key::Parts(_, _, _) => side(key, r).is_eq(),
    }
}

/// The position that is looked at next: the wished one if it lies between the two, else the middle.
fn place_between(low: usize, high: usize, wished: usize) -> usize
    requires { low < high }
    ensures from { low ≤ result }
    ensures below { result < high }
{
    if low <= wished && wished < high {
        return wished;
    }
    low + (high - low) / 2
}

/// How many records precede what is looked for. A search from a position moves away from it in steps that
/// double, and then by halves; without a position it goes by halves at once.
pub(crate) fn count_before(records: &[Record], key: &Key<'_>, near: Option<usize>) -> usize
    requires { is_ordered records.now ≡ true }
    ensures bound { result ≤ length records.now }
    ensures before { AllWithin (λ r. is_lt (side_of key.now r) ≡ true) records.now 0 result }
    ensures behind { AllWithin (λ r. is_lt (side_of key.now r) ≡ false) records.now result
        (length records.now) }
{
    let mut low = 0;
    let mut high = records.len();
    let mut step = if near.is_some() { 1 } else { high };
    let mut wished = near.unwrap_or(high);
    'places: while low < high {
        let at = place_between(low, high, wished);
        let reach = step;
        step = step.saturating_mul(2);
        if side(key, &records[at]).is_lt() {
            low = at + 1;
            wished = at.saturating_add(reach);
        } else {
            high = at;
            wished = at.wrapping_sub(reach);
        }
    }
    low
}

/// Where the records end that are what is looked for, none of which is before the position. The search moves
/// away from the position in steps that double, and then by halves.
pub(crate) fn end_of_match(records: &[Record], key: &Key<'_>, begin: usize) -> usize
    requires order { is_ordered records.now ≡ true }
    requires inside { begin ≤ length records.now }
    requires behind { AllWithin (λ r. is_lt (side_of key.now r) ≡ false) records.now begin
        (length records.now) }
    ensures from { begin ≤ result }
    ensures bound { result ≤ length records.now }
    ensures here { AllWithin (λ r. is_eq (side_of key.now r) ≡ true) records.now begin result }
    ensures past { AllWithin (λ r. is_eq (side_of key.now r) ≡ false) records.now result
        (length records.now) }
{
    let mut low = begin;
    let mut high = records.len();
    let mut step = 1usize;
    let mut wished = begin;
    'matches: while low < high {
        let at = place_between(low, high, wished);
        let reach = step;
        step = step.saturating_mul(2);
        if is_match(key, &records[at]) {
            low = at + 1;
            wished = at.saturating_add(reach);
        } else {
            high = at;
            wished = at.wrapping_sub(reach);
        }
    }
    low
}

/// The records that are what is looked for, which follow one another. A position near them is where the
/// search begins.
pub(crate) fn matching<'r>(
    records: &'r [Record],
    key: &Key<'_>,
    near: Option<usize>,
) -> &'r [Record]
    requires { is_ordered records.now ≡ true }
    ensures { result.now ≡ filter (λ r. is_eq (side_of key.now r)) records.now }
{
    let begin = count_before(records, key, near);
    &records[begin..end_of_match(records, key, begin)]
}

/// Where the record of equal owner, type and data is among records in order, or where it would go. A position
/// near it, if one is given, is where the search begins, which makes no difference to what it finds.
pub fn find_record(records: &[Record], wanted: &Record, near: Option<usize>) -> Result<usize, usize>
    requires { is_ordered records.now ≡ true }
    ensures found { IfOk result (IsRecordAt wanted.now records.now) }
    ensures absent { IfErr result (BelongsAt wanted.now records.now) }
{
    let key = Key::Data(wanted);
    let at = count_before(records, &key, near);
    if at < records.len() && is_match(&key, &records[at]) {
        return Ok(at);
    }
    Err(at)
}

/// The record of that owner, type and data in plain form, if it is one of these records in order.
pub fn find_parts<'r>(
    records: &'r [Record],
    owner: &NameRef<'_>,
    rtype: u16,
    rdata: &[u8],
) -> Option<&'r Record>
    requires { is_ordered records.now ≡ true }
    ensures { option_copied result
        ≡ find (alike (record { owner = owner.now; rtype = rtype; ttl = 0; rdata = rdata.now })) records.now }
{
    let key = Key::Parts(owner.reborrow(), rtype, rdata);
    let at = count_before(records, &key, None);
    if at < records.len() && is_match(&key, &records[at]) {
        return Some(&records[at]);
    }
    None
}

/// The first record after another.
pub(crate) fn first_behind<'r>(records: &'r [Record], after: &Record) -> Option<&'r Record>
    requires { is_ordered records.now ≡ true }
    ensures { option_copied result ≡ next_after (Some after.now) records.now }
{
    let key = Key::Data(after);
    let begin = count_before(records, &key, None);
    let end = end_of_match(records, &key, begin);
    if end < records.len() {
        return Some(&records[end]);
    }
    None
}
