//! Matching a name in a list of records in order: one search for the name's position shows by its neighbours
//! how much of it exists, and what is above it is found by short searches from there.
ghost use Rattle.std.specs.Prelude.{◌≡◌, ◌≤◌, true, false, not, ◌&&◌, List, length, None, IfSome, IfNone};
ghost use Rattle.dns_names.specs.Name.{Labels, wire, labels_of, wildcard, under, names_eq};
ghost use Rattle.dns_names.specs.Plain.{IsPlain};
ghost use Rattle.dns_records.specs.Record.{Record as Stated};
ghost use Rattle.dns_records.specs.Types.{type_ns};
ghost use Rattle.dns_zone.specs.Records.{is_ordered, records_at, exists, owns_type};
ghost use Rattle.dns_zone.specs.Place.{IsPlaceOf, is_owned_at, is_owned_beside};
ghost use Rattle.dns_zone.specs.Node.{cut, cuts_at, encloser, EndsAtCut, IsMatch};
ghost use Rattle.dns_zone.specs.Uncut.{EndsAtMost};

use crate::search::{Key, count_before, end_of_match, matching};
use crate::{Match, of_type};
use arrayvec::ArrayVec;
use dns_names::NameRef;
use dns_records::{Record, types};

/// Whether the record at the position has an owner at the name or under it.
fn is_owned_at(records: &[Record], position: usize, name: &NameRef<'_>) -> bool
    ensures { result ≡ is_owned_at records.now position name.now }
{
    if position < records.len() {
        return records[position].owner().lend().is_under(name);
    }
    false
}

/// The records that the name owns, which is looked for near a position if one is given.
pub(crate) fn records_near<'s>(
    records: &'s [Record],
    name: &NameRef<'_>,
    near: Option<usize>,
) -> &'s [Record]
    requires { is_ordered records.now ≡ true }
    ensures { result.now ≡ records_at records.now name.now }
{
    matching(records, &Key::Owner(name.reborrow()), near)
}

/// The records that the name owns, where its position is known.
fn records_from<'s>(records: &'s [Record], name: &NameRef<'_>, position: usize) -> &'s [Record]
    requires order { is_ordered records.now ≡ true }
    requires position { IsPlaceOf name.now records.now position }
    ensures { result.now ≡ records_at records.now name.now }
{
    let key = Key::Owner(name.reborrow());
    &records[position..end_of_match(records, &key, position)]
}

/// Whether the name is under the other and is not the other.
fn is_below(name: &NameRef<'_>, other: &NameRef<'_>) -> bool
    ensures { result ≡ (under name.now other.now && not (names_eq name.now other.now)) }
{
    name.is_under(other) & !name.is(other)
}

/// The closest encloser of a name that doesn't exist, by the owners on either side of its position (RFC 4592
/// section 3.3.1).
fn closest_encloser<'n>(records: &[Record], name: &NameRef<'n>, position: usize) -> NameRef<'n>
    requires order { is_ordered records.now ≡ true }
    requires position { IsPlaceOf name.now records.now position }
    ensures { result ≡ encloser records.now name.now }
{
    let mut here = name.reborrow();
    'ancestors: while !is_owned_beside(records, position, &here) {
        match here.parent() {
            Some(above) => here = above,
            None => return here,
        }
    }
    here
}

/// Whether one of the two records on either side of a position has an owner at the name or under it.
fn is_owned_beside(records: &[Record], position: usize, name: &NameRef<'_>) -> bool
    ensures { result ≡ is_owned_beside records.now position name.now }
{
    is_owned_at(records, position, name)
        || (position > 0 && is_owned_at(records, position - 1, name))
}

/// Whether the zone is cut at a name under its apex that owns these records: there is an NS (RFC 1034
/// section 4.2.1).
fn has_servers(owned: &[Record]) -> bool
    ensures { (set : List Stated) (name : Labels)
        → is_ordered set ≡ true
        → owned.now ≡ records_at set name
        → result ≡ owns_type set name type_ns }
{
    !of_type(owned, types::NS).is_empty()
}

/// The cut above the name or at it, and the records that it owns: of all, the one with the fewest labels (RFC
/// 1034 section 4.3.2, step 3b). Each ancestor is looked for near a position.
fn shortest_cut<'n, 's>(
    records: &'s [Record],
    apex: &NameRef<'_>,
    name: &NameRef<'n>,
    near: usize,
) -> Option<(NameRef<'n>, &'s [Record])>
    requires { is_ordered records.now ≡ true }
    ensures found { IfSome result
        (λ found. EndsAtCut (record { apex = apex.now; records = records.now }) name.now
        found.0 found.1.now) }
    ensures none { IfNone result (cut (record { apex = apex.now; records = records.now }) name.now ≡ None) }
{
    let mut shortest = None;
    let mut here = name.reborrow();
    'ancestors: while is_below(&here, apex) {
        let owned = records_near(records, &here, Some(near));
        let above = here.parent();
        if has_servers(owned) {
            shortest = Some((here, owned));
        }
        match above {
            Some(next) => here = next,
            None => return shortest,
        }
    }
    shortest
}

/// The cut above the name, and the records that it owns; without one the name can be a cut itself.
fn cut_above<'n, 's>(
    records: &'s [Record],
    apex: &NameRef<'_>,
    name: &NameRef<'n>,
    near: usize,
) -> Option<(NameRef<'n>, &'s [Record])>
    requires { is_ordered records.now ≡ true }
    ensures found { IfSome result
        (λ found. EndsAtCut (record { apex = apex.now; records = records.now }) name.now
        found.0 found.1.now) }
    ensures none { IfNone result (EndsAtMost (record { apex = apex.now; records = records.now }) name.now) }
{
    match name.parent() {
        Some(above) => shortest_cut(records, apex, &above, near),
        None => None,
    }
}

/// Whether the zone of the apex is cut at a name that owns these records.
fn is_cut(apex: &NameRef<'_>, name: &NameRef<'_>, owned: &[Record]) -> bool
    ensures { (set : List Stated)
        → is_ordered set ≡ true
        → owned.now ≡ records_at set name.now
        → result ≡ cuts_at (record { apex = apex.now; records = set }) name.now }
{
    is_below(name, apex) && has_servers(owned)
}

/// What becomes of a name that exists, by the records that it owns.
fn match_owner<'n, 's>(
    records: &'s [Record],
    apex: &NameRef<'_>,
    name: &NameRef<'n>,
    position: usize,
) -> Match<'n, 's>
    requires order { is_ordered records.now ≡ true }
    requires position { IsPlaceOf name.now records.now position }
    requires there { exists records.now name.now ≡ true }
    ensures { IsMatch (record { apex = apex.now; records = records.now }) name.now result }
{
    if let Some((cut, owned)) = cut_above(records, apex, name, position) {
        return Match::Cut(cut, owned);
    }
    let owned = records_from(records, name, position);
    if is_cut(apex, name, owned) {
        return Match::Cut(name.reborrow(), owned);
    }
    Match::Name(owned)
}

/// The plain form of the label `*` before the name (RFC 4592 section 2.1.1).
fn starred(name: &NameRef<'_>) -> ArrayVec<u8, 255>
    requires { length (wire name.now) ≤ 253 }
    ensures plain { IsPlain result.items }
    ensures labels { labels_of result.items ≡ wildcard name.now }
{
    let mut octets = ArrayVec::new();
    octets.push(1);
    octets.push(b'*');
    octets.try_extend_from_slice(name.as_wire()).unwrap();
    octets
}

/// The records of the wildcard before a name, which is looked for near a position, if it exists.
fn wildcard_near<'s>(
    records: &'s [Record],
    above: &NameRef<'_>,
    near: usize,
) -> Option<&'s [Record]>
    requires order { is_ordered records.now ≡ true }
    requires room { length (wire above.now) ≤ 253 }
    ensures found { IfSome result
        (λ owned. (exists records.now (wildcard above.now) ≡ true)
        × (owned.now ≡ records_at records.now (wildcard above.now))) }
    ensures none { IfNone result (exists records.now (wildcard above.now) ≡ false) }
{
    let octets = starred(above);
    let source = NameRef::over(octets.as_slice());
    let position = count_before(records, &Key::Owner(source.reborrow()), Some(near));
    if is_owned_at(records, position, &source) {
        return Some(records_from(records, &source, position));
    }
    None
}

/// What becomes of a name that doesn't exist, by its closest encloser.
fn match_encloser<'n, 's>(
    records: &'s [Record],
    apex: &NameRef<'_>,
    name: &NameRef<'n>,
    position: usize,
) -> Match<'n, 's>
    requires order { is_ordered records.now ≡ true }
    requires position { IsPlaceOf name.now records.now position }
    requires absent { exists records.now name.now ≡ false }
    ensures { IsMatch (record { apex = apex.now; records = records.now }) name.now result }
{
    // The encloser is another name above it, so that the label has room before it.
    let _valid = name.as_wire();
    let above = closest_encloser(records, name, position);
    if let Some((cut, owned)) = shortest_cut(records, apex, &above, position) {
        return Match::Cut(cut, owned);
    }
    // In the order of names a wildcard comes soon after its encloser, and the apex comes first.
    let near = if above.is(apex) { 0 } else { position };
    match wildcard_near(records, &above, near) {
        Some(owned) => Match::Wildcard(above, owned),
        None => Match::Nothing,
    }
}

/// Whether a record has an owner at the name or under it (RFC 4592 section 2.2.2).
pub(crate) fn exists(records: &[Record], name: &NameRef<'_>) -> bool
    requires { is_ordered records.now ≡ true }
    ensures { result ≡ exists records.now name.now }
{
    let position = count_before(records, &Key::Owner(name.reborrow()), None);
    is_owned_at(records, position, name)
}

/// What the zone of that apex has for a name.
pub(crate) fn find_node<'n, 's>(
    records: &'s [Record],
    apex: &NameRef<'_>,
    name: &NameRef<'n>,
) -> Match<'n, 's>
    requires { is_ordered records.now ≡ true }
    ensures { IsMatch (record { apex = apex.now; records = records.now }) name.now result }
{
    let position = count_before(records, &Key::Owner(name.reborrow()), None);
    if is_owned_at(records, position, name) {
        return match_owner(records, apex, name, position);
    }
    match_encloser(records, apex, name, position)
}
