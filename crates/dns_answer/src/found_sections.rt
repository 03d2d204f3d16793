//! What each name that was found puts into the answer section and the authority section of a reply.
ghost use Rattle.std.specs.Prelude.{◌≡◌, ℕ, ◌<◌, ◌≤◌, [], ◌∷◌, ◌++◌, List, length, IfOk, OnOk};
ghost use Rattle.std.specs.List.{flat_map};
ghost use Rattle.dns_records.specs.Types.{type_soa};
ghost use Rattle.dns_zone.specs.Zone.{Zone as Lent, soas};
ghost use Rattle.dns_lookup.specs.Lookup.{Found as Stated};
ghost use Rattle.dns_lookup.specs.Represented.{Represents, RepresentAll};
ghost use Rattle.dns_lookup.specs.Lent.{Lends};
ghost use Rattle.dns_answer.specs.Found.{IfFound};
ghost use Rattle.dns_answer.specs.Sections.{from_zone, as_owner, records_of, answers_of, answer_of};
ghost use Rattle.dns_answer.specs.Sections.{negative_soa, authority_at, authority_of, addresses_for};

use crate::section::Section;
use dns_lookup::{Found, Kind};
use dns_memory::Heap;
use dns_names::NameRef;
use dns_records::{Record, types};
use dns_wire::ReplyRecord;
use dns_zone::{Zone, ZoneIndex};
use std::alloc::AllocError;

/// The zone that was searched for a name.
pub(crate) fn searched<'a, I: ZoneIndex>(zones: &'a [Zone<I>], one: &Found<'_>) -> &'a Zone<I>
    requires { one.now.zone < length zones.now }
    ensures { (f : Stated) → Represents zones.now f one.now → result.now ≡ f.zone }
{
    &zones[one.zone]
}

/// The records that a name puts into the answer section: its CNAME, or those that were asked for (RFC 1034
/// section 4.3.2, step 3a).
pub(crate) fn answers<'a>(one: &Found<'a>) -> &'a [Record]
    ensures { (zones : List Lent) (t : ℕ) (f : Stated)
        → Represents zones f one.now
        → Lends zones t one.now
        → answers_of t f ≡ from_zone f.zone (as_owner f.name result.now) }
{
    match one.kind {
        Kind::Alias | Kind::Answers => one.records,
        Kind::Referral | Kind::NoData | Kind::NameError => &[],
    }
}

/// The name servers that the last name puts into the authority section: those of a cut (RFC 1034
/// section 4.3.2, step 3b).
pub(crate) fn servers<'a>(last: &Found<'a>) -> &'a [Record]
    ensures few { (zones : List Lent) (t : ℕ) (f : Stated)
        → Represents zones f last.now
        → Lends zones t last.now
        → length result.now ≤ length (records_of (authority_at f)) }
    ensures hosts { (zones : List Lent) (t : ℕ) (f : Stated)
        → Represents zones f last.now
        → Lends zones t last.now
        → flat_map addresses_for (authority_at f) ≡ flat_map addresses_for (from_zone f.zone result.now) }
{
    match last.kind {
        Kind::Referral => last.records,
        _ => &[],
    }
}

/// How many records the answer section has.
pub(crate) fn answer_count(found: &[Found<'_>]) -> usize
    ensures { (zones : List Lent)
        → IfFound zones found.now (λ t fs. result ≤ length (records_of (answer_of t fs))) }
{
    let mut count = 0usize;
    for one in found {
        count = count.saturating_add(answers(one).len());
    }
    count
}

/// How many name servers the authority section has.
pub(crate) fn server_count(found: &[Found<'_>]) -> usize
    ensures { (zones : List Lent)
        → IfFound zones found.now (λ t fs. result ≤ length (records_of (authority_of fs))) }
{
    match found.last() {
        Some(last) => servers(last).len(),
        None => 0,
    }
}

/// Appends records of a zone to others, with the name that was asked as their owner (RFC 1034 section 4.3.2,
/// step 3c).
fn put_under<'a, 'b: 'a>(
    shown: &mut Section<'a>,
    name: &NameRef<'b>,
    records: &'b [Record],
) -> Result<(), AllocError>
    ensures { OnOk result (shown.new.items ≡ shown.old.items ++ as_owner name.now records.now) }
{
    for record in records {
        shown.push(ReplyRecord::new(name.reborrow(), record.ttl(), record))?;
    }
    Ok(())
}

/// The answer section: what each name that was searched puts into it.
pub(crate) fn answer_section<'a>(
    alloc: Heap,
    found: &[Found<'a>],
) -> Result<Section<'a>, AllocError>
    ensures { IfOk result
        (λ shown. (zones : List Lent)
        → IfFound zones found.now (λ t fs. shown.items ≡ records_of (answer_of t fs))) }
{
    let mut shown = Section::with_capacity(alloc, answer_count(found))?;
    for one in found {
        put_under(&mut shown, &one.name, answers(one))?;
    }
    Ok(shown)
}

/// Records as they are stored in their zone.
fn as_they_are<'a>(alloc: Heap, records: &'a [Record]) -> Result<Section<'a>, AllocError>
    ensures { IfOk result (λ shown. shown.items ≡ records.now) }
{
    let mut shown = Section::with_capacity(alloc, records.len())?;
    for record in records {
        shown.push(ReplyRecord::new(record.owner().lend(), record.ttl(), record))?;
    }
    Ok(shown)
}

/// The SOA of a zone. In the order of records the apex comes first, so that no name is searched where the set
/// lends the records of the apex in one piece.
fn soa<'a, I: ZoneIndex>(zone: &'a Zone<I>) -> &'a Record
    ensures one { soas zone.now.records ≡ result.now ∷ [] }
    ensures soa { result.now.rtype ≡ type_soa }
{
    let _valid = zone.apex();
    let first = zone.index().run_from(0);
    let position = first.partition_point(|r| r.rtype() < types::SOA);
    match first.get(position) {
        Some(record) if record.rtype() == types::SOA => record,
        _ => zone.soa(),
    }
}

/// The SOA of a negative reply, whose TTL is the lesser of its own and MINIMUM (RFC 2308 section 3).
pub(crate) fn start_of_authority<'a, I: ZoneIndex>(zone: &'a Zone<I>) -> ReplyRecord<'a>
    ensures { negative_soa zone.now ≡ result ∷ [] }
{
    let record = soa(zone);
    let ttl = record.ttl().min(record.minimum());
    ReplyRecord::new(record.owner().lend(), ttl, record)
}

/// The authority section, which goes by the last name: the NS of a cut, or the SOA of a negative reply
/// (RFC 1034 section 4.3.2, step 3b; RFC 2308 section 2).
pub(crate) fn authority_section<'a, I: ZoneIndex>(
    alloc: Heap,
    zones: &'a [Zone<I>],
    last: &Found<'a>,
) -> Result<Section<'a>, AllocError>
    requires { last.now.zone < length zones.now }
    ensures { IfOk result
        (λ shown. (t : ℕ) (f : Stated)
        → Represents zones.now f last.now
        → Lends zones.now t last.now
        → shown.items ≡ records_of (authority_at f)) }
{
    let zone = &zones[last.zone];
    match last.kind {
        Kind::Referral => as_they_are(alloc, last.records),
        Kind::Alias | Kind::Answers => Ok(Section::new(alloc)),
        _ => Ok(Section::of_one(alloc, start_of_authority(zone))),
    }
}

/// The authority section by the last of the names that were searched.
pub(crate) fn last_authority<'a, I: ZoneIndex>(
    alloc: Heap,
    zones: &'a [Zone<I>],
    found: &[Found<'a>],
) -> Result<Section<'a>, AllocError>
    requires { (fs : List Stated) × RepresentAll zones.now fs found.now }
    ensures { IfOk result
        (λ shown. IfFound zones.now found.now (λ t fs. shown.items ≡ records_of (authority_of fs))) }
{
    match found.last() {
        Some(last) => authority_section(alloc, zones, last),
        None => Ok(Section::new(alloc)),
    }
}
