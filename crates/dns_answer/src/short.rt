//! What goes out for what a question found, in its shortest form.
ghost use Rattle.std.specs.Prelude.{◌≡◌, ℕ, [], ◌∷◌, List, IfOk, IfSome};
ghost use Rattle.dns_zone.specs.Zone.{Zone as StatedZone};
ghost use Rattle.dns_lookup.specs.Lookup.{Found as Stated};
ghost use Rattle.dns_lookup.specs.Represented.{RepresentAll};
ghost use Rattle.dns_lookup.specs.declared.outcome.Kind.TheVariants as kinds;
ghost use Rattle.dns_answer.specs.Found.{IfFound};
ghost use Rattle.dns_answer.specs.Short.{AreSectionsOf, IsShortOf, sections_of};

use crate::found_sections::{answers, searched, start_of_authority};
use crate::with_address::{Pair, pair_of};
use dns_lookup::{Found, Kind};
use dns_memory::Heap;
use dns_records::Record;
use dns_wire::ReplyRecord;
use dns_zone::{Zone, ZoneIndex};
use std::alloc::AllocError;
use std::slice;

/// What goes out for what a question found, in the shortest form that holds it. All but the last need no
/// section of their own: they take no memory, or that of one list.
#[derive(Drop)]
pub(crate) enum Short<'a> {
    /// One record, which is the answer.
    One(ReplyRecord<'a>),
    /// The SOA of a negative reply, in the authority section (RFC 2308 section 3).
    Soa(ReplyRecord<'a>),
    /// One record, and the address of its host.
    Pair(Pair<'a>),
    /// One record of each of several names, in the answer section.
    Each(Vec<ReplyRecord<'a>, Heap>),
    /// Sections that have to be built.
    All,
}

/// The records of the three sections of a reply, lent.
#[derive(Drop)]
pub(crate) struct LentSections<'s, 'a> {
    pub answer: &'s [ReplyRecord<'a>],
    pub authority: &'s [ReplyRecord<'a>],
    pub additional: &'s [ReplyRecord<'a>],
}

impl<'s, 'a> LentSections<'s, 'a> {
    /// No record.
    #[inline(always)]
    pub(crate) fn none() -> LentSections<'s, 'a>
        ensures answer { result.answer.now ≡ [] }
        ensures authority { result.authority.now ≡ [] }
        ensures additional { result.additional.now ≡ [] }
    {
        LentSections {
            answer: &[],
            authority: &[],
            additional: &[],
        }
    }
}

impl<'a> Short<'a> {
    /// The sections that it says, which are empty where they have to be built.
    #[inline(always)]
    pub(crate) fn sections(&self) -> LentSections<'_, 'a>
        ensures answer { result.answer.now ≡ (sections_of self.now).0 }
        ensures authority { result.authority.now ≡ (sections_of self.now).1 }
        ensures additional { result.additional.now ≡ (sections_of self.now).2 }
    {
        let none = LentSections::none();
        match self {
            Short::One(one) => LentSections {
                answer: slice::from_ref(one),
                ..none
            },
            Short::Soa(one) => LentSections {
                authority: slice::from_ref(one),
                ..none
            },
            Short::Pair(Pair::Answer(one, address)) => LentSections {
                answer: slice::from_ref(one),
                additional: slice::from_ref(address),
                ..none
            },
            Short::Pair(Pair::Server(one, address)) => LentSections {
                authority: slice::from_ref(one),
                additional: slice::from_ref(address),
                ..none
            },
            Short::Each(records) => LentSections {
                answer: records.as_slice(),
                ..none
            },
            Short::All => none,
        }
    }
}

/// The record that is all that goes out for a name that was searched: it was asked for, alone, and names no
/// host whose addresses would go with it.
#[inline(always)]
pub(crate) fn lone_answer<'a>(first: &Found<'a>) -> Option<&'a Record>
    ensures answers { IfSome result (λ _. first.now.kind ≡ kinds.Answers) }
    ensures alone { IfSome result
        (λ r. (zones : List StatedZone)
        → IfFound zones (first.now ∷ [])
        (λ t fs. AreSectionsOf t fs (record r.now { owner = first.now.name } ∷ []) [] [])) }
{
    let Kind::Answers = first.kind else {
        return None;
    };
    let [record] = first.records else {
        return None;
    };
    if record.host().is_some() {
        return None;
    }
    Some(record)
}

/// The record that is all that goes out for what was found: that of one name, with no host whose addresses
/// would go with it.
fn only_record<'a>(found: &[Found<'a>]) -> Option<ReplyRecord<'a>>
    ensures { IfSome result
        (λ r. (zones : List StatedZone)
        → IfFound zones found.now (λ t fs. AreSectionsOf t fs (r ∷ []) [] [])) }
{
    let [one] = found else {
        return None;
    };
    let [record] = answers(one) else {
        return None;
    };
    if record.host().is_some() {
        return None;
    }
    Some(ReplyRecord::new(one.name.reborrow(), record.ttl(), record))
}

/// The SOA that is all that goes out for what was found: one name, which has no data or does not exist (RFC
/// 2308 section 2).
pub(crate) fn only_soa<'a, I: ZoneIndex>(
    zones: &'a [Zone<I>],
    found: &[Found<'a>],
) -> Option<ReplyRecord<'a>>
    requires { (fs : List Stated) × RepresentAll zones.now fs found.now }
    ensures { IfSome result
        (λ r. (t : ℕ) (fs : List Stated)
        → RepresentAll zones.now fs found.now
        → AreSectionsOf t fs [] (r ∷ []) []) }
{
    let [one] = found else {
        return None;
    };
    match one.kind {
        Kind::Referral | Kind::Alias | Kind::Answers => None,
        _ => Some(start_of_authority(searched(zones, one))),
    }
}

/// The answer section where nothing else goes out for what was found: one record of each name, with no host
/// whose addresses would go with it. Most aliases lead to such.
pub(crate) fn answers_alone<'a>(
    alloc: Heap,
    found: &[Found<'a>],
) -> Result<Option<Vec<ReplyRecord<'a>, Heap>>, AllocError>
    ensures { IfOk result
        (λ alone. IfSome alone
        (λ shown. (zones : List StatedZone)
        → IfFound zones found.now (λ t fs. AreSectionsOf t fs shown.items [] []))) }
{
    let mut shown = Vec::with_capacity(alloc, found.len())?;
    for one in found {
        let [record] = answers(one) else {
            return Ok(None);
        };
        if record.host().is_some() {
            return Ok(None);
        }
        shown.push(ReplyRecord::new(one.name.reborrow(), record.ttl(), record))?;
    }
    Ok(Some(shown))
}

/// What goes out for what a question found.
#[inline(always)]
pub(crate) fn short_reply<'a, I: ZoneIndex>(
    alloc: Heap,
    zones: &'a [Zone<I>],
    found: &[Found<'a>],
) -> Result<Short<'a>, AllocError>
    requires { (fs : List Stated) × RepresentAll zones.now fs found.now }
    ensures { IfOk result (λ short. IfFound zones.now found.now (λ t fs. IsShortOf t fs short)) }
{
    if let Some(one) = only_soa(zones, found) {
        return Ok(Short::Soa(one));
    }
    if let Some(one) = only_record(found) {
        return Ok(Short::One(one));
    }
    if let Some(pair) = pair_of(zones, found) {
        return Ok(Short::Pair(pair));
    }
    if found.len() < 2 {
        return Ok(Short::All);
    }
    match answers_alone(alloc, found)? {
        Some(records) => Ok(Short::Each(records)),
        None => Ok(Short::All),
    }
}
