//! All that a question finds, from alias to alias.
ghost use Rattle.std.specs.Prelude.{◌≡◌, ℕ, List, ◌<◌, ◌≤◌, false, None, Some, [], ◌∷◌, ◌++◌, length};
ghost use Rattle.std.specs.Prelude.{vec_len, IfOk, IfSome, IfNone};
ghost use Rattle.std.specs.List.{list_any};
ghost use Rattle.dns_names.specs.Name.{Labels, names_eq};
ghost use Rattle.dns_records.specs.Types.{type_cname};
ghost use Rattle.dns_zone.specs.Zone.{Zone as Lent};
ghost use Rattle.dns_zone.specs.Records.{rrset, owns_type};
ghost use Rattle.dns_lookup.specs.Lookup.{Found as Stated, outcome, zone_of, alias_at, next_name, chain};
ghost use Rattle.dns_lookup.specs.Lookup.{resolve};
ghost use Rattle.dns_lookup.specs.Represented.{Represents, RepresentAll, names_searched, all_searched};
ghost use Rattle.dns_lookup.specs.Lent.{Lends, AllLend, IsFirst};

use crate::node::Node;
use crate::outcome::{Kind, outcome};
use crate::zones::closest_zone;
use dns_memory::Heap;
use dns_names::NameRef;
use dns_records::Record;
use dns_zone::{Zone, ZoneIndex};
use std::alloc::AllocError;
use std::slice;

/// One name that was searched.
#[derive(Drop)]
pub struct Found<'a> {
    /// The index of the zone that was searched.
    pub zone: usize,
    /// The name: that of the question, or the target of the alias before.
    pub name: NameRef<'a>,
    /// The cut of a referral, or the node that answers; of a name error, the name itself.
    pub node: Node<'a>,
    /// What became of it.
    pub kind: Kind,
    /// The records that it finds at the node: the NS of a cut, the CNAME of an alias, those that were asked
    /// for, or none.
    pub records: &'a [Record],
}

/// The names that were searched, one after the other. One alone is stored in place, and takes no memory.
#[derive(Drop)]
pub enum Outcome<'a> {
    /// That of the question alone.
    One(Found<'a>),
    /// That of the question, which is an alias, and those after it.
    Chain(Vec<Found<'a>, Heap>),
}

impl<'a> Outcome<'a> {
    /// The names in the order in which they were searched.
    pub fn as_slice(&self) -> &[Found<'a>]
        ensures { result.now ≡ all_searched self.now }
    {
        match self {
            Outcome::One(found) => slice::from_ref(found),
            Outcome::Chain(found) => found.as_slice(),
        }
    }
}

/// At most so many names are searched.
const MOST: usize = 8;

/// What the name finds in the closest zone, if it is under an apex.
#[inline(always)]
pub fn search<'a, I: ZoneIndex>(
    zones: &'a [Zone<I>],
    name: NameRef<'a>,
    qtype: u16,
) -> Option<Found<'a>>
    ensures found { IfSome result
        (λ f. (z : Lent)
        × (zone_of zones.now name.entry ≡ Some z)
        × Represents zones.now
        (record { zone = z; name = name.entry; outcome = outcome z name.entry qtype }) f) }
    ensures lent { IfSome result (Lends zones.now qtype) }
    ensures none { IfNone result (zone_of zones.now name.entry ≡ None) }
{
    let zone = closest_zone(zones, &name)?;
    let (kind, node, records) = outcome(&zones[zone], &name, qtype);
    Some(Found {
        zone,
        name,
        node,
        kind,
        records,
    })
}

/// The target of an alias by its CNAME.
fn target<'a>(aliases: &'a [Record]) -> Option<NameRef<'a>>
    ensures found { IfSome result
        (λ name. (z : Lent) (node : Labels) → aliases.now ≡ rrset z.records node type_cname
        → name ≡ alias_at z node) }
    ensures none { IfNone result
        ((z : Lent) (node : Labels)
        → aliases.now ≡ rrset z.records node type_cname
        → owns_type z.records node type_cname ≡ false) }
{
    aliases.first()?.data().as_name()
}

/// Whether the name was searched.
fn is_among(found: &[Found<'_>], name: &NameRef<'_>) -> bool
    ensures { result ≡ list_any (names_eq name.now) (names_searched found.now) }
{
    for one in found {
        if name.is(&one.name) {
            return true;
        }
    }
    false
}

/// The name that is searched next: the target of an alias, unless it was searched before.
fn next_name<'a>(last: &Found<'a>, before: &[Found<'a>]) -> Option<NameRef<'a>>
    ensures { (zones : List Lent) (f : Stated) (t : ℕ)
        → Represents zones f last.now
        → Lends zones t last.now
        → f.outcome ≡ outcome f.zone f.name t
        → result ≡ next_name f (names_searched before.now ++ last.now.name ∷ []) }
{
    let Kind::Alias = last.kind else {
        return None;
    };
    let next = target(last.records)?;
    if next.is(&last.name) | is_among(before, &next) {
        return None;
    }
    Some(next)
}

/// What a question finds whose name is an alias: that name, and then the target of each alias from this one
/// on. It is compiled apart, so that other names don't pay for it.
#[inline(never)]
fn follow<'a, I: ZoneIndex>(
    alloc: Heap,
    zones: &'a [Zone<I>],
    first: Found<'a>,
    target: NameRef<'a>,
    qtype: u16,
) -> Result<Vec<Found<'a>, Heap>, AllocError>
    ensures represents { IfOk result
        (λ found. (f : Stated)
        → Represents zones.now f first.entry
        → RepresentAll zones.now (f ∷ chain 7 zones.now (f.name ∷ []) target.entry qtype) found.items) }
    ensures lent { IfOk result
        (λ found. Lends zones.now qtype first.entry → AllLend zones.now qtype found.items) }
    ensures most { IfOk result (λ found. vec_len found ≤ 8) }
{
    let mut found: Vec<Found<'a>, Heap> = Vec::with_capacity(alloc, MOST)?;
    found.push(first)?;
    let mut here = target;
    'names: while found.len() < MOST {
        let Some(one) = search(zones, here, qtype) else {
            return Ok(found);
        };
        let next = next_name(&one, found.as_slice());
        found.push(one)?;
        match next {
            Some(name) => here = name,
            None => return Ok(found),
        }
    }
    Ok(found)
}

/// What a question finds whose name was searched: that name, and then the target of each alias, each in the
/// closest zone (RFC 1034 section 4.3.2). The list ends after a name that is no alias, before a target that
/// was searched already, before a name under no apex, and after eight names. Memory is taken for the list
/// alone, and only if the question's name is an alias.
#[inline(always)]
pub fn resolve<'a, I: ZoneIndex>(
    alloc: Heap,
    zones: &'a [Zone<I>],
    first: Found<'a>,
    qtype: u16,
) -> Result<Outcome<'a>, AllocError>
    requires { IsFirst zones.now qtype first }
    ensures represents { IfOk result
        (λ found. RepresentAll zones.now (resolve zones.now first.entry.name qtype) (all_searched found)) }
    ensures lent { IfOk result (λ found. AllLend zones.now qtype (all_searched found)) }
    ensures most { IfOk result (λ found. length (all_searched found) ≤ 8) }
{
    let Some(target) = next_name(&first, &[]) else {
        return Ok(Outcome::One(first));
    };
    let found = follow(alloc, zones, first, target, qtype)?;
    Ok(Outcome::Chain(found))
}
