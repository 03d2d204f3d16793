//! A zone's set with a change made of it: what came is looked at, and not the whole set.
ghost use Rattle.std.specs.Prelude.{◌≡◌, ◌&&◌, ◌==◌, List, None, IfOk, IfErr};
ghost use Rattle.std.specs.List.{list_all};
ghost use Rattle.dns_names.specs.Name.{under};
ghost use Rattle.dns_records.specs.Record.{Record as Stated};
ghost use Rattle.dns_records.specs.Types.{type_ns};
ghost use Rattle.dns_zone.specs.Zone.{IsZone, is_wildcard, zone_fault};
ghost use Rattle.dns_changes.specs.Change.{applied, change_fault};
ghost use Rattle.dns_store.specs.Staying.{has_crowded_alias, may_stand, stays_zone};

use dns_changes::{Change, ChangeError};
use dns_names::{Name, NameRef};
use dns_records::Record;
use dns_records::types::{CNAME, NS, SOA};
use dns_zone::{Zone, ZoneIndex};

// The zone of a set that a change made of a zone's. Where all that came may be there, the rest is not looked
// at again.
pub(crate) fn next_zone<I: ZoneIndex>(
    apex: Name,
    set: I,
    change: &Change,
) -> Result<Zone<I>, ChangeError>
    requires { (before : List Stated) × IsZone (record { apex = apex; records = before })
        × (change_fault change.now before ≡ None) × (I.records set ≡ applied change.now before) }
    ensures found { IfOk result (λ z. (z.records ≡ I.records set) × (z.apex ≡ apex) × IsZone z) }
    ensures refused { IfErr result
        (λ e. (e ≡ ChangeError.BadBytes) × (zone_fault apex (I.records set) ≡ None → ⊥)) }
{
    let _formed = change.removed();
    if stays_zone(&apex, &set, change) {
        return Ok(Zone::of_valid(apex, set));
    }
    match Zone::from_index(apex, set) {
        Ok(zone) => Ok(zone),
        Err(_) => Err(ChangeError::BadBytes),
    }
}

// Whether a zone's set with a change made of it is a zone's, by what came alone. Where it isn't, it may be
// one all the same.
fn stays_zone<I: ZoneIndex>(apex: &Name, set: &I, change: &Change) -> bool
    ensures { result ≡ stays_zone apex.now (I.records set.now) change.now }
{
    let apex = apex.lend();
    let no_soa = set.rrset(&apex, SOA).is_empty();
    let no_ns = set.rrset(&apex, NS).is_empty();
    let is_large = set.len() > 65536;
    let soa_may = may_stand(&apex, set, change.new_soa());
    let others_may = all_may_stand(&apex, set, change.added());
    !no_soa & !no_ns & !is_large & soa_may & others_may
}

fn all_may_stand<I: ZoneIndex>(apex: &NameRef<'_>, set: &I, records: &[Record]) -> bool
    ensures { result ≡ list_all (may_stand apex.now (I.records set.now)) records.now }
{
    records.iter().all(|r| may_stand(apex, set, r))
}

// Whether the record may be where it is in the zone of that apex.
fn may_stand<I: ZoneIndex>(apex: &NameRef<'_>, set: &I, r: &Record) -> bool
    ensures { result ≡ may_stand apex.now (I.records set.now) r.now }
{
    let crowds = has_crowded_alias(set, &r.owner().lend());
    stands_under(r, apex) & !is_wildcard_ns(r) & !crowds
}

// Whether the record has an owner at the name or under it.
fn stands_under(r: &Record, apex: &NameRef<'_>) -> bool
    ensures { result ≡ under r.now.owner apex.now }
{
    r.owner().lend().is_under(apex)
}

// Whether the record is an NS at a wildcard.
fn is_wildcard_ns(r: &Record) -> bool
    ensures { result ≡ (r.now.rtype == type_ns && is_wildcard r.now.owner) }
{
    r.rtype() == NS && r.owner().lend().begins_with_asterisk()
}

// Whether the name owns a CNAME, and more than one record.
fn has_crowded_alias<I: ZoneIndex>(set: &I, name: &NameRef<'_>) -> bool
    ensures { result ≡ has_crowded_alias (I.records set.now) name.now }
{
    let is_shared = set.records_at(name).len() > 1;
    let no_alias = set.rrset(name, CNAME).is_empty();
    is_shared & !no_alias
}
