//! What is tested of an update before it is judged (RFC 2136 sections 3.1 and 3.3).
ghost use Rattle.std.specs.Prelude.{◌≡◌, ◌↔◌, ◌<◌, ℕ, List, length, Any, Some, IfOk, IfSome, IsTrue};
ghost use Rattle.std.specs.List.{position};
ghost use Rattle.dns_names.specs.Name.{names_eq};
ghost use Rattle.dns_zone.specs.Zone.{Zone as Stated};
ghost use Rattle.dns_versions.specs.Each.{Each2};
ghost use Rattle.dns_versions.specs.Held.{HasVersions};
ghost use Rattle.dns_primary.specs.Machine.{IsListed, Machine, ZoneState, kept_of};
ghost use Rattle.dns_primary.specs.Update.{Asked, admission, admission_in};
ghost use Rattle.dns_primary.specs.Keeps.{HaveVersions, IsInList, IsKept, IsSet, admission_shown};
ghost use Rattle.dns_primary.specs.Keeps.{admission_of_test};

use crate::{Primary, ZoneSpec};
use dns_names::{Name, NameRef};
use dns_policy::allows;
use dns_records::types::{CLASS_IN, SOA};
use dns_store::ZoneStore;
use dns_versions::ZoneVersions;
use dns_wire::{QuestionView, Rcode};
use dns_zone::{Zone, ZoneIndex};
use std::net::IpAddr;

/// Whether the zone has that apex.
fn has_apex<I: ZoneIndex>(zone: &Zone<I>, apex: &NameRef<'_>) -> bool
    ensures { result ≡ names_eq zone.now.apex apex.now }
{
    zone.apex().lend().is(apex)
}

/// The position of the first zone of that apex.
pub(crate) fn place_of<I: ZoneIndex>(zones: &[Zone<I>], apex: &NameRef<'_>) -> Option<usize>
    ensures index { result ≡ position (λ z. names_eq z.apex apex.now) zones.now }
    ensures inside { IfSome result (λ index. index < length zones.now) }
{
    zones.iter().position(|zone| has_apex(zone, apex))
}

/// Whether a zone may be updated from that address now: REFUSED for an address that its list doesn't allow,
/// then SERVFAIL where it is closed.
fn admit_in<I: ZoneIndex, S: ZoneStore>(
    pending: &ZoneVersions<I, S>,
    settings: &ZoneSpec,
    address: IpAddr,
) -> Result<(), Rcode>
    ensures { (index : ℕ) (zone : Stated) (z : ZoneState)
        → HasVersions S.keeps zone pending.now (kept_of z)
        → IsSet settings.now z
        → admission_of_test index z result ≡ admission_in address index (Some z) }
{
    if !allows(&settings.update, address) {
        return Err(Rcode::Refused);
    }
    if pending.store.is_closed() {
        return Err(Rcode::ServFail);
    }
    Ok(())
}

/// The position of the zone that an update is for, where it is to be judged: the tests are made in their
/// order, and the first that applies decides.
///
/// - The type of the zone that is named is not SOA: FORMERR.
/// - Its class is not IN, or its name is the apex of no zone here: NOTAUTH.
/// - The address is not one from which it may be updated: REFUSED.
/// - It is closed: SERVFAIL.
pub(crate) fn admit<I: ZoneIndex, S: ZoneStore>(
    zones: &[Zone<I>],
    pending: &[ZoneVersions<I, S>],
    settings: &[ZoneSpec],
    question: &QuestionView<'_>,
    name: &Name,
    address: IpAddr,
) -> Result<usize, Rcode>
    requires as_many { length zones.now ≡ length pending.now }
    requires settled { length zones.now ≡ length settings.now }
    requires name { name.now ≡ question.now.name }
    ensures admission { (states : List ZoneState) (a : Asked)
        → HaveVersions S.keeps zones.now pending.now states
        → Each2 IsSet settings.now states
        → a.zone ≡ question.now
        → a.address ≡ address
        → admission_shown states result ≡ admission states a }
    ensures inside { IfOk result (λ index. index < length zones.now) }
{
    if question.qtype() != SOA {
        return Err(Rcode::FormErr);
    }
    if question.qclass() != CLASS_IN {
        return Err(Rcode::NotAuth);
    }
    match place_of(zones, &name.lend()) {
        None => Err(Rcode::NotAuth),
        Some(index) => match admit_in(&pending[index], &settings[index], address) {
            Ok(()) => Ok(index),
            Err(rcode) => Err(rcode),
        },
    }
}

/// Whether one of the lists that are configured of a zone allows the address.
#[tactic(auto, unfolding(crate::specs::Keeps::IsInList))]
fn is_in_list(settings: &ZoneSpec, address: IpAddr) -> bool
    ensures { IsTrue result ↔ IsInList settings.now address }
{
    allows(&settings.update, address) || allows(&settings.transfer, address)
}

/// Whether one of the lists that are configured of these zones does.
fn are_listing(settings: &[ZoneSpec], address: IpAddr) -> bool
    ensures { IsTrue result ↔ Any (λ s. IsInList s address) settings.now }
{
    settings.iter().any(|one| is_in_list(one, address))
}

impl<I: ZoneIndex, S: ZoneStore> Primary<I, S> {
    /// Whether some zone may be updated or transferred from the address.
    pub fn lists(&self, address: IpAddr) -> bool
        ensures { (m : Machine) → IsKept self.now m → IsTrue result ↔ IsListed m address }
    {
        are_listing(&self.settings, address)
    }
}
