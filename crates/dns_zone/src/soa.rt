//! The one SOA of a zone.
ghost use Rattle.std.specs.Prelude.{◌≡◌, [], ◌∷◌};
ghost use Rattle.dns_records.specs.Types.{type_soa};
ghost use Rattle.dns_zone.specs.Soa.{HasSoa};
ghost use Rattle.dns_zone.specs.Zone.{soas};

use crate::{Zone, ZoneIndex};
use dns_names::NameRef;
use dns_records::Record;
use dns_records::types::SOA;

/// The SOA of a set that has one, at that apex (RFC 1035 section 5.2).
pub fn soa_of<'s, I: ZoneIndex>(set: &'s I, apex: &NameRef<'_>) -> &'s Record
    requires { HasSoa apex.now (I.records set.now) }
    ensures one { soas (I.records set.now) ≡ result.now ∷ [] }
    ensures soa { result.now.rtype ≡ type_soa }
{
    &set.rrset(apex, SOA)[0]
}

impl<I: ZoneIndex> Zone<I> {
    /// The SOA of the zone (RFC 1035 section 5.2).
    pub fn soa(&self) -> &Record
        ensures one { soas self.now.records ≡ result.now ∷ [] }
        ensures soa { result.now.rtype ≡ type_soa }
    {
        soa_of(self.index(), &self.apex().lend())
    }
}
