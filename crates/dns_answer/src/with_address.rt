//! Replies of one record and the one address of its host, which take no memory but for their octets: most
//! referrals, and most replies for an MX.
ghost use Rattle.std.specs.Prelude.{◌≡◌, true, [], ◌∷◌, ◌++◌, List, IfSome};
ghost use Rattle.dns_records.specs.Types.{type_a, type_aaaa};
ghost use Rattle.dns_zone.specs.Records.{rrset};
ghost use Rattle.dns_lookup.specs.Lookup.{Found as Stated};
ghost use Rattle.dns_lookup.specs.Represented.{RepresentAll};
ghost use Rattle.dns_answer.specs.Found.{IfFound};
ghost use Rattle.dns_answer.specs.Known.{is_address};
ghost use Rattle.dns_answer.specs.Short.{AreThePair};

use crate::found_sections::searched;
use crate::shown_records::is_address;
use dns_lookup::{Found, Kind};
use dns_names::NameRef;
use dns_wire::ReplyRecord;
use dns_zone::{Zone, ZoneIndex};

/// A record and the address that goes with it.
#[derive(Drop)]
pub(crate) enum Pair<'a> {
    /// The record is the answer.
    Answer(ReplyRecord<'a>, ReplyRecord<'a>),
    /// The record is the name server of a cut, in the authority section.
    Server(ReplyRecord<'a>, ReplyRecord<'a>),
}

/// The address of a host that owns nothing else.
fn only_address<'a, I: ZoneIndex>(zone: &'a Zone<I>, host: &NameRef<'_>) -> Option<ReplyRecord<'a>>
    ensures all { IfSome result
        (λ a. rrset zone.now.records host.now type_a ++ rrset zone.now.records host.now type_aaaa ≡ a ∷ []) }
    ensures kind { IfSome result (λ a. is_address a ≡ true) }
{
    let [stored] = zone.index().records_at(host) else {
        return None;
    };
    let shown = ReplyRecord::new(stored.owner().lend(), stored.ttl(), stored);
    if is_address(&shown) {
        return Some(shown);
    }
    None
}

/// The two records that are all that goes out for what was found: that of one name or of the cut above it,
/// and the address of its host.
pub(crate) fn pair_of<'a, I: ZoneIndex>(
    zones: &'a [Zone<I>],
    found: &[Found<'a>],
) -> Option<Pair<'a>>
    requires { (fs : List Stated) × RepresentAll zones.now fs found.now }
    ensures { IfSome result
        (λ two. IfFound zones.now found.now (λ t fs. AreThePair t fs two)) }
{
    let [one] = found else {
        return None;
    };
    let [stored] = one.records else {
        return None;
    };
    let host = stored.host()?;
    match one.kind {
        Kind::Answers => {
            let address = only_address(searched(zones, one), &host)?;
            let shown = ReplyRecord::new(one.name.reborrow(), stored.ttl(), stored);
            Some(Pair::Answer(shown, address))
        }
        Kind::Referral => {
            let address = only_address(searched(zones, one), &host)?;
            let shown = ReplyRecord::new(stored.owner().lend(), stored.ttl(), stored);
            Some(Pair::Server(shown, address))
        }
        Kind::Alias | Kind::NoData | Kind::NameError => None,
    }
}
