//! The response code and the bit AA of the reply to a lookup.
ghost use Rattle.std.specs.Prelude.{◌≡◌, List, if◌then◌else◌};
ghost use Rattle.dns_zone.specs.Zone.{Zone as Lent};
ghost use Rattle.dns_lookup.specs.Lookup.{Found as Stated};
ghost use Rattle.dns_lookup.specs.Represented.{RepresentAll};
ghost use Rattle.dns_wire.specs.Codes.{number_of_rcode};
ghost use Rattle.dns_request.specs.Codes.{rcode_nxdomain};
ghost use Rattle.dns_answer.specs.Sections.{is_name_error, is_authoritative};

use dns_lookup::{Found, Kind};
use dns_wire::Rcode;

/// Whether the last of the names that were searched does not exist (RFC 1035 section 4.1.1, RFC 2308
/// section 2.1).
fn is_name_error(found: &[Found<'_>]) -> bool
    ensures { (zones : List Lent) (fs : List Stated) → RepresentAll zones fs found.now
        → result ≡ is_name_error fs }
{
    let Some(last) = found.last() else {
        return false;
    };
    match last.kind {
        Kind::NameError => true,
        _ => false,
    }
}

/// Whether the answer is authoritative: the first name led to no referral (RFC 1034 section 4.3.2, step 3b).
pub(crate) fn is_authoritative(found: &[Found<'_>]) -> bool
    ensures { (zones : List Lent) (fs : List Stated) → RepresentAll zones fs found.now
        → result ≡ is_authoritative fs }
{
    let Some(first) = found.first() else {
        return false;
    };
    match first.kind {
        Kind::Referral => false,
        _ => true,
    }
}

/// The response code of the reply to what was found.
pub(crate) fn rcode_of(found: &[Found<'_>]) -> Rcode
    ensures { (zones : List Lent) (fs : List Stated)
        → RepresentAll zones fs found.now
        → number_of_rcode result ≡ (if is_name_error fs then rcode_nxdomain else 0) }
{
    if is_name_error(found) {
        return Rcode::NxDomain;
    }
    Rcode::NoError
}
