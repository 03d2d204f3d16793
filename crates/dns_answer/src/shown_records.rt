//! What is asked of the records that go out.
ghost use Rattle.std.specs.Prelude.{◌≡◌, is_some, OnOk};
ghost use Rattle.std.specs.List.{list_any};
ghost use Rattle.dns_records.specs.Record.{host_of};
ghost use Rattle.dns_zone.specs.Records.{same};
ghost use Rattle.dns_answer.specs.Known.{is_address, AreAmong, AreOwners};

use crate::names::Names;
use dns_records::{Record, types};
use dns_wire::ReplyRecord;
use std::alloc::AllocError;

/// Whether a record that goes out is the record of a zone, its TTL too.
fn is_same(shown: &ReplyRecord<'_>, stored: &Record) -> bool
    ensures { result ≡ same stored.now shown.now }
{
    stored.owner().lend().is(&shown.owner())
        & (stored.rtype() == shown.rtype())
        & (stored.rdata() == shown.rdata())
        & (stored.ttl() == shown.ttl())
}

/// Whether a record goes out already. The position, after the record that was found last, is where it is
/// looked for first.
pub(crate) fn is_among(shown: &[ReplyRecord<'_>], stored: &Record, position: &mut usize) -> bool
    ensures { result ≡ list_any (same stored.now) shown.now }
{
    if *position < shown.len() && is_same(&shown[*position], stored) {
        *position += 1;
        return true;
    }
    for (at, one) in shown.iter().enumerate() {
        if is_same(one, stored) {
            *position = at + 1;
            return true;
        }
    }
    false
}

/// Whether the record is an address.
pub(crate) fn is_address(shown: &ReplyRecord<'_>) -> bool
    ensures { result ≡ is_address shown.now }
{
    shown.rtype() == types::A || shown.rtype() == types::AAAA
}

/// Puts the owners of the addresses in.
pub(crate) fn put_owners<'a>(
    owners: &mut Names<'a>,
    shown: &[ReplyRecord<'a>],
) -> Result<(), AllocError>
    ensures kept { OnOk result (AreAmong owners.old owners.new) }
    ensures owners { OnOk result (AreOwners owners.new shown.now) }
{
    for one in shown {
        if is_address(one) {
            owners.insert(one.owner())?;
        }
    }
    Ok(())
}

/// Whether one of the records is an address.
pub(crate) fn have_address(shown: &[ReplyRecord<'_>]) -> bool
    ensures { result ≡ list_any is_address shown.now }
{
    shown.iter().any(|one| is_address(one))
}

/// Whether one of the records has a host.
pub(crate) fn have_host(records: &[Record]) -> bool
    ensures { result ≡ list_any (λ r. is_some (host_of r)) records.now }
{
    records.iter().any(|r| r.host().is_some())
}
