//! The form of a change: which of its records are SOAs, the order of the others, and that none goes and
//! comes.
ghost use Rattle.std.specs.Prelude.{◌≡◌, true};
ghost use Rattle.std.specs.List.{list_any};
ghost use Rattle.dns_zone.specs.Records.{contains, is_ordered};
ghost use Rattle.dns_changes.specs.Change.{is_formed, is_soa};

use crate::change::is_among;
use dns_records::Record;
use dns_records::types::SOA;
use dns_zone::rises;

/// Whether the record is a SOA.
fn is_soa(r: &Record) -> bool
    ensures { result ≡ is_soa r.now }
{
    r.rtype() == SOA
}

/// Whether one of the records is a SOA.
fn has_soa(records: &[Record]) -> bool
    ensures { result ≡ list_any is_soa records.now }
{
    records.iter().any(|r| is_soa(r))
}

/// Whether one of the records that come is among those that go, which are in order.
fn has_both(removed: &[Record], added: &[Record]) -> bool
    requires { is_ordered removed.now ≡ true }
    ensures { result ≡ list_any (contains removed.now) added.now }
{
    let mut near = 0;
    for record in added {
        if is_among(removed, record, &mut near) {
            return true;
        }
    }
    false
}

/// Whether the two SOAs alone are SOAs, each list is in order, and no record goes and comes.
pub(crate) fn is_formed(
    old_soa: &Record,
    removed: &[Record],
    new_soa: &Record,
    added: &[Record],
) -> bool
    ensures { result
        ≡ is_formed
        (record { old_soa = old_soa.now; removed = removed.now; new_soa = new_soa.now; added = added.now }) }
{
    let soas = is_soa(old_soa) & is_soa(new_soa);
    let others = soas & !has_soa(removed) & !has_soa(added);
    if !(others & rises(removed) & rises(added)) {
        return false;
    }
    !has_both(removed, added)
}
