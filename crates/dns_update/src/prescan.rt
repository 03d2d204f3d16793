//! What of an update section can't be done, whatever the zone contains.
ghost use Rattle.std.specs.Prelude.{◌≡◌};
ghost use Rattle.dns_update.specs.ResourceRecord.{first_fault};
ghost use Rattle.dns_update.specs.Prescan.{addition_fault, deletion_fault, prescan_fault, set_deletion_fault};

use crate::item::ResourceRecord;
use dns_names::Name;
use dns_records::is_data_type;
use dns_records::types::{ANY, CLASS_ANY, CLASS_IN, CLASS_NONE, NS};
use dns_wire::Rcode;

/// What fails a record that is to be added.
fn addition_fault(item: &ResourceRecord) -> Option<Rcode>
    ensures { result ≡ addition_fault item.now }
{
    let empty = item.is_of_known_type() && item.is_empty();
    if item.rtype() == ANY || item.is_of_meta_type() || empty {
        return Some(Rcode::FormErr);
    }
    let wildcard_ns = item.rtype() == NS && item.owner().lend().begins_with_asterisk();
    if !is_data_type(item.rtype()) || item.rdata().len() > 4096 || wildcard_ns {
        return Some(Rcode::Refused);
    }
    None
}

/// What fails the deletion of an RRset, or of all records of a name.
fn set_deletion_fault(item: &ResourceRecord) -> Option<Rcode>
    ensures { result ≡ set_deletion_fault item.now }
{
    if item.ttl() != 0 || !item.is_empty() || item.is_of_meta_type() {
        return Some(Rcode::FormErr);
    }
    None
}

/// What fails the deletion of one record.
fn deletion_fault(item: &ResourceRecord) -> Option<Rcode>
    ensures { result ≡ deletion_fault item.now }
{
    let empty = item.is_of_known_type() && item.is_empty();
    if item.ttl() != 0 || item.rtype() == ANY || item.is_of_meta_type() || empty {
        return Some(Rcode::FormErr);
    }
    None
}

/// What fails an item of the update section (RFC 2136 section 3.4.1).
fn prescan_fault(apex: &Name, item: &ResourceRecord) -> Option<Rcode>
    ensures { result ≡ prescan_fault apex.now item.now }
{
    if !item.is_in_zone(apex) {
        return Some(Rcode::NotZone);
    }
    match item.class() {
        CLASS_IN => addition_fault(item),
        CLASS_ANY => set_deletion_fault(item),
        CLASS_NONE => deletion_fault(item),
        _ => Some(Rcode::FormErr),
    }
}

/// What fails the first item of the update section that fails.
pub(crate) fn prescan(apex: &Name, items: &[ResourceRecord]) -> Option<Rcode>
    ensures { result ≡ first_fault (prescan_fault apex.now) items.now }
{
    for item in items {
        let fault = prescan_fault(apex, item);
        if fault.is_some() {
            return fault;
        }
    }
    None
}
