//! What one name owns.
ghost use Rattle.std.specs.Prelude.{◌≡◌, List, true};
ghost use Rattle.dns_names.specs.Name.{Labels};
ghost use Rattle.dns_records.specs.Record.{Record as Stated};
ghost use Rattle.dns_zone.specs.Records.{is_ordered, owns_type, records_at, rrset};

use crate::ZoneIndex;
use dns_names::NameRef;
use dns_records::Record;

/// Those of a type among the records that a name owns, which are in order of type (RFC 2181 section 5). Most
/// names own one record, which is checked at once.
pub fn of_type(records: &[Record], rtype: u16) -> &[Record]
    ensures { (set : List Stated) (name : Labels)
        → is_ordered set ≡ true
        → records.now ≡ records_at set name
        → result.now ≡ rrset set name rtype }
{
    if let [only] = records {
        return if only.rtype() == rtype { records } else { &[] };
    }
    let from = &records[records.partition_point(|r| r.rtype() < rtype)..];
    &from[..from.partition_point(|r| r.rtype() == rtype)]
}

/// Whether the name owns a record of the type.
pub fn owns_type<I: ZoneIndex>(set: &I, name: &NameRef<'_>, rtype: u16) -> bool
    ensures { result ≡ owns_type (I.records set.now) name.now rtype }
{
    !set.rrset(name, rtype).is_empty()
}
