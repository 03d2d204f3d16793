//! What becomes of one name in one zone.
ghost use Rattle.std.specs.Prelude.{◌≡◌, true, List};
ghost use Rattle.dns_names.specs.Name.{Labels};
ghost use Rattle.dns_records.specs.Record.{Record as Stated};
ghost use Rattle.dns_zone.specs.Records.{is_ordered, records_at};
ghost use Rattle.dns_lookup.specs.Lookup.{asked_records, at_node, outcome};
ghost use Rattle.dns_lookup.specs.Represented.{IsKind};
ghost use Rattle.dns_lookup.specs.Lent.{records_found};

use crate::node::Node;
use dns_names::NameRef;
use dns_records::{Record, types};
use dns_zone::{Match, Zone, ZoneIndex, of_type};

/// What became of a name that was searched (RFC 1034 section 4.3.2, step 3).
#[derive(Clone, Copy, Debug, PartialEq, Eq)]
pub enum Kind {
    /// The zone is cut above the name or at it: other servers answer.
    Referral,
    /// The node owns a CNAME, and neither it nor all types were asked for.
    Alias,
    /// The node owns records that were asked for.
    Answers,
    /// The node exists, and owns none that was asked for.
    NoData,
    /// Neither the name nor a wildcard for it exists.
    NameError,
}

/// The records that a type asks for among those of a node: all, or those of the type (RFC 1034 section 4.3.2,
/// step 3a; RFC 1035 section 3.2.3).
fn asked(owned: &[Record], qtype: u16) -> &[Record]
    ensures { (set : List Stated) (node : Labels)
        → is_ordered set ≡ true
        → owned.now ≡ records_at set node
        → result.now ≡ asked_records set node qtype }
{
    if qtype == types::ANY {
        return owned;
    }
    of_type(owned, qtype)
}

/// What becomes of a name for which a node answers that owns these records, and those that the name finds
/// (RFC 1034 section 4.3.2, step 3a).
#[inline(always)]
fn kind_by(owned: &[Record], qtype: u16) -> (Kind, &[Record])
    ensures { (set : List Stated) (node name : Labels)
        → is_ordered set ≡ true
        → owned.now ≡ records_at set node
        → IsKind (at_node set node qtype) name result.0 node
        × (result.1.now ≡ records_found set result.0 node qtype) }
{
    let aliases = of_type(owned, types::CNAME);
    if !aliases.is_empty() & (qtype != types::CNAME) & (qtype != types::ANY) {
        return (Kind::Alias, aliases);
    }
    let found = asked(owned, qtype);
    if found.is_empty() {
        return (Kind::NoData, &[]);
    }
    (Kind::Answers, found)
}

/// What becomes of the name, the cut or the node that answers, and the records that the name finds there; of
/// a name error, the name itself and none.
#[inline(always)]
pub(crate) fn outcome<'a, I: ZoneIndex>(
    zone: &'a Zone<I>,
    name: &NameRef<'a>,
    qtype: u16,
) -> (Kind, Node<'a>, &'a [Record])
    ensures represents { IsKind (outcome zone.now name.now qtype) name.now result.0 result.1 }
    ensures lent { result.2.now ≡ records_found zone.now.records result.0 result.1 qtype }
{
    // The records are in order, and the encloser of a name that doesn't exist is another name above it: there
    // is room for a label.
    let (_ordered, _valid) = (zone.apex(), name.as_wire());
    match zone.find_node(name) {
        Match::Cut(cut, owned) => (Kind::Referral, Node::named(cut), of_type(owned, types::NS)),
        Match::Name(owned) => {
            let (kind, found) = kind_by(owned, qtype);
            (kind, Node::named(name.reborrow()), found)
        }
        Match::Wildcard(above, owned) => {
            let (kind, found) = kind_by(owned, qtype);
            (kind, Node::wildcard_of(above), found)
        }
        Match::Nothing => (Kind::NameError, Node::named(name.reborrow()), &[]),
    }
}
