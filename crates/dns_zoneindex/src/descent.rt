//! What a zone has for a name, by one walk along the name's labels from the root down (RFC 1034 section
//! 4.3.2, step 3; RFC 4592 section 3.3). It begins at `find_node`.
ghost use Rattle.std.specs.Prelude.{◌≡◌, true, List, ◌∷◌, ◌<◌};
ghost use Rattle.dns_names.specs.Name.{Labels};
ghost use Rattle.dns_records.specs.Record.{Record as Stated};
ghost use Rattle.dns_records.specs.Types.{type_ns};
ghost use Rattle.dns_zone.specs.Node.{cuts_at, IsMatch};
ghost use Rattle.dns_zone.specs.Records.{is_ordered, owns_type, records_at};
ghost use Rattle.dns_zoneindex.specs.Entries.{PathRecord};
ghost use Rattle.dns_zoneindex.specs.Owned.{path_records, are_owned};
ghost use Rattle.dns_zoneindex.specs.Reach.{zone_of_entries, LeadsAbove};

use crate::node::Node;
use crate::path::{MOST_LABELS, name_from, starts_of};
use dns_names::NameRef;
use dns_records::{Record, types};
use dns_zone::{Match, of_type, split};

/// Whether a name owns NS, by the records that it owns.
fn has_servers(owned: &[Record]) -> bool
    ensures { (set : List Stated) (name : Labels)
        → is_ordered set ≡ true
        → owned.now ≡ records_at set name
        → result ≡ owns_type set name type_ns }
{
    !of_type(owned, types::NS).is_empty()
}

/// Whether the zone of the apex is cut at a name that owns these records (RFC 1034 section 4.2.1).
#[inline(always)]
fn is_cut(apex: &NameRef<'_>, name: &NameRef<'_>, owned: &[Record]) -> bool
    ensures { (set : List Stated)
        → is_ordered set ≡ true
        → owned.now ≡ records_at set name.now
        → result ≡ cuts_at (record { apex = apex.now; records = set }) name.now }
{
    if name.as_wire().len() <= apex.as_wire().len() {
        return false;
    }
    has_servers(owned) && name.is_under(apex)
}

/// What a name has that does not exist, by its closest encloser, and by what is stored at and under that.
#[inline(never)]
fn under_wildcard<'n, 's>(encloser: NameRef<'n>, node: &'s Node) -> Match<'n, 's>
    ensures { (apex : Labels) (es : List PathRecord) (name : Labels)
        → are_owned es ≡ true
        → LeadsAbove (zone_of_entries apex es) es name encloser.entry node.now.own
        → IsMatch (zone_of_entries apex es) name result }
{
    match node.child(b"*") {
        Some(wildcard) => Match::Wildcard(encloser, wildcard.records()),
        None => Match::Nothing,
    }
}

/// What the zone of an apex has for a name.
pub(crate) fn find_node<'n, 's>(
    root: &'s Node,
    apex: &NameRef<'_>,
    name: &NameRef<'n>,
) -> Match<'n, 's>
    requires owned { are_owned root.now.own ≡ true }
    requires order { is_ordered (path_records root.now.own) ≡ true }
    ensures { IsMatch (zone_of_entries apex.now root.now.own) name.now result }
{
    let mut starts = [0; MOST_LABELS];
    let mut left = starts_of(name, &mut starts);
    let mut node = root;
    'labels: while left > 0 {
        left -= 1;
        let here = name_from(name, starts[left]);
        let Some((label, above)) = split(&here) else {
            return Match::Nothing;
        };
        let Some(child) = node.child(label) else {
            return under_wildcard(above, node);
        };
        let owned = child.records();
        if is_cut(apex, &here, owned) {
            return Match::Cut(here, owned);
        }
        node = child;
    }
    Match::Name(node.records())
}
