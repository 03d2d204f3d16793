//! What a zone has for a name (RFC 1034 section 4.3.2, step 3; RFC 4592 section 3.3).
use dns_names::NameRef;
use dns_records::Record;

/// How far a name can be matched in a zone, label by label from the apex down.
#[derive(Drop)]
pub enum Match<'n, 's> {
    /// The zone is cut above the name or at it: the cut, and the records that it owns.
    Cut(NameRef<'n>, &'s [Record]),
    /// The name exists: the records that it owns, none at an empty nonterminal.
    Name(&'s [Record]),
    /// The name doesn't exist, and the label `*` before its closest encloser does: the encloser, and the
    /// records of the wildcard.
    Wildcard(NameRef<'n>, &'s [Record]),
    /// Neither the name nor a wildcard for it exists.
    Nothing,
}
