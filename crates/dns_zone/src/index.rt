//! What a set of records is.
ghost use Rattle.std.specs.Prelude.{◌≡◌, List, [], true, length, drop, IfOk, OnOk, OnErr};
ghost use Rattle.std.specs.Option.{option_copied};
ghost use Rattle.std.specs.List.{AllByRecursion};
ghost use Rattle.dns_records.specs.Record.{Record as Stated, IsRecord};
ghost use Rattle.dns_zone.specs.Records.{are_of, is_ordered, put, without, others, records_at, rrset, exists};
ghost use Rattle.dns_zone.specs.Records.{next_after, has, united};
ghost use Rattle.dns_zone.specs.Places.{IsRun};
ghost use Rattle.dns_zone.specs.Node.{IsMatch};

use crate::Match;
use dns_memory::Heap;
use dns_names::NameRef;
use dns_records::Record;
use std::alloc::AllocError;

/// A finite set of records, seen as the list of its records in order of owner, type and data.
pub trait ZoneIndex: Drop {
    /// What it contains.
    ghost records: { Self → List Stated };

    /// The set of no records.
    fn empty(alloc: Heap) -> Result<Self, AllocError>
        ensures { IfOk result (λ set. records set ≡ []) };

    /// The set of these records, which are in order, so that each occurs once. It is made in one go, and no
    /// record is searched.
    fn from_sorted(alloc: Heap, sorted: Vec<Record, Heap>) -> Result<Self, AllocError>
        requires { is_ordered sorted.items ≡ true }
        ensures { IfOk result (λ set. records set ≡ sorted.entry.items) };

    /// The same set again. A change of one does not change the other.
    fn fork(&self) -> Result<Self, AllocError>
        ensures { IfOk result (λ set. records set ≡ records self.now) };

    /// The records that the name owns, in order of type and data.
    fn records_at(&self, name: &NameRef<'_>) -> &[Record]
        ensures { result.now ≡ records_at (records self.now) name.now };

    /// The records of a name and a type (an RRset, RFC 2181 section 5), in order of data.
    fn rrset(&self, name: &NameRef<'_>, rtype: u16) -> &[Record]
        ensures { result.now ≡ rrset (records self.now) name.now rtype };

    /// Whether the name or one under it owns a record (RFC 4592 section 2.2.2).
    fn exists(&self, name: &NameRef<'_>) -> bool
        ensures { result ≡ exists (records self.now) name.now };

    /// All that a lookup asks of a name in the zone of that apex: the cut above it, the name itself, or the
    /// wildcard for it (RFC 1034 section 4.3.2, step 3; RFC 4592 section 3.3).
    fn find_node<'n>(&self, apex: &NameRef<'_>, name: &NameRef<'n>) -> Match<'n, '_>
        ensures { IsMatch (record { apex = apex.now; records = records self.now }) name.now result };

    /// Puts a record in. It replaces one of equal owner, type and data, and so its TTL.
    fn insert(&mut self, added: Record) -> Result<(), AllocError>
        ensures ok { OnOk result (records self.new ≡ put added (records self.old)) }
        ensures err { OnErr result (records self.new ≡ records self.old) };

    /// Takes the record of equal owner, type and data out, and answers whether there was one.
    fn remove(&mut self, removed: &Record) -> Result<bool, AllocError>
        ensures found { IfOk result (λ found. found ≡ has removed.now (records self.old)) }
        ensures ok { OnOk result (records self.new ≡ without removed.now (records self.old)) }
        ensures err { OnErr result (records self.new ≡ records self.old) };

    /// Puts these records, which are in order and which the name owns, in place of all that it owns. It is
    /// done at once: what it costs grows with the name's records as one `insert` does, however many come and
    /// go.
    fn replace_at(&mut self, name: &NameRef<'_>, come: Vec<Record, Heap>) -> Result<(), AllocError>
        requires order { is_ordered come.items ≡ true }
        requires owned { are_of name.now come.items ≡ true }
        ensures ok { OnOk result
            (records self.new ≡ united (others (records self.old) name.now) come.entry.items) }
        ensures err { OnErr result (records self.new ≡ records self.old) };

    /// How many records there are.
    fn len(&self) -> usize
        ensures { result ≡ length (records self.now) };

    /// Successive records from this position on, as many as the set can lend in one piece, and none only if
    /// none is left.
    fn run_from(&self, position: usize) -> &[Record]
        ensures run { IsRun (records self.now) position result.now }
        ensures some { result.now ≡ [] → drop position (records self.now) ≡ [] };

    /// The first record, or the first after one.
    fn walk(&self, after: Option<&Record>) -> Option<&Record>
        ensures { option_copied result ≡ next_after (option_copied after.entry) (records self.now) };

    /// The records strictly rise, so that each occurs once.
    ghost ordered: { (set : Self) → is_ordered (records set) ≡ true };

    /// Each is a valid record.
    ghost valid: { (set : Self) → ∥ AllByRecursion IsRecord (records set) ∥₁ };
}
