//! Items of an update that follow each other and have one owner.
ghost use Rattle.std.specs.Prelude.{◌≡◌, ◌≤◌, true, filter, length, MatchOption, OnOk, IsPermutation};
ghost use Rattle.std.specs.List.{AllWithin};
ghost use Rattle.std.specs.List.Sorted.{IsSortedBy};
ghost use Rattle.std.specs.Ordering.{is_lt};
ghost use Rattle.dns_names.specs.Name.{Labels, name_cmp, names_eq};
ghost use Rattle.dns_changes.specs.Group.{IsOwnerGroup};

use crate::item::ResourceRecord;
use dns_memory::Heap;
use dns_names::NameRef;
use std::alloc::AllocError;

/// Puts the items in order of their owners, so that each name has one run. Those of one name stay in the
/// order that they have.
pub(crate) fn sort_by_owner(items: &mut Vec<ResourceRecord, Heap>) -> Result<(), AllocError>
    ensures moved { IsPermutation items.old.items items.new.items }
    ensures stay { (n : Labels)
        → filter (λ i. names_eq i.owner n) items.new.items
        ≡ filter (λ i. names_eq i.owner n) items.old.items }
    ensures sorted { OnOk result (IsSortedBy (λ i j. is_lt (name_cmp i.owner j.owner)) items.new.items) }
{
    items.sort_by(|a, b| a.owner().cmp(b.owner()))
}

/// How many of the first items have that owner.
fn count_named(items: &[ResourceRecord], name: &NameRef<'_>) -> usize
    ensures bound { result ≤ length items.now }
    ensures named { AllWithin (λ i. names_eq i.owner name.now ≡ true) items.now 0 result }
{
    let mut count = 0;
    'named: while count < items.len() && items[count].is_owned_by(name) {
        count += 1;
    }
    count
}

/// The first of the items, those at the front that have its owner, and the others.
pub(crate) fn first_run(
    items: &[ResourceRecord],
) -> Option<(&ResourceRecord, &[ResourceRecord], &[ResourceRecord])>
    ensures { MatchOption result
        (length items.now ≡ 0)
        (λ run. IsOwnerGroup (λ i. i.owner) items.now run.0.now run.1.now run.2.now) }
{
    let (first, others) = items.split_first()?;
    let count = count_named(others, &first.owner().lend());
    let (run, rest) = items.split_at(1 + count);
    Some((first, run, rest))
}
