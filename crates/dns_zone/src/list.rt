//! The sorted list that is a set of records.
ghost use Rattle.std.specs.Prelude.{◌≡◌, ◌≤◌, ◌+◌, ◌++◌, true, length, take, drop, slice_range, OnOk, OnErr};
ghost use Rattle.std.specs.List.{AllByRecursion, splice};
ghost use Rattle.dns_records.specs.Record.{IsRecord};
ghost use Rattle.dns_zone.specs.Records.{are_of, is_ordered, others, united};

use crate::lookup::{exists, find_node, records_near};
use crate::search::{Key, count_before, end_of_match, find_record, first_behind, matching};
use crate::sorting::are_valid;
use crate::{Match, ZoneIndex};
use dns_memory::Heap;
use dns_names::NameRef;
use dns_records::Record;
use std::alloc::AllocError;

/// A set of records in one list, in order. A search takes a number of steps that grows with the logarithm of
/// its length.
#[derive(Drop)]
pub struct RecordList {
    items: Vec<Record, Heap>,
    ghost in_order: { is_ordered items.items ≡ true },
    ghost each_valid: { ∥ AllByRecursion IsRecord items.items ∥₁ },
}

impl RecordList {
    /// Where a search for the name begins, which makes no difference to what it finds: at the front, where
    /// the records of a zone's apex are, if they are the name's.
    fn near(&self, name: &NameRef<'_>) -> Option<usize> {
        if self.items.first()?.owner().lend().is(name) {
            return Some(0);
        }
        None
    }
}

/// Moves the first ones from a position on, so many, to the end.
fn move_to_end(items: &mut Vec<Record, Heap>, from: usize, count: usize)
    requires inside { from + count ≤ length items.old.items }
    ensures { items.new.items ≡ take from items.old.items ++ drop (from + count) items.old.items
        ++ slice_range items.old.items from (from + count) }
{
    items.slice_mut(from..).rotate_left(count);
}

/// Puts records in place of those from one position up to another. Memory is asked for once, before anything
/// moves.
fn replace_between(
    items: &mut Vec<Record, Heap>,
    begin: usize,
    end: usize,
    mut come: Vec<Record, Heap>,
) -> Result<(), AllocError>
    requires order { begin ≤ end }
    requires inside { end ≤ length items.old.items }
    ensures ok { OnOk result (items.new.items ≡ splice items.old.items begin end come.entry.items) }
    ensures err { OnErr result (items.new.items ≡ items.old.items) }
{
    let behind = items.len() - end;
    items.append(&mut come)?;
    move_to_end(items, begin, end - begin);
    items.truncate(items.len() - (end - begin));
    move_to_end(items, begin, behind);
    Ok(())
}

/// Puts records of a name in place of all that it owns. A position near those is where the search for them
/// begins.
fn replace_owned(
    items: &mut Vec<Record, Heap>,
    name: &NameRef<'_>,
    near: Option<usize>,
    come: Vec<Record, Heap>,
) -> Result<(), AllocError>
    requires held { is_ordered items.old.items ≡ true }
    requires order { is_ordered come.items ≡ true }
    requires owned { are_of name.now come.items ≡ true }
    ensures ok { OnOk result (items.new.items ≡ united (others items.old.items name.now) come.entry.items) }
    ensures err { OnErr result (items.new.items ≡ items.old.items) }
{
    let key = Key::Owner(name.reborrow());
    let begin = count_before(items, &key, near);
    let end = end_of_match(items, &key, begin);
    replace_between(items, begin, end, come)
}

impl ZoneIndex for RecordList {
    ghost records = { λ list. list.items.items };

    ghost ordered = { λ list. list.in_order };

    ghost valid = { λ list. list.each_valid };

    fn empty(alloc: Heap) -> Result<Self, AllocError> {
        Ok(RecordList {
            items: Vec::new(alloc),
        })
    }

    fn from_sorted(_alloc: Heap, sorted: Vec<Record, Heap>) -> Result<Self, AllocError> {
        are_valid(&sorted);
        Ok(RecordList { items: sorted })
    }

    fn records_at(&self, name: &NameRef<'_>) -> &[Record] {
        records_near(&self.items, name, self.near(name))
    }

    fn rrset(&self, name: &NameRef<'_>, rtype: u16) -> &[Record] {
        let key = Key::Type(name.reborrow(), rtype);
        matching(&self.items, &key, self.near(name))
    }

    fn exists(&self, name: &NameRef<'_>) -> bool {
        exists(&self.items, name)
    }

    fn find_node<'n>(&self, apex: &NameRef<'_>, name: &NameRef<'n>) -> Match<'n, '_> {
        find_node(&self.items, apex, name)
    }

    fn insert(&mut self, added: Record) -> Result<(), AllocError> {
        let _valid = added.rdata();
        match find_record(&self.items, &added, None) {
            Ok(at) => self.items[at] = added,
            Err(at) => self.items.insert(at, added)?,
        }
        Ok(())
    }

    fn remove(&mut self, removed: &Record) -> Result<bool, AllocError> {
        match find_record(&self.items, removed, None) {
            Ok(at) => {
                self.items.remove(at);
                Ok(true)
            }
            Err(_) => Ok(false),
        }
    }

    fn replace_at(
        &mut self,
        name: &NameRef<'_>,
        come: Vec<Record, Heap>,
    ) -> Result<(), AllocError> {
        are_valid(&come);
        let near = self.near(name);
        replace_owned(&mut self.items, name, near, come)
    }

    fn len(&self) -> usize {
        self.items.len()
    }

    fn run_from(&self, position: usize) -> &[Record] {
        &self.items[position.min(self.items.len())..]
    }

    fn walk(&self, after: Option<&Record>) -> Option<&Record> {
        match after {
            None => self.items.first(),
            Some(record) => first_behind(&self.items, record),
        }
    }

    fn fork(&self) -> Result<Self, AllocError> {
        Ok(RecordList {
            items: self.items.clone()?,
        })
    }
}
