//! The tree that is a set of records: each is at its owner, and they rise.
ghost use Rattle.std.specs.Prelude.{◌≡◌, true};
ghost use Rattle.std.specs.List.{AllByRecursion};
ghost use Rattle.dns_records.specs.Record.{IsRecord};
ghost use Rattle.dns_zone.specs.Records.{is_ordered};
ghost use Rattle.dns_zoneindex.specs.Owned.{path_records, are_owned};

use crate::edit::{with_record, without_record};
use crate::tree::Tree;
use dns_memory::Heap;
use dns_names::NameRef;
use dns_records::Record;
use dns_zone::{Match, ZoneIndex, are_valid, of_type};
use std::alloc::AllocError;

/// A set of records as a tree of names. A fork of it takes no memory, and shares all that neither changes.
#[derive(Drop)]
pub struct SharedTree {
    alloc: Heap,
    tree: Tree,
    ghost each_at_owner: { are_owned tree ≡ true },
    ghost in_order: { is_ordered (path_records tree) ≡ true },
    ghost each_valid: { ∥ AllByRecursion IsRecord (path_records tree) ∥₁ },
}

impl ZoneIndex for SharedTree {
    ghost records = { λ set. path_records set.tree };

    ghost ordered = { λ set. set.in_order };

    ghost valid = { λ set. set.each_valid };

    fn empty(alloc: Heap) -> Result<Self, AllocError> {
        Ok(SharedTree {
            alloc,
            tree: Tree::empty(),
        })
    }

    fn from_sorted(alloc: Heap, sorted: Vec<Record, Heap>) -> Result<Self, AllocError> {
        are_valid(&sorted);
        Ok(SharedTree {
            alloc,
            tree: Tree::from_sorted(alloc, sorted)?,
        })
    }

    fn fork(&self) -> Result<Self, AllocError> {
        Ok(SharedTree {
            alloc: self.alloc,
            tree: self.tree.fork()?,
        })
    }

    fn records_at(&self, name: &NameRef<'_>) -> &[Record] {
        match self.tree.at(name) {
            Some(node) => node.records(),
            None => &[],
        }
    }

    fn rrset(&self, name: &NameRef<'_>, rtype: u16) -> &[Record] {
        of_type(self.records_at(name), rtype)
    }

    fn exists(&self, name: &NameRef<'_>) -> bool {
        match self.tree.at(name) {
            Some(node) => node.count() > 0,
            None => false,
        }
    }

    fn find_node<'n>(&self, apex: &NameRef<'_>, name: &NameRef<'n>) -> Match<'n, '_> {
        self.tree.find_node(apex, name)
    }

    fn insert(&mut self, added: Record) -> Result<(), AllocError> {
        let owner = added.owner().clone()?;
        let _valid = added.rdata();
        let records = with_record(self.alloc, self.records_at(&owner.lend()), added)?;
        self.tree.set(self.alloc, &owner.lend(), records)
    }

    fn remove(&mut self, removed: &Record) -> Result<bool, AllocError> {
        let owner = removed.owner().lend();
        match without_record(self.alloc, self.records_at(&owner), removed)? {
            Some(records) => {
                self.tree.set(self.alloc, &owner, records)?;
                Ok(true)
            }
            None => Ok(false),
        }
    }

    fn replace_at(
        &mut self,
        name: &NameRef<'_>,
        come: Vec<Record, Heap>,
    ) -> Result<(), AllocError> {
        are_valid(&come);
        self.tree.set(self.alloc, name, come)
    }

    fn len(&self) -> usize {
        self.tree.count()
    }

    fn run_from(&self, position: usize) -> &[Record] {
        self.tree.run_from(position)
    }

    fn walk(&self, after: Option<&Record>) -> Option<&Record> {
        let position = match after {
            None => 0,
            Some(record) => self.tree.count_to(record),
        };
        self.tree.run_from(position).first()
    }
}
