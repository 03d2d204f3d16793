//! The tree of names from the root down, seen as its records with the labels that lead to them.
ghost use Rattle.std.specs.Prelude.{◌≡◌, true, [], length, reverse, IfOk, OnOk, OnErr};
ghost use Rattle.std.specs.Option.{option_copied};
ghost use Rattle.dns_zoneindex.specs.Entries.{below, own_at};
ghost use Rattle.dns_zoneindex.specs.Growth.{from_depth};
ghost use Rattle.dns_zone.specs.Node.{IsMatch};
ghost use Rattle.dns_zone.specs.Records.{is_ordered};
ghost use Rattle.dns_zoneindex.specs.Lent.{IsLent};
ghost use Rattle.dns_zoneindex.specs.Owned.{path_records, are_owned};
ghost use Rattle.dns_zoneindex.specs.Reach.{zone_of_entries};
ghost use Rattle.dns_zoneindex.specs.Setting.{set_at};

use crate::descent::find_node;
use crate::grow::grow;
use crate::node::Node;
use crate::path::path_of;
use crate::records::Records;
use dns_memory::Heap;
use dns_names::NameRef;
use dns_records::Record;
use dns_zone::Match;
use std::alloc::AllocError;
use std::marker::Model;

/// Records by the labels of their owners. A copy shares the root's node.
#[derive(Drop)]
pub(crate) struct Tree {
    root: Root,
}

/// What is stored at and under the root.
#[derive(Drop)]
enum Root {
    /// No record.
    Empty,
    /// Records.
    Full(Node),
}

impl Model for Tree {
    ghost use Rattle.std.specs.Prelude.{List};
    ghost use Rattle.dns_zoneindex.specs.Entries.{PathRecord};

    ghost Value = { List PathRecord };

    ghost use Rattle.dns_zoneindex.specs.Tree.{entries};

    ghost view = { λ t. entries t.root };
}

impl Tree {
    /// No record.
    pub(crate) fn empty() -> Tree
        ensures { result ≡ [] }
    {
        Tree { root: Root::Empty }
    }

    /// The tree of records in order.
    pub(crate) fn from_sorted(alloc: Heap, sorted: Vec<Record, Heap>) -> Result<Tree, AllocError>
        requires { is_ordered sorted.items ≡ true }
        ensures { IfOk result (λ tree. tree ≡ from_depth 0 sorted.entry.items) }
    {
        if sorted.is_empty() {
            return Ok(Tree::empty());
        }
        let node = grow(alloc, &[], 0, sorted)?;
        Ok(Tree {
            root: Root::Full(node),
        })
    }

    /// The same records, all nodes shared.
    pub(crate) fn fork(&self) -> Result<Tree, AllocError>
        ensures { IfOk result (λ tree. tree ≡ self.now) }
    {
        let root = match &self.root {
            Root::Empty => Root::Empty,
            Root::Full(node) => Root::Full(node.share()?),
        };
        Ok(Tree { root })
    }

    /// How many records there are.
    pub(crate) fn count(&self) -> usize
        ensures { result ≡ length (path_records self.now) }
    {
        match &self.root {
            Root::Empty => 0,
            Root::Full(node) => node.count(),
        }
    }

    /// What is stored at and under a name.
    pub(crate) fn at(&self, name: &NameRef<'_>) -> Option<&Node>
        ensures { own_at (option_copied result) ≡ below (reverse name.now) self.now }
    {
        match &self.root {
            Root::Empty => None,
            Root::Full(node) => node.under(name),
        }
    }

    /// Records from an index on, in one piece.
    pub(crate) fn run_from(&self, position: usize) -> &[Record]
        ensures { IsLent (path_records self.now) position result.now }
    {
        match &self.root {
            Root::Empty => &[],
            Root::Full(node) => node.run_from(position),
        }
    }

    /// What the zone of an apex has for a name.
    pub(crate) fn find_node<'n>(&self, apex: &NameRef<'_>, name: &NameRef<'n>) -> Match<'n, '_>
        requires owned { are_owned self.now ≡ true }
        requires order { is_ordered (path_records self.now) ≡ true }
        ensures { IsMatch (zone_of_entries apex.now self.now) name.now result }
    {
        match &self.root {
            Root::Empty => Match::Nothing,
            Root::Full(node) => find_node(node, apex, name),
        }
    }

    /// Gives a name these records in place of those that it had.
    pub(crate) fn set(
        &mut self,
        alloc: Heap,
        name: &NameRef<'_>,
        records: Vec<Record, Heap>,
    ) -> Result<(), AllocError>
        ensures ok { OnOk result (self.new ≡ set_at (reverse name.now) records.entry.items self.old) }
        ensures err { OnErr result (self.new ≡ self.old) }
    {
        let path = path_of(alloc, name)?;
        let records = Records::of(alloc, records)?;
        let changed = match &self.root {
            Root::Empty => Node::chain(alloc, &[], &path, records)?,
            Root::Full(node) => node.with_records(alloc, &path, records)?,
        };
        let root = match changed {
            None => Root::Empty,
            Some(node) => Root::Full(node),
        };
        self.root = root;
        Ok(())
    }
}
