//! The nodes of the tree of names (RFC 1034 section 3.1): what is stored at and under a name, in parts that
//! trees share. Each is found and written by the labels that lead to it.
ghost use Rattle.std.specs.Prelude.{◌≡◌, ◌<◌, [], length, reverse, IfOk, IfSome};
ghost use Rattle.std.specs.Option.{option_copied};
ghost use Rattle.dns_zoneindex.specs.Children.{items, own_of, node_of, AreChildren};
ghost use Rattle.dns_zoneindex.specs.Entries.{below, under_label, here_of, own_at, labels_in};
ghost use Rattle.dns_zoneindex.specs.Held.{held};
ghost use Rattle.dns_zone.specs.Keys.{IsKey};
ghost use Rattle.dns_zoneindex.specs.Setting.{set_at};
ghost use Rattle.std.specs.Str.{bytes_eq};

use crate::branch::first_label;
use crate::group::MOST;
use crate::key::is_same;
use crate::records::Records;
use dns_memory::Heap;
use dns_names::{NameRef, same_octets};
use dns_records::Record;
use dns_zone::{key_of, split};
use smallvec::SmallVec;
use std::alloc::AllocError;
use std::marker::Model;
use std::rc::Rc;
use std::slice;

/// Neighbouring children of a name, in the order of their labels: all that it has, or those of a slot.
#[cycle(tree)]
pub(crate) enum Children {
    /// None.
    Empty,
    /// One child.
    One(Node),
    /// More than one.
    Many(Rc<Group, Heap>),
}

/// Neighbouring children in slots, of which none is empty. There are two at least.
#[cycle(tree)]
pub(crate) struct Group {
    /// The keys of the slots, side by side: of their first labels without the octets that are skipped.
    pub(crate) keys: [u64; MOST],
    pub(crate) slots: Vec<Slot, Heap>,
    /// How many records are at and under all of them.
    pub(crate) count: usize,
    /// The first labels of all slots but the first one begin with the same octets, of which so many are
    /// skipped.
    pub(crate) skip: u8,
    /// Whether the labels of all children do.
    pub(crate) whole: bool,
}

/// Neighbouring children in a group, at least one.
#[cycle(tree)]
pub(crate) struct Slot {
    /// How many records are at and under all of them.
    pub(crate) count: usize,
    /// The first octets of the first one's label, by which the slot is found.
    pub(crate) key: u64,
    pub(crate) children: Children,
}

/// What is stored at and under a name, without the name above it. It is moved and shared like one pointer.
#[cycle(tree)]
pub(crate) struct Node {
    pub(crate) kind: Kind,
}

/// The two kinds of nodes. Most names are hosts with one record and no name below, and need no memory but the
/// record's.
#[cycle(tree)]
pub(crate) enum Kind {
    /// One record, and no name below: the label is the first of its owner's.
    Leaf(Record),
    /// Anything else.
    Branch(Rc<Branch, Heap>),
}

/// What is stored at and under a name, with memory for its label, its records and its children.
#[cycle(tree)]
#[derive(Drop)]
pub(crate) struct Branch {
    pub(crate) label: SmallVec<u8, 24, Heap>,
    /// The first octets of the label, which decide most comparisons.
    pub(crate) key: u64,
    pub(crate) records: Records,
    pub(crate) children: Children,
    /// How many records are at and under the name.
    pub(crate) count: usize,
}

impl Model for Node {
    ghost use Rattle.dns_zoneindex.specs.Entries.{Child};

    ghost Value = { Child };

    ghost use Rattle.dns_zoneindex.specs.Children.{child_in};
    ghost use Rattle.dns_zoneindex.specs.Size.{node_size};

    ghost view = { λ n. child_in n.kind };

    ghost size = { node_size };

    ghost use Rattle.dns_zoneindex.specs.Falls.{kind_falls};

    ghost size_decreases = { λ n h. kind_falls n.kind };
}

impl Model for Branch {
    ghost use Rattle.std.specs.Prelude.{List};
    ghost use Rattle.dns_zoneindex.specs.Entries.{Child};

    ghost Value = { Child };

    ghost use Rattle.dns_zoneindex.specs.Children.{node_of, IsBranch};
    ghost use Rattle.dns_zoneindex.specs.Held.{held};
    ghost use Rattle.dns_zoneindex.specs.Size.{size_of_child};

    ghost view = { λ n. node_of n.label.items (held n.records) n.children };

    ghost invariant = { λ n. IsBranch n.count n.key n.label.items (held n.records) n.children };

    ghost size = { size_of_child };

    ghost use Rattle.dns_zoneindex.specs.Falls.{children_falls};

    ghost size_decreases = { λ n h. children_falls (held n.records) n.children h.1 };
}

impl Model for Group {
    ghost use Rattle.std.specs.Prelude.{List};
    ghost use Rattle.dns_zoneindex.specs.Entries.{Child};

    ghost Value = { List Child };

    ghost use Rattle.dns_zoneindex.specs.Children.{joined, IsGroup};
    ghost use Rattle.dns_zoneindex.specs.Size.{children_size};

    ghost view = { λ g. joined g.slots.items };

    ghost invariant = { λ g. IsGroup g.count g.slots.items g.keys g.skip g.whole };

    ghost size = { children_size };

    ghost use Rattle.dns_zoneindex.specs.Falls.{group_falls};

    ghost size_decreases = { λ g h. group_falls g.count g.slots.items g.keys g.skip g.whole h };
}

impl Model for Slot {
    ghost use Rattle.std.specs.Prelude.{List};
    ghost use Rattle.dns_zoneindex.specs.Entries.{Child};

    ghost Value = { List Child };

    ghost use Rattle.dns_zoneindex.specs.Children.{items, IsSlot};
    ghost use Rattle.dns_zoneindex.specs.Size.{slot_size};

    ghost view = { λ s. items s.children };

    ghost invariant = { λ s. IsSlot s.count s.key (items s.children) };

    ghost size = { slot_size };

    ghost use Rattle.dns_zoneindex.specs.Falls.{slot_falls};

    ghost size_decreases = { λ s h. slot_falls s.children };
}

// A derived `drop` gets no proof where an `Rc` over a lent allocator leads back to its type.
impl Drop for Children {
    #[cycle(gone)]
    fn drop(self) {
        match self {
            Children::Empty => {}
            Children::One(_node) => {}
            Children::Many(group) => {
                let _group = Rc::into_inner(group);
            }
        }
    }
}

impl Drop for Node {
    #[cycle(gone)]
    fn drop(self) {
        let Node { kind: _kind } = self;
    }
}

impl Drop for Kind {
    #[cycle(gone)]
    fn drop(self) {
        match self {
            Kind::Leaf(_record) => {}
            Kind::Branch(branch) => {
                let _branch = Rc::into_inner(branch);
            }
        }
    }
}

impl Drop for Group {
    #[cycle(gone)]
    fn drop(self) {
        let Group {
            keys: _,
            slots: _slots,
            count: _,
            skip: _,
            whole: _,
        } = self;
    }
}

impl Drop for Slot {
    #[cycle(gone)]
    fn drop(self) {
        let Slot {
            key: _,
            count: _,
            children: _children,
        } = self;
    }
}

impl Slot {
    /// The children alone.
    pub(crate) fn into_children(self) -> Children
        ensures { items result ≡ self }
    {
        let Slot {
            key: _,
            count: _,
            children,
        } = self;
        children
    }
}

impl Node {
    /// What is stored at and under a name: its records, and what its children have. It is a leaf where the
    /// label and what is stored there allow it.
    pub(crate) fn new(
        alloc: Heap,
        label: &[u8],
        records: Records,
        children: Children,
    ) -> Result<Node, AllocError>
        requires some { 0 < length (own_of (held records) children) }
        requires order { AreChildren (items children) }
        ensures made { IfOk result (λ node. node ≡ node_of label.now (held records) children) }
        ensures some { IfOk result (λ node. 0 < length node.own) }
    {
        if !children.is_empty() {
            return Node::branch(alloc, label, records, children);
        }
        match records {
            Records::One(record) => {
                if first_label(&record) == label {
                    return Ok(Node {
                        kind: Kind::Leaf(record),
                    });
                }
                Node::branch(alloc, label, Records::One(record), children)
            }
            other => Node::branch(alloc, label, other, children),
        }
    }

    /// The same in memory of its own.
    fn branch(
        alloc: Heap,
        label: &[u8],
        records: Records,
        children: Children,
    ) -> Result<Node, AllocError>
        requires some { 0 < length (own_of (held records) children) }
        requires order { AreChildren (items children) }
        ensures made { IfOk result (λ node. node ≡ node_of label.now (held records) children) }
        ensures some { IfOk result (λ node. 0 < length node.own) }
    {
        let branch = Branch::new(alloc, label, records, children)?;
        Ok(Node {
            kind: Kind::Branch(Rc::new(alloc, branch)?),
        })
    }

    /// The same, shared.
    pub(crate) fn share(&self) -> Result<Node, AllocError>
        ensures { IfOk result (λ node. node ≡ self.now) }
    {
        let kind = match &self.kind {
            Kind::Leaf(record) => Kind::Leaf(record.clone()?),
            Kind::Branch(branch) => Kind::Branch(branch.clone()?),
        };
        Ok(Node { kind })
    }

    /// The records that the name owns.
    #[inline(always)]
    pub(crate) fn records(&self) -> &[Record]
        ensures own { result.now ≡ here_of self.now.own }
        ensures kept { 0 < length self.now.own }
    {
        match &self.kind {
            Kind::Leaf(record) => slice::from_ref(record),
            Kind::Branch(branch) => branch.records(),
        }
    }

    /// The records that the name owns, to be shared.
    pub(crate) fn share_records(&self) -> Result<Records, AllocError>
        ensures { IfOk result (λ shared. held shared ≡ here_of self.now.own) }
    {
        match &self.kind {
            Kind::Leaf(record) => Ok(Records::One(record.clone()?)),
            Kind::Branch(branch) => branch.share_records(),
        }
    }

    /// The children of the name, shared.
    fn share_children(&self) -> Result<Children, AllocError>
        ensures own { IfOk result (λ children. self.now.own ≡ own_of (here_of self.now.own) children) }
        ensures order { IfOk result (λ children. AreChildren (items children)) }
    {
        match &self.kind {
            Kind::Leaf(_record) => Ok(Children::Empty),
            Kind::Branch(branch) => branch.share_children(),
        }
    }

    /// How many records are at and under the name: at least one, or the name would not be kept.
    pub(crate) fn count(&self) -> usize
        ensures own { result ≡ length self.now.own }
        ensures kept { 0 < result }
    {
        match &self.kind {
            Kind::Leaf(_record) => 1,
            Kind::Branch(branch) => branch.count(),
        }
    }

    /// The child of a label.
    #[inline(always)]
    pub(crate) fn child(&self, label: &[u8]) -> Option<&Node>
        ensures found { own_at (option_copied result) ≡ under_label label.now self.now.own }
        ensures kept { 0 < length self.now.own }
    {
        match &self.kind {
            Kind::Leaf(_record) => None,
            Kind::Branch(branch) => branch.child(label),
        }
    }

    /// What is stored at and under a name, whose labels lead to it from here.
    pub(crate) fn under(&self, name: &NameRef<'_>) -> Option<&Node>
        ensures { own_at (option_copied result) ≡ below (reverse name.now) self.now.own }
    {
        match split(name) {
            None => Some(self),
            Some((label, above)) => match self.under(&above) {
                Some(node) => node.child(label),
                None => None,
            },
        }
    }

    /// The same with other records at the name that labels lead to; none, if that leaves no record at all.
    pub(crate) fn with_records(
        &self,
        alloc: Heap,
        path: &[&[u8]],
        records: Records,
    ) -> Result<Option<Node>, AllocError>
        ensures set { IfOk result
            (λ node. own_at node ≡ set_at (labels_in path.now) (held records) self.now.own) }
        ensures label { IfOk result (λ node. IfSome node (λ n. n.label ≡ self.now.label)) }
    {
        let children = self.share_children()?;
        match path.split_first() {
            None => Node::kept(alloc, self.label(), records, children),
            Some((label, rest)) => {
                let child = match children.find(label) {
                    Some(child) => child.with_records(alloc, rest, records)?,
                    None => Node::chain(alloc, label, rest, records)?,
                };
                let changed = children.replaced(alloc, label, child)?;
                Node::kept(alloc, self.label(), self.share_records()?, changed)
            }
        }
    }

    /// A name with no records, but at the name that labels lead to.
    pub(crate) fn chain(
        alloc: Heap,
        label: &[u8],
        path: &[&[u8]],
        records: Records,
    ) -> Result<Option<Node>, AllocError>
        ensures set { IfOk result (λ node. own_at node ≡ set_at (labels_in path.now) (held records) []) }
        ensures label { IfOk result (λ node. IfSome node (λ n. n.label ≡ label.now)) }
    {
        match path.split_first() {
            None => Node::kept(alloc, label, records, Children::Empty),
            Some((next, rest)) => {
                let children = match Node::chain(alloc, next, rest, records)? {
                    Some(child) => {
                        let _some = child.records();
                        Children::One(child)
                    }
                    None => Children::Empty,
                };
                Node::kept(alloc, label, Records::Empty, children)
            }
        }
    }

    /// A name with its records and its children, if there is any of them.
    fn kept(
        alloc: Heap,
        label: &[u8],
        records: Records,
        children: Children,
    ) -> Result<Option<Node>, AllocError>
        requires { AreChildren (items children) }
        ensures set { IfOk result (λ node. own_at node ≡ own_of (held records) children) }
        ensures label { IfOk result (λ node. IfSome node (λ n. n.label ≡ label.now)) }
    {
        if records.as_slice().is_empty() && children.is_empty() {
            return Ok(None);
        }
        Ok(Some(Node::new(alloc, label, records, children)?))
    }

    /// The label before the name above.
    pub(crate) fn label(&self) -> &[u8]
        ensures { result.now ≡ self.now.label }
    {
        match &self.kind {
            Kind::Leaf(record) => first_label(record),
            Kind::Branch(branch) => branch.label(),
        }
    }

    /// The first octets of the label.
    pub(crate) fn key(&self) -> u64
        ensures { IsKey result self.now.label }
    {
        match &self.kind {
            Kind::Leaf(record) => key_of(first_label(record)),
            Kind::Branch(branch) => branch.key(),
        }
    }

    /// Whether a label is that of the node.
    #[inline(always)]
    pub(crate) fn has_label(&self, label: &[u8]) -> bool
        ensures { result ≡ bytes_eq label.now self.now.label }
    {
        same_octets(label, self.label())
    }

    /// The same where the label's key is known, which tells most.
    #[inline(always)]
    pub(crate) fn is_called(&self, key: u64, label: &[u8]) -> bool
        requires { IsKey key label.now }
        ensures { result ≡ bytes_eq label.now self.now.label }
    {
        match &self.kind {
            Kind::Leaf(record) => is_same(key, label, first_label(record)),
            Kind::Branch(branch) => branch.is_called(key, label),
        }
    }
}
