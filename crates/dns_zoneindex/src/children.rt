//! The children of one name, found by label. A write makes the groups anew that lead to the child, and shares
//! all others.
ghost use Rattle.std.specs.Prelude.{◌≡◌, ◌++◌, ◌∷◌, [], ◌<◌, length, map, IfOk, IfSome};
ghost use Rattle.std.specs.Option.{option_copied};
ghost use Rattle.std.specs.List.{slice_get};
ghost use Rattle.dns_zoneindex.specs.Children.{items, joined, last_of, AreChildren, AllFull, MatchEmpty};
ghost use Rattle.dns_zoneindex.specs.Entries.{pushed, flat, own_at};
ghost use Rattle.dns_zoneindex.specs.Setting.{keep, before, behind};
ghost use Rattle.dns_zone.specs.Keys.{IsKey};
ghost use Rattle.dns_zoneindex.specs.Assoc.{child_of, put_child, without_child};

use crate::group::{
    children_in, gathered, one, only_tied, place_alone, place_of, place_to_find, replaced, two,
};
use crate::key::key_further;
use crate::node::{Children, Group, Node, Slot};
use dns_memory::Heap;
use dns_zone::key_of;
use std::alloc::AllocError;
use std::cmp::Ordering;

impl Children {
    /// Whether there is no child.
    pub(crate) fn is_empty(&self) -> bool
        ensures { MatchEmpty result (items self.now) }
    {
        match self {
            Children::Empty => true,
            Children::One(node) => {
                let _some = node.records();
                false
            }
            Children::Many(group) => {
                let _some = &group.count;
                false
            }
        }
    }

    /// How many records are at and under them.
    pub(crate) fn count(&self) -> usize
        ensures { result ≡ length (flat (items self.now)) }
    {
        match self {
            Children::Empty => 0,
            Children::One(node) => node.count(),
            Children::Many(group) => group.count,
        }
    }

    /// The first child.
    pub(crate) fn first(&self) -> Option<&Node>
        ensures { option_copied result ≡ slice_get (items self.now) 0 }
    {
        match self {
            Children::Empty => None,
            Children::One(node) => Some(node),
            Children::Many(group) => {
                let Group { slots, .. } = &**group;
                slots.first()?.children.first()
            }
        }
    }

    /// The last child.
    pub(crate) fn last(&self) -> Option<&Node>
        ensures { option_copied result ≡ last_of (items self.now) }
    {
        match self {
            Children::Empty => None,
            Children::One(node) => Some(node),
            Children::Many(group) => {
                let Group { slots, .. } = &**group;
                slots.last()?.children.last()
            }
        }
    }

    /// The child of a label. An only child is identified by its label alone.
    #[inline(always)]
    pub(crate) fn find(&self, label: &[u8]) -> Option<&Node>
        ensures { option_copied result ≡ child_of label.now (items self.now) }
    {
        match self {
            Children::Empty => None,
            Children::One(node) => {
                if node.has_label(label) {
                    return Some(node);
                }
                None
            }
            Children::Many(_) => self.find_by_key(key_of(label), label),
        }
    }

    /// The child of a label with this key.
    #[inline(always)]
    fn find_by_key(&self, key: u64, label: &[u8]) -> Option<&Node>
        requires { IsKey key label.now }
        ensures { option_copied result ≡ child_of label.now (items self.now) }
    {
        let mut here = self;
        let mut after = 0;
        let mut rest_key = key;
        'down: loop {
            match here {
                Children::Empty => return None,
                Children::One(node) => {
                    if node.is_called(key, label) {
                        return Some(node);
                    }
                    return None;
                }
                Children::Many(group) => {
                    let Group {
                        keys,
                        slots,
                        skip,
                        whole,
                        ..
                    } = &**group;
                    if *whole {
                        let here_key = key_further(after, rest_key, *skip, label);
                        if let Some(position) = place_alone(keys, slots, here_key) {
                            here = &slots[position].children;
                            after = *skip;
                            rest_key = here_key;
                            continue 'down;
                        }
                        if let Some(node) = only_tied(keys, slots, here_key) {
                            if node.is_called(key, label) {
                                return Some(node);
                            }
                        }
                    }
                    let position = place_to_find(keys, slots, *skip, *whole, key, label);
                    here = &slots[position].children;
                }
            }
        }
    }

    /// The same children, shared.
    pub(crate) fn share(&self) -> Result<Children, AllocError>
        ensures { IfOk result (λ children. items children ≡ items self.now) }
    {
        match self {
            Children::Empty => Ok(Children::Empty),
            Children::One(node) => Ok(Children::One(node.share()?)),
            Children::Many(group) => Ok(Children::Many(group.clone()?)),
        }
    }

    /// The children with one put in, which replaces one of equal label, in slots: few enough to be put in
    /// place of one.
    fn put(&self, alloc: Heap, node: Node) -> Result<Vec<Slot, Heap>, AllocError>
        requires some { 0 < length node.own }
        ensures put { IfOk result (λ slots. joined slots.items ≡ put_child node (items self.now)) }
        ensures full { IfOk result (λ slots. AllFull slots.items) }
    {
        match self {
            Children::Empty => one(alloc, Slot::one(node)),
            Children::One(own) => beside(alloc, own, node),
            Children::Many(group) => {
                let Group {
                    keys,
                    slots,
                    skip,
                    ..
                } = &**group;
                let position = place_of(keys, slots, *skip, node.key(), node.label());
                let come = slots[position].children.put(alloc, node)?;
                gathered(alloc, replaced(alloc, slots, position, come)?)
            }
        }
    }

    /// The children but the one of a label, in slots: one, or none.
    fn without(&self, alloc: Heap, label: &[u8]) -> Result<Vec<Slot, Heap>, AllocError>
        ensures taken { IfOk result (λ slots. joined slots.items ≡ without_child label.now (items self.now)) }
        ensures full { IfOk result (λ slots. AllFull slots.items) }
    {
        match self {
            Children::Empty => Ok(Vec::new(alloc)),
            Children::One(own) => {
                if own.is_called(key_of(label), label) {
                    return Ok(Vec::new(alloc));
                }
                one(alloc, Slot::one(own.share()?))
            }
            Children::Many(group) => {
                let Group {
                    keys,
                    slots,
                    skip,
                    ..
                } = &**group;
                let position = place_of(keys, slots, *skip, key_of(label), label);
                let rest = slots[position].children.without(alloc, label)?;
                gathered(alloc, replaced(alloc, slots, position, rest)?)
            }
        }
    }

    /// The children with one in place of that of the label, or without it.
    pub(crate) fn replaced(
        &self,
        alloc: Heap,
        label: &[u8],
        child: Option<Node>,
    ) -> Result<Children, AllocError>
        requires kept { AreChildren (items self.now) }
        requires label { IfSome child (λ c. c.label ≡ label.now) }
        ensures set { IfOk result (λ children. flat (items children)
            ≡ keep (before label.now) (flat (items self.now))
            ++ (map (pushed label.now) (own_at child) ++ keep (behind label.now) (flat (items self.now)))) }
        ensures kept { IfOk result (λ children. AreChildren (items children)) }
    {
        match child {
            Some(child) => {
                let _some = child.records();
                let put = self.put(alloc, child)?;
                children_in(alloc, put)
            }
            None => {
                let rest = self.without(alloc, label)?;
                children_in(alloc, rest)
            }
        }
    }
}

/// A child and another one, which replaces it where their labels are equal.
fn beside(alloc: Heap, own: &Node, node: Node) -> Result<Vec<Slot, Heap>, AllocError>
    ensures put { IfOk result (λ slots. joined slots.items ≡ put_child node (own.now ∷ [])) }
    ensures full { IfOk result (λ slots. AllFull slots.items) }
{
    let order = node.label().cmp(own.label());
    let slot = Slot::one(node);
    match order {
        Ordering::Less => two(alloc, slot, Slot::one(own.share()?)),
        Ordering::Equal => one(alloc, slot),
        Ordering::Greater => two(alloc, Slot::one(own.share()?), slot),
    }
}
