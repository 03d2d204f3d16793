//! Records by their indices in order, a run of them in one piece.
ghost use Rattle.std.specs.Prelude.{◌≡◌, length, IfSome, IfNone};
ghost use Rattle.dns_zoneindex.specs.Children.{items, joined, AllFull, AreChildren};
ghost use Rattle.dns_zoneindex.specs.Entries.{flat};
ghost use Rattle.dns_zoneindex.specs.Lent.{IsLent, IsThere, IsBeyond, LeadsToRun};
ghost use Rattle.dns_zoneindex.specs.Owned.{path_records};

use crate::node::{Branch, Children, Group, Kind, Node, Slot};
use dns_records::Record;
use std::slice;

/// The slot that holds the record at an index among all records, and its index among those of the slot.
fn slot_of(slots: &[Slot], position: usize) -> Option<(&Slot, usize)>
    ensures found { IfSome result (λ p. IsThere slots.now position p.0.now p.1) }
    ensures none { IfNone result (IsBeyond slots.now position) }
{
    let mut left = position;
    for slot in slots {
        if left < slot.count {
            return Some((slot, left));
        }
        left -= slot.count;
    }
    None
}

/// The same where the number of all records is known. If there are as many slots, each has one record.
#[inline(always)]
fn slot_in(slots: &[Slot], count: usize, position: usize) -> Option<(&Slot, usize)>
    requires full { AllFull slots.now }
    requires kept { AreChildren (joined slots.now) }
    requires all { count ≡ length (flat (joined slots.now)) }
    ensures found { IfSome result (λ p. IsThere slots.now position p.0.now p.1) }
    ensures none { IfNone result (IsBeyond slots.now position) }
{
    if count != slots.len() {
        return slot_of(slots, position);
    }
    let slot = slots.get(position)?;
    Some((slot, 0))
}

/// How records at and under a name are found by their indices.
#[derive(Drop)]
enum Step<'s> {
    /// They are these, from the index on.
    Run(&'s [Record]),
    /// They are those of the children, from another index on.
    Below(&'s Children, usize),
}

impl Children {
    /// Records from an index on, of all that are at and under the children.
    pub(crate) fn run_from(&self, position: usize) -> &[Record]
        ensures { IsLent (path_records (flat (items self.now))) position result.now }
    {
        let mut here = self;
        let mut left = position;
        'down: loop {
            match here {
                Children::Empty => return &[],
                Children::One(node) => match node.step(left) {
                    Step::Run(run) => return run,
                    Step::Below(children, rest) => {
                        here = children;
                        left = rest;
                    }
                },
                Children::Many(group) => {
                    let Group { slots, count, .. } = &**group;
                    match slot_in(slots, *count, left) {
                        Some((slot, rest)) => {
                            here = &slot.children;
                            left = rest;
                        }
                        None => return &[],
                    }
                }
            }
        }
    }
}

impl Node {
    /// Records from an index on, of all that are at and under the name.
    pub(crate) fn run_from(&self, position: usize) -> &[Record]
        ensures { IsLent (path_records self.now.own) position result.now }
    {
        match self.step(position) {
            Step::Run(run) => run,
            Step::Below(children, left) => children.run_from(left),
        }
    }

    /// The same, or where to look for them.
    #[inline(always)]
    fn step(&self, position: usize) -> Step<'_>
        ensures { LeadsToRun self.now.own position result }
    {
        match &self.kind {
            Kind::Leaf(record) => {
                if position == 0 {
                    return Step::Run(slice::from_ref(record));
                }
                Step::Run(&[])
            }
            Kind::Branch(branch) => branch.step(position),
        }
    }
}

impl Branch {
    /// Records from an index on, of all that are at and under the name, or where to look for them.
    #[inline(always)]
    fn step(&self, position: usize) -> Step<'_>
        ensures { LeadsToRun self.now.own position result }
    {
        let own = self.records.as_slice();
        if position < own.len() {
            return Step::Run(&own[position..]);
        }
        Step::Below(&self.children, position - own.len())
    }
}
