//! Branches: nodes with a label, records and children in memory of their own.
ghost use Rattle.std.specs.Prelude.{◌≡◌, ◌<◌, length, IfOk};
ghost use Rattle.std.specs.Option.{option_copied};
ghost use Rattle.dns_zoneindex.specs.Children.{items, own_of, node_of, leaf_label, AreChildren};
ghost use Rattle.dns_zoneindex.specs.Entries.{under_label, here_of, own_at};
ghost use Rattle.dns_zoneindex.specs.Held.{held};
ghost use Rattle.dns_zone.specs.Keys.{IsKey};
ghost use Rattle.std.specs.Str.{bytes_eq};

use crate::count::sum;
use crate::node::{Branch, Children, Node};
use crate::records::Records;
use dns_memory::Heap;
use dns_names::same_octets;
use dns_records::Record;
use dns_zone::key_of;
use smallvec::SmallVec;
use std::alloc::AllocError;

/// The first label of a record's owner. The root has none.
#[inline(always)]
pub(crate) fn first_label(r: &Record) -> &[u8]
    ensures { result.now ≡ leaf_label r.now }
{
    match r.owner().labels().next() {
        Some(label) => label,
        None => &[],
    }
}

impl Branch {
    /// What is stored at and under a name: its records, and what its children have.
    pub(crate) fn new(
        alloc: Heap,
        label: &[u8],
        records: Records,
        children: Children,
    ) -> Result<Branch, AllocError>
        requires some { 0 < length (own_of (held records) children) }
        requires order { AreChildren (items children) }
        ensures made { IfOk result (λ branch. branch ≡ node_of label.now (held records) children) }
        ensures some { IfOk result (λ branch. 0 < length branch.own) }
    {
        let count = sum(records.as_slice().len(), children.count())?;
        Ok(Branch {
            label: SmallVec::from_slice(alloc, label)?,
            key: key_of(label),
            records,
            children,
            count,
        })
    }

    /// The records that the name owns.
    #[inline(always)]
    pub(crate) fn records(&self) -> &[Record]
        ensures own { result.now ≡ here_of self.now.own }
        ensures kept { 0 < length self.now.own }
    {
        self.records.as_slice()
    }

    /// The records that the name owns, to be shared.
    pub(crate) fn share_records(&self) -> Result<Records, AllocError>
        ensures { IfOk result (λ shared. held shared ≡ here_of self.now.own) }
    {
        self.records.share()
    }

    /// The children of the name, shared.
    pub(crate) fn share_children(&self) -> Result<Children, AllocError>
        ensures own { IfOk result (λ children. self.now.own ≡ own_of (here_of self.now.own) children) }
        ensures order { IfOk result (λ children. AreChildren (items children)) }
    {
        self.children.share()
    }

    /// How many records are at and under the name: at least one, or the name would not be kept.
    pub(crate) fn count(&self) -> usize
        ensures own { result ≡ length self.now.own }
        ensures kept { 0 < result }
    {
        self.count
    }

    /// The child of a label.
    #[inline(always)]
    pub(crate) fn child(&self, label: &[u8]) -> Option<&Node>
        ensures found { own_at (option_copied result) ≡ under_label label.now self.now.own }
        ensures kept { 0 < length self.now.own }
    {
        self.children.find(label)
    }

    /// The label before the name above.
    pub(crate) fn label(&self) -> &[u8]
        ensures { result.now ≡ self.now.label }
    {
        self.label.as_slice()
    }

    /// The first octets of the label.
    pub(crate) fn key(&self) -> u64
        ensures { IsKey result self.now.label }
    {
        self.key
    }

    /// Whether a label is that of the branch. Of up to eight octets the key tells all but how many they are.
    #[inline(always)]
    pub(crate) fn is_called(&self, key: u64, label: &[u8]) -> bool
        requires { IsKey key label.now }
        ensures { result ≡ bytes_eq label.now self.now.label }
    {
        let Branch {
            label: own,
            key: own_key,
            ..
        } = self;
        if key != *own_key {
            return false;
        }
        if label.len() != own.len() {
            return false;
        }
        if label.len() <= 8 {
            return true;
        }
        same_octets(label, own.as_slice())
    }
}
