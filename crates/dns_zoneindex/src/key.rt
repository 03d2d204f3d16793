//! Labels by their first octets as one number, which decides most comparisons of two labels in one step.
ghost use Rattle.std.specs.Prelude.{◌≡◌, ◌<◌, ℕ, true, take, drop, length};
ghost use Rattle.dns_zoneindex.specs.Children.{label_cmp};
ghost use Rattle.dns_zone.specs.Keys.{IsKey};
ghost use Rattle.std.specs.Str.{bytes_eq};

use crate::node::Node;
use dns_names::same_octets;
use dns_zone::key_of;
use std::cmp::Ordering;

/// The key of a label without so many octets at its beginning.
#[inline(always)]
pub(crate) fn key_after(skip: u8, label: &[u8]) -> u64
    ensures { IsKey result (drop skip label.now) }
{
    match label.get(usize::from(skip)..) {
        Some(rest) => key_of(rest),
        None => 0,
    }
}

/// The same where the key without another number of octets is known.
#[inline(always)]
pub(crate) fn key_further(after: u8, key: u64, skip: u8, label: &[u8]) -> u64
    requires { IsKey key (drop after label.now) }
    ensures { IsKey result (drop skip label.now) }
{
    if skip == after {
        return key;
    }
    key_after(skip, label)
}

/// Whether so many octets at the beginnings of two labels are the same.
pub(crate) fn begin_alike(a: &[u8], b: &[u8], skip: u8) -> bool
    ensures { result ≡ true → take skip a.now ≡ take skip b.now }
{
    match (a.get(..usize::from(skip)), b.get(..usize::from(skip))) {
        (Some(front), Some(other)) => front == other,
        _ => false,
    }
}

/// How many octets at the beginnings of two labels are the same, in steps of four: so groups that are one in
/// another often skip as many, and one key serves them.
pub(crate) fn shared(a: &[u8], b: &[u8]) -> u8
    ensures { take result a.now ≡ take result b.now }
{
    let mut skip = 0;
    'steps: while skip < 60 {
        if !begin_alike(a, b, skip + 4) {
            return skip;
        }
        skip += 4;
    }
    skip
}

/// The order of a label and that of a node, which begin alike and have the same key after that: by what that
/// doesn't tell, which of labels with up to eight octets more is their length.
pub(crate) fn order(skip: u8, label: &[u8], node: &Node) -> Ordering
    requires { (key : ℕ) × IsKey key (drop skip label.now) × IsKey key (drop skip node.now.label) }
    ensures { take skip label.now ≡ take skip node.now.label → result ≡ label_cmp label.now node.now.label }
{
    if label.len() <= usize::from(skip) + 8 {
        return label.len().cmp(&node.label().len());
    }
    label.cmp(node.label())
}

/// Whether two labels are the same, of which one has this key. Of up to eight octets the key tells all but
/// how many they are.
#[inline(always)]
pub(crate) fn is_same(key: u64, label: &[u8], own: &[u8]) -> bool
    requires { IsKey key label.now }
    ensures { result ≡ bytes_eq label.now own.now }
{
    if label.len() != own.len() {
        return false;
    }
    if label.len() <= 8 {
        return key == key_of(own);
    }
    if key != key_of(own) {
        return false;
    }
    same_octets(label, own)
}
