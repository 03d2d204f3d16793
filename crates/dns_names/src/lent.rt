//! A name that is lent: octets that are stored elsewhere, as a message or a zone holds them.
ghost use Rattle.std.specs.Prelude.{◌≡◌, ℕ, List, ◌++◌, ◌↔◌, Some, None, IfOk, IfSome, IfNone, IsTrue};
ghost use Rattle.std.specs.Prelude.{length, map};
ghost use Rattle.std.specs.Char.{to_ascii_lowercase};
ghost use Rattle.dns_names.specs.Name.{Labels, IsName, IsUnder, wire, parent, is_wildcard, name_cmp};

use crate::name::root_of;
use crate::{Name, labels, same_octets};
use dns_memory::Heap;
use std::alloc::AllocError;
use std::cmp::Ordering;
use std::marker::Model;

/// A name that somebody else keeps: the plain form, lent. Its ancestors are tails of it, so that walking up
/// takes no memory.
#[derive(Drop)]
pub struct NameRef<'a> {
    octets: &'a [u8],
}

impl<'a> Model for NameRef<'a> {
    ghost use Rattle.std.specs.Prelude.{ℕ, List};

    ghost Value = { List (List ℕ) };

    ghost use Rattle.dns_names.specs.Name.{labels_of};
    ghost use Rattle.dns_names.specs.Plain.{IsPlain};

    ghost view = { λ n. labels_of n.octets.now };

    ghost invariant = { λ n. IsPlain n.octets.now };
}

/// Whether no octet is a capital. It looks at all of them, which costs less than to stop at the first.
fn is_lower(octets: &[u8]) -> bool
    ensures { IsTrue result ↔ (map to_ascii_lowercase octets.now ≡ octets.now) }
{
    let mut is_lower = true;
    for octet in octets {
        is_lower &= !octet.is_ascii_uppercase();
    }
    is_lower
}

impl<'a> NameRef<'a> {
    ghost use Rattle.dns_names.specs.Name.{labels_of};
    ghost use Rattle.dns_names.specs.Plain.{IsPlain};

    /// The name whose plain form the octets are: the caller knows that they are one.
    pub fn over(octets: &'a [u8]) -> NameRef<'a>
        requires { IsPlain octets.now }
        ensures { result ≡ labels_of octets.now }
    {
        NameRef { octets }
    }

    /// The name whose plain form, in lower case, is at the front of the octets, and the octets after it.
    pub fn first(octets: &'a [u8]) -> Option<(NameRef<'a>, &'a [u8])>
        ensures found { IfSome result (λ r. IsName r.0 × (octets.now ≡ wire r.0 ++ r.1.now)) }
        ensures none { IfNone result
            ((name : Labels) (rest : List ℕ) → IsName name → octets.now ≡ wire name ++ rest → ⊥) }
    {
        let Ok(stop) = root_of(octets) else {
            return None;
        };
        let (plain, rest) = octets.split_at(stop + 1);
        if !is_lower(plain) {
            return None;
        }
        Some((NameRef { octets: plain }, rest))
    }

    /// The plain form (RFC 1035 section 3.1).
    pub fn as_wire(&self) -> &'a [u8]
        ensures octets { result.now ≡ wire self.now }
        ensures valid { IsName self.now }
    {
        self.octets
    }

    /// The same name, lent once more.
    pub fn reborrow(&self) -> NameRef<'a>
        ensures { result ≡ self.now }
    {
        NameRef {
            octets: self.octets,
        }
    }

    /// The name with memory of its own.
    pub fn to_name(&self, alloc: Heap) -> Result<Name, AllocError>
        ensures { IfOk result (λ name. name ≡ self.now) }
    {
        Name::over(alloc, self.octets)
    }

    /// How many labels the name has; the root has none.
    pub fn label_count(&self) -> usize
        ensures { result ≡ length self.now }
    {
        labels::label_count(self.octets)
    }

    /// The name above it, if it is not the root (RFC 1034 section 3.1).
    pub fn parent(&self) -> Option<NameRef<'a>>
        ensures { result ≡ parent self.now }
    {
        if self.octets.len() < 2 {
            return None;
        }
        let (_, rest) = labels::split_first(self.octets);
        Some(NameRef { octets: rest })
    }

    /// Whether the name is the ancestor or is under it (RFC 1034 section 3.1).
    pub fn is_under(&self, ancestor: &NameRef<'_>) -> bool
        ensures { IsTrue result ↔ IsUnder self.now ancestor.now }
    {
        labels::is_under(self.octets, ancestor.octets)
    }

    /// Whether the first label is `*` (RFC 4592 section 2.1.1).
    pub fn begins_with_asterisk(&self) -> bool
        ensures { result ≡ is_wildcard self.now }
    {
        let octets = self.as_wire();
        octets.len() > 1 && octets[0] == 1 && octets[1] == b'*'
    }

    /// Whether the two are one name.
    pub fn is(&self, other: &NameRef<'_>) -> bool
        ensures { IsTrue result ↔ (self.now ≡ other.now) }
    {
        same_octets(self.octets, other.octets)
    }

    /// The order of names: labels from the root downward, as octets (RFC 4034 section 6.1).
    pub fn cmp(&self, other: &NameRef<'_>) -> Ordering
        ensures { result ≡ name_cmp self.now other.now }
    {
        labels::compare(self.octets, other.octets)
    }
}
