//! Names of their own: read from text or from wire form, lower case, within 255 octets (RFC 1035
//! section 2.3.4).
ghost use Rattle.std.specs.Prelude.{◌≡◌, ℕ, ◌+◌, ◌≤◌, List, length, map, take, slice_get, Some, None, IfOk};
ghost use Rattle.std.specs.Prelude.{IfErr, IsTrue, ◌↔◌, [], Ok, Err, ◌⊎◌, MatchResult};
ghost use Rattle.dns_names.specs.Text.{name_of_text, printed_name};
ghost use Rattle.std.specs.Char.{to_ascii_lowercase};
ghost use Rattle.dns_names.specs.Name.{Labels, IsName, IsUnder, wire, parent, wildcard, name_cmp, names_eq};
ghost use Rattle.dns_names.specs.Octets.{LabelsAt, ExplainsName};
ghost use Rattle.dns_names.specs.Compare.{names_eq-per, names_eq-equiv, name_cmp-total, name_cmp-ties};
ghost use Rattle.dns_names.specs.Compare.{name_cmp-po};
ghost use Rattle.std.specs.Ordering.{as_partial_cmp};
ghost use Rattle.std.specs.Prelude.{refl};

use crate::builder::Builder;
use crate::run::{RunFault, run_end};
use crate::text::split_letter;
use crate::{NameError, NameRef, labels, same_octets};
use dns_memory::Heap;
use smallvec::SmallVec;
use std::alloc::AllocError;
use std::cmp::Ordering;
use std::marker::Model;

/// A name, kept as its plain form.
pub struct Name {
    octets: SmallVec<u8, 32, Heap>,
}

// Written out, so that a proof lets one go by one call (docs/GATE.md).
impl Drop for Name {
    fn drop(self) {
        let Name { octets } = self;
        drop(octets);
    }
}

impl Model for Name {
    ghost use Rattle.std.specs.Prelude.{ℕ, List};

    ghost Value = { List (List ℕ) };

    ghost use Rattle.dns_names.specs.Name.{labels_of};
    ghost use Rattle.dns_names.specs.Plain.{IsPlain};

    ghost view = { λ n. labels_of n.octets.items };

    ghost invariant = { λ n. IsPlain n.octets.items };
}

/// Where the plain form of a name at the front of the octets has its zero octet.
pub(crate) fn root_of(octets: &[u8]) -> Result<usize, NameError>
    ensures found { IfOk result
        (λ stop. (stop ≤ 254) × (labels : Labels) × LabelsAt octets.now 0 labels stop
        × (slice_get octets.now stop ≡ Some 0)) }
    ensures refused { IfErr result (ExplainsName octets.now) }
    ensures other { IfErr result (λ e. e ≡ NameError.OutOfMemory → ⊥) }
{
    match run_end(octets, 0, 254) {
        Ok(stop) => {
            if octets[stop] == 0 {
                Ok(stop)
            } else {
                Err(NameError::LabelTooLong)
            }
        }
        Err(RunFault::Cut) => Err(NameError::Cut),
        Err(RunFault::TooLong) => Err(NameError::NameTooLong),
    }
}

/// The octets in lower case.
fn lowered(alloc: Heap, octets: &[u8]) -> Result<SmallVec<u8, 32, Heap>, AllocError>
    ensures { IfOk result (λ v. v.items ≡ map to_ascii_lowercase octets.now) }
{
    let mut plain = SmallVec::new(alloc);
    for octet in octets {
        plain.push(octet.to_ascii_lowercase())?;
    }
    Ok(plain)
}

impl Name {
    ghost use Rattle.dns_names.specs.Name.{labels_of};
    ghost use Rattle.dns_names.specs.Plain.{IsPlain};

    /// The name whose plain form the octets are: the caller knows that they are one.
    pub(crate) fn over(alloc: Heap, octets: &[u8]) -> Result<Name, AllocError>
        requires { IsPlain octets.now }
        ensures { IfOk result (λ name. name ≡ labels_of octets.now) }
    {
        Ok(Name {
            octets: SmallVec::from_slice(alloc, octets)?,
        })
    }

    /// The name that the octets are the plain form of.
    pub(crate) fn of_plain(octets: SmallVec<u8, 32, Heap>) -> Name
        requires { IsPlain octets.items }
        ensures { result ≡ labels_of octets.entry.items }
    {
        Name { octets }
    }

    /// The name of a text, in lower case: labels with dots between, in which `\\X` is the octet X and `\\DDD`
    /// the octet of that decimal value (RFC 1035 section 5.1). A text with no dot at its end is followed by
    /// the origin; `@` alone is the origin, and `.` alone is the root. Refused are, in this order, a misused
    /// `\\` (`BadEscape`), a label without octets (`EmptyLabel`), one of more than 63 (`LabelTooLong`), and a
    /// name of more than 255 in plain form (`NameTooLong`).
    pub fn from_text(alloc: Heap, text: &[u8], origin: &Name) -> Result<Name, NameError>
        ensures read { MatchResult result (λ name. name_of_text origin.now text.now ≡ Ok name)
            (λ e. (e ≡ NameError.OutOfMemory) ⊎ (name_of_text origin.now text.now ≡ Err e)) }
        // What is printed reads as the same name, with any origin.
        ensures printed { (name : Labels)
            → IsName name
            → text.now ≡ printed_name name
            → MatchResult result (λ n. n ≡ name) (λ e. e ≡ NameError.OutOfMemory) }
    {
        Name::of_text(alloc, text, origin)
    }

    fn of_text(alloc: Heap, text: &[u8], origin: &Name) -> Result<Name, NameError>
        ensures { MatchResult result (λ name. name_of_text origin.now text.now ≡ Ok name)
            (λ e. (e ≡ NameError.OutOfMemory) ⊎ (name_of_text origin.now text.now ≡ Err e)) }
    {
        if text == b"@".as_slice() {
            return Ok(origin.clone()?);
        }
        if text == b".".as_slice() {
            return Ok(Name::root(alloc));
        }
        if text.is_empty() {
            return Err(NameError::EmptyLabel);
        }
        let mut builder = Builder::new(alloc);
        let mut rest = text;
        'letters: while !rest.is_empty() {
            let Some((octet, escaped, behind)) = split_letter(rest) else {
                return Err(NameError::BadEscape);
            };
            builder.take_letter(octet, escaped)?;
            rest = behind;
        }
        builder.finish(origin)
    }

    /// The root, which has no label (RFC 1034 section 3.1).
    pub fn root(alloc: Heap) -> Name
        ensures { result ≡ [] }
    {
        Name {
            octets: SmallVec::from_slice(alloc, &[0]).unwrap(),
        }
    }

    /// The name whose plain form is at the front of the octets, and how many octets that has.
    pub fn parse_wire(alloc: Heap, octets: &[u8]) -> Result<(Name, usize), NameError>
        ensures found { IfOk result
            (λ r. IsName r.0 × (r.1 ≤ length octets.now)
            × (map to_ascii_lowercase (take r.1 octets.now) ≡ wire r.0)) }
        ensures refused { IfErr result (ExplainsName octets.now) }
        // What is a name is read, unless memory runs out.
        ensures only { (name : Labels) (n : ℕ)
            → IsName name
            → n ≤ length octets.now
            → map to_ascii_lowercase (take n octets.now) ≡ wire name
            → IfErr result (λ e. e ≡ NameError.OutOfMemory) }
    {
        let stop = root_of(octets)?;
        match lowered(alloc, &octets[..stop + 1]) {
            Ok(plain) => Ok((Name { octets: plain }, stop + 1)),
            Err(_) => Err(NameError::OutOfMemory),
        }
    }

    /// The plain form.
    pub fn as_wire(&self) -> &[u8]
        ensures octets { result.now ≡ wire self.now }
        ensures valid { IsName self.now }
    {
        self.octets.as_slice()
    }

    /// The name, lent.
    pub fn lend(&self) -> NameRef<'_>
        ensures { result ≡ self.now }
    {
        NameRef::over(self.octets.as_slice())
    }

    /// Whether the name is the ancestor or is under it.
    pub fn is_under(&self, ancestor: &Name) -> bool
        ensures { IsTrue result ↔ IsUnder self.now ancestor.now }
    {
        labels::is_under(self.octets.as_slice(), ancestor.octets.as_slice())
    }

    /// The name above it, if it is not the root.
    pub fn parent(&self, alloc: Heap) -> Result<Option<Name>, AllocError>
        ensures above { IfOk result (λ above. above ≡ parent self.now) }
        ensures root { self.now ≡ [] → result ≡ Ok None }
    {
        let octets = self.octets.as_slice();
        if octets.len() < 2 {
            return Ok(None);
        }
        let (_, rest) = labels::split_first(octets);
        Ok(Some(Name {
            octets: SmallVec::from_slice(alloc, rest)?,
        }))
    }

    /// The label `*` before the name.
    pub fn wildcard_of(&self, alloc: Heap) -> Result<Name, AllocError>
        requires { length (wire self.now) ≤ 253 }
        ensures { IfOk result (λ name. name ≡ wildcard self.now) }
    {
        let mut octets = SmallVec::new(alloc);
        octets.push(1)?;
        octets.push(b'*')?;
        octets.extend_from_slice(self.octets.as_slice())?;
        Ok(Name { octets })
    }
}

impl Clone for Name {
    ghost is_clone = { λ name copy. copy ≡ name };

    fn clone(&self) -> Result<Self, AllocError> {
        Ok(Name {
            octets: SmallVec::from_slice(*self.octets.allocator(), self.octets.as_slice())?,
        })
    }
}

impl PartialEq for Name {
    ghost eq = { names_eq };

    ghost laws = { names_eq-per };

    fn eq(&self, other: &Self) -> bool
        ensures value { result ≡ names_eq self.now other.now }
        ensures same { IsTrue result ↔ (self.now ≡ other.now) }
    {
        same_octets(self.octets.as_slice(), other.octets.as_slice())
    }
}

impl Eq for Name {
    ghost laws = { names_eq-equiv };
}

impl PartialOrd for Name {
    ghost partial_cmp = { as_partial_cmp name_cmp };

    ghost laws = { name_cmp-po };

    fn partial_cmp(&self, other: &Self) -> Option<Ordering> {
        Some(self.cmp(other))
    }
}

impl Ord for Name {
    ghost cmp = { name_cmp };

    ghost total = { name_cmp-total };

    ghost matches_partial_cmp = { λ a b. refl };

    ghost matches_eq = { name_cmp-ties };

    /// The order of names: labels from the root downward, as octets (RFC 4034 section 6.1).
    fn cmp(&self, other: &Self) -> Ordering
        ensures { result ≡ name_cmp self.now other.now }
    {
        labels::compare(self.octets.as_slice(), other.octets.as_slice())
    }
}
