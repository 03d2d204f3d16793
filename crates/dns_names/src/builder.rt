//! Making a name from its octets, one by one.
ghost use Rattle.std.specs.Prelude.{◌≡◌, ℕ, ◌<◌, List, [], ◌∷◌, ◌++◌, length, slice_set, OnOk, Ok, Err, ◌⊎◌};
ghost use Rattle.std.specs.Prelude.{MatchResult, Option, if◌then◌else◌};
ghost use Rattle.std.specs.Char.{to_ascii_lowercase};

use crate::{Name, NameError};
use dns_memory::Heap;
use smallvec::SmallVec;
use std::alloc::AllocError;

/// Writes the octet at an index.
fn set_octet(octets: &mut SmallVec<u8, 32, Heap>, at: usize, octet: u8)
    requires { at < length octets.old.items }
    ensures { octets.new.items ≡ slice_set octets.old.items at octet }
{
    octets.as_mut_slice()[at] = octet;
}

/// Labels that have ended, and the octets of one that has not. The limits are tested when all is read, so
/// that the first refusal that applies is reported, and not the first that is met.
#[derive(Drop)]
pub(crate) struct Builder {
    /// Labels, each after its length, a place for the length of the open label, and its octets.
    octets: SmallVec<u8, 32, Heap>,
    /// The index of the open label's length.
    start: usize,
    /// Whether a label that has ended has no octet.
    empty: bool,
    /// Whether a label that has ended has more than 63 octets.
    long: bool,
}

impl Builder {
    ghost use Rattle.dns_names.specs.Name.{Labels};
    ghost use Rattle.dns_names.specs.Built.{IsBuilt, TakesLetter};
    ghost use Rattle.dns_names.specs.Text.{limited, with_origin, Letter, Escaped, Itself};

    pub(crate) fn new(alloc: Heap) -> Builder
        ensures { IsBuilt result [] [] }
    {
        Builder {
            octets: SmallVec::from_slice(alloc, &[0]).unwrap(),
            start: 0,
            empty: false,
            long: false,
        }
    }

    /// One more octet of the open label, in lower case.
    fn push(&mut self, octet: u8) -> Result<(), AllocError>
        requires { to_ascii_lowercase octet ≡ octet }
        ensures { OnOk result
            ((done : Labels) (tail : List ℕ) → IsBuilt self.old done tail
            → IsBuilt self.new done (tail ++ octet ∷ [])) }
    {
        self.octets.push(octet)?;
        Ok(())
    }

    /// The open label ends, and another begins.
    fn end_label(&mut self) -> Result<(), AllocError>
        requires { (done : Labels) × (tail : List ℕ) × IsBuilt self.old done tail }
        ensures { OnOk result
            ((done : Labels) (tail : List ℕ) → IsBuilt self.old done tail
            → IsBuilt self.new (done ++ tail ∷ []) []) }
    {
        let len = self.octets.len() - self.start - 1;
        self.empty |= len == 0;
        self.long |= len > 63;
        set_octet(&mut self.octets, self.start, len.min(63) as u8);
        self.start = self.octets.len();
        self.octets.push(0)?;
        Ok(())
    }

    /// One more letter: an unescaped dot ends the label, and any other is an octet of it, in lower case.
    pub(crate) fn take_letter(&mut self, octet: u8, escaped: bool) -> Result<(), AllocError>
        requires { (done : Labels) × (tail : List ℕ) × IsBuilt self.old done tail }
        ensures { OnOk result
            ((done : Labels) (tail : List ℕ) (behind : Option (List Letter))
            → IsBuilt self.old done tail
            → TakesLetter self.new done tail (if escaped then Escaped octet else Itself octet) behind) }
    {
        if !escaped && octet == b'.' {
            return self.end_label();
        }
        self.push(octet.to_ascii_lowercase())
    }

    /// The name: that of the origin follows an open label that has octets.
    pub(crate) fn finish(self, origin: &Name) -> Result<Name, NameError>
        requires { (done : Labels) × (tail : List ℕ) × IsBuilt self done tail }
        ensures { (done : Labels) (tail : List ℕ)
            → IsBuilt self done tail
            → MatchResult result (λ name. limited (with_origin origin.now (done, tail)) ≡ Ok name)
            (λ e. (e ≡ NameError.OutOfMemory) ⊎ (limited (with_origin origin.now (done, tail)) ≡ Err e)) }
    {
        let Builder {
            mut octets,
            start,
            empty,
            long,
        } = self;
        let behind = origin.as_wire();
        let len = octets.len() - start - 1;
        if empty {
            return Err(NameError::EmptyLabel);
        }
        if long || len > 63 {
            return Err(NameError::LabelTooLong);
        }
        if len > 0 {
            set_octet(&mut octets, start, len as u8);
            octets.extend_from_slice(behind)?;
        }
        if octets.len() > 255 {
            return Err(NameError::NameTooLong);
        }
        Ok(Name::of_plain(octets))
    }
}
