//! The labels of a name, one by one.
ghost use Rattle.std.specs.Prelude.{◌≡◌};
ghost use Rattle.std.specs.Iterator.{YieldsFirstRef, item_count};

use crate::{Name, NameRef, labels};
use std::marker::Model;

/// The labels of a name, the one next to the host first.
#[derive(Drop)]
pub struct Labels<'a> {
    octets: &'a [u8],
}

impl<'a> Model for Labels<'a> {
    ghost use Rattle.std.specs.Prelude.{ℕ, List};

    ghost Value = { List (List ℕ) };

    ghost use Rattle.dns_names.specs.Name.{labels_of};
    ghost use Rattle.dns_names.specs.Plain.{IsPlain};

    ghost view = { λ l. labels_of l.octets.now };

    ghost invariant = { λ l. IsPlain l.octets.now };
}

impl<'a> Iterator for Labels<'a> {
    type Item = &'a [u8];

    ghost next_gives = { YieldsFirstRef (λ l. l) };

    ghost remaining = { item_count (λ l. l) };

    fn next(&mut self) -> Option<&'a [u8]> {
        if self.octets.len() < 2 {
            return None;
        }
        let (label, behind) = labels::split_first(self.octets);
        self.octets = behind;
        Some(label)
    }
}

impl<'a> NameRef<'a> {
    /// The labels, the one next to the host first; the root has none.
    pub fn labels(&self) -> Labels<'a>
        ensures { result ≡ self.now }
    {
        Labels {
            octets: self.as_wire(),
        }
    }
}

impl Name {
    /// The labels, the one next to the host first; the root has none.
    pub fn labels(&self) -> Labels<'_>
        ensures { result ≡ self.now }
    {
        self.lend().labels()
    }
}
