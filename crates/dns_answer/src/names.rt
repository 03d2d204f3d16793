//! Sets of names, lent.
ghost use Rattle.std.specs.Prelude.{◌≡◌, ◌||◌, [], true, not, IfOk, OnOk};
ghost use Rattle.std.specs.List.{list_any};
ghost use Rattle.std.specs.Option.{option_to_list};
ghost use Rattle.dns_names.specs.Name.{Labels, names_eq};

use dns_memory::Heap;
use dns_names::NameRef;
use std::alloc::AllocError;
use std::collections::BTreeSet;
use std::marker::Model;

/// Whether the name is the one that is given, if one is.
fn is_one(one: &Option<NameRef<'_>>, name: &NameRef<'_>) -> bool
    ensures { result ≡ list_any (names_eq name.now) (option_to_list one.now) }
{
    match one {
        Some(one) => name.is(one),
        None => false,
    }
}

/// Names, each held once. One alone is stored in place, and takes no memory; more are found by their octets.
#[derive(Drop)]
pub(crate) struct Names<'a> {
    first: Option<NameRef<'a>>,
    octets: BTreeSet<&'a [u8], Heap>,
}

impl<'a> Model for Names<'a> {
    ghost use Rattle.std.specs.Prelude.{List, map, ◌++◌};
    ghost use Rattle.std.specs.Option.{option_to_list};
    ghost use Rattle.std.specs.List.{AllByRecursion};
    ghost use Rattle.dns_names.specs.Name.{Labels, labels_of};
    ghost use Rattle.dns_names.specs.Plain.{IsPlain};

    ghost Value = { List Labels };

    ghost view = { λ n. option_to_list n.first ++ map (λ o. labels_of o.now) n.octets.keys };

    ghost invariant = { λ n. AllByRecursion (λ o. IsPlain o.now) n.octets.keys };
}

impl<'a> Names<'a> {
    /// No name.
    pub(crate) fn new(alloc: Heap) -> Names<'a>
        ensures { result ≡ [] }
    {
        Names {
            first: None,
            octets: BTreeSet::new(alloc),
        }
    }

    /// Whether there is none.
    pub(crate) fn is_empty(&self) -> bool
        ensures { result ≡ true → self.now ≡ [] }
    {
        self.first.is_none() & self.octets.is_empty()
    }

    /// Whether the name is one of them.
    pub(crate) fn has(&self, name: &NameRef<'_>) -> bool
        ensures { result ≡ list_any (names_eq name.now) self.now }
    {
        is_one(&self.first, name) || self.octets.contains(name.as_wire())
    }

    /// Puts a name in, and answers whether it was none of them.
    pub(crate) fn insert(&mut self, name: NameRef<'a>) -> Result<bool, AllocError>
        ensures new { IfOk result (λ new. new ≡ not (list_any (names_eq name.entry) self.old)) }
        ensures names { OnOk result
            ((other : Labels)
            → list_any (names_eq other) self.new
            ≡ (names_eq other name.entry || list_any (names_eq other) self.old)) }
    {
        if self.is_empty() {
            self.first = Some(name);
            return Ok(true);
        }
        if is_one(&self.first, &name) {
            return Ok(false);
        }
        Ok(self.octets.insert(name.as_wire())?)
    }
}
