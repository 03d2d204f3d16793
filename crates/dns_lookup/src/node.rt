//! The node that answers for a name.
ghost use Rattle.std.specs.Prelude.{◌≡◌, ◌≤◌, length, IfOk};
ghost use Rattle.dns_names.specs.Name.{wire, wildcard};

use dns_memory::Heap;
use dns_names::{Name, NameRef};
use std::alloc::AllocError;
use std::marker::Model;

/// A node of a zone: a name, or the label `*` before a name. It takes no memory: the latter is not put
/// together before it is wanted.
#[derive(Drop)]
pub struct Node<'a> {
    base: NameRef<'a>,
    is_wildcard: bool,
}

impl<'a> Model for Node<'a> {
    ghost use Rattle.std.specs.Prelude.{ℕ, List};

    ghost Value = { List (List ℕ) };

    ghost use Rattle.dns_names.specs.Name.{IsName};
    ghost use Rattle.dns_lookup.specs.Node.{name_of_node};

    ghost view = { λ n. name_of_node n.base n.is_wildcard };

    ghost invariant = { λ n. IsName (name_of_node n.base n.is_wildcard) };
}

impl<'a> Node<'a> {
    /// The node of that name.
    pub(crate) fn named(name: NameRef<'a>) -> Node<'a>
        ensures { result ≡ name.entry }
    {
        let _valid = name.as_wire();
        Node {
            base: name,
            is_wildcard: false,
        }
    }

    /// The node `*` before the name.
    pub(crate) fn wildcard_of(name: NameRef<'a>) -> Node<'a>
        requires { length (wire name) ≤ 253 }
        ensures { result ≡ wildcard name.entry }
    {
        let _valid = name.as_wire();
        Node {
            base: name,
            is_wildcard: true,
        }
    }

    /// The name of the node, with memory of its own.
    pub fn to_name(&self, alloc: Heap) -> Result<Name, AllocError>
        ensures { IfOk result (λ name. name ≡ self.now) }
    {
        if self.is_wildcard {
            return self.base.to_name(alloc)?.wildcard_of(alloc);
        }
        self.base.to_name(alloc)
    }
}
