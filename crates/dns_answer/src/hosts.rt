//! The hosts that were looked up for a reply.
ghost use Rattle.std.specs.Prelude.{◌≡◌, ◌||◌, List, [], ◌∷◌, ◌++◌, true, false, not, IfOk, OnOk};
ghost use Rattle.std.specs.List.{list_any};
ghost use Rattle.dns_names.specs.Name.{Labels, names_eq};
ghost use Rattle.dns_answer.specs.Hosts.{EndWithGreatest};

use crate::names::Names;
use dns_memory::Heap;
use dns_names::NameRef;
use std::alloc::AllocError;
use std::marker::Model;

/// Whether a name comes after the last of those that are given, or none is given.
fn ends_before(names: &[NameRef<'_>], next: &NameRef<'_>) -> bool
    requires { EndWithGreatest names.now }
    ensures { result ≡ true
        → (list_any (names_eq next.now) names.now ≡ false)
        × EndWithGreatest (names.now ++ next.now ∷ []) }
{
    match names.split_last() {
        Some((last, _)) => last.as_wire().cmp(next.as_wire()).is_lt(),
        None => true,
    }
}

/// Puts the names in.
fn put_all<'a>(names: &mut Names<'a>, more: &[NameRef<'a>]) -> Result<(), AllocError>
    ensures { OnOk result
        ((other : Labels)
        → list_any (names_eq other) names.new
        ≡ (list_any (names_eq other) more.now || list_any (names_eq other) names.old)) }
{
    for name in more {
        names.insert(name.reborrow())?;
    }
    Ok(())
}

/// Hosts, each held once. As long as each comes after the one before in the order of octets, as those of one
/// owner's records mostly do, they are a list, and none is searched for.
#[derive(Drop)]
pub(crate) struct Hosts<'a> {
    rising: Vec<NameRef<'a>, Heap>,
    others: Names<'a>,
}

impl<'a> Model for Hosts<'a> {
    ghost use Rattle.std.specs.Prelude.{List, ◌++◌};
    ghost use Rattle.dns_names.specs.Name.{Labels};
    ghost use Rattle.dns_answer.specs.Hosts.{EndWithGreatest};

    ghost Value = { List Labels };

    ghost view = { λ h. h.rising.items ++ h.others };

    ghost invariant = { λ h. EndWithGreatest h.rising.items };
}

impl<'a> Hosts<'a> {
    /// No host.
    pub(crate) fn new(alloc: Heap) -> Hosts<'a>
        ensures { result ≡ [] }
    {
        Hosts {
            rising: Vec::new(alloc),
            others: Names::new(alloc),
        }
    }

    /// Puts a host in, and answers whether it was none of them.
    pub(crate) fn insert(&mut self, host: NameRef<'a>) -> Result<bool, AllocError>
        ensures new { IfOk result (λ new. new ≡ not (list_any (names_eq host.entry) self.old)) }
        ensures names { OnOk result
            ((other : Labels)
            → list_any (names_eq other) self.new
            ≡ (names_eq other host.entry || list_any (names_eq other) self.old)) }
    {
        if self.others.is_empty() & ends_before(&self.rising, &host) {
            self.rising.push(host)?;
            return Ok(true);
        }
        put_all(&mut self.others, &self.rising)?;
        self.rising.clear();
        self.others.insert(host)
    }
}
