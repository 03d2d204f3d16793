//! The names whose records an update can touch.
ghost use Rattle.std.specs.Prelude.{◌≡◌, ◌∷◌, map, IfOk};
ghost use Rattle.dns_update.specs.Touched.{AreTouched};

use crate::item::ResourceRecord;
use dns_memory::Heap;
use dns_names::Name;
use std::alloc::AllocError;

/// The apex and the owners of the items, as they come.
fn owners(alloc: Heap, apex: &Name, items: &[ResourceRecord]) -> Result<Vec<Name, Heap>, AllocError>
    ensures { IfOk result (λ names. names.items ≡ apex.now ∷ map (λ i. i.owner) items.now) }
{
    let mut names = Vec::new(alloc);
    names.push(apex.clone()?)?;
    for item in items {
        names.push(item.owner().clone()?)?;
    }
    Ok(names)
}

/// The apex, whose SOA gets the next serial, and the owners of the items, in order and each once.
pub(crate) fn touched_names(
    alloc: Heap,
    apex: &Name,
    items: &[ResourceRecord],
) -> Result<Vec<Name, Heap>, AllocError>
    ensures { IfOk result (λ names. AreTouched apex.now items.now names.items) }
{
    let mut names = owners(alloc, apex, items)?;
    names.sort()?;
    names.dedup();
    Ok(names)
}
