//! What a primary is to know of the zones of a configuration.
ghost use Rattle.std.specs.Prelude.{◌≡◌, IfOk};
ghost use Rattle.std.specs.List.{AllZip};
ghost use Rattle.dns_configuration.specs.Known.{IsSettingOf, origins_of};

use crate::configuration::ZoneSettings;
use dns_memory::Heap;
use dns_names::Name;
use std::alloc::AllocError;

/// The names of zones, in their order.
pub fn origins_of(heap: Heap, zones: &[ZoneSettings]) -> Result<Vec<Name, Heap>, AllocError>
    ensures { IfOk result (λ names. names.items ≡ origins_of zones.now) }
{
    let mut origins = Vec::new(heap);
    for own in zones {
        origins.push(own.origin.clone()?)?;
    }
    Ok(origins)
}

/// What a primary is to know of a zone.
fn setting_of(heap: Heap, own: &ZoneSettings) -> Result<dns_primary::ZoneSpec, AllocError>
    ensures { IfOk result (IsSettingOf own.now) }
{
    Ok(dns_primary::ZoneSpec {
        snapshot: own.snapshot_sectors,
        journal: own.journal_sectors,
        keep: own.keep,
        update: Vec::from_slice(heap, &own.update)?,
        transfer: Vec::from_slice(heap, &own.transfer)?,
    })
}

/// What a primary is to know of zones, in their order.
pub fn settings_of(
    heap: Heap,
    zones: &[ZoneSettings],
) -> Result<Vec<dns_primary::ZoneSpec, Heap>, AllocError>
    ensures { IfOk result (λ known. AllZip IsSettingOf zones.now known.items) }
{
    let mut known = Vec::new(heap);
    for own in zones {
        known.push(setting_of(heap, own)?)?;
    }
    Ok(known)
}
