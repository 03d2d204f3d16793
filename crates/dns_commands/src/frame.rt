//! What a command runs with, and the zone that one runs for.
ghost use Rattle.std.specs.Prelude.{◌≡◌, ◌⊎◌, true, MatchResult};
ghost use Rattle.dns_configuration.specs.Faults.{fault_text, is_memory};
ghost use Rattle.dns_configuration.specs.Named.{IsNamed, IsNoZoneName, zone_configured};

use dns_configuration::{Fault, File, ZoneSettings, apex, read_configuration};
use dns_memory::Heap;
use dns_names::Name;
use std::alloc::Global;

/// What a command runs with: memory, devices by their paths, and where it prints and reports.
#[derive(Drop)]
pub struct Run<F, W, E> {
    pub alloc: Global,
    pub heap: Heap,
    pub devices: F,
    /// Whether a second line of an error says what can be done.
    pub explain: bool,
    /// Where the command prints.
    pub out: W,
    /// Where it reports errors.
    pub err: E,
}

/// The zone of that name, taken out of the others.
fn take_zone(zones: Vec<ZoneSettings>, name: &Name) -> Option<ZoneSettings>
    ensures { result ≡ zone_configured name.now zones.items }
{
    let mut zones = zones;
    for position in 0..zones.len() {
        if zones[position].origin == *name {
            return Some(zones.swap_remove(position));
        }
    }
    None
}

/// The zone of a configuration that a text names; or what is wrong, and the path or the text that it is wrong
/// with: the configuration is refused, the text is no name, or that of no zone.
pub(crate) fn zone_named<'w>(
    alloc: Global,
    heap: Heap,
    config: &File<'w>,
    origin: &'w str,
) -> Result<ZoneSettings, (&'w str, Fault)>
    ensures { MatchResult result (IsNamed config.now origin.now)
        (λ r. (is_memory r.1 ≡ true) ⊎ IsNoZoneName config.now origin.now (fault_text r.0.now r.1)) }
{
    let zones = match read_configuration(alloc, heap, config) {
        Ok(configuration) => configuration.zones,
        Err(fault) => return Err((config.path, fault)),
    };
    let name = match apex(heap, origin) {
        Ok(name) => name,
        Err(fault) => return Err((origin, fault)),
    };
    match take_zone(zones, &name) {
        Some(own) => Ok(own),
        None => Err((origin, Fault::BadOrigin)),
    }
}
