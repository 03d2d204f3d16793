//! The zone of a configuration that a name asks for.
ghost use Rattle.std.specs.Prelude.{◌≡◌};
ghost use Rattle.std.specs.Option.{option_copied};
ghost use Rattle.dns_configuration.specs.Named.{zone_configured};

use crate::configuration::ZoneSettings;
use dns_names::Name;

/// The zone of that name.
pub fn zone_of<'s>(zones: &'s [ZoneSettings], name: &Name) -> Option<&'s ZoneSettings>
    ensures { option_copied result ≡ zone_configured name.now zones.now }
{
    zones.iter().find(|own| own.origin == *name)
}
