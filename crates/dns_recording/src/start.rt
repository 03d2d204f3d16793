//! The comments with which a recording begins.
ghost use Rattle.std.specs.Prelude.{OnOk};
ghost use Rattle.std.specs.Io.KnownBytes.{Appends};
ghost use Rattle.dns_primary.specs.Keeps.{IsKept};
ghost use Rattle.dns_primary.specs.Machine.{Machine};
ghost use Rattle.dns_recording.specs.Script.{zone_comment, zone_comments};

use dns_names::Name;
use dns_primary::Primary;
use dns_store::ZoneStore;
use dns_zone::{Zone, ZoneIndex};
use std::io::{self, Write};

/// Writes which version of a zone is shown.
fn write_zone<I: ZoneIndex, W: Write>(
    out: &mut W,
    origin: &Name,
    version: u64,
    zone: &Zone<I>,
) -> io::Result<()>
    ensures { OnOk result
        (Appends (W.contents out.old) (W.contents out.new) (zone_comment origin.now version zone.now)) }
{
    let serial = zone.soa().serial();
    writeln!(out, "# zone {origin} version {version} serial {serial}")
}

/// Writes which version of each zone is shown.
pub(crate) fn write_zones<I: ZoneIndex, S: ZoneStore, W: Write>(
    out: &mut W,
    primary: &Primary<I, S>,
    origins: &[Name],
) -> io::Result<()>
    ensures { OnOk result ((m : Machine) → IsKept primary.now m
        → Appends (W.contents out.old) (W.contents out.new) (zone_comments origins.now m.zones)) }
{
    for index in 0..origins.len() {
        if let Some((version, zone)) = primary.shown(index) {
            write_zone(out, &origins[index], version, zone)?;
        }
    }
    Ok(())
}
