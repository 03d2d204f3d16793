//! Devices that are shown: the zone that one keeps, as a master file.
ghost use Rattle.std.specs.Result.{result_unwrap_or};
ghost use Rattle.dns_commands.specs.Dump.{DumpEnds, ShowingEnds};
ghost use Rattle.dns_commands.specs.Frame.{RunEnds};

use crate::frame::{Run, zone_named};
use dns_configuration::{DONE, FAILED, File, ZoneSettings, tell};
use dns_devices::{Devices, open_zone, tell_device};
use dns_masterfile::print_zone;
use dns_sectors::Sectors;
use dns_zone::ZoneIndex;
use std::io::{self, Write};

/// Shows the device of a zone, and returns the exit status.
fn show<D: Sectors + Drop, F: Devices<D>, I: ZoneIndex, W: Write, E: Write>(
    run: &mut Run<F, W, E>,
    own: &ZoneSettings,
) -> io::Result<u8>
    ensures { RunEnds F.calls W.contents E.contents run.old run.new (result_unwrap_or result FAILED)
        (ShowingEnds D.Sectors own.now) }
{
    match open_zone::<D, F, I>(run.heap, &mut run.devices, own) {
        Ok(zone) => {
            print_zone(&zone, &mut run.out)?;
            Ok(DONE)
        }
        Err(fault) => tell_device(&mut run.err, &own.device, fault, run.explain),
    }
}

/// Prints the zone of a device, and returns the exit status.
fn dump_zone<D: Sectors + Drop, F: Devices<D>, I: ZoneIndex, W: Write, E: Write>(
    run: &mut Run<F, W, E>,
    config: &File<'_>,
    origin: &str,
) -> io::Result<u8>
    ensures { RunEnds F.calls W.contents E.contents run.old run.new (result_unwrap_or result FAILED)
        (DumpEnds D.Sectors config.now origin.now) }
{
    match zone_named(run.alloc, run.heap, config, origin) {
        Ok(own) => show::<D, F, I, W, E>(run, &own),
        Err((word, fault)) => tell(&mut run.err, word, fault),
    }
}

/// Prints the zone that the device of a configuration's zone keeps, as a master file. Faults are reported in
/// one line, the first in this order: the configuration, the origin (`ORIGIN: BadOrigin`), the device, of
/// which, if it is wanted, a second line says what can be done. The device is only looked into: it keeps its
/// version, and counts one more opening. Returns the exit status: `DONE`, `REFUSED`, or `FAILED` if the
/// device can't be had, a writer failed or memory was refused.
pub fn dump<D: Sectors + Drop, F: Devices<D>, I: ZoneIndex, W: Write, E: Write>(
    run: &mut Run<F, W, E>,
    config: &File<'_>,
    origin: &str,
) -> u8
    ensures { RunEnds F.calls W.contents E.contents run.old run.new result
        (DumpEnds D.Sectors config.now origin.now) }
{
    dump_zone::<D, F, I, W, E>(run, config, origin).unwrap_or(FAILED)
}
