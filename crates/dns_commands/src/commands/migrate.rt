//! Devices of sector format 1 that are made new, in format 2.
ghost use Rattle.std.specs.Prelude.{MatchResult, OnOk};
ghost use Rattle.std.specs.Result.{result_unwrap_or};
ghost use Rattle.std.specs.Io.KnownBytes.{Appends};
ghost use Rattle.dns_configuration.specs.Calls.{Calls};
ghost use Rattle.dns_commands.specs.Frame.{RunEnds};
ghost use Rattle.dns_commands.specs.Migrate.{IsMigratedAs, IsNotMigrated, MigrateEnds, MigratingEnds};
ghost use Rattle.dns_commands.specs.Migrate.{migrated};

use crate::frame::Run;
use dns_configuration::{DONE, FAILED, File, ZoneSettings, read_configuration, tell};
use dns_devices::{DeviceFault, Devices, tell_device};
use dns_memory::Heap;
use dns_sectors::Sectors;
use dns_store::{Migration, migrate as migrate_store};
use dns_zone::ZoneIndex;
use std::io::{self, Write};

/// Migrates the device of a configured zone.
fn migrate_one<D: Sectors + Drop, F: Devices<D>, I: ZoneIndex>(
    heap: Heap,
    devices: &mut F,
    own: &ZoneSettings,
) -> Result<Migration, DeviceFault>
    ensures { Calls (F.calls devices.old) (F.calls devices.new) (λ calls. MatchResult result
        (IsMigratedAs D.Sectors calls own.now) (IsNotMigrated D.Sectors calls own.now)) }
{
    let mut device = devices.open(&own.device)?;
    let (snapshot, journal) = (own.snapshot_sectors, own.journal_sectors);
    let migrated = migrate_store::<D, I>(heap, &mut device, &own.origin, snapshot, journal);
    devices.close(&own.device, device);
    match migrated {
        Ok(answer) => Ok(answer),
        Err(error) => Err(DeviceFault::from(error)),
    }
}

/// Prints what was done to the device of a zone.
fn print_migrated<W: Write>(out: &mut W, own: &ZoneSettings, answer: Migration) -> io::Result<()>
    ensures { OnOk result (Appends (W.contents out.old) (W.contents out.new) (migrated own.now answer)) }
{
    match answer {
        Migration::Migrated { version, serial } => writeln!(
            out,
            "migrated {} version {version} serial {serial}",
            own.origin
        ),
        Migration::Already => writeln!(out, "{} already", own.origin),
    }
}

/// Migrates the devices of zones, in their order, and prints each. Stops where one is refused.
fn migrate_zones<D: Sectors + Drop, F: Devices<D>, I: ZoneIndex, W: Write, E: Write>(
    run: &mut Run<F, W, E>,
    settings: &[ZoneSettings],
) -> io::Result<u8>
    ensures { RunEnds F.calls W.contents E.contents run.old run.new (result_unwrap_or result FAILED)
        (MigratingEnds D.Sectors settings.now) }
{
    for own in settings {
        match migrate_one::<D, F, I>(run.heap, &mut run.devices, own) {
            Ok(answer) => print_migrated(&mut run.out, own, answer)?,
            Err(fault) => return tell_device(&mut run.err, &own.device, fault, run.explain),
        }
    }
    Ok(DONE)
}

/// Migrates all devices, and gives the exit status.
fn migrate_all<D: Sectors + Drop, F: Devices<D>, I: ZoneIndex, W: Write, E: Write>(
    run: &mut Run<F, W, E>,
    config: &File<'_>,
) -> io::Result<u8>
    ensures { RunEnds F.calls W.contents E.contents run.old run.new (result_unwrap_or result FAILED)
        (MigrateEnds D.Sectors config.now) }
{
    let settings = match read_configuration(run.alloc, run.heap, config) {
        Ok(configuration) => configuration.zones,
        Err(fault) => return tell(&mut run.err, config.path, fault),
    };
    migrate_zones::<D, F, I, W, E>(run, &settings)
}

/// Makes the device of each zone of a configuration new, in sector format 2, if it is of format 1, and prints
/// `migrated ORIGIN version V serial M` with the newest version that it keeps, or `ORIGIN already` where it
/// is of format 2. Faults are reported in one line, the first in this order: the configuration, the devices
/// in the order of the zones, of which, if it is wanted, a second line says what can be done; the devices
/// before a refused one stay migrated. Gives the exit status: `DONE`, `REFUSED`, or `FAILED` where a device
/// can't be had, a writer failed or memory was refused. A run that was stopped is made again.
pub fn migrate<D: Sectors + Drop, F: Devices<D>, I: ZoneIndex, W: Write, E: Write>(
    run: &mut Run<F, W, E>,
    config: &File<'_>,
) -> u8
    ensures { RunEnds F.calls W.contents E.contents run.old run.new result
        (MigrateEnds D.Sectors config.now) }
{
    migrate_all::<D, F, I, W, E>(run, config).unwrap_or(FAILED)
}
