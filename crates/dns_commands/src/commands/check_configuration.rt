//! The check of a configuration, with all that it names but the devices.
ghost use Rattle.std.specs.Prelude.{◌≡◌, ◌↔◌, length, flat_map, IfOk, IsTrue, OnOk, MatchOption};
ghost use Rattle.std.specs.List.{AllZip};
ghost use Rattle.std.specs.Io.KnownBytes.{Appends};
ghost use Rattle.dns_commands.specs.CheckConfiguration.{ConfigurationCheckEnds, HasSectors, IsFirstTooLarge};
ghost use Rattle.dns_commands.specs.CheckConfiguration.{good_line};

use crate::frame::Run;
use dns_configuration::{DONE, FAILED, File, ZoneSettings, load_all, read_configuration, tell};
use dns_devices::{DeviceFault, tell_device};
use dns_layout::snapshot_sectors;
use dns_memory::Heap;
use dns_store::snapshot_len;
use dns_zone::{Zone, ZoneIndex};
use std::io::{self, Write};

/// Whether a snapshot of a zone has room in the sectors that are configured for it.
fn has_sectors<I: ZoneIndex>(own: &ZoneSettings, zone: &Zone<I>) -> bool
    ensures { IsTrue result ↔ HasSectors own.now zone.now }
{
    let _valid = zone.apex();
    snapshot_sectors(snapshot_len(zone)) <= own.snapshot_sectors as usize
}

/// The path of the first device in which the zone has no room.
pub(crate) fn first_too_large<'s, I: ZoneIndex>(
    settings: &'s [ZoneSettings],
    zones: &[Zone<I>],
) -> Option<&'s str>
    requires { length settings.now ≡ length zones.now }
    ensures { MatchOption result (AllZip HasSectors settings.now zones.now)
        (λ path. IsFirstTooLarge settings.now zones.now path.now) }
{
    for index in 0..settings.len() {
        let own = &settings[index];
        if !has_sectors(own, &zones[index]) {
            return Some(&own.device);
        }
    }
    None
}

/// How many records a zone has.
fn record_count<I: ZoneIndex>(zone: &Zone<I>) -> usize
    ensures { result ≡ length zone.now.records }
{
    zone.index().len()
}

/// Prints how many records a zone has, and its serial.
fn print_good_zone<I: ZoneIndex, W: Write>(out: &mut W, zone: &Zone<I>) -> io::Result<()>
    ensures { OnOk result (Appends (W.contents out.old) (W.contents out.new) (good_line zone.now)) }
{
    writeln!(
        out,
        "{} ok {} records serial {}",
        zone.apex(),
        record_count(zone),
        zone.soa().serial()
    )
}

/// Prints how many records each zone has, and its serial.
fn print_good_zones<I: ZoneIndex, W: Write>(out: &mut W, zones: &[Zone<I>]) -> io::Result<()>
    ensures { OnOk result
        (Appends (W.contents out.old) (W.contents out.new) (flat_map good_line zones.now)) }
{
    for zone in zones {
        print_good_zone(out, zone)?;
    }
    Ok(())
}

/// Checks a configuration, and gives the exit status.
fn checked_configuration<I: ZoneIndex, W: Write, E: Write>(
    run: &mut Run<(), W, E>,
    config: &File<'_>,
    files: &[File<'_>],
) -> io::Result<u8>
    ensures { IfOk result
        (λ status. ConfigurationCheckEnds config.now files.now run.old.explain (W.contents run.old.out)
        (W.contents run.new.out) (E.contents run.old.err) (E.contents run.new.err) status) }
{
    let settings = match read_configuration(run.alloc, run.heap, config) {
        Ok(configuration) => configuration.zones,
        Err(fault) => return tell(&mut run.err, config.path, fault),
    };
    let zones: Vec<Zone<I>, Heap> = match load_all(run.heap, files, &settings) {
        Ok(zones) => zones,
        Err((path, fault)) => return tell(&mut run.err, path, fault),
    };
    if let Some(path) = first_too_large(&settings, &zones) {
        return tell_device(&mut run.err, path, DeviceFault::ZoneTooLarge, run.explain);
    }
    print_good_zones(&mut run.out, &zones)?;
    Ok(DONE)
}

/// Reads a configuration and the master file of each of its zones, and prints `ORIGIN ok N records serial M`
/// for each. Faults are reported in one line, the first in this order: the configuration, the master files in
/// the order of the zones, `DEVICE: ZoneTooLarge` of the first zone whose snapshot takes more sectors than
/// its device is to have; of the last, if it is wanted, a second line says what can be done. Gives the exit
/// status: `DONE`, `REFUSED`, or `FAILED` where a writer failed or memory was refused. No device is opened.
pub fn check_configuration<I: ZoneIndex, W: Write, E: Write>(
    run: &mut Run<(), W, E>,
    config: &File<'_>,
    files: &[File<'_>],
) -> u8
    ensures { ConfigurationCheckEnds config.now files.now run.old.explain (W.contents run.old.out)
        (W.contents run.new.out) (E.contents run.old.err) (E.contents run.new.err) result }
{
    checked_configuration::<I, W, E>(run, config, files).unwrap_or(FAILED)
}
