//! A run that makes the records of a zone's master file the next version of its store.
ghost use Rattle.std.specs.Prelude.{◌≡◌, OnOk};
ghost use Rattle.std.specs.Result.{result_unwrap_or};
ghost use Rattle.std.specs.Io.KnownBytes.{Appends};
ghost use Rattle.dns_commands.specs.Frame.{RunEnds};
ghost use Rattle.dns_commands.specs.LoadRun.{LoadEnds, LoadingEnds, difference_line, loaded_line};
ghost use Rattle.dns_commands.specs.LoadRun.{loaded_text, path_blamed};

use crate::frame::{Run, zone_named};
use crate::next_version::{Loaded, load_zone};
use dns_configuration::{DONE, FAILED, File, ZoneSettings, load_one, tell};
use dns_devices::{DeviceFault, Devices, tell_device};
use dns_sectors::Sectors;
use dns_zone::{Zone, ZoneIndex};
use std::io::{self, Write};

/// Prints which version of a zone was loaded.
fn print_version<W: Write>(
    out: &mut W,
    own: &ZoneSettings,
    version: u64,
    serial: u32,
) -> io::Result<()>
    ensures { OnOk result
        (Appends (W.contents out.old) (W.contents out.new) (loaded_text own.now version serial)) }
{
    write!(
        out,
        "loaded {} version {version} serial {serial}",
        own.origin
    )
}

/// Prints how many records came and how many went.
pub(crate) fn print_difference<W: Write>(
    out: &mut W,
    added: usize,
    removed: usize,
) -> io::Result<()>
    ensures { OnOk result
        (Appends (W.contents out.old) (W.contents out.new) (difference_line added removed)) }
{
    writeln!(out, ", {added} added, {removed} removed")
}

/// Prints what was done with the records of a zone's master file.
fn print_loaded<W: Write>(out: &mut W, own: &ZoneSettings, answer: Loaded) -> io::Result<()>
    ensures { OnOk result (Appends (W.contents out.old) (W.contents out.new) (loaded_line own.now answer)) }
{
    match answer {
        Loaded::Already => writeln!(out, "{} already", own.origin),
        Loaded::Next {
            version,
            serial,
            added,
            removed,
        } => {
            print_version(out, own, version, serial)?;
            print_difference(out, added, removed)
        }
    }
}

/// The path of what a fault is of: the master file where its serial is refused, and else the device.
pub(crate) fn path_blamed(own: &ZoneSettings, fault: DeviceFault) -> &str
    ensures { result.now ≡ path_blamed own.now fault }
{
    match fault {
        DeviceFault::SerialNotRaised => &own.file,
        _ => &own.device,
    }
}

/// Loads the master file of a zone, and gives the exit status.
fn load_own<D: Sectors + Drop, F: Devices<D>, I: ZoneIndex, W: Write, E: Write>(
    run: &mut Run<F, W, E>,
    own: &ZoneSettings,
    files: &[File<'_>],
) -> io::Result<u8>
    ensures { RunEnds F.calls W.contents E.contents run.old run.new (result_unwrap_or result FAILED)
        (LoadingEnds D.Sectors files.now own.now) }
{
    let zone: Zone<I> = match load_one(run.heap, files, own) {
        Ok(zone) => zone,
        Err(fault) => return tell(&mut run.err, &own.file, fault),
    };
    match load_zone(run.heap, &mut run.devices, own, &zone) {
        Ok(answer) => {
            print_loaded(&mut run.out, own, answer)?;
            Ok(DONE)
        }
        Err(fault) => tell_device(&mut run.err, path_blamed(own, fault), fault, run.explain),
    }
}

/// Loads the master file of the zone of that name, and gives the exit status.
fn load_named<D: Sectors + Drop, F: Devices<D>, I: ZoneIndex, W: Write, E: Write>(
    run: &mut Run<F, W, E>,
    config: &File<'_>,
    files: &[File<'_>],
    origin: &str,
) -> io::Result<u8>
    ensures { RunEnds F.calls W.contents E.contents run.old run.new (result_unwrap_or result FAILED)
        (LoadEnds D.Sectors config.now files.now origin.now) }
{
    match zone_named(run.alloc, run.heap, config, origin) {
        Ok(own) => load_own::<D, F, I, W, E>(run, &own, files),
        Err((word, fault)) => tell(&mut run.err, word, fault),
    }
}

/// Makes the records of the master file of a configuration's zone the next version of the store that the
/// zone's device keeps, durable where it is printed: `loaded ORIGIN version V serial M, A added, R removed`,
/// or `ORIGIN already` where the newest version has these records. How many came and went is without the SOA.
/// Where the journal is too full for one more change, at most the zone's newest `keep` changes stay.
///
/// Faults are reported in one line, the first in this order: the configuration, the origin
/// (`ORIGIN: BadOrigin`), the master file (as `check` reports them), the device,
/// `FILE: SerialNotRaised` where the records are others and their serial isn't greater (RFC 1982 section
/// 3.2), `DEVICE: NoRoom` where the next version takes more sectors than there are. Of a device or a serial,
/// if it is wanted, a second line says what can be done. Gives the exit status: `DONE`, `REFUSED`, or
/// `FAILED` where the device can't be had, a writer failed or memory was refused.
pub fn load<D: Sectors + Drop, F: Devices<D>, I: ZoneIndex, W: Write, E: Write>(
    run: &mut Run<F, W, E>,
    config: &File<'_>,
    files: &[File<'_>],
    origin: &str,
) -> u8
    ensures { RunEnds F.calls W.contents E.contents run.old run.new result
        (LoadEnds D.Sectors config.now files.now origin.now) }
{
    load_named::<D, F, I, W, E>(run, config, files, origin).unwrap_or(FAILED)
}
