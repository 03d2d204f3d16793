//! Devices that are shown as they were: the version of a zone with a serial, as a master file.
ghost use Rattle.std.specs.Prelude.{◌≡◌, true, Some, IfOk, IfErr, MatchResult};
ghost use Rattle.std.specs.Result.{result_unwrap_or};
ghost use Rattle.std.specs.Io.KnownBytes.{Appends};
ghost use Rattle.dns_names.specs.Name.{Labels};
ghost use Rattle.dns_zone.specs.Records.{is_ordered};
ghost use Rattle.dns_store.specs.Checkpoint.{AllZones};
ghost use Rattle.dns_store.specs.Recovered.{AreLed};
ghost use Rattle.dns_store.specs.Versions.{Versions};
ghost use Rattle.dns_configuration.specs.Calls.{Calls};
ghost use Rattle.dns_configuration.specs.Faults.{line};
ghost use Rattle.dns_devices.specs.DeviceFaults.{status_of};
ghost use Rattle.dns_commands.specs.DumpAt.{AreAllApplied, DumpAtEnds, HasAnswer, HasNoAnswer};
ghost use Rattle.dns_commands.specs.DumpAt.{IsChosenFrom, IsMadeAfter, IsZoneAfter, PickingEnds};
ghost use Rattle.dns_commands.specs.DumpAt.{unfound_text};
ghost use Rattle.dns_commands.specs.Frame.{RunEnds};

use crate::frame::{Run, zone_named};
use dns_changes::{Change, ChangeError};
use dns_configuration::{DONE, FAILED, File, REFUSED, ZoneSettings, tell};
use dns_devices::{DeviceFault, Devices, open_store, tell_device};
use dns_masterfile::print_zone;
use dns_memory::Heap;
use dns_sectors::Sectors;
use dns_store::ZoneStore;
use dns_transfer::{Form, choose_form};
use dns_zone::{Zone, ZoneIndex};
use std::fmt;
use std::io::{self, Write};

/// Makes these changes of a set, one after the other.
fn apply_all<I: ZoneIndex>(set: &mut I, changes: &[Change]) -> Result<(), ChangeError>
    ensures { (apex : Labels) (vs : Versions) → AreLed (I.records set.old) vs changes.now
        → AllZones apex vs → is_ordered (I.records set.old) ≡ true
        → AreAllApplied (I.records set.old) (I.records set.new) vs result }
{
    for change in changes {
        change.apply(set)?;
    }
    Ok(())
}

/// The version that these changes lead to from a base, which on an honest device is a zone.
fn version_after<I: ZoneIndex>(base: &Zone<I>, changes: &[Change]) -> Result<Zone<I>, ChangeError>
    ensures { (vs : Versions) → AreLed base.now.records vs changes.now → AllZones base.now.apex vs
        → IsZoneAfter base.now vs result }
{
    let apex = base.apex().clone()?;
    let mut set = base.index().fork()?;
    apply_all(&mut set, changes)?;
    match Zone::from_index(apex, set) {
        Ok(zone) => Ok(zone),
        Err(_) => Err(ChangeError::BadBytes),
    }
}

/// The version that these changes lead to from a base. `Device` if they fit no zone, as on a device that does
/// not keep what was written.
fn version_or_fault<I: ZoneIndex>(
    base: &Zone<I>,
    changes: &[Change],
) -> Result<Option<Zone<I>>, DeviceFault>
    ensures made { (vs : Versions) → AreLed base.now.records vs changes.now → AllZones base.now.apex vs
        → IsMadeAfter base.now vs result }
    ensures failed { IfErr result (λ e. status_of e ≡ FAILED) }
{
    match version_after(base, changes) {
        Ok(zone) => Ok(Some(zone)),
        Err(ChangeError::OutOfMemory) => Err(DeviceFault::OutOfMemory),
        Err(_) => Err(DeviceFault::Device),
    }
}

/// The version with a serial: the newest one, or that before it from which an IXFR would be incremental. None
/// if there is none.
pub(crate) fn version_with<I: ZoneIndex>(
    base: &Zone<I>,
    changes: &[Change],
    newest: Zone<I>,
    serial: u32,
) -> Result<Option<Zone<I>>, DeviceFault>
    ensures chosen { (vs : Versions) → AreLed base.now.records vs changes.now → AllZones base.now.apex vs
        → IsChosenFrom base.now changes.now newest vs serial result }
    ensures failed { IfErr result (λ e. status_of e ≡ FAILED) }
{
    let current = newest.soa().serial();
    if current == serial {
        return Ok(Some(newest));
    }
    match choose_form(current, changes, Some(serial)) {
        Form::Incremental(first) => version_or_fault(base, &changes[..first]),
        Form::Current | Form::Full => Ok(None),
    }
}

/// The version with a serial of the zone that a device keeps. The device is closed.
fn pick<D: Sectors + Drop, F: Devices<D>, I: ZoneIndex>(
    heap: Heap,
    devices: &mut F,
    own: &ZoneSettings,
    serial: u32,
) -> Result<Option<Zone<I>>, DeviceFault>
    ensures { Calls (F.calls devices.old) (F.calls devices.new)
        (λ calls. MatchResult result (HasAnswer D.Sectors calls own.now serial)
        (HasNoAnswer D.Sectors calls own.now serial)) }
{
    match open_store::<D, F, I>(heap, devices, own) {
        Ok((store, newest)) => {
            let zone = version_with(store.base(), store.changes(), newest, serial);
            devices.close(&own.device, store.into_device());
            zone
        }
        Err(fault) => Err(fault),
    }
}

/// That no version has a serial, and in a second line, if it is wanted, what can be done.
#[derive(Drop)]
struct UnfoundText {
    serial: u32,
    explain: bool,
}

impl fmt::Display for UnfoundText {
    ghost output = { λ t. Some (unfound_text t.serial t.explain) };

    fn fmt<W: fmt::Write>(&self, f: &mut fmt::Formatter<W>) -> fmt::Result {
        let serial = self.serial;
        if self.explain {
            write!(
                f,
                "{serial}: NoVersion\n{serial}: no journalled version has that serial; history lists them"
            )
        } else {
            write!(f, "{serial}: NoVersion")
        }
    }
}

/// Tells that no version has the serial; returns the exit status.
pub(crate) fn tell_unfound<E: Write>(err: &mut E, serial: u32, explain: bool) -> io::Result<u8>
    ensures { IfOk result (λ status. (status ≡ REFUSED)
        × Appends (E.contents err.old) (E.contents err.new) (line (unfound_text serial explain))) }
{
    let text = UnfoundText { serial, explain };
    writeln!(err, "{text}")?;
    Ok(REFUSED)
}

/// Shows the version with a serial of the device of a zone, and returns the exit status.
fn show_at<D: Sectors + Drop, F: Devices<D>, I: ZoneIndex, W: Write, E: Write>(
    run: &mut Run<F, W, E>,
    own: &ZoneSettings,
    serial: u32,
) -> io::Result<u8>
    ensures { RunEnds F.calls W.contents E.contents run.old run.new (result_unwrap_or result FAILED)
        (PickingEnds D.Sectors serial own.now) }
{
    match pick::<D, F, I>(run.heap, &mut run.devices, own, serial) {
        Ok(Some(zone)) => {
            print_zone(&zone, &mut run.out)?;
            Ok(DONE)
        }
        Ok(None) => tell_unfound(&mut run.err, serial, run.explain),
        Err(fault) => tell_device(&mut run.err, &own.device, fault, run.explain),
    }
}

/// Prints the version with a serial of the zone of that name, and returns the exit status.
fn dump_named_at<D: Sectors + Drop, F: Devices<D>, I: ZoneIndex, W: Write, E: Write>(
    run: &mut Run<F, W, E>,
    config: &File<'_>,
    origin: &str,
    serial: u32,
) -> io::Result<u8>
    ensures { RunEnds F.calls W.contents E.contents run.old run.new (result_unwrap_or result FAILED)
        (DumpAtEnds D.Sectors config.now origin.now serial) }
{
    match zone_named(run.alloc, run.heap, config, origin) {
        Ok(own) => show_at::<D, F, I, W, E>(run, &own, serial),
        Err((word, fault)) => tell(&mut run.err, word, fault),
    }
}

/// Prints, as `dump` does, the version of a configuration's zone that has this serial: the newest one, or the
/// one before it from which an IXFR would be incremental. If there is none, one line says so
/// (`SERIAL: NoVersion`).
///
/// Other errors are reported as `dump` does. The device is only looked into: it keeps its versions, and
/// counts one more opening. Returns the exit status: `DONE`, `REFUSED`, or `FAILED` if the device can't be
/// had, a writer failed or memory was refused.
pub fn dump_at<D: Sectors + Drop, F: Devices<D>, I: ZoneIndex, W: Write, E: Write>(
    run: &mut Run<F, W, E>,
    config: &File<'_>,
    origin: &str,
    serial: u32,
) -> u8
    ensures { RunEnds F.calls W.contents E.contents run.old run.new result
        (DumpAtEnds D.Sectors config.now origin.now serial) }
{
    dump_named_at::<D, F, I, W, E>(run, config, origin, serial).unwrap_or(FAILED)
}
