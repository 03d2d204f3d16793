//! The journalled versions of a zone, in print: `history`.
ghost use Rattle.std.specs.Prelude.{◌≡◌, ◌↔◌, ◌≤◌, ◌<◌, ◌+◌, ◌^◌, ℕ, List, true, drop, length, OnOk};
ghost use Rattle.std.specs.Result.{result_unwrap_or};
ghost use Rattle.std.specs.Io.KnownBytes.{Appends};
ghost use Rattle.dns_serial.specs.Serial.{advance};
ghost use Rattle.dns_records.specs.Record.{Record as Stated, serial_of};
ghost use Rattle.dns_zone.specs.Zone.{soas};
ghost use Rattle.dns_changes.specs.Version.{serial_in};
ghost use Rattle.dns_store.specs.Recovered.{AreLed};
ghost use Rattle.dns_store.specs.Versions.{Versions, newest_after};
ghost use Rattle.dns_transfer.specs.Form.{is_journalled};
ghost use Rattle.dns_configuration.specs.Faults.{line};
ghost use Rattle.dns_commands.specs.Frame.{RunEnds};
ghost use Rattle.dns_commands.specs.History.{HistoryEnds, ListingEnds, history_of, history_text};
ghost use Rattle.dns_commands.specs.History.{step_line, step_text, steps_text, version_text};

use crate::commands::compare::print_change;
use crate::commands::load::print_difference;
use crate::frame::{Run, zone_named};
use dns_changes::Change;
use dns_configuration::{DONE, FAILED, File, ZoneSettings, tell};
use dns_devices::{Devices, open_store, tell_device};
use dns_sectors::Sectors;
use dns_serial::Serial;
use dns_store::ZoneStore;
use dns_zone::{Zone, ZoneIndex};
use std::io::{self, Write};

/// Prints the number and the serial of a version.
fn print_version<W: Write>(out: &mut W, version: u64, serial: u32) -> io::Result<()>
    ensures { OnOk result
        (Appends (W.contents out.old) (W.contents out.new) (version_text version serial)) }
{
    write!(out, "version {version} serial {serial}")
}

/// Prints the line of a version with nothing before it.
fn print_first<W: Write>(out: &mut W, version: u64, serial: u32) -> io::Result<()>
    ensures { OnOk result
        (Appends (W.contents out.old) (W.contents out.new) (line (version_text version serial))) }
{
    writeln!(out, "version {version} serial {serial}")
}

/// Prints the line of the version with that number, to which a change leads.
fn print_line<W: Write>(out: &mut W, version: u64, change: &Change) -> io::Result<()>
    ensures { OnOk result
        (Appends (W.contents out.old) (W.contents out.new) (step_line version change.now)) }
{
    let (removed, added) = (change.removed().len(), change.added().len());
    print_version(out, version, change.new_soa().serial())?;
    print_difference(out, added, removed)
}

/// Prints the line of the version with that number, to which a change leads, and the lines of the records
/// that go and come, if they are wanted.
fn print_step<W: Write>(
    out: &mut W,
    version: u64,
    change: &Change,
    with_records: bool,
) -> io::Result<()>
    ensures { OnOk result
        (Appends (W.contents out.old) (W.contents out.new) (step_text with_records version change.now)) }
{
    print_line(out, version, change)?;
    if with_records {
        return print_change(out, change);
    }
    Ok(())
}

/// Prints the versions after that number, to which these changes lead.
fn print_steps<W: Write>(
    out: &mut W,
    base: u64,
    changes: &[Change],
    with_records: bool,
) -> io::Result<()>
    requires { base + length changes.now < 2 ^ 64 }
    ensures { OnOk result
        (Appends (W.contents out.old) (W.contents out.new) (steps_text with_records base changes.now)) }
{
    let mut version = base;
    for change in changes {
        version += 1;
        print_step(out, version, change, with_records)?;
    }
    Ok(())
}

/// Prints the version with that number and that serial, and those after it, to which these changes lead.
fn print_history<W: Write>(
    out: &mut W,
    base: u64,
    serial: u32,
    changes: &[Change],
    with_records: bool,
) -> io::Result<()>
    requires { base + length changes.now < 2 ^ 64 }
    ensures { OnOk result (Appends (W.contents out.old) (W.contents out.new)
        (history_text with_records (history_of base serial changes.now))) }
{
    print_first(out, base, serial)?;
    print_steps(out, base, changes, with_records)
}

/// How far the serial goes with a change (RFC 1982 section 3.1).
fn advance_of(change: &Change) -> u32
    ensures { result ≡ advance (serial_of change.now.old_soa) (serial_of change.now.new_soa) }
{
    let _formed = change.removed();
    Serial::advance(
        Serial(change.old_soa().serial()),
        Serial(change.new_soa().serial()),
    )
}

/// The number of the first of the changes from which on the serial goes less than 2^31 in all.
fn first_journalled(changes: &[Change]) -> usize
    ensures inside { result ≤ length changes.now }
    ensures first { (n : ℕ) → n ≤ length changes.now
        → result ≤ n ↔ is_journalled (drop n changes.now) ≡ true }
{
    let mut gone: u64 = 0;
    let mut number = changes.len();
    'newest: while number > 0 {
        gone += advance_of(&changes[number - 1]) as u64;
        if gone >= 1 << 31 {
            return number;
        }
        number -= 1;
    }
    0
}

/// The serial of the version from which these changes lead to the newest one.
fn first_serial<I: ZoneIndex>(newest: &Zone<I>, changes: &[Change]) -> u32
    ensures { (first : List Stated) (vs : Versions) → AreLed first vs changes.now
        → newest.now.records ≡ newest_after first vs → result ≡ serial_in (soas first) }
{
    if changes.is_empty() {
        return newest.soa().serial();
    }
    let change = &changes[0];
    let _formed = change.removed();
    change.old_soa().serial()
}

/// Prints the journalled versions of the device of a zone, and returns the exit status. The device is closed
/// before an error of the writer is returned.
fn list<D: Sectors + Drop, F: Devices<D>, I: ZoneIndex, W: Write, E: Write>(
    run: &mut Run<F, W, E>,
    own: &ZoneSettings,
    with_records: bool,
) -> io::Result<u8>
    ensures { RunEnds F.calls W.contents E.contents run.old run.new (result_unwrap_or result FAILED)
        (ListingEnds D.Sectors with_records own.now) }
{
    match open_store::<D, F, I>(run.heap, &mut run.devices, own) {
        Ok((store, newest)) => {
            let kept = store.changes();
            let changes = &kept[first_journalled(kept)..];
            let base = store.newest().saturating_sub(changes.len() as u64);
            let serial = first_serial(&newest, changes);
            let printed = print_history(&mut run.out, base, serial, changes, with_records);
            run.devices.close(&own.device, store.into_device());
            printed?;
            Ok(DONE)
        }
        Err(fault) => tell_device(&mut run.err, &own.device, fault, run.explain),
    }
}

/// Prints the journalled versions of the zone of that name, and returns the exit status.
fn list_named<D: Sectors + Drop, F: Devices<D>, I: ZoneIndex, W: Write, E: Write>(
    run: &mut Run<F, W, E>,
    config: &File<'_>,
    origin: &str,
    with_records: bool,
) -> io::Result<u8>
    ensures { RunEnds F.calls W.contents E.contents run.old run.new (result_unwrap_or result FAILED)
        (HistoryEnds D.Sectors config.now origin.now with_records) }
{
    match zone_named(run.alloc, run.heap, config, origin) {
        Ok(own) => list::<D, F, I, W, E>(run, &own, with_records),
        Err((word, fault)) => tell(&mut run.err, word, fault),
    }
}

/// Prints the journalled versions of a configuration's zone, a line for each, the oldest first:
/// `version V serial M`, and, of each but the first, how many records came and how many went, SOAs aside, as
/// `, A added, R removed`. If they are wanted, these records follow, as `load --dry-run` prints a change. A
/// version is journalled if the device keeps it and all changes after it, and the serial goes less than 2^31
/// from it to the newest one: so that an IXFR from it is incremental.
///
/// Errors are reported as `dump` does. The device is only looked into: it keeps its versions, and counts one
/// more opening. Returns the exit status: `DONE`, `REFUSED`, or `FAILED` if the device can't be had, a writer
/// failed or memory was refused.
pub fn history<D: Sectors + Drop, F: Devices<D>, I: ZoneIndex, W: Write, E: Write>(
    run: &mut Run<F, W, E>,
    config: &File<'_>,
    origin: &str,
    with_records: bool,
) -> u8
    ensures { RunEnds F.calls W.contents E.contents run.old run.new result
        (HistoryEnds D.Sectors config.now origin.now with_records) }
{
    list_named::<D, F, I, W, E>(run, config, origin, with_records).unwrap_or(FAILED)
}
