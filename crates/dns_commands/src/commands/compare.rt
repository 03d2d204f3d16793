//! What loading a zone's master file would change, in print, without loading it: `load --dry-run`.
ghost use Rattle.std.specs.Prelude.{◌≡◌, ◌+◌, ◌∷◌, [], length, OnOk, MatchResult};
ghost use Rattle.std.specs.Result.{result_unwrap_or};
ghost use Rattle.std.specs.Io.KnownBytes.{Appends};
ghost use Rattle.dns_store.specs.Room.{entry_between};
ghost use Rattle.dns_store.specs.Versions.{Kept, newest_of};
ghost use Rattle.dns_versions.specs.Staging.{has_room};
ghost use Rattle.dns_configuration.specs.Calls.{Calls};
ghost use Rattle.dns_devices.specs.Stores.{own_shape};
ghost use Rattle.dns_commands.specs.Compare.{ComparingEnds, ComparisonEnds, HasNoDifference, IsChangeWithin};
ghost use Rattle.dns_commands.specs.Compare.{IsDifference, IsWithinRoom, change_lines, difference_text};
ghost use Rattle.dns_commands.specs.Compare.{signed_lines};
ghost use Rattle.dns_commands.specs.Frame.{RunEnds};
ghost use Rattle.dns_commands.specs.Load.{IsChangeTo};

use crate::change::change_to;
use crate::commands::load::path_blamed;
use crate::frame::{Run, zone_named};
use dns_changes::{Change, PreparedEntry};
use dns_configuration::{DONE, FAILED, File, ZoneSettings, load_one, tell};
use dns_devices::{DeviceFault, Devices, open_store, tell_device};
use dns_layout::{entry_sectors, snapshot_sectors};
use dns_masterfile::RecordLine;
use dns_memory::Heap;
use dns_records::Record;
use dns_sectors::Sectors;
use dns_store::{ZoneStore, snapshot_len};
use dns_zone::{Zone, ZoneIndex};
use std::io::{self, Write};

/// Prints a record after a sign.
pub(crate) fn print_record<W: Write>(out: &mut W, sign: &str, entry: &Record) -> io::Result<()>
    ensures { OnOk result
        (Appends (W.contents out.old) (W.contents out.new) (signed_lines sign.now (entry.now ∷ []))) }
{
    write!(out, "{sign} {}", RecordLine(entry))
}

/// Prints a line for each of these records, after a sign.
pub(crate) fn print_records<W: Write>(out: &mut W, sign: &str, records: &[Record]) -> io::Result<()>
    ensures { OnOk result
        (Appends (W.contents out.old) (W.contents out.new) (signed_lines sign.now records.now)) }
{
    for entry in records {
        print_record(out, sign, entry)?;
    }
    Ok(())
}

/// Prints a SOA and then other records, a line for each, after a sign.
fn print_side<W: Write>(out: &mut W, sign: &str, soa: &Record, others: &[Record]) -> io::Result<()>
    ensures { OnOk result
        (Appends (W.contents out.old) (W.contents out.new) (signed_lines sign.now (soa.now ∷ others.now))) }
{
    print_record(out, sign, soa)?;
    print_records(out, sign, others)
}

/// Prints what goes and what comes by a change.
pub(crate) fn print_change<W: Write>(out: &mut W, change: &Change) -> io::Result<()>
    ensures { OnOk result
        (Appends (W.contents out.old) (W.contents out.new) (change_lines change.now)) }
{
    print_side(out, "-", change.old_soa(), change.removed())?;
    print_side(out, "+", change.new_soa(), change.added())
}

/// Prints the change to the records of a zone's master file.
fn print_difference<W: Write>(
    out: &mut W,
    own: &ZoneSettings,
    change: &Option<Change>,
) -> io::Result<()>
    ensures { OnOk result
        (Appends (W.contents out.old) (W.contents out.new) (difference_text own.now change.now)) }
{
    match change {
        Some(change) => print_change(out, change),
        None => writeln!(out, "{} already", own.origin),
    }
}

/// Whether there is room after the version of that number for one of these records, whose entry takes that
/// number of sectors.
fn has_room<I: ZoneIndex>(newest: u64, own: &ZoneSettings, zone: &Zone<I>, sectors: usize) -> bool
    ensures { (k : Kept) → k.shape ≡ own_shape own.now → newest ≡ length k.shown + length k.staged
        → sectors ≡ entry_between (newest_of k) zone.now.records → result ≡ has_room k zone.now.records }
{
    let _valid = zone.apex();
    snapshot_sectors(snapshot_len(zone)) <= own.snapshot_sectors as usize
        && sectors <= own.journal_sectors as usize
        && newest < u64::MAX
}

/// The change to the records of a zone's file after the version of that number, if there is room for it.
fn with_room<I: ZoneIndex>(
    heap: Heap,
    newest: &Zone<I>,
    number: u64,
    own: &ZoneSettings,
    zone: &Zone<I>,
    change: Result<Option<Change>, DeviceFault>,
) -> Result<Option<Change>, DeviceFault>
    requires { IsChangeTo newest.now.records zone.now.records change }
    ensures change { IsChangeWithin newest.now.records zone.now.records result }
    ensures room { (k : Kept) → k.shape ≡ own_shape own.now → newest_of k ≡ newest.now.records
        → number ≡ length k.shown + length k.staged → IsWithinRoom k zone.now.records result }
{
    let change = match change {
        Ok(Some(change)) => change,
        others => return others,
    };
    let _valid = zone.apex();
    let Ok(entry) = PreparedEntry::new(heap, change) else {
        return Err(DeviceFault::OutOfMemory);
    };
    let room = entry_sectors(entry.octets().len());
    if !has_room(number, own, zone, room) {
        drop(entry);
        return Err(DeviceFault::NoRoom);
    }
    Ok(Some(entry.into_change()))
}

/// The change from the newest version that the device of a zone keeps to other records, or none if it has
/// these.
fn difference<D: Sectors + Drop, F: Devices<D>, I: ZoneIndex>(
    heap: Heap,
    devices: &mut F,
    own: &ZoneSettings,
    zone: &Zone<I>,
) -> Result<Option<Change>, DeviceFault>
    ensures { Calls (F.calls devices.old) (F.calls devices.new)
        (λ calls. MatchResult result (IsDifference D.Sectors calls own.now zone.now.records)
        (HasNoDifference D.Sectors calls own.now zone.now.records)) }
{
    match open_store::<D, F, I>(heap, devices, own) {
        Ok((store, newest)) => {
            let number = store.newest();
            devices.close(&own.device, store.into_device());
            let change = change_to(heap, &newest, zone);
            with_room(heap, &newest, number, own, zone, change)
        }
        Err(fault) => Err(fault),
    }
}

/// Compares the master file of a zone with its device, and gives the exit status.
fn compare_own<D: Sectors + Drop, F: Devices<D>, I: ZoneIndex, W: Write, E: Write>(
    run: &mut Run<F, W, E>,
    own: &ZoneSettings,
    files: &[File<'_>],
) -> io::Result<u8>
    ensures { RunEnds F.calls W.contents E.contents run.old run.new (result_unwrap_or result FAILED)
        (ComparingEnds D.Sectors files.now own.now) }
{
    let zone: Zone<I> = match load_one(run.heap, files, own) {
        Ok(zone) => zone,
        Err(fault) => return tell(&mut run.err, &own.file, fault),
    };
    match difference::<D, F, I>(run.heap, &mut run.devices, own, &zone) {
        Ok(change) => {
            print_difference(&mut run.out, own, &change)?;
            Ok(DONE)
        }
        Err(fault) => tell_device(&mut run.err, path_blamed(own, fault), fault, run.explain),
    }
}

/// Compares the master file of the zone of that name with its device, and gives the exit status.
fn compare_named<D: Sectors + Drop, F: Devices<D>, I: ZoneIndex, W: Write, E: Write>(
    run: &mut Run<F, W, E>,
    config: &File<'_>,
    files: &[File<'_>],
    origin: &str,
) -> io::Result<u8>
    ensures { RunEnds F.calls W.contents E.contents run.old run.new (result_unwrap_or result FAILED)
        (ComparisonEnds D.Sectors config.now files.now origin.now) }
{
    match zone_named(run.alloc, run.heap, config, origin) {
        Ok(own) => compare_own::<D, F, I, W, E>(run, &own, files),
        Err((word, fault)) => tell(&mut run.err, word, fault),
    }
}

/// Prints what `load` would change of a configuration's zone, and makes no version: each record that would
/// go as a line of a master file after `- `, and then each that would come after `+ `, both with their SOA
/// first; or `ORIGIN already`.
///
/// Faults are reported as `load` does. The device is only looked into: it keeps its version, and counts one
/// more opening. Returns the exit status: `DONE`, `REFUSED`, or `FAILED` if the device can't be had, a writer
/// failed or memory was refused.
pub fn compare<D: Sectors + Drop, F: Devices<D>, I: ZoneIndex, W: Write, E: Write>(
    run: &mut Run<F, W, E>,
    config: &File<'_>,
    files: &[File<'_>],
    origin: &str,
) -> u8
    ensures { RunEnds F.calls W.contents E.contents run.old run.new result
        (ComparisonEnds D.Sectors config.now files.now origin.now) }
{
    compare_named::<D, F, I, W, E>(run, config, files, origin).unwrap_or(FAILED)
}
