//! The difference of two versions of a zone that its device keeps.
ghost use Rattle.std.specs.Prelude.{◌≡◌, ◌∷◌, [], true, false, codes, if◌then◌else◌, Ok, IfOk, IfErr, OnOk};
ghost use Rattle.std.specs.Prelude.{MatchResult};
ghost use Rattle.std.specs.Result.{result_unwrap_or};
ghost use Rattle.std.specs.Io.KnownBytes.{Appends};
ghost use Rattle.dns_zone.specs.Records.{has, is_ordered};
ghost use Rattle.dns_store.specs.Checkpoint.{AllZones};
ghost use Rattle.dns_store.specs.Recovered.{AreLed};
ghost use Rattle.dns_store.specs.Versions.{Versions};
ghost use Rattle.dns_configuration.specs.Calls.{Calls};
ghost use Rattle.dns_devices.specs.DeviceFaults.{status_of};
ghost use Rattle.dns_commands.specs.Diff.{DiffEnds, DiffingEnds, HasNoDiff, IsBetweenThese};
ghost use Rattle.dns_commands.specs.Diff.{IsDifferenceFrom, IsDifferenceTo, HasDiff, deleted_first};
ghost use Rattle.dns_commands.specs.Diff.{deleted_last, diff_text, is_apex_ns, undo_text};
ghost use Rattle.dns_commands.specs.Compare.{signed_lines};
ghost use Rattle.dns_commands.specs.Frame.{RunEnds};

use crate::change::{change_between, is_no_change};
use crate::commands::compare::{print_change, print_record, print_records};
use crate::commands::dump_at::{tell_unfound, version_with};
use crate::frame::{Run, zone_named};
use dns_changes::Change;
use dns_configuration::{DONE, FAILED, File, ZoneSettings, tell};
use dns_devices::{DeviceFault, Devices, open_store, tell_device};
use dns_memory::Heap;
use dns_names::Name;
use dns_records::Record;
use dns_records::types::NS;
use dns_sectors::Sectors;
use dns_store::ZoneStore;
use dns_zone::{Zone, ZoneIndex, find_record};
use std::alloc::AllocError;
use std::io::{self, Write};

/// The change between two versions, or none if they have the same records; or the serial that no version has.
type Answer = Result<Option<Change>, u32>;

/// A copy of a zone.
fn copy_of<I: ZoneIndex>(zone: &Zone<I>) -> Result<Zone<I>, AllocError>
    ensures { IfOk result (λ copy. copy ≡ zone.now) }
{
    let apex = zone.apex().clone()?;
    let set = zone.index().fork()?;
    Ok(Zone::of_valid(apex, set))
}

/// The change from a version to another.
fn difference<I: ZoneIndex>(
    heap: Heap,
    before: &Zone<I>,
    after: &Zone<I>,
) -> Result<Answer, DeviceFault>
    ensures { IsBetweenThese before.now.records after.now.records result }
{
    let Ok(change) = change_between(heap, before, after) else {
        return Err(DeviceFault::OutOfMemory);
    };
    let _valid = before.apex();
    let _also = after.apex();
    if is_no_change(&change) {
        drop(change);
        return Ok(Ok(None));
    }
    Ok(Ok(Some(change)))
}

/// The change from a version to the one with a serial, or to the newest one.
fn difference_to<I: ZoneIndex>(
    heap: Heap,
    base: &Zone<I>,
    changes: &[Change],
    newest: Zone<I>,
    before: &Zone<I>,
    to: Option<u32>,
) -> Result<Answer, DeviceFault>
    ensures found { (vs : Versions) → AreLed base.now.records vs changes.now → AllZones base.now.apex vs
        → IsDifferenceTo base.now changes.now newest vs before.now to result }
    ensures failed { IfErr result (λ e. status_of e ≡ FAILED) }
{
    match to {
        Some(serial) => match version_with(base, changes, newest, serial) {
            Ok(Some(after)) => difference(heap, before, &after),
            Ok(None) => Ok(Err(serial)),
            Err(fault) => Err(fault),
        },
        None => difference(heap, before, &newest),
    }
}

/// The change from the version with a serial to the one with another, or to the newest one.
fn difference_from<I: ZoneIndex>(
    heap: Heap,
    base: &Zone<I>,
    changes: &[Change],
    newest: Zone<I>,
    from: u32,
    to: Option<u32>,
) -> Result<Answer, DeviceFault>
    ensures found { (vs : Versions) → AreLed base.now.records vs changes.now → AllZones base.now.apex vs
        → IsDifferenceFrom base.now changes.now newest vs from to result }
    ensures failed { IfErr result (λ e. status_of e ≡ FAILED) }
{
    let Ok(copy) = copy_of(&newest) else {
        return Err(DeviceFault::OutOfMemory);
    };
    match version_with(base, changes, copy, from) {
        Ok(Some(before)) => difference_to(heap, base, changes, newest, &before, to),
        Ok(None) => Ok(Err(from)),
        Err(fault) => Err(fault),
    }
}

/// The change from the version with a serial to the one with another, or to the newest one, of the zone that
/// a device keeps. The device is closed.
fn difference_in<D: Sectors + Drop, F: Devices<D>, I: ZoneIndex>(
    heap: Heap,
    devices: &mut F,
    own: &ZoneSettings,
    from: u32,
    to: Option<u32>,
) -> Result<Answer, DeviceFault>
    ensures { Calls (F.calls devices.old) (F.calls devices.new)
        (λ calls. MatchResult result (HasDiff D.Sectors calls own.now from to)
        (HasNoDiff D.Sectors calls own.now from to)) }
{
    match open_store::<D, F, I>(heap, devices, own) {
        Ok((store, newest)) => {
            let found = difference_from(heap, store.base(), store.changes(), newest, from, to);
            devices.close(&own.device, store.into_device());
            found
        }
        Err(fault) => Err(fault),
    }
}

/// Whether the record is an NS of the apex.
fn is_apex_ns(record: &Record, apex: &Name) -> bool
    ensures { result ≡ is_apex_ns apex.now record.now }
{
    record.owner().lend().is(&apex.lend()) & (record.rtype() == NS)
}

/// Whether a record of that owner, type and data is among records in order.
fn is_among(record: &Record, records: &[Record]) -> bool
    requires { is_ordered records.now ≡ true }
    ensures { result ≡ has record.now records.now }
{
    find_record(records, record, None).is_ok()
}

/// Prints a record after a sign, if it is wanted.
fn print_if<W: Write>(out: &mut W, is_wanted: bool, sign: &str, record: &Record) -> io::Result<()>
    ensures { OnOk result (Appends (W.contents out.old) (W.contents out.new)
        (signed_lines sign.now (if is_wanted then record.now ∷ [] else []))) }
{
    if is_wanted {
        return print_record(out, sign, record);
    }
    Ok(())
}

/// Prints the lines that delete what came but the NS of the apex.
fn print_first<W: Write>(out: &mut W, apex: &Name, come: &[Record]) -> io::Result<()>
    ensures { OnOk result (Appends (W.contents out.old) (W.contents out.new)
        (signed_lines (codes "update delete") (deleted_first apex.now come.now))) }
{
    for record in come {
        print_if(out, !is_apex_ns(record, apex), "update delete", record)?;
    }
    Ok(())
}

/// Prints the lines that delete the NS of the apex that came, but those that were only given another TTL.
fn print_last<W: Write>(
    out: &mut W,
    apex: &Name,
    gone: &[Record],
    come: &[Record],
) -> io::Result<()>
    requires { is_ordered gone.now ≡ true }
    ensures { OnOk result (Appends (W.contents out.old) (W.contents out.new)
        (signed_lines (codes "update delete") (deleted_last apex.now gone.now come.now))) }
{
    for record in come {
        let is_left = is_apex_ns(record, apex) & !is_among(record, gone);
        print_if(out, is_left, "update delete", record)?;
    }
    Ok(())
}

/// Prints the lines of nsupdate that undo a change.
fn print_undo<W: Write>(out: &mut W, apex: &Name, change: &Change) -> io::Result<()>
    ensures { OnOk result
        (Appends (W.contents out.old) (W.contents out.new) (undo_text apex.now change.now)) }
{
    writeln!(out, "zone {apex}")?;
    print_first(out, apex, change.added())?;
    print_records(out, "update add", change.removed())?;
    print_last(out, apex, change.removed(), change.added())?;
    writeln!(out, "send")
}

/// Prints what goes and what comes, or that nothing does.
fn print_plain<W: Write>(out: &mut W, own: &ZoneSettings, change: &Option<Change>) -> io::Result<()>
    ensures { OnOk result
        (Appends (W.contents out.old) (W.contents out.new) (diff_text false own.now change.now)) }
{
    match change {
        Some(change) => print_change(out, change),
        None => writeln!(out, "{} unchanged", own.origin),
    }
}

/// Prints a difference, or the lines of nsupdate that undo it.
fn print_difference<W: Write>(
    out: &mut W,
    own: &ZoneSettings,
    change: &Option<Change>,
    as_update: bool,
) -> io::Result<()>
    ensures { OnOk result
        (Appends (W.contents out.old) (W.contents out.new) (diff_text as_update own.now change.now)) }
{
    if !as_update {
        return print_plain(out, own, change);
    }
    match change {
        Some(change) => print_undo(out, &own.origin, change),
        None => Ok(()),
    }
}

/// Prints the difference of two versions of the device of a zone, and returns the exit status.
fn show<D: Sectors + Drop, F: Devices<D>, I: ZoneIndex, W: Write, E: Write>(
    run: &mut Run<F, W, E>,
    own: &ZoneSettings,
    from: u32,
    to: Option<u32>,
    as_update: bool,
) -> io::Result<u8>
    ensures { RunEnds F.calls W.contents E.contents run.old run.new (result_unwrap_or result FAILED)
        (DiffingEnds D.Sectors from to as_update own.now) }
{
    match difference_in::<D, F, I>(run.heap, &mut run.devices, own, from, to) {
        Ok(Ok(change)) => {
            print_difference(&mut run.out, own, &change, as_update)?;
            Ok(DONE)
        }
        Ok(Err(serial)) => tell_unfound(&mut run.err, serial, run.explain),
        Err(fault) => tell_device(&mut run.err, &own.device, fault, run.explain),
    }
}

/// Prints the difference of two versions of the zone of that name, and returns the exit status.
fn diff_named<D: Sectors + Drop, F: Devices<D>, I: ZoneIndex, W: Write, E: Write>(
    run: &mut Run<F, W, E>,
    config: &File<'_>,
    origin: &str,
    from: u32,
    to: Option<u32>,
    as_update: bool,
) -> io::Result<u8>
    ensures { RunEnds F.calls W.contents E.contents run.old run.new (result_unwrap_or result FAILED)
        (DiffEnds D.Sectors config.now origin.now from to as_update) }
{
    match zone_named(run.alloc, run.heap, config, origin) {
        Ok(own) => show::<D, F, I, W, E>(run, &own, from, to, as_update),
        Err((word, fault)) => tell(&mut run.err, word, fault),
    }
}

/// Prints the change from the version of a configuration's zone with the serial FROM to the one with the
/// serial TO, or to the newest: each record that goes as a line of a master file after `- `, and then each
/// that comes after `+ `, both with their SOA first; or `ORIGIN unchanged`. TO may be the older one. With
/// `as_update`, prints in their place the lines of nsupdate that undo the change, its SOA aside, or nothing.
///
/// The versions are those that `dump --serial` prints. If there is none with one of the serials, one line
/// says so (`SERIAL: NoVersion`), of FROM first. Other errors are reported as `dump` does. The device is only
/// looked into: it keeps its versions, and counts one more opening. Returns the exit status: `DONE`,
/// `REFUSED`, or `FAILED` if the device can't be had, a writer failed or memory was refused.
pub fn diff<D: Sectors + Drop, F: Devices<D>, I: ZoneIndex, W: Write, E: Write>(
    run: &mut Run<F, W, E>,
    config: &File<'_>,
    origin: &str,
    from: u32,
    to: Option<u32>,
    as_update: bool,
) -> u8
    ensures { RunEnds F.calls W.contents E.contents run.old run.new result
        (DiffEnds D.Sectors config.now origin.now from to as_update) }
{
    diff_named::<D, F, I, W, E>(run, config, origin, from, to, as_update).unwrap_or(FAILED)
}
