//! Devices that are only read: what each would be opened as.
ghost use Rattle.std.specs.Prelude.{◌≡◌, ◌⊎◌, ◌↔◌, ◌≤◌, ◌<◌, ◌-◌, [], ◌∷◌, Err, length, flat_map, IsTrue};
ghost use Rattle.std.specs.Prelude.{IfOk, IfErr, OnOk, MatchResult};
ghost use Rattle.std.specs.Option.{option_copied};
ghost use Rattle.std.specs.Result.{result_unwrap_or};
ghost use Rattle.std.specs.String.{string_bytes};
ghost use Rattle.std.specs.Io.KnownBytes.{Appends};
ghost use Rattle.dns_names.specs.Text.{printed_name};
ghost use Rattle.dns_zone.specs.Zone.{soas};
ghost use Rattle.dns_changes.specs.Version.{serial_in};
ghost use Rattle.dns_layout.specs.Own.{IsIntactIn};
ghost use Rattle.dns_layout.specs.Sector.{sector_at};
ghost use Rattle.dns_layout.specs.declared.format.Format.TheVariants as formats;
ghost use Rattle.dns_journal.specs.Reads.{HasRisen, OnlyReads};
ghost use Rattle.dns_configuration.specs.Calls.{Calls};
ghost use Rattle.dns_configuration.specs.Faults.{line};
ghost use Rattle.dns_devices.specs.DeviceFaults.{status_of};
ghost use Rattle.dns_commands.specs.Frame.{EndsForNamed, RunEnds, ended_run};
ghost use Rattle.dns_commands.specs.Verify.{AreSpoilt, EndsForAll, IsFoundAndTold, IsNotVerified, IsTested};
ghost use Rattle.dns_commands.specs.Verify.{IsUnwell, IsVerified, IsWell, VerifyEnds};
ghost use Rattle.dns_commands.specs.Verify.{VerifyingEnds, figures_line, journal_text, newest_text};
ghost use Rattle.dns_commands.specs.Verify.{reported_of, spoilt_status, spoilt_text};

use crate::frame::{Run, zone_named};
use dns_configuration::{DONE, FAILED, File, REFUSED, ZoneSettings, read_configuration, tell};
use dns_devices::{DeviceFault, DevicesToRead, refusal, tell_device};
use dns_layout::{Format, is_intact};
use dns_memory::Heap;
use dns_names::Name;
use dns_sectors::Sectors;
use dns_store::{OpenError, Recovered, read_settled};
use dns_zone::ZoneIndex;
use std::io::{self, Write};

/// What is told of a store that is well.
#[derive(Clone, Copy, Debug, PartialEq, Eq)]
pub struct Figures {
    /// The number of its newest version.
    pub version: u64,
    /// The serial of that version.
    pub serial: u32,
    /// How many records it has.
    pub records: usize,
    /// How many changes the journal holds.
    pub entries: usize,
    /// How many sectors of the journal are left.
    pub sectors_left: usize,
    /// How often the store was opened.
    pub openings: u64,
}

/// What was found of a device: a store that is well where reading reaches it.
#[derive(Drop)]
pub struct Found {
    /// What is told of the store.
    pub figures: Figures,
    /// The sectors that are neither zeros nor their own, if all were tested.
    pub spoilt: Vec<usize, Heap>,
}

/// The figures of a store that was read.
fn figures_of<I: ZoneIndex>(found: &Recovered<I>) -> Figures
    requires { found.now.end.at ≤ found.now.end.until }
    ensures version { result.version ≡ found.now.end.version }
    ensures serial { result.serial ≡ serial_in (soas found.now.newest.records) }
    ensures records { result.records ≡ length found.now.newest.records }
    ensures entries { result.entries ≡ length found.now.changes.items }
    ensures sectors_left { result.sectors_left ≡ found.now.end.until - found.now.end.at }
    ensures openings { result.openings ≡ found.now.root.open_count }
{
    Figures {
        version: found.end.version,
        serial: found.newest.soa().serial(),
        records: found.newest.index().len(),
        entries: found.changes.len(),
        sectors_left: found.end.until - found.end.at,
        openings: found.root.open_count,
    }
}

/// Whether a sector of a device is zeros or its own.
fn is_intact_at<D: Sectors>(device: &mut D, position: usize) -> Result<bool, OpenError>
    requires { position < D.count device.old }
    ensures intact { D.is_honest device.old → IfOk result
        (λ b. IsTrue b ↔ IsIntactIn formats.Two position (sector_at (D.seen device.old) position)) }
    ensures only { IfErr result (λ e. e ≡ OpenError.Device) }
    ensures device { result ≡ Err OpenError.Device → HasRisen (D.failed device.old) (D.failed device.new) }
    ensures quiet { OnOk result (D.failed device.new ≡ D.failed device.old) }
    ensures reads { OnlyReads D.Sectors device.old device.new }
{
    let sector = device.read(position)?;
    Ok(is_intact(Format::Two, position, &sector))
}

/// The sectors of a device that are neither zeros nor their own, in order.
fn spoilt_sectors<D: Sectors>(heap: Heap, device: &mut D) -> Result<Vec<usize, Heap>, OpenError>
    ensures spoilt { D.is_honest device.old → IfOk result
        (λ places. AreSpoilt (D.seen device.old) (D.count device.old) places.items) }
    ensures only { IfErr result (λ e. (e ≡ OpenError.Device) ⊎ (e ≡ OpenError.OutOfMemory)) }
    ensures device { result ≡ Err OpenError.Device → HasRisen (D.failed device.old) (D.failed device.new) }
    ensures quiet { OnOk result (D.failed device.new ≡ D.failed device.old) }
    ensures reads { OnlyReads D.Sectors device.old device.new }
{
    let mut places = Vec::new(heap);
    for position in 0..device.len() {
        let is_well = is_intact_at(device, position)?;
        if !is_well && places.push(position).is_err() {
            return Err(OpenError::OutOfMemory);
        }
    }
    Ok(places)
}

/// The sectors of a device that are neither zeros nor their own, if they are asked for.
fn tested<D: Sectors>(
    heap: Heap,
    device: &mut D,
    every_sector: bool,
) -> Result<Vec<usize, Heap>, OpenError>
    ensures tested { IfOk result (λ places. IsTested D.Sectors device.old every_sector places.items) }
    ensures only { IfErr result (λ e. (e ≡ OpenError.Device) ⊎ (e ≡ OpenError.OutOfMemory)) }
    ensures device { result ≡ Err OpenError.Device → HasRisen (D.failed device.old) (D.failed device.new) }
    ensures quiet { OnOk result (D.failed device.new ≡ D.failed device.old) }
    ensures reads { OnlyReads D.Sectors device.old device.new }
{
    if every_sector {
        return spoilt_sectors(heap, device);
    }
    Ok(Vec::new(heap))
}

/// Reads the store of a zone.
fn read_store<D: Sectors, I: ZoneIndex>(
    heap: Heap,
    device: &mut D,
    own: &ZoneSettings,
    every_sector: bool,
) -> Result<Found, OpenError>
    ensures { MatchResult result (IsWell D.Sectors every_sector own.now device.old device.new)
        (IsUnwell D.Sectors own.now device.old device.new) }
{
    let (snapshot, journal) = (own.snapshot_sectors, own.journal_sectors);
    let read: Result<Recovered<I>, OpenError> = read_settled(
        heap,
        device,
        &own.origin,
        snapshot,
        journal,
    );
    match read {
        Ok(read) => match tested(heap, device, every_sector) {
            Ok(spoilt) => Ok(Found {
                figures: figures_of(&read),
                spoilt,
            }),
            Err(error) => Err(error),
        },
        Err(error) => Err(error),
    }
}

/// The store that the device of a zone keeps. The device is only read, and closed.
fn look_at<D: Sectors + Drop, F: DevicesToRead<D>, I: ZoneIndex>(
    heap: Heap,
    devices: &mut F,
    own: &ZoneSettings,
    every_sector: bool,
) -> Result<Found, DeviceFault>
    ensures { Calls (F.calls devices.old) (F.calls devices.new) (λ calls. MatchResult result
        (IsVerified D.Sectors every_sector calls own.now) (IsNotVerified D.Sectors calls own.now)) }
{
    let mut device = devices.open_to_read(&own.device)?;
    match read_store::<D, I>(heap, &mut device, own, every_sector) {
        Ok(found) => {
            devices.close(&own.device, device);
            Ok(found)
        }
        Err(error) => {
            let fault = refusal(&mut device, error);
            devices.close(&own.device, device);
            Err(fault)
        }
    }
}

/// Prints which version of a zone is the newest.
fn print_newest<W: Write>(out: &mut W, origin: &Name, figures: Figures) -> io::Result<()>
    ensures { OnOk result (Appends (W.contents out.old) (W.contents out.new)
        (newest_text (printed_name origin.now) figures)) }
{
    let Figures {
        version,
        serial,
        records,
        ..
    } = figures;
    write!(
        out,
        "{origin} version {version} serial {serial} records {records}"
    )
}

/// Prints what a journal holds.
fn print_journal<W: Write>(out: &mut W, figures: Figures) -> io::Result<()>
    ensures { OnOk result (Appends (W.contents out.old) (W.contents out.new) (line (journal_text figures))) }
{
    let Figures {
        entries,
        sectors_left,
        openings,
        ..
    } = figures;
    writeln!(
        out,
        " entries {entries} sectors-left {sectors_left} openings {openings}"
    )
}

/// Prints the figures of the store of a zone.
fn print_figures<W: Write>(out: &mut W, origin: &Name, figures: Figures) -> io::Result<()>
    ensures { OnOk result (Appends (W.contents out.old) (W.contents out.new)
        (figures_line (printed_name origin.now) figures)) }
{
    print_newest(out, origin, figures)?;
    print_journal(out, figures)
}

/// Reports what is wrong with the device of a zone, and returns the exit status.
fn report<E: Write>(
    err: &mut E,
    own: &ZoneSettings,
    fault: DeviceFault,
    explain: bool,
) -> io::Result<u8>
    ensures status { IfOk result (λ status. status ≡ status_of fault) }
    ensures reported { OnOk result
        (Appends (E.contents err.old) (E.contents err.new) (reported_of explain own.now (Err fault))) }
{
    match fault {
        DeviceFault::OutOfMemory => Ok(FAILED),
        _ => tell_device(err, &own.device, fault, explain),
    }
}

/// Reports each of these sectors of the device of a zone.
fn report_each<E: Write>(
    err: &mut E,
    own: &ZoneSettings,
    places: &[usize],
    explain: bool,
) -> io::Result<()>
    ensures { OnOk result (Appends (E.contents err.old) (E.contents err.new)
        (flat_map (spoilt_text (string_bytes own.now.device) explain) places.now)) }
{
    for position in places {
        tell_device(err, &own.device, DeviceFault::Damaged(*position), explain)?;
    }
    Ok(())
}

/// Tells what was found of a store that is well where reading reaches it, and returns the exit status.
fn tell_found<W: Write, E: Write>(
    out: &mut W,
    err: &mut E,
    own: &ZoneSettings,
    found: &Found,
    explain: bool,
) -> io::Result<u8>
    ensures status { IfOk result (λ status. status ≡ spoilt_status found.now.spoilt.items) }
    ensures printed { OnOk result (Appends (W.contents out.old) (W.contents out.new)
        (figures_line (printed_name own.now.origin) found.now.figures)) }
    ensures reported { OnOk result (Appends (E.contents err.old) (E.contents err.new)
        (flat_map (spoilt_text (string_bytes own.now.device) explain) found.now.spoilt.items)) }
{
    print_figures(out, &own.origin, found.figures)?;
    report_each(err, own, &found.spoilt, explain)?;
    if found.spoilt.is_empty() {
        return Ok(DONE);
    }
    Ok(REFUSED)
}

/// Looks at the device of a zone, tells what was found, and returns the exit status.
fn verify_one<D: Sectors + Drop, F: DevicesToRead<D>, I: ZoneIndex, W: Write, E: Write>(
    run: &mut Run<F, W, E>,
    own: &ZoneSettings,
    every_sector: bool,
) -> io::Result<u8>
    ensures told { Calls (F.calls run.old.devices) (F.calls run.new.devices)
        (λ calls. IsFoundAndTold D.Sectors every_sector calls own.now result
        (ended_run W.contents E.contents run.old run.new calls)) }
    ensures explain { run.new.explain ≡ run.old.explain }
{
    match look_at::<D, F, I>(run.heap, &mut run.devices, own, every_sector) {
        Ok(found) => tell_found(&mut run.out, &mut run.err, own, &found, run.explain),
        Err(fault) => report(&mut run.err, own, fault, run.explain),
    }
}

/// Looks at the devices of zones, in their order, tells what was found of each, and returns the worst exit
/// status.
fn verify_zones<D: Sectors + Drop, F: DevicesToRead<D>, I: ZoneIndex, W: Write, E: Write>(
    run: &mut Run<F, W, E>,
    settings: &[ZoneSettings],
    every_sector: bool,
) -> io::Result<u8>
    ensures { RunEnds F.calls W.contents E.contents run.old run.new (result_unwrap_or result FAILED)
        (VerifyingEnds D.Sectors every_sector settings.now) }
{
    let mut worst = DONE;
    for own in settings {
        let status = verify_one::<D, F, I, W, E>(run, own, every_sector)?;
        worst = worst.max(status);
    }
    Ok(worst)
}

/// Looks at the devices of all zones, and returns the exit status.
fn verify_all<D: Sectors + Drop, F: DevicesToRead<D>, I: ZoneIndex, W: Write, E: Write>(
    run: &mut Run<F, W, E>,
    config: &File<'_>,
    every_sector: bool,
) -> io::Result<u8>
    ensures { RunEnds F.calls W.contents E.contents run.old run.new (result_unwrap_or result FAILED)
        (EndsForAll config.now (VerifyingEnds D.Sectors every_sector)) }
{
    match read_configuration(run.alloc, run.heap, config) {
        Ok(configuration) => verify_zones::<D, F, I, W, E>(run, &configuration.zones, every_sector),
        Err(fault) => tell(&mut run.err, config.path, fault),
    }
}

/// Looks at the device of the zone of that name, and returns the exit status.
fn verify_named<D: Sectors + Drop, F: DevicesToRead<D>, I: ZoneIndex, W: Write, E: Write>(
    run: &mut Run<F, W, E>,
    config: &File<'_>,
    origin: &str,
    every_sector: bool,
) -> io::Result<u8>
    ensures { RunEnds F.calls W.contents E.contents run.old run.new (result_unwrap_or result FAILED)
        (EndsForNamed config.now origin.now (λ own. VerifyingEnds D.Sectors every_sector (own ∷ []))) }
{
    match zone_named(run.alloc, run.heap, config, origin) {
        Ok(own) => verify_zones::<D, F, I, W, E>(run, &[own], every_sector),
        Err((word, fault)) => tell(&mut run.err, word, fault),
    }
}

/// Reads the device of each zone of a configuration, or of the one that is named, and writes none: it opens
/// each as `serve` would, but counts no opening. Prints
/// `ORIGIN version V serial M records N entries E sectors-left L openings O` of a store that is well: the
/// newest version, its serial and how many records it has, how many changes the journal holds, how many of
/// its sectors are left, and how often the store was opened. An error of a device is reported as `dump` does,
/// and the next zone follows. With `every_sector` each sector of a device is tested, read by an opening or
/// not, and each that is neither zeros nor its own is reported (`DEVICE: Damaged(N)`).
///
/// Errors before any device is opened: the configuration, the origin (`ORIGIN: BadOrigin`). Returns the exit
/// status, the highest of all zones: `DONE`, `REFUSED` if a store is refused, or `FAILED` if a device can't
/// be had or memory was refused; and `FAILED` if a writer failed, after which no zone follows.
pub fn verify<D: Sectors + Drop, F: DevicesToRead<D>, I: ZoneIndex, W: Write, E: Write>(
    run: &mut Run<F, W, E>,
    config: &File<'_>,
    origin: Option<&str>,
    every_sector: bool,
) -> u8
    ensures { RunEnds F.calls W.contents E.contents run.old run.new result
        (VerifyEnds D.Sectors config.now (option_copied origin.entry) every_sector) }
{
    match origin {
        Some(origin) => {
            verify_named::<D, F, I, W, E>(run, config, origin, every_sector).unwrap_or(FAILED)
        }
        None => verify_all::<D, F, I, W, E>(run, config, every_sector).unwrap_or(FAILED),
    }
}
