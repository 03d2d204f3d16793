//! Devices that are made: the store of each zone, from its master file.
ghost use Rattle.std.specs.Prelude.{◌≡◌, ◌∷◌, [], length, map, flat_map, OnOk, MatchOption};
ghost use Rattle.std.specs.Prelude.{MatchResult};
ghost use Rattle.std.specs.Option.{option_copied};
ghost use Rattle.std.specs.Result.{result_unwrap_or};
ghost use Rattle.std.specs.Io.KnownBytes.{Appends};
ghost use Rattle.dns_configuration.specs.Calls.{Calls, HasCalled};
ghost use Rattle.dns_commands.specs.Frame.{RunEnds};
ghost use Rattle.dns_commands.specs.Init.{AreChosen, AreMade, InitEnds, IsChoiceRefused, IsDeviceMade};
ghost use Rattle.dns_commands.specs.Init.{IsFirstFound, IsFound, IsMakingUndone, IsNotMade, MakingEnds};
ghost use Rattle.dns_commands.specs.Init.{absent, formatted, removal, sectors_of};

use crate::frame::Run;
use dns_configuration::{
    DONE, FAILED, Fault, File, ZoneSettings, apex, load_all, read_configuration, tell, zone_of,
};
use dns_devices::{DeviceFault, NewDevices, tell_device};
use dns_memory::Heap;
use dns_sectors::Sectors;
use dns_store::format;
use dns_zone::{Zone, ZoneIndex};
use std::io::{self, Write};
use std::slice;

/// How many sectors the device of a zone has: a root, and two banks.
fn sectors_of(own: &ZoneSettings) -> usize
    ensures { result ≡ sectors_of own.now }
{
    let bank = u64::from(own.snapshot_sectors) + u64::from(own.journal_sectors);
    (1 + 2 * bank) as usize
}

/// Makes the store of a zone on a new device. One on which the store can't be made is removed again.
fn make_store<D: Sectors + Drop, F: NewDevices<D>, I: ZoneIndex>(
    heap: Heap,
    devices: &mut F,
    own: &ZoneSettings,
    zone: &Zone<I>,
) -> Result<(), DeviceFault>
    ensures { Calls (F.calls devices.old) (F.calls devices.new) (λ calls. MatchResult result
        (λ _. IsDeviceMade D.Sectors calls own.now zone.now)
        (IsNotMade D.Sectors calls own.now zone.now)) }
{
    let Ok(mut device) = devices.make(&own.device, sectors_of(own)) else {
        return Err(DeviceFault::Device);
    };
    let (snapshot, journal) = (own.snapshot_sectors, own.journal_sectors);
    let formatted = format(heap, &mut device, zone, snapshot, journal);
    devices.close(&own.device, device);
    match formatted {
        Ok(()) => Ok(()),
        Err(error) => {
            devices.remove(&own.device);
            Err(DeviceFault::from(error))
        }
    }
}

/// Why the device of a zone is not to be made: there is something at its path already, or that can't be
/// determined.
fn fault_at<D, F: NewDevices<D>>(devices: &mut F, own: &ZoneSettings) -> Option<DeviceFault>
    ensures { Calls (F.calls devices.old) (F.calls devices.new) (λ calls. MatchOption result
        (calls ≡ absent own.now ∷ []) (IsFound calls own.now)) }
{
    match devices.has(&own.device) {
        Ok(there) => {
            if there {
                Some(DeviceFault::Exists)
            } else {
                None
            }
        }
        Err(_) => Some(DeviceFault::Device),
    }
}

/// The path of the first device where there is something already, or where that can't be determined.
fn first_found<'s, D, F: NewDevices<D>>(
    devices: &mut F,
    zones: &'s [ZoneSettings],
) -> Option<(&'s str, DeviceFault)>
    ensures { Calls (F.calls devices.old) (F.calls devices.new) (λ calls. MatchOption result
        (calls ≡ map absent zones.now) (λ r. IsFirstFound calls zones.now r.0.now r.1)) }
{
    for own in zones {
        if let Some(fault) = fault_at::<D, F>(devices, own) {
            return Some((&own.device, fault));
        }
    }
    None
}

/// The zones whose devices are to be made: all that are configured, or the one that the word names. Where it
/// names none the word is handed back with the fault.
fn chosen<'s, 'o>(
    heap: Heap,
    zones: &'s [ZoneSettings],
    origin: Option<&'o str>,
) -> Result<&'s [ZoneSettings], (&'o str, Fault)>
    ensures { MatchResult result
        (λ chosen. AreChosen (option_copied origin.entry) zones.now chosen.now)
        (λ r. IsChoiceRefused (option_copied origin.entry) zones.now r.0.now r.1) }
{
    let Some(origin) = origin else {
        return Ok(zones);
    };
    let name = match apex(heap, origin) {
        Ok(name) => name,
        Err(fault) => return Err((origin, fault)),
    };
    match zone_of(zones, &name) {
        Some(own) => Ok(slice::from_ref(own)),
        None => Err((origin, Fault::BadOrigin)),
    }
}

/// Removes the devices of these zones, which were made in this run.
fn remove_all<D, F: NewDevices<D>>(devices: &mut F, settings: &[ZoneSettings])
    ensures { HasCalled (F.calls devices.old) (F.calls devices.new) (map removal settings.now) }
{
    for own in settings {
        devices.remove(&own.device);
    }
}

/// Makes the devices of zones, in their order. If one is refused those before it are removed again.
fn make_devices<'s, D: Sectors + Drop, F: NewDevices<D>, I: ZoneIndex>(
    heap: Heap,
    devices: &mut F,
    settings: &'s [ZoneSettings],
    zones: &[Zone<I>],
) -> Result<(), (&'s str, DeviceFault)>
    requires { length settings.now ≡ length zones.now }
    ensures { Calls (F.calls devices.old) (F.calls devices.new) (λ calls. MatchResult result
        (λ _. AreMade D.Sectors calls settings.now zones.now)
        (λ r. IsMakingUndone D.Sectors calls settings.now zones.now r.0.now r.1)) }
{
    for position in 0..settings.len() {
        let own = &settings[position];
        if let Err(fault) = make_store(heap, devices, own, &zones[position]) {
            remove_all::<D, F>(devices, &settings[..position]);
            return Err((&own.device, fault));
        }
    }
    Ok(())
}

/// Prints that the device of a zone was made, and the serial of the zone.
fn print_formatted<I: ZoneIndex, W: Write>(out: &mut W, zone: &Zone<I>) -> io::Result<()>
    ensures { OnOk result (Appends (W.contents out.old) (W.contents out.new) (formatted zone.now)) }
{
    writeln!(
        out,
        "formatted {} serial {}",
        zone.apex(),
        zone.soa().serial()
    )
}

/// Prints that the devices of zones were made.
fn print_all<I: ZoneIndex, W: Write>(out: &mut W, zones: &[Zone<I>]) -> io::Result<()>
    ensures { OnOk result
        (Appends (W.contents out.old) (W.contents out.new) (flat_map formatted zones.now)) }
{
    for zone in zones {
        print_formatted(out, zone)?;
    }
    Ok(())
}

/// Makes the devices of zones, in their order, and prints each. If one is refused, or what was made can't be
/// printed, none that was made stays.
fn make_all<D: Sectors + Drop, F: NewDevices<D>, I: ZoneIndex, W: Write, E: Write>(
    run: &mut Run<F, W, E>,
    settings: &[ZoneSettings],
    zones: &[Zone<I>],
) -> io::Result<u8>
    requires { length settings.now ≡ length zones.now }
    ensures { RunEnds F.calls W.contents E.contents run.old run.new (result_unwrap_or result FAILED)
        (MakingEnds D.Sectors settings.now zones.now) }
{
    if let Err((path, fault)) = make_devices::<D, F, I>(
        run.heap,
        &mut run.devices,
        settings,
        zones,
    ) {
        return tell_device(&mut run.err, path, fault, run.explain);
    }
    match print_all(&mut run.out, zones) {
        Ok(()) => Ok(DONE),
        Err(error) => {
            remove_all::<D, F>(&mut run.devices, settings);
            Err(error)
        }
    }
}

/// Makes the devices that are asked for, and gives the exit status.
fn init_all<D: Sectors + Drop, F: NewDevices<D>, I: ZoneIndex, W: Write, E: Write>(
    run: &mut Run<F, W, E>,
    config: &File<'_>,
    origin: Option<&str>,
    files: &[File<'_>],
) -> io::Result<u8>
    ensures { RunEnds F.calls W.contents E.contents run.old run.new (result_unwrap_or result FAILED)
        (InitEnds D.Sectors config.now (option_copied origin.entry) files.now) }
{
    let configured = match read_configuration(run.alloc, run.heap, config) {
        Ok(configuration) => configuration.zones,
        Err(fault) => return tell(&mut run.err, config.path, fault),
    };
    let settings = match chosen(run.heap, &configured, origin) {
        Ok(settings) => settings,
        Err((word, fault)) => return tell(&mut run.err, word, fault),
    };
    let zones: Vec<Zone<I>, Heap> = match load_all(run.heap, files, settings) {
        Ok(zones) => zones,
        Err((path, fault)) => return tell(&mut run.err, path, fault),
    };
    if let Some((path, fault)) = first_found(&mut run.devices, settings) {
        return tell_device(&mut run.err, path, fault, run.explain);
    }
    make_all(run, settings, &zones)
}

/// Makes the device of each zone of a configuration from its master file, or that of the zone which `origin`
/// names alone, and then prints `formatted ORIGIN serial M` for each. If that ends with another status than
/// `DONE`, no device that this run made stays; nothing that was there before is opened, written or removed.
///
/// Faults are reported in one line, the first in this order: the configuration, the origin
/// (`ORIGIN: BadOrigin`), the master files in the order of the zones, the devices (`DEVICE: Exists` before
/// any is made); of a device, if it is wanted, a second line says what can be done. Returns the exit status:
/// `DONE`, `REFUSED`, or `FAILED` if a device can't be had, a writer failed or memory was refused.
pub fn init<D: Sectors + Drop, F: NewDevices<D>, I: ZoneIndex, W: Write, E: Write>(
    run: &mut Run<F, W, E>,
    config: &File<'_>,
    origin: Option<&str>,
    files: &[File<'_>],
) -> u8
    ensures { RunEnds F.calls W.contents E.contents run.old run.new result
        (InitEnds D.Sectors config.now (option_copied origin.entry) files.now) }
{
    init_all::<D, F, I, W, E>(run, config, origin, files).unwrap_or(FAILED)
}
