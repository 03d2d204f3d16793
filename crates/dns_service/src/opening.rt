//! The zones of a configuration over their devices: what a primary is given, and why there is none.
ghost use Rattle.std.specs.Prelude.{◌≡◌, map, MatchResult};
ghost use Rattle.dns_configuration.specs.Known.{origins_of};
ghost use Rattle.dns_configuration.specs.Calls.{Calls, HasCalled};
ghost use Rattle.dns_primary.specs.Open.{device_of_pending};
ghost use Rattle.dns_service.specs.Opening.{AreGiven, IsFaultAt, IsNextTried, IsNotGiven, IsNotServed};
ghost use Rattle.dns_service.specs.Opening.{IsOpenedAs, IsServed, closings};

use dns_configuration::{ZoneSettings, settings_of};
use dns_devices::{DeviceFault, Devices, refusal};
use dns_memory::Heap;
use dns_names::Name;
use dns_primary::{NotOpened, Primary};
use dns_sectors::Sectors;
use dns_store::{KeptStore, OpenError};
use dns_versions::ZoneVersions;
use dns_zone::ZoneIndex;

/// The device of a zone that is refused: the position of the zone, and why.
#[derive(Clone, Copy)]
pub(crate) struct Refusal {
    pub(crate) index: usize,
    pub(crate) fault: DeviceFault,
}

/// Closes devices, those of the first zones.
pub(crate) fn close_all<D: Drop, F: Devices<D>>(
    devices: &mut F,
    zones: &[ZoneSettings],
    open: Vec<D, Heap>,
)
    ensures { HasCalled (F.calls devices.old) (F.calls devices.new) (closings open.entry.items zones.now) }
{
    let mut open = open;
    for own in zones {
        if !open.is_empty() {
            devices.close(&own.device, open.remove(0));
        }
    }
}

/// The device of a store.
fn device_of<D: Sectors + Drop, I: ZoneIndex>(pending: ZoneVersions<I, KeptStore<D, I>>) -> D
    ensures { result ≡ device_of_pending pending }
{
    let ZoneVersions {
        tip: _,
        store,
        number: _,
        octets: _,
        snapshot: _,
        journal: _,
    } = pending;
    store.into_device()
}

/// Closes the devices of stores, those of the first zones.
pub(crate) fn close_stores<D: Sectors + Drop, F: Devices<D>, I: ZoneIndex>(
    devices: &mut F,
    zones: &[ZoneSettings],
    stores: Vec<ZoneVersions<I, KeptStore<D, I>>, Heap>,
)
    ensures { HasCalled (F.calls devices.old) (F.calls devices.new)
        (closings (map (λ b. device_of_pending b) stores.entry.items) zones.now) }
{
    let mut open = stores;
    for own in zones {
        if !open.is_empty() {
            devices.close(&own.device, device_of(open.remove(0)));
        }
    }
}

/// Opens the device of a zone, and puts it after those that were opened before.
fn open_next<D, F: Devices<D>>(
    devices: &mut F,
    own: &ZoneSettings,
    given: &mut Vec<D, Heap>,
) -> Result<(), DeviceFault>
    ensures { Calls (F.calls devices.old) (F.calls devices.new)
        (λ calls. IsNextTried calls own.now given.old.items given.new.items result) }
{
    if given.reserve(1).is_err() {
        return Err(DeviceFault::OutOfMemory);
    }
    let device = devices.open(&own.device)?;
    given.push_reserved(device);
    Ok(())
}

/// Opens the devices of zones. If one can't be had, those before it are closed.
fn open_devices<D: Drop, F: Devices<D>>(
    heap: Heap,
    devices: &mut F,
    zones: &[ZoneSettings],
) -> Result<Vec<D, Heap>, Refusal>
    ensures { Calls (F.calls devices.old) (F.calls devices.new) (λ calls. MatchResult result
        (λ given. AreGiven calls zones.now given.items)
        (λ r. IsNotGiven calls zones.now r.index r.fault)) }
{
    let mut given = Vec::new(heap);
    for index in 0..zones.len() {
        if let Err(fault) = open_next(devices, &zones[index], &mut given) {
            close_all(devices, zones, given);
            return Err(Refusal { index, fault });
        }
    }
    Ok(given)
}

/// The fault of the device there, which was handed back when its store was refused for this.
fn fault_at<D: Sectors>(devices: &mut [D], index: usize, error: OpenError) -> DeviceFault
    ensures { IsFaultAt D.Sectors error devices.old devices.new index result }
{
    if index < devices.len() {
        refusal(&mut devices[index], error)
    } else {
        DeviceFault::from(error)
    }
}

/// The primary of zones over their devices, or the device that was refused; then all are closed.
pub(crate) fn open_primary<D: Sectors + Drop, F: Devices<D>, I: ZoneIndex>(
    heap: Heap,
    devices: &mut F,
    zones: &[ZoneSettings],
    origins: &[Name],
) -> Result<Primary<I, KeptStore<D, I>>, Refusal>
    requires { origins.now ≡ origins_of zones.now }
    ensures { Calls (F.calls devices.old) (F.calls devices.new) (λ calls. MatchResult result
        (λ p. IsServed D.Sectors calls zones.now (IsOpenedAs p))
        (λ r. IsNotServed D.Sectors calls zones.now r.index r.fault)) }
{
    let Ok(settings) = settings_of(heap, zones) else {
        return Err(Refusal {
            index: 0,
            fault: DeviceFault::OutOfMemory,
        });
    };
    let given = match open_devices(heap, devices, zones) {
        Ok(given) => given,
        Err(refusal) => return Err(refusal),
    };
    match Primary::open(heap, given, origins, settings) {
        Ok(primary) => Ok(primary),
        Err(refused) => {
            let NotOpened {
                index,
                error,
                devices: mut given,
            } = refused;
            let fault = fault_at(&mut given, index, error);
            close_all(devices, zones, given);
            Err(Refusal { index, fault })
        }
    }
}
