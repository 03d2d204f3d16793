//! The store that the device of a configured zone keeps, and its newest version.
ghost use Rattle.std.specs.Prelude.{MatchResult};
ghost use Rattle.dns_configuration.specs.Calls.{Calls};
ghost use Rattle.dns_devices.specs.Stores.{IsDumped, IsNotShown, IsStoreOpened};

use crate::device_faults::{DeviceFault, refusal};
use crate::devices::Devices;
use dns_configuration::ZoneSettings;
use dns_memory::Heap;
use dns_sectors::Sectors;
use dns_store::{KeptStore, OpenError, open};
use dns_zone::{Zone, ZoneIndex};

/// Opens the store that the device of a configured zone keeps, and returns it with its newest version. The
/// device is closed if its store is refused.
pub fn open_store<D: Sectors + Drop, F: Devices<D>, I: ZoneIndex>(
    heap: Heap,
    devices: &mut F,
    own: &ZoneSettings,
) -> Result<(KeptStore<D, I>, Zone<I>), DeviceFault>
    ensures { Calls (F.calls devices.old) (F.calls devices.new) (λ calls. MatchResult result
        (λ r. IsStoreOpened calls own.now r.0 r.1) (IsNotShown D.Sectors calls own.now)) }
{
    let device = devices.open(&own.device)?;
    let (snapshot, journal) = (own.snapshot_sectors, own.journal_sectors);
    let opened: Result<(KeptStore<D, I>, Zone<I>), (D, OpenError)> = open(
        heap,
        device,
        &own.origin,
        snapshot,
        journal,
    );
    match opened {
        Ok(store_and_newest) => Ok(store_and_newest),
        Err((mut device, error)) => {
            let fault = refusal(&mut device, error);
            devices.close(&own.device, device);
            Err(fault)
        }
    }
}

/// The newest zone that the device of a configured one keeps. The device is closed.
pub fn open_zone<D: Sectors + Drop, F: Devices<D>, I: ZoneIndex>(
    heap: Heap,
    devices: &mut F,
    own: &ZoneSettings,
) -> Result<Zone<I>, DeviceFault>
    ensures { Calls (F.calls devices.old) (F.calls devices.new) (λ calls. MatchResult result
        (IsDumped D.Sectors calls own.now) (IsNotShown D.Sectors calls own.now)) }
{
    match open_store::<D, F, I>(heap, devices, own) {
        Ok((store, zone)) => {
            devices.close(&own.device, store.into_device());
            Ok(zone)
        }
        Err(fault) => Err(fault),
    }
}
