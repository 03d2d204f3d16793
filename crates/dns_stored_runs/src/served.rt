//! A primary that holds the zone `example.`, in a store on a device in memory.
ghost use Rattle.std.specs.Prelude.{◌≡◌, IfSome, length};

use dns_commands::Index;
use dns_masterfile::read_zone;
use dns_memory::Heap;
use dns_names::Name;
use dns_policy::Prefix;
use dns_primary::{Primary, ZoneSpec};
use dns_sectors::{MemorySectors, Plan};
use dns_store::{KeptStore, format};
use dns_zone::Zone;
use std::rc::Rc;

/// How many sectors there are for a journal.
const JOURNAL: u32 = 16;

/// The name of the zone.
fn apex(heap: Heap) -> Option<Name> {
    Name::from_text(heap, b"example.", &Name::root(heap)).ok()
}

/// The zone of a master file.
fn zone(heap: Heap, file: &[u8]) -> Option<Zone<Index>> {
    let apex = apex(heap)?;
    match read_zone(heap, file, &apex) {
        Ok(records) => Zone::from_records(heap, apex, records).ok(),
        Err(_) => {
            drop(apex);
            None
        }
    }
}

/// A device on which the store of a zone is made.
fn made(heap: Heap, zone: &Zone<Index>, snapshot: u32) -> Option<MemorySectors> {
    let sectors = 1 + 2 * (snapshot as usize + JOURNAL as usize);
    let plan = Rc::new(heap, Plan::new()).ok()?;
    let mut device = MemorySectors::new(heap, sectors, sectors.saturating_add(100), plan).ok()?;
    if format(heap, &mut device, zone, snapshot, JOURNAL).is_ok() {
        Some(device)
    } else {
        drop(device);
        None
    }
}

/// A device with the zone of a master file, and with so many sectors for a snapshot.
fn device(heap: Heap, file: &[u8], snapshot: u32) -> Option<MemorySectors> {
    let zone = zone(heap, file)?;
    let device = made(heap, &zone, snapshot);
    drop(zone);
    device
}

/// A list of one.
fn list_of<T: Drop>(heap: Heap, one: T) -> Option<Vec<T, Heap>>
    ensures { IfSome result (λ list. length list.items ≡ 1) }
{
    let mut list = Vec::new(heap);
    list.push(one).ok()?;
    Some(list)
}

/// The settings of one zone that may be updated and transferred from each IPv4 address.
fn settings(heap: Heap, snapshot: u32) -> Option<Vec<ZoneSpec, Heap>>
    ensures { IfSome result (λ list. length list.items ≡ 1) }
{
    let anywhere = Prefix::parse(b"0.0.0.0/0").ok()?;
    let settings = ZoneSpec {
        snapshot,
        journal: JOURNAL,
        keep: 4,
        update: list_of(heap, anywhere)?,
        transfer: list_of(heap, anywhere)?,
    };
    list_of(heap, settings)
}

/// A primary of one zone, over a device in memory.
pub(crate) type Served = Primary<Index, KeptStore<MemorySectors, Index>>;

/// Opens the primary of the zone.
fn open(
    heap: Heap,
    devices: Vec<MemorySectors, Heap>,
    settings: Vec<ZoneSpec, Heap>,
) -> Option<Served>
    requires device { length devices.items ≡ 1 }
    requires zone { length settings.items ≡ 1 }
{
    match apex(heap) {
        Some(apex) => Primary::open(heap, devices, &[apex], settings).ok(),
        None => {
            drop((devices, settings));
            None
        }
    }
}

/// A primary that holds the zone of a master file. A record takes less than two octets for each of its line.
pub(crate) fn served(heap: Heap, file: &[u8]) -> Option<Served> {
    let snapshot = u32::try_from(file.len() / 200 + 8).ok()?;
    let devices = list_of(heap, device(heap, file, snapshot)?)?;
    match settings(heap, snapshot) {
        Some(settings) => open(heap, devices, settings),
        None => {
            drop(devices);
            None
        }
    }
}
