//! A primary of one zone over a device in a file in memory.
use crate::stores::{Shape, read};
use dns_fixtures::{name, octets};
use dns_memory::Heap;
use dns_policy::Prefix;
use dns_primary::{Effects, Event, NotOpened, Peer, Primary, ZoneSpec};
use dns_sectors::{FileSectors, MemoryFile, MemorySectors, Sectors};
use dns_store::{KeptStore, ZoneStore};
use dns_zone::{RecordList, ZoneIndex};
use std::net::{IpAddr, Ipv4Addr};

pub(crate) type Device = FileSectors<MemoryFile>;

/// A primary over such devices.
pub(crate) type Server = Primary<RecordList, KeptStore<Device, RecordList>>;

/// The peer of all that comes.
fn peer() -> Peer {
    Peer {
        address: IpAddr::V4(Ipv4Addr::new(192, 0, 2, 9)),
        port: 5353,
        local: 0,
    }
}

/// A list of one.
fn listed<T: Drop>(heap: Heap, one: Option<T>) -> Option<Vec<T, Heap>> {
    let mut all = Vec::with_capacity(heap, 1).ok()?;
    all.push(one?).ok()?;
    Some(all)
}

/// The settings of a zone of this shape, which may be updated and transferred from anywhere. A checkpoint
/// keeps one change.
fn settings(heap: Heap, shape: &Shape) -> Option<ZoneSpec> {
    let anywhere = Prefix::parse(b"0.0.0.0/0").ok()?;
    Some(ZoneSpec {
        snapshot: shape.snapshot,
        journal: shape.journal,
        keep: 1,
        update: listed(heap, Some(anywhere))?,
        transfer: listed(heap, Some(anywhere))?,
    })
}

/// Opens the primary of a zone of this shape, where its n-th allocation is refused; 0 refuses none.
pub(crate) fn open(
    heap: Heap,
    device: Device,
    shape: &Shape,
    n: u64,
) -> Option<Result<Server, NotOpened<Device>>> {
    let devices = listed(heap, Some(device))?;
    let names = listed(heap, name(heap, shape.apex))?;
    let settings = listed(heap, Some(settings(heap, shape)?))?;
    if devices.len() != settings.len() || names.len() != settings.len() {
        drop((devices, settings));
        return None;
    }
    heap.refuse(n);
    let opened = Primary::open(heap, devices, &names, settings);
    heap.refuse(0);
    Some(opened)
}

/// The sectors of a device in memory, in a file.
pub(crate) fn in_file(heap: Heap, from: &mut MemorySectors) -> Option<Device> {
    let file = MemoryFile::new(heap, 128).ok()?;
    let mut device = FileSectors::zeroed(file, from.len()).ok()?;
    for at in 0..from.len() {
        let sector = read(from, at)?;
        if at < device.len() {
            device.write(at, &sector).ok()?;
        }
    }
    Some(device)
}

/// Opens the primary of a zone of this shape.
pub(crate) fn serving(heap: Heap, device: Device, shape: &Shape) -> Option<Server> {
    open(heap, device, shape, 0)?.ok()
}

/// What events happen to. A call that names both a store over a device and the memory of every collection has
/// no proof, so here they are type parameters.
trait TakesEvents<H, E, R> {
    /// Lets an event happen.
    fn take_event(&mut self, heap: H, event: E) -> R;
}

impl<'e, I: ZoneIndex, S: ZoneStore> TakesEvents<Heap, Event<'e>, Effects> for Primary<I, S> {
    fn take_event(&mut self, heap: Heap, event: Event<'e>) -> Effects {
        self.step(heap, event)
    }
}

/// Lets an event happen.
fn happen<H, E, R, P: TakesEvents<H, E, R>>(primary: &mut P, heap: H, event: E) -> R {
    primary.take_event(heap, event)
}

/// Whether it replies so to a datagram.
pub(crate) fn replies(
    heap: Heap,
    server: &mut Server,
    request: &'static [u8],
    digits: &str,
) -> bool {
    let Some(octets) = octets(heap, digits) else {
        return false;
    };
    let effects = happen(server, heap, Event::Datagram(peer(), request));
    match &effects.message {
        Some(reply) => reply.octets.as_slice() == octets.as_slice(),
        None => false,
    }
}

/// What shows a version.
trait ShowsVersion {
    /// The number of the version that is shown, its serial, and how many records it has.
    fn version(&self) -> Option<(u64, u32, u64)>;
}

impl<I: ZoneIndex, S: ZoneStore> ShowsVersion for Primary<I, S> {
    fn version(&self) -> Option<(u64, u32, u64)> {
        let (number, zone) = self.shown(0)?;
        Some((number, zone.soa().serial(), zone.records().count() as u64))
    }
}

/// The version that a primary shows.
fn version_of<P: ShowsVersion>(primary: &P) -> Option<(u64, u32, u64)> {
    primary.version()
}

/// The version that a device opens as: its number, its serial, and how many records it has.
pub(crate) fn shown_on(heap: Heap, device: Device, shape: &Shape) -> Option<(u64, u32, u64)> {
    let server = serving(heap, device, shape)?;
    version_of(&server)
}
