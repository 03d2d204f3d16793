//! Two zones, stores of them on devices in memory, and what a device opens as. What a test doesn't look at is
//! no error here but `None`.
use dns_changes::{Change, PreparedEntry};
use dns_fixtures::{blank, name, zone};
use dns_memory::Heap;
use dns_sectors::{Keep, MemorySectors, Plan, Sector, Sectors};
use dns_store::{FormatError, KeptStore, OpenError, ZoneStore, format, open};
use dns_zone::{RecordList, Zone, ZoneIndex};
use std::rc::Rc;

pub(crate) type Device = MemorySectors;

pub(crate) type Store = KeptStore<MemorySectors, RecordList>;

/// A zone as it is loaded, and the sizes of its store.
#[derive(Clone, Copy)]
pub(crate) struct Shape {
    pub(crate) apex: &'static str,
    /// Its master file, its records in plain form in the order of a snapshot, and where the SOA is in these.
    pub(crate) file: &'static str,
    pub(crate) zone: &'static [u8],
    pub(crate) soa: (usize, usize),
    /// How many sectors a bank has for its snapshot, and for its journal.
    pub(crate) snapshot: u32,
    pub(crate) journal: u32,
}

/// A zone of 74 octets.
pub(crate) const TINY: Shape = Shape {
    apex: "tiny.",
    file: "$TTL 3600\n@ NS ns\n@ SOA ns h 0 1 1 1 1\n",
    zone: b"\x04tiny\0\0\x02\0\0\x0e\x10\0\x09\x02ns\x04tiny\0\x04tiny\0\0\x06\0\0\x0e\x10\0\x25\
\x02ns\x04tiny\0\x01h\x04tiny\0\0\0\0\0\0\0\0\x01\0\0\0\x01\0\0\0\x01\0\0\0\x01",
    soa: (23, 74),
    snapshot: 2,
    journal: 8,
};

/// A TXT record: its owner, the letter in its strings, and how many octets of data it has.
#[derive(Clone, Copy)]
pub(crate) struct Text(pub(crate) &'static [u8], pub(crate) u8, pub(crate) usize);

/// The text that comes with the version of this serial at the apex of the tiny zone.
pub(crate) fn tiny_text(serial: u8, size: usize) -> Text {
    Text(b"\x04tiny\0", b'a' + serial % 16, size)
}

impl Shape {
    /// A root, and two banks.
    pub(crate) fn sectors(&self) -> usize {
        1 + 2 * (self.snapshot as usize + self.journal as usize)
    }

    /// The SOA with this serial.
    fn push_soa(&self, octets: &mut Vec<u8, Heap>, serial: u8) -> Option<()> {
        octets
            .extend_from_slice(self.zone.get(self.soa.0..self.soa.1)?)
            .ok()?;
        let last = octets.len().checked_sub(17)?;
        *octets.get_mut(last)? = serial;
        Some(())
    }

    /// The entry of the change to the version with this serial, which adds a text, or takes it away.
    pub(crate) fn push_entry(
        &self,
        octets: &mut Vec<u8, Heap>,
        serial: u8,
        text: Text,
        is_gone: bool,
    ) -> Option<()> {
        self.push_soa(octets, serial.wrapping_sub(1))?;
        self.push_soa(octets, serial)?;
        if is_gone {
            octets.extend_from_slice(&[0, 0, 0, 1]).ok()?;
            push_text(octets, text)?;
            return octets.extend_from_slice(&[0, 0, 0, 0]).ok();
        }
        octets.extend_from_slice(&[0, 0, 0, 0, 0, 0, 0, 1]).ok()?;
        push_text(octets, text)
    }
}

/// Puts a text in plain form at the end: strings of 255 octets, and one of what is left.
pub(crate) fn push_text(octets: &mut Vec<u8, Heap>, text: Text) -> Option<()> {
    let Text(owner, letter, size) = text;
    octets.extend_from_slice(owner).ok()?;
    octets.extend_from_slice(&[0, 16, 0, 0, 0, 60]).ok()?;
    octets
        .extend_from_slice(&u16::try_from(size).ok()?.to_be_bytes())
        .ok()?;
    for at in 0..size {
        let octet = if at % 256 == 0 {
            ((size - at).min(256) - 1) as u8
        } else {
            letter
        };
        octets.push(octet).ok()?;
    }
    Some(())
}

/// A read of a place that may be beyond the device's end.
pub(crate) fn read(device: &mut Device, at: usize) -> Option<Sector> {
    if at >= device.len() {
        return None;
    }
    device.read(at).ok()
}

/// A write to a place that may be beyond the device's end.
pub(crate) fn write(device: &mut Device, at: usize, sector: &Sector) -> Option<()> {
    if at >= device.len() {
        return None;
    }
    device.write(at, sector).ok()
}

/// Stages the change that adds a text, or takes it away, and says whether it was staged.
pub(crate) fn stage(
    heap: Heap,
    store: &mut Store,
    shape: &Shape,
    serial: u8,
    text: Text,
    is_gone: bool,
) -> Option<bool> {
    let mut octets = Vec::new(heap);
    shape.push_entry(&mut octets, serial, text, is_gone)?;
    let change = Change::decode(heap, &octets).ok()?;
    let entry = PreparedEntry::new(heap, change).ok()?;
    Some(store.stage(entry).is_ok())
}

/// Stages and flushes the change that adds a text, and says whether both were done.
pub(crate) fn enter(heap: Heap, store: &mut Store, shape: &Shape, serial: u8, text: Text) -> bool {
    stage(heap, store, shape, serial, text, false) == Some(true) && store.flush().is_ok()
}

/// Makes the store of version 0, and says what came of it.
pub(crate) fn make(
    heap: Heap,
    device: &mut Device,
    shape: &Shape,
) -> Option<Result<(), FormatError>> {
    let zone = zone(heap, shape.apex, shape.file)?;
    Some(format(heap, device, &zone, shape.snapshot, shape.journal))
}

/// A device with the store of version 0, all of it durable.
pub(crate) fn made(heap: Heap, shape: &Shape, plan: Rc<Plan, Heap>) -> Option<Device> {
    let mut device = blank(heap, shape.sectors(), plan)?;
    if make(heap, &mut device, shape) == Some(Ok(())) {
        Some(device.crash(Keep::These(&[])))
    } else {
        None
    }
}

/// The store of a device, and how many records and which serial the newest version has.
#[derive(Drop)]
pub(crate) struct OpenStore {
    pub(crate) store: Store,
    records: usize,
    pub(crate) serial: u32,
}

/// The number of the newest version, that of its base, and how many records each has; or why no store is
/// opened.
pub(crate) type Found = Result<(u64, u64, usize, usize), OpenError>;

impl OpenStore {
    pub(crate) fn found(&self) -> Found {
        let newest = self.store.newest();
        let base = newest.wrapping_sub(self.store.changes().len() as u64);
        Ok((newest, base, self.records, self.store.base().index().len()))
    }
}

/// Opens the store of a device.
pub(crate) fn opened(
    heap: Heap,
    device: Device,
    shape: &Shape,
) -> Result<OpenStore, (Device, OpenError)> {
    match name(heap, shape.apex) {
        Some(apex) => {
            let (store, newest): (Store, Zone<RecordList>) = open(
                heap,
                device,
                &apex,
                shape.snapshot,
                shape.journal,
            )?;
            let (records, serial) = (newest.index().len(), newest.soa().serial());
            Ok(OpenStore {
                store,
                records,
                serial,
            })
        }
        None => Err((device, OpenError::OutOfMemory)),
    }
}

/// What a device opens as; it is handed back.
pub(crate) fn look(heap: Heap, device: Device, shape: &Shape) -> (Device, Found) {
    match opened(heap, device, shape) {
        Ok(open) => {
            let found = open.found();
            (open.store.into_device(), found)
        }
        Err((device, error)) => (device, Err(error)),
    }
}

/// What a device opens as.
pub(crate) fn found_on(heap: Heap, device: Device, shape: &Shape) -> Found {
    let (_device, found) = look(heap, device, shape);
    found
}

/// The device with a store whose version 1 adds a text, all of it durable; the store was opened once.
pub(crate) fn entered(
    heap: Heap,
    shape: &Shape,
    plan: Rc<Plan, Heap>,
    text: Text,
) -> Option<Device> {
    let mut open = opened(heap, made(heap, shape, plan)?, shape).ok()?;
    let is_entered = enter(heap, &mut open.store, shape, 1, text);
    let device = open.store.into_device().crash(Keep::These(&[]));
    if is_entered { Some(device) } else { None }
}
