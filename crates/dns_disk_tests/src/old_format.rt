//! Stores of format 1, by the tables of that format: no program of this repository writes one.
use crate::example::{ENTRY, EXAMPLE, TEXTS, fill, has_sum};
use crate::stores::{Device, Shape, push_text, write};
use dns_fixtures::{blank, name, plan};
use dns_memory::{Heap, heap};
use dns_sectors::{Keep, Plan, Sector, Sectors};
use std::rc::Rc;
use std::test::Fail;

/// A bank of a store of format 1 and the root that names it: how often the store was opened, and how often
/// when the bank was written; the number of the base, its records in plain form, and the entries of the
/// versions after it.
pub(crate) struct Held {
    pub(crate) shape: Shape,
    pub(crate) bank: u32,
    pub(crate) open_count: u64,
    pub(crate) bank_open: u64,
    pub(crate) base: u64,
    pub(crate) snapshot: Vec<u8, Heap>,
    pub(crate) entries: Vec<Vec<u8, Heap>, Heap>,
}

// Written out, so that a proof lets one go by one call (docs/GATE.md).
impl Drop for Held {
    fn drop(self) {
        let Held {
            shape: _,
            bank: _,
            open_count: _,
            bank_open: _,
            base: _,
            snapshot,
            entries,
        } = self;
        drop((snapshot, entries));
    }
}

/// A sector with this tag and these numbers, and a payload of zeros.
fn sector(tag: &[u8; 4], open_count: u64, sequence: u64, number: u32) -> Sector {
    let mut sector = [0; 512];
    fill(&mut sector, 0, tag);
    fill(&mut sector, 4, &open_count.to_be_bytes());
    fill(&mut sector, 12, &sequence.to_be_bytes());
    fill(&mut sector, 20, &number.to_be_bytes());
    sector
}

/// Writes an entry, its bodies before its head, and says which place is after it.
fn write_entry(
    device: &mut Device,
    at: usize,
    open_count: u64,
    version: u64,
    entry: &[u8],
) -> Option<usize> {
    let mut next = at.saturating_add(1);
    let mut bodies = 0u32;
    for octets in entry[entry.len().min(484)..].chunks(488) {
        let mut body = sector(b"DPB1", open_count, version, bodies);
        fill(&mut body, 24, octets);
        write(device, next, &body)?;
        next = next.saturating_add(1);
        bodies = bodies.saturating_add(1);
    }
    let mut head = sector(b"DPH1", open_count, version, bodies);
    fill(
        &mut head,
        24,
        &u32::try_from(entry.len()).ok()?.to_be_bytes(),
    );
    fill(&mut head, 28, &entry[..entry.len().min(484)]);
    write(device, at, &head)?;
    Some(next)
}

impl Held {
    /// A store whose first bank holds the version that was loaded, with a text, if any.
    pub(crate) fn loaded(heap: Heap, shape: &Shape, open_count: u64) -> Option<Held> {
        let mut snapshot = Vec::new(heap);
        snapshot.extend_from_slice(shape.zone).ok()?;
        Some(Held {
            shape: *shape,
            bank: 0,
            open_count,
            bank_open: 0,
            base: 0,
            snapshot,
            entries: Vec::new(heap),
        })
    }

    /// The root that names the bank.
    fn root(&self, heap: Heap) -> Option<Sector> {
        let mut sector = sector(b"DPR1", self.open_count, self.base, self.bank);
        fill(&mut sector, 24, &self.bank_open.to_be_bytes());
        fill(&mut sector, 32, &(self.snapshot.len() as u64).to_be_bytes());
        fill(&mut sector, 40, &self.shape.snapshot.to_be_bytes());
        fill(&mut sector, 44, &self.shape.journal.to_be_bytes());
        fill(&mut sector, 48, name(heap, self.shape.apex)?.as_wire());
        Some(sector)
    }

    /// Writes the root, the snapshot and the entries.
    pub(crate) fn write(&self, heap: Heap, device: &mut Device) -> Option<()> {
        write(device, 0, &self.root(heap)?)?;
        let first = if self.bank == 0 {
            1
        } else {
            self.shape.sectors() / 2 + 1
        };
        for (i, octets) in self.snapshot.chunks(488).enumerate() {
            let mut part = sector(b"DPS1", self.bank_open, self.base, u32::try_from(i).ok()?);
            fill(&mut part, 24, octets);
            write(device, first.saturating_add(i), &part)?;
        }
        let mut next = first.saturating_add(self.shape.snapshot as usize);
        for (i, entry) in self.entries.iter().enumerate() {
            let version = self.base.saturating_add(i as u64).saturating_add(1);
            next = write_entry(device, next, self.open_count, version, entry)?;
        }
        device.sync().ok()
    }

    /// A device with the store, all of it durable.
    pub(crate) fn device(&self, heap: Heap, plan: Rc<Plan, Heap>) -> Option<Device> {
        let mut device = blank(heap, self.shape.sectors(), plan)?;
        match self.write(heap, &mut device) {
            Some(()) => Some(device.crash(Keep::These(&[]))),
            None => None,
        }
    }
}

/// A device with the store of the example, opened so often, and with the entry of its one change.
pub(crate) fn updated(heap: Heap, plan: Rc<Plan, Heap>, open_count: u64) -> Option<Device> {
    let mut held = Held::loaded(heap, &EXAMPLE, open_count)?;
    let mut entry = Vec::new(heap);
    entry.extend_from_slice(ENTRY).ok()?;
    held.entries.push(entry).ok()?;
    held.device(heap, plan)
}

/// Puts the entry of a text of the example after the others.
fn push(heap: Heap, held: &mut Held, position: usize) -> Option<()> {
    let (serial, text) = *TEXTS.get(position)?;
    let mut entry = Vec::new(heap);
    EXAMPLE.push_entry(&mut entry, serial, text, false)?;
    held.entries.push(entry).ok()
}

/// The second bank of the example after four texts, a checkpoint that keeps two, and one text more: its base
/// has the first two.
fn later(heap: Heap) -> Option<Held> {
    let mut held = Held::loaded(heap, &EXAMPLE, 1)?;
    held.bank = 1;
    held.bank_open = 1;
    held.base = 2;
    // the serial, of which the last octet is the 17th from the SOA's end
    *held.snapshot.get_mut(EXAMPLE.soa.1.checked_sub(17)?)? = 9;
    push_text(&mut held.snapshot, TEXTS[0].1)?;
    push_text(&mut held.snapshot, TEXTS[1].1)?;
    for position in 2..5 {
        push(heap, &mut held, position)?;
    }
    Some(held)
}

/// The device of the example after that.
pub(crate) fn with_checkpoint(heap: Heap) -> Option<Device> {
    let mut held = Held::loaded(heap, &EXAMPLE, 1)?;
    for position in 0..4 {
        push(heap, &mut held, position)?;
    }
    let mut device = held.device(heap, plan(heap)?)?;
    later(heap)?.write(heap, &mut device)?;
    Some(device.crash(Keep::These(&[])))
}

/// Whether nothing was written to the device with the store of the example, opened once, and with its change.
pub(crate) fn is_updated(heap: Heap, device: &mut Device) -> Option<bool> {
    let digits = "781e824f32d28644839aae10e0bbcf62d8ab9d249ddf6a757728ba1bcd036689";
    Some(device.pending() == 0 && has_sum(heap, device, digits)?)
}

/// Whether the devices are right of the store that was made, of the one with the change, and of the one with
/// a checkpoint, as another program writes them.
fn are_right(heap: Heap) -> Option<[bool; 3]> {
    let made = "ca3fd95c90b90f7ece89d9da93a2be16e18c277103d8867eb48397245649553b";
    let mut device = Held::loaded(heap, &EXAMPLE, 0)?.device(heap, plan(heap)?)?;
    let is_made = has_sum(heap, &mut device, made)?;
    let is_updated = is_updated(heap, &mut updated(heap, plan(heap)?, 1)?)?;
    let later = "ac2eb43bee5d728aa107d43773632ee6c99225eb17948dd9884ca0952616fb2b";
    let is_later = has_sum(heap, &mut with_checkpoint(heap)?, later)?;
    Some([is_made, is_updated, is_later])
}

#[test]
fn devices_of_format_1(rt: HostRuntime) -> Result<(), Fail> {
    let heap = heap(rt.alloc())?;
    assert_eq!(rt; are_right(heap), Some([true; 3]));
    Ok(())
}
