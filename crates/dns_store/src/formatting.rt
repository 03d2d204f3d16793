//! A store is made on a device: its root is made blank, everything after it is written, and then the root.
ghost use Rattle.std.specs.Prelude.{◌≡◌, ◌⊎◌, ◌≤◌, ◌<◌, ◌+◌, ◌-◌, ◌*◌, ◌^◌, ◌↔◌, ℕ, List, length, IsTrue};
ghost use Rattle.std.specs.Prelude.{IfOk, OnOk};
ghost use Rattle.std.specs.List.{flat_map};
ghost use Rattle.dns_records.specs.Record.{plain};
ghost use Rattle.dns_sectors.specs.Device.{Only, LeavesOnly, CountsFailure};
ghost use Rattle.dns_layout.specs.Sector.{sector_at, snapshot_sectors as sectors_of_snapshot};
ghost use Rattle.dns_journal.specs.Reads.{HasRisen};
ghost use Rattle.dns_store.specs.Versions.{shape_given};
ghost use Rattle.dns_store.specs.Opens.{opens};
ghost use Rattle.dns_store.specs.Formatting.{IsGeometry, IsLaid, IsLaidTo, HasBlankRoot, IsFormatted};
ghost use Rattle.dns_store.specs.Formatting.{first_of};
ghost use Rattle.dns_store.specs.Formatting.{LeftByFormat};
ghost use Rattle.dns_store.specs.Formatting.{LeftByMaking};

use crate::octets::snapshot_len;
use crate::recovery::{MOST_SECTORS, apex_of};
use dns_journal::snapshot_sector;
use dns_layout::{Bank, PAYLOAD_ROOM, Root, snapshot_sectors};
use dns_memory::Heap;
use dns_sectors::{DeviceError, Sector, SectorWrite, Sectors, write_phase};
use dns_zone::{Records, Zone, ZoneIndex};
use std::alloc::AllocError;
use thiserror::Error;

/// How many sectors a bank must have for its journal.
pub const FEWEST_ENTRIES: u32 = 8;

/// Why no store was made.
#[derive(Clone, Copy, Debug, Error, PartialEq, Eq)]
pub enum FormatError {
    /// The device failed.
    #[error("the device failed")]
    Device,
    /// A size is out of range, or the device has another number of sectors.
    #[error("a size is out of range, or the device has another number of sectors")]
    Geometry,
    /// The zone's records take more sectors than a snapshot may have.
    #[error("the zone's records take more sectors than a snapshot may have")]
    ZoneTooLarge,
    /// Memory was refused.
    #[error("memory was refused")]
    OutOfMemory,
}

impl From<DeviceError> for FormatError {
    ghost use Rattle.dns_store.specs.declared.formatting.FormatError.TheVariants.{Device};

    ghost from_gives = { λ _ e. e ≡ Device };

    fn from(_error: DeviceError) -> FormatError {
        FormatError::Device
    }
}

impl From<AllocError> for FormatError {
    ghost use Rattle.dns_store.specs.declared.formatting.FormatError.TheVariants.{OutOfMemory};

    ghost from_gives = { λ _ e. e ≡ OutOfMemory };

    fn from(_error: AllocError) -> FormatError {
        FormatError::OutOfMemory
    }
}

/// Makes the store of this zone, with so many sectors for a bank's snapshot and its journal: makes the root
/// blank, writes the snapshot into the first bank and zeros everywhere else, and then the root, each step
/// made durable before the next. It makes all growths before the first write.
///
/// `Geometry` where the snapshot's size is not 1 to 65,536, the journal's not 8 to 65,536, or the device has
/// not the sectors of a root and two such banks; `ZoneTooLarge` where the zone's records take more sectors
/// than a snapshot has. Neither writes anything.
pub fn format<D: Sectors, I: ZoneIndex>(
    alloc: Heap,
    device: &mut D,
    zone: &Zone<I>,
    snapshot: u32,
    journal: u32,
) -> Result<(), FormatError>
    // A crash at any moment of it leaves what it might have left before, a blank root, or the new store.
    ensures any_moment { D.is_honest device.old → LeavesOnly D.moment D.left_since device.old device.new
        (LeftByFormat D.Sectors (shape_given zone.now.apex snapshot journal) zone.now.records device.old) }
    ensures made { D.is_honest device.old → OnOk result
        ((c : List (List ℕ)) → D.may_leave device.new c
        → opens (shape_given zone.now.apex snapshot journal) (first_of zone.now.records) c) }
    ensures geometry { result ≡ Err FormatError.Geometry
        ↔ (IsGeometry snapshot journal (D.count device.old) → ⊥) }
    ensures too_large { result ≡ Err FormatError.ZoneTooLarge
        ↔ (IsGeometry snapshot journal (D.count device.old)
        × (snapshot < sectors_of_snapshot (length (flat_map plain zone.now.records)))) }
    ensures memory { result ≡ Err FormatError.OutOfMemory → device.new ≡ device.old }
    ensures unwritten { (result ≡ Err FormatError.Geometry) ⊎ (result ≡ Err FormatError.ZoneTooLarge)
        → device.new ≡ device.old }
    ensures device { result ≡ Err FormatError.Device → HasRisen (D.failed device.old) (D.failed device.new) }
    ensures grows { D.failed device.old ≤ D.failed device.new }
    ensures quiet { OnOk result (D.failed device.new ≡ D.failed device.old) }
    ensures honest { D.is_honest device.new ↔ D.is_honest device.old }
    ensures count { D.count device.new ≡ D.count device.old }
{
    if !is_geometry(snapshot, journal, device.len()) {
        return Err(FormatError::Geometry);
    }
    let apex = apex_of(zone.apex());
    let len = snapshot_len(zone);
    if snapshot_sectors(len) > snapshot as usize {
        return Err(FormatError::ZoneTooLarge);
    }
    let octets = snapshot_of(alloc, zone)?;
    let root = Root {
        open_count: 0,
        base: 0,
        bank: Bank::Zero,
        bank_open: 0,
        snapshot_length: len as u64,
        snapshot_room: snapshot,
        journal_room: journal,
        is_clear: true,
        apex,
    };
    make(device, &root, &octets)?;
    Ok(())
}

// The sizes are in range, and the device has as many sectors as they ask for.
fn is_geometry(snapshot: u32, journal: u32, count: usize) -> bool
    ensures { IsTrue result ↔ IsGeometry snapshot journal count }
{
    (1..=MOST_SECTORS).contains(&snapshot)
        && (FEWEST_ENTRIES..=MOST_SECTORS).contains(&journal)
        && count == 1 + 2 * (snapshot as usize + journal as usize)
}

// The zone's snapshot: its records in plain form, in order.
pub(crate) fn snapshot_of<I: ZoneIndex>(
    alloc: Heap,
    zone: &Zone<I>,
) -> Result<Vec<u8, Heap>, AllocError>
    ensures { IfOk result (λ octets. octets.items ≡ flat_map plain zone.now.records) }
{
    let mut octets = Vec::new(alloc);
    for record in Records::of(zone.index()) {
        record.to_wire_plain(&mut octets)?;
    }
    Ok(octets)
}

// Makes the root blank, writes everything after it, and then the root.
fn make<D: Sectors>(device: &mut D, root: &Root, octets: &[u8]) -> Result<(), DeviceError>
    requires some { 0 < D.count device.old }
    requires small { D.count device.old ≤ 2 ^ 20 }
    ensures any_moment { D.is_honest device.old → LeavesOnly D.moment D.left_since device.old device.new
        (LeftByMaking D.Sectors root.now octets.now (D.count device.old) device.old) }
    ensures made { D.is_honest device.old → OnOk result
        ((c : List (List ℕ)) → D.may_leave device.new c
        → IsFormatted root.now octets.now (D.count device.old) c) }
    ensures failed { CountsFailure result (D.failed device.old) (D.failed device.new) }
    ensures honest { D.is_honest device.new ↔ D.is_honest device.old }
    ensures count { D.count device.new ≡ D.count device.old }
{
    let blank = SectorWrite {
        at: 0,
        octets: [0; 512],
    };
    write_phase(device, &[blank])?;
    write_behind_root(device, octets)?;
    let write = SectorWrite {
        at: 0,
        octets: root.encode(),
    };
    write_phase(device, &[write])?;
    Ok(())
}

// Writes each sector after the root, in order, and makes them durable.
fn write_behind_root<D: Sectors>(device: &mut D, octets: &[u8]) -> Result<(), DeviceError>
    requires { D.count device.old ≤ 2 ^ 20 }
    ensures laid { D.is_honest device.old → OnOk result
        (IsLaidTo octets.now (D.count device.old) (D.seen device.new)) }
    ensures root { D.is_honest device.old → OnOk result
        (sector_at (D.seen device.new) 0 ≡ sector_at (D.seen device.old) 0) }
    ensures durable { D.is_honest device.old → OnOk result
        (Only (D.seen device.new) (D.may_leave device.new)) }
    ensures any_moment { D.is_honest device.old →
        ((c : List (List ℕ)) → D.may_leave device.old c → HasBlankRoot c)
        → LeavesOnly D.moment D.left_since device.old device.new HasBlankRoot }
    ensures failed { CountsFailure result (D.failed device.old) (D.failed device.new) }
    ensures honest { D.is_honest device.new ↔ D.is_honest device.old }
    ensures count { D.count device.new ≡ D.count device.old }
{
    for at in 1..device.len() {
        device.write(at, &sector_behind(octets, (at - 1) as u32))?;
    }
    device.sync()
}

// The sector at this index after the root of a new store with this snapshot.
fn sector_behind(octets: &[u8], index: u32) -> Sector
    ensures { IsLaid octets.now index result }
{
    let from = index as usize * PAYLOAD_ROOM;
    if from >= octets.len() {
        return [0; 512];
    }
    snapshot_sector(index as usize + 1, 0, 0, octets, index)
}
