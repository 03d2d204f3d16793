//! The first sector of a device, read when a store is opened.
ghost use Rattle.std.specs.Prelude.{◌≡◌, ◌≤◌, ◌<◌, ◌+◌, ◌-◌, ◌*◌, ◌^◌, ◌⊎◌, ◌↔◌, IsTrue, IfOk};
ghost use Rattle.std.specs.Prelude.{IfErr, OnOk, MatchResult};
ghost use Rattle.dns_layout.specs.Apex.{apex_octets};
ghost use Rattle.dns_layout.specs.Sector.{sector_at, snapshot_sectors_in as sectors_of_snapshot_in};
ghost use Rattle.dns_layout.specs.Own.{IsIntactIn};
ghost use Rattle.dns_journal.specs.Reads.{EachOriginal, OnlyReads, HasRisen};
ghost use Rattle.dns_store.specs.Root.{IsFoundRootIn, RootRefusalIn, sizes_with};
ghost use Rattle.dns_store.specs.Damage.{NamesSector, NamesSpoiltIn};

use dns_journal::{ReadError, read_sector};
use dns_layout::{Apex, Format, Root, snapshot_sectors_in};
use dns_sectors::{DeviceError, Sector, Sectors};
use std::alloc::AllocError;
use thiserror::Error;

/// Why a store was not opened.
#[derive(Clone, Copy, Debug, Error, PartialEq, Eq)]
pub enum OpenError {
    /// The device failed.
    #[error("the device failed")]
    Device,
    /// No store was ever made on the device.
    #[error("no store was ever made on the device")]
    Blank,
    /// This sector isn't what it should be.
    #[error("sector {0} is not what it should be")]
    Damaged(usize),
    /// The device has another number of sectors, or the store is another zone's or has other sizes.
    #[error("the device has another number of sectors, or its store is of another zone or of other sizes")]
    Geometry,
    /// Memory was refused.
    #[error("memory was refused")]
    OutOfMemory,
}

impl From<DeviceError> for OpenError {
    ghost use Rattle.dns_store.specs.declared.root.OpenError.TheVariants.{Device};

    ghost from_gives = { λ _ e. e ≡ Device };

    fn from(_error: DeviceError) -> OpenError {
        OpenError::Device
    }
}

impl From<AllocError> for OpenError {
    ghost use Rattle.dns_store.specs.declared.root.OpenError.TheVariants.{OutOfMemory};

    ghost from_gives = { λ _ e. e ≡ OutOfMemory };

    fn from(_error: AllocError) -> OpenError {
        OpenError::OutOfMemory
    }
}

impl From<ReadError> for OpenError {
    ghost use Rattle.dns_store.specs.Root.{open_error};

    ghost from_gives = { λ r e. e ≡ open_error r };

    fn from(error: ReadError) -> OpenError {
        match error {
            ReadError::Device => OpenError::Device,
            ReadError::Damaged(at) => OpenError::Damaged(at),
            ReadError::OutOfMemory => OpenError::OutOfMemory,
        }
    }
}

// The root of the store of this zone and these sizes. What it finds and what it refuses is said of each
// content of which the device's is an altered one.
pub(crate) fn read_root<D: Sectors>(
    device: &mut D,
    format: Format,
    apex: &Apex,
    snapshot: u32,
    journal: u32,
) -> Result<Root, OpenError>
    requires { 0 < D.count device.old }
    ensures found { EachOriginal D.Sectors format device.old (λ c. IfOk result (IsFoundRootIn format
        (sizes_with apex.now snapshot journal) (D.count device.old) (sector_at c 0))) }
    ensures fits { IfOk result (λ root. (sectors_of_snapshot_in format root.snapshot_length ≤ snapshot)
        × (D.count device.old ≡ 1 + 2 * (snapshot + journal)) × (root.open_count < 2 ^ 64 - 1)) }
    ensures rooms { IfOk result
        (λ root. (root.snapshot_room ≡ snapshot) × (root.journal_room ≡ journal)) }
    ensures refused { EachOriginal D.Sectors format device.old (λ c. IfErr result (λ e.
        (e ≡ OpenError.Device) ⊎ NamesSpoiltIn format (D.seen device.old) 0 1 e ⊎ RootRefusalIn format
        (sizes_with apex.now snapshot journal) (D.count device.old) (sector_at c 0) e)) }
    // Of a root that is neither zeros nor its own it says so.
    ensures not_own { D.is_honest device.old → (IsIntactIn format 0 (sector_at (D.seen device.old) 0) → ⊥)
        → MatchResult result (λ _. ⊥) (NamesSector 0) }
    ensures device { result ≡ Err OpenError.Device → HasRisen (D.failed device.old) (D.failed device.new) }
    ensures quiet { OnOk result (D.failed device.new ≡ D.failed device.old) }
    ensures reads { OnlyReads D.Sectors device.old device.new }
{
    let count = device.len();
    let sector = read_sector(device, format, 0)?;
    match root_of(format, &sector, apex, snapshot, journal, count) {
        Ok(root) => Ok(root),
        Err(error) => Err(error),
    }
}

// The root that the first of so many sectors is.
fn root_of(
    format: Format,
    sector: &Sector,
    apex: &Apex,
    snapshot: u32,
    journal: u32,
    count: usize,
) -> Result<Root, OpenError>
    requires { IsIntactIn format 0 sector.now }
    ensures found { IfOk result
        (IsFoundRootIn format (sizes_with apex.now snapshot journal) count sector.now) }
    ensures refused { IfErr result
        (RootRefusalIn format (sizes_with apex.now snapshot journal) count sector.now) }
{
    if *sector == [0; 512] {
        return Err(OpenError::Blank);
    }
    let Ok(root) = Root::decode(format, sector) else {
        return Err(OpenError::Damaged(0));
    };
    if !is_sound(format, &root) {
        return Err(OpenError::Damaged(0));
    }
    if count != 1 + 2 * (snapshot as usize + journal as usize) {
        return Err(OpenError::Geometry);
    }
    if !is_of_shape(&root, apex, snapshot, journal) {
        return Err(OpenError::Geometry);
    }
    Ok(root)
}

// The snapshot fits, and the store can be opened once more.
fn is_sound(format: Format, root: &Root) -> bool
    ensures { IsTrue result
        ↔ ((sectors_of_snapshot_in format root.now.snapshot_length ≤ root.now.snapshot_room)
        × (root.now.open_count < 2 ^ 64 - 1)) }
{
    let sectors = snapshot_sectors_in(format, root.snapshot_length as usize);
    sectors <= root.snapshot_room as usize && root.open_count < u64::MAX
}

// It is the root of a store of this zone and these sizes.
fn is_of_shape(root: &Root, apex: &Apex, snapshot: u32, journal: u32) -> bool
    ensures { IsTrue result ↔ ((root.now.snapshot_room ≡ snapshot) × (root.now.journal_room ≡ journal)
        × (apex_octets root.now.apex ≡ apex_octets apex.now)) }
{
    root.snapshot_room == snapshot && root.journal_room == journal && root.apex.is(apex)
}
