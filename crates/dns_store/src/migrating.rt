//! A store of format 1 is migrated to format 2.
ghost use Rattle.std.specs.Prelude.{◌≡◌, ◌⊎◌, ◌↔◌, ◌+◌, ◌*◌, ◌<◌, ◌≤◌, ◌^◌, ◌-◌};
ghost use Rattle.std.specs.Prelude.{IsTrue, IfErr, IfOk, OnOk, OnErr};
ghost use Rattle.dns_sectors.specs.Device.{LeavesOnly, CountsFailure};
ghost use Rattle.dns_layout.specs.Sector.{sector_at, tag, root_tag};
ghost use Rattle.dns_journal.specs.Reads.{OnlyReads, HasRisen};
ghost use Rattle.dns_store.specs.Opening.{HasRootIn, IsInRange};
ghost use Rattle.dns_journal.specs.Phases.{IfSettled};
ghost use Rattle.dns_store.specs.Versions.{shape_given};
ghost use Rattle.dns_layout.specs.declared.format.Format.TheVariants as formats;
ghost use Rattle.dns_store.specs.Opens.{sizes_of};
ghost use Rattle.dns_store.specs.Migrating.{MigratesPossible, MigratesAsPossible, LeavesInFormatTwo};
ghost use Rattle.dns_store.specs.Migrating.{MigrateRefusal, IsMigratedStore, IsTooLarge, StaysOrMigrates};
ghost use Rattle.dns_store.specs.Migrating.{EachOld, EachReadOld};

use crate::OpenError;
use crate::checkpoint::next_base;
use crate::choosing::chosen;
use crate::device_format::{DeviceFormat, format_of};
use crate::recovery::{Recovered, read_store, settle};
use dns_changes::{Change, ChangeError};
use dns_journal::{TurnError, convert};
use dns_layout::{Format, Root};
use dns_memory::Heap;
use dns_names::Name;
use dns_sectors::{DeviceError, Sectors};
use dns_zone::{Zone, ZoneIndex};
use thiserror::Error;

/// What migrating did.
#[derive(Clone, Copy, Debug, PartialEq, Eq)]
pub enum Migration {
    /// The store was of format 1, and is of format 2 now.
    Migrated {
        /// The number of its newest version.
        version: u64,
        /// The serial of that version.
        serial: u32,
    },
    /// The store is of format 2 already.
    Already,
}

/// Why a store was not migrated.
#[derive(Clone, Copy, Debug, Error, PartialEq, Eq)]
pub enum MigrateError {
    /// The device failed.
    #[error("the device failed")]
    Device,
    /// No store was ever made on the device.
    #[error("no store was ever made on the device")]
    Blank,
    /// This sector isn't what it should be.
    #[error("sector {0} is not what it should be")]
    Damaged(usize),
    /// The device has another number of sectors, or the store is another zone's or has other sizes.
    #[error("the device has another number of sectors, or its store is of another zone or of other sizes")]
    Geometry,
    /// The newest version takes more sectors of format 2 than a snapshot may have.
    #[error("the newest version takes more sectors of format 2 than a snapshot may have")]
    ZoneTooLarge,
    /// Memory was refused.
    #[error("memory was refused")]
    OutOfMemory,
}

impl From<DeviceError> for MigrateError {
    ghost use Rattle.dns_store.specs.declared.migrating.MigrateError.TheVariants.{Device};

    ghost from_gives = { λ _ e. e ≡ Device };

    fn from(_error: DeviceError) -> MigrateError {
        MigrateError::Device
    }
}

impl From<OpenError> for MigrateError {
    ghost use Rattle.dns_store.specs.Migrating.{migrate_error};

    ghost from_gives = { λ r e. e ≡ migrate_error r };

    fn from(error: OpenError) -> MigrateError {
        match error {
            OpenError::Device => MigrateError::Device,
            OpenError::Blank => MigrateError::Blank,
            OpenError::Damaged(sector) => MigrateError::Damaged(sector),
            OpenError::Geometry => MigrateError::Geometry,
            OpenError::OutOfMemory => MigrateError::OutOfMemory,
        }
    }
}

impl From<ChangeError> for MigrateError {
    ghost use Rattle.dns_store.specs.Migrating.{base_error};

    ghost from_gives = { λ r e. e ≡ base_error r };

    // Changes that were read from a store lead from its base to zones, and the one that is chosen fits: none
    // of the others comes.
    fn from(error: ChangeError) -> MigrateError {
        match error {
            ChangeError::OutOfMemory => MigrateError::OutOfMemory,
            ChangeError::WrongSoa => MigrateError::ZoneTooLarge,
            ChangeError::RemovesAbsent => MigrateError::ZoneTooLarge,
            ChangeError::AddsPresent => MigrateError::ZoneTooLarge,
            ChangeError::BadBytes => MigrateError::ZoneTooLarge,
        }
    }
}

impl From<TurnError> for MigrateError {
    ghost use Rattle.dns_store.specs.Migrating.{write_error};

    ghost from_gives = { λ r e. e ≡ write_error r };

    fn from(error: TurnError) -> MigrateError {
        match error {
            TurnError::Device => MigrateError::Device,
            TurnError::Closed => MigrateError::Device,
            TurnError::OutOfMemory => MigrateError::OutOfMemory,
        }
    }
}

/// Migrates the store of this zone, with these sizes, from format 1 to format 2: makes all that is pending
/// durable, reads the store, writes it into the bank that isn't in use, makes that durable, and turns the
/// root to that bank; then clears the old one. It makes all growths before the first write, and counts as an
/// opening.
///
/// Of the changes the newest are kept, the greatest number of them whose entries fit in a journal, where each
/// version from the one before them to the newest fits in a snapshot. `Already` where the root is of format
/// 2. It is refused as `open` refuses, by the rules of format 1; `ZoneTooLarge` where the newest version
/// takes more sectors of format 2 than a snapshot has. Refused for anything but its failure, the device was
/// read and synced alone.
pub fn migrate<D: Sectors, I: ZoneIndex>(
    alloc: Heap,
    device: &mut D,
    apex: &Name,
    snapshot: u32,
    journal: u32,
) -> Result<Migration, MigrateError>
    // On a device of which each crash leaves a store with room in format 2, it is migrated; or the device
    // failed, memory was refused, or it was opened too often.
    ensures migrated { D.is_honest device.old → IsInRange snapshot journal
        → MigratesPossible D.Sectors (shape_given apex.now snapshot journal) device.old device.new result }
    // A crash at any moment of it leaves what migrate and then open open as a crash might have left it
    // before.
    ensures any_moment { D.is_honest device.old → IsInRange snapshot journal
        → LeavesOnly D.moment D.left_since device.old device.new
        (MigratesAsPossible D.Sectors (shape_given apex.now snapshot journal) device.old) }
    // It answers `Already` exactly for a root of format 2.
    ensures already { D.is_honest device.old → result ≡ Ok Migration.Already
        → tag (sector_at (D.seen device.old) 0) ≡ root_tag }
    ensures old { D.is_honest device.old → 0 < D.count device.old
        → tag (sector_at (D.seen device.old) 0) ≡ root_tag → (result ≡ Ok Migration.Already)
        ⊎ (result ≡ Err MigrateError.Device) }
    // Why it is refused, on any honest device.
    ensures refused { D.is_honest device.old → IfErr result
        (MigrateRefusal (shape_given apex.now snapshot journal) (D.count device.old) (D.seen device.old)) }
    ensures too_large { EachOld D.Sectors (shape_given apex.now snapshot journal) device.old (λ o.
        result ≡ Err MigrateError.ZoneTooLarge → IsTooLarge snapshot o) }
    // Of a store whose newest version takes more sectors than a snapshot has, the device is read alone.
    ensures no_room { EachOld D.Sectors (shape_given apex.now snapshot journal) device.old (λ o.
        IsTooLarge snapshot o → (OnOk result ⊥) × OnlyReads D.Sectors device.old device.new) }
    // It is migrated only if the first sector is a root of format 1 of that zone and these sizes.
    ensures root { D.is_honest device.old → IsMigratedStore result
        → HasRootIn formats.One (sizes_of (shape_given apex.now snapshot journal)) (D.count device.old)
        (sector_at (D.seen device.old) 0) }
    ensures unwritten { (result ≡ Err MigrateError.Device) ⊎ IsMigratedStore result
        ⊎ OnlyReads D.Sectors device.old device.new }
    ensures device { result ≡ Err MigrateError.Device → HasRisen (D.failed device.old) (D.failed device.new) }
    ensures grows { D.failed device.old ≤ D.failed device.new }
    ensures quiet { OnOk result (D.failed device.new ≡ D.failed device.old) }
    ensures honest { D.is_honest device.new ↔ D.is_honest device.old }
    ensures count { D.count device.new ≡ D.count device.old }
{
    if device.len() == 0 {
        return Err(MigrateError::Geometry);
    }
    settle(device)?;
    if is_new(device)? {
        return Ok(Migration::Already);
    }
    let found: Recovered<I> = read_store(alloc, device, Format::One, apex, snapshot, journal)?;
    let Recovered {
        root,
        end,
        base,
        changes,
        newest,
    } = found;
    write_anew(alloc, device, root, end.version, &base, &changes)?;
    Ok(Migration::Migrated {
        version: end.version,
        serial: newest.soa().serial(),
    })
}

// Whether the first sector is a root of format 2, by its tag.
fn is_new<D: Sectors>(device: &mut D) -> Result<bool, DeviceError>
    ensures new { D.is_honest device.old → IfOk result
        (λ b. IsTrue b ↔ (tag (sector_at (D.seen device.old) 0) ≡ root_tag)) }
    ensures failed { CountsFailure result (D.failed device.old) (D.failed device.new) }
    ensures reads { OnlyReads D.Sectors device.old device.new }
{
    match format_of(device)? {
        DeviceFormat::Two => Ok(true),
        DeviceFormat::Blank => Ok(false),
        DeviceFormat::One => Ok(false),
        DeviceFormat::Other => Ok(false),
    }
}

// Writes what was read of a store of format 1 into its other bank in format 2, turns the root to that bank,
// and clears the old one. Of the changes those are kept that are chosen.
fn write_anew<D: Sectors, I: ZoneIndex>(
    alloc: Heap,
    device: &mut D,
    root: Root,
    version: u64,
    base: &Zone<I>,
    changes: &[Change],
) -> Result<(), MigrateError>
    requires small { 1 + 2 * (root.snapshot_room + root.journal_room) ≤ 2 ^ 20 }
    requires whole { 1 + 2 * (root.snapshot_room + root.journal_room) ≤ D.count device.old }
    requires more { root.open_count < 2 ^ 64 - 1 }
    ensures any_moment { IfSettled D.Sectors device.old
        (LeavesOnly D.moment D.left_since device.old device.new
        (StaysOrMigrates root version base.now changes.now (D.seen device.old))) }
    ensures migrated { IfSettled D.Sectors device.old
        (EachReadOld (D.seen device.old) root version base.now changes.now
        (λ shape o. OnOk result (LeavesInFormatTwo D.Sectors device.new shape o))) }
    ensures too_large { EachReadOld (D.seen device.old) root version base.now changes.now
        (λ shape o. result ≡ Err MigrateError.ZoneTooLarge → IsTooLarge shape.snapshot o) }
    ensures no_room { EachReadOld (D.seen device.old) root version base.now changes.now
        (λ shape o. IsTooLarge shape.snapshot o → (OnOk result ⊥) × (device.new ≡ device.old)) }
    ensures only { IfErr result (λ e. (e ≡ MigrateError.Device) ⊎ (e ≡ MigrateError.OutOfMemory)
        ⊎ (e ≡ MigrateError.ZoneTooLarge)) }
    ensures unwritten { OnErr result ((result ≡ Err MigrateError.Device) ⊎ (device.new ≡ device.old)) }
    ensures device { result ≡ Err MigrateError.Device → HasRisen (D.failed device.old) (D.failed device.new) }
    ensures grows { D.failed device.old ≤ D.failed device.new }
    ensures quiet { OnOk result (D.failed device.new ≡ D.failed device.old) }
    ensures honest { D.is_honest device.new ↔ D.is_honest device.old }
    ensures count { D.count device.new ≡ D.count device.old }
{
    let Some(kept) = chosen(base, changes, root.snapshot_room, root.journal_room) else {
        return Err(MigrateError::ZoneTooLarge);
    };
    let gone = changes.len() - kept;
    let (_base, octets) = next_base(alloc, base, &changes[..gone], root.snapshot_room)?;
    let number = version.saturating_sub(kept as u64);
    convert(alloc, device, root, number, &octets, &changes[gone..])?;
    Ok(())
}
