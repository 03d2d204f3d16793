//! The records of a zone's master file, as the next version of its store.
ghost use Rattle.std.specs.Prelude.{◌≡◌, ◌↔◌, true, List, Some, None, Result, IfOk, OnOk, MatchResult};
ghost use Rattle.dns_records.specs.Record.{Record as Stated};
ghost use Rattle.dns_store.specs.Versions.{Kept};
ghost use Rattle.dns_versions.specs.Held.{HasVersions, newer};
ghost use Rattle.dns_versions.specs.Staging.{HasPlanRoom, IsPlan, has_room, sectors_lacked};
ghost use Rattle.dns_commands.specs.Load.{HasSectorsLeft, IsAtRest, IsChangeTo, IsLoadable, IsLoadedAs};
ghost use Rattle.dns_commands.specs.Load.{IsNotLoaded, IsPlanTold, LeavesLoadingRecords, LeavesMakingRoom};
ghost use Rattle.dns_commands.specs.Load.{LeavesStoringPlan, LoadsRecords, MakesRoom, StoresPlan};
ghost use Rattle.dns_configuration.specs.Calls.{Calls};
ghost use Rattle.dns_devices.specs.declared.device_faults.DeviceFault.{DeviceFault as StatedFault};
ghost use Rattle.dns_commands.specs.declared.next_version.Loaded.{Loaded as StatedLoaded};

use crate::change::change_to;
use dns_changes::{Change, PreparedEntry};
use dns_configuration::ZoneSettings;
use dns_devices::{DeviceFault, Devices, open_store};
use dns_memory::Heap;
use dns_sectors::Sectors;
use dns_store::{CheckpointError, StageError, ZoneStore};
use dns_versions::{StagePlan, ZoneVersions};
use dns_zone::{Zone, ZoneIndex};

/// What was done with the records of a zone's master file.
#[derive(Clone, Copy, Debug, PartialEq, Eq)]
pub enum Loaded {
    /// The newest version has these records.
    Already,
    /// They are the next version: its number, its serial, and how many records came and how many went, SOAs
    /// aside.
    Next {
        version: u64,
        serial: u32,
        added: usize,
        removed: usize,
    },
}

/// The plan to make the records of a zone's file the version after the one that is shown, by the change to
/// them. `NoRoom` if there is no room for them.
fn plan_file<I: ZoneIndex, S: ZoneStore>(
    heap: Heap,
    versions: &ZoneVersions<I, S>,
    shown: &Zone<I>,
    zone: &Zone<I>,
    change: Change,
) -> Result<StagePlan<I>, DeviceFault>
    requires tip { versions.now.tip ≡ None }
    requires apex { zone.now.apex ≡ shown.now.apex }
    requires change { IsChangeTo shown.now.records zone.now.records (Ok (Some change)) }
    ensures planned { IfOk result (IsPlan shown.now zone.now.records) }
    ensures room { (k : Kept) → HasVersions S.keeps shown.now versions.now k
        → IsPlanTold k zone.now.records result }
{
    let _before = shown.apex();
    let _after = zone.apex();
    let Ok(entry) = PreparedEntry::new(heap, change) else {
        return Err(DeviceFault::OutOfMemory);
    };
    let Ok(records) = zone.index().fork() else {
        drop(entry);
        return Err(DeviceFault::OutOfMemory);
    };
    match versions.plan(shown, entry, records) {
        Ok(Some(plan)) => Ok(plan),
        Ok(None) => Err(DeviceFault::NoRoom),
        Err(_) => Err(DeviceFault::OutOfMemory),
    }
}

/// Moves the base if so many sectors are lacked of the journal, so that they are left.
fn free_sectors<S: ZoneStore>(
    store: &mut S,
    keep: usize,
    lacked: Option<usize>,
) -> Result<(), DeviceFault>
    ensures made { (k : Kept) (records : List Stated) → S.keeps store.old k → IsAtRest k
        → has_room k records ≡ true → lacked ≡ sectors_lacked k records
        → MakesRoom S.ZoneStore store.old store.new keep records k result }
    ensures any_moment { (k : Kept) (records : List Stated) → S.keeps store.old k → S.is_honest store.old
        → IsAtRest k → has_room k records ≡ true → lacked ≡ sectors_lacked k records
        → LeavesMakingRoom S.ZoneStore store.old store.new keep records k }
    ensures quiet { OnOk result (S.failed store.new ≡ S.failed store.old) }
    ensures honest { S.is_honest store.new ↔ S.is_honest store.old }
{
    let Some(room) = lacked else {
        return Ok(());
    };
    match store.checkpoint(keep, room) {
        Ok(()) => Ok(()),
        Err(CheckpointError::OutOfMemory) => Err(DeviceFault::OutOfMemory),
        Err(CheckpointError::Closed) => Err(DeviceFault::Device),
        Err(CheckpointError::Device) => Err(DeviceFault::Device),
    }
}

/// Stages the version of a plan after the newest one, and makes it durable. Answers its number.
fn store_plan<I: ZoneIndex, S: ZoneStore>(
    versions: &mut ZoneVersions<I, S>,
    shown: &mut Zone<I>,
    plan: StagePlan<I>,
) -> Result<u64, DeviceFault>
    requires { IsPlan (newer shown.old versions.old.tip) plan.version.records plan }
    ensures stored { (k : Kept) → HasVersions S.keeps shown.old versions.old k → IsAtRest k
        → HasPlanRoom k plan → HasSectorsLeft k plan
        → StoresPlan S.ZoneStore versions.old versions.new plan k result }
    ensures any_moment { (k : Kept) → HasVersions S.keeps shown.old versions.old k
        → S.is_honest versions.old.store → IsAtRest k → HasPlanRoom k plan
        → LeavesStoringPlan S.ZoneStore versions.old versions.new plan k }
    ensures honest { S.is_honest versions.new.store ↔ S.is_honest versions.old.store }
{
    match versions.stage(shown, plan) {
        Ok(()) => (),
        Err(StageError::OutOfMemory) => return Err(DeviceFault::OutOfMemory),
        Err(StageError::Full) => return Err(DeviceFault::NoRoom),
        Err(StageError::Closed) => return Err(DeviceFault::Device),
    }
    if versions.flush(shown) {
        return Err(DeviceFault::Device);
    }
    Ok(versions.number)
}

/// Makes the records of a zone's file the version after the one that is shown, by the change to them.
fn load_change<I: ZoneIndex, S: ZoneStore>(
    heap: Heap,
    versions: &mut ZoneVersions<I, S>,
    shown: &mut Zone<I>,
    keep: usize,
    zone: &Zone<I>,
    change: Change,
) -> Result<Loaded, DeviceFault>
    requires tip { versions.old.tip ≡ None }
    requires apex { zone.now.apex ≡ shown.old.apex }
    requires change { IsChangeTo shown.old.records zone.now.records (Ok (Some change)) }
    ensures loaded { (k : Kept) → HasVersions S.keeps shown.old versions.old k → IsAtRest k
        → LoadsRecords S.ZoneStore versions.old.store versions.new.store keep zone.now.records k result }
    ensures any_moment { (k : Kept) → HasVersions S.keeps shown.old versions.old k
        → S.is_honest versions.old.store → IsAtRest k
        → LeavesLoadingRecords S.ZoneStore versions.old.store versions.new.store keep zone.now.records k }
    ensures honest { S.is_honest versions.new.store ↔ S.is_honest versions.old.store }
{
    let (added, removed) = (change.added().len(), change.removed().len());
    let plan = match plan_file(heap, versions, shown, zone, change) {
        Ok(plan) => plan,
        Err(fault) => return Err(fault),
    };
    let lacked = versions.lacked(&plan);
    match free_sectors(&mut versions.store, keep, lacked) {
        Ok(()) => (),
        Err(fault) => {
            drop(plan);
            return Err(fault);
        }
    }
    match store_plan(versions, shown, plan) {
        Ok(version) => Ok(Loaded::Next {
            version,
            serial: zone.soa().serial(),
            added,
            removed,
        }),
        Err(fault) => Err(fault),
    }
}

/// Makes the records of a zone's file the version after the one that is shown, where there is a change
/// between the two.
fn load_file<I: ZoneIndex, S: ZoneStore>(
    heap: Heap,
    versions: &mut ZoneVersions<I, S>,
    shown: &mut Zone<I>,
    keep: usize,
    zone: &Zone<I>,
) -> Result<Loaded, DeviceFault>
    requires tip { versions.old.tip ≡ None }
    requires apex { zone.now.apex ≡ shown.old.apex }
    ensures loaded { (k : Kept) → HasVersions S.keeps shown.old versions.old k → IsAtRest k
        → LoadsRecords S.ZoneStore versions.old.store versions.new.store keep zone.now.records k result }
    ensures any_moment { (k : Kept) → HasVersions S.keeps shown.old versions.old k
        → S.is_honest versions.old.store → IsAtRest k
        → LeavesLoadingRecords S.ZoneStore versions.old.store versions.new.store keep zone.now.records k }
    ensures honest { S.is_honest versions.new.store ↔ S.is_honest versions.old.store }
{
    match change_to(heap, shown, zone) {
        Ok(Some(change)) => load_change(heap, versions, shown, keep, zone, change),
        Ok(None) => Ok(Loaded::Already),
        Err(fault) => Err(fault),
    }
}

/// The records of a zone's file, and the newest version of its store.
#[derive(Drop)]
struct LoadedFile<'a, I: ZoneIndex> {
    heap: Heap,
    newest: Zone<I>,
    own: &'a ZoneSettings,
    zone: &'a Zone<I>,
}

/// Makes the records of a zone's file the next version of its store, where there is a change between the two.
fn load_store<I: ZoneIndex, S: ZoneStore>(
    store: S,
    file: LoadedFile<'_, I>,
) -> (S, Result<Loaded, DeviceFault>)
    requires { file.zone.now.apex ≡ file.newest.apex }
    ensures loaded { (k : Kept) → S.keeps store k → IsLoadable file.entry.own.now file.entry.newest k
        → LoadsRecords S.ZoneStore store result.0 file.entry.own.now.keep file.entry.zone.now.records k
        result.1 }
    ensures any_moment { (k : Kept) → S.keeps store k → S.is_honest store
        → IsLoadable file.entry.own.now file.entry.newest k
        → LeavesLoadingRecords S.ZoneStore store result.0 file.entry.own.now.keep
        file.entry.zone.now.records k }
    ensures honest { S.is_honest result.0 ↔ S.is_honest store }
{
    let LoadedFile {
        heap,
        newest,
        own,
        zone,
    } = file;
    let mut shown = newest;
    let (snapshot, journal) = (own.snapshot_sectors, own.journal_sectors);
    let mut versions = ZoneVersions::new(store, &shown, snapshot, journal);
    let loaded = load_file(heap, &mut versions, &mut shown, own.keep as usize, zone);
    let ZoneVersions {
        tip: _,
        store,
        number: _,
        octets: _,
        snapshot: _,
        journal: _,
    } = versions;
    (store, loaded)
}

/// What takes the records of a file. (The borrow checker covers no call whose type argument is a store over a
/// device, and whose signature names the memory of every collection, so that the file is a type parameter.)
trait TakesFile<F>: Drop {
    /// It can take them.
    ghost can_take: { F → Type 0 };

    /// It took them, with this answer.
    ghost took: { Self → Self → F → Result StatedLoaded StatedFault → Type 0 };

    /// Takes the records.
    fn take_file(self, file: F) -> (Self, Result<Loaded, DeviceFault>)
        requires { can_take file }
        ensures { took self result.0 file result.1 };
}

impl<'a, I: ZoneIndex, S: ZoneStore> TakesFile<LoadedFile<'a, I>> for S {
    ghost can_take = { λ file. file.zone.now.apex ≡ file.newest.apex };

    ghost took = { λ old new file result. (S.is_honest new ↔ S.is_honest old)
        × ((k : Kept) → S.keeps old k → IsLoadable file.own.now file.newest k
        → LoadsRecords S.ZoneStore old new file.own.now.keep file.zone.now.records k result
        × (S.is_honest old
        → LeavesLoadingRecords S.ZoneStore old new file.own.now.keep file.zone.now.records k)) };

    fn take_file(self, file: LoadedFile<'a, I>) -> (S, Result<Loaded, DeviceFault>) {
        load_store(self, file)
    }
}

/// Has a store take the records of a file.
fn take_file<F, S: TakesFile<F>>(store: S, file: F) -> (S, Result<Loaded, DeviceFault>)
    requires { S.can_take file }
    ensures { S.took store result.0 file result.1 }
{
    store.take_file(file)
}

/// Makes the records of a zone's master file the next version of the store that its device keeps, durable
/// where it is answered. The newest changes are kept as the configuration of the zone says, where its journal
/// is too full for one more. The device is closed.
///
/// `SerialNotRaised` where the records are others and their serial isn't greater, and else `NoRoom` where
/// their snapshot or the entry takes more sectors than there are; neither changes a version.
pub fn load_zone<D: Sectors + Drop, F: Devices<D>, I: ZoneIndex>(
    heap: Heap,
    devices: &mut F,
    own: &ZoneSettings,
    zone: &Zone<I>,
) -> Result<Loaded, DeviceFault>
    requires { zone.now.apex ≡ own.now.origin }
    ensures { Calls (F.calls devices.old) (F.calls devices.new)
        (λ calls. MatchResult result (IsLoadedAs D.Sectors calls own.now zone.now.records)
        (IsNotLoaded D.Sectors calls own.now zone.now.records)) }
{
    match open_store::<D, F, I>(heap, devices, own) {
        Ok((store, newest)) => {
            let file = LoadedFile {
                heap,
                newest,
                own,
                zone,
            };
            let (store, loaded) = take_file(store, file);
            devices.close(&own.device, store.into_device());
            loaded
        }
        Err(fault) => Err(fault),
    }
}
