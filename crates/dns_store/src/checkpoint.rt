//! A checkpoint: the base moves to a later version, and of the changes the newest alone are kept.
ghost use Rattle.std.specs.Prelude.{◌≡◌, ◌⊎◌, ◌≤◌, ◌<◌, ◌-◌, ◌↔◌, ℕ, true, false, [], length, drop, min};
ghost use Rattle.std.specs.Prelude.{sum_by, IfOk};
ghost use Rattle.std.specs.Prelude.{OnOk, OnErr};
ghost use Rattle.dns_names.specs.Name.{Labels};
ghost use Rattle.dns_zone.specs.Records.{is_ordered};
ghost use Rattle.dns_layout.specs.Sector.{snapshot_sectors as sectors_of_octets};
ghost use Rattle.dns_journal.specs.State.{JournalLeavesOnly, device_of, is_closed, newest_number_of};
ghost use Rattle.dns_journal.specs.State.{StagesNothing, free_sectors};
ghost use Rattle.dns_journal.specs.Reads.{HasRisen};
ghost use Rattle.dns_journal.specs.Bank.{sectors_for, snapshot_room_of, journal_room_of, StayRooms};
ghost use Rattle.dns_store.specs.Versions.{Kept, newest_after, OpensAsEither, moved_to};
ghost use Rattle.dns_store.specs.Versions.{closed_between};
ghost use Rattle.dns_store.specs.Recovered.{GivenMemory};
ghost use Rattle.dns_store.specs.Opens.{IsClosedBy, opens, journal_keeps as keeps_versions};
ghost use Rattle.dns_store.specs.Plain.{sectors_of_snapshot};
ghost use Rattle.dns_store.specs.Checkpoint.{EachLed, EachNewBase, IsMostKept, IsNextBase};

use crate::KeptStore;
use crate::formatting::snapshot_of;
use crate::octets::snapshot_len;
use dns_changes::{Change, ChangeError};
use dns_journal::{Journal, TurnError};
use dns_layout::{entry_sectors, snapshot_sectors};
use dns_memory::Heap;
use dns_sectors::Sectors;
use dns_zone::{Zone, ZoneIndex};
use std::alloc::AllocError;
use thiserror::Error;

/// Why no checkpoint was made.
#[derive(Clone, Copy, Debug, Error, PartialEq, Eq)]
pub enum CheckpointError {
    /// The device failed.
    #[error("the device failed")]
    Device,
    /// The device has failed before: the store is to be opened again.
    #[error("the device has failed before: the store is to be opened again")]
    Closed,
    /// Memory was refused.
    #[error("memory was refused")]
    OutOfMemory,
}

impl From<AllocError> for CheckpointError {
    ghost use Rattle.dns_store.specs.declared.checkpoint.CheckpointError.TheVariants.{OutOfMemory};

    ghost from_gives = { λ _ e. e ≡ OutOfMemory };

    fn from(_error: AllocError) -> CheckpointError {
        CheckpointError::OutOfMemory
    }
}

impl From<TurnError> for CheckpointError {
    ghost use Rattle.dns_store.specs.Checkpoint.{checkpoint_error};

    ghost from_gives = { λ t e. e ≡ checkpoint_error t };

    fn from(error: TurnError) -> CheckpointError {
        match error {
            TurnError::Device => CheckpointError::Device,
            TurnError::Closed => CheckpointError::Closed,
            TurnError::OutOfMemory => CheckpointError::OutOfMemory,
        }
    }
}

impl From<ChangeError> for CheckpointError {
    ghost use Rattle.dns_store.specs.Checkpoint.{change_error};

    ghost from_gives = { λ c e. e ≡ change_error c };

    // The changes of an open store lead from its base to versions that fit: none of the others comes.
    fn from(error: ChangeError) -> CheckpointError {
        match error {
            ChangeError::OutOfMemory => CheckpointError::OutOfMemory,
            ChangeError::WrongSoa => CheckpointError::Closed,
            ChangeError::RemovesAbsent => CheckpointError::Closed,
            ChangeError::AddsPresent => CheckpointError::Closed,
            ChangeError::BadBytes => CheckpointError::Closed,
        }
    }
}

impl<D: Sectors, I: ZoneIndex> KeptStore<D, I> {
    ghost use Rattle.dns_store.specs.Opening.{store_device, keeps, StoreLeavesOnly};
    ghost use Rattle.dns_store.specs.Checkpoint.{IsKeptNumber};

    // Writes the new base's snapshot and the entries of the changes that are kept into the bank that isn't in
    // use, and makes them durable; then turns the root to that bank. It makes all growths before the first
    // write.
    pub(crate) fn move_base(&mut self, keep: usize, room: usize) -> Result<(), CheckpointError>
        // A crash at any moment of it leaves the shown version, with the old base or the new one.
        ensures any_moment { (k : Kept) (n : ℕ) → keeps self.old k → D.is_honest (store_device self.old)
            → k.staged ≡ [] → IsKeptNumber k keep room n
            → StoreLeavesOnly self.old self.new (OpensAsEither opens k (length k.shown - n)) }
        ensures moved { (k : Kept) (n : ℕ) → keeps self.old k → k.staged ≡ [] → IsKeptNumber k keep room n
            → OnOk result (keeps self.new (moved_to (length k.shown - n) k)) }
        ensures failed { (k : Kept) (n : ℕ) → keeps self.old k → k.staged ≡ [] → IsKeptNumber k keep room n
            → result ≡ Err CheckpointError.Device
            → (k.closed ≡ false) × keeps self.new (closed_between (length k.shown - n) k) }
        ensures closed { (k : Kept) → keeps self.old k
            → result ≡ Err CheckpointError.Closed ↔ k.closed ≡ true }
        ensures device { result ≡ Err CheckpointError.Device
            → HasRisen (D.failed (store_device self.old)) (D.failed (store_device self.new)) }
        ensures grows { D.failed (store_device self.old) ≤ D.failed (store_device self.new) }
        ensures quiet { OnOk result (D.failed (store_device self.new) ≡ D.failed (store_device self.old)) }
        ensures stays { OnErr result ((result ≡ Err CheckpointError.Device)
            ⊎ (self.new.journal ≡ self.old.journal)) }
        ensures lent { OnErr result ((self.new.base ≡ self.old.base)
            × (self.new.changes ≡ self.old.changes)) }
        ensures honest { D.is_honest (store_device self.new) ↔ D.is_honest (store_device self.old) }
    {
        if self.journal.is_closed() {
            return Err(CheckpointError::Closed);
        }
        let kept = self.kept_number(keep, room);
        let gone = self.changes.len() - kept;
        let alloc = self.alloc;
        let rooms = self.journal.snapshot_room();
        let (base, octets) = next_base(alloc, &self.base, &self.changes[..gone], rooms)?;
        turn_bank(alloc, &mut self.journal, &octets, &self.changes[gone..])?;
        self.base = base;
        keep_newest(&mut self.changes, gone);
        Ok(())
    }

    // How many of the newest changes a checkpoint keeps, which leaves so many sectors of the journal.
    fn kept_number(&self, keep: usize, room: usize) -> usize
        ensures { IsMostKept sectors_for self.now.changes.items (min keep (newest_number_of self.now.journal))
            (journal_room_of self.now.journal - room) result }
    {
        let most = keep.min(self.journal.newest() as usize);
        let sectors = self.journal.journal_room() as usize;
        most_kept(&self.changes, most, sectors.saturating_sub(room))
    }
}

// With nothing staged, moves the base to the durable version with this snapshot, from which these changes
// lead to the newest.
fn turn_bank<D: Sectors>(
    alloc: Heap,
    journal: &mut Journal<D>,
    octets: &[u8],
    changes: &[Change],
) -> Result<(), TurnError>
    requires fits { sectors_of_octets (length octets.now) ≤ snapshot_room_of journal.old }
    requires room { sum_by sectors_for changes.now ≤ journal_room_of journal.old }
    requires few { length changes.now ≤ newest_number_of journal.old }
    // A crash at any moment of it leaves the durable version, with the old base or the new one.
    ensures any_moment { EachNewBase journal.old octets.now changes.now (λ k base.
        JournalLeavesOnly journal.old journal.new (OpensAsEither opens k base)) }
    ensures moved { EachNewBase journal.old octets.now changes.now (λ k base.
        OnOk result (keeps_versions journal.new (moved_to base k))) }
    ensures failed { EachNewBase journal.old octets.now changes.now (λ k base. result ≡ Err TurnError.Device
        → (k.closed ≡ false) × IsClosedBy journal.new (closed_between base k)) }
    ensures device { result ≡ Err TurnError.Device
        → HasRisen (D.failed (device_of journal.old)) (D.failed (device_of journal.new)) }
    ensures grows { D.failed (device_of journal.old) ≤ D.failed (device_of journal.new) }
    ensures quiet { OnOk result (D.failed (device_of journal.new) ≡ D.failed (device_of journal.old)) }
    ensures closed { is_closed journal.old ≡ true ↔ result ≡ Err TurnError.Closed }
    ensures stays { OnErr result ((result ≡ Err TurnError.Device) ⊎ (journal.new ≡ journal.old)) }
    // What is in memory then, on any device.
    ensures left { OnErr result (free_sectors journal.new ≡ free_sectors journal.old) }
    ensures free { OnOk result
        (free_sectors journal.new ≡ journal_room_of journal.old - sum_by sectors_for changes.now) }
    ensures idle { OnOk result (StagesNothing journal.old → StagesNothing journal.new) }
    ensures open { OnOk result (is_closed journal.new ≡ false) }
    ensures closes { result ≡ Err TurnError.Device → is_closed journal.new ≡ true }
    ensures rooms { StayRooms journal.old journal.new }
    ensures newest { newest_number_of journal.new ≡ newest_number_of journal.old }
    ensures honest { D.is_honest (device_of journal.new) ↔ D.is_honest (device_of journal.old) }
{
    match journal.turn(alloc, octets, changes) {
        Ok(()) => Ok(()),
        Err(error) => Err(error),
    }
}

// Forgets so many of the oldest changes.
pub(crate) fn keep_newest(changes: &mut Vec<Change, Heap>, gone: usize)
    requires { gone ≤ length changes.old.items }
    ensures { changes.new.items ≡ drop gone changes.old.items }
{
    let kept = changes.len() - gone;
    changes.rotate_left(gone);
    changes.truncate(kept);
}

// How many of the newest changes are kept: the greatest number, at most `keep`, whose entries take at most so
// many sectors.
pub(crate) fn most_kept(changes: &[Change], keep: usize, room: usize) -> usize
    ensures { IsMostKept sectors_for changes.now keep room result }
{
    let most = keep.min(changes.len());
    let mut left = room;
    for kept in 0..most {
        let sectors = entry_sectors(changes[changes.len() - 1 - kept].encoded_len());
        if sectors > left {
            return kept;
        }
        left -= sectors;
    }
    most
}

// Makes these changes of a set, one after the other.
fn apply_all<I: ZoneIndex>(set: &mut I, changes: &[Change]) -> Result<(), ChangeError>
    ensures applied { (apex : Labels) → EachLed apex (I.records set.old) changes.now (λ vs.
        is_ordered (I.records set.old) ≡ true
        → GivenMemory result (λ _. I.records set.new ≡ newest_after (I.records set.old) vs)) }
{
    for change in changes {
        change.apply(set)?;
    }
    Ok(())
}

// The version that these changes lead to from a base; `BadBytes` where it is no zone.
fn version_after<I: ZoneIndex>(base: &Zone<I>, changes: &[Change]) -> Result<Zone<I>, ChangeError>
    ensures found { EachLed base.now.apex base.now.records changes.now (λ vs. GivenMemory result
        (λ z. (z.apex ≡ base.now.apex) × (z.records ≡ newest_after base.now.records vs))) }
{
    let apex = base.apex().clone()?;
    let mut set = base.index().fork()?;
    apply_all(&mut set, changes)?;
    match Zone::from_index(apex, set) {
        Ok(zone) => Ok(zone),
        Err(_) => Err(ChangeError::BadBytes),
    }
}

// The version that these changes lead to from a base, and its snapshot; `BadBytes` where that one takes more
// than so many sectors.
pub(crate) fn next_base<I: ZoneIndex>(
    alloc: Heap,
    base: &Zone<I>,
    changes: &[Change],
    room: u32,
) -> Result<(Zone<I>, Vec<u8, Heap>), ChangeError>
    ensures found { EachLed base.now.apex base.now.records changes.now (λ vs.
        sectors_of_snapshot (newest_after base.now.records vs) ≤ room
        → GivenMemory result (λ r. IsNextBase base.now r.0 vs r.1.items)) }
    ensures fits { IfOk result (λ r. sectors_of_octets (length r.1.items) ≤ room) }
{
    let next = version_after(base, changes)?;
    let _valid = next.apex();
    if snapshot_sectors(snapshot_len(&next)) > room as usize {
        return Err(ChangeError::BadBytes);
    }
    let octets = snapshot_of(alloc, &next)?;
    Ok((next, octets))
}
