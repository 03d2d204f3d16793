//! A journal that is written: staged entries become durable in two phases, first their bodies and then their
//! heads. Its entries are `stage` and `flush`.
ghost use Rattle.std.specs.Prelude.{length, ◌≤◌, ◌+◌, ◌-◌, ◌^◌, ◌≡◌};
ghost use Rattle.std.specs.Prelude.{◌<◌, ◌↔◌, [], ℕ, List};
ghost use Rattle.std.specs.Prelude.{true, false, ◌*◌, IsOk, OnOk, OnErr};
ghost use Rattle.dns_sectors.specs.Device.{Only, LeavesOnly, CountsFailure};
ghost use Rattle.dns_sectors.specs.Crash.{after_writes, CrashOf};
ghost use Rattle.dns_sectors.specs.Phase.{pairs, AllWithin};
ghost use Rattle.dns_layout.specs.Sector.{sector_at, head_room, entry_sectors as sectors_of_entry};
ghost use Rattle.dns_layout.specs.Own.{Altered};
ghost use Rattle.dns_changes.specs.Entry.{HasEntry, entry};
ghost use Rattle.dns_journal.specs.Phases.{IfSettled, LeftByBatch};
ghost use Rattle.dns_journal.specs.Staging.{Stages, PushesBodies};

use crate::Cursor;
use dns_changes::PreparedEntry;
use dns_layout::{Body, Format, HEAD_ROOM, Head, PAYLOAD_ROOM, Root, entry_sectors};
use dns_memory::Heap;
use dns_sectors::{DeviceError, SectorWrite, Sectors, write_phase};
use std::alloc::AllocError;
use thiserror::Error;

/// Why a change was not staged.
#[derive(Clone, Copy, Debug, Error, PartialEq, Eq)]
pub enum StageError {
    /// Its entry takes more sectors than are left.
    #[error("its entry takes more sectors than are left")]
    Full,
    /// The device has failed before: the store is to be opened again.
    #[error("the device has failed before: the store is to be opened again")]
    Closed,
    /// Memory was refused.
    #[error("memory was refused")]
    OutOfMemory,
}

impl From<AllocError> for StageError {
    ghost use Rattle.dns_journal.specs.declared.journal.StageError.TheVariants.{OutOfMemory};

    ghost from_gives = { λ _ e. e ≡ OutOfMemory };

    fn from(_error: AllocError) -> StageError {
        StageError::OutOfMemory
    }
}

/// Why staged entries were not made durable.
#[derive(Clone, Copy, Debug, Error, PartialEq, Eq)]
pub enum FlushError {
    /// The device failed.
    #[error("the device failed")]
    Device,
    /// The device has failed before: the store is to be opened again.
    #[error("the device has failed before: the store is to be opened again")]
    Closed,
}

/// The journal of a bank, on the device of a store whose root was raised. Between two calls all but the
/// staged entries is durable. Where the device fails it is closed for good.
#[derive(Drop)]
pub struct Journal<D: Sectors> {
    pub(crate) device: D,
    bodies: Vec<SectorWrite, Heap>,
    heads: Vec<SectorWrite, Heap>,
    pub(crate) is_closed: bool,
    // where the next entry goes, after those that are staged, and the store's open count
    pub(crate) next: Cursor,
    // the first sector, which names the bank
    pub(crate) root: Root,
    ghost bodies_within: { AllWithin (D.count device) bodies.items },
    ghost heads_within: { AllWithin (D.count device) heads.items },
    ghost next_within: { next.until ≤ D.count device },
    ghost next_until: { next.at ≤ next.until },
    ghost next_small: { next.until ≤ 2 ^ 20 },
    ghost banks_within: { 1 + 2 * (root.snapshot_room + root.journal_room) ≤ D.count device },
    ghost banks_small: { 1 + 2 * (root.snapshot_room + root.journal_room) ≤ 2 ^ 20 },
}

impl<D: Sectors> Journal<D> {
    ghost use Rattle.dns_layout.specs.Sector.{open_count};
    ghost use Rattle.dns_layout.specs.Journal.{Entry};
    ghost use Rattle.dns_layout.specs.Store.{Sizes, Stored, with_more};
    ghost use Rattle.dns_journal.specs.State.{Keeps, KeepsOneMore, LeavesPart, sectors_behind};
    ghost use Rattle.dns_journal.specs.State.{JournalLeavesOnly, HasJournalFailed};
    ghost use Rattle.dns_journal.specs.State.{BeginsAt, is_closed};
    ghost use Rattle.dns_journal.specs.State.{device_of, free_sectors};
    ghost use Rattle.dns_journal.specs.State.{newest_number_of, opened_of, StagesNothing};
    ghost use Rattle.dns_journal.specs.Bank.{snapshot_room_of, journal_room_of, StayRooms};

    /// A journal on a device that was opened by this root, with nothing staged. It makes no device operation.
    pub fn over(alloc: Heap, device: D, next: Cursor, root: Root) -> Journal<D>
        requires within { next.until ≤ D.count device }
        requires until { next.at ≤ next.until }
        requires small { next.until ≤ 2 ^ 20 }
        requires banks_within { 1 + 2 * (root.snapshot_room + root.journal_room) ≤ D.count device }
        requires banks_small { 1 + 2 * (root.snapshot_room + root.journal_room) ≤ 2 ^ 20 }
        requires clear { root.is_clear ≡ true }
        ensures keeps { BeginsAt device next root result }
        ensures newest { newest_number_of result ≡ next.version }
        ensures opened { opened_of result ≡ root.open_count }
        ensures device { device_of result ≡ device }
        ensures open { is_closed result ≡ false }
        ensures idle { StagesNothing result }
        ensures left { free_sectors result ≡ next.until - next.at }
        ensures snapshot_room { snapshot_room_of result ≡ root.snapshot_room }
        ensures journal_room { journal_room_of result ≡ root.journal_room }
    {
        Journal {
            device,
            bodies: Vec::new(alloc),
            heads: Vec::new(alloc),
            is_closed: false,
            next,
            root,
        }
    }

    /// The device has failed.
    pub fn is_closed(&self) -> bool
        ensures { result ≡ is_closed self.now }
    {
        self.is_closed
    }

    /// The number of the newest version, staged ones among them.
    pub fn newest(&self) -> u64
        ensures { result ≡ newest_number_of self.now }
    {
        self.next.version
    }

    /// How many sectors are left for entries.
    pub fn left(&self) -> usize
        ensures left { result ≡ free_sectors self.now }
        ensures kept { (shape : Sizes) (k : Stored) (staged : List Entry) → Keeps shape self.now k staged
            → (root : List ℕ) × Altered k.altered (λ c. sector_at c 0 ≡ root) (D.seen (device_of self.now))
            × (result ≡ sectors_behind shape root k staged) }
    {
        self.next.until - self.next.at
    }

    /// Puts a prepared entry after the newest one, in memory. Nothing is written. `Full` where it takes more
    /// sectors than are left, `Closed` where the device has failed; neither changes anything, nor does memory
    /// that is refused.
    pub fn stage(&mut self, prepared: &PreparedEntry) -> Result<(), StageError>
        requires { newest_number_of self.old < 2 ^ 64 - 1 }
        ensures staged { (shape : Sizes) (k : Stored) (staged : List Entry) → Keeps shape self.old k staged
            → OnOk result (KeepsOneMore shape self.new k staged prepared.now) }
        ensures written { OnOk result (HasEntry prepared.now) }
        ensures stays { (shape : Sizes) (k : Stored) (staged : List Entry) → Keeps shape self.old k staged
            → OnErr result (Keeps shape self.new k staged) }
        ensures left { OnErr result (free_sectors self.new ≡ free_sectors self.old) }
        ensures newest { OnErr result (newest_number_of self.new ≡ newest_number_of self.old) }
        ensures raised { OnOk result (newest_number_of self.new ≡ newest_number_of self.old + 1) }
        ensures idle { OnErr result (StagesNothing self.old → StagesNothing self.new) }
        ensures rooms { StayRooms self.old self.new }
        ensures full { result ≡ Err StageError.Full ↔ ((is_closed self.old ≡ false)
            × (free_sectors self.old < sectors_of_entry (length (entry prepared.now)))) }
        ensures fits { OnOk result
            (free_sectors self.new + sectors_of_entry (length (entry prepared.now)) ≡ free_sectors self.old) }
        ensures closed { result ≡ Err StageError.Closed ↔ is_closed self.old ≡ true }
        ensures stays_open { is_closed self.new ≡ is_closed self.old }
        ensures opened { opened_of self.new ≡ opened_of self.old }
        ensures device { device_of self.new ≡ device_of self.old }
    {
        if self.is_closed {
            return Err(StageError::Closed);
        }
        let octets = prepared.octets();
        if entry_sectors(octets.len()) > self.left() {
            return Err(StageError::Full);
        }
        stage_octets(&mut self.next, &mut self.bodies, &mut self.heads, octets)?;
        Ok(())
    }

    /// Makes the staged entries durable: writes all bodies, syncs, writes all heads, and syncs; where no
    /// entry has a body, one sync is enough. `Device` where the device fails; every later call answers
    /// `Closed`, until the store is opened again.
    pub fn flush(&mut self) -> Result<(), FlushError>
        // A crash at any moment of it leaves a first part of the staged entries after what was stored.
        ensures any_moment { (shape : Sizes) (k : Stored) (staged : List Entry)
            → Keeps shape self.old k staged
            → JournalLeavesOnly self.old self.new (LeavesPart shape k staged (opened_of self.old)) }
        ensures flushed { (shape : Sizes) (k : Stored) (staged : List Entry) → Keeps shape self.old k staged
            → OnOk result (Keeps shape self.new (with_more k staged) []) }
        ensures closes { OnErr result (is_closed self.new ≡ true) }
        ensures closed { is_closed self.old ≡ true
            → (result ≡ Err FlushError.Closed) × (device_of self.new ≡ device_of self.old) }

        // Nothing staged is no device operation.
        ensures idle { (shape : Sizes) (k : Stored) → Keeps shape self.old k []
            → (device_of self.new ≡ device_of self.old) × IsOk result }
        ensures nothing { StagesNothing self.old → is_closed self.old ≡ false
            → (device_of self.new ≡ device_of self.old) × IsOk result }
        ensures cleared { OnOk result (StagesNothing self.new × (is_closed self.new ≡ false)) }
        ensures rooms { StayRooms self.old self.new }
        ensures left { free_sectors self.new ≡ free_sectors self.old }
        ensures newest { newest_number_of self.new ≡ newest_number_of self.old }
        ensures opened { opened_of self.new ≡ opened_of self.old }
        ensures honest { D.is_honest (device_of self.new) ↔ D.is_honest (device_of self.old) }

        // It doesn't give up by itself.
        ensures device { result ≡ Err FlushError.Device → HasJournalFailed self.old self.new }
        ensures grows { D.failed (device_of self.old) ≤ D.failed (device_of self.new) }
        ensures quiet { OnOk result (D.failed (device_of self.new) ≡ D.failed (device_of self.old)) }
        ensures only_closed { result ≡ Err FlushError.Closed → is_closed self.old ≡ true }
    {
        if self.is_closed {
            return Err(FlushError::Closed);
        }
        match write_batch(&mut self.device, &self.bodies, &self.heads) {
            Ok(()) => {
                self.bodies.clear();
                self.heads.clear();
                Ok(())
            }
            Err(_) => {
                self.is_closed = true;
                Err(FlushError::Device)
            }
        }
    }

    /// How many sectors a bank has for a snapshot.
    pub fn snapshot_room(&self) -> u32
        ensures { result ≡ snapshot_room_of self.now }
    {
        self.root.snapshot_room
    }

    /// How many sectors a bank has for entries.
    pub fn journal_room(&self) -> u32
        ensures { result ≡ journal_room_of self.now }
    {
        self.root.journal_room
    }

    /// The device, in whatever state it is. What was staged is forgotten.
    pub fn into_device(self) -> D
        ensures { result ≡ device_of self }
    {
        let Journal {
            device,
            bodies: _,
            heads: _,
            is_closed: _,
            next: _,
            root: _,
        } = self;
        device
    }
}

// Puts the sectors of an entry with these octets after those that are to be written. Where memory is refused,
// nothing changes.
fn stage_octets(
    next: &mut Cursor,
    bodies: &mut Vec<SectorWrite, Heap>,
    heads: &mut Vec<SectorWrite, Heap>,
    octets: &[u8],
) -> Result<(), AllocError>
    requires room { next.old.at + sectors_of_entry (length octets.now) ≤ next.old.until }
    requires number { next.old.version < 2 ^ 64 - 1 }
    requires small { next.old.until ≤ 2 ^ 20 }
    requires len { length octets.now < 2 ^ 32 }
    ensures staged { OnOk result
        (Stages next.old next.new bodies.old.items bodies.new.items heads.old.items heads.new.items
        octets.now) }
    ensures stays { OnErr result ((next.new ≡ next.old) × (bodies.new.items ≡ bodies.old.items)
        × (heads.new.items ≡ heads.old.items)) }
    ensures within { (n : ℕ) → next.old.until ≤ n → AllWithin n bodies.old.items
        → AllWithin n bodies.new.items }
    ensures heads_within { (n : ℕ) → next.old.until ≤ n → AllWithin n heads.old.items
        → AllWithin n heads.new.items }
{
    let len = octets.len();
    let in_head = len.min(HEAD_ROOM);
    let head = Head {
        open_count: next.opened,
        version: next.version + 1,
        length: len as u32,
    };
    heads.reserve(1)?;
    push_bodies(bodies, next.at + 1, &head, &octets[in_head..])?;
    let write = SectorWrite {
        at: next.at,
        octets: head.encode(next.at, &octets[..in_head]),
    };
    heads.push_reserved(write);
    next.at += 1 + head.bodies(Format::Two) as usize;
    next.version += 1;
    Ok(())
}

// Puts the bodies of an entry with this head, from this position on, after those that are to be written.
pub(crate) fn push_bodies(
    bodies: &mut Vec<SectorWrite, Heap>,
    at: usize,
    head: &Head,
    rest: &[u8],
) -> Result<(), AllocError>
    requires len { length rest.now ≡ head.now.length - head_room }
    requires fits { at + sectors_of_entry head.now.length < 2 ^ 32 }
    ensures pushed { OnOk result
        (PushesBodies at head.now rest.now (sectors_of_entry head.now.length - 1) (pairs bodies.old.items)
        (pairs bodies.new.items)) }
    ensures stays { OnErr result (bodies.new.items ≡ bodies.old.items) }
    ensures within { (n : ℕ) → at + sectors_of_entry head.now.length ≤ n + 1 → AllWithin n bodies.old.items
        → AllWithin n bodies.new.items }
{
    let count = head.bodies(Format::Two);
    bodies.reserve(count as usize)?;
    let mut left = rest;
    for i in 0..count {
        let size = left.len().min(PAYLOAD_ROOM);
        let (part, behind) = left.split_at(size);
        left = behind;
        let body = Body {
            open_count: head.open_count,
            version: head.version,
            index: i,
        };
        let position = at + i as usize;
        let write = SectorWrite {
            at: position,
            octets: body.encode(position, part),
        };
        bodies.push_reserved(write);
    }
    Ok(())
}

// A phase, if there is a write to be made.
fn write_some<D: Sectors>(device: &mut D, writes: &[SectorWrite]) -> Result<(), DeviceError>
    requires { AllWithin (D.count device.old) writes.now }
    ensures idle { writes.now ≡ [] → (device.new ≡ device.old) × IsOk result }
    ensures written { D.is_honest device.old
        → OnOk result (D.seen device.new ≡ after_writes (pairs writes.now) (D.seen device.old)) }
    ensures durable { IfSettled D.Sectors device.old
        (OnOk result (Only (D.seen device.new) (D.may_leave device.new))) }
    ensures any_moment { D.is_honest device.old → LeavesOnly D.moment D.left_since device.old device.new
        (CrashOf (D.may_leave device.old) (pairs writes.now)) }
    ensures failed { CountsFailure result (D.failed device.old) (D.failed device.new) }
    ensures honest { D.is_honest device.new ↔ D.is_honest device.old }
    ensures count { D.count device.new ≡ D.count device.old }
{
    if writes.is_empty() {
        return Ok(());
    }
    write_phase(device, writes)
}

// The two phases. With nothing to write there is no device operation.
fn write_batch<D: Sectors>(
    device: &mut D,
    bodies: &[SectorWrite],
    heads: &[SectorWrite],
) -> Result<(), DeviceError>
    requires bodies { AllWithin (D.count device.old) bodies.now }
    requires heads { AllWithin (D.count device.old) heads.now }
    ensures idle { bodies.now ≡ [] → heads.now ≡ [] → (device.new ≡ device.old) × IsOk result }
    ensures written { D.is_honest device.old → OnOk result (D.seen device.new
        ≡ after_writes (pairs heads.now) (after_writes (pairs bodies.now) (D.seen device.old))) }
    ensures durable { IfSettled D.Sectors device.old
        (OnOk result (Only (D.seen device.new) (D.may_leave device.new))) }
    ensures any_moment { IfSettled D.Sectors device.old
        (LeavesOnly D.moment D.left_since device.old device.new
        (LeftByBatch (pairs bodies.now) (pairs heads.now) (D.seen device.old))) }
    ensures failed { CountsFailure result (D.failed device.old) (D.failed device.new) }
    ensures honest { D.is_honest device.new ↔ D.is_honest device.old }
    ensures count { D.count device.new ≡ D.count device.old }
{
    write_some(device, bodies)?;
    write_some(device, heads)
}
