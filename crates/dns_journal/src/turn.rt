//! A bank that is written whole: the parts of a snapshot and the entries after them are written and made
//! durable, and then the root is turned to it.
ghost use Rattle.std.specs.Prelude.{◌≡◌, ◌≢◌, ◌⊎◌, ◌≤◌, ◌<◌, ◌↔◌, ◌+◌, ◌-◌, ◌*◌, ◌^◌, [], true, false, ℕ};
ghost use Rattle.std.specs.Prelude.{length};
ghost use Rattle.std.specs.Prelude.{IfOk, OnOk, OnErr, sum_by};
ghost use Rattle.dns_sectors.specs.Device.{Only, LeavesOnly, CountsFailure};
ghost use Rattle.dns_sectors.specs.Phase.{pairs, AllWithin};
ghost use Rattle.dns_layout.specs.Sector.{entry_sectors as sectors_of_entry};
ghost use Rattle.dns_layout.specs.Sector.{snapshot_sectors as sectors_of_snapshot};
ghost use Rattle.dns_layout.specs.Sector.{blank, payload_room, open_count};
ghost use Rattle.dns_layout.specs.Forms.{SaysPart, bank_number};
ghost use Rattle.dns_layout.specs.Own.{Altered, Own};
ghost use Rattle.dns_layout.specs.Store.{Sizes, Stored, other_of};
ghost use Rattle.dns_journal.specs.Bank.{part_of, piece, HoldsOctets, sectors_for, PushesParts, PushesEntry};
ghost use Rattle.dns_journal.specs.Bank.{PushesEntries};
ghost use Rattle.dns_journal.specs.Bank.{LaysBank, EachTurn, IsTurnedTo, sizes_said};
ghost use Rattle.dns_journal.specs.State.{OpensAsOneOf};

use crate::journal::push_bodies;
use crate::{Cursor, Journal};
use dns_changes::Change;
use dns_layout::{
    Bank, Format, HEAD_ROOM, Head, PAYLOAD_ROOM, Root, SnapshotPart, snapshot_sectors,
};
use dns_memory::Heap;
use dns_sectors::{DeviceError, Sector, SectorWrite, Sectors, write_phase};
use std::alloc::AllocError;
use thiserror::Error;

/// Why a bank was not written, or the root not turned to it.
#[derive(Clone, Copy, Debug, Error, PartialEq, Eq)]
pub enum TurnError {
    /// The device failed.
    #[error("the device failed")]
    Device,
    /// The device has failed before: the store is to be opened again.
    #[error("the device has failed before: the store is to be opened again")]
    Closed,
    /// Memory was refused.
    #[error("memory was refused")]
    OutOfMemory,
}

impl From<AllocError> for TurnError {
    ghost use Rattle.dns_journal.specs.declared.turn.TurnError.TheVariants.{OutOfMemory};

    ghost from_gives = { λ _ e. e ≡ OutOfMemory };

    fn from(_error: AllocError) -> TurnError {
        TurnError::OutOfMemory
    }
}

impl From<DeviceError> for TurnError {
    ghost use Rattle.dns_journal.specs.declared.turn.TurnError.TheVariants.{Device};

    ghost from_gives = { λ _ e. e ≡ Device };

    fn from(_error: DeviceError) -> TurnError {
        TurnError::Device
    }
}

impl<D: Sectors> Journal<D> {
    ghost use Rattle.dns_journal.specs.State.{Keeps, JournalLeavesOnly, HasJournalFailed, is_closed};
    ghost use Rattle.dns_journal.specs.State.{device_of};
    ghost use Rattle.dns_journal.specs.State.{free_sectors, newest_number_of};
    ghost use Rattle.dns_journal.specs.State.{opened_of, StagesNothing};
    ghost use Rattle.dns_journal.specs.Bank.{IsTurned, LeavesEither, snapshot_room_of, journal_room_of};
    ghost use Rattle.dns_journal.specs.Bank.{StayRooms};

    /// With nothing staged, writes a snapshot with these octets and the entries of these newest changes into
    /// the bank that isn't in use, and makes them durable; then turns the root to that bank. It makes all
    /// growths before the first write. `Device` where the device fails, and every later call answers
    /// `Closed`, until the store is opened again.
    pub fn turn(&mut self, alloc: Heap, octets: &[u8], changes: &[Change]) -> Result<(), TurnError>
        requires fits { sectors_of_snapshot (length octets.now) ≤ snapshot_room_of self.old }
        requires room { sum_by sectors_for changes.now ≤ journal_room_of self.old }
        requires few { length changes.now ≤ newest_number_of self.old }
        // A crash at any moment of it leaves what was stored, or what is stored after the turn.
        ensures any_moment { (shape : Sizes) (k : Stored) → Keeps shape self.old k []
            → JournalLeavesOnly self.old self.new (LeavesEither shape k octets.now changes.now
            (opened_of self.old)) }
        ensures turned { (shape : Sizes) (k : Stored) → Keeps shape self.old k []
            → OnOk result ((turned : Stored) × IsTurned k octets.now changes.now turned
            × Keeps shape self.new turned []) }
        ensures closed { is_closed self.old ≡ true ↔ result ≡ Err TurnError.Closed }
        ensures closes { result ≡ Err TurnError.Device → is_closed self.new ≡ true }
        ensures device { result ≡ Err TurnError.Device → HasJournalFailed self.old self.new }
        ensures grows { D.failed (device_of self.old) ≤ D.failed (device_of self.new) }
        ensures quiet { OnOk result (D.failed (device_of self.new) ≡ D.failed (device_of self.old)) }
        ensures stays { OnErr result ((result ≡ Err TurnError.Device) ⊎ (self.new ≡ self.old)) }
        ensures left { OnErr result (free_sectors self.new ≡ free_sectors self.old) }
        ensures fits { OnOk result
            (free_sectors self.new ≡ journal_room_of self.old - sum_by sectors_for changes.now) }
        ensures idle { OnOk result (StagesNothing self.old → StagesNothing self.new) }
        ensures open { OnOk result (is_closed self.new ≡ false) }
        ensures rooms { StayRooms self.old self.new }
        ensures newest { newest_number_of self.new ≡ newest_number_of self.old }
        ensures opened { opened_of self.new ≡ opened_of self.old }
        ensures honest { D.is_honest (device_of self.new) ↔ D.is_honest (device_of self.old) }
    {
        if self.is_closed {
            return Err(TurnError::Closed);
        }
        let base = self.next.version - changes.len() as u64;
        let (writes, next) = write_bank(alloc, &self.root, base, octets, changes)?;
        self.root.bank = other_bank(self.root.bank);
        self.root.bank_open = self.root.open_count;
        self.root.base = base;
        self.root.snapshot_length = octets.len() as u64;
        match turn_to(&mut self.device, &writes, &self.root) {
            Ok(()) => {
                self.next = next;
                Ok(())
            }
            Err(_) => {
                self.is_closed = true;
                Err(TurnError::Device)
            }
        }
    }
}

/// The sector at a position that holds the part with this index of a snapshot, with zeros after the
/// snapshot's end.
pub fn snapshot_sector(at: usize, bank_open: u64, base: u64, octets: &[u8], index: u32) -> Sector
    requires { payload_room * index ≤ length octets.now }
    ensures says { SaysPart result (part_of bank_open base index) }
    ensures holds { HoldsOctets result (piece octets.now index) }
    ensures own { Own at result }
    ensures written { result ≢ blank }
{
    let rest = &octets[index as usize * PAYLOAD_ROOM..];
    let size = rest.len().min(PAYLOAD_ROOM);
    let part = SnapshotPart {
        bank_open,
        base,
        index,
    };
    part.encode(at, &rest[..size])
}

// Puts the parts of a snapshot, from this position on, after the sectors that are to be written.
pub(crate) fn push_parts(
    writes: &mut Vec<SectorWrite, Heap>,
    at: usize,
    bank_open: u64,
    base: u64,
    octets: &[u8],
) -> Result<(), AllocError>
    requires { at + sectors_of_snapshot (length octets.now) ≤ 2 ^ 20 }
    ensures pushed { OnOk result (PushesParts at bank_open base octets.now (sectors_of_snapshot
        (length octets.now))
        (pairs writes.old.items) (pairs writes.new.items)) }
    ensures within { (n : ℕ) → at + sectors_of_snapshot (length octets.now) ≤ n → AllWithin n writes.old.items
        → AllWithin n writes.new.items }
{
    for index in 0..snapshot_sectors(octets.len()) {
        let position = at + index;
        let write = SectorWrite {
            at: position,
            octets: snapshot_sector(position, bank_open, base, octets, index as u32),
        };
        writes.push(write)?;
    }
    Ok(())
}

// Puts the sectors of an entry with these octets, its head and then its bodies, at the cursor and after those
// that are to be written.
fn push_entry(
    next: &mut Cursor,
    writes: &mut Vec<SectorWrite, Heap>,
    octets: &[u8],
) -> Result<(), AllocError>
    requires room { next.old.at + sectors_of_entry (length octets.now) ≤ next.old.until }
    requires number { next.old.version < 2 ^ 64 - 1 }
    requires small { next.old.until ≤ 2 ^ 20 }
    requires len { length octets.now < 2 ^ 32 }
    ensures pushed { OnOk result (PushesEntry next.old next.new octets.now (pairs writes.old.items)
        (pairs writes.new.items)) }
    ensures within { (n : ℕ) → next.old.until ≤ n → AllWithin n writes.old.items
        → AllWithin n writes.new.items }
{
    let len = octets.len();
    let in_head = len.min(HEAD_ROOM);
    let head = Head {
        open_count: next.opened,
        version: next.version + 1,
        length: len as u32,
    };
    let write = SectorWrite {
        at: next.at,
        octets: head.encode(next.at, &octets[..in_head]),
    };
    writes.push(write)?;
    push_bodies(writes, next.at + 1, &head, &octets[in_head..])?;
    next.at += 1 + head.bodies(Format::Two) as usize;
    next.version += 1;
    Ok(())
}

// Puts the entries of these changes at the cursor, one after the other, and after the sectors that are to be
// written.
pub(crate) fn push_entries(
    alloc: Heap,
    next: &mut Cursor,
    writes: &mut Vec<SectorWrite, Heap>,
    changes: &[Change],
) -> Result<(), AllocError>
    requires room { next.old.at + sum_by sectors_for changes.now ≤ next.old.until }
    requires number { next.old.version + length changes.now < 2 ^ 64 }
    requires small { next.old.until ≤ 2 ^ 20 }
    ensures pushed { OnOk result (PushesEntries next.old next.new changes.now (pairs writes.old.items)
        (pairs writes.new.items)) }
    ensures within { (n : ℕ) → next.old.until ≤ n → AllWithin n writes.old.items
        → AllWithin n writes.new.items }
{
    for change in changes {
        let octets = change.encode(alloc)?;
        push_entry(next, writes, &octets)?;
    }
    Ok(())
}

// The sectors that are to be written into the bank that this root doesn't name: a snapshot with these octets,
// of the version with this number, and the entries of these changes after it. And where the next entry goes
// then.
pub(crate) fn write_bank(
    alloc: Heap,
    root: &Root,
    base: u64,
    octets: &[u8],
    changes: &[Change],
) -> Result<(Vec<SectorWrite, Heap>, Cursor), AllocError>
    requires fits { sectors_of_snapshot (length octets.now) ≤ root.now.snapshot_room }
    requires room { sum_by sectors_for changes.now ≤ root.now.journal_room }
    requires small { 1 + 2 * (root.now.snapshot_room + root.now.journal_room) ≤ 2 ^ 20 }
    requires number { base + length changes.now < 2 ^ 64 }
    ensures laid { IfOk result (λ r. LaysBank
        (sizes_said root.now) (other_of (bank_number root.now.bank)) root.now.open_count base octets.now
        changes.now (pairs r.0.items) r.1) }
    ensures within { IfOk result
        (λ r. AllWithin (1 + 2 * (root.now.snapshot_room + root.now.journal_room)) r.0.items) }
    ensures next { IfOk result (λ r. (r.1.at ≤ r.1.until)
        × (r.1.until ≤ 1 + 2 * (root.now.snapshot_room + root.now.journal_room))
        × (r.1.version ≡ base + length changes.now)
        × (r.1.until - r.1.at ≡ root.now.journal_room - sum_by sectors_for changes.now)) }
{
    let rooms = root.snapshot_room as usize + root.journal_room as usize;
    let first = 1 + other_bank(root.bank).number() as usize * rooms;
    let start = first + root.snapshot_room as usize;
    let mut next = Cursor {
        at: start,
        until: start + root.journal_room as usize,
        version: base,
        opened: root.open_count,
    };
    let mut writes = Vec::new(alloc);
    push_parts(&mut writes, first, root.open_count, base, octets)?;
    push_entries(alloc, &mut next, &mut writes, changes)?;
    Ok((writes, next))
}

// The bank that isn't this one.
pub(crate) fn other_bank(bank: Bank) -> Bank
    ensures { bank_number result ≡ other_of (bank_number bank) }
{
    match bank {
        Bank::Zero => Bank::One,
        Bank::One => Bank::Zero,
    }
}

// Makes these writes durable, and then this root.
pub(crate) fn turn_to<D: Sectors>(
    device: &mut D,
    writes: &[SectorWrite],
    root: &Root,
) -> Result<(), DeviceError>
    requires within { AllWithin (D.count device.old) writes.now }
    requires some { 0 < D.count device.old }
    ensures any_moment { EachTurn D.Sectors device.old root.now (pairs writes.now) (λ s k new x.
        LeavesOnly D.moment D.left_since device.old device.new (OpensAsOneOf s k new (open_count x))) }
    ensures turned { EachTurn D.Sectors device.old root.now (pairs writes.now) (λ s k new x.
        OnOk result (Altered k.altered (IsTurnedTo s new root.now (open_count x)) (D.seen device.new))) }
    ensures durable { D.is_honest device.old
        → OnOk result (Only (D.seen device.new) (D.may_leave device.new)) }
    ensures failed { CountsFailure result (D.failed device.old) (D.failed device.new) }
    ensures honest { D.is_honest device.new ↔ D.is_honest device.old }
    ensures count { D.count device.new ≡ D.count device.old }
{
    let write = SectorWrite {
        at: 0,
        octets: root.encode(),
    };
    write_phase(device, writes)?;
    write_phase(device, &[write])?;
    Ok(())
}
