//! What a store of format 1 holds is put into its other bank in format 2. The root is turned to it, and the
//! old bank is cleared.
ghost use Rattle.std.specs.Prelude.{◌≡◌, ◌≢◌, ◌≤◌, ◌<◌, ◌↔◌, ◌+◌, ◌-◌, ◌*◌, ◌^◌, ℕ, List, length, sum_by};
ghost use Rattle.std.specs.Prelude.{IfErr, OnOk};
ghost use Rattle.dns_sectors.specs.Device.{Only, LeavesOnly, CountsFailure};
ghost use Rattle.dns_sectors.specs.Crash.{after_writes, CrashOf};
ghost use Rattle.dns_sectors.specs.Phase.{AllWithin};
ghost use Rattle.dns_layout.specs.Sector.{snapshot_sectors as sectors_of_snapshot};
ghost use Rattle.dns_layout.specs.Forms.{bank_number};
ghost use Rattle.dns_journal.specs.Phases.{IfSettled};
ghost use Rattle.dns_journal.specs.Reads.{HasRisen};
ghost use Rattle.dns_journal.specs.Bank.{sectors_for};
ghost use Rattle.dns_journal.specs.Converting.{with_zeros, bank_writes, StaysOrConverts, EachToConvert};
ghost use Rattle.dns_journal.specs.Converting.{LeavesCleared};

use crate::clear::clear_bank;
use crate::turn::{TurnError, other_bank, write_bank};
use dns_changes::Change;
use dns_layout::{Bank, Root, snapshot_sectors};
use dns_memory::Heap;
use dns_sectors::{DeviceError, SectorWrite, Sectors, write_all, write_phase, write_zeros};

// The positions of a bank: where its snapshot and its journal begin, and the position after it.
#[derive(Clone, Copy)]
pub(crate) struct Places {
    first: usize,
    journal: usize,
    until: usize,
}

/// Puts what a store of format 1 holds into the bank that isn't in use, in format 2: a snapshot with these
/// octets, of the version with this number, and the entries of these newest changes, all with the open count
/// raised by one. Makes it durable, turns the root to that bank, and clears the old one. It makes all growths
/// before the first write. `Device` where the device fails.
pub fn convert<D: Sectors>(
    alloc: Heap,
    device: &mut D,
    root: Root,
    base: u64,
    octets: &[u8],
    changes: &[Change],
) -> Result<(), TurnError>
    requires fits { sectors_of_snapshot (length octets.now) ≤ root.snapshot_room }
    requires room { sum_by sectors_for changes.now ≤ root.journal_room }
    requires small { 1 + 2 * (root.snapshot_room + root.journal_room) ≤ 2 ^ 20 }
    requires whole { 1 + 2 * (root.snapshot_room + root.journal_room) ≤ D.count device.old }
    requires number { base + length changes.now < 2 ^ 64 }
    requires more { root.open_count < 2 ^ 64 - 1 }
    // A crash at any moment of it leaves what format 1 held, or in format 2 what is stored after the turn.
    ensures any_moment { IfSettled D.Sectors device.old
        (LeavesOnly D.moment D.left_since device.old device.new
        (StaysOrConverts root base octets.now changes.now (D.seen device.old))) }
    ensures converted { EachToConvert D.Sectors device.old root base changes.now (λ s k. OnOk result
        (LeavesCleared D.Sectors device.new s k octets.now changes.now (root.open_count + 1))) }
    ensures durable { D.is_honest device.old
        → OnOk result (Only (D.seen device.new) (D.may_leave device.new)) }
    ensures memory { result ≡ Err TurnError.OutOfMemory → device.new ≡ device.old }
    ensures device { result ≡ Err TurnError.Device → HasRisen (D.failed device.old) (D.failed device.new) }
    ensures open { IfErr result (λ e. e ≢ TurnError.Closed) }
    ensures grows { D.failed device.old ≤ D.failed device.new }
    ensures quiet { OnOk result (D.failed device.new ≡ D.failed device.old) }
    ensures honest { D.is_honest device.new ↔ D.is_honest device.old }
    ensures count { D.count device.new ≡ D.count device.old }
{
    let mut root = root;
    root.open_count += 1;
    let (writes, _next) = write_bank(alloc, &root, base, octets, changes)?;
    let old = places_of(&root, root.bank);
    let new = places_of(&root, other_bank(root.bank));
    root.bank = other_bank(root.bank);
    root.bank_open = root.open_count;
    root.base = base;
    root.snapshot_length = octets.len() as u64;
    root.is_clear = false;
    let turned = SectorWrite {
        at: 0,
        octets: root.encode(),
    };
    root.is_clear = true;
    let cleared = root.encode();
    let (parts, entries) = writes.split_at(snapshot_sectors(octets.len()));
    write_whole(device, new, parts, entries)?;
    write_phase(device, &[turned])?;
    clear_bank(device, old.first, old.until, &cleared)?;
    Ok(())
}

// The positions of a bank of a store with this root.
fn places_of(root: &Root, bank: Bank) -> Places
    requires { 1 + 2 * (root.now.snapshot_room + root.now.journal_room) ≤ 2 ^ 20 }
    ensures first { result.first ≡ 1 + bank_number bank * (root.now.snapshot_room + root.now.journal_room) }
    ensures journal { result.journal ≡ result.first + root.now.snapshot_room }
    ensures until { result.until ≡ result.journal + root.now.journal_room }
{
    let rooms = root.snapshot_room as usize + root.journal_room as usize;
    let first = 1 + bank.number() as usize * rooms;
    let journal = first + root.snapshot_room as usize;
    let until = journal + root.journal_room as usize;
    Places {
        first,
        journal,
        until,
    }
}

// Writes every sector of a bank in order and makes them durable: the parts of its snapshot, zeros up to its
// journal, the sectors of its entries, and zeros up to its end.
fn write_whole<D: Sectors>(
    device: &mut D,
    places: Places,
    parts: &[SectorWrite],
    entries: &[SectorWrite],
) -> Result<(), DeviceError>
    requires parts { AllWithin (D.count device.old) parts.now }
    requires entries { AllWithin (D.count device.old) entries.now }
    requires journal { places.first + length parts.now ≤ places.journal }
    requires until { places.journal + length entries.now ≤ places.until }
    requires end { places.until ≤ D.count device.old }
    requires small { places.until ≤ 2 ^ 20 }
    ensures written { D.is_honest device.old
        → OnOk result
        (D.seen device.new ≡ after_writes (bank_writes places parts.now entries.now) (D.seen device.old)) }
    ensures durable { D.is_honest device.old
        → OnOk result (Only (D.seen device.new) (D.may_leave device.new)) }
    ensures any_moment { D.is_honest device.old → LeavesOnly D.moment D.left_since device.old device.new
        (CrashOf (D.may_leave device.old) (bank_writes places parts.now entries.now)) }
    ensures failed { CountsFailure result (D.failed device.old) (D.failed device.new) }
    ensures honest { D.is_honest device.new ↔ D.is_honest device.old }
    ensures count { D.count device.new ≡ D.count device.old }
{
    write_padded(device, parts, places.first + parts.len(), places.journal)?;
    let end = places.journal + entries.len();
    write_padded(device, entries, end, places.until)?;
    device.sync()
}

// Makes these writes, and writes zeros from one position up to another.
fn write_padded<D: Sectors>(
    device: &mut D,
    writes: &[SectorWrite],
    from: usize,
    until: usize,
) -> Result<(), DeviceError>
    requires within { AllWithin (D.count device.old) writes.now }
    requires range { from ≤ until }
    requires end { until ≤ D.count device.old }
    ensures written { D.is_honest device.old
        → OnOk result
        (D.seen device.new ≡ after_writes (with_zeros writes.now from until) (D.seen device.old)) }
    ensures crash { D.is_honest device.old → (c : List (List ℕ)) → D.may_leave device.new c
        → CrashOf (D.may_leave device.old) (with_zeros writes.now from until) c }
    ensures any_moment { D.is_honest device.old → LeavesOnly D.moment D.left_since device.old device.new
        (CrashOf (D.may_leave device.old) (with_zeros writes.now from until)) }
    ensures failed { CountsFailure result (D.failed device.old) (D.failed device.new) }
    ensures honest { D.is_honest device.new ↔ D.is_honest device.old }
    ensures count { D.count device.new ≡ D.count device.old }
{
    write_all(device, writes)?;
    write_zeros(device, from, until)
}
