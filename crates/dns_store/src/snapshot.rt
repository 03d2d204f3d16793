//! The snapshot that a root names, read from its sectors.
ghost use Rattle.std.specs.Prelude.{◌≡◌, ◌⊎◌, ◌≤◌, ◌<◌, ◌+◌, ◌-◌, ◌*◌, ◌++◌, ◌^◌, ◌↔◌, List, ℕ, length, drop};
ghost use Rattle.std.specs.Prelude.{IsTrue, IfOk, IfErr};
ghost use Rattle.std.specs.Prelude.{OnOk, MatchResult};
ghost use Rattle.std.specs.List.{flat_map};
ghost use Rattle.dns_layout.specs.Sector.{AreZeros, payload_in, payload_room_in};
ghost use Rattle.dns_layout.specs.Sector.{snapshot_sectors_in as sectors_of_snapshot_in};
ghost use Rattle.dns_layout.specs.Forms.{SaysRootIn};
ghost use Rattle.dns_layout.specs.Store.{IsPartIn, ArePartsIn};
ghost use Rattle.dns_journal.specs.Reads.{EachOriginal, OnlyReads, HasRisen, NamesSpoilt, IsThat};
ghost use Rattle.dns_journal.specs.Reads.{sectors_from};
ghost use Rattle.dns_store.specs.Snapshot.{EachSnapshot, EachSpoiltPart, HoldsSnapshotIn, IsBadPartIn};
ghost use Rattle.dns_store.specs.Snapshot.{IsBadSnapshotIn, parts_said};

use dns_journal::{ReadError, read_sector};
use dns_layout::{Format, Root, SnapshotPart, are_zeros, payload, snapshot_sectors_in};
use dns_memory::Heap;
use dns_sectors::{Sector, Sectors};

// The octets of the snapshot that the root names, which is stored from this position on. What it finds and
// what it refuses is said of each content of which the device's is an altered one.
pub(crate) fn read_snapshot<D: Sectors>(
    alloc: Heap,
    device: &mut D,
    format: Format,
    at: usize,
    root: &Root,
) -> Result<Vec<u8, Heap>, ReadError>
    requires within { at + sectors_of_snapshot_in format root.now.snapshot_length ≤ D.count device.old }
    requires fits { at + sectors_of_snapshot_in format root.now.snapshot_length < 2 ^ 64 }
    ensures found { EachSnapshot D.Sectors format device.old root.now (λ c x.
        IfOk result (λ octets. HoldsSnapshotIn format x at c octets.items)) }
    ensures damaged { EachSnapshot D.Sectors format device.old root.now (λ c x. IfErr result (λ e.
        NamesSpoilt format (D.seen device.old) at (at + parts_said format root.now) e
        ⊎ IsBadSnapshotIn format x at c e)) }
    // Of a part that is reached and is neither zeros nor its own it says so.
    ensures not_own { EachSpoiltPart D.Sectors format device.old root.now at
        (λ position. MatchResult result (λ _. ⊥) (IsThat position)) }
    ensures len { IfOk result (λ octets. length octets.items ≤ root.now.snapshot_length) }
    ensures device { result ≡ Err ReadError.Device → HasRisen (D.failed device.old) (D.failed device.new) }
    ensures quiet { OnOk result (D.failed device.new ≡ D.failed device.old) }
    ensures reads { OnlyReads D.Sectors device.old device.new }
{
    let mut octets = Vec::new(alloc);
    read_parts(device, format, at, root, &mut octets)?;
    let len = root.snapshot_length as usize;
    if !has_end(&octets, len) {
        return Err(ReadError::Damaged(at + snapshot_sectors_in(format, len) - 1));
    }
    octets.truncate(len);
    Ok(octets)
}

// Reads the parts of the snapshot that the root names, from this position on, and puts their octets at the
// end.
fn read_parts<D: Sectors>(
    device: &mut D,
    format: Format,
    at: usize,
    root: &Root,
    octets: &mut Vec<u8, Heap>,
) -> Result<(), ReadError>
    requires within { at + sectors_of_snapshot_in format root.now.snapshot_length ≤ D.count device.old }
    requires fits { at + sectors_of_snapshot_in format root.now.snapshot_length < 2 ^ 64 }
    ensures parts { EachSnapshot D.Sectors format device.old root.now (λ c x. OnOk result
        (ArePartsIn format x 0 (sectors_from c at (parts_said format root.now)))) }
    ensures size { OnOk result (length octets.new.items ≡ length octets.old.items + payload_room_in format
        * sectors_of_snapshot_in format root.now.snapshot_length) }
    ensures octets { EachOriginal D.Sectors format device.old (λ c. OnOk result
        (octets.new.items ≡ octets.old.items ++ flat_map (payload_in format)
        (sectors_from c at (parts_said format root.now)))) }
    ensures damaged { EachSnapshot D.Sectors format device.old root.now (λ c x. IfErr result (λ e.
        NamesSpoilt format (D.seen device.old) at (at + parts_said format root.now) e
        ⊎ IsBadPartIn format x at c e)) }
    ensures not_own { EachSpoiltPart D.Sectors format device.old root.now at
        (λ position. MatchResult result (λ _. ⊥) (IsThat position)) }
    ensures device { result ≡ Err ReadError.Device → HasRisen (D.failed device.old) (D.failed device.new) }
    ensures quiet { OnOk result (D.failed device.new ≡ D.failed device.old) }
    ensures reads { OnlyReads D.Sectors device.old device.new }
{
    for i in 0..snapshot_sectors_in(format, root.snapshot_length as usize) {
        let position = at + i;
        let sector = read_sector(device, format, position)?;
        if !is_part(format, root, i, &sector) {
            return Err(ReadError::Damaged(position));
        }
        octets.extend_from_slice(payload(format, &sector))?;
    }
    Ok(())
}

// Whether the sector is this part of the snapshot that the root names.
fn is_part(format: Format, root: &Root, index: usize, sector: &Sector) -> bool
    ensures { (x : List ℕ) → SaysRootIn format x root.now
        → IsTrue result ↔ IsPartIn format x index sector.now }
{
    let Ok(part) = SnapshotPart::decode(format, sector) else {
        return false;
    };
    part.bank_open == root.bank_open && part.base == root.base && part.index as usize == index
}

// Nothing but zeros from an offset on.
fn has_end(octets: &[u8], from: usize) -> bool
    ensures { IsTrue result ↔ ((length octets.now ≤ from) ⊎ AreZeros (drop from octets.now)) }
{
    from >= octets.len() || are_zeros(&octets[from..])
}
