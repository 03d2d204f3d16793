//! The versions after the base, read from the journal.
ghost use Rattle.std.specs.Prelude.{◌≡◌, ◌⊎◌, ◌≤◌, ◌<◌, List, ℕ, None, IfOk, IfErr, OnOk, MatchResult};
ghost use Rattle.dns_records.specs.Record.{Record as Stated};
ghost use Rattle.dns_zone.specs.Zone.{IsZone};
ghost use Rattle.dns_changes.specs.Change.{Change as StatedChange, IsChange, applied, change_fault};
ghost use Rattle.dns_changes.specs.Entry.{HasEntry, entry};
ghost use Rattle.dns_journal.specs.Reads.{OnlyReads, HasRisen, TellsSpoilt};
ghost use Rattle.dns_store.specs.Plain.{octets_of, sectors_of_snapshot_in};
ghost use Rattle.dns_store.specs.Recovered.{EachJournal, GivenMemory, IsNewestRecovered};
ghost use Rattle.dns_store.specs.Reading.{IsReadBy};
ghost use Rattle.dns_store.specs.Root.{IsOfBank};
ghost use Rattle.dns_store.specs.Damage.{NamesSector, NamesSpoiltIn, NamesWrongEntryIn, IsReachedEntryIn};
ghost use Rattle.dns_store.specs.Damage.{EachStep, IfFits, RefusesJournal};

use crate::OpenError;
use crate::incremental_check::next_zone;
use crate::octets::{octets_after, snapshot_len};
use dns_changes::{Change, ChangeError};
use dns_journal::{Cursor, next_entry};
use dns_layout::{Format, snapshot_sectors_in};
use dns_memory::Heap;
use dns_sectors::Sectors;
use dns_zone::{Zone, ZoneIndex};
use std::alloc::AllocError;

// The zone that a change makes of another; an error other than `OutOfMemory` where it makes none.
fn next_by<I: ZoneIndex>(zone: &Zone<I>, change: &Change) -> Result<Zone<I>, ChangeError>
    ensures found { IfOk result (λ next. (applied change.now zone.now.records ≡ next.records)
        × (change_fault change.now zone.now.records ≡ None) × (next.apex ≡ zone.now.apex) × IsZone next) }
    ensures only { (after : List Stated) → IsChange zone.now.records after change.now
        → IsZone (record { apex = zone.now.apex; records = after })
        → GivenMemory result (λ next. next.records ≡ after) }
    ensures taken { change_fault change.now zone.now.records ≡ None
        → IsZone (record { apex = zone.now.apex; records = applied change.now zone.now.records })
        → IfErr result (λ e. e ≡ ChangeError.OutOfMemory) }
{
    let apex = zone.apex().clone()?;
    let mut set = zone.index().fork()?;
    change.apply(&mut set)?;
    match next_zone(apex, set, change) {
        Ok(next) => Ok(next),
        Err(error) => Err(error),
    }
}

// The change with these octets, the zone that it makes of another whose snapshot has so many octets, and how
// many that one's has; an error other than `OutOfMemory` where there is no such change, or it makes no zone
// whose snapshot takes at most so many sectors.
fn take_step<I: ZoneIndex>(
    alloc: Heap,
    zone: &Zone<I>,
    len: usize,
    octets: &[u8],
    format: Format,
    room: u32,
) -> Result<(Change, Zone<I>, usize), ChangeError>
    requires { len ≡ octets_of zone.now.records }
    ensures found { IfOk result (λ r. HasEntry r.0 × (entry r.0 ≡ octets.now)
        × (change_fault r.0 zone.now.records ≡ None) × (applied r.0 zone.now.records ≡ r.1.records)
        × (r.1.apex ≡ zone.now.apex) × IsZone r.1) }
    ensures fits { IfOk result (λ r. (r.2 ≡ octets_of r.1.records)
        × (sectors_of_snapshot_in format r.1.records ≤ room)) }
    ensures only { EachStep format zone.now.apex room zone.now.records octets.now (λ after c.
        GivenMemory result (λ r. (r.0 ≡ c) × (r.1.records ≡ after))) }
    ensures taken { (c : StatedChange) → HasEntry c → entry c ≡ octets.now
        → change_fault c zone.now.records ≡ None
        → IfFits format zone.now.apex room (applied c zone.now.records)
        (GivenMemory result (λ r. r.0 ≡ c)) }
{
    let _valid = zone.apex();
    let change = Change::decode(alloc, octets)?;
    let next = match next_by(zone, &change) {
        Ok(next) => next,
        Err(error) => {
            drop(change);
            return Err(error);
        }
    };
    let len = octets_after(len, &change);
    if snapshot_sectors_in(format, len) > room as usize {
        drop((change, next));
        return Err(ChangeError::BadBytes);
    }
    Ok((change, next, len))
}

// The newest version, and the changes that lead to it from the base, by the entries from the cursor on; each
// version's snapshot has to take at most so many sectors. The cursor moves past the entries. What it reads is
// said of each content of which the device's is an altered one.
pub(crate) fn read_versions<D: Sectors, I: ZoneIndex>(
    alloc: Heap,
    device: &mut D,
    format: Format,
    cursor: &mut Cursor,
    base: Zone<I>,
    room: u32,
) -> Result<(Zone<I>, Vec<Change, Heap>), OpenError>
    requires until { cursor.old.until ≤ D.count device.old }
    requires at { cursor.old.at ≤ cursor.old.until }
    ensures within { cursor.new.at ≤ cursor.new.until }
    ensures memory { IfOk result
        (λ r. IsReadBy format cursor.old cursor.new base room r.0.records r.1.items) }
    ensures apex { IfOk result (λ r. r.0.apex ≡ base.apex) }
    ensures reads_all { EachJournal D.Sectors format device.old cursor.old base room (λ vs es.
        MatchResult result
        (λ r. IsNewestRecovered cursor.old cursor.new base.records vs es r.0.records r.1.items)
        (RefusesJournal format (D.seen device.old) cursor.old)) }
    ensures until { cursor.new.until ≡ cursor.old.until }
    ensures refused { IfErr result IsOfBank }
    // `Damaged` names a sector that is neither zeros nor its own, or that of the first entry that is wrong.
    ensures damaged { D.is_honest device.old → IfErr result (λ e.
        NamesSpoiltIn format (D.seen device.old) cursor.old.at cursor.old.until e
        ⊎ NamesWrongEntryIn format base.apex room base.records cursor.old (D.seen device.old) e) }
    // Of a sector that is reached and is neither zeros nor its own it says so.
    ensures not_own { D.is_honest device.old → (position : ℕ)
        → IsReachedEntryIn format base.apex room base.records cursor.old (D.seen device.old) position
        → TellsSpoilt format (D.seen device.old) position result (NamesSector position) }
    ensures device { result ≡ Err OpenError.Device → HasRisen (D.failed device.old) (D.failed device.new) }
    ensures quiet { OnOk result (D.failed device.new ≡ D.failed device.old) }
    ensures reads { OnlyReads D.Sectors device.old device.new }
{
    let _valid = base.apex();
    let mut zone = base;
    let mut len = snapshot_len(&zone);
    let mut changes = Vec::new(alloc);
    'entries: while let Some(found) = next_entry(alloc, device, format, cursor)? {
        let (change, next, next_len) = match take_step(
            alloc,
            &zone,
            len,
            &found.octets,
            format,
            room,
        ) {
            Ok(step) => step,
            Err(error) => return Err(fault_at(found.head, error)),
        };
        changes.push(change).map_err(AllocError::from)?;
        zone = next;
        len = next_len;
    }
    Ok((zone, changes))
}

// What is said of an entry, with its head there, that makes no zone.
pub(crate) fn fault_at(head: usize, error: ChangeError) -> OpenError
    ensures memory { error ≡ ChangeError.OutOfMemory → result ≡ OpenError.OutOfMemory }
    ensures other { (result ≡ OpenError.OutOfMemory) ⊎ (result ≡ OpenError.Damaged head) }
    ensures damaged { (error ≡ ChangeError.OutOfMemory) ⊎ (result ≡ OpenError.Damaged head) }
{
    match error {
        ChangeError::OutOfMemory => OpenError::OutOfMemory,
        ChangeError::WrongSoa => OpenError::Damaged(head),
        ChangeError::RemovesAbsent => OpenError::Damaged(head),
        ChangeError::AddsPresent => OpenError::Damaged(head),
        ChangeError::BadBytes => OpenError::Damaged(head),
    }
}
