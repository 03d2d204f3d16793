//! The zone that a snapshot's octets are: its records in plain form, in order.
ghost use Rattle.std.specs.Prelude.{◌≡◌, ◌⊎◌, List, IfOk, IfErr};
ghost use Rattle.std.specs.List.{flat_map};
ghost use Rattle.dns_records.specs.Record.{Record as Stated, plain};
ghost use Rattle.dns_zone.specs.Zone.{IsZone};
ghost use Rattle.dns_store.specs.Snapshot.{AreStored, IsNoSnapshot};

use dns_changes::{ChangeError, split_record};
use dns_memory::Heap;
use dns_names::Name;
use dns_records::Record;
use dns_zone::{Zone, ZoneIndex, rises, set_of};
use std::alloc::AllocError;

// The zone of this apex whose snapshot the octets are; `BadBytes` where they are none's.
pub(crate) fn zone_of<I: ZoneIndex>(
    alloc: Heap,
    apex: &Name,
    octets: &[u8],
) -> Result<Zone<I>, ChangeError>
    ensures found { IfOk result
        (λ z. IsZone z × (z.apex ≡ apex.now) × (octets.now ≡ flat_map plain z.records)) }
    ensures refused { IfErr result (λ e. (e ≡ ChangeError.OutOfMemory)
        ⊎ ((e ≡ ChangeError.BadBytes) × IsNoSnapshot apex.now octets.now)) }
{
    let records = read_records(alloc, octets)?;
    if !rises(&records) {
        return Err(ChangeError::BadBytes);
    }
    let apex = apex.clone()?;
    let set = set_of(alloc, records)?;
    match Zone::from_index(apex, set) {
        Ok(zone) => Ok(zone),
        Err(_) => Err(ChangeError::BadBytes),
    }
}

// The records whose plain forms the octets are, one after the other.
fn read_records(alloc: Heap, octets: &[u8]) -> Result<Vec<Record, Heap>, ChangeError>
    ensures found { IfOk result (λ records. AreStored octets.now records.items) }
    ensures refused { IfErr result (λ e. (e ≡ ChangeError.OutOfMemory)
        ⊎ ((e ≡ ChangeError.BadBytes) × ((records : List Stated) → AreStored octets.now records → ⊥))) }
{
    let mut records = Vec::new(alloc);
    let mut rest = octets;
    'records: while !rest.is_empty() {
        let (record, behind) = split_record(alloc, rest)?;
        records.push(record).map_err(AllocError::from)?;
        rest = behind;
    }
    Ok(records)
}
