//! The records of one name with one put in or taken out. They are copied, since others may share them.
ghost use Rattle.std.specs.Prelude.{◌≡◌, true, false, IfOk, MatchOption};
ghost use Rattle.dns_zone.specs.Records.{is_ordered, put, without, has};

use dns_memory::Heap;
use dns_records::Record;
use dns_zone::find_record;
use std::alloc::AllocError;

/// Copies of the records.
pub(crate) fn copies_of(alloc: Heap, held: &[Record]) -> Result<Vec<Record, Heap>, AllocError>
    ensures { IfOk result (λ records. records.items ≡ held.now) }
{
    held.to_vec(alloc)
}

/// The records with one more, or with one in place of that of equal owner, type and data.
pub(crate) fn with_record(
    alloc: Heap,
    held: &[Record],
    added: Record,
) -> Result<Vec<Record, Heap>, AllocError>
    requires { is_ordered held.now ≡ true }
    ensures { IfOk result (λ records. records.items ≡ put added held.now) }
{
    let mut records = held.to_vec(alloc)?;
    match find_record(held, &added, None) {
        Ok(at) => records[at] = added,
        Err(at) => records.insert(at, added)?,
    }
    Ok(records)
}

/// The records but the one of equal owner, type and data, if it is one of them.
pub(crate) fn without_record(
    alloc: Heap,
    held: &[Record],
    removed: &Record,
) -> Result<Option<Vec<Record, Heap>>, AllocError>
    requires { is_ordered held.now ≡ true }
    ensures { IfOk result (λ rest. MatchOption rest
        (has removed.now held.now ≡ false)
        (λ records. (has removed.now held.now ≡ true) × (records.items ≡ without removed.now held.now))) }
{
    match find_record(held, removed, None) {
        Ok(at) => {
            let mut records = held.to_vec(alloc)?;
            records.remove(at);
            Ok(Some(records))
        }
        Err(_) => Ok(None),
    }
}
