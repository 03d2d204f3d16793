//! The octets of a change in a journal: the old SOA and the new one in plain form, and each list after its
//! count.
ghost use Rattle.std.specs.Prelude.{◌≡◌, ℕ, ◌⊎◌, ◌+◌, ◌*◌, ◌<◌, ◌≤◌, ◌^◌, List, ◌++◌, length, IfOk, IfErr};
ghost use Rattle.std.specs.Prelude.{OnOk, IfSome, IfNone, MatchResult};
ghost use Rattle.std.specs.Int.{w32, to_be_bytes};
ghost use Rattle.std.specs.List.{AllByRecursion};
ghost use Rattle.dns_records.specs.Record.{Record as Stated, IsRecord, plain};
ghost use Rattle.dns_changes.specs.Change.{Change as StatedChange};
ghost use Rattle.dns_changes.specs.Entry.{counted, entry, HasEntry};

use crate::form::is_formed;
use crate::{Change, ChangeError};
use dns_memory::Heap;
use dns_records::{Record, RecordError};
use std::alloc::AllocError;

impl Change {
    /// The octets of the change.
    pub fn encode(&self, alloc: Heap) -> Result<Vec<u8, Heap>, AllocError>
        ensures octets { IfOk result (λ octets. octets.items ≡ entry self.now) }
        ensures valid { IfOk result (λ _. HasEntry self.now) }
    {
        let len = self.encoded_len();
        let mut octets = Vec::new(alloc);
        octets.reserve_exact(len)?;
        self.old_soa().to_wire_plain(&mut octets)?;
        self.new_soa().to_wire_plain(&mut octets)?;
        write_counted(&mut octets, self.removed())?;
        write_counted(&mut octets, self.added())?;
        Ok(octets)
    }

    /// The change that the octets are of.
    pub fn decode(alloc: Heap, octets: &[u8]) -> Result<Change, ChangeError>
        ensures found { IfOk result (λ c. HasEntry c × (entry c ≡ octets.now)) }
        ensures refused { IfErr result (λ e. (e ≡ ChangeError.OutOfMemory) ⊎ (e ≡ ChangeError.BadBytes)) }
        // The octets of a change are read as that change, unless memory runs out.
        ensures only { (c : StatedChange)
            → HasEntry c
            → entry c ≡ octets.now
            → MatchResult result (λ d. d ≡ c) (λ e. e ≡ ChangeError.OutOfMemory) }
    {
        let (old_soa, rest) = split_record(alloc, octets)?;
        let (new_soa, rest) = split_record(alloc, rest)?;
        let (removed, rest) = split_counted(alloc, rest)?;
        let (added, rest) = split_counted(alloc, rest)?;
        if !rest.is_empty() {
            drop((old_soa, removed, new_soa, added));
            return Err(ChangeError::BadBytes);
        }
        if !is_formed(&old_soa, &removed, &new_soa, &added) {
            drop((old_soa, removed, new_soa, added));
            return Err(ChangeError::BadBytes);
        }
        Ok(Change::new(old_soa, removed, new_soa, added))
    }

    /// How many octets `encode` gives.
    pub fn encoded_len(&self) -> usize
        ensures octets { result ≡ length (entry self.now) }
        ensures valid { HasEntry self.now }
    {
        let soas = plain_len(self.old_soa()) + plain_len(self.new_soa());
        soas + counted_len(self.removed()) + counted_len(self.added())
    }
}

/// Writes a count and the records at the end.
fn write_counted(out: &mut Vec<u8, Heap>, records: &[Record]) -> Result<(), AllocError>
    requires { length records.now < 2 ^ 32 }
    ensures { OnOk result (out.new.items ≡ out.old.items ++ counted records.now) }
{
    out.extend_from_slice(&(records.len() as u32).to_be_bytes())?;
    for record in records {
        record.to_wire_plain(out)?;
    }
    Ok(())
}

/// The record in plain form at the front of octets, and what follows it.
pub fn split_record(alloc: Heap, octets: &[u8]) -> Result<(Record, &[u8]), ChangeError>
    ensures found { IfOk result (λ r. IsRecord r.0 × (octets.now ≡ plain r.0 ++ r.1.now)) }
    ensures refused { IfErr result (λ e. (e ≡ ChangeError.OutOfMemory) ⊎ (e ≡ ChangeError.BadBytes)) }
    ensures only { (r : Stated) (rest : List ℕ)
        → IsRecord r
        → octets.now ≡ plain r ++ rest
        → IfErr result (λ e. e ≡ ChangeError.OutOfMemory) }
{
    match Record::from_wire_plain(alloc, octets) {
        Ok((record, size)) => Ok((record, &octets[size..])),
        Err(error) => Err(fault_of(error)),
    }
}

/// What is said of octets that no record was read from.
fn fault_of(error: RecordError) -> ChangeError
    ensures either { (result ≡ ChangeError.OutOfMemory) ⊎ (result ≡ ChangeError.BadBytes) }
    ensures memory { error ≡ RecordError.OutOfMemory → result ≡ ChangeError.OutOfMemory }
{
    match error {
        RecordError::OutOfMemory => ChangeError::OutOfMemory,
        RecordError::BadData => ChangeError::BadBytes,
        RecordError::TooLong => ChangeError::BadBytes,
        RecordError::UnknownType => ChangeError::BadBytes,
    }
}

/// A number of 32 bits, the high octet first, and the octets after it.
fn split_count(octets: &[u8]) -> Option<(u32, &[u8])>
    ensures found { IfSome result (λ r. (r.0 < 2 ^ 32) × (octets.now ≡ to_be_bytes w32 r.0 ++ r.1.now)) }
    ensures none { IfNone result (length octets.now < 4) }
{
    let (number, rest) = octets.split_first_chunk::<4>()?;
    Some((u32::from_be_bytes(*number), rest))
}

/// The records after their count at the front of octets, and what follows them.
fn split_counted(alloc: Heap, octets: &[u8]) -> Result<(Vec<Record, Heap>, &[u8]), ChangeError>
    ensures found { IfOk result
        (λ r. AllByRecursion IsRecord r.0.items × (length r.0.items < 2 ^ 32)
        × (octets.now ≡ counted r.0.items ++ r.1.now)) }
    ensures refused { IfErr result (λ e. (e ≡ ChangeError.OutOfMemory) ⊎ (e ≡ ChangeError.BadBytes)) }
    ensures only { (rs : List Stated) (rest : List ℕ)
        → AllByRecursion IsRecord rs
        → length rs < 2 ^ 32
        → octets.now ≡ counted rs ++ rest
        → IfErr result (λ e. e ≡ ChangeError.OutOfMemory) }
{
    let Some((count, mut rest)) = split_count(octets) else {
        return Err(ChangeError::BadBytes);
    };
    let mut records = Vec::new(alloc);
    let mut left = count;
    'records: while left > 0 {
        let (record, behind) = split_record(alloc, rest)?;
        records.push(record).map_err(AllocError::from)?;
        rest = behind;
        left -= 1;
    }
    Ok((records, rest))
}

/// How many octets the record has in plain form.
pub fn plain_len(r: &Record) -> usize
    ensures value { result ≡ length (plain r.now) }
    ensures valid { IsRecord r.now }
    ensures short { result ≤ 4359 }
{
    r.owner().as_wire().len() + 8 + r.rdata().len()
}

/// How many octets the count and the records have.
fn counted_len(records: &[Record]) -> usize
    requires { length records.now < 2 ^ 32 }
    ensures value { result ≡ length (counted records.now) }
    ensures valid { AllByRecursion IsRecord records.now }
    ensures short { result ≤ 4 + 4359 * length records.now }
{
    let mut octets = 4;
    for record in records {
        octets += plain_len(record);
    }
    octets
}
