//! Reading of data and of plain records.
ghost use Rattle.std.specs.Prelude.{◌≡◌, ◌↔◌, IsTrue, ℕ, List, ◌≤◌, length, take, IfOk, IfErr, IfSome};
ghost use Rattle.std.specs.Prelude.{IfNone};
ghost use Rattle.dns_records.specs.Record.{Record as Stated, IsRData, IsRecord, plain};
ghost use Rattle.dns_records.specs.Refusals.{RefusesData, IsRecordFrame, RefusesPlain};

use crate::fields::fit;
use crate::numbers::{split_u16, split_u32};
use crate::{RData, Record, RecordError, form, is_data_type};
use dns_memory::Heap;
use dns_names::NameRef;

/// What is at the front of octets in the form of a plain record, and what follows it.
#[derive(Drop)]
struct Framed<'a> {
    owner: NameRef<'a>,
    rtype: u16,
    ttl: u32,
    rdata: &'a [u8],
    rest: &'a [u8],
}

/// The parts of a plain record at the front of octets, whatever its data is.
fn split_plain(octets: &[u8]) -> Option<Framed<'_>>
    ensures found { IfSome result
        (λ f. IsRecordFrame octets.now
        (record { owner = f.owner; rtype = f.rtype; ttl = f.ttl; rdata = f.rdata.now }) f.rest.now) }
    ensures none { IfNone result ((r : Stated) (rest : List ℕ) → IsRecordFrame octets.now r rest → ⊥) }
{
    let (owner, behind_owner) = NameRef::first(octets)?;
    let (rtype, behind_type) = split_u16(behind_owner)?;
    let (ttl, behind_ttl) = split_u32(behind_type)?;
    let (len, behind_len) = split_u16(behind_ttl)?;
    let (rdata, rest) = behind_len.split_at_checked(len as usize)?;
    Some(Framed {
        owner,
        rtype,
        ttl,
        rdata,
        rest,
    })
}

/// Whether the octets have the form of the type, if it has one.
fn have_form(rtype: u16, octets: &[u8]) -> bool
    ensures { IsTrue result ↔ IsRData rtype octets.now }
{
    match form(rtype) {
        Some(fields) => fit(fields, octets),
        None => true,
    }
}

impl RData {
    ghost use Rattle.dns_records.specs.Record.{IsData};

    /// The data of a type, whose plain form the octets are. Refused are, in this order, a type of which a
    /// zone can have no records, octets beyond 4,096, and octets that have not the form of the type. Data of
    /// a type without a form is any octets (RFC 3597 section 3).
    pub fn new(alloc: Heap, rtype: u16, octets: &[u8]) -> Result<RData, RecordError>
        ensures found { IfOk result (λ d. (d ≡ record { rtype = rtype; octets = octets.now }) × IsData d) }
        ensures refused { IfErr result (RefusesData (record { rtype = rtype; octets = octets.now })) }
    {
        if !is_data_type(rtype) {
            return Err(RecordError::UnknownType);
        }
        if octets.len() > 4096 {
            return Err(RecordError::TooLong);
        }
        if !have_form(rtype, octets) {
            return Err(RecordError::BadData);
        }
        Ok(RData::known(alloc, rtype, octets)?)
    }
}

impl Record {
    /// The record whose plain form is at the front of the octets, and how many octets that has. The
    /// octets are refused as `BadData` where they end before it does or have a capital in a name.
    pub fn from_wire_plain(alloc: Heap, octets: &[u8]) -> Result<(Record, usize), RecordError>
        ensures found { IfOk result
            (λ r. (r.1 ≤ length octets.now) × (take r.1 octets.now ≡ plain r.0) × IsRecord r.0) }
        ensures refused { IfErr result (RefusesPlain octets.now) }
        // What is a plain record is read, unless memory runs out.
        ensures only { (r : Stated) (n : ℕ)
            → IsRecord r
            → n ≤ length octets.now
            → take n octets.now ≡ plain r
            → IfErr result (λ e. e ≡ RecordError.OutOfMemory) }
    {
        let Some(frame) = split_plain(octets) else {
            return Err(RecordError::BadData);
        };
        let rdata = RData::new(alloc, frame.rtype, frame.rdata)?;
        let owner = frame.owner.to_name(alloc)?;
        let record = Record::new(alloc, owner, frame.ttl, rdata)?;
        Ok((record, octets.len() - frame.rest.len()))
    }
}
