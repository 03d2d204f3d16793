//! A record: owner, TTL and data, and its plain form.
ghost use Rattle.std.specs.Prelude.{◌≡◌, ◌++◌, ◌↔◌, IsTrue, IfOk, OnErr, OnOk, length, take};
ghost use Rattle.dns_records.specs.Compare.{same_record, same_record-per, same_record-equiv};
ghost use Rattle.dns_records.specs.Record.{Record as Stated, plain, IsRecord, record_of, data_of, record_cmp};

use crate::RData;
use dns_memory::Heap;
use dns_names::Name;
use std::alloc::AllocError;
use std::cmp::Ordering;
use std::fmt;
use std::marker::Model;
use std::rc::Rc;
use thiserror::Error;

/// Why octets are no record.
#[derive(Clone, Copy, Debug, Error, PartialEq, Eq)]
pub enum RecordError {
    /// Memory was refused.
    #[error("memory was refused")]
    OutOfMemory,
    /// The octets end too early, or the data has not the form of its type.
    #[error("the data has not the form of its type")]
    BadData,
    /// The data has more than 4,096 octets.
    #[error("the data has more than 4096 octets")]
    TooLong,
    /// The type is none of which a zone can have records.
    #[error("a zone can have no records of this type")]
    UnknownType,
}

impl From<AllocError> for RecordError {
    ghost use Rattle.dns_records.specs.declared.record.RecordError.TheVariants.{OutOfMemory};

    ghost from_gives = { λ _ e. e ≡ OutOfMemory };

    fn from(_error: AllocError) -> RecordError {
        RecordError::OutOfMemory
    }
}

/// What a record says.
#[derive(Drop)]
struct Parts {
    owner: Name,
    ttl: u32,
    rdata: RData,
}

/// A record of class IN: an owner, a TTL in seconds, a type, and data (RFC 1035 section 3.2.1). It is one
/// pointer, and its copies share what it says: to move a record and to copy it costs the same, however much
/// that is.
#[derive(Drop)]
pub struct Record {
    parts: Rc<Parts, Heap>,
}

impl Model for Record {
    ghost use Rattle.dns_records.specs.Record.{Record as Stated, IsRecord, record_of};

    ghost Value = { Stated };

    ghost view = { λ r. record_of r.parts.value.owner r.parts.value.ttl r.parts.value.rdata };

    ghost invariant = { λ r. IsRecord (record_of r.parts.value.owner r.parts.value.ttl r.parts.value.rdata) };
}

impl Record {
    /// The record of an owner, a TTL in seconds, and data.
    pub fn new(alloc: Heap, owner: Name, ttl: u32, rdata: RData) -> Result<Record, AllocError>
        ensures { IfOk result (λ r. r ≡ record_of owner ttl rdata) }
    {
        let _owner = owner.as_wire();
        let _data = rdata.octets();
        let parts = Parts { owner, ttl, rdata };
        Ok(Record {
            parts: Rc::new(alloc, parts)?,
        })
    }

    /// Whose record it is.
    pub fn owner(&self) -> &Name
        ensures { result.now ≡ self.now.owner }
    {
        &self.parts.owner
    }

    /// The type (RFC 1035 section 3.2.2).
    pub fn rtype(&self) -> u16
        ensures { result ≡ self.now.rtype }
    {
        self.parts.rdata.rtype()
    }

    /// For how many seconds it may be kept.
    pub fn ttl(&self) -> u32
        ensures { result ≡ self.now.ttl }
    {
        self.parts.ttl
    }

    /// The type and the data.
    pub fn data(&self) -> &RData
        ensures { result.now ≡ data_of self.now }
    {
        &self.parts.rdata
    }

    /// The data in plain form.
    pub fn rdata(&self) -> &[u8]
        ensures octets { result.now ≡ self.now.rdata }
        ensures valid { IsRecord self.now }
    {
        self.parts.rdata.octets()
    }

    /// The order of records in a zone: by owner, type and data. The TTL does not count.
    pub fn compare(&self, other: &Record) -> Ordering
        ensures { result ≡ record_cmp self.now other.now }
    {
        let parts = self.parts.as_ref();
        let others = other.parts.as_ref();
        let owners = parts.owner.cmp(&others.owner);
        let types = parts.rdata.rtype().cmp(&others.rdata.rtype());
        owners.then(types.then(parts.rdata.octets().cmp(others.rdata.octets())))
    }

    /// Writes the plain form at the end. Where memory is refused, what was written before stays as it was,
    /// and nothing is added.
    pub fn to_wire_plain(&self, out: &mut Vec<u8, Heap>) -> Result<(), AllocError>
        ensures written { OnOk result (out.new.items ≡ out.old.items ++ plain self.now) }
        ensures stays { OnErr result (out.new.items ≡ out.old.items) }
    {
        let before = out.len();
        let written = self.append_plain(out);
        if written.is_err() {
            out.truncate(before);
        }
        written
    }

    // Writes the plain form at the end, as far as memory goes.
    fn append_plain(&self, out: &mut Vec<u8, Heap>) -> Result<(), AllocError>
        ensures written { OnOk result (out.new.items ≡ out.old.items ++ plain self.now) }
        ensures front { OnErr result (take (length out.old.items) out.new.items ≡ out.old.items) }
    {
        let parts = self.parts.as_ref();
        let rdata = parts.rdata.octets();
        out.extend_from_slice(parts.owner.as_wire())?;
        out.extend_from_slice(&parts.rdata.rtype().to_be_bytes())?;
        out.extend_from_slice(&parts.ttl.to_be_bytes())?;
        out.extend_from_slice(&(rdata.len() as u16).to_be_bytes())?;
        out.extend_from_slice(rdata)?;
        Ok(())
    }
}

impl fmt::Debug for Record {
    fn fmt<W: fmt::Write>(&self, f: &mut fmt::Formatter<W>) -> fmt::Result {
        let parts = self.parts.as_ref();
        write!(f, "{} {} {:?}", parts.owner, parts.ttl, parts.rdata)
    }
}

impl Clone for Record {
    ghost is_clone = { λ r copy. copy ≡ r };

    fn clone(&self) -> Result<Self, AllocError> {
        Ok(Record {
            parts: self.parts.clone()?,
        })
    }
}

impl PartialEq for Record {
    ghost eq = { same_record };

    ghost laws = { same_record-per };

    /// Whether all is equal, the TTL too.
    fn eq(&self, other: &Self) -> bool
        ensures value { result ≡ same_record self.now other.now }
        ensures same { IsTrue result ↔ (self.now ≡ other.now) }
    {
        let parts = self.parts.as_ref();
        let others = other.parts.as_ref();
        parts.owner == others.owner && parts.ttl == others.ttl && parts.rdata == others.rdata
    }
}

impl Eq for Record {
    ghost laws = { same_record-equiv };
}
