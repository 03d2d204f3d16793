//! The records of a section, copied one after the other. However long the chains of pointers are that their
//! names lead to, each pointer is followed once.
ghost use Rattle.std.specs.Prelude.{◌≡◌, ◌⊎◌, IfOk, IfErr};
ghost use Rattle.dns_records.specs.Refusals.{RefusesData};
ghost use Rattle.dns_wire.specs.Copied.{record_copied};
ghost use Rattle.dns_wire.specs.Message.{record_of_item, data_of_item};

use crate::fields::{long_number, number};
use crate::name::behind_name;
use crate::owned::copy_data;
use crate::plain::copy_name;
use dns_memory::Heap;
use dns_names::Name;
use dns_records::{RData, Record, RecordError};
use std::alloc::AllocError;
use std::marker::Model;

/// How many offsets a pointer can name (RFC 1035 section 4.1.4).
const TARGETS: usize = 16384;

/// In a message of at most so many octets no chain of pointers is long.
const SHORT: usize = 512;

/// So few records don't follow a chain often.
const FEW: u16 = 16;

/// A record of a message, of any class and type (RFC 1035 section 4.1.3).
#[derive(Debug, Drop)]
pub struct CopiedRecord {
    /// The name that owns the record, in full and in lower case.
    pub owner: Name,
    /// The type.
    pub rtype: u16,
    /// The class.
    pub class: u16,
    /// The time to live, in seconds.
    pub ttl: u32,
    /// The data in plain form, names in full and in lower case: empty if RDLENGTH is 0, and as it is if the
    /// type is not known (RFC 3597 section 3).
    pub rdata: Vec<u8, Heap>,
}

impl CopiedRecord {
    /// The record of class IN with this owner, TTL, type and data, whatever the class here. It is refused as
    /// its data is.
    pub fn into_record(self, alloc: Heap) -> Result<Record, RecordError>
        ensures found { IfOk result (λ r. r ≡ record_of_item (record_copied self)) }
        ensures refused { IfErr result
            (λ e. (e ≡ RecordError.OutOfMemory) ⊎ RefusesData (data_of_item (record_copied self)) e) }
    {
        let rdata = RData::new(alloc, self.rtype, &self.rdata)?;
        Ok(Record::new(alloc, self.owner, self.ttl, rdata)?)
    }
}

/// The records of a section that are still to be copied.
#[derive(Drop)]
pub struct CopiedSection<'a> {
    message: &'a [u8],
    next: usize,
    left: u16,
    alloc: Heap,
    ends: Vec<u16, Heap>,
}

impl<'a> Model for CopiedSection<'a> {
    ghost use Rattle.std.specs.Prelude.{List};
    ghost use Rattle.dns_wire.specs.Copied.{AreCopiesLeft};
    ghost use Rattle.dns_wire.specs.Message.{ResourceRecord};
    ghost use Rattle.dns_wire.specs.Viewed.{items_left};

    ghost Value = { List ResourceRecord };

    ghost view = { λ s. items_left s.message.now s.next s.left };

    ghost invariant = { λ s. AreCopiesLeft s.message.now s.next s.left s.ends.items };
}

impl<'a> CopiedSection<'a> {
    ghost use Rattle.std.specs.Prelude.{◌≡◌, [], ◌∷◌, IfOk, IfSome, IfNone};
    ghost use Rattle.dns_wire.specs.Copied.{record_copied};
    ghost use Rattle.dns_wire.specs.Viewed.{items_left, AreResourceRecordsLeft};

    /// So many records from an offset on.
    pub(crate) fn over(
        alloc: Heap,
        message: &'a [u8],
        next: usize,
        left: u16,
    ) -> Result<CopiedSection<'a>, AllocError>
        requires { AreResourceRecordsLeft message.now next left }
        ensures { IfOk result (λ copied. copied ≡ items_left message.now next left) }
    {
        let room = if left < FEW || message.len() <= SHORT {
            0
        } else {
            message.len().min(TARGETS)
        };
        Ok(CopiedSection {
            message,
            next,
            left,
            alloc,
            ends: vec![in alloc; 0; room]?,
        })
    }

    /// The next record, if there is one.
    pub fn next(&mut self) -> Result<Option<CopiedRecord>, AllocError>
        ensures some { IfOk result (λ found. IfSome found (λ r. self.old ≡ record_copied r ∷ self.new)) }
        ensures none { IfOk result (λ found. IfNone found (self.old ≡ [])) }
    {
        if self.left == 0 {
            return Ok(None);
        }
        let (message, at, alloc) = (self.message, self.next, self.alloc);
        let behind_owner = behind_name(message, at);
        let size = number(message, behind_owner + 8) as usize;
        let owner = copy_name(message, at, &mut self.ends, alloc)?;
        let rdata = copy_data(message, at, behind_owner, &mut self.ends, alloc)?;
        self.next = behind_owner + 10 + size;
        self.left -= 1;
        Ok(Some(CopiedRecord {
            owner,
            rtype: number(message, behind_owner),
            class: number(message, behind_owner + 2),
            ttl: long_number(message, behind_owner + 4),
            rdata,
        }))
    }
}
