//! A record of a message: its fields, and the record that it is.
ghost use Rattle.std.specs.Prelude.{◌≡◌, ◌+◌, [], ◌∷◌, ◌⊎◌, length, IfOk, IfErr, IfSome, IfNone};
ghost use Rattle.dns_records.specs.Refusals.{RefusesData};
ghost use Rattle.dns_wire.specs.Message.{record_of_item, data_of_item};

use crate::NameView;
use crate::copied::CopiedSection;
use crate::fields::{long_number, number};
use crate::name::behind_name;
use crate::owned::copy_data;
use dns_memory::Heap;
use dns_records::{RData, Record, RecordError};
use std::alloc::AllocError;
use std::marker::Model;

/// A record in a message, which stays where it is (RFC 1035 section 4.1.3). Any class and type can occur
/// there, and a TTL of any 32 bits.
#[derive(Drop)]
pub struct RecordView<'a> {
    message: &'a [u8],
    at: usize,
    behind_owner: usize,
}

impl<'a> Model for RecordView<'a> {
    ghost use Rattle.dns_wire.specs.Message.{ResourceRecord};
    ghost use Rattle.dns_wire.specs.Viewed.{item_shown, IsResourceRecordShown};

    ghost Value = { ResourceRecord };

    ghost view = { λ r. item_shown r.message.now r.at r.behind_owner };

    ghost invariant = { λ r. IsResourceRecordShown r.message.now r.at r.behind_owner };
}

impl<'a> RecordView<'a> {
    /// The name that owns the record.
    pub fn owner(&self) -> NameView<'a>
        ensures { result ≡ self.now.owner }
    {
        NameView::over(self.message, self.at)
    }

    /// The type of the record.
    pub fn rtype(&self) -> u16
        ensures { result ≡ self.now.rtype }
    {
        number(self.message, self.behind_owner)
    }

    /// The class of the record.
    pub fn class(&self) -> u16
        ensures { result ≡ self.now.class }
    {
        number(self.message, self.behind_owner + 2)
    }

    /// The time to live, in seconds.
    pub fn ttl(&self) -> u32
        ensures { result ≡ self.now.ttl }
    {
        long_number(self.message, self.behind_owner + 4)
    }

    /// The data in plain form, names in full and in lower case: empty where RDLENGTH is 0, and as it is
    /// where the type is not known (RFC 3597 section 3).
    pub fn rdata(&self, alloc: Heap) -> Result<Vec<u8, Heap>, AllocError>
        ensures { IfOk result (λ octets. octets.items ≡ self.now.rdata) }
    {
        copy_data(self.message, self.at, self.behind_owner, &mut [], alloc)
    }

    /// The record of class IN with this owner, TTL, type and data, whatever the class here. It is refused as
    /// its data is.
    pub fn to_record(&self, alloc: Heap) -> Result<Record, RecordError>
        ensures found { IfOk result (λ r. r ≡ record_of_item self.now) }
        ensures refused { IfErr result
            (λ e. (e ≡ RecordError.OutOfMemory) ⊎ RefusesData (data_of_item self.now) e) }
    {
        let owner = self.owner().to_name(alloc)?;
        let octets = self.rdata(alloc)?;
        let rdata = RData::new(alloc, self.rtype(), &octets)?;
        Ok(Record::new(alloc, owner, self.ttl(), rdata)?)
    }
}

/// The records of a section that are still to be walked, which takes no memory.
#[derive(Drop)]
pub struct Section<'a> {
    message: &'a [u8],
    next: usize,
    left: u16,
}

impl<'a> Model for Section<'a> {
    ghost use Rattle.std.specs.Prelude.{List};
    ghost use Rattle.dns_wire.specs.Message.{ResourceRecord};
    ghost use Rattle.dns_wire.specs.Viewed.{items_left, AreResourceRecordsLeft};

    ghost Value = { List ResourceRecord };

    ghost view = { λ s. items_left s.message.now s.next s.left };

    ghost invariant = { λ s. AreResourceRecordsLeft s.message.now s.next s.left };
}

impl<'a> Section<'a> {
    ghost use Rattle.std.specs.Prelude.{◌≡◌, [], ◌∷◌, length, IfSome, IfNone};
    ghost use Rattle.dns_wire.specs.Viewed.{items_left, AreResourceRecordsLeft};

    /// So many records from an offset on.
    pub(crate) fn over(message: &'a [u8], next: usize, left: u16) -> Section<'a>
        requires { AreResourceRecordsLeft message.now next left }
        ensures { result ≡ items_left message.now next left }
    {
        Section {
            message,
            next,
            left,
        }
    }

    /// How many records are left.
    pub fn len(&self) -> u16
        ensures { result ≡ length self.now }
    {
        self.left
    }

    /// The same records, to be copied one after the other.
    pub fn copied(self, alloc: Heap) -> Result<CopiedSection<'a>, AllocError>
        ensures { IfOk result (λ copied. copied ≡ self.entry) }
    {
        CopiedSection::over(alloc, self.message, self.next, self.left)
    }

    /// The next record, if there is one.
    pub fn next(&mut self) -> Option<RecordView<'a>>
        ensures some { IfSome result (λ r. self.old ≡ r ∷ self.new) }
        ensures none { IfNone result (self.old ≡ []) }
    {
        if self.left == 0 {
            return None;
        }
        let at = self.next;
        let behind_owner = behind_name(self.message, at);
        let size = number(self.message, behind_owner + 8) as usize;
        self.next = behind_owner + 10 + size;
        self.left -= 1;
        Some(RecordView {
            message: self.message,
            at,
            behind_owner,
        })
    }
}
