//! What a reply says, before it is written.
ghost use Rattle.std.specs.Prelude.{◌≡◌};
ghost use Rattle.dns_records.specs.Record.{IsRecord};

use crate::{Opcode, Rcode};
use dns_names::NameRef;
use dns_records::Record;
use std::marker::Model;

/// A record as a reply gives it: that of a zone, lent, with the owner and the TTL that go out.
#[derive(Drop)]
pub struct ReplyRecord<'a> {
    owner: NameRef<'a>,
    ttl: u32,
    record: &'a Record,
}

impl<'a> Model for ReplyRecord<'a> {
    ghost use Rattle.std.specs.Prelude.{◌<◌, ◌^◌};
    ghost use Rattle.dns_records.specs.Record.{Record as Stated};

    ghost Value = { Stated };

    ghost view = { λ r.
        record { owner = r.owner; rtype = r.record.now.rtype; ttl = r.ttl; rdata = r.record.now.rdata } };

    ghost invariant = { λ r. r.ttl < 2 ^ 32 };
}

impl<'a> ReplyRecord<'a> {
    /// The record of a zone under another owner and with another TTL.
    pub fn new(owner: NameRef<'a>, ttl: u32, stored: &'a Record) -> ReplyRecord<'a>
        ensures owner { result.owner ≡ owner.entry }
        ensures ttl { result.ttl ≡ ttl }
        ensures rtype { result.rtype ≡ stored.now.rtype }
        ensures rdata { result.rdata ≡ stored.now.rdata }
    {
        ReplyRecord {
            owner,
            ttl,
            record: stored,
        }
    }

    /// The owner that goes out.
    pub fn owner(&self) -> NameRef<'a>
        ensures { result ≡ self.now.owner }
    {
        self.owner.reborrow()
    }

    /// The type of the record.
    pub fn rtype(&self) -> u16
        ensures { result ≡ self.now.rtype }
    {
        self.record.rtype()
    }

    /// The TTL that goes out, in seconds.
    pub fn ttl(&self) -> u32
        ensures { result ≡ self.now.ttl }
    {
        self.ttl
    }

    /// The data in plain form.
    pub fn rdata(&self) -> &'a [u8]
        ensures octets { result.now ≡ self.now.rdata }
        ensures valid { IsRecord self.now }
    {
        let _owner = self.owner.as_wire();
        self.record.rdata()
    }
}

/// A question as it came, octet for octet, and its name.
#[derive(Drop)]
pub struct EchoedQuestion<'a> {
    pub octets: &'a [u8],
    pub name: NameRef<'a>,
}

/// What is to be written: a response, without recursion (RFC 1035 section 4.1). Its sections are lent.
#[derive(Drop)]
pub struct Reply<'s, 'a> {
    /// The number of the request.
    pub id: u16,
    /// The kind of the request.
    pub opcode: Opcode,
    /// Whether the answer is authoritative.
    pub aa: bool,
    /// Whether records are left out for want of room.
    pub tc: bool,
    /// Whether recursion was desired.
    pub rd: bool,
    /// The response code.
    pub rcode: Rcode,
    pub question: Option<EchoedQuestion<'a>>,
    pub answer: &'s [ReplyRecord<'a>],
    pub authority: &'s [ReplyRecord<'a>],
    pub additional: &'s [ReplyRecord<'a>],
}
