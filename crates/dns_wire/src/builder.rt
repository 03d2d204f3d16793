//! A message whose answer is filled record by record, as far as it goes: a transfer's (RFC 5936 section 2.2).
ghost use Rattle.std.specs.Prelude.{◌≡◌, ◌≤◌, ◌++◌, length, drop, IfOk, IfErr, OnOk};
ghost use Rattle.dns_wire.specs.Building.{HasNoRecord, IsReplyBuilt, StandsBuilt};
ghost use Rattle.dns_wire.specs.Contents.{said};
ghost use Rattle.dns_wire.specs.Compress.{compressed_record};
ghost use Rattle.dns_wire.specs.Pushed.{IsPushed};
ghost use Rattle.dns_wire.specs.Puts.{RefusesUpTo, Wrote};
ghost use Rattle.dns_wire.specs.Reply.{stated};
ghost use Rattle.dns_wire.specs.Text.{text};

use crate::compression_targets::{Places, put_last};
use crate::compressor::Compressor;
use crate::octets::Octets;
use crate::writer::header;
use crate::{Reply, ReplyRecord, WriteError};
use dns_memory::Heap;
use std::alloc::AllocError;
use std::marker::Model;

/// The octets that a message and one record more have room in, whatever the record.
const ROOM: usize = 65535;

/// How many octets there are for the record that no longer fits: few have more.
const SPARE: usize = 512;

/// A transfer has many targets: none is searched one by one, but those of the question's name.
const FEW_PLACES: usize = 0;

/// Few records have fewer octets, so that there is room for all that fit: to make more is to move all.
const PER_RECORD: usize = 16;

/// What a message says so far, and its octets.
#[derive(Drop)]
struct Contents<'a> {
    /// What it says but for its records.
    head: Reply<'a, 'a>,
    answer: Vec<ReplyRecord<'a>, Heap>,
    compressor: Compressor<'a>,
    limit: usize,
}

/// A message that takes records into its answer, one after the other, while they fit. It is stored on the
/// heap, so that it is passed on at the cost of a pointer.
#[derive(Drop)]
pub struct MessageBuilder<'a> {
    contents: Box<Contents<'a>, Heap>,
}

impl<'a> Model for MessageBuilder<'a> {
    ghost use Rattle.std.specs.Prelude.{◌≡◌};
    ghost use Rattle.dns_wire.specs.Building.{Building, StandsBuilt};
    ghost use Rattle.dns_wire.specs.Contents.{said};

    ghost Value = { Building };

    ghost view = { λ b. record { reply = said b.contents.value; limit = b.contents.value.limit } };

    ghost invariant = { λ b.
        StandsBuilt (record { reply = said b.contents.value; limit = b.contents.value.limit })
        b.contents.value.compressor.octets.items b.contents.value.compressor.places
        × (b.contents.value.compressor.limit ≡ 65535) };
}

/// What became of a message to which a record was given.
#[derive(Drop)]
pub enum Pushed<'a> {
    /// The record fits: the message with it.
    Open(MessageBuilder<'a>),
    /// It does not fit: the octets of the message without it.
    Full(Vec<u8, Heap>),
}

/// Writes a record after octets of a message: whatever the record, there is room for it. The owners of a
/// transfer are most often new, so that none is looked for before its labels are written.
fn put_any<'a>(compressor: &mut Compressor<'a>, one: &ReplyRecord<'a>) -> Result<(), AllocError>
    requires low { length compressor.old.octets.items ≤ 16384 }
    requires room { compressor.old.limit ≡ 65535 }
    ensures { OnOk result
        (Wrote compressor.old.limit compressor.old.octets.items compressor.new.octets.items
        compressor.new.limit compressor.new.places
        (compressed_record compressor.old.places (length compressor.old.octets.items) one.now)) }
{
    let _data = one.rdata();
    match compressor.put_by_labels(one) {
        Ok(()) => Ok(()),
        Err(WriteError::OutOfMemory) => Err(AllocError),
        Err(WriteError::DoesNotFit) => unreachable!(),
    }
}

/// Writes a header in place of the first twelve octets.
fn put_header(octets: &mut Vec<u8, Heap>, header: &[u8; 12])
    requires { 12 ≤ length octets.old.items }
    ensures { octets.new.items ≡ header.now ++ drop 12 octets.old.items }
{
    octets.as_mut_slice()[0..12].copy_from_slice(header);
}

/// The octets of a message with its header, in place of the first twelve.
fn finished(reply: &Reply<'_, '_>, mut octets: Vec<u8, Heap>) -> Vec<u8, Heap>
    requires { IsReplyBuilt (stated reply.now) octets.items }
    ensures { result.items ≡ text (stated reply.now) }
{
    match header(reply) {
        Ok(header) => put_header(&mut octets, &header),
        Err(_) => unreachable!(),
    }
    octets
}

/// The octets of a message with its header.
fn octets_of(contents: Contents<'_>) -> Vec<u8, Heap>
    requires { IsReplyBuilt (said contents) contents.compressor.octets.items }
    ensures { result.items ≡ text (said contents.entry) }
{
    let Contents {
        head,
        answer,
        compressor,
        limit: _,
    } = contents;
    let reply = Reply {
        answer: &answer,
        ..head
    };
    finished(&reply, compressor.octets.into_vec())
}

impl<'a> MessageBuilder<'a> {
    /// The message of these contents.
    fn of(alloc: Heap, contents: Contents<'a>) -> Result<MessageBuilder<'a>, AllocError>
        requires stands { StandsBuilt (record { reply = said contents; limit = contents.limit })
            contents.compressor.octets.items contents.compressor.places }
        requires room { contents.compressor.limit ≡ 65535 }
        ensures { IfOk result
            (λ b. b ≡ record { reply = said contents.entry; limit = contents.entry.limit }) }
    {
        Ok(MessageBuilder {
            contents: Box::new(alloc, contents)?,
        })
    }

    /// A message with what the reply says but for records, of at most so many octets. It refuses with
    /// `DoesNotFit` where it is longer already, and with `OutOfMemory` where memory is wanting.
    pub fn new(
        alloc: Heap,
        reply: Reply<'a, 'a>,
        limit: usize,
    ) -> Result<MessageBuilder<'a>, WriteError>
        requires empty { HasNoRecord (stated reply) }
        requires low { limit ≤ 16384 }
        ensures found { IfOk result (λ b. (b.reply ≡ stated reply.entry) × (b.limit ≡ limit)) }
        ensures refused { IfErr result (RefusesUpTo limit (length (text (stated reply.entry)))) }
    {
        let mut compressor = Compressor {
            octets: Octets::with_room(alloc, limit + SPARE)?,
            places: Places::new(alloc, FEW_PLACES),
            limit,
        };
        compressor.put(&header(&reply)?)?;
        compressor.put_question(&reply.question)?;
        compressor.limit = ROOM;
        let contents = Contents {
            head: reply,
            answer: Vec::with_capacity(alloc, limit / PER_RECORD)?,
            compressor,
            limit,
        };
        Ok(MessageBuilder::of(alloc, contents)?)
    }

    /// Puts a record after the others, if the message fits its limit with it.
    pub fn push(self, one: ReplyRecord<'a>) -> Result<Pushed<'a>, AllocError>
        ensures { IfOk result (λ pushed. IsPushed self.entry one.entry pushed) }
    {
        let MessageBuilder { mut contents } = self;
        let so_far = &mut *contents;
        let end = so_far.compressor.octets.len();
        put_any(&mut so_far.compressor, &one)?;
        if so_far.compressor.octets.len() > so_far.limit {
            so_far.compressor.octets.truncate(end);
            return Ok(Pushed::Full(octets_of(Box::into_inner(contents))));
        }
        put_last(&mut so_far.answer, one)?;
        Ok(Pushed::Open(MessageBuilder { contents }))
    }

    /// The octets of the message.
    pub fn finish(self) -> Vec<u8, Heap>
        ensures text { result.items ≡ text self.entry.reply }
        ensures fits { length result.items ≤ self.entry.limit }
    {
        octets_of(Box::into_inner(self.contents))
    }
}
