//! Negative replies, which have the SOA of their zone alone (RFC 2308 section 3), written in one piece.
ghost use Rattle.std.specs.Prelude.{◌≡◌, ◌+◌, [], ◌∷◌, ◌++◌, ◌<◌, ◌≤◌, ℕ, List, length, IfOk, IfSome, IsSome};
ghost use Rattle.std.specs.Prelude.{OnOk};
ghost use Rattle.dns_names.specs.Name.{labels_of};
ghost use Rattle.dns_names.specs.Plain.{IsPlain};
ghost use Rattle.dns_wire.specs.Compress.{pointer as stated_pointer};
ghost use Rattle.dns_wire.specs.OneSoa.{AreSoaParts, soa_data, soa_head};
ghost use Rattle.dns_wire.specs.Reply.{stated};
ghost use Rattle.dns_wire.specs.Text.{header_octets, text};

use crate::compression_targets::place_within;
use crate::compressor::pointer;
use crate::name::POINTER_BITS;
use crate::octets::{MOST, Octets};
use crate::one_record::FRONT;
use crate::record_put::split_name;
use crate::{Reply, ReplyRecord, Writer};
use byteorder::{BigEndian, ByteOrder};
use dns_memory::Heap;
use dns_names::same_octets;
use dns_records::types::{CLASS_IN, SOA};
use std::alloc::AllocError;

/// How many octets the numbers of a SOA have (RFC 1035 section 3.3.13).
const NUMBERS: usize = 20;

/// A SOA in parts, if its owner occurs at an offset and ends both names of its data, each after one label.
#[derive(Drop)]
pub(crate) struct SoaParts<'a> {
    pub(crate) offset: usize,
    /// The label of each name, with its length before it.
    pub(crate) first: &'a [u8],
    pub(crate) second: &'a [u8],
    pub(crate) numbers: &'a [u8; 20],
}

/// The label of a name before another, with its length, if there is one.
#[inline(always)]
fn label_before<'a>(name: &'a [u8], rest: &[u8]) -> Option<&'a [u8]>
    requires name { IsPlain name.now }
    requires rest { IsPlain rest.now }
    ensures { IfSome result
        (λ front. (length front.now ≤ 256) × (label : List ℕ)
        × (labels_of name.now ≡ label ∷ labels_of rest.now) × (front.now ≡ length label ∷ label)) }
{
    if name.len() <= rest.len() {
        return None;
    }
    let (front, behind) = name.split_at(1 + name[0] as usize);
    if same_octets(behind, rest) {
        Some(front)
    } else {
        None
    }
}

/// The parts of a SOA that is written after a question with this name. No longer end of its names may occur
/// in the question's, and no name is the other.
#[inline(always)]
fn soa_parts<'a>(name: &[u8], one: &ReplyRecord<'a>) -> Option<SoaParts<'a>>
    requires { IsPlain name.now }
    ensures { IfSome result (λ parts. AreSoaParts (labels_of name.now) one.now parts) }
{
    let rdata = one.rdata();
    if one.rtype() != SOA {
        return None;
    }
    let owner = one.owner().as_wire();
    let offset = place_within(name, owner)?;
    let (first, rest) = split_name(rdata);
    let (second, behind) = split_name(rest);
    let Some((numbers, [])) = behind.split_first_chunk::<NUMBERS>() else {
        return None;
    };
    if same_octets(first, second) {
        return None;
    }
    if place_within(name, first).is_some() || place_within(name, second).is_some() {
        return None;
    }
    Some(SoaParts {
        offset,
        first: label_before(first, owner)?,
        second: label_before(second, owner)?,
        numbers,
    })
}

/// The octets of a SOA before its data, whose owner is a pointer to an offset (RFC 1035 sections 4.1.3 and
/// 4.1.4).
#[inline(always)]
fn soa_head(offset: usize, ttl: u32, size: u16) -> [u8; FRONT]
    requires { offset < 16384 }
    ensures { result ≡ soa_head offset ttl size }
{
    let mut octets = [0; FRONT];
    BigEndian::write_u16(&mut octets, POINTER_BITS + offset as u16);
    BigEndian::write_u16(&mut octets[2..], SOA);
    BigEndian::write_u16(&mut octets[4..], CLASS_IN);
    BigEndian::write_u32(&mut octets[6..], ttl);
    BigEndian::write_u16(&mut octets[10..], size);
    octets
}

/// The header of a reply with a question and one record, in the authority section (RFC 1035 section 4.1.1).
#[inline(always)]
fn soa_header(reply: &Reply<'_, '_>) -> [u8; FRONT]
    requires question { IsSome reply.now.question }
    requires answer { reply.now.answer.now ≡ [] }
    requires authority { length reply.now.authority.now ≡ 1 }
    requires additional { reply.now.additional.now ≡ [] }
    ensures { result ≡ header_octets (stated reply.now) }
{
    let flags = 128
        + 8 * reply.opcode.number()
        + 4 * reply.aa as u8
        + 2 * reply.tc as u8
        + reply.rd as u8;
    let mut octets = [0, 0, flags, reply.rcode.number(), 0, 1, 0, 0, 0, 1, 0, 0];
    BigEndian::write_u16(&mut octets, reply.id);
    octets
}

impl Octets {
    /// Writes a SOA, in parts.
    #[inline(always)]
    fn put_soa(&mut self, ttl: u32, parts: &SoaParts<'_>) -> Result<(), AllocError>
        requires low { parts.now.offset < 16384 }
        requires short { length parts.now.first.now + length parts.now.second.now ≤ 512 }
        requires numbers { length parts.now.numbers.now ≡ 20 }
        ensures { OnOk result (self.new.items
            ≡ (let soa = parts.now in
            let rdata = soa_data soa.offset soa.first.now soa.second.now soa.numbers.now in
            self.old.items ++ (soa_head soa.offset ttl (length rdata) ++ rdata))) }
    {
        let (first, second, numbers) = (parts.first, parts.second, parts.numbers);
        let size = first.len() + second.len() + NUMBERS + 4;
        let pointed = pointer(parts.offset);
        self.put(&soa_head(parts.offset, ttl, size as u16))?;
        self.put(first)?;
        self.put(&pointed)?;
        self.put(second)?;
        self.put(&pointed)?;
        self.put(numbers)
    }
}

impl Writer {
    /// The one compressed text of a reply with a question and a SOA in the authority section alone, if it is
    /// written in one piece: the owner of the SOA ends the question's name and, after one label, the two
    /// names of its data, which are different and do not end the question's name, and there is room in 512
    /// octets. It takes the memory of the spare octets, if they have room, and leaves none of them.
    #[inline(always)]
    pub fn write_soa<'a>(
        alloc: Heap,
        spare: &mut Vec<u8, Heap>,
        reply: &Reply<'_, 'a>,
    ) -> Result<Option<Vec<u8, Heap>>, AllocError>
        ensures { IfOk result (λ written. IfSome written
            (λ octets. (octets.items ≡ text (stated reply.now)) × (length octets.items ≤ 512))) }
    {
        let Some(question) = &reply.question else {
            return Ok(None);
        };
        let [one] = reply.authority else {
            return Ok(None);
        };
        if !reply.answer.is_empty() || !reply.additional.is_empty() {
            return Ok(None);
        }
        let Some(parts) = soa_parts(question.name.as_wire(), one) else {
            return Ok(None);
        };
        let names = parts.first.len() + parts.second.len();
        let size = 2 * FRONT + question.octets.len() + names + NUMBERS + 4;
        if size > MOST {
            return Ok(None);
        }
        let mut octets = Octets::over(alloc, spare, size)?;
        octets.put(&soa_header(reply))?;
        octets.put(question.octets)?;
        octets.put_soa(one.ttl(), &parts)?;
        Ok(Some(octets.into_vec()))
    }
}
