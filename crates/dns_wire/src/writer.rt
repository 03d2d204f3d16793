//! Replies written as messages, within a limit (RFC 1035 section 4.1).
ghost use Rattle.std.specs.Int.{w16, to_be_bytes as be_octets};
ghost use Rattle.std.specs.Prelude.{◌≡◌, ℕ, List, [], ◌+◌, ◌*◌, ◌++◌, ◌<◌, ◌≤◌, Err, IfOk, IfErr, OnOk};
ghost use Rattle.std.specs.Prelude.{length};
ghost use Rattle.dns_wire.specs.Puts.{Wrote, RefusesUpTo, asked};
ghost use Rattle.dns_wire.specs.Reply.{echo, stated};
ghost use Rattle.dns_wire.specs.Reads.{Reads};
ghost use Rattle.dns_wire.specs.Valid.{IsReply, message_of_reply};
ghost use Rattle.dns_wire.specs.Text.{Reply as Stated, text, header_octets};
ghost use Rattle.dns_names.specs.Name.{Labels};
ghost use Rattle.dns_wire.specs.Compress.{Place, compress_name, new_places};
ghost use Rattle.dns_wire.specs.Compressed.{Used, OccursAt, OccurBefore, IsWritten, AreThePlaces};
ghost use Rattle.dns_wire.specs.Compressed.{IsCompressed, and_written};

use crate::compression_targets::Places;
use crate::compressor::Compressor;
use crate::fields::two_octets;
use crate::octets::{MOST, Octets};
use crate::{EchoedQuestion, Reply, ReplyRecord, WriteError};
use dns_memory::Heap;

/// Few replies have more targets that pointers can name, after those of the question.
const FEW_PLACES: usize = 12;

/// Writes messages.
pub struct Writer;

/// How many records a section has, as the header says it.
fn count(records: &[ReplyRecord<'_>]) -> Result<[u8; 2], WriteError>
    ensures found { IfOk result (λ octets. octets ≡ be_octets w16 (length records.now)) }
    ensures refused { IfErr result (λ e. (e ≡ WriteError.DoesNotFit) × (65535 < length records.now)) }
{
    match u16::try_from(records.len()) {
        Ok(count) => Ok(two_octets(count)),
        Err(_) => Err(WriteError::DoesNotFit),
    }
}

/// The header of a reply (RFC 1035 section 4.1.1).
pub(crate) fn header(reply: &Reply<'_, '_>) -> Result<[u8; 12], WriteError>
    ensures found { IfOk result (λ octets. octets ≡ header_octets (stated reply.now)) }
    ensures refused { IfErr result
        (λ e. (e ≡ WriteError.DoesNotFit)
        × (65535 < length reply.now.answer.now + length reply.now.authority.now
        + length reply.now.additional.now)) }
{
    let id = two_octets(reply.id);
    let questions = if reply.question.is_some() { 1 } else { 0 };
    let answers = count(reply.answer)?;
    let authorities = count(reply.authority)?;
    let additionals = count(reply.additional)?;
    let flags = 128
        + 8 * reply.opcode.number()
        + 4 * reply.aa as u8
        + 2 * reply.tc as u8
        + reply.rd as u8;
    Ok([
        id[0],
        id[1],
        flags,
        reply.rcode.number(),
        0,
        questions,
        answers[0],
        answers[1],
        authorities[0],
        authorities[1],
        additionals[0],
        additionals[1],
    ])
}

impl<'a> Compressor<'a> {
    /// Writes the question of a reply as it came, after the header.
    pub(crate) fn put_question(
        &mut self,
        question: &Option<EchoedQuestion<'a>>,
    ) -> Result<(), WriteError>
        requires header { length self.old.octets.items ≡ 12 }
        requires first { self.old.places ≡ [] }
        requires room { length self.old.octets.items ≤ self.old.limit }
        ensures written { OnOk result
            (Wrote self.old.limit self.old.octets.items self.new.octets.items self.new.limit self.new.places
            (asked (echo question.now))) }
        ensures refused { IfErr result
            (RefusesUpTo self.old.limit
            (length self.old.octets.items + length (asked (echo question.now)).octets)) }
    {
        if let Some(echo) = question {
            let name = echo.name.as_wire();
            self.put(echo.octets)?;
            self.places.begin(name);
        }
        Ok(())
    }

    /// Writes a reply: its header, its question and its records.
    #[inline(always)]
    fn put_reply(&mut self, reply: &Reply<'_, 'a>) -> Result<(), WriteError>
        requires empty { self.old.octets.items ≡ [] }
        requires first { self.old.places ≡ [] }
        requires small { self.old.limit < 65536 }
        ensures written { OnOk result
            ((self.new.octets.items ≡ text (stated reply.now))
            × (length self.new.octets.items ≤ self.old.limit)) }
        ensures refused { IfErr result (RefusesUpTo self.old.limit (length (text (stated reply.now)))) }
    {
        self.put(&header(reply)?)?;
        self.put_question(&reply.question)?;
        self.put_records(reply.answer)?;
        self.put_records(reply.authority)?;
        self.put_records(reply.additional)?;
        Ok(())
    }
}

impl Writer {
    /// The one compressed text of a reply (RFC 1035 section 4.1), if it has at most so many octets: a
    /// datagram takes 512, and the length before a message on a stream is at most 65,535 (RFC 1035
    /// section 4.2). It refuses with `DoesNotFit` where the text is longer, and with `OutOfMemory` where
    /// memory is wanting. It takes the memory of the spare octets, if they have room, and leaves none of
    /// them.
    pub fn write_over(
        alloc: Heap,
        spare: &mut Vec<u8, Heap>,
        reply: &Reply<'_, '_>,
        limit: usize,
    ) -> Result<Vec<u8, Heap>, WriteError>
        requires { limit < 65536 }
        ensures found { IfOk result
            (λ octets. (octets.items ≡ text (stated reply.now)) × (length octets.items ≤ limit)) }
        ensures refused { IfErr result (RefusesUpTo limit (length (text (stated reply.now)))) }
    {
        let mut compressor = Compressor {
            octets: Octets::over(alloc, spare, MOST)?,
            places: Places::new(alloc, FEW_PLACES),
            limit,
        };
        compressor.put_reply(reply)?;
        Ok(compressor.octets.into_vec())
    }

    /// The one compressed text of a reply, as `write_over` gives it, in memory of its own.
    pub fn write(
        alloc: Heap,
        reply: &Reply<'_, '_>,
        limit: usize,
    ) -> Result<Vec<u8, Heap>, WriteError>
        requires { limit < 65536 }
        ensures found { IfOk result
            (λ octets. (octets.items ≡ text (stated reply.now)) × (length octets.items ≤ limit)) }
        ensures refused { IfErr result (RefusesUpTo limit (length (text (stated reply.now)))) }
    {
        let mut spare = Vec::new(alloc);
        Writer::write_over(alloc, &mut spare, reply, limit)
    }
}

/// A reply has at most one compressed text, and the computed text is that, and reads as the reply. Each
/// record takes ten octets or more. The computed compression writes a name as it is to be written, and keeps
/// its table of targets right.
pub fn one_compressed_text()
    ensures once { (t u : List ℕ) (r : Stated) → IsCompressed t r → IsCompressed u r → t ≡ u }
    ensures compressed { (r : Stated) → IsReply r → IsCompressed (text r) r }
    ensures long { (r : Stated)
        → 12 + 10 * (length r.answer + length r.authority + length r.additional) ≤ length (text r) }
    ensures reads_back { (r : Stated) → IsReply r → Reads (text r) (message_of_reply r) }
    ensures written { (earlier : List Used) (places : List Place) (name : Labels)
        → AreThePlaces (OccursAt earlier) places
        → IsWritten (OccursAt earlier) name (compress_name places name) }
    ensures first { AreThePlaces (OccursAt []) [] }
    ensures next { (earlier : List Used) (places : List Place) (at : ℕ) (name : Labels)
        → AreThePlaces (OccursAt earlier) places
        → OccurBefore earlier at
        → AreThePlaces (OccursAt (and_written earlier places at name)) (places ++ new_places places at name) }
{}
