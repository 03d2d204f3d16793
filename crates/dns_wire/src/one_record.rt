//! Replies whose answer is one record under the name of their question, written in one piece: most replies
//! are such.
ghost use Rattle.std.specs.Prelude.{◌≡◌, ◌≤◌, length, IfOk, IfSome};
ghost use Rattle.dns_wire.specs.OneRecord.{answer_header, one_answer, record_head};
ghost use Rattle.dns_wire.specs.Text.{text};

use crate::octets::{MOST, Octets};
use crate::record_put::may_hold_name;
use crate::{EchoedQuestion, Writer};
use byteorder::{BigEndian, ByteOrder};
use dns_memory::Heap;
use dns_records::Record;
use dns_records::types::CLASS_IN;
use std::alloc::AllocError;

/// How many octets the header has, and those of a record before its data, if a pointer is its owner.
pub(crate) const FRONT: usize = 12;

/// The header of an authoritative answer with one question and one record (RFC 1035 section 4.1.1).
#[inline(always)]
fn answer_header(id: u16, rd: bool) -> [u8; FRONT]
    ensures { result ≡ answer_header id rd }
{
    let mut octets = [0, 0, 132 + u8::from(rd), 0, 0, 1, 0, 1, 0, 0, 0, 0];
    BigEndian::write_u16(&mut octets, id);
    octets
}

/// The octets of a record before its data, whose owner is a pointer to the name after the header (RFC 1035
/// sections 4.1.3 and 4.1.4).
#[inline(always)]
fn record_head(rtype: u16, ttl: u32, size: u16) -> [u8; FRONT]
    ensures { result ≡ record_head rtype ttl size }
{
    let mut octets = [192, 12, 0, 0, 0, 0, 0, 0, 0, 0, 0, 0];
    BigEndian::write_u16(&mut octets[2..], rtype);
    BigEndian::write_u16(&mut octets[4..], CLASS_IN);
    BigEndian::write_u32(&mut octets[6..], ttl);
    BigEndian::write_u16(&mut octets[10..], size);
    octets
}

impl Writer {
    /// The one compressed text of the authoritative reply to a question that is answered by one record under
    /// the question's name, if it is written in one piece: that needs a name other than the root, data
    /// without a name to compress, and room in 512 octets. It takes the memory of the spare octets, if they
    /// have room, and leaves none of them.
    #[inline(always)]
    pub fn write_one(
        alloc: Heap,
        spare: &mut Vec<u8, Heap>,
        id: u16,
        rd: bool,
        question: &EchoedQuestion<'_>,
        one: &Record,
    ) -> Result<Option<Vec<u8, Heap>>, AllocError>
        ensures { IfOk result (λ written. IfSome written
            (λ octets. (octets.items ≡ text (one_answer id rd question.now one.now))
            × (length octets.items ≤ 512))) }
    {
        let (asked, rdata) = (question.octets, one.rdata());
        let size = 2 * FRONT + asked.len() + rdata.len();
        if size > MOST || question.name.as_wire().len() < 2 || may_hold_name(one.rtype()) {
            return Ok(None);
        }
        let mut octets = Octets::over(alloc, spare, size)?;
        octets.put(&answer_header(id, rd))?;
        octets.put(asked)?;
        octets.put(&record_head(one.rtype(), one.ttl(), rdata.len() as u16))?;
        octets.put(rdata)?;
        Ok(Some(octets.into_vec()))
    }
}
