//! The request for a transfer: for a whole zone, or for the changes of a version that is held (RFC 5936
//! section 2.1, RFC 1995 section 3).
ghost use Rattle.std.specs.Prelude.{◌≡◌, ◌<◌, ◌≤◌, ◌^◌, length, IfOk, IfErr};
ghost use Rattle.std.specs.List.{AllByRecursion};
ghost use Rattle.dns_records.specs.Types.{class_in, type_soa};
ghost use Rattle.dns_records.specs.Record.{IsRecord};
ghost use Rattle.dns_wire.specs.Message.{Question};
ghost use Rattle.dns_wire.specs.Puts.{RefusesUpTo};
ghost use Rattle.dns_wire.specs.Reads.{Reads};
ghost use Rattle.dns_wire.specs.Reply.{stated};
ghost use Rattle.dns_request.specs.Request.{IsRequest, Transfer};
ghost use Rattle.dns_secondary.specs.Receiving.{type_asked};
ghost use Rattle.dns_secondary.specs.Request.{asked_octets, question_asked, soas_held, request_octets};
ghost use Rattle.dns_secondary.specs.Request.{request_message, most_by, as_reply};

use dns_memory::Heap;
use dns_names::Name;
use dns_records::Record;
use dns_records::types::{AXFR, CLASS_IN, IXFR};
use dns_request::Transport;
use dns_wire::limits::{MOST_BY_TCP, MOST_BY_UDP};
use dns_wire::{
    EchoedQuestion, Opcode, Rcode, Reply, ReplyRecord, WriteError, Writer, at_most_one,
    one_compressed_text,
};
use dns_zone::{Zone, ZoneIndex};
use std::alloc::AllocError;

/// The type of the request: the changes of a version that is held, else the whole zone.
pub(crate) fn type_asked<I: ZoneIndex>(held: &Option<Zone<I>>) -> u16
    ensures { result ≡ type_asked held.now }
{
    match held {
        Some(_) => IXFR,
        None => AXFR,
    }
}

/// The most octets that a message by that transport has (RFC 1035 section 4.2).
fn most_by(transport: Transport) -> usize
    ensures { result ≡ most_by transport }
{
    match transport {
        Transport::Udp => MOST_BY_UDP,
        Transport::Tcp => MOST_BY_TCP,
    }
}

/// The octets of the question (RFC 1035 section 4.1.2).
fn asked_octets(alloc: Heap, apex: &Name, qtype: u16) -> Result<Vec<u8, Heap>, AllocError>
    ensures { IfOk result
        (λ octets. octets.items
        ≡ asked_octets (record { name = apex.now; qtype = qtype; qclass = class_in })) }
{
    let mut octets = Vec::new(alloc);
    octets.extend_from_slice(apex.as_wire())?;
    octets.extend_from_slice(&qtype.to_be_bytes())?;
    octets.extend_from_slice(&CLASS_IN.to_be_bytes())?;
    Ok(octets)
}

/// A SOA as it is in the zone.
fn as_it_stands(soa: &Record) -> ReplyRecord<'_>
    ensures stated { result ≡ soa.now }
    ensures valid { IsRecord soa.now }
{
    let _data = soa.rdata();
    ReplyRecord::new(soa.owner().lend(), soa.ttl(), soa)
}

/// The SOA of the version that is held, if one is.
fn soas_held<I: ZoneIndex>(
    alloc: Heap,
    held: &Option<Zone<I>>,
) -> Result<Vec<ReplyRecord<'_>, Heap>, AllocError>
    ensures stated { IfOk result (λ records. records.items ≡ soas_held held.now) }
    ensures few { IfOk result (λ records. length (soas_held held.now) < 2 ^ 16) }
    ensures valid { IfOk result (λ records. AllByRecursion IsRecord (soas_held held.now)) }
    ensures soas { IfOk result (λ records. AllByRecursion (λ r. r.rtype ≡ type_soa) (soas_held held.now)) }
{
    let mut records = Vec::new(alloc);
    if let Some(zone) = held {
        records.push(as_it_stands(zone.soa()))?;
    }
    Ok(records)
}

/// What the request says, as a reply: its header has the bit QR.
fn as_reply<'s, 'a>(
    id: u16,
    question: EchoedQuestion<'a>,
    authority: &'s [ReplyRecord<'a>],
) -> Reply<'s, 'a>
    ensures { (q : Question)
        → question.entry.octets.now ≡ asked_octets q
        → question.entry.name ≡ q.name
        → stated result ≡ as_reply q id authority.now }
{
    Reply {
        id,
        opcode: Opcode::Query,
        aa: false,
        tc: false,
        rd: false,
        rcode: Rcode::NoError,
        question: Some(question),
        answer: &[],
        authority,
        additional: &[],
    }
}

/// The octets of the request, if they are no more than a message by that transport has.
pub(crate) fn request<I: ZoneIndex>(
    alloc: Heap,
    apex: &Name,
    held: &Option<Zone<I>>,
    id: u16,
    transport: Transport,
) -> Result<Vec<u8, Heap>, WriteError>
    ensures asked { IfOk result (λ octets. octets.items ≡ request_octets apex.now held.now id) }
    ensures read { IfOk result (λ octets. Reads octets.items (request_message apex.now held.now id)) }
    ensures door { IfOk result
        (λ octets. IsRequest octets.items transport
        (Transfer (request_message apex.now held.now id) (question_asked apex.now held.now))) }
    ensures fits { IfOk result (λ octets. length octets.items ≤ most_by transport) }
    ensures refused { IfErr result
        (RefusesUpTo (most_by transport) (length (request_octets apex.now held.now id))) }
{
    let octets = asked_octets(alloc, apex, type_asked(held))?;
    let question = EchoedQuestion {
        octets: octets.as_slice(),
        name: apex.lend(),
    };
    let soas = soas_held(alloc, held)?;
    let reply = as_reply(id, question, &soas);
    let mut request = Writer::write(alloc, &reply, most_by(transport))?;
    let _apex = apex.as_wire();
    one_compressed_text();
    at_most_one();
    request[2] = 0;
    Ok(request)
}
