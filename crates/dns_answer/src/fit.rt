//! Replies fitted to their transport.
ghost use Rattle.std.specs.Prelude.{◌≡◌, ◌==◌, ◌+◌, ◌<◌, ◌≤◌, [], true, length, IfOk, MatchOption};
ghost use Rattle.std.specs.List.{list_all};
ghost use Rattle.dns_records.specs.Types.{type_ns};
ghost use Rattle.dns_wire.specs.Reply.{stated};
ghost use Rattle.dns_wire.specs.Text.{Reply as Stated, question_octets, text};
ghost use Rattle.dns_answer.specs.Fit.{is_referral, by_udp, by_udp_without_additional, by_tcp, failed};
ghost use Rattle.dns_answer.specs.Fit.{most_records, truncated};
ghost use Rattle.dns_answer.specs.Answer.{fitted};
ghost use Rattle.dns_answer.specs.Added.{IsWithoutAdditional, IsWithoutRecords};

use dns_memory::Heap;
use dns_records::types;
use dns_request::Transport;
use dns_wire::limits::{MOST_BY_TCP, MOST_BY_UDP};
use dns_wire::{Rcode, Reply, ReplyRecord, WriteError, Writer, one_compressed_text};
use std::alloc::AllocError;

/// The text of the reply, if it has at most so many octets. It takes the memory of the spare octets, as each
/// of the functions below does.
fn text_within(
    alloc: Heap,
    spare: &mut Vec<u8, Heap>,
    reply: &Reply<'_, '_>,
    limit: usize,
) -> Result<Option<Vec<u8, Heap>>, AllocError>
    requires { limit < 65536 }
    ensures { IfOk result
        (λ fits. MatchOption fits (limit < length (text (stated reply.now)))
        (λ octets. (octets.items ≡ text (stated reply.now)) × (length octets.items ≤ limit))) }
{
    match Writer::write_over(alloc, spare, reply, limit) {
        Ok(octets) => Ok(Some(octets)),
        Err(WriteError::DoesNotFit) => Ok(None),
        Err(WriteError::OutOfMemory) => Err(AllocError),
    }
}

/// The text of a reply that fits any transport.
fn short_text(
    alloc: Heap,
    spare: &mut Vec<u8, Heap>,
    reply: &Reply<'_, '_>,
) -> Result<Vec<u8, Heap>, AllocError>
    requires { length (text (stated reply.now)) < 65536 }
    ensures { IfOk result (λ octets. octets.items ≡ text (stated reply.now)) }
{
    match text_within(alloc, spare, reply, MOST_BY_TCP)? {
        Some(octets) => Ok(octets),
        None => unreachable!(),
    }
}

/// Whether each record is an NS.
fn are_servers(records: &[ReplyRecord<'_>]) -> bool
    ensures { result ≡ list_all (λ r. r.rtype == type_ns) records.now }
{
    records.iter().all(|one| one.rtype() == types::NS)
}

/// Whether the authority section is name servers alone.
fn is_referral(reply: &Reply<'_, '_>) -> bool
    ensures { result ≡ is_referral (stated reply.now) }
{
    !reply.authority.is_empty() & are_servers(reply.authority)
}

/// The header and the question of a reply, with TC (RFC 1035 section 4.1.1).
fn truncated(
    alloc: Heap,
    spare: &mut Vec<u8, Heap>,
    reply: &mut Reply<'_, '_>,
) -> Result<Vec<u8, Heap>, AllocError>
    requires { length (question_octets (stated reply.old)) < 65524 }
    ensures { IfOk result (λ octets. octets.items ≡ truncated (stated reply.old)) }
{
    reply.tc = true;
    reply.answer = &[];
    reply.authority = &[];
    reply.additional = &[];
    short_text(alloc, spare, reply)
}

/// SERVFAIL with the question of a reply.
fn failed(
    alloc: Heap,
    spare: &mut Vec<u8, Heap>,
    reply: &mut Reply<'_, '_>,
) -> Result<Vec<u8, Heap>, AllocError>
    requires { length (question_octets (stated reply.old)) < 65524 }
    ensures { IfOk result (λ octets. octets.items ≡ failed (stated reply.old)) }
{
    reply.aa = false;
    reply.rcode = Rcode::ServFail;
    reply.answer = &[];
    reply.authority = &[];
    reply.additional = &[];
    short_text(alloc, spare, reply)
}

/// A reply by UDP that doesn't fit whole: without its additional section, which is gone, unless it is a
/// referral; else truncated.
fn fit_without_additional(
    alloc: Heap,
    spare: &mut Vec<u8, Heap>,
    reply: &mut Reply<'_, '_>,
) -> Result<Vec<u8, Heap>, AllocError>
    requires question { length (question_octets (stated reply.old)) < 65524 }
    requires gone { reply.old.additional.now ≡ [] }
    ensures { IfOk result (λ octets. octets.items ≡ by_udp_without_additional (stated reply.old)) }
{
    if is_referral(reply) {
        return truncated(alloc, spare, reply);
    }
    if let Some(less) = text_within(alloc, spare, reply, MOST_BY_UDP)? {
        return Ok(less);
    }
    truncated(alloc, spare, reply)
}

/// Takes the additional section from a reply.
fn leave_additional_out(reply: &mut Reply<'_, '_>)
    ensures { stated reply.new ≡ record (stated reply.old) { additional = [] } }
{
    reply.additional = &[];
}

/// A reply by UDP: whole, else without its additional section unless it is a referral, else truncated.
fn fit_to_udp(
    alloc: Heap,
    spare: &mut Vec<u8, Heap>,
    reply: &mut Reply<'_, '_>,
) -> Result<Vec<u8, Heap>, AllocError>
    requires { length (question_octets (stated reply.old)) < 65524 }
    ensures { IfOk result (λ octets. octets.items ≡ by_udp (stated reply.old)) }
{
    if let Some(whole) = text_within(alloc, spare, reply, MOST_BY_UDP)? {
        return Ok(whole);
    }
    leave_additional_out(reply);
    fit_without_additional(alloc, spare, reply)
}

/// A reply by TCP: whole, else SERVFAIL with the question.
fn fit_to_tcp(
    alloc: Heap,
    spare: &mut Vec<u8, Heap>,
    reply: &mut Reply<'_, '_>,
) -> Result<Vec<u8, Heap>, AllocError>
    requires { length (question_octets (stated reply.old)) < 65524 }
    ensures { IfOk result (λ octets. octets.items ≡ by_tcp (stated reply.old)) }
{
    if let Some(whole) = text_within(alloc, spare, reply, MOST_BY_TCP)? {
        return Ok(whole);
    }
    failed(alloc, spare, reply)
}

/// The text of a reply that goes out by the transport. What can't go out is taken from the reply.
pub(crate) fn fit(
    alloc: Heap,
    spare: &mut Vec<u8, Heap>,
    reply: &mut Reply<'_, '_>,
    transport: Transport,
) -> Result<Vec<u8, Heap>, AllocError>
    requires { length (question_octets (stated reply.old)) < 65524 }
    ensures { IfOk result (λ octets. octets.items ≡ fitted transport (stated reply.old)) }
{
    match transport {
        Transport::Udp => fit_to_udp(alloc, spare, reply),
        Transport::Tcp => fit_to_tcp(alloc, spare, reply),
    }
}

/// How many records a text that fits the transport has at the most, each of ten octets or more.
pub(crate) fn most_records(transport: Transport) -> u16
    ensures { result ≡ most_records transport }
{
    match transport {
        Transport::Udp => 50,
        Transport::Tcp => 6552,
    }
}

/// The text of a reply with too many records for the transport, of which the additional ones are left out
/// here.
pub(crate) fn fit_first_sections(
    alloc: Heap,
    spare: &mut Vec<u8, Heap>,
    reply: &mut Reply<'_, '_>,
    transport: Transport,
) -> Result<Vec<u8, Heap>, AllocError>
    requires question { length (question_octets (stated reply.old)) < 65524 }
    requires gone { reply.old.additional.now ≡ [] }
    ensures { IfOk result
        (λ octets. (whole : Stated)
        → IsWithoutAdditional (stated reply.old) whole
        → most_records transport < length whole.answer + length whole.authority + length whole.additional
        → octets.items ≡ fitted transport whole) }
{
    one_compressed_text();
    match transport {
        Transport::Udp => fit_without_additional(alloc, spare, reply),
        Transport::Tcp => failed(alloc, spare, reply),
    }
}

/// The text of a reply with too many records for the transport in its first two sections, all of which are
/// left out here.
pub(crate) fn fit_question(
    alloc: Heap,
    spare: &mut Vec<u8, Heap>,
    reply: &mut Reply<'_, '_>,
    transport: Transport,
) -> Result<Vec<u8, Heap>, AllocError>
    requires { length (question_octets (stated reply.old)) < 65524 }
    ensures { IfOk result
        (λ octets. (whole : Stated)
        → IsWithoutRecords (stated reply.old) whole
        → most_records transport < length whole.answer + length whole.authority
        → octets.items ≡ fitted transport whole) }
{
    one_compressed_text();
    match transport {
        Transport::Udp => truncated(alloc, spare, reply),
        Transport::Tcp => failed(alloc, spare, reply),
    }
}
