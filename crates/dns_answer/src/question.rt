//! The reply to the one question of a query.
ghost use Rattle.std.specs.Prelude.{◌≡◌, ◌<◌, List, length, IfOk, IfSome};
ghost use Rattle.dns_wire.specs.Message.{Question};
ghost use Rattle.dns_wire.specs.Codes.{number_of_rcode};
ghost use Rattle.dns_wire.specs.Reply.{stated};
ghost use Rattle.dns_wire.specs.Text.{question_octets};
ghost use Rattle.dns_wire.specs.Building.{HasNoRecord};
ghost use Rattle.dns_lookup.specs.Lookup.{Found as Stated};
ghost use Rattle.dns_lookup.specs.Represented.{RepresentAll};
ghost use Rattle.dns_answer.specs.Answer.{with_question, answered, fitted};
ghost use Rattle.dns_lookup.specs.Lent.{IsFirst};
ghost use Rattle.dns_request.specs.Codes.{rcode_refused};
ghost use Rattle.dns_answer.specs.Echoes.{Echoes, AreReplyFor, AreReplyWithSections, IsReplyToFirst};
ghost use Rattle.dns_answer.specs.Found.{IfFound};
ghost use Rattle.dns_answer.specs.Short.{IsShortOf, with_lent};

use crate::codes::{is_authoritative, rcode_of};
use crate::fit::{fit, fit_first_sections, fit_question, most_records};
use crate::found_sections::{answer_count, server_count};
use crate::sections::Sections;
use crate::short::{LentSections, Short, lone_answer, short_reply};
use dns_lookup::{Found, resolve, search};
use dns_memory::Heap;
use dns_names::NameRef;
use dns_request::{RequestMessage, Transport};
use dns_wire::{EchoedQuestion, Message, Opcode, Rcode, Reply, Writer};
use dns_zone::{Zone, ZoneIndex};
use std::alloc::AllocError;

/// A question as it goes out again: its octets as they came, and its name.
fn echoed<'a>(octets: &'a [u8], name: NameRef<'a>) -> EchoedQuestion<'a>
    ensures octets { result.octets.now ≡ octets.now }
    ensures name { result.name ≡ name.entry }
{
    EchoedQuestion { octets, name }
}

/// A reply with the question and the records of its sections.
fn reply_with_question<'s, 'a>(
    message: &Message<'_>,
    question: EchoedQuestion<'a>,
    aa: bool,
    rcode: Rcode,
    sections: LentSections<'s, 'a>,
) -> Reply<'s, 'a>
    ensures stated { (q : Question)
        → Echoes message.now.octets q question.entry
        → stated result
        ≡ with_lent (with_question message.now.octets message.now.message q (number_of_rcode rcode)) aa
        sections.entry }
    ensures question { question_octets (stated result) ≡ question.entry.octets.now }
    ensures answer { result.answer.now ≡ sections.entry.answer.now }
    ensures authority { result.authority.now ≡ sections.entry.authority.now }
    ensures additional { result.additional.now ≡ sections.entry.additional.now }
{
    Reply {
        id: message.id(),
        opcode: Opcode::Query,
        aa,
        tc: false,
        rd: message.is_recursion_desired(),
        rcode,
        question: Some(question),
        answer: sections.answer,
        authority: sections.authority,
        additional: sections.additional,
    }
}

/// The reply to what a question finds, which has its question already. A section that can't go out is not
/// built.
fn reply_of_all_sections<'a, I: ZoneIndex>(
    alloc: Heap,
    spare: &mut Vec<u8, Heap>,
    zones: &'a [Zone<I>],
    reply: Reply<'_, 'a>,
    transport: Transport,
    found: &[Found<'a>],
) -> Result<Vec<u8, Heap>, AllocError>
    requires question { length (question_octets (stated reply)) < 65524 }
    requires found { (fs : List Stated) × RepresentAll zones.now fs found.now }
    requires bare { HasNoRecord (stated reply) }
    ensures { IfOk result
        (λ octets. AreReplyWithSections (stated reply.entry) zones.now found.now transport octets.items) }
{
    let most = most_records(transport);
    if answer_count(found) > most as usize || server_count(found) > most as usize {
        let mut reply = reply;
        return fit_question(alloc, spare, &mut reply, transport);
    }
    let sections = Sections::new(alloc, zones, found, most)?;
    let is_over = sections.has_more(most);
    let Sections {
        answer,
        authority,
        additional,
    } = sections;
    let mut first = Reply {
        answer: answer.as_slice(),
        authority: authority.as_slice(),
        additional: &[],
        ..reply
    };
    if is_over {
        return fit_first_sections(alloc, spare, &mut first, transport);
    }
    let mut whole = Reply {
        additional: additional.as_slice(),
        ..first
    };
    fit(alloc, spare, &mut whole, transport)
}

/// The reply to what a question finds, which has its question already. The shortest form is given.
#[inline(always)]
fn reply_of_short<'a, I: ZoneIndex>(
    alloc: Heap,
    spare: &mut Vec<u8, Heap>,
    zones: &'a [Zone<I>],
    reply: Reply<'_, 'a>,
    transport: Transport,
    found: &[Found<'a>],
    short: &Short<'a>,
) -> Result<Vec<u8, Heap>, AllocError>
    requires question { length (question_octets (stated reply)) < 65524 }
    requires found { (fs : List Stated) × RepresentAll zones.now fs found.now }
    requires bare { HasNoRecord (stated reply) }
    requires short { IfFound zones.now found.now (λ t fs. IsShortOf t fs short.now) }
    ensures { IfOk result
        (λ octets. AreReplyWithSections (stated reply.entry) zones.now found.now transport octets.items) }
{
    match short {
        Short::All => reply_of_all_sections(alloc, spare, zones, reply, transport, found),
        _ => {
            let sections = short.sections();
            let mut whole = Reply {
                answer: sections.answer,
                authority: sections.authority,
                additional: sections.additional,
                ..reply
            };
            if let Some(octets) = Writer::write_soa(alloc, spare, &whole)? {
                return Ok(octets);
            }
            fit(alloc, spare, &mut whole, transport)
        }
    }
}

/// The reply to a question whose name was searched. It is compiled apart, so that questions that one record
/// answers don't pay for it.
#[inline(never)]
fn reply_of_more<'a, I: ZoneIndex>(
    alloc: Heap,
    spare: &mut Vec<u8, Heap>,
    zones: &'a [Zone<I>],
    query: &RequestMessage<'_>,
    question: EchoedQuestion<'a>,
    transport: Transport,
    first: Found<'a>,
) -> Result<Vec<u8, Heap>, AllocError>
    requires question { length question.octets.now < 65524 }
    requires first { IsFirst zones.now query.now.question.qtype first }
    requires name { first.name ≡ question.name }
    ensures { IfOk result
        (λ octets. AreReplyFor query.now.message question.entry zones.now query.now.question.qtype transport
        octets.items) }
{
    let qtype = query.question.qtype();
    let searched = resolve(alloc, zones, first, qtype)?;
    let found = searched.as_slice();
    let aa = is_authoritative(found);
    let bare = reply_with_question(
        &query.message,
        question,
        aa,
        rcode_of(found),
        LentSections::none(),
    );
    let short = short_reply(alloc, zones, found);
    match &short {
        Ok(short) => reply_of_short(alloc, spare, zones, bare, transport, found, short),
        Err(AllocError) => Err(AllocError),
    }
}

/// The reply to a question whose name is under no held apex: REFUSED.
#[inline(never)]
fn reply_of_none(
    alloc: Heap,
    spare: &mut Vec<u8, Heap>,
    message: &Message<'_>,
    question: EchoedQuestion<'_>,
    transport: Transport,
) -> Result<Vec<u8, Heap>, AllocError>
    requires question { length question.octets.now < 65524 }
    ensures { IfOk result (λ octets. (q : Question)
        → Echoes message.now.octets q question.entry
        → octets.items
        ≡ fitted transport (with_question message.now.octets message.now.message q rcode_refused)) }
{
    let none = LentSections::none();
    let mut reply = reply_with_question(message, question, false, Rcode::Refused, none);
    fit(alloc, spare, &mut reply, transport)
}

/// The reply to a question whose name was searched, if one record answers it and is written in one piece.
/// Most questions are such, and their replies take no memory but for their octets.
#[inline(always)]
fn reply_of_one(
    alloc: Heap,
    spare: &mut Vec<u8, Heap>,
    message: &Message<'_>,
    question: &EchoedQuestion<'_>,
    first: &Found<'_>,
) -> Result<Option<Vec<u8, Heap>>, AllocError>
    requires { first.now.name ≡ question.now.name }
    ensures { IfOk result
        (λ reply. IfSome reply
        (λ octets. IsReplyToFirst message.now question.now first.now octets.items)) }
{
    let Some(one) = lone_answer(first) else {
        return Ok(None);
    };
    let desired = message.is_recursion_desired();
    Writer::write_one(alloc, spare, message.id(), desired, question, one)
}

/// The reply to a question: REFUSED where its name is under no held apex.
#[inline(always)]
fn answer<'a, I: ZoneIndex>(
    alloc: Heap,
    spare: &mut Vec<u8, Heap>,
    zones: &'a [Zone<I>],
    query: &RequestMessage<'_>,
    question: EchoedQuestion<'a>,
    transport: Transport,
) -> Result<Vec<u8, Heap>, AllocError>
    requires { length question.octets.now < 65524 }
    ensures { IfOk result
        (λ octets. AreReplyFor query.now.message question.entry zones.now query.now.question.qtype transport
        octets.items) }
{
    let message = &query.message;
    let qtype = query.question.qtype();
    let Some(first) = search(zones, question.name.reborrow(), qtype) else {
        return reply_of_none(alloc, spare, message, question, transport);
    };
    if let Some(octets) = reply_of_one(alloc, spare, message, &question, &first)? {
        return Ok(octets);
    }
    reply_of_more(alloc, spare, zones, query, question, transport, first)
}

/// The reply to a query whose name has capitals, which are lowered first. It is compiled apart, so that other
/// queries don't pay for it.
#[inline(never)]
fn reply_in_lower_case<I: ZoneIndex>(
    alloc: Heap,
    spare: &mut Vec<u8, Heap>,
    zones: &[Zone<I>],
    query: &RequestMessage<'_>,
    transport: Transport,
) -> Result<Vec<u8, Heap>, AllocError>
    ensures { IfOk result
        (λ octets. octets.items
        ≡ fitted transport
        (answered zones.now query.now.message.octets query.now.message.message query.now.question)) }
{
    let name = query.question.name().to_name(alloc)?;
    let question = echoed(query.message.question_octets(), name.lend());
    answer(alloc, spare, zones, query, question, transport)
}

/// The reply to a query, octet for octet as it is defined, with its question: what the lookup finds, or
/// REFUSED where its name is under no held apex. It takes the memory of the spare octets, if they have room,
/// and leaves none of them.
pub fn reply<I: ZoneIndex>(
    alloc: Heap,
    spare: &mut Vec<u8, Heap>,
    zones: &[Zone<I>],
    query: &RequestMessage<'_>,
    transport: Transport,
) -> Result<Vec<u8, Heap>, AllocError>
    ensures { IfOk result
        (λ octets. octets.items
        ≡ fitted transport
        (answered zones.now query.now.message.octets query.now.message.message query.now.question)) }
{
    let asked = query.question.name();
    let Some(name) = asked.as_plain() else {
        return reply_in_lower_case(alloc, spare, zones, query, transport);
    };
    let question = echoed(query.message.question_octets(), name);
    answer(alloc, spare, zones, query, question, transport)
}

/// The reply to a query that is not served: its question, and the response code.
pub fn refuse(
    alloc: Heap,
    query: &RequestMessage<'_>,
    rcode: Rcode,
    transport: Transport,
) -> Result<Vec<u8, Heap>, AllocError>
    ensures { IfOk result
        (λ octets. octets.items
        ≡ fitted transport
        (with_question query.now.message.octets query.now.message.message query.now.question
        (number_of_rcode rcode))) }
{
    let name = query.question.name().to_name(alloc)?;
    let octets = query.message.question_octets();
    let question = echoed(octets, name.lend());
    let none = LentSections::none();
    let mut reply = reply_with_question(&query.message, question, false, rcode, none);
    let mut spare = Vec::new(alloc);
    fit(alloc, &mut spare, &mut reply, transport)
}
