//! The lines of requests.

use crate::asker::Asker;
use crate::lines::{Lines, REQUESTS};
use crate::outcome::{Answered, Outcome, code_of};
use crate::reasons::{of_octets, of_query, of_transfer, of_unserved, of_update, of_waited};
use crate::words::AskedType;
use dns_memory::Heap;
use dns_names::Name;
use dns_primary::{Effects, HeaderTo, Noted, Reply};
use dns_request::{Request, Transport, classify};
use dns_wire::QuestionView;
use log::{Level, LevelFilter};
use std::alloc::AllocError;

/// Octets that came, where from and how.
#[derive(Clone, Copy)]
pub(crate) struct Came<'a> {
    pub(crate) asker: Asker,
    pub(crate) octets: &'a [u8],
    pub(crate) transport: Transport,
}

/// The line of octets that are no request.
fn octets_line(heap: Heap, asker: Asker, outcome: Outcome) -> Result<String<Heap>, AllocError> {
    format!(in heap; "request from {asker}: {outcome}")
}

/// The line of a query.
fn query_line(
    heap: Heap,
    asker: Asker,
    question: &QuestionView<'_>,
    outcome: Outcome,
) -> Result<String<Heap>, AllocError> {
    let name = question.name().to_name(heap)?;
    let asked = AskedType(question.qtype());
    format!(in heap; "query from {asker} for {name} {asked}: {outcome}")
}

/// The line of an update of the zone with this name.
fn update_line(
    heap: Heap,
    asker: Asker,
    zone: &Name,
    outcome: Outcome,
) -> Result<String<Heap>, AllocError> {
    format!(in heap; "update from {asker} of {zone}: {outcome}")
}

/// The line of an update that was answered at once.
fn refused_update_line(
    heap: Heap,
    asker: Asker,
    question: &QuestionView<'_>,
    outcome: Outcome,
) -> Result<String<Heap>, AllocError> {
    let zone = question.name().to_name(heap)?;
    update_line(heap, asker, &zone, outcome)
}

/// The line of a request for a transfer.
fn transfer_line(
    heap: Heap,
    asker: Asker,
    question: &QuestionView<'_>,
    outcome: Outcome,
) -> Result<String<Heap>, AllocError> {
    let zone = question.name().to_name(heap)?;
    let asked = AskedType(question.qtype());
    format!(in heap; "transfer from {asker} of {zone} {asked}: {outcome}")
}

/// The line of a transfer that was opened.
fn opened_line(
    heap: Heap,
    asker: Asker,
    question: &QuestionView<'_>,
) -> Result<String<Heap>, AllocError> {
    let zone = question.name().to_name(heap)?;
    let asked = AskedType(question.qtype());
    format!(in heap; "transfer from {asker} of {zone} {asked}: begun")
}

/// The line of octets that get no reply.
fn ignored_line(heap: Heap, asker: Asker) -> Result<String<Heap>, AllocError> {
    format!(in heap; "octets from {asker}: no reply, they are a response or have no whole header")
}

/// Keeps the line of a request that was answered at once.
fn keep_answered(lines: &mut Lines, most: LevelFilter, came: Came<'_>, answered: Answered) {
    let (heap, asker) = (lines.heap(), came.asker);
    let request = classify(came.octets, came.transport);
    let outcome = outcome_of(&request, came.octets, answered);
    let level = outcome.level();
    if !most.allows(level) {
        return;
    }
    let text = match &request {
        Request::Ignored => ignored_line(heap, asker),
        Request::Refused(_, _) => octets_line(heap, asker, outcome),
        Request::NotServed(query, _) => query_line(heap, asker, &query.question, outcome),
        Request::Query(query) => query_line(heap, asker, &query.question, outcome),
        Request::Update(update) => refused_update_line(heap, asker, &update.question, outcome),
        Request::Transfer(transfer) => transfer_line(heap, asker, &transfer.question, outcome),
    };
    lines.keep(level, REQUESTS, text);
}

/// What became of a request that was answered at once.
fn outcome_of(request: &Request<'_>, octets: &[u8], answered: Answered) -> Outcome {
    match request {
        Request::Ignored => answered.because(""),
        Request::Refused(_, _) => of_octets(answered, octets),
        Request::NotServed(_, _) => of_unserved(answered),
        Request::Query(_) => of_query(answered),
        Request::Update(update) => of_update(answered, &update.question),
        Request::Transfer(transfer) => of_transfer(answered, &transfer.question),
    }
}

/// Keeps the line of octets that got no reply at once: of those that never get one, and of a transfer that is
/// open now. An update has its line when its reply goes out.
fn keep_unanswered(lines: &mut Lines, came: Came<'_>, noted: Noted) {
    let (heap, asker) = (lines.heap(), came.asker);
    let text = match classify(came.octets, came.transport) {
        Request::Ignored => ignored_line(heap, asker),
        Request::Transfer(transfer) if noted == Noted::Nothing => {
            opened_line(heap, asker, &transfer.question)
        }
        _ => return,
    };
    lines.keep(Level::Trace, REQUESTS, text);
}

/// Whether a reply refuses a request: NOERROR and NXDOMAIN tell what was found.
#[inline]
fn is_refusal(reply: &Option<Reply>) -> bool {
    match reply {
        Some(reply) => {
            let code = code_of(reply.octets.as_slice());
            (code != 0) & (code != 3)
        }
        None => false,
    }
}

/// Keeps the line of octets that came, and of what became of them.
pub(crate) fn keep_came(lines: &mut Lines, most: LevelFilter, came: Came<'_>, effects: &Effects) {
    let is_traced = most.allows(Level::Trace);
    if !is_traced && !is_refusal(&effects.message) {
        return;
    }
    let noted = effects.noted;
    match &effects.message {
        Some(reply) => {
            let answered = Answered {
                code: code_of(reply.octets.as_slice()),
                transport: came.transport,
                noted,
            };
            keep_answered(lines, most, came, answered);
        }
        None => keep_unanswered(lines, came, noted),
    }
}

/// Keeps the line of an update that was answered after a flush.
fn keep_header(lines: &mut Lines, most: LevelFilter, origins: &[Name], header: &HeaderTo) {
    let waited = header.waited;
    let outcome = of_waited(waited.rcode, code_of(&header.octets));
    let level = outcome.level();
    if !most.allows(level) {
        return;
    }
    if let Some(origin) = origins.get(waited.zone) {
        let asker = Asker::Address(waited.address);
        let text = update_line(lines.heap(), asker, origin, outcome);
        lines.keep(level, REQUESTS, text);
    }
}

/// Keeps the lines of updates that were answered after a flush, in their order.
pub(crate) fn keep_headers(
    lines: &mut Lines,
    most: LevelFilter,
    origins: &[Name],
    headers: &[HeaderTo],
) {
    for header in headers {
        keep_header(lines, most, origins, header);
    }
}
