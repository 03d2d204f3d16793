//! The tests of a request, in their order.
ghost use Rattle.std.specs.Prelude.{◌≡◌, ◌==◌, ◌<◌, ◌≤◌, true, [], ◌∷◌, length};
ghost use Rattle.dns_wire.specs.Message.{Message as Stated, header_of};
ghost use Rattle.dns_wire.specs.Reads.{Reads};
ghost use Rattle.dns_request.specs.Request.{counts_as_request, has_counts, message_as, question_as};
ghost use Rattle.dns_request.specs.Request.{request_of, too_long};
ghost use Rattle.dns_request.specs.Shown.{IsOf, request_shown};

use crate::{Request, RequestMessage, Transport};
use dns_records::types;
use dns_wire::limits::MOST_BY_UDP;
use dns_wire::{Message, Opcode, QuestionView, Rcode, at_most_one, header};

/// Whether the octets are more than the transport takes (RFC 1035 section 4.2.1).
fn is_too_long(octets: &[u8], transport: Transport) -> bool
    ensures { result ≡ too_long transport octets.now }
{
    match transport {
        Transport::Udp => octets.len() > MOST_BY_UDP,
        Transport::Tcp => false,
    }
}

/// Whether the header counts one question, no additional records, and answers in an update alone
/// (RFC 1035 section 4.1.1).
#[inline(always)]
fn counts_as_request(octets: &[u8]) -> bool
    requires { 12 ≤ length octets.now }
    ensures { (m : Stated) → Reads octets.now m → result ≡ counts_as_request m }
{
    let is_update = header::opcode(octets) == Opcode::Update.number();
    let has_no_answers = header::answer_count(octets) == 0;
    (header::question_count(octets) == 1)
        & (header::additional_count(octets) == 0)
        & (is_update | has_no_answers)
}

/// Whether a message whose header has the counts of a request has them in its authority section: in a query
/// it has no records but those of an IXFR (RFC 1995 section 3).
fn has_counts(message: &Message<'_>, question: &QuestionView<'_>) -> bool
    requires one { message.now.message.questions ≡ question.now ∷ [] }
    requires counts { counts_as_request message.now.message ≡ true }
    ensures { result ≡ has_counts message.now.message question.now }
{
    let is_update = message.opcode() == Opcode::Update.number();
    let is_ixfr = question.qtype() == types::IXFR;
    is_update | (message.authority_count() == 0) | is_ixfr
}

/// A message with its one question, by its kind, its type and its class.
#[inline(always)]
fn by_question(request: RequestMessage<'_>) -> Request<'_>
    ensures request { request_shown result
        ≡ question_as request.entry.message.message request.entry.question }
    ensures of { IsOf request.entry.message.octets result }
{
    if request.message.opcode() == Opcode::Update.number() {
        return Request::Update(request);
    }
    let qtype = request.question.qtype();
    if (qtype == types::IXFR) | (qtype == types::AXFR) {
        return Request::Transfer(request);
    }
    if (qtype == types::MAILB) | (qtype == types::MAILA) {
        return Request::NotServed(request, Rcode::NotImp);
    }
    if request.question.qclass() != types::CLASS_IN {
        return Request::NotServed(request, Rcode::Refused);
    }
    Request::Query(request)
}

/// A message, by its questions and its counts.
#[inline(always)]
fn by_message<'a>(message: Message<'a>, header: &'a [u8; 12]) -> Request<'a>
    requires header { header_of header.now ≡ header_of message.octets }
    requires counts { counts_as_request message.message ≡ true }
    ensures request { request_shown result
        ≡ message_as message.entry.message message.entry.message.questions }
    ensures of { IsOf message.entry.octets result }
{
    match message.question() {
        Some(question) if has_counts(&message, &question) => {
            by_question(RequestMessage { message, question })
        }
        _ => Request::Refused(header, Rcode::FormErr),
    }
}

/// What the octets are as a request: of the tests, in this order, the first that applies decides.
///
/// - Fewer than 12 octets, or a response: ignored.
/// - An OPCODE other than QUERY and UPDATE: NOTIMP.
/// - More than 512 octets by UDP; a number of questions other than one; additional records; in a query
///   records in the answer section: FORMERR. These are counts of the header, so nothing is read for them.
/// - No message; in a query records in the authority section unless the type is IXFR: FORMERR.
/// - An update; a question of type IXFR or AXFR: as they are called.
/// - A question of type MAILB or MAILA: NOTIMP. In a class other than IN: REFUSED.
/// - Else a query.
#[inline(always)]
pub fn classify(octets: &[u8], transport: Transport) -> Request<'_>
    ensures request { request_shown result ≡ request_of octets.now transport }
    ensures of { IsOf octets.now result }
{
    let Some(header) = octets.first_chunk::<12>() else {
        return Request::Ignored;
    };
    if header::is_response(octets) {
        return Request::Ignored;
    }
    if Opcode::from_number(header::opcode(octets)).is_none() {
        return Request::Refused(header, Rcode::NotImp);
    }
    if is_too_long(octets, transport) {
        return Request::Refused(header, Rcode::FormErr);
    }
    at_most_one();
    if !counts_as_request(octets) {
        return Request::Refused(header, Rcode::FormErr);
    }
    match Message::read(octets) {
        Ok(message) => by_message(message, header),
        Err(_) => Request::Refused(header, Rcode::FormErr),
    }
}
