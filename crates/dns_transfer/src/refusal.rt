//! Why a transfer is refused, and the serial that its client has.
ghost use Rattle.std.specs.Prelude.{◌≡◌, ◌⊎◌, true, IfOk};
ghost use Rattle.std.specs.Option.{option_map};
ghost use Rattle.dns_records.specs.Record.{IsRData, serial_of};
ghost use Rattle.dns_records.specs.Refusals.{RefusesData};
ghost use Rattle.dns_records.specs.Types.{type_soa};
ghost use Rattle.dns_wire.specs.Codes.{number_of_rcode};
ghost use Rattle.dns_wire.specs.Message.{record_of_item, data_of_item};
ghost use Rattle.dns_transfer.specs.Refusal.{client_serial, is_client_soa, is_malformed, refusal};

use dns_memory::Heap;
use dns_records::RecordError;
use dns_records::types::{CLASS_IN, IXFR, SOA};
use dns_request::{RequestMessage, Transport};
use dns_wire::{QuestionView, Rcode, RecordView};
use std::alloc::AllocError;

/// Whether the record is the SOA of a version of the zone that is asked for (RFC 1995 section 3).
fn is_client_soa(
    alloc: Heap,
    question: &QuestionView<'_>,
    item: &RecordView<'_>,
) -> Result<bool, AllocError>
    ensures { IfOk result (λ is. is ≡ is_client_soa question.now item.now) }
{
    let zone = question.name().to_name(alloc)?;
    let owner = item.owner().to_name(alloc)?;
    let rdata = item.rdata(alloc)?;
    let is_owner = owner.lend().is(&zone.lend());
    let is_soa = is_owner & (item.rtype() == SOA) & (item.class() == CLASS_IN);
    Ok(is_soa & !rdata.is_empty())
}

/// What is said of the data of a SOA that is refused though it has its form: memory was.
fn refused_memory(error: RecordError, item: &RecordView<'_>) -> AllocError
    requires soa { item.now.rtype ≡ type_soa }
    requires form { IsRData type_soa item.now.rdata }
    requires refused { (error ≡ RecordError.OutOfMemory) ⊎ RefusesData (data_of_item item.now) error }
    ensures { error ≡ RecordError.OutOfMemory }
{
    match error {
        RecordError::OutOfMemory => AllocError,
        RecordError::BadData => unreachable!(),
        RecordError::TooLong => unreachable!(),
        RecordError::UnknownType => unreachable!(),
    }
}

/// The serial of a SOA of a message (RFC 1035 section 3.3.13).
fn serial_of(alloc: Heap, soa: &RecordView<'_>) -> Result<u32, AllocError>
    requires soa { soa.now.rtype ≡ type_soa }
    requires form { IsRData type_soa soa.now.rdata }
    ensures { IfOk result (λ serial. serial ≡ serial_of (record_of_item soa.now)) }
{
    match soa.to_record(alloc) {
        Ok(record) => Ok(record.serial()),
        Err(error) => Err(refused_memory(error, soa)),
    }
}

/// The serial that the client has: that of the SOA which is alone in the authority section of an IXFR
/// (RFC 1995 section 3).
pub fn client_serial(alloc: Heap, request: &RequestMessage<'_>) -> Result<Option<u32>, AllocError>
    ensures { IfOk result
        (λ serial. serial ≡ client_serial request.now.question request.now.message.message.authorities) }
{
    let _octets = request.message.octets();
    let mut authorities = request.message.authorities();
    if authorities.len() != 1 {
        return Ok(None);
    }
    let Some(item) = authorities.next() else {
        return Ok(None);
    };
    if !is_client_soa(alloc, &request.question, &item)? {
        return Ok(None);
    }
    Ok(Some(serial_of(alloc, &item)?))
}

/// Whether it is an IXFR without the SOA of the client's version (RFC 1995 section 3), or an AXFR by UDP
/// (RFC 5936 section 4.2).
fn is_malformed(transport: Transport, question: &QuestionView<'_>, client: Option<u32>) -> bool
    ensures { result ≡ is_malformed transport question.now client }
{
    if question.qtype() == IXFR {
        return client.is_none();
    }
    match transport {
        Transport::Udp => true,
        Transport::Tcp => false,
    }
}

/// The response code of a transfer that is refused, if it is: the first that applies.
///
/// - FORMERR, which goes out as a header alone: an AXFR by UDP, or an IXFR without the SOA of the client's
///   version.
/// - NOTAUTH: the name is no apex that is held, or the class isn't IN.
/// - REFUSED: the peer may not have the zone, or has a transfer on its connection already.
pub fn refusal_of(
    transport: Transport,
    question: &QuestionView<'_>,
    client: Option<u32>,
    held: bool,
    allowed: bool,
) -> Option<Rcode>
    ensures { option_map number_of_rcode result ≡ refusal transport question.now client held allowed }
{
    if is_malformed(transport, question, client) {
        return Some(Rcode::FormErr);
    }
    if (question.qclass() != CLASS_IN) | !held {
        return Some(Rcode::NotAuth);
    }
    if !allowed {
        return Some(Rcode::Refused);
    }
    None
}
