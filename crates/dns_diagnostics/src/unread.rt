//! Why octets are no request.

use dns_request::Transport;
use dns_wire::limits::MOST_BY_UDP;
use dns_wire::{Message, Opcode, ReadError, header};

/// Why octets are no message (RFC 1035 section 4.1).
fn why_no_message(error: ReadError) -> &'static str {
    match error {
        ReadError::Short => "the message has no whole header",
        ReadError::BadPointer => {
            "the message is not well formed: a pointer of a name leads to the header, or not backwards"
        }
        ReadError::ReservedLabel => {
            "the message is not well formed: a label of a name has a reserved length"
        }
        ReadError::NameTooLong => "the message is not well formed: a name has over 255 octets",
        ReadError::Cut =>
            "the message is not well formed: it ends before all that its header counts",
        ReadError::Trailing => {
            "the message is not well formed: octets are left after all that its header counts"
        }
        ReadError::BadData => {
            "the message is not well formed: the data of a record has not the form of its type"
        }
    }
}

/// Which count of the header no request has, or nothing.
fn why_not_counted(octets: &[u8], is_update: bool) -> &'static str {
    if octets.len() < header::HEADER_LEN {
        return "the message has no whole header";
    }
    if header::question_count(octets) != 1 {
        return "it has not one question";
    }
    if header::additional_count(octets) != 0 {
        return "it has additional records, as those of EDNS and TSIG, which are not served";
    }
    if !is_update && header::answer_count(octets) != 0 {
        return "it is a query, and has records in its answer section";
    }
    ""
}

/// Which test refused octets with FORMERR: they are made in the order in which they were made before.
pub(crate) fn why_no_request(octets: &[u8], transport: Transport) -> &'static str {
    if transport == Transport::Udp && octets.len() > MOST_BY_UDP {
        return "it has over 512 octets, and came by UDP (RFC 1035 section 4.2.1)";
    }
    let is_update = match octets.get(2) {
        Some(octet) => *octet / 8 % 16 == Opcode::Update.number(),
        None => false,
    };
    let why = why_not_counted(octets, is_update);
    if !why.is_empty() {
        return why;
    }
    match Message::read(octets) {
        Err(error) => why_no_message(error),
        Ok(_) => "it is a query other than IXFR, and has records in its authority section",
    }
}
