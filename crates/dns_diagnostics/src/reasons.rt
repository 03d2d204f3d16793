//! Why requests are refused: which test gives the code that a reply has. A reason is empty if the request was
//! answered.

use crate::outcome::{Answered, Outcome};
use crate::unread::why_no_request;
use dns_primary::Noted;
use dns_records::types;
use dns_request::Transport;
use dns_wire::{QuestionView, Rcode};

/// Why SERVFAIL goes out if memory was refused.
const NO_MEMORY: &str = "memory was refused";

/// Why a transfer or an update has NOTAUTH for the name of its zone.
const NO_APEX: &str = "no zone here has that name";

/// Why a transfer or an update has NOTAUTH for its class.
const NO_CLASS: &str = "its class is not IN";

/// Why an update has SERVFAIL if its zone takes none.
const IS_CLOSED: &str = "its zone takes no update since its device failed";

/// A code that none of the tests gives.
const UNKNOWN: &str = "for no test that is known";

/// Whether memory was refused to a request.
fn lacks_memory(answered: Answered) -> bool {
    match answered.noted {
        Noted::Nothing => false,
        Noted::OutOfMemory => answered.code == 2,
        Noted::Device(_) => false,
    }
}

/// Of octets that are no request, but have a header.
pub(crate) fn of_octets(answered: Answered, octets: &[u8]) -> Outcome {
    answered.because(match answered.code {
        1 => why_no_request(octets, answered.transport),
        4 => "its opcode is neither QUERY nor UPDATE",
        _ => UNKNOWN,
    })
}

/// Of a query for a type or in a class that isn't served.
pub(crate) fn of_unserved(answered: Answered) -> Outcome {
    if lacks_memory(answered) {
        return answered.because(NO_MEMORY);
    }
    answered.because(match answered.code {
        4 => "its type is MAILB or MAILA",
        5 => NO_CLASS,
        _ => UNKNOWN,
    })
}

/// Of a query.
pub(crate) fn of_query(answered: Answered) -> Outcome {
    if lacks_memory(answered) {
        return answered.because(NO_MEMORY);
    }
    answered.because(match answered.code {
        0 => "",
        2 => "the reply has over 65535 octets (RFC 1035 section 4.2.2)",
        3 => "",
        5 => "no zone here holds the name",
        _ => UNKNOWN,
    })
}

/// Of a request for a transfer (RFC 5936, RFC 1995), with its question.
pub(crate) fn of_transfer(answered: Answered, question: &QuestionView<'_>) -> Outcome {
    if lacks_memory(answered) {
        return answered.because(NO_MEMORY);
    }
    let by_udp = answered.transport == Transport::Udp;
    answered.because(match answered.code {
        0 => "",
        1 if question.qtype() == types::IXFR => {
            "its authority section is not the SOA of the client's version alone (RFC 1995 section 3)"
        }
        1 => "an AXFR goes by TCP alone (RFC 5936 section 4.2)",
        5 if by_udp => "its address is not in the zone's transfer list",
        5 =>
            "its address is not in the zone's transfer list, or a transfer is open on its connection",
        9 if question.qclass() != types::CLASS_IN => NO_CLASS,
        9 => NO_APEX,
        _ => UNKNOWN,
    })
}

/// Of an update that was answered at once, before it was judged (RFC 2136 sections 3.1 and 3.3), with the
/// question that names its zone.
pub(crate) fn of_update(answered: Answered, question: &QuestionView<'_>) -> Outcome {
    if lacks_memory(answered) {
        return answered.because(NO_MEMORY);
    }
    answered.because(match answered.code {
        1 => "the type of its zone section is not SOA (RFC 2136 section 3.1.1)",
        2 => IS_CLOSED,
        5 => "its address is not in the zone's update list",
        9 if question.qclass() != types::CLASS_IN => NO_CLASS,
        9 => NO_APEX,
        _ => UNKNOWN,
    })
}

/// Why an update that was judged has its code (RFC 2136 sections 3.2 and 3.4).
fn why_judged(code: u8) -> &'static str {
    match code {
        0 => "",
        1 => "a prerequisite or an item has not its form (RFC 2136 sections 3.2 and 3.4.1)",
        3 => "a prerequisite isn't met: a name is not in use (RFC 2136 section 2.4.4)",
        5 => {
            "an item adds a type that no zone here has, over 4096 octets of data or an NS at a wildcard, \
or the serial that is left is not greater"
        }
        6 => "a prerequisite isn't met: a name is in use (RFC 2136 section 2.4.5)",
        7 => "a prerequisite isn't met: an RRset exists (RFC 2136 section 2.4.3)",
        8 => {
            "a prerequisite isn't met: an RRset doesn't exist, or is not the one that is listed \
(RFC 2136 sections 2.4.1 and 2.4.2)"
        }
        10 => "a name is outside the zone",
        _ => UNKNOWN,
    }
}

/// Of an update that was judged, and whose reply waited with a code for a flush: with SERVFAIL if there was
/// no room for it. By the flush it has SERVFAIL if its zone is closed.
pub(crate) fn of_waited(waited: Rcode, code: u8) -> Outcome {
    let why = match (waited, code) {
        (Rcode::ServFail, _) => {
            "its zone has no room for it: too many records, or more sectors than a snapshot or a journal has"
        }
        (_, 2) => IS_CLOSED,
        _ => why_judged(code),
    };
    Outcome { code, why }
}
