//! Transfers that are sent, and one that is fed.
use crate::calls::{Refused, Told, refusal, zone};
use dns_changes::Change;
use dns_memory::Heap;
use dns_request::{Request, Transport, classify};
use dns_secondary::{Fault, Progress, Secondary};
use dns_transfer::{Session, Version};
use dns_wire::Message;
use dns_zone::{RecordList, Zone};

/// The session that a request opens.
fn opened(
    heap: Heap,
    zone: &Zone<RecordList>,
    changes: &[Change],
    octets: &[u8],
) -> Result<Session<RecordList>, Refused> {
    let Request::Transfer(request) = classify(octets, Transport::Tcp) else {
        return Err(Refused::Otherwise);
    };
    let version = Version { zone, changes };
    match Session::open(heap, Some(version), true, &request, Transport::Tcp)? {
        Ok(session) => Ok(session),
        Err(_) => Err(Refused::Otherwise),
    }
}

/// How many answers a message has.
fn answers(octets: &[u8]) -> Told {
    match Message::read(octets) {
        Ok(message) => Ok(usize::from(message.answer_count())),
        Err(_) => Err(Refused::Otherwise),
    }
}

/// How many answers the only message has. Where memory is refused, the next call gives it.
fn message_of(heap: Heap, session: &mut Session<RecordList>) -> Told {
    match session.next_message(heap) {
        Ok(Some(message)) if session.is_done() => answers(&message),
        Ok(_) => Err(Refused::Otherwise),
        Err(_) => {
            let is_given = matches!(&session.next_message(heap), Ok(Some(_)));
            Err(refusal(is_given && session.is_done()))
        }
    }
}

/// The same of the whole zone.
pub(crate) fn sent(heap: Heap, octets: &[u8]) -> Told {
    let zone = zone(heap)?;
    message_of(heap, &mut opened(heap, &zone, &[], octets)?)
}

/// A request for the changes of `example.` from serial 7.
const IXFR: &[u8] =
    b"\0\x0c\0\0\0\x01\0\0\0\x01\0\0\x07example\0\0\xfb\0\x01\xc0\x0c\0\x06\0\x01\0\0\0\0\0\x16\0\0\0\0\0\
\x07\0\0\0\0\0\0\0\0\0\0\0\0\0\0\0\0";

/// The same of a change that led to a zone.
pub(crate) fn sent_to(heap: Heap, zone: &Zone<RecordList>, change: &Change) -> Told {
    let changes = std::slice::from_ref(change);
    message_of(heap, &mut opened(heap, zone, changes, IXFR)?)
}

/// The serial of the version that is held, and how many records it has.
fn held(secondary: &Secondary<RecordList>) -> (u32, usize) {
    match secondary.held() {
        Some(zone) => (zone.soa().serial(), zone.records().count()),
        None => (0, 0),
    }
}

/// How many records are held, of serial 8, when an answer is fed. Where memory is refused, serial 7 is held,
/// and the next call takes it.
fn taken(heap: Heap, secondary: &mut Secondary<RecordList>, octets: &[u8]) -> Told {
    secondary.request(heap)?;
    let told = secondary.feed(heap, octets);
    let (serial, count) = held(secondary);
    match (told, serial) {
        (Ok(Progress::Done), 8) => Ok(count),
        (Err(Fault::OutOfMemory), 7) => {
            let again = secondary.feed(heap, octets);
            Err(refusal(again == Ok(Progress::Done)))
        }
        _ => Err(Refused::Otherwise),
    }
}

/// The same of one who holds the zone and asks for its changes by UDP.
pub(crate) fn fed(heap: Heap, octets: &[u8]) -> Told {
    let held = zone(heap)?;
    let apex = held.apex().clone()?;
    let mut secondary = Secondary::new(heap, apex, Some(held), 12, Transport::Udp)?;
    taken(heap, &mut secondary, octets)
}
