//! A whole zone of 40,000 addresses, from a session to a secondary.
use dns_fixtures::zone;
use dns_memory::{Heap, heap};
use dns_request::{Request, Transport, classify};
use dns_secondary::{Progress, Secondary};
use dns_transfer::{Session, Version};
use dns_zone::{RecordList, Zone};
use std::alloc::AllocError;
use std::io::Write;
use std::test::Fail;

/// How many addresses there are.
pub(crate) const HOSTS: u32 = 40000;

/// A master file of a SOA, an NS and so many addresses.
pub(crate) fn file(heap: Heap, hosts: u32) -> Result<String<Heap>, AllocError> {
    let mut text = String::new(heap);
    text.push_str("$TTL 3600\n@ SOA ns host 7 7200 900 1209600 300\n@ NS ns\n")?;
    for host in 0..hosts {
        write!(text, "h{host:05} A 192.0.2.1\n")?;
    }
    Ok(text)
}

/// A request for the whole zone `w.` (RFC 5936 section 2.1).
const WHOLE: &[u8] = b"\0\x0c\0\0\0\x01\0\0\0\0\0\0\x01w\0\0\xfc\0\x01";

/// The answer to a request, with the whole zone.
fn answer(heap: Heap, zone: &Zone<RecordList>, request: &[u8]) -> Option<Session<RecordList>> {
    let Request::Transfer(request) = classify(request, Transport::Tcp) else {
        return None;
    };
    let version = Version { zone, changes: &[] };
    let opened = Session::open(heap, Some(version), true, &request, Transport::Tcp).ok()?;
    opened.ok()
}

/// How many messages are handed on until the answer is over, also for the one who sends it.
fn hand_on(
    heap: Heap,
    session: &mut Session<RecordList>,
    secondary: &mut Secondary<RecordList>,
) -> Option<u32> {
    for count in 1..1000u32 {
        let message = session.next_message(heap).ok()??;
        match secondary.feed(heap, &message).ok()? {
            Progress::More => {}
            Progress::Done if session.is_done() => return Some(count),
            _ => return None,
        }
    }
    None
}

/// How many messages are handed on to one who asks for a zone.
fn taken(
    heap: Heap,
    zone: &Zone<RecordList>,
    secondary: &mut Secondary<RecordList>,
) -> Option<u32> {
    let request = secondary.request(heap).ok()?;
    let mut session = answer(heap, zone, &request)?;
    hand_on(heap, &mut session, secondary)
}

/// Whether a zone is what is held.
fn is_held(zone: &Zone<RecordList>, secondary: &Secondary<RecordList>) -> bool {
    match secondary.held() {
        Some(held) => held.records().eq(zone.records()),
        None => false,
    }
}

/// How many messages one takes who asks for a zone by TCP and holds nothing before, and whether the zone is
/// held then.
fn messages(heap: Heap, zone: &Zone<RecordList>) -> Option<(u32, bool)> {
    let apex = zone.apex().clone().ok()?;
    let mut secondary = Secondary::new(heap, apex, None, 12, Transport::Tcp).ok()?;
    let count = taken(heap, zone, &mut secondary)?;
    Some((count, is_held(zone, &secondary)))
}

/// The same of the zone of the file.
fn messages_of_file(heap: Heap) -> Option<(u32, bool)> {
    let text = file(heap, HOSTS).ok()?;
    messages(heap, &zone(heap, "w.", text.as_str())?)
}

/// How many calls for memory opening a transfer of a zone with so many addresses makes.
fn calls(heap: Heap, hosts: u32) -> Option<u64> {
    let text = file(heap, hosts).ok()?;
    let zone = zone(heap, "w.", text.as_str())?;
    heap.refuse(0);
    let session = answer(heap, &zone, WHOLE)?;
    let calls = heap.calls();
    drop(session);
    Some(calls)
}

#[test]
fn forty_thousand_records(rt: HostRuntime) -> Result<(), Fail> {
    let heap = heap(rt.alloc())?;
    let (count, is_held) = messages_of_file(heap).ok_or("an answer that is over")?;
    assert!(rt; is_held && count > 40, "{count} messages");
    assert!(rt; calls(heap, 9).is_some() && calls(heap, HOSTS) <= calls(heap, 9));
    Ok(())
}
