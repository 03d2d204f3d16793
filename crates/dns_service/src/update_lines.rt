//! The lines of updates that were answered, and of requests that were refused at once.
ghost use Rattle.std.specs.Prelude.{◌≡◌, ◌++◌, true, false, List, [], Option, Some, OnOk, IfOk};
ghost use Rattle.std.specs.declared.net.ip_addr.IpAddr.{IpAddr as StatedAddress};
ghost use Rattle.dns_names.specs.Name.{Labels};
ghost use Rattle.dns_primary.specs.Step.{Event as StatedEvent};
ghost use Rattle.dns_primary.specs.Steps.{event_shown};
ghost use Rattle.dns_primary.specs.To.{octets_in};
ghost use Rattle.dns_service.specs.declared.log.Counts.{Counts as StatedCounts};
ghost use Rattle.dns_service.specs.Log.{IsAdded};
ghost use Rattle.dns_service.specs.UpdateLines.{address_on, asked_said, code_word, event_said, reply_code};
ghost use Rattle.dns_service.specs.UpdateLines.{header_said};
ghost use Rattle.dns_service.specs.UpdateLines.{headers_said, is_refusal, refusal_said, refusal_line};
ghost use Rattle.dns_service.specs.UpdateLines.{asker_text, denied_text, done_text, full_text, reply_said};
ghost use Rattle.dns_service.specs.UpdateLines.{update_said, no_error_text};
ghost use Rattle.dns_service.specs.Verdict.{by_verdict, line_verdict};

use crate::log::{Counts, judge};
use dns_memory::Heap;
use dns_names::Name;
use dns_policy::print_address;
use dns_primary::{Effects, Event, HeaderTo, Reply};
use dns_request::{Request, Transport, classify};
use dns_wire::{QuestionView, Rcode};
use std::io::{self, ErrorKind, Write};
use std::net::IpAddr;

/// The word of a response code (RFC 1035 section 4.1.1, RFC 2136 section 2.2).
fn code_word(code: u8) -> &'static str
    ensures { result.now ≡ code_word code }
{
    match code {
        0 => "NOERROR",
        1 => "FORMERR",
        2 => "SERVFAIL",
        3 => "NXDOMAIN",
        4 => "NOTIMP",
        5 => "REFUSED",
        6 => "YXDOMAIN",
        7 => "YXRRSET",
        8 => "NXRRSET",
        9 => "NOTAUTH",
        10 => "NOTZONE",
        _ => "RESERVED",
    }
}

/// The response code of a reply, the low half of its fourth octet (RFC 1035 section 4.1.1).
#[inline(always)]
pub(crate) fn code_of(reply: &[u8]) -> u8
    ensures { result ≡ reply_code reply.now }
{
    match reply.get(3) {
        Some(octet) => *octet % 16,
        None => 0,
    }
}

/// Appends whose update it was, and of which zone.
fn add_asker(lines: &mut Vec<u8, Heap>, address: IpAddr, origin: &Name) -> io::Result<()>
    ensures { OnOk result (lines.new.items ≡ lines.old.items ++ asker_text address origin.now) }
{
    let address = print_address(address);
    write!(lines, "update {address} {origin}")
}

/// Appends which version came of an update, to the end of its line.
fn add_version(lines: &mut Vec<u8, Heap>, version: u64, serial: u32) -> io::Result<()>
    ensures { OnOk result (lines.new.items ≡ lines.old.items ++ no_error_text version serial) }
{
    writeln!(lines, " NOERROR version {version} serial {serial}")
}

/// Appends the line of an update that was done.
fn add_done(
    lines: &mut Vec<u8, Heap>,
    address: IpAddr,
    origin: &Name,
    version: u64,
    serial: u32,
) -> io::Result<()>
    ensures { OnOk result (lines.new.items ≡ lines.old.items
        ++ done_text address origin.now version serial) }
{
    add_asker(lines, address, origin)?;
    add_version(lines, version, serial)
}

/// Appends the line of a request that was refused with a code.
fn add_refused_line(
    lines: &mut Vec<u8, Heap>,
    kind: &str,
    address: IpAddr,
    zone: &Name,
    code: u8,
) -> io::Result<()>
    ensures { OnOk result (lines.new.items ≡ lines.old.items
        ++ refusal_line kind.now address zone.now code) }
{
    let address = print_address(address);
    let word = code_word(code);
    writeln!(lines, "{kind} {address} {zone} {word}")
}

/// Appends that a zone has no room, if the reply to an update was to say so.
fn add_full(lines: &mut Vec<u8, Heap>, origin: &Name, rcode: Rcode) -> io::Result<()>
    ensures { OnOk result (lines.new.items ≡ lines.old.items ++ full_text origin.now rcode) }
{
    match rcode {
        Rcode::ServFail => writeln!(lines, "full {origin}"),
        _ => Ok(()),
    }
}

/// Appends the lines of an update that was refused after a flush, unless peers have caused too many, and
/// returns the counts after it.
fn add_denied(
    lines: &mut Vec<u8, Heap>,
    origin: &Name,
    counts: Counts,
    header: &HeaderTo,
) -> io::Result<Counts>
    ensures { IfOk result (λ after.
        IsAdded (by_verdict (line_verdict false counts) (denied_text origin.now header.now)) lines.old.items
        lines.new.items after) }
{
    let Some((is_written, after)) = judge(false, counts) else {
        return Err(ErrorKind::Other.into());
    };
    if is_written {
        let waited = header.waited;
        add_refused_line(
            lines,
            "update",
            waited.address,
            origin,
            code_of(&header.octets),
        )?;
        add_full(lines, origin, waited.rcode)?;
    }
    Ok(after)
}

/// Appends what is reported of an update of a zone that was answered after a flush, and returns the counts
/// after it.
fn add_update(
    lines: &mut Vec<u8, Heap>,
    origin: &Name,
    counts: Counts,
    header: &HeaderTo,
) -> io::Result<Counts>
    ensures { IfOk result (λ after.
        IsAdded (update_said (Some origin.now) counts header.now) lines.old.items lines.new.items after) }
{
    if code_of(&header.octets) == 0 {
        let waited = header.waited;
        add_done(lines, waited.address, origin, waited.version, waited.serial)?;
        return Ok(counts);
    }
    add_denied(lines, origin, counts, header)
}

/// Appends what is reported of an update that was answered after a flush, and returns the counts after it.
fn add_header(
    lines: &mut Vec<u8, Heap>,
    origins: &[Name],
    counts: Counts,
    header: &HeaderTo,
) -> io::Result<Counts>
    ensures { IfOk result (λ after.
        IsAdded (header_said origins.now counts header.now) lines.old.items lines.new.items after) }
{
    match origins.get(header.waited.zone) {
        Some(origin) => add_update(lines, origin, counts, header),
        None => Ok(counts),
    }
}

/// Appends what is reported of updates that were answered after a flush, in their order, and returns the
/// counts after it.
fn add_headers(
    lines: &mut Vec<u8, Heap>,
    origins: &[Name],
    counts: Counts,
    headers: &[HeaderTo],
) -> io::Result<Counts>
    ensures { IfOk result (λ after.
        IsAdded (headers_said origins.now counts headers.now) lines.old.items lines.new.items after) }
{
    let mut after = counts;
    for header in headers {
        after = add_header(lines, origins, after, header)?;
    }
    Ok(after)
}

/// Appends the line of a request that was refused at once, unless peers have caused too many, and returns the
/// counts after it.
fn add_refused(
    lines: &mut Vec<u8, Heap>,
    counts: Counts,
    kind: &str,
    address: IpAddr,
    question: &QuestionView<'_>,
    code: u8,
) -> io::Result<Counts>
    ensures { IfOk result (λ after.
        IsAdded (by_verdict (line_verdict false counts)
        (refusal_line kind.now address question.now.name code)) lines.old.items lines.new.items after) }
{
    let Some((is_written, after)) = judge(false, counts) else {
        return Err(ErrorKind::Other.into());
    };
    if is_written {
        let name = question.name().to_name(*lines.allocator())?;
        add_refused_line(lines, kind, address, &name, code)?;
    }
    Ok(after)
}

/// Appends what is reported of octets that came and were refused at once: of an update, or a request for a
/// transfer.
fn add_asked(
    lines: &mut Vec<u8, Heap>,
    counts: Counts,
    address: IpAddr,
    octets: &[u8],
    transport: Transport,
    code: u8,
) -> io::Result<Counts>
    ensures { IfOk result (λ after.
        IsAdded (asked_said counts address octets.now transport code) lines.old.items lines.new.items after) }
{
    match classify(octets, transport) {
        Request::Update(request) => {
            add_refused(lines, counts, "update", address, &request.question, code)
        }
        Request::Transfer(request) => {
            add_refused(lines, counts, "transfer", address, &request.question, code)
        }
        Request::Ignored => Ok(counts),
        Request::Refused(_, _) => Ok(counts),
        Request::NotServed(_, _) => Ok(counts),
        Request::Query(_) => Ok(counts),
    }
}

/// The address of the peer of a connection, if it is known.
pub(crate) fn address_on(addresses: &[Option<IpAddr>], number: usize) -> Option<IpAddr>
    ensures { result ≡ address_on addresses.now number }
{
    match addresses.get(number) {
        Some(address) => *address,
        None => None,
    }
}

/// Appends what is reported of an event that was refused at once with a code.
fn add_refusal(
    lines: &mut Vec<u8, Heap>,
    addresses: &[Option<IpAddr>],
    counts: Counts,
    event: Event<'_>,
    code: u8,
) -> io::Result<Counts>
    ensures { IfOk result (λ after.
        IsAdded (refusal_said addresses.now counts (event_shown event.entry) code) lines.old.items
        lines.new.items after) }
{
    match event {
        Event::Datagram(peer, octets) => {
            add_asked(lines, counts, peer.address, octets, Transport::Udp, code)
        }
        Event::Message(number, octets) => match address_on(addresses, number) {
            Some(address) => add_asked(lines, counts, address, octets, Transport::Tcp, code),
            None => Ok(counts),
        },
        Event::Connect(_) => Ok(counts),
        Event::Flush => Ok(counts),
        Event::Checkpoint(_) => Ok(counts),
        Event::Pump(_) => Ok(counts),
        Event::Closed(_) => Ok(counts),
    }
}

/// Whether a code refuses a request: all but NOERROR and NXDOMAIN, which tell what was found, do.
#[inline(always)]
fn is_refusal(code: u8) -> bool
    ensures { result ≡ is_refusal code }
{
    (code != 0) & (code != 3)
}

/// Appends what is reported of the reply to what came.
fn add_reply(
    lines: &mut Vec<u8, Heap>,
    addresses: &[Option<IpAddr>],
    counts: Counts,
    event: Event<'_>,
    reply: &Option<Reply>,
) -> io::Result<Counts>
    ensures { IfOk result (λ after.
        IsAdded (reply_said addresses.now counts (event_shown event.entry) reply.now) lines.old.items
        lines.new.items after) }
{
    let Some(reply) = reply else {
        return Ok(counts);
    };
    let code = code_of(reply.octets.as_slice());
    if !is_refusal(code) {
        return Ok(counts);
    }
    add_refusal(lines, addresses, counts, event, code)
}

/// Appends what is reported of an event and its effects, and returns the counts after it.
pub(crate) fn add_event(
    lines: &mut Vec<u8, Heap>,
    origins: &[Name],
    addresses: &[Option<IpAddr>],
    counts: Counts,
    event: Event<'_>,
    effects: &Effects,
) -> io::Result<Counts>
    ensures { IfOk result (λ after.
        IsAdded (event_said origins.now addresses.now counts (event_shown event.entry) effects.now)
        lines.old.items lines.new.items after) }
{
    let after = add_headers(lines, origins, counts, effects.headers.as_slice())?;
    add_reply(lines, addresses, after, event, &effects.message)
}

/// Whether a reply has no line, whatever it answers.
#[inline(always)]
fn is_answer(reply: &Option<Reply>) -> bool
    ensures { result ≡ true
        → (addresses : List (Option StatedAddress)) (counts : StatedCounts) (event : StatedEvent)
        → reply_said addresses counts event reply.now ≡ ([], counts) }
{
    match reply {
        Some(reply) => !is_refusal(code_of(reply.octets.as_slice())),
        None => true,
    }
}

/// Whether effects have no line, whatever the event: no update is answered, and nothing refused.
#[inline(always)]
pub(crate) fn have_no_line(effects: &Effects) -> bool
    ensures said { result ≡ true
        → (origins : List Labels) (addresses : List (Option StatedAddress)) (counts : StatedCounts)
        (event : StatedEvent) → event_said origins addresses counts event effects.now ≡ ([], counts) }
    ensures unanswered { result ≡ true → effects.now.headers.items ≡ [] }
{
    effects.headers.is_empty() && is_answer(&effects.message)
}
