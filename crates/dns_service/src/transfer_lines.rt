//! The lines of transfers that ended, or that a datagram asked for, and the transfers that are open.
ghost use Rattle.std.specs.Prelude.{◌≡◌, ◌++◌, ◌<◌, true, List, [], Option, Some, position, slice_get};
ghost use Rattle.std.specs.Prelude.{slice_index, OnOk, IfOk, IfSome};
ghost use Rattle.std.specs.declared.net.ip_addr.IpAddr.{IpAddr as StatedAddress};
ghost use Rattle.dns_names.specs.Name.{Labels, names_eq};
ghost use Rattle.dns_primary.specs.Steps.{event_shown};
ghost use Rattle.dns_request.specs.Request.{request_of};
ghost use Rattle.dns_request.specs.declared.request.Transport.TheVariants.{Udp};
ghost use Rattle.dns_service.specs.TransferLines.{after_message, after_pump, answered_text, answers_in};
ghost use Rattle.dns_service.specs.TransferLines.{brings_records, datagram_said, has_authority, open_on};
ghost use Rattle.dns_service.specs.TransferLines.{over_text, pump_said, serial_at_end, transfer_asked};
ghost use Rattle.dns_service.specs.TransferLines.{transfer_said, transfers_after, with_message};

use crate::slots::set;
use crate::update_lines::{address_on, code_of};
use dns_memory::Heap;
use dns_names::Name;
use dns_policy::print_address;
use dns_primary::{Effects, Event, Noted, Reply};
use dns_request::{Request, Transport, classify};
use std::alloc::AllocError;
use std::io::{self, ErrorKind, Write};
use std::net::IpAddr;

/// A transfer that is open on a connection.
#[derive(Clone, Copy)]
pub(crate) struct Transfer {
    /// The index of its zone.
    pub(crate) zone: usize,
    /// The serial of the version that is sent, if the message that was sent last is the last one.
    pub(crate) serial: u64,
    /// How many records were sent.
    pub(crate) records: u64,
}

/// The index of the first of these names that is the one.
fn index_of(origins: &[Name], name: &Name) -> Option<usize>
    ensures { result ≡ position (λ origin. names_eq origin name.now) origins.now }
{
    origins.iter().position(|origin| *origin == *name)
}

/// The transfer that octets ask for, before its first message.
fn asked(alloc: Heap, origins: &[Name], octets: &[u8]) -> Result<Option<Transfer>, AllocError>
    ensures { IfOk result (λ transfer. transfer ≡ transfer_asked origins.now octets.now) }
{
    match classify(octets, Transport::Tcp) {
        Request::Transfer(request) => {
            let name = request.question.name().to_name(alloc)?;
            match index_of(origins, &name) {
                Some(zone) => Ok(Some(Transfer {
                    zone,
                    serial: 0,
                    records: 0,
                })),
                None => Ok(None),
            }
        }
        Request::Ignored => Ok(None),
        Request::Refused(_, _) => Ok(None),
        Request::NotServed(_, _) => Ok(None),
        Request::Query(_) => Ok(None),
        Request::Update(_) => Ok(None),
    }
}

/// An octet of a message, or 0 after its end.
#[inline(always)]
fn octet_at(message: &[u8], index: usize) -> u64
    ensures octet { result ≡ slice_index message.now index }
    ensures small { result < 256 }
{
    match message.get(index) {
        Some(octet) => u64::from(*octet),
        None => 0,
    }
}

/// How many records a message counts in its answer section.
fn answers_in(message: &[u8]) -> u64
    ensures { result ≡ answers_in message.now }
{
    octet_at(message, 6) * 256 + octet_at(message, 7)
}

/// The serial that a message tells if it is the last of its transfer: of the SOA that it ends with (RFC 5936
/// section 2.2), whose last 20 octets are SERIAL and four numbers more (RFC 1035 section 3.3.13).
fn serial_at_end(message: &[u8]) -> u64
    ensures { result ≡ serial_at_end message.now }
{
    let at = message.len().saturating_sub(20);
    octet_at(message, at) * 16_777_216
        + octet_at(message, at + 1) * 65_536
        + octet_at(message, at + 2) * 256
        + octet_at(message, at + 3)
}

/// A transfer after one message more, or none if the count is at its end.
fn with_message(transfer: Transfer, message: &[u8]) -> Option<Transfer>
    ensures { IfSome result (λ after. after ≡ with_message transfer message.now) }
{
    let records = transfer.records.checked_add(answers_in(message))?;
    Some(Transfer {
        zone: transfer.zone,
        serial: serial_at_end(message),
        records,
    })
}

/// Keeps the transfer that a message opened, if it got no reply and nothing was noted of it.
fn keep_opened(
    alloc: Heap,
    origins: &[Name],
    transfers: &mut [Option<Transfer>],
    number: usize,
    octets: &[u8],
    effects: &Effects,
) -> Result<(), AllocError>
    ensures { OnOk result (transfers.new
        ≡ after_message origins.now transfers.old number octets.now effects.now.message effects.now.noted) }
{
    if effects.message.is_some() | (effects.noted != Noted::Nothing) {
        return Ok(());
    }
    if let Some(transfer) = asked(alloc, origins, octets)? {
        set(transfers, number, Some(transfer));
    }
    Ok(())
}

/// The transfer that is open on a connection.
fn open_on(transfers: &[Option<Transfer>], number: usize) -> Option<Transfer>
    ensures { result ≡ open_on transfers.now number }
{
    match transfers.get(number) {
        Some(transfer) => *transfer,
        None => None,
    }
}

/// Keeps what a pump made of the transfer on a connection: it has sent a message more, or it is over.
fn keep_pumped(
    transfers: &mut [Option<Transfer>],
    number: usize,
    effects: &Effects,
) -> io::Result<()>
    ensures { OnOk result (transfers.new
        ≡ after_pump transfers.old number (open_on transfers.old number) effects.now.message
        effects.now.noted) }
{
    let Some(transfer) = open_on(transfers, number) else {
        return Ok(());
    };
    match &effects.message {
        Some(reply) => {
            let Some(after) = with_message(transfer, reply.octets.as_slice()) else {
                return Err(ErrorKind::Other.into());
            };
            set(transfers, number, Some(after));
        }
        None => {
            if effects.noted == Noted::Nothing {
                set(transfers, number, None);
            }
        }
    }
    Ok(())
}

/// Keeps what an event makes of the open transfers.
pub(crate) fn keep_transfers(
    alloc: Heap,
    origins: &[Name],
    transfers: &mut [Option<Transfer>],
    event: Event<'_>,
    effects: &Effects,
) -> io::Result<()>
    ensures { OnOk result (transfers.new
        ≡ transfers_after origins.now transfers.old (event_shown event.entry) effects.now) }
{
    match event {
        Event::Message(number, octets) => {
            Ok(keep_opened(alloc, origins, transfers, number, octets, effects)?)
        }
        Event::Pump(number) => keep_pumped(transfers, number, effects),
        Event::Datagram(_, _) => Ok(()),
        Event::Connect(_) => Ok(()),
        Event::Flush => Ok(()),
        Event::Checkpoint(_) => Ok(()),
        Event::Closed(_) => Ok(()),
    }
}

/// Appends the line of a transfer that is over.
fn add_over_line(
    lines: &mut Vec<u8, Heap>,
    address: IpAddr,
    origin: &Name,
    serial: u64,
    records: u64,
) -> io::Result<()>
    ensures { OnOk result (lines.new.items ≡ lines.old.items
        ++ over_text (Some address) (Some origin.now) serial records) }
{
    let address = print_address(address);
    writeln!(
        lines,
        "transfer {address} {origin} {serial} records {records}"
    )
}

/// Appends the line of a transfer that is over, if its peer and its zone are known.
fn add_over(
    lines: &mut Vec<u8, Heap>,
    origins: &[Name],
    address: Option<IpAddr>,
    transfer: Transfer,
) -> io::Result<()>
    ensures { OnOk result (lines.new.items ≡ lines.old.items
        ++ over_text address (slice_get origins.now transfer.zone) transfer.serial transfer.records) }
{
    let Some(address) = address else {
        return Ok(());
    };
    let Some(origin) = origins.get(transfer.zone) else {
        return Ok(());
    };
    add_over_line(lines, address, origin, transfer.serial, transfer.records)
}

/// Appends the line of the transfer that a pump finds over, if it is.
fn add_pumped(
    lines: &mut Vec<u8, Heap>,
    origins: &[Name],
    address: Option<IpAddr>,
    transfer: Option<Transfer>,
    effects: &Effects,
) -> io::Result<()>
    ensures { OnOk result (lines.new.items ≡ lines.old.items
        ++ pump_said origins.now address transfer effects.now.message effects.now.noted) }
{
    if effects.message.is_some() | (effects.noted != Noted::Nothing) {
        return Ok(());
    }
    match transfer {
        Some(transfer) => add_over(lines, origins, address, transfer),
        None => Ok(()),
    }
}

/// Whether a message has a record in its authority section, as an IXFR has (RFC 1995 section 3).
#[inline(always)]
fn has_authority(message: &[u8]) -> bool
    ensures { result ≡ has_authority message.now }
{
    octet_at(message, 8) * 256 + octet_at(message, 9) != 0
}

/// Whether a reply brings records: it has some, and no error.
fn brings_records(reply: &[u8]) -> bool
    ensures { result ≡ brings_records reply.now }
{
    code_of(reply) == 0 && answers_in(reply) != 0
}

/// Appends the line of the transfer that a datagram asked for, if it did, given the octets of its reply.
fn add_answered(
    lines: &mut Vec<u8, Heap>,
    address: IpAddr,
    octets: &[u8],
    reply: &[u8],
) -> io::Result<()>
    ensures { OnOk result (lines.new.items ≡ lines.old.items
        ++ answered_text address (request_of octets.now Udp) reply.now) }
{
    match classify(octets, Transport::Udp) {
        Request::Transfer(request) => {
            let name = request.question.name().to_name(*lines.allocator())?;
            let (serial, records) = (serial_at_end(reply), answers_in(reply));
            add_over_line(lines, address, &name, serial, records)
        }
        Request::Ignored => Ok(()),
        Request::Refused(_, _) => Ok(()),
        Request::NotServed(_, _) => Ok(()),
        Request::Query(_) => Ok(()),
        Request::Update(_) => Ok(()),
    }
}

/// Appends the line of the transfer that answers a datagram, if one does.
fn add_datagram(
    lines: &mut Vec<u8, Heap>,
    address: IpAddr,
    octets: &[u8],
    reply: &Option<Reply>,
) -> io::Result<()>
    ensures { OnOk result (lines.new.items ≡ lines.old.items
        ++ datagram_said address octets.now reply.now) }
{
    let Some(reply) = reply else {
        return Ok(());
    };
    let reply = reply.octets.as_slice();
    if has_authority(octets) && brings_records(reply) {
        return add_answered(lines, address, octets, reply);
    }
    Ok(())
}

/// Appends the line of the transfer that an event ends, or that answers it, if there is one.
pub(crate) fn add_transfer(
    lines: &mut Vec<u8, Heap>,
    origins: &[Name],
    addresses: &[Option<IpAddr>],
    transfers: &[Option<Transfer>],
    event: Event<'_>,
    effects: &Effects,
) -> io::Result<()>
    ensures { OnOk result (lines.new.items ≡ lines.old.items
        ++ transfer_said origins.now addresses.now transfers.now (event_shown event.entry) effects.now) }
{
    match event {
        Event::Pump(number) => {
            let address = address_on(addresses, number);
            add_pumped(lines, origins, address, open_on(transfers, number), effects)
        }
        Event::Datagram(peer, octets) => {
            add_datagram(lines, peer.address, octets, &effects.message)
        }
        Event::Message(_, _) => Ok(()),
        Event::Connect(_) => Ok(()),
        Event::Flush => Ok(()),
        Event::Checkpoint(_) => Ok(()),
        Event::Closed(_) => Ok(()),
    }
}

/// Whether an event changes no open transfer, and no transfer has a line for it.
#[inline(always)]
pub(crate) fn is_beside_transfers(
    transfers: &[Option<Transfer>],
    event: Event<'_>,
    effects: &Effects,
) -> bool
    ensures still { result ≡ true → (origins : List Labels)
        → transfers_after origins transfers.now (event_shown event.entry) effects.now ≡ transfers.now }
    ensures silent { result ≡ true → (origins : List Labels) (addresses : List (Option StatedAddress))
        → transfer_said origins addresses transfers.now (event_shown event.entry) effects.now ≡ [] }
{
    match event {
        Event::Datagram(_, octets) => !has_authority(octets),
        Event::Message(_, _) => effects.message.is_some(),
        Event::Pump(number) => open_on(transfers, number).is_none(),
        Event::Connect(_) => true,
        Event::Flush => true,
        Event::Checkpoint(_) => true,
        Event::Closed(_) => true,
    }
}
