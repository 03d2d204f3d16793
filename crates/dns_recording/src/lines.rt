//! The lines of a script, of what is reported of turns.
ghost use Rattle.std.specs.Prelude.{◌≡◌, ◌++◌, false, slice_get, slice_set, unwrap_or, OnOk};
ghost use Rattle.dns_primary.specs.Steps.{event_shown};
ghost use Rattle.dns_recording.specs.Script.{close_line, connect_line, datagram_line, event_scripted};
ghost use Rattle.dns_recording.specs.Script.{flush_line, has_found, is_stirred, message_line, note_scripted};
ghost use Rattle.dns_recording.specs.Script.{pump_scripted};

use dns_memory::Heap;
use dns_network::Note;
use dns_policy::print_address;
use dns_primary::{Effects, Event, Noted};
use std::io::{self, Write};
use std::net::IpAddr;

/// How many connections there may be.
pub(crate) const PLACES: usize = 64;

/// Sets what is known of the connection with a number, if there may be one.
fn set(stirred: &mut [bool; PLACES], number: usize, is_stirred: bool)
    ensures { stirred.new ≡ slice_set stirred.old number is_stirred }
{
    if number < stirred.len() {
        stirred[number] = is_stirred;
    }
}

/// Whether a message came on the connection with a number since a pump found nothing there.
fn is_stirred(stirred: &[bool; PLACES], number: usize) -> bool
    ensures { result ≡ is_stirred stirred.now number }
{
    match stirred.get(number) {
        Some(is_stirred) => *is_stirred,
        None => false,
    }
}

/// Whether a pump found something: a message goes out, or something is noted.
fn has_found(effects: &Effects) -> bool
    ensures { result ≡ has_found effects.now }
{
    if effects.message.is_some() {
        return true;
    }
    match effects.noted {
        Noted::Nothing => false,
        Noted::OutOfMemory => true,
        Noted::Device(_) => true,
    }
}

/// Appends the line of a datagram, unless it is empty.
fn add_datagram(lines: &mut Vec<u8, Heap>, address: IpAddr, octets: &[u8]) -> io::Result<()>
    ensures { OnOk result (lines.new.items ≡ lines.old.items ++ datagram_line address octets.now) }
{
    if octets.is_empty() {
        return Ok(());
    }
    let alloc = *lines.allocator();
    let text = hex::encode(alloc, octets)?;
    let address = print_address(address);
    writeln!(lines, "udp {address} {text}")
}

/// Appends the line of a message on a connection, unless it is empty.
fn add_message(lines: &mut Vec<u8, Heap>, number: usize, octets: &[u8]) -> io::Result<()>
    ensures { OnOk result (lines.new.items ≡ lines.old.items ++ message_line number octets.now) }
{
    if octets.is_empty() {
        return Ok(());
    }
    let alloc = *lines.allocator();
    let text = hex::encode(alloc, octets)?;
    writeln!(lines, "tcp {number} {text}")
}

/// Appends the line of a peer that connects.
fn add_connect(lines: &mut Vec<u8, Heap>, address: IpAddr) -> io::Result<()>
    ensures { OnOk result (lines.new.items ≡ lines.old.items ++ connect_line address) }
{
    let address = print_address(address);
    writeln!(lines, "connect {address}")
}

/// Appends the line of a pump, unless it found nothing on a connection on which no message came since.
fn add_pump(
    lines: &mut Vec<u8, Heap>,
    stirred: &mut [bool; PLACES],
    number: usize,
    found: bool,
) -> io::Result<()>
    ensures text { OnOk result
        (lines.new.items ≡ lines.old.items ++ (pump_scripted stirred.old number found).text) }
    ensures stirred { stirred.new ≡ (pump_scripted stirred.old number found).stirred }
{
    let is_told = found || is_stirred(stirred, number);
    set(stirred, number, found);
    if !is_told {
        return Ok(());
    }
    writeln!(lines, "pump {number}")
}

/// Appends what is written of a note, and keeps which connections are stirred.
pub(crate) fn add_note(
    lines: &mut Vec<u8, Heap>,
    stirred: &mut [bool; PLACES],
    note: Note,
) -> io::Result<()>
    ensures text { OnOk result
        (lines.new.items ≡ lines.old.items ++ (note_scripted stirred.old note).text) }
    ensures stirred { stirred.new ≡ (note_scripted stirred.old note).stirred }
{
    match note {
        Note::Opened(number, peer) => {
            set(stirred, number, false);
            add_connect(lines, peer.address)
        }
        Note::Closed(number) => writeln!(lines, "close {number}"),
        Note::Silent(_) => Ok(()),
        Note::Stalled(_) => Ok(()),
        Note::Refused => Ok(()),
        Note::OutOfMemory => Ok(()),
        Note::Device(_) => Ok(()),
        Note::Begins(_) => Ok(()),
        Note::Ends => Ok(()),
        Note::Unrecorded => Ok(()),
    }
}

/// Appends what is written of an event and its effects, and keeps which connections are stirred.
pub(crate) fn add_event(
    lines: &mut Vec<u8, Heap>,
    stirred: &mut [bool; PLACES],
    event: Event<'_>,
    effects: &Effects,
) -> io::Result<()>
    ensures text { OnOk result (lines.new.items ≡ lines.old.items
        ++ (event_scripted stirred.old (event_shown event.entry) effects.now).text) }
    ensures stirred { stirred.new
        ≡ (event_scripted stirred.old (event_shown event.entry) effects.now).stirred }
{
    match event {
        Event::Datagram(peer, octets) => add_datagram(lines, peer.address, octets),
        Event::Message(number, octets) => {
            set(stirred, number, true);
            add_message(lines, number, octets)
        }
        Event::Pump(number) => add_pump(lines, stirred, number, has_found(effects)),
        Event::Flush => writeln!(lines, "flush"),
        Event::Connect(_) => Ok(()),
        Event::Checkpoint(_) => Ok(()),
        Event::Closed(_) => Ok(()),
    }
}
