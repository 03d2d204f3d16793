//! The effects of an event in print, a line each.
ghost use Rattle.std.specs.Prelude.{flat_map, length, map, slice_get, OnOk, Some};
ghost use Rattle.std.specs.Io.KnownBytes.{Appends};
ghost use Rattle.dns_primary.specs.Keeps.{AreEffects, header_out};
ghost use Rattle.dns_primary.specs.Step.{Effects as Stated};
ghost use Rattle.dns_primary.specs.Steps.{event_shown};
ghost use Rattle.dns_primary.specs.Machine.{Machine};
ghost use Rattle.dns_primary.specs.Keeps.{IsKept};
ghost use Rattle.dns_replay.specs.Scripts.{printed_effects, printed_noted, printed_number, printed_refusal};
ghost use Rattle.dns_replay.specs.Scripts.{printed_reply, printed_stop};
ghost use Rattle.dns_replay.specs.Scripts.{printed_to, recovered_line, recovered_zone, recovered_zones};
ghost use Rattle.dns_replay.specs.Scripts.{refusal_word, refused_line};
ghost use Rattle.dns_replay.specs.Runs.{replies_out};

use crate::device::ScriptDevice;
use crate::events::version_at;
use dns_memory::Heap;
use dns_names::Name;
use dns_policy::print_address;
use dns_primary::{Effects, Event, HeaderTo, Noted, Primary, To};
use dns_store::{KeptStore, OpenError};
use dns_zone::ZoneIndex;
use std::fmt;
use std::io::{self, Write};

/// Where a reply goes.
#[derive(Drop)]
struct Destination(To);

impl fmt::Display for Destination {
    ghost output = { λ d. Some (printed_to d.0) };

    fn fmt<W: fmt::Write>(&self, f: &mut fmt::Formatter<W>) -> fmt::Result {
        match self.0 {
            To::Address(peer) => write!(f, "udp {}", print_address(peer.address)),
            To::Connection(number) => write!(f, "tcp {number}"),
            To::Nowhere => Ok(()),
        }
    }
}

/// Prints a reply: where it goes, and its octets.
fn print_reply<W: Write>(alloc: Heap, to: To, octets: &[u8], out: &mut W) -> io::Result<()>
    ensures { OnOk result
        (Appends (W.contents out.old) (W.contents out.new) (printed_reply (to, octets.now))) }
{
    let text = hex::encode(alloc, octets)?;
    writeln!(out, "{} {text}", Destination(to))
}

/// Prints replies that are a header alone.
fn print_headers<W: Write>(alloc: Heap, headers: &[HeaderTo], out: &mut W) -> io::Result<()>
    ensures { OnOk result
        (Appends (W.contents out.old) (W.contents out.new)
        (flat_map printed_reply (map header_out headers.now))) }
{
    for header in headers {
        print_reply(alloc, header.waited.to, &header.octets, out)?;
    }
    Ok(())
}

/// Prints the number of a new connection, or that there is none.
fn print_number<W: Write>(accepted: Option<usize>, out: &mut W) -> io::Result<()>
    ensures { OnOk result (Appends (W.contents out.old) (W.contents out.new) (printed_number accepted)) }
{
    match accepted {
        Some(number) => writeln!(out, "conn {number}"),
        None => writeln!(out, "conn none"),
    }
}

/// Prints the zone whose device failed first, if one did.
fn print_noted<W: Write>(origins: &[Name], noted: Noted, out: &mut W) -> io::Result<()>
    ensures { OnOk result
        (Appends (W.contents out.old) (W.contents out.new) (printed_noted origins.now noted)) }
{
    let Noted::Device(index) = noted else {
        return Ok(());
    };
    match origins.get(index) {
        Some(origin) => writeln!(out, "device {origin}"),
        None => Ok(()),
    }
}

/// Prints the replies of an event: those that waited, and then the one to what came.
fn print_replies<W: Write>(alloc: Heap, effects: &Effects, out: &mut W) -> io::Result<()>
    ensures { OnOk result
        (Appends (W.contents out.old) (W.contents out.new)
        (flat_map printed_reply (replies_out effects.now))) }
{
    print_headers(alloc, effects.headers.as_slice(), out)?;
    match &effects.message {
        Some(reply) => print_reply(alloc, reply.to, reply.octets.as_slice(), out),
        None => Ok(()),
    }
}

/// Prints the effects of an event.
pub(crate) fn print_effects<W: Write>(
    alloc: Heap,
    origins: &[Name],
    event: Event<'_>,
    effects: &Effects,
    out: &mut W,
) -> io::Result<()>
    ensures { OnOk result
        ((stated : Stated)
        → AreEffects stated effects.now
        → Appends (W.contents out.old) (W.contents out.new)
        (printed_effects origins.now (event_shown event.entry) stated)) }
{
    print_replies(alloc, effects, out)?;
    if let Event::Connect(_) = event {
        print_number(effects.accepted, out)?;
    }
    print_noted(origins, effects.noted, out)
}

/// Prints that a stop fell.
pub(crate) fn print_stop<W: Write>(out: &mut W) -> io::Result<()>
    ensures { OnOk result (Appends (W.contents out.old) (W.contents out.new) printed_stop) }
{
    writeln!(out, "stopped")
}

/// Prints a zone after a crash: the number of the version that is shown, and its serial.
fn print_recovered_zone<W: Write>(
    origin: &Name,
    number: u64,
    serial: u32,
    out: &mut W,
) -> io::Result<()>
    ensures { OnOk result
        (Appends (W.contents out.old) (W.contents out.new) (recovered_line origin.now number serial)) }
{
    writeln!(out, "recovered {origin} version {number} serial {serial}")
}

/// Prints the zone at a position after a crash.
fn print_recovered_at<D: ScriptDevice, I: ZoneIndex, W: Write>(
    origins: &[Name],
    primary: &Primary<I, KeptStore<D, I>>,
    index: usize,
    out: &mut W,
) -> io::Result<()>
    ensures { OnOk result
        ((m : Machine) → IsKept primary.now m → Appends (W.contents out.old) (W.contents out.new)
        (recovered_zone (slice_get origins.now index) (slice_get m.zones index))) }
{
    let Some(origin) = origins.get(index) else {
        return Ok(());
    };
    match version_at(primary, index) {
        Some((number, serial)) => print_recovered_zone(origin, number, serial, out),
        None => Ok(()),
    }
}

/// Prints all zones after a crash.
pub(crate) fn print_recovered<D: ScriptDevice, I: ZoneIndex, W: Write>(
    origins: &[Name],
    primary: &Primary<I, KeptStore<D, I>>,
    out: &mut W,
) -> io::Result<()>
    ensures { OnOk result
        ((m : Machine) → IsKept primary.now m → Appends (W.contents out.old) (W.contents out.new)
        (recovered_zones origins.now m.zones (length origins.now))) }
{
    for index in 0..origins.len() {
        print_recovered_at(origins, primary, index, out)?;
    }
    Ok(())
}

/// Why a store is refused.
#[derive(Drop)]
struct Refusal(OpenError);

impl fmt::Display for Refusal {
    ghost output = { λ r. Some (refusal_word r.0) };

    fn fmt<W: fmt::Write>(&self, f: &mut fmt::Formatter<W>) -> fmt::Result {
        match self.0 {
            OpenError::Device => write!(f, "Device"),
            OpenError::Blank => write!(f, "Blank"),
            OpenError::Damaged(sector) => write!(f, "Damaged({sector})"),
            OpenError::Geometry => write!(f, "Geometry"),
            OpenError::OutOfMemory => write!(f, "OutOfMemory"),
        }
    }
}

/// Prints that the store of a zone is refused.
fn print_refused_zone<W: Write>(origin: &Name, error: OpenError, out: &mut W) -> io::Result<()>
    ensures { OnOk result
        (Appends (W.contents out.old) (W.contents out.new) (refused_line origin.now error)) }
{
    writeln!(out, "refused {origin} {}", Refusal(error))
}

/// Prints that the store of the zone at a position is refused.
pub(crate) fn print_refusal<W: Write>(
    origins: &[Name],
    index: usize,
    error: OpenError,
    out: &mut W,
) -> io::Result<()>
    ensures { OnOk result
        (Appends (W.contents out.old) (W.contents out.new)
        (printed_refusal (slice_get origins.now index) error)) }
{
    match origins.get(index) {
        Some(origin) => print_refused_zone(origin, error, out),
        None => Ok(()),
    }
}
