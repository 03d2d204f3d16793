//! The run `feed`: messages fed to a secondary, as a script says.
//!
//! The script says what a secondary is and what it is fed, a line for each. First come, each once, `apex
//! NAME`, `transport udp` or `transport tcp`, and `identifier NUMBER`; then `holds FILE` where a version is
//! held, the zone of a master file. One who holds none asks for the whole zone. After them each line is a
//! message in hexadecimal digits. Blank lines, and those that begin with `#`, say nothing. Printed are the
//! octets of the request or why there is none, what each message tells, and the zone that is held at the
//! end, or `nothing held`. A line that is none of these is told by its number, and nothing is fed.
use crate::{Ended, started};
use dns_commands::octets;
use dns_configuration::{DONE, Fault, tell};
use dns_masterfile::{number, print_zone, read_zone};
use dns_memory::Heap;
use dns_names::Name;
use dns_request::Transport;
use dns_secondary::Secondary;
use dns_zone::{RecordList, Zone};
use std::io::{self, Write};

/// Who asks, as far as the lines of a script say.
#[derive(Drop)]
struct Asking {
    apex: Option<Name>,
    transport: Option<Transport>,
    identifier: Option<u16>,
    held: Option<Zone<RecordList>>,
}

/// What a script says: who asks, and the messages that are fed.
#[derive(Drop)]
struct Script {
    asking: Asking,
    messages: Vec<Vec<u8, Heap>, Heap>,
}

/// Puts a value where none is. Answers whether there was one to put, and room for it.
fn set_once<T: Drop>(slot: &mut Option<T>, value: Option<T>) -> bool {
    if slot.is_some() || value.is_none() {
        return false;
    }
    *slot = value;
    true
}

/// The name of a text, under the root.
fn name(heap: Heap, text: &str) -> Option<Name> {
    Name::from_text(heap, text.as_bytes(), &Name::root(heap)).ok()
}

/// The transport of a word.
fn transport(word: &str) -> Option<Transport> {
    match word {
        "udp" => Some(Transport::Udp),
        "tcp" => Some(Transport::Tcp),
        _ => None,
    }
}

/// The identifier of a word.
fn identifier(word: &str) -> Option<u16> {
    u16::try_from(number(word.as_bytes())?).ok()
}

/// The zone of a master file, whose names are under its apex.
fn zone(heap: Heap, apex: &Name, text: &[u8]) -> Option<Zone<RecordList>> {
    let records = read_zone(heap, text, apex).ok()?;
    match apex.clone() {
        Ok(apex) => Zone::from_records(heap, apex, records).ok(),
        Err(_) => None,
    }
}

impl Asking {
    /// The zone of a file, where the apex is known.
    fn zone_of(
        &self,
        rt: &HostRuntime,
        heap: Heap,
        path: &str,
    ) -> io::Result<Option<Zone<RecordList>>> {
        let Some(apex) = &self.apex else {
            return Ok(None);
        };
        match octets(rt, path)? {
            Some(text) => Ok(zone(heap, apex, &text)),
            None => Ok(None),
        }
    }

    /// Takes a line that says something of who asks. Answers whether it is one.
    fn take(&mut self, rt: &HostRuntime, heap: Heap, word: &str, value: &str) -> io::Result<bool> {
        match word {
            "apex" => Ok(set_once(&mut self.apex, name(heap, value))),
            "transport" => Ok(set_once(&mut self.transport, transport(value))),
            "identifier" => Ok(set_once(&mut self.identifier, identifier(value))),
            "holds" => {
                let zone = self.zone_of(rt, heap, value)?;
                Ok(set_once(&mut self.held, zone))
            }
            _ => Ok(false),
        }
    }

    /// Whether all is said that a request needs.
    fn is_whole(&self) -> bool {
        self.apex.is_some() && self.transport.is_some() && self.identifier.is_some()
    }
}

impl Script {
    /// A script that says nothing.
    fn new(heap: Heap) -> Script {
        Script {
            asking: Asking {
                apex: None,
                transport: None,
                identifier: None,
                held: None,
            },
            messages: Vec::new(heap),
        }
    }

    /// Takes a message, where it is known who asks. Answers whether it is one.
    fn take_message(&mut self, heap: Heap, digits: &str) -> io::Result<bool> {
        match hex::decode(heap, digits) {
            Ok(message) if self.asking.is_whole() => {
                self.messages.push(message)?;
                Ok(true)
            }
            _ => Ok(false),
        }
    }

    /// Takes a line. Answers whether it is one of a script.
    fn take(&mut self, rt: &HostRuntime, heap: Heap, line: &str) -> io::Result<bool> {
        if line.is_empty() || line.starts_with('#') {
            return Ok(true);
        }
        match line.split_once(' ') {
            None => self.take_message(heap, line),
            Some((word, value)) if self.messages.is_empty() => {
                self.asking.take(rt, heap, word, value)
            }
            Some(_) => Ok(false),
        }
    }

    /// Takes all lines of a text. Answers the number of the first that is none of a script, or of the line
    /// that is missing after the last one.
    fn take_all(&mut self, rt: &HostRuntime, heap: Heap, text: &str) -> io::Result<Option<u64>> {
        let mut number = 1u64;
        for line in text.lines() {
            if !self.take(rt, heap, line)? {
                return Ok(Some(number));
            }
            number = number.saturating_add(1);
        }
        if self.asking.is_whole() {
            return Ok(None);
        }
        Ok(Some(number))
    }
}

/// One who asks as it was said, where all is said.
fn secondary(heap: Heap, asking: Asking) -> Option<Secondary<RecordList>> {
    let Asking {
        apex,
        transport,
        identifier,
        held,
    } = asking;
    match (apex, transport, identifier) {
        (Some(apex), Some(transport), Some(identifier)) => {
            Secondary::new(heap, apex, held, identifier, transport).ok()
        }
        _ => None,
    }
}

/// Prints the octets of the request, or why there is none.
fn print_request<W: Write>(
    heap: Heap,
    secondary: &Secondary<RecordList>,
    out: &mut W,
) -> io::Result<()> {
    match secondary.request(heap) {
        Ok(octets) => {
            let digits = hex::encode(heap, octets.as_slice())?;
            writeln!(out, "{digits}")
        }
        Err(error) => writeln!(out, "{error:?}"),
    }
}

/// Feeds the messages, and prints what each tells.
fn feed_all<W: Write>(
    heap: Heap,
    secondary: &mut Secondary<RecordList>,
    messages: &[Vec<u8, Heap>],
    out: &mut W,
) -> io::Result<()> {
    for message in messages {
        match secondary.feed(heap, message.as_slice()) {
            Ok(progress) => writeln!(out, "{progress:?}")?,
            Err(fault) => writeln!(out, "{fault:?}")?,
        }
    }
    Ok(())
}

/// Prints the zone that is held.
fn print_held<W: Write>(secondary: &Secondary<RecordList>, out: &mut W) -> io::Result<()> {
    match secondary.held() {
        Some(zone) => print_zone(zone, out),
        None => writeln!(out, "nothing held"),
    }
}

/// Prints the request, what each message tells, and what is held after them.
fn print_all<W: Write>(
    heap: Heap,
    secondary: &mut Secondary<RecordList>,
    messages: &[Vec<u8, Heap>],
    out: &mut W,
) -> io::Result<()> {
    print_request(heap, secondary, out)?;
    feed_all(heap, secondary, messages, out)?;
    print_held(secondary, out)
}

/// Does what a script says.
fn run(heap: Heap, script: Script, out: &mut Vec<u8>) -> io::Result<()> {
    let Script { asking, messages } = script;
    match secondary(heap, asking) {
        Some(secondary) => {
            let mut secondary = secondary;
            print_all(heap, &mut secondary, &messages, out)
        }
        None => Err(io::Error::from(io::ErrorKind::OutOfMemory)),
    }
}

/// Reads a script, and does what it says, or tells the first line that is wrong.
fn run_text(rt: &HostRuntime, heap: Heap, path: &str, text: &str) -> io::Result<Ended> {
    let mut ended = started(rt, DONE);
    let mut script = Script::new(heap);
    match script.take_all(rt, heap, text)? {
        Some(line) => ended.status = tell(&mut ended.told, path, Fault::Syntax(line))?,
        None => run(heap, script, &mut ended.printed)?,
    }
    Ok(ended)
}

/// Reads the file of a script, and does what it says.
pub(crate) fn fed(rt: &HostRuntime, heap: Heap, path: &str) -> io::Result<Ended> {
    if let Some(octets) = octets(rt, path)? {
        if let Ok(text) = str::from_utf8(&octets) {
            return run_text(rt, heap, path, text);
        }
    }
    let mut ended = started(rt, DONE);
    ended.status = tell(&mut ended.told, path, Fault::Unreadable)?;
    Ok(ended)
}
