//! The run `read`: what is read of messages, a line each.
use crate::{Ended, started};
use dns_commands::octets;
use dns_configuration::{DONE, Fault, tell};
use dns_memory::Heap;
use dns_wire::{Message, ReadError, Section};
use std::io::{self, Write};

/// The sum of the TTLs of a section.
fn ttls(mut section: Section<'_>) -> u32 {
    let mut sum = 0u32;
    for _ in 0..section.len() {
        match section.next() {
            Some(record) => sum = sum.wrapping_add(record.ttl()),
            None => return 0,
        }
    }
    sum
}

/// The word for what keeps octets from being a message.
fn word(error: ReadError) -> &'static str {
    match error {
        ReadError::Short => "short",
        ReadError::BadPointer => "pointer",
        ReadError::ReservedLabel => "reserved",
        ReadError::NameTooLong => "long",
        ReadError::Cut => "cut",
        ReadError::Trailing => "trailing",
        ReadError::BadData => "data",
    }
}

/// Prints the name that is asked for, `-` where there is not exactly one question.
fn print_asked<W: Write>(heap: Heap, message: &Message<'_>, out: &mut W) -> io::Result<()> {
    match message.question() {
        Some(question) => {
            let name = question.name().to_name(heap)?;
            write!(out, "{name}")
        }
        None => write!(out, "-"),
    }
}

/// Prints that name, how many records each section has, and the sum of their TTLs; or the word for what keeps
/// the octets from being a message.
fn print_message<W: Write>(heap: Heap, octets: &[u8], out: &mut W) -> io::Result<()> {
    let message = match Message::read(octets) {
        Ok(message) => message,
        Err(error) => return writeln!(out, "{}", word(error)),
    };
    print_asked(heap, &message, out)?;
    let answers = message.answer_count();
    let authorities = message.authority_count();
    let additionals = message.additional_count();
    let sum = ttls(message.answers())
        .wrapping_add(ttls(message.authorities()))
        .wrapping_add(ttls(message.additionals()));
    writeln!(out, " {answers} {authorities} {additionals} {sum}")
}

/// Prints what is read of each line of a text, and answers the number of the first that is no octets in
/// hexadecimal digits, if there is one.
fn print_all<W: Write>(heap: Heap, text: &str, out: &mut W) -> io::Result<Option<u64>> {
    let mut number = 1u64;
    for line in text.lines() {
        match hex::decode(heap, line) {
            Ok(octets) => print_message(heap, octets.as_slice(), out)?,
            Err(_) => return Ok(Some(number)),
        }
        number = number.saturating_add(1);
    }
    Ok(None)
}

/// Reads the messages of a file.
pub(crate) fn read(rt: &HostRuntime, heap: Heap, path: &str) -> io::Result<Ended> {
    let mut ended = started(rt, DONE);
    let octets = octets(rt, path)?;
    let text = octets
        .as_ref()
        .and_then(|octets| str::from_utf8(octets).ok());
    let fault = match text {
        Some(text) => print_all(heap, text, &mut ended.printed)?.map(Fault::Syntax),
        None => Some(Fault::Unreadable),
    };
    if let Some(fault) = fault {
        ended.status = tell(&mut ended.told, path, fault)?;
    }
    Ok(ended)
}
