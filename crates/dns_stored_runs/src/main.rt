//! Runs over files: each line of the file `list` is a run, and what it prints, what it tells of a fault, and
//! its exit status are printed after that line. What is expected of all of them is what this program is to
//! print.
//!
//! - `replay` and `check` do what the program's commands do, and `print` prints the zone of a master file;
//!   `explain-replay` and `explain-check` tell why one is refused.
//! - `refuse` runs a script once for each of its allocations, which is refused, and prints each line whose
//!   event was left out in one of these runs.
//! - `feed` feeds messages to a secondary, and `read` reads messages.
//! - `turns` lets peers and a server meet on a network in memory.
#![tactic(auto)]

mod feeding;
mod messages;
mod refusing;
mod replaying;
mod served;
mod turns;

use dns_commands::{check, explain_check, file, octets};
use dns_configuration::{DONE, FAILED, REFUSED};
use dns_masterfile::{print_zone, read_zone};
use dns_memory::{Heap, heap};
use dns_names::Name;
use dns_zone::{RecordList, Zone};
use feeding::fed;
use replaying::{Doing, over_files};
use std::fs;
use std::io::{self, Write};
use std::process::ExitCode;

/// The words of a run; those that are missing are empty. A run is one of
/// `replay FOLDER CONFIG SCRIPT`, `explain-replay FOLDER CONFIG SCRIPT`, `refuse FOLDER CONFIG SCRIPT`,
/// `check FILE ORIGIN`, `explain-check FILE ORIGIN`, `print FILE ORIGIN APEX`, `feed SCRIPT`, `read FILE`,
/// `turns FILE SCRIPT FIRST-LAST`.
#[derive(Clone, Copy)]
struct Words<'a> {
    verb: &'a str,
    first: &'a str,
    second: &'a str,
    third: &'a str,
}

/// What a run printed, what it told of a fault, and its exit status.
#[derive(Drop)]
struct Ended {
    printed: Vec<u8>,
    told: Vec<u8>,
    status: u8,
}

/// The words of a line.
fn words_of(line: &str) -> Words<'_> {
    let mut words = line.split(' ');
    Words {
        verb: words.next().unwrap_or(""),
        first: words.next().unwrap_or(""),
        second: words.next().unwrap_or(""),
        third: words.next().unwrap_or(""),
    }
}

/// A run of which nothing is known yet.
fn started(rt: &HostRuntime, status: u8) -> Ended {
    Ended {
        printed: Vec::new(rt.alloc()),
        told: Vec::new(rt.alloc()),
        status,
    }
}

/// Checks a master file, or explains why it is refused.
fn checked(rt: &HostRuntime, heap: Heap, words: Words<'_>, explains: bool) -> io::Result<Ended> {
    let text = octets(rt, words.first)?;
    let file = file(words.first, &text);
    let mut ended = started(rt, DONE);
    if explains {
        explain_check(heap, &file, words.second, &mut ended.told)?;
        return Ok(ended);
    }
    ended.status = check(
        heap,
        &file,
        words.second,
        &mut ended.printed,
        &mut ended.told,
    );
    Ok(ended)
}

/// The zone of a master file, if it is read and is one.
fn zone_of(heap: Heap, octets: &[u8], origin: &str, apex: &str) -> Option<Zone<RecordList>> {
    let root = Name::root(heap);
    let origin = Name::from_text(heap, origin.as_bytes(), &root).ok()?;
    let apex = Name::from_text(heap, apex.as_bytes(), &root).ok()?;
    let records = read_zone(heap, octets, &origin).ok()?;
    Zone::from_records(heap, apex, records).ok()
}

/// Prints the zone of a master file.
fn printed(rt: &HostRuntime, heap: Heap, words: Words<'_>) -> io::Result<Ended> {
    let mut ended = started(rt, REFUSED);
    let Some(text) = octets(rt, words.first)? else {
        return Ok(ended);
    };
    if let Some(zone) = zone_of(heap, &text, words.second, words.third) {
        print_zone(&zone, &mut ended.printed)?;
        ended.status = DONE;
    }
    Ok(ended)
}

/// Does what the words say.
fn ended_by(rt: &HostRuntime, heap: Heap, words: Words<'_>) -> io::Result<Ended> {
    match words.verb {
        "replay" => over_files(rt, heap, words, Doing::Runs),
        "explain-replay" => over_files(rt, heap, words, Doing::Explains),
        "refuse" => over_files(rt, heap, words, Doing::RefusesMemory),
        "check" => checked(rt, heap, words, false),
        "explain-check" => checked(rt, heap, words, true),
        "print" => printed(rt, heap, words),
        "feed" => fed(rt, heap, words.first),
        "read" => messages::read(rt, heap, words.first),
        "turns" => turns::played(rt, words.first, words.second, words.third),
        _ => Ok(started(rt, FAILED)),
    }
}

/// Runs a line, and prints what came of it.
fn run(rt: &HostRuntime, heap: Heap, line: &str) -> io::Result<()> {
    let ended = ended_by(rt, heap, words_of(line))?;
    let mut out = io::writer(rt);
    writeln!(out, "{line}")?;
    out.write_all(&ended.printed)?;
    if !ended.told.is_empty() {
        writeln!(out, "told:")?;
        out.write_all(&ended.told)?;
    }
    writeln!(out, "status {}", ended.status)
}

/// Runs all lines.
fn run_all(rt: &HostRuntime) -> io::Result<()> {
    let heap = heap(rt.alloc())?;
    let list = fs::read_to_string(rt, "list")?;
    for line in list.lines() {
        run(rt, heap, line)?;
    }
    Ok(())
}

fn main(rt: HostRuntime) -> ExitCode {
    match run_all(&rt) {
        Ok(()) => ExitCode::SUCCESS,
        Err(_) => ExitCode::FAILURE,
    }
}
