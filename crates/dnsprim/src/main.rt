//! The program: reads the words of its command line, has the command run that they ask for, and returns its
//! exit status.
#![tactic(auto)]

mod command;
mod commands;
mod explaining;
mod lines;
mod logged_system;
mod record_file;
mod system;
mod tasks;
mod terminal;

use clap::error::ErrorKind;
use command::{Words, read_words};
use commands::run;
use dns_configuration::{FAILED, USAGE};
use dns_memory::heap;
use std::process::ExitCode;
use std::{env, io};
use system::System;

/// Tells how the program is called, and gives the exit status.
fn tell_usage(rt: &HostRuntime) -> io::Result<u8> {
    eprintln!(rt;
        "usage: dnsprim check FILE ORIGIN | check CONFIG | replay CONFIG SCRIPT | init CONFIG [ORIGIN] | \
dump CONFIG ORIGIN [--serial M] | diff CONFIG ORIGIN FROM [TO] [--as-update] | \
history CONFIG ORIGIN [--records] | load CONFIG ORIGIN [--dry-run] | migrate CONFIG | \
verify CONFIG [ORIGIN] [--every-sector] | \
serve CONFIG --turns N|unlimited [--quiet] [--count-every SECONDS] [--log-level LEVEL] \
[--record FILE] | \
fetch ADDRESS:PORT ORIGIN [--since FILE] [--seconds N] [--explain]"
    )?;
    Ok(USAGE)
}

/// Does what the words say, and gives the exit status. An error is that of a stream, of memory, or of a word
/// that is not UTF-8.
fn start(rt: &HostRuntime) -> io::Result<u8> {
    let mut words = Vec::new(rt.alloc());
    for word in env::args(rt)? {
        words.push(word)?;
    }
    let mut texts = Vec::new(rt.alloc());
    for word in &words {
        texts.push(word.as_str())?;
    }
    match read_words(rt.alloc(), &texts) {
        Ok(Words::Asked(asked)) => {
            let heap = heap(rt.alloc())?;
            run(&mut System { rt, heap }, asked)
        }
        Ok(Words::Wrong(expected)) => {
            eprintln!(rt; "{expected}")?;
            Ok(USAGE)
        }
        Ok(Words::NoCommand) => tell_usage(rt),
        Err(error) => {
            if error.kind() == ErrorKind::OutOfMemory {
                return Err(io::ErrorKind::OutOfMemory.into());
            }
            if error.use_stderr() {
                eprintln!(rt; "{error}")?;
                return Ok(USAGE);
            }
            // The words ask for help.
            println!(rt; "{error}")?;
            Ok(0)
        }
    }
}

/// Tells in one line what kept the program from its task, and gives the exit status. Of a stream that fails
/// nothing can be reported.
fn tell(rt: &HostRuntime, kind: io::ErrorKind) -> u8 {
    let (line, status) = match kind {
        io::ErrorKind::InvalidData => ("an argument is not UTF-8", USAGE),
        io::ErrorKind::OutOfMemory => ("out of memory", FAILED),
        _ => return FAILED,
    };
    match eprintln!(rt; "{line}") {
        Ok(()) => status,
        Err(_) => FAILED,
    }
}

fn main(rt: HostRuntime) -> ExitCode {
    match start(&rt) {
        Ok(status) => ExitCode::from(status),
        Err(error) => ExitCode::from(tell(&rt, error.kind())),
    }
}
