//! Why a zone is not taken in from another server, and what can be done about it.
ghost use Rattle.std.specs.Prelude.{◌≡◌, Some, IfOk};
ghost use Rattle.dns_fetch.specs.FetchFaults.{IsFetchTold, fetch_advice, answer_advice, answer_word};
ghost use Rattle.dns_fetch.specs.FetchFaults.{fault_of_answer, fetch_text, fetch_word, is_memory_refused};
ghost use Rattle.dns_fetch.specs.FetchFaults.{fetch_status};
ghost use Rattle.dns_fetch.specs.declared.fetch_faults.FetchFault.TheVariants.{OutOfMemory};

use dns_configuration::{FAILED, PrintedWord, REFUSED};
use dns_secondary::Fault;
use std::alloc::AllocError;
use std::fmt;
use std::io::{self, Write};

/// Why no zone is taken in from another server.
#[derive(Clone, Copy)]
pub enum FetchFault {
    /// Memory was refused.
    OutOfMemory,
    /// The word is no address with a port.
    BadAddress,
    /// The server can't be reached.
    Unavailable,
    /// The server ended the stream before its answer was at its end.
    Closed,
    /// For too long nothing came from the server, or it took nothing; or it took too long in all.
    TimedOut,
    /// The server's answer is refused.
    Refused(Fault),
}

impl From<AllocError> for FetchFault {
    ghost from_gives = { λ _ f. f ≡ OutOfMemory };

    fn from(_error: AllocError) -> FetchFault {
        FetchFault::OutOfMemory
    }
}

impl From<Fault> for FetchFault {
    ghost from_gives = { λ e f. f ≡ fault_of_answer e };

    fn from(fault: Fault) -> FetchFault {
        match fault {
            Fault::OutOfMemory => FetchFault::OutOfMemory,
            _ => FetchFault::Refused(fault),
        }
    }
}

/// The name of the reason why an answer is refused.
#[derive(Drop)]
struct AnswerWord(Fault);

impl fmt::Display for AnswerWord {
    ghost output = { λ w. Some (answer_word w.0) };

    fn fmt<W: fmt::Write>(&self, f: &mut fmt::Formatter<W>) -> fmt::Result {
        match self.0 {
            Fault::OutOfMemory => write!(f, "OutOfMemory"),
            Fault::BadMessage => write!(f, "BadMessage"),
            Fault::WrongId => write!(f, "WrongId"),
            Fault::Refused(code) => write!(f, "Refused({code})"),
            Fault::BadSequence => write!(f, "BadSequence"),
            Fault::RemovesAbsent => write!(f, "RemovesAbsent"),
            Fault::AddsPresent => write!(f, "AddsPresent"),
            Fault::InvalidZone => write!(f, "InvalidZone"),
            Fault::AfterEnd => write!(f, "AfterEnd"),
        }
    }
}

impl fmt::Display for FetchFault {
    ghost output = { λ f. Some (fetch_word f) };

    fn fmt<W: fmt::Write>(&self, f: &mut fmt::Formatter<W>) -> fmt::Result {
        match *self {
            FetchFault::OutOfMemory => write!(f, "OutOfMemory"),
            FetchFault::BadAddress => write!(f, "BadAddress"),
            FetchFault::Unavailable => write!(f, "Unavailable"),
            FetchFault::Closed => write!(f, "Closed"),
            FetchFault::TimedOut => write!(f, "TimedOut"),
            FetchFault::Refused(fault) => write!(f, "{}", AnswerWord(fault)),
        }
    }
}

/// What one whose answer is refused can do about it.
fn answer_advice(fault: Fault) -> &'static str
    ensures { result.now ≡ answer_advice fault }
{
    match fault {
        Fault::OutOfMemory => "memory was refused",
        Fault::BadMessage => "what came is no whole DNS message that answers the request",
        Fault::WrongId => "what came answers another request",
        Fault::Refused(_) => {
            "the server doesn't have the zone, or doesn't allow this address to transfer it"
        }
        Fault::BadSequence => {
            "what came is no transfer of that zone, or has a record that no zone here can have"
        }
        Fault::RemovesAbsent | Fault::AddsPresent => {
            "the changes don't fit the file of --since; fetch the whole zone without it"
        }
        Fault::InvalidZone =>
            "the records that came are no valid zone here; check tells why of a file",
        Fault::AfterEnd => "a message came after the answer's end",
    }
}

/// What one who meets the fault can do about it.
fn fetch_advice(fault: FetchFault) -> &'static str
    ensures { result.now ≡ fetch_advice fault }
{
    match fault {
        FetchFault::OutOfMemory => "memory was refused",
        FetchFault::BadAddress => {
            "an address and a port are expected, such as 192.0.2.1:53 or [2001:db8::1]:53"
        }
        FetchFault::Unavailable =>
            "no server takes connections by TCP there, or the way to it is closed",
        FetchFault::Closed =>
            "the server ended the connection before its answer's end; its log tells why",
        FetchFault::TimedOut => {
            "for 30 seconds the server sent or took nothing, or it took more than --seconds in all"
        }
        FetchFault::Refused(fault) => answer_advice(fault),
    }
}

/// What is wrong with a server, and in a second line, if it is wanted, what can be done.
#[derive(Drop)]
struct FetchText<'a> {
    server: &'a str,
    fault: FetchFault,
    explain: bool,
}

impl fmt::Display for FetchText<'_> {
    ghost output = { λ t. Some (fetch_text t.server.now t.fault t.explain) };

    fn fmt<W: fmt::Write>(&self, f: &mut fmt::Formatter<W>) -> fmt::Result {
        let (what, fault) = (PrintedWord(self.server.as_bytes()), self.fault);
        if self.explain {
            write!(f, "{what}: {fault}\n{what}: {}", fetch_advice(fault))
        } else {
            write!(f, "{what}: {fault}")
        }
    }
}

/// Whether memory was refused.
fn is_memory(fault: FetchFault) -> bool
    ensures { result ≡ is_memory_refused fault }
{
    match fault {
        FetchFault::OutOfMemory => true,
        _ => false,
    }
}

/// The exit status for a fault.
fn fetch_status(fault: FetchFault) -> u8
    ensures { result ≡ fetch_status fault }
{
    match fault {
        FetchFault::BadAddress | FetchFault::Refused(_) => REFUSED,
        _ => FAILED,
    }
}

/// Tells in one line why a server gave no zone, and in a second one, if it is wanted, what can be done;
/// gives the exit status. Of refused memory nothing is reported.
pub(crate) fn tell_fetch<E: Write>(
    err: &mut E,
    server: &str,
    fault: FetchFault,
    explain: bool,
) -> io::Result<u8>
    ensures { IfOk result
        (λ status. IsFetchTold server.now fault explain (E.contents err.old) (E.contents err.new) status) }
{
    if is_memory(fault) {
        return Ok(FAILED);
    }
    let text = FetchText {
        server,
        fault,
        explain,
    };
    writeln!(err, "{text}")?;
    Ok(fetch_status(fault))
}
