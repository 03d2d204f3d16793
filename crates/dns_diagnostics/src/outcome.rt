//! What became of a request, and why.

use crate::words::code_word;
use dns_primary::Noted;
use dns_request::Transport;
use log::Level;
use std::fmt;

/// What a reply says: its response code, and why it has that, or nothing if the request was answered.
#[derive(Clone, Copy)]
pub(crate) struct Outcome {
    pub(crate) code: u8,
    pub(crate) why: &'static str,
}

impl Outcome {
    /// At which level it is told: each request is traced, and one that was refused is for debugging.
    pub(crate) fn level(self) -> Level {
        if self.why.is_empty() {
            return Level::Trace;
        }
        Level::Debug
    }
}

impl fmt::Display for Outcome {
    fn fmt<W: fmt::Write>(&self, f: &mut fmt::Formatter<W>) -> fmt::Result {
        write!(f, "{}", code_word(self.code))?;
        if self.why.is_empty() {
            return Ok(());
        }
        write!(f, ", {}", self.why)
    }
}

/// What is known of the reply to a request that was answered at once.
#[derive(Clone, Copy)]
pub(crate) struct Answered {
    /// Its response code.
    pub(crate) code: u8,
    /// By which transport the request came.
    pub(crate) transport: Transport,
    /// What was to be known of the event besides.
    pub(crate) noted: Noted,
}

impl Answered {
    /// The same, and why it has its code.
    pub(crate) fn because(self, why: &'static str) -> Outcome {
        Outcome {
            code: self.code,
            why,
        }
    }
}

/// The response code of a reply, the low half of its fourth octet (RFC 1035 section 4.1.1).
#[inline]
pub(crate) fn code_of(reply: &[u8]) -> u8 {
    match reply.get(3) {
        Some(octet) => *octet % 16,
        None => 0,
    }
}
