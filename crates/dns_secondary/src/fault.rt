//! What an answer does, and why it is refused.
ghost use Rattle.std.specs.Prelude.{◌≡◌};

use std::alloc::AllocError;
use thiserror::Error;

/// What has become of an answer after one of its messages.
#[derive(Clone, Copy, Debug, PartialEq, Eq)]
pub enum Progress {
    /// The answer goes on.
    More,
    /// The answer is at its end, and its records are held.
    Done,
    /// The version that is held is current (RFC 1995 section 2).
    UpToDate,
    /// By UDP a newer SOA came alone: the answer is too long, and is to be asked for by TCP (RFC 1995
    /// section 2).
    RetryTcp,
}

/// Why an answer is refused.
#[derive(Clone, Copy, Debug, Error, PartialEq, Eq)]
pub enum Fault {
    /// Memory was refused, and nothing has changed.
    #[error("memory was refused")]
    OutOfMemory,
    /// The octets are no message, no response to a query, cut off (TC), or ask another question.
    #[error("the octets are no answer to the request")]
    BadMessage,
    /// The message answers another request (RFC 1035 section 4.1.1).
    #[error("the message answers another request")]
    WrongId,
    /// The server refuses, with this response code.
    #[error("the server refuses, with a response code")]
    Refused(u8),
    /// A record occurs where no answer to a transfer has it, or no zone can have it.
    #[error("a record comes where no answer has it")]
    BadSequence,
    /// A record that goes isn't there, with its TTL.
    #[error("a record that goes is not there")]
    RemovesAbsent,
    /// A record that comes is there already, whatever its TTL.
    #[error("a record that comes is there already")]
    AddsPresent,
    /// The records are no valid zone.
    #[error("the records are no valid zone")]
    InvalidZone,
    /// The answer is at its end, or was refused before.
    #[error("the answer is at its end, or was refused before")]
    AfterEnd,
}

impl From<AllocError> for Fault {
    ghost use Rattle.dns_secondary.specs.declared.fault.Fault.TheVariants.{OutOfMemory};

    ghost from_gives = { λ _ e. e ≡ OutOfMemory };

    fn from(_error: AllocError) -> Fault {
        Fault::OutOfMemory
    }
}
