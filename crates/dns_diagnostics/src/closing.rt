//! Why connections are closed, as far as notes tell.

use crate::asker::Asker;
use dns_memory::Heap;
use dns_network::Note;
use std::alloc::AllocError;
use std::fmt;

/// What a note says of the connection that is closed by the next one.
#[derive(Clone, Copy)]
pub(crate) enum Cause {
    /// Nothing.
    Untold,
    /// The connection with this number was opened.
    Opened(usize),
    /// No message came on it for 30 seconds.
    Silent,
    /// Nothing could be written to it for 30 seconds.
    Stalled,
    /// Memory was refused.
    Memory,
    /// Memory was refused, to it or to a request before.
    PerhapsMemory,
}

impl Cause {
    /// What a note says of the connection that the next note closes. Whether memory was refused to the event
    /// before, which is noted too, is to be known for that.
    pub(crate) fn told_by(note: Note, has_event_lacked: bool) -> Cause {
        match note {
            Note::Opened(number, _) => Cause::Opened(number),
            Note::Silent(_) => Cause::Silent,
            Note::Stalled(_) => Cause::Stalled,
            Note::OutOfMemory if has_event_lacked => Cause::PerhapsMemory,
            Note::OutOfMemory => Cause::Memory,
            Note::Closed(_) => Cause::Untold,
            Note::Refused => Cause::Untold,
            Note::Device(_) => Cause::Untold,
            Note::Begins(_) => Cause::Untold,
            Note::Ends => Cause::Untold,
            Note::Unrecorded => Cause::Untold,
        }
    }

    /// The same of the connection with this number, which is closed: that another was opened says nothing.
    fn of(self, number: usize) -> Cause {
        match self {
            Cause::Opened(other) if other != number => Cause::Untold,
            cause => cause,
        }
    }
}

impl fmt::Display for Cause {
    fn fmt<W: fmt::Write>(&self, f: &mut fmt::Formatter<W>) -> fmt::Result {
        let why = match self {
            Cause::Untold => "its peer ended it, or it failed",
            Cause::Opened(_) => "its stream could not be watched, or memory was refused",
            Cause::Silent => "silent for 30 seconds",
            Cause::Stalled => "stalled for 30 seconds",
            Cause::Memory => "memory was refused",
            Cause::PerhapsMemory => "memory was refused, its peer ended it, or it failed",
        };
        write!(f, "{why}")
    }
}

/// The line of the connection with this number and peer, which is closed.
pub(crate) fn closed_line(
    heap: Heap,
    number: usize,
    peer: Asker,
    cause: Cause,
) -> Result<String<Heap>, AllocError> {
    let cause = cause.of(number);
    match peer {
        Asker::Address(_) => { format!(in heap; "connection {number} from {peer} closed: {cause}") }
        Asker::Connection(_) => format!(in heap; "connection {number} closed: {cause}"),
    }
}

/// The line of a connection that was closed as it came.
pub(crate) fn refused_line(heap: Heap) -> Result<String<Heap>, AllocError> {
    format!(in heap;
        "connection refused: no place, since 64 are open, or 48 and no zone lists its address"
    )
}
