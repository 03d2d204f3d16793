//! What is in the file of a recorder.
ghost use Rattle.dns_recording.specs.Recorder.{RecordsAll};

use crate::Recorder;
use dns_network::Observer;
use std::io::Write;

/// Whatever reports a recorder takes, any number of them: if it records after them, it did before, and its
/// file has the script of them all, in their order, but for the lines that are still to be written. The
/// observer behind it is told the same reports, and that the recording ended, once, if it did; a recorder
/// that is off writes nothing.
///
/// So what is said of the reports of turns, as by the clause of `Edge::turn`, is said of the file.
pub fn recording_law<W: Write, L: Observer>()
    ensures { RecordsAll W.contents ⟦<Recorder<'static, W, L> as Observer>⟧ L.Observer }
{}
