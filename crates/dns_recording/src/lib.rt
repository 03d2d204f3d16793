//! A recording of what a server does: the events of its machine, as a script that `replay` runs.
#![tactic(auto)]

mod laws;
mod lines;
mod recorder;
mod start;

pub use laws::recording_law;
pub use recorder::Recorder;
