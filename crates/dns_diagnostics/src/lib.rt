//! Diagnostic lines of what a server does, beside those that it promises: why a request was refused, why a
//! connection was closed, which checkpoints were made, and each request that was answered. No contract says
//! what they are; they are written by a `Log`, at the levels debug and trace.
#![tactic(auto)]

mod asker;
mod checkpoints;
mod closing;
mod diagnostics;
mod lines;
mod outcome;
mod reasons;
mod requests;
mod unread;
mod words;

pub use checkpoints::CheckpointWatch;
pub use diagnostics::Diagnostics;
pub use log::{LevelFilter, Log as Logger};
