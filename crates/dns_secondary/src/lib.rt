//! The receiving side of transfers of zones: what the messages of an answer make of the version that is held
//! (RFC 5936, RFC 1995).
#![tactic(auto)]

mod fault;
mod items;
pub mod laws;
mod reached;
mod reading;
mod request;
mod secondary;
mod steps;
mod tail;

pub use fault::{Fault, Progress};
pub use secondary::Secondary;
