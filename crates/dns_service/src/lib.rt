//! `serve`: the zones of a configuration over sockets, turn by turn, and the log.
#![tactic(auto)]

mod laws;
mod log;
mod opening;
mod server;
mod slots;
mod transfer_lines;
mod update_lines;
mod watched;

pub use server::{Host, ServeOptions, Streams, serve};
