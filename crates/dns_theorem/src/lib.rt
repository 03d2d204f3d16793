//! What the server, its stops and those who copy its zones come to (RFC 1995, RFC 2136, RFC 5936).
#![tactic(auto)]

pub mod laws;
