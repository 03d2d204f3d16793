//! The one entry point for requests: what octets that came are, whichever transport they came by (RFC 1035
//! section 4.1, RFC 2136 section 2).
#![tactic(auto)]

mod classification;
mod request;

pub use classification::classify;
pub use request::{Request, RequestMessage, Transport};
