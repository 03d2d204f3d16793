//! Addresses in text, and prefixes of addresses.
#![tactic(auto)]

mod prefix;
mod print;
mod text;

pub use prefix::{Prefix, allows};
pub use print::{PrintedAddress, print_address};
pub use text::address;
use thiserror::Error;

/// Why a text is no prefix.
#[derive(Clone, Copy, Debug, Error, PartialEq, Eq)]
pub enum PrefixError {
    /// It has no `/`, or no address before it.
    #[error("an address, a slash and a length are expected")]
    BadPrefix,
    /// What follows the `/` is no decimal number without leading zeros, or more than 32 or 128.
    #[error("the length is a decimal number of bits, at most 32 of IPv4 and 128 of IPv6")]
    BadLength,
}
