//! Changes from one version of a zone to another, and their octets in a journal.
#![tactic(auto)]

ghost use Rattle.std.specs.Prelude.{◌≡◌};

mod between;
mod change;
mod entry;
mod form;
mod group;
pub mod laws;
mod prepared;

pub use change::{Change, holds, holds_key, take_out};
pub use entry::{plain_len, split_record};
pub use prepared::PreparedEntry;
use std::alloc::AllocError;
use thiserror::Error;

/// Why a change can't be applied, or octets are none. Of the first three `WrongSoa` comes before
/// `RemovesAbsent`, and that before `AddsPresent`.
#[derive(Clone, Copy, Debug, Error, PartialEq, Eq)]
pub enum ChangeError {
    /// Memory was refused.
    #[error("memory was refused")]
    OutOfMemory,
    /// The SOA before the change isn't there.
    #[error("the SOA before the change is not there")]
    WrongSoa,
    /// A record that is to go isn't there, with its TTL, or goes twice.
    #[error("a record that is to go is not there")]
    RemovesAbsent,
    /// A record that is to come is there already after the removal, whatever its TTL, or comes twice.
    #[error("a record that is to come is there already")]
    AddsPresent,
    /// The octets are the entry of no change.
    #[error("the octets are the entry of no change")]
    BadBytes,
}

impl From<AllocError> for ChangeError {
    ghost use Rattle.dns_changes.specs.declared.ChangeError.TheVariants.{OutOfMemory};

    ghost from_gives = { λ _ e. e ≡ OutOfMemory };

    fn from(_error: AllocError) -> ChangeError {
        ChangeError::OutOfMemory
    }
}
