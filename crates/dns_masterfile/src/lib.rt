//! Master files (RFC 1035 section 5).
#![tactic(auto)]

ghost use Rattle.std.specs.Prelude.{◌≡◌};
ghost use Rattle.dns_masterfile.specs.declared.FileError.TheVariants.{OutOfMemory};

mod comments;
mod context;
mod entry;
mod entry_words;
mod kind;
pub mod laws;
mod opaque;
mod pieces;
mod places;
mod print;
mod rdata;
mod read;
mod scanner;
mod values;
mod words;
mod zone;

pub use places::{Places, RefusedEntry, find_places};
pub use print::{RecordLine, TypeWord};
pub use read::read_zone;
use std::alloc::{AllocError, AllocFailed};
use thiserror::Error;
pub use values::number;
pub use zone::print_zone;

/// Why a master file is refused.
#[derive(Clone, Copy, Debug, Error, PartialEq, Eq)]
pub enum FileError {
    /// Memory was refused.
    #[error("memory was refused")]
    OutOfMemory,
    /// An octet, a quote or a parenthesis occurs where none may, or a word is missing or left over.
    #[error("a word is missing or left over, or an octet, a quote or a parenthesis is where none may be")]
    Syntax,
    /// A word where a name is expected is not a name.
    #[error("a name is expected")]
    BadName,
    /// A word where a number is expected is not a number, or is over what its field holds.
    #[error("a decimal number is expected, within what its field holds")]
    BadNumber,
    /// A word is no address, or no string; or data of a type without a form isn't `\#`, a length, and the
    /// digits of so many octets.
    #[error("the data has not the form of its type")]
    BadData,
    /// No TTL is written, and none was so far.
    #[error("no TTL is written here, and none was before")]
    NoTtl,
    /// The line begins with a blank, and no record precedes it.
    #[error("the line begins with a blank, and there is no record before it")]
    NoOwner,
    /// The word where the type is expected is no type that has a form here, and no `TYPE` with the number of
    /// another type of which a zone can have records.
    #[error("a type is expected, such as A, or TYPE and a number")]
    UnknownType,
    /// The data has more than 4,096 octets.
    #[error("the data has more than 4096 octets")]
    TooLong,
}

impl From<AllocError> for FileError {
    ghost from_gives = { λ _ e. e ≡ OutOfMemory };

    fn from(_error: AllocError) -> FileError {
        FileError::OutOfMemory
    }
}

impl<T: Drop> From<AllocFailed<T>> for FileError {
    ghost from_gives = { λ _ e. e ≡ OutOfMemory };

    fn from(_error: AllocFailed<T>) -> FileError {
        FileError::OutOfMemory
    }
}
