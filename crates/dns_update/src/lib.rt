//! The verdict on an update of a zone (RFC 2136 section 3): its prerequisites, what it would do, and the
//! change that it is.
#![tactic(auto)]

mod effect;
mod held;
mod item;
mod owner_records;
mod prerequisites;
mod prescan;
mod runs;
mod touched;
mod verdict;

use dns_changes::Change;
use dns_wire::Rcode;
use dns_zone::ZoneIndex;
pub use verdict::judge;

/// What becomes of an update.
#[derive(Drop)]
pub enum Judged<I: ZoneIndex> {
    /// It is refused, and nothing of it is done.
    Refused(Rcode),
    /// All of it is done already.
    NoChange,
    /// It is done by the change to the zone's next version, whose records are those.
    Accepted(Change, I),
}
