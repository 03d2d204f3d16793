//! The state of all zones, and of those who ask and change them, one event at a time.
#![tactic(auto)]

mod admission;
mod checkpoint;
mod connections;
mod effects;
mod event;
mod flush;
mod fullness;
mod laws;
mod open;
mod primary;
mod serve;
mod step;
mod transfers;
mod update;

pub use event::{Effects, Event, HeaderTo, Noted, Peer, Reply, ReplyOctets, To, Waiting};
pub use fullness::Fullness;
pub use laws::{
    fresh_law, replies_wait_law, resumed_law, servfail_law, stop_law, transfers_law, versions_law,
};
pub use open::NotOpened;
pub use primary::{Primary, ZoneSpec};
