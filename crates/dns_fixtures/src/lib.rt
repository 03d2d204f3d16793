//! What tests start from: names, records and zones of texts, and devices in memory with the crashes that they
//! may have. What can't be had, memory among it, is none.
#![tactic(auto)]

mod crashes;
mod zones;

pub use crashes::{blank, choices, crashed, plan};
pub use zones::{name, octets, record, zone};
