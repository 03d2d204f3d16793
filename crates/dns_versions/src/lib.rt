//! Zones with their stores: what is shown of each, and what is staged after it.
#![tactic(auto)]

mod flush;
mod staging;
mod zone_versions;

pub use flush::flush_all;
pub use staging::{MOST_RECORDS, StagePlan};
pub use zone_versions::ZoneVersions;
