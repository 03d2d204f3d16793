//! The commands but `serve` and `fetch`, each over any devices and any reading of files, one file a command,
//! and what `--explain` adds.
#![tactic(auto)]

mod change;
mod commands;
mod explain;
mod explain_settings;
mod explain_system;
mod frame;
mod inputs;
mod next_version;
mod warnings;

pub use change::change_to;
pub use commands::check::{Index, check};
pub use commands::check_configuration::check_configuration;
pub use commands::compare::compare;
pub use commands::diff::diff;
pub use commands::dump::dump;
pub use commands::dump_at::dump_at;
pub use commands::history::history;
pub use commands::init::init;
pub use commands::load::load;
pub use commands::migrate::migrate;
pub use commands::replay::replay;
pub use commands::verify::verify;
pub use explain::explain_check;
pub use explain_settings::{explain_origin, explain_replay};
pub use explain_system::{
    explain_devices, explain_other, explain_unmade, explain_unreadable, explain_unserved,
};
pub use frame::Run;
pub use inputs::{Folder, Inputs, file, is_file, master_files, octets, octets_in, zone_file};
pub use next_version::{Loaded, load_zone};
pub use warnings::warn_of_configuration;
