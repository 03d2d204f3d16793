//! What a server is given: its configuration, the files that it names, the zones that they hold, and how a
//! fault in one is reported.
#![tactic(auto)]

mod configuration;
mod explain;
mod explain_lines;
mod explain_zones;
mod files;
mod listening;
mod loading;
mod named;
mod paths;
mod warnings;
mod zone_specs;

pub use configuration::{Configuration, ConfigurationError, ZoneSettings};
pub use explain::explain_configuration;
pub use files::{
    DONE, FAILED, Fault, File, PrintedWord, REFUSED, USAGE, apex, read_configuration, tell,
};
pub use listening::socket_address;
pub use loading::{load, load_all, load_one};
pub use named::zone_of;
pub use warnings::warn_of_settings;
pub use zone_specs::{origins_of, settings_of};
