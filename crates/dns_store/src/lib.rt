//! A zone's store, as the layer above sees it: in versions and a base. `open` gives the store of a device.
#![tactic(auto)]

mod checkpoint;
mod choosing;
mod device_format;
mod formatting;
mod incremental_check;
mod kept_store;
mod laws;
mod migrating;
mod octets;
mod raise;
mod records;
mod recovery;
mod root;
mod snapshot;
mod versions;
mod zone_store;

pub use checkpoint::CheckpointError;
pub use device_format::{DeviceFormat, format_of};
pub use dns_journal::{FlushError, StageError};
pub use formatting::{FEWEST_ENTRIES, FormatError, format};
pub use kept_store::KeptStore;
pub use laws::{opens_law, store_law};
pub use migrating::{MigrateError, Migration, migrate};
pub use octets::{octets_after, snapshot_len};
pub use recovery::{MOST_SECTORS, Recovered, open, read_settled};
pub use root::OpenError;
pub use zone_store::ZoneStore;
