//! The devices of configured zones: where they are, the stores that they keep, and what is reported of one
//! that is refused.
#![tactic(auto)]

mod call_list;
mod device_faults;
mod devices;
mod devices_to_read;
mod memory_devices;
mod stores;

pub use call_list::{CallList, Twin};
pub use device_faults::{DeviceFault, refusal, tell_device};
pub use devices::{Devices, Disk, NewDevices};
pub use devices_to_read::DevicesToRead;
pub use memory_devices::{MemoryDevices, NewTwin};
pub use stores::{open_store, open_zone};
