//! Scripts: their lines, the command that each line says, and what it does over a primary and its devices, in
//! print.
#![tactic(auto)]

mod command;
mod device;
mod events;
mod keeps;
mod lines;
mod print;
mod replay_state;
mod run;
mod setup;

pub use command::{Command, read_command};
pub use device::ScriptDevice;
pub use keeps::{Keep, ZoneKeep};
pub use lines::split_line;
pub use replay_state::World;
pub use run::{Ending, run_script};
pub use setup::{NotMade, replay_zones};
