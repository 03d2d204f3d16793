//! `fetch`: a zone that is taken in from another server, as a master file.
#![tactic(auto)]

mod command;
mod fetch_faults;
mod servers;
mod taking_in;
mod watching;

pub use command::{FetchRequest, fetch};
pub use fetch_faults::FetchFault;
pub use servers::{Servers, Tcp, TcpSocket, WaitingStream};
pub use watching::Watch;
