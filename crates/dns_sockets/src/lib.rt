//! The sockets of a server: on each of its addresses one of datagrams and one of connections, the wait for
//! them, and what stands in for them in memory.
#![tactic(auto)]

mod datagram_sockets;
mod listeners;
mod memory_peer;
mod memory_sockets;
mod peers;
mod readiness;
mod socket;
mod sockets;
mod system;
mod udp;

pub use socket::Socket;
pub use sockets::Sockets;
pub use system::{DatagramCalls, ListenerCalls, StreamCalls};
pub use udp::Udp;
