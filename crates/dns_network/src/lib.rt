//! Between sockets and the machine: framing on streams, connections, and the event loop over any network, by
//! turns: what comes is read and handled, and what goes out is written, one piece at a time.
#![tactic(auto)]

mod connection;
mod connections;
mod datagram_socket;
mod datagrams;
mod edge;
mod framing;
mod laws;
mod memory_network;
mod memory_stream;
mod network;
mod outbox;
mod stream;

pub use connection::Connection;
pub use connections::Connections;
pub use datagram_socket::DatagramSocket;
pub use datagrams::Datagrams;
pub use edge::Edge;
pub use framing::{Framing, Octets, framing_law, length_octets};
pub use laws::turns_law;
pub use memory_network::{MemoryNetwork, MemoryNotes};
pub use memory_stream::MemoryStream;
pub use network::{Network, Note, Observer};
pub use outbox::Outbox;
pub use stream::{Moved, Stream};
