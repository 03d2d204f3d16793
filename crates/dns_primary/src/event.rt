//! Events, and what they do to the world.
ghost use Rattle.std.specs.Prelude.{◌≡◌, ◌<◌, ◌≤◌, ℕ, Some, length};
ghost use Rattle.dns_primary.specs.Connections.{most_connections};
ghost use Rattle.dns_primary.specs.To.{is_nowhere, octets_in};

use dns_memory::Heap;
use dns_wire::Rcode;
use std::net::{IpAddr, Ipv4Addr};

/// Where a request came from.
#[derive(Clone, Copy, Debug, PartialEq, Eq)]
pub struct Peer {
    /// Its address.
    pub address: IpAddr,
    /// Its port.
    pub port: u16,
    /// The index of the server's address that it sent to, of those that the server listens on.
    pub local: u8,
}

/// Where a reply goes.
#[derive(Clone, Copy, Debug, PartialEq, Eq)]
pub enum To {
    /// To a peer, in a datagram.
    Address(Peer),
    /// To the peer of the connection with this number.
    Connection(usize),
    /// Nowhere: its connection was closed.
    Nowhere,
}

impl To {
    /// Whether it goes nowhere.
    pub fn is_nowhere(&self) -> bool
        ensures { result ≡ is_nowhere self.now }
    {
        match self {
            To::Address(_) => false,
            To::Connection(_) => false,
            To::Nowhere => true,
        }
    }
}

/// What happens to a primary.
#[derive(Clone, Copy)]
pub enum Event<'a> {
    /// A datagram comes from a peer.
    Datagram(Peer, &'a [u8]),
    /// A peer connects.
    Connect(Peer),
    /// A message comes on a connection.
    Message(usize, &'a [u8]),
    /// What was staged is to be made durable, and what waits for it goes out.
    Flush,
    /// The zone at a position is to be flushed with all others, and then to get a later base, so that its
    /// journal has room again.
    Checkpoint(usize),
    /// The transfer that is open on a connection is to give its next message.
    Pump(usize),
    /// A connection is closed.
    Closed(usize),
}

/// A reply that waited, which is a header alone.
#[derive(Clone, Copy)]
pub struct HeaderTo {
    /// The reply as it waited: it goes where that says.
    pub waited: Waiting,
    /// Its octets.
    pub octets: [u8; 12],
}

/// The octets of a reply.
#[derive(Drop)]
pub enum ReplyOctets {
    /// A header alone, which takes no memory.
    Header([u8; 12]),
    /// A longer reply.
    Longer(Vec<u8, Heap>),
}

impl ReplyOctets {
    /// The octets.
    pub fn as_slice(&self) -> &[u8]
        ensures { result.now ≡ octets_in self.now }
    {
        match self {
            ReplyOctets::Header(octets) => octets,
            ReplyOctets::Longer(octets) => octets.as_slice(),
        }
    }
}

/// The reply to a request.
#[derive(Drop)]
pub struct Reply {
    /// Where it goes.
    pub to: To,
    /// Its octets.
    pub octets: ReplyOctets,
}

/// A reply to an update, which waits for the next flush: where it goes, the address that the update came
/// from, the header of the request, the code, the position of the zone, and the zone's newest version.
#[derive(Clone, Copy)]
pub struct Waiting {
    /// Where it goes.
    pub to: To,
    /// The address that the update came from.
    pub address: IpAddr,
    /// The first octets of the request.
    pub request: [u8; 12],
    /// Its code, unless the zone is closed before.
    pub rcode: Rcode,
    /// The position of the zone.
    pub zone: usize,
    /// The number of the zone's newest version when the update had been judged, the one that it made
    /// included; the loaded one has 0.
    pub version: u64,
    /// The serial of that version.
    pub serial: u32,
}

/// What is to be known of an event besides its replies.
#[derive(Clone, Copy, Debug, PartialEq, Eq)]
pub enum Noted {
    /// Nothing.
    Nothing,
    /// Memory was refused.
    OutOfMemory,
    /// The device of the zone at this position was the first that failed.
    Device(usize),
}

/// What an event does to the world: at most 32 replies that waited go out, each a header alone, and then at
/// most one to the request that came.
pub struct Effects {
    /// The replies that waited.
    pub headers: Vec<HeaderTo, Heap>,
    /// The longer reply: to the request that came, or the next message of a transfer.
    pub message: Option<Reply>,
    /// The number of a new connection, below how many there may be.
    pub accepted: Option<usize>,
    /// What is to be known besides.
    pub noted: Noted,
    ghost few: { length headers.items ≤ 32 },
    ghost below: { (number : ℕ) → accepted ≡ Some number → number < most_connections },
}

// Written out, so that a proof lets one go by one call (docs/GATE.md).
impl Drop for Effects {
    fn drop(self) {
        let Effects {
            headers,
            message,
            accepted: _,
            noted,
        } = self;
        drop((headers, message, noted));
    }
}

impl Default for Peer {
    fn default() -> Peer {
        Peer {
            address: IpAddr::V4(Ipv4Addr::new(0, 0, 0, 0)),
            port: 0,
            local: 0,
        }
    }
}

impl Default for Waiting {
    fn default() -> Waiting {
        Waiting {
            to: To::Nowhere,
            address: IpAddr::V4(Ipv4Addr::new(0, 0, 0, 0)),
            request: [0; 12],
            rcode: Rcode::NoError,
            zone: 0,
            version: 0,
            serial: 0,
        }
    }
}
