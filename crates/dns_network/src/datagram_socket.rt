//! A socket of datagrams as turns need it.
ghost use Rattle.std.specs.Prelude.{◌≤◌, List, ℕ, length, take, Option, IfSome};
ghost use Rattle.std.specs.Option.{option_map};
ghost use Rattle.dns_primary.specs.declared.event.Peer.{Peer as StatedPeer};

use dns_primary::Peer;

/// A socket of datagrams, none of whose calls waits. Its calls are described by how it may go on after each
/// of them.
pub trait DatagramSocket {
    /// It may go on so where it was asked for a datagram, and this one had come, or none;
    ghost receives: { Self → Option (List ℕ × StatedPeer) → Self → Type 0 };

    /// and where this datagram was handed to it for a peer.
    ghost sends: { Self → List ℕ × StatedPeer → Self → Type 0 };

    /// The next datagram that came, read into a buffer: how many octets it has there, and its peer. What
    /// doesn't fit is cut off.
    fn receive(&mut self, into: &mut [u8]) -> Option<(usize, Peer)>
        ensures few { IfSome result (λ r. r.0 ≤ length into.new) }
        ensures came { receives self.old (option_map (λ r. (take r.0 into.new, r.1)) result) self.new };

    /// Sends a datagram. One that can't be sent is dropped.
    fn send(&mut self, to: Peer, octets: &[u8])
        ensures { sends self.old (octets.now, to) self.new };
}
