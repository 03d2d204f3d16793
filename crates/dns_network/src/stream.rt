//! A stream of octets as the edge needs it: reads and writes that don't wait.
ghost use Rattle.std.specs.Prelude.{◌≡◌, ◌<◌, ◌≤◌, ◌↔◌, ◌++◌, List, ℕ, length, take};
ghost use Rattle.dns_network.specs.declared.stream.Moved.{Moved as StatedMoved};
ghost use Rattle.dns_network.specs.Stream.{IfOctets, moved};

use std::io::{self, ErrorKind};

/// What became of a read or a write.
#[derive(Clone, Copy, Debug, PartialEq, Eq)]
pub enum Moved {
    /// So many octets moved, one or more.
    Octets(usize),
    /// None could without waiting.
    Later,
    /// None will any more: the stream ended, or failed.
    Ended,
}

impl Moved {
    /// What an error of the system means for a stream: no octet moved.
    pub fn after_error(error: &io::Error) -> Moved
        ensures none { moved result ≡ 0 }
        ensures still { IfOctets result ⊥ }
    {
        match error.kind() {
            ErrorKind::WouldBlock | ErrorKind::Interrupted => Moved::Later,
            _ => Moved::Ended,
        }
    }
}

/// A stream of octets in both directions, of which no call waits.
///
/// What moved is known of a *faithful* stream; each clause of that has it as its premise, so that a call is
/// safe on any. That a socket is faithful is assumed wherever a fact about it is used, and is proved nowhere.
pub trait Stream {
    /// The octets that were read from it so far.
    ghost received: { Self → List ℕ };

    /// The octets that it took so far.
    ghost sent: { Self → List ℕ };

    /// The stream behaves as its model says.
    ghost is_faithful: { Self → Type 0 };

    /// The stream says itself that it ended, or failed.
    ghost has_ended: { Self → Type 0 };

    /// It may go on so after a read or a write that answered this.
    ghost answers: { Self → StatedMoved → Self → Type 0 };

    /// Reads octets that came, as many as there are and as there is room for.
    fn read(&mut self, into: &mut [u8]) -> Moved
        ensures few { moved result ≤ length into.new }
        ensures some { IfOctets result (0 < moved result) }
        ensures answered { answers self.old result self.new }
        ensures ended { result ≡ Moved.Ended → has_ended self.new }
        ensures came { is_faithful self.old
            → received self.new ≡ received self.old ++ take (moved result) into.new }
        ensures still { is_faithful self.old → sent self.new ≡ sent self.old }
        ensures faithful { is_faithful self.new ↔ is_faithful self.old };

    /// Hands octets over, and answers how many of them were taken, from the front.
    fn write(&mut self, octets: &[u8]) -> Moved
        ensures few { moved result ≤ length octets.now }
        ensures some { IfOctets result (0 < moved result) }
        ensures answered { answers self.old result self.new }
        ensures ended { result ≡ Moved.Ended → has_ended self.new }
        ensures went { is_faithful self.old
            → sent self.new ≡ sent self.old ++ take (moved result) octets.now }
        ensures still { is_faithful self.old → received self.new ≡ received self.old }
        ensures faithful { is_faithful self.new ↔ is_faithful self.old };
}
