//! The network as turns need it, and what they report.
ghost use Rattle.std.specs.Prelude.{◌≡◌, ◌≤◌, ℕ, List, Option, None, false, length, take, IfSome, IsTrue};
ghost use Rattle.std.specs.Option.{option_map};
ghost use Rattle.dns_primary.specs.declared.event.Effects.{Effects as StatedEffects};
ghost use Rattle.dns_primary.specs.declared.event.Peer.{Peer as StatedPeer};
ghost use Rattle.dns_primary.specs.Step.{Event as StatedEvent};
ghost use Rattle.dns_primary.specs.Steps.{event_shown};
ghost use Rattle.dns_network.specs.declared.network.Note.{Note as StatedNote};
ghost use Rattle.dns_network.specs.declared.network.Note.TheVariants.{Begins, Ends};

use dns_primary::{Effects, Event, Peer};

/// A network of datagrams and streams, of which no call waits but `wait`. Its calls are described by how it
/// may go on after each of them.
pub trait Network<S> {
    /// It may go on so where it was asked for a connection, and a peer had made this one, or none had;
    ghost accepts: { Self → Option (S × StatedPeer) → Self → Type 0 };

    /// where it was to watch the stream of a connection by this number, and watches it, or let it go;
    ghost watches: { Self → ℕ → S → Option S → Self → Type 0 };

    /// where it was asked for a datagram, and this one had come, or none;
    ghost receives: { Self → Option (List ℕ × StatedPeer) → Self → Type 0 };

    /// where this datagram was handed to it for a peer;
    ghost sends: { Self → StatedPeer → List ℕ → Self → Type 0 };

    /// and where it looked what came meanwhile, or waited for something.
    ghost looks: { Self → Self → Type 0 };

    /// Until it looks or waits again, no call of a stream moves an octet.
    ghost keeps_still: { Self → Type 0 };

    /// Whether a peer may have made a connection. If not, it would answer that none had, and go on as it is. It
    /// is asked in every turn.
    fn may_accept(&self) -> bool
        ensures { result ≡ false → accepts self.now None self.now };

    /// The next connection that a peer made: its stream, and the peer.
    fn accept(&mut self) -> Option<(S, Peer)>
        ensures { accepts self.old result self.new };

    /// Watches the stream of the connection that has this number from here on, until it is let go: by that
    /// number it is known what may be done with it. A stream that can't be watched is let go.
    fn watch(&mut self, number: usize, stream: S) -> Option<S>
        ensures { watches self.old number stream result self.new };

    /// The next datagram that came, read into a buffer: how many octets it has there, and its peer. What
    /// doesn't fit is cut off.
    fn receive(&mut self, into: &mut [u8]) -> Option<(usize, Peer)>
        ensures few { IfSome result (λ r. r.0 ≤ length into.new) }
        ensures came { receives self.old (option_map (λ r. (take r.0 into.new, r.1)) result) self.new };

    /// Sends a datagram, at once or when next it looks or waits. One that can't be sent is dropped.
    fn send(&mut self, to: Peer, octets: &[u8])
        ensures { sends self.old to octets.now self.new };

    /// Looks at what came meanwhile. It is called before a flush and after it, since that takes long, and by
    /// a server in every 32nd turn.
    fn look(&mut self)
        ensures { looks self.old self.new };

    /// Whether no stream has something to read, or room for what is to be written, as far as it has looked:
    /// until it looks or waits again, no call of a stream moves an octet. A network that doesn't know that
    /// answers false.
    fn is_still(&self) -> bool
        ensures { IsTrue result → keeps_still self.now };

    /// Waits until something may have come, or about a second has passed. It is called where nothing was to
    /// be done.
    fn wait(&mut self)
        ensures { looks self.old self.new };
}

/// What is to be known of a turn.
#[derive(Clone, Copy, Debug, PartialEq, Eq)]
pub enum Note {
    /// A peer has a connection with this number.
    Opened(usize, Peer),
    /// The connection with this number is closed.
    Closed(usize),
    /// No message came on the connection with this number for 30 seconds, and it is closed next.
    Silent(usize),
    /// Nothing could be written to the connection with this number for 30 seconds, and it is closed next.
    Stalled(usize),
    /// A connection that a peer made was closed at once, for want of a place.
    Refused,
    /// Memory was refused.
    OutOfMemory,
    /// The device of the zone at this position was the first that failed in an event.
    Device(usize),
    /// A turn begins, in this second of the clock. It is the first note of each turn.
    Begins(u64),
    /// A turn ends. It is the last note of each turn.
    Ends,
    /// What happens is recorded no longer, since it can't be written. No turn has this note, but a recorder.
    Unrecorded,
}

/// Who is told of turns.
pub trait Observer {
    /// It may go on so where it took this note;
    ghost takes: { Self → StatedNote → Self → Type 0 };

    /// and where it observed this event of the primary, and its effects.
    ghost observes: { Self → StatedEvent → StatedEffects → Self → Type 0 };

    /// Takes a note.
    fn note(&mut self, note: Note)
        ensures { takes self.old note self.new };

    /// Takes the note that a turn begins, in this second of the clock.
    fn begin_turn(&mut self, now: u64)
        ensures { takes self.old (Begins now) self.new }
    {
        self.note(Note::Begins(now));
    }

    /// Takes the note that a turn ends.
    fn end_turn(&mut self)
        ensures { takes self.old Ends self.new }
    {
        self.note(Note::Ends);
    }

    /// Observes an event that the primary has taken, before its effects are delivered: a datagram or a
    /// message that came, a pump of a transfer, or a flush. Of a connection that comes or ends there is a
    /// note.
    fn observe(&mut self, event: Event<'_>, effects: &Effects)
        ensures { observes self.old (event_shown event.entry) effects.now self.new };
}
