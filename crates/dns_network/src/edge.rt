//! Turns: what is done with the network, one turn after the other.
ghost use Rattle.std.specs.Prelude.{◌≡◌, ◌⊎◌, ◌≤◌, ◌<◌, ℕ, Bool, List, [], map, replicate, false};
ghost use Rattle.std.specs.Prelude.{Some, None, is_some, length, take, slice_get, IfOk, IsTrue};
ghost use Rattle.std.specs.Option.{option_copied_mut};
ghost use Rattle.dns_primary.specs.declared.event.Effects.{Effects as StatedEffects};
ghost use Rattle.dns_primary.specs.Keeps.{IsKept, header_out, reply_out};
ghost use Rattle.dns_primary.specs.Machine.{IsListed, Machine};
ghost use Rattle.dns_primary.specs.Step.{Datagram, Pump};
ghost use Rattle.dns_primary.specs.Steps.{event_shown};
ghost use Rattle.dns_network.specs.Closing.{StalledAreGone, UnusedAreGone};
ghost use Rattle.dns_network.specs.Connection.{IsInUse, IsStalled, IsUnused, IsUnusedOrInUse, used_of};
ghost use Rattle.dns_network.specs.Connections.{IsGoneOr, IsOpenWith, HasPumped, connection_at};
ghost use Rattle.dns_network.specs.Connections.{open_connections};
ghost use Rattle.dns_network.specs.Notes.{AreNoted, notes_of};
ghost use Rattle.dns_network.specs.Delivery.{AreSent, Going, HasEffects, IsClosed, IsSameTurn, IsSent};
ghost use Rattle.dns_network.specs.Delivery.{RestsAsBefore, TakesEvent, connections_of, rested_of, served};
ghost use Rattle.dns_network.specs.Delivery.{served_by};
ghost use Rattle.dns_network.specs.Turn.{AreMoments, Happens, IsHandled, IsMoment, IsWelcomed, NoneWaits};
ghost use Rattle.dns_network.specs.Turn.{TurnMoment, places_for_all};
ghost use Rattle.dns_network.specs.Turns.{AreDone, AreIdle, AreServed, HasItsPart, IsAccepting, IsFlush};
ghost use Rattle.dns_network.specs.Turns.{IsReading, IsReceiving, IsTurn};

use crate::{Connection, Connections, Moved, Network, Note, Observer, Stream};
use dns_memory::Heap;
use dns_primary::{Effects, Event, HeaderTo, Noted, Peer, Primary, Reply, To};
use dns_store::ZoneStore;
use dns_zone::ZoneIndex;
use std::alloc::AllocError;
use std::mem;
use std::net::IpAddr;

/// How many octets are read at once. A datagram of over 512 octets is distinguished from shorter ones by its
/// length.
const PIECE: usize = 4096;

/// The longest message on a stream (RFC 1035 section 4.2.2).
const LONGEST: usize = 65535;

/// Where so many connections are open, the places left are for peers whose address some zone lists.
const PLACES_FOR_ALL: usize = 48;

/// What a turn is made with, beside memory: the network, the primary, and who is told of it.
// Each reference has a lifetime of its own, and `Heap`, itself a reference, is handed on beside them: a proof
// wouldn't know otherwise what is left behind them.
#[derive(Drop)]
struct Turn<'n, 'p, 'l, I: ZoneIndex, D: ZoneStore, N, L> {
    network: &'n mut N,
    primary: &'p mut Primary<I, D>,
    notes: &'l mut L,
}

/// The connections of a server, and buffers for what is read and for a reply.
pub struct Edge<S: Stream> {
    connections: Connections<S>,
    // the second in which each connection was last found to have nothing to do, since when none has got
    // something to send
    rested: Option<u64>,
    buffer: Vec<u8, Heap>,
    // the last reply to a datagram, whose memory is lent to the primary for the next
    spare: Vec<u8, Heap>,
}

// Written out, so that a proof lets one go by one call (docs/GATE.md).
impl<S: Stream + Drop> Drop for Edge<S> {
    fn drop(self) {
        let Edge {
            connections,
            rested: _,
            buffer,
            spare,
        } = self;
        drop((connections, buffer, spare));
    }
}

impl<S: Stream + Drop> Edge<S> {
    /// No connection, and none that is known to have nothing to do. Refused if the memory for the buffer or
    /// for the slots of connections is.
    pub fn new(alloc: Heap) -> Result<Edge<S>, AllocError>
        ensures empty { IfOk result (λ edge. connections_of edge ≡ replicate 64 None) }
        ensures rested { IfOk result (λ edge. rested_of edge ≡ None) }
    {
        let mut buffer = Vec::new(alloc);
        buffer.resize(PIECE, 0)?;
        Ok(Edge {
            connections: Connections::new(alloc)?,
            rested: None,
            buffer,
            spare: Vec::new(alloc),
        })
    }

    /// The connection with that number.
    pub fn connection_mut(&mut self, number: usize) -> Option<&mut Connection<S>>
        ensures value { option_copied_mut result ≡ connection_at number (connections_of self.old) }
    {
        self.connections.get_mut(number)
    }

    /// Closes a connection: its stream is let go, and what waits to go to it goes nowhere.
    fn close<I: ZoneIndex, D: ZoneStore, N: Network<S>, L: Observer>(
        &mut self,
        alloc: Heap,
        turn: &mut Turn<I, D, N, L>,
        number: usize,
    )
        ensures closed { IsClosed L.Observer number
            (served_by turn.old self.old) (served_by turn.new self.new) }
        ensures rested { RestsAsBefore self.old self.new }
        ensures same { IsSameTurn turn.old turn.new }
    {
        let _nothing = turn.primary.step(alloc, Event::Closed(number));
        self.connections.remove(number);
        turn.notes.note(Note::Closed(number));
    }

    /// Sends a reply to where it goes, or queues it there. A connection whose reply can't be queued is
    /// closed.
    #[inline(always)]
    fn send<I: ZoneIndex, D: ZoneStore, N: Network<S>, L: Observer>(
        &mut self,
        alloc: Heap,
        turn: &mut Turn<I, D, N, L>,
        to: To,
        reply: &[u8],
    )
        ensures sent { (cut : Bool) × IsSent N.Network L.Observer to reply.now cut
            (served_by turn.old self.old) (served_by turn.new self.new) }
        ensures rested { RestsAsBefore self.old self.new }
        ensures same { IsSameTurn turn.old turn.new }
    {
        match to {
            To::Address(peer) => turn.network.send(peer, reply),
            To::Connection(number) => {
                self.rested = None;
                if reply.len() > LONGEST {
                    self.close(alloc, turn, number);
                } else if let Err(_) = self.connections.push(number, reply) {
                    turn.notes.note(Note::OutOfMemory);
                    self.close(alloc, turn, number);
                }
            }
            To::Nowhere => {}
        }
    }

    /// Sends the replies that waited, in their order.
    #[inline(always)]
    fn send_headers<I: ZoneIndex, D: ZoneStore, N: Network<S>, L: Observer>(
        &mut self,
        alloc: Heap,
        turn: &mut Turn<I, D, N, L>,
        headers: &[HeaderTo],
    )
        ensures sent { AreSent N.Network L.Observer (map (λ h. header_out h) headers.now)
            (served_by turn.old self.old) (served_by turn.new self.new) }
        ensures rested { RestsAsBefore self.old self.new }
        ensures same { IsSameTurn turn.old turn.new }
    {
        for header in headers {
            let to = header.waited.to;
            self.send(alloc, turn, to, &header.octets);
        }
    }

    /// Sends the reply to what came, if there is one.
    #[inline(always)]
    fn send_reply<I: ZoneIndex, D: ZoneStore, N: Network<S>, L: Observer>(
        &mut self,
        alloc: Heap,
        turn: &mut Turn<I, D, N, L>,
        reply: &Option<Reply>,
    )
        ensures sent { AreSent N.Network L.Observer (reply_out reply.now)
            (served_by turn.old self.old) (served_by turn.new self.new) }
        ensures rested { RestsAsBefore self.old self.new }
        ensures same { IsSameTurn turn.old turn.new }
    {
        if let Some(reply) = reply {
            let octets = reply.octets.as_slice();
            self.send(alloc, turn, reply.to, octets);
        }
    }

    /// Lets the effects of an event happen: the replies that waited in their order, then the one to what
    /// came; and reports the rest.
    #[inline(always)]
    fn deliver<I: ZoneIndex, D: ZoneStore, N: Network<S>, L: Observer>(
        &mut self,
        alloc: Heap,
        turn: &mut Turn<I, D, N, L>,
        effects: &Effects,
    )
        ensures happened { (goings : List Going) × HasEffects N.Network L.Observer effects.now goings
            (served_by turn.old self.old) (served_by turn.new self.new) }
        ensures rested { RestsAsBefore self.old self.new }
        ensures same { IsSameTurn turn.old turn.new }
    {
        self.send_headers(alloc, turn, effects.headers.as_slice());
        self.send_reply(alloc, turn, &effects.message);
        tell(turn.notes, effects.noted);
    }

    /// Opens a connection that a peer made: the primary is told, its stream is watched, and it gets its slot.
    /// One that gets no number, or can't be watched, is closed at once. It is compiled apart, so that a turn
    /// in which none comes doesn't pay for it.
    #[inline(never)]
    fn open_connection<I: ZoneIndex, D: ZoneStore, N: Network<S>, L: Observer>(
        &mut self,
        alloc: Heap,
        turn: &mut Turn<I, D, N, L>,
        stream: S,
        peer: Peer,
        now: u64,
    )
        ensures welcomed { IsWelcomed N.Network L.Observer now stream peer
            (served_by turn.old self.old) (served_by turn.new self.new) }
        ensures rested { RestsAsBefore self.old self.new }
        ensures same { IsSameTurn turn.old turn.new }
    {
        let effects = turn.primary.step(alloc, Event::Connect(peer));
        tell(turn.notes, effects.noted);
        let Some(number) = effects.accepted else {
            return turn.notes.note(Note::Refused);
        };
        turn.notes.note(Note::Opened(number, peer));
        let Some(watched) = turn.network.watch(number, stream) else {
            return self.close(alloc, turn, number);
        };
        let connection = Connection::new(alloc, watched, now);
        if let Err(_) = self.connections.insert(number, connection) {
            self.close(alloc, turn, number);
            return;
        }
        self.rested = None;
    }

    /// Whether there is no place for a connection from the address: the places left are for those that some
    /// zone lists, and none lists it.
    #[inline(never)]
    fn is_full_for<I: ZoneIndex, D: ZoneStore>(
        &self,
        primary: &Primary<I, D>,
        address: IpAddr,
    ) -> bool
        ensures full { IsTrue result → places_for_all ≤ open_connections (connections_of self.now) }
        ensures unlisted { IsTrue result → (m : Machine) → IsKept primary.now m → IsListed m address → ⊥ }
        ensures allowed { result ≡ false → (m : Machine) → IsKept primary.now m
            → (open_connections (connections_of self.now) < places_for_all) ⊎ IsListed m address }
    {
        self.connections.open_count() >= PLACES_FOR_ALL && !primary.lists(address)
    }

    /// Asks for one connection, and accepts it if a peer made one. One for which there is no place is let go at
    /// once. It is compiled apart, so that a turn in which none comes doesn't pay for it.
    #[inline(never)]
    fn ask_for_connection<I: ZoneIndex, D: ZoneStore, N: Network<S>, L: Observer>(
        &mut self,
        alloc: Heap,
        turn: &mut Turn<I, D, N, L>,
        now: u64,
    ) -> bool
        ensures accepts { (moments : List TurnMoment)
            × IsAccepting S.Stream N.Network L.Observer now result moments
            (served_by turn.old self.old) (served_by turn.new self.new) }
        ensures rested { RestsAsBefore self.old self.new }
        ensures same { IsSameTurn turn.old turn.new }
    {
        let Some((stream, peer)) = turn.network.accept() else {
            return false;
        };
        if self.is_full_for(turn.primary, peer.address) {
            turn.notes.note(Note::Refused);
            return true;
        }
        self.open_connection(alloc, turn, stream, peer, now);
        true
    }

    /// Accepts one connection, if a peer made one. Where the network knows that none did, that costs one test.
    #[inline(always)]
    fn accept<I: ZoneIndex, D: ZoneStore, N: Network<S>, L: Observer>(
        &mut self,
        alloc: Heap,
        turn: &mut Turn<I, D, N, L>,
        now: u64,
    ) -> bool
        ensures accepts { (moments : List TurnMoment)
            × IsAccepting S.Stream N.Network L.Observer now result moments
            (served_by turn.old self.old) (served_by turn.new self.new) }
        ensures rested { RestsAsBefore self.old self.new }
        ensures same { IsSameTurn turn.old turn.new }
    {
        if !turn.network.may_accept() {
            return false;
        }
        self.ask_for_connection(alloc, turn, now)
    }

    /// Reads one datagram, if one came, and lets it be answered.
    #[inline(always)]
    fn receive<I: ZoneIndex, D: ZoneStore, N: Network<S>, L: Observer>(
        &mut self,
        alloc: Heap,
        turn: &mut Turn<I, D, N, L>,
    ) -> bool
        ensures receives { (now : ℕ) → (moments : List TurnMoment)
            × IsReceiving S.Stream N.Network L.Observer now result moments
            (served_by turn.old self.old) (served_by turn.new self.new) }
        ensures rested { RestsAsBefore self.old self.new }
        ensures same { IsSameTurn turn.old turn.new }
    {
        let Some((count, peer)) = turn.network.receive(&mut self.buffer) else {
            return false;
        };
        self.answer(alloc, turn, count, peer);
        true
    }

    /// Lets the datagram of so many octets that is in the buffer be answered, in the memory of the reply
    /// before. It does itself what `happen` does, and is compiled apart, so that the effects stay where they
    /// are made.
    #[inline(never)]
    fn answer<I: ZoneIndex, D: ZoneStore, N: Network<S>, L: Observer>(
        &mut self,
        alloc: Heap,
        turn: &mut Turn<I, D, N, L>,
        count: usize,
        peer: Peer,
    )
        requires { count ≤ length self.old.buffer.items }
        ensures answers { (effects : StatedEffects) × (goings : List Going)
            × IsHandled N.Network L.Observer (Datagram peer (take count self.old.buffer.items)) effects goings
            (served_by turn.old self.old) (served_by turn.new self.new) }
        ensures rested { RestsAsBefore self.old self.new }
        ensures same { IsSameTurn turn.old turn.new }
    {
        turn.primary
            .lend(mem::replace(&mut self.spare, Vec::new(alloc)));
        let datagram = Event::Datagram(peer, &self.buffer[..count]);
        let effects = turn.primary.step(alloc, datagram);
        turn.notes.observe(datagram, &effects);
        self.deliver(alloc, turn, &effects);
        self.spare = effects.into_octets(alloc);
    }

    /// Queues the next message of the transfer that is open on a connection, and answers whether there was
    /// one. Where memory is refused there was none, and a later pump gives it.
    fn pump<I: ZoneIndex, D: ZoneStore, N: Network<S>, L: Observer>(
        &mut self,
        alloc: Heap,
        turn: &mut Turn<I, D, N, L>,
        number: usize,
    ) -> bool
        ensures pumps { (now : ℕ) → (effects : StatedEffects) × (goings : List Going)
            × (result ≡ is_some effects.message)
            × IsMoment S.Stream N.Network L.Observer now (Happens (Pump number) effects goings)
            (served_by turn.old self.old) (served_by turn.new self.new) }
        ensures pumped { (m : Machine) → IsKept turn.old.primary.now m
            → HasPumped number result (connections_of self.old) (connections_of self.new) }
        ensures same { IsSameTurn turn.old turn.new }
    {
        let effects = turn.happen(alloc, Event::Pump(number));
        let is_sent = effects.message.is_some();
        self.deliver(alloc, turn, &effects);
        is_sent
    }

    /// Reads one piece of a connection where there is none to handle, and handles one message. A connection
    /// that is silent then is closed.
    fn read_piece<I: ZoneIndex, D: ZoneStore, N: Network<S>, L: Observer>(
        &mut self,
        alloc: Heap,
        turn: &mut Turn<I, D, N, L>,
        number: usize,
        now: u64,
    ) -> bool
        ensures reads { (moments : List TurnMoment)
            × IsReading S.Stream N.Network L.Observer now number moments
            (served_by turn.old self.old) (served_by turn.new self.new) × (result ≡ false → AreIdle moments) }
        ensures silent { IsGoneOr (IsUnusedOrInUse now) (slice_get (connections_of self.old) number)
            → IsGoneOr (IsInUse now) (slice_get (connections_of self.new) number) }
        ensures same { IsSameTurn turn.old turn.new }
    {
        let Ok(moved) = self.connections.read(alloc, number, &mut self.buffer) else {
            turn.notes.note(Note::OutOfMemory);
            self.close(alloc, turn, number);
            return true;
        };
        if let Moved::Ended = moved {
            self.close(alloc, turn, number);
            return true;
        }
        if let Some(message) = self.connections.next_message(number, now) {
            let effects = turn.happen(alloc, Event::Message(number, &message));
            self.deliver(alloc, turn, &effects);
            return true;
        }
        if self.connections.is_silent(number, now) {
            turn.notes.note(Note::Silent(number));
            self.close(alloc, turn, number);
            return true;
        }
        moved != Moved::Later
    }

    /// Gives a connection its part of a turn: what is left to write is written; else the next message of a
    /// transfer is queued; else a piece is read, and a message handled. One that is stalled or silent then is
    /// closed.
    #[inline(always)]
    fn serve_connection<I: ZoneIndex, D: ZoneStore, N: Network<S>, L: Observer>(
        &mut self,
        alloc: Heap,
        turn: &mut Turn<I, D, N, L>,
        number: usize,
        now: u64,
    ) -> bool
        ensures part { (moments : List TurnMoment)
            × HasItsPart S.Stream N.Network L.Observer now number moments
            (served_by turn.old self.old) (served_by turn.new self.new) × (result ≡ false → AreIdle moments) }
        // A connection that was stalled before is gone then, or it was used in this second.
        ensures stalled { IsOpenWith (IsStalled now) (slice_get (connections_of self.old) number)
            → IsGoneOr (λ c. used_of c ≡ now) (slice_get (connections_of self.new) number) }
        // One that was unused before is gone then, or it was used in this second, or octets are left to
        // write.
        ensures silent { (m : Machine) → IsKept turn.old.primary.now m
            → IsOpenWith (IsUnused now) (slice_get (connections_of self.old) number)
            → IsGoneOr (IsInUse now) (slice_get (connections_of self.new) number) }
        ensures same { IsSameTurn turn.old turn.new }
    {
        if !self.connections.is_open(number) {
            return false;
        }
        if self.connections.has_left(number) {
            let moved = self.connections.write(number, now);
            if let Moved::Ended = moved {
                self.close(alloc, turn, number);
                return true;
            }
            if self.connections.is_stalled(number, now) {
                turn.notes.note(Note::Stalled(number));
                self.close(alloc, turn, number);
                return true;
            }
            return moved != Moved::Later;
        }
        if self.pump(alloc, turn, number) {
            return true;
        }
        self.read_piece(alloc, turn, number, now)
    }

    /// Gives each connection its part of a turn, by rising number, and answers whether one had something to
    /// do. If none had in this second, and the network is still, they are passed over.
    fn serve_connections<I: ZoneIndex, D: ZoneStore, N: Network<S>, L: Observer>(
        &mut self,
        alloc: Heap,
        turn: &mut Turn<I, D, N, L>,
        now: u64,
    ) -> bool
        ensures serves { (moments : List TurnMoment)
            × AreServed S.Stream N.Network L.Observer now (rested_of self.old) moments
            (served_by turn.old self.old) (served_by turn.new self.new) × (result ≡ false → AreIdle moments) }
        // Unless none had something to do in this second, each that was unused or stalled is gone, or used.
        ensures unused { (rested_of self.old ≡ Some now → ⊥) → (m : Machine) → IsKept turn.old.primary.now m
            → UnusedAreGone now (connections_of self.old) (connections_of self.new) }
        ensures stalled { (rested_of self.old ≡ Some now → ⊥)
            → StalledAreGone now (connections_of self.old) (connections_of self.new) }
        ensures rested { (second : ℕ) → rested_of self.new ≡ Some second → second ≡ now }
        ensures same { IsSameTurn turn.old turn.new }
    {
        if self.rested == Some(now) && turn.network.is_still() {
            return false;
        }
        let mut is_done = false;
        for number in 0..self.connections.place_count() {
            if self.serve_connection(alloc, turn, number, now) {
                is_done = true;
            }
        }
        self.rested = if is_done { None } else { Some(now) };
        is_done
    }

    /// Lets a flush happen, and the network look before and after it. It is compiled apart, so that a turn
    /// without one doesn't pay for it.
    #[inline(never)]
    fn flush<I: ZoneIndex, D: ZoneStore, N: Network<S>, L: Observer>(
        &mut self,
        alloc: Heap,
        turn: &mut Turn<I, D, N, L>,
    )
        ensures flushes { (now : ℕ) → (moments : List TurnMoment) × IsFlush moments
            × AreMoments S.Stream N.Network L.Observer now moments (served_by turn.old self.old)
            (served_by turn.new self.new) }
        ensures rested { RestsAsBefore self.old self.new }
        ensures same { IsSameTurn turn.old turn.new }
    {
        turn.network.look();
        let effects = turn.happen(alloc, Event::Flush);
        self.deliver(alloc, turn, &effects);
        turn.network.look();
    }

    /// Does what is to be done in a turn, and answers whether there was something.
    #[inline(always)]
    fn work<I: ZoneIndex, D: ZoneStore, N: Network<S>, L: Observer>(
        &mut self,
        alloc: Heap,
        turn: &mut Turn<I, D, N, L>,
        now: u64,
    ) -> bool
        ensures done { (moments : List TurnMoment)
            × AreDone S.Stream N.Network L.Observer now (rested_of self.old) moments
            (served_by turn.old self.old) (served_by turn.new self.new) × (result ≡ false → AreIdle moments) }
        ensures idle { result ≡ false → NoneWaits turn.new.primary.now }
        ensures unused { (rested_of self.old ≡ Some now → ⊥) → (m : Machine) → IsKept turn.old.primary.now m
            → UnusedAreGone now (connections_of self.old) (connections_of self.new) }
        ensures stalled { (rested_of self.old ≡ Some now → ⊥)
            → StalledAreGone now (connections_of self.old) (connections_of self.new) }
        ensures rested { (second : ℕ) → rested_of self.new ≡ Some second → second ≡ now }
        ensures same { IsSameTurn turn.old turn.new }
    {
        let accepted = self.accept(alloc, turn, now);
        let received = self.receive(alloc, turn);
        let visited = self.serve_connections(alloc, turn, now);
        let mut is_done = accepted | received | visited;
        if turn.primary.has_waiting() {
            self.flush(alloc, turn);
            is_done = true;
        }
        is_done
    }

    /// Makes one turn, in the second `now`, and answers whether anything was done in it: at most one
    /// connection is accepted and at most one datagram read; each connection has its part, by rising number;
    /// then there is a flush if a reply waits for one. It is noted that the turn begins, and that it ends.
    ///
    /// Of the 64 places 16 are for peers whose address some zone lists. A connection that is silent or
    /// stalled for 30 seconds is closed.
    ///
    /// A read or a write that would wait does nothing, and one that fails closes its connection. So does
    /// refused memory. If a turn before, in the same second, found that no connection had something to do,
    /// and the network is still, the connections are passed over.
    #[inline(always)]
    pub fn turn<I: ZoneIndex, D: ZoneStore, N: Network<S>, L: Observer>(
        &mut self,
        alloc: Heap,
        network: &mut N,
        primary: &mut Primary<I, D>,
        notes: &mut L,
        now: u64,
    ) -> bool
        // All that is done, part by part; and it answers that nothing was done only if nothing was.
        ensures turn { (moments : List TurnMoment)
            × IsTurn S.Stream N.Network L.Observer now (rested_of self.old) moments
            (served primary.old self.old network.old notes.old)
            (served primary.new self.new network.new notes.new) × (result ≡ false → AreIdle moments) }
        ensures idle { result ≡ false → NoneWaits primary.new }
        // Unless a turn before, in this second, found that no connection had something to do: each that was
        // silent or stalled is gone, or it was used in this second, or a silent one got something to write.
        ensures unused { (rested_of self.old ≡ Some now → ⊥) → (m : Machine) → IsKept primary.old m
            → UnusedAreGone now (connections_of self.old) (connections_of self.new) }
        ensures stalled { (rested_of self.old ≡ Some now → ⊥)
            → StalledAreGone now (connections_of self.old) (connections_of self.new) }
        ensures rested { (second : ℕ) → rested_of self.new ≡ Some second → second ≡ now }
    {
        notes.begin_turn(now);
        let mut turn = Turn {
            network,
            primary,
            notes: &mut *notes,
        };
        let is_done = self.work(alloc, &mut turn, now);
        notes.end_turn();
        is_done
    }
}

impl<I: ZoneIndex, D: ZoneStore, N, L: Observer> Turn<'_, '_, '_, I, D, N, L> {
    /// Lets an event happen, and has it observed.
    #[inline(always)]
    fn happen(&mut self, alloc: Heap, event: Event<'_>) -> Effects
        ensures takes { TakesEvent self.old.primary.now (event_shown event.entry) self.new.primary.now
            result }
        ensures observed { L.observes self.old.notes.now (event_shown event.entry) result
            self.new.notes.now }
        ensures network { self.new.network.now ≡ self.old.network.now }
        ensures same { IsSameTurn self.old self.new }
    {
        let effects = self.primary.step(alloc, event);
        self.notes.observe(event, &effects);
        effects
    }
}

/// Tells what was noted of an event.
#[inline(always)]
fn tell<L: Observer>(notes: &mut L, noted: Noted)
    ensures { AreNoted L.Observer (notes_of noted) notes.old notes.new }
{
    match noted {
        Noted::Nothing => {}
        Noted::OutOfMemory => notes.note(Note::OutOfMemory),
        Noted::Device(index) => notes.note(Note::Device(index)),
    }
}
