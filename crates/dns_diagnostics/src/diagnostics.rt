//! Diagnostic lines of what an observer of turns is told.
ghost use Rattle.std.specs.Prelude.{◌≡◌, false};
ghost use Rattle.log.specs.declared.level.Level.TheVariants.{Debug};
ghost use Rattle.log.specs.Level.{allows};

use crate::asker::{Addresses, Asker};
use crate::closing::{Cause, closed_line, refused_line};
use crate::lines::{CONNECTIONS, Lines};
use crate::requests::{Came, keep_came, keep_headers};
use dns_memory::Heap;
use dns_names::Name;
use dns_network::Note;
use dns_primary::{Effects, Event, Noted};
use dns_request::Transport;
use log::{Level, LevelFilter, Log};

/// The diagnostic lines of a turn: why requests were refused and connections closed, and at the level of
/// traces each request too. A line for which memory is refused is left out.
#[derive(Drop)]
pub struct Diagnostics {
    /// Whether there are any lines.
    pub is_on: bool,
    /// The most verbose level of a line.
    most: LevelFilter,
    /// The addresses of connections.
    addresses: Addresses,
    /// What the last note said of the connection that the next one closes.
    cause: Cause,
    /// Whether memory was refused to the last event.
    has_event_lacked: bool,
    lines: Lines,
}

impl Diagnostics {
    /// No lines, and later those of this level and the less verbose ones. Below debug there are none.
    pub fn new(heap: Heap, level: LevelFilter) -> Diagnostics
        ensures { result.is_on ≡ allows level Debug }
    {
        Diagnostics {
            is_on: level.allows(Level::Debug),
            most: level,
            addresses: Addresses::none(),
            cause: Cause::Untold,
            has_event_lacked: false,
            lines: Lines::new(heap),
        }
    }

    /// Takes a note. The lines of the turn before are forgotten when one begins.
    #[inline(always)]
    pub fn note(&mut self, note: Note)
        ensures on { self.new.is_on ≡ self.old.is_on }
        ensures off { self.old.is_on ≡ false → self.new ≡ self.old }
    {
        if self.is_on {
            self.take_note(note);
        }
    }

    /// Takes what an event did, at a server of zones with these names, by their indices.
    #[inline(always)]
    pub fn observe(&mut self, origins: &[Name], event: Event<'_>, effects: &Effects)
        ensures on { self.new.is_on ≡ self.old.is_on }
        ensures off { self.old.is_on ≡ false → self.new ≡ self.old }
    {
        if self.is_on {
            self.take_event(origins, event, effects);
        }
    }

    /// Logs the lines of the turn, in their order.
    #[inline]
    pub fn give_out<R: Log>(&self, rt: &R) {
        if self.is_on {
            self.lines.give_out(rt);
        }
    }

    /// Takes a note, at a level that has lines.
    #[inline(never)]
    fn take_note(&mut self, note: Note)
        ensures { self.new.is_on ≡ self.old.is_on }
    {
        let heap = self.lines.heap();
        match note {
            Note::Begins(_) => self.lines.clear(),
            Note::Opened(number, peer) => self.addresses.keep(number, peer.address),
            Note::Closed(number) => {
                let text = closed_line(heap, number, self.addresses.on(number), self.cause);
                self.lines.keep(Level::Debug, CONNECTIONS, text);
            }
            Note::Refused => self
                .lines
                .keep(Level::Debug, CONNECTIONS, refused_line(heap)),
            Note::Silent(_) => {}
            Note::Stalled(_) => {}
            Note::OutOfMemory => {}
            Note::Device(_) => {}
            Note::Ends => {}
            Note::Unrecorded => {}
        }
        self.cause = Cause::told_by(note, self.has_event_lacked);
    }

    /// Takes what an event did, at a level that has lines.
    #[inline(never)]
    fn take_event(&mut self, origins: &[Name], event: Event<'_>, effects: &Effects)
        ensures { self.new.is_on ≡ self.old.is_on }
    {
        self.cause = Cause::Untold;
        self.has_event_lacked = effects.noted == Noted::OutOfMemory;
        let most = self.most;
        keep_headers(&mut self.lines, most, origins, effects.headers.as_slice());
        if let Some(came) = self.came_by(event) {
            keep_came(&mut self.lines, most, came, effects);
        }
    }

    /// The octets that came by an event, if any did.
    fn came_by<'e>(&self, event: Event<'e>) -> Option<Came<'e>> {
        match event {
            Event::Datagram(peer, octets) => Some(Came {
                asker: Asker::Address(peer.address),
                octets,
                transport: Transport::Udp,
            }),
            Event::Message(number, octets) => Some(Came {
                asker: self.addresses.on(number),
                octets,
                transport: Transport::Tcp,
            }),
            Event::Connect(_) => None,
            Event::Flush => None,
            Event::Checkpoint(_) => None,
            Event::Pump(_) => None,
            Event::Closed(_) => None,
        }
    }
}
