//! Numbers of replies, transfers and connections.
ghost use Rattle.std.specs.Prelude.{◌≡◌, ◌<◌, slice_index};
ghost use Rattle.dns_request.specs.Request.{request_of};
ghost use Rattle.dns_request.specs.declared.request.Transport.TheVariants.{Tcp};
ghost use Rattle.dns_primary.specs.Steps.{event_shown};
ghost use Rattle.dns_counters.specs.Counters.{code_in, is_cut, more, more_at, no_counts, opcode_in};
ghost use Rattle.dns_counters.specs.Counters.{count_open, with_event, with_headers, with_message_of};
ghost use Rattle.dns_counters.specs.Counters.{with_note, with_open, with_reply, with_request};
ghost use Rattle.dns_counters.specs.Counters.{with_transfer_step};

use dns_network::Note;
use dns_primary::{Effects, Event, HeaderTo, Noted, Reply};
use dns_records::types;
use dns_request::{Request, Transport, classify};

/// What a server has done since it began. A count stays at its greatest.
#[derive(Clone, Copy, Debug, PartialEq, Eq)]
pub struct Counters {
    /// Replies to queries by their response codes (RFC 1035 section 4.1.1).
    pub queries: [u64; 16],
    /// Replies to updates by their response codes (RFC 2136 section 2.2).
    pub updates: [u64; 16],
    /// Replies that were truncated (RFC 1035 section 4.1.1, TC).
    pub truncated: u64,
    /// Transfers of a whole zone that were opened (RFC 5936).
    pub whole: u64,
    /// Transfers that were opened for a request for changes (RFC 1995).
    pub incremental: u64,
    /// Connections that were opened.
    pub opened: u64,
    /// Connections that were closed.
    pub closed: u64,
    /// Connections that were closed at once for want of a place.
    pub refused: u64,
    /// Connections that were closed because nothing came on them, or nothing could be written, for 30
    /// seconds.
    pub silent: u64,
    /// On which connections, by their numbers, a transfer is open.
    pub sending: [bool; 64],
}

/// One more.
fn more(count: u64) -> u64
    ensures { result ≡ more count }
{
    count.saturating_add(1)
}

/// Counts one more with this response code.
fn count_at(counts: &mut [u64; 16], code: usize)
    requires { code < 16 }
    ensures { counts.new ≡ more_at code counts.old }
{
    counts[code] = more(counts[code]);
}

/// An octet of a reply, or 0 after its end.
fn octet_at(reply: &[u8], index: usize) -> u8
    ensures { result ≡ slice_index reply.now index }
{
    match reply.get(index) {
        Some(octet) => *octet,
        None => 0,
    }
}

/// The opcode of a reply.
fn opcode_in(reply: &[u8]) -> u8
    ensures { result ≡ opcode_in reply.now }
{
    octet_at(reply, 2) / 8 % 16
}

/// The response code of a reply.
fn code_in(reply: &[u8]) -> usize
    ensures code { result ≡ code_in reply.now }
    ensures below { result < 16 }
{
    usize::from(octet_at(reply, 3) % 16)
}

/// Whether a reply is truncated.
fn is_cut(reply: &[u8]) -> bool
    ensures { result ≡ is_cut reply.now }
{
    octet_at(reply, 2) / 2 % 2 == 1
}

impl Counters {
    /// The counts of nothing.
    pub fn new() -> Counters
        ensures { result ≡ no_counts }
    {
        Counters {
            queries: [0; 16],
            updates: [0; 16],
            truncated: 0,
            whole: 0,
            incremental: 0,
            opened: 0,
            closed: 0,
            refused: 0,
            silent: 0,
            sending: [false; 64],
        }
    }

    /// How many transfers are open. Each keeps the version that it sends.
    pub fn open_count(&self) -> usize
        ensures { result ≡ count_open self.now }
    {
        self.sending.iter().filter(|is_open| **is_open).count()
    }

    /// Sets whether a transfer is open on the connection with a number.
    fn set_open(&mut self, number: usize, is_open: bool)
        ensures { self.new ≡ with_open self.old number is_open }
    {
        if number < self.sending.len() {
            self.sending[number] = is_open;
        }
    }

    /// Counts a reply by its opcode and its response code.
    fn count_reply(&mut self, reply: &[u8])
        ensures { self.new ≡ with_reply self.old reply.now }
    {
        let code = code_in(reply);
        match opcode_in(reply) {
            0 => count_at(&mut self.queries, code),
            5 => count_at(&mut self.updates, code),
            _ => {}
        }
        if is_cut(reply) {
            self.truncated = more(self.truncated);
        }
    }

    /// Counts replies that waited.
    fn count_headers(&mut self, headers: &[HeaderTo])
        ensures { self.new ≡ with_headers self.old headers.now }
    {
        for header in headers {
            self.count_reply(&header.octets);
        }
    }

    /// Counts the reply to an event, if there is one, unless it is a message of a transfer.
    fn count_answer(&mut self, event: Event<'_>, message: &Option<Reply>)
        ensures { self.new ≡ with_message_of self.old (event_shown event.entry) message.now }
    {
        if let Event::Pump(_) = event {
            return;
        }
        if let Some(reply) = message {
            self.count_reply(reply.octets.as_slice());
        }
    }

    /// Counts the transfer that octets ask for on the connection with a number, if they do.
    fn count_request(&mut self, number: usize, octets: &[u8])
        ensures { self.new ≡ with_request self.old number (request_of octets.now Tcp) }
    {
        if let Request::Transfer(request) = classify(octets, Transport::Tcp) {
            self.set_open(number, true);
            if request.question.qtype() == types::IXFR {
                self.incremental = more(self.incremental);
            } else {
                self.whole = more(self.whole);
            }
        }
    }

    /// Counts the transfer that an event opened or ended, if it did.
    fn count_transfer(&mut self, event: Event<'_>, effects: &Effects)
        ensures { self.new ≡ with_transfer_step self.old (event_shown event.entry) effects.now }
    {
        if effects.message.is_some() | (effects.noted != Noted::Nothing) {
            return;
        }
        match event {
            Event::Message(number, octets) => self.count_request(number, octets),
            Event::Pump(number) => self.set_open(number, false),
            Event::Datagram(_, _) => {}
            Event::Connect(_) => {}
            Event::Flush => {}
            Event::Checkpoint(_) => {}
            Event::Closed(_) => {}
        }
    }

    /// Counts what an event did: the replies that go out, and the transfer that it opened or ended.
    #[inline(never)]
    pub(crate) fn count_event(&mut self, event: Event<'_>, effects: &Effects)
        ensures { self.new ≡ with_event self.old (event_shown event.entry) effects.now }
    {
        self.count_headers(effects.headers.as_slice());
        self.count_answer(event, &effects.message);
        self.count_transfer(event, effects);
    }

    /// Counts a connection that is opened, closed or refused.
    #[inline(never)]
    pub(crate) fn count_note(&mut self, note: Note)
        ensures { self.new ≡ with_note self.old note }
    {
        match note {
            Note::Opened(_, _) => self.opened = more(self.opened),
            Note::Closed(number) => {
                self.closed = more(self.closed);
                self.set_open(number, false);
            }
            Note::Silent(_) => self.silent = more(self.silent),
            Note::Stalled(_) => self.silent = more(self.silent),
            Note::Refused => self.refused = more(self.refused),
            Note::OutOfMemory => {}
            Note::Device(_) => {}
            Note::Begins(_) => {}
            Note::Ends => {}
            Note::Unrecorded => {}
        }
    }
}
