//! The run `turns`: a server and its peers over a network in memory, as a script says. The server holds the
//! zone `example.` of a master file, and updates and transfers it for each peer. A script is played once
//! for each of some numbers, and all of its lines have to hold each time.
//!
//! A line that begins with `#` says nothing; each other has steps, between semicolons. In them K is the
//! number of a connection; OCTETS are in hexadecimal; and what is counted is a number, or `N` for the
//! number of the play.
//!
//! What peers do, and what fails them or the server:
//! - `connect COUNT`: so many peers connect; a turn accepts one of them;
//! - `datagram OCTETS`, `datagram OCTETS COUNT`: a datagram comes, as it is or with zeros up to so many
//!   octets;
//! - `stream K OCTETS`, `front K OCTETS`, `back K OCTETS`: these come on a connection, the first N of them,
//!   or those after the first N; `offer K OCTETS`: they come there, if there is such a connection;
//! - `most K COUNT`: no more than so many octets move there in a call; `fail K COUNT`: the so-many-th call
//!   fails;
//! - `close K`: its peer writes no more; `mute on`, `mute off`: datagrams can't be sent, or can be;
//! - `refuse COUNT`: the so-many-th call for memory of the server is refused.
//!
//! Turns: `second COUNT`: they are made in this second; `turn COUNT`: so many are made; `busy`, `idle`: one
//! is, and something is done in it, or nothing is; `settle`: turns are made up to an idle one.
//!
//! What is to be seen, or else the play ends:
//! - `sent K OCTETS`: these went out on a connection, and no others;
//! - `reply OCTETS`: this datagram went out next; `none`: no further one did; `pass`: those that did are
//!   passed over;
//! - `notes COUNT COUNT`: so many connections were opened, and so many closed;
//! - `messages K COUNT COUNT`: at least and at most so many messages went out on a connection; `records K
//!   COUNT`: with so many records; `whole K COUNT OCTETS`: so many records, or else these octets, or it is
//!   closed;
//! - `refused COUNT`: memory was refused since `refuse`, in plays up to this number alone; it is refused no
//!   more.
use crate::served::{Served, served};
use crate::{Ended, started};
use dns_commands::octets;
use dns_configuration::{DONE, Fault, REFUSED, tell};
use dns_memory::{Heap, heap};
use dns_network::{Edge, MemoryNetwork, MemoryNotes, MemoryStream, Note};
use dns_primary::{Peer, Primary};
use dns_store::ZoneStore;
use dns_zone::ZoneIndex;
use std::io::{self, Write};
use std::net::{IpAddr, Ipv4Addr};

/// The peer of all that comes.
const PEER: Peer = Peer {
    address: IpAddr::V4(Ipv4Addr::LOCALHOST),
    port: 5353,
    local: 0,
};

/// Whether octets are these, in hexadecimal.
fn are(heap: Heap, found: &[u8], digits: &str) -> bool {
    match hex::decode(heap, digits) {
        Ok(octets) => octets.as_slice() == found,
        Err(_) => false,
    }
}

/// The words of a step; those that are missing are empty.
#[derive(Clone, Copy)]
struct Words<'a> {
    verb: &'a str,
    first: &'a str,
    second: &'a str,
    third: &'a str,
}

/// The words of a step.
fn words_of(step: &str) -> Words<'_> {
    let mut words = step.split(' ');
    Words {
        verb: words.next().unwrap_or(""),
        first: words.next().unwrap_or(""),
        second: words.next().unwrap_or(""),
        third: words.next().unwrap_or(""),
    }
}

/// How many messages are on a stream, each after its length (RFC 1035 section 4.2.2), and how many records
/// their answer sections have in all (section 4.1.1); none where octets are left over.
fn counted(stream: &[u8]) -> Option<(usize, usize)> {
    let mut rest = stream;
    let mut messages = 0usize;
    let mut records = 0usize;
    for _octet in 0..stream.len() {
        let [high, low, framed @ ..] = rest else {
            break;
        };
        let length = u16::from_be_bytes([*high, *low]);
        let (message, after) = framed.split_at_checked(usize::from(length))?;
        let answers = u16::from_be_bytes([*message.get(6)?, *message.get(7)?]);
        messages = messages.saturating_add(1);
        records = records.saturating_add(usize::from(answers));
        rest = after;
    }
    if rest.is_empty() {
        Some((messages, records))
    } else {
        None
    }
}

/// What a primary is played on: its connections, the network, and what was told. The network has memory of
/// its own.
#[derive(Drop)]
struct Stage {
    heap: Heap,
    own: Heap,
    edge: Edge<MemoryStream>,
    network: MemoryNetwork,
    notes: MemoryNotes,
    /// The number of the play.
    play: usize,
    second: u64,
    /// How many of the datagrams that were sent are looked at.
    seen: usize,
}

impl Stage {
    /// One on which nothing came yet.
    fn new(heap: Heap, own: Heap, play: usize) -> Option<Stage> {
        Some(Stage {
            heap,
            own,
            edge: Edge::new(heap).ok()?,
            network: MemoryNetwork::new(own),
            notes: MemoryNotes::new(own),
            play,
            second: 0,
            seen: 0,
        })
    }

    /// The number of a word.
    fn number(&self, word: &str) -> Option<usize> {
        if word == "N" {
            return Some(self.play);
        }
        word.parse().ok()
    }

    /// The stream of the connection with the number of a word.
    fn stream(&mut self, word: &str) -> Option<&mut MemoryStream> {
        let number = self.number(word)?;
        match self.edge.connection_mut(number) {
            Some(connection) => Some(connection.stream_mut()),
            None => None,
        }
    }

    /// So many peers connect.
    fn connect(&mut self, count: usize) -> Option<()> {
        for _peer in 0..count {
            let stream = MemoryStream::new(self.own);
            self.network.connect(stream, PEER).ok()?;
        }
        Some(())
    }

    /// A datagram comes.
    fn send(&mut self, words: &Words<'_>) -> Option<()> {
        let mut datagram = hex::decode(self.own, words.first).ok()?;
        if let Some(count) = self.number(words.second) {
            datagram.resize(count, 0).ok()?;
        }
        self.network.give(&datagram, PEER).ok()
    }

    /// Octets come on a connection.
    fn give(&mut self, words: &Words<'_>) -> Option<()> {
        let octets = hex::decode(self.own, words.second).ok()?;
        let cut = self.play.min(octets.len());
        let (from, to) = match words.verb {
            "front" => (0, cut),
            "back" => (cut, octets.len()),
            _ => (0, octets.len()),
        };
        match self.stream(words.first) {
            Some(stream) => stream.give(&octets[from..to]).ok(),
            None => None,
        }
    }

    /// It is said how a stream goes on.
    fn limit(&mut self, words: &Words<'_>) -> Option<()> {
        let count = self.number(words.second).unwrap_or(0);
        let stream = self.stream(words.first)?;
        match words.verb {
            "most" => stream.move_at_most(count),
            "fail" => stream.fail_at(count as u64),
            _ => stream.close(),
        }
        Some(())
    }

    /// Lets happen what a step says, if it says what happens between turns.
    fn happen(&mut self, words: &Words<'_>) -> Option<()> {
        match words.verb {
            "" => {}
            "connect" => self.connect(self.number(words.first)?)?,
            "datagram" => self.send(words)?,
            "stream" | "front" | "back" => self.give(words)?,
            "offer" => self.give(words).unwrap_or(()),
            "most" | "fail" | "close" => self.limit(words)?,
            "mute" => self.network.set_sends_fail(words.first == "on"),
            "refuse" => self.heap.refuse(self.number(words.first)? as u64),
            "second" => self.second = self.number(words.first)? as u64,
            "pass" => self.seen = self.network.sent().len(),
            _ => return None,
        }
        Some(())
    }

    /// Whether these octets, and no others, went out on a connection.
    fn has_sent(&mut self, connection: &str, digits: &str) -> Option<bool> {
        let own = self.own;
        match self.stream(connection) {
            Some(stream) => Some(are(own, stream.sent(), digits)),
            None => None,
        }
    }

    /// Whether this datagram was sent next.
    fn has_reply(&mut self, digits: &str) -> bool {
        let Some((sent, peer)) = self.network.sent().get(self.seen) else {
            return false;
        };
        self.seen = self.seen.saturating_add(1);
        *peer == PEER && are(self.own, sent, digits)
    }

    /// How many connections were opened, and how many closed.
    fn notes(&self) -> (usize, usize) {
        let mut counts = (0usize, 0usize);
        for note in self.notes.as_slice() {
            match note {
                Note::Opened(_, _) => counts.0 = counts.0.saturating_add(1),
                Note::Closed(_) => counts.1 = counts.1.saturating_add(1),
                _ => {}
            }
        }
        counts
    }

    /// How many messages and records went out on a connection.
    fn counted(&mut self, connection: &str) -> Option<(usize, usize)> {
        match self.stream(connection) {
            Some(stream) => counted(stream.sent()),
            None => None,
        }
    }

    /// Whether so many records went out, or else these octets, or the connection is closed.
    fn is_whole(&mut self, words: &Words<'_>) -> Option<bool> {
        let records = self.number(words.second)?;
        if self.stream(words.first).is_none() || self.has_sent(words.first, words.third)? {
            return Some(true);
        }
        Some(self.counted(words.first)?.1 == records)
    }

    /// Whether memory was refused, and in plays up to this number alone; and it is refused no more.
    fn was_refused(&self, last: usize) -> bool {
        let was_refused = self.heap.calls() < u64::MAX / 2;
        self.heap.refuse(0);
        was_refused == (self.play <= last)
    }

    /// Whether what a step says is to be seen.
    fn sees(&mut self, words: &Words<'_>) -> Option<bool> {
        Some(match words.verb {
            "sent" => self.has_sent(words.first, words.second)?,
            "reply" => self.has_reply(words.first),
            "none" => self.network.sent().len() == self.seen,
            "notes" => self.notes() == (self.number(words.first)?, self.number(words.second)?),
            "messages" => {
                let count = self.counted(words.first)?.0;
                self.number(words.second)? <= count && count <= self.number(words.third)?
            }
            "records" => self.counted(words.first)?.1 == self.number(words.second)?,
            "whole" => self.is_whole(words)?,
            "refused" => self.was_refused(self.number(words.first)?),
            _ => false,
        })
    }
}

/// Makes a turn, and answers whether something was done in it.
fn turn<I: ZoneIndex, D: ZoneStore>(primary: &mut Primary<I, D>, stage: &mut Stage) -> bool {
    stage.edge.turn(
        stage.heap,
        &mut stage.network,
        primary,
        &mut stage.notes,
        stage.second,
    )
}

/// Makes turns up to an idle one, and answers whether one of a thousand was.
fn settles<I: ZoneIndex, D: ZoneStore>(primary: &mut Primary<I, D>, stage: &mut Stage) -> bool {
    for _turn in 0..1000 {
        if !turn(primary, stage) {
            return true;
        }
    }
    false
}

/// Takes a step, and answers whether it holds.
fn holds<I: ZoneIndex, D: ZoneStore>(
    primary: &mut Primary<I, D>,
    stage: &mut Stage,
    step: &str,
) -> Option<bool> {
    let words = words_of(step);
    match words.verb {
        "turn" => {
            for _turn in 0..stage.number(words.first)? {
                turn(primary, stage);
            }
            Some(true)
        }
        "busy" => Some(turn(primary, stage)),
        "idle" => Some(!turn(primary, stage)),
        "settle" => Some(settles(primary, stage)),
        _ if stage.happen(&words).is_some() => Some(true),
        _ => stage.sees(&words),
    }
}

/// What plays a script on a stage. A call that names both a store over a device and the memory of every
/// collection has no proof, so here the stage is a type parameter.
trait Plays<S> {
    /// Plays a script up to the first line that doesn't hold, and gives the number of that, from 1 on.
    fn play_on(&mut self, stage: &mut S, script: &str) -> Result<(), usize>;
}

impl<I: ZoneIndex, D: ZoneStore> Plays<Stage> for Primary<I, D> {
    fn play_on(&mut self, stage: &mut Stage, script: &str) -> Result<(), usize> {
        let mut number = 0usize;
        for line in script.lines() {
            number = number.saturating_add(1);
            if line.starts_with('#') {
                continue;
            }
            for step in line.split(';') {
                if holds(self, stage, step.trim()) != Some(true) {
                    return Err(number);
                }
            }
        }
        Ok(())
    }
}

/// Plays a script, and lets the primary go.
fn play_over<S, P: Plays<S> + Drop>(primary: P, stage: &mut S, script: &str) -> Result<(), usize> {
    let mut primary = primary;
    primary.play_on(stage, script)
}

/// Plays a script over the zone of a master file, with memory for the server and for its peers, as the play
/// of a number. Gives the first line that doesn't hold, from 1 on, or 0 where there is no server.
fn play(heaps: [Heap; 2], file: &[u8], script: &str, number: usize) -> Result<(), usize> {
    let Some(mut stage) = Stage::new(heaps[0], heaps[1], number) else {
        return Err(0);
    };
    let primary: Option<Served> = served(heaps[0], file);
    let played = match primary {
        Some(primary) => play_over(primary, &mut stage, script),
        None => Err(0),
    };
    drop(stage);
    played
}

/// The numbers of a word: the first, `-` and the last.
fn numbers(word: &str) -> Option<(usize, usize)> {
    let (first, last) = word.split_once('-')?;
    Some((first.parse().ok()?, last.parse().ok()?))
}

/// Plays a script for each of these numbers, up to the first for which a line doesn't hold, and prints how
/// that ended.
fn play_all(
    rt: &HostRuntime,
    file: &[u8],
    script: &str,
    numbers: (usize, usize),
) -> io::Result<Ended> {
    let mut ended = started(rt, DONE);
    let heaps = [heap(rt.alloc())?, heap(rt.alloc())?];
    for number in numbers.0..=numbers.1 {
        if let Err(line) = play(heaps, file, script, number) {
            writeln!(ended.printed, "line {line} of play {number} doesn't hold")?;
            ended.status = REFUSED;
            return Ok(ended);
        }
    }
    writeln!(ended.printed, "plays {} to {} hold", numbers.0, numbers.1)?;
    Ok(ended)
}

/// Plays the script of a file over the zone of a master file, for the numbers of a word.
pub(crate) fn played(rt: &HostRuntime, file: &str, script: &str, word: &str) -> io::Result<Ended> {
    let texts = (octets(rt, file)?, octets(rt, script)?);
    if let (Some(zone), Some(lines), Some(numbers)) = (&texts.0, &texts.1, numbers(word)) {
        if let Ok(lines) = str::from_utf8(lines) {
            return play_all(rt, zone, lines, numbers);
        }
    }
    let mut ended = started(rt, DONE);
    ended.status = tell(&mut ended.told, script, Fault::Unreadable)?;
    Ok(ended)
}
