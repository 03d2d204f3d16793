//! The commands of a script, one a line.
ghost use Rattle.std.specs.Prelude.{◌≡◌, ℕ, List, ◌∷◌, MatchOption, IfOk, Some, codes};
ghost use Rattle.dns_names.specs.Name.{Labels};
ghost use Rattle.dns_replay.specs.Commands.{HasOctets, IsCount, IsReadAs, is_comment, spoken};
ghost use Rattle.dns_replay.specs.Lines.{words};

use crate::keeps::{ZoneKeep, keeps, place_named};
use crate::lines::{first_word, only_word, two_words};
use dns_masterfile::number;
use dns_memory::Heap;
use dns_names::Name;
use dns_policy::address;
use std::alloc::AllocError;
use std::net::IpAddr;

/// What a line says.
#[derive(Drop)]
pub enum Command {
    /// A blank line or a comment.
    Nothing,
    /// `udp ADDR HEX`: a datagram from an address.
    Datagram(IpAddr, Vec<u8, Heap>),
    /// `connect ADDR`: a peer connects.
    Connect(IpAddr),
    /// `tcp N HEX`: a message on a connection.
    Message(u32, Vec<u8, Heap>),
    /// `pump N`: the transfer on a connection gives its next message.
    Pump(u32),
    /// `close N`: a connection is closed.
    Close(u32),
    /// `flush`: what was staged is shown, and what waits goes out.
    Flush,
    /// `checkpoint ORIGIN`: the zone at an index gets a later base.
    Checkpoint(usize),
    /// `fail N`: the N-th write or sync from here on fails.
    Fail(u32),
    /// `stop N`: the N-th write or sync from here on is the last.
    Stop(u32),
    /// `crash [ORIGIN=LIST ..]`: of the pending writes these are kept, and all stores are opened anew.
    Crash(Vec<ZoneKeep, Heap>),
    /// `reopen N [ORIGIN=LIST ..]`: the same, and the N-th write or sync of the opening is the last.
    Reopen(u32, Vec<ZoneKeep, Heap>),
}

/// A message has at most so many octets.
const MOST: usize = 65535;

/// The octets that a text says in hexadecimal digits: 1 to 65,535 of them.
fn octets(alloc: Heap, text: &[u8]) -> Result<Option<Vec<u8, Heap>>, AllocError>
    ensures { IfOk result
        (λ read. MatchOption read ((octets : List ℕ) → ¬ (HasOctets text.now octets))
        (λ octets. HasOctets text.now octets.items)) }
{
    match hex::decode(alloc, text) {
        Ok(octets) if octets.is_empty() || octets.len() > MOST => Ok(None),
        Ok(octets) => Ok(Some(octets)),
        Err(hex::FromHexError::OutOfMemory) => Err(AllocError),
        Err(_) => Ok(None),
    }
}

/// The command whose words are `udp` and these.
fn datagram(alloc: Heap, rest: &[u8]) -> Result<Option<Command>, AllocError>
    ensures { (origins : List Labels) → IfOk result (IsReadAs origins (codes "udp" ∷ words rest.now)) }
{
    let Some((peer, text)) = two_words(rest) else {
        return Ok(None);
    };
    let Some(peer) = address(peer) else {
        return Ok(None);
    };
    match octets(alloc, text)? {
        Some(octets) => Ok(Some(Command::Datagram(peer, octets))),
        None => Ok(None),
    }
}

/// The command whose words are `tcp` and these.
fn message(alloc: Heap, rest: &[u8]) -> Result<Option<Command>, AllocError>
    ensures { (origins : List Labels) → IfOk result (IsReadAs origins (codes "tcp" ∷ words rest.now)) }
{
    let Some((digits, text)) = two_words(rest) else {
        return Ok(None);
    };
    let Some(connection) = number(digits) else {
        return Ok(None);
    };
    match octets(alloc, text)? {
        Some(octets) => Ok(Some(Command::Message(connection, octets))),
        None => Ok(None),
    }
}

/// The command whose words are `connect` and these.
fn connect(rest: &[u8]) -> Option<Command>
    ensures { (origins : List Labels) → IsReadAs origins (codes "connect" ∷ words rest.now) result }
{
    let peer = address(only_word(rest)?)?;
    Some(Command::Connect(peer))
}

/// The command whose words are `close` and these.
fn close(rest: &[u8]) -> Option<Command>
    ensures { (origins : List Labels) → IsReadAs origins (codes "close" ∷ words rest.now) result }
{
    let connection = number(only_word(rest)?)?;
    Some(Command::Close(connection))
}

/// The command whose words are `pump` and these.
fn pump(rest: &[u8]) -> Option<Command>
    ensures { (origins : List Labels) → IsReadAs origins (codes "pump" ∷ words rest.now) result }
{
    let connection = number(only_word(rest)?)?;
    Some(Command::Pump(connection))
}

/// The command whose words are `flush` and these.
fn flush(rest: &[u8]) -> Option<Command>
    ensures { (origins : List Labels) → IsReadAs origins (codes "flush" ∷ words rest.now) result }
{
    match first_word(rest) {
        Some(_) => None,
        None => Some(Command::Flush),
    }
}

/// The number from 1 on that a text is.
fn count(text: &[u8]) -> Option<u32>
    ensures { MatchOption result ((n : ℕ) → ¬ (IsCount text.now n)) (λ n. IsCount text.now n) }
{
    match number(text) {
        Some(0) => None,
        Some(n) => Some(n),
        None => None,
    }
}

/// The command whose words are `fail` and these.
fn fail(rest: &[u8]) -> Option<Command>
    ensures { (origins : List Labels) → IsReadAs origins (codes "fail" ∷ words rest.now) result }
{
    let n = count(only_word(rest)?)?;
    Some(Command::Fail(n))
}

/// The command whose words are `stop` and these.
fn stop(rest: &[u8]) -> Option<Command>
    ensures { (origins : List Labels) → IsReadAs origins (codes "stop" ∷ words rest.now) result }
{
    let n = count(only_word(rest)?)?;
    Some(Command::Stop(n))
}

/// The command whose words are `checkpoint` and these.
fn checkpoint(alloc: Heap, origins: &[Name], rest: &[u8]) -> Result<Option<Command>, AllocError>
    ensures { IfOk result (IsReadAs origins.now (codes "checkpoint" ∷ words rest.now)) }
{
    let Some(origin) = only_word(rest) else {
        return Ok(None);
    };
    match place_named(alloc, origins, origin)? {
        Some(zone) => Ok(Some(Command::Checkpoint(zone))),
        None => Ok(None),
    }
}

/// The command whose words are `crash` and these.
fn crash(alloc: Heap, origins: &[Name], rest: &[u8]) -> Result<Option<Command>, AllocError>
    ensures { IfOk result (IsReadAs origins.now (codes "crash" ∷ words rest.now)) }
{
    match keeps(alloc, origins, rest)? {
        Some(keeps) => Ok(Some(Command::Crash(keeps))),
        None => Ok(None),
    }
}

/// The command whose words are `reopen` and these.
fn reopen(alloc: Heap, origins: &[Name], rest: &[u8]) -> Result<Option<Command>, AllocError>
    ensures { IfOk result (IsReadAs origins.now (codes "reopen" ∷ words rest.now)) }
{
    let Some((digits, after)) = first_word(rest) else {
        return Ok(None);
    };
    let Some(n) = count(digits) else {
        return Ok(None);
    };
    match keeps(alloc, origins, after)? {
        Some(keeps) => Ok(Some(Command::Reopen(n, keeps))),
        None => Ok(None),
    }
}

/// The command that begins with a word, and goes on with the words of a text.
fn command_of(
    alloc: Heap,
    origins: &[Name],
    verb: &[u8],
    rest: &[u8],
) -> Result<Option<Command>, AllocError>
    ensures { IfOk result (IsReadAs origins.now (verb.now ∷ words rest.now)) }
{
    if verb == b"udp".as_slice() {
        return datagram(alloc, rest);
    }
    if verb == b"tcp".as_slice() {
        return message(alloc, rest);
    }
    if verb == b"connect".as_slice() {
        return Ok(connect(rest));
    }
    if verb == b"close".as_slice() {
        return Ok(close(rest));
    }
    if verb == b"flush".as_slice() {
        return Ok(flush(rest));
    }
    if verb == b"checkpoint".as_slice() {
        return checkpoint(alloc, origins, rest);
    }
    if verb == b"fail".as_slice() {
        return Ok(fail(rest));
    }
    if verb == b"stop".as_slice() {
        return Ok(stop(rest));
    }
    if verb == b"pump".as_slice() {
        return Ok(pump(rest));
    }
    if verb == b"crash".as_slice() {
        return crash(alloc, origins, rest);
    }
    if verb == b"reopen".as_slice() {
        return reopen(alloc, origins, rest);
    }
    Ok(None)
}

/// Whether a line is a comment.
fn is_comment(line: &[u8]) -> bool
    ensures { result ≡ is_comment line.now }
{
    line.first() == Some(&b'#')
}

/// The command that a line is, if it is one, where the zones have these names. Words are separated by spaces
/// or tabs.
pub fn read_command(
    alloc: Heap,
    origins: &[Name],
    line: &[u8],
) -> Result<Option<Command>, AllocError>
    ensures { IfOk result (IsReadAs origins.now (spoken line.now)) }
{
    if is_comment(line) {
        return Ok(Some(Command::Nothing));
    }
    match first_word(line) {
        Some((verb, rest)) => command_of(alloc, origins, verb, rest),
        None => Ok(Some(Command::Nothing)),
    }
}
