//! A zone that is taken in over a stream: the request, and the answer as it comes (RFC 5936, RFC 1995).
ghost use Rattle.std.specs.Prelude.{◌≡◌, ◌↔◌, ◌-◌, ◌^◌, ◌<◌, ◌≤◌, true, false, [], length, map, min, take};
ghost use Rattle.std.specs.Prelude.{Some, IfOk, IfErr};
ghost use Rattle.dns_zone.specs.Zone.{Zone as Stated};
ghost use Rattle.dns_wire.specs.Message.{Message};
ghost use Rattle.dns_wire.specs.Reads.{Reads};
ghost use Rattle.dns_network.specs.Framed.{pending_length};
ghost use Rattle.dns_secondary.specs.Received.{is_incremental, received_count};
ghost use Rattle.dns_secondary.specs.Receiving.{Receiving};
ghost use Rattle.dns_secondary.specs.Request.{request_octets};
ghost use Rattle.dns_secondary.specs.Told.{Feeds};
ghost use Rattle.dns_secondary.specs.declared.fault.Progress.TheVariants.{More};
ghost use Rattle.dns_fetch.specs.FetchFaults.{ComesOfAsking};
ghost use Rattle.dns_fetch.specs.TakingIn.{HasExchanged, HasHeardEnd, HasHeardRefusal, IsAnswerRefused};
ghost use Rattle.dns_fetch.specs.TakingIn.{IsIdleCount, IsTakenIn, IsTooMuch, Tells, TellRefusal, idle_limit};

use crate::fetch_faults::FetchFault;
use crate::servers::WaitingStream;
use crate::watching::{Watch, records_in};
use dns_memory::Heap;
use dns_names::Name;
use dns_network::{Framing, Moved, Octets, Outbox, framing_law};
use dns_request::Transport;
use dns_secondary::laws::taken_law;
use dns_secondary::{Fault, Progress, Secondary};
use dns_wire::at_most_one;
use dns_wire::header::{HEADER_LEN, answer_count};
use dns_zone::{Zone, ZoneIndex};

/// The number of the request. One request is made on a connection, so that each may have the same.
const REQUEST_NUMBER: u16 = 1;

/// How many octets are read at once, at most: those of the longest message (RFC 1035 section 4.2.2).
const PIECE: usize = 65536;

/// The most records that a zone has.
const MOST_RECORDS: usize = 65536;

/// How many messages in a row that bring no record end an answer.
const IDLE_LIMIT: u16 = 4096;

/// Writes all that is left to write, and waits where it must.
fn write_all<S: WaitingStream>(stream: &mut S, outbox: &mut Outbox) -> Result<(), FetchFault>
    ensures written { IfOk result (λ _. HasExchanged S.Stream stream.old outbox.old [] stream.new) }
    ensures others { IfErr result (λ e. ComesOfAsking e (λ _. ⊥)) }
{
    'writes: for _ in 0..u64::MAX {
        if outbox.is_empty() {
            return Ok(());
        }
        match outbox.write(stream) {
            Moved::Octets(_) => {}
            Moved::Later => {
                if !stream.wait() {
                    return Err(FetchFault::TimedOut);
                }
            }
            Moved::Ended => return Err(FetchFault::Closed),
        }
    }
    Err(FetchFault::TimedOut)
}

/// Sends the request for the zone.
fn ask<S: WaitingStream, I: ZoneIndex>(
    heap: Heap,
    stream: &mut S,
    secondary: &Secondary<I>,
) -> Result<(), FetchFault>
    ensures asked { IfOk result (λ _. HasExchanged S.Stream stream.old
        (pending_length (request_octets secondary.now.apex secondary.now.held secondary.now.id)) []
        stream.new) }
    ensures others { IfErr result (λ e. ComesOfAsking e (λ _. ⊥)) }
{
    // No request is longer than a message by TCP may be, so that nothing but memory is refused.
    let Ok(request) = secondary.request(heap) else {
        return Err(FetchFault::OutOfMemory);
    };
    let mut outbox = Outbox::new(heap);
    outbox.push(&request)?;
    write_all(stream, &mut outbox)
}

/// Reads octets as they come, and waits where none are there. Answers how many.
fn read_some<S: WaitingStream>(stream: &mut S, into: &mut [u8]) -> Result<usize, FetchFault>
    ensures few { IfOk result (λ count. count ≤ length into.new) }
    ensures came { IfOk result
        (λ count. HasExchanged S.Stream stream.old [] (take count into.new) stream.new) }
    ensures others { IfErr result (λ e. ComesOfAsking e (λ _. ⊥)) }
{
    'reads: for _ in 0..u64::MAX {
        match stream.read(into) {
            Moved::Octets(count) => return Ok(count),
            Moved::Later => {
                if !stream.wait() {
                    return Err(FetchFault::TimedOut);
                }
            }
            Moved::Ended => return Err(FetchFault::Closed),
        }
    }
    Err(FetchFault::TimedOut)
}

/// Whether more records of a whole zone have come than one may have.
#[tactic(auto, using(crate::proofs::Idle::too_much, crate::proofs::Idle::not_too_much))]
fn is_too_much<I: ZoneIndex>(secondary: &Secondary<I>) -> bool
    ensures beyond { result ≡ true → IsTooMuch secondary.now }
    ensures within { result ≡ false → IsTooMuch secondary.now → ⊥ }
{
    if secondary.is_incremental() {
        return false;
    }
    secondary.received_count() > MOST_RECORDS
}

/// Whether a message has no record in its answer section (RFC 1035 section 4.1.1).
fn has_no_answers(message: &[u8]) -> bool
    ensures { (m : Message) → Reads message.now m → ((result ≡ true) ↔ (m.answers ≡ [])) }
{
    if message.len() < HEADER_LEN {
        return false;
    }
    answer_count(message) == 0
}

/// Whether no changes are told, and as many records have come as before the last message.
fn is_whole_with<I: ZoneIndex>(secondary: &Secondary<I>, before: usize) -> bool
    ensures { (result ≡ true)
        ↔ ((is_incremental secondary.now.state ≡ false)
        × (min (received_count secondary.now.state) (2 ^ 64 - 1) ≡ before)) }
{
    if secondary.is_incremental() {
        return false;
    }
    secondary.received_count() == before
}

/// How many messages in a row have brought no record, where `idle` had and one more was fed, before which so
/// many records had come.
fn idle_with<I: ZoneIndex>(
    idle: u16,
    secondary: &Secondary<I>,
    before: usize,
    message: &[u8],
) -> u16
    requires { idle < idle_limit }
    ensures { (s : Receiving)
        → before ≡ min (received_count s.state) (2 ^ 64 - 1)
        → Feeds s message.now More secondary.now
        → (IsTooMuch secondary.now → ⊥)
        → IsIdleCount s message.now secondary.now idle result }
{
    if has_no_answers(message) {
        return idle + 1;
    }
    if is_whole_with(secondary, before) {
        return idle + 1;
    }
    0
}

/// Reads the messages of an answer in their order, until it is at its end, and answers whether it is. One
/// that brings more records of a whole zone than one may have is given up: no zone comes of it, whatever
/// follows. So is one with too many messages in a row that bring no record, of which `idle` is the count.
fn feed_messages<I: ZoneIndex>(
    heap: Heap,
    secondary: &mut Secondary<I>,
    messages: &[Octets],
    idle: &mut u16,
) -> Result<bool, FetchFault>
    requires { idle.old < idle_limit }
    ensures told { IfOk result
        (λ is_ended. Tells idle.old secondary.old (map (λ m. m.items) messages.now) is_ended
        idle.new secondary.new) }
    ensures refused { IfErr result
        (λ e. ComesOfAsking e (TellRefusal idle.old secondary.old (map (λ m. m.items) messages.now))) }
{
    for message in messages {
        let before = secondary.received_count();
        match secondary.feed(heap, message)? {
            Progress::More => {
                if is_too_much(secondary) {
                    return Err(FetchFault::Refused(Fault::InvalidZone));
                }
                *idle = idle_with(*idle, secondary, before, message);
                if *idle == IDLE_LIMIT {
                    return Err(FetchFault::Refused(Fault::BadSequence));
                }
            }
            Progress::Done => return Ok(true),
            Progress::UpToDate => return Ok(true),
            // By TCP this is never reported (RFC 1995 section 2).
            Progress::RetryTcp => return Err(FetchFault::Closed),
        }
    }
    Ok(false)
}

/// Reads the answer piece by piece, until it is at its end.
fn read_answer<S: WaitingStream, I: ZoneIndex, P: Watch>(
    heap: Heap,
    stream: &mut S,
    piece: &mut [u8],
    secondary: &mut Secondary<I>,
    watch: &mut P,
) -> Result<(), FetchFault>
    ensures told { IfOk result
        (λ _. HasHeardEnd S.Stream stream.old secondary.old stream.new secondary.new) }
    ensures refused { IfErr result
        (λ e. ComesOfAsking e (λ fault. HasHeardRefusal S.Stream stream.old secondary.old fault stream.new)) }
{
    framing_law();
    let mut framing = Framing::new(heap);
    let mut idle = 0u16;
    'pieces: for _ in 0..u64::MAX {
        let count = read_some(stream, piece)?;
        let messages = framing.feed(heap, &piece[..count])?;
        watch.received(records_in(messages.as_slice()));
        if feed_messages(heap, secondary, &messages, &mut idle)? {
            return Ok(());
        }
    }
    Err(FetchFault::TimedOut)
}

/// Reads the answer until it is at its end, with room for one piece of it.
fn listen<S: WaitingStream, I: ZoneIndex, P: Watch>(
    heap: Heap,
    stream: &mut S,
    secondary: &mut Secondary<I>,
    watch: &mut P,
) -> Result<(), FetchFault>
    ensures told { IfOk result
        (λ _. HasHeardEnd S.Stream stream.old secondary.old stream.new secondary.new) }
    ensures refused { IfErr result
        (λ e. ComesOfAsking e (λ fault. HasHeardRefusal S.Stream stream.old secondary.old fault stream.new)) }
{
    let mut piece = Vec::new(heap);
    piece.resize(PIECE, 0)?;
    read_answer(heap, stream, &mut piece, secondary, watch)
}

/// Takes in the zone of that apex: asks for the changes of the version that is held, or for the whole zone
/// where none is, and reads the answer up to its end. One who holds the zone is given back.
pub(crate) fn take_in<S: WaitingStream, I: ZoneIndex, P: Watch>(
    heap: Heap,
    stream: &mut S,
    apex: Name,
    held: Option<Zone<I>>,
    watch: &mut P,
) -> Result<Secondary<I>, FetchFault>
    ensures taken { IfOk result
        (λ s. (zone : Stated) × (s.held ≡ Some zone)
        × IsTakenIn S.Stream apex held stream.old zone.records stream.new) }
    ensures refused { IfErr result (λ e.
        ComesOfAsking e (λ fault. IsAnswerRefused S.Stream apex held stream.old fault stream.new)) }
{
    taken_law();
    at_most_one();
    let mut secondary = Secondary::new(heap, apex, held, REQUEST_NUMBER, Transport::Tcp)?;
    ask(heap, stream, &secondary)?;
    listen(heap, stream, &mut secondary, watch)?;
    Ok(secondary)
}
