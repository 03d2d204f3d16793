//! Transfers: what a request for one opens, and the messages that go out (RFC 5936, RFC 1995).
ghost use Rattle.std.specs.Prelude.{◌≡◌, ◌⊎◌, ◌<◌, ◌==◌, ◌↔◌, ◌++◌, ◌∷◌, ℕ, [], true, false, not};
ghost use Rattle.std.specs.Prelude.{filter, length, slice_get, None, Some, IsTrue, IfOk, IfSome, OnErr, OnOk};
ghost use Rattle.std.specs.Prelude.{MatchOption};
ghost use Rattle.std.specs.List.{position};
ghost use Rattle.dns_wire.specs.Message.{header_of};
ghost use Rattle.dns_primary.specs.To.{is_nowhere};
ghost use Rattle.dns_primary.specs.declared.event.Noted.TheVariants.{OutOfMemory as StatedLack};
ghost use Rattle.dns_primary.specs.declared.event.To.TheVariants.{Connection as StatedConnection};
ghost use Rattle.dns_transfer.specs.Session.{Opens, SendsMessage};
ghost use Rattle.dns_primary.specs.Machine.{Machine, ZoneState};
ghost use Rattle.dns_primary.specs.Flush.{Replied};
ghost use Rattle.dns_primary.specs.Transfer.{OpensFrom, OpensShown, is_free, refusal_of, transport_of};
ghost use Rattle.dns_primary.specs.Step.{Step, Pump};
ghost use Rattle.dns_primary.specs.Keeps.{AreEffects, IsKept, HasConnection, sending_on};
ghost use Rattle.dns_primary.specs.Steps.{IsTransferredOrLacks, Stepped, lack_reply, nothing, one_reply};
ghost use Rattle.dns_primary.specs.Sending.{EndsOn, IsAtOnce, SendsOn, TransferBeginsOrLacks};

use crate::admission::place_of;
use crate::serve::header_octets;
use crate::{Effects, Noted, Peer, Primary, Reply, ReplyOctets, To};
use dns_answer::refuse;
use dns_memory::Heap;
use dns_policy::allows;
use dns_request::{RequestMessage, Transport};
use dns_store::ZoneStore;
use dns_transfer::{Session, Version};
use dns_wire::Rcode;
use dns_zone::{Zone, ZoneIndex};
use std::alloc::AllocError;

/// A transfer that is open on a connection.
#[derive(Drop)]
pub(crate) struct OpenTransfer<I: ZoneIndex> {
    /// The connection's number.
    pub number: usize,
    /// The version that it is of, and how far it was sent.
    pub session: Session<I>,
}

/// The transport by which a reply goes.
fn transport_of(to: To) -> Transport
    ensures { result ≡ transport_of to }
{
    match to {
        To::Address(_) => Transport::Udp,
        To::Connection(_) => Transport::Tcp,
        To::Nowhere => Transport::Udp,
    }
}

/// The position of the transfer that is open on the connection with that number.
fn place_on<I: ZoneIndex>(transfers: &[OpenTransfer<I>], number: usize) -> Option<usize>
    ensures index { result ≡ position (λ t. t.number == number) transfers.now }
    ensures inside { IfSome result (λ index. index < length transfers.now) }
{
    transfers
        .iter()
        .position(|transfer| transfer.number == number)
}

/// Forgets the transfer that is open on the connection with that number, if one is.
pub(crate) fn forget<I: ZoneIndex>(transfers: &mut Vec<OpenTransfer<I>, Heap>, number: usize)
    ensures { transfers.new.items ≡ filter (λ t. not (t.number == number)) transfers.old.items }
{
    transfers.retain(|transfer| transfer.number != number);
}

/// Keeps a transfer after those that are open.
fn keep<I: ZoneIndex>(
    transfers: &mut Vec<OpenTransfer<I>, Heap>,
    transfer: OpenTransfer<I>,
) -> Result<(), AllocError>
    ensures kept { OnOk result (transfers.new.items ≡ transfers.old.items ++ transfer ∷ []) }
    ensures refused { OnErr result (transfers.new.items ≡ transfers.old.items) }
{
    transfers.push(transfer)?;
    Ok(())
}

/// The next message of a transfer, and whether it is at its end then.
fn next_of<I: ZoneIndex>(
    alloc: Heap,
    transfer: &mut OpenTransfer<I>,
) -> Result<(Option<Vec<u8, Heap>>, bool), AllocError>
    ensures number { transfer.new.number ≡ transfer.old.number }
    ensures sent { IfOk result (λ r. MatchOption r.0
        ((transfer.new.session ≡ transfer.old.session) × (transfer.old.session.left ≡ []))
        (λ octets. (transfer.old.session.left ≡ [] → ⊥)
        × SendsMessage transfer.old.session octets.items transfer.new.session)) }
    ensures done { IfOk result (λ r. IsTrue r.1 ↔ (transfer.new.session.left ≡ [])) }
    ensures refused { OnErr result (transfer.new.session ≡ transfer.old.session) }
{
    let message = transfer.session.next_message(alloc)?;
    let is_done = transfer.session.is_done();
    Ok((message, is_done))
}

/// The next message of the transfer at a position, the first on the connection with that number. The last one
/// ends it.
fn next_at<I: ZoneIndex>(
    alloc: Heap,
    transfers: &mut Vec<OpenTransfer<I>, Heap>,
    number: usize,
    index: usize,
) -> Result<Option<Vec<u8, Heap>>, AllocError>
    requires first { position (λ t. t.number == number) transfers.old.items ≡ Some index }
    requires inside { index < length transfers.old.items }
    ensures sent { IfOk result
        (λ message. MatchOption message (EndsOn number transfers.old.items transfers.new.items)
        (λ octets. SendsOn number octets.items transfers.old.items transfers.new.items)) }
    ensures refused { OnErr result
        ((n : ℕ) → sending_on n transfers.new.items ≡ sending_on n transfers.old.items) }
{
    let (message, is_done) = next_of(alloc, &mut transfers[index])?;
    if !is_done {
        return Ok(message);
    }
    forget(transfers, number);
    Ok(message)
}

/// The next message of the transfer that is open on the connection with that number, if one is. The last one
/// ends it.
fn next_on<I: ZoneIndex>(
    alloc: Heap,
    transfers: &mut Vec<OpenTransfer<I>, Heap>,
    number: usize,
) -> Result<Option<Vec<u8, Heap>>, AllocError>
    ensures sent { IfOk result
        (λ message. MatchOption message (EndsOn number transfers.old.items transfers.new.items)
        (λ octets. SendsOn number octets.items transfers.old.items transfers.new.items)) }
    ensures refused { OnErr result
        ((n : ℕ) → sending_on n transfers.new.items ≡ sending_on n transfers.old.items) }
{
    match place_on(transfers, number) {
        None => Ok(None),
        Some(index) => next_at(alloc, transfers, number, index),
    }
}

/// One reply alone, of these octets.
fn message_to(alloc: Heap, to: To, octets: Vec<u8, Heap>) -> Effects
    requires { is_nowhere to ≡ false }
    ensures { AreEffects (one_reply (Replied to octets.entry.items)) result }
{
    let mut effects = Effects::nothing(alloc);
    effects.message = Some(Reply {
        to,
        octets: ReplyOctets::Longer(octets),
    });
    effects
}

/// What a pump gives to a connection: the message, if there is one.
fn message_on(alloc: Heap, number: usize, message: Option<Vec<u8, Heap>>) -> Effects
    ensures { MatchOption message.entry (AreEffects nothing result)
        (λ octets. AreEffects (one_reply (Replied (StatedConnection number) octets.items)) result) }
{
    match message {
        Some(octets) => message_to(alloc, To::Connection(number), octets),
        None => Effects::nothing(alloc),
    }
}

/// What a pump gives that is refused memory: nothing goes out.
fn lacking(alloc: Heap) -> Effects
    ensures { AreEffects (record nothing { noted = StatedLack }) result }
{
    let mut effects = Effects::nothing(alloc);
    effects.noted = Noted::OutOfMemory;
    effects
}

/// The one message of a transfer that isn't by TCP, or SERVFAIL where memory is refused.
fn at_once<I: ZoneIndex>(alloc: Heap, to: To, header: &[u8; 12], session: Session<I>) -> Effects
    requires somewhere { is_nowhere to ≡ false }
    requires some { session.left ≡ [] → ⊥ }
    ensures { IsAtOnce to (header_of header.now) session result }
{
    let mut session = session;
    match session.next_message(alloc) {
        Ok(message) => match message {
            Some(octets) => message_to(alloc, to, octets),
            None => unreachable!(),
        },
        Err(_) => Effects::out_of_memory(alloc, to, header),
    }
}

/// The reply to a request that is refused: FORMERR as a header alone, else with the question.
fn refusal(alloc: Heap, to: To, request: &RequestMessage<'_>, rcode: Rcode) -> Effects
    requires { is_nowhere to ≡ false }
    ensures { AreEffects (one_reply (Replied to
        (refusal_of (transport_of to) request.now.message.octets request.now.message.message
        request.now.question rcode))) result
        ⊎ AreEffects (lack_reply to request.now.message.message.header) result }
{
    let header = header_octets(request);
    match rcode {
        Rcode::FormErr => Effects::refusal(alloc, to, header, Rcode::FormErr),
        _ => {
            let reply = refuse(alloc, request, rcode, transport_of(to));
            Effects::reply(alloc, to, header, reply)
        }
    }
}

/// No version of any of these zones. (A call that is given `None` as it is has no proof: nothing says how
/// long the version that isn't there is lent.)
fn no_version<I: ZoneIndex>(_zones: &[Zone<I>]) -> Option<Version<'_, I>>
    ensures { result ≡ None }
{
    None
}

/// The response code of the refusal of a transfer of a zone that is none of these.
fn open_unheld<I: ZoneIndex>(
    alloc: Heap,
    zones: &[Zone<I>],
    request: &RequestMessage<'_>,
    transport: Transport,
) -> Result<Result<Session<I>, Rcode>, AllocError>
    ensures opens { IfOk result
        (λ opened. Opens transport request.now.message.octets request.now.message.message
        request.now.question None false opened) }
    ensures some { IfOk result (λ opened. IfOk opened (λ s. s.left ≡ [] → ⊥)) }
{
    Session::open(alloc, no_version(zones), false, request, transport)
}

impl<I: ZoneIndex, S: ZoneStore> Primary<I, S> {
    /// Whether no transfer is open where a reply goes.
    fn is_free(&self, to: To) -> bool
        ensures { (m : Machine) → IsKept self.now m → result ≡ is_free to m.connections }
    {
        match to {
            To::Address(_) => true,
            To::Connection(number) => match place_on(&self.transfers, number) {
                Some(_) => false,
                None => true,
            },
            To::Nowhere => true,
        }
    }

    /// What a request for a transfer of the zone at a position opens, or the response code of its refusal:
    /// the version is the one that is shown.
    fn open_shown(
        &self,
        alloc: Heap,
        index: usize,
        peer: Peer,
        to: To,
        request: &RequestMessage<'_>,
    ) -> Result<Result<Session<I>, Rcode>, AllocError>
        requires inside { index < length self.now.zones.items }
        ensures opens { (m : Machine) (z : ZoneState) → IsKept self.now m
            → slice_get m.zones index ≡ Some z → IfOk result
            (OpensShown m z to peer request.now.message.octets request.now.message.message
            request.now.question) }
        ensures some { IfOk result (λ opened. IfOk opened (λ s. s.left ≡ [] → ⊥)) }
    {
        let version = Version {
            zone: &self.zones[index],
            changes: self.pending[index].changes(),
        };
        let is_listed = allows(&self.settings[index].transfer, peer.address);
        let is_allowed = is_listed & self.is_free(to);
        Session::open(alloc, Some(version), is_allowed, request, transport_of(to))
    }

    /// What a request for a transfer opens, or the response code of its refusal.
    fn open_transfer(
        &self,
        alloc: Heap,
        peer: Peer,
        to: To,
        request: &RequestMessage<'_>,
    ) -> Result<Result<Session<I>, Rcode>, AllocError>
        ensures opens { (m : Machine) → IsKept self.now m → IfOk result
            (λ opened. OpensFrom m to peer request.now.message.octets request.now.message.message
            request.now.question opened) }
        ensures some { IfOk result (λ opened. IfOk opened (λ s. s.left ≡ [] → ⊥)) }
    {
        let name = request.question.name().to_name(alloc)?;
        match place_of(&self.zones, &name.lend()) {
            None => open_unheld(alloc, &self.zones, request, transport_of(to)),
            Some(index) => self.open_shown(alloc, index, peer, to, request),
        }
    }

    /// Keeps a transfer that was opened by TCP, or sends its one message.
    fn begin_transfer(
        &mut self,
        alloc: Heap,
        to: To,
        header: &[u8; 12],
        session: Session<I>,
    ) -> Effects
        requires somewhere { is_nowhere to ≡ false }
        requires there { HasConnection self.old.connections to }
        requires some { session.left ≡ [] → ⊥ }
        ensures step { (old : Machine) → IsKept self.old old → is_free to old.connections ≡ true
            → Stepped old self.old self.new result
            (TransferBeginsOrLacks old to (header_of header.now) session) }
        ensures as_many { length self.new.pending.items ≡ length self.old.pending.items }
    {
        match to {
            To::Connection(number) => {
                match keep(&mut self.transfers, OpenTransfer { number, session }) {
                    Ok(()) => Effects::nothing(alloc),
                    Err(_) => Effects::out_of_memory(alloc, to, header),
                }
            }
            To::Address(_) => at_once(alloc, to, header, session),
            To::Nowhere => unreachable!(),
        }
    }

    /// Answers a request for a transfer: by TCP it is open on its connection then, by UDP its one message
    /// goes out.
    pub(crate) fn transfer(
        &mut self,
        alloc: Heap,
        peer: Peer,
        to: To,
        request: &RequestMessage<'_>,
    ) -> Effects
        requires somewhere { is_nowhere to ≡ false }
        requires there { HasConnection self.old.connections to }
        ensures step { (old : Machine) → IsKept self.old old → Stepped old self.old self.new result
            (IsTransferredOrLacks old peer to request.now.message.octets request.now.message.message
            request.now.question) }
        ensures header { request.now.message.message.header ≡ header_of request.now.message.octets }
        ensures as_many { length self.new.pending.items ≡ length self.old.pending.items }
    {
        let header = header_octets(request);
        match self.open_transfer(alloc, peer, to, request) {
            Ok(opened) => match opened {
                Ok(session) => self.begin_transfer(alloc, to, header, session),
                Err(rcode) => refusal(alloc, to, request, rcode),
            },
            Err(_) => Effects::out_of_memory(alloc, to, header),
        }
    }

    /// The transfer that is open on a connection gives its next message, which goes out there. The last one
    /// ends it.
    pub(crate) fn pump(&mut self, alloc: Heap, number: usize) -> Effects
        ensures step { (old : Machine) → IsKept self.old old
            → Stepped old self.old self.new result
            (λ fails stated next. Step fails old (Pump number) stated next) }
        ensures as_many { length self.new.pending.items ≡ length self.old.pending.items }
    {
        match next_on(alloc, &mut self.transfers, number) {
            Ok(message) => message_on(alloc, number, message),
            Err(_) => lacking(alloc),
        }
    }
}
