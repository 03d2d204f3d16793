//! A transfer under way: the version that was shown when it was opened, and how far it was sent (RFC 5936
//! section 2.2, RFC 1995 section 4).
ghost use Rattle.std.specs.Prelude.{◌≡◌, ◌≤◌, ◌↔◌, [], true, length, IfOk, IsTrue, OnErr, OnSome};
ghost use Rattle.std.specs.Prelude.{MatchOption};
ghost use Rattle.dns_wire.specs.Echo.{echo_of};
ghost use Rattle.dns_wire.specs.Puts.{asked};
ghost use Rattle.dns_wire.specs.Reply.{echo, stated};
ghost use Rattle.dns_wire.specs.Text.{question_octets, text};
ghost use Rattle.dns_transfer.specs.Left.{stated_form};
ghost use Rattle.dns_transfer.specs.Messages.{message_with, datagram_of};
ghost use Rattle.dns_transfer.specs.Refusal.{client_serial, serial_asked};
ghost use Rattle.dns_transfer.specs.Session.{IsTransferOpened, Opens, SendsMessage};

use crate::filling::{as_it_stands, fill};
use crate::{Form, History, Place, choose_form, client_serial, refusal_of};
use dns_changes::Change;
use dns_memory::Heap;
use dns_names::Name;
use dns_records::Record;
use dns_records::types::IXFR;
use dns_request::{RequestMessage, Transport};
use dns_wire::limits::MOST_BY_UDP;
use dns_wire::{
    EchoedQuestion, MessageBuilder, Opcode, Pushed, QuestionView, Rcode, Reply, WriteError, Writer,
};
use dns_zone::{Zone, ZoneIndex};
use std::alloc::AllocError;
use std::marker::Model;

/// A message by TCP has at most so many octets: pointers reach no further (RFC 1035 section 4.1.4).
const MESSAGE_LIMIT: usize = 16384;

/// The question of a request, kept until the first message repeats it.
#[derive(Drop)]
pub(crate) struct KeptQuestion {
    pub(crate) octets: Vec<u8, Heap>,
    pub(crate) name: Name,
}

impl Model for KeptQuestion {
    ghost use Rattle.std.specs.Prelude.{◌≤◌, length};
    ghost use Rattle.dns_wire.specs.Text.{EchoedQuestion as Stated};

    ghost Value = { Stated };

    ghost view = { λ q. record { octets = q.octets.items; name = q.name } };

    ghost invariant = { λ q. length q.octets.items ≤ 259 };
}

/// A version of a zone that is held, and the changes that lead to it.
#[derive(Drop)]
pub struct Version<'v, I: ZoneIndex> {
    /// The zone.
    pub zone: &'v Zone<I>,
    /// The changes that lead to it from the oldest version that a client may go on from, the oldest first.
    pub changes: &'v [Change],
}

impl<'v, I: ZoneIndex> Model for Version<'v, I> {
    ghost use Rattle.dns_transfer.specs.Session.{Version as Stated};

    ghost Value = { Stated };

    ghost view = { λ v. record { zone = v.zone.now; changes = v.changes.now } };
}

/// A transfer under way. It holds the version that was shown when it was opened, shared with the zone, and
/// copies of the changes that are sent, and makes a message when it is asked for one.
pub struct Session<I: ZoneIndex> {
    pub(crate) transport: Transport,
    pub(crate) id: u16,
    pub(crate) rd: bool,
    pub(crate) question: Option<KeptQuestion>,
    pub(crate) soa: Record,
    pub(crate) index: I,
    pub(crate) history: History,
    pub(crate) position: Place,
}

// Written out, so that a proof lets one go by one call (docs/GATE.md).
impl<I: ZoneIndex> Drop for Session<I> {
    fn drop(self) {
        let Session {
            transport: _,
            id: _,
            rd: _,
            question,
            soa,
            index,
            history,
            position,
        } = self;
        drop((question, soa, index, history, position));
    }
}

impl<I: ZoneIndex> Model for Session<I> {
    ghost use Rattle.dns_transfer.specs.Left.{left_at};
    ghost use Rattle.dns_transfer.specs.Session.{Sending};

    ghost Value = { Sending };

    ghost view = { λ s. record {
      transport = s.transport;
      heading = record { id = s.id; rd = s.rd };
      question = s.question;
      soa = s.soa;
      left = left_at s.soa (I.records s.index) s.history s.position;
    } };
}

/// The question as the first message repeats it.
fn echoed(question: &Option<KeptQuestion>) -> Option<EchoedQuestion<'_>>
    ensures stated { echo result ≡ question.now }
    ensures short { length (asked (echo result)).octets ≤ 259 }
{
    let kept = question.as_ref()?;
    Some(EchoedQuestion {
        octets: kept.octets.as_slice(),
        name: kept.name.lend(),
    })
}

/// The question of a request, copied.
fn kept_question(alloc: Heap, request: &RequestMessage<'_>) -> Result<KeptQuestion, AllocError>
    ensures { IfOk result (λ kept. kept ≡ echo_of request.now.message.octets request.now.question) }
{
    let name = request.question.name().to_name(alloc)?;
    let mut octets = Vec::new(alloc);
    octets.extend_from_slice(request.message.question_octets())?;
    Ok(KeptQuestion { octets, name })
}

/// The serial that is given to the choice of the form: an AXFR has none.
fn serial_asked(question: &QuestionView<'_>, client: Option<u32>) -> Option<u32>
    ensures { result ≡ serial_asked question.now client }
{
    if question.qtype() == IXFR {
        return client;
    }
    None
}

/// The same form over those changes alone that it sends, copied: none but in the incremental form.
fn sent_alone(alloc: Heap, form: Form, changes: &[Change]) -> Result<(Form, History), AllocError>
    ensures { IfOk result (λ r. stated_form r.1 r.0 ≡ stated_form changes.now form) }
{
    match form {
        Form::Current => Ok((Form::Current, History::new(alloc))),
        Form::Incremental(first) => {
            Ok((
                Form::Incremental(0),
                History::copied(alloc, changes, first)?,
            ))
        }
        Form::Full => Ok((Form::Full, History::new(alloc))),
    }
}

impl<I: ZoneIndex> Session<I> {
    /// The answer to a request that is not refused, from a version of the zone, none of it sent.
    fn of(
        alloc: Heap,
        version: &Version<'_, I>,
        client: Option<u32>,
        request: &RequestMessage<'_>,
        transport: Transport,
    ) -> Result<Session<I>, AllocError>
        requires { client ≡ client_serial request.now.question request.now.message.message.authorities }
        ensures { IfOk result
            (λ s. IsTransferOpened transport request.now.message.octets request.now.message.message
            request.now.question version.now s) }
    {
        let question = kept_question(alloc, request)?;
        let soa = version.zone.soa();
        let asked = serial_asked(&request.question, client);
        let form = choose_form(soa.serial(), version.changes, asked);
        let (form, history) = sent_alone(alloc, form, version.changes)?;
        Ok(Session {
            transport,
            id: request.message.id(),
            rd: request.message.is_recursion_desired(),
            question: Some(question),
            soa: soa.clone()?,
            index: version.zone.index().fork()?,
            history,
            position: Place::Opening(form),
        })
    }

    /// The answer to a request for a transfer, or the response code of its refusal (see `refusal_of`). The
    /// version is that of the zone whose apex is the name of the question, and none where no such zone is
    /// held; `allowed` says whether the peer may have it. What happens to the zone later does not change the
    /// messages.
    pub fn open(
        alloc: Heap,
        version: Option<Version<'_, I>>,
        allowed: bool,
        request: &RequestMessage<'_>,
        transport: Transport,
    ) -> Result<Result<Session<I>, Rcode>, AllocError>
        ensures { IfOk result
            (λ opened. Opens transport request.now.message.octets request.now.message.message
            request.now.question version.entry allowed opened) }
    {
        let client = client_serial(alloc, request)?;
        let held = version.is_some();
        if let Some(rcode) = refusal_of(transport, &request.question, client, held, allowed) {
            return Ok(Err(rcode));
        }
        let Some(version) = version else {
            unreachable!()
        };
        Ok(Ok(Session::of(alloc, &version, client, request, transport)?))
    }

    /// A message of the transfer that has no record yet (RFC 5936 section 2.2.1).
    fn empty(&self) -> Reply<'_, '_>
        ensures stated { stated result ≡ message_with self.now.heading self.now.question [] }
        ensures short { length (question_octets (stated result)) ≤ 259 }
    {
        Reply {
            id: self.id,
            opcode: Opcode::Query,
            aa: true,
            tc: false,
            rd: self.rd,
            rcode: Rcode::NoError,
            question: echoed(&self.question),
            answer: &[],
            authority: &[],
            additional: &[],
        }
    }

    /// The same, to be filled up to a limit.
    fn begun(&self, alloc: Heap, limit: usize) -> Result<MessageBuilder<'_>, AllocError>
        requires least { 512 ≤ limit }
        requires most { limit ≤ 16384 }
        ensures { IfOk result
            (λ b. b ≡ record { reply = message_with self.now.heading self.now.question []; limit = limit }) }
    {
        match MessageBuilder::new(alloc, self.empty(), limit) {
            Ok(message) => Ok(message),
            Err(WriteError::OutOfMemory) => Err(AllocError),
            Err(WriteError::DoesNotFit) => unreachable!(),
        }
    }

    /// The header and the question, with TC.
    fn truncated(&self, alloc: Heap) -> Result<Vec<u8, Heap>, AllocError>
        ensures { IfOk result
            (λ octets. octets.items
            ≡ text (record (message_with self.now.heading self.now.question []) { tc = true })) }
    {
        let mut reply = self.empty();
        reply.tc = true;
        match Writer::write(alloc, &reply, MOST_BY_UDP) {
            Ok(octets) => Ok(octets),
            Err(WriteError::OutOfMemory) => Err(AllocError),
            Err(WriteError::DoesNotFit) => unreachable!(),
        }
    }

    /// The one message by UDP: the whole answer, else the SOA alone, else the header and the question with TC
    /// (RFC 1995 section 2).
    fn datagram(&self, alloc: Heap) -> Result<Vec<u8, Heap>, AllocError>
        ensures { IfOk result
            (λ octets. octets.items
            ≡ datagram_of self.now.heading self.now.question self.now.left self.now.soa) }
    {
        let message = self.begun(alloc, MOST_BY_UDP)?;
        let (whole, position) = fill(
            message,
            &self.soa,
            &self.index,
            &self.history,
            self.position,
        )?;
        if position.is_end() {
            return Ok(whole);
        }
        match self
            .begun(alloc, MOST_BY_UDP)?
            .push(as_it_stands(&self.soa))?
        {
            Pushed::Open(alone) => Ok(alone.finish()),
            Pushed::Full(_) => self.truncated(alloc),
        }
    }

    /// Whether nothing is left to be sent.
    pub fn is_done(&self) -> bool
        ensures { IsTrue result ↔ (self.now.left ≡ []) }
    {
        self.position.is_end()
    }

    /// The next message, made when it is asked for, or none after the last. Where memory is refused the
    /// session is as it was, so that the next call gives the same message.
    pub fn next_message(&mut self, alloc: Heap) -> Result<Option<Vec<u8, Heap>>, AllocError>
        ensures sent { IfOk result
            (λ message. MatchOption message ((self.new ≡ self.old) × (self.old.left ≡ []))
            (λ octets. SendsMessage self.old octets.items self.new)) }
        ensures more { IfOk result (λ message. OnSome message (self.old.left ≡ [] → ⊥)) }
        ensures refused { OnErr result (self.new ≡ self.old) }
    {
        if self.position.is_end() {
            return Ok(None);
        }
        let (octets, position) = match self.transport {
            Transport::Tcp => {
                let message = self.begun(alloc, MESSAGE_LIMIT)?;
                fill(
                    message,
                    &self.soa,
                    &self.index,
                    &self.history,
                    self.position,
                )?
            }
            Transport::Udp => (self.datagram(alloc)?, Place::End),
        };
        self.position = position;
        self.question = None;
        Ok(Some(octets))
    }
}
