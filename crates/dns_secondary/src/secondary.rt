//! One who holds a version of a zone, or nothing, and reads the answer to a request for a newer one
//! (RFC 1995, RFC 5936).
ghost use Rattle.std.specs.Prelude.{◌≡◌, ◌≢◌, ◌≤◌, ◌⊎◌, ◌-◌, ◌^◌, min, length, ◌==◌, ◌&&◌, true, Some, None};
ghost use Rattle.std.specs.Prelude.{IfOk, IfErr, OnOk, OnErr};
ghost use Rattle.std.specs.Option.{option_copied};
ghost use Rattle.dns_names.specs.Name.{names_eq};
ghost use Rattle.dns_records.specs.Types.{class_in};
ghost use Rattle.dns_zone.specs.Zone.{IsZone, zone_fault};
ghost use Rattle.dns_changes.specs.Change.{is_soa};
ghost use Rattle.dns_wire.specs.Puts.{RefusesUpTo};
ghost use Rattle.dns_wire.specs.Reads.{Reads};
ghost use Rattle.dns_request.specs.Request.{IsRequest, Transfer};
ghost use Rattle.dns_secondary.specs.State.{Begun, Led};
ghost use Rattle.dns_secondary.specs.Rest.{is_current, Reaches, FailsBy};
ghost use Rattle.dns_secondary.specs.Received.{received_count, is_incremental};
ghost use Rattle.dns_secondary.specs.Receiving.{header_fault, is_answer, repeats_question, type_asked};
ghost use Rattle.dns_secondary.specs.Request.{question_asked, request_octets, request_message, most_by};
ghost use Rattle.dns_secondary.specs.Told.{progress_at_end, Concludes, Feeds, Hears, TellsProgress, Fails};
ghost use Rattle.dns_secondary.specs.Told.{RefusesMessage};
ghost use Rattle.dns_secondary.specs.Told.{RefusesFrom, RefusesFeed, EndsInNoZone, holding, after_fault};

use crate::reached::Reached;
use crate::reading::{Phase, Reading};
use crate::request::{request, type_asked};
use crate::{Fault, Progress};
use dns_memory::Heap;
use dns_names::Name;
use dns_records::Record;
use dns_records::types::CLASS_IN;
use dns_request::Transport;
use dns_serial::Serial;
use dns_wire::{Message, Opcode, QuestionView, WriteError};
use dns_zone::{Zone, ZoneIndex};
use std::alloc::AllocError;
use std::marker::Model;

/// One who asked for a transfer of a zone: the version that is held, if one is, and how far the answer was
/// read. The records of a message are applied to a fork of the set that was reached, beside the version that
/// is held, and no message is kept.
pub struct Secondary<I: ZoneIndex> {
    apex: Name,
    held: Option<Zone<I>>,
    id: u16,
    transport: Transport,
    reading: Option<Reading<I>>,
}

// Written out, so that a proof lets one go by one call (docs/GATE.md).
impl<I: ZoneIndex> Drop for Secondary<I> {
    fn drop(self) {
        let Secondary {
            apex,
            held,
            id: _,
            transport: _,
            reading,
        } = self;
        drop((apex, held, reading));
    }
}

impl<I: ZoneIndex> Model for Secondary<I> {
    ghost use Rattle.dns_secondary.specs.Receiving.{Receiving};

    ghost Value = { Receiving };

    ghost view = { λ s.
        record { apex = s.apex; held = s.held; id = s.id; transport = s.transport; state = s.reading } };
}

/// Whether a message has the question of the request, or none.
fn repeats_question<I: ZoneIndex>(
    apex: &Name,
    held: &Option<Zone<I>>,
    message: &Message<'_>,
) -> bool
    ensures { result ≡ repeats_question apex.now held.now message.now.message.questions }
{
    if message.question_count() == 0 {
        return true;
    }
    match message.question() {
        Some(question) => is_asked(apex, type_asked(held), &question),
        None => false,
    }
}

/// Whether the question is for the zone of that apex, and that type.
fn is_asked(apex: &Name, rtype: u16, question: &QuestionView<'_>) -> bool
    ensures { result
        ≡ (names_eq question.now.name apex.now && question.now.qtype == rtype
        && question.now.qclass == class_in) }
{
    let is_named = question.name().is(&apex.lend());
    is_named & (question.qtype() == rtype) & (question.qclass() == CLASS_IN)
}

/// Whether the version that is held, if one is, is as new as a SOA (RFC 1995 section 2).
fn is_current<I: ZoneIndex>(held: &Option<Zone<I>>, soa: &Record) -> bool
    requires { is_soa soa.now ≡ true }
    ensures { result ≡ is_current held.now soa.now }
{
    match held {
        Some(zone) => !Serial(soa.serial()).greater(Serial(zone.soa().serial())),
        None => false,
    }
}

impl<I: ZoneIndex> Secondary<I> {
    /// One who asks for the zone of that apex, by a request with that number: for the changes of the version
    /// that is held, or for the whole zone where none is.
    pub fn new(
        alloc: Heap,
        apex: Name,
        held: Option<Zone<I>>,
        id: u16,
        transport: Transport,
    ) -> Result<Secondary<I>, AllocError>
        ensures { IfOk result
            (λ s. s
            ≡ record { apex = apex; held = held; id = id; transport = transport; state = Some Begun }) }
    {
        match I::empty(alloc) {
            Ok(set) => Ok(Secondary {
                apex,
                held,
                id,
                transport,
                reading: Some(Reading {
                    phase: Phase::Begun,
                    set: Reached::of(alloc, set),
                }),
            }),
            Err(error) => {
                drop((apex, held));
                Err(error)
            }
        }
    }

    /// The version that is held: the one that `new` was given, until the answer is at its end.
    pub fn held(&self) -> Option<&Zone<I>>
        ensures { option_copied result ≡ self.now.held }
    {
        self.held.as_ref()
    }

    /// How many records the set has that the answer has led to so far, at most as many as can be counted. It
    /// grows with each record of a whole zone that had not come (RFC 5936 section 2.2). In changes it begins
    /// with those of the version that is held, shrinks with each record that goes, and grows with each that
    /// comes (RFC 1995 section 4). It is none before the first record, one after the SOA that leads alone,
    /// and none where the answer is over.
    pub fn received_count(&self) -> usize
        ensures { result ≡ min (received_count self.now.state) (2 ^ 64 - 1) }
    {
        match &self.reading {
            Some(reading) => reading.received_count(),
            None => 0,
        }
    }

    /// Whether the answer is within changes of the version that is held, so that each further record changes
    /// the set (RFC 1995 section 4).
    pub fn is_incremental(&self) -> bool
        ensures { result ≡ is_incremental self.now.state }
    {
        match &self.reading {
            Some(reading) => reading.is_incremental(),
            None => false,
        }
    }

    /// The octets of the request: a query for the changes of the version that is held, whose SOA is in its
    /// authority section, or for the whole zone where none is held (RFC 1995 section 3, RFC 5936 section
    /// 2.1). A server's door takes them for the request of a transfer. It refuses with `DoesNotFit` where
    /// they are more than a message by that transport has, and with `OutOfMemory` where memory is lacking.
    pub fn request(&self, alloc: Heap) -> Result<Vec<u8, Heap>, WriteError>
        ensures asked { IfOk result
            (λ octets. octets.items ≡ request_octets self.now.apex self.now.held self.now.id) }
        ensures read { IfOk result
            (λ octets. Reads octets.items (request_message self.now.apex self.now.held self.now.id)) }
        ensures door { IfOk result
            (λ octets. IsRequest octets.items self.now.transport
            (Transfer (request_message self.now.apex self.now.held self.now.id)
            (question_asked self.now.apex self.now.held))) }
        ensures fits { IfOk result (λ octets. length octets.items ≤ most_by self.now.transport) }
        ensures refused { IfErr result
            (RefusesUpTo (most_by self.now.transport)
            (length (request_octets self.now.apex self.now.held self.now.id))) }
    {
        request(alloc, &self.apex, &self.held, self.id, self.transport)
    }

    /// Whether a message is a whole response to a query, for the question of the request.
    fn is_answer(&self, message: &Message<'_>) -> bool
        ensures { result ≡ is_answer self.now message.now.message }
    {
        let is_response = message.is_response() & (message.opcode() == Opcode::Query.number());
        is_response & !message.is_truncated() & repeats_question(&self.apex, &self.held, message)
    }

    /// Why a message is refused by its header and its question.
    fn header_fault(&self, message: &Message<'_>) -> Option<Fault>
        ensures { result ≡ header_fault self.now message.now.message }
    {
        if !self.is_answer(message) {
            return Some(Fault::BadMessage);
        }
        if message.id() != self.id {
            return Some(Fault::WrongId);
        }
        let rcode = message.rcode();
        if rcode != 0 {
            return Some(Fault::Refused(rcode));
        }
        None
    }

    /// The message that octets are, if it is accepted.
    fn accept<'m>(&self, octets: &'m [u8]) -> Result<Message<'m>, Fault>
        ensures read { IfOk result
            (λ m. Reads octets.now m.message × (header_fault self.now m.message ≡ None)) }
        ensures refused { IfErr result (RefusesMessage self.now octets.now) }
    {
        match Message::read(octets) {
            Ok(message) => match self.header_fault(&message) {
                Some(fault) => Err(fault),
                None => Ok(message),
            },
            Err(_) => Err(Fault::BadMessage),
        }
    }

    /// What is reported where the answer was read so far.
    fn verdict(&self, reading: &Reading<I>) -> Progress
        ensures { result ≡ progress_at_end self.now reading.now }
    {
        match &reading.phase {
            Phase::Ended => Progress::Done,
            Phase::Led(soa) => self.verdict_alone(soa),
            _ => Progress::More,
        }
    }

    /// What is reported of a SOA alone.
    fn verdict_alone(&self, soa: &Record) -> Progress
        requires { is_soa soa.now ≡ true }
        ensures { result ≡ progress_at_end self.now (Led soa.now) }
    {
        if is_current(&self.held, soa) {
            return Progress::UpToDate;
        }
        match self.transport {
            Transport::Udp => Progress::RetryTcp,
            Transport::Tcp => Progress::More,
        }
    }

    /// The set at the end of the answer, which is to be a valid zone, is held in place of the version before.
    fn hold(&mut self, set: I) -> Result<(), Fault>
        requires { self.old.state ≡ None }
        ensures held { OnOk result (self.new ≡ holding self.old (I.records set)) }
        ensures valid { OnOk result (IsZone (record { apex = self.old.apex; records = I.records set })) }
        ensures refused { IfErr result
            (λ e. (e ≡ Fault.OutOfMemory)
            ⊎ ((zone_fault self.old.apex (I.records set) ≢ None) × (e ≡ Fault.InvalidZone))) }
        ensures stays { OnErr result (self.new ≡ self.old) }
    {
        match Zone::from_index(self.apex.clone()?, set) {
            Ok(zone) => {
                self.held = Some(zone);
                Ok(())
            }
            Err(_) => Err(Fault::InvalidZone),
        }
    }

    /// The end of the answer.
    fn finish(&mut self, reading: Reading<I>) -> Result<Progress, Fault>
        requires over { self.old.state ≡ None }
        requires end { progress_at_end self.old reading ≡ Progress.Done }
        ensures told { IfOk result (λ p. p ≡ progress_at_end self.old reading) }
        ensures ends { IfOk result (λ p. Concludes self.old reading p self.new) }
        ensures refused { IfErr result (λ e. (e ≡ Fault.OutOfMemory) ⊎ EndsInNoZone self.old reading e) }
        ensures stays { OnErr result (self.new ≡ self.old) }
    {
        let set = reading.into_set()?;
        match self.hold(set) {
            Ok(()) => Ok(Progress::Done),
            Err(fault) => Err(fault),
        }
    }

    /// The end of a message.
    fn conclude(&mut self, reading: Reading<I>) -> Result<Progress, Fault>
        requires { self.old.state ≡ None }
        ensures told { IfOk result (λ p. p ≡ progress_at_end self.old reading) }
        ensures ends { IfOk result (λ p. Concludes self.old reading p self.new) }
        ensures refused { IfErr result (λ e. (e ≡ Fault.OutOfMemory) ⊎ EndsInNoZone self.old reading e) }
        ensures stays { OnErr result (self.new ≡ self.old) }
    {
        match self.verdict(&reading) {
            Progress::More => {
                self.reading.insert(reading);
                Ok(Progress::More)
            }
            Progress::Done => self.finish(reading),
            alone => {
                drop(reading);
                Ok(alone)
            }
        }
    }

    /// The records of a message, after those that were read, in a fork of what they led to.
    fn take_answers(
        &self,
        alloc: Heap,
        reading: &Reading<I>,
        message: &Message<'_>,
    ) -> Result<Reading<I>, Fault>
        ensures reached { IfOk result
            (λ next. Reaches self.now.apex self.now.held reading.now message.now.message.answers next) }
        ensures refused { IfErr result
            (λ e. (e ≡ Fault.OutOfMemory)
            ⊎ FailsBy self.now.apex self.now.held reading.now message.now.message.answers e) }
    {
        match reading.fork() {
            Ok(fork) => fork.take_all(alloc, &self.apex, &self.held, message.answers()),
            Err(_) => Err(Fault::OutOfMemory),
        }
    }

    /// What the records of a message tell.
    fn apply(
        &mut self,
        alloc: Heap,
        reading: &Reading<I>,
        message: &Message<'_>,
    ) -> Result<Progress, Fault>
        requires { self.old.state ≡ None }
        ensures told { IfOk result
            (λ p. TellsProgress self.old reading.now message.now.message.answers p self.new) }
        ensures refused { IfErr result
            (λ e. (e ≡ Fault.OutOfMemory) ⊎ Fails self.old reading.now message.now.message.answers e) }
        ensures stays { OnErr result (self.new ≡ self.old) }
    {
        let reading = self.take_answers(alloc, reading, message)?;
        self.conclude(reading)
    }

    /// What octets tell that come after those that were read.
    fn hear(&mut self, alloc: Heap, reading: &Reading<I>, octets: &[u8]) -> Result<Progress, Fault>
        requires { self.old.state ≡ None }
        ensures told { IfOk result (λ p. Hears self.old reading.now octets.now p self.new) }
        ensures refused { IfErr result
            (λ e. (e ≡ Fault.OutOfMemory) ⊎ RefusesFrom self.old (Some reading.now) octets.now e) }
        ensures stays { OnErr result (self.new ≡ self.old) }
    {
        match self.accept(octets) {
            Ok(message) => self.apply(alloc, reading, &message),
            Err(fault) => Err(fault),
        }
    }

    /// Reads the next message of the answer, and applies its records as they come. `More` is answered where
    /// they lead to a state that is not at the answer's end, from which the next message is read. The tests
    /// are made in this order:
    ///
    /// - `AfterEnd`: the answer is at its end, or was refused before.
    /// - `BadMessage`, `WrongId`, `Refused`: of the message's header and its question.
    /// - `BadSequence`, `RemovesAbsent`, `AddsPresent`, `InvalidZone`: of its records, the first that is a
    ///   fault; at the end of the answer, after the last record of the message, the set that is no valid
    ///   zone.
    ///
    /// Where it is refused, the version that is held stays, and every later call answers `AfterEnd`, as after
    /// `Done`, `UpToDate` and `RetryTcp`. `OutOfMemory`, which may come at any call, changes nothing: the
    /// same message can be fed again.
    pub fn feed(&mut self, alloc: Heap, octets: &[u8]) -> Result<Progress, Fault>
        ensures fed { IfOk result (λ progress. Feeds self.old octets.now progress self.new) }
        ensures refused { IfErr result (λ e. (e ≡ Fault.OutOfMemory) ⊎ RefusesFeed self.old octets.now e) }
        ensures stays { IfErr result (λ e. self.new ≡ after_fault self.old e) }
    {
        match self.reading.take() {
            Some(reading) => {
                let told = self.hear(alloc, &reading, octets);
                if matches!(told, Err(Fault::OutOfMemory)) {
                    self.reading.insert(reading);
                    return told;
                }
                drop(reading);
                told
            }
            None => Err(Fault::AfterEnd),
        }
    }
}
