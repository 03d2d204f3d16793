//! The way of an update: it is admitted, judged on the newest version of its zone, planned, given room,
//! staged, and answered by the next flush.
ghost use Rattle.std.specs.Prelude.{◌≡◌, ◌≢◌, ◌<◌, ◌++◌, ◌∷◌, [], true, false, None, Some, IfOk, length};
ghost use Rattle.std.specs.Prelude.{option_map, slice_get};
ghost use Rattle.dns_wire.specs.Message.{header_of};
ghost use Rattle.dns_store.specs.Versions.{Kept};
ghost use Rattle.dns_update.specs.Verdict.{verdict};
ghost use Rattle.dns_versions.specs.Each.{Each2};
ghost use Rattle.dns_versions.specs.Held.{HasVersions, newer, newest_each, newest_zone};
ghost use Rattle.dns_primary.specs.declared.event.Noted.TheVariants.{OutOfMemory as StatedLack};
ghost use Rattle.dns_primary.specs.declared.update.Outcome.TheVariants.{Waits};
ghost use Rattle.dns_primary.specs.To.{is_nowhere};
ghost use Rattle.dns_primary.specs.Machine.{Machine, ZoneState, kept_of};
ghost use Rattle.dns_primary.specs.Update.{admission, answer, lacked_by, room_lacked};
ghost use Rattle.dns_primary.specs.Step.{IsUpdateBegun};
ghost use Rattle.dns_primary.specs.Outcome.{IsPlannedBy, IsStageable, lacked_of, refused_as};
ghost use Rattle.dns_primary.specs.Keeps.{IsKept, admission_shown};
ghost use Rattle.dns_primary.specs.Queue.{HoldsStill, IsAnswered, IsOfNewest, IsStageableAt, IsUntouched};
ghost use Rattle.dns_primary.specs.Queue.{asked_of, verdict_on};
ghost use Rattle.dns_primary.specs.Steps.{IsBegunOrLacks, IsUpdatedOrLacks, Stepped, SteppedOn};

use crate::admission::admit;
use crate::{Effects, Noted, Primary, To, Waiting};
use arrayvec::ArrayVec;
use dns_changes::PreparedEntry;
use dns_memory::Heap;
use dns_names::Name;
use dns_request::RequestMessage;
use dns_store::{StageError, ZoneStore};
use dns_update::{Judged, judge};
use dns_versions::{StagePlan, ZoneVersions};
use dns_wire::{Message, Rcode};
use dns_zone::{Zone, ZoneIndex};
use std::alloc::AllocError;
use std::net::IpAddr;

/// An update that came.
#[derive(Drop)]
pub(crate) struct UpdateRequest<'a> {
    /// Where its reply goes.
    pub to: To,
    /// The address that it came from.
    pub address: IpAddr,
    /// The octets of its header.
    pub header: &'a [u8; 12],
    /// Its message, and the zone that it names.
    pub request: RequestMessage<'a>,
}

/// What an update that is admitted comes to.
#[derive(Drop)]
pub(crate) enum Planned<I: ZoneIndex> {
    /// It changes nothing, and its reply waits with this code.
    Unchanged(Rcode),
    /// It is accepted, and there is room for its version: the plan, and how many sectors its entry takes if
    /// they are more than are left of the journal.
    Accepted(StagePlan<I>, Option<usize>),
}

impl<I: ZoneIndex> Planned<I> {
    /// How many sectors have to be made free for it.
    fn lacked(&self) -> Option<usize>
        ensures { result ≡ lacked_of self.now }
    {
        match self {
            Planned::Unchanged(_) => None,
            Planned::Accepted(_, lacked) => *lacked,
        }
    }
}

/// What becomes of the reply to an update.
#[derive(Clone, Copy, Debug, PartialEq, Eq)]
pub(crate) enum Outcome {
    /// It waits, with this code.
    Waits(Rcode),
    /// It goes out at once, with this code.
    AtOnce(Rcode),
    /// Memory was refused.
    OutOfMemory,
}

/// What becomes of the reply to an update that could not be staged.
fn refused(error: StageError) -> Outcome
    ensures { result ≡ refused_as error }
{
    match error {
        StageError::Full => Outcome::AtOnce(Rcode::ServFail),
        StageError::Closed => Outcome::AtOnce(Rcode::ServFail),
        StageError::OutOfMemory => Outcome::OutOfMemory,
    }
}

/// Judges an update on the newest version of a zone (RFC 2136 sections 3.2 to 3.6), and plans the version
/// that it makes. Nothing changes.
fn plan_update<I: ZoneIndex, S: ZoneStore>(
    alloc: Heap,
    zone: &Zone<I>,
    versions: &ZoneVersions<I, S>,
    message: &Message<'_>,
) -> Result<Planned<I>, AllocError>
    ensures planned { (k : Kept) → HasVersions S.keeps zone.now versions.now k
        → IfOk result (IsPlannedBy k
        (verdict (newest_zone k) message.now.message.answers message.now.message.authorities)) }
    ensures lacks { (k : Kept) → HasVersions S.keeps zone.now versions.now k
        → IfOk result (λ p. lacked_of p
        ≡ lacked_by k (verdict (newest_zone k) message.now.message.answers message.now.message.authorities)) }
    ensures stageable { IfOk result (IsStageable (newer zone.now versions.now.tip)) }
{
    match judge(alloc, versions.newest(zone), message) {
        Ok(Judged::Refused(rcode)) => Ok(Planned::Unchanged(rcode)),
        Ok(Judged::NoChange) => Ok(Planned::Unchanged(Rcode::NoError)),
        Ok(Judged::Accepted(change, records)) => {
            let entry = PreparedEntry::new(alloc, change)?;
            match versions.plan(zone, entry, records) {
                Ok(Some(plan)) => {
                    let lacked = versions.lacked(&plan);
                    Ok(Planned::Accepted(plan, lacked))
                }
                Ok(None) => Ok(Planned::Unchanged(Rcode::ServFail)),
                Err(error) => Err(error),
            }
        }
        Err(error) => Err(error),
    }
}

/// The reply to an update of the zone at an index, which waits with this code after what was staged.
fn waiting_reply<I: ZoneIndex, S: ZoneStore>(
    zone: &Zone<I>,
    versions: &ZoneVersions<I, S>,
    index: usize,
    update: &UpdateRequest<'_>,
    rcode: Rcode,
) -> Waiting
    ensures to { result.to ≡ update.now.to }
    ensures address { result.address ≡ update.now.address }
    ensures request { result.request ≡ update.now.header.now }
    ensures rcode { result.rcode ≡ rcode }
    ensures zone { result.zone ≡ index }
    ensures newest { (k : Kept) → HasVersions S.keeps zone.now versions.now k → IsOfNewest k result }
{
    Waiting {
        to: update.to,
        address: update.address,
        request: *update.header,
        rcode,
        zone: index,
        version: versions.store.newest(),
        serial: versions.newest(zone).soa().serial(),
    }
}

/// Lets a reply wait for the next flush, after those that wait.
fn keep_waiting(waiting: &mut ArrayVec<Waiting, 32>, reply: Waiting) -> Outcome
    requires { length waiting.old.items < 32 }
    ensures items { waiting.new.items ≡ waiting.old.items ++ reply ∷ [] }
    ensures outcome { result ≡ Waits reply.rcode }
{
    let rcode = reply.rcode;
    waiting.push(reply);
    Outcome::Waits(rcode)
}

/// Whether memory was refused.
fn lacks_memory(noted: Noted) -> bool
    ensures some { result ≡ true → noted ≡ StatedLack }
    ensures none { result ≡ false → noted ≢ StatedLack }
{
    match noted {
        Noted::Nothing => false,
        Noted::OutOfMemory => true,
        Noted::Device(_) => false,
    }
}

impl<I: ZoneIndex, S: ZoneStore> Primary<I, S> {
    /// Answers an update: its reply waits for the next flush, or goes out at once. If as many wait as may, a
    /// flush comes first; and if it is accepted and its zone's journal lacks room for it, a flush and a
    /// checkpoint.
    pub(crate) fn update(&mut self, alloc: Heap, update: &UpdateRequest<'_>) -> Effects
        requires somewhere { is_nowhere update.now.to ≡ false }
        requires header { header_of update.now.header.now ≡ update.now.request.message.message.header }
        ensures step { (old : Machine) → IsKept self.old old
            → SteppedOn old (room_lacked old (asked_of update.now)) self.old self.new result
            (IsUpdatedOrLacks old (asked_of update.now)) }
        ensures as_many { length self.new.pending.items ≡ length self.old.pending.items }
    {
        let Ok(name) = update.request.question.name().to_name(alloc) else {
            return Effects::out_of_memory(alloc, update.to, update.header);
        };
        let index = match self.admit(update, &name) {
            Ok(index) => index,
            Err(rcode) => {
                let effects = self.make_place(alloc);
                return effects.with_outcome(update, Outcome::AtOnce(rcode));
            }
        };
        let Ok(planned) = self.plan(alloc, index, update) else {
            return Effects::out_of_memory(alloc, update.to, update.header);
        };
        let effects = self.make_way(alloc, index, planned.lacked());
        if lacks_memory(effects.noted) {
            return effects.with_outcome(update, Outcome::OutOfMemory);
        }
        let outcome = self.stage(index, update, planned);
        effects.with_outcome(update, outcome)
    }

    /// The index of the zone that an update is for, or the code with which it is refused at once. The name is
    /// that of the zone that it names.
    fn admit(&self, update: &UpdateRequest<'_>, name: &Name) -> Result<usize, Rcode>
        requires { name.now ≡ update.now.request.question.name }
        ensures admission { (m : Machine) → IsKept self.now m
            → admission_shown m.zones result ≡ admission m.zones (asked_of update.now) }
        ensures inside { IfOk result (λ index. index < length self.now.zones.items) }
    {
        admit(
            &self.zones,
            &self.pending,
            &self.settings,
            &update.request.question,
            name,
            update.address,
        )
    }

    /// Judges an update of the zone at an index, and plans the version that it makes. Nothing changes.
    fn plan(
        &self,
        alloc: Heap,
        index: usize,
        update: &UpdateRequest<'_>,
    ) -> Result<Planned<I>, AllocError>
        requires inside { index < length self.now.zones.items }
        ensures planned { (m : Machine) (z : ZoneState) → IsKept self.now m → slice_get m.zones index ≡ Some z
            → IfOk result (IsPlannedBy (kept_of z) (verdict_on (asked_of update.now) z)) }
        ensures lacks { (m : Machine) (z : ZoneState) → IsKept self.now m → slice_get m.zones index ≡ Some z
            → IfOk result (λ p. lacked_of p ≡ lacked_by (kept_of z) (verdict_on (asked_of update.now) z)) }
        ensures stageable { IfOk result
            (IsStageableAt (newest_each self.now.zones.items self.now.pending.items) index) }
    {
        let message = &update.request.message;
        plan_update(alloc, &self.zones[index], &self.pending[index], message)
    }

    /// Makes a place for one more reply that waits: if as many wait as may, there is a flush.
    fn make_place(&mut self, alloc: Heap) -> Effects
        ensures step { (old : Machine) → IsKept self.old old
            → Stepped old self.old self.new result
            (λ fails stated next. IsUpdateBegun fails old None stated next) }
        ensures room { length self.new.waiting.items < 32 }
        ensures bare { result.message ≡ None }
        ensures as_many { length self.new.pending.items ≡ length self.old.pending.items }
        ensures newest { newest_each self.new.zones.items self.new.pending.items
            ≡ newest_each self.old.zones.items self.old.pending.items }
    {
        if self.waiting.is_full() {
            return self.flush();
        }
        Effects::nothing(alloc)
    }

    /// Does what comes before an update of the zone at an index is staged: if its journal lacks so many
    /// sectors for it, they are made free, and else a place for its reply.
    fn make_way(&mut self, alloc: Heap, index: usize, lacked: Option<usize>) -> Effects
        requires inside { index < length self.old.pending.items }
        ensures step { (old : Machine) → IsKept self.old old
            → SteppedOn old (option_map (λ sectors. (index, sectors)) lacked) self.old self.new result
            (IsBegunOrLacks old (option_map (λ sectors. (index, sectors)) lacked)) }
        ensures room { length self.new.waiting.items < 32 }
        ensures bare { result.message ≡ None }
        ensures as_many { length self.new.pending.items ≡ length self.old.pending.items }
        ensures newest { newest_each self.new.zones.items self.new.pending.items
            ≡ newest_each self.old.zones.items self.old.pending.items }
    {
        match lacked {
            Some(sectors) => self.make_room(index, sectors),
            None => self.make_place(alloc),
        }
    }

    /// Stages what an update of the zone at an index is planned to make, and lets its reply wait, unless the
    /// zone is closed: then the reply goes out at once. No device is touched.
    fn stage(&mut self, index: usize, update: &UpdateRequest<'_>, planned: Planned<I>) -> Outcome
        requires inside { index < length self.old.pending.items }
        requires room { length self.old.waiting.items < 32 }
        requires header { header_of update.now.header.now ≡ update.now.request.message.message.header }
        requires stageable { IsStageableAt (newest_each self.old.zones.items self.old.pending.items) index
            planned }
        ensures done { (m : Machine) → IsKept self.old m → HoldsStill m (asked_of update.now) index planned
            → IsAnswered (IsKept self.new) m (asked_of update.now) (answer m (asked_of update.now)) result }
        ensures still { Each2 (λ a b. IsUntouched S.moment S.left_since S.failed S.is_honest a.store b.store)
            self.old.pending.items self.new.pending.items }
        ensures as_many { length self.new.pending.items ≡ length self.old.pending.items }
    {
        let Ok(()) = self.places.reserve_exact(self.waiting.capacity()) else {
            return Outcome::OutOfMemory;
        };
        let zone = &self.zones[index];
        let versions = &mut self.pending[index];
        if versions.store.is_closed() {
            return Outcome::AtOnce(Rcode::ServFail);
        }
        match planned {
            Planned::Unchanged(rcode) => {
                let reply = waiting_reply(zone, versions, index, update, rcode);
                keep_waiting(&mut self.waiting, reply)
            }
            Planned::Accepted(plan, _) => match versions.stage(zone, plan) {
                Ok(()) => {
                    let reply = waiting_reply(zone, versions, index, update, Rcode::NoError);
                    keep_waiting(&mut self.waiting, reply)
                }
                Err(error) => refused(error),
            },
        }
    }
}
