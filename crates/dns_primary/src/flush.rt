//! The flush of all zones, and of the replies that waited for it.
ghost use Rattle.std.specs.Prelude.{◌≡◌, ◌≢◌, ◌↔◌, ◌<◌, ◌≤◌, ◌+◌, ◌++◌, List, [], None, map, length};
ghost use Rattle.std.specs.Prelude.{slice_get, vec_capacity};
ghost use Rattle.dns_primary.specs.declared.event.Noted.TheVariants.{OutOfMemory as StatedLack};
ghost use Rattle.dns_primary.specs.Step.{IsFlushed, noted_of};
ghost use Rattle.dns_primary.specs.Steps.{Stepped};
ghost use Rattle.dns_zone.specs.Zone.{Zone as Stated};
ghost use Rattle.dns_sectors.specs.Device.{LeavesOnly};
ghost use Rattle.dns_store.specs.Versions.{Kept, OpensAsLeft};
ghost use Rattle.dns_versions.specs.Each.{Each2, Each3};
ghost use Rattle.dns_versions.specs.Held.{AllHave, newest_each};
ghost use Rattle.dns_primary.specs.Machine.{Machine, ZoneState, Waits};
ghost use Rattle.dns_primary.specs.Flush.{all_out, answered_in, answered_of};
ghost use Rattle.dns_primary.specs.Flush.{is_closed_in, released, released_code};
ghost use Rattle.dns_wire.specs.Text.{text};
ghost use Rattle.dns_answer.specs.Answer.{bare_reply};
ghost use Rattle.dns_primary.specs.Keeps.{AreAllFlushed, AreTold, GoesOutAfter, HaveVersions, IsKept};
ghost use Rattle.dns_primary.specs.Keeps.{IsWaiting, header_out};

use crate::{Effects, HeaderTo, Noted, Primary, Waiting};
use arrayvec::ArrayVec;
use dns_answer::header_only;
use dns_memory::Heap;
use dns_store::ZoneStore;
use dns_versions::{ZoneVersions, flush_all};
use dns_wire::Rcode;
use dns_zone::{Zone, ZoneIndex};
use std::mem;

/// Whether the zone at a position is closed, or there is none.
fn is_closed_at<I: ZoneIndex, S: ZoneStore>(pending: &[ZoneVersions<I, S>], index: usize) -> bool
    ensures { (shown : List Stated) (zones : List ZoneState)
        → HaveVersions S.keeps shown pending.now zones
        → result ≡ is_closed_in (slice_get zones index) }
{
    match pending.get(index) {
        Some(zone) => zone.store.is_closed(),
        None => true,
    }
}

/// The octets of a reply that waited.
fn released_octets<I: ZoneIndex, S: ZoneStore>(
    pending: &[ZoneVersions<I, S>],
    waiting: &Waiting,
) -> [u8; 12]
    ensures { (shown : List Stated) (zones : List ZoneState) (w : Waits)
        → HaveVersions S.keeps shown pending.now zones
        → IsWaiting waiting.now w
        → result ≡ text (bare_reply w.header (released_code zones w)) }
{
    let rcode = if is_closed_at(pending, waiting.zone) {
        Rcode::ServFail
    } else {
        waiting.rcode
    };
    header_only(&waiting.request, rcode)
}

/// Lets a reply that waited go out, unless it goes nowhere.
fn release<I: ZoneIndex, S: ZoneStore>(
    pending: &[ZoneVersions<I, S>],
    waiting: &Waiting,
    headers: &mut Vec<HeaderTo, Heap>,
)
    requires { length headers.old.items < vec_capacity headers.old }
    ensures sent { (shown : List Stated) (zones : List ZoneState) (w : Waits)
        → HaveVersions S.keeps shown pending.now zones
        → IsWaiting waiting.now w
        → GoesOutAfter headers.old.items headers.new.items (released zones w) }
    ensures told { (zones : List ZoneState) (w : Waits) (before : List Waits)
        → IsWaiting waiting.now w
        → AreTold headers.old.items before
        → AreTold headers.new.items (before ++ answered_in (released zones w)) }
    ensures few { length headers.new.items ≤ length headers.old.items + 1 }
    ensures capacity { vec_capacity headers.new ≡ vec_capacity headers.old }
{
    if waiting.to.is_nowhere() {
        return;
    }
    headers.push_reserved(HeaderTo {
        waited: *waiting,
        octets: released_octets(pending, waiting),
    });
}

/// Releases the pending replies, for each of which there is a place.
fn release_all<I: ZoneIndex, S: ZoneStore>(
    pending: &[ZoneVersions<I, S>],
    waiting: &ArrayVec<Waiting, 32>,
    headers: &mut Vec<HeaderTo, Heap>,
)
    requires empty { headers.old.items ≡ [] }
    requires places { length waiting.now.items ≤ vec_capacity headers.old }
    ensures sent { (shown : List Stated) (zones : List ZoneState) (ws : List Waits)
        → HaveVersions S.keeps shown pending.now zones
        → Each2 IsWaiting waiting.now.items ws
        → map header_out headers.new.items ≡ all_out (map (released zones) ws) }
    ensures told { (zones : List ZoneState) (ws : List Waits)
        → Each2 IsWaiting waiting.now.items ws
        → AreTold headers.new.items (answered_of (map (released zones) ws)) }
    ensures few { length headers.new.items ≤ 32 }
{
    let waiting = waiting.as_slice();
    for one in waiting {
        release(pending, one, headers);
    }
}

/// Flushes all zones, and releases the pending replies, for each of which there is a place. Gives the first
/// zone whose device failed.
fn flush_zones<I: ZoneIndex, S: ZoneStore>(
    zones: &mut [Zone<I>],
    pending: &mut [ZoneVersions<I, S>],
    waiting: &mut ArrayVec<Waiting, 32>,
    headers: &mut Vec<HeaderTo, Heap>,
) -> Option<usize>
    requires as_many { length zones.old ≡ length pending.old }
    requires unused { headers.old.items ≡ [] }
    requires places { length waiting.old.items ≤ vec_capacity headers.old }
    ensures flushed { (m : Machine) → HaveVersions S.keeps zones.old pending.old m.zones
        → Each2 IsWaiting waiting.old.items m.waiting
        → AreAllFlushed S.keeps S.failed m zones.new pending.old pending.new headers.new.items result }
    ensures empty { waiting.new.items ≡ [] }
    ensures few { length headers.new.items ≤ 32 }
    ensures any_moment { (ks : List Kept) → AllHave S.keeps zones.old pending.old ks
        → Each3 (λ a b k. S.is_honest a.store
        → LeavesOnly S.moment S.left_since a.store b.store (OpensAsLeft S.opens k))
        pending.old pending.new ks }
    ensures honest { Each2 (λ a b. S.is_honest b.store ↔ S.is_honest a.store) pending.old pending.new }
    ensures newest { newest_each zones.new pending.new ≡ newest_each zones.old pending.old }
{
    let failed = flush_all(zones, pending);
    release_all(pending, waiting, headers);
    waiting.clear();
    failed
}

/// The first device that failed, as it is noted.
fn noted(failed: Option<usize>) -> Noted
    ensures value { result ≡ noted_of failed }
    ensures memory { result ≢ StatedLack }
{
    match failed {
        Some(index) => Noted::Device(index),
        None => Noted::Nothing,
    }
}

impl<I: ZoneIndex, S: ZoneStore> Primary<I, S> {
    /// Makes durable what was staged, shows it, and lets go out what waits for it: SERVFAIL where a zone's
    /// device failed. It takes no memory.
    pub fn flush(&mut self) -> Effects
        // Whatever older versions there were, it is the step of the machine, on any devices; and a crash at
        // any moment of it leaves each honest device so that it opens as the versions shown and the first of
        // those staged.
        ensures step { (old : Machine) → IsKept self.old old
            → Stepped old self.old self.new result (λ fails stated next. IsFlushed fails old stated next) }
        ensures bare { result.message ≡ None }
        ensures as_many { length self.new.pending.items ≡ length self.old.pending.items }
        ensures newest { newest_each self.new.zones.items self.new.pending.items
            ≡ newest_each self.old.zones.items self.old.pending.items }
        ensures empty { self.new.waiting.items ≡ [] }
        ensures memory { result.noted ≢ StatedLack }
    {
        let none = Vec::new(*self.places.allocator());
        let mut headers = mem::replace(&mut self.places, none);
        let failed = flush_zones(
            &mut self.zones,
            &mut self.pending,
            &mut self.waiting,
            &mut headers,
        );
        Effects {
            headers,
            message: None,
            accepted: None,
            noted: noted(failed),
        }
    }
}
