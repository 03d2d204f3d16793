//! The flush of zones: their stores are flushed, and what was staged is shown.
ghost use Rattle.std.specs.Prelude.{◌≡◌, ◌<◌, ◌↔◌, List, ◌∷◌, [], ◌++◌, Bool, true, false, length};
ghost use Rattle.dns_sectors.specs.Device.{LeavesOnly};
ghost use Rattle.dns_store.specs.Versions.{Kept, OpensAsLeft};
ghost use Rattle.dns_versions.specs.Each.{Each2, Each3};
ghost use Rattle.dns_versions.specs.Held.{AllHave, HasVersions, newer, newest_each};
ghost use Rattle.dns_versions.specs.Flush.{AreFlushed, IsCounted, kept_after_flush, first_true};

use crate::ZoneVersions;
use dns_store::{FlushError, ZoneStore};
use dns_zone::{Zone, ZoneIndex};

impl<I: ZoneIndex, S: ZoneStore> ZoneVersions<I, S> {
    /// Makes the staged versions of a zone durable and shows the newest, unless its device fails. Answers
    /// whether it failed. A zone whose device failed before stays as it is.
    pub fn flush(&mut self, zone: &mut Zone<I>) -> bool
        ensures held { (k : Kept) → HasVersions S.keeps zone.old self.old k
            → HasVersions S.keeps zone.new self.new (kept_after_flush result k) }
        // A crash at any moment of it leaves an honest device that opens as the versions shown and some of
        // those staged.
        ensures any_moment { (k : Kept) → S.keeps self.old.store k → S.is_honest self.old.store
            → LeavesOnly S.moment S.left_since self.old.store self.new.store (OpensAsLeft S.opens k) }
        ensures honest { S.is_honest self.new.store ↔ S.is_honest self.old.store }
        ensures failed { IsCounted result (S.failed self.old.store) (S.failed self.new.store) }
        ensures open { (k : Kept) → HasVersions S.keeps zone.old self.old k
            → result ≡ true → k.closed ≡ false }
        ensures newest { newer zone.new self.new.tip ≡ newer zone.old self.old.tip }
    {
        match self.store.flush() {
            Ok(()) => {
                if let Some(tip) = self.tip.take() {
                    *zone = tip;
                }
                self.number = self.store.newest();
                false
            }
            Err(FlushError::Device) => true,
            Err(FlushError::Closed) => false,
        }
    }
}

/// The position of the first failure, where it is known of one position more whether it failed.
fn first_failure(first: Option<usize>, failed: bool, position: usize) -> Option<usize>
    ensures { (fails : List Bool) → first ≡ first_true fails → position ≡ length fails
        → result ≡ first_true (fails ++ failed ∷ []) }
{
    match first {
        Some(earlier) => Some(earlier),
        None => { if failed { Some(position) } else { None } }
    }
}

/// Flushes all zones in order. Answers the position of the first whose device failed.
pub fn flush_all<I: ZoneIndex, S: ZoneStore>(
    zones: &mut [Zone<I>],
    pending: &mut [ZoneVersions<I, S>],
) -> Option<usize>
    requires { length zones.old ≡ length pending.old }
    ensures held { (ks : List Kept) → AllHave S.keeps zones.old pending.old ks
        → AreFlushed S.keeps S.failed ks zones.new pending.old pending.new result }
    ensures any_moment { (ks : List Kept) → AllHave S.keeps zones.old pending.old ks
        → Each3 (λ a b k. S.is_honest a.store
        → LeavesOnly S.moment S.left_since a.store b.store (OpensAsLeft S.opens k))
        pending.old pending.new ks }
    ensures honest { Each2 (λ a b. S.is_honest b.store ↔ S.is_honest a.store) pending.old pending.new }
    ensures newest { newest_each zones.new pending.new ≡ newest_each zones.old pending.old }
{
    let mut first = None;
    for i in 0..pending.len() {
        let failed = pending[i].flush(&mut zones[i]);
        first = first_failure(first, failed, i);
    }
    first
}
