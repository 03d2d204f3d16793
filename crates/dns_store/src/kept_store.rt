//! The store of a zone on a device, as the layer above sees it: a journal in versions, the zone at its base,
//! and the changes from there.
ghost use Rattle.std.specs.Prelude.{◌≡◌, ◌≤◌, ◌+◌, ◌*◌, ◌^◌, true};
ghost use Rattle.std.specs.Prelude.{drop};

use crate::{CheckpointError, ZoneStore};
use dns_changes::{Change, PreparedEntry};
use dns_journal::{Cursor, FlushError, Journal, StageError};
use dns_layout::{Root, entry_sectors};
use dns_memory::Heap;
use dns_sectors::Sectors;
use dns_zone::{Zone, ZoneIndex};
use std::alloc::AllocError;

/// The versions of a zone on a device. Its base and the changes since are its own, so that they are always
/// those of what the device holds.
pub struct KeptStore<D: Sectors, I: ZoneIndex> {
    pub(crate) alloc: Heap,
    pub(crate) journal: Journal<D>,
    // the version that the journal begins at
    pub(crate) base: Zone<I>,
    // those from there to the newest version, staged ones among them
    pub(crate) changes: Vec<Change, Heap>,
}

// Written out, so that a proof lets one go by one call (docs/GATE.md). It takes the value apart and lets each
// part go, and makes no call on the device.
impl<D: Sectors + Drop, I: ZoneIndex> Drop for KeptStore<D, I> {
    fn drop(self) {
        let KeptStore {
            alloc: _,
            journal,
            base,
            changes,
        } = self;
        drop((journal, base, changes));
    }
}

impl<D: Sectors, I: ZoneIndex> KeptStore<D, I> {
    ghost use Rattle.dns_store.specs.Versions.{Kept, version_at};
    ghost use Rattle.dns_store.specs.Opening.{KeepsFrom, HoldsFrom, store_device, keeps};
    ghost use Rattle.dns_journal.specs.State.{newest_number_of};

    // The store of a device whose root was raised: it keeps what the device opens as.
    pub(crate) fn over(
        alloc: Heap,
        device: D,
        next: Cursor,
        root: Root,
        base: Zone<I>,
        changes: Vec<Change, Heap>,
    ) -> KeptStore<D, I>
        requires within { next.until ≤ D.count device }
        requires until { next.at ≤ next.until }
        requires small { next.until ≤ 2 ^ 20 }
        requires banks_within { 1 + 2 * (root.snapshot_room + root.journal_room) ≤ D.count device }
        requires banks_small { 1 + 2 * (root.snapshot_room + root.journal_room) ≤ 2 ^ 20 }
        requires clear { root.is_clear ≡ true }
        ensures device { store_device result ≡ device }
        ensures base { result.base ≡ base }
        ensures changes { result.changes ≡ changes.entry }
        ensures newest { newest_number_of result.journal ≡ next.version }
        ensures keeps { KeepsFrom device next root base changes.entry.items result }
        ensures memory { HoldsFrom next root base changes.entry.items result }
    {
        KeptStore {
            alloc,
            journal: Journal::over(alloc, device, next, root),
            base,
            changes,
        }
    }

    /// The version that the journal begins at.
    pub fn base(&self) -> &Zone<I>
        ensures { (k : Kept) → keeps self.now k
            → result.now ≡ record { apex = k.shape.apex; records = version_at k k.base } }
    {
        &self.base
    }

    /// The device, in whatever state it is. What was staged is forgotten.
    pub fn into_device(self) -> D
        ensures { result ≡ store_device self }
    {
        let KeptStore {
            alloc: _,
            journal,
            base: _,
            changes: _,
        } = self;
        journal.into_device()
    }
}

impl<D: Sectors + Drop, I: ZoneIndex> ZoneStore for KeptStore<D, I> {
    ghost use Rattle.dns_journal.specs.State.{device_of};
    ghost use Rattle.dns_store.specs.Opens.{opens as opens_as};
    ghost use Rattle.dns_store.specs.Opening.{keeps as keeps_all};
    ghost use Rattle.dns_store.specs.Laws.{at_rest_of};

    ghost moment = { λ s. D.moment (device_of s.journal) };

    ghost may_leave = { λ s. D.may_leave (device_of s.journal) };

    ghost left_since = { λ s. D.left_since (device_of s.journal) };

    ghost failed = { λ s. D.failed (device_of s.journal) };

    ghost is_honest = { λ s. D.is_honest (device_of s.journal) };

    ghost keeps = { λ s k. keeps_all s k };

    ghost opens = { opens_as };

    fn is_closed(&self) -> bool {
        self.journal.is_closed()
    }

    fn newest(&self) -> u64 {
        self.journal.newest()
    }

    fn left(&self) -> usize {
        self.journal.left()
    }

    fn changes(&self) -> &[Change] {
        &self.changes
    }

    fn stage(&mut self, change: PreparedEntry) -> Result<(), StageError> {
        if self.journal.is_closed() {
            drop(change);
            return Err(StageError::Closed);
        }
        if self.journal.newest() == u64::MAX {
            drop(change);
            return Err(StageError::Full);
        }
        let sectors = entry_sectors(change.octets().len());
        if sectors > self.journal.left() {
            drop(change);
            return Err(StageError::Full);
        }
        self.changes.reserve(1).map_err(AllocError::from)?;
        match self.journal.stage(&change) {
            Ok(()) => {
                self.changes.push_reserved(change.into_change());
                Ok(())
            }
            Err(error) => {
                drop(change);
                Err(error)
            }
        }
    }

    fn flush(&mut self) -> Result<(), FlushError> {
        match self.journal.flush() {
            Ok(()) => Ok(()),
            Err(error) => Err(error),
        }
    }

    fn checkpoint(&mut self, keep: usize, room: usize) -> Result<(), CheckpointError> {
        match self.move_base(keep, room) {
            Ok(()) => Ok(()),
            Err(error) => Err(error),
        }
    }

    ghost some_left = { λ s k kept honest.
        (D.seen (device_of s.journal), D.seen_may_stay (device_of s.journal) honest) };

    ghost counts_now = { λ s k t c kept honest earlier left.
        D.counts_now (device_of s.journal) t c honest earlier left };

    ghost at_rest = { λ s k kept honest c left. at_rest_of (λ d x honest now. D.only_now d x honest now)
        s.journal k k.closed (kept.keeps honest) c left };
}
