//! How full the stores of the zones are.
ghost use Rattle.std.specs.Prelude.{◌≡◌, None, MatchOption, slice_get};
ghost use Rattle.dns_primary.specs.Fullness.{IsFullness};
ghost use Rattle.dns_primary.specs.Keeps.{IsKept};
ghost use Rattle.dns_primary.specs.Machine.{Machine};

use crate::Primary;
use dns_layout::snapshot_sectors;
use dns_store::ZoneStore;
use dns_zone::ZoneIndex;

/// How full the store of a zone is, in sectors.
#[derive(Clone, Copy, Debug, PartialEq, Eq)]
pub struct Fullness {
    /// How many a snapshot of the newest version takes.
    pub snapshot_taken: usize,
    /// How many there are for a snapshot.
    pub snapshot_sectors: u32,
    /// How many are left for entries of the journal. A checkpoint makes more room.
    pub journal_left: usize,
    /// How many there are for a journal.
    pub journal_sectors: u32,
    /// Whether the device has failed, so that the zone takes no update until it is opened again.
    pub is_closed: bool,
}

impl<I: ZoneIndex, S: ZoneStore> Primary<I, S> {
    /// How full the store of the zone at an index is, or nothing if there is no such zone.
    pub fn fullness(&self, index: usize) -> Option<Fullness>
        ensures { (m : Machine) → IsKept self.now m
            → MatchOption result (slice_get m.zones index ≡ None)
            (λ f. IsFullness f (slice_get m.zones index)) }
    {
        match self.pending.get(index) {
            Some(pending) => Some(Fullness {
                snapshot_taken: snapshot_sectors(pending.octets),
                snapshot_sectors: pending.snapshot,
                journal_left: pending.store.left(),
                journal_sectors: pending.journal,
                is_closed: pending.store.is_closed(),
            }),
            None => None,
        }
    }
}
