//! Changes that are staged after a zone's newest version: whether there is room for one, what room it lacks,
//! and its staging.
ghost use Rattle.std.specs.Prelude.{◌≡◌, ◌≤◌, ◌↔◌, true, length, None, IfOk, IfSome, OnOk, OnErr};
ghost use Rattle.dns_zone.specs.Zone.{Zone as Stated, zone_fault};
ghost use Rattle.dns_changes.specs.Change.{IsChange};
ghost use Rattle.dns_changes.specs.Version.{IsVersionAfter};
ghost use Rattle.dns_store.specs.Versions.{Kept, StandsStill, newest_of, staged_with};
ghost use Rattle.dns_versions.specs.Held.{HasVersions, newer, newest_zone};
ghost use Rattle.dns_store.specs.Room.{entry_between};
ghost use Rattle.dns_versions.specs.Staging.{AreOctetsOf, HasPlanRoom, HasRoomBy, IsPlan, IsRoomTold};
ghost use Rattle.dns_versions.specs.Staging.{has_room, sectors_lacked};

use crate::ZoneVersions;
use dns_changes::PreparedEntry;
use dns_layout::{entry_sectors, snapshot_sectors};
use dns_store::{StageError, ZoneStore, octets_after};
use dns_zone::{Zone, ZoneIndex};
use std::alloc::AllocError;
use std::marker::Model;

/// How many records a zone may have.
pub const MOST_RECORDS: usize = 65536;

/// A change for which a zone has room, and the version that it leads to: what is left to do is to stage it.
pub struct StagePlan<I: ZoneIndex> {
    entry: PreparedEntry,
    version: Zone<I>,
    // how many octets a snapshot of the version has
    octets: usize,
}

// Written out, so that a proof lets one go by one call (docs/GATE.md).
impl<I: ZoneIndex> Drop for StagePlan<I> {
    fn drop(self) {
        let StagePlan {
            entry,
            version,
            octets: _,
        } = self;
        drop((entry, version));
    }
}

impl<I: ZoneIndex> Model for StagePlan<I> {
    ghost use Rattle.dns_versions.specs.Staging.{Plan};

    ghost Value = { Plan };

    ghost view = { λ p. record { change = p.entry; version = p.version; octets = p.octets } };
}

impl<I: ZoneIndex> StagePlan<I> {
    // The version of a zone that is made of records that are known to be its next one.
    fn new(
        newest: &Zone<I>,
        entry: PreparedEntry,
        records: I,
        octets: usize,
    ) -> Result<StagePlan<I>, AllocError>
        requires { zone_fault newest.now.apex (I.records records) ≡ None }
        ensures { IfOk result (λ p. (p.change ≡ entry) × (p.octets ≡ octets)
            × (p.version ≡ record { apex = newest.now.apex; records = I.records records })) }
    {
        match newest.apex().clone() {
            Ok(apex) => Ok(StagePlan {
                entry,
                version: Zone::of_valid(apex, records),
                octets,
            }),
            Err(error) => {
                drop((entry, records));
                Err(error)
            }
        }
    }

    // The entry, the version, and how many octets a snapshot of it has.
    fn into_parts(self) -> (PreparedEntry, Zone<I>, usize)
        ensures { (result.0 ≡ self.change) × (result.1 ≡ self.version) × (result.2 ≡ self.octets) }
    {
        let StagePlan {
            entry,
            version,
            octets,
        } = self;
        (entry, version, octets)
    }
}

impl<I: ZoneIndex, S: ZoneStore> ZoneVersions<I, S> {
    // Whether there is room for a version, whose snapshot has so many octets, and whose entry takes so many
    // sectors.
    fn has_room(&self, records: &I, octets: usize, sectors: usize) -> bool
        ensures room { (k : Kept) (zone : Stated)
            → HasVersions S.keeps zone self.now k
            → AreOctetsOf octets (I.records records.now)
            → sectors ≡ entry_between (newest_of k) (I.records records.now)
            → result ≡ has_room k (I.records records.now) }
        ensures few { result ≡ true → length (I.records records.now) ≤ 65536 }
    {
        records.len() <= MOST_RECORDS
            && snapshot_sectors(octets) <= self.snapshot as usize
            && sectors <= self.journal as usize
            && self.store.newest() < u64::MAX
    }

    /// The plan to stage a change after the newest version of a zone, or `None` if there is no room for the
    /// version that it leads to: it has too many records, its snapshot or its entry takes more sectors than
    /// there are, or there is no number for it. No flush and no checkpoint makes such room. It isn't asked
    /// how much is left of the journal, and nothing changes.
    pub fn plan(
        &self,
        zone: &Zone<I>,
        entry: PreparedEntry,
        records: I,
    ) -> Result<Option<StagePlan<I>>, AllocError>
        requires next { IsVersionAfter (newer zone.now self.now.tip) entry (I.records records) }
        requires change { IsChange (newer zone.now self.now.tip).records (I.records records) entry }
        ensures planned { IfOk result (λ planned. IfSome planned
            (IsPlan (newer zone.now self.now.tip) (I.records records))) }
        ensures room { (k : Kept) → HasVersions S.keeps zone.now self.now k
            → IsRoomTold k (I.records records) result }
    {
        let newest = self.newest(zone);
        let _valid = newest.apex();
        let octets = octets_after(self.octets, entry.change());
        let sectors = entry_sectors(entry.octets().len());
        if !self.has_room(&records, octets, sectors) {
            drop((entry, records));
            return Ok(None);
        }
        match StagePlan::new(newest, entry, records, octets) {
            Ok(plan) => Ok(Some(plan)),
            Err(error) => Err(error),
        }
    }

    /// How many sectors the entry of a plan takes, if they are more than are left of the journal.
    pub fn lacked(&self, plan: &StagePlan<I>) -> Option<usize>
        ensures { (k : Kept) → S.keeps self.now.store k
            → IsPlan (newest_zone k) plan.now.version.records plan.now → HasPlanRoom k plan.now
            → result ≡ sectors_lacked k plan.now.version.records }
    {
        let sectors = entry_sectors(plan.entry.octets().len());
        if self.store.left() >= sectors {
            return None;
        }
        Some(sectors)
    }

    /// Puts the version of a plan after the newest one, in memory alone. If it is refused, all stays as it
    /// was: `Full` if its entry takes more sectors than are left of the journal, `Closed` if the device has
    /// failed.
    pub fn stage(&mut self, zone: &Zone<I>, plan: StagePlan<I>) -> Result<(), StageError>
        requires { IsPlan (newer zone.now self.old.tip) plan.version.records plan }
        ensures staged { (k : Kept) → HasVersions S.keeps zone.now self.old k → HasPlanRoom k plan
            → OnOk result (HasVersions S.keeps zone.now self.new (staged_with plan.version.records k)) }
        ensures stays { (k : Kept) → HasVersions S.keeps zone.now self.old k
            → OnErr result (HasVersions S.keeps zone.now self.new k) }
        ensures room { (k : Kept) → HasVersions S.keeps zone.now self.old k → HasPlanRoom k plan
            → HasRoomBy k plan.version.records result }
        ensures still { StandsStill S.moment S.left_since self.old.store self.new.store }
        ensures quiet { S.failed self.new.store ≡ S.failed self.old.store }
        ensures honest { S.is_honest self.new.store ↔ S.is_honest self.old.store }
    {
        let (entry, version, octets) = plan.into_parts();
        let _valid = version.apex();
        self.store.stage(entry)?;
        self.tip = Some(version);
        self.octets = octets;
        Ok(())
    }
}
