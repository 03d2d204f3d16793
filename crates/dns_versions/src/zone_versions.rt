//! A zone with its store: the version that is shown, and what backs it.
ghost use Rattle.std.specs.Prelude.{◌≡◌, [], None, drop};
ghost use Rattle.dns_zone.specs.Zone.{Zone as Stated};
ghost use Rattle.dns_store.specs.Versions.{Kept, version_at};
ghost use Rattle.dns_store.specs.Recovered.{AreLed};
ghost use Rattle.dns_versions.specs.Held.{HasVersions, newer, newest_zone, shown_zone};

use dns_changes::Change;
use dns_store::{ZoneStore, snapshot_len};
use dns_zone::{Zone, ZoneIndex};

/// What backs a zone that is shown: its newest version if some are staged, its store, and what room there is.
/// The zone that is shown stands apart, where queries are answered from it.
#[derive(Drop)]
pub struct ZoneVersions<I: ZoneIndex, S: ZoneStore> {
    /// The newest version, if it isn't the one that is shown.
    pub tip: Option<Zone<I>>,
    /// Keeps the versions.
    pub store: S,
    /// The number of the version that is shown; the loaded one has 0.
    pub number: u64,
    /// How many octets a snapshot of the newest version has.
    pub octets: usize,
    /// How many sectors there are for a snapshot.
    pub snapshot: u32,
    /// How many sectors there are for a journal.
    pub journal: u32,
}

impl<I: ZoneIndex, S: ZoneStore> ZoneVersions<I, S> {
    /// What backs a zone of which nothing is staged: its store, and how many sectors there are for a snapshot
    /// and for a journal.
    pub fn new(store: S, zone: &Zone<I>, snapshot: u32, journal: u32) -> ZoneVersions<I, S>
        ensures held { (k : Kept) → S.keeps store k → k.staged ≡ [] → zone.now ≡ shown_zone k
            → k.shape.snapshot ≡ snapshot → k.shape.journal ≡ journal
            → HasVersions S.keeps zone.now result k }
        ensures store { result.store ≡ store }
        ensures tip { result.tip ≡ None }
    {
        ZoneVersions {
            tip: None,
            number: store.newest(),
            store,
            octets: snapshot_len(zone),
            snapshot,
            journal,
        }
    }

    /// The newest version of a zone: one that is staged, or the one that is shown.
    pub fn newest<'a>(&'a self, zone: &'a Zone<I>) -> &'a Zone<I>
        ensures either { result.now ≡ newer zone.now self.now.tip }
        ensures held { (k : Kept) → HasVersions S.keeps zone.now self.now k → result.now ≡ newest_zone k }
    {
        match &self.tip {
            Some(tip) => tip,
            None => zone,
        }
    }

    /// The changes that lead to the version that is shown from the one that the journal begins at, the oldest
    /// first.
    pub fn changes(&self) -> &[Change]
        ensures { (zone : Stated) (k : Kept) → HasVersions S.keeps zone self.now k
            → AreLed (version_at k k.base) (drop k.base k.shown) result.now }
    {
        let changes = self.store.changes();
        let staged = self.store.newest().saturating_sub(self.number) as usize;
        let shown = changes.len().saturating_sub(staged);
        &changes[..shown]
    }
}
