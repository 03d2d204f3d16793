//! How many octets the snapshot of a version has, counted beside it.
ghost use Rattle.std.specs.Prelude.{◌≡◌, ◌≤◌, ◌<◌, ◌+◌, ◌*◌, ◌-◌, ◌^◌, ℕ, ◌∷◌, length};
ghost use Rattle.dns_store.specs.Plain.{octets_of};

use dns_changes::{Change, plain_len};
use dns_records::Record;
use dns_zone::{Zone, ZoneIndex};

/// How many octets the records have in plain form.
fn plain_lens(records: &[Record]) -> usize
    requires { length records.now < 2 ^ 32 }
    ensures value { result ≡ octets_of records.now }
    ensures short { result ≤ 4359 * length records.now }
{
    let mut octets = 0;
    for record in records {
        octets += plain_len(record);
    }
    octets
}

/// How many octets a snapshot of the zone has.
pub fn snapshot_len<I: ZoneIndex>(zone: &Zone<I>) -> usize
    ensures { result ≡ octets_of zone.now.records }
{
    let _valid = zone.apex();
    let mut octets = 0;
    for record in zone.records() {
        octets += plain_len(record);
    }
    octets
}

/// How many octets the next version's snapshot has, where it is known of the version before.
pub fn octets_after(before: usize, change: &Change) -> usize
    ensures { (kept : ℕ)
        → before ≡ octets_of (change.now.old_soa ∷ change.now.removed) + kept
        → octets_of (change.now.new_soa ∷ change.now.added) + kept < 2 ^ 64
        → result ≡ octets_of (change.now.new_soa ∷ change.now.added) + kept }
{
    let gone = plain_len(change.old_soa()) + plain_lens(change.removed());
    let come = plain_len(change.new_soa()) + plain_lens(change.added());
    before.saturating_sub(gone).saturating_add(come)
}
