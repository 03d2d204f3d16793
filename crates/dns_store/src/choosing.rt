//! How many of the newest changes are kept where a store is migrated: those whose entries fit in a journal,
//! from a version on from which each fits in a snapshot.
ghost use Rattle.std.specs.Prelude.{◌≡◌, ◌<◌, ◌≤◌, ◌+◌, ◌^◌, MatchOption, IfSome, length};
ghost use Rattle.dns_layout.specs.Sector.{snapshot_sectors as sectors_of_octets};
ghost use Rattle.dns_store.specs.Versions.{newest_after};
ghost use Rattle.dns_journal.specs.Bank.{sectors_for};
ghost use Rattle.dns_store.specs.Plain.{sectors_of_snapshot};
ghost use Rattle.dns_store.specs.Checkpoint.{EachLed, newest_sectors};
ghost use Rattle.dns_store.specs.Choosing.{IsChosen, IsFirstFitting};

use crate::checkpoint::most_kept;
use crate::octets::{octets_after, snapshot_len};
use dns_changes::Change;
use dns_layout::snapshot_sectors;
use dns_zone::{Zone, ZoneIndex};

// How many of the newest changes from a base are kept, where a bank has so many sectors for a snapshot and
// for a journal. `None` where the newest version takes more sectors than a snapshot has.
pub(crate) fn chosen<I: ZoneIndex>(
    base: &Zone<I>,
    changes: &[Change],
    snapshot: u32,
    journal: u32,
) -> Option<usize>
    ensures chosen { EachLed base.now.apex base.now.records changes.now (λ vs. MatchOption result
        (snapshot < sectors_of_snapshot (newest_after base.now.records vs))
        (IsChosen snapshot journal base.now.records vs)) }
    ensures few { IfSome result (λ n. n ≤ length changes.now) }
    ensures room { IfSome result (λ n. newest_sectors sectors_for changes.now n ≤ journal) }
{
    let first = first_fitting(base, changes, snapshot as usize);
    if first > changes.len() {
        return None;
    }
    Some(most_kept(changes, changes.len() - first, journal as usize))
}

// The number, from the base on, of the first version from which on each takes at most so many sectors as a
// snapshot; one more than that of the newest where that one takes more.
fn first_fitting<I: ZoneIndex>(base: &Zone<I>, changes: &[Change], room: usize) -> usize
    ensures { EachLed base.now.apex base.now.records changes.now (λ vs.
        IsFirstFitting room base.now.records vs (length vs) result) }
{
    let _valid = base.apex();
    let mut octets = snapshot_len(base);
    let mut first = after_wide(octets, room, 0, 0);
    for i in 0..changes.len() {
        octets = octets_after(octets, &changes[i]);
        first = after_wide(octets, room, i + 1, first);
    }
    first
}

// The number after this one where octets take more than so many sectors as a snapshot; else the other.
fn after_wide(octets: usize, room: usize, number: usize, first: usize) -> usize
    requires { number < 2 ^ 63 }
    ensures wide { room < sectors_of_octets octets → result ≡ number + 1 }
    ensures narrow { sectors_of_octets octets ≤ room → result ≡ first }
{
    if snapshot_sectors(octets) > room {
        number + 1
    } else {
        first
    }
}
