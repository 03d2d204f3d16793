//! Checkpoints, as far as the sectors that are left of journals tell.
ghost use Rattle.std.specs.Prelude.{◌≡◌, false};
ghost use Rattle.log.specs.declared.level.Level.TheVariants.{Debug};
ghost use Rattle.log.specs.Level.{allows};

use crate::lines::CHECKPOINTS;
use dns_memory::Heap;
use dns_names::Name;
use dns_primary::{Fullness, Primary};
use dns_store::ZoneStore;
use dns_zone::ZoneIndex;
use log::{Level, LevelFilter, Log, debug};

/// How many sectors of each zone's journal were left when it was last looked, so that a checkpoint is seen:
/// nothing else makes them more.
#[derive(Drop)]
pub struct CheckpointWatch {
    /// Whether it looks, so that it is to be known how long turns take.
    pub is_on: bool,
    /// The sectors left, by the indices of zones. It ends before the first zone for which memory was refused.
    left: Vec<usize, Heap>,
}

impl CheckpointWatch {
    /// It has not looked yet. Below the level debug it never does.
    pub fn new(heap: Heap, level: LevelFilter) -> CheckpointWatch
        ensures { result.is_on ≡ allows level Debug }
    {
        CheckpointWatch {
            is_on: level.allows(Level::Debug),
            left: Vec::new(heap),
        }
    }

    /// Looks at the journal of each zone with one of these names, after a turn that took so many
    /// milliseconds, and logs the checkpoints that were made since it looked before: those after which more
    /// sectors are left. When it looks for the first time, before the first turn, it logs none.
    #[inline]
    pub fn look<I: ZoneIndex, S: ZoneStore, R: Log>(
        &mut self,
        rt: &R,
        primary: &Primary<I, S>,
        origins: &[Name],
        milliseconds: u64,
    )
        ensures on { self.new.is_on ≡ self.old.is_on }
        ensures off { self.old.is_on ≡ false → self.new ≡ self.old }
    {
        if self.is_on {
            look_at_zones(&mut self.left, rt, primary, origins, milliseconds);
        }
    }
}

/// Looks at the journal of each zone.
#[inline(never)]
fn look_at_zones<I: ZoneIndex, S: ZoneStore, R: Log>(
    left: &mut Vec<usize, Heap>,
    rt: &R,
    primary: &Primary<I, S>,
    origins: &[Name],
    milliseconds: u64,
) {
    for index in 0..origins.len() {
        let Some(fullness) = primary.fullness(index) else {
            return;
        };
        if has_grown(left, index, fullness.journal_left) {
            log_checkpoint(rt, &origins[index], fullness, milliseconds);
        }
    }
}

/// Keeps how many sectors are left of the journal of the zone at an index, and returns whether they are more
/// than before.
fn has_grown(left: &mut Vec<usize, Heap>, index: usize, now: usize) -> bool {
    if index < left.len() {
        let before = left[index];
        left[index] = now;
        return before < now;
    }
    if index == left.len() {
        let _kept = left.push(now);
    }
    false
}

/// Logs that a checkpoint of a zone was made in a turn of so many milliseconds.
fn log_checkpoint<R: Log>(rt: &R, origin: &Name, fullness: Fullness, milliseconds: u64) {
    let (left, sectors) = (fullness.journal_left, fullness.journal_sectors);
    debug!(rt;
        target: CHECKPOINTS,
        "checkpoint of {origin}: {left} of {sectors} sectors of the journal left, in a turn of {milliseconds} ms"
    );
}
