//! Devices that a script runs over.
ghost use Rattle.std.specs.Prelude.{List, ℕ, IfOk};
ghost use Rattle.dns_sectors.specs.Crash.{after_writes};
ghost use Rattle.dns_sectors.specs.Device.{Only};
ghost use Rattle.dns_sectors.specs.Kept.{kept};
ghost use Rattle.dns_sectors.specs.Record.{disk_of};
ghost use Rattle.dns_sectors.specs.declared.memory.Keep.{Keep as StatedKeep};

use dns_memory::Heap;
use dns_sectors::{Keep, MemorySectors, Plan, Sectors};
use std::alloc::AllocError;
use std::rc::Rc;

/// A device that a script makes, and that can be made to crash.
pub trait ScriptDevice: Sectors + Drop {
    /// The sectors that a crash leaves which keeps these of the writes that are pending.
    ghost left_by: { Self → StatedKeep → List (List ℕ) };

    /// A device of so many sectors, whose writes and syncs fail and stop by a plan.
    fn make(alloc: Heap, len: usize, plan: Rc<Plan, Heap>) -> Result<Self, AllocError>
        ensures { IfOk result (λ device. Self.is_honest device) };

    /// The device after a crash that keeps these of the writes that were pending.
    fn after_crash(self, keep: Keep<'_>) -> Self
        ensures honest { Self.is_honest self → Self.is_honest result }
        ensures kept { Self.is_honest self → Only (left_by self keep.entry) (Self.may_leave result) }
        ensures left { (c : List (List ℕ)) → Self.is_honest self → Self.may_leave result c
            → Self.may_leave self c };
}

/// How many writes and syncs a device in memory can record for each of its sectors, and how many more.
const CALLS_A_SECTOR: usize = 2;

const MORE_CALLS: usize = 4096;

impl ScriptDevice for MemorySectors {
    ghost left_by = { λ device keep. after_writes (kept keep 1 (disk_of device).pending)
        (disk_of device).durable };

    fn make(alloc: Heap, len: usize, plan: Rc<Plan, Heap>) -> Result<MemorySectors, AllocError> {
        let calls = len
            .saturating_mul(CALLS_A_SECTOR)
            .saturating_add(MORE_CALLS);
        MemorySectors::new(alloc, len, calls, plan)
    }

    fn after_crash(self, keep: Keep<'_>) -> Self {
        self.crash(keep)
    }
}
