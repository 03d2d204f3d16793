//! Zeros that are written over sectors one after the other.
ghost use Rattle.std.specs.Prelude.{◌≡◌, ◌≤◌, ◌-◌, ◌↔◌, ℕ, List, OnOk};
ghost use Rattle.dns_sectors.specs.Device.{LeavesOnly, CountsFailure};
ghost use Rattle.dns_sectors.specs.Crash.{after_writes, CrashOf};
ghost use Rattle.dns_sectors.specs.Phase.{zeros_from};

use crate::{DeviceError, Sectors};

/// Writes zeros over the sectors from one position up to another, in order, up to the first write that fails,
/// which is answered. A crash at any moment of it leaves any of these zeros over what a crash before it might
/// have left.
pub fn write_zeros<D: Sectors>(device: &mut D, from: usize, until: usize) -> Result<(), DeviceError>
    requires range { from ≤ until }
    requires within { until ≤ D.count device.old }
    ensures written { D.is_honest device.old
        → OnOk result
        (D.seen device.new ≡ after_writes (zeros_from from (until - from)) (D.seen device.old)) }
    ensures crash { D.is_honest device.old
        → (c : List (List ℕ))
        → D.may_leave device.new c
        → CrashOf (D.may_leave device.old) (zeros_from from (until - from)) c }
    ensures any_moment { D.is_honest device.old → LeavesOnly D.moment D.left_since device.old device.new
        (CrashOf (D.may_leave device.old) (zeros_from from (until - from))) }
    ensures failed { CountsFailure result (D.failed device.old) (D.failed device.new) }
    ensures honest { D.is_honest device.new ↔ D.is_honest device.old }
    ensures count { D.count device.new ≡ D.count device.old }
{
    for at in from..until {
        device.write(at, &[0; 512])?;
    }
    Ok(())
}
