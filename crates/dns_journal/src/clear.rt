//! The bank that isn't in use is cleared of what format 1 left there.
ghost use Rattle.std.specs.Prelude.{◌≡◌, ◌≤◌, ◌<◌, ◌↔◌, ℕ, OnOk};
ghost use Rattle.dns_sectors.specs.Device.{Only, LeavesOnly, CountsFailure};
ghost use Rattle.dns_layout.specs.Own.{Altered};
ghost use Rattle.dns_journal.specs.Phases.{IfSettled};
ghost use Rattle.dns_journal.specs.Clearing.{EachToClear, IsCleared, StaysUncleared};

use dns_sectors::{DeviceError, Sector, SectorWrite, Sectors, write_phase, write_zeros};

/// Writes zeros over a bank, makes them durable, and then this root.
pub fn clear_bank<D: Sectors>(
    device: &mut D,
    from: usize,
    until: usize,
    root: &Sector,
) -> Result<(), DeviceError>
    requires range { from ≤ until }
    requires within { until ≤ D.count device.old }
    requires some { 0 < D.count device.old }
    // A crash at any moment of it leaves what opens as before.
    ensures any_moment { IfSettled D.Sectors device.old
        (LeavesOnly D.moment D.left_since device.old device.new
        (StaysUncleared from until root.now (D.seen device.old))) }
    ensures cleared { EachToClear D.Sectors device.old from until root.now (λ s k x parts. OnOk result
        (Altered k.altered (IsCleared s k x parts root.now) (D.seen device.new))) }
    ensures durable { D.is_honest device.old
        → OnOk result (Only (D.seen device.new) (D.may_leave device.new)) }
    ensures failed { CountsFailure result (D.failed device.old) (D.failed device.new) }
    ensures honest { D.is_honest device.new ↔ D.is_honest device.old }
    ensures count { D.count device.new ≡ D.count device.old }
{
    write_zeros(device, from, until)?;
    device.sync()?;
    let write = SectorWrite {
        at: 0,
        octets: *root,
    };
    write_phase(device, &[write])?;
    Ok(())
}
