//! The end of opening a store: its root is written again with the open count raised, after the other bank was
//! cleared where the root says that it isn't.
ghost use Rattle.std.specs.Prelude.{◌≡◌, ◌≤◌, ◌<◌, ◌+◌, ◌-◌, ◌*◌, ◌^◌, ◌↔◌, true, OnOk};
ghost use Rattle.dns_sectors.specs.Device.{Only, LeavesOnly, CountsFailure};
ghost use Rattle.dns_layout.specs.Sector.{open_count};
ghost use Rattle.dns_layout.specs.Own.{Altered};
ghost use Rattle.dns_journal.specs.Phases.{IfSettled};
ghost use Rattle.dns_store.specs.Turn.{EachToRaise, OpensRaised, StaysStored, other_bank_of};

use dns_journal::clear_bank;
use dns_layout::{Bank, Root};
use dns_sectors::{DeviceError, SectorWrite, Sectors, write_phase};

// Writes the root again with its open count raised, and makes it durable. Where it says that the other bank
// isn't clear, that bank is cleared before, and the root says so.
pub(crate) fn raise_root<D: Sectors>(device: &mut D, root: &mut Root) -> Result<(), DeviceError>
    requires room { 1 + 2 * (root.old.snapshot_room + root.old.journal_room) ≤ D.count device.old }
    requires more { root.old.open_count < 2 ^ 64 - 1 }
    ensures any_moment { IfSettled D.Sectors device.old
        (LeavesOnly D.moment D.left_since device.old device.new (StaysStored (D.seen device.old) root.old)) }
    ensures raised { EachToRaise D.Sectors device.old root.old (λ s k x parts.
        OnOk result (Altered k.altered (OpensRaised s k x parts root.new) (D.seen device.new))) }
    ensures durable { D.is_honest device.old
        → OnOk result (Only (D.seen device.new) (D.may_leave device.new)) }
    ensures root { root.new ≡ record root.old { open_count = root.old.open_count + 1; is_clear = true } }
    ensures failed { CountsFailure result (D.failed device.old) (D.failed device.new) }
    ensures honest { D.is_honest device.new ↔ D.is_honest device.old }
    ensures count { D.count device.new ≡ D.count device.old }
{
    let was_clear = root.is_clear;
    root.open_count += 1;
    root.is_clear = true;
    let sector = root.encode();
    if was_clear {
        let write = SectorWrite {
            at: 0,
            octets: sector,
        };
        write_phase(device, &[write])
    } else {
        let rooms = root.snapshot_room as usize + root.journal_room as usize;
        let from = other_bank_at(root.bank, rooms);
        clear_bank(device, from, from + rooms, &sector)
    }
}

// Where the bank begins that isn't this one, of banks of so many sectors.
fn other_bank_at(bank: Bank, rooms: usize) -> usize
    requires { rooms < 2 ^ 63 }
    ensures { result ≡ other_bank_of bank rooms }
{
    match bank {
        Bank::Zero => 1 + rooms,
        Bank::One => 1,
    }
}
