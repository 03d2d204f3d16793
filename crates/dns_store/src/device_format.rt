//! The format that a device is kept in, identified by its first sector.
ghost use Rattle.std.specs.Prelude.{◌≡◌, ◌↔◌, IsTrue, IfOk, Ok};
ghost use Rattle.dns_sectors.specs.Device.{CountsFailure};
ghost use Rattle.dns_layout.specs.Sector.{sector_at, tag, root_tag_in};
ghost use Rattle.dns_journal.specs.Reads.{OnlyReads};
ghost use Rattle.dns_store.specs.Formats.{IsFormat};

use dns_layout::{Format, LayoutError, Root};
use dns_sectors::{DeviceError, Sector, Sectors};

/// What is stored in a device's first sector.
#[derive(Clone, Copy, Debug, PartialEq, Eq)]
pub enum DeviceFormat {
    /// Zeros: no store was ever made on the device.
    Blank,
    /// A root of format 1.
    One,
    /// A root of format 2.
    Two,
    /// Something else; or the device has no sectors.
    Other,
}

/// The format that the device is kept in, by the tag of its first sector alone. It takes no memory, and only
/// reads.
pub fn format_of<D: Sectors>(device: &mut D) -> Result<DeviceFormat, DeviceError>
    ensures format { D.is_honest device.old → IfOk result (IsFormat (sector_at (D.seen device.old) 0)) }
    ensures none { D.count device.old ≡ 0 → result ≡ Ok DeviceFormat.Other }
    ensures failed { CountsFailure result (D.failed device.old) (D.failed device.new) }
    ensures reads { OnlyReads D.Sectors device.old device.new }
{
    if device.len() == 0 {
        return Ok(DeviceFormat::Other);
    }
    let sector = device.read(0)?;
    Ok(told_by(&sector))
}

// The format of the store of which the sector is the first.
fn told_by(sector: &Sector) -> DeviceFormat
    ensures { IsFormat sector.now result }
{
    if *sector == [0; 512] {
        DeviceFormat::Blank
    } else if is_root(Format::One, sector) {
        DeviceFormat::One
    } else if is_root(Format::Two, sector) {
        DeviceFormat::Two
    } else {
        DeviceFormat::Other
    }
}

// Whether the sector has the tag of a root.
fn is_root(format: Format, sector: &Sector) -> bool
    ensures { IsTrue result ↔ (tag sector.now ≡ root_tag_in format) }
{
    match Root::decode(format, sector) {
        Ok(_) => true,
        Err(LayoutError::BadField) => true,
        Err(LayoutError::NotThisKind) => false,
    }
}
