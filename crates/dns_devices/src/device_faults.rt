//! What is wrong with a device, and how it is reported.
ghost use Rattle.std.specs.Prelude.{◌≡◌, Some, IfOk};
ghost use Rattle.dns_devices.specs.DeviceFaults.{IsDeviceTold, advice, device_text, device_word};
ghost use Rattle.dns_devices.specs.DeviceFaults.{is_memory_fault, status_of};
ghost use Rattle.dns_devices.specs.DeviceFaults.{IsFaultOf, fault_of_device, fault_of_format};
ghost use Rattle.dns_devices.specs.DeviceFaults.{fault_of_migrate, fault_of_open};
ghost use Rattle.dns_journal.specs.Reads.{OnlyReads};

use dns_configuration::{FAILED, PrintedWord, REFUSED};
use dns_sectors::{OpenDeviceError, Sectors};
use dns_store::{DeviceFormat, FormatError, MigrateError, OpenError, format_of};
use std::fmt;
use std::io::{self, Write};

/// Why a device is refused.
#[derive(Clone, Copy, Debug, PartialEq, Eq)]
pub enum DeviceFault {
    /// There is a file where one was to be made.
    Exists,
    /// The file can't be had, or a call on it failed.
    Device,
    /// No store was ever made on it.
    Blank,
    /// This sector isn't what it should be.
    Damaged(usize),
    /// Its store is of sector format 1, which has to be migrated before it is opened.
    OldFormat,
    /// It is no whole number of sectors, or has another number of them; or its store is of another zone or of
    /// other sizes.
    Geometry,
    /// The zone's records take more sectors than a snapshot may have.
    ZoneTooLarge,
    /// The serial of the zone's master file isn't greater than that of its newest version (RFC 1982).
    SerialNotRaised,
    /// There is no room for the next version: its snapshot or its entry takes more sectors than there are, or
    /// there is no number for it.
    NoRoom,
    /// Memory was refused.
    OutOfMemory,
}

impl From<OpenDeviceError> for DeviceFault {
    ghost from_gives = { λ e f. f ≡ fault_of_device e };

    fn from(error: OpenDeviceError) -> DeviceFault {
        match error {
            OpenDeviceError::Device => DeviceFault::Device,
            OpenDeviceError::Geometry => DeviceFault::Geometry,
        }
    }
}

impl From<FormatError> for DeviceFault {
    ghost from_gives = { λ e f. f ≡ fault_of_format e };

    fn from(error: FormatError) -> DeviceFault {
        match error {
            FormatError::Device => DeviceFault::Device,
            FormatError::Geometry => DeviceFault::Geometry,
            FormatError::ZoneTooLarge => DeviceFault::ZoneTooLarge,
            FormatError::OutOfMemory => DeviceFault::OutOfMemory,
        }
    }
}

impl From<OpenError> for DeviceFault {
    ghost from_gives = { λ e f. f ≡ fault_of_open e };

    fn from(error: OpenError) -> DeviceFault {
        match error {
            OpenError::Device => DeviceFault::Device,
            OpenError::Blank => DeviceFault::Blank,
            OpenError::Damaged(sector) => DeviceFault::Damaged(sector),
            OpenError::Geometry => DeviceFault::Geometry,
            OpenError::OutOfMemory => DeviceFault::OutOfMemory,
        }
    }
}

impl From<MigrateError> for DeviceFault {
    ghost from_gives = { λ e f. f ≡ fault_of_migrate e };

    fn from(error: MigrateError) -> DeviceFault {
        match error {
            MigrateError::Device => DeviceFault::Device,
            MigrateError::Blank => DeviceFault::Blank,
            MigrateError::Damaged(sector) => DeviceFault::Damaged(sector),
            MigrateError::Geometry => DeviceFault::Geometry,
            MigrateError::ZoneTooLarge => DeviceFault::ZoneTooLarge,
            MigrateError::OutOfMemory => DeviceFault::OutOfMemory,
        }
    }
}

/// Why a device was refused whose store was not opened, for this reason; it was handed back. A root of
/// format 1, which is no root of format 2, is reported as what it is. It is only read, and only where
/// sector 0 is said to be wrong. `Device` where it fails then.
pub fn refusal<D: Sectors>(device: &mut D, error: OpenError) -> DeviceFault
    ensures fault { IsFaultOf D.Sectors error device.old device.new result }
    ensures reads { OnlyReads D.Sectors device.old device.new }
{
    match error {
        OpenError::Damaged(0) => match format_of(device) {
            Ok(DeviceFormat::One) => DeviceFault::OldFormat,
            Ok(_) => DeviceFault::from(error),
            Err(_) => DeviceFault::Device,
        },
        _ => DeviceFault::from(error),
    }
}

impl fmt::Display for DeviceFault {
    ghost output = { λ f. Some (device_word f) };

    fn fmt<W: fmt::Write>(&self, f: &mut fmt::Formatter<W>) -> fmt::Result {
        match *self {
            DeviceFault::Exists => write!(f, "Exists"),
            DeviceFault::Device => write!(f, "Device"),
            DeviceFault::Blank => write!(f, "Blank"),
            DeviceFault::Damaged(sector) => write!(f, "Damaged({sector})"),
            DeviceFault::OldFormat => write!(f, "OldFormat"),
            DeviceFault::Geometry => write!(f, "Geometry"),
            DeviceFault::ZoneTooLarge => write!(f, "ZoneTooLarge"),
            DeviceFault::SerialNotRaised => write!(f, "SerialNotRaised"),
            DeviceFault::NoRoom => write!(f, "NoRoom"),
            DeviceFault::OutOfMemory => write!(f, "OutOfMemory"),
        }
    }
}

/// What one who meets the fault can do about it.
fn advice(fault: DeviceFault) -> &'static str
    ensures { result.now ≡ advice fault }
{
    match fault {
        DeviceFault::Exists => "init makes new files alone; move the file away, or serve it",
        DeviceFault::Device => {
            "the file is missing, may not be read and written, is held by another process, or failed"
        }
        DeviceFault::Blank => {
            "no store was ever made in the file, or making it was stopped; move it away and run init"
        }
        DeviceFault::Damaged(_) => {
            "that sector is not what was written there; a copy of the file, or its master file and init, \
restores it"
        }
        DeviceFault::OldFormat =>
            "the file was made in an older sector format; migrate makes it new",
        DeviceFault::Geometry => {
            "the file is cut, or was made for another zone or with other snapshot_sectors or journal_sectors"
        }
        DeviceFault::ZoneTooLarge => {
            "the zone takes more sectors than snapshot_sectors allows; a sector holds 480 octets of records"
        }
        DeviceFault::SerialNotRaised => {
            "the file's serial is not greater than that of the newest version; raise it in its SOA"
        }
        DeviceFault::NoRoom => {
            "the next version takes more than snapshot_sectors or journal_sectors, or has no number"
        }
        DeviceFault::OutOfMemory => "memory was refused",
    }
}

/// What is wrong with the device of a path, and in a second line, if it is wanted, what can be done.
#[derive(Drop)]
struct DeviceText<'a> {
    path: &'a str,
    fault: DeviceFault,
    explain: bool,
}

impl fmt::Display for DeviceText<'_> {
    ghost output = { λ t. Some (device_text t.path.now t.fault t.explain) };

    fn fmt<W: fmt::Write>(&self, f: &mut fmt::Formatter<W>) -> fmt::Result {
        let (what, fault) = (PrintedWord(self.path.as_bytes()), self.fault);
        if self.explain {
            write!(f, "{what}: {fault}\n{what}: {}", advice(fault))
        } else {
            write!(f, "{what}: {fault}")
        }
    }
}

/// Whether memory was refused.
fn is_memory(fault: DeviceFault) -> bool
    ensures { result ≡ is_memory_fault fault }
{
    match fault {
        DeviceFault::OutOfMemory => true,
        _ => false,
    }
}

/// The exit status for a fault.
fn status_of(fault: DeviceFault) -> u8
    ensures { result ≡ status_of fault }
{
    match fault {
        DeviceFault::Device | DeviceFault::OutOfMemory => FAILED,
        _ => REFUSED,
    }
}

/// Tells in one line what is wrong with a device, and in a second one, if it is wanted, what can be done;
/// gives the exit status. Of refused memory nothing is reported.
pub fn tell_device<E: Write>(
    err: &mut E,
    path: &str,
    fault: DeviceFault,
    explain: bool,
) -> io::Result<u8>
    ensures { IfOk result
        (λ status. IsDeviceTold path.now fault explain (E.contents err.old) (E.contents err.new) status) }
{
    if is_memory(fault) {
        return Ok(FAILED);
    }
    let text = DeviceText {
        path,
        fault,
        explain,
    };
    writeln!(err, "{text}")?;
    Ok(status_of(fault))
}
