//! A device whose sector i is the 512 octets of a file from the offset 512 * i on.
ghost use Rattle.std.specs.Prelude.{◌≡◌, ◌≢◌, ◌%◌, ◌≤◌, ◌<◌, ◌+◌, ◌-◌, ◌*◌, ◌^◌, ◌↔◌, min, refl, length};
ghost use Rattle.std.specs.Prelude.{replicate, Ok, Err, IsErr, IfOk, OnOk, MatchResult};
ghost use Rattle.dns_sectors.specs.File.{OnlyOctets};
ghost use Rattle.dns_sectors.specs.FileOctets.{sectors};

use crate::{DeviceError, File, FileError, Sector, Sectors};
use thiserror::Error;

/// Why there is no device where one was to be opened.
#[derive(Clone, Copy, Debug, Error, PartialEq, Eq)]
pub enum OpenDeviceError {
    /// What is to be the device can't be had, or doesn't tell its length.
    #[error("the device can't be had")]
    Device,
    /// It is no whole number of sectors.
    #[error("the device is no whole number of sectors")]
    Geometry,
}

/// A device in a file. It is honest where the file is, and then a crash leaves of it the sectors of what it
/// leaves of the file; octets past the file's end count as zeros there. A call of the file that fails, or
/// that moves fewer octets than a sector has, is a failure of the device, and so a read past the end is one.
#[derive(Drop)]
pub struct FileSectors<F: File> {
    file: F,
    len: usize,
    failures: u64,
    ghost reachable: { 512 * len < 2 ^ 64 },
}

// Counts a failure, up to the last number.
fn fail(failures: &mut u64) -> DeviceError
    ensures counted { failures.new ≡ min (failures.old + 1) (2 ^ 64 - 1) }
    ensures fits { failures.old ≤ 2 ^ 64 - 1 }
{
    *failures = failures.saturating_add(1);
    DeviceError::Device
}

// Makes a file so many zeros, whatever it held, and makes that durable. It fails at the first call of the
// file that does.
fn blank<F: File>(file: &mut F, len: u64) -> Result<(), FileError>
    ensures zeros { F.is_honest file.old → OnOk result (F.seen file.new ≡ replicate len 0) }
    ensures durable { F.is_honest file.old
        → OnOk result (OnlyOctets (F.seen file.new) (F.may_leave file.new)) }
    ensures honest { F.is_honest file.new ↔ F.is_honest file.old }
{
    file.set_len(0)?;
    file.set_len(len)?;
    file.sync()
}

impl<F: File + Drop> FileSectors<F> {
    ghost use Rattle.dns_sectors.specs.FileDevice.{file_of, sector_count, failures_of};
    ghost use Rattle.dns_sectors.specs.FileOpening.{IsNoDevice};

    // A device of so many sectors, no call of which has failed.
    fn fresh(file: F, len: usize) -> FileSectors<F>
        requires { 512 * len < 2 ^ 64 }
        ensures file { file_of result ≡ file }
        ensures count { sector_count result ≡ len }
        ensures failures { failures_of result ≡ 0 }
    {
        FileSectors {
            file,
            len,
            failures: 0,
        }
    }

    /// The device that a file holds. Nothing is written. `Device` where the file doesn't tell its length,
    /// `Geometry` where that is no multiple of 512.
    pub fn over(file: F) -> Result<FileSectors<F>, OpenDeviceError>
        ensures file { IfOk result (λ device. file_of device ≡ file) }
        ensures measured { MatchResult result (λ device. F.measured file (Ok (512 * sector_count device)))
            (IsNoDevice (F.measured file)) }
        ensures count { F.is_honest file
            → IfOk result (λ device. 512 * sector_count device ≡ length (F.seen file)) }
        ensures partial { F.is_honest file → length (F.seen file) % 512 ≢ 0 → IsErr result }
        ensures geometry { F.is_honest file → result ≡ Err OpenDeviceError.Geometry
            → length (F.seen file) % 512 ≢ 0 }
        ensures failures { IfOk result (λ device. failures_of device ≡ 0) }
    {
        match file.len() {
            Ok(len) if len % 512 == 0 => Ok(FileSectors::fresh(file, (len / 512) as usize)),
            Ok(_) => Err(OpenDeviceError::Geometry),
            Err(_) => Err(OpenDeviceError::Device),
        }
    }

    /// A device of so many sectors of zeros, all of it durable, in a file that may have held anything.
    /// `Device` where the file fails, and where a file can't be so long.
    pub fn zeroed(mut file: F, len: usize) -> Result<FileSectors<F>, DeviceError>
        ensures count { IfOk result (λ device. sector_count device ≡ len) }
        ensures octets { F.is_honest file
            → IfOk result (λ device. F.seen (file_of device) ≡ replicate (512 * len) 0) }
        ensures sectors { F.is_honest file
            → IfOk result
            (λ device. sectors len (F.seen (file_of device)) ≡ replicate len (replicate 512 0)) }
        ensures durable { F.is_honest file
            → IfOk result (λ device. OnlyOctets (F.seen (file_of device)) (F.may_leave (file_of device))) }
        ensures honest { IfOk result (λ device. F.is_honest (file_of device) ↔ F.is_honest file) }
        ensures failures { IfOk result (λ device. failures_of device ≡ 0) }
        ensures too_long { 2 ^ 64 ≤ 512 * len → result ≡ Err DeviceError.Device }
    {
        let Some(octets) = (len as u64).checked_mul(512) else {
            return Err(DeviceError::Device);
        };
        match blank(&mut file, octets) {
            Ok(()) => Ok(FileSectors::fresh(file, len)),
            Err(_) => Err(DeviceError::Device),
        }
    }

    /// The file, as the calls of the device left it.
    pub fn into_file(self) -> F
        ensures { result ≡ file_of self }
    {
        let FileSectors {
            file,
            len: _,
            failures: _,
        } = self;
        file
    }
}

impl<F: File> Sectors for FileSectors<F> {
    ghost use Rattle.dns_sectors.specs.FileDevice.{SectorsOf, file_of, sector_count, failures_of};
    ghost use Rattle.dns_sectors.specs.FileLaws.{length-sectors};

    ghost count = { λ device. sector_count device };

    ghost seen = { λ device. sectors (sector_count device) (F.seen (file_of device)) };

    ghost may_leave = { λ device. SectorsOf (sector_count device) (F.may_leave (file_of device)) };

    ghost moment = { λ device. F.moment (file_of device) };

    ghost left_since = { λ device t. SectorsOf (sector_count device) (F.left_since (file_of device) t) };

    ghost failed = { λ device. failures_of device };

    ghost is_honest = { λ device. F.is_honest (file_of device) };

    ghost seen_may_stay = { λ device honest.
        (F.seen (file_of device), F.seen_may_stay (file_of device) honest, refl) };

    ghost counts_now = { λ device t c honest le left.
        (left.0, F.counts_now (file_of device) t left.0 honest le left.1, left.2) };

    ghost only_now = { λ device c honest left.
        (left.0, F.only_now (file_of device) left.0 honest left.1, left.2) };

    ghost all_seen = { λ device _. length-sectors (sector_count device) (F.seen (file_of device)) };

    fn len(&self) -> usize {
        self.len
    }

    fn failures(&self) -> u64 {
        self.failures
    }

    fn read(&mut self, at: usize) -> Result<Sector, DeviceError> {
        let mut octets = [0; 512];
        match self.file.read_at(512 * at as u64, &mut octets) {
            Ok(512) => Ok(octets),
            _ => Err(fail(&mut self.failures)),
        }
    }

    fn write(&mut self, at: usize, octets: &Sector) -> Result<(), DeviceError> {
        match self.file.write_at(512 * at as u64, octets) {
            Ok(512) => Ok(()),
            _ => Err(fail(&mut self.failures)),
        }
    }

    fn sync(&mut self) -> Result<(), DeviceError> {
        match self.file.sync() {
            Ok(()) => Ok(()),
            Err(_) => Err(fail(&mut self.failures)),
        }
    }
}
