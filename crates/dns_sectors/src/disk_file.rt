//! A file of the operating system, locked for as long as it is open.
ghost use Rattle.std.specs.Prelude.{◌≡◌, ◌≤◌, ◌^◌, ◌*◌, [], Err, IfOk};

use crate::{DeviceError, File, FileError, FileSectors, OpenDeviceError, Sector};
use std::fs::{self, Files, OpenOptions, Permissions};
use std::os::unix::fs::{FileExt, OpenOptionsExt, PermissionsExt};
use std::path::Path;

/// Who may read and write a file that is made: its owner alone. Whoever may open a file can lock it, and keep
/// others from it.
const OWNER_ALONE: u32 = 0o600;

/// A file of the operating system, which no other process that asks for the lock has open.
///
/// Nothing that is proved says what the system does with a file, so this one is never taken to be honest: no
/// fact about its octets follows from its contract. That a real file is honest is a premise of whoever relies
/// on it.
#[derive(Drop)]
pub struct DiskFile {
    file: fs::File,
}

// Makes the names in the folder of a file durable.
fn sync_folder<R: Files<File = fs::File>>(files: &R, path: &str) -> Result<(), FileError> {
    let parent = match Path::new(path).parent() {
        Some(parent) if !parent.as_str().is_empty() => parent,
        _ => Path::new("."),
    };
    match fs::File::open(files, parent) {
        Ok(folder) => match folder.sync_all() {
            Ok(()) => Ok(()),
            Err(_) => Err(FileError::Failed),
        },
        Err(_) => Err(FileError::Failed),
    }
}

impl DiskFile {
    /// Makes a file at this path, which is empty and locked, and which its owner alone may read and write,
    /// whatever the umask; and makes its name durable. Refused where there is one, and where the system
    /// refuses a step; no file that was made is then left.
    pub fn create<R: Files<File = fs::File>>(files: &R, path: &str) -> Result<DiskFile, FileError> {
        let mut how = OpenOptions::new();
        how.read(true).write(true).create_new(true);
        how.mode(OWNER_ALONE);
        let Ok(file) = how.open(files, path) else {
            return Err(FileError::Failed);
        };
        let made = DiskFile { file };
        match made.settle(files, path) {
            Ok(()) => Ok(made),
            Err(error) => {
                let _removed = fs::remove_file(files, path);
                Err(error)
            }
        }
    }

    // Locks a file that was made at this path, gives it to its owner alone, and makes its name durable.
    fn settle<R: Files<File = fs::File>>(&self, files: &R, path: &str) -> Result<(), FileError> {
        let owner_alone = Permissions::from_mode(OWNER_ALONE);
        match (self.file.try_lock(), self.file.set_permissions(owner_alone)) {
            (Ok(()), Ok(())) => sync_folder(files, path),
            _ => Err(FileError::Failed),
        }
    }

    /// Opens and locks the file at this path. Refused where another process holds it, and where the system
    /// refuses.
    pub fn open<R: Files<File = fs::File>>(files: &R, path: &str) -> Result<DiskFile, FileError> {
        match OpenOptions::new().read(true).write(true).open(files, path) {
            Ok(file) => match file.try_lock() {
                Ok(()) => Ok(DiskFile { file }),
                Err(_) => Err(FileError::Failed),
            },
            Err(_) => Err(FileError::Failed),
        }
    }

    /// Opens the file at this path to be read alone, so that a medium that can't be written will do, and
    /// locks it beside others that only read. Refused if another process has it open to write, and if the
    /// system refuses. Each write to it fails.
    pub fn open_to_read<R: Files<File = fs::File>>(
        files: &R,
        path: &str,
    ) -> Result<DiskFile, FileError> {
        match OpenOptions::new().read(true).open(files, path) {
            Ok(file) => match file.try_lock_shared() {
                Ok(()) => Ok(DiskFile { file }),
                Err(_) => Err(FileError::Failed),
            },
            Err(_) => Err(FileError::Failed),
        }
    }
}

impl File for DiskFile {
    ghost seen = { λ _. [] };

    ghost may_leave = { λ _ _. ⊥ };

    ghost moment = { λ _. 0 };

    ghost left_since = { λ _ _ _. ⊥ };

    ghost is_honest = { λ _. ⊥ };

    ghost measured = { λ _ _. Unit {0} };

    ghost seen_may_stay = { λ _ honest. honest };

    ghost counts_now = { λ _ _ _ honest _ _. honest };

    ghost only_now = { λ _ _ honest _. honest };

    fn len(&self) -> Result<u64, FileError> {
        match self.file.metadata() {
            Ok(metadata) => Ok(metadata.len()),
            Err(_) => Err(FileError::Failed),
        }
    }

    fn set_len(&mut self, len: u64) -> Result<(), FileError> {
        match self.file.set_len(len) {
            Ok(()) => Ok(()),
            Err(_) => Err(FileError::Failed),
        }
    }

    fn read_at(&mut self, offset: u64, into: &mut Sector) -> Result<usize, FileError> {
        match self.file.read_at(into, offset) {
            Ok(count) => Ok(count),
            Err(_) => Err(FileError::Failed),
        }
    }

    fn write_at(&mut self, offset: u64, octets: &Sector) -> Result<usize, FileError> {
        match self.file.write_at(octets, offset) {
            Ok(count) => Ok(count),
            Err(_) => Err(FileError::Failed),
        }
    }

    fn sync(&mut self) -> Result<(), FileError> {
        match self.file.sync_data() {
            Ok(()) => Ok(()),
            Err(_) => Err(FileError::Failed),
        }
    }
}

impl FileSectors<DiskFile> {
    ghost use Rattle.dns_sectors.specs.FileDevice.{sector_count, failures_of};

    /// Makes a file at this path that is a device of this many sectors of zeros. `Device` if there is a
    /// file, if the system refuses one or a call on it, or if a file can't be so long; a file that was made
    /// is then removed.
    pub fn make<R: Files<File = fs::File>>(
        files: &R,
        path: &str,
        len: usize,
    ) -> Result<FileSectors<DiskFile>, DeviceError>
        ensures count { IfOk result (λ device. sector_count device ≡ len) }
        ensures failures { IfOk result (λ device. failures_of device ≡ 0) }
        ensures too_long { 2 ^ 64 ≤ 512 * len → result ≡ Err DeviceError.Device }
    {
        let Ok(file) = DiskFile::create(files, path) else {
            return Err(DeviceError::Device);
        };
        match FileSectors::zeroed(file, len) {
            Ok(device) => Ok(device),
            Err(error) => {
                let _removed = fs::remove_file(files, path);
                Err(error)
            }
        }
    }

    /// The device that the file at this path is. `Device` where the file can't be had, where another process
    /// holds it, and where it doesn't tell its length; `Geometry` where that is no multiple of 512.
    pub fn open<R: Files<File = fs::File>>(
        files: &R,
        path: &str,
    ) -> Result<FileSectors<DiskFile>, OpenDeviceError>
        ensures failures { IfOk result (λ device. failures_of device ≡ 0) }
    {
        match DiskFile::open(files, path) {
            Ok(file) => FileSectors::over(file),
            Err(_) => Err(OpenDeviceError::Device),
        }
    }

    /// That device, to be read alone: each write to it fails. `Device` if the file can't be had, if another
    /// process has it open to write, and if it doesn't tell its length; `Geometry` if that is no multiple of
    /// 512.
    pub fn open_to_read<R: Files<File = fs::File>>(
        files: &R,
        path: &str,
    ) -> Result<FileSectors<DiskFile>, OpenDeviceError>
        ensures failures { IfOk result (λ device. failures_of device ≡ 0) }
    {
        match DiskFile::open_to_read(files, path) {
            Ok(file) => FileSectors::over(file),
            Err(_) => Err(OpenDeviceError::Device),
        }
    }
}
