//! Where devices are: files of the operating system, by their paths, or whatever else has devices by paths.
ghost use Rattle.std.specs.Prelude.{List, [], ◌∷◌, Option, None};
ghost use Rattle.dns_configuration.specs.Calls.{HasCalled};
ghost use Rattle.dns_devices.specs.DeviceCalls.{Asked, Closed, DeviceCall, Made, Opened, Removed};

use dns_sectors::{DeviceError, DiskFile, FileSectors, OpenDeviceError};
use std::fs::{self, Files};

/// Devices by their paths, which are opened and closed: whoever is given them can make none and remove none.
/// They may answer a call differently from one time to the next, as a system does.
pub trait Devices<D> {
    /// The calls so far, in order; `None` if they are not known, as those of a system are not.
    ghost calls: { Self → Option (List (DeviceCall D)) };

    /// Opens the device at a path, which is another's by no call until it is closed. `Device` if it can't be
    /// had, `Geometry` if it is no whole number of sectors.
    fn open(&mut self, path: &str) -> Result<D, OpenDeviceError>
        ensures { HasCalled (calls self.old) (calls self.new) (Opened path.now result ∷ []) };

    /// Closes the device that was opened at a path.
    fn close(&mut self, path: &str, device: D)
        ensures { HasCalled (calls self.old) (calls self.new) (Closed path.now device ∷ []) };
}

/// Paths at which devices are made, and removed again. They may answer a call differently from one time to
/// the next, as a system does.
pub trait NewDevices<D> {
    /// The calls so far, in order; `None` if they are not known.
    ghost calls: { Self → Option (List (DeviceCall D)) };

    /// Whether there is anything at a path. `Device` if that can't be determined.
    fn has(&mut self, path: &str) -> Result<bool, DeviceError>
        ensures { HasCalled (calls self.old) (calls self.new) (Asked path.now result ∷ []) };

    /// Makes a device of this number of sectors of zeros at a path. `Device` if there is something, and if it
    /// can't be made.
    fn make(&mut self, path: &str, len: usize) -> Result<D, DeviceError>
        ensures { HasCalled (calls self.old) (calls self.new) (Made path.now len result ∷ []) };

    /// Closes the device that was made at a path.
    fn close(&mut self, path: &str, device: D)
        ensures { HasCalled (calls self.old) (calls self.new) (Closed path.now device ∷ []) };

    /// Removes the device at a path, if that can be.
    fn remove(&mut self, path: &str)
        ensures { HasCalled (calls self.old) (calls self.new) (Removed path.now ∷ []) };
}

/// The files of the operating system. Nothing that is proved says what it answers.
#[derive(Clone, Copy)]
pub struct Disk<'a, R>(pub &'a R);

impl<R: Files<File = fs::File>> Devices<FileSectors<DiskFile>> for Disk<'_, R> {
    ghost calls = { λ _. None };

    fn open(&mut self, path: &str) -> Result<FileSectors<DiskFile>, OpenDeviceError> {
        FileSectors::open(self.0, path)
    }

    fn close(&mut self, _path: &str, device: FileSectors<DiskFile>) {
        drop(device);
    }
}

impl<R: Files<File = fs::File>> NewDevices<FileSectors<DiskFile>> for Disk<'_, R> {
    ghost calls = { λ _. None };

    fn has(&mut self, path: &str) -> Result<bool, DeviceError> {
        match fs::exists(self.0, path) {
            Ok(there) => Ok(there),
            Err(_) => Err(DeviceError::Device),
        }
    }

    fn make(&mut self, path: &str, len: usize) -> Result<FileSectors<DiskFile>, DeviceError> {
        FileSectors::make(self.0, path, len)
    }

    fn close(&mut self, _path: &str, device: FileSectors<DiskFile>) {
        drop(device);
    }

    fn remove(&mut self, path: &str) {
        let _removed = fs::remove_file(self.0, path);
    }
}
