//! Devices that are read alone, by their paths.
ghost use Rattle.std.specs.Prelude.{List, [], ◌∷◌, Option, None};
ghost use Rattle.dns_configuration.specs.Calls.{HasCalled};
ghost use Rattle.dns_devices.specs.DeviceCalls.{Closed, DeviceCall, Opened};

use crate::devices::Disk;
use dns_sectors::{DiskFile, FileSectors, OpenDeviceError};
use std::fs::{self, Files};

/// Devices by their paths, which are opened to be read alone, and closed: whoever is given them can make
/// none, remove none and write none. They may answer a call differently from one time to the next, as a
/// system does.
pub trait DevicesToRead<D> {
    /// The calls so far, in order; `None` if they are not known, as those of a system are not.
    ghost calls: { Self → Option (List (DeviceCall D)) };

    /// Opens the device at a path, which nobody writes until it is closed. `Device` if it can't be had,
    /// `Geometry` if it is no whole number of sectors.
    fn open_to_read(&mut self, path: &str) -> Result<D, OpenDeviceError>
        ensures { HasCalled (calls self.old) (calls self.new) (Opened path.now result ∷ []) };

    /// Closes the device that was opened at a path.
    fn close(&mut self, path: &str, device: D)
        ensures { HasCalled (calls self.old) (calls self.new) (Closed path.now device ∷ []) };
}

impl<R: Files<File = fs::File>> DevicesToRead<FileSectors<DiskFile>> for Disk<'_, R> {
    ghost calls = { λ _. None };

    fn open_to_read(&mut self, path: &str) -> Result<FileSectors<DiskFile>, OpenDeviceError> {
        FileSectors::open_to_read(self.0, path)
    }

    fn close(&mut self, _path: &str, device: FileSectors<DiskFile>) {
        drop(device);
    }
}
