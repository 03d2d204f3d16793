//! The file of a recording.

use std::fs::{self, File, OpenOptions};
use std::io::{self, ErrorKind, Write};
use std::os::unix::fs::OpenOptionsExt;

/// Who may read and write a file that is made: its owner.
const OWNER_ALONE: u32 = 0o600;

/// A file at whose end is written. It is opened when the first octets come, and made for its owner alone if
/// it isn't there.
#[derive(Drop)]
pub struct RecordFile<'a> {
    rt: &'a HostRuntime,
    path: Option<&'a str>,
    file: Option<File>,
}

/// Opens the file at this path. Refused if there is something else there: writing to a pipe may wait.
fn open(rt: &HostRuntime, path: &str) -> io::Result<File> {
    let mut how = OpenOptions::new();
    how.append(true).create(true);
    how.mode(OWNER_ALONE);
    match fs::metadata(rt, path) {
        Ok(there) if !there.is_file() => Err(ErrorKind::InvalidInput.into()),
        _ => how.open(rt, path),
    }
}

impl<'a> RecordFile<'a> {
    /// The file at this path, or none, to which nothing can be written.
    pub fn new(rt: &'a HostRuntime, path: Option<&'a str>) -> RecordFile<'a> {
        RecordFile {
            rt,
            path,
            file: None,
        }
    }
}

impl Write for RecordFile<'_> {
    fn write(&mut self, octets: &[u8]) -> io::Result<usize> {
        if let Some(path) = self.path.take() {
            self.file = Some(open(self.rt, path)?);
        }
        match &mut self.file {
            Some(file) => file.write(octets),
            None => Err(ErrorKind::NotFound.into()),
        }
    }

    fn flush(&mut self) -> io::Result<()> {
        match &mut self.file {
            Some(file) => file.flush(),
            None => Ok(()),
        }
    }
}
