//! A file in memory, for tests: a list of octets, each change of which is durable at once.
ghost use Rattle.std.specs.Prelude.{◌≡◌, ◌≤◌, ◌+◌, refl, length, take, drop, [], ◌++◌, Ok, IfOk};
ghost use Rattle.dns_sectors.specs.MemoryFile.{file_after_all};

use crate::{File, FileError, Sector};
use dns_memory::Heap;
use std::alloc::AllocError;
use std::cmp::min;

/// A change, as the record of a file in memory has it.
#[derive(Clone, Copy)]
pub enum Change {
    /// These octets were written at this offset.
    Wrote(u64, Sector),
    /// The file was made so long.
    Resized(u64),
}

// Which calls go wrong, counted down. Nought counts nothing.
#[derive(Clone, Copy)]
struct Faults {
    fail_at: u64,
    short_at: u64,
}

// What becomes of a call.
#[derive(Clone, Copy, Debug, PartialEq, Eq)]
enum Turn {
    // It is done.
    Done,
    // It fails with no effect.
    Fails,
    // A read or a write moves no octet.
    Short,
}

impl Faults {
    // Counts a call, and says what becomes of it.
    fn turn(&mut self) -> Turn {
        let (fails, is_short) = (self.fail_at == 1, self.short_at == 1);
        self.fail_at = self.fail_at.saturating_sub(1);
        self.short_at = self.short_at.saturating_sub(1);
        if fails {
            Turn::Fails
        } else if is_short {
            Turn::Short
        } else {
            Turn::Done
        }
    }
}

/// A file in memory, which is always honest. It keeps a record of the changes that were made, so that
/// contracts can name what it held at each moment.
pub struct MemoryFile {
    faults: Faults,
    // the octets when the record began
    start: Vec<u8, Heap>,
    octets: Vec<u8, Heap>,
    changes: Vec<Change, Heap>,
    ghost held: { octets.items ≡ file_after_all start.items changes.items },
}

// Written out, so that a proof lets one go by one call (docs/GATE.md).
impl Drop for MemoryFile {
    fn drop(self) {
        let MemoryFile {
            faults: _,
            start,
            octets,
            changes,
        } = self;
        drop((start, octets, changes));
    }
}

// Puts octets in place of those at an offset.
fn overwrite(held: &mut [u8], at: usize, octets: &Sector)
    requires { at + 512 ≤ length held.old }
    ensures { held.new ≡ take at held.old ++ (octets.now ++ drop (at + 512) held.old) }
{
    held[at..at + 512].copy_from_slice(octets);
}

impl MemoryFile {
    ghost use Rattle.dns_sectors.specs.FileInMemory.{file_octets};

    /// An empty file, with room for a record of so many changes: one beyond that fails. Refused where the
    /// memory for the record is.
    pub fn new(alloc: Heap, changes: usize) -> Result<MemoryFile, AllocError>
        ensures { IfOk result (λ file. file_octets file ≡ []) }
    {
        Ok(MemoryFile {
            faults: Faults {
                fail_at: 0,
                short_at: 0,
            },
            start: Vec::new(alloc),
            octets: Vec::new(alloc),
            changes: Vec::with_capacity(alloc, changes)?,
        })
    }

    /// The octets that the file holds.
    pub fn octets(&self) -> &[u8]
        ensures { result.now ≡ file_octets self.now }
    {
        &self.octets
    }

    /// The `n`-th read, write, change of length or sync from here on fails, once, with no effect. It replaces
    /// an earlier `fail_at`; 0 means none.
    pub fn fail_at(&mut self, n: u64)
        ensures { file_octets self.new ≡ file_octets self.old }
    {
        self.faults.fail_at = n;
    }

    /// The `n`-th of these calls from here on, if it is a read or a write, moves no octet and says so. It
    /// replaces an earlier `short_at`; 0 means none.
    pub fn short_at(&mut self, n: u64)
        ensures { file_octets self.new ≡ file_octets self.old }
    {
        self.faults.short_at = n;
    }
}

impl File for MemoryFile {
    ghost use Rattle.dns_sectors.specs.MemoryFile.{HeldSince, now_is_since, since_now};
    ghost use Rattle.dns_sectors.specs.FileInMemory.{start_of, changes_of, file_octets};

    ghost seen = { λ file. file_octets file };

    ghost may_leave = { λ file c. c ≡ file_octets file };

    ghost moment = { λ file. length (changes_of file) };

    ghost left_since = { λ file. HeldSince (start_of file) (changes_of file) };

    ghost is_honest = { λ _. Unit {0} };

    ghost measured = { λ file answer. answer ≡ Ok (length (file_octets file)) };

    ghost seen_may_stay = { λ file _. refl };

    ghost counts_now = { λ file t c _. now_is_since (start_of file) (changes_of file) t c };

    ghost only_now = { λ file c _. since_now (start_of file) (changes_of file) c };

    fn len(&self) -> Result<u64, FileError> {
        Ok(self.octets.len() as u64)
    }

    fn set_len(&mut self, len: u64) -> Result<(), FileError> {
        if self.faults.turn() == Turn::Fails || self.changes.len() >= self.changes.capacity() {
            return Err(FileError::Failed);
        }
        match self.octets.resize(len as usize, 0) {
            Ok(()) => {
                self.changes.push_reserved(Change::Resized(len));
                Ok(())
            }
            Err(_) => Err(FileError::Failed),
        }
    }

    fn read_at(&mut self, offset: u64, into: &mut Sector) -> Result<usize, FileError> {
        match self.faults.turn() {
            Turn::Fails => Err(FileError::Failed),
            Turn::Short => Ok(0),
            Turn::Done => {
                let at = min(offset as usize, self.octets.len());
                let count = min(self.octets.len() - at, 512);
                into[..count].copy_from_slice(&self.octets[at..at + count]);
                Ok(count)
            }
        }
    }

    fn write_at(&mut self, offset: u64, octets: &Sector) -> Result<usize, FileError> {
        match self.faults.turn() {
            Turn::Fails => return Err(FileError::Failed),
            Turn::Short => return Ok(0),
            Turn::Done => {}
        }
        let at = offset as usize;
        if self.changes.len() >= self.changes.capacity()
            || at > self.octets.len()
            || self.octets.len() - at < 512
        {
            return Err(FileError::Failed);
        }
        overwrite(&mut self.octets, at, octets);
        self.changes.push_reserved(Change::Wrote(offset, *octets));
        Ok(512)
    }

    fn sync(&mut self) -> Result<(), FileError> {
        if self.faults.turn() == Turn::Fails {
            return Err(FileError::Failed);
        }
        Ok(())
    }
}
