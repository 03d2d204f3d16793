//! Files.
ghost use Rattle.std.specs.Prelude.{◌≡◌, ◌⊎◌, List, Ok, Err, IfOk, IfErr, MatchResult};
ghost use Rattle.dns_records.specs.Record.{Record as Stated};
ghost use Rattle.dns_masterfile.specs.Meaning.{FileMeans};
ghost use Rattle.dns_masterfile.specs.Reading.{read_file};

use crate::FileError;
use crate::context::{at_start, take_said};
use crate::scanner::{Next, Scanner};
use dns_memory::Heap;
use dns_names::Name;
use dns_records::Record;

/// The records of a master file, entry by entry.
fn read_records(
    alloc: Heap,
    octets: &[u8],
    origin: &Name,
) -> Result<Vec<Record, Heap>, (usize, FileError)>
    ensures { MatchResult result (λ records. read_file octets.now origin.now ≡ Ok records.items)
        (λ e. (e.1 ≡ FileError.OutOfMemory) ⊎ (read_file octets.now origin.now ≡ Err e)) }
{
    let (mut start, mut scanner) = Scanner::first(octets);
    let Ok(mut context) = at_start(origin) else {
        return Err((start.line, FileError::OutOfMemory));
    };
    let mut records = Vec::new(alloc);
    'entries: loop {
        let said = match scanner.take_entry(alloc, &context, start.blank) {
            Ok(said) => said,
            Err(fault) => {
                drop((context, records));
                return Err((start.line, fault));
            }
        };
        let Ok(()) = take_said(&mut context, said, &mut records) else {
            drop((context, records));
            return Err((start.line, FileError::OutOfMemory));
        };
        match scanner.next() {
            Next::Entry(next, behind) => {
                start = next;
                scanner = behind;
            }
            _ => {
                drop(context);
                return Ok(records);
            }
        }
    }
}

/// The records of a master file (RFC 1035 section 5.1), in the file's order. A name that no dot ends is
/// followed by the origin, which is the given one before the first `$ORIGIN`. The first entry that is refused
/// is reported by the line on which it begins and its first fault from left to right; `OutOfMemory` may occur
/// at any.
pub fn read_zone(
    alloc: Heap,
    octets: &[u8],
    origin: &Name,
) -> Result<Vec<Record, Heap>, (usize, FileError)>
    ensures found { IfOk result (λ records. FileMeans octets.now origin.now records.items) }
    // A file that means records is read, unless memory runs out.
    ensures only { (records : List Stated)
        → FileMeans octets.now origin.now records
        → IfErr result (λ e. e.1 ≡ FileError.OutOfMemory) }
    // The same as it is computed, with the line and the fault of a refusal.
    ensures read { MatchResult result (λ records. read_file octets.now origin.now ≡ Ok records.items)
        (λ e. (e.1 ≡ FileError.OutOfMemory) ⊎ (read_file octets.now origin.now ≡ Err e)) }
{
    read_records(alloc, octets, origin)
}
