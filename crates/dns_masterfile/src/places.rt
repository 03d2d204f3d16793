//! Where the records of a file are, and at which word a refused entry was refused: for whoever corrects the
//! file.
use crate::FileError;
use crate::context::{Context, at_start, take_said};
use crate::pieces::Word;
use crate::scanner::{Next, Scanner, Start};
use dns_memory::Heap;
use dns_names::Name;
use dns_records::Record;
use std::alloc::AllocError;

/// An entry that is refused.
#[derive(Drop)]
pub struct RefusedEntry<'a> {
    /// The line on which the entry begins.
    pub line: usize,
    pub error: FileError,
    /// The word at which it was refused, as it is written; none where the entry ends before a word that is
    /// wanted.
    pub word: Option<&'a [u8]>,
}

/// The records of a file up to the first entry that is refused, in the file's order.
pub struct Places<'a> {
    pub records: Vec<Record, Heap>,
    /// The line on which the entry of each record begins.
    pub lines: Vec<usize, Heap>,
    pub refused: Option<RefusedEntry<'a>>,
}

// Written out, so that a proof lets one go by one call (docs/GATE.md).
impl<'a> Drop for Places<'a> {
    fn drop(self) {
        let Places {
            records,
            lines,
            refused: _,
        } = self;
        drop((records, lines));
    }
}

/// A word as it is written, without its quotes.
fn written(word: Word<'_>) -> &[u8] {
    match word {
        Word::Bare(text) => text,
        Word::Quoted(text) => text,
    }
}

/// The word at which an entry was refused: the last that was taken, or the first that was left over.
fn refused_word<'a>(start: Scanner<'a>, stop: &Scanner<'a>, error: FileError) -> Option<&'a [u8]> {
    let mut scanner = start;
    let mut last = None;
    for _ in stop.left()..scanner.left() {
        if scanner.left() <= stop.left() {
            break;
        }
        let Some((word, behind)) = scanner.first_word() else {
            break;
        };
        last = Some(written(word));
        scanner = behind;
    }
    if error == FileError::Syntax {
        return match stop.first_word() {
            Some((word, _)) => Some(written(word)),
            None => None,
        };
    }
    last
}

/// The directive that starts the entry, where it is one that isn't read.
fn strange_directive<'a>(start: &Scanner<'a>) -> Option<&'a [u8]> {
    let (word, _) = start.first_word()?;
    if !word.begins_with_dollar() || word.is_keyword(b"$ORIGIN") || word.is_keyword(b"$TTL") {
        return None;
    }
    Some(written(word))
}

/// The entry that starts there and was refused.
fn refused<'a>(
    start: Start,
    before: Scanner<'a>,
    stop: &Scanner<'a>,
    error: FileError,
) -> RefusedEntry<'a> {
    let word = match strange_directive(&before) {
        Some(word) => Some(word),
        None => refused_word(before, stop, error),
    };
    RefusedEntry {
        line: start.line,
        error,
        word,
    }
}

/// Reads entries, and appends their records to others, up to the first entry that is refused.
fn take_places<'a>(
    alloc: Heap,
    octets: &'a [u8],
    context: &mut Context,
    places: &mut Places<'a>,
) -> Result<(), AllocError> {
    let (mut start, mut scanner) = Scanner::first(octets);
    for _ in 0..=octets.len() {
        let before = scanner.reborrow();
        let said = match scanner.take_entry(alloc, context, start.blank) {
            Ok(said) => said,
            Err(error) => {
                places.refused = Some(refused(start, before, &scanner, error));
                return Ok(());
            }
        };
        take_said(context, said, &mut places.records)?;
        if places.lines.len() < places.records.len() {
            places.lines.push(start.line)?;
        }
        match scanner.next() {
            Next::Entry(next, behind) => {
                start = next;
                scanner = behind;
            }
            _ => return Ok(()),
        }
    }
    Ok(())
}

/// Reads a file as `read_zone` does, and keeps where its records are.
pub fn find_places<'a>(
    alloc: Heap,
    octets: &'a [u8],
    origin: &Name,
) -> Result<Places<'a>, AllocError> {
    let mut context = at_start(origin)?;
    let mut places = Places {
        records: Vec::new(alloc),
        lines: Vec::new(alloc),
        refused: None,
    };
    let taken = take_places(alloc, octets, &mut context, &mut places);
    drop(context);
    match taken {
        Ok(()) => Ok(places),
        Err(error) => {
            drop(places);
            Err(error)
        }
    }
}
