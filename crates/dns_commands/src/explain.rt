//! What one who mends a refused master file is told beside its fault: the word that was met, or the lines of
//! the records that are no zone together. It serves `--explain` alone, and no clause says more of it than
//! that it ends.
mod entries;
mod types;
mod words;

use crate::commands::check::Index;
use dns_configuration::{Fault, File, PrintedWord, apex, load};
use dns_masterfile::{FileError, Places, TypeWord, find_places};
use dns_memory::Heap;
use dns_names::Name;
use dns_records::Record;
use dns_records::types::{CNAME, NS, SOA};
use dns_zone::{Zone, ZoneError, ZoneIndex};
use entries::{explain_entry, has_mark, tell_mark};
use std::alloc::AllocError;
use std::cmp::Ordering;
use std::io::{self, Write};

/// A record that is refused in a zone, and the record before it that it can't coexist with, by their
/// positions in the file.
#[derive(Clone, Copy)]
struct Clash {
    position: usize,
    earlier: Option<usize>,
}

/// The record at a position, if there is one.
fn at(position: Option<usize>) -> Option<Clash> {
    Some(Clash {
        position: position?,
        earlier: None,
    })
}

/// The first record whose owner is neither the apex nor under it.
fn first_outside(records: &[Record], apex: &Name) -> Option<Clash> {
    at(records.iter().position(|r| !r.owner().is_under(apex)))
}

/// The first NS at a wildcard.
fn first_wildcard_ns(records: &[Record]) -> Option<Clash> {
    at(records.iter().position(|r| r.rtype() == NS && r.owner().lend().begins_with_asterisk()))
}

/// The second SOA, and the first.
fn second_soa(records: &[Record]) -> Option<Clash> {
    let earlier = records.iter().position(|r| r.rtype() == SOA)?;
    let later = records[earlier + 1..]
        .iter()
        .position(|r| r.rtype() == SOA)?;
    Some(Clash {
        position: earlier + 1 + later,
        earlier: Some(earlier),
    })
}

/// Whether two records of one owner can't coexist.
fn are_at_odds(error: ZoneError, earlier: &Record, later: &Record) -> bool {
    match error {
        ZoneError::Duplicate => earlier.compare(later) == Ordering::Equal,
        _ => earlier.rtype() == CNAME || later.rtype() == CNAME,
    }
}

/// The first record that can't coexist with one of its owner before it, and that one.
fn first_pair(
    heap: Heap,
    error: ZoneError,
    records: &[Record],
) -> Result<Option<Clash>, AllocError> {
    let mut index = Index::empty(heap)?;
    for position in 0..records.len() {
        let later = &records[position];
        let owner = later.owner().lend();
        let beside = index.records_at(&owner);
        if beside
            .iter()
            .any(|earlier| are_at_odds(error, earlier, later))
        {
            let earlier = records[..position].iter().position(|earlier| {
                earlier.owner().lend().is(&owner) && are_at_odds(error, earlier, later)
            });
            return Ok(Some(Clash { position, earlier }));
        }
        index.insert(later.clone()?)?;
    }
    Ok(None)
}

/// Which record makes the file no zone, if one does.
fn find_clash(
    heap: Heap,
    apex: &Name,
    error: ZoneError,
    records: &[Record],
) -> Result<Option<Clash>, AllocError> {
    match error {
        ZoneError::ManySoa => Ok(second_soa(records)),
        ZoneError::OutOfZone => Ok(first_outside(records, apex)),
        ZoneError::WildcardNs => Ok(first_wildcard_ns(records)),
        ZoneError::Duplicate | ZoneError::CnameAndOther => first_pair(heap, error, records),
        _ => Ok(None),
    }
}

/// Tells which record makes the file no zone, and the line of the one before it.
fn explain_clash<E: Write>(
    err: &mut E,
    path: &str,
    places: &Places<'_>,
    clash: Clash,
    error: ZoneError,
) -> io::Result<()> {
    let (Some(record), Some(line)) = (
        places.records.get(clash.position),
        places.lines.get(clash.position),
    ) else {
        return Ok(());
    };
    let what = PrintedWord(path.as_bytes());
    let (owner, rtype) = (record.owner(), TypeWord(record.rtype()));
    let Some(first) = clash.earlier.and_then(|earlier| places.lines.get(earlier)) else {
        return writeln!(err, "{what}:{line}: {owner} {rtype}: {error}");
    };
    match error {
        ZoneError::CnameAndOther => writeln!(
            err,
            "{what}:{line}: {owner} {rtype} is beside the record on line {first}"
        ),
        _ => writeln!(
            err,
            "{what}:{line}: {owner} {rtype} is on line {first} already"
        ),
    }
}

/// Tells what keeps the records of a file from being a zone. Answers whether something was reported.
fn explain_zone<E: Write>(
    heap: Heap,
    file: &File<'_>,
    apex: &Name,
    places: &Places<'_>,
    err: &mut E,
) -> io::Result<bool> {
    let loaded: Result<(Zone<Index>, usize), _> = load(heap, file.octets, apex.clone()?);
    let Err(Fault::NoZone(error)) = loaded else {
        return Ok(false);
    };
    if error == ZoneError::NoSoa && has_mark(file.octets.unwrap_or(&[])) {
        tell_mark(file.path, err)?;
        return Ok(true);
    }
    match find_clash(heap, apex, error, &places.records)? {
        Some(clash) => explain_clash(err, file.path, places, clash, error)?,
        None => writeln!(
            err,
            "{}: {apex}: {error}",
            PrintedWord(file.path.as_bytes())
        )?,
    }
    Ok(true)
}

/// Tells what is wrong with the master file of a zone, in a line for one who mends it. Nothing is reported of
/// a file that is a zone, and of refused memory. Answers whether something was reported.
pub(crate) fn explain_file<E: Write>(
    heap: Heap,
    file: &File<'_>,
    apex: &Name,
    err: &mut E,
) -> io::Result<bool> {
    let Some(octets) = file.octets else {
        return Ok(false);
    };
    let places = find_places(heap, octets, apex)?;
    let Some(entry) = &places.refused else {
        return explain_zone(heap, file, apex, &places, err);
    };
    if entry.error == FileError::OutOfMemory {
        return Ok(false);
    }
    explain_entry(heap, err, file.path, octets, entry)?;
    Ok(true)
}

/// Tells what is wrong where `check` refused a file that can be read.
pub fn explain_check<E: Write>(
    heap: Heap,
    file: &File<'_>,
    origin: &str,
    err: &mut E,
) -> io::Result<()> {
    match apex(heap, origin) {
        Ok(apex) => {
            explain_file(heap, file, &apex, err)?;
            Ok(())
        }
        Err(Fault::BadOrigin) => {
            let what = PrintedWord(origin.as_bytes());
            writeln!(
                err,
                "{what}: the name of a zone's apex is expected, such as example.com."
            )
        }
        Err(_) => Ok(()),
    }
}
