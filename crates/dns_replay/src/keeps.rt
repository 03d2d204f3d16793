//! What a crash keeps of the writes that are pending on the devices of zones: the words after `crash` and
//! `reopen`.
ghost use Rattle.std.specs.Prelude.{◌≡◌, ◌==◌, [], map, option_map, position, IfOk};
ghost use Rattle.std.specs.List.{slice_split};
ghost use Rattle.dns_names.specs.Name.{names_eq};
ghost use Rattle.dns_replay.specs.Commands.{said_keep, said_zone_keep};
ghost use Rattle.dns_replay.specs.Keeps.{is_among, is_comma, keep_of, keeps_of, numbers_after, place_named};
ghost use Rattle.dns_replay.specs.Keeps.{zone_keep_of};
ghost use Rattle.dns_replay.specs.Lines.{words};

use crate::lines::{cut_at, first_word};
use dns_masterfile::number;
use dns_memory::Heap;
use dns_names::{Name, NameError};
use std::alloc::AllocError;

/// Which of the writes that are pending on a device a crash keeps.
#[derive(Drop)]
pub enum Keep {
    /// All of them.
    All,
    /// Those with these numbers, rising; the oldest has 1.
    These(Vec<u64, Heap>),
}

/// Which of those on the device of a zone.
#[derive(Drop)]
pub struct ZoneKeep {
    /// The index of the zone.
    pub zone: usize,
    /// What is kept.
    pub keep: Keep,
}

/// The numbers that a text says: in decimal digits, rising from 1, with commas between.
fn numbers(alloc: Heap, text: &[u8]) -> Result<Option<Vec<u64, Heap>>, AllocError>
    ensures { IfOk result
        (λ read. option_map (λ numbers. numbers.items) read
        ≡ numbers_after [] 0 (slice_split is_comma text.now)) }
{
    let mut numbers = Vec::new(alloc);
    let mut last = 0;
    let mut rest = Some(text);
    'pieces: while let Some(piece) = rest {
        let (digits, after) = cut_at(piece, b',');
        match number(digits) {
            Some(next) if next > last => {
                numbers.push(u64::from(next))?;
                last = next;
            }
            _ => return Ok(None),
        }
        rest = after;
    }
    Ok(Some(numbers))
}

/// What of the pending writes a text says: `all`, or their numbers.
fn one_keep(alloc: Heap, text: &[u8]) -> Result<Option<Keep>, AllocError>
    ensures { IfOk result (λ read. option_map said_keep read ≡ keep_of text.now) }
{
    if text == b"all".as_slice() {
        return Ok(Some(Keep::All));
    }
    match numbers(alloc, text)? {
        Some(numbers) => Ok(Some(Keep::These(numbers))),
        None => Ok(None),
    }
}

/// The index of the first of these names that is the one.
fn place_of(origins: &[Name], name: &Name) -> Option<usize>
    ensures { result ≡ position (λ origin. names_eq origin name.now) origins.now }
{
    origins.iter().position(|origin| *origin == *name)
}

/// The index of the zone that a text names, under the root.
pub(crate) fn place_named(
    alloc: Heap,
    origins: &[Name],
    text: &[u8],
) -> Result<Option<usize>, AllocError>
    ensures { IfOk result (λ index. index ≡ place_named origins.now text.now) }
{
    match Name::from_text(alloc, text, &Name::root(alloc)) {
        Ok(name) => Ok(place_of(origins, &name)),
        Err(NameError::OutOfMemory) => Err(AllocError),
        Err(_) => Ok(None),
    }
}

/// What a word says of one zone: its name and what is kept, with `=` between. An `=` within the name is
/// written `\061`.
fn zone_keep(alloc: Heap, origins: &[Name], word: &[u8]) -> Result<Option<ZoneKeep>, AllocError>
    ensures { IfOk result (λ read. option_map said_zone_keep read ≡ zone_keep_of origins.now word.now) }
{
    let (origin, Some(list)) = cut_at(word, b'=') else {
        return Ok(None);
    };
    let Some(zone) = place_named(alloc, origins, origin)? else {
        return Ok(None);
    };
    match one_keep(alloc, list)? {
        Some(keep) => Ok(Some(ZoneKeep { zone, keep })),
        None => Ok(None),
    }
}

/// Whether something is said of the zone.
fn is_among(zone: usize, keeps: &[ZoneKeep]) -> bool
    ensures { result ≡ is_among zone (map said_zone_keep keeps.now) }
{
    for one in keeps {
        if one.zone == zone {
            return true;
        }
    }
    false
}

/// What the words of a text say, of no zone twice.
pub(crate) fn keeps(
    alloc: Heap,
    origins: &[Name],
    text: &[u8],
) -> Result<Option<Vec<ZoneKeep, Heap>>, AllocError>
    ensures { IfOk result
        (λ read. option_map (λ keeps. map said_zone_keep keeps.items) read
        ≡ keeps_of origins.now (words text.now)) }
{
    let mut keeps = Vec::new(alloc);
    let mut rest = text;
    'words: while let Some((word, after)) = first_word(rest) {
        match zone_keep(alloc, origins, word)? {
            Some(keep) if !is_among(keep.zone, &keeps) => keeps.push(keep)?,
            _ => return Ok(None),
        }
        rest = after;
    }
    Ok(Some(keeps))
}
