//! What one who mends a refused configuration is told of its zones together: which two of them have one
//! origin or one device, or that they are too many or none. It serves `--explain` alone, and no clause says
//! more of it than that it ends.
use crate::configuration::{MOST_ZONES, name_at, text_at};
use crate::files::PrintedWord;
use crate::paths::is_same_path;
use dns_memory::Heap;
use std::alloc::Global;
use std::io::{self, Write};
use toml::Value;

/// Whether two zones have one origin.
fn have_one_origin(heap: Heap, zone: &Value, other: &Value) -> bool {
    match (
        name_at(heap, zone, "origin"),
        name_at(heap, other, "origin"),
    ) {
        (Ok(name), Ok(second)) => name == second,
        _ => false,
    }
}

/// Whether two zones have one device.
fn have_one_device(alloc: Global, zone: &Value, other: &Value) -> bool {
    match (text_at(zone, "device"), text_at(other, "device")) {
        (Some(path), Some(second)) => is_same_path(alloc, path, second).unwrap_or(false),
        _ => false,
    }
}

/// The position of the first of these zones that has the origin or the device of another, and which of both.
fn first_alike(
    alloc: Global,
    heap: Heap,
    zones: &[Value],
    zone: &Value,
) -> Option<(usize, &'static str)> {
    for (position, other) in zones.iter().enumerate() {
        if have_one_origin(heap, other, zone) {
            return Some((position, "origin"));
        }
        if have_one_device(alloc, other, zone) {
            return Some((position, "device"));
        }
    }
    None
}

/// Tells which two zones have one origin or one device. Answers whether two have.
fn tell_alike<E: Write>(
    alloc: Global,
    heap: Heap,
    what: &PrintedWord<'_>,
    zones: &[Value],
    err: &mut E,
) -> io::Result<bool> {
    for (position, zone) in zones.iter().enumerate().take(MOST_ZONES) {
        let before = zones.get(..position).unwrap_or(&[]);
        if let Some((earlier, key)) = first_alike(alloc, heap, before, zone) {
            let (first, second) = (earlier.saturating_add(1), position.saturating_add(1));
            let value = PrintedWord(text_at(zone, key).unwrap_or("").as_bytes());
            writeln!(
                err,
                "{what}: zones {first} and {second} have the same {key}, '{value}'"
            )?;
            return Ok(true);
        }
    }
    Ok(false)
}

/// Tells what is wrong with zones of which each by itself is right.
pub(crate) fn explain_zones<E: Write>(
    alloc: Global,
    heap: Heap,
    what: &PrintedWord<'_>,
    zones: &[Value],
    err: &mut E,
) -> io::Result<()> {
    if zones.is_empty() {
        return writeln!(err, "{what}: zone: a [[zone]] is expected for each zone");
    }
    if tell_alike(alloc, heap, what, zones, err)? {
        return Ok(());
    }
    let count = zones.len();
    if count > MOST_ZONES {
        return writeln!(
            err,
            "{what}: there are {count} zones, and at most {} are served",
            MOST_ZONES
        );
    }
    Ok(())
}
