//! What is worth a second look in settings that are taken. It serves `--explain` alone, and no clause says
//! more of it than that it ends.
use crate::configuration::{LEAST_JOURNAL, MOST, count_at, list_at};
use crate::files::{File, PrintedWord};
use dns_policy::address;
use std::alloc::Global;
use std::io::{self, Write};
use std::net::IpAddr;
use toml::Value;

/// Whether an address has bits other than 0 after this number of them.
fn has_bits_after(address: IpAddr, length: u32) -> bool {
    match address {
        IpAddr::V4(ip) => ip.to_bits().checked_shl(length).unwrap_or(0) != 0,
        IpAddr::V6(ip) => ip.to_bits().checked_shl(length).unwrap_or(0) != 0,
    }
}

/// Whether the text of a prefix has an address with bits that the prefix does not look at.
fn is_of_a_host(text: &str) -> bool {
    let Some((front, digits)) = text.split_once('/') else {
        return false;
    };
    match (address(front.as_bytes()), digits.parse::<u32>()) {
        (Some(address), Ok(length)) => has_bits_after(address, length),
        _ => false,
    }
}

/// Warns of the prefixes at a key of a zone whose address has bits after their length.
fn warn_of_prefixes<E: Write>(
    what: &PrintedWord<'_>,
    number: usize,
    zone: &Value,
    key: &str,
    err: &mut E,
) -> io::Result<()> {
    let Some(texts) = list_at(zone, key) else {
        return Ok(());
    };
    for value in texts {
        let text = value.as_str().unwrap_or("");
        if is_of_a_host(text) {
            let met = PrintedWord(text.as_bytes());
            writeln!(
                err,
                "{what}: zone {number}: {key}: '{met}': the bits after the length are not looked at"
            )?;
        }
    }
    Ok(())
}

/// Warns of a zone that keeps about as many changes as its journal has sectors.
fn warn_of_keep<E: Write>(
    what: &PrintedWord<'_>,
    number: usize,
    zone: &Value,
    err: &mut E,
) -> io::Result<()> {
    let (Ok(keep), Ok(journal)) = (
        count_at(zone, "keep", 0, MOST),
        count_at(zone, "journal_sectors", LEAST_JOURNAL, MOST),
    ) else {
        return Ok(());
    };
    if keep <= journal / 2 {
        return Ok(());
    }
    writeln!(
        err,
        "{what}: zone {number}: keep: {keep} is not well below journal_sectors, {journal}: each change that \
is kept takes a sector or more"
    )
}

/// Warns, in a line each, of settings that are taken and may be other than what was meant.
pub fn warn_of_settings<E: Write>(alloc: Global, file: &File<'_>, err: &mut E) -> io::Result<()> {
    let what = PrintedWord(file.path.as_bytes());
    let Ok(text) = std::str::from_utf8(file.octets.unwrap_or(&[])) else {
        return Ok(());
    };
    let Ok(table) = toml::table_from_str(alloc, text) else {
        return Ok(());
    };
    let document = Value::Table(table);
    let Some(zones) = list_at(&document, "zone") else {
        return Ok(());
    };
    let mut number: usize = 0;
    for zone in zones {
        number = number.saturating_add(1);
        warn_of_keep(&what, number, zone, err)?;
        warn_of_prefixes(&what, number, zone, "update", err)?;
        warn_of_prefixes(&what, number, zone, "transfer", err)?;
    }
    Ok(())
}
