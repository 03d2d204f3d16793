//! What one who mends a refused configuration is told beside its fault: the key that is unknown, missing or
//! wrong, and what is expected there. It serves `--explain` alone, and no clause says more of it than that it
//! ends.
use crate::configuration::{
    LEAST_JOURNAL, LEAST_SNAPSHOT, MOST, ZONE_KEYS, count_at, list_at, name_at, path_at,
    prefixes_at,
};
use crate::explain_lines::{is_zone_header, line_of, line_of_key, line_of_single_zone};
use crate::explain_zones::explain_zones;
use crate::files::{File, PrintedWord};
use crate::listening::{MOST_ADDRESSES, addresses_at, socket_address};
use dns_memory::Heap;
use dns_policy::{Prefix, PrefixError, address};
use std::alloc::Global;
use std::io::{self, Write};
use std::net::IpAddr;
use toml::Value;

/// What is expected at a key.
#[derive(Clone, Copy)]
enum Expected {
    /// An address and a port, or a list of them.
    Addresses,
    /// A list of zones.
    Zones,
    /// The name of the apex.
    Apex,
    /// The path of a file.
    Path(&'static str),
    /// A number in a range.
    Count(u32, u32),
    /// Prefixes of addresses.
    Prefixes,
}

/// What an address is.
const ADDRESS_EXPECTED: &str = "an address and a port such as \"127.0.0.1:53\" are expected";

/// The keys of a configuration, and what is expected at each.
const KEYS: [(&str, Expected); 2] = [("listen", Expected::Addresses), ("zone", Expected::Zones)];

/// The keys of a zone, and what is expected at each.
const KEYS_OF_ZONE: [(&str, Expected); ZONE_KEYS] = [
    ("origin", Expected::Apex),
    ("file", Expected::Path("master file")),
    ("device", Expected::Path("device")),
    ("snapshot_sectors", Expected::Count(LEAST_SNAPSHOT, MOST)),
    ("journal_sectors", Expected::Count(LEAST_JOURNAL, MOST)),
    ("keep", Expected::Count(0, MOST)),
    ("update", Expected::Prefixes),
    ("transfer", Expected::Prefixes),
];

/// A table that is looked at: the document if the number is 0, and else the zone with that number, the first
/// being 1.
#[derive(Clone, Copy)]
struct Place<'a> {
    /// The path of the configuration.
    path: &'a str,
    /// Its text.
    octets: &'a [u8],
    number: usize,
}

impl<'a> Place<'a> {
    /// The path, as it is printed.
    fn what(self) -> PrintedWord<'a> {
        PrintedWord(self.path.as_bytes())
    }
}

/// Whether the table has a value at that key, of the key's form.
fn is_good(alloc: Global, heap: Heap, table: &Value, key: &str, expected: Expected) -> bool {
    match expected {
        Expected::Addresses => addresses_at(alloc, table, key).is_ok(),
        Expected::Zones => list_at(table, key).is_some(),
        Expected::Apex => name_at(heap, table, key).is_ok(),
        Expected::Path(_) => path_at(alloc, table, key).is_ok(),
        Expected::Count(low, high) => count_at(table, key, low, high).is_ok(),
        Expected::Prefixes => prefixes_at(alloc, table, key).is_ok(),
    }
}

/// The first of these keys of a table that is missing or wrong.
fn wrong_key(
    alloc: Global,
    heap: Heap,
    table: &Value,
    keys: &[(&'static str, Expected)],
) -> Option<(&'static str, Expected)> {
    for (key, expected) in keys {
        if !is_good(alloc, heap, table, key, *expected) {
            return Some((*key, *expected));
        }
    }
    None
}

/// Whether the key is one of these.
fn is_among(keys: &[(&'static str, Expected)], key: &str) -> bool {
    for (own, _) in keys {
        if *own == key {
            return true;
        }
    }
    false
}

/// The first key of a table that is none of these.
fn unknown_key<'v>(table: &'v Value, keys: &[(&'static str, Expected)]) -> Option<&'v str> {
    for key in table.as_table()?.keys() {
        if !is_among(keys, key.as_str()) {
            return Some(key.as_str());
        }
    }
    None
}

/// Tells which key of a table is unknown, and its line if that is found.
fn tell_unknown<E: Write>(position: Place<'_>, key: &str, err: &mut E) -> io::Result<()> {
    let (what, name) = (position.what(), PrintedWord(key.as_bytes()));
    match line_of_key(position.octets, position.number, key.as_bytes()) {
        Some(line) => writeln!(err, "{what}: unknown key `{name}`, line {line}"),
        None => writeln!(err, "{what}: unknown key `{name}`"),
    }
}

/// Tells what is wrong with a text that is no prefix.
fn tell_prefix<E: Write>(text: &str, error: PrefixError, err: &mut E) -> io::Result<()> {
    let met = PrintedWord(text.as_bytes());
    match address(text.as_bytes()) {
        Some(IpAddr::V4(_)) => writeln!(err, "'{met}': one host: {met}/32"),
        Some(IpAddr::V6(_)) => writeln!(err, "'{met}': one host: {met}/128"),
        None => writeln!(err, "'{met}': {error}, such as 192.0.2.0/24"),
    }
}

/// Tells which entry of a list of prefixes is none.
fn tell_prefixes<E: Write>(texts: &[Value], err: &mut E) -> io::Result<()> {
    for value in texts {
        let Some(text) = value.as_str() else {
            return writeln!(err, "each prefix is a text, such as \"192.0.2.0/24\"");
        };
        if let Err(error) = Prefix::parse(text.as_bytes()) {
            return tell_prefix(text, error, err);
        }
    }
    writeln!(err, "a list of prefixes is expected")
}

/// Tells which entry of a list of addresses is none, or how many there are.
fn tell_addresses<E: Write>(texts: &[Value], err: &mut E) -> io::Result<()> {
    for value in texts {
        let Some(text) = value.as_str() else {
            return writeln!(err, "each address is a text, such as \"127.0.0.1:53\"");
        };
        if socket_address(text).is_none() {
            return writeln!(
                err,
                "'{}': {ADDRESS_EXPECTED}",
                PrintedWord(text.as_bytes())
            );
        }
    }
    writeln!(
        err,
        "there are {} addresses, and 1 to {MOST_ADDRESSES} are expected",
        texts.len()
    )
}

/// Tells what is expected at a key of a table that is missing or wrong.
fn tell_key<E: Write>(
    position: Place<'_>,
    table: &Value,
    key: &str,
    expected: Expected,
    err: &mut E,
) -> io::Result<()> {
    match position.number {
        0 => write!(err, "{}: {key}: ", position.what())?,
        number => write!(err, "{}: zone {number}: {key}: ", position.what())?,
    }
    match expected {
        Expected::Addresses => match list_at(table, key) {
            Some(texts) => tell_addresses(texts.as_slice(), err),
            None => writeln!(err, "{ADDRESS_EXPECTED}"),
        },
        Expected::Zones => writeln!(err, "a [[zone]] is expected for each zone"),
        Expected::Apex => writeln!(err, "the name of the zone's apex is expected"),
        Expected::Path(file) => writeln!(err, "the path of a {file} is expected"),
        Expected::Count(low, high) => writeln!(err, "a number from {low} to {high} is expected"),
        Expected::Prefixes => match list_at(table, key) {
            Some(texts) => tell_prefixes(texts.as_slice(), err),
            None => writeln!(
                err,
                "a list of prefixes such as [\"192.0.2.0/24\"] is expected"
            ),
        },
    }
}

/// Tells which key of a table is unknown, missing or wrong. Answers whether one is.
fn explain_keys<E: Write>(
    alloc: Global,
    heap: Heap,
    position: Place<'_>,
    table: &Value,
    keys: &[(&'static str, Expected)],
    err: &mut E,
) -> io::Result<bool> {
    if let Some(key) = unknown_key(table, keys) {
        tell_unknown(position, key, err)?;
        return Ok(true);
    }
    if let Some((key, expected)) = wrong_key(alloc, heap, table, keys) {
        tell_key(position, table, key, expected, err)?;
        return Ok(true);
    }
    Ok(false)
}

/// Tells that a table `[zone]` is none of a list.
fn tell_single<E: Write>(what: &PrintedWord<'_>, line: usize, err: &mut E) -> io::Result<()> {
    writeln!(err, "{what}:{line}: write [[zone]], not [zone]")
}

/// Tells which value of a document is wrong.
fn explain_document<E: Write>(
    alloc: Global,
    heap: Heap,
    document: &Value,
    position: Place<'_>,
    err: &mut E,
) -> io::Result<()> {
    let mut position = position;
    if let (Some(Value::Table(_)), Some(line)) = (
        document.get("zone"),
        line_of_single_zone(position.octets),
    ) {
        return tell_single(&position.what(), line, err);
    }
    if explain_keys(alloc, heap, position, document, &KEYS, err)? {
        return Ok(());
    }
    let Some(zones) = list_at(document, "zone") else {
        return Ok(());
    };
    for zone in zones {
        position.number = position.number.saturating_add(1);
        if explain_keys(alloc, heap, position, zone, &KEYS_OF_ZONE, err)? {
            return Ok(());
        }
    }
    explain_zones(alloc, heap, &position.what(), zones.as_slice(), err)
}

/// Tells what is wrong with a text that is no TOML.
fn explain_text<E: Write>(
    octets: &[u8],
    what: &PrintedWord<'_>,
    error: &toml::de::Error,
    err: &mut E,
) -> io::Result<()> {
    let Some(span) = error.span() else {
        return writeln!(err, "{what}: {}", error.message());
    };
    let line = line_of(octets, span.start);
    match line_of_single_zone(octets) {
        Some(single) if is_zone_header(octets, line) => tell_single(what, single, err),
        _ => writeln!(err, "{what}:{line}: {}", error.message()),
    }
}

/// Tells what is wrong with a configuration that can be read and is refused, in a line for one who mends it.
pub fn explain_configuration<E: Write>(
    alloc: Global,
    heap: Heap,
    file: &File<'_>,
    err: &mut E,
) -> io::Result<()> {
    let what = PrintedWord(file.path.as_bytes());
    let Some(octets) = file.octets else {
        return Ok(());
    };
    let Ok(text) = std::str::from_utf8(octets) else {
        return writeln!(err, "{what}: it is not UTF-8");
    };
    match toml::table_from_str(alloc, text) {
        Ok(table) => {
            let position = Place {
                path: file.path,
                octets,
                number: 0,
            };
            explain_document(alloc, heap, &Value::Table(table), position, err)
        }
        Err(error) => explain_text(octets, &what, &error, err),
    }
}
