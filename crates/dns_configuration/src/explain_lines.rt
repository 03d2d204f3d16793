//! Where the keys and the tables of a configuration are in its text. The text is not read as TOML once more:
//! a line is looked at by itself, and a key that is not at the front of its line is not found. It serves
//! `--explain` alone, and no clause says more of it than that it ends.

/// The octets before the bracket that ends a header, without the blanks around them.
fn before_bracket(text: &[u8]) -> &[u8] {
    match text.iter().position(|octet| *octet == b']') {
        Some(len) => text.get(..len).unwrap_or(text).trim_ascii(),
        None => text,
    }
}

/// The name in the header of a table, and whether it is one of a list, as in `[[zone]]`.
fn header(line: &[u8]) -> Option<(&[u8], bool)> {
    match line {
        [b'[', b'[', inner @ ..] => Some((before_bracket(inner), true)),
        [b'[', inner @ ..] => Some((before_bracket(inner), false)),
        _ => None,
    }
}

/// What is after a key at the front of a line, which may be between quotes.
fn after_key<'a>(line: &'a [u8], key: &[u8]) -> Option<&'a [u8]> {
    match line {
        [b'"', inner @ ..] => inner.strip_prefix(key)?.strip_prefix(b"\""),
        [b'\'', inner @ ..] => inner.strip_prefix(key)?.strip_prefix(b"'"),
        _ => line.strip_prefix(key),
    }
}

/// Whether the line gives that key a value.
fn sets(line: &[u8], key: &[u8]) -> bool {
    match after_key(line, key) {
        Some(behind) => matches!(behind.trim_ascii_start(), [b'=' | b'.', ..]),
        None => false,
    }
}

/// The line, the first being 1, on which a key is: one of the zone with that number, the first being 1, or
/// one beside the zones if the number is 0.
pub(crate) fn line_of_key(octets: &[u8], zone: usize, key: &[u8]) -> Option<usize> {
    let mut line = 0usize;
    let mut zones = 0usize;
    for text in octets.split(|octet| *octet == b'\n') {
        line = line.saturating_add(1);
        let text = text.trim_ascii();
        match header(text) {
            Some((name, _)) if zone == 0 && name == key => return Some(line),
            Some((name, true)) if name == b"zone".as_slice() => zones = zones.saturating_add(1),
            None if zones == zone && sets(text, key) => return Some(line),
            _ => {}
        }
    }
    None
}

/// The line on which the first table `[zone]` is, which is none of a list.
pub(crate) fn line_of_single_zone(octets: &[u8]) -> Option<usize> {
    let mut line = 0usize;
    for text in octets.split(|octet| *octet == b'\n') {
        line = line.saturating_add(1);
        match header(text.trim_ascii()) {
            Some((name, false)) if name == b"zone".as_slice() => return Some(line),
            _ => {}
        }
    }
    None
}

/// Whether a line is the header of a zone, as a table or as one of a list.
pub(crate) fn is_zone_header(octets: &[u8], line: usize) -> bool {
    let mut number = 0usize;
    for text in octets.split(|octet| *octet == b'\n') {
        number = number.saturating_add(1);
        if number == line {
            return match header(text.trim_ascii()) {
                Some((name, _)) => name == b"zone".as_slice(),
                None => false,
            };
        }
    }
    false
}

/// The line that an octet is on, the first being 1.
pub(crate) fn line_of(octets: &[u8], position: usize) -> usize {
    let mut line = 1usize;
    for octet in octets.iter().take(position) {
        if *octet == b'\n' {
            line = line.saturating_add(1);
        }
    }
    line
}
