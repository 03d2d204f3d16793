//! What one who mends a refused entry of a master file is told: the word that was met and what is expected
//! there, or what is missing. The entry is read once more for it.
use super::types::{digits_of, form_of, tell_type};
use super::words::{Flaw, Words};
use dns_configuration::PrintedWord;
use dns_masterfile::{FileError, RefusedEntry, number};
use dns_memory::Heap;
use dns_names::split_letter;
use std::io::{self, Write};

/// The octets of a byte order mark in UTF-8.
const MARK: [u8; 3] = [0xEF, 0xBB, 0xBF];

/// Whether a file begins with a byte order mark.
pub(super) fn has_mark(octets: &[u8]) -> bool {
    octets.starts_with(MARK.as_slice())
}

/// Tells that a file begins with a byte order mark.
pub(super) fn tell_mark<E: Write>(path: &str, err: &mut E) -> io::Result<()> {
    let what = PrintedWord(path.as_bytes());
    writeln!(
        err,
        "{what}:1: the file begins with a byte order mark (the octets EF BB BF): save it without"
    )
}

/// Whether the word is a class, though not the one that is served (RFC 1035 section 3.2.4).
fn is_other_class(word: &[u8]) -> bool {
    word.eq_ignore_ascii_case(b"CH")
        || word.eq_ignore_ascii_case(b"HS")
        || word.eq_ignore_ascii_case(b"CS")
}

/// Whether the word is a time with units, such as `1d` or `1h30m`.
fn is_time_with_units(word: &[u8]) -> bool {
    let (Some(first), Some(last)) = (word.first(), word.last()) else {
        return false;
    };
    first.is_ascii_digit()
        && b"smhdwSMHDW".contains(last)
        && word.iter().all(|octet| octet.is_ascii_alphanumeric())
}

/// What the word was meant to be, where that is a form of other servers.
fn hint(word: &[u8], error: FileError) -> Option<&'static str> {
    match error {
        FileError::Syntax if word.first() == Some(&b'$') => {
            Some("no directive but $ORIGIN and $TTL is read")
        }
        FileError::Syntax => Some("a word too many"),
        FileError::UnknownType if is_other_class(word) => Some("no class but IN is served"),
        FileError::UnknownType | FileError::BadNumber if is_time_with_units(word) => {
            Some("a time is a number of seconds, without a unit")
        }
        _ => None,
    }
}

/// Whether the word begins as a comment does in other files.
fn begins_comment(word: &[u8]) -> bool {
    word.starts_with(b"#") || word.starts_with(b"//")
}

/// The word that was meant to begin a comment: the first of the line, or the one that was met.
fn comment_of<'a>(words: &Words<'a>, entry: &RefusedEntry<'a>) -> Option<&'a [u8]> {
    match (words.texts.first(), entry.word) {
        (Some(first), _) if begins_comment(*first) => Some(*first),
        (_, Some(met)) if begins_comment(met) => Some(met),
        _ => None,
    }
}

/// Whether a parenthesis is open.
fn is_open(flaw: Flaw) -> bool {
    matches!(flaw, Flaw::Open(_))
}

/// Tells what ends the words of an entry early.
fn tell_flaw<E: Write>(flaw: Flaw, err: &mut E) -> io::Result<()> {
    match flaw {
        Flaw::Open(line) => writeln!(
            err,
            "the parenthesis that opens on line {line} is not closed"
        ),
        Flaw::Closing(line) => {
            writeln!(
                err,
                "the parenthesis that closes on line {line} was not opened"
            )
        }
        Flaw::Quote(line) => writeln!(err, "the quote on line {line} is not closed"),
        Flaw::Octet(octet, line) => {
            let met = [octet];
            writeln!(
                err,
                "the octet {} on line {line} may not occur in a master file",
                PrintedWord(met.as_slice())
            )
        }
    }
}

/// What ended the words of an entry early, if the entry was refused for it: an open parenthesis takes the
/// words of the lines behind it for its own, and anything else is met where no word is.
fn flaw_of(words: &Words<'_>, entry: &RefusedEntry<'_>) -> Option<Flaw> {
    let flaw = words.flaw?;
    let is_told = match entry.error {
        FileError::Syntax => entry.word.is_none() || is_open(flaw),
        FileError::BadName | FileError::BadNumber | FileError::BadData => is_open(flaw),
        _ => false,
    };
    if is_told { Some(flaw) } else { None }
}

/// How many octets the word has as a string, unless an escape in it is none.
fn string_len(word: &[u8]) -> Option<usize> {
    let mut rest = word;
    let mut len = 0usize;
    for _ in 0..word.len() {
        if rest.is_empty() {
            break;
        }
        let (_, _, behind) = split_letter(rest)?;
        len = len.saturating_add(1);
        rest = behind;
    }
    Some(len)
}

/// Tells what is wrong with a string.
fn tell_string<E: Write>(word: &[u8], err: &mut E) -> io::Result<()> {
    match string_len(word) {
        Some(len) if len > 255 => writeln!(
            err,
            "TXT: the string has {len} octets, and one may have 255: write it as several"
        ),
        _ => writeln!(
            err,
            "'{}': after a backslash an octet or a number up to 255 is expected",
            PrintedWord(word)
        ),
    }
}

/// Tells what is wrong with data by the number of its octets.
fn tell_opaque<E: Write>(digits: &[u8], data: &[&[u8]], err: &mut E) -> io::Result<()> {
    let rtype = PrintedWord(digits);
    let [mark, size, words @ ..] = data else {
        return writeln!(
            err,
            "TYPE{rtype} expects \\# N, and its N octets in hexadecimal digits"
        );
    };
    let mut found = 0usize;
    for word in words {
        found = found.saturating_add(word.len());
    }
    match number(*size) {
        Some(size) if *mark == b"\\#".as_slice() => writeln!(
            err,
            "TYPE{rtype} expects {size} octets, two hexadecimal digits each, and there are {found} digits"
        ),
        _ => writeln!(
            err,
            "TYPE{rtype} expects \\# N, and its N octets in hexadecimal digits"
        ),
    }
}

/// Tells what is wrong with data of a type.
fn tell_data<E: Write>(words: &Words<'_>, met: &[u8], err: &mut E) -> io::Result<()> {
    let position = words.type_place();
    let rtype = match words.texts.get(position) {
        Some(rtype) => *rtype,
        None => b"",
    };
    if let Some(digits) = digits_of(rtype) {
        let data = words.texts.get(position.saturating_add(1)..).unwrap_or(&[]);
        return tell_opaque(digits, data, err);
    }
    let word = PrintedWord(met);
    match form_of(rtype) {
        Some(("A", _)) => writeln!(
            err,
            "'{word}': A expects an IPv4 address, such as 192.0.2.1"
        ),
        Some(("AAAA", _)) => writeln!(
            err,
            "'{word}': AAAA expects an IPv6 address, such as 2001:db8::1"
        ),
        Some(("TXT", _)) => tell_string(met, err),
        _ => writeln!(err, "'{word}': {}", FileError::BadData),
    }
}

/// Tells what is expected in the place of a word.
fn tell_word<E: Write>(
    words: &Words<'_>,
    word: &[u8],
    error: FileError,
    err: &mut E,
) -> io::Result<()> {
    let met = PrintedWord(word);
    if let Some(hint) = hint(word, error) {
        return writeln!(err, "'{met}': {hint}");
    }
    if error == FileError::BadData {
        return tell_data(words, word, err);
    }
    if error == FileError::UnknownType && tell_type(word, err)? {
        return Ok(());
    }
    writeln!(err, "'{met}': {error}")
}

/// The name of a type, and the part of its data that is missing where so many words are there.
fn missing_part(rtype: &[u8], count: usize) -> Option<(&'static str, &'static str)> {
    let (name, parts) = form_of(rtype)?;
    Some((name, *parts.get(count)?))
}

/// Tells what is missing at the end of an entry.
fn tell_missing<E: Write>(words: &Words<'_>, error: FileError, err: &mut E) -> io::Result<()> {
    if error == FileError::BadData {
        return tell_data(words, b"", err);
    }
    if error != FileError::Syntax {
        return writeln!(err, "{error}");
    }
    if words.is_directive() {
        return writeln!(err, "a word is missing at the end of the directive");
    }
    let position = words.type_place();
    let Some(rtype) = words.texts.get(position) else {
        return writeln!(err, "the type and the data are missing");
    };
    let count = words.texts.len().saturating_sub(position).saturating_sub(1);
    match missing_part(*rtype, count) {
        Some((name, part)) => writeln!(err, "{name}: {part} is missing"),
        None => writeln!(err, "{error}"),
    }
}

/// Tells at which word an entry of a file was refused and what is expected there, or what is missing.
pub(super) fn explain_entry<'a, E: Write>(
    heap: Heap,
    err: &mut E,
    path: &str,
    octets: &'a [u8],
    entry: &RefusedEntry<'a>,
) -> io::Result<()> {
    if entry.line == 1 && has_mark(octets) {
        return tell_mark(path, err);
    }
    let words = Words::at_line(heap, octets, entry.line)?;
    write!(err, "{}:{}: ", PrintedWord(path.as_bytes()), entry.line)?;
    if let Some(met) = comment_of(&words, entry) {
        return writeln!(err, "'{}': a comment begins with ;", PrintedWord(met));
    }
    if let Some(flaw) = flaw_of(&words, entry) {
        return tell_flaw(flaw, err);
    }
    match entry.word {
        Some(word) => tell_word(&words, word, entry.error, err),
        None => tell_missing(&words, entry.error, err),
    }
}
