//! The types that other servers read by their names, and what is to be written here.
use dns_configuration::PrintedWord;
use dns_masterfile::number;
use dns_records::is_data_type;
use std::io::{self, Write};

/// The types with a form here, and the parts of their data (RFC 1035 section 3.3, RFC 3596, RFC 2782).
const FORMS: [(&str, u32, &[&str]); 9] = [
    ("A", 1, &["address"]),
    ("NS", 2, &["name"]),
    ("CNAME", 5, &["name"]),
    (
        "SOA",
        6,
        &[
            "mname", "rname", "serial", "refresh", "retry", "expire", "minimum",
        ],
    ),
    ("PTR", 12, &["name"]),
    ("MX", 15, &["preference", "exchange"]),
    ("TXT", 16, &["string"]),
    ("AAAA", 28, &["address"]),
    ("SRV", 33, &["priority", "weight", "port", "target"]),
];

/// The other types that have names, and their numbers (the IANA registry of resource record types).
const OTHERS: [(&str, u16); 79] = [
    ("MD", 3),
    ("MF", 4),
    ("MB", 7),
    ("MG", 8),
    ("MR", 9),
    ("NULL", 10),
    ("WKS", 11),
    ("HINFO", 13),
    ("MINFO", 14),
    ("RP", 17),
    ("AFSDB", 18),
    ("X25", 19),
    ("ISDN", 20),
    ("RT", 21),
    ("NSAP", 22),
    ("NSAP-PTR", 23),
    ("SIG", 24),
    ("KEY", 25),
    ("PX", 26),
    ("GPOS", 27),
    ("LOC", 29),
    ("NXT", 30),
    ("EID", 31),
    ("NIMLOC", 32),
    ("ATMA", 34),
    ("NAPTR", 35),
    ("KX", 36),
    ("CERT", 37),
    ("A6", 38),
    ("DNAME", 39),
    ("SINK", 40),
    ("OPT", 41),
    ("APL", 42),
    ("DS", 43),
    ("SSHFP", 44),
    ("IPSECKEY", 45),
    ("RRSIG", 46),
    ("NSEC", 47),
    ("DNSKEY", 48),
    ("DHCID", 49),
    ("NSEC3", 50),
    ("NSEC3PARAM", 51),
    ("TLSA", 52),
    ("SMIMEA", 53),
    ("HIP", 55),
    ("NINFO", 56),
    ("RKEY", 57),
    ("TALINK", 58),
    ("CDS", 59),
    ("CDNSKEY", 60),
    ("OPENPGPKEY", 61),
    ("CSYNC", 62),
    ("ZONEMD", 63),
    ("SVCB", 64),
    ("HTTPS", 65),
    ("SPF", 99),
    ("NID", 104),
    ("L32", 105),
    ("L64", 106),
    ("LP", 107),
    ("EUI48", 108),
    ("EUI64", 109),
    ("TKEY", 249),
    ("TSIG", 250),
    ("IXFR", 251),
    ("AXFR", 252),
    ("MAILB", 253),
    ("MAILA", 254),
    ("ANY", 255),
    ("URI", 256),
    ("CAA", 257),
    ("AVC", 258),
    ("DOA", 259),
    ("AMTRELAY", 260),
    ("RESINFO", 261),
    ("WALLET", 262),
    ("TA", 32768),
    ("DLV", 32769),
    ("DSYNC", 66),
];

/// The name of a type with a form, and the parts of its data, by the word of the type.
pub(super) fn form_of(word: &[u8]) -> Option<(&'static str, &'static [&'static str])> {
    for (name, _, parts) in FORMS.iter() {
        if word.eq_ignore_ascii_case(name.as_bytes()) {
            return Some((*name, *parts));
        }
    }
    None
}

/// The name of the type with a form that has that number.
fn name_of(number: u32) -> Option<&'static str> {
    for (name, own, _) in FORMS.iter() {
        if *own == number {
            return Some(*name);
        }
    }
    None
}

/// The type without a form that has that name.
fn other_of(word: &[u8]) -> Option<(&'static str, u16)> {
    for (name, number) in OTHERS.iter() {
        if word.eq_ignore_ascii_case(name.as_bytes()) {
            return Some((*name, *number));
        }
    }
    None
}

/// The digits after `TYPE`, if the word is a type by its number.
pub(super) fn digits_of(word: &[u8]) -> Option<&[u8]> {
    let (letters, digits) = word.split_at_checked(4)?;
    if !letters.eq_ignore_ascii_case(b"TYPE") || number(digits).is_none() {
        return None;
    }
    Some(digits)
}

/// Tells what to write for a type by its number that isn't read.
fn tell_number<E: Write>(met: &PrintedWord<'_>, digits: &[u8], err: &mut E) -> io::Result<()> {
    let number = number(digits).unwrap_or(0);
    if digits.first() == Some(&b'0') && digits.len() > 1 {
        return writeln!(err, "'{met}': write TYPE{number}, without leading zeros");
    }
    match name_of(number) {
        Some(name) => writeln!(err, "'{met}': write TYPE{number} as {name}"),
        None => writeln!(err, "'{met}': no record of a zone has this type"),
    }
}

/// Tells what to write for the word of a type that other servers read. Answers whether it is one.
pub(super) fn tell_type<E: Write>(word: &[u8], err: &mut E) -> io::Result<bool> {
    let met = PrintedWord(word);
    if let Some(digits) = digits_of(word) {
        tell_number(&met, digits, err)?;
        return Ok(true);
    }
    let Some((name, number)) = other_of(word) else {
        return Ok(false);
    };
    if is_data_type(number) {
        writeln!(
            err,
            "'{met}': write {name} as TYPE{number} \\# N, and its N octets in hexadecimal digits"
        )?;
    } else {
        writeln!(err, "'{met}': no record of a zone has this type")?;
    }
    Ok(true)
}
