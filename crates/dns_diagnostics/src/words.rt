//! The words of types and response codes.

use dns_records::types;
use std::fmt;

/// The word of a response code (RFC 1035 section 4.1.1, RFC 2136 section 2.2).
pub(crate) fn code_word(code: u8) -> &'static str {
    match code {
        0 => "NOERROR",
        1 => "FORMERR",
        2 => "SERVFAIL",
        3 => "NXDOMAIN",
        4 => "NOTIMP",
        5 => "REFUSED",
        6 => "YXDOMAIN",
        7 => "YXRRSET",
        8 => "NXRRSET",
        9 => "NOTAUTH",
        10 => "NOTZONE",
        _ => "RESERVED",
    }
}

/// The word of a type of records or of questions, or none.
fn type_word(rtype: u16) -> &'static str {
    match rtype {
        types::A => "A",
        types::NS => "NS",
        types::CNAME => "CNAME",
        types::SOA => "SOA",
        types::PTR => "PTR",
        types::MX => "MX",
        types::TXT => "TXT",
        types::AAAA => "AAAA",
        types::SRV => "SRV",
        types::IXFR => "IXFR",
        types::AXFR => "AXFR",
        types::MAILB => "MAILB",
        types::MAILA => "MAILA",
        types::ANY => "ANY",
        _ => "",
    }
}

/// A type that is asked for: its word, or `TYPE` and its number (RFC 3597 section 5).
#[derive(Clone, Copy)]
pub(crate) struct AskedType(pub(crate) u16);

impl fmt::Display for AskedType {
    fn fmt<W: fmt::Write>(&self, f: &mut fmt::Formatter<W>) -> fmt::Result {
        let rtype = self.0;
        let word = type_word(rtype);
        if word.is_empty() {
            return write!(f, "TYPE{rtype}");
        }
        write!(f, "{word}")
    }
}
