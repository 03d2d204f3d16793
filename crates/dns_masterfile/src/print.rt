//! Records in print.
ghost use Rattle.std.specs.Prelude.{Some, [], ◌∷◌, decimal, map, flat_map, ◌≡◌, unwrap_or};
ghost use Rattle.std.specs.Fmt.{DisplaysOnOk};
ghost use Rattle.dns_masterfile.specs.Text.{printed_string_octet, printed_string};
ghost use Rattle.dns_masterfile.specs.Data.{name_of_type, word_of_type};
ghost use Rattle.dns_masterfile.specs.Opaque.{hex_octet, opaque_words};
ghost use Rattle.dns_masterfile.specs.Printed.{spaced, printed_data, printed_record};
ghost use Rattle.dns_names.specs.Text.{printed_name};

use dns_names::EscapedOctet;
use dns_policy::print_address;
use dns_records::{Mx, RData, Record, Soa, Srv, Strings, types};
use std::fmt;
use std::net::{IpAddr, Ipv4Addr, Ipv6Addr};

/// An octet between quotes: `"` and `\` follow a `\`, and what is not visible ASCII is `\DDD`.
#[derive(Drop)]
struct QuotedOctet(u8);

impl fmt::Display for QuotedOctet {
    ghost output = { λ o. Some (printed_string_octet o.0) };

    fn fmt<W: fmt::Write>(&self, f: &mut fmt::Formatter<W>) -> fmt::Result {
        let octet = self.0;
        match octet {
            b'"' | b'\\' => write!(f, "\\{}", octet as char),
            32..=126 => write!(f, "{}", octet as char),
            _ => write!(f, "{}", EscapedOctet(octet)),
        }
    }
}

/// A string between quotes.
#[derive(Drop)]
struct Quoted<'a>(&'a [u8]);

impl fmt::Display for Quoted<'_> {
    ghost output = { λ s. Some (printed_string s.0.now) };

    fn fmt<W: fmt::Write>(&self, f: &mut fmt::Formatter<W>) -> fmt::Result {
        write!(f, "\"")?;
        for octet in self.0 {
            write!(f, "{}", QuotedOctet(*octet))?;
        }
        write!(f, "\"")
    }
}

/// The words of an MX, each preceded by a blank.
#[derive(Drop)]
struct MxWords<'a>(&'a Mx<'a>);

impl fmt::Display for MxWords<'_> {
    ghost output = { λ m. Some (spaced (decimal m.0.now.preference ∷ printed_name m.0.now.exchange ∷ [])) };

    fn fmt<W: fmt::Write>(&self, f: &mut fmt::Formatter<W>) -> fmt::Result {
        write!(f, " {} {}", self.0.preference, self.0.exchange)
    }
}

/// The words of an SRV, each preceded by a blank.
#[derive(Drop)]
struct SrvWords<'a>(&'a Srv<'a>);

impl fmt::Display for SrvWords<'_> {
    ghost output = { λ s. Some
        (spaced (decimal s.0.now.priority ∷ decimal s.0.now.weight ∷ decimal s.0.now.port
        ∷ printed_name s.0.now.target ∷ [])) };

    fn fmt<W: fmt::Write>(&self, f: &mut fmt::Formatter<W>) -> fmt::Result {
        let srv = self.0;
        write!(f, " {} {}", srv.priority, srv.weight)?;
        write!(f, " {} {}", srv.port, srv.target)
    }
}

/// The words of a SOA, each preceded by a blank.
#[derive(Drop)]
struct SoaWords<'a>(&'a Soa<'a>);

impl fmt::Display for SoaWords<'_> {
    ghost output = { λ s. Some
        (spaced (printed_name s.0.now.mname ∷ printed_name s.0.now.rname ∷ decimal s.0.now.serial
        ∷ decimal s.0.now.refresh ∷ decimal s.0.now.retry ∷ decimal s.0.now.expire
        ∷ decimal s.0.now.minimum ∷ [])) };

    fn fmt<W: fmt::Write>(&self, f: &mut fmt::Formatter<W>) -> fmt::Result {
        let soa = self.0;
        write!(f, " {} {}", soa.mname, soa.rname)?;
        write!(f, " {} {} {}", soa.serial, soa.refresh, soa.retry)?;
        write!(f, " {} {}", soa.expire, soa.minimum)
    }
}

/// Writes the strings of a TXT between quotes, each preceded by a blank.
fn write_strings<W: fmt::Write>(strings: Strings<'_>, f: &mut fmt::Formatter<W>) -> fmt::Result
    ensures { DisplaysOnOk W.write_str_gives f.old result
        (Some (spaced (map printed_string strings.entry))) f.new }
{
    let mut rest = strings;
    'strings: while let Some(string) = rest.next() {
        write!(f, " {}", Quoted(string))?;
    }
    Ok(())
}

/// An octet as two hexadecimal digits in lower case.
#[derive(Drop)]
struct HexOctet(u8);

impl fmt::Display for HexOctet {
    ghost output = { λ o. Some (hex_octet o.0) };

    fn fmt<W: fmt::Write>(&self, f: &mut fmt::Formatter<W>) -> fmt::Result {
        let octet = self.0;
        write!(f, "{octet:02x}")
    }
}

/// Octets in hexadecimal digits.
#[derive(Drop)]
struct HexOctets<'a>(&'a [u8]);

impl fmt::Display for HexOctets<'_> {
    ghost output = { λ o. Some (flat_map hex_octet o.0.now) };

    fn fmt<W: fmt::Write>(&self, f: &mut fmt::Formatter<W>) -> fmt::Result {
        for octet in self.0 {
            write!(f, "{}", HexOctet(*octet))?;
        }
        Ok(())
    }
}

/// The words of opaque data, each preceded by a blank (RFC 3597 section 5).
#[derive(Drop)]
struct OpaqueWords<'a>(&'a [u8]);

impl fmt::Display for OpaqueWords<'_> {
    ghost output = { λ o. Some (spaced (opaque_words o.0.now)) };

    fn fmt<W: fmt::Write>(&self, f: &mut fmt::Formatter<W>) -> fmt::Result {
        let octets = self.0;
        write!(f, " \\# {}", octets.len())?;
        if octets.is_empty() {
            return Ok(());
        }
        write!(f, " {}", HexOctets(octets))
    }
}

/// The data of a record, each word preceded by a blank.
#[derive(Drop)]
struct DataWords<'a>(&'a RData);

impl fmt::Display for DataWords<'_> {
    ghost output = { λ d. Some (printed_data d.0.now) };

    fn fmt<W: fmt::Write>(&self, f: &mut fmt::Formatter<W>) -> fmt::Result {
        let data = self.0;
        if let Some(name) = data.as_name() {
            return write!(f, " {name}");
        }
        if let Some(address) = data.as_a() {
            return write!(f, " {}", Ipv4Addr::from(address));
        }
        if let Some(address) = data.as_aaaa() {
            return write!(f, " {}", print_address(IpAddr::V6(Ipv6Addr::from(address))));
        }
        if let Some(mx) = data.as_mx() {
            return write!(f, "{}", MxWords(&mx));
        }
        if let Some(srv) = data.as_srv() {
            return write!(f, "{}", SrvWords(&srv));
        }
        if let Some(soa) = data.as_soa() {
            return write!(f, "{}", SoaWords(&soa));
        }
        if let Some(strings) = data.as_txt() {
            return write_strings(strings, f);
        }
        write!(f, "{}", OpaqueWords(data.octets()))
    }
}

/// The word of a type that has one of its own.
pub(crate) fn type_word(rtype: u16) -> &'static str
    ensures { result.now ≡ unwrap_or (name_of_type rtype) [] }
{
    match rtype {
        types::A => "A",
        types::NS => "NS",
        types::CNAME => "CNAME",
        types::SOA => "SOA",
        types::PTR => "PTR",
        types::MX => "MX",
        types::TXT => "TXT",
        types::AAAA => "AAAA",
        types::SRV => "SRV",
        _ => "",
    }
}

/// The word of a type: its own, or `TYPE` and its number (RFC 3597 section 5).
#[derive(Drop)]
pub struct TypeWord(pub u16);

impl fmt::Display for TypeWord {
    ghost output = { λ t. Some (word_of_type t.0) };

    fn fmt<W: fmt::Write>(&self, f: &mut fmt::Formatter<W>) -> fmt::Result {
        let rtype = self.0;
        let word = type_word(rtype);
        if word.is_empty() {
            return write!(f, "TYPE{rtype}");
        }
        write!(f, "{word}")
    }
}

/// A record as a line of a master file, `OWNER TTL IN TYPE RDATA` ended by LF, with names in full.
#[derive(Drop)]
pub struct RecordLine<'a>(pub &'a Record);

impl fmt::Display for RecordLine<'_> {
    ghost output = { λ r. Some (printed_record r.0.now) };

    fn fmt<W: fmt::Write>(&self, f: &mut fmt::Formatter<W>) -> fmt::Result {
        let record = self.0;
        write!(f, "{} {} IN", record.owner(), record.ttl())?;
        write!(f, " {}", TypeWord(record.rtype()))?;
        write!(f, "{}\n", DataWords(record.data()))
    }
}
