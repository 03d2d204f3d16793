//! The strings of a TXT, one by one.
ghost use Rattle.std.specs.Prelude.{◌≡◌, ◌≢◌, ◌∷◌, ◌<◌, length, map, MatchOption, IfOk, IfErr};
ghost use Rattle.std.specs.Iterator.{YieldsFirstRef, item_count};
ghost use Rattle.dns_records.specs.Types.{type_txt};
ghost use Rattle.dns_records.specs.TextStrings.{txt_data, FitsTxt, RefusesTxt, strings_of, AreStrings};

use crate::{RData, RecordError, types};
use dns_memory::Heap;
use smallvec::SmallVec;
use std::marker::Model;

/// The strings of a TXT (RFC 1035 section 3.3.14).
#[derive(Drop)]
pub struct Strings<'a> {
    octets: &'a [u8],
}

impl<'a> Model for Strings<'a> {
    ghost use Rattle.std.specs.Prelude.{ℕ, List};

    ghost Value = { List (List ℕ) };

    ghost use Rattle.dns_records.specs.TextStrings.{strings_of, AreStrings};

    ghost view = { λ s. strings_of s.octets.now };

    ghost invariant = { λ s. AreStrings s.octets.now };
}

/// The first string, and the octets of the others.
fn split_string(octets: &[u8]) -> (&[u8], &[u8])
    requires strings { AreStrings octets.now }
    requires some { 0 < length octets.now }
    ensures parts { strings_of octets.now ≡ result.0.now ∷ strings_of result.1.now }
    ensures rest { AreStrings result.1.now }
{
    let (front, rest) = octets.split_at(1 + octets[0] as usize);
    (&front[1..], rest)
}

impl<'a> Iterator for Strings<'a> {
    type Item = &'a [u8];

    ghost next_gives = { YieldsFirstRef (λ s. s) };

    ghost remaining = { item_count (λ s. s) };

    fn next(&mut self) -> Option<&'a [u8]> {
        if self.octets.is_empty() {
            return None;
        }
        let (string, rest) = split_string(self.octets);
        self.octets = rest;
        Some(string)
    }
}

impl RData {
    /// Strings (RFC 1035 section 3.3.14). Refused are, as `BadData`, no string at all and one of more than
    /// 255 octets, and, as `TooLong`, strings that take more than 4,096 octets, a length octet before each.
    pub fn txt(alloc: Heap, strings: &[&[u8]]) -> Result<RData, RecordError>
        ensures found { IfOk result
            (λ d. (d ≡ txt_data (map (λ s. s.now) strings.now)) × FitsTxt (map (λ s. s.now) strings.now)) }
        ensures refused { IfErr result (RefusesTxt (map (λ s. s.now) strings.now)) }
    {
        let mut octets: SmallVec<u8, 24, Heap> = SmallVec::new(alloc);
        for string in strings {
            let Ok(len) = u8::try_from(string.len()) else {
                return Err(RecordError::BadData);
            };
            octets.extend_from_slice(&[len])?;
            octets.extend_from_slice(string)?;
        }
        RData::new(alloc, types::TXT, octets.as_slice())
    }

    /// The strings of a TXT (RFC 1035 section 3.3.14).
    pub fn as_txt(&self) -> Option<Strings<'_>>
        ensures { MatchOption result (self.now.rtype ≢ type_txt)
            (λ strings. (self.now ≡ txt_data strings) × FitsTxt strings) }
    {
        if self.rtype() != types::TXT {
            return None;
        }
        Some(Strings {
            octets: self.octets(),
        })
    }
}
