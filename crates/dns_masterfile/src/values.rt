//! What words say by themselves.
ghost use Rattle.std.specs.Prelude.{◌≡◌, ◌⊎◌, ◌^◌, List, [], ◌∷◌, map, true, unwrap_or, MatchOption};
ghost use Rattle.std.specs.Prelude.{MatchResult};
ghost use Rattle.std.specs.Char.{is_ascii_digit, to_ascii_uppercase};
ghost use Rattle.std.specs.List.{list_all};
ghost use Rattle.dns_records.specs.Types.{is_known};
ghost use Rattle.dns_masterfile.specs.Text.{is_decimal, number_of_text, string_of_text};
ghost use Rattle.dns_masterfile.specs.Pieces.{Bare, Word as Stated, text_of};
ghost use Rattle.dns_masterfile.specs.Data.{is_keyword, name_of_type, type_of_word};
ghost use Rattle.dns_masterfile.specs.Meaning.{begins_with_dollar, is_class};
ghost use Rattle.dns_masterfile.specs.Reading.{name_in, take_ttl};
ghost use Rattle.dns_masterfile.specs.Scan.{stated_word};

use crate::FileError;
use crate::pieces::Word;
use crate::print::type_word;
use dns_memory::Heap;
use dns_names::{Name, NameError, split_letter};
use dns_records::types;
use smallvec::SmallVec;

/// Octets of data.
pub(crate) type Octets = SmallVec<u8, 24, Heap>;

/// Whether each octet is a decimal digit.
fn are_digits(text: &[u8]) -> bool
    ensures { result ≡ list_all is_ascii_digit text.now }
{
    text.iter().all(|octet| octet.is_ascii_digit())
}

/// Whether the text is one decimal digit or more.
pub(crate) fn is_decimal(text: &[u8]) -> bool
    ensures { result ≡ is_decimal text.now }
{
    match text {
        [] => false,
        [_, ..] => are_digits(text),
    }
}

/// The number below 2^32 that the text is, in decimal digits.
pub fn number(text: &[u8]) -> Option<u32>
    ensures { result ≡ number_of_text (2 ^ 32) text.now }
{
    if !is_decimal(text) {
        return None;
    }
    match str::from_utf8(text) {
        Ok(digits) => digits.parse::<u32>().ok(),
        Err(_) => None,
    }
}

/// The number below 2^16 that the text is, in decimal digits.
pub(crate) fn small_number(text: &[u8]) -> Option<u16>
    ensures { result ≡ number_of_text (2 ^ 16) text.now }
{
    u16::try_from(number(text)?).ok()
}

/// The octets of a string.
pub(crate) fn string(alloc: Heap, text: &[u8]) -> Result<Octets, FileError>
    ensures { MatchResult result (λ s. string_of_text text.now ≡ Some s.items)
        (λ e. (e ≡ FileError.OutOfMemory) ⊎ ((e ≡ FileError.BadData) × (string_of_text text.now ≡ None))) }
{
    let mut octets = SmallVec::new(alloc);
    let mut rest = text;
    'letters: while !rest.is_empty() {
        let Some((octet, _, behind)) = split_letter(rest) else {
            return Err(FileError::BadData);
        };
        octets.push(octet)?;
        rest = behind;
    }
    if octets.len() > 255 {
        return Err(FileError::BadData);
    }
    Ok(octets)
}

impl<'a> Word<'a> {
    /// The word without its quotes.
    pub(crate) fn text(&self) -> &'a [u8]
        ensures { result.now ≡ text_of (stated_word self.now) }
    {
        match self {
            Word::Bare(text) => text,
            Word::Quoted(text) => text,
        }
    }

    /// Whether it is that word, which is written in capitals here, without regard to case.
    pub(crate) fn is_keyword(&self, keyword: &[u8]) -> bool
        requires { map to_ascii_uppercase keyword.now ≡ keyword.now }
        ensures { result ≡ is_keyword keyword.now (stated_word self.now) }
    {
        match self {
            Word::Bare(text) => text.eq_ignore_ascii_case(keyword),
            Word::Quoted(_) => false,
        }
    }

    /// Whether it is the class of the Internet.
    pub(crate) fn is_class(&self) -> bool
        ensures { result ≡ is_class (stated_word self.now) }
    {
        self.is_keyword(b"IN")
    }

    /// Whether it begins as a directive does.
    pub(crate) fn begins_with_dollar(&self) -> bool
        ensures { result ≡ begins_with_dollar (stated_word self.now) }
    {
        match self {
            Word::Bare([b'$', ..]) => true,
            Word::Bare(_) => false,
            Word::Quoted(_) => false,
        }
    }

    /// Whether it is the word of a type that is known.
    fn names(&self, rtype: u16) -> bool
        requires { is_known rtype ≡ true }
        ensures { result ≡ is_keyword (unwrap_or (name_of_type rtype) []) (stated_word self.now) }
    {
        self.is_keyword(type_word(rtype).as_bytes())
    }

    /// The type that it names.
    pub(crate) fn rtype(&self) -> Option<u16>
        ensures { result ≡ type_of_word (stated_word self.now) }
    {
        if self.names(types::A) {
            Some(types::A)
        } else if self.names(types::NS) {
            Some(types::NS)
        } else if self.names(types::CNAME) {
            Some(types::CNAME)
        } else if self.names(types::SOA) {
            Some(types::SOA)
        } else if self.names(types::PTR) {
            Some(types::PTR)
        } else if self.names(types::MX) {
            Some(types::MX)
        } else if self.names(types::TXT) {
            Some(types::TXT)
        } else if self.names(types::AAAA) {
            Some(types::AAAA)
        } else if self.names(types::SRV) {
            Some(types::SRV)
        } else {
            self.type_by_number()
        }
    }

    /// The digits of a TTL, which no other word has.
    pub(crate) fn as_digits(&self) -> Option<&'a [u8]>
        ensures { MatchOption result
            ((rest : List Stated)
            → take_ttl (stated_word self.now ∷ rest) ≡ Ok (None, stated_word self.now ∷ rest))
            (λ text. (stated_word self.now ≡ Bare text.now) × (is_decimal text.now ≡ true)) }
    {
        match self {
            Word::Bare(text) => { if is_decimal(text) { Some(text) } else { None } }
            Word::Quoted(_) => None,
        }
    }

    /// The name that it is.
    pub(crate) fn name(&self, alloc: Heap, origin: &Name) -> Result<Name, FileError>
        ensures { MatchResult result (λ name. name_in origin.now (stated_word self.now) ≡ Ok name)
            (λ e. (e ≡ FileError.OutOfMemory) ⊎ (name_in origin.now (stated_word self.now) ≡ Err e)) }
    {
        match self {
            Word::Bare(text) => match Name::from_text(alloc, text, origin) {
                Ok(name) => Ok(name),
                Err(NameError::OutOfMemory) => Err(FileError::OutOfMemory),
                Err(_) => Err(FileError::BadName),
            },
            Word::Quoted(_) => Err(FileError::BadName),
        }
    }
}
