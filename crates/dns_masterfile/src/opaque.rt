//! Types without a form, and their data, in the words of an entry (RFC 3597 section 5).
ghost use Rattle.std.specs.Prelude.{◌≡◌, ◌⊎◌, ◌≤◌, [], Ok, Err, Some, None, true, length};
ghost use Rattle.std.specs.Prelude.{MatchResult};
ghost use Rattle.std.specs.List.{list_all};
ghost use Rattle.hex.specs.Hex.{decode_of, is_hex_digit};
ghost use Rattle.dns_records.specs.Types.{form as form_of, is_data_type, is_opaque};
ghost use Rattle.dns_masterfile.specs.Opaque.{is_numbered, is_opaque_mark, opaque_only, type_of_number};
ghost use Rattle.dns_masterfile.specs.Reading.{digits_in, sized, take_mark, take_opaque, take_size};
ghost use Rattle.dns_masterfile.specs.Scan.{stated_word};
ghost use Rattle.dns_masterfile.specs.Taking.{RefusesFor, TakesValue};

use crate::FileError;
use crate::pieces::Word;
use crate::scanner::Scanner;
use crate::values::{Octets, number, small_number};
use dns_memory::Heap;
use dns_records::{RData, RecordError, is_opaque};
use hex::FromHexError;
use smallvec::SmallVec;

/// Whether the text is `TYPE`, without regard to case, and what may be a number without leading zeros.
fn is_numbered(text: &[u8]) -> bool
    ensures { result ≡ is_numbered text.now }
{
    let Some((letters, digits)) = text.split_at_checked(4) else {
        return false;
    };
    letters.eq_ignore_ascii_case(b"TYPE") && digits.first() != Some(&b'0')
}

/// The number, if it is that of a type without a form.
fn opaque_only(number: u32) -> Option<u16>
    ensures { result ≡ opaque_only (Some number) }
{
    let Ok(rtype) = u16::try_from(number) else {
        return None;
    };
    if is_opaque(rtype) { Some(rtype) } else { None }
}

/// Whether the text is hexadecimal digits.
fn are_hex_digits(text: &[u8]) -> bool
    ensures { result ≡ list_all is_hex_digit text.now }
{
    text.iter().all(|octet| octet.is_ascii_hexdigit())
}

/// The octets of hexadecimal digits, which are to be so many.
fn decoded(alloc: Heap, size: u16, digits: &[u8]) -> Result<Vec<u8, Heap>, FileError>
    ensures { MatchResult result
        (λ octets. (sized size (decode_of digits.now) ≡ Some octets.items) × (length octets.items ≡ size))
        (λ e. (e ≡ FileError.OutOfMemory)
        ⊎ ((e ≡ FileError.BadData) × (sized size (decode_of digits.now) ≡ None))) }
{
    match hex::decode(alloc, digits) {
        Ok(octets) if octets.len() == size as usize => Ok(octets),
        Ok(_) => Err(FileError::BadData),
        Err(FromHexError::OutOfMemory) => Err(FileError::OutOfMemory),
        Err(_) => Err(FileError::BadData),
    }
}

impl<'a> Word<'a> {
    /// The type without a form that it names by its number.
    pub(crate) fn type_by_number(&self) -> Option<u16>
        ensures { result ≡ type_of_number (stated_word self.now) }
    {
        match self {
            Word::Bare(text) if is_numbered(text) => opaque_only(number(&text[4..])?),
            Word::Bare(_) => None,
            Word::Quoted(_) => None,
        }
    }

    /// Whether it is the word before opaque data.
    fn is_opaque_mark(&self) -> bool
        ensures { result ≡ is_opaque_mark (stated_word self.now) }
    {
        match self {
            Word::Bare(text) => *text == b"\\#".as_slice(),
            Word::Quoted(_) => false,
        }
    }
}

impl<'a> Scanner<'a> {
    /// Takes the word before opaque data.
    fn take_mark(&mut self) -> Result<(), FileError>
        ensures { MatchResult result
            (λ _. (take_mark self.old.whole self.old.words ≡ Ok self.new.words)
            × (self.new ≡ record self.old { words = self.new.words }))
            (λ e. take_mark self.old.whole self.old.words ≡ Err e) }
    {
        let Some((word, behind)) = self.first_word() else {
            self.end()?;
            return Err(FileError::BadData);
        };
        if !word.is_opaque_mark() {
            return Err(FileError::BadData);
        }
        *self = behind;
        Ok(())
    }

    /// Takes the number of octets that follow.
    fn take_size(&mut self) -> Result<u16, FileError>
        ensures { MatchResult result (λ size. TakesValue take_size self.old self.new size × (size ≤ 4096))
            (λ e. take_size self.old.words ≡ Err e) }
    {
        let word = self.take_word()?;
        let Some(size) = small_number(word.text()) else {
            return Err(FileError::BadNumber);
        };
        if size > 4096 {
            return Err(FileError::TooLong);
        }
        Ok(size)
    }

    /// Takes the words that are left, which are hexadecimal digits.
    fn take_digits(&mut self, alloc: Heap) -> Result<Octets, FileError>
        ensures { MatchResult result
            (λ digits. (digits_in self.old.words ≡ Ok digits.items)
            × (self.new ≡ record self.old { words = [] }))
            (RefusesFor (digits_in self.old.words)) }
    {
        let mut digits = SmallVec::new(alloc);
        'words: while let Some((word, behind)) = self.first_word() {
            *self = behind;
            let found = word.text();
            if !are_hex_digits(found) {
                return Err(FileError::BadData);
            }
            digits.extend_from_slice(found)?;
        }
        Ok(digits)
    }

    /// Takes octets, which are all that is left of the entry.
    fn take_opaque(&mut self, alloc: Heap) -> Result<Vec<u8, Heap>, FileError>
        ensures { MatchResult result
            (λ octets. TakesValue (take_opaque self.old.whole) self.old self.new octets.items
            × (length octets.items ≤ 4096))
            (RefusesFor (take_opaque self.old.whole self.old.words)) }
    {
        self.take_mark()?;
        let size = self.take_size()?;
        let digits = self.take_digits(alloc)?;
        self.end()?;
        decoded(alloc, size, digits.as_slice())
    }

    /// Takes the data of a type without a form.
    pub(crate) fn take_opaque_data(&mut self, alloc: Heap, rtype: u16) -> Result<RData, FileError>
        requires no_form { form_of rtype ≡ None }
        requires rtype { is_data_type rtype ≡ true }
        ensures { MatchResult result
            (λ d. (d.rtype ≡ rtype) × TakesValue (take_opaque self.old.whole) self.old self.new d.octets)
            (RefusesFor (take_opaque self.old.whole self.old.words)) }
    {
        let octets = self.take_opaque(alloc)?;
        match RData::new(alloc, rtype, &octets) {
            Ok(rdata) => Ok(rdata),
            Err(RecordError::OutOfMemory) => Err(FileError::OutOfMemory),
            Err(RecordError::BadData) => unreachable!(),
            Err(RecordError::TooLong) => unreachable!(),
            Err(RecordError::UnknownType) => unreachable!(),
        }
    }
}
