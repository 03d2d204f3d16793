//! What is taken from the words of an entry.
ghost use Rattle.std.specs.Prelude.{◌≡◌, [], Err, MatchOption, MatchResult};
ghost use Rattle.dns_masterfile.specs.Left.{word_before};
ghost use Rattle.dns_masterfile.specs.Reading.{next_word, skip_class, take_middle, take_name, take_number};
ghost use Rattle.dns_masterfile.specs.Reading.{take_ttl};
ghost use Rattle.dns_masterfile.specs.Scan.{stated_word};
ghost use Rattle.dns_masterfile.specs.Taking.{RefusesFor, Skips, TakesValue};

use crate::FileError;
use crate::pieces::Word;
use crate::scanner::{Next, Scanner};
use crate::values::number;
use dns_memory::Heap;
use dns_names::Name;

impl<'a> Scanner<'a> {
    /// The next word of the entry, and what is left after it.
    pub(crate) fn first_word(&self) -> Option<(Word<'a>, Scanner<'a>)>
        ensures { MatchOption result (self.now.words ≡ [])
            (λ r. self.now ≡ word_before (stated_word r.0) r.1) }
    {
        match self.next() {
            Next::Word(word, behind) => Some((word, behind)),
            Next::Entry(_, _) => None,
            Next::End => None,
            Next::Fault => None,
        }
    }

    /// Takes the next word.
    pub(crate) fn take_word(&mut self) -> Result<Word<'a>, FileError>
        ensures { MatchResult result (λ w. TakesValue next_word self.old self.new (stated_word w))
            (λ e. next_word self.old.words ≡ Err e) }
    {
        let Some((word, behind)) = self.first_word() else {
            return Err(FileError::Syntax);
        };
        *self = behind;
        Ok(word)
    }

    /// Takes a name.
    pub(crate) fn take_name(&mut self, alloc: Heap, origin: &Name) -> Result<Name, FileError>
        ensures { MatchResult result (TakesValue (take_name origin.now) self.old self.new)
            (RefusesFor (take_name origin.now self.old.words)) }
    {
        let word = self.take_word()?;
        word.name(alloc, origin)
    }

    /// Takes a number.
    pub(crate) fn take_number(&mut self) -> Result<u32, FileError>
        ensures { MatchResult result (TakesValue take_number self.old self.new)
            (λ e. take_number self.old.words ≡ Err e) }
    {
        let word = self.take_word()?;
        number(word.text()).ok_or(FileError::BadNumber)
    }

    /// Takes a TTL, if one comes next.
    fn take_ttl(&mut self) -> Result<Option<u32>, FileError>
        ensures { MatchResult result (TakesValue take_ttl self.old self.new)
            (λ e. take_ttl self.old.words ≡ Err e) }
    {
        let Some((word, behind)) = self.first_word() else {
            return Ok(None);
        };
        let Some(digits) = word.as_digits() else {
            return Ok(None);
        };
        *self = behind;
        match number(digits) {
            Some(ttl) => Ok(Some(ttl)),
            None => Err(FileError::BadNumber),
        }
    }

    /// Passes over the class, if it comes next.
    fn skip_class(&mut self)
        ensures { Skips skip_class self.old self.new }
    {
        let Some((word, behind)) = self.first_word() else {
            return;
        };
        if word.is_class() {
            *self = behind;
        }
    }

    /// Takes the TTL, if one is written: the class may come before or after it. Where neither is written, as
    /// of most records, one word is looked at once.
    pub(crate) fn take_middle(&mut self) -> Result<Option<u32>, FileError>
        ensures { MatchResult result (TakesValue take_middle self.old self.new)
            (λ e. take_middle self.old.words ≡ Err e) }
    {
        let Some((word, behind)) = self.first_word() else {
            return Ok(None);
        };
        if word.is_class() {
            *self = behind;
            return self.take_ttl();
        }
        let Some(digits) = word.as_digits() else {
            return Ok(None);
        };
        *self = behind;
        let Some(ttl) = number(digits) else {
            return Err(FileError::BadNumber);
        };
        self.skip_class();
        Ok(Some(ttl))
    }
}
