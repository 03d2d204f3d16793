//! One entry of a file.
ghost use Rattle.std.specs.Prelude.{◌≡◌, true, false, Err, IfOk, MatchResult};
ghost use Rattle.dns_records.specs.Types.{is_data_type};
ghost use Rattle.dns_masterfile.specs.Left.{word_before};
ghost use Rattle.dns_masterfile.specs.Reading.{item_in, said_by, take_owner, take_type};
ghost use Rattle.dns_masterfile.specs.Scan.{stated_word};
ghost use Rattle.dns_masterfile.specs.Contexts.{Faults, SaysWhole, directive_after, has_ended};
ghost use Rattle.dns_masterfile.specs.Contexts.{stated_context};
ghost use Rattle.dns_masterfile.specs.Taking.{RefusesFor, TakesValue};

use crate::FileError;
use crate::context::{Context, Said, ttl_in};
use crate::pieces::Word;
use crate::scanner::{Next, Scanner};
use dns_memory::Heap;
use dns_names::Name;
use dns_records::Record;

impl<'a> Scanner<'a> {
    /// Nothing is left of the entry.
    pub(crate) fn end(&self) -> Result<(), FileError>
        ensures { MatchResult result (λ _. has_ended self.now ≡ true)
            (λ e. (has_ended self.now ≡ false) × (e ≡ FileError.Syntax)) }
    {
        match self.next() {
            Next::Entry(_, _) => Ok(()),
            Next::End => Ok(()),
            Next::Word(_, _) => Err(FileError::Syntax),
            Next::Fault => Err(FileError::Syntax),
        }
    }

    /// Takes the owner, which is the last one where the line begins with a blank, and else the first word.
    fn take_owner(
        &mut self,
        alloc: Heap,
        context: &Context,
        blank: bool,
        first: Word<'a>,
        behind: Scanner<'a>,
    ) -> Result<Name, FileError>
        requires { self.old ≡ word_before (stated_word first) behind }
        ensures { MatchResult result (TakesValue (take_owner
            (stated_context context.now) blank) self.old self.new)
            (RefusesFor (take_owner (stated_context context.now) blank self.old.words)) }
    {
        if !blank {
            *self = behind;
            return first.name(alloc, &context.origin);
        }
        match &context.owner {
            Some(owner) => Ok(owner.clone()?),
            None => Err(FileError::NoOwner),
        }
    }

    /// Takes the word of a type.
    fn take_type(&mut self) -> Result<u16, FileError>
        ensures taken { MatchResult result (TakesValue take_type self.old self.new)
            (λ e. take_type self.old.words ≡ Err e) }
        ensures rtype { IfOk result (λ rtype. is_data_type rtype ≡ true) }
    {
        let word = self.take_word()?;
        word.rtype().ok_or(FileError::UnknownType)
    }

    /// Takes a record, of which the first word is known.
    fn take_item(
        &mut self,
        alloc: Heap,
        context: &Context,
        blank: bool,
        first: Word<'a>,
        behind: Scanner<'a>,
    ) -> Result<Said, FileError>
        requires { self.old ≡ word_before (stated_word first) behind }
        ensures { MatchResult result
            (SaysWhole (λ e. item_in (stated_context context.now) e self.old.words) blank self.old self.new)
            (Faults (λ e. item_in (stated_context context.now) e self.old.words) blank self.old) }
    {
        let owner = self.take_owner(alloc, context, blank, first, behind)?;
        let written = self.take_middle()?;
        let rtype = self.take_type()?;
        let Some(ttl) = ttl_in(context, written) else {
            return Err(FileError::NoTtl);
        };
        let rdata = self.take_rdata(alloc, &context.origin, rtype)?;
        self.end()?;
        let record = Record::new(alloc, owner, ttl, rdata)?;
        Ok(Said::Item(record, written))
    }

    /// Takes a directive, of which the first word is that.
    fn take_directive(
        &mut self,
        alloc: Heap,
        context: &Context,
        word: Word<'_>,
    ) -> Result<Said, FileError>
        ensures { MatchResult result
            (SaysWhole (directive_after context.now (stated_word word.entry) self.old) false
            self.old self.new)
            (Faults (directive_after context.now (stated_word word.entry) self.old) false self.old) }
    {
        if word.is_keyword(b"$ORIGIN") {
            let name = self.take_name(alloc, &context.origin)?;
            self.end()?;
            return Ok(Said::Origin(name));
        }
        if word.is_keyword(b"$TTL") {
            let ttl = self.take_number()?;
            self.end()?;
            return Ok(Said::Default(ttl));
        }
        Err(FileError::Syntax)
    }

    /// Takes an entry.
    pub(crate) fn take_entry(
        &mut self,
        alloc: Heap,
        context: &Context,
        blank: bool,
    ) -> Result<Said, FileError>
        ensures { MatchResult result
            (SaysWhole (λ e. said_by (stated_context context.now) e self.old.words) blank self.old self.new)
            (Faults (λ e. said_by (stated_context context.now) e self.old.words) blank self.old) }
    {
        let Some((word, behind)) = self.first_word() else {
            self.end()?;
            return Ok(Said::Nothing);
        };
        if !word.begins_with_dollar() {
            return self.take_item(alloc, context, blank, word, behind);
        }
        *self = behind;
        self.take_directive(alloc, context, word)
    }
}
