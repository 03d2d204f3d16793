//! One section of a reply.
ghost use Rattle.std.specs.Prelude.{◌≡◌, [], ◌∷◌, ◌++◌, length, IfOk, OnOk};

use dns_memory::Heap;
use dns_wire::ReplyRecord;
use std::alloc::AllocError;
use std::marker::Model;
use std::{mem, slice};

/// Where a section has its records.
#[derive(Drop)]
enum Kept<'a> {
    /// None.
    Nothing,
    /// One, in place.
    One(ReplyRecord<'a>),
    /// Any number, on the heap.
    Many(Vec<ReplyRecord<'a>, Heap>),
}

/// The records of a section, in order. One alone is stored in place, and takes no memory.
#[derive(Drop)]
pub(crate) struct Section<'a> {
    alloc: Heap,
    kept: Kept<'a>,
}

impl<'a> Model for Section<'a> {
    ghost use Rattle.dns_answer.specs.Section.{Section as Stated, kept_items};

    ghost Value = { Stated };

    ghost view = { λ s. record { items = kept_items s.kept } };
}

/// Two records on the heap, with room for more.
fn pair<'a>(
    alloc: Heap,
    first: ReplyRecord<'a>,
    second: ReplyRecord<'a>,
) -> Result<Vec<ReplyRecord<'a>, Heap>, AllocError>
    ensures { IfOk result (λ both. both.items ≡ first.entry ∷ second.entry ∷ []) }
{
    let mut both = Vec::with_capacity(alloc, 8)?;
    both.push(first)?;
    both.push(second)?;
    Ok(both)
}

/// Records and one more.
fn grown<'a>(
    records: Vec<ReplyRecord<'a>, Heap>,
    one: ReplyRecord<'a>,
) -> Result<Vec<ReplyRecord<'a>, Heap>, AllocError>
    ensures { IfOk result (λ grown. grown.items ≡ records.entry.items ++ one.entry ∷ []) }
{
    let mut records = records;
    records.push(one)?;
    Ok(records)
}

impl<'a> Section<'a> {
    /// No record.
    pub(crate) fn new(alloc: Heap) -> Section<'a>
        ensures { result.items ≡ [] }
    {
        Section {
            alloc,
            kept: Kept::Nothing,
        }
    }

    /// One record.
    pub(crate) fn of_one(alloc: Heap, one: ReplyRecord<'a>) -> Section<'a>
        ensures { result.items ≡ one.entry ∷ [] }
    {
        Section {
            alloc,
            kept: Kept::One(one),
        }
    }

    /// No record, with room for so many.
    pub(crate) fn with_capacity(alloc: Heap, count: usize) -> Result<Section<'a>, AllocError>
        ensures { IfOk result (λ section. section.items ≡ []) }
    {
        if count < 2 {
            return Ok(Section::new(alloc));
        }
        let kept = Kept::Many(Vec::with_capacity(alloc, count)?);
        Ok(Section { alloc, kept })
    }

    /// The records.
    pub(crate) fn as_slice(&self) -> &[ReplyRecord<'a>]
        ensures { result.now ≡ self.now.items }
    {
        match &self.kept {
            Kept::Nothing => &[],
            Kept::One(one) => slice::from_ref(one),
            Kept::Many(many) => many.as_slice(),
        }
    }

    /// How many records there are.
    pub(crate) fn len(&self) -> usize
        ensures { result ≡ length self.now.items }
    {
        self.as_slice().len()
    }

    /// Appends a record to none or to one. A list on the heap would be moved.
    fn push_to_few(&mut self, one: ReplyRecord<'a>) -> Result<(), AllocError>
        ensures { OnOk result (self.new.items ≡ self.old.items ++ one.entry ∷ []) }
    {
        let kept = match mem::replace(&mut self.kept, Kept::Nothing) {
            Kept::Nothing => Kept::One(one),
            Kept::One(first) => Kept::Many(pair(self.alloc, first, one)?),
            Kept::Many(many) => Kept::Many(grown(many, one)?),
        };
        self.kept = kept;
        Ok(())
    }

    /// Appends a record. A list on the heap grows where it is.
    pub(crate) fn push(&mut self, one: ReplyRecord<'a>) -> Result<(), AllocError>
        ensures { OnOk result (self.new.items ≡ self.old.items ++ one.entry ∷ []) }
    {
        if let Kept::Many(many) = &mut self.kept {
            many.push(one)?;
            return Ok(());
        }
        self.push_to_few(one)
    }
}
