//! The records of a set one by one, in order, without a search for each.
ghost use Rattle.std.specs.Prelude.{◌≡◌, List, [], ◌++◌, drop};
ghost use Rattle.std.specs.Iterator.{YieldsFirstRef, item_count};
ghost use Rattle.dns_records.specs.Record.{Record as Stated};

use crate::ZoneIndex;
use dns_records::Record;
use std::marker::Model;

/// The records of a set from a position on, in order of owner, type and data. They are lent run by run, as
/// the set keeps them.
#[derive(Drop)]
pub struct Records<'a, I: ZoneIndex> {
    index: &'a I,
    len: usize,
    position: usize,
    run: &'a [Record],
}

impl<'a, I: ZoneIndex> Model for Records<'a, I> {
    ghost use Rattle.std.specs.Prelude.{◌≡◌, List, length, drop};
    ghost use Rattle.dns_records.specs.Record.{Record as Stated};
    ghost use Rattle.dns_zone.specs.Places.{IsRun};

    ghost Value = { List Stated };

    ghost view = { λ r. drop r.position (I.records r.index.now) };

    ghost invariant = { λ r. (r.len ≡ length (I.records r.index.now))
        × IsRun (I.records r.index.now) r.position r.run.now };
}

impl<'a, I: ZoneIndex> Records<'a, I> {
    /// All records of the set.
    pub fn of(index: &'a I) -> Records<'a, I>
        ensures { result ≡ I.records index.now }
    {
        Records::from_place(index, 0)
    }

    /// The records from `position` on.
    pub fn from_place(index: &'a I, position: usize) -> Records<'a, I>
        ensures { result ≡ drop position (I.records index.now) }
    {
        Records {
            index,
            len: index.len(),
            position,
            run: &[],
        }
    }

    /// The records that are lent in one piece from here on: what is left of a run, or the next one.
    fn front(&self) -> &'a [Record]
        ensures run { (rest : List Stated) × (self.now ≡ result.now ++ rest) }
        ensures some { result.now ≡ [] → self.now ≡ [] }
    {
        if self.run.is_empty() {
            return self.index.run_from(self.position);
        }
        self.run
    }
}

impl<'a, I: ZoneIndex> Iterator for Records<'a, I> {
    type Item = &'a Record;

    ghost next_gives = { YieldsFirstRef (λ r. r) };

    ghost remaining = { item_count (λ r. r) };

    fn next(&mut self) -> Option<&'a Record> {
        let (first, rest) = self.front().split_first()?;
        self.run = rest;
        self.position += 1;
        Some(first)
    }
}
