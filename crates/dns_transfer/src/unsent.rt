//! The records of an answer that are still to be sent, in order.
ghost use Rattle.std.specs.Prelude.{◌≡◌, ◌↔◌, ℕ, ◌∷◌, [], List, drop, length, slice_get, MatchOption, IfSome};
ghost use Rattle.std.specs.Prelude.{IfNone, IsTrue};
ghost use Rattle.std.specs.Option.{option_copied};
ghost use Rattle.dns_records.specs.Record.{Record as Stated};
ghost use Rattle.dns_changes.specs.Change.{Change as StatedChange};
ghost use Rattle.dns_transfer.specs.declared.unsent.Place.TheVariants.{End, Opening, Zone};
ghost use Rattle.dns_transfer.specs.Left.{left_at, left_in, left_of};
ghost use Rattle.dns_transfer.specs.Records.{all_but_soa, sequence};

use crate::{Form, History};
use dns_changes::Change;
use dns_records::Record;
use dns_records::types::SOA;
use dns_zone::{Records, ZoneIndex};
use std::marker::Model;

/// A position in an answer, between two of its records.
#[derive(Clone, Copy, Debug)]
pub enum Place {
    /// Before the first SOA of an answer of that form.
    Opening(Form),
    /// In the full form, before the record of the zone that has this position in its order.
    Zone(usize),
    /// In the incremental form, within the sequence of the change with the first number, after so many of its
    /// records.
    Sequence(usize, usize),
    /// After the last record.
    End,
}

impl Place {
    /// Whether no record is left.
    pub(crate) fn is_end(self) -> bool
        ensures { IsTrue result ↔ (self ≡ End) }
    {
        matches!(self, Place::End)
    }
}

impl Form {
    /// The position after the first SOA.
    fn behind_opening(self) -> Place
        ensures left { (soa : Stated) (records : List Stated) (changes : List StatedChange)
            → left_at soa records changes (Opening self) ≡ soa ∷ left_at soa records changes result }
        ensures start { (position : ℕ) → result ≡ Zone position → position ≡ 0 }
    {
        match self {
            Form::Current => Place::End,
            Form::Incremental(first) => Place::Sequence(first, 0),
            Form::Full => Place::Zone(0),
        }
    }
}

/// The record with that number in the sequence of a change: the old SOA, what goes, the new SOA, what comes
/// (RFC 1995 section 4).
fn nth_of_sequence(change: &Change, number: usize) -> Option<&Record>
    ensures { option_copied result ≡ slice_get (sequence change.now) number }
{
    let removed = change.removed();
    if number == 0 {
        return Some(change.old_soa());
    }
    if number <= removed.len() {
        return removed.get(number - 1);
    }
    if number == removed.len() + 1 {
        return Some(change.new_soa());
    }
    change.added().get(number - removed.len() - 2)
}

/// How many records the sequence of a change has.
fn sequence_len(change: &Change) -> usize
    ensures { result ≡ length (sequence change.now) }
{
    change.removed().len() + change.added().len() + 2
}

/// The next record of the changes from one on, after so many, and the position after it.
fn next_of_changes(
    history: &History,
    first: usize,
    passed: usize,
) -> Option<(&Record, usize, usize)>
    ensures { MatchOption result (left_in history.now first passed ≡ [])
        (λ r. left_in history.now first passed ≡ r.0.now ∷ left_in history.now r.1 r.2) }
{
    let mut number = first;
    let mut behind = passed;
    let _len = history.len();
    'changes: while let Some(change) = history.get(number) {
        let len = sequence_len(change);
        if let Some(record) = nth_of_sequence(change, behind) {
            return Some((record, number, behind + 1));
        }
        behind -= len;
        number += 1;
    }
    None
}

/// The next record of a zone that is no SOA, and the position after it.
fn next_other<'a, I: ZoneIndex>(
    index: &'a I,
    ready: &mut Records<'a, I>,
    position: usize,
) -> Option<(&'a Record, usize)>
    requires { ready.old ≡ drop position (I.records index.now) }
    ensures left { MatchOption result (all_but_soa ready.old ≡ [])
        (λ r. all_but_soa ready.old ≡ r.0.now ∷ all_but_soa ready.new) }
    ensures ready { IfSome result (λ r. ready.new ≡ drop r.1 (I.records index.now)) }
{
    let _len = index.len();
    let mut at = position;
    'records: while let Some(record) = ready.next() {
        at += 1;
        if record.rtype() != SOA {
            return Some((record, at));
        }
    }
    None
}

/// The records of an answer from a position on. They are lent from the zone and from the changes, and none is
/// searched.
#[derive(Drop)]
pub struct Rest<'a, I: ZoneIndex> {
    soa: &'a Record,
    index: &'a I,
    history: &'a History,
    position: Place,
    ready: Records<'a, I>,
}

impl<'a, I: ZoneIndex> Model for Rest<'a, I> {
    ghost use Rattle.dns_transfer.specs.Left.{Remaining, AreRecordsReady};

    ghost Value = { Remaining };

    ghost view = { λ r.
        record {
          soa = r.soa.now;
          records = I.records r.index.now;
          changes = r.history.now;
          position = r.position;
        } };

    ghost invariant = { λ r. AreRecordsReady r.position r.ready (I.records r.index.now) };
}

impl<'a, I: ZoneIndex> Rest<'a, I> {
    /// The records from the position on of the answer for a zone of that SOA, those records and that history.
    pub fn at(soa: &'a Record, index: &'a I, history: &'a History, position: Place) -> Rest<'a, I>
        ensures { result ≡ record {
          soa = soa.now;
          records = I.records index.now;
          changes = history.now;
          position = position;
        } }
    {
        let from = match position {
            Place::Zone(at) => at,
            _ => 0,
        };
        Rest {
            soa,
            index,
            history,
            position,
            ready: Records::from_place(index, from),
        }
    }

    /// The position of the next record.
    pub fn position(&self) -> Place
        ensures { result ≡ self.now.position }
    {
        self.position
    }

    /// The next record, if one is left.
    pub fn next(&mut self) -> Option<&'a Record>
        ensures some { IfSome result (λ r. left_of self.old ≡ r.now ∷ left_of self.new) }
        ensures none { IfNone result (left_of self.old ≡ []) }
        ensures same { self.new ≡ record self.old { position = self.new.position } }
    {
        match self.position {
            Place::Opening(form) => {
                self.position = form.behind_opening();
                self.ready = Records::of(self.index);
                Some(self.soa)
            }
            Place::Zone(position) => match next_other(self.index, &mut self.ready, position) {
                Some((record, position)) => {
                    self.position = Place::Zone(position);
                    Some(record)
                }
                None => {
                    self.position = Place::End;
                    Some(self.soa)
                }
            },
            Place::Sequence(number, behind) => {
                match next_of_changes(self.history, number, behind) {
                    Some((record, number, behind)) => {
                        self.position = Place::Sequence(number, behind);
                        Some(record)
                    }
                    None => {
                        self.position = Place::End;
                        Some(self.soa)
                    }
                }
            }
            Place::End => None,
        }
    }
}
