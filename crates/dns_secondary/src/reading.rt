//! How far an answer was read.
ghost use Rattle.std.specs.Prelude.{◌≡◌, ◌-◌, ◌^◌, min, List, Some, IfOk};
ghost use Rattle.dns_records.specs.Record.{Record as Stated};
ghost use Rattle.dns_secondary.specs.State.{Ended};
ghost use Rattle.dns_secondary.specs.Received.{received_count, is_incremental};

use crate::reached::Reached;
use dns_records::Record;
use dns_zone::ZoneIndex;
use std::alloc::AllocError;
use std::marker::Model;

/// The position in an answer.
#[derive(Clone, Drop)]
pub(crate) enum Phase {
    /// Before the first record.
    Begun,
    /// After the SOA that leads.
    Led(Record),
    /// Within a whole zone that this SOA leads.
    Whole(Record),
    /// Within the records that go of a sequence. The SOA leads the answer.
    Removing(Record),
    /// Within the records that come of a sequence. The first SOA leads the answer, the second the records
    /// that come.
    Adding(Record, Record),
    /// After the last record.
    Ended,
}

/// The position in an answer, and the set that was reached there.
#[derive(Drop)]
pub(crate) struct Reading<I: ZoneIndex> {
    pub(crate) phase: Phase,
    pub(crate) set: Reached<I>,
}

impl<I: ZoneIndex> Model for Reading<I> {
    ghost use Rattle.dns_secondary.specs.State.{State};
    ghost use Rattle.dns_secondary.specs.Stated.{state_of, AreSoas};

    ghost Value = { State };

    ghost view = { λ r. state_of r.phase r.set };

    ghost invariant = { λ r. AreSoas r.phase };
}

impl<I: ZoneIndex> Reading<I> {
    /// The same again. What is read on from one does not change the other.
    pub(crate) fn fork(&self) -> Result<Reading<I>, AllocError>
        ensures { IfOk result (λ fork. fork ≡ self.now) }
    {
        let set = self.set.fork()?;
        match self.phase.clone() {
            Ok(phase) => Ok(Reading { phase, set }),
            Err(error) => {
                drop(set);
                Err(error)
            }
        }
    }

    /// The same, its records ready to be shared.
    pub(crate) fn sealed(self) -> Result<Reading<I>, AllocError>
        ensures { IfOk result (λ sealed. sealed ≡ self) }
    {
        let Reading { phase, set } = self;
        match set.sealed() {
            Ok(set) => Ok(Reading { phase, set }),
            Err(error) => {
                drop(phase);
                Err(error)
            }
        }
    }

    /// How many records the set has that was reached, at most as many as can be counted.
    pub(crate) fn received_count(&self) -> usize
        ensures { result ≡ min (received_count (Some self.now)) (2 ^ 64 - 1) }
    {
        match self.phase {
            Phase::Begun => 0,
            Phase::Led(_) => 1,
            _ => self.set.count(),
        }
    }

    /// Whether it is within changes of the version that is held.
    pub(crate) fn is_incremental(&self) -> bool
        ensures { result ≡ is_incremental (Some self.now) }
    {
        matches!(self.phase, Phase::Removing(_) | Phase::Adding(_, _))
    }

    /// The set alone.
    pub(crate) fn into_set(self) -> Result<I, AllocError>
        ensures { IfOk result
            (λ whole. (set : List Stated) → self ≡ Ended set → I.records whole ≡ set) }
    {
        let Reading { phase, set } = self;
        drop(phase);
        set.into_set()
    }
}
