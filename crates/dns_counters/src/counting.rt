//! Counts of what an observer of turns is told.
ghost use Rattle.std.specs.Prelude.{◌≡◌};
ghost use Rattle.dns_primary.specs.Steps.{event_shown};
ghost use Rattle.dns_network.specs.Notes.{OfEvent, OfNote};
ghost use Rattle.dns_counters.specs.Counters.{counted_if, no_counts};
ghost use Rattle.dns_counters.specs.declared.counters.Counters.{Counters as StatedCounters};

use crate::Counters;
use dns_network::Note;
use dns_primary::{Effects, Event};

/// Counts what it is told of, if it is to.
#[derive(Clone, Copy, Debug, PartialEq, Eq)]
pub struct Counting {
    /// What was counted.
    pub counters: Counters,
    /// Whether it counts.
    pub is_on: bool,
}

impl Counting {
    /// One that has counted nothing.
    pub fn new(is_on: bool) -> Counting
        ensures { result ≡ record { counters = no_counts; is_on = is_on } }
    {
        Counting {
            counters: Counters::new(),
            is_on,
        }
    }

    /// Counts a note.
    #[inline(always)]
    pub fn note(&mut self, note: Note)
        ensures on { self.new.is_on ≡ self.old.is_on }
        ensures counted { self.new.counters ≡ counted_if self.old.is_on self.old.counters (OfNote note) }
    {
        if self.is_on {
            self.counters.count_note(note);
        }
    }

    /// Counts what an event did.
    #[inline(always)]
    pub fn observe(&mut self, event: Event<'_>, effects: &Effects)
        ensures on { self.new.is_on ≡ self.old.is_on }
        ensures counted { self.new.counters
            ≡ counted_if self.old.is_on self.old.counters (OfEvent (event_shown event.entry) effects.now) }
    {
        if self.is_on {
            self.counters.count_event(event, effects);
        }
    }
}
