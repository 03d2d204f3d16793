//! What an observer of turns knows besides what it is told: counts, and diagnostic lines.
ghost use Rattle.std.specs.Prelude.{◌≡◌};
ghost use Rattle.dns_network.specs.Notes.{OfEvent, OfNote};
ghost use Rattle.dns_primary.specs.declared.event.Effects.{Effects as StatedEffects};
ghost use Rattle.dns_primary.specs.Step.{Event as StatedEvent};
ghost use Rattle.dns_network.specs.declared.network.Note.{Note as StatedNote};
ghost use Rattle.dns_counters.specs.declared.counting.Counting.{Counting as StatedCounting};
ghost use Rattle.dns_service.specs.Counting.{counting_after};
ghost use Rattle.dns_service.specs.Watching.{event_counted, note_counted};

use dns_counters::Counters;
use dns_diagnostics::Diagnostics;
use dns_network::Observer;
use dns_recording::Recorder;
use std::io::Write;

/// Who counts what it is told, if it is to, and has diagnostic lines.
pub(crate) trait Watched: Observer {
    /// What it has counted, and whether it counts.
    ghost counting: { Self → StatedCounting };

    /// What was counted.
    fn counters(&self) -> &Counters
        ensures { result.now ≡ (counting self.now).counters };

    /// The diagnostic lines of the turn.
    fn diagnostics(&self) -> &Diagnostics;

    /// Each note is counted.
    ghost notes_counted: { (old : Self) (note : StatedNote) (new : Self)
        → Self.takes old note new
        → counting new ≡ counting_after (counting old) (OfNote note) };

    /// Each event is counted.
    ghost events_counted: { (old : Self) (event : StatedEvent) (effects : StatedEffects) (new : Self)
        → Self.observes old event effects new
        → counting new ≡ counting_after (counting old) (OfEvent event effects) };
}

impl<W: Write, L: Watched> Watched for Recorder<'_, W, L> {
    ghost counting = { λ recorder. L.counting recorder.notes.now };

    ghost notes_counted = { λ old note new taken. note_counted L.Observer L.counting L.notes_counted note _ _
        old.notes.now new.notes.now taken.1.said.handed };

    ghost events_counted = { λ old event effects new seen. event_counted L.Observer L.counting L.notes_counted
        L.events_counted event effects _ _ old.notes.now new.notes.now seen.1.said.handed };

    fn counters(&self) -> &Counters {
        self.notes.counters()
    }

    fn diagnostics(&self) -> &Diagnostics {
        self.notes.diagnostics()
    }
}
