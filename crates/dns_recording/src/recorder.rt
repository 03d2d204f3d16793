//! An observer of turns that records them, and hands all on to another one.
ghost use Rattle.std.specs.Prelude.{◌≡◌, true, false, [], OnOk};
ghost use Rattle.std.specs.Io.KnownBytes.{Appends};
ghost use Rattle.dns_primary.specs.Keeps.{IsKept};
ghost use Rattle.dns_primary.specs.Machine.{Machine};
ghost use Rattle.dns_primary.specs.Steps.{event_shown};
ghost use Rattle.dns_network.specs.declared.network.Note.TheVariants.{Ends, Unrecorded};
ghost use Rattle.dns_network.specs.Notes.{OfEvent, OfNote};
ghost use Rattle.dns_recording.specs.Recorder.{HasBegun, HasRecordedEvent, HasRecordedNote, IsRecorded};
ghost use Rattle.dns_recording.specs.Recorder.{IsSameRecorder, IsScripted, fresh_recording, recording_of};
ghost use Rattle.dns_recording.specs.Script.{comments_scripted, event_scripted, note_scripted};

use crate::lines::{PLACES, add_event, add_note};
use crate::start::write_zones;
use dns_memory::Heap;
use dns_names::Name;
use dns_network::{Note, Observer};
use dns_primary::{Effects, Event, Primary};
use dns_store::ZoneStore;
use dns_zone::ZoneIndex;
use std::io::{self, Write};

/// Records what it is told in a file, if it is to, and hands it on.
///
/// Each event of the machine is a line of the script that `replay` runs. Those of a turn are written when it
/// ends. If a line can't be written, or memory for it is refused, the recording is over: that is noted once,
/// before what it is told then is handed on, and nothing is written after.
#[derive(Drop)]
pub struct Recorder<'f, W: Write, L> {
    /// Where the lines go.
    pub file: &'f mut W,
    /// The observer to which all is handed on.
    pub notes: &'f mut L,
    /// Whether it records.
    is_on: bool,
    /// The lines of the turn, which are written when it ends.
    lines: &'f mut Vec<u8, Heap>,
    /// Of each connection, by its number, whether a message came on it since a pump found nothing there.
    stirred: [bool; PLACES],
}

impl<'f, W: Write, L> Recorder<'f, W, L> {
    /// One that has recorded nothing, and records if `is_on` says so. Lines that are there are let go.
    // It owns no memory: a proof would not know otherwise what is left behind its references (docs/GATE.md).
    pub fn new(
        file: &'f mut W,
        notes: &'f mut L,
        lines: &'f mut Vec<u8, Heap>,
        is_on: bool,
    ) -> Recorder<'f, W, L>
        ensures same_file { result.file.ghost_name ≡ file.entry.ghost_name }
        ensures same_observer { result.notes.ghost_name ≡ notes.entry.ghost_name }
        ensures notes { result.notes.now ≡ notes.old }
        ensures fresh { recording_of W.contents result ≡ fresh_recording is_on (W.contents file.old) }
    {
        lines.clear();
        Recorder {
            file,
            notes,
            is_on,
            lines,
            stirred: [false; PLACES],
        }
    }

    /// Whether no line is left to write, if it records.
    pub fn is_written(&self) -> bool
        ensures written { result ≡ true → (recording_of W.contents self.now).is_on ≡ true
            → (recording_of W.contents self.now).lines ≡ [] }
        ensures unwritten { result ≡ false → (recording_of W.contents self.now).is_on ≡ true }
    {
        if self.is_on {
            return self.lines.is_empty();
        }
        true
    }

    /// Writes the lines that are left to write, all at once.
    fn write_out(&mut self) -> io::Result<()>
        ensures same { IsSameRecorder self.old self.new }
        ensures notes { self.new.notes.now ≡ self.old.notes.now }
        ensures on { self.new.is_on ≡ self.old.is_on }
        ensures stirred { self.new.stirred ≡ self.old.stirred }
        ensures none_left { self.new.lines.now.items ≡ [] }
        ensures written { OnOk result
            (Appends (W.contents self.old.file.now) (W.contents self.new.file.now) self.old.lines.now.items) }
    {
        if self.lines.is_empty() {
            return Ok(());
        }
        let written = self.file.write_all(self.lines.as_slice());
        self.lines.clear();
        written
    }

    /// Records a note, or an error.
    fn add_note(&mut self, note: Note) -> io::Result<()>
        ensures same { IsSameRecorder self.old self.new }
        ensures notes { self.new.notes.now ≡ self.old.notes.now }
        ensures on { self.new.is_on ≡ self.old.is_on }
        ensures said { OnOk result (IsScripted (note_scripted self.old.stirred note)
            (recording_of W.contents self.old) (recording_of W.contents self.new)) }
        ensures none_left { OnOk result (note ≡ Ends → self.new.lines.now.items ≡ []) }
    {
        if let Note::Ends = note {
            return self.write_out();
        }
        add_note(self.lines, &mut self.stirred, note)
    }

    /// Records an event, or an error.
    fn add_event(&mut self, event: Event<'_>, effects: &Effects) -> io::Result<()>
        ensures same { IsSameRecorder self.old self.new }
        ensures notes { self.new.notes.now ≡ self.old.notes.now }
        ensures on { self.new.is_on ≡ self.old.is_on }
        ensures said { OnOk result
            (IsScripted (event_scripted self.old.stirred (event_shown event.entry) effects.now)
            (recording_of W.contents self.old) (recording_of W.contents self.new)) }
    {
        add_event(self.lines, &mut self.stirred, event, effects)
    }

    /// Writes which versions are shown, or an error.
    fn add_start<I: ZoneIndex, S: ZoneStore>(
        &mut self,
        primary: &Primary<I, S>,
        origins: &[Name],
    ) -> io::Result<()>
        ensures same { IsSameRecorder self.old self.new }
        ensures notes { self.new.notes.now ≡ self.old.notes.now }
        ensures on { self.new.is_on ≡ self.old.is_on }
        ensures said { OnOk result ((m : Machine) → IsKept primary.now m
            → IsScripted (comments_scripted self.old.stirred origins.now m.zones)
            (recording_of W.contents self.old) (recording_of W.contents self.new)) }
        ensures none_left { OnOk result (self.new.lines.now.items ≡ []) }
    {
        write_zones(self.lines, primary, origins)?;
        self.write_out()
    }
}

impl<W: Write, L: Observer> Recorder<'_, W, L> {
    /// Ends the recording, lets its memory go, and notes that.
    #[inline(never)]
    fn end(&mut self)
        ensures same { IsSameRecorder self.old self.new }
        ensures off { self.new.is_on ≡ false }
        ensures noted { L.takes self.old.notes.now Unrecorded self.new.notes.now }
    {
        self.is_on = false;
        let alloc = *self.lines.allocator();
        *self.lines = Vec::new(alloc);
        self.notes.note(Note::Unrecorded);
    }

    /// Records a note, or ends the recording.
    #[inline(never)]
    fn record_note(&mut self, note: Note)
        ensures same { IsSameRecorder self.old self.new }
        ensures recorded { HasRecordedNote W.contents L.Observer note self.old self.new }
    {
        if let Err(_) = self.add_note(note) {
            self.end();
        }
    }

    /// Records an event, or ends the recording.
    #[inline(never)]
    fn record_event(&mut self, event: Event<'_>, effects: &Effects)
        ensures same { IsSameRecorder self.old self.new }
        ensures recorded { HasRecordedEvent W.contents L.Observer (event_shown event.entry) effects.now
            self.old self.new }
    {
        if let Err(_) = self.add_event(event, effects) {
            self.end();
        }
    }

    /// Writes which version of each zone of a primary is shown, as comments: `# zone ORIGIN version V serial
    /// M`. If they can't be written, the recording is over, and that is noted.
    pub fn write_start<I: ZoneIndex, S: ZoneStore>(
        &mut self,
        primary: &Primary<I, S>,
        origins: &[Name],
    )
        ensures same { IsSameRecorder self.old self.new }
        ensures said { (m : Machine) → IsKept primary.now m
            → HasBegun W.contents L.Observer origins.now m.zones self.old self.new }
        ensures none_left { (recording_of W.contents self.new).is_on ≡ true
            → (recording_of W.contents self.new).lines ≡ [] }
    {
        if !self.is_on {
            return;
        }
        if let Err(_) = self.add_start(primary, origins) {
            self.end();
        }
    }
}

impl<W: Write, L: Observer> Observer for Recorder<'_, W, L> {
    ghost takes = { λ old note new. IsSameRecorder old new
        × IsRecorded L.Observer (OfNote note) (recording_of W.contents old) (recording_of W.contents new)
        old.notes.now new.notes.now };

    ghost observes = { λ old event effects new. IsSameRecorder old new
        × IsRecorded L.Observer (OfEvent event effects) (recording_of W.contents old)
        (recording_of W.contents new) old.notes.now new.notes.now };

    #[inline]
    fn note(&mut self, note: Note) {
        if !self.is_on {
            self.notes.note(note);
            return;
        }
        self.record_note(note);
        self.notes.note(note);
    }

    /// If it doesn't record, that costs one test.
    #[inline(always)]
    fn begin_turn(&mut self, now: u64) {
        if !self.is_on {
            self.notes.begin_turn(now);
            return;
        }
        self.record_note(Note::Begins(now));
        self.notes.begin_turn(now);
    }

    /// If it doesn't record, that costs one test.
    #[inline(always)]
    fn end_turn(&mut self) {
        if !self.is_on {
            self.notes.end_turn();
            return;
        }
        self.record_note(Note::Ends);
        self.notes.end_turn();
    }

    /// If it doesn't record, that costs one test.
    #[inline(always)]
    fn observe(&mut self, event: Event<'_>, effects: &Effects) {
        if !self.is_on {
            self.notes.observe(event, effects);
            return;
        }
        self.record_event(event, effects);
        self.notes.observe(event, effects);
    }
}
