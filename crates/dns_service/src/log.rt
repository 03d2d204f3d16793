//! What a server reports of its turns: lines, of which those that peers can cause are at most 20 a second.
ghost use Rattle.std.specs.Prelude.{◌≡◌, ◌++◌, Bool, false, true, List, [], Option, IfSome, OnOk, IfOk};
ghost use Rattle.std.specs.Io.KnownBytes.{Appends};
ghost use Rattle.dns_names.specs.Name.{Labels};
ghost use Rattle.dns_primary.specs.Steps.{event_shown};
ghost use Rattle.dns_network.specs.Notes.{OfEvent, OfNote};
ghost use Rattle.dns_network.specs.declared.network.Note.TheVariants.{Begins};
ghost use Rattle.dns_service.specs.Counting.{counting_after};
ghost use Rattle.dns_service.specs.Log.{HasAddedEvent, HasAddedNote, HasSaidEvent, IsAdded, IsLogged, Known};
ghost use Rattle.dns_service.specs.Log.{addresses_after, closed_line, count_line, logged_by, opened_line};
ghost use Rattle.dns_service.specs.Log.{observation_said, said_of, summary, transfers_noted};
ghost use Rattle.dns_service.specs.Verdict.{by_verdict, line_verdict, none_in};

use crate::slots::set;
use crate::transfer_lines::{Transfer, add_transfer, is_beside_transfers, keep_transfers};
use crate::update_lines::{add_event, have_no_line};
use crate::watched::Watched;
use dns_counters::{Counters, Counting};
use dns_diagnostics::Diagnostics;
use dns_memory::Heap;
use dns_names::Name;
use dns_network::{Note, Observer};
use dns_policy::print_address;
use dns_primary::{Effects, Event, Peer};
use std::io::{self, ErrorKind, Write};
use std::net::IpAddr;

/// How many lines that peers cause are written in a second, at most.
const LINES: u64 = 20;

/// What peers have caused in a second of the clock.
#[derive(Clone, Copy)]
pub(crate) struct Counts {
    /// The second.
    pub(crate) second: u64,
    /// How many lines were written.
    pub(crate) written: u64,
    /// How many lines were left out.
    pub(crate) left_out: u64,
    /// How many connections were closed for want of a place.
    pub(crate) refused: u64,
}

impl Counts {
    /// Those at the start of a second.
    pub(crate) fn new(second: u64) -> Counts
        ensures { result ≡ none_in second }
    {
        Counts {
            second,
            written: 0,
            left_out: 0,
            refused: 0,
        }
    }
}

/// Whether a line that peers cause is written, and the counts after it. None if a count is at its end.
pub(crate) fn judge(is_quiet: bool, counts: Counts) -> Option<(bool, Counts)>
    ensures { IfSome result (λ v. v ≡ line_verdict is_quiet counts) }
{
    let mut after = counts;
    if is_quiet {
        return Some((false, after));
    }
    if counts.written < LINES {
        after.written = counts.written + 1;
        return Some((true, after));
    }
    after.left_out = counts.left_out.checked_add(1)?;
    Some((false, after))
}

/// Appends a line of how many there were, if there was one.
fn add_count(lines: &mut Vec<u8, Heap>, count: u64, what: &str) -> io::Result<()>
    ensures { OnOk result (lines.new.items ≡ lines.old.items ++ count_line count what.now) }
{
    if count == 0 {
        return Ok(());
    }
    writeln!(lines, "{count} {what}")
}

/// Appends what is reported of a second that is over.
fn add_summary(lines: &mut Vec<u8, Heap>, counts: Counts) -> io::Result<()>
    ensures { OnOk result (lines.new.items ≡ lines.old.items ++ summary counts) }
{
    add_count(lines, counts.refused, "connections refused")?;
    add_count(lines, counts.left_out, "lines left out")
}

/// Appends the line of a connection that is open, or none if peers have caused too many.
fn add_opened(
    lines: &mut Vec<u8, Heap>,
    is_quiet: bool,
    counts: Counts,
    number: usize,
    peer: Peer,
) -> io::Result<Counts>
    ensures { IfOk result
        (λ after. IsAdded (by_verdict (line_verdict is_quiet counts) (opened_line number peer))
        lines.old.items lines.new.items after) }
{
    let Some((is_written, after)) = judge(is_quiet, counts) else {
        return Err(ErrorKind::Other.into());
    };
    if is_written {
        let address = print_address(peer.address);
        writeln!(lines, "conn {number} open {address}")?;
    }
    Ok(after)
}

/// Appends the line of a connection that is closed, or none if peers have caused too many.
fn add_closed(
    lines: &mut Vec<u8, Heap>,
    is_quiet: bool,
    counts: Counts,
    number: usize,
) -> io::Result<Counts>
    ensures { IfOk result (λ after. IsAdded (by_verdict (line_verdict is_quiet counts) (closed_line number))
        lines.old.items lines.new.items after) }
{
    let Some((is_written, after)) = judge(is_quiet, counts) else {
        return Err(ErrorKind::Other.into());
    };
    if is_written {
        writeln!(lines, "conn {number} closed")?;
    }
    Ok(after)
}

/// Appends what is reported of a note, and gives the counts after it.
fn add(
    lines: &mut Vec<u8, Heap>,
    origins: &[Name],
    is_quiet: bool,
    counts: Counts,
    note: Note,
) -> io::Result<Counts>
    ensures { IfOk result (λ after.
        IsAdded (said_of is_quiet origins.now counts note) lines.old.items lines.new.items after) }
{
    let mut after = counts;
    match note {
        Note::Opened(number, peer) => return add_opened(lines, is_quiet, counts, number, peer),
        Note::Closed(number) => return add_closed(lines, is_quiet, counts, number),
        Note::Silent(_) => {}
        Note::Stalled(_) => {}
        Note::Refused => match counts.refused.checked_add(1) {
            Some(refused) => after.refused = refused,
            None => return Err(ErrorKind::Other.into()),
        },
        Note::OutOfMemory => writeln!(lines, "out of memory")?,
        Note::Device(index) => {
            if let Some(origin) = origins.get(index) {
                writeln!(lines, "device {origin}")?;
            }
        }
        Note::Begins(now) => {
            if now != counts.second {
                add_summary(lines, counts)?;
                after = Counts::new(now);
            }
        }
        Note::Ends => {}
        Note::Unrecorded => writeln!(lines, "recording ended")?,
    }
    Ok(after)
}

/// Lines of a log, written turn by turn. What can't be written is let go.
#[derive(Drop)]
pub(crate) struct Log<'a, E: Write> {
    pub(crate) err: &'a mut E,
    /// The names of the zones, by their positions.
    pub(crate) origins: &'a [Name],
    /// Whether lines of connections, updates and transfers are left out.
    pub(crate) is_quiet: bool,
    /// The addresses of the connections that were opened, by their numbers.
    pub(crate) addresses: &'a mut Vec<Option<IpAddr>, Heap>,
    /// The transfers that are open, by the numbers of their connections.
    pub(crate) transfers: &'a mut Vec<Option<Transfer>, Heap>,
    /// The lines of the turn, which are written when it ends.
    pub(crate) lines: &'a mut Vec<u8, Heap>,
    pub(crate) counts: Counts,
    /// Whether a line couldn't be written.
    pub(crate) has_failed: bool,
    /// What was counted, if it is to be.
    pub(crate) counting: Counting,
    /// The diagnostic lines of the turn, if there are to be any.
    pub(crate) diagnostics: &'a mut Diagnostics,
}

impl<E: Write> Log<'_, E> {
    /// Whether no line is left to write.
    #[inline(always)]
    fn has_no_line(&self) -> bool
        ensures { result ≡ true → self.now.lines.now.items ≡ [] }
    {
        self.lines.is_empty()
    }

    /// Whether all that was to be written is.
    pub(crate) fn is_written(&self) -> bool
        ensures whole { result ≡ true → self.now.has_failed ≡ false }
        ensures lines { result ≡ true → self.now.lines.now.items ≡ [] }
    {
        if self.has_failed {
            return false;
        }
        self.has_no_line()
    }

    /// Writes what is still to be written.
    fn write_out(&mut self) -> io::Result<()>
        ensures same_reference { self.new.err.ghost_name ≡ self.old.err.ghost_name }
        ensures counting { self.new.counting ≡ self.old.counting }
        ensures origins { self.new.origins.now ≡ self.old.origins.now }
        ensures quiet { self.new.is_quiet ≡ self.old.is_quiet }
        ensures counts { self.new.counts ≡ self.old.counts }
        ensures addresses { self.new.addresses.now.items ≡ self.old.addresses.now.items }
        ensures transfers { self.new.transfers.now.items ≡ self.old.transfers.now.items }
        ensures still { self.new.has_failed ≡ self.old.has_failed }
        ensures none { self.new.lines.now.items ≡ [] }
        ensures written { OnOk result
            (Appends (E.contents self.old.err.now) (E.contents self.new.err.now) self.old.lines.now.items) }
    {
        let written = self.err.write_all(self.lines.as_slice());
        self.lines.clear();
        written
    }

    /// Takes a note of which lines are to be written when the turn ends, or none.
    #[inline(never)]
    fn take(&mut self, note: Note)
        ensures same_reference { self.new.err.ghost_name ≡ self.old.err.ghost_name }
        ensures counting { self.new.counting ≡ self.old.counting }
        ensures text { E.contents self.new.err.now ≡ E.contents self.old.err.now }
        ensures origins { self.new.origins.now ≡ self.old.origins.now }
        ensures quiet { self.new.is_quiet ≡ self.old.is_quiet }
        ensures addresses { self.new.addresses.now.items
            ≡ addresses_after note self.old.addresses.now.items }
        ensures transfers { self.new.transfers.now.items
            ≡ transfers_noted note self.old.transfers.now.items }
        ensures said { self.new.has_failed ≡ false → (self.old.has_failed ≡ false)
            × HasAddedNote self.old note self.new }
    {
        if let Note::Opened(number, peer) = note {
            set(self.addresses, number, Some(peer.address));
        }
        if let Note::Closed(number) = note {
            set(self.transfers, number, None);
        }
        let (origins, is_quiet, counts) = (self.origins, self.is_quiet, self.counts);
        match add(self.lines, origins, is_quiet, counts, note) {
            Ok(after) => self.counts = after,
            Err(_) => self.has_failed = true,
        }
    }
}

impl<E: Write> Log<'_, E> {
    /// Appends what is reported of an event and its effects, and keeps what it makes of the open transfers.
    fn add_report(&mut self, event: Event<'_>, effects: &Effects) -> io::Result<()>
        ensures same_reference { self.new.err.ghost_name ≡ self.old.err.ghost_name }
        ensures counting { self.new.counting ≡ self.old.counting }
        ensures text { E.contents self.new.err.now ≡ E.contents self.old.err.now }
        ensures origins { self.new.origins.now ≡ self.old.origins.now }
        ensures quiet { self.new.is_quiet ≡ self.old.is_quiet }
        ensures addresses { self.new.addresses.now.items ≡ self.old.addresses.now.items }
        ensures failed { self.new.has_failed ≡ self.old.has_failed }
        ensures said { OnOk result
            (HasAddedEvent self.old (event_shown event.entry) effects.now self.new) }
    {
        let (origins, counts) = (self.origins, self.counts);
        let alloc = *self.lines.allocator();
        self.counts = add_event(self.lines, origins, self.addresses, counts, event, effects)?;
        add_transfer(
            self.lines,
            origins,
            self.addresses,
            self.transfers,
            event,
            effects,
        )?;
        keep_transfers(alloc, origins, self.transfers, event, effects)
    }

    /// Takes what is to be reported of an event, or notes that it can't.
    fn take_event(&mut self, event: Event<'_>, effects: &Effects)
        ensures same_reference { self.new.err.ghost_name ≡ self.old.err.ghost_name }
        ensures counting { self.new.counting ≡ self.old.counting }
        ensures text { E.contents self.new.err.now ≡ E.contents self.old.err.now }
        ensures origins { self.new.origins.now ≡ self.old.origins.now }
        ensures quiet { self.new.is_quiet ≡ self.old.is_quiet }
        ensures addresses { self.new.addresses.now.items ≡ self.old.addresses.now.items }
        ensures said { self.new.has_failed ≡ false → (self.old.has_failed ≡ false)
            × HasAddedEvent self.old (event_shown event.entry) effects.now self.new }
    {
        if let Err(_) = self.add_report(event, effects) {
            self.has_failed = true;
        }
    }

    /// Writes what is still to be written, or notes that it can't.
    #[inline(never)]
    fn settle(&mut self)
        ensures same_reference { self.new.err.ghost_name ≡ self.old.err.ghost_name }
        ensures counting { self.new.counting ≡ self.old.counting }
        ensures origins { self.new.origins.now ≡ self.old.origins.now }
        ensures quiet { self.new.is_quiet ≡ self.old.is_quiet }
        ensures counts { self.new.counts ≡ self.old.counts }
        ensures addresses { self.new.addresses.now.items ≡ self.old.addresses.now.items }
        ensures transfers { self.new.transfers.now.items ≡ self.old.transfers.now.items }
        ensures none { self.new.lines.now.items ≡ [] }
        ensures written { self.new.has_failed ≡ false → (self.old.has_failed ≡ false)
            × Appends (E.contents self.old.err.now) (E.contents self.new.err.now) self.old.lines.now.items }
    {
        if let Err(_) = self.write_out() {
            self.has_failed = true;
        }
    }

    /// Takes what is to be reported of an event, and writes all lines out if updates are answered.
    #[inline(never)]
    fn report(&mut self, event: Event<'_>, effects: &Effects)
        ensures same_reference { self.new.err.ghost_name ≡ self.old.err.ghost_name }
        ensures counting { self.new.counting ≡ self.old.counting }
        ensures origins { self.new.origins.now ≡ self.old.origins.now }
        ensures quiet { self.new.is_quiet ≡ self.old.is_quiet }
        ensures said { self.new.has_failed ≡ false → (self.old.has_failed ≡ false)
            × HasSaidEvent E.contents self.old (event_shown event.entry) effects.now self.new }
        ensures written { (effects.now.headers.items ≡ [] → ⊥) → self.new.lines.now.items ≡ [] }
    {
        self.take_event(event, effects);
        if effects.headers.is_empty() {
            return;
        }
        self.settle();
    }
}

impl<E: Write> Log<'_, E> {
    /// Whether nothing is to be said of an event and its effects, nor to be known of them.
    #[inline(always)]
    fn is_silent(&self, event: Event<'_>, effects: &Effects) -> bool
        ensures said { result ≡ true → (k : Known) → k.transfers ≡ self.now.transfers.now.items
            → (origins : List Labels)
            → observation_said origins k (event_shown event.entry) effects.now
            ≡ record { text = []; known = k } }
        ensures unanswered { result ≡ true → effects.now.headers.items ≡ [] }
    {
        have_no_line(effects) && is_beside_transfers(self.transfers, event, effects)
    }
}

/// Whether nothing is to be said of a turn that begins in this second: it is that of the turn before.
#[inline(always)]
fn is_same_second(counts: Counts, now: u64) -> bool
    ensures { result ≡ true → (quiet : Bool) (origins : List Labels)
        → said_of quiet origins counts (Begins now) ≡ ([], counts) }
{
    now == counts.second
}

impl<E: Write> Observer for Log<'_, E> {
    ghost takes = { λ old note new. (new.counting ≡ counting_after old.counting (OfNote note))
        × (new.err.ghost_name ≡ old.err.ghost_name)
        × (new.origins.now ≡ old.origins.now)
        × (new.is_quiet ≡ old.is_quiet)
        × IsLogged old.is_quiet old.origins.now (OfNote note) old.has_failed new.has_failed
        (logged_by E.contents old) (logged_by E.contents new) };

    ghost observes = { λ old event effects new.
        (new.counting ≡ counting_after old.counting (OfEvent event effects))
        × (new.err.ghost_name ≡ old.err.ghost_name)
        × (new.origins.now ≡ old.origins.now)
        × (new.is_quiet ≡ old.is_quiet)
        × IsLogged old.is_quiet old.origins.now (OfEvent event effects) old.has_failed new.has_failed
        (logged_by E.contents old) (logged_by E.contents new) };

    fn note(&mut self, note: Note) {
        match note {
            Note::Begins(now) => self.begin_turn(now),
            Note::Ends => self.end_turn(),
            _ => {
                self.counting.note(note);
                self.diagnostics.note(note);
                self.take(note);
            }
        }
    }

    /// In the second of the turn before, that costs one comparison, and a test of diagnostic lines.
    #[inline(always)]
    fn begin_turn(&mut self, now: u64) {
        self.diagnostics.note(Note::Begins(now));
        if is_same_second(self.counts, now) {
            return;
        }
        self.take(Note::Begins(now));
    }

    /// If no line is left to write, that costs one test, and a test of diagnostic lines.
    #[inline(always)]
    fn end_turn(&mut self) {
        self.diagnostics.note(Note::Ends);
        if self.has_no_line() {
            return;
        }
        self.settle();
    }

    /// An event of which nothing is said, as a query that is answered, costs some comparisons.
    #[inline(always)]
    fn observe(&mut self, event: Event<'_>, effects: &Effects) {
        self.counting.observe(event, effects);
        self.diagnostics.observe(self.origins, event, effects);
        let is_quiet = self.is_quiet;
        if is_quiet {
            return;
        }
        if self.is_silent(event, effects) {
            return;
        }
        self.report(event, effects);
    }
}

impl<E: Write> Watched for Log<'_, E> {
    ghost counting = { λ log. log.counting };

    ghost notes_counted = { λ old note new taken. taken.0 };

    ghost events_counted = { λ old event effects new seen. seen.0 };

    fn counters(&self) -> &Counters {
        &self.counting.counters
    }

    fn diagnostics(&self) -> &Diagnostics {
        self.diagnostics
    }
}
