//! When counts are told, and where.
ghost use Rattle.std.specs.Prelude.{◌≡◌, IfOk, Ok, OnOk, false, slice_get};
ghost use Rattle.std.specs.Io.KnownBytes.{Appends};
ghost use Rattle.dns_primary.specs.Keeps.{IsKept};
ghost use Rattle.dns_primary.specs.Machine.{Machine};
ghost use Rattle.dns_counters.specs.Lines.{counts_told, zone_told, zones_told};
ghost use Rattle.dns_counters.specs.Telling.{IsToldIfDue, is_due, next_due};

use crate::Counters;
use crate::lines::{write_counters, write_zone};
use dns_memory::Heap;
use dns_names::Name;
use dns_primary::Primary;
use dns_store::ZoneStore;
use dns_zone::ZoneIndex;
use std::io::{self, Write};

/// Where counts are told, and each how many seconds.
#[derive(Drop)]
pub struct CountLines<'a, O: Write> {
    /// Where the lines go.
    pub out: &'a mut O,
    /// The names of the zones, by their indices.
    pub origins: &'a [Name],
    /// Each how many seconds they are written; with 0 they never are.
    pub every: u64,
    /// The second from which on they are written next.
    pub next: u64,
}

/// Writes the line of the zone at an index, if there is one.
fn write_zone_at<I: ZoneIndex, S: ZoneStore, W: Write>(
    out: &mut W,
    primary: &Primary<I, S>,
    origin: &Name,
    index: usize,
) -> io::Result<()>
    ensures { OnOk result ((m : Machine) → IsKept primary.now m
        → Appends (W.contents out.old) (W.contents out.new)
        (zone_told origin.now (slice_get m.zones index))) }
{
    let Some((version, zone)) = primary.shown(index) else {
        return Ok(());
    };
    let Some(fullness) = primary.fullness(index) else {
        return Ok(());
    };
    write_zone(out, origin, version, zone, fullness)
}

/// Writes the line of each zone.
fn write_zones<I: ZoneIndex, S: ZoneStore, W: Write>(
    out: &mut W,
    primary: &Primary<I, S>,
    origins: &[Name],
) -> io::Result<()>
    ensures { OnOk result ((m : Machine) → IsKept primary.now m
        → Appends (W.contents out.old) (W.contents out.new) (zones_told origins.now m.zones)) }
{
    for index in 0..origins.len() {
        write_zone_at(out, primary, &origins[index], index)?;
    }
    Ok(())
}

/// Writes the line of each zone, and then the line of the server.
fn write_counts<I: ZoneIndex, S: ZoneStore, W: Write>(
    out: &mut W,
    counters: &Counters,
    primary: &Primary<I, S>,
    origins: &[Name],
) -> io::Result<()>
    ensures { OnOk result ((m : Machine) → IsKept primary.now m
        → Appends (W.contents out.old) (W.contents out.new) (counts_told counters.now origins.now m.zones)) }
{
    write_zones(out, primary, origins)?;
    write_counters(out, counters)
}

impl<O: Write> CountLines<'_, O> {
    /// Writes the lines at once, or an error.
    fn tell<I: ZoneIndex, S: ZoneStore>(
        &mut self,
        heap: Heap,
        counters: &Counters,
        primary: &Primary<I, S>,
    ) -> io::Result<()>
        ensures same_reference { self.new.out.ghost_name ≡ self.old.out.ghost_name }
        ensures every { self.new.every ≡ self.old.every }
        ensures origins { self.new.origins.now ≡ self.old.origins.now }
        ensures next { self.new.next ≡ self.old.next }
        ensures told { OnOk result ((m : Machine) → IsKept primary.now m
            → Appends (O.contents self.old.out.now) (O.contents self.new.out.now)
            (counts_told counters.now self.old.origins.now m.zones)) }
    {
        let mut lines = Vec::new(heap);
        write_counts(&mut lines, counters, primary, self.origins)?;
        self.out.write_all(lines.as_slice())
    }

    /// Writes the lines if it is time, and answers whether it was. If they can't be written, or memory is
    /// refused, there is an error; the next ones come as many seconds later.
    pub fn tell_if_due<I: ZoneIndex, S: ZoneStore>(
        &mut self,
        heap: Heap,
        counters: &Counters,
        primary: &Primary<I, S>,
        now: u64,
    ) -> io::Result<bool>
        ensures same_reference { self.new.out.ghost_name ≡ self.old.out.ghost_name }
        ensures every { self.new.every ≡ self.old.every }
        ensures origins { self.new.origins.now ≡ self.old.origins.now }
        ensures due { IfOk result (λ due. due ≡ is_due now self.old.every self.old.next) }
        ensures next { self.new.next ≡ next_due now self.old.every self.old.next }
        ensures told { IsToldIfDue result
            ((m : Machine) → IsKept primary.now m
            → Appends (O.contents self.old.out.now) (O.contents self.new.out.now)
            (counts_told counters.now self.old.origins.now m.zones))
            (O.contents self.new.out.now ≡ O.contents self.old.out.now) }
        ensures never { is_due now self.old.every self.old.next ≡ false → result ≡ Ok false }
    {
        if self.every == 0 || now < self.next {
            return Ok(false);
        }
        self.next = now.saturating_add(self.every);
        self.tell(heap, counters, primary)?;
        Ok(true)
    }
}
