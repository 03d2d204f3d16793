//! Which base a store of format 1 has after it is migrated: sectors of format 2 hold less.
use crate::bases::Step::{Add, Gone, Load};
use crate::example::sum;
use crate::migration::{Told, migrated};
use crate::old_format::Held;
use crate::stores::{Found, Shape, TINY, found_on, push_text, tiny_text};
use dns_fixtures::plan;
use dns_memory::{Heap, heap};
use dns_store::{MigrateError, Migration, OpenError};
use std::test::Fail;

/// How a store came to be.
#[derive(Clone, Copy)]
enum Step {
    /// The loaded version, of 74 octets, has a text of so many octets too, which takes 14 more.
    Load(usize),
    /// A version adds a text of so many octets; its entry has 124 more.
    Add(usize),
    /// A version takes away the text of the version with this serial, of so many octets.
    Gone(u8, usize),
}

/// Takes a step.
fn take(heap: Heap, held: &mut Held, step: Step) -> Option<()> {
    let serial = u8::try_from(held.entries.len()).ok()?.checked_add(1)?;
    let (text, is_gone) = match step {
        Load(size) => return push_text(&mut held.snapshot, tiny_text(0, size)),
        Add(size) => (tiny_text(serial, size), false),
        Gone(added, size) => (tiny_text(added, size), true),
    };
    let mut entry = Vec::new(heap);
    TINY.push_entry(&mut entry, serial, text, is_gone)?;
    held.entries.push(entry).ok()
}

/// A store whose banks have eight sectors for a snapshot, and so many for a journal.
fn held(heap: Heap, journal: u32, steps: &[Step]) -> Option<Held> {
    let shape = Shape {
        snapshot: 8,
        journal,
        ..TINY
    };
    let mut held = Held::loaded(heap, &shape, 1)?;
    for step in steps {
        take(heap, &mut held, *step)?;
    }
    Some(held)
}

/// What migrating it answers, whether each sector is as before then, and what it opens as.
fn outcome(heap: Heap, journal: u32, steps: &[Step]) -> Option<(Told, bool, Found)> {
    let held = held(heap, journal, steps)?;
    let mut device = held.device(heap, plan(heap)?)?;
    let before = sum(&mut device)?;
    let told = migrated(heap, &mut device, &held.shape)?;
    let is_same = device.pending() == 0 && sum(&mut device)? == before;
    Some((told, is_same, found_on(heap, device, &held.shape)))
}

/// A journal, the steps, and what the store opens as.
type Case = (u32, &'static [Step], (u64, u64, usize, usize));

/// Eight sectors hold 3,840 octets of a snapshot in format 2, and 3,904 in format 1. A version that is too
/// large is before the base, though its change has room; so is each before it. An entry of 477 to 484 octets
/// takes one sector in format 1 and two in format 2, and one of 957 to 972 octets two and three.
const CASES: [Case; 11] = [
    (16, &[Load(3752)], (0, 0, 3, 3)),
    (16, &[Load(3752), Gone(0, 3752)], (1, 0, 2, 3)),
    (16, &[Load(3753), Gone(0, 3753)], (1, 1, 2, 2)),
    (24, &[Add(3752), Gone(1, 3752), Add(20)], (3, 0, 3, 2)),
    (24, &[Add(3753), Gone(1, 3753), Add(20)], (3, 2, 3, 2)),
    (8, &[Add(352); 8], (8, 0, 10, 2)),
    (8, &[Add(353); 8], (8, 4, 10, 6)),
    (9, &[Add(360); 9], (9, 5, 11, 7)),
    (8, &[Add(832); 4], (4, 0, 6, 2)),
    (8, &[Add(833); 4], (4, 2, 6, 4)),
    (9, &[Add(848); 4], (4, 1, 6, 3)),
];

#[test]
fn bases(rt: HostRuntime) -> Result<(), Fail> {
    let heap = heap(rt.alloc())?;
    for (i, (journal, steps, opened)) in CASES.iter().enumerate() {
        let told = Ok(Migration::Migrated {
            version: opened.0,
            serial: u32::try_from(opened.0).unwrap_or(0),
        });
        let wanted = Some((told, false, Ok(*opened)));
        assert_eq!(rt; outcome(heap, *journal, steps), wanted, "case {i}");
    }
    Ok(())
}

/// The loaded version or the next one is too large; nothing is written, and the store is one of format 1
/// still.
#[test]
fn newest_too_large(rt: HostRuntime) -> Result<(), Fail> {
    let heap = heap(rt.alloc())?;
    for step in [Load(3753), Load(3816), Add(3753), Add(3816)] {
        let told = outcome(heap, 16, &[step]);
        let old = Err(OpenError::Damaged(0));
        assert_eq!(rt; told, Some((Err(MigrateError::ZoneTooLarge), true, old)));
    }
    Ok(())
}
