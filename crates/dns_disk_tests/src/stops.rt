//! A run of a store, over another, that is stopped at each of its operations, and after it an opening that is
//! stopped at each of its own; and one of whose making or opening each operation fails.
use crate::example::EXAMPLE;
use crate::stores::{
    Device, Found, OpenStore, Store, TINY, enter, entered, found_on, look, made, make, opened,
    read, stage, tiny_text,
};
use dns_fixtures::{blank, choices, crashed, plan};
use dns_memory::{Heap, heap};
use dns_sectors::{Keep, Plan};
use dns_store::{FormatError, OpenError, ZoneStore};
use std::rc::Rc;
use std::test::Fail;

/// Three updates are flushed: a text comes, one comes whose entry has three sectors, and the first goes. Each
/// version has room in a snapshot. Then a checkpoint keeps the newest two; up to the first that fails.
fn update(heap: Heap, store: &mut Store) -> Option<()> {
    let first = tiny_text(1, 2);
    stage(heap, store, &TINY, 1, first, false)?;
    stage(heap, store, &TINY, 2, tiny_text(2, 833), false)?;
    stage(heap, store, &TINY, 3, first, true)?;
    store.flush().ok()?;
    store.checkpoint(2, 0).ok()
}

/// The run over the old store, up to the first operation that fails: a store is made, opened and updated.
fn steps(heap: Heap, device: Device) -> Device {
    let mut device = device;
    if make(heap, &mut device, &TINY) != Some(Ok(())) {
        return device;
    }
    match opened(heap, device, &TINY) {
        Ok(open) => {
            let mut store = open.store;
            let _told = update(heap, &mut store);
            store.into_device()
        }
        Err((device, _)) => device,
    }
}

/// The device of the run whose n-th operation is the last.
fn stopped(heap: Heap, plan: &Rc<Plan, Heap>, n: u64) -> Option<Device> {
    let device = entered(heap, &TINY, plan.clone().ok()?, tiny_text(1, 20))?;
    plan.stop_at(n);
    let left = steps(heap, device);
    plan.reset();
    Some(left)
}

/// The operation that was the last, and which of the pending writes were kept.
type Case = (u64, usize);

/// The device that the run leaves.
fn left(heap: Heap, plan: &Rc<Plan, Heap>, case: Case) -> Option<Device> {
    crashed(heap, stopped(heap, plan, case.0)?, case.1)
}

/// One more update is flushed after what was found, and then it is what a crash leaves: what was lost doesn't
/// come back.
fn goes_on(heap: Heap, open: OpenStore) -> bool {
    let mut open = open;
    let Ok((newest, base, records, base_records)) = open.found() else {
        return false;
    };
    let Ok(serial) = u8::try_from(newest.wrapping_add(1)) else {
        return false;
    };
    let is_entered = enter(heap, &mut open.store, &TINY, serial, tiny_text(serial, 3));
    let device = open.store.into_device().crash(Keep::These(&[]));
    let next = Ok((
        newest.wrapping_add(1),
        base,
        records.wrapping_add(1),
        base_records,
    ));
    is_entered && found_on(heap, device, &TINY) == next
}

/// What is found after the run, where it goes on.
fn first_found(heap: Heap, case: Case) -> Option<Found> {
    let plan = plan(heap)?;
    match opened(heap, left(heap, &plan, case)?, &TINY) {
        Ok(open) => {
            let found = open.found();
            if goes_on(heap, open) {
                Some(found)
            } else {
                None
            }
        }
        Err((_, error)) => Some(Err(error)),
    }
}

/// What is found where the opening is stopped once more, at its m-th operation, and its writes are kept or
/// lost.
fn second_found(heap: Heap, case: Case, m: u64, then: usize) -> Option<Found> {
    let plan = plan(heap)?;
    let device = left(heap, &plan, case)?;
    plan.stop_at(m);
    let (device, _) = look(heap, device, &TINY);
    plan.reset();
    Some(found_on(heap, crashed(heap, device, then)?, &TINY))
}

/// What may be found where the n-th operation is the last. The store is made by the blank root and a sync,
/// the twenty sectors after it and a sync, the root and a sync; opened by a sync, the root and a sync;
/// flushed by two bodies and a sync, three heads and a sync; the checkpoint is a part, four sectors of
/// entries and a sync, the root and a sync.
fn is_allowed(n: u64, found: Found) -> bool {
    match found {
        Err(OpenError::Blank) => n <= 25,
        Ok((1, 0, 3, 2)) => n <= 2 || (32..=35).contains(&n),
        Ok((0, 0, 2, 2)) => (24..=35).contains(&n),
        Ok((2, 0, 4, 2)) => (32..=35).contains(&n),
        Ok((3, 0, 3, 2)) => (32..=43).contains(&n),
        Ok((3, 1, 3, 3)) => n >= 42,
        _ => false,
    }
}

/// Whether an opening that is stopped leaves what was found. Of no store it is a sync alone.
fn stays(heap: Heap, case: Case, found: Found) -> bool {
    let stops = if found.is_err() { 1 } else { 6 };
    for (m, then) in [(1, 0), (2, 0), (2, 1), (3, 0), (3, 1), (4, 0)]
        .iter()
        .take(stops)
    {
        if second_found(heap, case, *m, *then) != Some(found) {
            return false;
        }
    }
    true
}

fn is_right(heap: Heap, case: Case) -> bool {
    match first_found(heap, case) {
        Some(found) => is_allowed(case.0, found) && stays(heap, case, found),
        None => false,
    }
}

/// How many choices there are where the n-th operation is the last.
fn choices_at(heap: Heap, n: u64) -> Option<usize> {
    let plan = plan(heap)?;
    Some(choices(stopped(heap, &plan, n)?.pending()))
}

/// How many cases there are where these operations are the last, or the first that is wrong.
fn count(heap: Heap, from: u64, until: u64) -> Result<u32, Case> {
    let mut cases = 0u32;
    for operation in from..until {
        for choice in 0..choices_at(heap, operation).unwrap_or(1) {
            let case = (operation, choice);
            if !is_right(heap, case) {
                return Err(case);
            }
            cases = cases.saturating_add(1);
        }
    }
    Ok(cases)
}

/// The first two leave the old store or a blank root. Of what is written after the root the first eight
/// writes have every sublist, and each of the twelve after them one kept alone, or lost alone, or all, or
/// none.
#[test]
fn format_stopped(rt: HostRuntime) -> Result<(), Fail> {
    let heap = heap(rt.alloc())?;
    assert_eq!(rt; count(heap, 1, 26), Ok(4 + 510 + 372 + 42 + 4));
    Ok(())
}

/// The opening and the flush; the checkpoint.
#[test]
fn opening_flush_and_checkpoint_stopped(rt: HostRuntime) -> Result<(), Fail> {
    let heap = heap(rt.alloc())?;
    assert_eq!(rt; count(heap, 26, 36), Ok(5 + 32));
    assert_eq!(rt; count(heap, 36, 45), Ok(98 + 1));
    Ok(())
}

/// Whether making a store and opening it, of which the n-th operation fails, fail; and what is found where
/// what failed is done again.
fn failed(heap: Heap, n: u64) -> Option<([bool; 2], Found)> {
    let plan = plan(heap)?;
    let mut device = blank(heap, TINY.sectors(), plan.clone().ok()?)?;
    plan.fail_at(n);
    let is_made = make(heap, &mut device, &TINY)? != Err(FormatError::Device);
    if !is_made {
        make(heap, &mut device, &TINY)?.ok()?;
    }
    let (device, found) = look(heap, device, &TINY);
    let is_opened = found != Err(OpenError::Device);
    plan.reset();
    Some(([!is_made, !is_opened], found_on(heap, device, &TINY)))
}

#[test]
fn making_and_opening_fail(rt: HostRuntime) -> Result<(), Fail> {
    let heap = heap(rt.alloc())?;
    for n in 1..30 {
        let fails = [n <= 25, (26..=28).contains(&n)];
        assert_eq!(rt;
            failed(heap, n),
            Some((fails, Ok((0, 0, 2, 2)))),
            "operation {n}"
        );
    }
    Ok(())
}

/// How often the store of a device was opened, as its root says: a number of eight octets after the first
/// four.
fn openings_in_root(device: &mut Device) -> Option<u64> {
    let root = read(device, 0)?;
    let mut octets = [0u8; 8];
    octets.copy_from_slice(&root[4..12]);
    Some(u64::from_be_bytes(octets))
}

/// The same of the example's store, which was opened once, when an opening was stopped after it wrote the
/// root, the write was kept or lost, and the store was opened again.
fn openings_after_stop(heap: Heap, choice: usize) -> Option<u64> {
    let plan = plan(heap)?;
    let device = made(heap, &EXAMPLE, plan.clone().ok()?)?;
    let (device, _) = look(heap, device, &EXAMPLE);
    plan.stop_at(2);
    let (device, _) = look(heap, device, &EXAMPLE);
    plan.reset();
    let (mut device, _) = look(heap, crashed(heap, device, choice)?, &EXAMPLE);
    openings_in_root(&mut device)
}

#[test]
fn the_root_after_an_opening_that_is_stopped(rt: HostRuntime) -> Result<(), Fail> {
    let heap = heap(rt.alloc())?;
    assert_eq!(rt; openings_after_stop(heap, 1), Some(3));
    assert_eq!(rt; openings_after_stop(heap, 0), Some(2));
    Ok(())
}
