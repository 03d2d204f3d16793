//! Migrating is stopped at each of its operations, done again after that, and stopped in that too.
use crate::example::EXAMPLE;
use crate::migration::{MIGRATED, Told, UPDATED, migrated};
use crate::old_format::updated;
use crate::stores::{Device, Found, opened};
use dns_fixtures::{choices, crashed, plan};
use dns_memory::{Heap, heap};
use dns_sectors::{Keep, Plan};
use dns_store::{MigrateError, Migration};
use std::rc::Rc;
use std::test::Fail;

/// The operation that was the last, and which of the pending writes were kept.
type Case = (u64, usize);

/// What migrating a device answers whose n-th operation is the last.
fn stop(heap: Heap, plan: &Plan, device: &mut Device, n: u64) -> Option<Told> {
    plan.stop_at(n);
    let told = migrated(heap, device, &EXAMPLE);
    plan.reset();
    told
}

/// The device of the example with its change, whose migrating had its n-th operation as the last; none where
/// it was done before.
fn stopped(heap: Heap, plan: &Rc<Plan, Heap>, n: u64) -> Option<Device> {
    let mut device = updated(heap, plan.clone().ok()?, 1)?;
    if stop(heap, plan, &mut device, n)? == Err(MigrateError::Device) {
        Some(device)
    } else {
        None
    }
}

/// What is pending after that.
fn pending(heap: Heap, n: u64) -> Option<usize> {
    let plan = plan(heap)?;
    Some(stopped(heap, &plan, n)?.pending())
}

/// What migrating answers after that where its m-th operation is the last, and these of its writes are kept;
/// what it answers then, what the device opens as, and the serial.
fn found(heap: Heap, case: Case, m: u64, keep: Keep<'_>) -> Option<(Told, Told, Found, u32)> {
    let plan = plan(heap)?;
    let mut device = crashed(heap, stopped(heap, &plan, case.0)?, case.1)?;
    let told = stop(heap, &plan, &mut device, m)?;
    let mut device = device.crash(keep);
    let again = migrated(heap, &mut device, &EXAMPLE)?;
    let open = opened(heap, device, &EXAMPLE).ok()?;
    Some((told, again, open.found(), open.serial))
}

/// What migrating answers after that: the root of format 2 is the 27th operation, and is durable after the
/// 28th.
fn answer(case: Case) -> Migration {
    let (operation, choice) = case;
    if operation > 28 || (operation > 26 && choice == 1) {
        Migration::Already
    } else {
        MIGRATED
    }
}

/// Whether migrating does the rest where the second run is stopped too, at each of its operations, and its
/// writes are lost or kept. Where the root is turned, that run is a sync alone.
fn is_taken_up(heap: Heap, case: Case) -> bool {
    let last = if case.0 > 28 { 1 } else { 55 };
    for m in 1..=last {
        for keep in [Keep::These(&[]), Keep::All] {
            match found(heap, case, m, keep) {
                Some((_, Ok(_), opened, 8)) if opened == UPDATED => {}
                _ => return false,
            }
        }
    }
    true
}

/// Whether migrating does the rest after a stop; where the first part of what may be kept is, also where it
/// is stopped again.
fn is_right(heap: Heap, case: Case) -> bool {
    let done = (Ok(answer(case)), Ok(Migration::Already), UPDATED, 8);
    found(heap, case, 0, Keep::All) == Some(done) && (case.1 > 0 || is_taken_up(heap, case))
}

/// How many cases there are where these operations are the last, or the first that is wrong.
fn count(heap: Heap, from: u64, until: u64) -> Option<Result<u32, Case>> {
    let mut cases = 0u32;
    for operation in from..until {
        for choice in 0..choices(pending(heap, operation)?) {
            if !is_right(heap, (operation, choice)) {
                return Some(Err((operation, choice)));
            }
            cases = cases.saturating_add(1);
        }
    }
    Some(Ok(cases))
}

/// A sync, the sectors of the other bank and a sync, the root and a sync. Of the sectors the first eight have
/// every sublist, and each of the sixteen after them one kept alone, or lost alone, or all, or none.
#[test]
fn turning_stopped(rt: HostRuntime) -> Result<(), Fail> {
    let heap = heap(rt.alloc())?;
    assert_eq!(rt; count(heap, 1, 29), Some(Ok(1 + 510 + 560 + 50 + 4)));
    Ok(())
}

/// The sectors of the old bank and a sync, the root and a sync: the 55th is the last.
#[test]
fn clearing_stopped(rt: HostRuntime) -> Result<(), Fail> {
    let heap = heap(rt.alloc())?;
    assert_eq!(rt; count(heap, 29, 56), Some(Ok(510 + 560 + 50 + 4)));
    assert_eq!(rt; pending(heap, 56), None);
    Ok(())
}
