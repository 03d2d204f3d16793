//! A store whose root says that the other bank may hold what format 1 left there: that bank is cleared when
//! the store is opened.
use crate::stores::{Device, TINY, entered, look, read, tiny_text, write};
use dns_fixtures::{choices, crashed, plan};
use dns_layout::{Format, Root};
use dns_memory::{Heap, heap};
use dns_sectors::{Keep, Plan, Sectors};
use std::rc::Rc;
use std::test::Fail;

/// Puts heads of format 1 of many openings into each sector of the other bank, and a root that says so.
fn spoil(device: &mut Device) -> Option<()> {
    let mut head = [7; 512];
    head[..4].copy_from_slice(b"DPH1");
    for at in 11..device.len() {
        write(device, at, &head)?;
    }
    let mut root = Root::decode(Format::Two, &read(device, 0)?).ok()?;
    root.is_clear = false;
    write(device, 0, &root.encode())?;
    device.sync().ok()
}

/// A device with the store of version 1, and that bank.
fn spoiled(heap: Heap, plan: Rc<Plan, Heap>) -> Option<Device> {
    let mut device = entered(heap, &TINY, plan, tiny_text(1, 20))?;
    spoil(&mut device)?;
    Some(device.crash(Keep::These(&[])))
}

/// The device whose opening had its n-th operation as the last; 0 stops none.
fn stopped(heap: Heap, n: u64) -> Option<Device> {
    let plan = plan(heap)?;
    let device = spoiled(heap, plan.clone().ok()?)?;
    plan.stop_at(n);
    let (left, _) = look(heap, device, &TINY);
    plan.reset();
    Some(left)
}

/// Whether a device opens as version 1, its root says that the other bank is clear then, and it is.
fn is_cleared(heap: Heap, device: Device) -> Option<bool> {
    let (mut device, found) = look(heap, device, &TINY);
    let root = Root::decode(Format::Two, &read(&mut device, 0)?).ok()?;
    for at in 11..device.len() {
        if read(&mut device, at) != Some([0; 512]) {
            return Some(false);
        }
    }
    Some(root.is_clear && found == Ok((1, 0, 3, 2)))
}

/// How many writes and syncs opening that store makes: a sync, ten zeros, a sync, the root, and a sync.
const OPERATIONS: u64 = 14;

/// How many cases there are, or the first in which something else is found.
fn count(heap: Heap) -> Option<Result<u32, (u64, usize)>> {
    let mut cases = 0u32;
    for n in 1..OPERATIONS + 1 {
        for choice in 0..choices(stopped(heap, n)?.pending()) {
            let device = crashed(heap, stopped(heap, n)?, choice)?;
            if is_cleared(heap, device) != Some(true) {
                return Some(Err((n, choice)));
            }
            cases = cases.saturating_add(1);
        }
    }
    Some(Ok(cases))
}

/// Each sublist of up to eight zeros, and of nine and ten, twice, one kept alone, or lost alone, or all, or
/// none; then the root.
#[test]
fn clearing_is_stopped(rt: HostRuntime) -> Result<(), Fail> {
    let heap = heap(rt.alloc())?;
    assert_eq!(rt; count(heap), Some(Ok(1 + 510 + 20 + 22 + 22 + 2 + 2)));
    assert_eq!(rt;
        stopped(heap, OPERATIONS + 1).map(|device| device.pending()),
        Some(0)
    );
    Ok(())
}
