//! Devices in memory, and the crashes that are tried of each: of up to eight pending writes every part is
//! kept once, above that none, all, each alone, and all but each.
use dns_memory::Heap;
use dns_sectors::{Keep, MemorySectors, Plan};
use std::rc::Rc;

/// A plan by which nothing fails.
pub fn plan(heap: Heap) -> Option<Rc<Plan, Heap>> {
    Rc::new(heap, Plan::new()).ok()
}

/// A device of so many zeros, with room for 128 writes and syncs between two crashes.
pub fn blank(heap: Heap, sectors: usize, plan: Rc<Plan, Heap>) -> Option<MemorySectors> {
    MemorySectors::new(heap, sectors, 128, plan).ok()
}

/// How many crashes are tried with so many pending writes.
pub fn choices(pending: usize) -> usize {
    if pending <= 8 {
        1 << pending
    } else {
        pending.saturating_mul(2).saturating_add(2)
    }
}

/// Whether a choice keeps the i-th of the pending writes. Above eight the first choices keep one alone, the
/// next all but one, and the last two none and all.
fn is_kept(pending: usize, choice: usize, i: usize) -> bool {
    if pending <= 8 {
        choice >> (i % 16) & 1 == 1
    } else if choice < pending {
        choice == i
    } else if choice - pending < pending {
        choice - pending != i
    } else {
        choice - pending > pending
    }
}

/// The numbers of the pending writes that a choice keeps.
fn kept(heap: Heap, pending: usize, choice: usize) -> Option<Vec<u64, Heap>> {
    let mut numbers = Vec::new(heap);
    for i in 0..pending {
        if is_kept(pending, choice, i) {
            numbers.push((i as u64).saturating_add(1)).ok()?;
        }
    }
    Some(numbers)
}

/// The device that a crash leaves which keeps this choice.
pub fn crashed(heap: Heap, device: MemorySectors, choice: usize) -> Option<MemorySectors> {
    let numbers = kept(heap, device.pending(), choice)?;
    Some(device.crash(Keep::These(&numbers)))
}
