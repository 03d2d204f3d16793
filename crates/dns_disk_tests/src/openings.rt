//! A primary that is opened over a store with one change, where one allocation is refused, or a call of the
//! device's file fails; and what is left of the device.
use crate::primary::{Device, in_file, open, shown_on};
use crate::stores::{TINY, entered, tiny_text};
use dns_fixtures::plan;
use dns_memory::{Heap, heap};
use dns_sectors::FileSectors;
use dns_store::OpenError;
use std::test::Fail;

/// The version of that store: its number, its serial, and three records.
const VERSION: (u64, u32, u64) = (1, 1, 3);

/// The device of the store, whose change takes two sectors, and of whose file the n-th call fails; 0 fails
/// none.
fn failing(heap: Heap, n: u64) -> Option<Device> {
    let mut device = entered(heap, &TINY, plan(heap)?, tiny_text(1, 500))?;
    let mut file = in_file(heap, &mut device)?.into_file();
    file.fail_at(n);
    FileSectors::over(file).ok()
}

/// Why an opening is refused of whose file the n-th call fails, or whose n-th allocation is refused, and the
/// version that is found on the device that is handed back; nothing where it isn't refused.
type Told = Option<(OpenError, Option<(u64, u32, u64)>)>;

fn told(heap: Heap, call: u64, allocation: u64) -> Option<Told> {
    match open(heap, failing(heap, call)?, &TINY, allocation)? {
        Ok(server) => {
            drop(server);
            Some(None)
        }
        Err(refused) => {
            let error = refused.error;
            let mut devices = refused.devices;
            Some(Some((error, shown_on(heap, devices.pop()?, &TINY))))
        }
    }
}

/// How many openings are refused for this, each of which leaves the device as it was.
fn refusals(heap: Heap, error: OpenError) -> Option<u64> {
    for n in 1..500 {
        let told = if error == OpenError::Device {
            told(heap, n, 0)?
        } else {
            told(heap, 0, n)?
        };
        match told {
            None => return Some(n - 1),
            Some(told) => {
                if told != (error, Some(VERSION)) {
                    return None;
                }
            }
        }
    }
    None
}

/// A sync; the root, a sector of a snapshot, two of an entry, and the sector after them are read; the root is
/// written, and a sync.
#[test]
fn each_call_fails(rt: HostRuntime) -> Result<(), Fail> {
    let heap = heap(rt.alloc())?;
    assert_eq!(rt; refusals(heap, OpenError::Device), Some(8));
    Ok(())
}

/// There are at least as many as records are read.
#[test]
fn each_allocation_refused(rt: HostRuntime) -> Result<(), Fail> {
    let heap = heap(rt.alloc())?;
    assert!(rt; refusals(heap, OpenError::OutOfMemory).unwrap_or(0) > 6);
    Ok(())
}
