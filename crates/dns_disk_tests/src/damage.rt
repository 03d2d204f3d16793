//! Stores of which one bit is turned: a sector that is read is named, and where none is, the store opens as
//! before.
use crate::damage::Kept::{Changed, Checkpointed, Tiny};
use crate::example::{EXAMPLE, changed, checkpointed};
use crate::stores::{Device, Found, Shape, TINY, entered, look, read, tiny_text, write};
use dns_fixtures::plan;
use dns_memory::{Heap, heap};
use dns_sectors::{Keep, Sectors};
use dns_store::OpenError;
use std::test::Fail;

/// A store: the tiny one with an entry of two sectors; the example with its change; and the example with a
/// checkpoint, whose base is in the second bank.
#[derive(Clone, Copy)]
enum Kept {
    Tiny,
    Changed,
    Checkpointed,
}

impl Kept {
    fn shape(self) -> Shape {
        match self {
            Tiny => TINY,
            _ => EXAMPLE,
        }
    }

    fn device(self, heap: Heap) -> Option<Device> {
        match self {
            Tiny => entered(heap, &TINY, plan(heap)?, tiny_text(1, 500)),
            Changed => changed(heap),
            Checkpointed => checkpointed(heap),
        }
    }
}

/// A store; its sectors that are read, up to the one at which the journal ends; of the others some that hold
/// nothing, and the bank that was left; and what it opens as.
const CASES: &[(Kept, &[usize], &[usize], Found)] = &[
    (
        Tiny,
        &[0, 1, 3, 4, 5],
        &[2, 6, 10, 11, 20],
        Ok((1, 0, 3, 2)),
    ),
    (
        Changed,
        &[0, 1, 9, 10],
        &[2, 8, 11, 24, 25, 33, 48],
        Ok((1, 0, 12, 11)),
    ),
    (
        Checkpointed,
        &[0, 25, 26, 33, 34, 35, 36, 37],
        &[1, 2, 9, 10, 11, 12, 13, 14, 27, 38, 48],
        Ok((5, 2, 16, 13)),
    ),
];

/// Turns a bit of a sector.
fn turn(device: &mut Device, at: usize, bit: usize) -> Option<()> {
    let mut sector = read(device, at)?;
    *sector.get_mut(bit / 8)? ^= 1 << (bit % 8);
    write(device, at, &sector)?;
    device.sync().ok()
}

/// Turns in turn each bit of a sector that is so many bits from the one before, and turns it back; the first
/// for which something else is found.
fn first_other(
    heap: Heap,
    kept: Kept,
    at: usize,
    apart: usize,
    due: Found,
) -> Option<Option<usize>> {
    let shape = kept.shape();
    let mut device = kept.device(heap)?;
    for i in 0..4096usize {
        let bit = i.saturating_mul(apart);
        if bit >= 4096 {
            break;
        }
        turn(&mut device, at, bit)?;
        let (left, found) = look(heap, device, &shape);
        device = left.crash(Keep::These(&[]));
        if found != due {
            return Some(Some(bit));
        }
        turn(&mut device, at, bit)?;
    }
    Some(None)
}

/// The first of the sectors of a store that are read, and of the bits of each, for which something else is
/// said than that it is damaged.
fn first_missed(heap: Heap, case: usize) -> Option<Option<(usize, usize)>> {
    let Some((kept, sectors, _, _)) = CASES.get(case) else {
        return None;
    };
    for at in *sectors {
        let due = Err(OpenError::Damaged(*at));
        if let Some(bit) = first_other(heap, *kept, *at, 1, due)? {
            return Some(Some((*at, bit)));
        }
    }
    Some(None)
}

#[test]
fn an_entry_of_two_sectors(rt: HostRuntime) -> Result<(), Fail> {
    let heap = heap(rt.alloc())?;
    assert_eq!(rt; first_missed(heap, 0), Some(None));
    Ok(())
}

#[test]
fn the_example_with_its_change(rt: HostRuntime) -> Result<(), Fail> {
    let heap = heap(rt.alloc())?;
    assert_eq!(rt; first_missed(heap, 1), Some(None));
    Ok(())
}

#[test]
fn the_example_with_a_checkpoint(rt: HostRuntime) -> Result<(), Fail> {
    let heap = heap(rt.alloc())?;
    assert_eq!(rt; first_missed(heap, 2), Some(None));
    Ok(())
}

/// Every 61st bit of those that are not read.
#[test]
fn sectors_that_are_not_read(rt: HostRuntime) -> Result<(), Fail> {
    let heap = heap(rt.alloc())?;
    for (kept, _, sectors, due) in CASES {
        for at in *sectors {
            assert_eq!(rt;
                first_other(heap, *kept, *at, 61, *due),
                Some(None),
                "sector {at}"
            );
        }
    }
    Ok(())
}
