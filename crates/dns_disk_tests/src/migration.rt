//! A store of format 1 is migrated to format 2; what is refused; and each growth of it refused.
use crate::example::{CLEAR_2, ENTRY, EXAMPLE, ROOT, Sealed, ZONE, fill, first_other, sector_of};
use crate::old_format::{is_updated, updated, with_checkpoint};
use crate::primary::{in_file, replies, serving};
use crate::stores::{Device, Found, Shape, found_on, read, write};
use dns_fixtures::{blank, name, plan};
use dns_memory::{Heap, heap};
use dns_sectors::{Keep, Sectors};
use dns_store::{MigrateError, Migration, migrate};
use dns_zone::RecordList;
use std::test::Fail;

/// What migrating a store answers.
pub(crate) type Told = Result<Migration, MigrateError>;

/// What migrating the example with its change answers, and what it opens as: one TXT record more than in the
/// base.
pub(crate) const MIGRATED: Migration = Migration::Migrated {
    version: 1,
    serial: 8,
};

pub(crate) const UPDATED: Found = Ok((1, 0, 12, 11));

/// Migrates a store.
pub(crate) fn migrated(heap: Heap, device: &mut Device, shape: &Shape) -> Option<Told> {
    let apex = name(heap, shape.apex)?;
    Some(migrate::<Device, RecordList>(heap, device, &apex, shape.snapshot, shape.journal))
}

/// The sectors of the example that are not zeros after it was migrated, with digests by another program. They
/// are in bank 1, and the store was opened twice.
const SECTORS: [Sealed; 3] = [
    Sealed {
        at: 0,
        head: b"DPR2\0\0\0\0\0\0\0\x02\0\0\0\0\0\0\0\0\0\0\0\x01\0\0\0\0\0\0\0\x02\
\0\0\0\0\0\0\x01\xda\0\0\0\x08\0\0\0\x10\x01\x07example\0",
        rest: b"",
        digest: [0x60, 0x95, 0xdb, 0xd5, 0x81, 0x8f, 0x28, 0xdc],
    },
    Sealed {
        at: 25,
        head: b"DPS2\0\0\0\0\0\0\0\x02\0\0\0\0\0\0\0\0\0\0\0\0",
        rest: ZONE,
        digest: [0x53, 0x7f, 0xc9, 0xfc, 0x1f, 0xbe, 0x12, 0xfa],
    },
    Sealed {
        at: 33,
        head: b"DPH2\0\0\0\0\0\0\0\x02\0\0\0\0\0\0\0\x01\0\0\0\0\0\0\0\xaf",
        rest: ENTRY,
        digest: [0x3d, 0x4a, 0x36, 0x03, 0x70, 0xcf, 0xde, 0x14],
    },
];

/// What migrating the example answers, the first sector of it that is wrong after a crash; what it answers
/// the second time, what is pending then, the first sector that is wrong, and what it opens as.
fn twice(heap: Heap) -> Option<((Told, Option<usize>), (Told, usize, Option<usize>), Found)> {
    let mut device = updated(heap, plan(heap)?, 1)?;
    let told = migrated(heap, &mut device, &EXAMPLE)?;
    let mut device = device.crash(Keep::These(&[]));
    let first = (told, first_other(&mut device, &SECTORS));
    let told = migrated(heap, &mut device, &EXAMPLE)?;
    let again = (told, device.pending(), first_other(&mut device, &SECTORS));
    Some((first, again, found_on(heap, device, &EXAMPLE)))
}

/// What migrating the device with a checkpoint answers, and what it opens as.
fn with_later_base(heap: Heap) -> Option<(Told, Found)> {
    let mut device = with_checkpoint(heap)?;
    let told = migrated(heap, &mut device, &EXAMPLE)?;
    Some((told, found_on(heap, device, &EXAMPLE)))
}

#[test]
fn migrated_once_and_again(rt: HostRuntime) -> Result<(), Fail> {
    let heap = heap(rt.alloc())?;
    let already = (Ok(Migration::Already), 0, None);
    assert_eq!(rt; twice(heap), Some(((Ok(MIGRATED), None), already, UPDATED)));
    let told = Ok(Migration::Migrated {
        version: 5,
        serial: 12,
    });
    assert_eq!(rt; with_later_base(heap), Some((told, Ok((5, 2, 16, 13)))));
    Ok(())
}

/// A request for the changes since serial 7 (RFC 1995), and the reply, as the model of the random runs has
/// it: the one change.
const SINCE_7: &[u8] = b"\0\x0c\0\0\0\x01\0\0\0\x01\0\0\x07example\0\0\xfb\0\x01\
\xc0\x0c\0\x06\0\x01\0\0\0\0\0\x16\0\0\0\0\0\x07\0\0\0\0\0\0\0\0\0\0\0\0\0\0\0\0";

const CHANGE: &str =
    "000c84000001000500000000076578616d706c650000fb0001c00c0006000100000e100031026e7307\
6578616d706c6503636f6d000a686f73746d6173746572c00c0000000800001c2000000384001275000000012cc00c000600\
0100000e100018c025c0350000000700001c2000000384001275000000012cc00c0006000100000e100018c025c035000000\
0800001c2000000384001275000000012c0174c00c001000010000003c00020178c00c0006000100000e100018c025c03500\
00000800001c2000000384001275000000012c";

/// Whether the example that was migrated is transferred by its change.
fn is_incremental(heap: Heap) -> Option<bool> {
    let mut device = updated(heap, plan(heap)?, 1)?;
    migrated(heap, &mut device, &EXAMPLE)?.ok()?;
    let mut server = serving(heap, in_file(heap, &mut device)?, &EXAMPLE)?;
    Some(replies(heap, &mut server, SINCE_7, CHANGE))
}

#[test]
fn changes_after_migrating(rt: HostRuntime) -> Result<(), Fail> {
    let heap = heap(rt.alloc())?;
    assert_eq!(rt; is_incremental(heap), Some(true));
    Ok(())
}

/// What is said of a device, and how many writes are pending then.
fn told_of(heap: Heap, device: Device) -> Option<(Told, usize)> {
    let mut device = device;
    let told = migrated(heap, &mut device, &EXAMPLE)?;
    Some((told, device.pending()))
}

/// What is said of so many sectors of zeros but the first, which has these octets and then one octet
/// throughout.
fn told_of_first(heap: Heap, sectors: usize, front: &[u8], rest: u8) -> Option<(Told, usize)> {
    let mut device = blank(heap, sectors, plan(heap)?)?;
    let mut sector = [rest; 512];
    fill(&mut sector, 0, front);
    if sectors > 0 {
        write(&mut device, 0, &sector)?;
    }
    told_of(heap, device.crash(Keep::All))
}

/// The root of another zone, and one with other sizes.
const OTHER: &[u8] = b"DPR1\0\0\0\0\0\0\0\x01\0\0\0\0\0\0\0\0\0\0\0\0\0\0\0\0\0\0\0\0\
\0\0\0\0\0\0\x01\xda\0\0\0\x08\0\0\0\x10\x07examplf\0";

const SIZES: &[u8] = b"DPR1\0\0\0\0\0\0\0\x01\0\0\0\0\0\0\0\0\0\0\0\0\0\0\0\0\0\0\0\0\
\0\0\0\0\0\0\x01\xda\0\0\0\x09\0\0\0\x0f\x07example\0";

/// No sectors, zeros, and noise; a root with too few sectors after it; what has a root's tag in format 2 is
/// said to be migrated.
#[test]
fn no_store_of_format_1(rt: HostRuntime) -> Result<(), Fail> {
    let heap = heap(rt.alloc())?;
    let none: &[u8] = b"";
    for (sectors, front, rest, said) in [
        (0, none, 0, Err(MigrateError::Geometry)),
        (1, none, 0, Err(MigrateError::Blank)),
        (49, none, 0, Err(MigrateError::Blank)),
        (49, none, 7, Err(MigrateError::Damaged(0))),
        (49, b"DPR1", 7, Err(MigrateError::Damaged(0))),
        (49, b"DPR3", 0, Err(MigrateError::Damaged(0))),
        (49, b"DPR2", 7, Ok(Migration::Already)),
        (49, &sector_of(&CLEAR_2), 0, Ok(Migration::Already)),
        (1, ROOT, 0, Err(MigrateError::Geometry)),
        (48, ROOT, 0, Err(MigrateError::Geometry)),
        (49, OTHER, 0, Err(MigrateError::Geometry)),
        (49, SIZES, 0, Err(MigrateError::Geometry)),
        (49, ROOT, 0, Err(MigrateError::Damaged(1))),
    ] {
        assert_eq!(rt; told_of_first(heap, sectors, front, rest), Some((said, 0)));
    }
    Ok(())
}

/// What is said of the example where an octet of a sector is another.
fn told_of_turned(heap: Heap, at: usize, octet: usize) -> Option<(Told, usize)> {
    let mut device = updated(heap, plan(heap)?, 1)?;
    let mut sector = read(&mut device, at)?;
    *sector.get_mut(octet)? ^= 1;
    write(&mut device, at, &sector)?;
    told_of(heap, device.crash(Keep::All))
}

/// The bank in the root, and the zeros after the name; a part's base, and its octets, which are no zone's
/// then; a head whose entry can't be applied.
#[test]
fn damaged(rt: HostRuntime) -> Result<(), Fail> {
    let heap = heap(rt.alloc())?;
    for (at, octet) in [(0, 22), (0, 511), (1, 19), (1, 25), (9, 60)] {
        let told = told_of_turned(heap, at, octet);
        assert_eq!(rt;
            told,
            Some((Err(MigrateError::Damaged(at)), 0)),
            "octet {octet} of sector {at}"
        );
    }
    Ok(())
}

/// What is said of the example after it was opened so often.
fn told_of_count(heap: Heap, open_count: u64) -> Option<(Told, usize)> {
    told_of(heap, updated(heap, plan(heap)?, open_count)?)
}

#[test]
fn the_last_count(rt: HostRuntime) -> Result<(), Fail> {
    let heap = heap(rt.alloc())?;
    assert_eq!(rt; told_of_count(heap, u64::MAX - 1), Some((Ok(MIGRATED), 0)));
    assert_eq!(rt;
        told_of_count(heap, u64::MAX),
        Some((Err(MigrateError::Damaged(0)), 0))
    );
    Ok(())
}

/// How many growths migrating the example makes, each of which is refused in turn, with nothing written.
fn growths(heap: Heap) -> Option<u64> {
    let apex = name(heap, EXAMPLE.apex)?;
    for n in 1..10000 {
        let mut device = updated(heap, plan(heap)?, 1)?;
        heap.refuse(n);
        let told = migrate::<Device, RecordList>(heap, &mut device, &apex, 8, 16);
        heap.refuse(0);
        if told == Ok(MIGRATED) {
            return Some(n - 1);
        }
        if told != Err(MigrateError::OutOfMemory) || !is_updated(heap, &mut device)? {
            return None;
        }
    }
    None
}

/// There are at least as many as records are read.
#[test]
fn each_growth_refused(rt: HostRuntime) -> Result<(), Fail> {
    let heap = heap(rt.alloc())?;
    assert!(rt; growths(heap).unwrap_or(0) > 12);
    Ok(())
}
