//! The zone of RFC 4592 section 2.2.1 in a store with eight sectors for a snapshot and sixteen for a journal:
//! its sectors and whole devices to the octet, as another program writes them.
use crate::stores::{
    Device, Found, Shape, Store, Text, enter, found_on, made, opened, read, stage, write,
};
use dns_changes::{Change, PreparedEntry};
use dns_fixtures::{blank, octets, plan, zone};
use dns_layout::{Format, is_intact};
use dns_memory::{Heap, heap};
use dns_sectors::{Keep, Sector, Sectors};
use dns_store::{FormatError, OpenError, ZoneStore, format};
use sha2::{Digest, Sha256};
use std::test::Fail;

pub(crate) const EXAMPLE: Shape = Shape {
    apex: "example.",
    file: "$TTL 3600
@ SOA ns.example.com. hostmaster 7 7200 900 1209600 300
@ NS ns.example.com.
@ NS ns.example.net.
* MX 10 host1
* TXT \"this is a wildcard\"
sub.* TXT \"this is not a wildcard\"
host1 A 192.0.2.1
_ssh._tcp.host1 SRV 0 0 22 host1
_ssh._tcp.host2 SRV 0 0 22 host2
subdel NS ns.example.com.
subdel NS ns.example.net.
",
    zone: ZONE,
    soa: (66, 139),
    snapshot: 8,
    journal: 16,
};

/// Its records in plain form, in the order of a snapshot.
pub(crate) const ZONE: &[u8] = b"\x07example\0\0\x02\0\0\x0e\x10\0\x10\x02ns\x07example\x03com\0\
\x07example\0\0\x02\0\0\x0e\x10\0\x10\x02ns\x07example\x03net\0\
\x07example\0\0\x06\0\0\x0e\x10\0\x38\x02ns\x07example\x03com\0\x0ahostmaster\x07example\0\
\0\0\0\x07\0\0\x1c\x20\0\0\x03\x84\0\x12\x75\0\0\0\x01\x2c\
\x01*\x07example\0\0\x0f\0\0\x0e\x10\0\x11\0\x0a\x05host1\x07example\0\
\x01*\x07example\0\0\x10\0\0\x0e\x10\0\x13\x12this is a wildcard\
\x03sub\x01*\x07example\0\0\x10\0\0\x0e\x10\0\x17\x16this is not a wildcard\
\x05host1\x07example\0\0\x01\0\0\x0e\x10\0\x04\xc0\0\x02\x01\
\x04_ssh\x04_tcp\x05host1\x07example\0\0\x21\0\0\x0e\x10\0\x15\0\0\0\0\0\x16\x05host1\x07example\0\
\x04_ssh\x04_tcp\x05host2\x07example\0\0\x21\0\0\x0e\x10\0\x15\0\0\0\0\0\x16\x05host2\x07example\0\
\x06subdel\x07example\0\0\x02\0\0\x0e\x10\0\x10\x02ns\x07example\x03com\0\
\x06subdel\x07example\0\0\x02\0\0\x0e\x10\0\x10\x02ns\x07example\x03net\0";

/// The entry of the change that adds a text of one octet at t.example: the serial goes from 7 to 8.
pub(crate) const ENTRY: &[u8] =
    b"\x07example\0\0\x06\0\0\x0e\x10\0\x38\x02ns\x07example\x03com\0\x0ahostmaster\x07example\0\
\0\0\0\x07\0\0\x1c\x20\0\0\x03\x84\0\x12\x75\0\0\0\x01\x2c\
\x07example\0\0\x06\0\0\x0e\x10\0\x38\x02ns\x07example\x03com\0\x0ahostmaster\x07example\0\
\0\0\0\x08\0\0\x1c\x20\0\0\x03\x84\0\x12\x75\0\0\0\x01\x2c\
\0\0\0\0\0\0\0\x01\x01t\x07example\0\0\x10\0\0\0\x3c\0\x02\x01x";

/// A sector by its first numbers, the octets after them, and its digest; between these are zeros.
#[derive(Clone, Copy)]
pub(crate) struct Sealed {
    pub(crate) at: usize,
    pub(crate) head: &'static [u8],
    pub(crate) rest: &'static [u8],
    pub(crate) digest: [u8; 8],
}

/// The sectors of the new store that are not zeros, as another program writes them: the root and the one
/// part.
const FORMATTED: [Sealed; 2] = [
    Sealed {
        at: 0,
        head: b"DPR2\0\0\0\0\0\0\0\0\0\0\0\0\0\0\0\0\0\0\0\0\0\0\0\0\0\0\0\0\
\0\0\0\0\0\0\x01\xda\0\0\0\x08\0\0\0\x10\x01\x07example\0",
        rest: b"",
        digest: [0x6d, 0x41, 0xa3, 0xd1, 0xce, 0xa8, 0x5b, 0x0f],
    },
    PART,
];

const PART: Sealed = Sealed {
    at: 1,
    head: b"DPS2\0\0\0\0\0\0\0\0\0\0\0\0\0\0\0\0\0\0\0\0",
    rest: ZONE,
    digest: [0x35, 0x3b, 0xeb, 0x8d, 0xe6, 0x8b, 0xd1, 0x55],
};

/// The sectors of the store that are not zeros after it was opened and that change flushed, as another
/// program writes them.
const UPDATED: [Sealed; 3] = [
    Sealed {
        at: 0,
        head: b"DPR2\0\0\0\0\0\0\0\x01\0\0\0\0\0\0\0\0\0\0\0\0\0\0\0\0\0\0\0\0\
\0\0\0\0\0\0\x01\xda\0\0\0\x08\0\0\0\x10\x01\x07example\0",
        rest: b"",
        digest: [0xbf, 0xa5, 0x98, 0x7b, 0xd5, 0x6a, 0x1f, 0x59],
    },
    PART,
    Sealed {
        at: 9,
        head: b"DPH2\0\0\0\0\0\0\0\x01\0\0\0\0\0\0\0\x01\0\0\0\0\0\0\0\xaf",
        rest: ENTRY,
        digest: [0x4a, 0x3e, 0xb3, 0x0f, 0xa0, 0xfa, 0xc5, 0xf3],
    },
];

/// The root of the new store but for the octet on the other bank, which is neither 0 nor 1.
pub(crate) const CLEAR_2: Sealed = Sealed {
    at: 0,
    head: b"DPR2\0\0\0\0\0\0\0\0\0\0\0\0\0\0\0\0\0\0\0\0\0\0\0\0\0\0\0\0\
\0\0\0\0\0\0\x01\xda\0\0\0\x08\0\0\0\x10\x02\x07example\0",
    rest: b"",
    digest: [0xe9, 0x89, 0x6b, 0x3a, 0xd8, 0x24, 0x10, 0xfb],
};

/// The root of the example in format 1.
pub(crate) const ROOT: &[u8] = b"DPR1\0\0\0\0\0\0\0\x01\0\0\0\0\0\0\0\0\0\0\0\0\0\0\0\0\0\0\0\0\
\0\0\0\0\0\0\x01\xda\0\0\0\x08\0\0\0\x10\x07example\0";

/// Puts the octets into a sector from a place on; those that go beyond its end are left out.
pub(crate) fn fill(sector: &mut Sector, from: usize, octets: &[u8]) {
    for (i, octet) in octets.iter().enumerate() {
        if let Some(position) = sector.get_mut(from.saturating_add(i)) {
            *position = *octet;
        }
    }
}

/// The sector that this describes.
pub(crate) fn sector_of(sector: &Sealed) -> Sector {
    let mut octets = [0; 512];
    fill(&mut octets, 0, sector.head);
    fill(&mut octets, sector.head.len(), sector.rest);
    fill(&mut octets, 504, &sector.digest);
    octets
}

/// The sector there: one of these, or zeros.
fn expected(at: usize, sectors: &[Sealed]) -> Sector {
    for sector in sectors {
        if sector.at == at {
            return sector_of(sector);
        }
    }
    [0; 512]
}

/// The first sector of the device that is another than one of these or zeros.
pub(crate) fn first_other(device: &mut Device, sectors: &[Sealed]) -> Option<usize> {
    for at in 0..device.len() {
        if read(device, at) != Some(expected(at, sectors)) {
            return Some(at);
        }
    }
    None
}

/// The store of the example, opened once.
fn fresh(heap: Heap) -> Option<Store> {
    let open = opened(heap, made(heap, &EXAMPLE, plan(heap)?)?, &EXAMPLE).ok()?;
    Some(open.store)
}

/// The device of the store with the change, all of it durable.
pub(crate) fn changed(heap: Heap) -> Option<Device> {
    let mut store = fresh(heap)?;
    let change = Change::decode(heap, ENTRY).ok()?;
    store.stage(PreparedEntry::new(heap, change).ok()?).ok()?;
    store.flush().ok()?;
    Some(store.into_device().crash(Keep::These(&[])))
}

/// The first sectors that are wrong of the store that was made, and of the one with the change.
fn first_wrong(heap: Heap) -> Option<(Option<usize>, Option<usize>)> {
    let mut device = made(heap, &EXAMPLE, plan(heap)?)?;
    let formatted = first_other(&mut device, &FORMATTED);
    let mut device = changed(heap)?;
    Some((formatted, first_other(&mut device, &UPDATED)))
}

#[test]
fn sectors(rt: HostRuntime) -> Result<(), Fail> {
    let heap = heap(rt.alloc())?;
    assert_eq!(rt; first_wrong(heap), Some((None, None)));
    Ok(())
}

/// The text of so many octets that comes with the version of this serial at a name with a digit.
pub(crate) const TEXTS: [(u8, Text); 5] = [
    (8, Text(b"\x02t1\x07example\0", b'b', 111)),
    (9, Text(b"\x02t2\x07example\0", b'c', 201)),
    (10, Text(b"\x02t3\x07example\0", b'd', 292)),
    (11, Text(b"\x02t4\x07example\0", b'e', 382)),
    (12, Text(b"\x02t6\x07example\0", b'g', 6)),
];

/// The SHA-256 of all octets of a device (FIPS 180-4).
pub(crate) fn sum(device: &mut Device) -> Option<[u8; 32]> {
    let mut hasher = Sha256::new();
    for at in 0..device.len() {
        hasher.update(read(device, at)?.as_slice());
    }
    let mut sum = [0; 32];
    sum.copy_from_slice(&hasher.finalize());
    Some(sum)
}

/// Whether that is the one with these digits.
pub(crate) fn has_sum(heap: Heap, device: &mut Device, digits: &str) -> Option<bool> {
    Some(sum(device)?.as_slice() == octets(heap, digits)?.as_slice())
}

/// Four updates with a flush each, a checkpoint that keeps two, and one update more.
fn update(heap: Heap, store: &mut Store) -> Option<()> {
    for (serial, text) in TEXTS {
        if serial == 12 {
            store.checkpoint(2, 0).ok()?;
        }
        if !enter(heap, store, &EXAMPLE, serial, text) {
            return None;
        }
    }
    Some(())
}

/// The device after that, all of it durable.
pub(crate) fn checkpointed(heap: Heap) -> Option<Device> {
    let mut store = fresh(heap)?;
    let updated = update(heap, &mut store);
    let device = store.into_device().crash(Keep::These(&[]));
    if updated.is_some() {
        Some(device)
    } else {
        None
    }
}

/// Whether the whole device is right.
fn is_right(heap: Heap) -> Option<bool> {
    let mut device = checkpointed(heap)?;
    let digits = "aa456785601a22e8530faa874f71f7f608ba38e2f85f3d16529928224c5ed195";
    has_sum(heap, &mut device, digits)
}

#[test]
fn a_device_with_a_checkpoint(rt: HostRuntime) -> Result<(), Fail> {
    let heap = heap(rt.alloc())?;
    assert_eq!(rt; is_right(heap), Some(true));
    Ok(())
}

/// How many sectors are left after an entry whose text has so many octets of data.
fn left(heap: Heap, size: usize) -> Option<usize> {
    let mut store = fresh(heap)?;
    let text = Text(b"\x01t\x07example\0", b'a', size);
    if stage(heap, &mut store, &EXAMPLE, 8, text, false) == Some(true) && store.flush().is_ok() {
        Some(store.left())
    } else {
        None
    }
}

/// An entry of 476 octets is one sector, and one of 477 two; with 480 octets more it is three.
#[test]
fn entries(rt: HostRuntime) -> Result<(), Fail> {
    let heap = heap(rt.alloc())?;
    for (size, sectors) in [(303, 15), (304, 14), (783, 14), (784, 13)] {
        assert_eq!(rt; left(heap, size), Some(sectors), "{size} octets");
    }
    Ok(())
}

/// The digests of 504 zeros at two places (FIPS 180-4): a sector of another place is not its own.
#[test]
fn digests(rt: HostRuntime) {
    for (at, another, digest) in [
        (0, 9, b"\x07\x6a\x27\xc7\x9e\x5a\xce\x2a"),
        (9, 0, b"\xfd\x1a\xca\xc5\xf8\x5b\x21\x85"),
    ] {
        let mut sector = [0; 512];
        fill(&mut sector, 504, digest);
        let is_own = is_intact(Format::Two, at, &sector);
        let is_of_another = is_intact(Format::Two, another, &sector);
        assert_eq!(rt; (is_own, is_of_another), (true, false), "place {at}");
    }
}

/// What so many sectors open as that are zeros but the first, which has these octets.
fn found_of(heap: Heap, sectors: usize, front: &[u8]) -> Option<Found> {
    let mut device = blank(heap, sectors, plan(heap)?)?;
    if sectors > 0 {
        let mut sector = [0; 512];
        fill(&mut sector, 0, front);
        write(&mut device, 0, &sector)?;
    }
    Some(found_on(heap, device, &EXAMPLE))
}

/// No sectors, zeros and noise; the root of the new store with too few sectors after it, or with zeros in
/// place of its part; one that says 2 of the other bank, and one of format 1.
#[test]
fn no_store(rt: HostRuntime) -> Result<(), Fail> {
    let heap = heap(rt.alloc())?;
    let (root, clear_2) = (sector_of(&FORMATTED[0]), sector_of(&CLEAR_2));
    let none: &[u8] = b"";
    for (sectors, front, said) in [
        (0, none, OpenError::Geometry),
        (1, none, OpenError::Blank),
        (49, none, OpenError::Blank),
        (49, b"\x07\x07\x07", OpenError::Damaged(0)),
        (1, &root, OpenError::Geometry),
        (48, &root, OpenError::Geometry),
        (49, &root, OpenError::Damaged(1)),
        (49, &clear_2, OpenError::Damaged(0)),
        (49, ROOT, OpenError::Damaged(0)),
        (1, ROOT, OpenError::Damaged(0)),
    ] {
        assert_eq!(rt;
            found_of(heap, sectors, front),
            Some(Err(said)),
            "{sectors} sectors"
        );
    }
    Ok(())
}

/// What the new store opens as to one who asks for another zone or other sizes.
fn found_as(heap: Heap, apex: &'static str, snapshot: u32, journal: u32) -> Option<Found> {
    let device = made(heap, &EXAMPLE, plan(heap)?)?;
    let shape = Shape {
        apex,
        snapshot,
        journal,
        ..EXAMPLE
    };
    Some(found_on(heap, device, &shape))
}

#[test]
fn another_store(rt: HostRuntime) -> Result<(), Fail> {
    let heap = heap(rt.alloc())?;
    for (apex, snapshot, journal) in [
        ("examplf.", 8, 16),
        (".", 8, 16),
        ("example.", 7, 17),
        ("example.", 8, 17),
        ("example.", 65537, 16),
    ] {
        let found = found_as(heap, apex, snapshot, journal);
        assert_eq!(rt;
            found,
            Some(Err(OpenError::Geometry)),
            "{apex} {snapshot} {journal}"
        );
    }
    Ok(())
}

/// How many times making a store was refused memory, with nothing written, before it was made.
fn refusals(heap: Heap) -> Option<u64> {
    let zone = zone(heap, EXAMPLE.apex, EXAMPLE.file)?;
    for n in 1..1000 {
        let mut device = blank(heap, EXAMPLE.sectors(), plan(heap)?)?;
        heap.refuse(n);
        let told = format(heap, &mut device, &zone, EXAMPLE.snapshot, EXAMPLE.journal);
        heap.refuse(0);
        if told == Ok(()) {
            return Some(n - 1);
        }
        if told != Err(FormatError::OutOfMemory) || device.pending() > 0 {
            return None;
        }
    }
    None
}

#[test]
fn making_is_refused_memory(rt: HostRuntime) -> Result<(), Fail> {
    let heap = heap(rt.alloc())?;
    assert!(rt; refusals(heap).unwrap_or(0) > 0);
    Ok(())
}
