//! Each allocation of a write and of a load, refused in turn.
use dns_fixtures::{name, record};
use dns_memory::{Heap, heap};
use dns_records::Record;
use dns_records::types::{A, NS, SOA};
use dns_zone::{RecordList, Records, Zone, ZoneError, ZoneIndex};
use dns_zoneindex::SharedTree;
use std::test::Fail;

/// Owners of eleven records: an apex with three, wildcards, a host, services below names without records, and
/// a delegation (RFC 4592 section 2.2.1).
const OWNERS: [&str; 11] = [
    "example.",
    "example.",
    "example.",
    "*.example.",
    "*.example.",
    "sub.*.example.",
    "host1.example.",
    "_ssh._tcp.host1.example.",
    SERVICE,
    "subdel.example.",
    "subdel.example.",
];

/// An owner that has only names without records above it, up to the apex.
const SERVICE: &str = "_ssh._tcp.host2.example.";

/// An address of an owner.
fn address(heap: Heap, owner: &str, last: u8) -> Option<Record> {
    record(heap, owner, 3600, A, &[192, 0, 2, last])
}

/// A set of them.
fn example<I: ZoneIndex>(heap: Heap) -> Option<I> {
    let mut set = I::empty(heap).ok()?;
    let mut last = 0u8;
    for owner in OWNERS {
        last = last.wrapping_add(1);
        set.insert(address(heap, owner, last)?).ok()?;
    }
    Some(set)
}

/// Whether two sets have the same records.
fn are_alike<I: ZoneIndex>(one: &I, other: &I) -> bool {
    Records::of(one).eq(Records::of(other))
}

/// A write of a set.
#[derive(Clone, Copy)]
enum Write {
    /// A record below names that don't exist.
    Insertion,
    /// The record of a name that has only names without records above it.
    Removal,
    /// All that a name owns, while there are names below it.
    Replacement,
}

fn is_inserted<I: ZoneIndex>(heap: Heap, set: &mut I, n: u64) -> Option<bool> {
    let added = address(heap, "a.b.c.example.", 1)?;
    heap.refuse(n);
    Some(set.insert(added).is_ok())
}

fn is_removed<I: ZoneIndex>(heap: Heap, set: &mut I, n: u64) -> Option<bool> {
    let gone = address(heap, SERVICE, 9)?;
    heap.refuse(n);
    Some(set.remove(&gone).is_ok())
}

fn is_replaced<I: ZoneIndex>(heap: Heap, set: &mut I, n: u64) -> Option<bool> {
    let emptied = name(heap, "host1.example.")?;
    heap.refuse(n);
    Some(set.replace_at(&emptied.lend(), Vec::new(heap)).is_ok())
}

/// Makes a write where the allocation of that number is refused, and says whether it was made.
fn is_made<I: ZoneIndex>(heap: Heap, set: &mut I, write: Write, n: u64) -> Option<bool> {
    let is_made = match write {
        Write::Insertion => is_inserted(heap, set, n),
        Write::Removal => is_removed(heap, set, n),
        Write::Replacement => is_replaced(heap, set, n),
    };
    heap.refuse(0);
    is_made
}

/// How many allocations of a write are refused, each in turn, and leave a set and its source as one that
/// shares nothing with them; the source stays so after the write too.
fn refusals<I: ZoneIndex>(
    heap: Heap,
    source: &I,
    set: &mut I,
    anew: &I,
    write: Write,
) -> Option<u64> {
    for n in 1..200u64 {
        let is_made = is_made(heap, set, write, n)?;
        if !are_alike(source, anew) {
            return None;
        }
        if is_made {
            return Some(n - 1);
        }
        if !are_alike(set, anew) {
            return None;
        }
    }
    None
}

/// The same of a fork of the example, with how many records it has then.
fn refused<I: ZoneIndex>(heap: Heap, write: Write) -> Option<(u64, usize)> {
    let source: I = example(heap)?;
    let anew = example(heap)?;
    let mut fork = source.fork().ok()?;
    let refusals = refusals(heap, &source, &mut fork, &anew, write)?;
    Some((refusals, fork.len()))
}

/// A write, how many allocations it has at least in a tree and in a list, and how many records are left.
const WRITES: [(Write, u64, u64, usize); 3] = [
    (Write::Insertion, 5, 1, 12),
    (Write::Removal, 3, 0, 10),
    (Write::Replacement, 3, 0, 10),
];

#[test]
fn writes_that_are_refused_memory(rt: HostRuntime) -> Result<(), Fail> {
    let heap = heap(rt.alloc())?;
    for (write, of_tree, of_list, left) in WRITES {
        let (tree, len) = refused::<SharedTree>(heap, write).unwrap_or((0, 0));
        assert!(rt; tree >= of_tree && len == left, "{tree} refusals of a tree");
        let (list, len) = refused::<RecordList>(heap, write).unwrap_or((0, 0));
        assert!(rt; list >= of_list && len == left, "{list} refusals of a list");
    }
    Ok(())
}

/// The data of a SOA, the names in it the root.
const START: &[u8] = b"\0\0\0\0\0\x01\0\0\0\x01\0\0\0\x01\0\0\0\x01\0\0\0\x01";

/// So many addresses of one owner, a SOA and an NS, in no order.
pub(crate) fn zone_records(heap: Heap, addresses: u32) -> Option<Vec<Record, Heap>> {
    let mut list = Vec::new(heap);
    for i in 0..addresses {
        let octets = i.wrapping_mul(2654435769).to_be_bytes();
        list.push(record(heap, "b.a.", 1, A, &octets)?).ok()?;
    }
    list.push(record(heap, "a.", 1, NS, &[0])?).ok()?;
    list.push(record(heap, "a.", 1, SOA, START)?).ok()?;
    Some(list)
}

/// How many records the zone of the apex has, or why the list is none, where the allocation of that number is
/// refused.
pub(crate) fn loaded<I: ZoneIndex>(
    heap: Heap,
    addresses: u32,
    n: u64,
) -> Option<Result<usize, ZoneError>> {
    let records = zone_records(heap, addresses)?;
    let apex = name(heap, "a.")?;
    heap.refuse(n);
    let zone: Result<Zone<I>, ZoneError> = Zone::from_records(heap, apex, records);
    heap.refuse(0);
    Some(match zone {
        Ok(zone) => Ok(zone.index().len()),
        Err(error) => Err(error),
    })
}

/// How many allocations of a load are refused, each in turn, and how many records the zone then has; none
/// where something else is said.
fn refused_loads<I: ZoneIndex>(heap: Heap) -> Option<(u64, usize)> {
    for n in 1..100u64 {
        match loaded::<I>(heap, 40, n)? {
            Ok(count) => return Some((n - 1, count)),
            Err(ZoneError::OutOfMemory) => {}
            Err(_) => return None,
        }
    }
    None
}

#[test]
fn loads_that_are_refused_memory(rt: HostRuntime) -> Result<(), Fail> {
    let heap = heap(rt.alloc())?;
    for loads in [
        refused_loads::<SharedTree>(heap),
        refused_loads::<RecordList>(heap),
    ] {
        let (refusals, count) = loads.unwrap_or((0, 0));
        assert!(rt; refusals > 0 && count == 42, "{refusals} refusals");
    }
    Ok(())
}
