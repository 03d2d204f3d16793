//! Many names, many labels, and the most records.
use crate::refused_sets::loaded;
use dns_fixtures::record;
use dns_memory::{Heap, heap};
use dns_records::Record;
use dns_records::types::A;
use dns_zone::{RecordList, Records, ZoneError, ZoneIndex};
use dns_zoneindex::SharedTree;
use std::test::Fail;

/// The address of the name of a number under one apex.
fn host(heap: Heap, number: u32) -> Option<Record> {
    let owner = format!(in heap; "{number:04x}.example.").ok()?;
    record(heap, owner.as_str(), 60, A, &number.to_be_bytes())
}

/// A set of 65,536 names under one apex, put in in no order.
fn many<I: ZoneIndex>(heap: Heap) -> Option<I> {
    let mut set = I::empty(heap).ok()?;
    for i in 0..65536u32 {
        set.insert(host(heap, i.wrapping_mul(40503) & 65535)?).ok()?;
    }
    Some(set)
}

/// Removes the records of another from a set, and says how many of them were there.
fn remove_all<I: ZoneIndex>(set: &mut I, other: &I) -> Option<u32> {
    let mut count = 0u32;
    for record in Records::of(other) {
        if set.remove(record).ok()? {
            count = count.wrapping_add(1);
        }
    }
    Some(count)
}

/// How many records are removed from a set of many names, how many are left, and how many a fork of it keeps.
fn counts<I: ZoneIndex>(heap: Heap) -> Option<(u32, usize, usize)> {
    let mut set: I = many(heap)?;
    let fork = set.fork().ok()?;
    let removed = remove_all(&mut set, &fork)?;
    Some((removed, set.len(), fork.len()))
}

#[test]
fn many_names_under_one_apex(rt: HostRuntime) -> Result<(), Fail> {
    let heap = heap(rt.alloc())?;
    assert_eq!(rt; counts::<SharedTree>(heap), Some((65536, 0, 65536)));
    assert_eq!(rt; counts::<RecordList>(heap), Some((65536, 0, 65536)));
    Ok(())
}

/// An address of a name of so many labels.
fn deep(heap: Heap, labels: u32) -> Option<Record> {
    let mut owner = String::new(heap);
    for _ in 0..labels {
        owner.push_str("a.").ok()?;
    }
    record(heap, owner.as_str(), 60, A, &[192, 0, 2, 1])
}

/// Whether a name exists while it owns the record, and the one above it, and whether either does when the
/// record is removed.
fn existing<I: ZoneIndex>(set: &mut I, owned: Record) -> Option<[bool; 4]> {
    let name = owned.owner().lend();
    let above = name.parent()?;
    let copy = owned.clone().ok()?;
    set.insert(copy).ok()?;
    let before = (set.exists(&name), set.exists(&above));
    set.remove(&owned).ok()?;
    Some([before.0, before.1, set.exists(&name), set.exists(&above)])
}

/// The same of a name of 127 labels, alone in a set.
fn existing_by_long_name<I: ZoneIndex>(heap: Heap) -> Option<[bool; 4]> {
    let mut set: I = I::empty(heap).ok()?;
    existing(&mut set, deep(heap, 127)?)
}

#[test]
fn a_name_of_127_labels(rt: HostRuntime) -> Result<(), Fail> {
    let heap = heap(rt.alloc())?;
    let wanted = Some([true, true, false, false]);
    assert_eq!(rt; existing_by_long_name::<SharedTree>(heap), wanted);
    assert_eq!(rt; existing_by_long_name::<RecordList>(heap), wanted);
    Ok(())
}

// 65,536 records in any order are a zone, and one more is too many.
#[test]
fn the_most_records(rt: HostRuntime) -> Result<(), Fail> {
    let heap = heap(rt.alloc())?;
    for (addresses, said) in [(65534, Ok(65536)), (65535, Err(ZoneError::TooMany))] {
        assert_eq!(rt; loaded::<SharedTree>(heap, addresses, 0), Some(said));
        assert_eq!(rt; loaded::<RecordList>(heap, addresses, 0), Some(said));
    }
    Ok(())
}
