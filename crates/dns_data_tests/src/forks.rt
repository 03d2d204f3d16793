//! A fork of a set, and the set after all its records but those of the apex were removed, by single calls and
//! by a list of calls.
use dns_fixtures::{name, zone};
use dns_memory::{Heap, heap};
use dns_zone::laws::{Command, run_index};
use dns_zone::{RecordList, Records, ZoneIndex};
use dns_zoneindex::SharedTree;
use std::test::Fail;

/// The zone of RFC 4592 section 2.2.1: eleven records.
const ZONE: &str = "$TTL 3600
example. SOA ns.example.com. hostmaster.example. ( 7 7200 900 1209600 300 )
 NS ns.example.com.
 NS ns.example.net.
$ORIGIN example.
* MX 10 host1
 TXT \"this is a wildcard\"
sub.* TXT \"this is not a wildcard\"
host1 A 192.0.2.1
_ssh._tcp.host1 SRV 0 0 22 host1
_ssh._tcp.host2 SRV 0 0 22 host2
subdel NS ns.example.com.
 NS ns.example.net.
";

/// These records in a tree.
fn tree(heap: Heap, records: &RecordList) -> Option<SharedTree> {
    let mut set = SharedTree::empty(heap).ok()?;
    for record in Records::of(records) {
        set.insert(record.clone().ok()?).ok()?;
    }
    Some(set)
}

/// How many records a set has, if they are the first of these, as they are walked one after the other.
fn walked(set: &SharedTree, records: &RecordList) -> Option<usize> {
    let mut count: usize = 0;
    let mut after = None;
    for wanted in Records::of(records) {
        match set.walk(after) {
            None => return Some(count),
            Some(record) if record == wanted => after = Some(record),
            Some(_) => return None,
        }
        count = count.wrapping_add(1);
    }
    if set.walk(after).is_none() {
        Some(count)
    } else {
        None
    }
}

/// How many of the zone's records a set has, which are its first ones, and whether a name exists in it that
/// owns none of them.
#[derive(Clone, Copy, Debug, PartialEq, Eq)]
struct Found {
    records: usize,
    service: bool,
}

fn look(heap: Heap, set: &SharedTree, records: &RecordList) -> Option<Found> {
    let service = name(heap, "_tcp.host1.example.")?;
    Some(Found {
        records: walked(set, records)?,
        service: set.exists(&service.lend()),
    })
}

/// What a fork has, what the set has that it was taken from and from which all but the apex's records were
/// removed, and what a list of these removals leaves of the fork.
fn removed(heap: Heap) -> Option<[Found; 3]> {
    let zone = zone(heap, "example.", ZONE)?;
    let records = zone.index();
    let mut set = tree(heap, records)?;
    let fork = set.fork().ok()?;
    let apex = name(heap, "example.")?;
    let mut removals = Vec::new(heap);
    for record in Records::of(&fork) {
        if *record.owner() != apex {
            set.remove(record).ok()?;
            removals.push(Command::Remove(record.clone().ok()?)).ok()?;
        }
    }
    let (left, _replies) = run_index(heap, fork.fork().ok()?, &removals).ok()?;
    Some([
        look(heap, &fork, records)?,
        look(heap, &set, records)?,
        look(heap, &left, records)?,
    ])
}

#[test]
fn removals_are_not_seen_in_a_fork(rt: HostRuntime) -> Result<(), Fail> {
    let heap = heap(rt.alloc())?;
    let whole = Found {
        records: 11,
        service: true,
    };
    let apex = Found {
        records: 3,
        service: false,
    };
    assert_eq!(rt; removed(heap), Some([whole, apex, apex]));
    Ok(())
}
