//! Each call that takes memory, with each of its allocations refused in turn.
use crate::calls::{Refused, Told, answered, checked, found, names, records, told_of_records};
use crate::changes::judged;
use crate::transfers::{fed, sent};
use dns_fixtures::octets;
use dns_memory::{Heap, heap};
use std::test::Fail;

/// What is called: a row of the table below says more.
#[derive(Clone, Copy)]
enum Call {
    Names,
    Records,
    Message,
    Update,
    Lookup,
    Reply,
    Transfer,
    Feed,
    Check,
}

/// The changes of the example from serial 7 to 8: a text comes at `_tcp.host1`.
const CHANGES: &str =
    "000c84000001000500000000076578616d706c650000fb0001c00c0006000100000e100031026e73076578616d706c65\
03636f6d000a686f73746d6173746572c00c0000000800001c2000000384001275000000012cc00c0006000100000e10\
0018c025c0350000000700001c2000000384001275000000012cc00c0006000100000e100018c025c035000000080000\
1c2000000384001275000000012c045f74637005686f737431c00c0010000100000e1000020178c00c0006000100000e\
100018c025c0350000000800001c2000000384001275000000012c";

/// The calls, the octets that they are given, what they tell, which is how many octets or records there are
/// or the exit status, and how many allocations they have at least. A change is sent as its records and four
/// SOAs (RFC 1995 section 4).
const CALLS: &[(&str, Call, &str, usize, u64)] = &[
    ("a long name, read and copied", Call::Names, "", 47, 5),
    (
        "data of each form, and a SOA that is written and read",
        Call::Records,
        "",
        169,
        9,
    ),
    ("the records of a message", Call::Message, CHANGES, 5, 5),
    (
        "an update with a condition: two records come, one goes",
        Call::Update,
        "000b28000001000100030000076578616d706c65000006000105686f737431c00c00010001000000000004c0000201c0\
1900ff00ff000000000000c0190010000100000e100002017805686f737432c00c000100010000003c0004c0000203",
        7,
        42,
    ),
    (
        "an update of nine addresses of a host, and of two that go",
        Call::Update,
        "000b280000010000000b0000076578616d706c65000006000105686f737431c00c000100010000003c0004c0000202c0\
19000100010000003c0004c0000203c019000100010000003c0004c0000204c019000100010000003c0004c0000205c0\
19000100010000003c0004c0000206c019000100010000003c0004c0000207c019000100010000003c0004c0000208c0\
19000100010000003c0004c0000209c019000100010000003c0004c000020ac019000100fe000000000004c0000203c0\
19000100fe000000000004c000020a",
        11,
        42,
    ),
    (
        "a lookup by way of a wildcard with a long name",
        Call::Lookup,
        "",
        2,
        42,
    ),
    (
        "a reply by way of a wildcard",
        Call::Reply,
        "00020000000100000000000005686f737433076578616d706c6500000f0001",
        69,
        42,
    ),
    (
        "a reply to a name in capitals, with 16 name servers",
        Call::Reply,
        "000200000001000000000000074558414d504c450000020001",
        529,
        42,
    ),
    (
        "a whole zone",
        Call::Transfer,
        "000100000001000000000000076578616d706c650000fc0001",
        42,
        42,
    ),
    ("changes for a secondary", Call::Feed, CHANGES, 42, 42),
    ("the check of a file", Call::Check, "", 0, 42),
];

/// What a call tells of octets.
fn told(heap: Heap, call: Call, octets: &[u8]) -> Told {
    match call {
        Call::Names => names(heap),
        Call::Records => records(heap),
        Call::Message => told_of_records(heap, octets),
        Call::Update => judged(heap, octets),
        Call::Lookup => found(heap),
        Call::Reply => answered(heap, octets),
        Call::Transfer => sent(heap, octets),
        Call::Feed => fed(heap, octets),
        Call::Check => checked(heap),
    }
}

/// How many allocations of a call are refused, each in turn, so that the call says so, and what it tells
/// before and then again.
fn refusals(heap: Heap, call: Call, octets: &[u8]) -> Option<(u64, Told, Told)> {
    heap.refuse(0);
    let before = told(heap, call, octets);
    let calls = heap.calls();
    for n in 1..=calls {
        heap.refuse(n);
        if told(heap, call, octets) != Err(Refused::Memory) {
            return None;
        }
    }
    heap.refuse(0);
    Some((calls, before, told(heap, call, octets)))
}

#[test]
fn calls_that_are_refused_memory(rt: HostRuntime) -> Result<(), Fail> {
    let heap = heap(rt.alloc())?;
    for (name, call, digits, wanted, fewest) in CALLS {
        let octets = octets(heap, digits).ok_or("octets")?;
        let (calls, before, again) = refusals(heap, *call, &octets).ok_or(*name)?;
        assert!(rt;
            calls >= *fewest && before == Ok(*wanted) && again == Ok(*wanted),
            "{name}: {calls} allocations"
        );
    }
    Ok(())
}
