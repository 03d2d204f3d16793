//! The order of names, and the octets of data, by the examples of the standards.
use dns_fixtures::name;
use dns_masterfile::read_zone;
use dns_memory::{Heap, heap};
use std::test::Fail;

/// The name of 4321:0:1:2:3:4:567:89ab (RFC 3596 section 2.5).
const REVERSE: &str = "b.a.9.8.7.6.5.0.4.0.0.0.3.0.0.0.2.0.0.0.1.0.0.0.0.0.0.0.1.2.3.4.IP6.ARPA.";

/// A name, one that comes after it, and whether that is under it: the example of the order of names (RFC 4034
/// section 6.1), of which the names with other octets are left out; a wildcard and names beside it (RFC 4592
/// section 2.2.1); and the name of an address.
const ORDER: &[(&str, &str, bool)] = &[
    (".", "example", true),
    ("example", "a.example", true),
    ("a.example", "yljkjljk.a.example", true),
    ("yljkjljk.a.example", "Z.a.example", false),
    ("Z.a.example", "zABC.a.EXAMPLE", false),
    ("zABC.a.EXAMPLE", "z.example", false),
    ("z.example", "*.z.example", true),
    ("example", "*.Example.", true),
    ("*.Example.", "sub.*.example.", true),
    ("*.Example.", "host1.example.", false),
    ("ip6.arpa", REVERSE, true),
];

/// Whether the name of a text comes before that of another, and whether that is under it.
fn compared(heap: Heap, first: &str, second: &str) -> Option<(bool, bool)> {
    let first = name(heap, first)?;
    let second = name(heap, second)?;
    Some((first < second, second.is_under(&first)))
}

#[test]
fn names_in_order(rt: HostRuntime) -> Result<(), Fail> {
    let heap = heap(rt.alloc())?;
    for (first, second, is_under) in ORDER {
        assert_eq!(rt;
            compared(heap, first, second),
            Some((true, *is_under)),
            "{second}"
        );
    }
    Ok(())
}

const BOX: &[u8] = b"\x0cold-slow-box\x07example\x03com\x00";

/// Lines of a master file with the origin `ISI.EDU.`, and the octets of their data.
const DATA: &[(&str, &[u8])] = &[
    // RFC 1035 section 5.3: the start, a name server, an exchange and an address of the zone ISI.EDU
    (
        "@ 60 IN SOA VENERA Action\\.domains ( 20 7200 600 3600000 60 )",
        b"\x06venera\x03isi\x03edu\x00\x0eaction.domains\x03isi\x03edu\x00\
\x00\x00\x00\x14\x00\x00\x1c\x20\x00\x00\x02\x58\x00\x36\xee\x80\x00\x00\x00\x3c",
    ),
    ("@ 60 NS VENERA", b"\x06venera\x03isi\x03edu\x00"),
    ("@ 60 MX 10 VENERA", b"\x00\x0a\x06venera\x03isi\x03edu\x00"),
    ("A 60 A 26.3.0.103", &[26, 3, 0, 103]),
    // RFC 2782: a service at port 9
    (
        "_foobar._tcp 60 SRV 0 1 9 old-slow-box.example.com.",
        b"\x00\x00\x00\x01\x00\x09\x0cold-slow-box\x07example\x03com\x00",
    ),
    // RFC 3596 section 2.5: an address; and the names of an alias and of a reverse address
    (
        "@ 60 AAAA 4321:0:1:2:3:4:567:89ab",
        b"\x43\x21\x00\x00\x00\x01\x00\x02\x00\x03\x00\x04\x05\x67\x89\xab",
    ),
    ("@ 60 CNAME old-slow-box.example.com.", BOX),
    ("@ 60 PTR old-slow-box.example.com.", BOX),
];

/// Whether the record of a line has these data, and there is no other.
fn is_read(heap: Heap, line: &str, octets: &[u8]) -> Option<bool> {
    let origin = name(heap, "ISI.EDU.")?;
    match read_zone(heap, line.as_bytes(), &origin) {
        Ok(records) => Some(records.len() == 1 && records[0].rdata() == octets),
        Err(_) => None,
    }
}

#[test]
fn data_in_octets(rt: HostRuntime) -> Result<(), Fail> {
    let heap = heap(rt.alloc())?;
    for (line, octets) in DATA {
        assert_eq!(rt; is_read(heap, line, octets), Some(true), "{line}");
    }
    Ok(())
}
