//! Names, records and zones.
use dns_masterfile::read_zone;
use dns_memory::Heap;
use dns_names::Name;
use dns_records::{RData, Record};
use dns_zone::{RecordList, Zone};

/// The octets of hexadecimal digits.
pub fn octets(heap: Heap, digits: &str) -> Option<Vec<u8, Heap>> {
    hex::decode(heap, digits).ok()
}

/// The name of a text, under the root (RFC 1035 section 5.1).
pub fn name(heap: Heap, text: &str) -> Option<Name> {
    Name::from_text(heap, text.as_bytes(), &Name::root(heap)).ok()
}

/// A record of the owner that a text names, with data in plain form.
pub fn record(heap: Heap, owner: &str, ttl: u32, rtype: u16, octets: &[u8]) -> Option<Record> {
    let rdata = RData::new(heap, rtype, octets).ok()?;
    Record::new(heap, name(heap, owner)?, ttl, rdata).ok()
}

/// The zone of a master file, whose origin is the apex that a text names.
pub fn zone(heap: Heap, apex: &str, file: &str) -> Option<Zone<RecordList>> {
    let apex = name(heap, apex)?;
    match read_zone(heap, file.as_bytes(), &apex) {
        Ok(records) => Zone::from_records(heap, apex, records).ok(),
        Err(_) => {
            drop(apex);
            None
        }
    }
}
