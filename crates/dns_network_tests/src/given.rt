//! A zone in a store on a device in memory.
use dns_fixtures::{octets, plan, zone};
use dns_memory::Heap;
use dns_sectors::MemorySectors;
use dns_store::format;
use dns_zone::{RecordList, Zone};

/// A zone of four records.
pub(crate) const ZONE: &str = "$TTL 3600
@ SOA ns.example.com. hostmaster 7 7200 900 1209600 300
@ NS ns.example.com.
@ NS ns.example.net.
host1 A 192.0.2.1
";

/// The apex of each zone.
const APEX: &str = "example.";

/// How many sectors there are for a journal.
const JOURNAL: u32 = 16;

/// A device on which the store of a zone is made.
fn made(heap: Heap, zone: &Zone<RecordList>, snapshot: u32) -> Option<MemorySectors> {
    let sectors = 1 + 2 * (snapshot as usize + JOURNAL as usize);
    let plan = plan(heap)?;
    let mut device = MemorySectors::new(heap, sectors, sectors.saturating_add(100), plan).ok()?;
    if format(heap, &mut device, zone, snapshot, JOURNAL).is_ok() {
        Some(device)
    } else {
        drop(device);
        None
    }
}

/// A device with the zone of a master file, and with so many sectors for a snapshot.
pub(crate) fn device(heap: Heap, file: &str, snapshot: u32) -> Option<MemorySectors> {
    let zone = zone(heap, APEX, file)?;
    let device = made(heap, &zone, snapshot);
    drop(zone);
    device
}

/// Whether octets are these, in hexadecimal.
pub(crate) fn are(heap: Heap, found: &[u8], digits: &str) -> bool {
    match octets(heap, digits) {
        Some(octets) => octets.as_slice() == found,
        None => false,
    }
}
