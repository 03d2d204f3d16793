//! A transfer of a large zone, and what becomes of it while the zone changes (RFC 5936 section 3).
use crate::large::{HOSTS, file};
use dns_commands::{Run, replay};
use dns_configuration::{DONE, File};
use dns_memory::{Heap, heap};
use std::alloc::{AllocError, Global};
use std::io;
use std::test::Fail;

/// A zone that has room for them, and keeps one version before the newest.
const CONFIG: &str = "listen = \"127.0.0.1:5300\"
[[zone]]
origin = \"example.\"
file = \"z\"
device = \"d\"
snapshot_sectors = 4096
journal_sectors = 16
keep = 1
update = [\"127.0.0.0/8\"]
transfer = [\"127.0.0.0/8\"]
";

/// What asks for the whole zone, and has it give its first two messages.
const OPENED: &str = "connect 127.0.0.1
tcp 0 000100000001000000000000076578616d706c650000fc0001
pump 0
pump 0
";

/// An update that adds a record, shown at once, and a checkpoint of the zone.
const CHANGED: &str =
    "udp 127.0.0.1 000b28000001000000010000076578616d706c6500000600010174c00c0010000100000e1000020178
flush
checkpoint example.
";

/// The reply to the update.
const ACCEPTED: &[u8] = b"udp 127.0.0.1 000ba8000000000000000000";

/// A question for the SOA.
const ASKED: &str = "udp 127.0.0.1 000a00000001000000000000076578616d706c650000060001\n";

/// The transfer, with something between its second message and the others, and then the question.
fn script(heap: Heap, between: &str) -> Result<String<Heap>, AllocError> {
    let mut text = String::new(heap);
    text.push_str(OPENED)?;
    text.push_str(between)?;
    for _pump in 0..80 {
        text.push_str("pump 0\n")?;
    }
    text.push_str(ASKED)?;
    Ok(text)
}

/// A file of a text.
fn file_of<'a>(path: &'a str, text: &'a str) -> File<'a> {
    File {
        path,
        octets: Some(text.as_bytes()),
    }
}

/// What the transfer prints over the zone, with something between, where it ends well.
fn printed(alloc: Global, heap: Heap, zone: &str, between: &str) -> Option<Vec<u8>> {
    let script = script(heap, between).ok()?;
    let (config, zone) = (file_of("c", CONFIG), [file_of("z", zone)]);
    let script = file_of("s", script.as_str());
    let mut run = Run {
        alloc,
        heap,
        devices: (),
        explain: false,
        out: Vec::new(alloc),
        err: io::sink(),
    };
    let status = replay(&mut run, &config, &zone, &script);
    if status == DONE { Some(run.out) } else { None }
}

/// Where the lines of two runs first differ: in how many lines they agree, the reply to the update left out
/// of the second, and how often that is there.
fn agreed(still: &[u8], changed: &[u8]) -> (usize, usize) {
    let (mut count, mut accepted) = (0usize, 0usize);
    let mut lines = still.split(|octet| *octet == b'\n');
    for line in changed.split(|octet| *octet == b'\n') {
        if line == ACCEPTED {
            accepted = accepted.saturating_add(1);
        } else if lines.next() == Some(line) {
            count = count.saturating_add(1);
        } else {
            return (count, accepted);
        }
    }
    (count, accepted)
}

/// In how many lines the run with the change agrees with the one without it, and how often the update was
/// accepted.
fn seen(alloc: Global, heap: Heap) -> Option<(usize, usize)> {
    let zone = file(heap, HOSTS).ok()?;
    let still = printed(alloc, heap, zone.as_str(), "")?;
    let changed = printed(alloc, heap, zone.as_str(), CHANGED)?;
    Some(agreed(&still, &changed))
}

// After the second message of a transfer of 40,000 records the zone is updated, flushed and given a later
// base: all messages are those of the version that was shown when the transfer was opened, and the SOA that
// is asked for then is the new one.
#[test]
fn a_transfer_while_its_zone_changes(rt: HostRuntime) -> Result<(), Fail> {
    let seen = seen(rt.alloc(), heap(rt.alloc())?);
    assert!(rt; seen == Some((58, 1)), "{seen:?}");
    Ok(())
}
