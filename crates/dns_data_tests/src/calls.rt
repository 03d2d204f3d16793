//! Calls that take memory, each of which tells a number, or that memory was refused.
use dns_answer::reply;
use dns_changes::ChangeError;
use dns_commands::check;
use dns_configuration::{DONE, FAILED, File};
use dns_lookup::{resolve, search};
use dns_masterfile::{FileError, read_zone};
use dns_memory::Heap;
use dns_names::{Name, NameError};
use dns_records::{Mx, RData, Record, RecordError, Soa, Srv, types};
use dns_request::{Request, Transport, classify};
use dns_wire::{Message, Section, WriteError};
use dns_zone::{RecordList, Zone, ZoneError};
use std::alloc::AllocError;
use std::io;

/// Why a call tells nothing.
#[derive(Clone, Copy, PartialEq, Eq)]
pub(crate) enum Refused {
    /// Memory was refused.
    Memory,
    /// Something else is wrong.
    Otherwise,
}

/// What a call tells.
pub(crate) type Told = Result<usize, Refused>;

/// The refusal of memory, if it is that.
pub(crate) fn refusal(is_of_memory: bool) -> Refused {
    if is_of_memory {
        Refused::Memory
    } else {
        Refused::Otherwise
    }
}

impl From<AllocError> for Refused {
    fn from(_: AllocError) -> Refused {
        Refused::Memory
    }
}

impl From<NameError> for Refused {
    fn from(error: NameError) -> Refused {
        refusal(error == NameError::OutOfMemory)
    }
}

impl From<RecordError> for Refused {
    fn from(error: RecordError) -> Refused {
        refusal(error == RecordError::OutOfMemory)
    }
}

impl From<WriteError> for Refused {
    fn from(error: WriteError) -> Refused {
        refusal(error == WriteError::OutOfMemory)
    }
}

impl From<ChangeError> for Refused {
    fn from(error: ChangeError) -> Refused {
        refusal(error == ChangeError::OutOfMemory)
    }
}

impl From<ZoneError> for Refused {
    fn from(error: ZoneError) -> Refused {
        refusal(error == ZoneError::OutOfMemory)
    }
}

/// The name of a text, under the root.
fn name(heap: Heap, text: &[u8]) -> Result<Name, NameError> {
    Name::from_text(heap, text, &Name::root(heap))
}

/// A name that is too long to be kept in place, as is its wildcard and what is above it.
const LONG: &[u8] = b"a.name.that.takes.more.than.thirty.two.octets.";

/// How many octets a name is read from, when it is copied, and its wildcard and the name above it.
fn name_of(heap: Heap, host: &Name) -> Told {
    host.clone()?;
    host.parent(heap)?;
    host.lend().to_name(heap)?;
    if host.as_wire().len() <= 253 {
        host.wildcard_of(heap)?;
    }
    let (_, size) = Name::parse_wire(heap, host.as_wire())?;
    Ok(size)
}

/// The same of a long name.
pub(crate) fn names(heap: Heap) -> Told {
    name_of(heap, &name(heap, LONG)?)
}

/// Data that name a host, and texts.
fn data_of(heap: Heap, host: &Name) -> Result<(), RecordError> {
    RData::cname(heap, host)?;
    RData::mx(
        heap,
        &Mx {
            preference: 10,
            exchange: host.lend(),
        },
    )?
    .clone()?;
    RData::srv(
        heap,
        &Srv {
            priority: 0,
            weight: 1,
            port: 9,
            target: host.lend(),
        },
    )?;
    RData::txt(heap, &[LONG, LONG])?;
    Ok(())
}

/// The data of a SOA.
fn start(heap: Heap, host: &Name) -> Result<RData, AllocError> {
    let soa = Soa {
        mname: host.lend(),
        rname: host.lend(),
        serial: 20,
        refresh: 7200,
        retry: 600,
        expire: 3600000,
        minimum: 60,
    };
    RData::soa(heap, &soa)
}

/// How many octets a record is written as, and read from.
fn written(heap: Heap, record: &Record) -> Told {
    record.clone()?;
    if record.rtype() == types::SOA {
        record.with_serial(heap, 21)?;
    }
    let mut octets = Vec::new(heap);
    record.to_wire_plain(&mut octets)?;
    let (_, size) = Record::from_wire_plain(heap, &octets)?;
    Ok(size)
}

/// The same of a SOA of a long name.
pub(crate) fn records(heap: Heap) -> Told {
    let host = name(heap, LONG)?;
    data_of(heap, &host)?;
    let rdata = start(heap, &host)?;
    written(heap, &Record::new(heap, host, 3600, rdata)?)
}

/// How many records a section has, each of which is copied.
fn copied(heap: Heap, mut section: Section<'_>) -> Told {
    let count = section.len();
    for _ in 0..count {
        if let Some(record) = section.next() {
            record.owner().to_name(heap)?;
            record.rdata(heap)?;
            record.to_record(heap)?;
        }
    }
    Ok(usize::from(count))
}

/// The same of the answers of a message.
pub(crate) fn told_of_records(heap: Heap, octets: &[u8]) -> Told {
    match Message::read(octets) {
        Ok(message) => copied(heap, message.answers()),
        Err(_) => Err(Refused::Otherwise),
    }
}

/// The zone of RFC 4592 section 2.2.1, with a SOA of serial 7, more name servers than few, each with an
/// address, a wildcard with a long name, a text and opaque data.
const ZONE: &[u8] = b"$TTL 3600
example. SOA ns.example.com. hostmaster.example. ( 7 7200 900 1209600 300 )
 NS ns.example.com.
 NS ns.example.net.
$ORIGIN example.
@ NS a
 NS b\n NS c\n NS d\n NS e\n NS f\n NS g\n NS h\n NS i\n NS j\n NS k\n NS l\n NS m\n NS n
a A 192.0.2.11\nb A 192.0.2.12\nc A 192.0.2.13\nd A 192.0.2.14\ne A 192.0.2.15\nf A 192.0.2.16\n\
g A 192.0.2.17\nh A 192.0.2.18\ni A 192.0.2.19\nj A 192.0.2.20\nk A 192.0.2.21\nl A 192.0.2.22\n\
m A 192.0.2.23\nn A 192.0.2.24
* MX 10 host1
 TXT \"this is a wildcard\"
sub.* TXT \"this is not a wildcard\"
host1 A 192.0.2.1
_ssh._tcp.host1 SRV 0 0 22 host1
_ssh._tcp.host2 SRV 0 0 22 host2
*.abcdefghijklmnopqrstuvwxyz.abcdefghijklmnopqrstuvwxyz CNAME @
text TXT \"a string that takes more than twenty-four octets\"
 TYPE257 \\# 22 000569737375656361312e6578616d706c652e6e6574
 AAAA 2001:db8::1
";

/// That zone.
pub(crate) fn zone(heap: Heap) -> Result<Zone<RecordList>, Refused> {
    let apex = name(heap, b"example.")?;
    match read_zone(heap, ZONE, &apex) {
        Ok(records) => Ok(Zone::from_records(heap, apex, records)?),
        Err((_, error)) => {
            drop(apex);
            Err(refusal(error == FileError::OutOfMemory))
        }
    }
}

/// How many name servers are found at a name, by way of an alias.
fn found_at(heap: Heap, zones: &[Zone<RecordList>], asked: &Name) -> Told {
    let Some(first) = search(zones, asked.lend(), types::NS) else {
        return Ok(0);
    };
    let outcome = resolve(heap, zones, first, types::NS)?;
    Ok(outcome.as_slice().len())
}

/// A name that the wildcard with a long name covers.
const COVERED: &[u8] = b"x.abcdefghijklmnopqrstuvwxyz.abcdefghijklmnopqrstuvwxyz.example.";

/// How many names are found for it.
pub(crate) fn found(heap: Heap) -> Told {
    let zones = [zone(heap)?];
    found_at(heap, &zones, &name(heap, COVERED)?)
}

/// How many octets the reply to a query has, by TCP.
pub(crate) fn answered(heap: Heap, octets: &[u8]) -> Told {
    let Request::Query(query) = classify(octets, Transport::Tcp) else {
        return Err(Refused::Otherwise);
    };
    let zones = [zone(heap)?];
    let reply = reply(heap, &mut Vec::new(heap), &zones, &query, Transport::Tcp)?;
    Ok(reply.len())
}

/// Nothing, where the file of the zone is found right.
pub(crate) fn checked(heap: Heap) -> Told {
    let file = File {
        path: "f",
        octets: Some(ZONE),
    };
    let status = check(heap, &file, "example.", &mut io::sink(), &mut io::sink());
    if status == DONE {
        Ok(0)
    } else {
        Err(refusal(status == FAILED))
    }
}
