//! A server over loopback, each time with its clients. The octets of replies are written out from RFC 1035,
//! RFC 2136 and RFC 5936.
ghost use Rattle.std.specs.Prelude.{None};

use crate::clients::{Act, Clients};
use crate::given::device;
use dns_configuration::{DONE, FAILED, File, REFUSED};
use dns_devices::Devices;
use dns_diagnostics::LevelFilter;
use dns_memory::{Heap, heap};
use dns_sectors::{DeviceError, MemorySectors, OpenDeviceError, Sector, Sectors};
use dns_service::{Host, ServeOptions, Streams, serve};
use dns_zone::RecordList;
use std::io;
use std::test::Fail;

/// The zone, in a master file.
const ZONE: &str = "$TTL 3600
@ SOA ns.example.com. hostmaster 7 7200 900 1209600 300
@ NS ns.example.com.
host1 A 192.0.2.1
";

/// What a configuration says of the zone: it may be updated and transferred from this machine.
const SETTINGS: &str = "[[zone]]
origin = \"example.\"
file = \"example.zone\"
device = \"example.device\"
snapshot_sectors = 8
journal_sectors = 16
keep = 4
update = [\"127.0.0.1/32\"]
transfer = [\"127.0.0.1/32\"]
";

/// A sector that begins with these octets, and then has zeros.
fn with_front(front: &[u8]) -> Sector {
    let mut sector = [0; 512];
    for (octet, new) in sector.iter_mut().zip(front) {
        *octet = *new;
    }
    sector
}

/// Devices in memory. There is one with the zone at each path, made as it is opened; where a root is said, it
/// begins with that in place of its own.
#[derive(Clone, Copy)]
struct InMemory {
    heap: Heap,
    root: Option<&'static [u8]>,
}

impl Devices<MemorySectors> for InMemory {
    ghost calls = { λ _. None };

    fn open(&mut self, _path: &str) -> Result<MemorySectors, OpenDeviceError> {
        let mut device = device(self.heap, ZONE, 8).ok_or(OpenDeviceError::Device)?;
        if let Some(root) = self.root {
            if device.len() > 0 && device.write(0, &with_front(root)).is_err() {
                return Err(OpenDeviceError::Device);
            }
        }
        Ok(device)
    }

    fn close(&mut self, _path: &str, device: MemorySectors) {
        drop(device);
    }
}

/// A run of a server for so many turns: what its clients do, the datagrams that they get, what they read on
/// each connection up to its end, and the log after the address of the server.
struct Run {
    name: &'static str,
    turns: u32,
    acts: &'static [Act],
    received: &'static [&'static str],
    read: &'static [&'static str],
    log: &'static str,
}

/// A question for the address of host1.example., and its reply.
const QUERY: &str = "12340000000100000000000005686f737431076578616d706c650000010001";

const REPLY: &str =
    "12348400000100010000000005686f737431076578616d706c650000010001c00c0001000100000e100004c0000201";

/// The question with another number, and its reply.
const OTHER: &str = "12350000000100000000000005686f737431076578616d706c650000010001";

const TO_OTHER: &str =
    "12358400000100010000000005686f737431076578616d706c650000010001c00c0001000100000e100004c0000201";

/// The first question and its reply on a stream, each after its length.
const FRAMED_QUERY: &str = "001f12340000000100000000000005686f737431076578616d706c650000010001";

const FRAMED_REPLY: &str =
    "002f12348400000100010000000005686f737431076578616d706c650000010001c00c0001000100000e100004c0000201";

/// Four requests on one stream: the question; an update that adds an address to host2; a question for it; and
/// a request for the whole zone.
const SESSION: &str = concat!(
    "001f12340000000100000000000005686f737431076578616d706c650000010001",
    "002f000b28000001000000010000076578616d706c65000006000105686f737432c00c0001000100000e100004c0000202",
    "001f000c0000000100000000000005686f737432076578616d706c650000010001",
    "0019000d00000001000000000000076578616d706c650000fc0001"
);

/// What comes back on it. The last one is the zone, with the SOA at its front and at its end, and both hosts
/// between.
const ANSWERS: &str = concat!(
    "002f12348400000100010000000005686f737431076578616d706c650000010001c00c0001000100000e100004c0000201",
    "000c000ba8000000000000000000",
    "002f000c8400000100010000000005686f737432076578616d706c650000010001c00c0001000100000e100004c0000202",
    "00b4000d84000001000500000000076578616d706c650000fc0001",
    "c00c0006000100000e100031026e73076578616d706c6503636f6d000a686f73746d6173746572c00c",
    "0000000800001c2000000384001275000000012c",
    "c00c0002000100000e100002c025",
    "05686f737431c00c0001000100000e100004c0000201",
    "05686f737432c00c0001000100000e100004c0000202",
    "c00c0006000100000e100018c025c0350000000800001c2000000384001275000000012c"
);

/// An update of 512 octets, which adds a TXT of empty strings, with one octet after it.
const LONGER: &str = concat!(
    "000b28000001000000010000076578616d706c650000060001c00c0010000100000e1001db",
    "000000000000000000000000000000000000000000000000000000000000000000000000000000000000000000000000",
    "000000000000000000000000000000000000000000000000000000000000000000000000000000000000000000000000",
    "000000000000000000000000000000000000000000000000000000000000000000000000000000000000000000000000",
    "000000000000000000000000000000000000000000000000000000000000000000000000000000000000000000000000",
    "000000000000000000000000000000000000000000000000000000000000000000000000000000000000000000000000",
    "000000000000000000000000000000000000000000000000000000000000000000000000000000000000000000000000",
    "000000000000000000000000000000000000000000000000000000000000000000000000000000000000000000000000",
    "000000000000000000000000000000000000000000000000000000000000000000000000000000000000000000000000",
    "000000000000000000000000000000000000000000000000000000000000000000000000000000000000000000000000",
    "0000000000000000000000000000000000000000000000000000000000000000000000000000000000000000"
);

const RUNS: &[Run] = &[
    // A datagram of one octet has no reply, and the question has its own. Of two connections that are opened
    // at one moment each gets all its replies: the update is answered before what is asked after it, and seen
    // there.
    Run {
        name: "answers on each socket",
        turns: 16,
        acts: &[Act {
            line: "listening on ",
            datagrams: &["00", QUERY],
            opened: 2,
            written: &[(0, SESSION), (1, FRAMED_QUERY)],
        }],
        received: &[REPLY],
        read: &[ANSWERS, FRAMED_REPLY],
        log: "conn 0 open 127.0.0.1\nconn 1 open 127.0.0.1\n\
              update 127.0.0.1 example. NOERROR version 1 serial 8\n\
              conn 1 closed\ntransfer 127.0.0.1 example. 8 records 5\nconn 0 closed\n",
    },
    // One turn answers one of two datagrams.
    Run {
        name: "answers one datagram a turn",
        turns: 1,
        acts: &[Act {
            line: "listening on ",
            datagrams: &[QUERY, QUERY],
            opened: 0,
            written: &[],
        }],
        received: &[REPLY],
        read: &[],
        log: "",
    },
    // Ten turns answer the first ten of twelve datagrams, in their order, though the others are read before
    // the ninth is answered: the last two replies wait for those to the others, and go out when the last turn
    // has ended.
    Run {
        name: "answers what was read ahead",
        turns: 10,
        acts: &[Act {
            line: "listening on ",
            datagrams: &[
                QUERY, QUERY, QUERY, QUERY, QUERY, QUERY, QUERY, QUERY, OTHER, QUERY, "00", OTHER,
            ],
            opened: 0,
            written: &[],
        }],
        received: &[
            REPLY, REPLY, REPLY, REPLY, REPLY, REPLY, REPLY, REPLY, TO_OTHER, REPLY,
        ],
        read: &[],
        log: "",
    },
    // A datagram of 513 octets is read so far that it is told from one of 512.
    Run {
        name: "refuses a datagram of 513 octets",
        turns: 1,
        acts: &[Act {
            line: "listening on ",
            datagrams: &[LONGER],
            opened: 0,
            written: &[],
        }],
        received: &["000ba8010000000000000000"],
        read: &[],
        log: "",
    },
    // Two hundred datagrams of one octet and a connection come; and when that is closed, a second one. A
    // server that reads a datagram in every turn, and so never waits, accepts a connection that is opened
    // after it found none.
    Run {
        name: "accepts while datagrams come",
        turns: 190,
        acts: &[
            Act {
                line: "listening on ",
                datagrams: &["00"; 200],
                opened: 1,
                written: &[(0, FRAMED_QUERY)],
            },
            Act {
                line: "conn 0 closed",
                datagrams: &[],
                opened: 1,
                written: &[(1, FRAMED_QUERY)],
            },
        ],
        received: &[],
        read: &[FRAMED_REPLY; 2],
        log: "conn 0 open 127.0.0.1\nconn 0 closed\nconn 0 open 127.0.0.1\nconn 0 closed\n",
    },
    // Two hundred datagrams of one octet come, and two connections, of which one is silent. When the other is
    // closed, a third one; and when that is closed too, the silent one speaks. It was silent for many turns,
    // in each of which a datagram came, so that the server never waited; and it is answered at last.
    Run {
        name: "hears a silent connection while datagrams come",
        turns: 190,
        acts: &[
            Act {
                line: "listening on ",
                datagrams: &["00"; 200],
                opened: 2,
                written: &[(1, FRAMED_QUERY)],
            },
            Act {
                line: "conn 1 closed",
                datagrams: &[],
                opened: 1,
                written: &[(2, FRAMED_QUERY)],
            },
            Act {
                line: "conn 1 closed",
                datagrams: &[],
                opened: 0,
                written: &[(0, FRAMED_QUERY)],
            },
        ],
        received: &[],
        read: &[FRAMED_REPLY; 3],
        log: "conn 0 open 127.0.0.1\nconn 1 open 127.0.0.1\nconn 1 closed\n\
              conn 1 open 127.0.0.1\nconn 1 closed\nconn 0 closed\n",
    },
];

/// A configuration with this text.
fn configuration(text: &str) -> File<'_> {
    File {
        path: "dnsprim.toml",
        octets: Some(text.as_bytes()),
    }
}

/// Serves these clients for so many turns. Returns the exit status, or `FAILED` if something was written
/// besides the log, and the clients.
fn served<'a>(
    rt: &HostRuntime,
    heap: Heap,
    clients: Clients<'a>,
    turns: u32,
) -> io::Result<(u8, Clients<'a>)> {
    let server = clients.server;
    let text = format!(in heap; "listen = \"{server}\"\n{SETTINGS}")?;
    let config = configuration(&text);
    let alloc = rt.alloc();
    let mut devices = InMemory { heap, root: None };
    let options = ServeOptions {
        turns: u64::from(turns),
        is_quiet: false,
        count_every: 0,
        log_level: LevelFilter::Off,
        is_recorded: false,
        explain: false,
    };
    let host = Host { alloc, heap, rt };
    let mut streams = Streams {
        out: Vec::new(alloc),
        err: clients,
        record: Vec::new(alloc),
    };
    let status = serve::<MemorySectors, _, RecordList, _, _, _, _>(
        &host,
        &mut devices,
        &config,
        options,
        &mut streams,
    );
    let Streams { out, err, record } = streams;
    let is_silent = out.is_empty() && record.is_empty();
    Ok((if is_silent { status } else { FAILED }, err))
}

/// Whether the log is what a run says.
fn has_log(heap: Heap, clients: &Clients<'_>, log: &str) -> io::Result<bool> {
    let server = clients.server;
    let log = format!(in heap; "zone example. version 0 serial 7\nlistening on {server}\n{log}")?;
    Ok(clients.log.as_slice() == log.as_bytes())
}

/// Whether what these clients got in a run is as it says.
fn have_seen(heap: Heap, clients: &mut Clients<'_>, run: &Run) -> io::Result<bool> {
    let mut is_so = true;
    clients.settle();
    for octets in run.received {
        is_so = clients.has_received(octets)? && is_so;
    }
    is_so = clients.has_no_more() && is_so;
    for number in 0..run.read.len() {
        is_so = clients.has_read(number, run.read[number])? && is_so;
    }
    Ok(has_log(heap, clients, run.log)? && is_so)
}

/// Whether a run is as it says.
fn holds(rt: &HostRuntime, heap: Heap, run: &Run) -> io::Result<bool> {
    let clients = Clients::new(rt, heap, run.acts)?;
    let (status, mut clients) = served(rt, heap, clients, run.turns)?;
    let have_seen = have_seen(heap, &mut clients, run);
    drop(clients);
    Ok(have_seen? && status == DONE)
}

#[test]
fn loopback(rt: HostRuntime) -> Result<(), Fail> {
    let heap = heap(rt.alloc())?;
    for run in RUNS {
        assert!(rt; holds(&rt, heap, run)?, "{}", run.name);
    }
    Ok(())
}

/// A root of sector format 1, of a zone `example.` with 8 and 16 sectors, up to the last octet that is not 0.
const ROOT: &[u8] = b"DPR1\0\0\0\0\0\0\0\0\0\0\0\0\0\0\0\0\0\0\0\0\0\0\0\0\0\0\0\0\0\0\0\0\0\0\
\x01\xda\0\0\0\x08\0\0\0\x10\x07example";

/// Whether a server over a device with this root tells this, and nothing else, and ends with status 1. The
/// device is told before the address is taken.
fn refuses(rt: &HostRuntime, heap: Heap, root: &'static [u8], told: &str) -> io::Result<bool> {
    let text = format!(in heap; "listen = \"127.0.0.1:5300\"\n{SETTINGS}")?;
    let config = configuration(&text);
    let root = Some(root);
    let alloc = rt.alloc();
    let mut devices = InMemory { heap, root };
    let options = ServeOptions {
        turns: 1,
        is_quiet: false,
        count_every: 0,
        log_level: LevelFilter::Off,
        is_recorded: true,
        explain: true,
    };
    let host = Host { alloc, heap, rt };
    let mut streams = Streams {
        out: Vec::new(alloc),
        err: Vec::new(alloc),
        record: Vec::new(alloc),
    };
    let status = serve::<MemorySectors, _, RecordList, _, _, _, _>(
        &host,
        &mut devices,
        &config,
        options,
        &mut streams,
    );
    let is_silent = streams.out.is_empty() && streams.record.is_empty();
    Ok(status == REFUSED && is_silent && streams.err.as_slice() == told.as_bytes())
}

#[test]
fn devices_that_are_not_served(rt: HostRuntime) -> Result<(), Fail> {
    let heap = heap(rt.alloc())?;
    let old =
        "example.device: OldFormat\nexample.device: the file was made in an older sector format; \
migrate makes it new\n";
    let damaged =
        "example.device: Damaged(0)\nexample.device: that sector is not what was written there; \
a copy of the file, or its master file and init, restores it\n";
    assert!(rt; refuses(&rt, heap, ROOT, old)?);
    assert!(rt; refuses(&rt, heap, b"DPR2", damaged)?);
    Ok(())
}
