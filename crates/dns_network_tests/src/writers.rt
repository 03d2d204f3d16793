//! Writers that fail after each octet in turn.
use crate::given::ZONE;
use dns_commands::{Run, check, replay};
use dns_configuration::{DONE, FAILED, File, REFUSED};
use dns_fixtures::zone;
use dns_masterfile::print_zone;
use dns_memory::{Heap, heap};
use std::alloc::Global;
use std::io;
use std::test::Fail;

/// A configuration of one zone.
const CONFIG: &str = "listen = \"127.0.0.1:5300\"\n[[zone]]\norigin = \"example.\"\nfile = \"f\"\n\
device = \"d\"\nsnapshot_sectors = 8\njournal_sectors = 8\nkeep = 4\nupdate = []\ntransfer = []\n";

/// Two requests without a question, each answered by a line of 39 octets.
const TWO_REQUESTS: &str =
    "udp 127.0.0.1 123400000000000000000000\nudp 127.0.0.1 123410000000000000000000\n";

/// A zone in print.
const PRINTED: &str = "a. 60 IN SOA a. a. 1 2 3 4 5\na. 60 IN NS a.\n";

/// A writer that takes so many octets and then fails.
#[derive(Drop)]
struct Full {
    left: usize,
}

impl io::Write for Full {
    fn write(&mut self, buf: &[u8]) -> io::Result<usize> {
        if self.left == 0 {
            return Err(io::Error::from(io::ErrorKind::StorageFull));
        }
        let taken = buf.len().min(self.left);
        self.left -= taken;
        Ok(taken)
    }

    fn flush(&mut self) -> io::Result<()> {
        Ok(())
    }
}

/// What is run.
#[derive(Clone, Copy)]
enum Verb {
    Replay,
    Check,
    Print,
}

/// What is run over a text, whether what it writes is told of a fault, how many octets those are, and the
/// exit status where they can be written. Where fewer can be it is `FAILED`.
const RUNS: &[(Verb, &str, bool, usize, u8)] = &[
    (Verb::Replay, TWO_REQUESTS, false, 78, DONE),
    (Verb::Replay, "bad", true, 12, REFUSED),
    (Verb::Check, ZONE, false, 22, DONE),
    (Verb::Check, "", true, 9, REFUSED),
    (Verb::Print, PRINTED, false, PRINTED.len(), DONE),
];

/// A file that can be read.
fn file<'a>(path: &'a str, text: &'a str) -> File<'a> {
    File {
        path,
        octets: Some(text.as_bytes()),
    }
}

/// The exit status of a script whose writers fail.
fn replayed(alloc: Global, heap: Heap, text: &str, out: Full, err: Full) -> u8 {
    let (config, script) = (file("c", CONFIG), file("s", text));
    let files = [file("f", ZONE)];
    let mut run = Run {
        alloc,
        heap,
        devices: (),
        explain: false,
        out,
        err,
    };
    replay(&mut run, &config, &files, &script)
}

/// That of a zone which is printed.
fn printed(heap: Heap, text: &str, out: &mut Full) -> u8 {
    match zone(heap, "a.", text) {
        Some(zone) if print_zone(&zone, out).is_ok() => DONE,
        _ => FAILED,
    }
}

/// The exit status of a run whose writers fail after so many octets.
fn status(alloc: Global, heap: Heap, verb: Verb, text: &str, out: usize, err: usize) -> u8 {
    let (mut out, mut err) = (Full { left: out }, Full { left: err });
    match verb {
        Verb::Replay => replayed(alloc, heap, text, out, err),
        Verb::Check => check(heap, &file("f", text), "example.", &mut out, &mut err),
        Verb::Print => printed(heap, text, &mut out),
    }
}

#[test]
fn writers_that_fail(rt: HostRuntime) -> Result<(), Fail> {
    let (alloc, heap) = (rt.alloc(), heap(rt.alloc())?);
    for &(verb, text, is_told, needed, whole) in RUNS {
        for left in 0..needed + 2 {
            let (out, err) = if is_told { (0, left) } else { (left, 0) };
            let wanted = if left < needed { FAILED } else { whole };
            let status = status(alloc, heap, verb, text, out, err);
            assert_eq!(rt; status, wanted, "{left} octets of {text}");
        }
    }
    Ok(())
}
