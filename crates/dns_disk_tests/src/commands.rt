//! Runs of `init`, `dump`, `diff`, `history` and `migrate` over devices in files of the system.
use crate::commands::Before::{First, Left, Nothing, Old, Second};
use crate::commands::Command::{Diff, Dump, DumpAt, History, Init, Migrate};
use crate::old_format::updated;
use crate::stores::read;
use dns_commands::{Run, diff, dump, dump_at, history, init, migrate};
use dns_configuration::File;
use dns_devices::Disk;
use dns_fixtures::plan;
use dns_memory::{Heap, heap};
use dns_sectors::{DiskFile, FileSectors, Sectors};
use dns_zone::RecordList;
use std::fs;
use std::test::Fail;

/// A device in a file of the system.
type Device = FileSectors<DiskFile>;

/// A configuration of two zones.
const CONFIG: &str = "listen = \"127.0.0.1:5300\"
[[zone]]
origin = \"example.\"
file = \"example.zone\"
device = \"example.device\"
snapshot_sectors = 8
journal_sectors = 16
keep = 4
update = []
transfer = []
[[zone]]
origin = \"tiny.\"
file = \"tiny.zone\"
device = \"tiny.device\"
snapshot_sectors = 1
journal_sectors = 8
keep = 4
update = []
transfer = []
";

/// The master file of the first zone, and two of the second: one whose names are relative to its origin, and
/// one with the greatest serial.
const EXAMPLE: &str = "$TTL 3600
@ SOA ns.example.com. hostmaster 7 7200 900 1209600 300
@ NS ns.example.com.
host1 A 192.0.2.1
";

const TINY: &str = "$TTL 3600
@ SOA ns hostmaster 1 7200 900 1209600 300
  NS ns
ns A 192.0.2.53
  AAAA 2001:db8::35
";

const LAST: &str = "$TTL 60
@ SOA ns.example.com. hostmaster 4294967295 7200 900 1209600 300
@ NS ns.example.com.
";

/// One that takes two sectors.
const LARGE: &str = "$TTL 60
@ SOA ns.example.com. hostmaster 4294967295 7200 900 1209600 300
@ NS ns.example.com.
a TXT aaaaaaaaaaaaaaaaaaaaaaaaaaaaaaaaaaaaaaaaaaaaaaaaaaaaaaaaaaaaaaaaaaaaaaaaaaaaaaaaaaaaaaaaaaaaaaaa
b TXT bbbbbbbbbbbbbbbbbbbbbbbbbbbbbbbbbbbbbbbbbbbbbbbbbbbbbbbbbbbbbbbbbbbbbbbbbbbbbbbbbbbbbbbbbbbbbbbb
c TXT cccccccccccccccccccccccccccccccccccccccccccccccccccccccccccccccccccccccccccccccccccccccccccccccc
d TXT dddddddddddddddddddddddddddddddddddddddddddddddddddddddddddddddddddddddddddddddddddddddddddddddd
";

/// One that is no zone.
const NO_TTL: &str = "@ NS ns\n";

/// What is printed of the first zone.
const PRINTED: &str =
    "example. 3600 IN SOA ns.example.com. hostmaster.example. 7 7200 900 1209600 300
example. 3600 IN NS ns.example.com.
host1.example. 3600 IN A 192.0.2.1
";

/// What is printed of the second.
const TINY_PRINTED: &str = "tiny. 3600 IN SOA ns.tiny. hostmaster.tiny. 1 7200 900 1209600 300
tiny. 3600 IN NS ns.tiny.
ns.tiny. 3600 IN A 192.0.2.53
ns.tiny. 3600 IN AAAA 2001:db8:0:0:0:0:0:35
";

/// What is printed of the example with its change.
const CHANGED: &str =
    "example. 3600 IN SOA ns.example.com. hostmaster.example. 8 7200 900 1209600 300
example. 3600 IN NS ns.example.com.
example. 3600 IN NS ns.example.net.
*.example. 3600 IN MX 10 host1.example.
*.example. 3600 IN TXT \"this is a wildcard\"
sub.*.example. 3600 IN TXT \"this is not a wildcard\"
host1.example. 3600 IN A 192.0.2.1
_ssh._tcp.host1.example. 3600 IN SRV 0 0 22 host1.example.
_ssh._tcp.host2.example. 3600 IN SRV 0 0 22 host2.example.
subdel.example. 3600 IN NS ns.example.com.
subdel.example. 3600 IN NS ns.example.net.
t.example. 60 IN TXT \"x\"
";

/// What is printed of the example as it was before.
const UNCHANGED: &str =
    "example. 3600 IN SOA ns.example.com. hostmaster.example. 7 7200 900 1209600 300
example. 3600 IN NS ns.example.com.
example. 3600 IN NS ns.example.net.
*.example. 3600 IN MX 10 host1.example.
*.example. 3600 IN TXT \"this is a wildcard\"
sub.*.example. 3600 IN TXT \"this is not a wildcard\"
host1.example. 3600 IN A 192.0.2.1
_ssh._tcp.host1.example. 3600 IN SRV 0 0 22 host1.example.
_ssh._tcp.host2.example. 3600 IN SRV 0 0 22 host2.example.
subdel.example. 3600 IN NS ns.example.com.
subdel.example. 3600 IN NS ns.example.net.
";

/// Its versions, and with the records of its change.
const VERSIONS: &str = "version 0 serial 7\nversion 1 serial 8, 1 added, 0 removed\n";

const RECORDS: &str = "version 0 serial 7
version 1 serial 8, 1 added, 0 removed
- example. 3600 IN SOA ns.example.com. hostmaster.example. 7 7200 900 1209600 300
+ example. 3600 IN SOA ns.example.com. hostmaster.example. 8 7200 900 1209600 300
+ t.example. 60 IN TXT \"x\"
";

/// The change alone, the one back, and the lines that undo it.
const FORWARD: &str =
    "- example. 3600 IN SOA ns.example.com. hostmaster.example. 7 7200 900 1209600 300
+ example. 3600 IN SOA ns.example.com. hostmaster.example. 8 7200 900 1209600 300
+ t.example. 60 IN TXT \"x\"
";

const BACK: &str =
    "- example. 3600 IN SOA ns.example.com. hostmaster.example. 8 7200 900 1209600 300
- t.example. 60 IN TXT \"x\"
+ example. 3600 IN SOA ns.example.com. hostmaster.example. 7 7200 900 1209600 300
";

const UNDONE: &str = "zone example.\nupdate delete t.example. 60 IN TXT \"x\"\nsend\n";

/// What is told of a serial that no version has.
const NO_VERSION: &str =
    "6: NoVersion\n6: no journalled version has that serial; history lists them\n";

/// A command, and whether advice is wanted: `init` with this file of the second zone; `dump` of a zone, or of
/// the first one at a serial; `diff` of two serials of it, or the lines that undo that; `history` of a zone,
/// with the records.
#[derive(Clone, Copy)]
enum Command {
    Init(&'static str, bool),
    Dump(&'static str, bool),
    DumpAt(u32, bool),
    Diff(u32, Option<u32>, bool),
    History(&'static str, bool),
    Migrate(bool),
}

/// `dump` of the first zone, and `migrate`.
const DUMP: Command = Dump("example.", false);

const MIGRATE: Command = Migrate(false);

/// A file with this text.
fn file<'a>(path: &'a str, text: &'a str) -> File<'a> {
    File {
        path,
        octets: Some(text.as_bytes()),
    }
}

/// Whether advice is wanted.
fn explains(command: Command) -> bool {
    match command {
        Init(_, explain) | Dump(_, explain) | DumpAt(_, explain) | Migrate(explain) => explain,
        Diff(_, _, _) | History(_, _) => false,
    }
}

/// The exit status of a command.
fn status_of(
    run: &mut Run<Disk<'_, HostRuntime>, &mut Vec<u8>, &mut Vec<u8>>,
    command: Command,
) -> u8 {
    let config = file("dnsprim.toml", CONFIG);
    match command {
        Init(other, _) => {
            let files = [file("example.zone", EXAMPLE), file("tiny.zone", other)];
            init::<Device, _, RecordList, _, _>(run, &config, None, &files)
        }
        Dump(origin, _) => dump::<Device, _, RecordList, _, _>(run, &config, origin),
        DumpAt(serial, _) => {
            dump_at::<Device, _, RecordList, _, _>(run, &config, "example.", serial)
        }
        Diff(from, to, as_update) => {
            diff::<Device, _, RecordList, _, _>(run, &config, "example.", from, to, as_update)
        }
        History(origin, with_records) => {
            history::<Device, _, RecordList, _, _>(run, &config, origin, with_records)
        }
        Migrate(_) => migrate::<Device, _, RecordList, _, _>(run, &config),
    }
}

/// The exit status of a command, and what it wrote to the two writers.
fn run_command(
    rt: &HostRuntime,
    heap: Heap,
    command: Command,
    out: &mut Vec<u8>,
    err: &mut Vec<u8>,
) -> u8 {
    let mut run = Run {
        alloc: rt.alloc(),
        heap,
        devices: Disk(rt),
        explain: explains(command),
        out,
        err,
    };
    status_of(&mut run, command)
}

/// What is at the paths of the devices before a command: what the one before left, or in place of the first
/// device one of format 1; nothing; or a file at the first or the second, which begins with these octets and
/// then has one throughout, up to this length.
#[derive(Clone, Copy)]
enum Before {
    Left,
    Old,
    Nothing,
    First(&'static [u8], u8, usize),
    Second(&'static [u8], u8, usize),
}

/// A file with these octets, and then one throughout, up to this length; in place of what is there.
fn put(rt: &HostRuntime, path: &str, front: &[u8], rest: u8, len: usize) -> Result<(), Fail> {
    let mut octets = Vec::from_slice(rt.alloc(), front)?;
    octets.resize(len, rest)?;
    let _written = fs::write(rt, path, &octets);
    Ok(())
}

/// The octets of a device of format 1: the example with its change.
fn old(rt: &HostRuntime, heap: Heap) -> Option<Vec<u8>> {
    let mut device = updated(heap, plan(heap)?, 1)?;
    let mut octets = Vec::new(rt.alloc());
    for at in 0..device.len() {
        octets.extend_from_slice(&read(&mut device, at)?).ok()?;
    }
    Some(octets)
}

/// Puts it in the place of the first device.
fn put_old(rt: &HostRuntime, heap: Heap) -> Result<(), Fail> {
    let octets = old(rt, heap).ok_or("a device of format 1")?;
    let _written = fs::write(rt, "example.device", &octets);
    Ok(())
}

/// Puts it there; each test runs in a process of its own, one after the other.
fn prepare(rt: &HostRuntime, heap: Heap, before: Before) -> Result<(), Fail> {
    match before {
        Left => return Ok(()),
        Old => return put_old(rt, heap),
        _ => {}
    }
    for path in ["example.device", "tiny.device"] {
        let _removed = fs::remove_file(rt, path);
    }
    match before {
        First(front, rest, len) => put(rt, "example.device", front, rest, len),
        Second(front, rest, len) => put(rt, "tiny.device", front, rest, len),
        _ => Ok(()),
    }
}

/// A root of sector format 1, of the zone `example.` with 8 and 16 sectors, up to the last octet that is not
/// 0.
const ROOT: &[u8] = b"DPR1\0\0\0\0\0\0\0\0\0\0\0\0\0\0\0\0\0\0\0\0\0\0\0\0\0\0\0\0\0\0\0\0\0\0\
\x01\xda\0\0\0\x08\0\0\0\x10\x07example";

/// What is printed when both devices are made, with the one file of the second zone and with the other.
const FORMATTED: &str = "formatted example. serial 7\nformatted tiny. serial 1\n";

const FORMATTED_LAST: &str = "formatted example. serial 7\nformatted tiny. serial 4294967295\n";

/// What is told if the second zone doesn't fit: nothing is printed, and both devices are removed.
const TOO_LARGE: &str = "tiny.device: ZoneTooLarge\n";

const EXISTS: &str =
    "tiny.device: Exists\ntiny.device: init makes new files alone; move the file away, or serve it\n";

/// What can be done about a damaged sector, and about a device of format 1.
const DAMAGED: &str =
    "example.device: Damaged(0)\nexample.device: that sector is not what was written there; \
a copy of the file, or its master file and init, restores it\n";

const OLD_FORMAT: &str =
    "example.device: OldFormat\nexample.device: the file was made in an older sector \
format; migrate makes it new\n";

/// How many octets the device of the first zone has.
const LEN: usize = 512 * 49;

/// Commands, each with what is there before, the status, and what is printed and told. Faults of files come
/// before any device is made.
const RUNS: [(Before, Command, u8, &str); 47] = [
    (Nothing, Init(TINY, false), 0, FORMATTED),
    (Left, Init(TINY, false), 1, "example.device: Exists\n"),
    (Left, DUMP, 0, PRINTED),
    (Left, Dump("tiny.", false), 0, TINY_PRINTED),
    (Left, MIGRATE, 0, "example. already\ntiny. already\n"),
    (Left, DUMP, 0, PRINTED),
    (Left, Dump("none.", false), 1, "none.: BadOrigin\n"),
    (Left, Dump("a..b", false), 1, "a..b: BadOrigin\n"),
    (Second(b"", 0, 1), Init(LAST, true), 1, EXISTS),
    (Left, DUMP, 3, "example.device: Device\n"),
    (Nothing, Init(NO_TTL, false), 1, "tiny.zone:1: NoTtl\n"),
    (Left, DUMP, 3, "example.device: Device\n"),
    (Nothing, Init(LARGE, false), 1, TOO_LARGE),
    (Left, Dump("tiny.", false), 3, "tiny.device: Device\n"),
    (First(b"", 0, LEN), DUMP, 1, "example.device: Blank\n"),
    (First(b"", 1, LEN), DUMP, 1, "example.device: Damaged(0)\n"),
    (Left, Dump("example.", true), 1, DAMAGED),
    (Left, Migrate(true), 1, DAMAGED),
    (
        First(b"", 0, LEN + 1),
        DUMP,
        1,
        "example.device: Geometry\n",
    ),
    (Left, MIGRATE, 1, "example.device: Geometry\n"),
    (First(ROOT, 0, LEN), DUMP, 1, "example.device: OldFormat\n"),
    (Left, Dump("example.", true), 1, OLD_FORMAT),
    (Left, MIGRATE, 1, "example.device: Damaged(1)\n"),
    (Nothing, MIGRATE, 3, "example.device: Device\n"),
    (Nothing, Init(LAST, false), 0, FORMATTED_LAST),
    (Old, DUMP, 1, "example.device: OldFormat\n"),
    (
        Left,
        MIGRATE,
        0,
        "migrated example. version 1 serial 8\ntiny. already\n",
    ),
    (Left, MIGRATE, 0, "example. already\ntiny. already\n"),
    (Left, DUMP, 0, CHANGED),
    (Left, History("example.", false), 0, VERSIONS),
    (Left, History("example.", true), 0, RECORDS),
    (Left, History("none.", false), 1, "none.: BadOrigin\n"),
    (
        Left,
        History("tiny.", true),
        0,
        "version 0 serial 4294967295\n",
    ),
    (Left, DumpAt(8, false), 0, CHANGED),
    (Left, DumpAt(7, false), 0, UNCHANGED),
    (Left, DumpAt(6, true), 1, NO_VERSION),
    (Left, DumpAt(9, false), 1, "9: NoVersion\n"),
    (Left, Diff(7, None, false), 0, FORWARD),
    (Left, Diff(8, Some(7), false), 0, BACK),
    (Left, Diff(8, None, false), 0, "example. unchanged\n"),
    (Left, Diff(7, Some(8), true), 0, UNDONE),
    (Left, Diff(8, Some(8), true), 0, ""),
    (Left, Diff(6, Some(9), false), 1, "6: NoVersion\n"),
    (Left, Diff(7, Some(9), false), 1, "9: NoVersion\n"),
    (Nothing, DumpAt(7, false), 3, "example.device: Device\n"),
    (
        First(b"", 0, LEN),
        History("example.", false),
        1,
        "example.device: Blank\n",
    ),
    (Left, DumpAt(7, false), 1, "example.device: Blank\n"),
];

/// Whether a command ends with this status, and writes this: what is printed before what is told, which is
/// nothing where it is done.
fn ends(rt: &HostRuntime, heap: Heap, command: Command, status: u8, text: &str) -> bool {
    let (mut out, mut err) = (Vec::new(rt.alloc()), Vec::new(rt.alloc()));
    let ended = run_command(rt, heap, command, &mut out, &mut err);
    let is_told = err.is_empty() == (status == 0);
    ended == status
        && is_told
        && out.extend_from_slice(&err).is_ok()
        && out.as_slice() == text.as_bytes()
}

/// The octets of the files of the two devices, if they are there.
fn devices(rt: &HostRuntime) -> [Option<Vec<u8>>; 2] {
    [
        fs::read(rt, "example.device").ok(),
        fs::read(rt, "tiny.device").ok(),
    ]
}

/// The commands in turn, of which an `init` that is refused changes no file; and a device that is served is
/// neither shown nor migrated.
#[test]
fn commands(rt: HostRuntime) -> Result<(), Fail> {
    let heap = heap(rt.alloc())?;
    for (i, (before, command, status, text)) in RUNS.iter().enumerate() {
        prepare(&rt, heap, *before)?;
        let files = devices(&rt);
        assert!(rt; ends(&rt, heap, *command, *status, text), "run {i}");
        if let (Init(_, _), 1) = (*command, *status) {
            assert!(rt; files == devices(&rt), "run {i}");
        }
    }
    let served = FileSectors::open(&rt, "example.device");
    assert!(rt; served.is_ok());
    for command in [DUMP, MIGRATE, DumpAt(7, false), History("example.", false)] {
        assert!(rt; ends(&rt, heap, command, 3, "example.device: Device\n"));
    }
    Ok(())
}
