//! The check of a master file.
ghost use Rattle.std.specs.Prelude.{IfOk, OnOk};
ghost use Rattle.std.specs.Option.{option_copied};
ghost use Rattle.std.specs.Io.KnownBytes.{Appends};
ghost use Rattle.dns_configuration.specs.Faults.{line};
ghost use Rattle.dns_commands.specs.Check.{CheckEnds, ok_text};

use dns_configuration::{DONE, FAILED, File, apex, load, tell};
use dns_memory::Heap;
use dns_zone::Zone;
use dns_zoneindex::SharedTree;
use std::io::{self, Write};

/// How the records of a zone are kept.
pub type Index = SharedTree;

/// Prints how many records a zone has, and its serial.
fn print_good<W: Write>(out: &mut W, count: usize, serial: u32) -> io::Result<()>
    ensures { OnOk result (Appends (W.contents out.old) (W.contents out.new) (line (ok_text count serial))) }
{
    writeln!(out, "ok {count} records serial {serial}")
}

/// Reads a master file, prints what is in it or what is wrong, and gives the exit status.
fn checked<W: Write, E: Write>(
    alloc: Heap,
    file: &File<'_>,
    origin: &str,
    out: &mut W,
    err: &mut E,
) -> io::Result<u8>
    ensures { IfOk result
        (λ status. CheckEnds (option_copied file.now.octets) file.now.path.now origin.now (W.contents out.old)
        (W.contents out.new) (E.contents err.old) (E.contents err.new) status) }
{
    let apex = match apex(alloc, origin) {
        Ok(apex) => apex,
        Err(fault) => return tell(err, origin, fault),
    };
    let loaded: Result<(Zone<Index>, usize), _> = load(alloc, file.octets, apex);
    match loaded {
        Ok((zone, count)) => {
            print_good(out, count, zone.soa().serial())?;
            Ok(DONE)
        }
        Err(fault) => tell(err, file.path, fault),
    }
}

/// Reads the master file of a zone whose apex is the text `origin`. Prints `ok N records serial M`, or tells
/// in one line what is wrong:
/// `ORIGIN: BadOrigin`, `FILE: Unreadable`, `FILE:LINE: Fault` of an entry, or `FILE: Fault` of the zone.
/// Gives the exit status:
/// `DONE`, `REFUSED`, or `FAILED` where a writer failed or memory was refused.
pub fn check<W: Write, E: Write>(
    alloc: Heap,
    file: &File<'_>,
    origin: &str,
    out: &mut W,
    err: &mut E,
) -> u8
    ensures { CheckEnds (option_copied file.now.octets) file.now.path.now origin.now (W.contents out.old)
        (W.contents out.new) (E.contents err.old) (E.contents err.new) result }
{
    checked(alloc, file, origin, out, err).unwrap_or(FAILED)
}
