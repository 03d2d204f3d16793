//! Zones in print.
ghost use Rattle.std.specs.Prelude.{◌≡◌, [], OnOk, filter, flat_map, if◌then◌else◌};
ghost use Rattle.std.specs.Io.KnownBytes.{Appends};
ghost use Rattle.dns_names.specs.Name.{Labels};
ghost use Rattle.dns_zone.specs.Made.{IsSetOf};
ghost use Rattle.dns_masterfile.specs.Meaning.{FileMeans};
ghost use Rattle.dns_masterfile.specs.Printed.{in_print_order, is_wanted, printed_record, printed_zone};

use crate::print::RecordLine;
use dns_records::{Record, types};
use dns_zone::{Records, Zone, ZoneIndex};
use std::io::{self, Write};

/// Whether the record is one of those that are wanted: the SOA, or all others.
fn is_wanted(soa: bool, r: &Record) -> bool
    ensures { result ≡ is_wanted soa r.now }
{
    (r.rtype() == types::SOA) == soa
}

/// Writes the record if it is wanted.
fn print_if<W: Write>(wanted: bool, r: &Record, out: &mut W) -> io::Result<()>
    ensures { OnOk result
        (Appends (W.contents out.old) (W.contents out.new) (if wanted then printed_record r.now else [])) }
{
    if wanted {
        write!(out, "{}", RecordLine(r))?;
    }
    Ok(())
}

/// Writes the records that are wanted, in their order.
fn print_wanted<I: ZoneIndex, W: Write>(index: &I, soa: bool, out: &mut W) -> io::Result<()>
    ensures { OnOk result
        (Appends (W.contents out.old) (W.contents out.new)
        (flat_map printed_record (filter (is_wanted soa) (I.records index.now)))) }
{
    for record in Records::of(index) {
        print_if(is_wanted(soa, record), record, out)?;
    }
    Ok(())
}

/// Writes a zone in its printed form: a line for each record, the SOA first, then the others by owner, type
/// and data. Names are in full. An error of the writer is passed on.
pub fn print_zone<I: ZoneIndex, W: Write>(zone: &Zone<I>, out: &mut W) -> io::Result<()>
    ensures printed { OnOk result
        (Appends (W.contents out.old) (W.contents out.new) (printed_zone zone.now.records)) }
    ensures means { (origin : Labels)
        → FileMeans (printed_zone zone.now.records) origin (in_print_order zone.now.records) }
    ensures keeps { IsSetOf (in_print_order zone.now.records) zone.now.records }
{
    print_wanted(zone.index(), true, out)?;
    print_wanted(zone.index(), false, out)
}
