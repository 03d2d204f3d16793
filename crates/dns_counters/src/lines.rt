//! The lines that tell what was counted.
ghost use Rattle.std.specs.Prelude.{◌≡◌, ◌++◌, OnOk};
ghost use Rattle.std.specs.Io.KnownBytes.{Appends};
ghost use Rattle.dns_counters.specs.Lines.{connection_counts, counts_line, flag, journal_counts};
ghost use Rattle.dns_counters.specs.Lines.{query_counts, query_refusals, server_line, snapshot_counts};
ghost use Rattle.dns_counters.specs.Lines.{transfer_counts};
ghost use Rattle.dns_counters.specs.Lines.{update_counts, update_refusals, update_tests, zone_counts};

use crate::Counters;
use dns_names::Name;
use dns_primary::Fullness;
use dns_zone::{Zone, ZoneIndex};
use std::io::{self, Write};

/// Writes how many queries were answered, were no requests, or failed.
fn write_query_counts<W: Write>(out: &mut W, c: &Counters) -> io::Result<()>
    ensures { OnOk result (Appends (W.contents out.old) (W.contents out.new) (query_counts c.now)) }
{
    let [noerror, formerr, servfail, ..] = c.queries;
    write!(
        out,
        "server queries_noerror={noerror} queries_formerr={formerr} queries_servfail={servfail}"
    )
}

/// Writes how many queries got another code, and how many replies were truncated.
fn write_query_refusals<W: Write>(out: &mut W, c: &Counters) -> io::Result<()>
    ensures { OnOk result (Appends (W.contents out.old) (W.contents out.new) (query_refusals c.now)) }
{
    let [_, _, _, nxdomain, notimp, refused, ..] = c.queries;
    let truncated = c.truncated;
    write!(
        out,
        " queries_nxdomain={nxdomain} queries_notimp={notimp} queries_refused={refused} truncated={truncated}"
    )
}

/// Writes the counts of queries.
fn write_queries<W: Write>(out: &mut W, c: &Counters) -> io::Result<()>
    ensures { OnOk result (Appends (W.contents out.old) (W.contents out.new)
        (query_counts c.now ++ query_refusals c.now)) }
{
    write_query_counts(out, c)?;
    write_query_refusals(out, c)
}

/// Writes how many updates were done, were no requests, or failed.
fn write_update_counts<W: Write>(out: &mut W, c: &Counters) -> io::Result<()>
    ensures { OnOk result (Appends (W.contents out.old) (W.contents out.new) (update_counts c.now)) }
{
    let [noerror, formerr, servfail, nxdomain, ..] = c.updates;
    write!(
        out,
        " updates_noerror={noerror} updates_formerr={formerr} updates_servfail={servfail} updates_nxdomain={nxdomain}"
    )
}

/// Writes how many updates were refused as a whole.
fn write_update_refusals<W: Write>(out: &mut W, c: &Counters) -> io::Result<()>
    ensures { OnOk result (Appends (W.contents out.old) (W.contents out.new) (update_refusals c.now)) }
{
    let [_, _, _, _, notimp, refused, _, _, _, notauth, notzone, ..] = c.updates;
    write!(
        out,
        " updates_notimp={notimp} updates_refused={refused} updates_notauth={notauth} updates_notzone={notzone}"
    )
}

/// Writes how many updates failed for a prerequisite (RFC 2136 section 3.2).
fn write_update_tests<W: Write>(out: &mut W, c: &Counters) -> io::Result<()>
    ensures { OnOk result (Appends (W.contents out.old) (W.contents out.new) (update_tests c.now)) }
{
    let [_, _, _, _, _, _, yxdomain, yxrrset, nxrrset, ..] = c.updates;
    write!(
        out,
        " updates_yxdomain={yxdomain} updates_yxrrset={yxrrset} updates_nxrrset={nxrrset}"
    )
}

/// Writes the counts of updates.
fn write_updates<W: Write>(out: &mut W, c: &Counters) -> io::Result<()>
    ensures { OnOk result (Appends (W.contents out.old) (W.contents out.new)
        (update_counts c.now ++ (update_refusals c.now ++ update_tests c.now))) }
{
    write_update_counts(out, c)?;
    write_update_refusals(out, c)?;
    write_update_tests(out, c)
}

/// Writes how many transfers were opened, and how many are open.
fn write_transfer_counts<W: Write>(out: &mut W, c: &Counters) -> io::Result<()>
    ensures { OnOk result (Appends (W.contents out.old) (W.contents out.new) (transfer_counts c.now)) }
{
    let (whole, incremental, sending) = (c.whole, c.incremental, c.open_count());
    write!(
        out,
        " transfers_whole={whole} transfers_incremental={incremental} transfers_open={sending}"
    )
}

/// Writes the counts of connections, and ends the line.
fn write_connection_counts<W: Write>(out: &mut W, c: &Counters) -> io::Result<()>
    ensures { OnOk result (Appends (W.contents out.old) (W.contents out.new) (connection_counts c.now)) }
{
    let (opened, closed, silent, refused) = (c.opened, c.closed, c.silent, c.refused);
    writeln!(
        out,
        " connections_opened={opened} connections_closed={closed} connections_silent={silent} \
         connections_refused={refused}"
    )
}

/// Writes the counts of transfers and connections.
fn write_connections<W: Write>(out: &mut W, c: &Counters) -> io::Result<()>
    ensures { OnOk result (Appends (W.contents out.old) (W.contents out.new)
        (transfer_counts c.now ++ connection_counts c.now)) }
{
    write_transfer_counts(out, c)?;
    write_connection_counts(out, c)
}

/// Writes the line of the server: `server queries_noerror=N ..`, each count since it began.
pub(crate) fn write_counters<W: Write>(out: &mut W, c: &Counters) -> io::Result<()>
    ensures { OnOk result (Appends (W.contents out.old) (W.contents out.new) (server_line c.now)) }
{
    write_queries(out, c)?;
    write_updates(out, c)?;
    write_connections(out, c)
}

/// Writes which version of a zone is shown, and how many records it has.
fn write_version<W: Write, I: ZoneIndex>(
    out: &mut W,
    origin: &Name,
    version: u64,
    zone: &Zone<I>,
) -> io::Result<()>
    ensures { OnOk result
        (Appends (W.contents out.old) (W.contents out.new) (zone_counts origin.now version zone.now)) }
{
    let serial = zone.soa().serial();
    let records = zone.index().len();
    write!(
        out,
        "zone={origin} version={version} serial={serial} records={records}"
    )
}

/// 1 for what is so, and 0 for what isn't.
fn flag(is_so: bool) -> u64
    ensures { result ≡ flag is_so }
{
    if is_so { 1 } else { 0 }
}

/// Writes how many sectors a snapshot takes.
fn write_snapshot_counts<W: Write>(out: &mut W, f: Fullness) -> io::Result<()>
    ensures { OnOk result (Appends (W.contents out.old) (W.contents out.new) (snapshot_counts f)) }
{
    let (taken, sectors) = (f.snapshot_taken, f.snapshot_sectors);
    write!(out, " snapshot_taken={taken} snapshot_sectors={sectors}")
}

/// Writes how many sectors of the journal are left, and ends the line.
fn write_journal_counts<W: Write>(out: &mut W, f: Fullness) -> io::Result<()>
    ensures { OnOk result (Appends (W.contents out.old) (W.contents out.new) (journal_counts f)) }
{
    let (left, sectors, closed) = (f.journal_left, f.journal_sectors, flag(f.is_closed));
    writeln!(
        out,
        " journal_left={left} journal_sectors={sectors} closed={closed}"
    )
}

/// Writes the line of a zone: `zone=ORIGIN version=V serial=M records=N ..`, as it is shown now, and the
/// sectors of its store.
pub(crate) fn write_zone<W: Write, I: ZoneIndex>(
    out: &mut W,
    origin: &Name,
    version: u64,
    zone: &Zone<I>,
    fullness: Fullness,
) -> io::Result<()>
    ensures { OnOk result (Appends (W.contents out.old) (W.contents out.new)
        (counts_line origin.now version zone.now fullness)) }
{
    write_version(out, origin, version, zone)?;
    write_snapshot_counts(out, fullness)?;
    write_journal_counts(out, fullness)
}
