//! What is worth a second look in zones that are zones. It serves `--explain` alone, and no clause says more
//! of it than that it ends.
use dns_configuration::{File, ZoneSettings, load_one, read_configuration, warn_of_settings};
use dns_layout::snapshot_sectors;
use dns_memory::Heap;
use dns_names::NameRef;
use dns_records::{Record, types};
use dns_store::snapshot_len;
use dns_zone::{Match, Zone, ZoneIndex};
use std::alloc::Global;
use std::io::{self, Write};

/// Whether one of the records is of that type.
fn has_type(records: &[Record], rtype: u16) -> bool {
    records.iter().any(|record| record.rtype() == rtype)
}

/// Whether one of the records is an address.
fn has_address(records: &[Record]) -> bool {
    has_type(records, types::A) || has_type(records, types::AAAA)
}

/// What is missing at the host of a record, if the zone tells: the target of an NS, an MX or an SRV is to
/// have an address, and to be no alias (RFC 2181 section 10.3).
fn lack_of<I: ZoneIndex>(zone: &Zone<I>, host: &NameRef<'_>, rtype: u16) -> Option<&'static str> {
    match zone.find_node(host) {
        Match::Cut(_, _) => {
            if rtype == types::NS && !has_address(zone.index().records_at(host)) {
                return Some("has no glue");
            }
            None
        }
        Match::Name(records) => {
            if has_type(records, types::CNAME) {
                return Some("is an alias");
            }
            if has_address(records) {
                return None;
            }
            Some("has no address")
        }
        Match::Wildcard(_, _) => None,
        Match::Nothing => Some("does not exist"),
    }
}

/// The word of the type of a record that has a host.
fn word_of(rtype: u16) -> &'static str {
    match rtype {
        types::NS => "NS",
        types::MX => "MX",
        _ => "SRV",
    }
}

/// Warns of a record whose host is in the zone and lacks something there.
fn warn_of_host<I: ZoneIndex, E: Write>(
    zone: &Zone<I>,
    record: &Record,
    err: &mut E,
) -> io::Result<()> {
    let Some(host) = record.host() else {
        return Ok(());
    };
    if !host.is_under(&zone.apex().lend()) {
        return Ok(());
    }
    let rtype = record.rtype();
    match lack_of(zone, &host, rtype) {
        Some(lack) => writeln!(
            err,
            "{}: {} {}: {host} {lack}",
            zone.apex(),
            record.owner(),
            word_of(rtype)
        ),
        None => Ok(()),
    }
}

/// Warns of a zone that takes more than four fifths of its sectors.
fn warn_of_size<I: ZoneIndex, E: Write>(
    own: &ZoneSettings,
    zone: &Zone<I>,
    err: &mut E,
) -> io::Result<()> {
    let room = own.snapshot_sectors as usize;
    let taken = snapshot_sectors(snapshot_len(zone));
    if taken.saturating_mul(5) <= room.saturating_mul(4) {
        return Ok(());
    }
    writeln!(
        err,
        "{}: the zone takes {taken} of {room} snapshot_sectors",
        zone.apex()
    )
}

/// Warns of what a zone has that is allowed and may be other than what was meant.
fn warn_of_zone<I: ZoneIndex, E: Write>(
    own: &ZoneSettings,
    zone: &Zone<I>,
    err: &mut E,
) -> io::Result<()> {
    warn_of_size(own, zone, err)?;
    for record in zone.records() {
        warn_of_host(zone, record, err)?;
    }
    Ok(())
}

/// Warns, in a line each, of what a configuration and its master files have that is taken and may be other
/// than what was meant.
pub fn warn_of_configuration<I: ZoneIndex, E: Write>(
    alloc: Global,
    heap: Heap,
    config: &File<'_>,
    files: &[File<'_>],
    err: &mut E,
) -> io::Result<()> {
    warn_of_settings(alloc, config, err)?;
    let Ok(configuration) = read_configuration(alloc, heap, config) else {
        return Ok(());
    };
    for own in &configuration.zones {
        let read: Result<Zone<I>, _> = load_one(heap, files, own);
        if let Ok(zone) = read {
            warn_of_zone(own, &zone, err)?;
        }
    }
    Ok(())
}
