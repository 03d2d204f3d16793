//! The zones that the master files of a configuration hold.
ghost use Rattle.std.specs.Prelude.{◌≡◌, ◌⊎◌, true, List, length, Ok, Err, IfOk, IfErr, MatchResult};
ghost use Rattle.std.specs.List.{AllZip};
ghost use Rattle.std.specs.Option.{option_copied};
ghost use Rattle.dns_records.specs.Record.{Record};
ghost use Rattle.dns_zone.specs.Made.{IsSetOf};
ghost use Rattle.dns_configuration.specs.Faults.{is_memory, loaded};
ghost use Rattle.dns_configuration.specs.Files.{IsFirstFault, IsLoadedFrom, loaded_by, octets_at};

use crate::configuration::ZoneSettings;
use crate::files::{Fault, File};
use dns_masterfile::read_zone;
use dns_memory::Heap;
use dns_names::Name;
use dns_zone::{Zone, ZoneIndex};

/// The zone of an apex that a master file holds, and how many records it has.
pub fn load<I: ZoneIndex>(
    heap: Heap,
    octets: Option<&[u8]>,
    apex: Name,
) -> Result<(Zone<I>, usize), Fault>
    ensures found { IfOk result
        (λ z. (records : List Record)
        × (loaded (option_copied octets.entry) apex ≡ Ok records)
        × (z.1 ≡ length records)
        × (z.0.apex ≡ apex)
        × IsSetOf records z.0.records) }
    ensures refused { IfErr result
        (λ f. (is_memory f ≡ true) ⊎ (loaded (option_copied octets.entry) apex ≡ Err f)) }
{
    let Some(octets) = octets else {
        return Err(Fault::Unreadable);
    };
    let records = match read_zone(heap, octets, &apex) {
        Ok(records) => records,
        Err((line, error)) => return Err(Fault::Entry(line, error)),
    };
    let count = records.len();
    match Zone::from_records(heap, apex, records) {
        Ok(zone) => Ok((zone, count)),
        Err(error) => Err(Fault::NoZone(error)),
    }
}

/// The octets of the file of a path, if it is given and can be read.
fn octets_at<'a>(files: &[File<'a>], path: &str) -> Option<&'a [u8]>
    ensures { option_copied result ≡ octets_at files.now path.now }
{
    for file in files {
        if file.path == path {
            return file.octets;
        }
    }
    None
}

/// The zone that the master file of a configured one holds.
pub fn load_one<I: ZoneIndex>(
    heap: Heap,
    files: &[File<'_>],
    own: &ZoneSettings,
) -> Result<Zone<I>, Fault>
    ensures { MatchResult result (IsLoadedFrom files.now own.now)
        (λ f. (is_memory f ≡ true) ⊎ (loaded_by files.now own.now ≡ Err f)) }
{
    let Ok(apex) = own.origin.clone() else {
        return Err(Fault::OutOfMemory);
    };
    match load(heap, octets_at(files, &own.file), apex) {
        Ok((zone, _)) => Ok(zone),
        Err(fault) => Err(fault),
    }
}

/// The zones of these settings, each with what its master file holds, or the path of the first file that
/// holds none, and why.
pub fn load_all<'s, I: ZoneIndex>(
    heap: Heap,
    files: &[File<'_>],
    settings: &'s [ZoneSettings],
) -> Result<Vec<Zone<I>, Heap>, (&'s str, Fault)>
    ensures { MatchResult result (λ zones. AllZip (IsLoadedFrom files.now) settings.now zones.items)
        (λ e. (is_memory e.1 ≡ true) ⊎ IsFirstFault files.now settings.now e.0.now e.1) }
{
    let mut zones = Vec::new(heap);
    for own in settings {
        match load_one(heap, files, own) {
            Ok(zone) => match zones.push(zone) {
                Ok(()) => {}
                Err(_) => return Err((&own.file, Fault::OutOfMemory)),
            },
            Err(fault) => return Err((&own.file, fault)),
        }
    }
    Ok(zones)
}
