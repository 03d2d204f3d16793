//! What one who mends a refused file of a run is told beside its fault. It serves `--explain` alone, and no
//! clause says more of it than that it ends.
use crate::explain::explain_file;
use dns_configuration::{
    Configuration, Fault, File, PrintedWord, ZoneSettings, apex, explain_configuration, origins_of,
    read_configuration, zone_of,
};
use dns_memory::Heap;
use dns_names::Name;
use dns_replay::{read_command, split_line};
use std::alloc::Global;
use std::io::{self, Write};

/// The commands of a script.
const COMMANDS: &str =
    "udp ADDR HEX, connect ADDR, tcp N HEX, pump N, close N, flush, checkpoint ORIGIN, fail N, stop N, \
crash [ORIGIN=LIST ..] or reopen N [ORIGIN=LIST ..]";

/// Tells which line of a script is no command.
fn explain_script<E: Write>(
    heap: Heap,
    origins: &[Name],
    script: &File<'_>,
    err: &mut E,
) -> io::Result<()> {
    let what = PrintedWord(script.path.as_bytes());
    let mut rest = script.octets;
    let mut number = 0usize;
    for _ in 0..script.octets.unwrap_or(&[]).len() {
        let Some(text) = rest else {
            return Ok(());
        };
        let (line, after) = split_line(text);
        number = number.saturating_add(1);
        rest = after;
        if read_command(heap, origins, line)?.is_none() {
            let met = PrintedWord(line);
            return writeln!(err, "{what}:{number}: '{met}': {COMMANDS} is expected");
        }
    }
    Ok(())
}

/// Tells what is wrong where `replay` refused a file that can be read: the configuration, the first master
/// file, or the script.
pub fn explain_replay<E: Write>(
    alloc: Global,
    heap: Heap,
    config: &File<'_>,
    files: &[File<'_>],
    script: &File<'_>,
    err: &mut E,
) -> io::Result<()> {
    let Some(octets) = config.octets else {
        return Ok(());
    };
    let Ok(configuration) = Configuration::read(alloc, heap, octets) else {
        return explain_configuration(alloc, heap, config, err);
    };
    for zone in &configuration.zones {
        for file in files {
            if file.path == zone.file.as_str() && explain_file(heap, file, &zone.origin, err)? {
                return Ok(());
            }
        }
    }
    let origins = origins_of(heap, &configuration.zones)?;
    explain_script(heap, &origins, script, err)
}

/// Tells which zones there are where one of them is expected, and another name was met.
fn tell_origins<E: Write>(origin: &str, zones: &[ZoneSettings], err: &mut E) -> io::Result<()> {
    let what = PrintedWord(origin.as_bytes());
    write!(err, "{what}: a zone of this configuration is expected:")?;
    let mut before = " ";
    for zone in zones {
        write!(err, "{before}{}", zone.origin)?;
        before = ", ";
    }
    writeln!(err, "")
}

/// Tells what is wrong with the name of a zone, if it is that of no zone of a configuration that can be read.
pub fn explain_origin<E: Write>(
    alloc: Global,
    heap: Heap,
    config: &File<'_>,
    origin: &str,
    err: &mut E,
) -> io::Result<()> {
    let Ok(configuration) = read_configuration(alloc, heap, config) else {
        return Ok(());
    };
    let is_own = match apex(heap, origin) {
        Ok(name) => zone_of(&configuration.zones, &name).is_some(),
        Err(Fault::BadOrigin) => false,
        Err(_) => true,
    };
    if is_own {
        return Ok(());
    }
    tell_origins(origin, &configuration.zones, err)
}
