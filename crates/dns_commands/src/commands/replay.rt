//! A script over the zones of a configuration.
ghost use Rattle.std.specs.Prelude.{◌≡◌, length, IfOk};
ghost use Rattle.dns_commands.specs.Frame.{WritesEnd};
ghost use Rattle.dns_commands.specs.Replay.{EndsFromFresh, ReplayEnds};

use crate::commands::check::Index;
use crate::commands::check_configuration::first_too_large;
use crate::frame::Run;
use dns_configuration::{
    DONE, FAILED, Fault, File, REFUSED, ZoneSettings, load_all, read_configuration, settings_of,
    tell,
};
use dns_devices::{DeviceFault, tell_device};
use dns_memory::Heap;
use dns_primary::ZoneSpec;
use dns_replay::{Ending, ScriptDevice, replay_zones};
use dns_sectors::{MemorySectors, Sectors};
use dns_zone::Zone;
use std::io::{self, Write};

/// Runs a script that a file holds over zones that were loaded, and gives the exit status.
fn run_over<W: Write, E: Write>(
    run: &mut Run<(), W, E>,
    zones: Vec<Zone<Index>, Heap>,
    known: Vec<ZoneSpec, Heap>,
    own: &[ZoneSettings],
    script: &File<'_>,
) -> io::Result<u8>
    requires known { length zones.items ≡ length known.items }
    requires own { length own.now ≡ length zones.items }
    ensures { IfOk result (WritesEnd W.contents E.contents run.old run.new
        (EndsFromFresh ⟦<MemorySectors as Sectors>⟧ ⟦<MemorySectors as ScriptDevice>⟧.left_by
        zones.entry.items known.entry.items own.now script.now)) }
{
    let err = &mut run.err;
    let Some(lines) = script.octets else {
        return tell(err, script.path, Fault::Unreadable);
    };
    if let Some(path) = first_too_large(own, &zones) {
        return tell_device(err, path, DeviceFault::ZoneTooLarge, false);
    }
    match replay_zones::<MemorySectors, Index, W>(run.heap, zones, known, lines, &mut run.out) {
        Ok(Ending::Done) => Ok(DONE),
        Ok(Ending::Syntax(line)) => tell(err, script.path, Fault::Syntax(line)),
        Ok(Ending::Refused) => Ok(REFUSED),
        Ok(Ending::Failed) => Ok(FAILED),
        // Each zone has room: a device failed, or memory was refused.
        Err(_) => Ok(FAILED),
    }
}

/// Reads the files, runs the script, and gives the exit status.
fn replayed<W: Write, E: Write>(
    run: &mut Run<(), W, E>,
    config: &File<'_>,
    files: &[File<'_>],
    script: &File<'_>,
) -> io::Result<u8>
    ensures { IfOk result (WritesEnd W.contents E.contents run.old run.new
        (ReplayEnds ⟦<MemorySectors as Sectors>⟧ ⟦<MemorySectors as ScriptDevice>⟧.left_by
        config.now files.now script.now)) }
{
    let settings = match read_configuration(run.alloc, run.heap, config) {
        Ok(configuration) => configuration.zones,
        Err(fault) => return tell(&mut run.err, config.path, fault),
    };
    let known = settings_of(run.heap, &settings)?;
    let loaded: Result<Vec<Zone<Index>, Heap>, _> = load_all(run.heap, files, &settings);
    match loaded {
        Ok(zones) => run_over(run, zones, known, &settings, script),
        Err((path, fault)) => tell(&mut run.err, path, fault),
    }
}

/// Runs a script over the zones that a configuration names, and prints the effects of each line. Faults are
/// reported in one line, the first in this order: the configuration, the master files in the order of the
/// zones, the script, `DEVICE: ZoneTooLarge` of the first zone that takes more sectors than its snapshots
/// have, the script's lines as they run. If a store is refused after a crash, that is printed, and the run
/// ends. Returns the exit status: `DONE`, `REFUSED`, or `FAILED` if a writer or a device failed or memory was
/// refused.
pub fn replay<W: Write, E: Write>(
    run: &mut Run<(), W, E>,
    config: &File<'_>,
    files: &[File<'_>],
    script: &File<'_>,
) -> u8
    ensures { WritesEnd W.contents E.contents run.old run.new
        (ReplayEnds ⟦<MemorySectors as Sectors>⟧ ⟦<MemorySectors as ScriptDevice>⟧.left_by
        config.now files.now script.now) result }
{
    replayed(run, config, files, script).unwrap_or(FAILED)
}
