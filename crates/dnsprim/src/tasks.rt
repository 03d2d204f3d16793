//! The commands, each over the files that its words name.
ghost use Rattle.std.specs.Prelude.{Some, IfOk};
ghost use Rattle.std.specs.Option.{option_copied};
ghost use Rattle.std.specs.List.{AllZip};
ghost use Rattle.dns_configuration.specs.Calls.{Calls};
ghost use Rattle.dns_commands.specs.Check.{CheckEnds};
ghost use Rattle.dns_commands.specs.CheckConfiguration.{ConfigurationCheckEnds};
ghost use Rattle.dns_commands.specs.Frame.{RunEnds, WritesEnd};
ghost use Rattle.dns_commands.specs.Inputs.{IsInput, inputs_of};
ghost use Rattle.dns_commands.specs.Migrate.{MigrateEnds};
ghost use Rattle.dns_commands.specs.Replay.{ReplayEnds};
ghost use Rattle.dnsprim.specs.Tasks.{DiffsBy, DumpsBy, FetchesBy, ListsBy, LoadsFileBy, MakesBy};
ghost use Rattle.dnsprim.specs.Tasks.{OverFile, OverFiles, OverScript, ReadsSince, ServesBy, VerifiesBy};

use crate::command::{
    Checking, Diffing, Dumping, Fetching, Listing, Loading, Making, Replaying, Serving, Verifying,
};
use dns_commands::{
    Index, Inputs, Run, check, check_configuration, compare, diff, dump, dump_at, file, history,
    init, load, master_files, migrate, replay, verify,
};
use dns_configuration::File;
use dns_devices::{Devices, DevicesToRead, NewDevices};
use dns_diagnostics::Logger;
use dns_fetch::{FetchRequest, Servers, WaitingStream, Watch, fetch};
use dns_memory::Heap;
use dns_replay::ScriptDevice;
use dns_sectors::{MemorySectors, Sectors};
use dns_service::{Host, ServeOptions, Streams, serve};
use std::alloc::{AllocError, Global};
use std::io::{self, Write};
use std::net::Net;
use std::time::Clock;

/// Files as they were read, each with its path.
pub fn files_in(
    alloc: Global,
    texts: &[(String, Option<Vec<u8>>)],
) -> Result<Vec<File<'_>>, AllocError>
    ensures { IfOk result (λ files. AllZip IsInput files.items (inputs_of texts.now)) }
{
    let mut files = Vec::new(alloc);
    for (path, text) in texts {
        files.push(file(path, text))?;
    }
    Ok(files)
}

/// Checks a master file, and returns the exit status.
pub fn check_file<N: Inputs, W: Write, E: Write>(
    inputs: &mut N,
    run: &mut Run<(), W, E>,
    words: Checking<'_>,
) -> io::Result<u8>
    ensures { OverFile N.reads inputs.old inputs.new words.entry.file.now result
        (λ f. WritesEnd W.contents E.contents run.old run.new
        (CheckEnds (option_copied f.octets) f.path.now words.entry.origin.now)) }
{
    let text = inputs.octets(words.file)?;
    let input = file(words.file, &text);
    Ok(check(run.heap, &input, words.origin, &mut run.out, &mut run.err))
}

/// Checks a configuration and its master files, and returns the exit status.
pub fn check_files<N: Inputs, W: Write, E: Write>(
    inputs: &mut N,
    run: &mut Run<(), W, E>,
    config: &str,
) -> io::Result<u8>
    ensures { OverFiles N.reads inputs.old inputs.new config.now result
        (λ config files. WritesEnd W.contents E.contents run.old run.new
        (ConfigurationCheckEnds config files run.old.explain)) }
{
    let text = inputs.octets(config)?;
    let config = file(config, &text);
    let texts = master_files(run.alloc, run.heap, inputs, &config)?;
    let files = files_in(run.alloc, &texts)?;
    Ok(check_configuration::<Index, W, E>(run, &config, &files))
}

/// Runs a script over the zones of a configuration, and returns the exit status.
pub fn replay_files<N: Inputs, W: Write, E: Write>(
    inputs: &mut N,
    run: &mut Run<(), W, E>,
    words: Replaying<'_>,
) -> io::Result<u8>
    ensures { OverScript N.reads inputs.old inputs.new words.entry result
        (λ script config files. WritesEnd W.contents E.contents run.old run.new
        (ReplayEnds ⟦<MemorySectors as Sectors>⟧ ⟦<MemorySectors as ScriptDevice>⟧.left_by config files
        script)) }
{
    let script_text = inputs.octets(words.script)?;
    let script = file(words.script, &script_text);
    let text = inputs.octets(words.config)?;
    let config = file(words.config, &text);
    let texts = master_files(run.alloc, run.heap, inputs, &config)?;
    let files = files_in(run.alloc, &texts)?;
    Ok(replay(run, &config, &files, &script))
}

/// Makes devices, and returns the exit status.
pub fn init_files<N: Inputs, D: Sectors + Drop, F: NewDevices<D>, W: Write, E: Write>(
    inputs: &mut N,
    run: &mut Run<F, W, E>,
    words: Making<'_>,
) -> io::Result<u8>
    ensures { OverFiles N.reads inputs.old inputs.new words.entry.config.now result
        (λ config files status. RunEnds F.calls W.contents E.contents run.old run.new status
        (MakesBy D.Sectors words.entry config files)) }
{
    let text = inputs.octets(words.config)?;
    let config = file(words.config, &text);
    let texts = master_files(run.alloc, run.heap, inputs, &config)?;
    let files = files_in(run.alloc, &texts)?;
    Ok(init::<D, F, Index, W, E>(run, &config, words.origin, &files))
}

/// Prints what a device keeps, as it is or as it was at a serial, and returns the exit status.
fn dump_by<D: Sectors + Drop, F: Devices<D>, W: Write, E: Write>(
    run: &mut Run<F, W, E>,
    config: &File<'_>,
    words: Dumping<'_>,
) -> u8
    ensures { RunEnds F.calls W.contents E.contents run.old run.new result
        (DumpsBy D.Sectors words.entry config.now) }
{
    match words.serial {
        Some(serial) => dump_at::<D, F, Index, W, E>(run, config, words.origin, serial),
        None => dump::<D, F, Index, W, E>(run, config, words.origin),
    }
}

/// Does that by the configuration that the words name.
pub fn dump_file<N: Inputs, D: Sectors + Drop, F: Devices<D>, W: Write, E: Write>(
    inputs: &mut N,
    run: &mut Run<F, W, E>,
    words: Dumping<'_>,
) -> io::Result<u8>
    ensures { OverFile N.reads inputs.old inputs.new words.entry.config.now result
        (λ config status. RunEnds F.calls W.contents E.contents run.old run.new status
        (DumpsBy D.Sectors words.entry config)) }
{
    let text = inputs.octets(words.config)?;
    let config = file(words.config, &text);
    Ok(dump_by::<D, F, W, E>(run, &config, words))
}

/// Prints the difference of two versions that a device keeps, and returns the exit status.
pub fn diff_file<N: Inputs, D: Sectors + Drop, F: Devices<D>, W: Write, E: Write>(
    inputs: &mut N,
    run: &mut Run<F, W, E>,
    words: Diffing<'_>,
) -> io::Result<u8>
    ensures { OverFile N.reads inputs.old inputs.new words.entry.config.now result
        (λ config status. RunEnds F.calls W.contents E.contents run.old run.new status
        (DiffsBy D.Sectors words.entry config)) }
{
    let text = inputs.octets(words.config)?;
    let config = file(words.config, &text);
    Ok(diff::<D, F, Index, W, E>(
        run,
        &config,
        words.origin,
        words.from,
        words.to,
        words.as_update,
    ))
}

/// Prints the versions that a device keeps, and returns the exit status.
pub fn history_file<N: Inputs, D: Sectors + Drop, F: Devices<D>, W: Write, E: Write>(
    inputs: &mut N,
    run: &mut Run<F, W, E>,
    words: Listing<'_>,
) -> io::Result<u8>
    ensures { OverFile N.reads inputs.old inputs.new words.entry.config.now result
        (λ config status. RunEnds F.calls W.contents E.contents run.old run.new status
        (ListsBy D.Sectors words.entry config)) }
{
    let text = inputs.octets(words.config)?;
    let config = file(words.config, &text);
    Ok(history::<D, F, Index, W, E>(run, &config, words.origin, words.records))
}

/// Loads a zone's master file, or prints what that would change, and returns the exit status.
fn load_by<D: Sectors + Drop, F: Devices<D>, W: Write, E: Write>(
    run: &mut Run<F, W, E>,
    config: &File<'_>,
    files: &[File<'_>],
    words: Loading<'_>,
) -> u8
    ensures { RunEnds F.calls W.contents E.contents run.old run.new result
        (LoadsFileBy D.Sectors words.entry config.now files.now) }
{
    match words.dry_run {
        true => compare::<D, F, Index, W, E>(run, config, files, words.origin),
        false => load::<D, F, Index, W, E>(run, config, files, words.origin),
    }
}

/// Does that by the configuration that the words name, and its master files.
pub fn load_files<N: Inputs, D: Sectors + Drop, F: Devices<D>, W: Write, E: Write>(
    inputs: &mut N,
    run: &mut Run<F, W, E>,
    words: Loading<'_>,
) -> io::Result<u8>
    ensures { OverFiles N.reads inputs.old inputs.new words.entry.config.now result
        (λ c files status. RunEnds F.calls W.contents E.contents run.old run.new status
        (LoadsFileBy D.Sectors words.entry c files)) }
{
    let text = inputs.octets(words.config)?;
    let config = file(words.config, &text);
    let texts = master_files(run.alloc, run.heap, inputs, &config)?;
    let files = files_in(run.alloc, &texts)?;
    Ok(load_by::<D, F, W, E>(run, &config, &files, words))
}

/// Migrates devices, and returns the exit status.
pub fn migrate_file<N: Inputs, D: Sectors + Drop, F: Devices<D>, W: Write, E: Write>(
    inputs: &mut N,
    run: &mut Run<F, W, E>,
    config: &str,
) -> io::Result<u8>
    ensures { OverFile N.reads inputs.old inputs.new config.now result
        (λ config status. RunEnds F.calls W.contents E.contents run.old run.new status
        (MigrateEnds D.Sectors config)) }
{
    let text = inputs.octets(config)?;
    let config = file(config, &text);
    Ok(migrate::<D, F, Index, W, E>(run, &config))
}

/// Reads devices, tells what a start would find, and returns the exit status.
pub fn verify_file<N: Inputs, D: Sectors + Drop, F: DevicesToRead<D>, W: Write, E: Write>(
    inputs: &mut N,
    run: &mut Run<F, W, E>,
    words: Verifying<'_>,
) -> io::Result<u8>
    ensures { OverFile N.reads inputs.old inputs.new words.entry.config.now result
        (λ config status. RunEnds F.calls W.contents E.contents run.old run.new status
        (VerifiesBy D.Sectors words.entry config)) }
{
    let text = inputs.octets(words.config)?;
    let config = file(words.config, &text);
    Ok(verify::<D, F, Index, W, E>(run, &config, words.origin, words.every_sector))
}

/// What `serve` runs with: memory and the system, devices by their paths, and where it prints, reports and
/// records.
#[derive(Drop)]
pub struct ServeRun<'a, R, F, O, E, W> {
    pub host: Host<'a, R>,
    /// Whether a second line of an error says what can be done.
    pub explain: bool,
    pub devices: F,
    pub streams: Streams<O, E, W>,
}

/// Serves, and returns the exit status.
pub fn serve_file<
    N: Inputs,
    D: Sectors + Drop,
    F: Devices<D>,
    R: Net + Clock + Logger,
    O: Write,
    E: Write,
    W: Write,
>(inputs: &mut N, run: &mut ServeRun<'_, R, F, O, E, W>, words: Serving<'_>) -> io::Result<u8>
    ensures { OverFile N.reads inputs.old inputs.new words.entry.config.now result
        (ServesBy D.Sectors F.calls O.contents E.contents W.contents run.old run.new words.entry) }
{
    let text = inputs.octets(words.config)?;
    let config = file(words.config, &text);
    let options = ServeOptions {
        turns: words.turns,
        is_quiet: words.quiet,
        count_every: words.count_every,
        log_level: words.log_level,
        is_recorded: words.record.is_some(),
        explain: run.explain,
    };
    Ok(serve::<D, F, Index, R, O, E, W>(
        &run.host,
        &mut run.devices,
        &config,
        options,
        &mut run.streams,
    ))
}

/// What `fetch` runs with: memory, servers by their addresses, what is told while it waits, and where it
/// prints and reports.
#[derive(Drop)]
pub struct FetchRun<V, P, W, E> {
    pub heap: Heap,
    pub servers: V,
    /// Whether a second line of an error says what can be done.
    pub explain: bool,
    pub watch: P,
    pub out: W,
    pub err: E,
}

/// Takes a zone in, of which this file holds an older version, and returns the exit status.
fn fetch_from<S: WaitingStream + Drop, V: Servers<S>, P: Watch, W: Write, E: Write>(
    run: &mut FetchRun<V, P, W, E>,
    words: Fetching<'_>,
    since: Option<&File<'_>>,
) -> u8
    ensures { FetchesBy S.Stream V.calls W.contents E.contents run.old run.new words.entry
        (option_copied since.entry) result }
{
    let asked = FetchRequest {
        server: words.server,
        origin: words.origin,
        since,
        explain: run.explain,
    };
    fetch::<S, V, Index, P, W, E>(
        run.heap,
        &mut run.servers,
        asked,
        &mut run.watch,
        &mut run.out,
        &mut run.err,
    )
}

/// Takes a zone in, of which the file at this path holds an older version, and returns the exit status.
fn fetch_since<N: Inputs, S: WaitingStream + Drop, V: Servers<S>, P: Watch, W: Write, E: Write>(
    inputs: &mut N,
    run: &mut FetchRun<V, P, W, E>,
    words: Fetching<'_>,
    path: &str,
) -> io::Result<u8>
    ensures { OverFile N.reads inputs.old inputs.new path.now result
        (λ since. FetchesBy S.Stream V.calls W.contents E.contents run.old run.new words.entry (Some since)) }
{
    let text = inputs.octets(path)?;
    let held = file(path, &text);
    Ok(fetch_from::<S, V, P, W, E>(run, words, Some(&held)))
}

/// Takes a zone in from another server, and returns the exit status.
pub fn fetch_zone<N: Inputs, S: WaitingStream + Drop, V: Servers<S>, P: Watch, W: Write, E: Write>(
    inputs: &mut N,
    run: &mut FetchRun<V, P, W, E>,
    words: Fetching<'_>,
) -> io::Result<u8>
    ensures { Calls (N.reads inputs.old) (N.reads inputs.new)
        (λ reads. ReadsSince reads (option_copied words.entry.since) result
        (FetchesBy S.Stream V.calls W.contents E.contents run.old run.new words.entry)) }
{
    match words.since {
        Some(path) => fetch_since::<N, S, V, P, W, E>(inputs, run, words, path),
        None => Ok(fetch_from::<S, V, P, W, E>(run, words, None)),
    }
}
