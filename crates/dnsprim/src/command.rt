//! The words of the command line.

use clap::{Arg, ArgAction, ArgMatches, Command, Error};
use log::LevelFilter;
use std::alloc::Global;

/// What the words ask for.
#[derive(Clone, Copy)]
pub enum Task<'a> {
    /// `check FILE ORIGIN`
    Check(Checking<'a>),
    /// `check CONFIG`
    CheckConfiguration(&'a str),
    /// `replay CONFIG SCRIPT`
    Replay(Replaying<'a>),
    /// `init CONFIG [ORIGIN]`
    Init(Making<'a>),
    /// `dump CONFIG ORIGIN [--serial M]`
    Dump(Dumping<'a>),
    /// `diff CONFIG ORIGIN FROM [TO] [--as-update]`
    Diff(Diffing<'a>),
    /// `history CONFIG ORIGIN [--records]`
    History(Listing<'a>),
    /// `load CONFIG ORIGIN [--dry-run]`
    Load(Loading<'a>),
    /// `migrate CONFIG`
    Migrate(&'a str),
    /// `verify CONFIG [ORIGIN] [--every-sector]`
    Verify(Verifying<'a>),
    /// `serve CONFIG --turns N [--quiet] [--count-every SECONDS] [--log-level LEVEL] [--record FILE]`
    Serve(Serving<'a>),
    /// `fetch ADDRESS:PORT ORIGIN [--since FILE] [--seconds N]`
    Fetch(Fetching<'a>),
}

/// The words of `check` of a master file.
#[derive(Clone, Copy)]
pub struct Checking<'a> {
    pub file: &'a str,
    pub origin: &'a str,
}

/// The words of `replay`.
#[derive(Clone, Copy)]
pub struct Replaying<'a> {
    pub config: &'a str,
    pub script: &'a str,
}

/// The words of `init`.
#[derive(Clone, Copy)]
pub struct Making<'a> {
    pub config: &'a str,
    /// The zone whose device alone is made.
    pub origin: Option<&'a str>,
}

/// The words of `dump`.
#[derive(Clone, Copy)]
pub struct Dumping<'a> {
    pub config: &'a str,
    pub origin: &'a str,
    /// The serial of the version that is printed, in place of the newest one.
    pub serial: Option<u32>,
}

/// The words of `history`.
#[derive(Clone, Copy)]
pub struct Listing<'a> {
    pub config: &'a str,
    pub origin: &'a str,
    /// Whether the records of each change are printed.
    pub records: bool,
}

/// The words of `load`.
#[derive(Clone, Copy)]
pub struct Loading<'a> {
    pub config: &'a str,
    pub origin: &'a str,
    /// Whether what it would change is printed, and nothing loaded.
    pub dry_run: bool,
}

/// The words of `verify`.
#[derive(Clone, Copy)]
pub struct Verifying<'a> {
    pub config: &'a str,
    /// The zone whose device alone is read.
    pub origin: Option<&'a str>,
    /// Whether the digests of all sectors are tested, and not only of those that a start reads.
    pub every_sector: bool,
}

/// The words of `diff`: the serials of the versions before and after, and whether the lines of nsupdate that
/// undo the change are printed.
#[derive(Clone, Copy)]
pub struct Diffing<'a> {
    pub config: &'a str,
    pub origin: &'a str,
    pub from: u32,
    pub to: Option<u32>,
    pub as_update: bool,
}

/// The words of `serve`.
#[derive(Clone, Copy)]
pub struct Serving<'a> {
    pub config: &'a str,
    /// How many turns are made: those of `unlimited` are more than any server makes.
    pub turns: u64,
    /// Whether the lines of connections are left out of the log.
    pub quiet: bool,
    /// Each how many seconds counts are printed; with 0 they are not.
    pub count_every: u64,
    /// Of which levels diagnostic lines are logged.
    pub log_level: LevelFilter,
    /// The file to which the script of what happens is appended, if there is to be one.
    pub record: Option<&'a str>,
}

/// The words of `fetch`.
#[derive(Clone, Copy)]
pub struct Fetching<'a> {
    pub server: &'a str,
    pub origin: &'a str,
    pub since: Option<&'a str>,
    /// How many seconds it may take in all.
    pub seconds: u64,
}

/// What the words ask for, and whether a fault is to be explained in a second line.
#[derive(Clone, Copy)]
pub struct Asked<'a> {
    pub task: Task<'a>,
    pub explain: bool,
}

/// What the words are.
#[derive(Clone, Copy)]
pub enum Words<'a> {
    /// A task is asked for.
    Asked(Asked<'a>),
    /// A word is missing, or is no number: this is what is expected.
    Wrong(&'static str),
    /// There is no command.
    NoCommand,
}

/// What is expected of `check` with one word.
const CHECK_EXPECTED: &str =
    "check: a master file and an origin, or a configuration (.toml, or --config) alone, are expected";

/// What is expected of `--turns`.
const TURNS_EXPECTED: &str = "--turns: a number from 0 to 4294967295, or unlimited, is expected";

/// What is expected of `--serial`.
const SERIAL_EXPECTED: &str = "--serial: a number from 0 to 4294967295 is expected";

/// What is expected of the serials of `diff`.
const SERIALS_EXPECTED: &str = "diff: FROM and TO are numbers from 0 to 4294967295";

/// What is expected of `--seconds`.
const SECONDS_EXPECTED: &str = "--seconds: a number from 0 to 4294967295 is expected";

/// What is expected of `--count-every`.
const COUNT_EXPECTED: &str = "--count-every: a number from 1 to 4294967295 is expected";

/// What is expected of `--log-level`.
const LEVEL_EXPECTED: &str = "--log-level: off, error, warn, info, debug or trace is expected";

/// How many seconds `fetch` may take unless it is told another number.
const FETCH_SECONDS: u64 = 300;

/// What a help text says first.
const ABOUT: &str =
    "An authoritative DNS primary. A first zone: write zone.db and dnsprim.toml, then `dnsprim check zone.db \
ORIGIN`, `dnsprim init dnsprim.toml`, and `dnsprim serve dnsprim.toml --turns unlimited`";

/// What `--version` prints after the program's name: the version of CHANGELOG.md, and the sector formats of
/// docs/FORMAT.md. One of format 1 is read by `migrate` alone.
const VERSION: &str = "1.0.0, sector formats: reads 1 and 2, writes 2";

/// A word that a subcommand needs.
fn word<'a>(alloc: Global, name: &'static str, help: &'static str) -> Arg<'a> {
    Arg::new(alloc, name)
        .required(true)
        .action(ArgAction::Set)
        .help(help)
}

/// A subcommand of one word.
fn of_one_word<'a>(
    alloc: Global,
    name: &'static str,
    about: &'static str,
    first: Arg<'a>,
) -> Result<Command<'a>, Error> {
    let command = Command::new(alloc, name).about(about).arg(first)?;
    let explain = Arg::new(alloc, "explain")
        .long("explain")
        .action(ArgAction::SetTrue)
        .help("Tells in a second line what is wrong with a file, and what is expected");
    Ok(command.arg(explain)?)
}

/// The word of a configuration.
fn config<'a>(alloc: Global) -> Arg<'a> {
    word(
        alloc,
        "CONFIG",
        "The configuration: the addresses to listen on, and each zone with its master file and its device",
    )
}

/// The word of an origin.
fn origin<'a>(alloc: Global) -> Arg<'a> {
    word(alloc, "ORIGIN", "The name of the zone's apex, as example.")
}

fn check_command<'a>(alloc: Global) -> Result<Command<'a>, Error> {
    let file = word(
        alloc,
        "FILE",
        "A master file (RFC 1035 section 5), or alone a configuration, whose name ends in .toml",
    );
    let about =
        "Reads a master file, or a configuration with its master files, and tells what is wrong with it";
    let command = of_one_word(alloc, "check", about, file)?;
    let origin = Arg::new(alloc, "ORIGIN")
        .action(ArgAction::Set)
        .help("The name of the zone's apex, as example.");
    let is_config = Arg::new(alloc, "config")
        .long("config")
        .action(ArgAction::SetTrue)
        .help("FILE is a configuration, whatever its name");
    Ok(command.arg(origin)?.arg(is_config)?)
}

fn replay_command<'a>(alloc: Global) -> Result<Command<'a>, Error> {
    let about = "Runs a script of requests over the zones of a configuration, kept in memory";
    let command = of_one_word(alloc, "replay", about, config(alloc))?;
    let script = word(
        alloc,
        "SCRIPT",
        "A file of commands, one a line: udp ADDR HEX, flush, ..",
    );
    Ok(command.arg(script)?)
}

fn init_command<'a>(alloc: Global) -> Result<Command<'a>, Error> {
    let about =
        "Makes the device of each zone from its master file; from then on the device is the zone";
    let command = of_one_word(alloc, "init", about, config(alloc))?;
    let origin = Arg::new(alloc, "ORIGIN").action(ArgAction::Set).help(
        "The name of one zone's apex, as example.: its device alone is made",
    );
    Ok(command.arg(origin)?)
}

fn dump_command<'a>(alloc: Global) -> Result<Command<'a>, Error> {
    let about = "Prints the zone that a device keeps, as a master file; not while it is served";
    let command = of_one_word(alloc, "dump", about, config(alloc))?;
    let serial = Arg::new(alloc, "serial")
        .long("serial")
        .value_name("M")
        .action(ArgAction::Set)
        .help("Prints the version with this serial; history lists those that are kept");
    Ok(command.arg(origin(alloc))?.arg(serial)?)
}

fn diff_command<'a>(alloc: Global) -> Result<Command<'a>, Error> {
    let about =
        "Prints the change between two versions of a zone that its device keeps; not while it is served";
    let command = of_one_word(alloc, "diff", about, config(alloc))?;
    let from = word(
        alloc,
        "FROM",
        "The serial of the version before; history lists those that are kept",
    );
    let to = Arg::new(alloc, "TO").action(ArgAction::Set).help(
        "The serial of the version after, in place of the newest one",
    );
    let as_update = Arg::new(alloc, "as-update")
        .long("as-update")
        .action(ArgAction::SetTrue)
        .help("Prints lines for nsupdate that undo the change, its SOA aside");
    Ok(
        command
            .arg(origin(alloc))?
            .arg(from)?
            .arg(to)?
            .arg(as_update)?,
    )
}

fn history_command<'a>(alloc: Global) -> Result<Command<'a>, Error> {
    let about =
        "Lists the versions of a zone that its device keeps, the oldest first; not while it is served";
    let command = of_one_word(alloc, "history", about, config(alloc))?;
    let records = Arg::new(alloc, "records")
        .long("records")
        .action(ArgAction::SetTrue)
        .help("Prints the records that each version removed and added");
    Ok(command.arg(origin(alloc))?.arg(records)?)
}

fn load_command<'a>(alloc: Global) -> Result<Command<'a>, Error> {
    let about =
        "Makes a zone's master file the next version of what its device keeps; not while it is served";
    let command = of_one_word(alloc, "load", about, config(alloc))?;
    let command = command.arg(origin(alloc))?;
    let dry_run = Arg::new(alloc, "dry-run")
        .long("dry-run")
        .action(ArgAction::SetTrue)
        .help("Prints the records that would be removed and added, and loads none");
    Ok(command.arg(dry_run)?)
}

fn migrate_command<'a>(alloc: Global) -> Result<Command<'a>, Error> {
    let about = "Makes each device of sector format 1 new, in format 2; not while it is served";
    of_one_word(alloc, "migrate", about, config(alloc))
}

fn verify_command<'a>(alloc: Global) -> Result<Command<'a>, Error> {
    let about =
        "Reads the device of each zone and tells what a start would find; it writes nothing";
    let command = of_one_word(alloc, "verify", about, config(alloc))?;
    let origin = Arg::new(alloc, "ORIGIN").action(ArgAction::Set).help(
        "The name of one zone's apex, as example.: its device alone is read",
    );
    let every_sector = Arg::new(alloc, "every-sector")
        .long("every-sector")
        .action(ArgAction::SetTrue)
        .help("Tests all sectors, and lists each that is damaged, whether a start reads it or not");
    Ok(command.arg(origin)?.arg(every_sector)?)
}

fn serve_command<'a>(alloc: Global) -> Result<Command<'a>, Error> {
    let about =
        "Answers queries and takes updates, by UDP and TCP; an update is durable before it is answered";
    let command = of_one_word(alloc, "serve", about, config(alloc))?;
    let turns = Arg::new(alloc, "turns")
        .long("turns")
        .required(true)
        .action(ArgAction::Set)
        .help(
            "The server ends after this number of turns, at most 4294967295; or, with unlimited, by a signal",
        );
    let quiet = Arg::new(alloc, "quiet")
        .long("quiet")
        .action(ArgAction::SetTrue)
        .help("Leaves the lines of connections, updates and transfers out of the log");
    let count_every = Arg::new(alloc, "count-every")
        .long("count-every")
        .value_name("SECONDS")
        .action(ArgAction::Set)
        .help(
            "Prints what was counted each so many seconds: a line for each zone, and one for the server",
        );
    let log_level = Arg::new(alloc, "log-level")
        .long("log-level")
        .value_name("LEVEL")
        .action(ArgAction::Set)
        .help(
            "Logs why requests are refused and connections closed, and checkpoints (debug); each request (trace)",
        );
    let record = Arg::new(alloc, "record")
        .long("record")
        .value_name("FILE")
        .action(ArgAction::Set)
        .help("Appends each event to a file, as a line of a script that replay runs");
    Ok(
        command
            .arg(turns)?
            .arg(quiet)?
            .arg(count_every)?
            .arg(log_level)?
            .arg(record)?,
    )
}

fn fetch_command<'a>(alloc: Global) -> Result<Command<'a>, Error> {
    let about =
        "Takes a zone in from another server, by a transfer, and prints it as a master file";
    let server = word(
        alloc,
        "ADDRESS:PORT",
        "The server: an address and a port, as 192.0.2.1:53 or [2001:db8::1]:53",
    );
    let command = of_one_word(alloc, "fetch", about, server)?.arg(origin(alloc))?;
    let since = Arg::new(alloc, "since")
        .long("since")
        .value_name("FILE")
        .action(ArgAction::Set)
        .help(
            "A master file with an older version of the zone, of which the changes are asked for",
        );
    let seconds = Arg::new(alloc, "seconds")
        .long("seconds")
        .value_name("N")
        .action(ArgAction::Set)
        .help("It gives up after this number of seconds, which is 300 unless it is given");
    Ok(command.arg(since)?.arg(seconds)?)
}

/// The command with one more subcommand, if that was made.
fn with<'a>(
    command: Command<'a>,
    subcommand: Result<Command<'a>, Error>,
) -> Result<Command<'a>, Error> {
    match subcommand {
        Ok(subcommand) => Ok(command.subcommand(subcommand)?),
        Err(error) => {
            drop(command);
            Err(error)
        }
    }
}

/// The command with all its subcommands.
fn whole_command<'a>(alloc: Global) -> Result<Command<'a>, Error> {
    let command = Command::new(alloc, "dnsprim").about(ABOUT).version(VERSION);
    let command = with(command, check_command(alloc))?;
    let command = with(command, replay_command(alloc))?;
    let command = with(command, init_command(alloc))?;
    let command = with(command, dump_command(alloc))?;
    let command = with(command, diff_command(alloc))?;
    let command = with(command, history_command(alloc))?;
    let command = with(command, load_command(alloc))?;
    let command = with(command, migrate_command(alloc))?;
    let command = with(command, verify_command(alloc))?;
    let command = with(command, serve_command(alloc))?;
    with(command, fetch_command(alloc))
}

/// The number of a text of decimal digits alone, at most 4294967295.
fn number_of(text: &str) -> Option<u32> {
    if !text.bytes().all(|octet| octet.is_ascii_digit()) {
        return None;
    }
    text.parse().ok()
}

/// The number of turns that a text says: a number, or `unlimited`.
fn turns_of(text: &str) -> Option<u64> {
    match text {
        "unlimited" => Some(u64::MAX),
        _ => Some(u64::from(number_of(text)?)),
    }
}

/// The words of `check`.
fn check_words<'a>(inner: &ArgMatches<'a>) -> Words<'a> {
    let Some(path) = inner.get_str("FILE") else {
        return Words::NoCommand;
    };
    let is_config = inner.get_flag("config");
    match inner.get_str("ORIGIN") {
        Some(origin) if !is_config => {
            let checking = Checking { file: path, origin };
            task_words(inner, Task::Check(checking))
        }
        None if is_config || path.ends_with(".toml") => {
            task_words(inner, Task::CheckConfiguration(path))
        }
        _ => Words::Wrong(CHECK_EXPECTED),
    }
}

/// The words of `dump`.
fn dump_words<'a>(inner: &ArgMatches<'a>) -> Words<'a> {
    let (Some(config), Some(origin)) = (inner.get_str("CONFIG"), inner.get_str("ORIGIN")) else {
        return Words::NoCommand;
    };
    let serial = match inner.get_str("serial") {
        Some(text) => match number_of(text) {
            Some(serial) => Some(serial),
            None => return Words::Wrong(SERIAL_EXPECTED),
        },
        None => None,
    };
    let dumping = Dumping {
        config,
        origin,
        serial,
    };
    task_words(inner, Task::Dump(dumping))
}

/// What `diff` is asked for. None if a word is missing or is no number.
fn diffing_of<'a>(inner: &ArgMatches<'a>) -> Option<Diffing<'a>> {
    let from = number_of(inner.get_str("FROM")?)?;
    let to = match inner.get_str("TO") {
        Some(text) => Some(number_of(text)?),
        None => None,
    };
    Some(Diffing {
        config: inner.get_str("CONFIG")?,
        origin: inner.get_str("ORIGIN")?,
        from,
        to,
        as_update: inner.get_flag("as-update"),
    })
}

/// The words of `diff`.
fn diff_words<'a>(inner: &ArgMatches<'a>) -> Words<'a> {
    match diffing_of(inner) {
        Some(diffing) => task_words(inner, Task::Diff(diffing)),
        None => Words::Wrong(SERIALS_EXPECTED),
    }
}

/// Each how many seconds the words of `serve` want counts, or 0 without such a word. None if they say no
/// number from 1 on.
fn count_every_of(inner: &ArgMatches<'_>) -> Option<u64> {
    match inner.get_str("count-every") {
        Some(text) => match number_of(text) {
            Some(0) => None,
            Some(seconds) => Some(u64::from(seconds)),
            None => None,
        },
        None => Some(0),
    }
}

/// The levels of diagnostic lines that the words of `serve` want: none without such a word. None if they say
/// no level.
fn log_level_of(inner: &ArgMatches<'_>) -> Option<LevelFilter> {
    match inner.get_str("log-level") {
        Some(text) => text.parse().ok(),
        None => Some(LevelFilter::Off),
    }
}

/// The words of `serve`.
fn serve_words<'a>(inner: &ArgMatches<'a>) -> Words<'a> {
    let (Some(config), Some(text)) = (inner.get_str("CONFIG"), inner.get_str("turns")) else {
        return Words::NoCommand;
    };
    let Some(turns) = turns_of(text) else {
        return Words::Wrong(TURNS_EXPECTED);
    };
    let Some(count_every) = count_every_of(inner) else {
        return Words::Wrong(COUNT_EXPECTED);
    };
    let Some(log_level) = log_level_of(inner) else {
        return Words::Wrong(LEVEL_EXPECTED);
    };
    let serving = Serving {
        config,
        turns,
        quiet: inner.get_flag("quiet"),
        count_every,
        log_level,
        record: inner.get_str("record"),
    };
    task_words(inner, Task::Serve(serving))
}

/// The seconds that the words of `fetch` say, or those without such a word. None if they are no number.
fn seconds_of(inner: &ArgMatches<'_>) -> Option<u64> {
    match inner.get_str("seconds") {
        Some(text) => Some(u64::from(number_of(text)?)),
        None => Some(FETCH_SECONDS),
    }
}

/// The words of `fetch`.
fn fetch_words<'a>(inner: &ArgMatches<'a>) -> Words<'a> {
    let (Some(server), Some(origin)) = (inner.get_str("ADDRESS:PORT"), inner.get_str("ORIGIN"))
    else {
        return Words::NoCommand;
    };
    let Some(seconds) = seconds_of(inner) else {
        return Words::Wrong(SECONDS_EXPECTED);
    };
    let since = inner.get_str("since");
    let fetching = Fetching {
        server,
        origin,
        since,
        seconds,
    };
    task_words(inner, Task::Fetch(fetching))
}

/// The task that is asked for, and whether a fault is to be explained.
fn task_words<'a>(inner: &ArgMatches<'a>, task: Task<'a>) -> Words<'a> {
    let explain = inner.get_flag("explain");
    Words::Asked(Asked { task, explain })
}

/// The task of another subcommand. None if a word is missing.
fn task_of<'a>(name: &str, inner: &ArgMatches<'a>) -> Option<Task<'a>> {
    let config = inner.get_str("CONFIG")?;
    match name {
        "replay" => Some(Task::Replay(Replaying {
            config,
            script: inner.get_str("SCRIPT")?,
        })),
        "init" => Some(Task::Init(Making {
            config,
            origin: inner.get_str("ORIGIN"),
        })),
        "history" => Some(Task::History(Listing {
            config,
            origin: inner.get_str("ORIGIN")?,
            records: inner.get_flag("records"),
        })),
        "load" => Some(Task::Load(Loading {
            config,
            origin: inner.get_str("ORIGIN")?,
            dry_run: inner.get_flag("dry-run"),
        })),
        "migrate" => Some(Task::Migrate(config)),
        "verify" => Some(Task::Verify(Verifying {
            config,
            origin: inner.get_str("ORIGIN"),
            every_sector: inner.get_flag("every-sector"),
        })),
        _ => None,
    }
}

/// What the words are: those that clap takes, which ask for a task, or have a number that is none.
pub fn read_words<'a>(alloc: Global, words: &'a [&'a str]) -> Result<Words<'a>, Error> {
    let matches = whole_command(alloc)?.try_get_matches_from(words)?;
    let Some((name, inner)) = matches.subcommand() else {
        return Ok(Words::NoCommand);
    };
    match name {
        "check" => Ok(check_words(inner)),
        "diff" => Ok(diff_words(inner)),
        "dump" => Ok(dump_words(inner)),
        "serve" => Ok(serve_words(inner)),
        "fetch" => Ok(fetch_words(inner)),
        _ => match task_of(name, inner) {
            Some(task) => Ok(task_words(inner, task)),
            None => Ok(Words::NoCommand),
        },
    }
}
