//! Files that a run is given, and the faults that are reported of them.
ghost use Rattle.std.specs.Prelude.{◌≡◌, ◌⊎◌, [], Some, Ok, Err, IfOk, MatchResult};
ghost use Rattle.std.specs.Option.{option_copied};
ghost use Rattle.dns_names.specs.Text.{name_of_text};
ghost use Rattle.dns_names.specs.declared.NameError.{NameError as StatedError};
ghost use Rattle.dns_configuration.specs.Faults.{IsTold, entry_word, is_memory, fault_text, zone_word};
ghost use Rattle.dns_configuration.specs.Faults.{printed_word, word_octet};
ghost use Rattle.dns_configuration.specs.Files.{HoldsConfiguration};
ghost use Rattle.dns_configuration.specs.Settings.{IsConfiguration};

use crate::configuration::{Configuration, ConfigurationError};
use dns_masterfile::FileError;
use dns_memory::Heap;
use dns_names::{EscapedOctet, Name, NameError};
use dns_zone::ZoneError;
use std::alloc::Global;
use std::fmt;
use std::io::{self, Write};

/// Exit statuses: all was done; a file, a line or a word was refused; the words are wrong; a writer failed,
/// or memory was refused.
pub const DONE: u8 = 0;

pub const REFUSED: u8 = 1;

pub const USAGE: u8 = 2;

pub const FAILED: u8 = 3;

/// A file: its path, and its octets if it can be read.
#[derive(Clone, Copy)]
pub struct File<'a> {
    pub path: &'a str,
    pub octets: Option<&'a [u8]>,
}

/// What is wrong with a file or a word.
#[derive(Clone, Copy)]
pub enum Fault {
    /// Memory was refused.
    OutOfMemory,
    /// The file can't be read.
    Unreadable,
    /// The file holds no configuration.
    BadConfig,
    /// The word is no name, or that of no zone of the configuration.
    BadOrigin,
    /// A line of a script is no command.
    Syntax(u64),
    /// The entry of a master file that begins on a line.
    Entry(usize, FileError),
    /// The records of a master file are no zone.
    NoZone(ZoneError),
}

/// The name of a refusal of an entry.
fn entry_word(error: FileError) -> &'static str
    ensures { result.now ≡ entry_word error }
{
    match error {
        FileError::OutOfMemory => "OutOfMemory",
        FileError::Syntax => "Syntax",
        FileError::BadName => "BadName",
        FileError::BadNumber => "BadNumber",
        FileError::BadData => "BadData",
        FileError::NoTtl => "NoTtl",
        FileError::NoOwner => "NoOwner",
        FileError::UnknownType => "UnknownType",
        FileError::TooLong => "TooLong",
    }
}

/// The name of a refusal of a zone.
fn zone_word(error: ZoneError) -> &'static str
    ensures { result.now ≡ zone_word error }
{
    match error {
        ZoneError::OutOfMemory => "OutOfMemory",
        ZoneError::NoSoa => "NoSoa",
        ZoneError::ManySoa => "ManySoa",
        ZoneError::NoNs => "NoNs",
        ZoneError::OutOfZone => "OutOfZone",
        ZoneError::Duplicate => "Duplicate",
        ZoneError::CnameAndOther => "CnameAndOther",
        ZoneError::WildcardNs => "WildcardNs",
        ZoneError::TooMany => "TooMany",
    }
}

/// Whether memory was refused.
fn is_memory(fault: Fault) -> bool
    ensures { result ≡ is_memory fault }
{
    match fault {
        Fault::OutOfMemory => true,
        Fault::Entry(_, error) => error == FileError::OutOfMemory,
        Fault::NoZone(error) => error == ZoneError::OutOfMemory,
        _ => false,
    }
}

/// An octet of a path or of a word, as a fault reports it: what is neither a blank nor visible ASCII is
/// `\DDD`.
#[derive(Drop)]
struct PrintedOctet(u8);

impl fmt::Display for PrintedOctet {
    ghost output = { λ o. Some (word_octet o.0) };

    fn fmt<W: fmt::Write>(&self, f: &mut fmt::Formatter<W>) -> fmt::Result {
        let octet = self.0;
        match octet {
            32..=126 => write!(f, "{}", octet as char),
            _ => write!(f, "{}", EscapedOctet(octet)),
        }
    }
}

/// A path or a word, so that it stays on its line and says nothing to a terminal.
#[derive(Drop)]
pub struct PrintedWord<'a>(pub &'a [u8]);

impl fmt::Display for PrintedWord<'_> {
    ghost output = { λ w. Some (printed_word w.0.now) };

    fn fmt<W: fmt::Write>(&self, f: &mut fmt::Formatter<W>) -> fmt::Result {
        for octet in self.0 {
            write!(f, "{}", PrintedOctet(*octet))?;
        }
        Ok(())
    }
}

/// What is wrong with a file or a word, after its path or its text.
#[derive(Drop)]
struct FaultText<'a>(&'a str, Fault);

impl fmt::Display for FaultText<'_> {
    ghost output = { λ t. Some (fault_text t.0.now t.1) };

    fn fmt<W: fmt::Write>(&self, f: &mut fmt::Formatter<W>) -> fmt::Result {
        let what = PrintedWord(self.0.as_bytes());
        match self.1 {
            Fault::OutOfMemory => write!(f, "{what}: OutOfMemory"),
            Fault::Unreadable => write!(f, "{what}: Unreadable"),
            Fault::BadConfig => write!(f, "{what}: BadConfig"),
            Fault::BadOrigin => write!(f, "{what}: BadOrigin"),
            Fault::Syntax(line) => write!(f, "{what}:{line}: Syntax"),
            Fault::Entry(line, error) => write!(f, "{what}:{line}: {}", entry_word(error)),
            Fault::NoZone(error) => write!(f, "{what}: {}", zone_word(error)),
        }
    }
}

/// Tells in one line what is wrong with the file or the word, and gives the exit status. Of refused memory
/// nothing is reported.
pub fn tell<E: Write>(err: &mut E, what: &str, fault: Fault) -> io::Result<u8>
    ensures { IfOk result (λ status. IsTold what.now fault (E.contents err.old) (E.contents err.new) status) }
{
    if is_memory(fault) {
        return Ok(FAILED);
    }
    writeln!(err, "{}", FaultText(what, fault))?;
    Ok(REFUSED)
}

/// The name that a text is, under the root.
pub fn apex(alloc: Heap, text: &str) -> Result<Name, Fault>
    ensures { MatchResult result (λ name. name_of_text [] text.now ≡ Ok name)
        (λ f. (f ≡ Fault.OutOfMemory)
        ⊎ ((f ≡ Fault.BadOrigin) × ((e : StatedError) × (name_of_text [] text.now ≡ Err e)))) }
{
    match Name::from_text(alloc, text.as_bytes(), &Name::root(alloc)) {
        Ok(name) => Ok(name),
        Err(NameError::OutOfMemory) => Err(Fault::OutOfMemory),
        Err(_) => Err(Fault::BadOrigin),
    }
}

/// The configuration that a file holds.
pub fn read_configuration(
    alloc: Global,
    heap: Heap,
    file: &File<'_>,
) -> Result<Configuration, Fault>
    ensures held { HoldsConfiguration (option_copied file.now.octets) result }
    ensures valid { IfOk result IsConfiguration }
{
    let Some(octets) = file.octets else {
        return Err(Fault::Unreadable);
    };
    match Configuration::read(alloc, heap, octets) {
        Ok(configuration) => Ok(configuration),
        Err(ConfigurationError::OutOfMemory) => Err(Fault::OutOfMemory),
        Err(ConfigurationError::BadConfig) => Err(Fault::BadConfig),
    }
}
