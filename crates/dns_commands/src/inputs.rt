//! The files that a run reads.
ghost use Rattle.std.specs.Prelude.{◌≡◌, ◌∷◌, [], List, Option, None, find, bytes_eq, MatchResult};
ghost use Rattle.std.specs.Option.{option_copied};
ghost use Rattle.dns_configuration.specs.Calls.{Calls, HasCalled};
ghost use Rattle.dns_commands.specs.Inputs.{AreFilesOf, AreFirstFiles, AreFirstOf, Input, IsInput};
ghost use Rattle.dns_commands.specs.Inputs.{IsNoZoneFile, IsZoneFile, ReadsFiles, file_paths, octets_held};
ghost use Rattle.dns_commands.specs.Inputs.{octets_read};

use dns_configuration::{Fault, File, ZoneSettings, apex, read_configuration, zone_of};
use dns_memory::Heap;
use std::alloc::Global;
use std::{fs, io};

/// Whether there is a file at a path, and no folder, pipe, socket or device, of which a read might never end.
pub fn is_file(rt: &HostRuntime, path: &str) -> io::Result<bool> {
    let metadata = fs::metadata(rt, path)?;
    Ok(metadata.is_file())
}

/// The octets of the file at a path, none where there is no file or it can't be read. Refused memory is an
/// error, and does not make a file unreadable.
pub fn octets(rt: &HostRuntime, path: &str) -> io::Result<Option<Vec<u8>>> {
    if !is_file(rt, path).unwrap_or(false) {
        return Ok(None);
    }
    match fs::read(rt, path) {
        Ok(octets) => Ok(Some(octets)),
        Err(error) if error.kind() == io::ErrorKind::OutOfMemory => Err(error),
        Err(_) => Ok(None),
    }
}

/// The file of a path and its octets.
pub fn file<'a>(path: &'a str, octets: &'a Option<Vec<u8>>) -> File<'a>
    ensures { IsInput result (path.now, octets_held octets.now) }
{
    File {
        path,
        octets: match octets {
            Some(octets) => Some(octets.as_slice()),
            None => None,
        },
    }
}

/// The octets of the file with that name in a folder; the name is a path where the folder is empty.
pub fn octets_in(rt: &HostRuntime, folder: &str, name: &str) -> io::Result<Option<Vec<u8>>> {
    if folder.is_empty() {
        return octets(rt, name);
    }
    let path = format!(in rt.alloc(); "{folder}/{name}")?;
    octets(rt, &path)
}

/// Files that are read, by their paths.
pub trait Inputs {
    /// The files that were read so far, in order; `None` if they are not known, as those of a system are not.
    ghost reads: { Self → Option (List Input) };

    /// The octets of the file at a path, none if there is no file or it can't be read. Refused memory is an
    /// error, and does not make a file unreadable.
    fn octets(&mut self, path: &str) -> io::Result<Option<Vec<u8>>>
        ensures { HasCalled (reads self.old) (reads self.new) ((path.now, octets_read result) ∷ []) };
}

/// The files of the system in a folder, or, if that has no name, where the program runs. Nothing that is
/// proved says what they hold.
#[derive(Clone, Copy)]
pub struct Folder<'a> {
    pub rt: &'a HostRuntime,
    pub name: &'a str,
}

impl Inputs for Folder<'_> {
    ghost reads = { λ _. None };

    fn octets(&mut self, path: &str) -> io::Result<Option<Vec<u8>>> {
        octets_in(self.rt, self.name, path)
    }
}

/// The paths of the master files of these zones, in their order, and the octets of each.
fn files_of<N: Inputs>(
    alloc: Global,
    inputs: &mut N,
    zones: &[ZoneSettings],
) -> io::Result<Vec<(String, Option<Vec<u8>>)>>
    ensures { Calls (N.reads inputs.old) (N.reads inputs.new) (λ reads. ReadsFiles reads result
        (λ paths. paths ≡ file_paths zones.now) (AreFirstFiles zones.now reads)) }
{
    let mut files = Vec::new(alloc);
    for zone in zones {
        let octets = inputs.octets(&zone.file)?;
        files.push((zone.file.clone()?, octets))?;
    }
    Ok(files)
}

/// The paths of the master files that a configuration names, and the octets of each, which are read in their
/// order; none if the configuration can't be read or is refused. Refused memory is an error, and not a
/// configuration without files.
pub fn master_files<N: Inputs>(
    alloc: Global,
    heap: Heap,
    inputs: &mut N,
    config: &File<'_>,
) -> io::Result<Vec<(String, Option<Vec<u8>>)>>
    ensures { Calls (N.reads inputs.old) (N.reads inputs.new) (λ reads. ReadsFiles reads result
        (AreFilesOf (option_copied config.now.octets))
        (AreFirstOf (option_copied config.now.octets) reads)) }
{
    match read_configuration(alloc, heap, config) {
        Ok(configuration) => files_of(alloc, inputs, &configuration.zones),
        Err(Fault::OutOfMemory) => Err(io::ErrorKind::OutOfMemory.into()),
        Err(_) => Ok(Vec::new(alloc)),
    }
}

/// The first of these files that has that path.
fn file_at<'f, 'a>(files: &'f [File<'a>], path: &str) -> Option<&'f File<'a>>
    ensures { option_copied result ≡ find (λ f. bytes_eq f.path.now path.now) files.now }
{
    files.iter().find(|file| file.path == path)
}

/// The master file of the configuration's zone of that name, which is the first of these files that has its
/// path; none where there is no such zone or no such file. `Fault::BadOrigin` where the text is no name, and
/// the faults of the configuration where that is refused.
pub fn zone_file<'f, 'a>(
    alloc: Global,
    heap: Heap,
    config: &File<'_>,
    files: &'f [File<'a>],
    origin: &str,
) -> Result<Option<&'f File<'a>>, Fault>
    ensures { MatchResult result
        (λ found. IsZoneFile config.now files.now origin.now (option_copied found))
        (λ fault. IsNoZoneFile config.now origin.now fault) }
{
    let configuration = read_configuration(alloc, heap, config)?;
    let name = apex(heap, origin)?;
    let Some(own) = zone_of(&configuration.zones, &name) else {
        return Ok(None);
    };
    Ok(file_at(files, &own.file))
}
