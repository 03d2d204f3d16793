//! A zone that is taken in from another server, as a master file.
ghost use Rattle.std.specs.Prelude.{◌≡◌, ◌⊎◌, true, Some, Ok, Err, IfOk, IfErr, MatchResult};
ghost use Rattle.std.specs.Option.{option_copied};
ghost use Rattle.std.specs.Result.{result_unwrap_or};
ghost use Rattle.std.specs.Io.KnownBytes.{Appends};
ghost use Rattle.dns_zone.specs.Zone.{Zone as Stated};
ghost use Rattle.dns_masterfile.specs.Printed.{printed_zone};
ghost use Rattle.dns_configuration.specs.declared.files.File.{File as StatedFile};
ghost use Rattle.dns_configuration.specs.Calls.{Calls};
ghost use Rattle.dns_configuration.specs.Faults.{IsTold, is_memory, loaded};
ghost use Rattle.dns_fetch.specs.Connecting.{IsOneCall};
ghost use Rattle.dns_fetch.specs.Fetch.{IsHeldIn, IsNotTakenAt, IsTakenAt, RequestEnds};

use crate::fetch_faults::{FetchFault, tell_fetch};
use crate::servers::{Servers, WaitingStream};
use crate::taking_in::take_in;
use crate::watching::Watch;
use dns_configuration::{DONE, FAILED, Fault, File, apex, load, socket_address, tell};
use dns_masterfile::print_zone;
use dns_memory::Heap;
use dns_names::Name;
use dns_secondary::Secondary;
use dns_zone::{Zone, ZoneIndex};
use std::io::{self, Write};
use std::net::SocketAddr;

/// Which zone is to be taken in, and from where.
#[derive(Clone, Copy)]
pub struct FetchRequest<'a> {
    /// The address of the server, as text.
    pub server: &'a str,
    /// The apex of the zone, as text.
    pub origin: &'a str,
    /// The file of the version that is held, if there is one.
    pub since: Option<&'a File<'a>>,
    /// Whether a second line of an error of the server says what can be done.
    pub explain: bool,
}

/// The version that a master file holds, if there is a file.
fn held_version<I: ZoneIndex>(
    heap: Heap,
    since: Option<&File<'_>>,
    apex: &Name,
) -> Result<Option<Zone<I>>, Fault>
    ensures held { IfOk result (λ held. IsHeldIn (option_copied since.entry) apex.now held) }
    ensures refused { IfErr result (λ f. (is_memory f ≡ true)
        ⊎ ((file : StatedFile) × (option_copied since.entry ≡ Some file)
        × (loaded (option_copied file.octets) apex.now ≡ Err f))) }
{
    let Some(file) = since else {
        return Ok(None);
    };
    let Ok(apex) = apex.clone() else {
        return Err(Fault::OutOfMemory);
    };
    match load(heap, file.octets, apex) {
        Ok((zone, _count)) => Ok(Some(zone)),
        Err(fault) => Err(fault),
    }
}

/// Takes in the zone of that apex from the server at an address.
fn take_from<S: WaitingStream + Drop, V: Servers<S>, I: ZoneIndex, P: Watch>(
    heap: Heap,
    servers: &mut V,
    address: SocketAddr,
    apex: Name,
    held: Option<Zone<I>>,
    watch: &mut P,
) -> Result<Secondary<I>, FetchFault>
    ensures { Calls (V.calls servers.old) (V.calls servers.new) (λ calls. IsOneCall calls address
        × MatchResult result
        (λ s. IsTakenAt S.Stream calls address apex held s.held)
        (IsNotTakenAt S.Stream calls address apex held)) }
{
    let Some(mut stream) = servers.connect(address) else {
        drop((apex, held));
        return Err(FetchFault::Unavailable);
    };
    let taken = take_in(heap, &mut stream, apex, held, watch);
    watch.end();
    taken
}

/// Prints the zone that was taken in, and gives the exit status.
fn show_taken<I: ZoneIndex, W: Write>(secondary: &Secondary<I>, out: &mut W) -> io::Result<u8>
    ensures { IfOk result (λ status. (status ≡ FAILED)
        ⊎ ((status ≡ DONE) × ((zone : Stated) × (secondary.now.held ≡ Some zone)
        × Appends (W.contents out.old) (W.contents out.new) (printed_zone zone.records)))) }
{
    match secondary.held() {
        Some(zone) => {
            print_zone(zone, out)?;
            Ok(DONE)
        }
        None => Ok(FAILED),
    }
}

/// Tells what is wrong with the file of the version that is held, and gives the exit status.
fn tell_since<E: Write>(err: &mut E, since: Option<&File<'_>>, fault: Fault) -> io::Result<u8>
    ensures { IfOk result (λ status. (status ≡ FAILED)
        ⊎ ((file : StatedFile) × (option_copied since.entry ≡ Some file)
        × IsTold file.path.now fault (E.contents err.old) (E.contents err.new) status)) }
{
    match since {
        Some(file) => tell(err, file.path, fault),
        None => Ok(FAILED),
    }
}

/// Takes in a zone and prints it, and gives the exit status.
fn fetched<S: WaitingStream + Drop, V: Servers<S>, I: ZoneIndex, P: Watch, W: Write, E: Write>(
    heap: Heap,
    servers: &mut V,
    asked: FetchRequest<'_>,
    watch: &mut P,
    out: &mut W,
    err: &mut E,
) -> io::Result<u8>
    ensures { RequestEnds S.Stream (V.calls servers.old) (V.calls servers.new) asked.entry
        (W.contents out.old) (W.contents out.new) (E.contents err.old) (E.contents err.new)
        (result_unwrap_or result FAILED) }
{
    let FetchRequest {
        server,
        origin,
        since,
        explain,
    } = asked;
    let Some(address) = socket_address(server) else {
        return tell_fetch(err, server, FetchFault::BadAddress, explain);
    };
    let name = match apex(heap, origin) {
        Ok(name) => name,
        Err(fault) => return tell(err, origin, fault),
    };
    let held = match held_version::<I>(heap, since, &name) {
        Ok(held) => held,
        Err(fault) => return tell_since(err, since, fault),
    };
    match take_from::<S, V, I, P>(heap, servers, address, name, held, watch) {
        Ok(secondary) => show_taken(&secondary, out),
        Err(fault) => tell_fetch(err, server, fault, explain),
    }
}

/// Takes in a zone from a server, and prints it as a master file. It is asked for by AXFR (RFC 5936), or with
/// a file by IXFR, for the changes of the version that the file holds (RFC 1995); where that is current it is
/// printed.
///
/// Faults are reported in one line, the first in this order: the address (`SERVER: BadAddress`), the origin
/// (`ORIGIN: BadOrigin`), the file, as `check` reports it, and what came of the request: `SERVER:
/// Unavailable`, `Closed`, `TimedOut`, or by its name the fault for which the answer was refused. For a fault
/// of the server a second line, if it is wanted, says what can be done. Nothing but that server is connected
/// to, and it once at most. Returns the exit status: `DONE`, `REFUSED`, or `FAILED` if the server can't be
/// reached or doesn't answer to the end, a writer failed or memory was refused. `watch` is told of the
/// records as they come.
pub fn fetch<S: WaitingStream + Drop, V: Servers<S>, I: ZoneIndex, P: Watch, W: Write, E: Write>(
    heap: Heap,
    servers: &mut V,
    asked: FetchRequest<'_>,
    watch: &mut P,
    out: &mut W,
    err: &mut E,
) -> u8
    ensures { RequestEnds S.Stream (V.calls servers.old) (V.calls servers.new) asked.entry
        (W.contents out.old) (W.contents out.new) (E.contents err.old) (E.contents err.new) result }
{
    fetched::<S, V, I, P, W, E>(heap, servers, asked, watch, out, err).unwrap_or(FAILED)
}
