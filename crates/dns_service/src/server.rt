//! A server over devices and sockets.
ghost use Rattle.std.specs.Prelude.{◌≡◌, ◌⊎◌, true, IfOk, MatchResult, OnOk};
ghost use Rattle.std.specs.Result.{result_unwrap_or};
ghost use Rattle.std.specs.Io.KnownBytes.{Appends};
ghost use Rattle.dns_primary.specs.Keeps.{IsKept};
ghost use Rattle.dns_primary.specs.Machine.{Machine};
ghost use Rattle.dns_configuration.specs.Calls.{Calls};
ghost use Rattle.dns_service.specs.Log.{listening_lines, zone_line, zone_lines};
ghost use Rattle.dns_service.specs.Serve.{ArePrimaryClosed, IsRefusalTold, ServerEnds};
ghost use Rattle.dns_service.specs.ServedTurns.{HasPaused, HasRun, IsCountedBy, IsLedTo, IsServedOn};
ghost use Rattle.dns_service.specs.Telling.{TurnsAreListened, TurnsAreRecorded, TurnsAreServed};

use crate::log::{Counts, Log};
use crate::opening::{Refusal, close_stores, open_primary};
use crate::watched::Watched;
use dns_configuration::{DONE, FAILED, File, ZoneSettings, origins_of, read_configuration, tell};
use dns_counters::{CountLines, Counting};
use dns_devices::{Devices, tell_device};
use dns_diagnostics::{CheckpointWatch, Diagnostics, LevelFilter, Logger};
use dns_memory::Heap;
use dns_names::Name;
use dns_network::{Edge, Network, Observer, Stream};
use dns_primary::Primary;
use dns_recording::Recorder;
use dns_sectors::Sectors;
use dns_sockets::Sockets;
use dns_store::{KeptStore, ZoneStore};
use dns_zone::{Zone, ZoneIndex};
use std::alloc::Global;
use std::io::{self, Write};
use std::net::{Net, SocketAddr};
use std::time::{Clock, Instant};

/// In which turns the clock and the events of sockets are looked at, besides those after a wait: each one of
/// so many.
const TURNS_PER_POLL: u64 = 32;

/// How many connections there may be.
const CONNECTIONS: usize = 64;

/// Tells which version of a zone is shown.
fn tell_zone<I: ZoneIndex, E: Write>(
    err: &mut E,
    origin: &Name,
    version: u64,
    zone: &Zone<I>,
) -> io::Result<()>
    ensures { OnOk result
        (Appends (E.contents err.old) (E.contents err.new) (zone_line origin.now version zone.now)) }
{
    let serial = zone.soa().serial();
    writeln!(err, "zone {origin} version {version} serial {serial}")
}

/// Tells which version of each zone is shown.
fn tell_zones<I: ZoneIndex, S: ZoneStore, E: Write>(
    err: &mut E,
    primary: &Primary<I, S>,
    origins: &[Name],
) -> io::Result<()>
    ensures { OnOk result ((m : Machine) → IsKept primary.now m
        → Appends (E.contents err.old) (E.contents err.new) (zone_lines origins.now m.zones)) }
{
    for index in 0..origins.len() {
        if let Some((version, zone)) = primary.shown(index) {
            tell_zone(err, &origins[index], version, zone)?;
        }
    }
    Ok(())
}

/// Tells on which addresses a server listens, each in its own line.
fn tell_listening<E: Write>(err: &mut E, addresses: &[SocketAddr]) -> io::Result<()>
    ensures { OnOk result
        (Appends (E.contents err.old) (E.contents err.new) (listening_lines addresses.now)) }
{
    for address in addresses {
        writeln!(err, "listening on {address}")?;
    }
    Ok(())
}

/// The seconds since the start, or those before where the clock fails.
fn seconds<R: Clock>(rt: &R, start: &Instant, before: u64) -> u64 {
    match start.elapsed(rt) {
        Ok(passed) => passed.as_secs(),
        Err(_) => before,
    }
}

/// Looks what came, in each 32nd turn, and returns the seconds since the start.
fn poll<R: Clock, S, N: Network<S>>(
    rt: &R,
    start: &Instant,
    network: &mut N,
    turn: u64,
    now: u64,
) -> u64
    ensures { HasPaused N.Network network.old network.new }
{
    if turn % TURNS_PER_POLL != 0 {
        return now;
    }
    network.look();
    seconds(rt, start, now)
}

/// Waits until something may have come, if nothing was done, and returns the seconds since the start.
fn pause<R: Clock, S, N: Network<S>>(
    rt: &R,
    start: &Instant,
    network: &mut N,
    is_done: bool,
    now: u64,
) -> u64
    ensures { HasPaused N.Network network.old network.new }
{
    if is_done {
        return now;
    }
    network.wait();
    seconds(rt, start, now)
}

/// The milliseconds since then, or 0 where the clock fails.
fn milliseconds<R: Clock>(rt: &R, start: &Instant) -> u64 {
    match start.elapsed(rt) {
        Ok(passed) => u64::try_from(passed.as_millis()).unwrap_or(u64::MAX),
        Err(_) => 0,
    }
}

/// When a turn begins, if checkpoints are to be logged.
fn begin<R: Clock>(rt: &R, checkpoints: &CheckpointWatch) -> Option<Instant> {
    if !checkpoints.is_on {
        return None;
    }
    Instant::now(rt).ok()
}

/// Logs the checkpoints that were made in a turn that began then.
fn log_checkpoints<R: Clock + Logger, I: ZoneIndex, D: ZoneStore>(
    service: &Service<'_, R>,
    checkpoints: &mut CheckpointWatch,
    primary: &Primary<I, D>,
    begun: Option<Instant>,
) {
    if let Some(begun) = begun {
        let taken = milliseconds(service.rt, &begun);
        checkpoints.look(service.rt, primary, service.origins, taken);
    }
}

/// Makes the turns of a service, waits after each one in which nothing was done, tells the counts, and logs
/// what is to be logged. Returns whether all counts that were to be told were.
fn run<
    R: Clock + Logger,
    I: ZoneIndex,
    D: ZoneStore,
    S: Stream + Drop,
    N: Network<S>,
    L: Observer + Watched,
    O: Write,
>(
    service: &Service<'_, R>,
    primary: &mut Primary<I, D>,
    network: &mut N,
    notes: &mut L,
    counts: &mut CountLines<'_, O>,
) -> io::Result<bool>
    ensures same_output { counts.new.out.ghost_name ≡ counts.old.out.ghost_name }
    ensures served { MatchResult result
        (λ _. IsServedOn S.Stream N.Network L.Observer service.now.turns primary.old network.old notes.old
        primary.new network.new notes.new)
        (λ _. primary.new ≡ primary.old) }
    ensures counted { IfOk result (λ is_told. is_told ≡ true
        → IsCountedBy S.Stream N.Network L.Observer L.counting O.contents counts.old counts.new
        service.now.turns primary.old network.old notes.old primary.new network.new notes.new) }
{
    let (heap, rt) = (service.heap, service.rt);
    let mut edge: Edge<S> = Edge::new(heap)?;
    let mut checkpoints = CheckpointWatch::new(heap, service.log_level);
    checkpoints.look(rt, primary, service.origins, 0);
    let start = Instant::now(rt)?;
    let mut now = 0;
    let mut is_told = true;
    for turn in 0..service.turns {
        now = poll(rt, &start, network, turn, now);
        let begun = begin(rt, &checkpoints);
        let is_done = edge.turn(heap, network, primary, notes, now);
        log_checkpoints(service, &mut checkpoints, primary, begun);
        notes.diagnostics().give_out(rt);
        let told = counts.tell_if_due(heap, notes.counters(), primary, now);
        is_told &= told.is_ok();
        now = pause(rt, &start, network, is_done, now);
    }
    Ok(is_told)
}

/// Tells which address can't be had, if one is known.
fn tell_unavailable<E: Write>(err: &mut E, address: Option<SocketAddr>) -> io::Result<()> {
    match address {
        Some(address) => writeln!(err, "{address}: Unavailable"),
        None => Ok(()),
    }
}

/// What a server has besides a primary and its streams: the names of its zones, the addresses on which it
/// listens, how many turns it makes, whether lines of connections are left out of its log, each how many
/// seconds counts are told, of which levels diagnostic lines are logged, and whether a script is written.
#[derive(Drop)]
struct Service<'a, R> {
    heap: Heap,
    rt: &'a R,
    origins: &'a [Name],
    addresses: &'a [SocketAddr],
    turns: u64,
    is_quiet: bool,
    count_every: u64,
    log_level: LevelFilter,
    is_recorded: bool,
}

/// Makes the turns of a service, and writes their script if that is wanted. Returns whether no line of it is
/// left to write, and all counts that were to be told were.
fn run_recorded<
    R: Clock + Logger,
    I: ZoneIndex,
    D: ZoneStore,
    S: Stream + Drop,
    N: Network<S>,
    L: Observer + Watched,
    W: Write,
    O: Write,
>(
    service: &Service<'_, R>,
    primary: &mut Primary<I, D>,
    network: &mut N,
    log: &mut L,
    script: &mut W,
    counts: &mut CountLines<'_, O>,
) -> io::Result<bool>
    ensures same_output { counts.new.out.ghost_name ≡ counts.old.out.ghost_name }
    ensures run { HasRun (λ m. IsKept primary.old m) (IsLedTo primary.old primary.new) }
    ensures told { IfOk result (λ is_told. is_told ≡ true
        → TurnsAreRecorded service.now primary.old primary.new L.Observer L.counting W.contents O.contents
        script.old script.new counts.old counts.new log.old log.new) }
{
    let mut lines = Vec::new(service.heap);
    let mut recorder = Recorder::new(script, log, &mut lines, service.is_recorded);
    recorder.write_start(primary, service.origins);
    let is_told = run(service, primary, network, &mut recorder, counts)?;
    Ok(is_told & recorder.is_written())
}

/// Listens on the addresses of a service, and makes its turns.
fn listen<'a, R: Net + Clock + Logger, I: ZoneIndex, S: ZoneStore, O: Write, E: Write, W: Write>(
    service: &Service<'a, R>,
    primary: &mut Primary<I, S>,
    out: &mut O,
    err: &mut E,
    script: &mut W,
) -> io::Result<u8>
    ensures run { HasRun (λ m. IsKept primary.old m) (IsLedTo primary.old primary.new) }
    ensures ended { IfOk result (λ status. (status ≡ FAILED)
        ⊎ ((status ≡ DONE)
        × TurnsAreListened service.now primary.old primary.new O.contents E.contents W.contents
        out.old err.old script.old out.new err.new script.new)) }
{
    let (heap, rt, origins) = (service.heap, service.rt, service.origins);
    let mut sockets = match Sockets::bind(heap, rt, service.addresses) {
        Ok(sockets) => sockets,
        Err(address) => {
            tell_unavailable(err, address)?;
            return Ok(FAILED);
        }
    };
    tell_listening(err, service.addresses)?;
    let mut lines = Vec::new(heap);
    let mut opened = Vec::new(heap);
    opened.resize(CONNECTIONS, None)?;
    let mut transfers = Vec::new(heap);
    transfers.resize(CONNECTIONS, None)?;
    let counts = Counts::new(0);
    let every = service.count_every;
    let mut diagnostics = Diagnostics::new(heap, service.log_level);
    let mut log = Log {
        err,
        origins,
        is_quiet: service.is_quiet,
        addresses: &mut opened,
        transfers: &mut transfers,
        lines: &mut lines,
        counts,
        has_failed: false,
        counting: Counting::new(every != 0),
        diagnostics: &mut diagnostics,
    };
    let mut told = CountLines {
        out,
        origins,
        every,
        next: every,
    };
    let is_told = run_recorded(service, primary, &mut sockets, &mut log, script, &mut told)?;
    if is_told && log.is_written() {
        return Ok(DONE);
    }
    Ok(FAILED)
}
/// Where a server writes: counts, its log, and the script of a recording.
#[derive(Drop)]
pub struct Streams<O, E, W> {
    /// Counts go here.
    pub out: O,
    /// The log goes here.
    pub err: E,
    /// The script of a recording goes here, if one is wanted.
    pub record: W,
}

/// Tells which versions are shown, listens, and makes the turns of a service.
fn serve_primary<R: Net + Clock + Logger, I: ZoneIndex, S: ZoneStore, O: Write, E: Write, W: Write>(
    service: &Service<'_, R>,
    primary: &mut Primary<I, S>,
    streams: &mut Streams<O, E, W>,
) -> io::Result<u8>
    ensures run { HasRun (λ m. IsKept primary.old m) (IsLedTo primary.old primary.new) }
    ensures ended { IfOk result (λ status. (status ≡ FAILED)
        ⊎ ((status ≡ DONE)
        × TurnsAreServed service.now primary.old primary.new O.contents E.contents W.contents
        streams.old streams.new)) }
{
    tell_zones(&mut streams.err, primary, service.origins)?;
    listen(
        service,
        primary,
        &mut streams.out,
        &mut streams.err,
        &mut streams.record,
    )
}

/// What can be served so. (A call that names both a store over a device and the memory of every collection
/// has no proof, so that the service is a type parameter.)
trait Servable<S, T> {
    /// Some turns were made of it.
    ghost has_run: { Self → Self → Type 0 };

    /// All turns of a service were made of it, and it and the streams are these after them.
    ghost is_served: { Self → S → T → Self → T → Type 0 };

    /// Serves it, and returns the exit status.
    fn serve_as(&mut self, service: &S, streams: &mut T) -> u8
        ensures run { has_run self.old self.new }
        ensures ended { (result ≡ FAILED)
            ⊎ ((result ≡ DONE) × is_served self.old service.now streams.old self.new streams.new) };
}

impl<R: Net + Clock + Logger, I: ZoneIndex, S: ZoneStore, O: Write, E: Write, W: Write> Servable<
    Service<'_, R>,
    Streams<O, E, W>,
> for Primary<I, S> {
    ghost has_run = { λ primary after. HasRun (λ m. IsKept primary m) (IsLedTo primary after) };

    ghost is_served = { λ primary service streams after streams_after.
        TurnsAreServed service primary after O.contents E.contents W.contents streams streams_after };

    fn serve_as(&mut self, service: &Service<'_, R>, streams: &mut Streams<O, E, W>) -> u8 {
        serve_primary(service, self, streams).unwrap_or(FAILED)
    }
}

/// Serves a primary, and returns the exit status.
fn serve_as<S, T, P: Servable<S, T>>(primary: &mut P, service: &S, streams: &mut T) -> u8
    ensures run { P.has_run primary.old primary.new }
    ensures ended { (result ≡ FAILED)
        ⊎ ((result ≡ DONE) × P.is_served primary.old service.now streams.old primary.new streams.new) }
{
    primary.serve_as(service, streams)
}

/// Tells which device is refused, and gives the exit status.
fn tell_refusal<E: Write>(
    err: &mut E,
    zones: &[ZoneSettings],
    refusal: Refusal,
    explain: bool,
) -> io::Result<u8>
    ensures { IfOk result
        (λ status. IsRefusalTold zones.now refusal.index refusal.fault explain (E.contents err.old)
        (E.contents err.new) status) }
{
    match zones.get(refusal.index) {
        Some(own) => tell_device(err, &own.device, refusal.fault, explain),
        None => Ok(FAILED),
    }
}

/// Takes a primary apart into the stores of its zones, and closes their devices. It takes no memory.
fn close_primary<D: Sectors + Drop, F: Devices<D>, I: ZoneIndex>(
    devices: &mut F,
    zones: &[ZoneSettings],
    primary: Primary<I, KeptStore<D, I>>,
)
    ensures { Calls (F.calls devices.old) (F.calls devices.new)
        (λ calls. ArePrimaryClosed calls zones.now primary) }
{
    close_stores(devices, zones, primary.into_stores());
}

/// What a server runs on: memory, and the system's sockets and clock.
#[derive(Drop)]
pub struct Host<'a, R> {
    pub alloc: Global,
    pub heap: Heap,
    pub rt: &'a R,
}

/// How a server is to be run.
#[derive(Clone, Copy)]
pub struct ServeOptions {
    /// How many turns it makes.
    pub turns: u64,
    /// Whether lines of connections are left out of its log.
    pub is_quiet: bool,
    /// Each how many seconds counts are told; with 0 they are not.
    pub count_every: u64,
    /// Of which levels diagnostic lines are logged.
    pub log_level: LevelFilter,
    /// Whether the script of what happens is written.
    pub is_recorded: bool,
    /// Whether a second line says what can be done about a device that is refused.
    pub explain: bool,
}

/// Opens the stores of all zones, serves them and closes their devices. Returns the exit status.
fn serve_all<
    D: Sectors + Drop,
    F: Devices<D>,
    I: ZoneIndex,
    R: Net + Clock + Logger,
    O: Write,
    E: Write,
    W: Write,
>(
    host: &Host<'_, R>,
    devices: &mut F,
    config: &File<'_>,
    options: ServeOptions,
    streams: &mut Streams<O, E, W>,
) -> io::Result<u8>
    ensures { ServerEnds D.Sectors F.calls O.contents E.contents W.contents devices.old devices.new
        streams.old streams.new config.now options (result_unwrap_or result FAILED) }
{
    let (alloc, heap, rt) = (host.alloc, host.heap, host.rt);
    let configuration = match read_configuration(alloc, heap, config) {
        Ok(configuration) => configuration,
        Err(fault) => return tell(&mut streams.err, config.path, fault),
    };
    let origins = origins_of(heap, &configuration.zones)?;
    match open_primary::<D, F, I>(heap, devices, &configuration.zones, &origins) {
        Ok(mut primary) => {
            let service = Service {
                heap,
                rt,
                origins: &origins,
                addresses: &configuration.listen,
                turns: options.turns,
                is_quiet: options.is_quiet,
                count_every: options.count_every,
                log_level: options.log_level,
                is_recorded: options.is_recorded,
            };
            let status = serve_as(&mut primary, &service, streams);
            close_primary(devices, &configuration.zones, primary);
            Ok(status)
        }
        Err(refusal) => {
            let err = &mut streams.err;
            tell_refusal(err, &configuration.zones, refusal, options.explain)
        }
    }
}

/// Opens the stores of a configuration's zones, each in its device, and serves them on each of its addresses
/// by UDP and TCP for this many turns. A datagram is answered from the address that it was sent to. A log
/// goes to `err`: `zone ORIGIN version V serial M` for each zone, `listening on ADDRESS` for each address,
/// and then `conn N open ADDRESS`, `conn N closed`, `out of memory` and `device ORIGIN` as they come. The
/// lines of a turn are written when it ends. Of lines of connections at most 20 are written in a second; when
/// it is over `N lines left out` is, and `N connections refused` for those that were closed for want of a
/// slot. What was counted is told to `out`, if that is wanted: a line for each zone, and then one for the
/// server. If a script is wanted, each event of the machine is a line of it in `record`, as `replay` runs it,
/// after a comment on each zone that is shown. If that can't be written, recording ends: then the log has the
/// line `recording ended`, and serving goes on.
///
/// Faults are reported in one line, the first in this order: the configuration, the devices (of which, if it
/// is wanted, a second line says what can be done), the addresses (`ADDRESS: Unavailable`). Gives the exit
/// status: `DONE`, `REFUSED`, or `FAILED` where a device or an address can't be had, a writer failed or
/// memory was refused. It serves only if each device is intact: its first sector is a root of its zone and of
/// the sizes of its store, and each sector that is read is its own or zeros. The devices are closed as the
/// last turn left them, or as they came if one of them is refused, but for how often they were opened.
pub fn serve<
    D: Sectors + Drop,
    F: Devices<D>,
    I: ZoneIndex,
    R: Net + Clock + Logger,
    O: Write,
    E: Write,
    W: Write,
>(
    host: &Host<'_, R>,
    devices: &mut F,
    config: &File<'_>,
    options: ServeOptions,
    streams: &mut Streams<O, E, W>,
) -> u8
    ensures { ServerEnds D.Sectors F.calls O.contents E.contents W.contents devices.old devices.new
        streams.old streams.new config.now options result }
{
    serve_all::<D, F, I, R, O, E, W>(host, devices, config, options, streams).unwrap_or(FAILED)
}
