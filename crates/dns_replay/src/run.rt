//! Scripts run over a primary, a line at a time.
ghost use Rattle.std.specs.Prelude.{◌≡◌, ◌≢◌, IfOk};
ghost use Rattle.dns_replay.specs.Commands.{said_command};
ghost use Rattle.dns_replay.specs.Lines.{lines};
ghost use Rattle.dns_replay.specs.Scripts.{peer_of, commanded_by};
ghost use Rattle.dns_replay.specs.Runs.{DoesIn, LineDoes, PlanLeadsIn, RanScript};

use crate::command::{Command, read_command};
use crate::device::ScriptDevice;
use crate::lines::split_line;
use crate::print::print_stop;
use crate::replay_state::{World, crash, run_event};
use dns_memory::Heap;
use dns_primary::{Event, Peer, Primary};
use dns_sectors::Plan;
use dns_store::KeptStore;
use dns_zone::ZoneIndex;
use std::io::{self, Write};
use std::net::IpAddr;

/// How a run ends.
#[derive(Clone, Copy, Debug, PartialEq, Eq)]
pub enum Ending {
    /// All lines were run.
    Done,
    /// The line with this number, the first being 1, is no command.
    Syntax(u64),
    /// After a crash a store was refused, as was printed.
    Refused,
    /// A writer failed, or memory was refused.
    Failed,
}

/// What a plan says of the n-th write or sync from here on: that it fails, or that it is the last.
#[derive(Clone, Copy)]
pub(crate) enum Plans {
    Fail(u32),
    Stop(u32),
}

/// The peer of an address. In a script it has no port, and the server has one address.
fn peer_of(address: IpAddr) -> Peer
    ensures { result ≡ peer_of address }
{
    Peer {
        address,
        port: 0,
        local: 0,
    }
}

/// What becomes of a run after a line.
#[derive(Clone, Copy, Debug, PartialEq, Eq)]
pub(crate) enum After {
    /// It goes on.
    GoesOn,
    /// The line is no command.
    NoCommand,
    /// A store was refused.
    Refused,
}

/// Makes the n-th write or sync fail, or the last.
fn make_plan(plan: &Plan, plans: Plans) {
    match plans {
        Plans::Fail(n) => plan.fail_at(u64::from(n)),
        Plans::Stop(n) => plan.stop_at(u64::from(n)),
    }
}

/// Makes the n-th write or sync fail, or the last, unless a stop came before.
fn run_plan<D: ScriptDevice, I: ZoneIndex, W: Write>(
    world: World<'_>,
    primary: &Option<Primary<I, KeptStore<D, I>>>,
    plans: Plans,
    out: &mut W,
) -> io::Result<After>
    ensures { (devices : _) → IfOk result (λ after. (after ≡ After.GoesOn)
        × PlanLeadsIn world.entry primary.now devices (W.contents out.old) (W.contents out.new)) }
{
    match primary {
        None => {
            print_stop(out)?;
            Ok(After::GoesOn)
        }
        Some(_) => {
            make_plan(world.plan, plans);
            Ok(After::GoesOn)
        }
    }
}

/// Runs a command, and says what becomes of the run.
fn run_command<D: ScriptDevice, I: ZoneIndex, W: Write>(
    world: World<'_>,
    primary: &mut Option<Primary<I, KeptStore<D, I>>>,
    devices: &mut Vec<D, Heap>,
    command: &Command,
    out: &mut W,
) -> io::Result<After>
    ensures { IfOk result (DoesIn D.left_by world.entry (commanded_by (said_command command.now))
        primary.old devices.old.items primary.new devices.new.items
        (W.contents out.old) (W.contents out.new)) }
{
    match command {
        Command::Nothing => Ok(After::GoesOn),
        Command::Fail(n) => run_plan(world, &*primary, Plans::Fail(*n), out),
        Command::Stop(n) => run_plan(world, &*primary, Plans::Stop(*n), out),
        Command::Crash(keeps) => crash(world, primary, devices, None, keeps, out),
        Command::Reopen(n, keeps) => crash(world, primary, devices, Some(*n), keeps, out),
        Command::Datagram(address, octets) => {
            let event = Event::Datagram(peer_of(*address), octets.as_slice());
            run_event(world, primary, devices, event, out)
        }
        Command::Connect(address) => {
            let event = Event::Connect(peer_of(*address));
            run_event(world, primary, devices, event, out)
        }
        Command::Message(number, octets) => {
            let event = Event::Message(*number as usize, octets.as_slice());
            run_event(world, primary, devices, event, out)
        }
        Command::Pump(number) => {
            let event = Event::Pump(*number as usize);
            run_event(world, primary, devices, event, out)
        }
        Command::Close(number) => {
            let event = Event::Closed(*number as usize);
            run_event(world, primary, devices, event, out)
        }
        Command::Flush => run_event(world, primary, devices, Event::Flush, out),
        Command::Checkpoint(index) => {
            let event = Event::Checkpoint(*index);
            run_event(world, primary, devices, event, out)
        }
    }
}

/// Runs one line, and says what becomes of the run.
fn run_line<D: ScriptDevice, I: ZoneIndex, W: Write>(
    world: World<'_>,
    primary: &mut Option<Primary<I, KeptStore<D, I>>>,
    devices: &mut Vec<D, Heap>,
    line: &[u8],
    out: &mut W,
) -> io::Result<After>
    ensures { IfOk result (LineDoes D.left_by world.entry.origins.now world.entry.settings.now line.now
        primary.old devices.old.items primary.new devices.new.items
        (W.contents out.old) (W.contents out.new)) }
{
    match read_command(world.heap, world.origins, line)? {
        Some(command) => run_command(world, primary, devices, &command, out),
        None => Ok(After::NoCommand),
    }
}

/// Runs a script over a primary, whose zones have the names and the settings of the world and whose devices
/// are honest and have its plan, and writes the effects of each line in order. What was written before a line
/// that ends the run stays. A line ends with LF or CR LF.
pub fn run_script<D: ScriptDevice, I: ZoneIndex, W: Write>(
    world: World<'_>,
    primary: Primary<I, KeptStore<D, I>>,
    script: &[u8],
    out: &mut W,
) -> Ending
    ensures { result ≢ Ending.Failed
        → RanScript D.left_by world.entry.origins.now world.entry.settings.now
        (lines script.now) result primary (W.contents out.old) (W.contents out.new) }
{
    let mut running = Some(primary);
    let mut devices = Vec::new(world.heap);
    let mut number: u64 = 1;
    let mut rest = Some(script);
    'lines: while let Some(text) = rest {
        let (line, after) = split_line(text);
        match run_line(world, &mut running, &mut devices, line, out) {
            Ok(After::GoesOn) => {}
            Ok(After::NoCommand) => return Ending::Syntax(number),
            Ok(After::Refused) => return Ending::Refused,
            Err(_) => return Ending::Failed,
        }
        number += 1;
        rest = after;
    }
    Ending::Done
}
