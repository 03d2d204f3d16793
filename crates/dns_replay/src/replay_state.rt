//! What a script runs over, and crashes of it.
ghost use Rattle.std.specs.Prelude.{◌≡◌, ◌==◌, true, Some, None, find, map, IsSome, IfOk};
ghost use Rattle.std.specs.Option.{option_copied};
ghost use Rattle.dns_versions.specs.Each.{Each2};
ghost use Rattle.dns_primary.specs.Steps.{event_shown};
ghost use Rattle.dns_replay.specs.Commands.{said_keep, said_zone_keep};
ghost use Rattle.dns_replay.specs.Crashes.{AreLeftBy, IsToldAs, keep_at};
ghost use Rattle.dns_replay.specs.Runs.{AreSame, AreTakenOf, DoesIn, EventLeadsIn, IsOpeningRefused};
ghost use Rattle.dns_primary.specs.HandOut.{LeavesAtRest, LeavesWithin};
ghost use Rattle.dns_primary.specs.Open.{devices_of};
ghost use Rattle.dns_replay.specs.Runs.{OpensIn, crash_by};

use crate::device::ScriptDevice;
use crate::events::{give_back, happen};
use crate::keeps::{Keep, ZoneKeep};
use crate::print::{print_effects, print_recovered, print_refusal, print_stop};
use crate::run::After;
use dns_memory::Heap;
use dns_names::Name;
use dns_primary::{Event, NotOpened, Primary, ZoneSpec};
use dns_sectors::{self, Plan};
use dns_store::{KeptStore, OpenError};
use dns_zone::ZoneIndex;
use std::alloc::AllocError;
use std::io::{self, Write};
use std::mem;

/// What memory comes from, the names of the zones and their settings, in one order, and the plan by which
/// their devices fail and stop.
#[derive(Clone, Copy)]
pub struct World<'w> {
    /// What memory comes from.
    pub heap: Heap,
    pub origins: &'w [Name],
    pub settings: &'w [ZoneSpec],
    pub plan: &'w Plan,
}

/// The same settings again.
fn setting_again(alloc: Heap, settings: &ZoneSpec) -> Result<ZoneSpec, AllocError>
    ensures { IfOk result (AreSame settings.now) }
{
    Ok(ZoneSpec {
        snapshot: settings.snapshot,
        journal: settings.journal,
        keep: settings.keep,
        update: Vec::from_slice(alloc, &settings.update)?,
        transfer: Vec::from_slice(alloc, &settings.transfer)?,
    })
}

/// The settings of all zones again.
pub(crate) fn settings_again(
    alloc: Heap,
    settings: &[ZoneSpec],
) -> Result<Vec<ZoneSpec, Heap>, AllocError>
    ensures { IfOk result (λ again. Each2 AreSame settings.now again.items) }
{
    let mut again = Vec::new(alloc);
    for one in settings {
        again.push(setting_again(alloc, one)?)?;
    }
    Ok(again)
}

/// What is kept, as it is passed to a device.
fn told_as(keep: &Keep) -> dns_sectors::Keep<'_>
    ensures { IsToldAs (said_keep keep.now) result }
{
    match keep {
        Keep::All => dns_sectors::Keep::All,
        Keep::These(numbers) => dns_sectors::Keep::These(numbers),
    }
}

/// What is said of the zone at a position.
fn said_of(keeps: &[ZoneKeep], index: usize) -> Option<&ZoneKeep>
    ensures { option_copied result ≡ find (λ k. k.zone == index) keeps.now }
{
    keeps.iter().find(|one| one.zone == index)
}

/// What is kept of the writes that are pending on the device of the zone at a position: none where nothing is
/// said of it.
fn keep_at(keeps: &[ZoneKeep], index: usize) -> dns_sectors::Keep<'_>
    ensures { IsToldAs (keep_at (map said_zone_keep keeps.now) index) result }
{
    match said_of(keeps, index) {
        Some(one) => told_as(&one.keep),
        None => dns_sectors::Keep::These(&[]),
    }
}

/// The devices after a crash of all.
fn crash_all<D: ScriptDevice>(
    alloc: Heap,
    devices: Vec<D, Heap>,
    keeps: &[ZoneKeep],
) -> Result<Vec<D, Heap>, AllocError>
    ensures { IfOk result
        (λ left. AreLeftBy D.Sectors D.left_by (map said_zone_keep keeps.now) 0
        devices.entry.items left.items) }
{
    let mut devices = devices;
    let count = devices.len();
    let mut left = Vec::with_capacity(alloc, count)?;
    for index in 0..count {
        let device = devices.remove(0);
        left.push_reserved(device.after_crash(keep_at(keeps, index)));
    }
    Ok(left)
}

/// Opens all stores.
fn open_again<D: ScriptDevice, I: ZoneIndex>(
    world: World<'_>,
    devices: Vec<D, Heap>,
) -> Result<Result<Primary<I, KeptStore<D, I>>, NotOpened<D>>, AllocError>
    ensures { IfOk result (OpensIn world.entry devices.entry.items) }
{
    let settings = settings_again(world.heap, world.settings)?;
    if devices.len() != settings.len() || world.origins.len() != settings.len() {
        return Err(AllocError);
    }
    Ok(Primary::open(world.heap, devices, world.origins, settings))
}

/// Lets an event happen to a primary that takes events, and prints what it does; where a stop falls in it, it
/// prints that alone, and the devices are left.
fn run_step<D: ScriptDevice, I: ZoneIndex, W: Write>(
    world: World<'_>,
    running: Primary<I, KeptStore<D, I>>,
    devices: &mut Vec<D, Heap>,
    event: Event<'_>,
    out: &mut W,
) -> io::Result<Option<Primary<I, KeptStore<D, I>>>>
    ensures { IfOk result (λ next. EventLeadsIn world.entry (event_shown event.entry)
        (Some running) devices.old.items next devices.new.items
        (W.contents out.old) (W.contents out.new)) }
{
    let mut running = running;
    let effects = happen(&mut running, world.heap, event);
    if world.plan.stopped() {
        let left = devices_of(world.heap, running)?;
        print_stop(out)?;
        *devices = left;
        return Ok(None);
    }
    print_effects(world.heap, world.origins, event, &effects, out)?;
    give_back(&mut running, world.heap, effects);
    Ok(Some(running))
}

/// Lets an event happen, and prints what it does; where a stop falls in it, or fell before, it prints that
/// alone. A script has a primary that takes events, or, after a stop, its devices alone.
pub(crate) fn run_event<D: ScriptDevice, I: ZoneIndex, W: Write>(
    world: World<'_>,
    primary: &mut Option<Primary<I, KeptStore<D, I>>>,
    devices: &mut Vec<D, Heap>,
    event: Event<'_>,
    out: &mut W,
) -> io::Result<After>
    ensures { IfOk result (λ after. (after ≡ After.GoesOn)
        × EventLeadsIn world.entry (event_shown event.entry)
        primary.old devices.old.items primary.new devices.new.items
        (W.contents out.old) (W.contents out.new)) }
{
    match primary.take() {
        None => {
            print_stop(out)?;
            Ok(After::GoesOn)
        }
        Some(running) => {
            let next = run_step(world, running, devices, event, out)?;
            *primary = next;
            Ok(After::GoesOn)
        }
    }
}

/// The devices, of the primary or those that are left.
fn take_devices<D: ScriptDevice, I: ZoneIndex>(
    alloc: Heap,
    primary: &mut Option<Primary<I, KeptStore<D, I>>>,
    devices: &mut Vec<D, Heap>,
) -> Result<Vec<D, Heap>, AllocError>
    ensures taken { primary.new ≡ None }
    ensures recoverable { IfOk result (λ left. AreTakenOf primary.old devices.old.items left.items) }
{
    match primary.take() {
        Some(running) => {
            let left = devices_of(alloc, running)?;
            Ok(left)
        }
        None => Ok(mem::replace(devices, Vec::new(alloc))),
    }
}

/// Lets all devices crash, and opens the stores; with a number, the write or sync of the opening that has it
/// is the last. Says what becomes of the run.
pub(crate) fn crash<D: ScriptDevice, I: ZoneIndex, W: Write>(
    world: World<'_>,
    primary: &mut Option<Primary<I, KeptStore<D, I>>>,
    devices: &mut Vec<D, Heap>,
    stop: Option<u32>,
    keeps: &[ZoneKeep],
    out: &mut W,
) -> io::Result<After>
    ensures { IfOk result (DoesIn D.left_by world.entry (crash_by (map said_zone_keep keeps.now) stop)
        primary.old devices.old.items primary.new devices.new.items
        (W.contents out.old) (W.contents out.new)) }
{
    let left = take_devices(world.heap, primary, devices)?;
    let crashed = crash_all(world.heap, left, keeps)?;
    world.plan.reset();
    world.plan.stop_at(u64::from(stop.unwrap_or(0)));
    let opened = open_again(world, crashed)?;
    match opened {
        Ok(running) => {
            world.plan.reset();
            print_recovered(world.origins, &running, out)?;
            *primary = Some(running);
            Ok(After::GoesOn)
        }
        Err(refused) => keep_refused(world, devices, stop, refused, out),
    }
}

/// Whether a stop fell in an opening in which a write or sync was to be the last.
fn fell(stop: Option<u32>, plan: &Plan) -> bool
    ensures { result ≡ true → IsSome stop }
{
    match stop {
        Some(_) => plan.stopped(),
        None => false,
    }
}

/// A store was refused after a crash: a stop fell in the opening, and the devices are kept, or the run ends.
fn keep_refused<D: ScriptDevice, W: Write>(
    world: World<'_>,
    devices: &mut Vec<D, Heap>,
    stop: Option<u32>,
    refused: NotOpened<D>,
    out: &mut W,
) -> io::Result<After>
    ensures { IfOk result (IsOpeningRefused world.entry.origins.now stop refused.devices.items
        devices.new.items (W.contents out.old) (W.contents out.new)) }
{
    if fell(stop, world.plan) {
        *devices = refused.devices;
        print_stop(out)?;
        return Ok(After::GoesOn);
    }
    if refused.error == OpenError::OutOfMemory {
        return Err(AllocError.into());
    }
    print_refusal(world.origins, refused.index, refused.error, out)?;
    Ok(After::Refused)
}

/// The devices of a primary that stops.
fn devices_of<D: ScriptDevice, I: ZoneIndex>(
    alloc: Heap,
    primary: Primary<I, KeptStore<D, I>>,
) -> Result<Vec<D, Heap>, AllocError>
    ensures handed_out { IfOk result (λ devices. devices.items ≡ devices_of primary) }
    ensures at_rest { IfOk result (λ devices. LeavesAtRest D.Sectors primary devices.items) }
    ensures within { IfOk result (λ devices. LeavesWithin D.Sectors primary devices.items) }
{
    let mut devices = Vec::with_capacity(alloc, primary.zone_count())?;
    primary.into_devices(&mut devices);
    Ok(devices)
}
