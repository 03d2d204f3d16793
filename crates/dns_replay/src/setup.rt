//! A script over zones that were loaded: a device is made for each, with its store, and the primary is opened
//! over them.
ghost use Rattle.std.specs.Prelude.{◌≡◌, ◌≢◌, ◌∷◌, ◌++◌, [], length, map, IfErr, IfOk, OnOk};
ghost use Rattle.dns_versions.specs.Each.{Each2, Each3};
ghost use Rattle.dns_replay.specs.Lines.{lines};
ghost use Rattle.dns_replay.specs.Made.{IsMadeOf};
ghost use Rattle.dns_replay.specs.Runs.{AreSame, RunsFrom};

use crate::device::ScriptDevice;
use crate::replay_state::{World, settings_again};
use crate::run::{Ending, run_script};
use dns_memory::Heap;
use dns_names::Name;
use dns_primary::{Primary, ZoneSpec};
use dns_sectors::Plan;
use dns_store::{FormatError, KeptStore, format};
use dns_zone::{Zone, ZoneIndex};
use std::alloc::AllocError;
use std::io::Write;
use std::rc::Rc;

/// Why no store was made: the position of the zone, and what was wrong.
#[derive(Clone, Copy, Debug, PartialEq, Eq)]
pub struct NotMade {
    pub index: usize,
    pub error: FormatError,
}

/// The names of zones.
fn names_of<I: ZoneIndex>(alloc: Heap, zones: &[Zone<I>]) -> Result<Vec<Name, Heap>, AllocError>
    ensures { IfOk result (λ names. names.items ≡ map (λ z. z.apex) zones.now) }
{
    let mut names = Vec::new(alloc);
    for zone in zones {
        names.push(zone.apex().clone()?)?;
    }
    Ok(names)
}

/// A device with the store of a zone.
fn make_one<D: ScriptDevice, I: ZoneIndex>(
    alloc: Heap,
    zone: &Zone<I>,
    settings: &ZoneSpec,
    plan: &Rc<Plan, Heap>,
) -> Result<D, FormatError>
    ensures { IfOk result (IsMadeOf D.Sectors zone.now settings.now) }
{
    let len = 1 + 2 * (settings.snapshot as usize + settings.journal as usize);
    let mut device = D::make(alloc, len, plan.clone()?)?;
    format(
        alloc,
        &mut device,
        zone,
        settings.snapshot,
        settings.journal,
    )?;
    Ok(device)
}

/// Puts a device with the store of a zone after others.
fn make_into<D: ScriptDevice, I: ZoneIndex>(
    alloc: Heap,
    devices: &mut Vec<D, Heap>,
    zone: &Zone<I>,
    settings: &ZoneSpec,
    plan: &Rc<Plan, Heap>,
) -> Result<(), FormatError>
    ensures { OnOk result ((device : _) × (devices.new.items ≡ devices.old.items ++ device ∷ [])
        × IsMadeOf D.Sectors zone.now settings.now device) }
{
    let device = make_one(alloc, zone, settings, plan)?;
    devices.push(device).map_err(AllocError::from)?;
    Ok(())
}

/// A device with the store of each zone.
fn make_all<D: ScriptDevice, I: ZoneIndex>(
    alloc: Heap,
    zones: &[Zone<I>],
    settings: &[ZoneSpec],
    plan: &Rc<Plan, Heap>,
) -> Result<Vec<D, Heap>, NotMade>
    requires { length zones.now ≡ length settings.now }
    ensures { IfOk result (λ devices. Each3 (IsMadeOf D.Sectors) zones.now settings.now devices.items) }
{
    let mut devices = Vec::new(alloc);
    for index in 0..zones.len() {
        match make_into(alloc, &mut devices, &zones[index], &settings[index], plan) {
            Ok(()) => {}
            Err(error) => return Err(NotMade { index, error }),
        }
    }
    Ok(devices)
}

/// Opens the primary over devices that were made for zones, and runs a script. The world's names and settings
/// are those of the zones, in one order, and the settings come twice.
fn replay_over<D: ScriptDevice, I: ZoneIndex, W: Write>(
    world: World<'_>,
    zones: &[Zone<I>],
    again: Vec<ZoneSpec, Heap>,
    devices: Vec<D, Heap>,
    script: &[u8],
    out: &mut W,
) -> Ending
    requires named { world.origins.now ≡ map (λ z. z.apex) zones.now }
    requires same { Each2 AreSame world.settings.now again.items }
    requires made { Each3 (IsMadeOf D.Sectors) zones.now world.settings.now devices.items }
    ensures { result ≢ Ending.Failed → RunsFrom D.Sectors D.left_by zones.now world.entry.settings.now
        (lines script.now) result (W.contents out.old) (W.contents out.new) }
{
    match Primary::<I, KeptStore<D, I>>::open(world.heap, devices, world.origins, again) {
        Ok(primary) => run_script(world, primary, script, out),
        Err(_) => Ending::Failed,
    }
}

/// Makes a device for each zone, with its store, opens the primary over them, and runs a script: see
/// `run_script`. The zones and their settings are in one order. Refused where no store can be made of a zone.
pub fn replay_zones<D: ScriptDevice, I: ZoneIndex, W: Write>(
    alloc: Heap,
    zones: Vec<Zone<I>, Heap>,
    settings: Vec<ZoneSpec, Heap>,
    script: &[u8],
    out: &mut W,
) -> Result<Ending, NotMade>
    requires { length zones.items ≡ length settings.items }
    ensures ran { IfOk result (λ ending. ending ≢ Ending.Failed
        → RunsFrom D.Sectors D.left_by zones.entry.items settings.entry.items (lines script.now) ending
        (W.contents out.old) (W.contents out.new)) }
    ensures refused { IfErr result (λ _. W.contents out.new ≡ W.contents out.old) }
{
    let no_memory = NotMade {
        index: 0,
        error: FormatError::OutOfMemory,
    };
    let Ok(plan) = Rc::new(alloc, Plan::new()) else {
        return Err(no_memory);
    };
    let Ok(names) = names_of(alloc, &zones) else {
        return Err(no_memory);
    };
    let Ok(again) = settings_again(alloc, &settings) else {
        return Err(no_memory);
    };
    let devices: Vec<D, Heap> = make_all(alloc, &zones, &settings, &plan)?;
    let world = World {
        heap: alloc,
        origins: &names,
        settings: &settings,
        plan: &plan,
    };
    Ok(replay_over(world, &zones, again, devices, script, out))
}
