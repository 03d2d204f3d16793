//! Primaries over devices: the store of each zone is opened, and at the end all devices are handed out again.
ghost use Rattle.std.specs.Prelude.{◌≡◌, ◌≤◌, ◌+◌, ◌++◌, length, map, vec_capacity};
ghost use Rattle.std.specs.Prelude.{IfErr, IfOk, MatchResult};
ghost use Rattle.dns_primary.specs.HandOut.{LeavesAtRest, LeavesWithin};
ghost use Rattle.dns_primary.specs.Open.{AreAllOpened, AreAsHonest, AreOpened, AreRefused, IsNotOpened};
ghost use Rattle.dns_primary.specs.Open.{HoldsAnyway, IsOpened};
ghost use Rattle.dns_primary.specs.Open.{LeavesRecoverable, Recovers, RecoversAnew, count_of};
ghost use Rattle.dns_primary.specs.Open.{device_of_pending, devices_of};

use crate::connections::no_connections;
use crate::{Primary, ZoneSpec};
use arrayvec::ArrayVec;
use dns_memory::Heap;
use dns_names::Name;
use dns_sectors::Sectors;
use dns_store::{KeptStore, OpenError, ZoneStore, open, snapshot_len};
use dns_versions::ZoneVersions;
use dns_zone::{Zone, ZoneIndex};

/// Why a primary was not opened, and all devices, in the order in which they came.
#[derive(Drop)]
pub struct NotOpened<D> {
    /// The position of the zone whose store was refused, or 0 where memory was refused before any was opened.
    pub index: usize,
    /// What its store was refused for.
    pub error: OpenError,
    /// All devices, those that were opened before too.
    pub devices: Vec<D, Heap>,
}

// A zone whose device was opened.
#[derive(Drop)]
struct OneOpened<D: Sectors + Drop, I: ZoneIndex> {
    zone: Zone<I>,
    pending: ZoneVersions<I, KeptStore<D, I>>,
}

// All zones, with their devices.
#[derive(Drop)]
struct AllOpened<D: Sectors + Drop, I: ZoneIndex> {
    zones: Vec<Zone<I>, Heap>,
    pending: Vec<ZoneVersions<I, KeptStore<D, I>>, Heap>,
}

// The position of the zone that was refused, and why.
#[derive(Clone, Copy)]
struct Refusal {
    index: usize,
    error: OpenError,
}

// Opens the device of one zone.
fn open_one<D: Sectors + Drop, I: ZoneIndex>(
    alloc: Heap,
    device: D,
    apex: &Name,
    own: &ZoneSpec,
) -> Result<OneOpened<D, I>, (D, OpenError)>
    ensures { MatchResult result (λ r. IsOpened apex.now own.now device r.zone r.pending)
        (λ e. IsNotOpened D.Sectors apex.now own.now e.1 device e.0) }
{
    match open(alloc, device, apex, own.snapshot, own.journal) {
        Ok((store, zone)) => {
            let pending = ZoneVersions {
                tip: None,
                number: store.newest(),
                store,
                octets: snapshot_len(&zone),
                snapshot: own.snapshot,
                journal: own.journal,
            };
            Ok(OneOpened { zone, pending })
        }
        Err(refused) => Err(refused),
    }
}

// Puts the devices of opened zones before the others again.
fn take_back<D: Sectors + Drop, I: ZoneIndex>(
    devices: &mut Vec<D, Heap>,
    pending: Vec<ZoneVersions<I, KeptStore<D, I>>, Heap>,
)
    requires { length pending.items + length devices.old.items ≤ vec_capacity devices.old }
    ensures { devices.new.items ≡ map (λ b. device_of_pending b) pending.entry.items ++ devices.old.items }
{
    let mut pending = pending;
    while let Some(last) = pending.pop() {
        let ZoneVersions {
            tip: _,
            store,
            number: _,
            octets: _,
            snapshot: _,
            journal: _,
        } = last;
        match devices.insert(0, store.into_device()) {
            Ok(()) => (),
            Err(_) => unreachable!(),
        }
    }
}

// Opens the devices of all zones, in order. Where one is refused, all are there again.
fn open_all<D: Sectors + Drop, I: ZoneIndex>(
    alloc: Heap,
    devices: &mut Vec<D, Heap>,
    apexes: &[Name],
    settings: &[ZoneSpec],
) -> Result<AllOpened<D, I>, Refusal>
    requires as_many { length devices.old.items ≡ length settings.now }
    requires named { length apexes.now ≡ length settings.now }
    ensures { MatchResult result
        (λ r. AreOpened (length settings.now) apexes.now settings.now devices.old.items
        r.zones.items r.pending.items)
        (λ e. AreRefused D.Sectors e.error e.index apexes.now settings.now devices.old.items
        devices.new.items) }
{
    let refused = Refusal {
        index: 0,
        error: OpenError::OutOfMemory,
    };
    let Ok(mut zones) = Vec::with_capacity(alloc, settings.len()) else {
        return Err(refused);
    };
    let Ok(mut pending) = Vec::with_capacity(alloc, settings.len()) else {
        return Err(refused);
    };
    for index in 0..settings.len() {
        let device = devices.remove(0);
        match open_one(alloc, device, &apexes[index], &settings[index]) {
            Ok(one) => {
                zones.push_reserved(one.zone);
                pending.push_reserved(one.pending);
            }
            Err((device, error)) => {
                match devices.insert(0, device) {
                    Ok(()) => (),
                    Err(_) => unreachable!(),
                }
                take_back(devices, pending);
                return Err(Refusal { index, error });
            }
        }
    }
    Ok(AllOpened { zones, pending })
}

impl<D: Sectors + Drop, I: ZoneIndex> Primary<I, KeptStore<D, I>> {
    /// Opens the devices of zones with these names and settings, all in one order, one after the other.
    ///
    /// If the store of one is refused, all devices are handed back, in the order in which they came: those
    /// before it were opened and those after it are as they were. On the devices of a machine that stopped,
    /// however often recovery was itself stopped or refused before, one that is honest is refused only if it
    /// failed, if memory was refused, if its store was opened 2^64 - 1 times, or if a sector of it that is in
    /// use was altered, which is then named.
    pub fn open(
        alloc: Heap,
        devices: Vec<D, Heap>,
        apexes: &[Name],
        settings: Vec<ZoneSpec, Heap>,
    ) -> Result<Primary<I, KeptStore<D, I>>, NotOpened<D>>
        requires as_many { length devices.items ≡ length settings.items }
        requires named { length apexes.now ≡ length settings.items }
        // On the devices of a machine that stopped each zone whose device is honest recovered from that stop,
        // and where all are honest it is a machine that did; refused, the devices are such devices still, and
        // this was one try more.
        ensures recovered { Recovers D.Sectors apexes.now settings.entry.items devices.entry.items result }
        // Where it had other settings, it is that machine, which was then given these.
        ensures configured { RecoversAnew D.Sectors apexes.now settings.entry.items devices.entry.items
            result }
        // Whichever of the devices are honest, it is a machine, and each zone whose device is honest
        // recovered.
        ensures anyway { HoldsAnyway D.Sectors apexes.now settings.entry.items devices.entry.items result }
        // A crash at any moment of it leaves each honest device as one that a crash might have left before.
        ensures any_moment { LeavesRecoverable D.Sectors apexes.now settings.entry.items devices.entry.items
            result }
        // Each device is as honest as it was.
        ensures honest { MatchResult result (λ p. AreAsHonest D.Sectors devices.entry.items (devices_of p))
            (λ e. AreAsHonest D.Sectors devices.entry.items e.devices.items) }
        // It has a zone for each device, whatever was on them.
        ensures count { IfOk result (λ p. count_of p ≡ length devices.entry.items) }
        // Each device was opened as its zone, whatever was on the others.
        ensures opened { IfOk result
            (AreAllOpened apexes.now settings.entry.items devices.entry.items) }
        // Why it is refused, on any devices.
        ensures refused { IfErr result
            (λ e. AreRefused D.Sectors e.error e.index apexes.now settings.entry.items
            devices.entry.items e.devices.items) }
    {
        let Ok(connections) = no_connections(alloc) else {
            return Err(NotOpened {
                index: 0,
                error: OpenError::OutOfMemory,
                devices,
            });
        };
        let mut devices = devices;
        match open_all(alloc, &mut devices, apexes, &settings) {
            Ok(all) => Ok(Primary {
                zones: all.zones,
                pending: all.pending,
                settings,
                waiting: ArrayVec::new(),
                places: Vec::new(alloc),
                connections,
                transfers: Vec::new(alloc),
                spare: Vec::new(alloc),
            }),
            Err(refusal) => Err(NotOpened {
                index: refusal.index,
                error: refusal.error,
                devices,
            }),
        }
    }

    /// How many zones it has, each with its device.
    pub fn zone_count(&self) -> usize
        ensures { result ≡ count_of self.now }
    {
        self.pending.len()
    }

    /// The stores of all zones, in the order in which their devices came. It takes no memory. What was staged
    /// is lost, as by a stop.
    pub fn into_stores(self) -> Vec<ZoneVersions<I, KeptStore<D, I>>, Heap>
        ensures handed_out { map (λ b. device_of_pending b) result.items ≡ devices_of self }
        // Between two events: a machine that it keeps, which stops here. It is said of each honest device.
        ensures at_rest { LeavesAtRest D.Sectors self (devices_of self) }
        // Within the event that led here: the machine from which it came.
        ensures within { LeavesWithin D.Sectors self (devices_of self) }
    {
        let Primary {
            zones: _,
            pending,
            settings: _,
            waiting: _,
            places: _,
            connections: _,
            transfers: _,
            spare: _,
        } = self;
        pending
    }

    /// Puts the devices of all zones, in the order in which they came, at the front of this list, which has
    /// room for them. It takes no memory. What was staged is lost, as by a stop.
    pub fn into_devices(self, devices: &mut Vec<D, Heap>)
        requires { count_of self + length devices.old.items ≤ vec_capacity devices.old }
        ensures handed_out { devices.new.items ≡ devices_of self ++ devices.old.items }
        ensures at_rest { LeavesAtRest D.Sectors self (devices_of self) }
        ensures within { LeavesWithin D.Sectors self (devices_of self) }
    {
        take_back(devices, self.into_stores());
    }
}
