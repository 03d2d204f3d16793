//! The law that joins what the commands leave of a store to what happens in a life.
ghost use Rattle.dns_sectors.specs.Device.{Content};
ghost use Rattle.dns_store.specs.Versions.{Opened};
ghost use Rattle.dns_primary.specs.Machine.{ZoneState};
ghost use Rattle.dns_configuration.specs.declared.configuration.ZoneSettings.{ZoneSettings};
ghost use Rattle.dns_acts.specs.Acts.{IsStoredAs, LeavesDumped, LeavesLoaded, LeavesLoading, LeavesMigrated};
ghost use Rattle.dns_acts.specs.Acts.{LeavesMigrating, LeavesOpening, LeavesUnloaded};

use dns_sectors::Sectors;

/// What `load`, `dump` and `migrate` of `dns_commands` leave of a zone's store, on whichever device, is what
/// an act of a life of `dns_theorem` makes of the zone. Of a zone as its store is opened, each crash leaves
/// what is opened as the zone is after that act: with the records loaded, after a load that is answered with
/// the next version; with the same versions, after a load that is answered `Already`, that is refused or that
/// lacks memory, and after a dump or a migration; and with the one or the other, at any moment of a load,
/// however it is cut off. While the store is opened or migrated, it is so with the same versions. Of a store
/// of format 2 that is migrated no sector was altered.
///
/// That the commands do so is what `IsLoading`, `IsDumped` and `IsMigratedAs` say of them.
pub fn commands_law<D: Sectors>()
    ensures loaded { (own : ZoneSettings) (z : ZoneState) (o : Opened) (c : Content) → IsStoredAs own z o c
        → LeavesLoaded D.Sectors own z o }
    ensures loading { (own : ZoneSettings) (z : ZoneState) (o : Opened) (c : Content) → IsStoredAs own z o c
        → LeavesLoading own z o }
    ensures unloaded { (own : ZoneSettings) (z : ZoneState) (o : Opened) (c : Content) → IsStoredAs own z o c
        → LeavesUnloaded D.Sectors own z o }
    ensures dumped { (own : ZoneSettings) (z : ZoneState) (o : Opened) (c : Content) → IsStoredAs own z o c
        → LeavesDumped D.Sectors own z o }
    ensures opening { (own : ZoneSettings) → LeavesOpening D.Sectors own }
    ensures migrated { (own : ZoneSettings) → LeavesMigrated D.Sectors own }
    ensures migrating { (own : ZoneSettings) → LeavesMigrating D.Sectors own }
{}
