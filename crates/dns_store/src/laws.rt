//! Laws of the stores on devices.
ghost use Rattle.std.specs.Prelude.{◌≡◌, ◌↔◌, List, ℕ};
ghost use Rattle.dns_records.specs.Record.{Record as Stated};
ghost use Rattle.dns_store.specs.Versions.{Shape, Kept, Opened};
ghost use Rattle.dns_store.specs.Opens.{opens};
ghost use Rattle.dns_store.specs.Opening.{MayOpen, OpensAsPossible, store_device};
ghost use Rattle.dns_store.specs.Formatting.{first_of};
ghost use Rattle.dns_store.specs.Migrating.{MayMigrate, MigratesAsPossible, TakesMigrated, opens_migrated};
ghost use Rattle.dns_store.specs.declared.migrating.Migration.{Migration as Answer};

use crate::{KeptStore, ZoneStore};
use dns_sectors::Sectors;
use dns_zone::ZoneIndex;

/// The clock of a store on a device, what a crash may leave, now or since a moment, how often it has failed,
/// and whether it is honest are those of its device.
pub fn store_law<D: Sectors + Drop, I: ZoneIndex>()
    ensures moment { ⟦<KeptStore<D, I> as ZoneStore>⟧.moment ≡ (λ store. D.moment (store_device store)) }
    ensures may_leave { (store : _) (c : List (List ℕ)) → ⟦<KeptStore<D, I> as ZoneStore>⟧.may_leave store c
        ↔ D.may_leave (store_device store) c }
    ensures left_since { (store : _) (t : ℕ) (c : List (List ℕ))
        → ⟦<KeptStore<D, I> as ZoneStore>⟧.left_since store t c ↔ D.left_since (store_device store) t c }
    ensures failed { ⟦<KeptStore<D, I> as ZoneStore>⟧.failed ≡ (λ store. D.failed (store_device store)) }
    ensures honest { (store : _)
        → ⟦<KeptStore<D, I> as ZoneStore>⟧.is_honest store ↔ D.is_honest (store_device store) }
{}

/// Every crash of a device leaves a store that opens, from a `format` or a `migrate` that succeeded on,
/// through all that is done with it: what `open` leaves at any moment of it, and what a store leaves of its
/// device between two calls. (At any moment of a flush or a checkpoint a crash leaves some of its versions:
/// `any_moment` of these says which.) So `open` succeeds on it but for a device that fails, memory that is
/// refused, a store that was opened 2^64 - 1 times, and an altered sector in use. And every crash within
/// `migrate` leaves what `migrate` takes up again.
pub fn opens_law<D: Sectors + Drop, I: ZoneIndex>()
    ensures formatted { (shape : Shape) (records : List Stated) (device : _)
        → ((c : List (List ℕ)) → D.may_leave device c → opens shape (first_of records) c)
        → MayOpen D.Sectors shape device }
    ensures migrated { (shape : Shape) (before after : _) (answer : Answer)
        → MayMigrate D.Sectors shape before → TakesMigrated D.Sectors shape before after answer
        → MayOpen D.Sectors shape after }
    ensures opening { (shape : Shape) (device : _) (c : List (List ℕ)) → MayOpen D.Sectors shape device
        → OpensAsPossible D.Sectors shape device c → (o : Opened) × opens shape o c }
    ensures kept { (store : _) (k : Kept) → ⟦<KeptStore<D, I> as ZoneStore>⟧.keeps store k
        → D.is_honest (store_device store) → MayOpen D.Sectors k.shape (store_device store) }
    ensures migrating { (shape : Shape) (device : _) (c : List (List ℕ)) → MayMigrate D.Sectors shape device
        → MigratesAsPossible D.Sectors shape device c → (o : Opened) × opens_migrated shape o c }
{}
