//! What holds of every run of the machine.
ghost use Rattle.std.specs.Prelude.{◌≡◌, ◌≢◌, ℕ, Bool, true, List, None, Some, length};
ghost use Rattle.std.specs.List.{AllByRecursion};
ghost use Rattle.dns_zone.specs.Zone.{Zone as StatedZone};
ghost use Rattle.dns_store.specs.Versions.{Opened, OpensAsLeft, opened_again};
ghost use Rattle.dns_store.specs.Opens.{fresh, opens};
ghost use Rattle.dns_store.specs.Formatting.{first_of};
ghost use Rattle.dns_versions.specs.Checkpoint.{OpensAsCheckpointed};
ghost use Rattle.dns_transfer.specs.Session.{Sending};
ghost use Rattle.dns_primary.specs.Machine.{Machine, ZoneState, kept_of, sending_at};
ghost use Rattle.dns_primary.specs.Step.{Effects as StatedEffects, Event as StatedEvent, Step};
ghost use Rattle.dns_primary.specs.Stop.{Checkpoints, IsMaking, OpensAsRecovered};
ghost use Rattle.dns_primary.specs.Fresh.{IsFresh, IsLoaded, IsResumed, IsStart};
ghost use Rattle.dns_primary.specs.Open.{shape_of};
ghost use Rattle.dns_primary.specs.Continues.{Continues, OpensByEvent};
ghost use Rattle.dns_primary.specs.Causes.{HaveCauses};
ghost use Rattle.dns_primary.specs.declared.event.Noted.TheVariants.{OutOfMemory};
ghost use Rattle.dns_primary.specs.Runs.{IsNoAcknowledgement, IsReleasedFrom, brings_update};
ghost use Rattle.dns_primary.specs.Runs.{Moment, Run, Promise, Continuation, machine_at_end};
ghost use Rattle.dns_primary.specs.Bounds.{IsBounded};
ghost use Rattle.dns_primary.specs.declared.primary.ZoneSpec.{ZoneSpec as StatedSettings};

/// Whatever events come, whatever devices fail, whenever memory is refused, and however often the machine
/// stops, within an event and within the recovery after it: after recovery each zone is its loaded records
/// after accepted updates, in order, each judged on what the one before it left (RFC 2136 section 3), with
/// room for each, and each came in the run from an address that may update the zone. They hold every update
/// that was ever answered NOERROR, and every version that was ever shown. And no store says that it was
/// opened more often than it was.
///
/// It says what follows for whole runs from the machine's single moments. That the code makes those moments
/// is what the clauses of `step`, `open` and `into_devices` say; `stop_law` ties their words to the machine's
/// stop.
pub fn versions_law()
    ensures { (zones : List StatedZone) (settings : List StatedSettings) (start : Machine) (run : List Moment)
        → IsFresh zones settings start → Run start run → Promise start run }
{}

/// The same of a run that begins with stores that are there: those of an earlier run, as they were left, or
/// those that `migrate` of `dns_store` left. What the earlier run made stays, and what is accepted from then
/// on comes after it.
///
/// `opens_law` of `dns_store` says that each crash after a `migrate` that succeeded leaves a store that
/// opens, and the clauses of `open` that its zone is opened with the versions of a store that a crash might
/// have left.
pub fn resumed_law()
    ensures { (held : List Opened) (start : Machine) (run : List Moment)
        → IsResumed held start → Run start run → Continuation start run }
{}

/// In every run at most 32 replies wait, and none for a zone that is closed; and of a zone at most 32 updates
/// are staged: no flush makes more entries of a zone.
pub fn flush_law()
    ensures { (start : Machine) (run : List Moment) → IsStart start → Run start run
        → IsBounded (machine_at_end start run) }
{}

/// What a crash leaves of a zone's device is what the machine's stop leaves of the zone: the version that was
/// shown and some of the updates staged after it, in order, and a base that it had or that the event was
/// making.
pub fn stop_law()
    ensures left { (m : Machine) (event : StatedEvent) (index : ℕ) (z : ZoneState) (c : List (List ℕ))
        → OpensAsLeft opens (kept_of z) c → OpensAsRecovered opens 0 (IsMaking m event index z) z c }
    ensures moved { (m : Machine) (event : StatedEvent) (index room : ℕ) (z : ZoneState) (c : List (List ℕ))
        → Checkpoints m event index room → OpensAsCheckpointed opens z.setting.keep room (kept_of z) c
        → OpensAsRecovered opens 0 (IsMaking m event index z) z c }
{}

/// The reply to an update that was judged goes out at a later event than it was judged at, with the code of
/// its judgement, or with SERVFAIL where its zone is closed then. What goes out at once where an update came
/// is no acknowledgement. So nothing is acknowledged before it is durable.
pub fn replies_wait_law()
    ensures released { (fails : List Bool) (old : Machine) (event : StatedEvent)
        (effects : StatedEffects) (new : Machine)
        → Step fails old event effects new → AllByRecursion (IsReleasedFrom old new) effects.sent }
    ensures at_once { (fails : List Bool) (old : Machine) (event : StatedEvent)
        (effects : StatedEffects) (new : Machine)
        → Step fails old event effects new → brings_update old event ≡ true
        → AllByRecursion IsNoAcknowledgement effects.sent }
{}

/// If memory is not refused, SERVFAIL comes only for a closed zone, for want of room, or for a reply by TCP
/// over 65,535 octets: each reply with it that goes out, or that begins to wait, has such a cause. What
/// waited gets it only if the device of its zone fails in this very event, which closes the zone. It is said
/// of machines as `flush_law` finds them in each run.
pub fn servfail_law()
    ensures { (fails : List Bool) (old : Machine) (event : StatedEvent)
        (effects : StatedEffects) (new : Machine)
        → IsBounded old → Step fails old event effects new → effects.noted ≢ OutOfMemory
        → HaveCauses fails old event effects.sent new }
{}

/// A transfer that is open on a connection is of the version that was shown when its request came there, for
/// a peer that may have it. Whatever else happens from then on, in any order, each pump of the connection
/// gives its next message (RFC 5936 section 2.2, RFC 1995 section 4), until the last one; where memory is
/// refused the next pump gives it.
pub fn transfers_law()
    ensures opened { (number : ℕ) (fails : List Bool) (old : Machine) (event : StatedEvent)
        (effects : StatedEffects) (new : Machine) (s : Sending)
        → OpensByEvent number fails old event effects new s }
    ensures continues { (number : ℕ) (start : Machine) (run : List Moment)
        → Run start run → Continues number run (sending_at number start.connections) }
{}

/// Zones and as many settings have a machine to which nothing has happened: what is said of each such machine
/// is said of one. And each of its zones is what the store is opened as that `format` made of the zone.
pub fn fresh_law()
    ensures exists { (zones : List StatedZone) (settings : List StatedSettings)
        → length zones ≡ length settings → (m : Machine) × IsFresh zones settings m }
    ensures formatted { (zone : StatedZone) (settings : StatedSettings) (z : ZoneState)
        → IsLoaded zone settings z
        → kept_of z ≡ fresh (shape_of zone.apex settings) (opened_again (first_of zone.records)) }
{}
