//! The laws that join what `dns_transfer` sends to what `dns_secondary` makes of it, and both to the machine.
ghost use Rattle.std.specs.Prelude.{◌≡◌, ◌≤◌, ℕ, List, [], None, length};
ghost use Rattle.dns_records.specs.Record.{Record};
ghost use Rattle.dns_store.specs.Migrating.{IsMigrated};
ghost use Rattle.dns_store.specs.Versions.{IsLeftOf, Opened, made_durable, moved_to};
ghost use Rattle.dns_primary.specs.Bounds.{IsBounded};
ghost use Rattle.dns_primary.specs.Fresh.{IsStart};
ghost use Rattle.dns_primary.specs.Machine.{Machine, ZoneState, kept_of};
ghost use Rattle.dns_theorem.specs.Copies.{TransferIsTaken, TransferIsFollowed};
ghost use Rattle.dns_theorem.specs.Followed.{BeginsSoundly, DatagramsAreFollowed};
ghost use Rattle.dns_theorem.specs.Followed.{TransfersAreFollowedThroughLife};
ghost use Rattle.dns_theorem.specs.Headline.{BeginsLoaded, BeginsResumed, TransfersAreFollowed};
ghost use Rattle.dns_theorem.specs.Lives.{Act, HasLoaded, IsMachineAtRest, IsReopenedAs, IsOpenedWith};
ghost use Rattle.dns_theorem.specs.Lives.{Legacy, Life, MayHaveLoaded, MayLoad, end_of_life, loading};
ghost use Rattle.dns_theorem.specs.Messages.{TransfersAreRead, TransfersAreReadThroughLife};

/// The records of a transfer mean the version that is shown to whoever holds nothing, or an older version of
/// the window (RFC 1995 sections 2 and 4, RFC 5936 section 2.2).
pub fn transfer_law()
    ensures { TransferIsTaken }
{}

/// Who asks for a transfer and is fed its messages in order is never refused one but for memory, and holds
/// the version that was shown when it was opened, after the last and after no other. By UDP the one message,
/// where it was not cut off, gives that version, tells that it is held already, or tells to ask again by TCP
/// (RFC 1995 section 2).
pub fn copies_law()
    ensures { TransferIsFollowed }
{}

/// Whoever holds nothing of a zone, or a version that the machine showed of it at some moment of its run,
/// however often it stopped in between, and asks for a transfer by TCP, by its own request or by another that
/// asks for the same, is fed the messages that the machine gives out for it, in order: then none is refused
/// but for memory, and after the last, and after no other, it holds exactly the records that the machine
/// showed when the transfer was opened (RFC 1995 section 4, RFC 5936 section 2.2).
///
/// So it is of a run that begins with zones that were loaded, and of one that begins with stores that are
/// there, as an earlier run or `migrate` of `dns_store` left them.
///
/// Its premises: the zones were valid when they were loaded, what came, in the run and before it, are octets,
/// and the serial goes less than 2^31 from the version that is held to the one that is shown (RFC 1982
/// section 3.2). That the code makes such a run is what `Primary::step`, `open` and `into_devices` of
/// `dns_primary` say, and that it is fed so what `Secondary::feed` of `dns_secondary` says.
pub fn headline_law()
    ensures loaded { TransfersAreFollowed BeginsLoaded }
    ensures resumed { TransfersAreFollowed BeginsResumed }
{}

/// What `load`, `migrate` and `dump` leave of a store is what a life says of its zone. Of a zone as its store
/// was opened: where the records of a file may be the next version, and are staged, whichever base was chosen
/// before, each crash leaves a store that is opened with that version or without it, and with it once it is
/// durable; where nothing was staged it is opened with the same versions; and so it is where it was migrated,
/// with the base that was chosen.
pub fn acts_law()
    ensures loaded { (z : ZoneState) (file : List Record) (base : ℕ) (o : Opened)
        → z.staged ≡ [] → z.second ≡ None → base ≤ length z.shown
        → MayLoad z file → IsLeftOf (loading z file base) o
        → (w : ZoneState) × MayHaveLoaded file z w × IsReopenedAs w o }
    ensures kept { (z : ZoneState) (file : List Record) (base : ℕ) (o : Opened)
        → z.staged ≡ [] → z.second ≡ None → base ≤ length z.shown
        → MayLoad z file → IsLeftOf (made_durable (loading z file base)) o
        → (w : ZoneState) × HasLoaded file z w × IsReopenedAs w o }
    ensures reopened { (z : ZoneState) (base : ℕ) (o : Opened)
        → z.staged ≡ [] → z.second ≡ None → base ≤ length z.shown
        → IsLeftOf (moved_to base (kept_of z)) o
        → (w : ZoneState) × IsOpenedWith [] z w × IsReopenedAs w o }
    ensures migrated { (z : ZoneState) (before after : Opened)
        → IsReopenedAs z before → IsMigrated z.setting.shape before after
        → (w : ZoneState) × IsOpenedWith [] z w × IsReopenedAs w after }
{}

/// Whoever holds nothing of a zone, or a version that was shown of it at any time in the life of the primary,
/// before whichever stops, loads and migrations, and asks for a transfer, by its own request or by another
/// that asks for the same: by TCP it is fed the messages that the machine gives out, in order, as in a run,
/// and over a load's change as over an update's. By UDP, where memory is not refused and the peer may have
/// the zone, there is one answer to whoever asks for changes. Where that was not cut off, it is not refused
/// but for memory, and it gives the version that is shown, tells that this is held already, or tells to ask
/// again by TCP (RFC 1995 section 2): never another set, and never that more is to come.
///
/// Its premises: each zone was valid when the life began, and each version that was there, with a serial
/// greater than that of the one before, as of zones that were just loaded, or of stores that an earlier run
/// left; what came in the life are octets, and what was loaded are records that a zone can have; and the
/// serial goes less than 2^31 from the version that is held to the one that is shown (RFC 1982 section 3.2).
pub fn life_transfers_law()
    ensures by_tcp { TransfersAreFollowedThroughLife }
    ensures by_udp { DatagramsAreFollowed }
    ensures loaded { (start : Machine) → BeginsLoaded start → BeginsSoundly start }
    ensures resumed { (start : Machine) → BeginsResumed start → BeginsSoundly start }
{}

/// Whatever request opens a transfer on a connection, in a run or a life as above: each message that the
/// machine gives out for it, up to its end, is the one compressed text of a valid message (RFC 1035 section
/// 4.1.4), reads as that, and its answers, one message after the other, are the records of the transfer, each
/// once and in order (RFC 5936 section 2.2).
pub fn messages_law()
    ensures loaded { TransfersAreRead BeginsLoaded }
    ensures resumed { TransfersAreRead BeginsResumed }
    ensures life { TransfersAreReadThroughLife }
{}

/// Whatever happens in the life of a primary, in its runs and while it is stopped: each zone is its first
/// loaded records after a prefix of what was accepted, updates and files, in order. Each version after those
/// at the start is what an update left that came in the life, from an address that might update the zone, and
/// was accepted on the version before it; or it is a file's that was loaded in the life, valid, with a
/// greater serial (RFC 1982 section 3.2) and with room. What was shown at any time, and what was answered
/// NOERROR, stays across later stops, loads and migrations. And no store says that it was opened more often
/// than it was.
///
/// At any time at most 32 replies wait, and none for a zone that is closed, and of a zone at most 32 updates
/// are staged: so `servfail_law` of `dns_primary` speaks of each machine of a life.
///
/// It holds from any machine at rest, whatever its stores held before, as from one that begins.
pub fn lives_law()
    ensures leaves { (start : Machine) (life : List Act)
        → IsMachineAtRest start → Life start life → Legacy start life }
    ensures bounded { (start : Machine) (life : List Act)
        → IsMachineAtRest start → Life start life → IsBounded (end_of_life start life) }
    ensures begins { (start : Machine) → IsStart start → IsMachineAtRest start }
{}
