//! What holds of every answer to a transfer.
ghost use Rattle.std.specs.Prelude.{◌≡◌, ◌↔◌, ◌<◌, ℕ, true, false, List, ◌++◌, Option, Some, IfSome};
ghost use Rattle.dns_names.specs.Name.{Labels};
ghost use Rattle.dns_records.specs.Record.{Record};
ghost use Rattle.dns_zone.specs.Records.{is_ordered};
ghost use Rattle.dns_zone.specs.Zone.{Zone, IsZone};
ghost use Rattle.dns_changes.specs.Change.{Change, is_formed};
ghost use Rattle.dns_changes.specs.Laws.{LeadsTo};
ghost use Rattle.dns_wire.specs.Message.{ResourceRecord};
ghost use Rattle.dns_secondary.specs.State.{State, Begun};
ghost use Rattle.dns_secondary.specs.Rest.{Rest, Reaches};
ghost use Rattle.dns_secondary.specs.Taken.{Applies, Taken};
ghost use Rattle.dns_secondary.specs.Receiving.{Receiving};
ghost use Rattle.dns_secondary.specs.Received.{received_count, is_incremental};
ghost use Rattle.dns_secondary.specs.Told.{Feeds, IsMore, StaysIfNoneCame, TellsProgress};
ghost use Rattle.dns_secondary.specs.declared.fault.Progress.TheVariants.{More};

/// What a whole answer means when it is read record by record is what it means by its form alone: the SOA of
/// the version that is held, a whole zone, or changes of that version (RFC 1995 sections 2 and 4, RFC 5936
/// section 2.2).
pub fn taken_law()
    ensures { (apex : Labels) (held : Option Zone) (answer : List ResourceRecord) (set : List Record)
        → (Taken apex held answer set ↔ Rest apex held Begun answer set) }
{}

/// `More` is reported of a message exactly where the records of the answer so far, with its own, begin a
/// longer list of one of the three forms, whether the set that such a list leads to is a zone or not; but of
/// a SOA alone only where that is newer, and comes by TCP (RFC 1995 section 2).
pub fn more_law()
    ensures { (s : Receiving) (before records : List ResourceRecord) (at : State)
        → IfSome s.held IsZone
        → Reaches s.apex s.held Begun before at
        → (IsMore s (before ++ records) ↔ ((new : Receiving) × TellsProgress s at records More new)) }
{}

/// A change that applies to a set is a sequence that leads from it to the same.
pub fn applies_law()
    ensures { (c : Change) (set result : List Record)
        → is_ordered set ≡ true
        → is_formed c ≡ true
        → LeadsTo c set result
        → Applies c set result }
{}

/// An answer that is no changes, and in which more records have come than a zone has, means no zone, whatever
/// follows: to give it up loses none.
pub fn room_law()
    ensures { (apex : Labels) (held : Option Zone) (at : State) (more : List ResourceRecord)
        → (set : List Record)
        → is_incremental (Some at) ≡ false
        → 65536 < received_count (Some at)
        → Rest apex held at more set → ⊥ }
{}

/// A message of an answer that is no changes, after which as many records have come as before, and more is to
/// come, changes nothing: each of its records was there already.
pub fn idle_law()
    ensures { (s new : Receiving) (before : List ResourceRecord) (at : State) (octets : List ℕ)
        → s.state ≡ Some at
        → Reaches s.apex s.held Begun before at
        → Feeds s octets More new
        → StaysIfNoneCame s new }
{}
