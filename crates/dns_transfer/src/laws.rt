//! What holds of every transfer.
ghost use Rattle.std.specs.Prelude.{◌≡◌, ◌∷◌, ℕ, List, Option};
ghost use Rattle.dns_records.specs.Record.{Record, IsRecord};
ghost use Rattle.dns_wire.specs.Text.{EchoedQuestion};
ghost use Rattle.dns_transfer.specs.Messages.{Heading, IsNextMessage};
ghost use Rattle.dns_transfer.specs.Progress.{IsShort, HasFewer};

/// While records are left, each message by TCP takes at least one of them, so that a transfer ends: a record
/// that any zone can have fits a message, and the question with it.
pub fn progress_law()
    ensures { (heading : Heading) (question : Option EchoedQuestion) (left rest more : List Record)
        (r : Record) (message : List ℕ) → IsShort question → left ≡ r ∷ more → IsRecord r
        → IsNextMessage heading question left message rest → HasFewer rest left }
{}
