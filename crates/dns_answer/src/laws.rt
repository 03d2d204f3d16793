//! What holds of every reply that goes out (RFC 1035 section 4.1).
ghost use Rattle.std.specs.Prelude.{◌≡◌, ◌<◌, ℕ, List};
ghost use Rattle.std.specs.List.{AllByRecursion};
ghost use Rattle.dns_names.specs.Lower.{AreOctets};
ghost use Rattle.dns_records.specs.Record.{IsRecord};
ghost use Rattle.dns_zone.specs.Zone.{Zone as StatedZone};
ghost use Rattle.dns_wire.specs.Message.{header_of};
ghost use Rattle.dns_wire.specs.Text.{Reply as Stated, text};
ghost use Rattle.dns_request.specs.declared.request.Transport.{Transport as StatedTransport};
ghost use Rattle.dns_answer.specs.Answer.{AreTextOf, Handled, Handles, Replies, bare_reply};

use dns_wire::{at_most_one, one_compressed_text, question_law};

/// Octets that are answered from zones get the compressed text of a valid reply, which reads as that reply.
pub fn replies_law()
    ensures { (zones : List StatedZone) (octets out : List ℕ) (transport : StatedTransport)
        → AllByRecursion (λ z. AllByRecursion IsRecord z.records) zones
        → AreOctets octets
        → Handles zones octets transport (Replies out) → (r : Stated) × AreTextOf out r }
{
    at_most_one();
    one_compressed_text();
    question_law();
}

/// So is a header alone: the reply to an update, or to a request that is refused, with any response code.
pub fn header_law()
    ensures { (octets : List ℕ) (rcode : ℕ) → AreOctets octets → rcode < 16
        → AreTextOf (text (bare_reply (header_of octets) rcode)) (bare_reply (header_of octets) rcode) }
{
    one_compressed_text();
    question_law();
}
