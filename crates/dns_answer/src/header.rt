//! Replies that are a header alone.
ghost use Rattle.std.specs.Prelude.{◌≡◌};
ghost use Rattle.dns_wire.specs.Message.{header_of};
ghost use Rattle.dns_wire.specs.Codes.{number_of_rcode};
ghost use Rattle.dns_wire.specs.Text.{text};
ghost use Rattle.dns_answer.specs.Answer.{bare_reply};

use dns_wire::{Rcode, header};

/// The reply with no question and no record: the ID and the OPCODE of the request, RD where it is a query,
/// and the RCODE (RFC 1035 section 4.1.1).
pub fn header_only(request: &[u8; 12], rcode: Rcode) -> [u8; 12]
    ensures { result ≡ text (bare_reply (header_of request.now) (number_of_rcode rcode)) }
{
    let opcode = header::opcode(request);
    let desired = (opcode == 0) & header::is_recursion_desired(request);
    [
        request[0],
        request[1],
        128 + 8 * opcode + u8::from(desired),
        rcode.number(),
        0,
        0,
        0,
        0,
        0,
        0,
        0,
        0,
    ]
}
