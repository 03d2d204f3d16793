//! The header of a message, its first 12 octets (RFC 1035 section 4.1.1).
ghost use Rattle.std.specs.Prelude.{◌≡◌, ◌≤◌, length};
ghost use Rattle.dns_wire.specs.Message.{header_of};
ghost use Rattle.dns_wire.specs.Reads.{NumberAt};

use crate::fields::number;

/// How many octets a header has.
pub const HEADER_LEN: usize = 12;

/// The number by which a reply is matched with its request.
#[inline(always)]
pub fn id(octets: &[u8]) -> u16
    requires { 12 ≤ length octets.now }
    ensures { result ≡ (header_of octets.now).id }
{
    number(octets, 0)
}

/// Whether the message is a response, the bit QR.
#[inline(always)]
pub fn is_response(octets: &[u8]) -> bool
    requires { 12 ≤ length octets.now }
    ensures { result ≡ (header_of octets.now).qr }
{
    octets[2] / 128 % 2 == 1
}

/// The number of the kind of request, OPCODE.
#[inline(always)]
pub fn opcode(octets: &[u8]) -> u8
    requires { 12 ≤ length octets.now }
    ensures { result ≡ (header_of octets.now).opcode }
{
    octets[2] / 8 % 16
}

/// Whether the message was cut off, the bit TC.
#[inline(always)]
pub fn is_truncated(octets: &[u8]) -> bool
    requires { 12 ≤ length octets.now }
    ensures { result ≡ (header_of octets.now).tc }
{
    octets[2] / 2 % 2 == 1
}

/// Whether recursion is desired, the bit RD.
#[inline(always)]
pub fn is_recursion_desired(octets: &[u8]) -> bool
    requires { 12 ≤ length octets.now }
    ensures { result ≡ (header_of octets.now).rd }
{
    octets[2] % 2 == 1
}

/// The response code, RCODE.
#[inline(always)]
pub fn rcode(octets: &[u8]) -> u8
    requires { 12 ≤ length octets.now }
    ensures { result ≡ (header_of octets.now).rcode }
{
    octets[3] % 16
}

/// How many questions the header counts, QDCOUNT.
#[inline(always)]
pub fn question_count(octets: &[u8]) -> u16
    requires { 12 ≤ length octets.now }
    ensures { NumberAt octets.now 4 2 result }
{
    number(octets, 4)
}

/// How many records the header counts in the answer section, ANCOUNT.
#[inline(always)]
pub fn answer_count(octets: &[u8]) -> u16
    requires { 12 ≤ length octets.now }
    ensures { NumberAt octets.now 6 2 result }
{
    number(octets, 6)
}

/// How many records the header counts in the additional section, ARCOUNT.
#[inline(always)]
pub fn additional_count(octets: &[u8]) -> u16
    requires { 12 ≤ length octets.now }
    ensures { NumberAt octets.now 10 2 result }
{
    number(octets, 10)
}
