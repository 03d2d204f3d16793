//! Addresses and lengths in text.
ghost use Rattle.std.specs.Prelude.{◌≡◌, ◌≢◌, ℕ, ◌<◌, ◌≤◌, Some, IfSome, MatchOption, decimal};
ghost use Rattle.std.specs.Prelude.{option_and_then};
ghost use Rattle.std.specs.declared.net.ip_addr.IpAddr.{IpAddr as StatedIp};
ghost use Rattle.dns_policy.specs.Address.{IsAddress, ipv4_in, ipv4_of_text, ipv6_in, ipv6_of_text};

use std::net::{IpAddr, Ipv4Addr, Ipv6Addr};

/// The address of a text, as the data of an A or AAAA record has it (RFC 1035 section 3.4.1, RFC 3596
/// section 2.4): an IPv6 address has no dotted numbers at its end.
pub fn address(text: &[u8]) -> Option<IpAddr>
    ensures found { IfSome result (IsAddress text.now) }
    ensures only { (a : StatedIp) → IsAddress text.now a → result ≡ Some a }
    // The same, as it is computed.
    ensures ipv4 { option_and_then ipv4_in result ≡ ipv4_of_text text.now }
    ensures ipv6 { option_and_then ipv6_in result ≡ ipv6_of_text text.now }
{
    if let Ok(found) = Ipv4Addr::parse_ascii(text) {
        return Some(IpAddr::V4(found));
    }
    if text.contains(&b'.') {
        return None;
    }
    match Ipv6Addr::parse_ascii(text) {
        Ok(found) => Some(IpAddr::V6(found)),
        Err(_) => None,
    }
}

/// The number below 200 that the text is, in decimal digits without leading zeros.
fn small_number(text: &[u8]) -> Option<u8>
    ensures { MatchOption result ((n : ℕ) → n < 200 → text.now ≢ decimal n) (λ n. text.now ≡ decimal n) }
{
    match text {
        [ones @ b'0'..=b'9'] => Some(*ones - b'0'),
        [tens @ b'1'..=b'9', ones @ b'0'..=b'9'] => Some(10 * (*tens - b'0') + (*ones - b'0')),
        [b'1', tens @ b'0'..=b'9', ones @ b'0'..=b'9'] => {
            Some(100 + 10 * (*tens - b'0') + (*ones - b'0'))
        }
        _ => None,
    }
}

/// The number of at most so much that the text is, in decimal digits without leading zeros.
pub(crate) fn number_up_to(text: &[u8], most: u8) -> Option<u8>
    requires { most < 200 }
    ensures { MatchOption result ((n : ℕ) → n ≤ most → text.now ≢ decimal n)
        (λ n. (text.now ≡ decimal n) × (n ≤ most)) }
{
    match small_number(text) {
        Some(number) if number <= most => Some(number),
        _ => None,
    }
}
