//! Prefixes of addresses.
ghost use Rattle.std.specs.Prelude.{◌≡◌, ◌*◌, ◌≤◌, ◌↔◌, IsSome, IsTrue, None, length, take, MatchOption};
ghost use Rattle.std.specs.Prelude.{MatchResult};
ghost use Rattle.std.specs.List.{position, before_first, after_first};
ghost use Rattle.dns_policy.specs.Prefix.{IsPrefix, ExplainsPrefix, Covers, IsAllowed, bits_of, is_slash};
ghost use Rattle.dns_policy.specs.Family.{width};

use crate::PrefixError;
use crate::text::{address, number_up_to};
use std::marker::Model;
use std::net::IpAddr;

/// The addresses of a family whose leading bits agree with those of one address: `192.0.2.0/24` are those
/// from 192.0.2.0 to 192.0.2.255.
#[derive(Clone, Copy, Debug, PartialEq, Eq)]
pub struct Prefix {
    address: IpAddr,
    length: u8,
}

impl Model for Prefix {
    ghost use Rattle.std.specs.Prelude.{ℕ, ◌≤◌};
    ghost use Rattle.std.specs.declared.net.ip_addr.IpAddr.{IpAddr as StatedIp};
    ghost use Rattle.dns_policy.specs.Family.{width};

    // The address, and the number of leading bits.
    ghost Value = { StatedIp × ℕ };

    ghost view = { λ p. (p.address, p.length) };

    ghost invariant = { λ p. p.length ≤ width p.address };

    ghost inverse = { λ v. record { address = v.0; length = v.1 } };
}

/// How many bits the addresses of the family have.
fn bit_width(address: IpAddr) -> u8
    ensures value { result ≡ width address }
    ensures small { result ≤ 128 }
{
    match address {
        IpAddr::V4(_) => 32,
        IpAddr::V6(_) => 128,
    }
}

/// Whether so many leading bits of the two are the same.
fn agree(first: &[u8], second: &[u8], count: usize) -> bool
    requires same { length first.now ≡ length second.now }
    requires within { count ≤ 8 * length first.now }
    ensures { IsTrue result ↔ (take count (bits_of first.now) ≡ take count (bits_of second.now)) }
{
    let whole = count / 8;
    let rest = count % 8;
    if first[..whole] != second[..whole] {
        return false;
    }
    rest == 0 || first[whole] >> (8 - rest) == second[whole] >> (8 - rest)
}

/// Where the first `/` is.
fn first_slash(text: &[u8]) -> Option<usize>
    ensures { result ≡ position is_slash text.now }
{
    text.iter().position(|octet| *octet == b'/')
}

/// What comes before the first `/`, and after it.
fn split_at_slash(text: &[u8]) -> Option<(&[u8], &[u8])>
    ensures { MatchOption result (position is_slash text.now ≡ None)
        (λ parts. IsSome (position is_slash text.now)
        × (parts.0.now ≡ before_first is_slash text.now)
        × (parts.1.now ≡ after_first is_slash text.now)) }
{
    match first_slash(text) {
        Some(slash) => Some((&text[..slash], &text[slash + 1..])),
        None => None,
    }
}

impl Prefix {
    /// The prefix of a text: an address, `/` and a length of at most 32 or 128 in decimal digits without
    /// leading zeros. A text with no `/`, or with no address before it, is `BadPrefix`; else one with no such
    /// length is `BadLength`.
    pub fn parse(text: &[u8]) -> Result<Prefix, PrefixError>
        ensures { MatchResult result (IsPrefix text.now) (ExplainsPrefix text.now) }
    {
        let Some((front, behind)) = split_at_slash(text) else {
            return Err(PrefixError::BadPrefix);
        };
        let Some(address) = address(front) else {
            return Err(PrefixError::BadPrefix);
        };
        match number_up_to(behind, bit_width(address)) {
            Some(length) => Ok(Prefix { address, length }),
            None => Err(PrefixError::BadLength),
        }
    }

    /// Whether the address is one of the prefix's: of its family, with its leading bits.
    pub fn covers(&self, address: IpAddr) -> bool
        ensures { IsTrue result ↔ Covers self.now address }
    {
        let count = self.length as usize;
        match (self.address, address) {
            (IpAddr::V4(own), IpAddr::V4(other)) => agree(&own.octets(), &other.octets(), count),
            (IpAddr::V6(own), IpAddr::V6(other)) => agree(&own.octets(), &other.octets(), count),
            _ => false,
        }
    }
}

/// Whether some prefix covers the address. An empty list allows nobody.
pub fn allows(prefixes: &[Prefix], address: IpAddr) -> bool
    ensures { IsTrue result ↔ IsAllowed prefixes.now address }
{
    prefixes.iter().any(|prefix| prefix.covers(address))
}
