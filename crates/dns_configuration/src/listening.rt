//! The addresses that a server listens on: one text, or a list of texts.
ghost use Rattle.std.specs.Prelude.{◌≡◌, ◌≢◌, ℕ, List, [], ◌∷◌, ◌++◌, MatchOption, map};
ghost use Rattle.std.specs.List.{AllZip};
ghost use Rattle.std.specs.declared.net.ip_addr.IpAddr.TheVariants.{V4, V6};
ghost use Rattle.toml.specs.View.{view};
ghost use Rattle.dns_policy.specs.Address.{IsAddress};
ghost use Rattle.dns_configuration.specs.Settings.{AreAddresses, FindsIfAny, HasAddress, HasAddresses};
ghost use Rattle.dns_configuration.specs.Settings.{HasNone, IsHost, IsLastParted, IsPort};
ghost use Rattle.dns_configuration.specs.Settings.{IsSocketAddress, ReadsOrFails};

use crate::configuration::{ConfigurationError, list_at, text_at};
use dns_policy::address;
use std::alloc::Global;
use std::net::{IpAddr, Ipv4Addr, Ipv6Addr, SocketAddr};
use toml::Value;

/// On at most so many addresses a server listens.
pub(crate) const MOST_ADDRESSES: usize = 8;

/// A port: a decimal number from 1 to 65,535, without leading zeros.
fn port(text: &str) -> Option<u16>
    ensures { FindsIfAny (IsPort text.now) result }
{
    let first = *text.as_bytes().first()?;
    if first == b'0' || first == b'+' {
        return None;
    }
    text.parse().ok()
}

/// What is between brackets.
fn between_brackets(text: &[u8]) -> Option<&[u8]>
    ensures { MatchOption result ((inner : List ℕ) → text.now ≢ 91 ∷ inner ++ 93 ∷ [])
        (λ inner. text.now ≡ 91 ∷ inner.now ++ 93 ∷ []) }
{
    match text {
        [b'[', inner @ .., b']'] => Some(inner),
        _ => None,
    }
}

/// An IPv4 address.
fn ipv4(text: &[u8]) -> Option<Ipv4Addr>
    ensures { FindsIfAny (λ a. IsHost text.now (V4 a)) result }
{
    match address(text) {
        Some(IpAddr::V4(ip)) => Some(ip),
        _ => None,
    }
}

/// An IPv6 address.
fn ipv6(text: &[u8]) -> Option<Ipv6Addr>
    ensures { FindsIfAny (λ a. IsAddress text.now (V6 a)) result }
{
    match address(text) {
        Some(IpAddr::V6(ip)) => Some(ip),
        _ => None,
    }
}

/// An IPv6 address between brackets.
fn bracketed_ipv6(text: &[u8]) -> Option<Ipv6Addr>
    ensures { FindsIfAny (λ a. IsHost text.now (V6 a)) result }
{
    match between_brackets(text) {
        Some(inner) => ipv6(inner),
        None => None,
    }
}

/// An IPv4 address, or an IPv6 address between brackets.
fn host(text: &[u8]) -> Option<IpAddr>
    ensures { FindsIfAny (IsHost text.now) result }
{
    match ipv4(text) {
        Some(ip) => Some(IpAddr::V4(ip)),
        None => match bracketed_ipv6(text) {
            Some(ip) => Some(IpAddr::V6(ip)),
            None => None,
        },
    }
}

/// What is before the last colon, and after it.
fn split_at_last_colon(text: &str) -> Option<(&str, &str)>
    ensures { MatchOption result (HasNone 58 text.now)
        (λ parts. IsLastParted 58 text.now (parts.0.now, parts.1.now)) }
{
    text.rsplit_once(':')
}

/// The address and the port of a text such as `192.0.2.53:53` or `[2001:db8::53]:53`: a port of 1 to 65,535
/// without leading zeros. None for every other text.
pub fn socket_address(text: &str) -> Option<SocketAddr>
    ensures { FindsIfAny (IsSocketAddress text.now) result }
{
    let (front, digits) = split_at_last_colon(text)?;
    let ip = host(front.as_bytes())?;
    Some(SocketAddr::new(ip, port(digits)?))
}

/// The addresses that each of these texts is.
fn addresses(alloc: Global, texts: &[Value]) -> Result<Vec<SocketAddr>, ConfigurationError>
    ensures { ReadsOrFails (λ found. AllZip HasAddress (map view texts.now) found.items) result }
{
    let mut addresses = Vec::new(alloc);
    'texts: for value in texts {
        let Some(text) = value.as_str() else {
            return Err(ConfigurationError::BadConfig);
        };
        match socket_address(text) {
            Some(address) => addresses.push(address)?,
            None => return Err(ConfigurationError::BadConfig),
        }
    }
    Ok(addresses)
}

/// The addresses of a list of 1 to 8 texts.
fn listed(alloc: Global, texts: &[Value]) -> Result<Vec<SocketAddr>, ConfigurationError>
    ensures { ReadsOrFails (λ found. AreAddresses (map view texts.now) found.items) result }
{
    if texts.is_empty() || texts.len() > MOST_ADDRESSES {
        return Err(ConfigurationError::BadConfig);
    }
    addresses(alloc, texts)
}

/// The one address that a text is.
fn single(alloc: Global, text: &str) -> Result<Vec<SocketAddr>, ConfigurationError>
    ensures { ReadsOrFails (λ found. AllZip IsSocketAddress (text.now ∷ []) found.items) result }
{
    let Some(address) = socket_address(text) else {
        return Err(ConfigurationError::BadConfig);
    };
    let mut addresses = Vec::new(alloc);
    addresses.push(address)?;
    Ok(addresses)
}

/// The addresses at a key of a table, of which the value is one text or a list of 1 to 8.
pub(crate) fn addresses_at(
    alloc: Global,
    table: &Value,
    key: &str,
) -> Result<Vec<SocketAddr>, ConfigurationError>
    ensures { ReadsOrFails (HasAddresses key.now (view table.now)) result }
{
    if let Some(text) = text_at(table, key) {
        return single(alloc, text);
    }
    match list_at(table, key) {
        Some(texts) => listed(alloc, texts.as_slice()),
        None => Err(ConfigurationError::BadConfig),
    }
}
