//! Numbers at the front of octets, the high octet first.
ghost use Rattle.std.specs.Prelude.{◌≡◌, ◌+◌, ◌<◌, ◌≤◌, ◌^◌, ◌++◌, length, take, drop, IfSome, IfNone};
ghost use Rattle.std.specs.Prelude.{MatchOption};
ghost use Rattle.std.specs.Int.{w16, w32, to_be_bytes};
ghost use Rattle.dns_records.specs.Record.{number_of};

/// A number of 16 bits, and the octets after it.
pub(crate) fn split_u16(octets: &[u8]) -> Option<(u16, &[u8])>
    ensures found { IfSome result (λ r. (r.0 < 2 ^ 16) × (octets.now ≡ to_be_bytes w16 r.0 ++ r.1.now)) }
    ensures none { IfNone result (length octets.now < 2) }
{
    let (number, rest) = octets.split_first_chunk::<2>()?;
    Some((u16::from_be_bytes(*number), rest))
}

/// A number of 32 bits, and the octets after it.
pub(crate) fn split_u32(octets: &[u8]) -> Option<(u32, &[u8])>
    ensures found { IfSome result (λ r. (r.0 < 2 ^ 32) × (octets.now ≡ to_be_bytes w32 r.0 ++ r.1.now)) }
    ensures none { IfNone result (length octets.now < 4) }
{
    let (number, rest) = octets.split_first_chunk::<4>()?;
    Some((u32::from_be_bytes(*number), rest))
}

/// The number of 32 bits at an offset.
pub(crate) fn u32_at(octets: &[u8], at: usize) -> u32
    requires { at + 4 ≤ length octets.now }
    ensures { result ≡ number_of (take 4 (drop at octets.now)) }
{
    u32::from_be_bytes([octets[at], octets[at + 1], octets[at + 2], octets[at + 3]])
}

/// Five numbers of 32 bits, which the octets are.
pub(crate) fn five_u32(octets: &[u8]) -> Option<(u32, u32, u32, u32, u32)>
    requires { length octets.now ≡ 20 }
    ensures { MatchOption result ⊥
        (λ r. octets.now
        ≡ to_be_bytes w32 r.0 ++ to_be_bytes w32 r.1 ++ to_be_bytes w32 r.2 ++ to_be_bytes w32 r.3
        ++ to_be_bytes w32 r.4) }
{
    let (first, behind) = split_u32(octets)?;
    let (second, behind) = split_u32(behind)?;
    let (third, behind) = split_u32(behind)?;
    let (fourth, behind) = split_u32(behind)?;
    let (fifth, _) = split_u32(behind)?;
    Some((first, second, third, fourth, fifth))
}
