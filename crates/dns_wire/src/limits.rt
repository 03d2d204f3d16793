//! How long messages may be.

/// A datagram has at most so many octets (RFC 1035 section 4.2.1).
pub const MOST_BY_UDP: usize = 512;

/// A message on a stream has at most so many octets (RFC 1035 section 4.2.2).
pub const MOST_BY_TCP: usize = 65535;
