//! Types and classes by their names.

/// A host's IPv4 address (RFC 1035 section 3.4.1).
pub const A: u16 = 1;
/// A name server of a zone (RFC 1035 section 3.3.11).
pub const NS: u16 = 2;
/// The canonical name of an alias (RFC 1035 section 3.3.1).
pub const CNAME: u16 = 5;
/// The start of a zone (RFC 1035 section 3.3.13).
pub const SOA: u16 = 6;
/// The name that an address is mapped to (RFC 1035 section 3.3.12).
pub const PTR: u16 = 12;
/// A host that takes mail (RFC 1035 section 3.3.9).
pub const MX: u16 = 15;
/// Strings (RFC 1035 section 3.3.14).
pub const TXT: u16 = 16;
/// A host's IPv6 address (RFC 3596 section 2.1).
pub const AAAA: u16 = 28;
/// Where a service runs (RFC 2782).
pub const SRV: u16 = 33;

/// The extensions of a message; a zone has none (RFC 6891 section 6.1).
pub const OPT: u16 = 41;

/// The changes of a zone since a version; of questions alone (RFC 1995 section 2).
pub const IXFR: u16 = 251;
/// A whole zone; of questions alone (RFC 5936 section 2).
pub const AXFR: u16 = 252;
/// Mailboxes; of questions alone, and not served (RFC 1035 section 3.2.3).
pub const MAILB: u16 = 253;
/// Mail agents; of questions alone, and not served (RFC 1035 section 3.2.3).
pub const MAILA: u16 = 254;
/// All types; of questions, and of updates that remove or require any (RFC 1035 section 3.2.3).
pub const ANY: u16 = 255;

/// The class of the Internet (RFC 1035 section 3.2.4).
pub const CLASS_IN: u16 = 1;
/// No class; of updates alone (RFC 2136 section 2.4).
pub const CLASS_NONE: u16 = 254;
/// Any class (RFC 1035 section 3.2.5; of updates RFC 2136 section 2.4).
pub const CLASS_ANY: u16 = 255;
