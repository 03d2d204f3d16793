//! The data of some types by its fields.
use dns_names::NameRef;

/// The start of a zone of authority (RFC 1035 section 3.3.13). Times are seconds.
#[derive(Drop)]
pub struct Soa<'a> {
    /// The primary name server.
    pub mname: NameRef<'a>,
    /// The mailbox of the person responsible, as a name.
    pub rname: NameRef<'a>,
    /// The version of the zone.
    pub serial: u32,
    /// When a secondary asks again.
    pub refresh: u32,
    /// When it asks again after a failure.
    pub retry: u32,
    /// When it gives the zone up without an answer.
    pub expire: u32,
    /// The TTL of negative answers (RFC 2308 section 4).
    pub minimum: u32,
}

/// A mail exchange (RFC 1035 section 3.3.9).
#[derive(Drop)]
pub struct Mx<'a> {
    /// The lower, the better.
    pub preference: u16,
    pub exchange: NameRef<'a>,
}

/// The location of a service (RFC 2782).
#[derive(Drop)]
pub struct Srv<'a> {
    /// The lower, the better.
    pub priority: u16,
    /// The share among those of one priority.
    pub weight: u16,
    pub port: u16,
    /// The host, or the root where there is no such service.
    pub target: NameRef<'a>,
}
