//! Response codes and kinds of requests (RFC 1035 section 4.1.1, RFC 2136 section 2.2).
ghost use Rattle.std.specs.Prelude.{◌≡◌, ◌≢◌, ◌<◌, IfSome, IfNone};
ghost use Rattle.dns_wire.specs.Codes.{number_of_opcode, number_of_rcode};

/// What becomes of a request: the response codes of RFC 1035 section 4.1.1 and of RFC 2136 section 2.2.
#[derive(Clone, Copy, Debug, PartialEq, Eq)]
pub enum Rcode {
    /// It is answered, or done.
    NoError,
    /// It has no form that is known.
    FormErr,
    /// The server could not do it.
    ServFail,
    /// The name that was asked for does not exist, or a name that was to be in use is not.
    NxDomain,
    /// Its kind is not served.
    NotImp,
    /// It is not done for this peer, in this class, or for this zone.
    Refused,
    /// A name that was not to be in use is.
    YxDomain,
    /// An RRset that was not to exist does.
    YxRrset,
    /// An RRset that was to exist, or to have the listed data, does not.
    NxRrset,
    /// The zone that was named is not held.
    NotAuth,
    /// A name is neither the apex of the zone nor under it.
    NotZone,
}

impl Rcode {
    /// The number of the code.
    pub fn number(self) -> u8
        ensures value { result ≡ number_of_rcode self }
        ensures short { result < 16 }
    {
        match self {
            Rcode::NoError => 0,
            Rcode::FormErr => 1,
            Rcode::ServFail => 2,
            Rcode::NxDomain => 3,
            Rcode::NotImp => 4,
            Rcode::Refused => 5,
            Rcode::YxDomain => 6,
            Rcode::YxRrset => 7,
            Rcode::NxRrset => 8,
            Rcode::NotAuth => 9,
            Rcode::NotZone => 10,
        }
    }
}

/// The kinds of requests that are served, by their OPCODE.
#[derive(Clone, Copy, Debug, PartialEq, Eq)]
pub enum Opcode {
    /// A question (RFC 1035 section 4.1.1).
    Query,
    /// A change of a zone (RFC 2136 section 2.2).
    Update,
}

impl Opcode {
    /// The kind with that number.
    pub fn from_number(number: u8) -> Option<Opcode>
        ensures found { IfSome result (λ opcode. number_of_opcode opcode ≡ number) }
        ensures none { IfNone result ((opcode : Opcode) → number_of_opcode opcode ≢ number) }
    {
        match number {
            0 => Some(Opcode::Query),
            5 => Some(Opcode::Update),
            _ => None,
        }
    }

    /// The number of the kind.
    pub fn number(self) -> u8
        ensures value { result ≡ number_of_opcode self }
        ensures short { result < 16 }
    {
        match self {
            Opcode::Query => 0,
            Opcode::Update => 5,
        }
    }
}
