//! Where requests come from, in print.

use dns_policy::print_address;
use std::fmt;
use std::net::IpAddr;

/// Where a request came from, as a line names it.
#[derive(Clone, Copy)]
pub(crate) enum Asker {
    /// An address.
    Address(IpAddr),
    /// The peer of the connection with this number, whose address isn't known.
    Connection(usize),
}

impl fmt::Display for Asker {
    fn fmt<W: fmt::Write>(&self, f: &mut fmt::Formatter<W>) -> fmt::Result {
        match self {
            Asker::Address(address) => write!(f, "{}", print_address(*address)),
            Asker::Connection(number) => write!(f, "connection {number}"),
        }
    }
}

/// How many connections there may be.
const MOST_CONNECTIONS: usize = 64;

/// The addresses of connections, by their numbers.
#[derive(Drop)]
pub(crate) struct Addresses {
    by_number: [Option<IpAddr>; MOST_CONNECTIONS],
}

impl Addresses {
    /// Those of no connection.
    pub(crate) fn none() -> Addresses {
        Addresses {
            by_number: [None; MOST_CONNECTIONS],
        }
    }

    /// Keeps the address of the connection with this number.
    pub(crate) fn keep(&mut self, number: usize, address: IpAddr) {
        if number < MOST_CONNECTIONS {
            self.by_number[number] = Some(address);
        }
    }

    /// Who asks on the connection with this number.
    pub(crate) fn on(&self, number: usize) -> Asker {
        match self.by_number.get(number) {
            Some(Some(address)) => Asker::Address(*address),
            Some(None) => Asker::Connection(number),
            None => Asker::Connection(number),
        }
    }
}
