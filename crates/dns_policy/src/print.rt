//! Addresses in print.
ghost use Rattle.std.specs.Prelude.{◌≡◌, Some};
ghost use Rattle.dns_policy.specs.Address.{IsAddress};
ghost use Rattle.dns_policy.specs.Printed.{further_groups, printed_groups, printed_address};

use std::fmt;
use std::net::IpAddr;

/// Groups of an IPv6 address, each preceded by a colon.
#[derive(Drop)]
struct FurtherGroups<'a>(&'a [u16]);

impl fmt::Display for FurtherGroups<'_> {
    ghost output = { λ g. Some (further_groups g.0.now) };

    fn fmt<W: fmt::Write>(&self, f: &mut fmt::Formatter<W>) -> fmt::Result {
        for group in self.0 {
            write!(f, ":{:x}", *group)?;
        }
        Ok(())
    }
}

/// The groups of an IPv6 address, none left out.
#[derive(Drop)]
struct Groups<'a>(&'a [u16]);

impl fmt::Display for Groups<'_> {
    ghost output = { λ g. Some (printed_groups g.0.now) };

    fn fmt<W: fmt::Write>(&self, f: &mut fmt::Formatter<W>) -> fmt::Result {
        match self.0 {
            [] => Ok(()),
            [first, rest @ ..] => write!(f, "{:x}{}", *first, FurtherGroups(rest)),
        }
    }
}

/// An address in print: `192.0.2.1`, or `2001:db8:0:0:0:0:0:35`, where no group is left out.
#[derive(Clone, Copy, Debug, PartialEq, Eq)]
pub struct PrintedAddress(pub IpAddr);

impl fmt::Display for PrintedAddress {
    ghost output = { λ p. Some (printed_address p.0) };

    fn fmt<W: fmt::Write>(&self, f: &mut fmt::Formatter<W>) -> fmt::Result {
        match self.0 {
            IpAddr::V4(ip) => write!(f, "{ip}"),
            IpAddr::V6(ip) => write!(f, "{}", Groups(&ip.segments())),
        }
    }
}

/// The address in print, as the data of an A or AAAA record has it. What is printed reads back as the
/// address.
pub fn print_address(address: IpAddr) -> PrintedAddress
    ensures same { result.0 ≡ address }
    ensures reads_back { IsAddress (printed_address address) address }
{
    match address {
        IpAddr::V4(ip) => {
            let _octets = ip.octets();
            PrintedAddress(address)
        }
        IpAddr::V6(ip) => {
            let _segments = ip.segments();
            PrintedAddress(address)
        }
    }
}
