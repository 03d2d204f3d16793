//! The data of each type, read as its parts.
ghost use Rattle.std.specs.Prelude.{◌≡◌, ◌≢◌, ◌<◌, List, ℕ, Some, IfOk, MatchOption};
ghost use Rattle.dns_names.specs.Name.{IsName, Labels};
ghost use Rattle.dns_records.specs.declared.typed.Mx.{Mx as MxParts};
ghost use Rattle.dns_records.specs.declared.typed.Srv.{Srv as SrvParts};
ghost use Rattle.dns_records.specs.declared.typed.Soa.{Soa as SoaParts};
ghost use Rattle.dns_records.specs.Types.{type_a, type_aaaa, type_mx, type_srv, type_soa};
ghost use Rattle.dns_records.specs.Record.{host_of, serial_of, minimum_of, with_serial};
ghost use Rattle.dns_records.specs.TextStrings.{txt_data};
ghost use Rattle.dns_records.specs.Typed.{a_data, aaaa_data, name_data, mx_data, srv_data, soa_data, FitsMx};
ghost use Rattle.dns_records.specs.Typed.{FitsSrv, FitsSoa};

use crate::numbers::{five_u32, split_u16, u32_at};
use crate::typed::{Mx, Soa, Srv};
use crate::{RData, Record, types};
use dns_memory::Heap;
use dns_names::NameRef;
use std::alloc::AllocError;

impl RData {
    /// The IPv4 address of an A (RFC 1035 section 3.4.1).
    pub fn as_a(&self) -> Option<[u8; 4]>
        ensures { MatchOption result (self.now.rtype ≢ type_a) (λ address. self.now ≡ a_data address) }
    {
        if self.rtype() != types::A {
            return None;
        }
        Some(*self.octets().first_chunk::<4>()?)
    }

    /// The IPv6 address of an AAAA (RFC 3596 section 2.2).
    pub fn as_aaaa(&self) -> Option<[u8; 16]>
        ensures { MatchOption result (self.now.rtype ≢ type_aaaa) (λ address. self.now ≡ aaaa_data address) }
    {
        if self.rtype() != types::AAAA {
            return None;
        }
        Some(*self.octets().first_chunk::<16>()?)
    }

    /// The parts of an MX (RFC 1035 section 3.3.9).
    pub fn as_mx(&self) -> Option<Mx<'_>>
        ensures { MatchOption result (self.now.rtype ≢ type_mx) (λ mx. (self.now ≡ mx_data mx) × FitsMx mx) }
    {
        if self.rtype() != types::MX {
            return None;
        }
        let (preference, behind) = split_u16(self.octets())?;
        let exchange = NameRef::over(behind);
        Some(Mx {
            preference,
            exchange,
        })
    }

    /// The parts of an SRV (RFC 2782).
    pub fn as_srv(&self) -> Option<Srv<'_>>
        ensures { MatchOption result (self.now.rtype ≢ type_srv)
            (λ srv. (self.now ≡ srv_data srv) × FitsSrv srv) }
    {
        if self.rtype() != types::SRV {
            return None;
        }
        let (priority, behind) = split_u16(self.octets())?;
        let (weight, behind) = split_u16(behind)?;
        let (port, behind) = split_u16(behind)?;
        let target = NameRef::over(behind);
        Some(Srv {
            priority,
            weight,
            port,
            target,
        })
    }

    /// The parts of a SOA (RFC 1035 section 3.3.13).
    pub fn as_soa(&self) -> Option<Soa<'_>>
        ensures { MatchOption result (self.now.rtype ≢ type_soa)
            (λ soa. (self.now ≡ soa_data soa) × FitsSoa soa) }
    {
        if self.rtype() != types::SOA {
            return None;
        }
        let (mname, behind) = NameRef::first(self.octets())?;
        let (rname, numbers) = NameRef::first(behind)?;
        let (serial, refresh, retry, expire, minimum) = five_u32(numbers)?;
        Some(Soa {
            mname,
            rname,
            serial,
            refresh,
            retry,
            expire,
            minimum,
        })
    }
}

impl Record {
    /// The host whose addresses go with the record: that of an NS, an MX or an SRV.
    pub fn host(&self) -> Option<NameRef<'_>>
        ensures { result ≡ host_of self.now }
    {
        let octets = self.data().octets();
        match self.rtype() {
            types::NS => Some(NameRef::over(octets)),
            types::MX => Some(NameRef::over(&octets[2..])),
            types::SRV => Some(NameRef::over(&octets[6..])),
            _ => None,
        }
    }

    /// The version of the zone whose SOA this is: SERIAL (RFC 1035 section 3.3.13).
    pub fn serial(&self) -> u32
        requires { self.now.rtype ≡ type_soa }
        ensures { result ≡ serial_of self.now }
    {
        let octets = self.data().octets();
        u32_at(octets, octets.len() - 20)
    }

    /// The TTL of negative answers of the zone whose SOA this is: MINIMUM (RFC 2308 section 4).
    pub fn minimum(&self) -> u32
        requires { self.now.rtype ≡ type_soa }
        ensures { result ≡ minimum_of self.now }
    {
        let octets = self.data().octets();
        u32_at(octets, octets.len() - 4)
    }

    /// The SOA with another serial.
    pub fn with_serial(&self, alloc: Heap, serial: u32) -> Result<Record, AllocError>
        requires { self.now.rtype ≡ type_soa }
        ensures { IfOk result (λ r. r ≡ with_serial self.now serial) }
    {
        let rdata = self.data().with_serial(serial)?;
        Record::new(alloc, self.owner().clone()?, self.ttl(), rdata)
    }
}

/// Data is made of one list of parts at most: so the views give back what the data was made of.
pub fn parts_are_one()
    ensures name { (rtype : ℕ) (a b : Labels) → IsName a → IsName b
        → name_data rtype a ≡ name_data rtype b → a ≡ b }
    ensures mx { (a b : MxParts) → FitsMx a → FitsMx b → mx_data a ≡ mx_data b → a ≡ b }
    ensures srv { (a b : SrvParts) → FitsSrv a → FitsSrv b → srv_data a ≡ srv_data b → a ≡ b }
    ensures soa { (a b : SoaParts) → FitsSoa a → FitsSoa b → soa_data a ≡ soa_data b → a ≡ b }
    ensures txt { (a b : List (List ℕ)) → txt_data a ≡ txt_data b → a ≡ b }
{}
