//! The data of a record, as octets that have the form of its type.
ghost use Rattle.std.specs.Prelude.{◌≡◌, ◌↔◌, IsTrue, IfOk, IfSome, refl};
ghost use Rattle.std.specs.Ordering.{as_partial_cmp};
ghost use Rattle.dns_records.specs.Compare.{same_data, same_data-per, same_data-equiv, data_cmp, data_cmp-po};
ghost use Rattle.dns_records.specs.Compare.{data_cmp-total, data_cmp-ties};
ghost use Rattle.dns_names.specs.Name.{wire};
ghost use Rattle.dns_records.specs.Record.{Data, IsData};
ghost use Rattle.dns_records.specs.Types.{type_ns, type_cname, type_ptr};
ghost use Rattle.dns_records.specs.Typed.{a_data, aaaa_data, name_data, mx_data, srv_data, soa_data, name_of};
ghost use Rattle.dns_records.specs.Typed.{is_name_type};

use crate::typed::{Mx, Soa, Srv};
use crate::types;
use dns_memory::Heap;
use dns_names::{Name, NameRef};
use smallvec::SmallVec;
use std::alloc::AllocError;
use std::cmp::Ordering;
use std::marker::Model;

/// The type and the data of a record, in plain form: names in full and in lower case, and octets as they are
/// where the type has no form (RFC 3597).
#[derive(Debug)]
pub struct RData {
    rtype: u16,
    octets: SmallVec<u8, 24, Heap>,
}

// Written out, so that a proof lets one go by one call (docs/GATE.md).
impl Drop for RData {
    fn drop(self) {
        let RData { rtype: _, octets } = self;
        drop(octets);
    }
}

impl Model for RData {
    ghost use Rattle.dns_records.specs.Record.{Data, IsData};

    ghost Value = { Data };

    ghost view = { λ d. record { rtype = d.rtype; octets = d.octets.items } };

    ghost invariant = { λ d. IsData (record { rtype = d.rtype; octets = d.octets.items }) };
}

/// Whether the data of the type is one name.
fn is_name_type(rtype: u16) -> bool
    ensures { result ≡ is_name_type rtype }
{
    matches!(rtype, types::NS | types::CNAME | types::PTR)
}

impl RData {
    /// The type (RFC 1035 section 3.2.2).
    pub fn rtype(&self) -> u16
        ensures { result ≡ self.now.rtype }
    {
        self.rtype
    }

    /// The plain form.
    pub fn octets(&self) -> &[u8]
        ensures octets { result.now ≡ self.now.octets }
        ensures valid { IsData self.now }
    {
        self.octets.as_slice()
    }

    /// The one name that the data of an NS, a CNAME or a PTR is.
    pub fn as_name(&self) -> Option<NameRef<'_>>
        ensures value { result ≡ name_of self.now }
        ensures octets { IfSome result (λ name. self.now.octets ≡ wire name) }
    {
        if is_name_type(self.rtype) {
            Some(NameRef::over(self.octets.as_slice()))
        } else {
            None
        }
    }
}

/// Data made of its parts.
impl RData {
    /// A host's IPv4 address (RFC 1035 section 3.4.1).
    pub fn a(alloc: Heap, address: [u8; 4]) -> RData
        ensures { result ≡ a_data address }
    {
        RData::of_address(alloc, types::A, &address)
    }

    /// A host's IPv6 address (RFC 3596 section 2.2).
    pub fn aaaa(alloc: Heap, address: [u8; 16]) -> RData
        ensures { result ≡ aaaa_data address }
    {
        RData::of_address(alloc, types::AAAA, &address)
    }

    /// A name server (RFC 1035 section 3.3.11).
    pub fn ns(alloc: Heap, host: &Name) -> Result<RData, AllocError>
        ensures { IfOk result (λ d. d ≡ name_data type_ns host.now) }
    {
        RData::of_name(alloc, types::NS, host)
    }

    /// The canonical name of an alias (RFC 1035 section 3.3.1).
    pub fn cname(alloc: Heap, name: &Name) -> Result<RData, AllocError>
        ensures { IfOk result (λ d. d ≡ name_data type_cname name.now) }
    {
        RData::of_name(alloc, types::CNAME, name)
    }

    /// A name that an address is mapped to (RFC 1035 section 3.3.12).
    pub fn ptr(alloc: Heap, name: &Name) -> Result<RData, AllocError>
        ensures { IfOk result (λ d. d ≡ name_data type_ptr name.now) }
    {
        RData::of_name(alloc, types::PTR, name)
    }

    /// A mail exchange (RFC 1035 section 3.3.9).
    pub fn mx(alloc: Heap, mx: &Mx<'_>) -> Result<RData, AllocError>
        ensures { IfOk result (λ d. d ≡ mx_data mx.now) }
    {
        let mut octets = SmallVec::new(alloc);
        octets.extend_from_slice(&mx.preference.to_be_bytes())?;
        octets.extend_from_slice(mx.exchange.as_wire())?;
        Ok(RData {
            rtype: types::MX,
            octets,
        })
    }

    /// The location of a service (RFC 2782).
    pub fn srv(alloc: Heap, srv: &Srv<'_>) -> Result<RData, AllocError>
        ensures { IfOk result (λ d. d ≡ srv_data srv.now) }
    {
        let mut octets = SmallVec::new(alloc);
        octets.extend_from_slice(&srv.priority.to_be_bytes())?;
        octets.extend_from_slice(&srv.weight.to_be_bytes())?;
        octets.extend_from_slice(&srv.port.to_be_bytes())?;
        octets.extend_from_slice(srv.target.as_wire())?;
        Ok(RData {
            rtype: types::SRV,
            octets,
        })
    }

    /// The start of a zone of authority (RFC 1035 section 3.3.13).
    pub fn soa(alloc: Heap, soa: &Soa<'_>) -> Result<RData, AllocError>
        ensures { IfOk result (λ d. d ≡ soa_data soa.now) }
    {
        let mut octets = SmallVec::new(alloc);
        octets.extend_from_slice(soa.mname.as_wire())?;
        octets.extend_from_slice(soa.rname.as_wire())?;
        octets.extend_from_slice(&soa.serial.to_be_bytes())?;
        octets.extend_from_slice(&soa.refresh.to_be_bytes())?;
        octets.extend_from_slice(&soa.retry.to_be_bytes())?;
        octets.extend_from_slice(&soa.expire.to_be_bytes())?;
        octets.extend_from_slice(&soa.minimum.to_be_bytes())?;
        Ok(RData {
            rtype: types::SOA,
            octets,
        })
    }
}

impl RData {
    ghost use Rattle.std.specs.Prelude.{true, length, ◌≤◌, [], ◌∷◌, Some};
    ghost use Rattle.dns_records.specs.Types.{form, size_of, type_soa, Value, Values};
    ghost use Rattle.dns_records.specs.Typed.{soa_with};

    /// A SOA with another serial.
    pub(crate) fn with_serial(&self, serial: u32) -> Result<RData, AllocError>
        requires { self.now.rtype ≡ type_soa }
        ensures { IfOk result (λ d. d ≡ soa_with self.now serial) }
    {
        let old = self.octets.as_slice();
        let at = old.len() - 20;
        let mut octets = SmallVec::from_slice(*self.octets.allocator(), &old[..at])?;
        octets.extend_from_slice(&serial.to_be_bytes())?;
        octets.extend_from_slice(&old[at + 4..])?;
        Ok(RData {
            rtype: self.rtype,
            octets,
        })
    }

    /// Data that is an address, which takes no memory.
    fn of_address(alloc: Heap, rtype: u16, octets: &[u8]) -> RData
        requires form { (v : Value) × (form rtype ≡ Some (Values (v ∷ []) ∷ []))
            × (length octets.now ≡ size_of v) }
        requires short { length octets.now ≤ 24 }
        ensures { result ≡ record { rtype = rtype; octets = octets.now } }
    {
        RData {
            rtype,
            octets: SmallVec::from_slice(alloc, octets).unwrap(),
        }
    }

    /// Data that is known to have the form of its type.
    pub(crate) fn known(alloc: Heap, rtype: u16, octets: &[u8]) -> Result<RData, AllocError>
        requires { IsData (record { rtype = rtype; octets = octets.now }) }
        ensures { IfOk result (λ d. d ≡ record { rtype = rtype; octets = octets.now }) }
    {
        Ok(RData {
            rtype,
            octets: SmallVec::from_slice(alloc, octets)?,
        })
    }

    /// Data of a type that is one name.
    fn of_name(alloc: Heap, rtype: u16, name: &Name) -> Result<RData, AllocError>
        requires { is_name_type rtype ≡ true }
        ensures { IfOk result (λ d. d ≡ name_data rtype name.now) }
    {
        Ok(RData {
            rtype,
            octets: SmallVec::from_slice(alloc, name.as_wire())?,
        })
    }
}

impl Clone for RData {
    ghost is_clone = { λ d copy. copy ≡ d };

    fn clone(&self) -> Result<Self, AllocError> {
        Ok(RData {
            rtype: self.rtype,
            octets: SmallVec::from_slice(*self.octets.allocator(), self.octets.as_slice())?,
        })
    }
}

impl PartialEq for RData {
    ghost eq = { same_data };

    ghost laws = { same_data-per };

    fn eq(&self, other: &Self) -> bool
        ensures value { result ≡ same_data self.now other.now }
        ensures same { IsTrue result ↔ (self.now ≡ other.now) }
    {
        self.rtype == other.rtype && self.octets.as_slice() == other.octets.as_slice()
    }
}

impl Eq for RData {
    ghost laws = { same_data-equiv };
}

impl PartialOrd for RData {
    ghost partial_cmp = { as_partial_cmp data_cmp };

    ghost laws = { data_cmp-po };

    fn partial_cmp(&self, other: &Self) -> Option<Ordering> {
        Some(self.cmp(other))
    }
}

impl Ord for RData {
    ghost cmp = { data_cmp };

    ghost total = { data_cmp-total };

    ghost matches_partial_cmp = { λ a b. refl };

    ghost matches_eq = { data_cmp-ties };

    /// By type, and then by octets.
    fn cmp(&self, other: &Self) -> Ordering
        ensures { result ≡ data_cmp self.now other.now }
    {
        let types = self.rtype.cmp(&other.rtype);
        types.then(self.octets.as_slice().cmp(other.octets.as_slice()))
    }
}
