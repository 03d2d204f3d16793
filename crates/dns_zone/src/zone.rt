//! A valid zone: its apex and its records (RFC 1034 section 4.2).
ghost use Rattle.std.specs.Prelude.{◌≡◌, ◌⊎◌, Some, None, IfOk, IfErr, OnOk};
ghost use Rattle.dns_zone.specs.Zone.{IsZone, zone_fault};
ghost use Rattle.dns_zone.specs.Made.{IsSetOf};
ghost use Rattle.dns_zone.specs.Node.{IsMatch};
ghost use Rattle.dns_zone.specs.Survey.{fault_found};

use crate::sorting::{refusal_of_doubles, rises, set_of, sort};
use crate::survey::{Survey, survey_of};
use crate::{Match, Records, ZoneError, ZoneIndex};
use dns_memory::Heap;
use dns_names::{Name, NameRef};
use dns_records::Record;
use dns_records::types::{NS, SOA};
use std::marker::Model;

/// A zone: an apex, and a valid set of records (RFC 1034 section 4.2.1).
#[derive(Drop)]
pub struct Zone<I: ZoneIndex> {
    apex: Name,
    index: I,
}

impl<I: ZoneIndex> Model for Zone<I> {
    ghost use Rattle.dns_zone.specs.Zone.{Zone as Stated, IsZone};

    ghost Value = { Stated };

    ghost view = { λ z. record { apex = z.apex; records = I.records z.index } };

    ghost invariant = { λ z. IsZone (record { apex = z.apex; records = I.records z.index }) };
}

impl<I: ZoneIndex> Zone<I> {
    /// The zone of records in any order, or the lowest refusal that applies to the list.
    pub fn from_records(
        alloc: Heap,
        apex: Name,
        records: Vec<Record, Heap>,
    ) -> Result<Zone<I>, ZoneError>
        ensures found { IfOk result
            (λ z. IsZone z × (z.apex ≡ apex) × IsSetOf records.entry.items z.records) }
        ensures only { OnOk result (zone_fault apex records.entry.items ≡ None) }
        ensures refused { IfErr result
            (λ e. (e ≡ ZoneError.OutOfMemory) ⊎ (zone_fault apex records.entry.items ≡ Some e)) }
    {
        let mut records = records;
        sort(alloc, &apex.lend(), &mut records)?;
        if !rises(&records) {
            return Err(refusal_of_doubles(&apex.lend(), &records));
        }
        let index = set_of(alloc, records)?;
        match Zone::from_index(apex, index) {
            Ok(zone) => Ok(zone),
            Err((_, error)) => Err(error),
        }
    }

    /// The zone of a set, which is handed back where it is none, with the lowest refusal that applies.
    pub fn from_index(apex: Name, index: I) -> Result<Zone<I>, (I, ZoneError)>
        ensures found { IfOk result (λ z. (z.records ≡ I.records index) × (z.apex ≡ apex) × IsZone z) }
        ensures refused { IfErr result
            (λ e. (zone_fault apex (I.records index) ≡ Some e.1) × (I.records e.0 ≡ I.records index)) }
    {
        match fault(&apex, &index) {
            Some(error) => Err((index, error)),
            None => Ok(Zone { apex, index }),
        }
    }

    /// The zone of a set that is known to be one, as the next version of a zone is: nothing is searched.
    pub fn of_valid(apex: Name, index: I) -> Zone<I>
        requires { zone_fault apex (I.records index) ≡ None }
        ensures { result ≡ record { apex = apex; records = I.records index } }
    {
        Zone { apex, index }
    }

    /// The name that all owners are at or under.
    pub fn apex(&self) -> &Name
        ensures name { result.now ≡ self.now.apex }
        ensures valid { IsZone self.now }
    {
        &self.apex
    }

    /// The records.
    pub fn index(&self) -> &I
        ensures { I.records result.now ≡ self.now.records }
    {
        &self.index
    }

    /// The records one by one, in order of owner, type and data.
    pub fn records(&self) -> Records<'_, I>
        ensures { result ≡ self.now.records }
    {
        Records::of(&self.index)
    }

    /// All that a lookup asks of a name: the cut above it, the name itself, or the wildcard for it (RFC 1034
    /// section 4.3.2, step 3; RFC 4592 section 3.3).
    #[inline(always)]
    pub fn find_node<'n>(&self, name: &NameRef<'n>) -> Match<'n, '_>
        ensures { IsMatch self.now name.now result }
    {
        self.index.find_node(&self.apex.lend(), name)
    }

    /// The records alone.
    pub fn into_index(self) -> I
        ensures { I.records result ≡ self.records }
    {
        let Zone { apex: _, index } = self;
        index
    }
}

/// Why the set is no zone of that apex.
fn fault<I: ZoneIndex>(apex: &Name, index: &I) -> Option<ZoneError>
    ensures { result ≡ zone_fault apex.now (I.records index.now) }
{
    let apex = apex.lend();
    let soa = index.rrset(&apex, SOA).is_empty();
    let ns = index.rrset(&apex, NS).is_empty();
    first_fault(survey_of(index, &apex), soa, ns)
}

/// The lowest refusal that applies, where it is known whether the apex lacks a SOA, and an NS.
fn first_fault(survey: Survey, no_soa: bool, no_ns: bool) -> Option<ZoneError>
    ensures { result ≡ fault_found survey no_soa no_ns }
{
    if no_soa {
        Some(ZoneError::NoSoa)
    } else if survey.soas > 1 {
        Some(ZoneError::ManySoa)
    } else if no_ns {
        Some(ZoneError::NoNs)
    } else if !survey.inside {
        Some(ZoneError::OutOfZone)
    } else if survey.shared_alias {
        Some(ZoneError::CnameAndOther)
    } else if survey.wildcard_ns {
        Some(ZoneError::WildcardNs)
    } else if survey.count > 65536 {
        Some(ZoneError::TooMany)
    } else {
        None
    }
}
