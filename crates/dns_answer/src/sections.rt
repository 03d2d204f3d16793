//! All sections of the reply to a lookup.
ghost use Rattle.std.specs.Prelude.{◌≡◌, true, ◌<◌, ◌↔◌, List, [], ◌∷◌, ◌++◌, IsTrue, IfOk, OnOk};
ghost use Rattle.std.specs.List.{list_any, flat_map};
ghost use Rattle.dns_records.specs.Types.{type_a, type_aaaa};
ghost use Rattle.dns_zone.specs.Records.{rrset};
ghost use Rattle.dns_lookup.specs.Lookup.{Found as Stated};
ghost use Rattle.dns_lookup.specs.Represented.{RepresentAll};
ghost use Rattle.dns_answer.specs.Found.{IfFound};
ghost use Rattle.dns_answer.specs.Sections.{from_zone, records_of, answer_of, authority_of, addresses_for};
ghost use Rattle.dns_answer.specs.Known.{is_address, none_stands, stood, AreHosts, AreOwners};
ghost use Rattle.dns_answer.specs.Known.{HasNoAddressOf};
ghost use Rattle.dns_answer.specs.Added.{AddsUnseen, AddsUpTo, AreSectionsUpTo, record_count};

use crate::found_sections::{answer_section, answers, last_authority, searched, servers};
use crate::hosts::Hosts;
use crate::names::Names;
use crate::section::Section;
use crate::shown_records::{have_address, have_host, is_among, put_owners};
use dns_lookup::Found;
use dns_memory::Heap;
use dns_names::NameRef;
use dns_records::{Record, types};
use dns_wire::ReplyRecord;
use dns_zone::{Zone, ZoneIndex, of_type};
use std::alloc::AllocError;

/// The three sections of a reply.
#[derive(Drop)]
pub(crate) struct Sections<'a> {
    pub answer: Section<'a>,
    pub authority: Section<'a>,
    pub additional: Section<'a>,
}

/// The sections without the additional one.
fn without_addresses<'a, I: ZoneIndex>(
    alloc: Heap,
    zones: &'a [Zone<I>],
    found: &[Found<'a>],
) -> Result<Sections<'a>, AllocError>
    requires { (fs : List Stated) × RepresentAll zones.now fs found.now }
    ensures answer { IfOk result
        (λ s. IfFound zones.now found.now (λ t fs. s.answer.items ≡ records_of (answer_of t fs))) }
    ensures authority { IfOk result
        (λ s. IfFound zones.now found.now (λ t fs. s.authority.items ≡ records_of (authority_of fs))) }
    ensures additional { IfOk result (λ s. s.additional.items ≡ []) }
{
    let answer = answer_section(alloc, found)?;
    let authority = last_authority(alloc, zones, found)?;
    Ok(Sections {
        answer,
        authority,
        additional: Section::new(alloc),
    })
}

impl<'a> Sections<'a> {
    /// Whether there are more records than so many.
    pub(crate) fn has_more(&self, most: u16) -> bool
        ensures { IsTrue result ↔ (most < record_count self.now) }
    {
        let count = self.answer.len().saturating_add(self.authority.len());
        count.saturating_add(self.additional.len()) > most as usize
    }

    /// Appends a record to the others, unless it is in the reply already: this is checked at the position
    /// before others are looked at.
    fn push_record(&mut self, stored: &'a Record, position: &mut usize) -> Result<(), AllocError>
        ensures { OnOk result (AddsUnseen self.old self.new (stored.now ∷ [])) }
    {
        if is_among(self.answer.as_slice(), stored, position)
            || is_among(self.authority.as_slice(), stored, position)
            || is_among(self.additional.as_slice(), stored, position)
        {
            return Ok(());
        }
        let shown = ReplyRecord::new(stored.owner().lend(), stored.ttl(), stored);
        self.additional.push(shown)?;
        Ok(())
    }

    /// Appends records to the others, except those that are in the reply already, until there are more than
    /// so many.
    fn push_records(&mut self, records: &'a [Record], most: u16) -> Result<(), AllocError>
        ensures { OnOk result (AddsUpTo most self.old self.new records.now) }
    {
        let mut position = 0;
        for stored in records {
            if self.has_more(most) {
                return Ok(());
            }
            self.push_record(stored, &mut position)?;
        }
        Ok(())
    }

    /// Appends records to the others, none of which is in the reply, until there are more than so many.
    fn push_new(&mut self, records: &'a [Record], most: u16) -> Result<(), AllocError>
        requires { none_stands (stood self.old) records.now ≡ true }
        ensures { OnOk result (AddsUpTo most self.old self.new records.now) }
    {
        for stored in records {
            if self.has_more(most) {
                return Ok(());
            }
            let shown = ReplyRecord::new(stored.owner().lend(), stored.ttl(), stored);
            self.additional.push(shown)?;
        }
        Ok(())
    }

    /// Puts in the addresses that are exactly at a host of the zone.
    fn push_addresses_of<I: ZoneIndex>(
        &mut self,
        zone: &'a Zone<I>,
        host: &NameRef<'_>,
        most: u16,
    ) -> Result<(), AllocError>
        ensures { OnOk result
            (AddsUpTo most self.old self.new
            (rrset zone.now.records host.now type_a ++ rrset zone.now.records host.now type_aaaa)) }
    {
        let _ordered = zone.apex();
        let owned = zone.index().records_at(host);
        self.push_records(of_type(owned, types::A), most)?;
        self.push_records(of_type(owned, types::AAAA), most)
    }

    /// The same where the reply has no address of that owner.
    fn push_new_addresses_of<I: ZoneIndex>(
        &mut self,
        zone: &'a Zone<I>,
        host: &NameRef<'_>,
        most: u16,
    ) -> Result<(), AllocError>
        requires { HasNoAddressOf host.now self.old }
        ensures { OnOk result
            (AddsUpTo most self.old self.new
            (rrset zone.now.records host.now type_a ++ rrset zone.now.records host.now type_aaaa)) }
    {
        let _ordered = zone.apex();
        let owned = zone.index().records_at(host);
        self.push_new(of_type(owned, types::A), most)?;
        self.push_new(of_type(owned, types::AAAA), most)
    }

    /// Puts in the addresses that go with a record of the zone: those of the host of an NS, an MX or an SRV
    /// (RFC 1034 section 4.3.2, step 6; RFC 2782). A host that is among the known ones is not looked up
    /// again. Its addresses are looked for in the reply where it is one of the owners.
    fn push_for<'b, I: ZoneIndex>(
        &mut self,
        zone: &'a Zone<I>,
        stored: &'b Record,
        owners: &Names<'a>,
        known: &mut Hosts<'b>,
        most: u16,
    ) -> Result<(), AllocError>
        requires { AreHosts most zone.now owners.now known.old self.old }
        ensures added { OnOk result
            (AddsUpTo most self.old self.new
            (addresses_for (record { zone = zone.now; shown = stored.now }))) }
        ensures hosts { OnOk result (AreHosts most zone.now owners.now known.new self.new) }
    {
        let Some(host) = stored.host() else {
            return Ok(());
        };
        if self.has_more(most) {
            return Ok(());
        }
        if !known.insert(host.reborrow())? {
            return Ok(());
        }
        if owners.has(&host) {
            return self.push_addresses_of(zone, &host, most);
        }
        self.push_new_addresses_of(zone, &host, most)
    }

    /// Whether one of the sections has an address.
    fn have_address(&self) -> bool
        ensures { result ≡ list_any is_address (stood self.now) }
    {
        have_address(self.answer.as_slice())
            || have_address(self.authority.as_slice())
            || have_address(self.additional.as_slice())
    }

    /// Puts in the addresses that go with a record of the zone, until there are more than so many, where it
    /// is the only one: no host is looked up before it.
    fn push_for_one<I: ZoneIndex>(
        &mut self,
        zone: &'a Zone<I>,
        stored: &Record,
        most: u16,
    ) -> Result<(), AllocError>
        ensures { OnOk result
            (AddsUpTo most self.old self.new
            (addresses_for (record { zone = zone.now; shown = stored.now }))) }
    {
        let Some(host) = stored.host() else {
            return Ok(());
        };
        if self.have_address() {
            return self.push_addresses_of(zone, &host, most);
        }
        self.push_new_addresses_of(zone, &host, most)
    }

    /// The owners of the addresses in the sections.
    fn owners(&self, alloc: Heap) -> Result<Names<'a>, AllocError>
        ensures { IfOk result (λ owners. AreOwners owners (stood self.now)) }
    {
        let mut owners = Names::new(alloc);
        put_owners(&mut owners, self.answer.as_slice())?;
        put_owners(&mut owners, self.authority.as_slice())?;
        put_owners(&mut owners, self.additional.as_slice())?;
        Ok(owners)
    }

    /// Puts in the addresses that go with records of the zone, until there are more than so many, where those
    /// that are there already have these owners.
    fn push_for_each<I: ZoneIndex>(
        &mut self,
        alloc: Heap,
        zone: &'a Zone<I>,
        records: &[Record],
        owners: &Names<'a>,
        most: u16,
    ) -> Result<(), AllocError>
        requires { AreOwners owners.now (stood self.old) }
        ensures { OnOk result
            (AddsUpTo most self.old self.new (flat_map addresses_for (from_zone zone.now records.now))) }
    {
        let mut known = Hosts::new(alloc);
        for stored in records {
            if self.has_more(most) {
                return Ok(());
            }
            self.push_for(zone, stored, owners, &mut known, most)?;
        }
        Ok(())
    }

    /// Puts in the addresses that go with records of the zone, some of which have hosts, until there are more
    /// than so many. It is compiled apart, so that records without a host cost their test alone.
    #[inline(never)]
    fn push_addresses_of_hosts<I: ZoneIndex>(
        &mut self,
        alloc: Heap,
        zone: &'a Zone<I>,
        records: &[Record],
        most: u16,
    ) -> Result<(), AllocError>
        ensures { OnOk result
            (AddsUpTo most self.old self.new (flat_map addresses_for (from_zone zone.now records.now))) }
    {
        let owners = self.owners(alloc)?;
        self.push_for_each(alloc, zone, records, &owners, most)
    }

    /// Puts in the addresses that go with records of the zone, until there are more than so many.
    pub(crate) fn push_addresses<I: ZoneIndex>(
        &mut self,
        alloc: Heap,
        zone: &'a Zone<I>,
        records: &[Record],
        most: u16,
    ) -> Result<(), AllocError>
        ensures { OnOk result
            (AddsUpTo most self.old self.new (flat_map addresses_for (from_zone zone.now records.now))) }
    {
        if let [one] = records {
            return self.push_for_one(zone, one, most);
        }
        if !have_host(records) {
            return Ok(());
        }
        self.push_addresses_of_hosts(alloc, zone, records, most)
    }

    /// Puts in the addresses that go with the answer section.
    fn push_for_answers<I: ZoneIndex>(
        &mut self,
        alloc: Heap,
        zones: &'a [Zone<I>],
        found: &[Found<'a>],
        most: u16,
    ) -> Result<(), AllocError>
        requires { (fs : List Stated) × RepresentAll zones.now fs found.now }
        ensures { OnOk result
            (IfFound zones.now found.now
            (λ t fs. AddsUpTo most self.old self.new (flat_map addresses_for (answer_of t fs)))) }
    {
        for one in found {
            self.push_addresses(alloc, searched(zones, one), answers(one), most)?;
        }
        Ok(())
    }

    /// Puts in the addresses that go with the authority section.
    fn push_for_authority<I: ZoneIndex>(
        &mut self,
        alloc: Heap,
        zones: &'a [Zone<I>],
        found: &[Found<'a>],
        most: u16,
    ) -> Result<(), AllocError>
        requires { (fs : List Stated) × RepresentAll zones.now fs found.now }
        ensures { OnOk result
            (IfFound zones.now found.now
            (λ t fs. AddsUpTo most self.old self.new (flat_map addresses_for (authority_of fs)))) }
    {
        match found.last() {
            Some(last) => self.push_addresses(alloc, searched(zones, last), servers(last), most),
            None => Ok(()),
        }
    }

    /// The sections of the reply to what a question found: what each name puts into the answer section, what
    /// the last puts into the authority section, and the addresses that go with both, until there are more
    /// records than so many.
    pub(crate) fn new<I: ZoneIndex>(
        alloc: Heap,
        zones: &'a [Zone<I>],
        found: &[Found<'a>],
        most: u16,
    ) -> Result<Sections<'a>, AllocError>
        requires { (fs : List Stated) × RepresentAll zones.now fs found.now }
        ensures { IfOk result
            (λ s. IfFound zones.now found.now (λ t fs. AreSectionsUpTo most t fs s)) }
    {
        let mut sections = without_addresses(alloc, zones, found)?;
        sections.push_for_answers(alloc, zones, found, most)?;
        sections.push_for_authority(alloc, zones, found, most)?;
        Ok(sections)
    }
}
