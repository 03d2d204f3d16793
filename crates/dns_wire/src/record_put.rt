//! A record written after a message's octets, its names compressed.
ghost use Rattle.std.specs.Prelude.{◌≡◌, false, ℕ, ◌+◌, ◌-◌, ◌<◌, ◌≤◌, List, [], ◌∷◌, ◌++◌, length};
ghost use Rattle.std.specs.Prelude.{take, drop, IfErr};
ghost use Rattle.std.specs.Prelude.{IfSome, OnOk};
ghost use Rattle.std.specs.Int.{w16, to_be_bytes as be_octets};
ghost use Rattle.dns_names.specs.Name.{labels_of, wire};
ghost use Rattle.dns_names.specs.Plain.{IsPlain};
ghost use Rattle.dns_records.specs.Record.{AreFields, Record};
ghost use Rattle.dns_records.specs.Types.{Value, Values, Name};
ghost use Rattle.dns_records.specs.Typed.{is_name_type};
ghost use Rattle.std.specs.List.{list_any};
ghost use Rattle.dns_records.specs.Fields.{stated_field, stated_fields};
ghost use Rattle.dns_wire.specs.Compress.{Place, compressed_fields, compressed_rdata, compressed_record};
ghost use Rattle.dns_wire.specs.Puts.{Wrote, RefusesUpTo, BeginsWithName, fixed_octets, compressed_all};
ghost use Rattle.dns_wire.specs.Puts.{IsBehindLabels, address_octets, is_name, plain_octets};

use crate::compressor::Compressor;
use crate::name::POINTER_BITS;
use crate::{ReplyRecord, WriteError};
use byteorder::{BigEndian, ByteOrder};
use dns_records::types::{A, CLASS_IN, CNAME, NS, PTR, SOA};
use dns_records::{Field, count_within, form};

/// The name at the front of plain octets, and the octets after it.
pub(crate) fn split_name(octets: &[u8]) -> (&[u8], &[u8])
    requires { BeginsWithName octets.now }
    ensures plain { IsPlain result.0.now }
    ensures labels { labels_of result.0.now ≡ labels_of octets.now }
    ensures behind { result.1.now ≡ drop (length (wire (labels_of octets.now))) octets.now }
{
    let mut root = 0;
    'labels: while octets[root] != 0 {
        root += 1 + octets[root] as usize;
    }
    octets.split_at(root + 1)
}

/// The octets of a record between its owner and its data, with 0 for the length of the data (RFC 1035
/// section 4.1.3).
fn fixed(rtype: u16, ttl: u32) -> [u8; 10]
    ensures { result ≡ fixed_octets rtype ttl }
{
    let mut octets = [0; 10];
    BigEndian::write_u16(&mut octets, rtype);
    BigEndian::write_u16(&mut octets[2..], CLASS_IN);
    BigEndian::write_u32(&mut octets[4..], ttl);
    octets
}

/// The octets of the record of an address, whose owner is a pointer to an offset (RFC 1035 sections 3.4.1 and
/// 4.1.3).
fn address_octets(offset: usize, ttl: u32, address: &[u8]) -> [u8; 16]
    requires low { offset < 16384 }
    requires size { length address.now ≡ 4 }
    ensures { result ≡ address_octets offset ttl address.now }
{
    let mut octets = [0; 16];
    BigEndian::write_u16(&mut octets, POINTER_BITS + offset as u16);
    BigEndian::write_u16(&mut octets[2..], A);
    BigEndian::write_u16(&mut octets[4..], CLASS_IN);
    BigEndian::write_u32(&mut octets[6..], ttl);
    BigEndian::write_u16(&mut octets[10..], 4);
    octets[12..].copy_from_slice(address);
    octets
}

/// The octets of a record that is an address after the labels of its owner, the rest of which occurs earlier.
/// Most records are such, and are written in one piece.
#[inline(always)]
fn address(found: Option<usize>, one: &ReplyRecord<'_>) -> Option<[u8; 16]>
    requires { IfSome found (λ offset. offset < 16384) }
    ensures { IfSome result (λ octets. IsBehindLabels found one.now octets) }
{
    let offset = found?;
    let rdata = one.rdata();
    if one.rtype() != A || rdata.len() != 4 {
        return None;
    }
    Some(address_octets(offset, one.ttl(), rdata))
}

/// Whether one of the parts is a name that a message may compress (RFC 1035 section 4.1.4).
fn have_name(fields: &[Field]) -> bool
    ensures { result ≡ list_any (λ f. is_name (stated_field f)) fields.now }
{
    fields.iter().any(|field| matches!(field, Field::Name))
}

/// Whether the data of a type may hold a name that a message compresses.
#[inline(always)]
pub(crate) fn may_hold_name(rtype: u16) -> bool
    ensures { result ≡ false → (r : Record) (places : List Place) (at : ℕ) → r.rtype ≡ rtype
        → compressed_rdata places at r ≡ plain_octets places r.rdata }
{
    match form(rtype) {
        Some(fields) => have_name(fields),
        None => false,
    }
}

/// Whether the data of the type is one name, which a message may compress.
fn is_one_name(rtype: u16) -> bool
    ensures { result ≡ is_name_type rtype }
{
    (rtype == NS) | (rtype == CNAME) | (rtype == PTR)
}

impl<'a> Compressor<'a> {
    /// Writes the parts of the data of a record. Uncompressed names are written in full, and no pointer names
    /// them (RFC 2782).
    fn put_fields(&mut self, fields: &[Field], rdata: &'a [u8]) -> Result<(), WriteError>
        requires form { AreFields (stated_fields fields.now) rdata.now }
        requires room { length self.old.octets.items ≤ self.old.limit }
        ensures written { OnOk result
            (Wrote self.old.limit self.old.octets.items self.new.octets.items self.new.limit self.new.places
            (compressed_fields self.old.places (length self.old.octets.items)
            (stated_fields fields.now) rdata.now)) }
        ensures refused { IfErr result
            (RefusesUpTo self.old.limit
            (length self.old.octets.items
            + length (compressed_fields self.old.places (length self.old.octets.items)
            (stated_fields fields.now) rdata.now).octets)) }
    {
        let mut rest = rdata;
        for field in fields.iter() {
            match *field {
                Field::Values(values) => {
                    let Some(count) = count_within(values, rest.len()) else {
                        unreachable!()
                    };
                    let (front, behind) = rest.split_at(count);
                    self.put(front)?;
                    rest = behind;
                }
                Field::Name => {
                    let (name, behind) = split_name(rest);
                    self.put_name(name)?;
                    rest = behind;
                }
                Field::UncompressedName => return self.put(rest),
                Field::Strings => return self.put(rest),
            }
        }
        self.put_some(rest)
    }

    /// Writes the length of the data that begins at an offset into the two octets before it.
    fn put_size(&mut self, start: usize)
        requires up { 2 ≤ start }
        requires inside { start ≤ length self.old.octets.items }
        requires small { length self.old.octets.items - start < 65536 }
        ensures octets { self.new.octets.items
            ≡ take (start - 2) self.old.octets.items ++ be_octets w16 (length self.old.octets.items - start)
            ++ drop start self.old.octets.items }
        ensures places { self.new.places ≡ self.old.places }
        ensures limit { self.new.limit ≡ self.old.limit }
    {
        let size = (self.octets.len() - start) as u16;
        self.octets.set_two(start, size);
    }

    /// Writes the data of a record, by the form of its type: in one piece, where there is no name to
    /// compress.
    fn put_by_form(&mut self, one: &ReplyRecord<'a>) -> Result<(), WriteError>
        requires room { length self.old.octets.items ≤ self.old.limit }
        ensures written { OnOk result
            (Wrote self.old.limit self.old.octets.items self.new.octets.items self.new.limit self.new.places
            (compressed_rdata self.old.places (length self.old.octets.items) one.now)) }
        ensures refused { IfErr result
            (RefusesUpTo self.old.limit
            (length self.old.octets.items
            + length (compressed_rdata self.old.places (length self.old.octets.items) one.now).octets)) }
    {
        let rdata = one.rdata();
        match form(one.rtype()) {
            Some(fields) if have_name(fields) => self.put_fields(fields, rdata),
            _ => self.put(rdata),
        }
    }

    /// Writes data that is two names and numbers after them, as that of a SOA (RFC 1035 section 3.3.13).
    fn put_two_names(&mut self, rdata: &'a [u8]) -> Result<(), WriteError>
        requires form { (vs : List Value) × AreFields (Name ∷ Name ∷ Values vs ∷ []) rdata.now }
        requires room { length self.old.octets.items ≤ self.old.limit }
        ensures written { (vs : List Value) → OnOk result
            (Wrote self.old.limit self.old.octets.items self.new.octets.items self.new.limit self.new.places
            (compressed_fields self.old.places (length self.old.octets.items)
            (Name ∷ Name ∷ Values vs ∷ []) rdata.now)) }
        ensures refused { (vs : List Value) → IfErr result
            (RefusesUpTo self.old.limit
            (length self.old.octets.items
            + length (compressed_fields self.old.places (length self.old.octets.items)
            (Name ∷ Name ∷ Values vs ∷ []) rdata.now).octets)) }
    {
        let (first, rest) = split_name(rdata);
        self.put_name(first)?;
        let (second, numbers) = split_name(rest);
        self.put_name(second)?;
        self.put(numbers)
    }

    /// Writes the data of a record. That of a type whose data is a name alone, and that of a SOA, is most of
    /// what is written beside addresses, and is not taken apart by its form.
    fn put_rdata(&mut self, one: &ReplyRecord<'a>) -> Result<(), WriteError>
        requires room { length self.old.octets.items ≤ self.old.limit }
        ensures written { OnOk result
            (Wrote self.old.limit self.old.octets.items self.new.octets.items self.new.limit self.new.places
            (compressed_rdata self.old.places (length self.old.octets.items) one.now)) }
        ensures refused { IfErr result
            (RefusesUpTo self.old.limit
            (length self.old.octets.items
            + length (compressed_rdata self.old.places (length self.old.octets.items) one.now).octets)) }
    {
        let rdata = one.rdata();
        if is_one_name(one.rtype()) {
            return self.put_name(rdata);
        }
        if one.rtype() == SOA {
            return self.put_two_names(rdata);
        }
        self.put_by_form(one)
    }

    /// All octets of a record that is an address whose owner is found without a search of the targets that
    /// take memory. Most records of replies are such.
    fn known_address(&self, one: &ReplyRecord<'_>) -> Option<[u8; 16]>
        ensures { IfSome result
            (λ octets. (at : ℕ) → compressed_record self.now.places at one.now
            ≡ plain_octets self.now.places octets) }
    {
        let rdata = one.rdata();
        if one.rtype() != A || rdata.len() != 4 {
            return None;
        }
        let owner = one.owner();
        let offset = self.places.find(owner.as_wire())?;
        Some(address_octets(offset, one.ttl(), rdata))
    }

    /// Writes a record, the labels of its owner first.
    #[inline(always)]
    pub(crate) fn put_by_labels(&mut self, one: &ReplyRecord<'a>) -> Result<(), WriteError>
        requires room { length self.old.octets.items ≤ self.old.limit }
        requires small { self.old.limit < 65536 }
        ensures written { OnOk result
            (Wrote self.old.limit self.old.octets.items self.new.octets.items self.new.limit self.new.places
            (compressed_record self.old.places (length self.old.octets.items) one.now)) }
        ensures refused { IfErr result
            (RefusesUpTo self.old.limit
            (length self.old.octets.items
            + length (compressed_record self.old.places (length self.old.octets.items) one.now).octets)) }
    {
        let found = self.put_labels(one.owner().as_wire())?;
        if let Some(octets) = address(found, one) {
            return self.put(&octets);
        }
        self.put_end(found)?;
        self.put(&fixed(one.rtype(), one.ttl()))?;
        let start = self.octets.len();
        self.put_rdata(one)?;
        self.put_size(start);
        Ok(())
    }

    /// Writes a record (RFC 1035 section 4.1.3).
    #[inline(never)]
    pub(crate) fn put_record(&mut self, one: &ReplyRecord<'a>) -> Result<(), WriteError>
        requires room { length self.old.octets.items ≤ self.old.limit }
        requires small { self.old.limit < 65536 }
        ensures written { OnOk result
            (Wrote self.old.limit self.old.octets.items self.new.octets.items self.new.limit self.new.places
            (compressed_record self.old.places (length self.old.octets.items) one.now)) }
        ensures refused { IfErr result
            (RefusesUpTo self.old.limit
            (length self.old.octets.items
            + length (compressed_record self.old.places (length self.old.octets.items) one.now).octets)) }
    {
        if let Some(octets) = self.known_address(one) {
            return self.put(&octets);
        }
        self.put_by_labels(one)
    }

    /// Writes records one after the other. Most sections have none, which costs no call.
    #[inline(always)]
    pub(crate) fn put_records(&mut self, records: &[ReplyRecord<'a>]) -> Result<(), WriteError>
        requires room { length self.old.octets.items ≤ self.old.limit }
        requires small { self.old.limit < 65536 }
        ensures written { OnOk result
            (Wrote self.old.limit self.old.octets.items self.new.octets.items self.new.limit self.new.places
            (compressed_all self.old.places (length self.old.octets.items) records.now)) }
        ensures refused { IfErr result
            (RefusesUpTo self.old.limit
            (length self.old.octets.items
            + length (compressed_all self.old.places (length self.old.octets.items) records.now).octets)) }
    {
        for one in records.iter() {
            self.put_record(one)?;
        }
        Ok(())
    }
}
