//! Data in the words of an entry.
ghost use Rattle.std.specs.Prelude.{◌≡◌, ◌≤◌, Some, true, MatchResult};
ghost use Rattle.dns_policy.specs.Address.{ipv4_of_text, ipv6_of_text};
ghost use Rattle.dns_records.specs.Fields.{stated_field, stated_fields, stated_value, stated_values};
ghost use Rattle.dns_records.specs.Types.{form as form_of, is_data_type, U16, U32};
ghost use Rattle.dns_masterfile.specs.Data.{octets_of_text};
ghost use Rattle.dns_masterfile.specs.Reading.{take_data, take_field, take_values, take_rdata, take_wire};
ghost use Rattle.dns_masterfile.specs.Taking.{FitField, FitFields, FitName, FitStrings, IsSized, Puts};
ghost use Rattle.dns_masterfile.specs.Taking.{PutsValue, PutsString, RefusesFor, RefusesValue, TakesValue};
ghost use Rattle.dns_masterfile.specs.Taking.{string_at};
ghost use Rattle.dns_masterfile.specs.Taking.{strings_in};

use crate::FileError;
use crate::scanner::Scanner;
use crate::values::{Octets, number, small_number, string};
use dns_memory::Heap;
use dns_names::Name;
use dns_policy::address;
use dns_records::{Field, RData, RecordError, Value, form};
use smallvec::SmallVec;
use std::net::IpAddr;

/// The octets of a number of 16 bits.
fn number16(text: &[u8]) -> Option<[u8; 2]>
    ensures { result ≡ octets_of_text U16 text.now }
{
    match small_number(text) {
        Some(found) => Some(found.to_be_bytes()),
        None => None,
    }
}

/// The octets of a number of 32 bits.
fn number32(text: &[u8]) -> Option<[u8; 4]>
    ensures { result ≡ octets_of_text U32 text.now }
{
    match number(text) {
        Some(found) => Some(found.to_be_bytes()),
        None => None,
    }
}

/// The octets of an IPv4 address.
fn ipv4(text: &[u8]) -> Option<[u8; 4]>
    ensures { result ≡ ipv4_of_text text.now }
{
    match address(text) {
        Some(IpAddr::V4(found)) => Some(found.octets()),
        Some(IpAddr::V6(_)) => None,
        None => None,
    }
}

/// The octets of an IPv6 address.
fn ipv6(text: &[u8]) -> Option<[u8; 16]>
    ensures { result ≡ ipv6_of_text text.now }
{
    match address(text) {
        Some(IpAddr::V4(_)) => None,
        Some(IpAddr::V6(found)) => Some(found.octets()),
        None => None,
    }
}

/// Appends the octets of a number or an address to those before.
fn put_value(value: Value, text: &[u8], octets: &mut Octets) -> Result<(), FileError>
    ensures { MatchResult result
        (λ _. PutsValue (stated_value value) text.now octets.old.items octets.new.items)
        (RefusesValue (stated_value value) text.now) }
{
    match value {
        Value::U16 => match number16(text) {
            Some(front) => Ok(octets.extend_from_slice(&front)?),
            None => Err(FileError::BadNumber),
        },
        Value::U32 => match number32(text) {
            Some(front) => Ok(octets.extend_from_slice(&front)?),
            None => Err(FileError::BadNumber),
        },
        Value::Ipv4 => match ipv4(text) {
            Some(front) => Ok(octets.extend_from_slice(&front)?),
            None => Err(FileError::BadData),
        },
        Value::Ipv6 => match ipv6(text) {
            Some(front) => Ok(octets.extend_from_slice(&front)?),
            None => Err(FileError::BadData),
        },
    }
}

/// Appends a string to the octets before, of which so many are strings already, and says how many are strings
/// then.
fn put_string(
    alloc: Heap,
    text: &[u8],
    size: usize,
    octets: &mut Octets,
) -> Result<usize, FileError>
    requires { size ≤ 4096 }
    ensures { MatchResult result (PutsString text.now size octets.old.items octets.new.items)
        (RefusesFor (string_at size text.now)) }
{
    let string = string(alloc, text)?;
    let size = size + 1 + string.len();
    if size > 4096 {
        return Err(FileError::TooLong);
    }
    octets.push(string.len() as u8)?;
    octets.extend_from_slice(string.as_slice())?;
    Ok(size)
}

impl<'a> Scanner<'a> {
    /// Takes numbers and addresses.
    fn take_values(&mut self, values: &[Value], octets: &mut Octets) -> Result<(), FileError>
        ensures { MatchResult result
            (λ _. Puts (take_values (stated_values values.now)) (IsSized (stated_values values.now))
            self.old self.new octets.old.items octets.new.items)
            (RefusesFor (take_values (stated_values values.now) self.old.words)) }
    {
        'parts: for value in values {
            let word = self.take_word()?;
            put_value(*value, word.text(), octets)?;
        }
        Ok(())
    }

    /// Takes a name, in plain form.
    fn take_wire(
        &mut self,
        alloc: Heap,
        origin: &Name,
        octets: &mut Octets,
    ) -> Result<(), FileError>
        ensures { MatchResult result
            (λ _. Puts (take_wire origin.now) FitName self.old self.new octets.old.items octets.new.items)
            (RefusesFor (take_wire origin.now self.old.words)) }
    {
        let name = self.take_name(alloc, origin)?;
        Ok(octets.extend_from_slice(name.as_wire())?)
    }

    /// Takes the strings that are left, one or more.
    fn take_strings(&mut self, alloc: Heap, octets: &mut Octets) -> Result<(), FileError>
        ensures { MatchResult result
            (λ _. Puts strings_in FitStrings self.old self.new octets.old.items octets.new.items)
            (RefusesFor (strings_in self.old.words)) }
    {
        let Some(_) = self.first_word() else {
            return Err(FileError::Syntax);
        };
        let mut size = 0;
        'strings: while let Some((word, behind)) = self.first_word() {
            *self = behind;
            size = put_string(alloc, word.text(), size, octets)?;
        }
        Ok(())
    }

    /// Takes one part of the data.
    fn take_field(
        &mut self,
        alloc: Heap,
        origin: &Name,
        field: Field,
        octets: &mut Octets,
    ) -> Result<(), FileError>
        ensures { MatchResult result
            (λ _. Puts (take_field origin.now (stated_field field)) (FitField (stated_field field))
            self.old self.new octets.old.items octets.new.items)
            (RefusesFor (take_field origin.now (stated_field field) self.old.words)) }
    {
        match field {
            Field::Values(values) => self.take_values(values, octets),
            Field::Name => self.take_wire(alloc, origin, octets),
            Field::UncompressedName => self.take_wire(alloc, origin, octets),
            Field::Strings => self.take_strings(alloc, octets),
        }
    }

    /// Takes the parts of the data.
    fn take_fields(
        &mut self,
        alloc: Heap,
        origin: &Name,
        fields: &[Field],
        octets: &mut Octets,
    ) -> Result<(), FileError>
        ensures { MatchResult result
            (λ _. Puts (take_data origin.now (stated_fields fields.now))
            (FitFields (stated_fields fields.now)) self.old self.new octets.old.items octets.new.items)
            (RefusesFor (take_data origin.now (stated_fields fields.now) self.old.words)) }
    {
        'fields: for field in fields {
            self.take_field(alloc, origin, *field, octets)?;
        }
        Ok(())
    }

    /// Takes the data of a type, which has these parts.
    fn take_formed(
        &mut self,
        alloc: Heap,
        origin: &Name,
        rtype: u16,
        fields: &[Field],
    ) -> Result<RData, FileError>
        requires { form_of rtype ≡ Some (stated_fields fields.now) }
        ensures { MatchResult result
            (λ d. (d.rtype ≡ rtype)
            × TakesValue (take_data origin.now (stated_fields fields.now)) self.old self.new d.octets)
            (RefusesFor (take_data origin.now (stated_fields fields.now) self.old.words)) }
    {
        let mut octets = SmallVec::new(alloc);
        self.take_fields(alloc, origin, fields, &mut octets)?;
        match RData::new(alloc, rtype, octets.as_slice()) {
            Ok(rdata) => Ok(rdata),
            Err(RecordError::OutOfMemory) => Err(FileError::OutOfMemory),
            Err(RecordError::BadData) => unreachable!(),
            Err(RecordError::TooLong) => unreachable!(),
            Err(RecordError::UnknownType) => unreachable!(),
        }
    }

    /// Takes the data of a type.
    pub(crate) fn take_rdata(
        &mut self,
        alloc: Heap,
        origin: &Name,
        rtype: u16,
    ) -> Result<RData, FileError>
        requires { is_data_type rtype ≡ true }
        ensures { MatchResult result
            (λ d. (d.rtype ≡ rtype)
            × TakesValue (take_rdata origin.now self.old.whole rtype) self.old self.new d.octets)
            (RefusesFor (take_rdata origin.now self.old.whole rtype self.old.words)) }
    {
        match form(rtype) {
            Some(fields) => self.take_formed(alloc, origin, rtype, fields),
            None => self.take_opaque_data(alloc, rtype),
        }
    }
}
