//! Whether octets have the form of a type.
ghost use Rattle.std.specs.Prelude.{◌↔◌, IsTrue};
ghost use Rattle.dns_records.specs.Record.{IsField, AreFields};
ghost use Rattle.dns_records.specs.Types.{Strings};
ghost use Rattle.dns_records.specs.Fields.{stated_fields, StringsLast};

use crate::{Field, count_within};
use dns_names::NameRef;

/// Whether the octets are one string or more.
pub(crate) fn are_strings(octets: &[u8]) -> bool
    ensures { IsTrue result ↔ IsField Strings octets.now }
{
    let mut rest = octets;
    'strings: while let Some((len, behind)) = rest.split_first() {
        let len = *len as usize;
        if behind.len() < len {
            return false;
        }
        rest = &behind[len..];
    }
    !octets.is_empty()
}

/// Whether the octets are the parts, one after the other.
pub(crate) fn fit(fields: &[Field], octets: &[u8]) -> bool
    requires { StringsLast (stated_fields fields.now) }
    ensures { IsTrue result ↔ AreFields (stated_fields fields.now) octets.now }
{
    let Some((field, more)) = fields.split_first() else {
        return octets.is_empty();
    };
    match field {
        Field::Values(values) => match count_within(values, octets.len()) {
            Some(count) => fit(more, &octets[count..]),
            None => false,
        },
        Field::Name => match NameRef::first(octets) {
            Some((_, rest)) => fit(more, rest),
            None => false,
        },
        Field::UncompressedName => match NameRef::first(octets) {
            Some((_, rest)) => fit(more, rest),
            None => false,
        },
        Field::Strings => are_strings(octets),
    }
}
