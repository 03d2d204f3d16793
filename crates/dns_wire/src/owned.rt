//! The data of a record in a message, copied in plain form.
ghost use Rattle.std.specs.Prelude.{◌≡◌, ℕ, ◌+◌, ◌≤◌, List, ◌++◌, length, IfOk, OnOk};
ghost use Rattle.dns_names.specs.Name.{Labels, wire};
ghost use Rattle.dns_records.specs.Fields.{StringsLast, stated_field, stated_fields};
ghost use Rattle.dns_wire.specs.NameAt.{FullNameAt};
ghost use Rattle.dns_wire.specs.Reads.{FieldsAt, RDataAt};
ghost use Rattle.dns_wire.specs.Fields.{SomeField, SomeFields};
ghost use Rattle.dns_wire.specs.Pointers.{AreEnds};
ghost use Rattle.dns_wire.specs.Viewed.{data_shown, IsResourceRecordShown};

use crate::fields::number;
use crate::name::behind_name;
use crate::plain::copy_plain;
use dns_memory::Heap;
use dns_records::{Field, count_within, form};
use std::alloc::AllocError;

/// Appends the name at an offset, and returns where it ends.
fn append_name(
    message: &[u8],
    at: usize,
    ends: &mut [u16],
    out: &mut Vec<u8, Heap>,
) -> Result<usize, AllocError>
    requires there { (name : Labels) × (end : ℕ) × FullNameAt message.now at name end }
    requires few { length ends.old ≤ 16384 }
    requires known { AreEnds message.now ends.old }
    ensures name { IfOk result
        (λ end. (name : Labels) × FullNameAt message.now at name end
        × (out.new.items ≡ out.old.items ++ wire name)) }
    ensures known { AreEnds message.now ends.new }
    ensures size { length ends.new ≡ length ends.old }
{
    let mut octets = [0; 255];
    let size = copy_plain(message, at, ends, &mut octets);
    out.extend_from_slice(&octets[..size])?;
    Ok(behind_name(message, at))
}

/// Appends one part of the data, and returns where it ends.
fn append_field(
    message: &[u8],
    at: usize,
    field: Field,
    stop: usize,
    ends: &mut [u16],
    out: &mut Vec<u8, Heap>,
) -> Result<usize, AllocError>
    requires there { (mid : ℕ) × SomeField message.now at (stated_field field) mid stop }
    requires up { at ≤ stop }
    requires inside { stop ≤ length message.now }
    requires few { length ends.old ≤ 16384 }
    requires known { AreEnds message.now ends.old }
    ensures part { IfOk result
        (λ mid. (part : SomeField message.now at (stated_field field) mid stop)
        × (out.new.items ≡ out.old.items ++ part.plain)) }
    ensures known { AreEnds message.now ends.new }
    ensures size { length ends.new ≡ length ends.old }
{
    match field {
        Field::Values(values) => match count_within(values, stop - at) {
            Some(count) => {
                out.extend_from_slice(&message[at..at + count])?;
                Ok(at + count)
            }
            None => unreachable!(),
        },
        Field::Name => append_name(message, at, ends, out),
        Field::UncompressedName => append_name(message, at, ends, out),
        Field::Strings => {
            out.extend_from_slice(&message[at..stop])?;
            Ok(stop)
        }
    }
}

/// Appends the parts of the data.
fn append_fields(
    message: &[u8],
    at: usize,
    fields: &[Field],
    stop: usize,
    ends: &mut [u16],
    out: &mut Vec<u8, Heap>,
) -> Result<(), AllocError>
    requires there { SomeFields message.now at (stated_fields fields.now) stop }
    requires up { at ≤ stop }
    requires inside { stop ≤ length message.now }
    requires last { StringsLast (stated_fields fields.now) }
    requires few { length ends.old ≤ 16384 }
    requires known { AreEnds message.now ends.old }
    ensures parts { OnOk result
        ((plain : List ℕ)
        × FieldsAt message.now at (stated_fields fields.now) plain stop
        × (out.new.items ≡ out.old.items ++ plain)) }
    ensures known { AreEnds message.now ends.new }
    ensures size { length ends.new ≡ length ends.old }
{
    let mut next = at;
    for field in fields.iter() {
        next = append_field(message, next, *field, stop, ends, out)?;
    }
    Ok(())
}

/// Appends the data of a record.
fn append_data(
    message: &[u8],
    at: usize,
    rtype: u16,
    size: usize,
    ends: &mut [u16],
    out: &mut Vec<u8, Heap>,
) -> Result<(), AllocError>
    requires there { (plain : List ℕ) × RDataAt message.now at rtype size plain }
    requires inside { at + size ≤ length message.now }
    requires few { length ends.old ≤ 16384 }
    requires known { AreEnds message.now ends.old }
    ensures data { OnOk result ((plain : List ℕ) × RDataAt message.now at rtype size plain
        × (out.new.items ≡ out.old.items ++ plain)) }
    ensures known { AreEnds message.now ends.new }
    ensures size { length ends.new ≡ length ends.old }
{
    if size == 0 {
        return Ok(());
    }
    match form(rtype) {
        Some(fields) => append_fields(message, at, fields, at + size, ends, out),
        None => out.extend_from_slice(&message[at..at + size]),
    }
}

/// The data, in plain form, of the record whose owner's field ends at an offset.
pub(crate) fn copy_data(
    message: &[u8],
    at: usize,
    behind_owner: usize,
    ends: &mut [u16],
    alloc: Heap,
) -> Result<Vec<u8, Heap>, AllocError>
    requires there { IsResourceRecordShown message.now at behind_owner }
    requires few { length ends.old ≤ 16384 }
    requires known { AreEnds message.now ends.old }
    ensures data { IfOk result (λ octets. octets.items ≡ data_shown message.now behind_owner) }
    ensures known { AreEnds message.now ends.new }
    ensures size { length ends.new ≡ length ends.old }
{
    let rtype = number(message, behind_owner);
    let size = number(message, behind_owner + 8) as usize;
    let mut octets = Vec::new(alloc);
    append_data(message, behind_owner + 10, rtype, size, ends, &mut octets)?;
    Ok(octets)
}
