//! The records that one name owns, while the items of an update are done to them.
ghost use Rattle.std.specs.Prelude.{◌≡◌, ◌≤◌, ◌==◌, ◌++◌, nat_lt, List, [], true, not, filter, length, OnOk};
ghost use Rattle.std.specs.Prelude.{IfOk};
ghost use Rattle.std.specs.List.{list_any, list_all};
ghost use Rattle.std.specs.Ordering.{is_lt};
ghost use Rattle.dns_records.specs.Record.{Record as Stated, record_cmp};
ghost use Rattle.dns_records.specs.Types.{type_cname, type_soa};
ghost use Rattle.dns_zone.specs.Records.{are_of, is_ordered, owns_type, put, rrset, without};
ghost use Rattle.dns_update.specs.ResourceRecord.{as_record};
ghost use Rattle.dns_update.specs.Ranges.{is_outside};
ghost use Rattle.dns_update.specs.Effect.{owns_other, succeeds};

use crate::item::ResourceRecord;
use crate::owner_records::{
    are_above, has_one, has_type, owns_other, put_among, succeeds_one, take_named, take_types,
    take_types_behind,
};
use dns_memory::Heap;
use dns_names::NameRef;
use dns_records::Record;
use std::alloc::AllocError;

/// The records of a name in order, to be changed. What a change costs is up to the form that they are held
/// in.
pub(crate) trait Held: Drop {
    /// What they are.
    ghost records: { Self → List Stated };

    /// These records, in that form.
    fn of(owned: Vec<Record, Heap>) -> Result<Self, AllocError>
        ensures { IfOk result (λ held. records held ≡ owned.entry.items) };

    /// The records, as one list.
    fn into_list(self) -> Result<Vec<Record, Heap>, AllocError>
        ensures { IfOk result (λ list. list.items ≡ records self) };

    /// Whether one is of another type than CNAME.
    fn has_other(&self, name: &NameRef<'_>) -> bool
        requires { are_of name.now (records self.now) ≡ true }
        ensures { result ≡ owns_other (records self.now) name.now type_cname };

    /// Whether one is of the type.
    fn has_type(&self, name: &NameRef<'_>, rtype: u16) -> bool
        requires order { is_ordered (records self.now) ≡ true }
        requires owned { are_of name.now (records self.now) ≡ true }
        ensures { result ≡ owns_type (records self.now) name.now rtype };

    /// Whether just one is of the type.
    fn has_one(&self, name: &NameRef<'_>, rtype: u16) -> bool
        requires order { is_ordered (records self.now) ≡ true }
        requires owned { are_of name.now (records self.now) ≡ true }
        ensures { result ≡ (length (rrset (records self.now) name.now rtype) == 1) };

    /// Whether the SOA comes after one of them (RFC 1982).
    fn has_older(&self, soa: &Record) -> bool
        requires soa { soa.now.rtype ≡ type_soa }
        requires order { is_ordered (records self.now) ≡ true }
        requires owned { are_of soa.now.owner (records self.now) ≡ true }
        ensures { result ≡ list_any (succeeds soa.now) (records self.now) };

    /// Whether all are above that one.
    fn are_above(&self, one: &Record) -> bool
        requires { is_ordered (records self.now) ≡ true }
        ensures { result ≡ list_all (λ r. is_lt (record_cmp one.now r)) (records self.now) };

    /// Puts a record in, in place of one of equal owner, type and data.
    fn put(&mut self, come: Record) -> Result<(), AllocError>
        requires { is_ordered (records self.old) ≡ true }
        ensures { OnOk result (records self.new ≡ put come (records self.old)) };

    /// Takes the record that an item names out.
    fn take_named(&mut self, item: &ResourceRecord) -> Result<(), AllocError>
        requires { is_ordered (records self.old) ≡ true }
        ensures { OnOk result (records self.new ≡ without (as_record item.now) (records self.old)) };

    /// Takes those out whose types are from one on up to another.
    fn take_types(&mut self, name: &NameRef<'_>, first: u16, last: u16)
        requires rise { first ≤ last }
        requires order { is_ordered (records self.old) ≡ true }
        requires owned { are_of name.now (records self.old) ≡ true }
        ensures { records self.new ≡ filter (is_outside first last) (records self.old) };

    /// Takes those out whose types are greater than `last`.
    fn take_types_behind(&mut self, name: &NameRef<'_>, last: u16)
        requires order { is_ordered (records self.old) ≡ true }
        requires owned { are_of name.now (records self.old) ≡ true }
        ensures { records self.new ≡ filter (λ r. not (nat_lt last r.rtype)) (records self.old) };

    /// Takes all out.
    fn take_all(&mut self)
        ensures { records self.new ≡ [] };
}

impl Held for Vec<Record, Heap> {
    ghost records = { λ list. list.items };

    fn of(owned: Vec<Record, Heap>) -> Result<Self, AllocError> {
        Ok(owned)
    }

    fn into_list(self) -> Result<Vec<Record, Heap>, AllocError> {
        Ok(self)
    }

    fn has_other(&self, name: &NameRef<'_>) -> bool {
        owns_other(self, name)
    }

    fn has_type(&self, name: &NameRef<'_>, rtype: u16) -> bool {
        has_type(self, name, rtype)
    }

    fn has_one(&self, name: &NameRef<'_>, rtype: u16) -> bool {
        has_one(self, name, rtype)
    }

    fn has_older(&self, soa: &Record) -> bool {
        succeeds_one(self, soa)
    }

    fn are_above(&self, one: &Record) -> bool {
        are_above(self, one)
    }

    fn put(&mut self, come: Record) -> Result<(), AllocError> {
        put_among(self, come)
    }

    fn take_named(&mut self, item: &ResourceRecord) -> Result<(), AllocError> {
        take_named(self, item)
    }

    fn take_types(&mut self, name: &NameRef<'_>, first: u16, last: u16) {
        take_types(self, name, first, last);
    }

    fn take_types_behind(&mut self, name: &NameRef<'_>, last: u16) {
        take_types_behind(self, name, last);
    }

    fn take_all(&mut self) {
        self.clear();
    }
}

/// The records in two parts, one after the other. A record that comes or goes moves those of its part alone.
#[derive(Drop)]
pub(crate) struct Halves<H: Held> {
    front: H,
    back: H,
}

impl<H: Held> Held for Halves<H> {
    ghost records = { λ halves. H.records halves.front ++ H.records halves.back };

    fn of(owned: Vec<Record, Heap>) -> Result<Self, AllocError> {
        let mut front = owned;
        let back = front.split_off(front.len() / 2)?;
        Ok(Halves {
            front: H::of(front)?,
            back: H::of(back)?,
        })
    }

    fn into_list(self) -> Result<Vec<Record, Heap>, AllocError> {
        let mut list = self.front.into_list()?;
        let mut back = self.back.into_list()?;
        list.append(&mut back)?;
        Ok(list)
    }

    fn has_other(&self, name: &NameRef<'_>) -> bool {
        self.front.has_other(name) | self.back.has_other(name)
    }

    fn has_type(&self, name: &NameRef<'_>, rtype: u16) -> bool {
        self.front.has_type(name, rtype) | self.back.has_type(name, rtype)
    }

    fn has_one(&self, name: &NameRef<'_>, rtype: u16) -> bool {
        if self.front.has_type(name, rtype) {
            return self.front.has_one(name, rtype) & !self.back.has_type(name, rtype);
        }
        self.back.has_one(name, rtype)
    }

    fn has_older(&self, soa: &Record) -> bool {
        self.front.has_older(soa) | self.back.has_older(soa)
    }

    fn are_above(&self, one: &Record) -> bool {
        self.front.are_above(one) & self.back.are_above(one)
    }

    fn put(&mut self, come: Record) -> Result<(), AllocError> {
        if self.back.are_above(&come) {
            return self.front.put(come);
        }
        self.back.put(come)
    }

    fn take_named(&mut self, item: &ResourceRecord) -> Result<(), AllocError> {
        self.front.take_named(item)?;
        self.back.take_named(item)
    }

    fn take_types(&mut self, name: &NameRef<'_>, first: u16, last: u16) {
        self.front.take_types(name, first, last);
        self.back.take_types(name, first, last);
    }

    fn take_types_behind(&mut self, name: &NameRef<'_>, last: u16) {
        self.front.take_types_behind(name, last);
        self.back.take_types_behind(name, last);
    }

    fn take_all(&mut self) {
        self.front.take_all();
        self.back.take_all();
    }
}
