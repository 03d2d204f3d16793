//! The compression of names: where a suffix was written before (RFC 1035 section 4.1.4).
ghost use Rattle.std.specs.Prelude.{◌≡◌, ◌+◌, ◌<◌, ◌≤◌, length, IfErr, IfOk, IfSome, OnOk};
ghost use Rattle.dns_names.specs.Name.{labels_of};
ghost use Rattle.dns_names.specs.Plain.{IsPlain};
ghost use Rattle.dns_wire.specs.Compress.{compressed_name, pointer as stated_pointer};
ghost use Rattle.dns_wire.specs.Puts.{Wrote, WroteLabels, RefusesUpTo, name_end, plain_octets};

use crate::WriteError;
use crate::compression_targets::Places;
use crate::fields::two_octets;
use crate::name::POINTER_BITS;
use crate::octets::Octets;

/// A message while it is written: its octets so far, and the targets that pointers can name.
#[derive(Drop)]
pub(crate) struct Compressor<'a> {
    pub(crate) octets: Octets,
    pub(crate) places: Places<'a>,
    pub(crate) limit: usize,
}

impl<'a> Compressor<'a> {
    /// Writes octets as they are.
    #[inline(always)]
    pub(crate) fn put(&mut self, octets: &[u8]) -> Result<(), WriteError>
        requires { length self.old.octets.items ≤ self.old.limit }
        ensures written { OnOk result
            (Wrote self.old.limit self.old.octets.items self.new.octets.items self.new.limit self.new.places
            (plain_octets self.old.places octets.now)) }
        ensures refused { IfErr result
            (RefusesUpTo self.old.limit (length self.old.octets.items + length octets.now)) }
    {
        if self.limit - self.octets.len() < octets.len() {
            return Err(WriteError::DoesNotFit);
        }
        self.octets.put(octets)?;
        Ok(())
    }

    /// Writes octets as they are. Most often there are none, which costs no call.
    #[inline(always)]
    pub(crate) fn put_some(&mut self, octets: &[u8]) -> Result<(), WriteError>
        requires { length self.old.octets.items ≤ self.old.limit }
        ensures written { OnOk result
            (Wrote self.old.limit self.old.octets.items self.new.octets.items self.new.limit self.new.places
            (plain_octets self.old.places octets.now)) }
        ensures refused { IfErr result
            (RefusesUpTo self.old.limit (length self.old.octets.items + length octets.now)) }
    {
        if octets.is_empty() {
            return Ok(());
        }
        self.put(octets)
    }

    /// Writes a pointer to an offset (RFC 1035 section 4.1.4).
    #[inline(always)]
    fn put_pointer(&mut self, offset: usize) -> Result<(), WriteError>
        requires low { offset < 16384 }
        requires room { length self.old.octets.items ≤ self.old.limit }
        ensures written { OnOk result
            (Wrote self.old.limit self.old.octets.items self.new.octets.items self.new.limit self.new.places
            (plain_octets self.old.places (stated_pointer offset))) }
        ensures refused { IfErr result
            (RefusesUpTo self.old.limit (length self.old.octets.items + 2)) }
    {
        let [high, low] = pointer(offset);
        self.put(&[high, low])
    }

    /// Writes the labels of a name before the longest rest that occurs earlier: the offset of that, or none
    /// where no rest does (RFC 1035 section 4.1.4).
    #[inline(never)]
    pub(crate) fn put_labels(&mut self, name: &'a [u8]) -> Result<Option<usize>, WriteError>
        requires plain { IsPlain name.now }
        requires room { length self.old.octets.items ≤ self.old.limit }
        ensures written { IfOk result
            (λ found. WroteLabels self.old.limit self.old.octets.items self.new.octets.items self.new.limit
            self.new.places
            (compressed_name self.old.places (length self.old.octets.items) (labels_of name.now)) found) }
        ensures low { IfOk result (λ found. IfSome found (λ offset. offset < 16384)) }
        ensures refused { IfErr result
            (RefusesUpTo self.old.limit
            (length self.old.octets.items
            + length (compressed_name self.old.places (length self.old.octets.items)
            (labels_of name.now)).octets)) }
    {
        let mut rest = name;
        'labels: while rest.len() > 1 {
            let at = self.octets.len();
            if let Some(offset) = self.places.find_or_keep(at, rest)? {
                return Ok(Some(offset));
            }
            let (label, behind) = rest.split_at(1 + rest[0] as usize);
            self.put(label)?;
            rest = behind;
        }
        Ok(None)
    }

    /// Writes the end of a name after its labels: a pointer to an offset, or the zero octet.
    #[inline(always)]
    pub(crate) fn put_end(&mut self, found: Option<usize>) -> Result<(), WriteError>
        requires low { IfSome found (λ offset. offset < 16384) }
        requires room { length self.old.octets.items ≤ self.old.limit }
        ensures written { OnOk result
            (Wrote self.old.limit self.old.octets.items self.new.octets.items self.new.limit self.new.places
            (plain_octets self.old.places (name_end found))) }
        ensures refused { IfErr result
            (RefusesUpTo self.old.limit (length self.old.octets.items + length (name_end found))) }
    {
        match found {
            Some(offset) => self.put_pointer(offset),
            None => self.put(&[0]),
        }
    }

    /// Writes a name: the fewest labels, and a pointer to the rest where some rest occurs earlier (RFC 1035
    /// section 4.1.4).
    #[inline(always)]
    pub(crate) fn put_name(&mut self, name: &'a [u8]) -> Result<(), WriteError>
        requires plain { IsPlain name.now }
        requires room { length self.old.octets.items ≤ self.old.limit }
        ensures written { OnOk result
            (Wrote self.old.limit self.old.octets.items self.new.octets.items self.new.limit self.new.places
            (compressed_name self.old.places (length self.old.octets.items) (labels_of name.now))) }
        ensures refused { IfErr result
            (RefusesUpTo self.old.limit
            (length self.old.octets.items
            + length (compressed_name self.old.places (length self.old.octets.items)
            (labels_of name.now)).octets)) }
    {
        let found = self.put_labels(name)?;
        self.put_end(found)
    }
}

/// A pointer to an offset (RFC 1035 section 4.1.4).
pub(crate) fn pointer(offset: usize) -> [u8; 2]
    requires { offset < 16384 }
    ensures { result ≡ stated_pointer offset }
{
    two_octets(POINTER_BITS + offset as u16)
}
