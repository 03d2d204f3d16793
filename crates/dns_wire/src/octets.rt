//! The octets of a message while it is written: the first ones of a buffer, which has others after them, so
//! that most are written by a copy and no call.
ghost use Rattle.std.specs.Prelude.{◌≡◌, [], ◌++◌, ◌+◌, ◌-◌, ◌≤◌, length, take, drop, IfOk, OnOk};
ghost use Rattle.std.specs.Int.{w16, to_be_bytes as be_octets};

use byteorder::{BigEndian, ByteOrder};
use dns_memory::Heap;
use std::alloc::AllocError;
use std::marker::Model;
use std::mem;

/// A datagram has at most so many octets (RFC 1035 section 4.2.1).
pub(crate) const MOST: usize = 512;

/// Octets that are written one after the other.
#[derive(Drop)]
pub(crate) struct Octets {
    buffer: Vec<u8, Heap>,
    len: usize,
}

impl Model for Octets {
    ghost use Rattle.std.specs.Prelude.{◌≤◌, take, length};
    ghost use Rattle.dns_wire.specs.OctetsSoFar.{OctetsSoFar};

    ghost Value = { OctetsSoFar };

    ghost view = { λ o. record { items = take o.len o.buffer.items } };

    ghost invariant = { λ o. o.len ≤ length o.buffer.items };
}

/// Writes octets in place of the first ones of a buffer.
#[inline(always)]
fn copy_front(buffer: &mut Vec<u8, Heap>, octets: &[u8])
    requires { length octets.now ≤ length buffer.old.items }
    ensures { buffer.new.items ≡ octets.now ++ drop (length octets.now) buffer.old.items }
{
    buffer.as_mut_slice()[0..octets.len()].copy_from_slice(octets);
}

/// Makes room in a buffer for so many octets after the first ones.
#[cold]
#[inline(never)]
fn grow(buffer: &mut Vec<u8, Heap>, len: usize, more: usize) -> Result<(), AllocError>
    requires { len ≤ length buffer.old.items }
    ensures same { take len buffer.new.items ≡ take len buffer.old.items }
    ensures inside { len ≤ length buffer.new.items }
    ensures room { OnOk result (len + more ≤ length buffer.new.items) }
{
    let raised = buffer.len().saturating_mul(4);
    let room = raised.max(len.saturating_add(more));
    let mut wider = vec![in *buffer.allocator(); 0; room]?;
    copy_front(&mut wider, &buffer.as_slice()[..len]);
    *buffer = wider;
    Ok(())
}

/// Makes a buffer longer. Where it lacks memory, it gets that of a datagram, so that it serves again.
#[inline(never)]
fn widen(buffer: &mut Vec<u8, Heap>, room: usize) -> Result<(), AllocError> {
    if buffer.capacity() < room {
        buffer.clear();
        buffer.reserve(room.max(MOST))?;
    }
    buffer.resize(room, 0)
}

/// Writes a number into the two octets before an offset.
#[inline(always)]
fn set_two(octets: &mut [u8], behind: usize, number: u16)
    requires up { 2 ≤ behind }
    requires inside { behind ≤ length octets.old }
    ensures { octets.new ≡ take (behind - 2) octets.old ++ be_octets w16 number ++ drop behind octets.old }
{
    BigEndian::write_u16(&mut octets[behind - 2..behind], number);
}

impl Octets {
    /// None, with room for so many.
    #[inline(always)]
    pub(crate) fn with_room(alloc: Heap, room: usize) -> Result<Octets, AllocError>
        ensures { IfOk result (λ octets. octets.items ≡ []) }
    {
        Ok(Octets {
            buffer: vec![in alloc; 0; room]?,
            len: 0,
        })
    }

    /// None, with room for so many, in the memory of spare octets, of which none is left.
    #[inline(always)]
    pub(crate) fn over(
        alloc: Heap,
        spare: &mut Vec<u8, Heap>,
        room: usize,
    ) -> Result<Octets, AllocError>
        ensures { IfOk result (λ octets. octets.items ≡ []) }
    {
        let mut buffer = mem::replace(spare, Vec::new(alloc));
        if buffer.len() < room {
            widen(&mut buffer, room)?;
        }
        Ok(Octets { buffer, len: 0 })
    }

    /// How many there are.
    #[inline(always)]
    pub(crate) fn len(&self) -> usize
        ensures { result ≡ length self.now.items }
    {
        self.len
    }

    /// Writes more.
    #[inline(always)]
    pub(crate) fn put(&mut self, more: &[u8]) -> Result<(), AllocError>
        ensures { OnOk result (self.new.items ≡ self.old.items ++ more.now) }
    {
        if self.buffer.len() - self.len < more.len() {
            grow(&mut self.buffer, self.len, more.len())?;
        }
        let start = self.len;
        let end = start + more.len();
        self.buffer.as_mut_slice()[start..end].copy_from_slice(more);
        self.len = end;
        Ok(())
    }

    /// Writes a number into the two octets before an offset.
    #[inline(always)]
    pub(crate) fn set_two(&mut self, behind: usize, number: u16)
        requires up { 2 ≤ behind }
        requires inside { behind ≤ length self.old.items }
        ensures { self.new.items
            ≡ take (behind - 2) self.old.items ++ be_octets w16 number ++ drop behind self.old.items }
    {
        set_two(self.buffer.as_mut_slice(), behind, number);
    }

    /// Takes back all but so many.
    #[inline(always)]
    pub(crate) fn truncate(&mut self, len: usize)
        requires { len ≤ length self.old.items }
        ensures { self.new.items ≡ take len self.old.items }
    {
        self.len = len;
    }

    /// All of them.
    #[inline(always)]
    pub(crate) fn into_vec(self) -> Vec<u8, Heap>
        ensures { result.items ≡ self.items }
    {
        let Octets { mut buffer, len } = self;
        buffer.truncate(len);
        buffer
    }
}
