//! The targets that pointers can name: where a suffix was written before (RFC 1035 section 4.1.4).
ghost use Rattle.std.specs.Prelude.{◌≡◌, ◌<◌, ◌≤◌, ℕ, List, [], ◌∷◌, ◌++◌, length, get_or, IfOk, IfSome};
ghost use Rattle.std.specs.Prelude.{MatchOption, None, OnErr, OnOk, Some};
ghost use Rattle.dns_names.specs.Name.{labels_of, names_eq};
ghost use Rattle.dns_names.specs.Plain.{IsPlain};
ghost use Rattle.dns_wire.specs.Compress.{Place, new_places};
ghost use Rattle.dns_wire.specs.Indexed.{IsTable, head_of, linked_places, mixed, offset_at, suffix_number};
ghost use Rattle.dns_wire.specs.Puts.{noted};

use arrayvec::ArrayVec;
use byteorder::{ByteOrder, LittleEndian};
use dns_memory::Heap;
use dns_names::same_octets;
use std::alloc::{AllocError, Allocator};
use std::marker::Model;

/// How many targets are kept in place, and take no memory.
const IN_PLACE: usize = 4;

/// A pointer can name the offsets below this one (RFC 1035 section 4.1.4).
const REACH: usize = 16384;

/// How many heads a table has.
const HEADS: usize = 1024;

/// For how many targets a table has room at first: few messages have more, and to make room is to move all.
const AT_FIRST: usize = 1024;

/// What a number is multiplied by, odd and without a pattern.
const FACTOR: u64 = 11400714819323198485;

/// What a number is divided by, so that its ten highest bits are left.
const HIGHEST: u64 = 18014398509481984;

/// Where a suffix of an earlier name occurs: the plain form of the suffix is lent.
#[derive(Drop)]
pub(crate) struct Target<'a> {
    offset: usize,
    suffix: &'a [u8],
}

impl<'a> Model for Target<'a> {
    ghost use Rattle.std.specs.Prelude.{◌<◌};
    ghost use Rattle.dns_names.specs.Name.{labels_of};
    ghost use Rattle.dns_names.specs.Plain.{IsPlain};
    ghost use Rattle.dns_wire.specs.Compress.{Place};

    ghost Value = { Place };

    ghost view = { λ m. record { offset = m.offset; suffix = labels_of m.suffix.now } };

    ghost invariant = { λ m. IsPlain m.suffix.now × (m.offset < 16384) };
}

/// What an unused element of an array holds.
impl<'a> Default for Target<'a> {
    fn default() -> Target<'a> {
        Target {
            offset: 0,
            suffix: &[0],
        }
    }
}

impl<'a> Target<'a> {
    /// Whether the suffix is the one that occurs here.
    fn is(&self, suffix: &[u8]) -> bool
        requires { IsPlain suffix.now }
        ensures { result ≡ names_eq self.now.suffix (labels_of suffix.now) }
    {
        same_octets(self.suffix, suffix)
    }

    /// Where it occurs.
    #[inline(always)]
    fn offset(&self) -> usize
        ensures same { result ≡ self.now.offset }
        ensures low { result < 16384 }
    {
        self.offset
    }
}

/// The least offset at which a suffix occurs.
fn place_of(places: &[Target<'_>], suffix: &[u8]) -> Option<usize>
    requires { IsPlain suffix.now }
    ensures position { result ≡ offset_at places.now (labels_of suffix.now) }
    ensures low { IfSome result (λ offset. offset < 16384) }
{
    for position in places.iter() {
        if position.is(suffix) {
            return Some(position.offset);
        }
    }
    None
}

/// Where a suffix occurs in a name that is written in full after the header.
pub(crate) fn place_within(name: &[u8], suffix: &[u8]) -> Option<usize>
    requires name { IsPlain name.now }
    requires suffix { IsPlain suffix.now }
    ensures position { result ≡ offset_at (new_places [] 12 (labels_of name.now)) (labels_of suffix.now) }
    ensures low { IfSome result (λ offset. offset < 16384) }
{
    let mut at = 12;
    let mut rest = name;
    'labels: while rest.len() > suffix.len() {
        let size = 1 + rest[0] as usize;
        let (_, behind) = rest.split_at(size);
        at += size;
        rest = behind;
    }
    if rest.len() > 1 && same_octets(rest, suffix) {
        return Some(at);
    }
    None
}

/// A number of eight octets more, and of what was before them.
#[inline(always)]
fn mixed(sum: u64, word: u64) -> u64
    ensures { result ≡ mixed sum word }
{
    sum.wrapping_add(word).wrapping_mul(FACTOR)
}

/// The number of a suffix: computed from all its octets, so that most have one of their own.
#[inline(always)]
fn number_of(suffix: &[u8]) -> u64
    ensures { result ≡ suffix_number suffix.now }
{
    let mut sum = 0;
    let mut rest = suffix;
    'words: while rest.len() >= 8 {
        sum = mixed(sum, LittleEndian::read_u64(rest));
        let (_, behind) = rest.split_at(8);
        rest = behind;
    }
    'octets: for octet in rest {
        sum = mixed(sum, *octet as u64);
    }
    sum
}

/// The head for a number: its highest bits, on which all octets have an effect.
#[inline(always)]
fn head_of(number: u64) -> usize
    ensures head { result ≡ head_of number }
    ensures inside { result < 1024 }
{
    (number / HIGHEST) as usize % HEADS
}

/// A target in a table.
#[derive(Drop)]
struct Linked<'a> {
    target: Target<'a>,
    /// The number of its suffix.
    number: u64,
    /// The index, and one more, of the last target before this one that has the same head, or 0.
    next: usize,
}

impl<'a> Model for Linked<'a> {
    ghost use Rattle.std.specs.Prelude.{◌≡◌};
    ghost use Rattle.dns_names.specs.Name.{wire};
    ghost use Rattle.dns_wire.specs.Indexed.{Linked as Stated, suffix_number};

    ghost Value = { Stated };

    ghost view = { λ l. record { place = l.target; next = l.next } };

    ghost invariant = { λ l. l.number ≡ suffix_number (wire l.target.suffix) };
}

impl<'a> Linked<'a> {
    /// Whether the suffix, which has this number, is the one that occurs here.
    #[inline(always)]
    fn is(&self, number: u64, suffix: &[u8]) -> bool
        requires plain { IsPlain suffix.now }
        requires number { number ≡ suffix_number suffix.now }
        ensures { result ≡ names_eq self.now.place.suffix (labels_of suffix.now) }
    {
        self.number == number && self.target.is(suffix)
    }

    /// Where it occurs.
    #[inline(always)]
    fn offset(&self) -> usize
        ensures same { result ≡ self.now.place.offset }
        ensures low { result < 16384 }
    {
        self.target.offset()
    }

    /// The link to the target before it.
    #[inline(always)]
    fn next(&self) -> usize
        ensures { result ≡ self.now.next }
    {
        self.next
    }
}

/// The link at a head, or 0.
#[inline(always)]
fn link_at(heads: &[usize], head: usize) -> usize
    ensures { result ≡ get_or heads.now head 0 }
{
    if head < heads.len() { heads[head] } else { 0 }
}

/// Makes the heads, none of which has a target, and room for targets.
#[cold]
#[inline(never)]
fn make(linked: &mut Vec<Linked<'_>, Heap>, heads: &mut Vec<usize, Heap>) -> Result<(), AllocError>
    requires { length heads.old.items < 1024 }
    ensures there { OnOk result (length heads.new.items ≡ 1024) }
    ensures same { (head : ℕ) → get_or heads.new.items head 0 ≡ get_or heads.old.items head 0 }
    ensures linked { linked.new.items ≡ linked.old.items }
{
    linked.reserve(AT_FIRST)?;
    heads.resize(HEADS, 0)
}

/// Makes the heads, if there are none.
#[inline(always)]
fn reach(linked: &mut Vec<Linked<'_>, Heap>, heads: &mut Vec<usize, Heap>) -> Result<(), AllocError>
    ensures there { OnOk result (1024 ≤ length heads.new.items) }
    ensures same { (head : ℕ) → get_or heads.new.items head 0 ≡ get_or heads.old.items head 0 }
    ensures linked { linked.new.items ≡ linked.old.items }
{
    if heads.len() < HEADS {
        return make(linked, heads);
    }
    Ok(())
}

/// Puts one more after the others. Most often there is room for it, and it takes no call.
#[inline(always)]
pub(crate) fn put_last<T: Drop, A: Allocator>(all: &mut Vec<T, A>, one: T) -> Result<(), AllocError>
    ensures kept { OnOk result (all.new.items ≡ all.old.items ++ one ∷ []) }
    ensures refused { OnErr result (all.new.items ≡ all.old.items) }
{
    if all.len() < all.capacity() {
        all.push_reserved(one);
        return Ok(());
    }
    all.push(one)?;
    Ok(())
}

/// Where a suffix with this number occurs, among the targets of a table.
#[inline(always)]
fn linked_place(linked: &[Linked<'_>], heads: &[usize], number: u64, suffix: &[u8]) -> Option<usize>
    requires table { IsTable linked.now heads.now }
    requires plain { IsPlain suffix.now }
    requires number { number ≡ suffix_number suffix.now }
    ensures position { result ≡ offset_at (linked_places linked.now) (labels_of suffix.now) }
    ensures low { IfSome result (λ offset. offset < 16384) }
{
    let mut link = link_at(heads, head_of(number));
    'links: while link > 0 {
        let one = &linked[link - 1];
        if one.is(number, suffix) {
            return Some(one.offset());
        }
        link = one.next();
    }
    None
}

/// Targets of different suffixes, in the order in which they were kept, each found by the number of its
/// suffix.
#[derive(Drop)]
struct Table<'a> {
    linked: Vec<Linked<'a>, Heap>,
    /// For each head the index, and one more, of the last target that has it, or 0. There are none before the
    /// first target.
    heads: Vec<usize, Heap>,
}

impl<'a> Model for Table<'a> {
    ghost use Rattle.std.specs.Prelude.{List, map};
    ghost use Rattle.dns_wire.specs.Compress.{Place};
    ghost use Rattle.dns_wire.specs.Indexed.{IsTable, linked_places};

    ghost Value = { List Place };

    ghost view = { λ t. linked_places t.linked.items };

    ghost invariant = { λ t. IsTable t.linked.items t.heads.items };
}

impl<'a> Table<'a> {
    /// No target.
    fn new(alloc: Heap) -> Table<'a>
        ensures { result ≡ [] }
    {
        Table {
            linked: Vec::new(alloc),
            heads: Vec::new(alloc),
        }
    }

    /// Where a suffix with this number occurs.
    #[inline(always)]
    fn find(&self, number: u64, suffix: &[u8]) -> Option<usize>
        requires plain { IsPlain suffix.now }
        requires number { number ≡ suffix_number suffix.now }
        ensures position { result ≡ offset_at self.now (labels_of suffix.now) }
        ensures low { IfSome result (λ offset. offset < 16384) }
    {
        linked_place(&self.linked, &self.heads, number, suffix)
    }

    /// Keeps a target whose suffix, which has this number, occurs nowhere.
    #[inline(always)]
    fn keep(&mut self, number: u64, offset: usize, suffix: &'a [u8]) -> Result<(), AllocError>
        requires plain { IsPlain suffix.now }
        requires number { number ≡ suffix_number suffix.now }
        requires low { offset < 16384 }
        requires new { None ≡ offset_at self.old (labels_of suffix.now) }
        ensures kept { OnOk result
            (self.new ≡ self.old ++ record { offset = offset; suffix = labels_of suffix.now } ∷ []) }
        ensures refused { OnErr result (self.new ≡ self.old) }
    {
        reach(&mut self.linked, &mut self.heads)?;
        let head = head_of(number);
        let target = Target { offset, suffix };
        let next = self.heads[head];
        let one = Linked {
            target,
            number,
            next,
        };
        put_last(&mut self.linked, one)?;
        self.heads[head] = self.linked.len();
        Ok(())
    }

    /// The offset at which a suffix occurs. Where it occurs nowhere, it is noted that it occurs at this one,
    /// if a pointer can name that.
    #[inline(always)]
    fn find_or_keep(&mut self, offset: usize, suffix: &'a [u8]) -> Result<Option<usize>, AllocError>
        requires { IsPlain suffix.now }
        ensures position { IfOk result (λ found. found ≡ offset_at self.old (labels_of suffix.now)) }
        ensures low { IfOk result (λ found. IfSome found (λ position. position < 16384)) }
        ensures kept { IfOk result
            (λ found. MatchOption found (self.new ≡ self.old ++ noted offset (labels_of suffix.now))
            (λ _. self.new ≡ self.old)) }
        ensures refused { OnErr result (self.new ≡ self.old) }
    {
        let number = number_of(suffix);
        if let Some(found) = self.find(number, suffix) {
            return Ok(Some(found));
        }
        if offset < REACH {
            self.keep(number, offset, suffix)?;
        }
        Ok(None)
    }
}

/// The targets after those of the first name, in the order of their offsets.
struct Listed<'a> {
    /// Those that are searched one by one.
    all: Vec<Target<'a>, Heap>,
    /// How many of these there may be.
    looked_through: usize,
    /// Those after them.
    later: Table<'a>,
}

// Written out, so that a proof lets one go by one call (docs/GATE.md).
impl<'a> Drop for Listed<'a> {
    fn drop(self) {
        let Listed {
            all,
            looked_through: _,
            later,
        } = self;
        drop((all, later));
    }
}

impl<'a> Model for Listed<'a> {
    ghost use Rattle.std.specs.Prelude.{◌≡◌, ◌<◌, List, [], ◌++◌, length};
    ghost use Rattle.dns_wire.specs.Compress.{Place};

    ghost Value = { List Place };

    ghost view = { λ p. p.all.items ++ p.later };

    ghost invariant = { λ p. length p.all.items < p.looked_through → p.later ≡ [] };
}

impl<'a> Listed<'a> {
    /// No target. The first `looked_through` will be searched one by one, and the others by the number of
    /// their suffix: what is found is the same.
    fn new(alloc: Heap, looked_through: usize) -> Listed<'a>
        ensures { result ≡ [] }
    {
        Listed {
            all: Vec::new(alloc),
            looked_through,
            later: Table::new(alloc),
        }
    }

    /// The least offset at which a suffix occurs here. Where it occurs nowhere, it is noted that it occurs at
    /// this one, if a pointer can name that.
    #[inline(never)]
    fn find_or_keep(&mut self, offset: usize, suffix: &'a [u8]) -> Result<Option<usize>, AllocError>
        requires { IsPlain suffix.now }
        ensures position { IfOk result (λ found. found ≡ offset_at self.old (labels_of suffix.now)) }
        ensures low { IfOk result (λ found. IfSome found (λ position. position < 16384)) }
        ensures kept { IfOk result
            (λ found. MatchOption found (self.new ≡ self.old ++ noted offset (labels_of suffix.now))
            (λ _. self.new ≡ self.old)) }
        ensures refused { OnErr result (self.new ≡ self.old) }
    {
        if let Some(found) = place_of(&self.all, suffix) {
            return Ok(Some(found));
        }
        if self.all.len() >= self.looked_through {
            return self.later.find_or_keep(offset, suffix);
        }
        if offset < REACH {
            self.all.push(Target { offset, suffix })?;
        }
        Ok(None)
    }
}

/// The targets of a message, in the order of their offsets: those of the name after the header, and the
/// others. Most replies have few besides those of the question's name, and they take no memory.
#[derive(Drop)]
pub(crate) struct Places<'a> {
    /// The name that is written in full after the header: the root, where there is none.
    first: &'a [u8],
    /// The targets after its own.
    few: ArrayVec<Target<'a>, 4>,
    /// How many of these there may be.
    in_place: usize,
    /// Those after them.
    listed: Listed<'a>,
}

impl<'a> Model for Places<'a> {
    ghost use Rattle.std.specs.Prelude.{◌≡◌, ◌<◌, ◌≤◌, List, [], ◌++◌};
    ghost use Rattle.arrayvec.specs.ArrayVec.{array_vec_len};
    ghost use Rattle.dns_names.specs.Name.{labels_of};
    ghost use Rattle.dns_names.specs.Plain.{IsPlain};
    ghost use Rattle.dns_wire.specs.Compress.{Place, new_places};

    ghost Value = { List Place };

    ghost view = { λ p. new_places [] 12 (labels_of p.first.now) ++ p.few.items ++ p.listed };

    ghost invariant = { λ p.
        IsPlain p.first.now × (p.in_place ≤ 4) × (array_vec_len p.few < p.in_place → p.listed ≡ []) };
}

impl<'a> Places<'a> {
    /// No target. The first `looked_through` after those of the first name will be searched one by one, and
    /// the others by the number of their suffix: what is found is the same.
    pub(crate) fn new(alloc: Heap, looked_through: usize) -> Places<'a>
        ensures { result ≡ [] }
    {
        let in_place = looked_through.min(IN_PLACE);
        Places {
            first: &[0],
            few: ArrayVec::new(),
            in_place,
            listed: Listed::new(alloc, looked_through - in_place),
        }
    }

    /// Keeps the targets of the first name, which is written in full after the header.
    pub(crate) fn begin(&mut self, name: &'a [u8])
        requires plain { IsPlain name.now }
        requires first { self.old ≡ [] }
        ensures { self.new ≡ new_places [] 12 (labels_of name.now) }
    {
        self.first = name;
    }

    /// An offset at which a suffix with a label occurs, where it is found without a search of the targets
    /// that take memory.
    pub(crate) fn find(&self, suffix: &[u8]) -> Option<usize>
        requires { IsPlain suffix.now }
        ensures position { IfSome result (λ found. Some found ≡ offset_at self.now (labels_of suffix.now)) }
        ensures low { IfSome result (λ found. found < 16384) }
        ensures some { IfSome result (λ _. 1 < length suffix.now) }
    {
        if suffix.len() <= 1 {
            return None;
        }
        if let Some(found) = place_within(self.first, suffix) {
            return Some(found);
        }
        place_of(self.few.as_slice(), suffix)
    }

    /// The least offset at which a suffix occurs. Where it occurs nowhere, it is noted that it occurs at this
    /// one, if a pointer can name that.
    #[inline(always)]
    pub(crate) fn find_or_keep(
        &mut self,
        offset: usize,
        suffix: &'a [u8],
    ) -> Result<Option<usize>, AllocError>
        requires { IsPlain suffix.now }
        ensures position { IfOk result (λ found. found ≡ offset_at self.old (labels_of suffix.now)) }
        ensures low { IfOk result (λ found. IfSome found (λ position. position < 16384)) }
        ensures kept { IfOk result
            (λ found. MatchOption found (self.new ≡ self.old ++ noted offset (labels_of suffix.now))
            (λ _. self.new ≡ self.old)) }
        ensures refused { OnErr result (self.new ≡ self.old) }
    {
        if let Some(found) = place_within(self.first, suffix) {
            return Ok(Some(found));
        }
        if let Some(found) = place_of(self.few.as_slice(), suffix) {
            return Ok(Some(found));
        }
        if self.few.len() >= self.in_place {
            return self.listed.find_or_keep(offset, suffix);
        }
        if offset < REACH {
            self.few.push(Target { offset, suffix });
        }
        Ok(None)
    }
}
