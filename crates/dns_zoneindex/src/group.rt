//! Slots of neighbouring children, and the groups that they make: a tree of which each group has few slots,
//! so that few of them are looked at where a child is looked for.
ghost use Rattle.std.specs.Prelude.{◌≡◌, ◌++◌, ◌∷◌, [], ◌<◌, ℕ, true, suc};
ghost use Rattle.std.specs.Prelude.{take, drop, length, IfOk, IfSome, OnOk};
ghost use Rattle.std.specs.Option.{option_copied};
ghost use Rattle.std.specs.declared.cmp.Ordering.TheVariants.{Greater};
ghost use Rattle.dns_zoneindex.specs.Children.{items, joined, label_cmp, AllChildren, AreChildren, AllFull};
ghost use Rattle.dns_zoneindex.specs.Children.{AreKeys, IsFirstKey, BeginAlike, AllBegin, BeginAsSecond};
ghost use Rattle.dns_zoneindex.specs.Children.{AreAlike, IsSharedPrefix};
ghost use Rattle.dns_zoneindex.specs.Entries.{flat};
ghost use Rattle.dns_zone.specs.Keys.{IsKey};
ghost use Rattle.dns_zoneindex.specs.Slots.{is_before, HasAlone, IsFoundAt, IsLastUpTo};
ghost use Rattle.dns_zoneindex.specs.Slots.{IsPlace, IsPlaceOfKey};

use crate::count::sum;
use crate::key::{begin_alike, key_after, order, shared};
use crate::node::{Children, Group, Node, Slot};
use dns_memory::Heap;
use std::alloc::AllocError;
use std::rc::Rc;

/// At most so many slots are in one group.
pub(crate) const MOST: usize = 16;

/// So many slots are in a group that is made of many, with room for more.
const USUAL: usize = 14;

impl Slot {
    /// One child.
    pub(crate) fn one(node: Node) -> Slot
        ensures { result ≡ node ∷ [] }
    {
        let count = node.count();
        let key = node.key();
        Slot {
            key,
            count,
            children: Children::One(node),
        }
    }

    /// Two slots or more as one.
    fn grouped(alloc: Heap, slots: Vec<Slot, Heap>) -> Result<Slot, AllocError>
        requires more { 1 < length slots.items }
        requires full { AllFull slots.items }
        requires kept { AreChildren (joined slots.items) }
        ensures { IfOk result (λ slot. slot ≡ joined slots.entry.items) }
    {
        let key = slots[0].key;
        let count = count_of(&slots)?;
        let (skip, whole) = beginning_of(&slots);
        let keys = keys_of(skip, &slots);
        let group = Group {
            keys,
            slots,
            count,
            skip,
            whole,
        };
        let group = Rc::new(alloc, group)?;
        Ok(Slot {
            key,
            count,
            children: Children::Many(group),
        })
    }

    /// The same children, shared.
    fn share(&self) -> Result<Slot, AllocError>
        ensures { IfOk result (λ slot. slot ≡ self.now) }
    {
        let Slot {
            key,
            count,
            children,
        } = self;
        Ok(Slot {
            key: *key,
            count: *count,
            children: children.share()?,
        })
    }

    /// Whether a label sorts before the first of the children.
    fn is_behind(&self, key: u64, label: &[u8]) -> bool
        requires { IsKey key label.now }
        ensures { result ≡ is_before label.now self.now }
    {
        let Slot {
            key: own,
            children,
            ..
        } = self;
        if key != *own {
            return key < *own;
        }
        match children.first() {
            Some(node) => order(0, label, node).is_lt(),
            None => false,
        }
    }

    /// The same of a label that begins like the first one's, where the keys after that are the same.
    fn is_behind_alike(&self, skip: u8, label: &[u8]) -> bool
        requires { (key : ℕ) × IsKey key (drop skip label.now) × IsFirstKey skip key self.now }
        ensures { BeginAlike skip label.now self.now → result ≡ is_before label.now self.now }
    {
        match self.children.first() {
            Some(node) => order(skip, label, node).is_lt(),
            None => false,
        }
    }

    /// The key of the first label without so many octets.
    fn key_after(&self, skip: u8) -> u64
        ensures { IsFirstKey skip result self.now }
    {
        if skip == 0 {
            return self.key;
        }
        match self.children.first() {
            Some(node) => key_after(skip, node.label()),
            None => 0,
        }
    }
}

/// How many records are at and under all children of slots.
fn count_of(slots: &[Slot]) -> Result<usize, AllocError>
    ensures { IfOk result (λ n. n ≡ length (flat (joined slots.now))) }
{
    match slots.split_first() {
        None => Ok(0),
        Some((slot, rest)) => sum(slot.count, count_of(rest)?),
    }
}

/// The keys of slots side by side, of as many as a group has.
fn keys_of(skip: u8, slots: &[Slot]) -> [u64; MOST]
    ensures { AreKeys skip result slots.now }
{
    let mut keys = [u64::MAX; MOST];
    'keys: for position in 0..MOST {
        let Some(slot) = slots.get(position) else {
            return keys;
        };
        keys[position] = slot.key_after(skip);
    }
    keys
}

/// How many octets the labels of two nodes have alike at their beginnings; none, if there are no two.
fn shared_by(a: Option<&Node>, b: Option<&Node>) -> u8
    ensures { AreAlike result (option_copied a.entry) (option_copied b.entry) }
{
    match (a, b) {
        (Some(first), Some(last)) => shared(first.label(), last.label()),
        _ => 0,
    }
}

/// Whether the keys of whole labels differ between the last child of a slot and the first of the next.
fn are_apart(slot: &Slot, next: &Slot) -> bool {
    match (slot.children.last(), next.children.first()) {
        (Some(last), Some(first)) => last.key() != first.key(),
        _ => false,
    }
}

/// How many octets a group of the slots skips, and whether the labels of all children begin with them. None
/// are skipped where the keys of whole labels differ.
fn beginning_of(slots: &[Slot]) -> (u8, bool)
    requires more { 1 < length slots.now }
    requires full { AllFull slots.now }
    requires kept { AreChildren (joined slots.now) }
    ensures { IsSharedPrefix slots.now result.0 result.1 }
{
    let second = &slots[1];
    let last = &slots[slots.len() - 1];
    if second.key != last.key {
        return (0, true);
    }
    let first = &slots[0];
    if slots.len() == 2 && are_apart(first, second) {
        return (0, true);
    }
    let all = shared_by(first.children.first(), last.children.last());
    if all >= 8 {
        return (all, true);
    }
    let later = shared_by(second.children.first(), last.children.first());
    (later, false)
}

/// An index whose key is at most this one, if it isn't the first, while the next key is greater. The keys
/// rise, so four of them tell it, without a jump that depends on one of them.
#[inline(always)]
fn last_up_to(keys: &[u64; MOST], key: u64) -> usize
    ensures { IsLastUpTo key keys.now result }
{
    let mut position = 0;
    if keys[8] <= key {
        position = 8;
    }
    if keys[position + 4] <= key {
        position += 4;
    }
    if keys[position + 2] <= key {
        position += 2;
    }
    if keys[position + 1] <= key {
        position += 1;
    }
    position
}

/// The index of the slot that holds the child of a label, or would hold it, if the keys alone determine it.
#[inline(always)]
pub(crate) fn place_alone(keys: &[u64; MOST], slots: &[Slot], key: u64) -> Option<usize>
    ensures there { IfSome result (λ p. p < length slots.now) }
    ensures position { IfSome result (λ p. IsPlaceOfKey keys.now key slots.now p) }
{
    let position = last_up_to(keys, key);
    if position > 0 && keys[position] == key {
        return None;
    }
    if position + 1 == MOST && slots.len() != MOST {
        return None;
    }
    if position < slots.len() {
        return Some(position);
    }
    None
}

/// The only child of a slot whose key is that of a label.
#[inline(always)]
pub(crate) fn only_tied<'s>(keys: &[u64; MOST], slots: &'s [Slot], key: u64) -> Option<&'s Node>
    ensures { IfSome result (λ node. HasAlone slots.now node.now) }
{
    let Slot { children, .. } = slots.get(last_up_to(keys, key))?;
    match children {
        Children::One(node) => Some(node),
        _ => None,
    }
}

/// The index of the slot that holds the child of a label, or would hold it, by bisection.
fn place_by_halves(slots: &[Slot], key: u64, label: &[u8]) -> usize
    requires key { IsKey key label.now }
    requires some { 0 < length slots.now }
    requires full { AllFull slots.now }
    requires kept { AreChildren (joined slots.now) }
    ensures { IsPlace label.now slots.now result }
{
    let mut position = 0;
    let mut end = slots.len();
    'halves: while position + 1 < end {
        let middle = position + (end - position) / 2;
        if slots[middle].is_behind(key, label) {
            end = middle;
        } else {
            position = middle;
        }
    }
    position
}

/// Whether a label sorts after the first of the slot at an index, if it begins like that. The keys determine
/// it, where they differ.
#[inline(always)]
fn is_past(
    keys: &[u64; MOST],
    slots: &[Slot],
    position: usize,
    skip: u8,
    key: u64,
    label: &[u8],
) -> bool
    requires keys { AreKeys skip keys.now slots.now }
    requires key { IsKey key (drop skip label.now) }
    requires there { position < length slots.now }
    requires full { AllFull slots.now }
    requires kept { AreChildren (joined slots.now) }
    ensures { result ≡ true → AllBegin skip label.now (drop 1 slots.now)
        → AllChildren (λ c. label_cmp label.now c.label ≡ Greater) (joined (take position slots.now)) }
{
    if position == 0 {
        return true;
    }
    let Some(own) = keys.get(position) else {
        return false;
    };
    if *own != key {
        return *own < key;
    }
    !slots[position].is_behind_alike(skip, label)
}

/// The index of the slot that holds the child of a label, or would hold it, if the label begins like those
/// of the slots. The keys determine it, where the labels differ early after that.
#[inline(always)]
fn place_by_keys(
    keys: &[u64; MOST],
    slots: &[Slot],
    skip: u8,
    key: u64,
    whole_key: u64,
    label: &[u8],
) -> usize
    requires keys { AreKeys skip keys.now slots.now }
    requires key { IsKey key (drop skip label.now) }
    requires whole_key { IsKey whole_key label.now }
    requires some { 0 < length slots.now }
    requires full { AllFull slots.now }
    requires kept { AreChildren (joined slots.now) }
    ensures there { result < length slots.now }
    ensures position { AllBegin skip label.now (drop 1 slots.now) → IsPlace label.now slots.now result }
{
    let position = last_up_to(keys, key);
    if position < slots.len() && is_past(keys, slots, position, skip, key, label) {
        let next = position + 1;
        if next == slots.len() {
            return position;
        }
        if let Some(behind) = keys.get(next) {
            if key < *behind {
                return position;
            }
        }
    }
    place_by_halves(slots, whole_key, label)
}

/// Whether a label begins like those of the slots after the first one.
fn begins_as(slots: &[Slot], skip: u8, label: &[u8]) -> bool
    requires { BeginAsSecond skip slots.now }
    ensures { result ≡ true → AllBegin skip label.now (drop 1 slots.now) }
{
    match slots.get(1) {
        Some(slot) => match slot.children.first() {
            Some(node) => begin_alike(label, node.label(), skip),
            None => false,
        },
        None => false,
    }
}

/// The index of the slot that holds the child of a label, or would hold it.
pub(crate) fn place_of(
    keys: &[u64; MOST],
    slots: &[Slot],
    skip: u8,
    key: u64,
    label: &[u8],
) -> usize
    requires keys { AreKeys skip keys.now slots.now }
    requires begin { BeginAsSecond skip slots.now }
    requires key { IsKey key label.now }
    requires some { 0 < length slots.now }
    requires full { AllFull slots.now }
    requires kept { AreChildren (joined slots.now) }
    ensures { IsPlace label.now slots.now result }
{
    if skip == 0 {
        return place_by_keys(keys, slots, 0, key, key, label);
    }
    if begins_as(slots, skip, label) {
        return place_by_keys(keys, slots, skip, key_after(skip, label), key, label);
    }
    place_by_halves(slots, key, label)
}

/// The index of the slot that holds the child of a label, if there is one. Where the labels of all children
/// begin alike, it isn't tested whether this one does: if not, it is found in no slot.
#[inline(never)]
pub(crate) fn place_to_find(
    keys: &[u64; MOST],
    slots: &[Slot],
    skip: u8,
    whole: bool,
    key: u64,
    label: &[u8],
) -> usize
    requires keys { AreKeys skip keys.now slots.now }
    requires begin { IsSharedPrefix slots.now skip whole }
    requires key { IsKey key label.now }
    requires some { 0 < length slots.now }
    requires full { AllFull slots.now }
    requires kept { AreChildren (joined slots.now) }
    ensures { IsFoundAt label.now slots.now result }
{
    if skip == 0 {
        return place_by_keys(keys, slots, 0, key, key, label);
    }
    if whole {
        return place_by_keys(keys, slots, skip, key_after(skip, label), key, label);
    }
    place_of(keys, slots, skip, key, label)
}

/// Puts slots after others, shared.
fn push_shared(made: &mut Vec<Slot, Heap>, slots: &[Slot]) -> Result<(), AllocError>
    ensures { OnOk result (made.new.items ≡ made.old.items ++ slots.now) }
{
    for slot in slots {
        made.push(slot.share()?)?;
    }
    Ok(())
}

/// The slots with others in place of one.
pub(crate) fn replaced(
    alloc: Heap,
    slots: &[Slot],
    position: usize,
    come: Vec<Slot, Heap>,
) -> Result<Vec<Slot, Heap>, AllocError>
    requires { position < length slots.now }
    ensures { IfOk result
        (λ made. made.items
        ≡ take position slots.now ++ (come.entry.items ++ drop (suc position) slots.now)) }
{
    let mut come = come;
    let mut made = Vec::with_capacity(alloc, sum(slots.len(), 1)?)?;
    push_shared(&mut made, &slots[..position])?;
    made.append(&mut come)?;
    push_shared(&mut made, &slots[position + 1..])?;
    Ok(made)
}

/// One slot.
pub(crate) fn one(alloc: Heap, slot: Slot) -> Result<Vec<Slot, Heap>, AllocError>
    ensures { IfOk result (λ slots. slots.items ≡ slot ∷ []) }
{
    let mut slots = Vec::with_capacity(alloc, 1)?;
    slots.push(slot)?;
    Ok(slots)
}

/// Two slots.
pub(crate) fn two(alloc: Heap, first: Slot, second: Slot) -> Result<Vec<Slot, Heap>, AllocError>
    ensures { IfOk result (λ slots. slots.items ≡ first ∷ second ∷ []) }
{
    let mut slots = Vec::with_capacity(alloc, 2)?;
    slots.push(first)?;
    slots.push(second)?;
    Ok(slots)
}

/// The slots as one, or as two where there are too many for one group.
pub(crate) fn gathered(alloc: Heap, slots: Vec<Slot, Heap>) -> Result<Vec<Slot, Heap>, AllocError>
    requires full { AllFull slots.items }
    requires kept { AreChildren (joined slots.items) }
    ensures made { IfOk result (λ made. joined made.items ≡ joined slots.entry.items) }
    ensures full { IfOk result (λ made. AllFull made.items) }
{
    if slots.len() < 2 {
        return Ok(slots);
    }
    if slots.len() <= MOST {
        return one(alloc, Slot::grouped(alloc, slots)?);
    }
    let mut front = slots;
    let back = front.split_off(front.len() / 2)?;
    let first = Slot::grouped(alloc, front)?;
    two(alloc, first, Slot::grouped(alloc, back)?)
}

/// The children of slots.
pub(crate) fn children_in(alloc: Heap, slots: Vec<Slot, Heap>) -> Result<Children, AllocError>
    requires full { AllFull slots.items }
    requires kept { AreChildren (joined slots.items) }
    ensures { IfOk result (λ children. items children ≡ joined slots.entry.items) }
{
    let mut slots = slots;
    if slots.len() > 1 {
        return Ok(Slot::grouped(alloc, slots)?.into_children());
    }
    match slots.pop() {
        None => Ok(Children::Empty),
        Some(slot) => Ok(slot.into_children()),
    }
}

/// The slots in fewer, each but the first with the usual number.
fn in_groups(alloc: Heap, slots: Vec<Slot, Heap>) -> Result<Vec<Slot, Heap>, AllocError>
    requires more { 1 < length slots.items }
    requires full { AllFull slots.items }
    requires kept { AreChildren (joined slots.items) }
    ensures made { IfOk result (λ made. joined made.items ≡ joined slots.entry.items) }
    ensures full { IfOk result (λ made. AllFull made.items) }
    ensures fewer { IfOk result (λ made. length made.items < length slots.entry.items) }
{
    let mut front = slots;
    let mut made = Vec::new(alloc);
    'groups: while front.len() > MOST {
        let back = front.split_off(front.len() - USUAL)?;
        made.push(Slot::grouped(alloc, back)?)?;
    }
    made.push(Slot::grouped(alloc, front.split_off(0)?)?)?;
    made.reverse();
    Ok(made)
}

/// The children of slots, of which there may be many.
pub(crate) fn in_levels(alloc: Heap, slots: Vec<Slot, Heap>) -> Result<Children, AllocError>
    requires full { AllFull slots.items }
    requires kept { AreChildren (joined slots.items) }
    ensures { IfOk result (λ children. items children ≡ joined slots.entry.items) }
{
    let mut slots = slots;
    'levels: while slots.len() > MOST {
        slots = in_groups(alloc, slots)?;
    }
    children_in(alloc, slots)
}
