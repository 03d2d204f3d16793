//! Names and labels by a few octets as one number, which decides most comparisons in one step.
ghost use Rattle.std.specs.Prelude.{◌≡◌, ◌<◌, ◌≤◌, ◌-◌, ◌∷◌, ℕ, List, [], take, drop, get_or, length};
ghost use Rattle.std.specs.Prelude.{IfSome, IfNone, false, true};
ghost use Rattle.dns_names.specs.Lower.{AreOctets};
ghost use Rattle.dns_names.specs.Name.{under};
ghost use Rattle.dns_zone.specs.Keys.{IsKey, leading};
ghost use Rattle.dns_zone.specs.SortKey.{label_below, IsSortKey};

use dns_names::NameRef;

/// The octet at an index, or zero past the last one.
fn octet_at(label: &[u8], position: usize) -> u8
    ensures { result ≡ get_or label.now position 0 }
{
    match label.get(position) {
        Some(octet) => *octet,
        None => 0,
    }
}

/// The first eight octets of a label as a number, the first of them highest, with zeros after the last one.
#[inline(always)]
pub fn key_of(label: &[u8]) -> u64
    ensures { IsKey result label.now }
{
    if let Some(front) = label.first_chunk::<8>() {
        return u64::from_be_bytes(*front);
    }
    let (Some(front), Some(back)) = (label.first_chunk::<4>(), label.last_chunk::<4>()) else {
        return key_of_few(label);
    };
    key_of_halves(*front, *back, label.len())
}

/// The key of a label of four to eight octets by its first four and its last four, which may overlap.
#[inline(always)]
fn key_of_halves(front: [u8; 4], back: [u8; 4], len: usize) -> u64
    requires few { len ≤ 8 }
    requires more { 4 ≤ len }
    ensures { (label : List ℕ) → length label ≡ len → front ≡ take 4 label → back ≡ drop (len - 4) label
        → AreOctets label → result ≡ leading 8 label }
{
    let behind = u64::from(u32::from_be_bytes(back)) << (8 * (8 - len));
    (u64::from(u32::from_be_bytes(front)) << 32) + behind % (1 << 32)
}

/// The key of a label of up to three octets.
fn key_of_few(label: &[u8]) -> u64
    requires { length label.now < 4 }
    ensures { IsKey result label.now }
{
    u64::from_be_bytes([
        octet_at(label, 0),
        octet_at(label, 1),
        octet_at(label, 2),
        0,
        0,
        0,
        0,
        0,
    ])
}

/// The first label of a name, the one next to the host, and the name above it. The root has none.
pub fn split<'n>(name: &NameRef<'n>) -> Option<(&'n [u8], NameRef<'n>)>
    ensures found { IfSome result (λ parts. name.now ≡ parts.0.now ∷ parts.1) }
    ensures none { IfNone result (name.now ≡ []) }
{
    let above = name.parent()?;
    let label = name.labels().next()?;
    Some((label, above))
}

/// The label of a name next to another name, which it is under. It is empty if the two are one name.
fn label_below<'n>(name: &NameRef<'n>, apex: &NameRef<'_>) -> Option<&'n [u8]>
    ensures found { IfSome result (λ label. label.now ≡ label_below apex.now name.now) }
    ensures under { IfSome result (λ label. under name.now apex.now ≡ true) }
    ensures none { IfNone result (under name.now apex.now ≡ false) }
{
    let mut rest = name.reborrow();
    let mut label: &[u8] = &[];
    'labels: while rest.as_wire().len() > apex.as_wire().len() {
        let Some((first, above)) = split(&rest) else {
            return None;
        };
        label = first;
        rest = above;
    }
    if rest.is(apex) { Some(label) } else { None }
}

/// A number that rises with the order of names: by the first octets of the labels next to the apex.
pub(crate) fn sort_key(name: &NameRef<'_>, apex: &NameRef<'_>) -> u64
    ensures { IsSortKey apex.now name.now result }
{
    match label_below(name, apex) {
        Some(label) => key_of(label),
        None => { if name.cmp(apex).is_lt() { 0 } else { u64::MAX } }
    }
}
