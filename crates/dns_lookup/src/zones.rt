//! Which zone answers for a name.
ghost use Rattle.std.specs.Prelude.{◌≡◌, ◌<◌, true, false, None, slice_get, length, IfSome, IfNone};
ghost use Rattle.std.specs.List.{list_any, find};
ghost use Rattle.dns_names.specs.Name.{names_eq};
ghost use Rattle.dns_lookup.specs.Lookup.{zone_of};

use dns_names::NameRef;
use dns_zone::{Zone, ZoneIndex};

/// The index of the first zone of that apex.
fn place_of<I: ZoneIndex>(zones: &[Zone<I>], apex: &NameRef<'_>) -> Option<usize>
    ensures found { IfSome result
        (λ i. slice_get zones.now i ≡ find (λ z. names_eq z.apex apex.now) zones.now) }
    ensures inside { IfSome result (λ i. i < length zones.now) }
    ensures some { IfSome result (λ i. list_any (λ z. names_eq z.apex apex.now) zones.now ≡ true) }
    ensures none { IfNone result (list_any (λ z. names_eq z.apex apex.now) zones.now ≡ false) }
{
    for (i, zone) in zones.iter().enumerate() {
        if zone.apex().lend().is(apex) {
            return Some(i);
        }
    }
    None
}

/// The index of the zone whose apex is the closest ancestor of the name (RFC 1034 section 4.3.2, step 2).
#[inline(always)]
pub fn closest_zone<I: ZoneIndex>(zones: &[Zone<I>], name: &NameRef<'_>) -> Option<usize>
    ensures found { IfSome result (λ i. slice_get zones.now i ≡ zone_of zones.now name.now) }
    ensures inside { IfSome result (λ i. i < length zones.now) }
    ensures none { IfNone result (zone_of zones.now name.now ≡ None) }
{
    let mut here = name.reborrow();
    'ancestors: loop {
        if let Some(i) = place_of(zones, &here) {
            return Some(i);
        }
        match here.parent() {
            Some(above) => here = above,
            None => return None,
        }
    }
}
