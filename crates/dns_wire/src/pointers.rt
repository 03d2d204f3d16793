//! Chains of compression pointers: where each ends is kept, so that a pointer is followed once, however many
//! names lead to it (RFC 1035 section 4.1.4).
ghost use Rattle.std.specs.Prelude.{◌≡◌, ℕ, ◌+◌, ◌≤◌, length, get_or};
ghost use Rattle.dns_names.specs.Name.{Labels};
ghost use Rattle.dns_wire.specs.NameAt.{NameAt};
ghost use Rattle.dns_wire.specs.Pointers.{PointsTo, LeadsBack, AreEnds};

use crate::fields::number;
use crate::name::POINTER_BITS;

/// A pointer's other 14 bits are less than this.
const TARGETS: u16 = 16384;

/// The end that is kept for an offset, or 0 if none is.
#[inline(always)]
fn end_at(ends: &[u16], at: usize) -> usize
    ensures { result ≡ get_or ends.now at 0 }
{
    if at < ends.len() {
        return ends[at] as usize;
    }
    0
}

/// The offset of the labels or the root that the pointers from an offset on lead to, over the ends that are
/// kept.
fn pointers_end(message: &[u8], at: usize, ends: &[u16]) -> usize
    requires name { (name : Labels) × (stop : ℕ) × NameAt message.now at name stop }
    requires inside { at + 2 ≤ length message.now }
    requires known { AreEnds message.now ends.now }
    ensures { LeadsBack message.now at result }
{
    let mut run = at;
    'pointers: loop {
        let pointer = number(message, run);
        if pointer < POINTER_BITS {
            return run;
        }
        let known = end_at(ends, run);
        if known > 0 {
            return known;
        }
        run = (pointer % TARGETS) as usize;
    }
}

/// Keeps where the chain of pointers from an offset on ends, for each of its pointers up to the first for
/// which it is kept.
fn keep_end(message: &[u8], at: usize, end: usize, ends: &mut [u16])
    requires name { (name : Labels) × (stop : ℕ) × NameAt message.now at name stop }
    requires inside { at + 2 ≤ length message.now }
    requires leads { PointsTo message.now at end }
    requires few { length ends.old ≤ 16384 }
    requires known { AreEnds message.now ends.old }
    ensures known { AreEnds message.now ends.new }
{
    let mut run = at;
    'pointers: while end < run {
        if end_at(ends, run) > 0 {
            return;
        }
        if run < ends.len() {
            ends[run] = end as u16;
        }
        let pointer = number(message, run);
        if pointer < POINTER_BITS {
            return;
        }
        run = (pointer % TARGETS) as usize;
    }
}

/// The offset of the labels or the root that the pointers from an offset on lead to, one after the other. It
/// is kept where there is room.
pub(crate) fn behind_pointers(message: &[u8], at: usize, ends: &mut [u16]) -> usize
    requires name { (name : Labels) × (stop : ℕ) × NameAt message.now at name stop }
    requires inside { at + 2 ≤ length message.now }
    requires few { length ends.old ≤ 16384 }
    requires known { AreEnds message.now ends.old }
    ensures leads { LeadsBack message.now at result }
    ensures known { AreEnds message.now ends.new }
    ensures size { length ends.new ≡ length ends.old }
{
    let end = pointers_end(message, at, ends);
    keep_end(message, at, end, ends);
    end
}
