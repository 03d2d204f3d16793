//! A name of a message copied as one run of labels in lower case.
ghost use Rattle.std.specs.Prelude.{◌≡◌, ◌+◌, ◌≤◌, ◌++◌, length, map, take, drop, IfOk};
ghost use Rattle.std.specs.Char.{to_ascii_lowercase};
ghost use Rattle.dns_names.specs.Name.{wire};
ghost use Rattle.dns_wire.specs.Pointers.{AreEnds};
ghost use Rattle.dns_wire.specs.Viewed.{labels_at, IsViewed};

use crate::name::{RunEnd, step};
use crate::pointers::behind_pointers;
use dns_memory::Heap;
use dns_names::{Name, NameRef};
use std::alloc::AllocError;

/// Writes octets in lower case over those from an offset on.
fn copy_lower(text: &[u8], out: &mut [u8], at: usize)
    requires { at + length text.now ≤ length out.old }
    ensures { out.new
        ≡ take at out.old ++ map to_ascii_lowercase text.now ++ drop (at + length text.now) out.old }
{
    let field = &mut out[at..at + text.len()];
    field.copy_from_slice(text);
    field.make_ascii_lowercase();
}

/// Writes the plain form of the name at an offset, in lower case, and returns its length. It goes over the
/// ends of pointers that are kept.
pub(crate) fn copy_plain(message: &[u8], at: usize, ends: &mut [u16], out: &mut [u8]) -> usize
    requires there { IsViewed message.now at }
    requires room { 255 ≤ length out.old }
    requires few { length ends.old ≤ 16384 }
    requires known { AreEnds message.now ends.old }
    ensures plain { take result out.new ≡ wire (labels_at message.now at) }
    ensures inside { result ≤ length out.new }
    ensures known { AreEnds message.now ends.new }
    ensures size { length ends.new ≡ length ends.old }
{
    let mut run = at;
    let mut size = 0;
    'runs: loop {
        let Ok(end) = step(message, run, 254 - size) else {
            return 0;
        };
        match end {
            RunEnd::Root { stop } => {
                copy_lower(&message[run..stop + 1], out, size);
                return size + (stop + 1 - run);
            }
            RunEnd::Pointer { stop, target } => {
                copy_lower(&message[run..stop], out, size);
                size += stop - run;
                run = behind_pointers(message, target, ends);
            }
        }
    }
}

/// The name at an offset, in lower case. It goes over the ends of pointers that are kept.
pub(crate) fn copy_name(
    message: &[u8],
    at: usize,
    ends: &mut [u16],
    alloc: Heap,
) -> Result<Name, AllocError>
    requires there { IsViewed message.now at }
    requires few { length ends.old ≤ 16384 }
    requires known { AreEnds message.now ends.old }
    ensures name { IfOk result (λ name. name ≡ labels_at message.now at) }
    ensures known { AreEnds message.now ends.new }
    ensures size { length ends.new ≡ length ends.old }
{
    let mut octets = [0; 255];
    let size = copy_plain(message, at, ends, &mut octets);
    NameRef::over(&octets[..size]).to_name(alloc)
}
