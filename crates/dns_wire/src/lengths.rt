//! How long the names are that pointers lead to: each is walked once, however many pointers lead to it.
ghost use Rattle.std.specs.Prelude.{◌≡◌, ◌≢◌, ℕ, ◌+◌, ◌<◌, ◌≤◌, [], length, get_or, IfOk, IfErr};
ghost use Rattle.dns_names.specs.Name.{Labels, wire};
ghost use Rattle.dns_wire.specs.NameAt.{NameAt, FullNameAt};
ghost use Rattle.dns_wire.specs.Lengths.{IsMeasured, AreLengths, IfRefused, IfFar};
ghost use Rattle.dns_wire.specs.Refusals.{NameRefused, NoName};

use crate::ReadError;
use crate::name::{RunEnd, step};

/// How many offsets a pointer can name (RFC 1035 section 4.1.4).
pub(crate) const TARGETS: usize = 16384;

/// In a message of at most so many octets a pointer can name as many offsets.
pub(crate) const FEW_TARGETS: usize = 1024;

/// Where no lengths are kept a name is followed over at most so many pointers after its first.
const MOST_HOPS: u8 = 3;

/// Where no lengths are kept the names that pointers lead to have at most so many octets.
const MOST_OCTETS: usize = 80;

/// Why the end of a name, or of what holds names, is not told.
#[derive(Clone, Copy)]
pub(crate) enum Fault {
    /// It is refused.
    Refused(ReadError),
    /// A pointer leads to a name that is not followed without lengths.
    Far,
}

impl From<ReadError> for Fault {
    ghost use Rattle.std.specs.Prelude.{◌≡◌};
    ghost use Rattle.dns_wire.specs.declared.lengths.Fault.TheVariants.{Refused};

    ghost from_gives = { λ e f. f ≡ Refused e };

    fn from(e: ReadError) -> Fault {
        Fault::Refused(e)
    }
}

/// The length at an offset, or 0 where none is kept.
#[inline(always)]
fn length_at(lengths: &[u8], at: usize) -> usize
    ensures { result ≡ get_or lengths.now at 0 }
{
    if at < lengths.len() {
        return lengths[at] as usize;
    }
    0
}

/// How long the name at an offset is, and the last offset behind it whose length is not kept.
fn measured(
    message: &[u8],
    first: usize,
    room: usize,
    lengths: &[u8],
) -> Result<(usize, usize), Fault>
    requires inside { first ≤ length message.now }
    requires room { room ≤ 254 }
    requires known { AreLengths message.now lengths.now }
    ensures found { IfOk result (λ r. IsMeasured message.now first r.0 × (r.0 ≤ room + 1)) }
    ensures refused { IfErr result (IfRefused (λ _.
        (name : Labels) (end : ℕ) → NameAt message.now first name end → length (wire name) ≤ room + 1 → ⊥)) }
    ensures cause { IfErr result (IfRefused (λ e. NameRefused message.now e first room)) }
    ensures fault { IfErr result (IfRefused (λ e. e ≢ ReadError.Short)) }
    ensures far { IfErr result (IfFar (lengths.now ≡ [])) }
{
    let mut run = first;
    let mut last = first;
    let mut size = 0;
    let mut hops = 0u8;
    'runs: loop {
        let known = length_at(lengths, run);
        if known > 0 {
            if room + 1 < size + known {
                return Err(Fault::Refused(ReadError::NameTooLong));
            }
            return Ok((size + known, last));
        }
        match step(message, run, room - size)? {
            RunEnd::Root { stop } => return Ok((size + (stop - run) + 1, run)),
            RunEnd::Pointer { stop, target } => {
                if lengths.is_empty() && hops == MOST_HOPS {
                    return Err(Fault::Far);
                }
                hops = hops.saturating_add(1);
                size += stop - run;
                last = run;
                run = target;
            }
        }
    }
}

/// Keeps the lengths of the name at an offset, and of those behind it up to another offset.
fn keep_lengths(message: &[u8], first: usize, last: usize, size: usize, lengths: &mut [u8])
    requires inside { first ≤ length message.now }
    requires name { IsMeasured message.now first size }
    requires short { size ≤ 255 }
    requires known { AreLengths message.now lengths.old }
    ensures known { AreLengths message.now lengths.new }
{
    let mut run = first;
    let mut left = size;
    'targets: loop {
        if run < lengths.len() {
            lengths[run] = left as u8;
        }
        if run == last {
            return;
        }
        let Ok(RunEnd::Pointer { stop, target }) = step(message, run, 254) else {
            return;
        };
        left -= stop - run;
        run = target;
    }
}

/// Tests the name that a pointer leads to. Where lengths are kept, they tell of each name that is walked.
/// It is not compiled into `end_over`, which is quicker without it where no pointer is.
#[inline(never)]
fn target_end(message: &[u8], target: usize, room: usize, lengths: &mut [u8]) -> Result<(), Fault>
    requires inside { target ≤ length message.now }
    requires room { room ≤ 254 }
    requires known { AreLengths message.now lengths.old }
    ensures found { IfOk result (λ _. (name : Labels) × (end : ℕ) × NameAt message.now target name end
        × (length (wire name) ≤ room + 1)) }
    ensures refused { IfErr result (IfRefused (λ _.
        (name : Labels) (end : ℕ) → NameAt message.now target name end → length (wire name) ≤ room + 1 → ⊥)) }
    ensures cause { IfErr result (IfRefused (λ e. NameRefused message.now e target room)) }
    ensures fault { IfErr result (IfRefused (λ e. e ≢ ReadError.Short)) }
    ensures far { IfErr result (IfFar (lengths.old ≡ [])) }
    ensures known { AreLengths message.now lengths.new }
    ensures size { length lengths.new ≡ length lengths.old }
{
    let (size, last) = measured(message, target, room, lengths)?;
    if lengths.is_empty() {
        if MOST_OCTETS < size {
            return Err(Fault::Far);
        }
        return Ok(());
    }
    keep_lengths(message, target, last, size, lengths);
    Ok(())
}

/// Where the field of the name at an offset ends, over the lengths that are kept: where there is no room for
/// any, a name that is too far is not followed.
pub(crate) fn end_over(message: &[u8], at: usize, lengths: &mut [u8]) -> Result<usize, Fault>
    requires at { at ≤ length message.now }
    requires known { AreLengths message.now lengths.old }
    ensures found { IfOk result (λ end. (name : Labels) × FullNameAt message.now at name end) }
    ensures refused { IfErr result (IfRefused (λ _.
        (name : Labels) (end : ℕ) → FullNameAt message.now at name end → ⊥)) }
    ensures cause { IfErr result (IfRefused (NoName message.now at)) }
    ensures inside { IfOk result (λ end. (at < end) × (end ≤ length message.now)) }
    ensures fault { IfErr result (IfRefused (λ e. e ≢ ReadError.Short)) }
    ensures far { IfErr result (IfFar (lengths.old ≡ [])) }
    ensures known { AreLengths message.now lengths.new }
    ensures size { length lengths.new ≡ length lengths.old }
{
    match step(message, at, 254)? {
        RunEnd::Root { stop } => Ok(stop + 1),
        RunEnd::Pointer { stop, target } => {
            target_end(message, target, 254 - (stop - at), lengths)?;
            Ok(stop + 2)
        }
    }
}
