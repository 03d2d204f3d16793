//! Names label by label, from the root down, as a tree of names is walked (RFC 1034 section 3.1).
ghost use Rattle.std.specs.Prelude.{◌≡◌, ◌<◌, [], ◌∷◌, drop, length, reverse, IfOk, IfSome, IfNone};
ghost use Rattle.dns_names.specs.Name.{labels_of, wire};
ghost use Rattle.dns_names.specs.Plain.{IsPlain};
ghost use Rattle.dns_zoneindex.specs.Entries.{labels_in};
ghost use Rattle.dns_zoneindex.specs.Starts.{AreStarts};

use dns_memory::Heap;
use dns_names::NameRef;
use dns_zone::split;
use std::alloc::AllocError;

/// The labels of a name from the root down.
pub(crate) fn path_of<'n>(
    alloc: Heap,
    name: &NameRef<'n>,
) -> Result<Vec<&'n [u8], Heap>, AllocError>
    ensures { IfOk result (λ path. labels_in path.items ≡ reverse name.now) }
{
    match split(name) {
        None => Ok(Vec::new(alloc)),
        Some((label, above)) => {
            let mut path = path_of(alloc, &above)?;
            path.push(label)?;
            Ok(path)
        }
    }
}

/// More labels than a name may have.
pub(crate) const MOST_LABELS: usize = 128;

/// How many labels a name has, and where each of them starts in its plain form.
#[inline(always)]
pub(crate) fn starts_of(name: &NameRef<'_>, starts: &mut [u8; MOST_LABELS]) -> usize
    ensures count { result ≡ length name.now }
    ensures few { result < 128 }
    ensures starts { AreStarts name.now starts.new result }
{
    let whole = name.as_wire().len();
    let mut rest = name.reborrow();
    let mut count = 0;
    'labels: while let Some((_, above)) = split(&rest) {
        starts[count] = (whole - rest.as_wire().len()) as u8;
        rest = above;
        count += 1;
    }
    count
}

/// The name whose first label starts at an index of another's plain form.
#[inline(always)]
pub(crate) fn name_from<'n>(name: &NameRef<'n>, start: u8) -> NameRef<'n>
    requires { IsPlain (drop start (wire name.now)) }
    ensures { result ≡ labels_of (drop start (wire name.now)) }
{
    NameRef::over(&name.as_wire()[usize::from(start)..])
}
