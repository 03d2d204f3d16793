//! When two paths are one.
ghost use Rattle.std.specs.Prelude.{◌≡◌, IfOk};
ghost use Rattle.dns_configuration.specs.Settings.{is_same_path};

use std::alloc::{AllocError, Global};
use std::path::Path;

/// Whether two paths have the same components once both are joined to `.`, as `a`, `./a` and `.//a` have.
/// What links lead to, and `..`, is not looked at.
pub(crate) fn is_same_path(alloc: Global, path: &str, other: &str) -> Result<bool, AllocError>
    ensures { IfOk result (λ same. same ≡ is_same_path path.now other.now) }
{
    let here = Path::new(".");
    Ok(here.join(alloc, path)? == here.join(alloc, other)?)
}
