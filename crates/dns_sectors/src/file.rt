//! A file as a device needs it: its length, a read and a write at an offset, and a sync.
ghost use Rattle.std.specs.Prelude.{◌≡◌, ◌≤◌, ◌↔◌, ◌*◌, List, ℕ, Result, take, drop, length, IfOk, OnOk};
ghost use Rattle.std.specs.Prelude.{OnErr};
ghost use Rattle.dns_sectors.specs.FileOctets.{padded, written};
ghost use Rattle.dns_sectors.specs.File.{MayChange, FollowsBy, NoMoreOctets, OnlyOctets, Passes};
ghost use Rattle.dns_sectors.specs.declared.file.FileError.{FileError as StatedError};

use crate::Sector;
use thiserror::Error;

/// Why a call of a file was refused.
#[derive(Clone, Copy, Debug, Error, PartialEq, Eq)]
pub enum FileError {
    /// The file failed.
    #[error("the file failed")]
    Failed,
}

/// A file of octets, which nobody else writes.
///
/// A write of 512 octets at a multiple of 512 is there whole or not at all, whatever it answers and whenever
/// a crash comes; so is a change of the length. A sync that succeeds makes all that was changed durable. This
/// is the disk model of a device of sectors, said of octets, so that a device over a file adds nothing to it
/// but arithmetic.
///
/// These facts are about an *honest* file; each clause has that as its premise, so that a call is safe on
/// any. That a real file is honest is assumed wherever a fact about it is used, and is proved nowhere.
pub trait File {
    /// The octets as reads give them.
    ghost seen: { Self → List ℕ };

    /// What a crash at this moment may leave.
    ghost may_leave: { Self → List ℕ → Type 0 };

    /// The moment, as a number that doesn't fall.
    ghost moment: { Self → ℕ };

    /// What a crash at some moment from that one on might have left, during a call or between two.
    ghost left_since: { Self → ℕ → List ℕ → Type 0 };

    /// The file behaves as its model says.
    ghost is_honest: { Self → Type 0 };

    /// It may answer so where it is asked how many octets there are.
    ghost measured: { Self → Result ℕ StatedError → Type 0 };

    /// How many octets there are.
    fn len(&self) -> Result<u64, FileError>
        ensures answer { measured self.now result }
        ensures octets { is_honest self.now → IfOk result (λ len. len ≡ length (seen self.now)) };

    /// Cuts off the octets past this length, or adds zeros up to it. Where it fails the length may be changed
    /// or not.
    fn set_len(&mut self, len: u64) -> Result<(), FileError>
        ensures done { is_honest self.old → OnOk result (seen self.new ≡ padded len (seen self.old)) }
        ensures undone { is_honest self.old
            → OnErr result (MayChange (padded len) (seen self.old) (seen self.new)) }
        ensures crash { is_honest self.old
            → FollowsBy (padded len) (may_leave self.old) (may_leave self.new) }
        ensures time { is_honest self.old
            → Passes (moment self.old) (moment self.new) (left_since self.old) (left_since self.new)
            (may_leave self.new) }
        ensures honest { is_honest self.new ↔ is_honest self.old };

    /// Reads the octets from an offset on, and answers how many came: fewer than 512 at the end, or for no
    /// reason.
    fn read_at(&mut self, offset: u64, into: &mut Sector) -> Result<usize, FileError>
        ensures octets { is_honest self.old
            → IfOk result (λ count. take count into.new ≡ take count (drop offset (seen self.old))) }
        ensures same { is_honest self.old → seen self.new ≡ seen self.old }
        ensures crash { is_honest self.old → NoMoreOctets (may_leave self.old) (may_leave self.new) }
        ensures time { is_honest self.old
            → Passes (moment self.old) (moment self.new) (left_since self.old) (left_since self.new)
            (may_leave self.new) }
        ensures honest { is_honest self.new ↔ is_honest self.old };

    /// Writes octets from an offset on, and answers how many went: fewer than 512 is a write that may be
    /// there or not.
    fn write_at(&mut self, offset: u64, octets: &Sector) -> Result<usize, FileError>
        requires { (i : ℕ) × (offset ≡ 512 * i) }
        ensures whole { is_honest self.old
            → IfOk result (λ count. count ≡ 512 → seen self.new ≡ written offset octets.now (seen self.old)) }
        ensures either { is_honest self.old
            → MayChange (written offset octets.now) (seen self.old) (seen self.new) }
        ensures crash { is_honest self.old
            → FollowsBy (written offset octets.now) (may_leave self.old) (may_leave self.new) }
        ensures time { is_honest self.old
            → Passes (moment self.old) (moment self.new) (left_since self.old) (left_since self.new)
            (may_leave self.new) }
        ensures honest { is_honest self.new ↔ is_honest self.old };

    /// Makes all changes durable: once it has succeeded, a crash leaves what reads give. Where it fails they
    /// are still pending.
    fn sync(&mut self) -> Result<(), FileError>
        ensures durable { is_honest self.old → OnOk result (OnlyOctets (seen self.old) (may_leave self.new)) }
        ensures same { is_honest self.old → seen self.new ≡ seen self.old }
        ensures crash { is_honest self.old → NoMoreOctets (may_leave self.old) (may_leave self.new) }
        ensures time { is_honest self.old
            → Passes (moment self.old) (moment self.new) (left_since self.old) (left_since self.new)
            (may_leave self.new) }
        ensures honest { is_honest self.new ↔ is_honest self.old };

    /// What reads give is one of the outcomes of a crash now.
    ghost seen_may_stay: { (file : Self) → is_honest file → may_leave file (seen file) };

    /// This moment is one of those since an earlier one.
    ghost counts_now: { (file : Self) (t : ℕ) (c : List ℕ) → is_honest file → t ≤ moment file
        → may_leave file c → left_since file t c };

    /// Since this moment there is no other.
    ghost only_now: { (file : Self) (c : List ℕ) → is_honest file → left_since file (moment file) c
        → may_leave file c };
}
