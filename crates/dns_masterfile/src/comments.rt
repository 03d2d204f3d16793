//! Comments of a master file.
ghost use Rattle.std.specs.Prelude.{◌≡◌, ◌<◌, ◌≤◌, length, drop};
ghost use Rattle.std.specs.Bool.{MatchBool};
ghost use Rattle.dns_masterfile.specs.Pieces.{InComment, pieces_from, pieces_of};

use crate::kind::{Kind, kind_of};

/// Whether the first octet belongs to the comment.
fn goes_on(rest: &[u8]) -> bool
    ensures { MatchBool result
        ((0 < length rest.now) × (pieces_from InComment rest.now ≡ pieces_from InComment (drop 1 rest.now)))
        (pieces_from InComment rest.now ≡ pieces_of rest.now) }
{
    let Some((first, _)) = rest.split_first() else {
        return false;
    };
    match kind_of(*first) {
        Kind::LineFeed | Kind::Return | Kind::Control => false,
        _ => true,
    }
}

/// How many octets of the comment are at the front.
pub(crate) fn comment_len(octets: &[u8]) -> usize
    ensures within { result ≤ length octets.now }
    ensures comment { pieces_from InComment octets.now ≡ pieces_of (drop result octets.now) }
{
    let mut len = 0;
    'octets: while goes_on(&octets[len..]) {
        len += 1;
    }
    len
}
