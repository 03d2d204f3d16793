//! The piece at the front of octets.
ghost use Rattle.std.specs.Prelude.{◌≡◌, ◌<◌, ◌≤◌, [], ◌∷◌, length, MatchOption};
ghost use Rattle.dns_masterfile.specs.Pieces.{AfterReturn, InQuotes, InWord, pieces_from};
ghost use Rattle.dns_masterfile.specs.Pieces.{pieces_of};
ghost use Rattle.dns_masterfile.specs.Scan.{stated_piece};

use crate::comments::comment_len;
use crate::kind::{Kind, kind_of};
use crate::words::{bare_len, quoted_len};

/// A word as it is written, `\` and what follows it included.
#[derive(Clone, Copy, Drop)]
pub(crate) enum Word<'a> {
    Bare(&'a [u8]),
    /// Between quotes, which are left out.
    Quoted(&'a [u8]),
}

/// What is at one position of a file.
#[derive(Clone, Copy, Drop)]
pub(crate) enum Piece<'a> {
    /// A blank or a tab.
    Gap,
    Comment,
    LineEnd,
    Opening,
    Closing,
    Text(Word<'a>),
    /// What may not occur there.
    Fault,
}

/// A line end of which the return is read.
fn split_return(octets: &[u8]) -> (Piece<'_>, &[u8])
    ensures piece { pieces_from AfterReturn octets.now ≡ stated_piece result.0 ∷ pieces_of result.1.now }
    ensures within { length result.1.now ≤ length octets.now }
{
    match octets.split_first() {
        Some((b'\n', behind)) => (Piece::LineEnd, behind),
        _ => (Piece::Fault, &[]),
    }
}

/// A quoted string of which the first quote is read.
fn split_quoted(octets: &[u8]) -> (Piece<'_>, &[u8])
    ensures piece { pieces_from InQuotes octets.now ≡ stated_piece result.0 ∷ pieces_of result.1.now }
    ensures within { length result.1.now ≤ length octets.now }
{
    match quoted_len(octets) {
        Some(len) => (
            Piece::Text(Word::Quoted(&octets[..len])),
            &octets[len + 1..],
        ),
        None => (Piece::Fault, &[]),
    }
}

/// A bare word.
fn split_bare(octets: &[u8]) -> (Piece<'_>, &[u8])
    requires some { 0 < length octets.now }
    requires word { pieces_of octets.now ≡ pieces_from InWord octets.now }
    ensures piece { pieces_of octets.now ≡ stated_piece result.0 ∷ pieces_of result.1.now }
    ensures within { length result.1.now < length octets.now }
{
    match bare_len(octets) {
        Some(len) => (Piece::Text(Word::Bare(&octets[..len])), &octets[len..]),
        None => (Piece::Fault, &[]),
    }
}

/// The piece at the front, and the octets after it.
pub(crate) fn split_piece(octets: &[u8]) -> Option<(Piece<'_>, &[u8])>
    ensures { MatchOption result (pieces_of octets.now ≡ [])
        (λ r. (pieces_of octets.now ≡ stated_piece r.0 ∷ pieces_of r.1.now)
        × (length r.1.now < length octets.now)) }
{
    let (first, behind) = octets.split_first()?;
    match kind_of(*first) {
        Kind::LineFeed => Some((Piece::LineEnd, behind)),
        Kind::Return => Some(split_return(behind)),
        Kind::Control => Some((Piece::Fault, &[])),
        Kind::Blank => Some((Piece::Gap, behind)),
        Kind::Semicolon => Some((Piece::Comment, &behind[comment_len(behind)..])),
        Kind::Quote => Some(split_quoted(behind)),
        Kind::Opening => Some((Piece::Opening, behind)),
        Kind::Closing => Some((Piece::Closing, behind)),
        Kind::Backslash | Kind::Plain => Some(split_bare(octets)),
    }
}
