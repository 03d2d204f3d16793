//! A file from one position on.
ghost use Rattle.std.specs.Prelude.{◌≡◌, ◌≢◌, [], ◌∷◌, true};
ghost use Rattle.std.specs.Bool.{MatchBool};
ghost use Rattle.dns_masterfile.specs.declared.kind.Kind.TheVariants.{Blank};
ghost use Rattle.dns_masterfile.specs.Kinds.{kind};
ghost use Rattle.dns_masterfile.specs.Pieces.{pieces_of};
ghost use Rattle.dns_masterfile.specs.Entries.{begun, entries_of};
ghost use Rattle.dns_masterfile.specs.Left.{entry_at};

use crate::kind::{Kind, kind_of};
use crate::pieces::{Piece, Word, split_piece};
use std::marker::Model;

/// How an entry begins.
#[derive(Clone, Copy, Drop)]
pub(crate) struct Start {
    /// The line on which it begins, the first line being 1.
    pub(crate) line: usize,
    /// Whether its line begins with a blank.
    pub(crate) blank: bool,
}

/// What is left of a file after the words read so far.
#[derive(Drop)]
pub(crate) struct Scanner<'a> {
    rest: &'a [u8],
    /// Whether parentheses are open.
    inside: bool,
    line: usize,
}

impl<'a> Model for Scanner<'a> {
    ghost use Rattle.std.specs.Prelude.{◌+◌, ◌≤◌, ◌^◌, length};
    ghost use Rattle.dns_masterfile.specs.Pieces.{pieces_of};
    ghost use Rattle.dns_masterfile.specs.Left.{Left, left_from};

    ghost Value = { Left };

    ghost view = { λ s. left_from s.inside s.line (pieces_of s.rest.now) };

    ghost invariant = { λ s. s.line + length s.rest.now ≤ 2 ^ 63 };
}

/// What comes next in a file, and the file after it.
#[derive(Drop)]
pub(crate) enum Next<'a> {
    /// A word of the entry.
    Word(Word<'a>, Scanner<'a>),
    /// The end of the entry, and the start of another.
    Entry(Start, Scanner<'a>),
    /// The end of the entry and of the file.
    End,
    /// What may not occur there.
    Fault,
}

/// Whether the octet is a blank or a tab.
fn is_blank(octet: u8) -> bool
    ensures { MatchBool result (kind octet ≡ Blank) (kind octet ≢ Blank) }
{
    match kind_of(octet) {
        Kind::Blank => true,
        _ => false,
    }
}

/// How the entry at the front begins: no more than its first octet is looked at.
fn start_at(octets: &[u8], line: usize) -> Start
    ensures line { result.line ≡ line }
    ensures begun { begun line (pieces_of octets.now)
        ≡ record { line = line; blank = result.blank; words = []; whole = true } }
{
    let blank = match octets.split_first() {
        Some((first, _)) => is_blank(*first),
        None => false,
    };
    Start { line, blank }
}

impl<'a> Scanner<'a> {
    ghost use Rattle.dns_masterfile.specs.Next.{IsNext};

    /// A file from its start on: how its first entry begins, and what is left of it.
    pub(crate) fn first(octets: &'a [u8]) -> (Start, Scanner<'a>)
        ensures { entries_of (pieces_of octets.now)
            ≡ entry_at result.0.line result.0.blank result.1 ∷ result.1.behind }
    {
        let scanner = Scanner {
            rest: octets,
            inside: false,
            line: 1,
        };
        (start_at(octets, 1), scanner)
    }

    /// The same once more.
    pub(crate) fn reborrow(&self) -> Scanner<'a> {
        Scanner {
            rest: self.rest,
            inside: self.inside,
            line: self.line,
        }
    }

    /// How many octets are left.
    pub(crate) fn left(&self) -> usize {
        self.rest.len()
    }

    /// What comes next.
    pub(crate) fn next(&self) -> Next<'a>
        ensures { IsNext self.now result }
    {
        let mut rest = self.rest;
        let mut inside = self.inside;
        let mut line = self.line;
        'pieces: while let Some((piece, behind)) = split_piece(rest) {
            match piece {
                Piece::Gap | Piece::Comment => {}
                Piece::Opening if !inside => inside = true,
                Piece::Closing if inside => inside = false,
                Piece::LineEnd if inside => line += 1,
                Piece::LineEnd => {
                    line += 1;
                    let scanner = Scanner {
                        rest: behind,
                        inside,
                        line,
                    };
                    return Next::Entry(start_at(behind, line), scanner);
                }
                Piece::Text(word) => {
                    let scanner = Scanner {
                        rest: behind,
                        inside,
                        line,
                    };
                    return Next::Word(word, scanner);
                }
                _ => return Next::Fault,
            }
            rest = behind;
        }
        if inside { Next::Fault } else { Next::End }
    }
}
