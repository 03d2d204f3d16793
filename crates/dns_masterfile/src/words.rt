//! Words of a master file.
ghost use Rattle.std.specs.Prelude.{◌≡◌, ◌+◌, ◌<◌, ◌≤◌, [], ◌∷◌, length, take, drop, true};
ghost use Rattle.std.specs.Prelude.{IfSome, MatchOption};
ghost use Rattle.dns_masterfile.specs.declared.kind.Kind.TheVariants.{Plain};
ghost use Rattle.dns_masterfile.specs.Kinds.{kind};
ghost use Rattle.dns_masterfile.specs.Pieces.{InWord, InQuotes, Fault, Text, Bare, Quoted, pieces_from};
ghost use Rattle.dns_masterfile.specs.Pieces.{pieces_of};
ghost use Rattle.dns_masterfile.specs.Steps.{IsEscape, IsQuotedStep, IsWordStep, escape_takes};

use crate::kind::{Kind, kind_of};

/// What is next in a word.
#[derive(Clone, Copy, Debug, PartialEq, Eq)]
pub(crate) enum Step {
    /// So many octets of the word.
    Take(usize),
    /// The end of the word.
    End,
    /// An octet that may not occur here.
    Stop,
}

/// How many octets after a `\` belong to it, by the kind of the first: none at a line end, one otherwise, and
/// no answer where it may not occur there.
fn takes(kind: Kind) -> Option<usize>
    ensures { result ≡ escape_takes kind }
{
    match kind {
        Kind::LineFeed | Kind::Return => Some(0),
        Kind::Control => None,
        _ => Some(1),
    }
}

/// How many octets after a `\` in a bare word belong to it, unless the first may not occur there.
fn escaped_len(rest: &[u8]) -> Option<usize>
    ensures { IsEscape rest.now result }
{
    match rest.split_first() {
        None => Some(0),
        Some((first, _)) => takes(kind_of(*first)),
    }
}

/// Whether the octet is a digit, a letter in lower case or one of `-./:`, as most octets of words are. Each
/// of these is plain.
fn is_usual(octet: u8) -> bool
    ensures { result ≡ true → kind octet ≡ Plain }
{
    matches!(octet, b'-'..=b':' | b'a'..=b'z')
}

/// What is next in a bare word, whatever it is.
fn any_step(rest: &[u8]) -> Step
    ensures { IsWordStep rest.now result }
{
    let Some((first, behind)) = rest.split_first() else {
        return Step::End;
    };
    match kind_of(*first) {
        Kind::Plain => Step::Take(1),
        Kind::Backslash => match escaped_len(behind) {
            Some(len) => Step::Take(len + 1),
            None => Step::Stop,
        },
        Kind::Control => Step::Stop,
        Kind::Return => match behind.first() {
            Some(b'\n') => Step::End,
            _ => Step::Stop,
        },
        Kind::LineFeed => Step::End,
        Kind::Blank => Step::End,
        Kind::Semicolon => Step::End,
        Kind::Quote => Step::End,
        Kind::Opening => Step::End,
        Kind::Closing => Step::End,
    }
}

/// What is next in a bare word. Most often it is an octet of the word, which is told at once.
fn word_step(rest: &[u8]) -> Step
    ensures { IsWordStep rest.now result }
{
    let Some((first, _)) = rest.split_first() else {
        return Step::End;
    };
    if is_usual(*first) {
        return Step::Take(1);
    }
    any_step(rest)
}

/// How many octets the bare word at the front has, unless one in it or right after it may not occur there.
pub(crate) fn bare_len(octets: &[u8]) -> Option<usize>
    ensures within { IfSome result (λ n. n ≤ length octets.now) }
    ensures word { MatchOption result (pieces_from InWord octets.now ≡ Fault ∷ [])
        (λ n. pieces_from InWord octets.now
        ≡ Text (Bare (take n octets.now)) ∷ pieces_of (drop n octets.now)) }
{
    let mut len = 0;
    'steps: loop {
        match word_step(&octets[len..]) {
            Step::Take(more) => len += more,
            Step::End => return Some(len),
            Step::Stop => return None,
        }
    }
}

/// What is next in a quoted string.
fn quoted_step(rest: &[u8]) -> Step
    ensures { IsQuotedStep rest.now result }
{
    let Some((first, behind)) = rest.split_first() else {
        return Step::Stop;
    };
    match kind_of(*first) {
        Kind::Quote => Step::End,
        Kind::Backslash => match behind.split_first() {
            None => Step::Stop,
            Some((second, _)) => match kind_of(*second) {
                Kind::LineFeed | Kind::Return | Kind::Control => Step::Stop,
                _ => Step::Take(2),
            },
        },
        Kind::LineFeed | Kind::Return | Kind::Control => Step::Stop,
        _ => Step::Take(1),
    }
}

/// How many octets precede the quote that ends the string at the front, if one does.
pub(crate) fn quoted_len(octets: &[u8]) -> Option<usize>
    ensures within { IfSome result (λ n. n < length octets.now) }
    ensures string { MatchOption result (pieces_from InQuotes octets.now ≡ Fault ∷ [])
        (λ n. pieces_from InQuotes octets.now
        ≡ Text (Quoted (take n octets.now)) ∷ pieces_of (drop (n + 1) octets.now)) }
{
    let mut len = 0;
    'steps: loop {
        match quoted_step(&octets[len..]) {
            Step::Take(more) => len += more,
            Step::End => return Some(len),
            Step::Stop => return None,
        }
    }
}
