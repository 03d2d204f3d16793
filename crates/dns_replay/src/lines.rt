//! Lines and words of a script.
ghost use Rattle.std.specs.Prelude.{◌≡◌, ◌≢◌, ◌==◌, ◌<◌, ◌≤◌, ℕ, List, [], ◌∷◌, length, position};
ghost use Rattle.std.specs.Prelude.{MatchOption};
ghost use Rattle.std.specs.Option.{option_copied};
ghost use Rattle.std.specs.Str.Lines.{strip_carriage_return};
ghost use Rattle.std.specs.List.{after_first, before_first, slice_split};
ghost use Rattle.dns_replay.specs.Lines.{IsPartedAt, is_blank, lines, lines_left, pieces_left, room, words};

/// A space or a tab.
fn is_blank(octet: u8) -> bool
    ensures { result ≡ is_blank octet }
{
    octet == b' ' || octet == b'\t'
}

/// Where the first blank is.
fn first_blank(text: &[u8]) -> Option<usize>
    ensures { result ≡ position is_blank text.now }
{
    text.iter().position(|octet| is_blank(*octet))
}

/// What comes before the first blank, and after it.
fn cut_at_blank(text: &[u8]) -> (&[u8], &[u8])
    ensures parts { MatchOption (position is_blank text.now) ((result.0.now ≡ text.now) × (result.1.now ≡ []))
        (λ _. (result.0.now ≡ before_first is_blank text.now)
        × (result.1.now ≡ after_first is_blank text.now)) }
    ensures shorter { 0 < length text.now → length result.1.now < length text.now }
{
    match first_blank(text) {
        Some(end) => (&text[..end], &text[end + 1..]),
        None => (text, &[]),
    }
}

/// The first word of a text, and what follows it.
pub(crate) fn first_word(text: &[u8]) -> Option<(&[u8], &[u8])>
    ensures { MatchOption result (words text.now ≡ []) (λ w. words text.now ≡ w.0.now ∷ words w.1.now) }
{
    let mut rest = text;
    'blanks: while !rest.is_empty() {
        let (word, after) = cut_at_blank(rest);
        if !word.is_empty() {
            return Some((word, after));
        }
        rest = after;
    }
    None
}

/// The only word of a text.
pub(crate) fn only_word(text: &[u8]) -> Option<&[u8]>
    ensures { MatchOption result ((w : List ℕ) → words text.now ≢ w ∷ []) (λ w. words text.now ≡ w.now ∷ []) }
{
    let (word, after) = first_word(text)?;
    if first_word(after).is_some() {
        return None;
    }
    Some(word)
}

/// The two words of a text.
pub(crate) fn two_words(text: &[u8]) -> Option<(&[u8], &[u8])>
    ensures { MatchOption result ((v w : List ℕ) → words text.now ≢ v ∷ w ∷ [])
        (λ r. words text.now ≡ r.0.now ∷ r.1.now ∷ []) }
{
    let (first, after) = first_word(text)?;
    let second = only_word(after)?;
    Some((first, second))
}

/// Where the first octet of that value is.
fn first_at(text: &[u8], octet: u8) -> Option<usize>
    ensures { result ≡ position (λ c. c == octet) text.now }
{
    text.iter().position(|c| *c == octet)
}

/// What comes before it, and after it if there is one.
fn parted_at(text: &[u8], octet: u8) -> (&[u8], Option<&[u8]>)
    ensures { IsPartedAt (λ c. c == octet) text.now result.0.now (option_copied result.1) }
{
    match first_at(text, octet) {
        Some(end) => (&text[..end], Some(&text[end + 1..])),
        None => (text, None),
    }
}

/// What comes before the first octet of that value, and after it if there is one.
pub(crate) fn cut_at(text: &[u8], octet: u8) -> (&[u8], Option<&[u8]>)
    ensures parts { IsPartedAt (λ c. c == octet) text.now result.0.now (option_copied result.1) }
    ensures pieces { slice_split (λ c. c == octet) text.now
        ≡ result.0.now ∷ pieces_left (λ c. c == octet) (option_copied result.1) }
    ensures less { room (option_copied result.1) ≤ length text.now }
{
    let (front, after) = parted_at(text, octet);
    (front, after)
}

/// A line without the carriage return at its end, if it has one.
fn without_return(line: &[u8]) -> &[u8]
    ensures { result.now ≡ strip_carriage_return line.now }
{
    match line.split_last() {
        Some((b'\r', front)) => front,
        _ => line,
    }
}

/// The first line of a script, without what ends it, and what follows it if a line feed does. A line ends
/// with LF or CR LF.
pub fn split_line(script: &[u8]) -> (&[u8], Option<&[u8]>)
    ensures line { lines script.now ≡ result.0.now ∷ lines_left (option_copied result.1) }
    ensures less { room (option_copied result.1) ≤ length script.now }
{
    let (line, after) = cut_at(script, b'\n');
    (without_return(line), after)
}
