//! Letters of a text.
ghost use Rattle.std.specs.Prelude.{◌≡◌, ◌<◌, ◌≢◌, ◌+◌, [], None, length, MatchOption, if◌then◌else◌};
ghost use Rattle.dns_names.specs.Text.{ALetter, AnEscape, letters_from, onto, Itself, Escaped};

/// The octet after a `\`, and the text after that.
fn split_escape(text: &[u8]) -> Option<(u8, &[u8])>
    ensures { MatchOption result (letters_from AnEscape text.now ≡ None)
        (λ r. (letters_from AnEscape text.now ≡ onto (Escaped r.0) (letters_from ALetter r.1.now))
        × (length r.1.now < length text.now)) }
{
    let (first, behind) = text.split_first()?;
    if !first.is_ascii_digit() {
        return Some((*first, behind));
    }
    let (digits, behind) = behind.split_first_chunk::<2>()?;
    if !digits[0].is_ascii_digit() || !digits[1].is_ascii_digit() {
        return None;
    }
    let value = 100 * (*first - b'0') as u16
        + 10 * (digits[0] - b'0') as u16
        + (digits[1] - b'0') as u16;
    if value > 255 {
        return None;
    }
    Some((value as u8, behind))
}

/// The letter at the front of a text: its octet, whether a `\` precedes it, and the text after it.
pub fn split_letter(text: &[u8]) -> Option<(u8, bool, &[u8])>
    requires { text.now ≢ [] }
    ensures { MatchOption result (letters_from ALetter text.now ≡ None)
        (λ r. (letters_from ALetter text.now
        ≡ onto (if r.1 then Escaped r.0 else Itself r.0) (letters_from ALetter r.2.now))
        × (length r.2.now < length text.now)) }
{
    let (first, behind) = text.split_first()?;
    if *first != b'\\' {
        return Some((*first, false, behind));
    }
    let (octet, behind) = split_escape(behind)?;
    Some((octet, true, behind))
}
