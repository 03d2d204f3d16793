//! What each octet of a master file does.
ghost use Rattle.std.specs.Prelude.{◌≡◌};
ghost use Rattle.dns_masterfile.specs.Kinds.{kind};

/// What an octet does where no `\` precedes it.
#[derive(Clone, Copy, Debug, PartialEq, Eq)]
pub enum Kind {
    LineFeed,
    Return,
    /// Neither in a word nor in a comment.
    Control,
    /// A space or a tab.
    Blank,
    Semicolon,
    Quote,
    Opening,
    Closing,
    Backslash,
    Plain,
}

/// What the octet does.
pub(crate) fn kind_of(octet: u8) -> Kind
    ensures { result ≡ kind octet }
{
    match octet {
        b'\n' => Kind::LineFeed,
        b'\r' => Kind::Return,
        b'\t' | b' ' => Kind::Blank,
        0..=31 | 127 => Kind::Control,
        b'"' => Kind::Quote,
        b'(' => Kind::Opening,
        b')' => Kind::Closing,
        b';' => Kind::Semicolon,
        b'\\' => Kind::Backslash,
        _ => Kind::Plain,
    }
}
