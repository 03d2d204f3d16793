//! Names in print.
ghost use Rattle.std.specs.Prelude.{Some};
ghost use Rattle.dns_names.specs.Text.{escaped, printed_octet, printed_label, printed_name};

use crate::{Name, NameRef, labels};
use std::fmt;

/// An octet as `\DDD`: its number in three decimal digits after a `\` (RFC 1035 section 5.1).
#[derive(Drop)]
pub struct EscapedOctet(pub u8);

impl fmt::Display for EscapedOctet {
    ghost output = { λ o. Some (escaped o.0) };

    fn fmt<W: fmt::Write>(&self, f: &mut fmt::Formatter<W>) -> fmt::Result {
        let octet = self.0;
        let hundreds = (b'0' + octet / 100) as char;
        let tens = (b'0' + octet / 10 % 10) as char;
        let ones = (b'0' + octet % 10) as char;
        write!(f, "\\{hundreds}{tens}{ones}")
    }
}

/// An octet of a label: what has a meaning of its own comes after a `\`, and what is no visible ASCII is
/// `\DDD`.
#[derive(Drop)]
struct PrintedOctet(u8);

impl fmt::Display for PrintedOctet {
    ghost output = { λ o. Some (printed_octet o.0) };

    fn fmt<W: fmt::Write>(&self, f: &mut fmt::Formatter<W>) -> fmt::Result {
        let octet = self.0;
        match octet {
            b'.' | b'\\' | b'"' | b'(' | b')' | b';' | b'@' | b'$' => {
                write!(f, "\\{}", octet as char)
            }
            33..=126 => write!(f, "{}", octet as char),
            _ => write!(f, "{}", EscapedOctet(octet)),
        }
    }
}

/// The octets of a label.
#[derive(Drop)]
struct PrintedLabel<'a>(&'a [u8]);

impl fmt::Display for PrintedLabel<'_> {
    ghost output = { λ l. Some (printed_label l.0.now) };

    fn fmt<W: fmt::Write>(&self, f: &mut fmt::Formatter<W>) -> fmt::Result {
        for octet in self.0 {
            write!(f, "{}", PrintedOctet(*octet))?;
        }
        Ok(())
    }
}

impl fmt::Display for NameRef<'_> {
    ghost output = { λ name. Some (printed_name name) };

    /// The name as a master file has it: each label with a dot after it, and a dot alone for the root
    /// (RFC 1035 section 5.1).
    fn fmt<W: fmt::Write>(&self, f: &mut fmt::Formatter<W>) -> fmt::Result {
        let mut rest = self.as_wire();
        if rest.len() < 2 {
            return write!(f, ".");
        }
        'labels: while rest.len() > 1 {
            let (label, behind) = labels::split_first(rest);
            write!(f, "{}.", PrintedLabel(label))?;
            rest = behind;
        }
        Ok(())
    }
}

impl fmt::Display for Name {
    ghost output = { λ name. Some (printed_name name) };

    fn fmt<W: fmt::Write>(&self, f: &mut fmt::Formatter<W>) -> fmt::Result {
        write!(f, "{}", self.lend())
    }
}

impl fmt::Debug for NameRef<'_> {
    ghost debug_output = { λ name. Some (printed_name name) };

    fn fmt<W: fmt::Write>(&self, f: &mut fmt::Formatter<W>) -> fmt::Result {
        write!(f, "{}", self)
    }
}

impl fmt::Debug for Name {
    ghost debug_output = { λ name. Some (printed_name name) };

    fn fmt<W: fmt::Write>(&self, f: &mut fmt::Formatter<W>) -> fmt::Result {
        write!(f, "{}", self.lend())
    }
}
