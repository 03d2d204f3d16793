//! The words of an entry that was refused, read once more. What ends them early is kept with its line: an
//! open parenthesis, say, leads far behind the line that is to be mended.
use dns_memory::Heap;
use std::alloc::AllocError;

/// What ends the words of an entry early.
#[derive(Clone, Copy)]
pub(super) enum Flaw {
    /// The parenthesis that opens on a line isn't closed, or not before another opens.
    Open(usize),
    /// A parenthesis on that line closes none.
    Closing(usize),
    /// A quote on that line isn't closed.
    Quote(usize),
    /// That octet, which may not occur, is on that line.
    Octet(u8, usize),
}

/// What an octet belongs to.
#[derive(Clone, Copy)]
enum State {
    Between,
    /// A bare word from that position on.
    Bare(usize),
    /// A quoted word from that position on.
    Quoted(usize),
    Comment,
}

/// The words of an entry, as far as they are read.
#[derive(Drop)]
pub(super) struct Words<'a> {
    /// A file from the entry on.
    octets: &'a [u8],
    state: State,
    /// Whether a `\` precedes.
    escaped: bool,
    /// The line on which a parenthesis opens that isn't closed so far.
    open: Option<usize>,
    line: usize,
    has_ended: bool,
    /// Whether the entry's line begins with a blank.
    pub(super) blank: bool,
    /// The words, without quotes.
    pub(super) texts: Vec<&'a [u8], Heap>,
    pub(super) flaw: Option<Flaw>,
}

/// The octets of a file from the start of a line on, the first being 1.
fn from_line(octets: &[u8], line: usize) -> &[u8] {
    let mut number = 1usize;
    for (position, octet) in octets.iter().enumerate() {
        if number == line {
            return octets.get(position..).unwrap_or(&[]);
        }
        if *octet == b'\n' {
            number = number.saturating_add(1);
        }
    }
    &[]
}

/// Whether the octet ends a bare word.
fn ends_word(octet: u8) -> bool {
    matches!(octet, b' ' | b'\t' | b';' | b'"' | b'(' | b')')
}

impl<'a> Words<'a> {
    /// The words of the entry of a file that begins on a line.
    pub(super) fn at_line(
        heap: Heap,
        file: &'a [u8],
        line: usize,
    ) -> Result<Words<'a>, AllocError> {
        let octets = from_line(file, line);
        let mut words = Words {
            octets,
            state: State::Between,
            escaped: false,
            open: None,
            line,
            has_ended: false,
            blank: matches!(octets.first(), Some(b' ' | b'\t')),
            texts: Vec::new(heap),
            flaw: None,
        };
        for (position, octet) in octets.iter().enumerate() {
            if words.has_ended {
                break;
            }
            words.take(position, *octet)?;
        }
        words.end()?;
        Ok(words)
    }

    /// Reads an octet.
    fn take(&mut self, position: usize, octet: u8) -> Result<(), AllocError> {
        match octet {
            b'\n' => self.end_line(position),
            b'\r' if self.octets.get(position.saturating_add(1)) == Some(&b'\n') => {
                self.end_part(position)
            }
            b'\t' => self.take_text(position, octet),
            0..=31 | 127 => {
                self.stop(Flaw::Octet(octet, self.line));
                Ok(())
            }
            _ => self.take_text(position, octet),
        }
    }

    /// Reads an octet that may be in a word.
    fn take_text(&mut self, position: usize, octet: u8) -> Result<(), AllocError> {
        if self.escaped {
            self.escaped = false;
            return Ok(());
        }
        match self.state {
            State::Comment => {}
            State::Quoted(_) if octet == b'"' => self.end_word(position)?,
            State::Quoted(_) => self.escaped = octet == b'\\',
            State::Bare(_) if !ends_word(octet) => self.escaped = octet == b'\\',
            State::Bare(_) | State::Between => {
                self.end_word(position)?;
                self.begin(position, octet);
            }
        }
        Ok(())
    }

    /// Begins what an octet between words begins.
    fn begin(&mut self, position: usize, octet: u8) {
        match (octet, self.open) {
            (b' ' | b'\t', _) => {}
            (b';', _) => self.state = State::Comment,
            (b'"', _) => self.state = State::Quoted(position.saturating_add(1)),
            (b'(', Some(line)) => self.stop(Flaw::Open(line)),
            (b'(', None) => self.open = Some(self.line),
            (b')', Some(_)) => self.open = None,
            (b')', None) => self.stop(Flaw::Closing(self.line)),
            _ => {
                self.state = State::Bare(position);
                self.escaped = octet == b'\\';
            }
        }
    }

    /// Keeps the word that ends before a position, if there is one.
    fn end_word(&mut self, position: usize) -> Result<(), AllocError> {
        if let State::Bare(start) | State::Quoted(start) = self.state {
            if let Some(text) = self.octets.get(start..position) {
                self.texts.push(text)?;
            }
        }
        self.state = State::Between;
        self.escaped = false;
        Ok(())
    }

    /// Ends what can't go on on another line.
    fn end_part(&mut self, position: usize) -> Result<(), AllocError> {
        if let State::Quoted(_) = self.state {
            self.stop(Flaw::Quote(self.line));
            return Ok(());
        }
        self.end_word(position)
    }

    /// Reads the end of a line, which ends the entry if no parenthesis is open.
    fn end_line(&mut self, position: usize) -> Result<(), AllocError> {
        self.end_part(position)?;
        self.line = self.line.saturating_add(1);
        if self.open.is_none() {
            self.has_ended = true;
        }
        Ok(())
    }

    /// Reads the end of the file, if the entry hasn't ended before.
    fn end(&mut self) -> Result<(), AllocError> {
        if self.has_ended {
            return Ok(());
        }
        self.end_part(self.octets.len())?;
        match (self.flaw, self.open) {
            (None, Some(line)) => self.stop(Flaw::Open(line)),
            _ => self.has_ended = true,
        }
        Ok(())
    }

    /// Stops at what may not be there.
    fn stop(&mut self, flaw: Flaw) {
        self.flaw = Some(flaw);
        self.has_ended = true;
    }

    /// Whether the entry is a directive.
    pub(super) fn is_directive(&self) -> bool {
        match self.texts.first() {
            Some(text) => text.starts_with(b"$"),
            None => false,
        }
    }

    /// The position of the word of the type: after the owner, the TTL and the class.
    pub(super) fn type_place(&self) -> usize {
        let mut position = if self.blank { 0 } else { 1 };
        for _ in 0..2 {
            match self.texts.get(position) {
                Some(text) if is_middle(*text) => position = position.saturating_add(1),
                _ => {}
            }
        }
        position
    }
}

/// Whether the word is a TTL or the class.
fn is_middle(text: &[u8]) -> bool {
    text.eq_ignore_ascii_case(b"IN") || text.iter().all(|octet| octet.is_ascii_digit())
}
