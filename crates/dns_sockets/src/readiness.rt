//! Which connections may have something to read, and which may take what is written, as events reported.
ghost use Rattle.std.specs.Prelude.{◌≡◌, IsTrue, Some};
ghost use Rattle.dns_sockets.specs.Places.{place_number};

use dns_memory::Heap;
use std::cell::Cell;
use std::io::{self, ErrorKind};
use std::rc::Rc;

/// A set of numbers below 128, each a bit. Its contents change through a `&`.
#[derive(Drop)]
struct Bits(Cell<u128>);

impl Bits {
    /// None.
    fn new() -> Bits {
        Bits(Cell::new(0))
    }

    /// Whether this bit is in it.
    fn has(&self, bit: u128) -> bool {
        self.0.get() & bit != 0
    }

    /// Puts this bit into it.
    fn set(&self, bit: u128) {
        self.0.set(self.0.get() | bit);
    }

    /// Takes this bit out of it.
    fn clear(&self, bit: u128) {
        self.0.set(self.0.get() & !bit);
    }
}

/// The bit of a number, if it has one.
fn bit_of(number: usize) -> Option<u128> {
    1_u128.checked_shl(u32::try_from(number).ok()?)
}

/// What may be ready of all connections, each of which has a number. They share it with the one that takes up
/// events.
///
/// The system reports each change once, and keeps it until events are taken up. So a connection of which a
/// read said that it would wait has nothing more to read before its next event; and likewise for a write.
#[derive(Drop)]
pub(crate) struct Readiness {
    /// Those where no read said that it would wait since the last event.
    may_read: Bits,
    /// Those where no write said so.
    may_write: Bits,
}

impl Readiness {
    /// That of no connection.
    pub(crate) fn new() -> Readiness {
        Readiness {
            may_read: Bits::new(),
            may_write: Bits::new(),
        }
    }

    /// Whether on each connection the last read or the last write said that it would wait. One that has
    /// octets to write isn't read, and one that has none isn't written to.
    pub(crate) fn is_still(&self) -> bool {
        self.may_read.0.get() & self.may_write.0.get() == 0
    }

    /// Takes up an event of the connection with this number: it may be ready for both. No event ever says
    /// that a connection isn't ready. The events of a poll are taken up at once, so that each is of a
    /// connection that is still open.
    pub(crate) fn wake(&self, number: usize) {
        if let Some(bit) = bit_of(number) {
            self.may_both(bit);
        }
    }

    /// Lets both a read and a write be tried on the connection with this bit.
    fn may_both(&self, bit: u128) {
        self.may_read.set(bit);
        self.may_write.set(bit);
    }
}

/// What is known of a connection's readiness. It has a number from when it is watched on, and is not ready
/// before.
pub(crate) struct Place {
    readiness: Rc<Readiness, Heap>,
    number: Option<usize>,
}

impl Place {
    /// That of a connection that has no number yet.
    pub(crate) fn new(readiness: Rc<Readiness, Heap>) -> Place {
        Place {
            readiness,
            number: None,
        }
    }

    /// Gives the connection its number. Both a read and a write may find something to do there. It gets none
    /// if there is no bit for it.
    pub(crate) fn put(&mut self, number: usize) -> bool
        ensures { IsTrue result → place_number self.new ≡ Some number }
    {
        let Some(bit) = bit_of(number) else {
            return false;
        };
        self.readiness.may_both(bit);
        self.number = Some(number);
        true
    }

    /// The bit of its number, and none while it has no number.
    fn bit(&self) -> u128 {
        match self.number {
            Some(number) => bit_of(number).unwrap_or(0),
            None => 0,
        }
    }

    /// Whether a read may find something.
    pub(crate) fn may_read(&self) -> bool {
        self.readiness.may_read.has(self.bit())
    }

    /// Whether a write may find room.
    pub(crate) fn may_write(&self) -> bool {
        self.readiness.may_write.has(self.bit())
    }

    /// Notes if a read said that it would wait. Nothing else that a read answers says that there is nothing
    /// more.
    pub(crate) fn note_read(&self, answer: &io::Result<usize>) {
        if would_wait(answer) {
            self.readiness.may_read.clear(self.bit());
        }
    }

    /// Notes if a write said that it would wait. Nothing else that a write answers says that there is no
    /// room.
    pub(crate) fn note_write(&self, answer: &io::Result<usize>) {
        if would_wait(answer) {
            self.readiness.may_write.clear(self.bit());
        }
    }
}

/// Whether a call of the system would have had to wait.
fn would_wait(answer: &io::Result<usize>) -> bool {
    match answer {
        Ok(_) => false,
        Err(error) => error.kind() == ErrorKind::WouldBlock,
    }
}

// A number that is given up is ready for nothing.
impl Drop for Place {
    fn drop(self) {
        let bit = self.bit();
        self.readiness.may_read.clear(bit);
        self.readiness.may_write.clear(bit);
        let Place {
            readiness: _readiness,
            number: _,
        } = self;
    }
}
