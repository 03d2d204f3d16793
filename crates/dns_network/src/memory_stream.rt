//! A stream in memory, for tests.
ghost use Rattle.std.specs.Prelude.{◌≡◌, [], false, true};
ghost use Rattle.dns_network.specs.MemoryStream.{HasAnswered, HasEnded, has_failed, received_by, sent_by};

use crate::{Moved, Octets, Stream};
use dns_memory::Heap;
use std::alloc::AllocError;
use std::cmp::min;

/// A stream in memory, which is always faithful. It keeps a record of what was read from it and of what it
/// took.
pub struct MemoryStream {
    // what the peer wrote and nobody read yet
    waiting: Octets,
    received: Octets,
    sent: Octets,
    // at most so many octets move in a call
    most: usize,
    // which call fails, counted down; nought is none
    fail_at: u64,
    // a call failed
    has_failed: bool,
    // the peer writes no more
    is_closed: bool,
}

// Written out, so that a proof lets one go by one call (docs/GATE.md).
impl Drop for MemoryStream {
    fn drop(self) {
        let MemoryStream {
            waiting,
            received,
            sent,
            most: _,
            fail_at: _,
            has_failed: _,
            is_closed: _,
        } = self;
        drop((waiting, received, sent));
    }
}

impl MemoryStream {
    /// A stream on which nothing came yet.
    pub fn new(alloc: Heap) -> MemoryStream
        ensures received { received_by result ≡ [] }
        ensures sent { sent_by result ≡ [] }
    {
        MemoryStream {
            waiting: Vec::new(alloc),
            received: Vec::new(alloc),
            sent: Vec::new(alloc),
            most: usize::MAX,
            fail_at: 0,
            has_failed: false,
            is_closed: false,
        }
    }

    /// The peer writes these octets.
    pub fn give(&mut self, octets: &[u8]) -> Result<(), AllocError>
        ensures received { received_by self.new ≡ received_by self.old }
        ensures sent { sent_by self.new ≡ sent_by self.old }
    {
        self.waiting.extend_from_slice(octets)
    }

    /// What the stream took so far.
    pub fn sent(&self) -> &[u8]
        ensures { result.now ≡ sent_by self.now }
    {
        &self.sent
    }

    /// From here on at most so many octets move in a call; with nought each call would wait.
    pub fn move_at_most(&mut self, most: usize)
        ensures received { received_by self.new ≡ received_by self.old }
        ensures sent { sent_by self.new ≡ sent_by self.old }
    {
        self.most = most;
    }

    /// The `n`-th read or write from here on fails, once. It replaces an earlier `fail_at`; 0 means none.
    pub fn fail_at(&mut self, n: u64)
        ensures received { received_by self.new ≡ received_by self.old }
        ensures sent { sent_by self.new ≡ sent_by self.old }
    {
        self.fail_at = n;
    }

    /// The peer writes no more.
    pub fn close(&mut self)
        ensures received { received_by self.new ≡ received_by self.old }
        ensures sent { sent_by self.new ≡ sent_by self.old }
    {
        self.is_closed = true;
    }

    // Counts a call, and says whether it fails.
    fn fails(&mut self) -> bool
        ensures received { received_by self.new ≡ received_by self.old }
        ensures sent { sent_by self.new ≡ sent_by self.old }
        ensures failed { result ≡ true → has_failed self.new ≡ true }
        ensures passed { result ≡ false → has_failed self.new ≡ has_failed self.old }
    {
        let fails = self.fail_at == 1;
        self.fail_at = self.fail_at.saturating_sub(1);
        if fails {
            self.has_failed = true;
        }
        fails
    }
}

impl Stream for MemoryStream {
    ghost received = { received_by };

    ghost sent = { sent_by };

    ghost is_faithful = { λ _. Unit {0} };

    ghost has_ended = { HasEnded };

    ghost answers = { HasAnswered };

    fn read(&mut self, into: &mut [u8]) -> Moved {
        if self.fails() {
            return Moved::Ended;
        }
        let count = min(min(into.len(), self.waiting.len()), self.most);
        if count == 0 {
            return match self.is_closed && self.waiting.is_empty() {
                true => Moved::Ended,
                false => Moved::Later,
            };
        }
        into[..count].copy_from_slice(&self.waiting[..count]);
        match self.received.extend_from_slice(&into[..count]) {
            Ok(()) => {
                self.waiting.drain(..count);
                Moved::Octets(count)
            }
            Err(_) => {
                self.has_failed = true;
                Moved::Ended
            }
        }
    }

    fn write(&mut self, octets: &[u8]) -> Moved {
        if self.fails() {
            return Moved::Ended;
        }
        let count = min(octets.len(), self.most);
        if count == 0 {
            return Moved::Later;
        }
        match self.sent.extend_from_slice(&octets[..count]) {
            Ok(()) => Moved::Octets(count),
            Err(_) => {
                self.has_failed = true;
                Moved::Ended
            }
        }
    }
}
