//! The lines of a turn, until they are given out.

use dns_memory::Heap;
use log::{Level, Log, log};
use std::alloc::AllocError;

/// The part of the server that answers requests.
pub(crate) const REQUESTS: &str = "dnsprim::request";

/// The part of the server that has connections.
pub(crate) const CONNECTIONS: &str = "dnsprim::connection";

/// The part of the server that makes checkpoints.
pub(crate) const CHECKPOINTS: &str = "dnsprim::checkpoint";

/// A line: how important it is, which part of the server it is of, and its text.
#[derive(Drop)]
struct Line {
    level: Level,
    target: &'static str,
    text: String<Heap>,
}

/// The lines of a turn. A line for which memory is refused is left out.
#[derive(Drop)]
pub(crate) struct Lines {
    kept: Vec<Line, Heap>,
}

impl Lines {
    /// None yet.
    pub(crate) fn new(heap: Heap) -> Lines {
        Lines {
            kept: Vec::new(heap),
        }
    }

    /// The memory of their texts.
    pub(crate) fn heap(&self) -> Heap {
        *self.kept.allocator()
    }

    /// Forgets all.
    pub(crate) fn clear(&mut self) {
        self.kept.clear();
    }

    /// Keeps a line after the others, if it has a text.
    pub(crate) fn keep(
        &mut self,
        level: Level,
        target: &'static str,
        text: Result<String<Heap>, AllocError>,
    ) {
        if let Ok(text) = text {
            let line = Line {
                level,
                target,
                text,
            };
            let _kept = self.kept.push(line);
        }
    }

    /// Logs each line, in their order.
    pub(crate) fn give_out<R: Log>(&self, rt: &R) {
        for line in &self.kept {
            log!(rt; target: line.target, line.level, "{}", line.text);
        }
    }
}
