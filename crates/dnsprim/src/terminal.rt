//! What a terminal shows while a zone comes.

use dns_fetch::Watch;
use std::io::IsTerminal;

/// Standard error, which shows how many records have come where it is a terminal, and nothing elsewhere.
#[derive(Drop)]
pub struct Terminal<'a> {
    rt: &'a HostRuntime,
    is_shown: bool,
    records: u64,
}

impl<'a> Terminal<'a> {
    /// Nothing has come yet.
    pub fn new(rt: &'a HostRuntime) -> Terminal<'a> {
        let is_shown = rt.stderr().is_terminal();
        Terminal {
            rt,
            is_shown,
            records: 0,
        }
    }
}

impl Watch for Terminal<'_> {
    fn received(&mut self, records: u64) {
        self.records = self.records.saturating_add(records);
        if !self.is_shown || records == 0 {
            return;
        }
        let rt = self.rt;
        let count = self.records;
        match eprint!(rt; "\r{count} records") {
            Ok(()) => {}
            // A terminal that is gone is told nothing.
            Err(_) => self.is_shown = false,
        }
    }

    fn end(&mut self) {
        if !self.is_shown || self.records == 0 {
            return;
        }
        let rt = self.rt;
        match eprintln!(rt;) {
            Ok(()) => {}
            Err(_) => self.is_shown = false,
        }
    }
}
