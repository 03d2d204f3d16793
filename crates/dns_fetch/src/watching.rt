//! How far a transfer is, for whoever wants to know.

use dns_network::Octets;

/// Is told how many records a transfer brings. No clause speaks of what it does with that.
pub trait Watch {
    /// So many records came in the messages that were read last.
    fn received(&mut self, records: u64);

    /// No more will come.
    fn end(&mut self);
}

/// How many records messages have in their answer sections, ANCOUNT (RFC 1035 section 4.1.1).
pub(crate) fn records_in(messages: &[Octets]) -> u64 {
    let mut records = 0u64;
    for message in messages {
        if message.len() >= 8 {
            let count = u64::from(message[6]) * 256 + u64::from(message[7]);
            records = records.saturating_add(count);
        }
    }
    records
}
