//! A message filled with the records that are left of an answer.
ghost use Rattle.std.specs.Prelude.{◌≡◌, [], IfOk};
ghost use Rattle.dns_transfer.specs.Left.{left_at};
ghost use Rattle.dns_transfer.specs.Session.{IsFilled};

use crate::{History, Place, Rest};
use dns_memory::Heap;
use dns_records::Record;
use dns_wire::{MessageBuilder, Pushed, ReplyRecord};
use dns_zone::ZoneIndex;
use std::alloc::AllocError;

/// A record as it goes out: as it is in the zone.
pub(crate) fn as_it_stands(record: &Record) -> ReplyRecord<'_>
    ensures { result ≡ record.now }
{
    ReplyRecord::new(record.owner().lend(), record.ttl(), record)
}

/// Puts the records of an answer from a position on into a message, as many as fit: its octets, and the
/// position after them.
pub(crate) fn fill<'a, I: ZoneIndex>(
    mut message: MessageBuilder<'a>,
    soa: &'a Record,
    index: &'a I,
    history: &'a History,
    position: Place,
) -> Result<(Vec<u8, Heap>, Place), AllocError>
    requires { message.reply.answer ≡ [] }
    ensures { IfOk result
        (λ r. IsFilled message.entry.reply message.entry.limit
        (left_at soa.now (I.records index.now) history.now position) r.0.items
        (left_at soa.now (I.records index.now) history.now r.1)) }
{
    let mut rest = Rest::at(soa, index, history, position);
    let mut behind = position;
    'records: while let Some(record) = rest.next() {
        match message.push(as_it_stands(record))? {
            Pushed::Open(next) => message = next,
            Pushed::Full(octets) => return Ok((octets, behind)),
        }
        behind = rest.position();
    }
    Ok((message.finish(), behind))
}
