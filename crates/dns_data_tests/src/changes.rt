//! Verdicts on updates, and their changes.
use crate::calls::{Refused, Told, refusal, zone};
use crate::transfers::sent_to;
use dns_changes::{Change, ChangeError};
use dns_memory::Heap;
use dns_update::{Judged, judge};
use dns_wire::Message;
use dns_zone::{RecordList, Zone, ZoneIndex};

/// How many records a set has that a change is applied to. Where memory is refused, the set stays, and the
/// next call applies it.
fn applied(set: &mut RecordList, change: &Change) -> Told {
    let before = set.len();
    match change.apply(set) {
        Ok(()) => Ok(set.len()),
        Err(ChangeError::OutOfMemory) => {
            let is_kept = set.len() == before;
            Err(refusal(is_kept && change.apply(set).is_ok()))
        }
        Err(_) => Err(Refused::Otherwise),
    }
}

/// The change, written and read.
fn read_back(heap: Heap, change: &Change) -> Result<Change, ChangeError> {
    let octets = change.encode(heap)?;
    Change::decode(heap, &octets)
}

/// How many answers the message has in which the change is sent, when it is applied to a copy of the zone.
fn changed(heap: Heap, zone: &Zone<RecordList>, change: &Change) -> Told {
    let mut set = zone.index().fork()?;
    applied(&mut set, &read_back(heap, change)?)?;
    let next = match Zone::from_index(zone.apex().clone()?, set) {
        Ok(next) => next,
        Err(_) => return Err(Refused::Otherwise),
    };
    sent_to(heap, &next, change)
}

/// The same of the change that an update of the zone is.
pub(crate) fn judged(heap: Heap, octets: &[u8]) -> Told {
    let Ok(message) = Message::read(octets) else {
        return Err(Refused::Otherwise);
    };
    let zone = zone(heap)?;
    match judge(heap, &zone, &message)? {
        Judged::Accepted(change, _) => changed(heap, &zone, &change),
        _ => Err(Refused::Otherwise),
    }
}
