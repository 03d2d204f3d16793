//! What a primary keeps.
ghost use Rattle.std.specs.Prelude.{◌≡◌, ◌≤◌, ◌==◌, [], length, not, vec_capacity};
ghost use Rattle.dns_primary.specs.Connections.{most_connections};

use crate::transfers::OpenTransfer;
use crate::{HeaderTo, Peer, Waiting};
use arrayvec::ArrayVec;
use dns_memory::Heap;
use dns_policy::Prefix;
use dns_store::ZoneStore;
use dns_versions::ZoneVersions;
use dns_zone::{Zone, ZoneIndex};
use slab::Slab;

/// What is configured of a zone.
#[derive(Drop)]
pub struct ZoneSpec {
    /// How many sectors there are for a snapshot.
    pub snapshot: u32,
    /// How many sectors there are for a journal.
    pub journal: u32,
    /// How many changes a checkpoint keeps at most.
    pub keep: u32,
    /// From which addresses the zone may be updated.
    pub update: Vec<Prefix, Heap>,
    /// From which addresses the zone may be transferred.
    pub transfer: Vec<Prefix, Heap>,
}

/// All zones as they are shown, what backs each, the pending replies, the connections, and the transfers that
/// are open on them, at most one on each.
#[derive(Drop)]
pub struct Primary<I: ZoneIndex, S: ZoneStore> {
    pub(crate) zones: Vec<Zone<I>, Heap>,
    pub(crate) pending: Vec<ZoneVersions<I, S>, Heap>,
    pub(crate) settings: Vec<ZoneSpec, Heap>,
    pub(crate) waiting: ArrayVec<Waiting, 32>,
    // Empty, with a place for each pending reply: a flush hands it out.
    pub(crate) places: Vec<HeaderTo, Heap>,
    pub(crate) connections: Slab<Peer, Heap>,
    pub(crate) transfers: Vec<OpenTransfer<I>, Heap>,
    // Its memory is that of the next short reply to a query.
    pub(crate) spare: Vec<u8, Heap>,
    ghost as_many: { length zones.items ≡ length pending.items },
    ghost settled: { length zones.items ≡ length settings.items },
    ghost unused: { places.items ≡ [] },
    ghost reserved: { length waiting.items ≤ vec_capacity places },
    // A new number is below the capacity of the slab.
    ghost room: { connections.capacity ≡ most_connections },
}

impl<I: ZoneIndex, S: ZoneStore> Primary<I, S> {
    /// Whether a reply waits for a flush.
    pub fn has_waiting(&self) -> bool
        ensures { result ≡ not (length self.now.waiting.items == 0) }
    {
        !self.waiting.is_empty()
    }
}
