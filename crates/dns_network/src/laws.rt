//! What the turns of a server are of the machine.
ghost use Rattle.dns_network.specs.Runs.{TurnsAreRuns};

use crate::{Network, Observer, Stream};
use dns_store::ZoneStore;
use dns_zone::ZoneIndex;

/// Whatever turns are made, any number of them: they are a run of the machine that the primary kept before
/// them, to one that it keeps after them. The run's moments are the events of the turns, in their order, and
/// what goes out in a turn is what goes out in the run.
///
/// So what is said of all runs, as by the laws of `dns_primary`, is said of what a server does. That the code
/// makes such turns is what the clause of `Edge::turn` says.
pub fn turns_law<I: ZoneIndex, D: ZoneStore, S: Stream, N: Network<S>, L: Observer>()
    ensures { TurnsAreRuns I.ZoneIndex D.ZoneStore S.Stream N.Network L.Observer }
{}
