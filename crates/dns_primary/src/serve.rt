//! Requests: what is done with octets that came, by either transport.
ghost use Rattle.std.specs.Prelude.{◌≡◌, false, length};
ghost use Rattle.dns_wire.specs.Message.{header_of};
ghost use Rattle.dns_answer.specs.Answer.{handled};
ghost use Rattle.dns_primary.specs.To.{is_nowhere};
ghost use Rattle.dns_primary.specs.Machine.{Machine, shown_zones};
ghost use Rattle.dns_primary.specs.Step.{request_lacks};
ghost use Rattle.dns_primary.specs.Keeps.{IsKept, HasConnection};
ghost use Rattle.dns_primary.specs.Open.{count_of};
ghost use Rattle.dns_primary.specs.Steps.{HasSameState, IsServedOrLacks, SteppedOn};

use crate::update::UpdateRequest;
use crate::{Effects, Peer, Primary, To};
use dns_answer::{refuse, reply};
use dns_memory::Heap;
use dns_request::{Request, RequestMessage, Transport, classify};
use dns_store::ZoneStore;
use dns_zone::ZoneIndex;

/// The octets of a request's header.
pub(crate) fn header_octets<'a>(request: &RequestMessage<'a>) -> &'a [u8; 12]
    ensures message { header_of result.now ≡ request.now.message.message.header }
    ensures octets { header_of result.now ≡ header_of request.now.message.octets }
{
    let _octets = request.message.octets();
    request.header()
}

impl<I: ZoneIndex, S: ZoneStore> Primary<I, S> {
    /// Lends it octets that nobody reads any longer: the next short reply to a query is written in their
    /// memory. What was lent before and not used is let go.
    #[inline(always)]
    pub fn lend(&mut self, spare: Vec<u8, Heap>)
        ensures state { HasSameState self.old self.new }
        ensures count { count_of self.new ≡ count_of self.old }
    {
        self.spare = spare;
    }

    /// Does with octets that came from a peer what is to be done with them; their reply goes there.
    pub(crate) fn serve(
        &mut self,
        alloc: Heap,
        peer: Peer,
        to: To,
        octets: &[u8],
        transport: Transport,
    ) -> Effects
        requires somewhere { is_nowhere to ≡ false }
        requires there { HasConnection self.old.connections to }
        ensures step { (old : Machine) → IsKept self.old old
            → SteppedOn old (request_lacks old to peer (handled (shown_zones old) octets.now transport))
            self.old self.new result (IsServedOrLacks old peer to octets.now transport) }
        ensures as_many { length self.new.pending.items ≡ length self.old.pending.items }
    {
        match classify(octets, transport) {
            Request::Ignored => Effects::nothing(alloc),
            Request::Refused(header, rcode) => Effects::refusal(alloc, to, header, rcode),
            Request::NotServed(query, rcode) => {
                let header = header_octets(&query);
                Effects::reply(alloc, to, header, refuse(alloc, &query, rcode, transport))
            }
            Request::Query(query) => {
                let header = header_octets(&query);
                let octets = reply(alloc, &mut self.spare, &self.zones, &query, transport);
                Effects::reply(alloc, to, header, octets)
            }
            Request::Update(request) => {
                let header = header_octets(&request);
                let address = peer.address;
                self.update(
                    alloc,
                    &UpdateRequest {
                        to,
                        address,
                        header,
                        request,
                    },
                )
            }
            Request::Transfer(request) => self.transfer(alloc, peer, to, &request),
        }
    }
}
