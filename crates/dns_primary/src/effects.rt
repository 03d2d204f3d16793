//! How effects are put together.
ghost use Rattle.std.specs.Prelude.{◌≡◌, ◌∷◌, ◌++◌, [], None, false, IfOk, IfErr};
ghost use Rattle.dns_wire.specs.Message.{header_of};
ghost use Rattle.dns_wire.specs.Codes.{number_of_rcode};
ghost use Rattle.dns_wire.specs.Text.{text};
ghost use Rattle.dns_answer.specs.Answer.{bare_reply};
ghost use Rattle.dns_primary.specs.To.{is_nowhere};
ghost use Rattle.dns_primary.specs.Flush.{Replied};
ghost use Rattle.dns_primary.specs.Step.{Effects as Stated};
ghost use Rattle.dns_primary.specs.Keeps.{AreEffects};
ghost use Rattle.dns_primary.specs.Queue.{asked_of};
ghost use Rattle.dns_primary.specs.Steps.{answered_with, lack_reply, nothing, one_reply};

use crate::update::{Outcome, UpdateRequest};
use crate::{Effects, Noted, Reply, ReplyOctets, To};
use dns_answer::header_only;
use dns_memory::Heap;
use dns_wire::Rcode;
use std::alloc::AllocError;

impl Effects {
    /// The octets of the longer reply, or none: once it is sent, they can be lent to the primary.
    #[inline(always)]
    pub fn into_octets(mut self, alloc: Heap) -> Vec<u8, Heap> {
        match self.message.take() {
            Some(
                Reply {
                    octets: ReplyOctets::Longer(octets),
                    ..
                },
            ) => octets,
            _ => Vec::new(alloc),
        }
    }

    /// Nothing goes out, and nothing is to be known.
    pub(crate) fn nothing(alloc: Heap) -> Effects
        ensures effects_are { AreEffects nothing result }
        ensures bare { result.message ≡ None }
    {
        Effects {
            headers: Vec::new(alloc),
            message: None,
            accepted: None,
            noted: Noted::Nothing,
        }
    }

    /// One reply more, a header alone.
    pub(crate) fn with_header(mut self, to: To, octets: [u8; 12]) -> Effects
        requires bare { self.message ≡ None }
        requires somewhere { is_nowhere to ≡ false }
        ensures effects_are { (stated : Stated)
            → AreEffects stated self
            → AreEffects (record stated { sent = stated.sent ++ Replied to octets ∷ [] }) result }
    {
        self.message = Some(Reply {
            to,
            octets: ReplyOctets::Header(octets),
        });
        self
    }

    /// One reply alone, the header of a request with a response code.
    pub(crate) fn refusal(alloc: Heap, to: To, header: &[u8; 12], rcode: Rcode) -> Effects
        requires { is_nowhere to ≡ false }
        ensures { AreEffects (one_reply
            (Replied to (text (bare_reply (header_of header.now) (number_of_rcode rcode))))) result }
    {
        Effects::nothing(alloc).with_header(to, header_only(header, rcode))
    }

    /// SERVFAIL for want of memory, the header of a request alone.
    pub(crate) fn out_of_memory(alloc: Heap, to: To, header: &[u8; 12]) -> Effects
        requires { is_nowhere to ≡ false }
        ensures { AreEffects (lack_reply to (header_of header.now)) result }
    {
        let mut effects = Effects::refusal(alloc, to, header, Rcode::ServFail);
        effects.noted = Noted::OutOfMemory;
        effects
    }

    /// The reply to a request, or SERVFAIL where memory was refused.
    pub(crate) fn reply(
        alloc: Heap,
        to: To,
        header: &[u8; 12],
        reply: Result<Vec<u8, Heap>, AllocError>,
    ) -> Effects
        requires { is_nowhere to ≡ false }
        ensures sent { IfOk reply.entry (λ octets. AreEffects (one_reply (Replied to octets.items)) result) }
        ensures failed { IfErr reply.entry (λ _. AreEffects (lack_reply to (header_of header.now)) result) }
    {
        match reply {
            Ok(octets) => Effects {
                headers: Vec::new(alloc),
                message: Some(Reply {
                    to,
                    octets: ReplyOctets::Longer(octets),
                }),
                accepted: None,
                noted: Noted::Nothing,
            },
            Err(_) => Effects::out_of_memory(alloc, to, header),
        }
    }

    /// What becomes of an update, after what goes out before.
    pub(crate) fn with_outcome(self, update: &UpdateRequest<'_>, outcome: Outcome) -> Effects
        requires bare { self.message ≡ None }
        requires somewhere { is_nowhere update.now.to ≡ false }
        requires header { header_of update.now.header.now ≡ update.now.request.message.message.header }
        ensures { (stated : Stated)
            → AreEffects stated self
            → AreEffects (answered_with stated (asked_of update.now) outcome) result }
    {
        match outcome {
            Outcome::Waits(_) => return self,
            Outcome::AtOnce(rcode) => {
                return self.with_header(update.to, header_only(update.header, rcode));
            }
            Outcome::OutOfMemory => {}
        }
        let mut effects = self.with_header(update.to, header_only(update.header, Rcode::ServFail));
        effects.noted = Noted::OutOfMemory;
        effects
    }
}
