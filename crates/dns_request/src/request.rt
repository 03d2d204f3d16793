//! What octets are as a request.
ghost use Rattle.std.specs.Prelude.{◌≡◌, [], ◌∷◌};
ghost use Rattle.dns_wire.specs.Message.{header_of};

use dns_wire::{Message, QuestionView, Rcode};

/// How a message came, and how its reply goes out (RFC 1035 section 4.2).
#[derive(Clone, Copy, Debug, PartialEq, Eq)]
pub enum Transport {
    /// In a datagram.
    Udp,
    /// On a stream.
    Tcp,
}

/// A message with its one question, which names the zone in an update (RFC 2136 section 2.3).
#[derive(Drop)]
pub struct RequestMessage<'a> {
    pub message: Message<'a>,
    pub question: QuestionView<'a>,
    ghost one: { message.message.questions ≡ question ∷ [] },
}

impl<'a> RequestMessage<'a> {
    /// The octets of its header, from which a reply that is a header alone is made.
    pub fn header(&self) -> &'a [u8; 12]
        ensures { header_of result.now ≡ header_of self.now.message.octets }
    {
        match self.message.octets().first_chunk::<12>() {
            Some(header) => header,
            None => unreachable!(),
        }
    }
}

/// What octets that came are as a request.
#[derive(Drop)]
pub enum Request<'a> {
    /// They get no reply: they have no whole header, or are a response.
    Ignored,
    /// They get a header alone, made from theirs, with this response code.
    Refused(&'a [u8; 12], Rcode),
    /// A query for a type or in a class that is not served: it gets its question back, with this response
    /// code.
    NotServed(RequestMessage<'a>, Rcode),
    /// A question (RFC 1035 section 4.1.2).
    Query(RequestMessage<'a>),
    /// A change of a zone (RFC 2136).
    Update(RequestMessage<'a>),
    /// A question for a whole zone or its changes (RFC 5936, RFC 1995).
    Transfer(RequestMessage<'a>),
}
