//! Messages on a stream, each after two octets of its length (RFC 1035 section 4.2.2): `Framing::feed`.
ghost use Rattle.std.specs.Prelude.{◌≡◌, ℕ, ◌-◌, ◌≤◌, ◌<◌, List, [], ◌++◌, length, drop, IfOk, IfSome, OnErr};
ghost use Rattle.std.specs.Prelude.{None, map};
ghost use Rattle.dns_network.specs.Framed.{pending_length, BeginsWithNone, IsFramed};

use dns_memory::Heap;
use std::alloc::AllocError;
use std::marker::Model;

/// The octets of a message, without those of its length.
pub type Octets = Vec<u8, Heap>;

/// What of a stream has come and is no whole message yet.
#[derive(Drop)]
pub struct Framing {
    rest: Octets,
}

impl Model for Framing {
    ghost use Rattle.std.specs.Prelude.{ℕ, List};
    ghost use Rattle.dns_network.specs.Framed.{BeginsWithNone};

    ghost Value = { List ℕ };

    ghost view = { λ f. f.rest.items };

    ghost invariant = { λ f. BeginsWithNone f.rest.items };
}

/// The first message of a stream and what follows it, where a whole message is there.
fn first_message(stream: &[u8]) -> Option<(&[u8], &[u8])>
    ensures found { IfSome result (λ p.
        (length p.0.now < 65536) × (stream.now ≡ pending_length p.0.now ++ p.1.now)) }
    ensures none { result ≡ None → BeginsWithNone stream.now }
{
    if stream.len() < 2 {
        return None;
    }
    let (size, pending) = stream.split_at(2);
    let size = usize::from(u16::from_be_bytes([size[0], size[1]]));
    if pending.len() < size {
        return None;
    }
    Some(pending.split_at(size))
}

/// The whole messages at the front of a stream, and how many octets are left after them.
#[derive(Drop)]
struct Taken {
    messages: Vec<Octets, Heap>,
    left: usize,
}

/// Takes the whole messages from the front of a stream.
fn take_messages(alloc: Heap, stream: &[u8]) -> Result<Taken, AllocError>
    ensures inside { IfOk result (λ taken. taken.left ≤ length stream.now) }
    ensures taken { IfOk result (λ taken.
        IsFramed stream.now (map (λ m. m.items) taken.messages.items)
        (drop (length stream.now - taken.left) stream.now)) }
{
    let mut messages = Vec::new(alloc);
    let mut rest = stream;
    'messages: while let Some((message, pending)) = first_message(rest) {
        let mut octets = Vec::with_capacity(alloc, message.len())?;
        octets.extend_from_slice(message)?;
        messages.push(octets)?;
        rest = pending;
    }
    let left = rest.len();
    Ok(Taken { messages, left })
}

impl Framing {
    /// A stream of which nothing came yet.
    pub fn new(alloc: Heap) -> Framing
        ensures { result ≡ [] }
    {
        Framing {
            rest: Vec::new(alloc),
        }
    }

    /// Takes the next piece of the stream: the messages that are whole with it, in their order. Where memory
    /// is refused the piece has not come, and can be given again.
    pub fn feed(&mut self, alloc: Heap, piece: &[u8]) -> Result<Vec<Octets, Heap>, AllocError>
        ensures framed { IfOk result (λ messages.
            IsFramed (self.old ++ piece.now) (map (λ m. m.items) messages.items) self.new) }
        ensures refused { OnErr result (self.new ≡ self.old) }
    {
        let before = self.rest.len();
        self.rest.extend_from_slice(piece)?;
        match take_messages(alloc, self.rest.as_slice()) {
            Ok(Taken { messages, left }) => {
                let end = self.rest.len() - left;
                self.rest.drain(..end);
                Ok(messages)
            }
            Err(refused) => {
                self.rest.truncate(before);
                Err(refused)
            }
        }
    }
}

/// The two octets that precede a message on a stream.
pub fn length_octets(message: &[u8]) -> [u8; 2]
    requires { length message.now < 65536 }
    ensures { result ++ message.now ≡ pending_length message.now }
{
    (message.len() as u16).to_be_bytes()
}

/// A stream has one reading, and however it is cut its messages are those of its pieces, each after what the
/// pieces before it left.
pub fn framing_law()
    ensures once { (stream : List ℕ) (messages messages' : List (List ℕ)) (rest rest' : List ℕ)
        → IsFramed stream messages rest → IsFramed stream messages' rest'
        → (messages ≡ messages') × (rest ≡ rest') }
    ensures cut { (piece next : List ℕ) (messages messages' : List (List ℕ)) (rest rest' : List ℕ)
        → IsFramed piece messages rest → IsFramed (rest ++ next) messages' rest'
        → IsFramed (piece ++ next) (messages ++ messages') rest' }
{}
