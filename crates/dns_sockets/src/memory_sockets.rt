//! Sockets in memory, for tests. They keep a list of their calls.
ghost use Rattle.std.specs.Prelude.{◌≡◌, ◌≤◌, ◌∷◌, [], None, Some, IfOk, MatchResult, length};
ghost use Rattle.dns_configuration.specs.Calls.{HasCalled};
ghost use Rattle.dns_sockets.specs.MemorySockets.{accepts_of, packet_call, packet_calls, packet_of};
ghost use Rattle.dns_sockets.specs.SystemCalls.{Accept, RecvFrom, SendTo, datagram_in};

use crate::system::{DatagramCalls, ListenerCalls};
use dns_devices::{CallList, Twin};
use dns_memory::Heap;
use std::alloc::AllocError;
use std::cmp::min;
use std::io::{self, ErrorKind};
use std::net::SocketAddr;

/// A datagram, and the address from which it came or to which it goes.
#[derive(Drop)]
pub(crate) struct Packet {
    pub(crate) octets: Vec<u8, Heap>,
    pub(crate) address: SocketAddr,
}

impl Packet {
    /// One of these octets.
    pub(crate) fn new(heap: Heap, octets: &[u8], address: SocketAddr) -> Result<Packet, AllocError>
        ensures { IfOk result (λ packet. packet_of packet ≡ (octets.now, address)) }
    {
        let mut own = Vec::new(heap);
        own.extend_from_slice(octets)?;
        Ok(Packet {
            octets: own,
            address,
        })
    }
}

/// A call on a socket of datagrams: one was asked for, and this one came, or none; or one was sent.
#[derive(Drop)]
pub(crate) enum PacketCall {
    Received(Option<Packet>),
    Sent(Packet),
}

/// A call that asked for a datagram, and what came to the front of a buffer.
fn received(
    heap: Heap,
    buffer: &[u8],
    answer: &io::Result<(usize, SocketAddr)>,
) -> Result<PacketCall, AllocError>
    requires { IfOk answer.now (λ came. came.0 ≤ length buffer.now) }
    ensures { IfOk result (λ call. packet_call call ≡ RecvFrom (datagram_in buffer.now answer.now)) }
{
    match answer {
        Ok((count, address)) => {
            let packet = Packet::new(heap, &buffer[..*count], *address)?;
            Ok(PacketCall::Received(Some(packet)))
        }
        Err(_) => Ok(PacketCall::Received(None)),
    }
}

/// A socket of datagrams in memory. It keeps a list of its calls, up to one for which memory is refused.
#[derive(Drop)]
pub(crate) struct MemoryDatagrams {
    heap: Heap,
    /// Those that came and that nobody asked for yet.
    waiting: Vec<Packet, Heap>,
    calls: CallList<PacketCall, Heap>,
}

impl MemoryDatagrams {
    /// One to which nothing came yet.
    pub(crate) fn new(heap: Heap) -> MemoryDatagrams
        ensures { packet_calls result ≡ Some [] }
    {
        MemoryDatagrams {
            heap,
            waiting: Vec::new(heap),
            calls: CallList::new(heap),
        }
    }

    /// A datagram comes from an address.
    pub(crate) fn give(&mut self, octets: &[u8], from: SocketAddr) -> Result<(), AllocError>
        ensures { packet_calls self.new ≡ packet_calls self.old }
    {
        let packet = Packet::new(self.heap, octets, from)?;
        self.waiting.push(packet)?;
        Ok(())
    }

    /// The calls so far, unless memory for one was refused.
    pub(crate) fn calls(&self) -> Option<&[PacketCall]> {
        self.calls.calls()
    }

    /// Takes the next datagram that waits into a buffer.
    fn take(&mut self, into: &mut [u8]) -> io::Result<(usize, SocketAddr)>
        ensures few { IfOk result (λ came. came.0 ≤ length into.new) }
        ensures same { packet_calls self.new ≡ packet_calls self.old }
    {
        if self.waiting.is_empty() {
            return Err(ErrorKind::WouldBlock.into());
        }
        let packet = self.waiting.remove(0);
        let count = min(into.len(), packet.octets.len());
        into[..count].copy_from_slice(&packet.octets[..count]);
        Ok((count, packet.address))
    }

    /// Adds a call to the list, or loses it if memory for the call was refused.
    fn note(&mut self, call: Result<PacketCall, AllocError>)
        ensures { MatchResult call
            (λ call. HasCalled (packet_calls self.old) (packet_calls self.new) (packet_call call ∷ []))
            (λ _. packet_calls self.new ≡ None) }
    {
        match call {
            Ok(call) => self.calls.add(call),
            Err(_) => self.calls.lose(),
        }
    }
}

impl DatagramCalls for MemoryDatagrams {
    ghost calls = { packet_calls };

    fn recv_from(&mut self, into: &mut [u8]) -> io::Result<(usize, SocketAddr)> {
        let answer = self.take(into);
        let call = received(self.heap, into, &answer);
        self.note(call);
        answer
    }

    fn send_to(&mut self, octets: &[u8], to: SocketAddr) -> io::Result<usize> {
        let packet = Packet::new(self.heap, octets, to);
        match packet {
            Ok(packet) => self.note(Ok(PacketCall::Sent(packet))),
            Err(refused) => self.note(Err(refused)),
        }
        Ok(octets.len())
    }
}

/// A socket in memory on which peers connect. It keeps a list of its calls, up to one for which memory is
/// refused.
#[derive(Drop)]
pub(crate) struct MemoryListener<T> {
    heap: Heap,
    /// The streams of the peers that connected and that nobody asked for yet, and their addresses.
    waiting: Vec<(T, SocketAddr), Heap>,
    calls: CallList<Option<(T, SocketAddr)>, Heap>,
}

impl<T: Twin> MemoryListener<T> {
    /// One to which no peer connected yet.
    pub(crate) fn new(heap: Heap) -> MemoryListener<T>
        ensures { accepts_of result ≡ Some [] }
    {
        MemoryListener {
            heap,
            waiting: Vec::new(heap),
            calls: CallList::new(heap),
        }
    }

    /// A peer connects from an address.
    pub(crate) fn give(&mut self, stream: T, from: SocketAddr) -> Result<(), AllocError>
        ensures { accepts_of self.new ≡ accepts_of self.old }
    {
        self.waiting.push((stream, from))?;
        Ok(())
    }

    /// Adds a call that took this connection to the list, or loses it if memory for the call is refused.
    fn note(&mut self, stream: &T, from: SocketAddr)
        ensures { HasCalled (accepts_of self.old) (accepts_of self.new)
            (Accept (Some (stream.now, from)) ∷ []) }
    {
        match stream.twin(self.heap) {
            Ok(twin) => self.calls.add(Some((twin, from))),
            Err(_) => self.calls.lose(),
        }
    }
}

impl<T: Twin> ListenerCalls<T> for MemoryListener<T> {
    ghost calls = { accepts_of };

    fn accept(&mut self) -> io::Result<(T, SocketAddr)> {
        if self.waiting.is_empty() {
            self.calls.add(None);
            return Err(ErrorKind::WouldBlock.into());
        }
        let (stream, from) = self.waiting.remove(0);
        self.note(&stream, from);
        Ok((stream, from))
    }
}
