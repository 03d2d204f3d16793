//! All connections, by their numbers.
ghost use Rattle.std.specs.Prelude.{◌≡◌, ◌≤◌, ◌<◌, ℕ, length, replicate, slice_get, slice_set, true};
ghost use Rattle.std.specs.Prelude.{◌↔◌, None, Some, IsTrue, IfErr, IfOk, OnOk, OnErr};
ghost use Rattle.std.specs.Option.{option_copied_mut, option_map};
ghost use Rattle.dns_network.specs.Connection.{HasLost, IsSilent, IsStalled};
ghost use Rattle.dns_network.specs.Connections.{HandsOver, HasBecome, HasMovedAt, HasReadAt, IsReplyPushed};
ghost use Rattle.dns_network.specs.Connections.{IsOpenWith, connection_at, has_left_at, is_open};
ghost use Rattle.dns_network.specs.Connections.{open_connections, places_of};

use crate::{Connection, Moved, Octets, Stream};
use dns_memory::Heap;
use std::alloc::AllocError;

/// How many connections there are at most; their numbers are below it.
const PLACES: usize = 64;

/// The connections by their numbers.
#[derive(Drop)]
pub struct Connections<S: Stream> {
    places: Vec<Option<Connection<S>>, Heap>,
}

impl<S: Stream + Drop> Connections<S> {
    /// No connection, and places for 64, whose numbers are below that. Refused where the memory for the
    /// places is.
    pub fn new(alloc: Heap) -> Result<Connections<S>, AllocError>
        ensures { IfOk result (λ c. places_of c ≡ replicate 64 None) }
    {
        let mut places = Vec::with_capacity(alloc, PLACES)?;
        for _position in 0..PLACES {
            places.push(None)?;
        }
        Ok(Connections { places })
    }

    /// Puts a connection under its number. One whose number is that of no place is handed back.
    pub fn insert(&mut self, number: usize, connection: Connection<S>) -> Result<(), Connection<S>>
        ensures below { OnOk result (number < length (places_of self.old)) }
        ensures put { OnOk result
            (places_of self.new ≡ slice_set (places_of self.old) number (Some connection)) }
        ensures back { IfErr result (λ c. (c ≡ connection) × (length (places_of self.old) ≤ number)) }
        ensures still { OnErr result (places_of self.new ≡ places_of self.old) }
    {
        match self.places.get_mut(number) {
            Some(slot) => {
                *slot = Some(connection);
                Ok(())
            }
            None => Err(connection),
        }
    }

    /// The connection with that number.
    pub fn get_mut(&mut self, number: usize) -> Option<&mut Connection<S>>
        ensures value { option_copied_mut result ≡ connection_at number (places_of self.old) }
    {
        self.places.get_mut(number)?.as_mut()
    }

    /// Whether there is a connection with that number.
    pub fn is_open(&self, number: usize) -> bool
        ensures { result ≡ is_open number (places_of self.now) }
    {
        match self.places.get(number) {
            Some(slot) => slot.is_some(),
            None => false,
        }
    }

    /// How many places there are. The numbers of connections are below it.
    pub fn place_count(&self) -> usize
        ensures { result ≡ length (places_of self.now) }
    {
        self.places.len()
    }

    /// How many connections there are.
    pub fn open_count(&self) -> usize
        ensures { result ≡ open_connections (places_of self.now) }
    {
        self.places.iter().filter(|slot| slot.is_some()).count()
    }

    /// Lets go the connection with that number, and its stream.
    pub fn remove(&mut self, number: usize)
        ensures { places_of self.new ≡ slice_set (places_of self.old) number None }
    {
        if let Some(slot) = self.places.get_mut(number) {
            *slot = None;
        }
    }

    /// Queues a reply on the connection with that number; to one that isn't there nothing goes. Where memory
    /// is refused all are as they were.
    pub fn push(&mut self, number: usize, reply: &[u8]) -> Result<(), AllocError>
        requires { length reply.now < 65536 }
        ensures queued { OnOk result
            (IsReplyPushed number reply.now (places_of self.old) (places_of self.new)) }
        ensures refused { OnErr result (places_of self.new ≡ places_of self.old) }
        ensures there { OnErr result (is_open number (places_of self.old) ≡ true) }
    {
        if number >= self.places.len() {
            return Ok(());
        }
        match &mut self.places[number] {
            Some(connection) => connection.push(reply),
            None => Ok(()),
        }
    }

    /// Whether octets are left to write on the connection with that number.
    pub fn has_left(&self, number: usize) -> bool
        ensures { result ≡ has_left_at (slice_get (places_of self.now) number) }
    {
        match self.places.get(number) {
            Some(Some(connection)) => connection.has_left(),
            _ => false,
        }
    }

    /// Writes what is left to write on the connection with that number, as far as its stream takes it.
    pub fn write(&mut self, number: usize, now: u64) -> Moved
        ensures { HasMovedAt S.Stream now number result (places_of self.old) (places_of self.new) }
    {
        if number >= self.places.len() {
            return Moved::Later;
        }
        match &mut self.places[number] {
            Some(connection) => connection.write(now),
            None => Moved::Later,
        }
    }

    /// Reads one piece of the stream of the connection with that number, as `Connection::read` does.
    pub fn read(
        &mut self,
        alloc: Heap,
        number: usize,
        buffer: &mut [u8],
    ) -> Result<Moved, AllocError>
        ensures moved { (now : ℕ) → IfOk result
            (λ moved. HasReadAt S.Stream now number moved (places_of self.old) (places_of self.new)) }
        ensures lost { OnErr result
            (HasBecome (HasLost S.Stream) number (places_of self.old) (places_of self.new)) }
    {
        if number >= self.places.len() {
            return Ok(Moved::Later);
        }
        match &mut self.places[number] {
            Some(connection) => connection.read(alloc, buffer),
            None => Ok(Moved::Later),
        }
    }

    /// The first of the messages that came on the connection with that number and weren't handled yet, which
    /// is handed over in the second `now`.
    pub fn next_message(&mut self, number: usize, now: u64) -> Option<Octets>
        ensures { HandsOver now number (option_map (λ m. m.items) result) (places_of self.old)
            (places_of self.new) }
    {
        if number >= self.places.len() {
            return None;
        }
        match &mut self.places[number] {
            Some(connection) => connection.next_message(now),
            None => None,
        }
    }

    /// Whether there is a connection with that number, nothing is left to write to it or to handle, and it
    /// wasn't used for 30 seconds.
    pub fn is_silent(&self, number: usize, now: u64) -> bool
        ensures { IsTrue result ↔ IsOpenWith (IsSilent now) (slice_get (places_of self.now) number) }
    {
        match self.places.get(number) {
            Some(Some(connection)) => connection.is_silent(now),
            _ => false,
        }
    }

    /// Whether there is a connection with that number, octets are left to write to it, and it wasn't used for
    /// 30 seconds.
    pub fn is_stalled(&self, number: usize, now: u64) -> bool
        ensures { IsTrue result ↔ IsOpenWith (IsStalled now) (slice_get (places_of self.now) number) }
    {
        match self.places.get(number) {
            Some(Some(connection)) => connection.is_stalled(now),
            _ => false,
        }
    }
}
