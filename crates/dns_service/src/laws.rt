//! What the turns of a server are of its sockets.
ghost use Rattle.dns_service.specs.Carried.{TurnsCarry};

use dns_network::{Network, Observer, Stream};
use dns_sockets::{DatagramCalls, ListenerCalls, Socket, Sockets, StreamCalls};
use dns_store::ZoneStore;
use dns_zone::ZoneIndex;

/// Whatever turns are made over the sockets of a server, any number of them: each datagram that the machine
/// is told of came by the socket of the address that its peer sent to, whole or cut off where the buffer
/// ends; and each reply to an address is given to the socket of that address, and to no other, whole and
/// once. By each socket they come and go in order.
///
/// That the code makes such turns is what the contract of `Edge::turn` says, and that each socket is on the
/// address with its own index is what that of `Sockets::bind` says.
pub(crate) fn carried_law<
    I: ZoneIndex,
    D: ZoneStore,
    C: DatagramCalls + Drop,
    A: ListenerCalls<T> + Drop,
    T: StreamCalls + Drop,
    L: Observer,
>()
    ensures { TurnsCarry I.ZoneIndex D.ZoneStore ⟦<Socket<T> as Stream>⟧
        ⟦<Sockets<C, A> as Network<Socket<T>>>⟧ L.Observer C.DatagramCalls }
{}
