//! Clients of a server in the same process. They are where its log goes: they act as a line of it comes, and
//! what was sent to them is read when the server is gone.
use crate::given::are;
use dns_fixtures::octets;
use dns_memory::Heap;
use std::io::{self, ErrorKind, Read, Write};
use std::net::{Ipv4Addr, Shutdown, SocketAddr, TcpStream, UdpSocket};
use std::time::Duration;

/// How many milliseconds clients wait after they have acted.
const SETTLING: u64 = 300;

/// What clients do once, after a line of the log that begins so.
#[derive(Clone, Copy)]
pub(crate) struct Act {
    pub(crate) line: &'static str,
    /// The datagrams that are sent from one socket, in hexadecimal.
    pub(crate) datagrams: &'static [&'static str],
    /// How many connections are opened then.
    pub(crate) opened: usize,
    /// Octets in hexadecimal that are written on a connection, and no more than these; its number is in the
    /// order in which they were opened.
    pub(crate) written: &'static [(usize, &'static str)],
}

/// The clients, and the log.
#[derive(Drop)]
pub(crate) struct Clients<'a> {
    rt: &'a HostRuntime,
    heap: Heap,
    /// The address of the server.
    pub(crate) server: SocketAddr,
    acts: &'static [Act],
    /// How many acts are done.
    done: usize,
    pub(crate) log: Vec<u8, Heap>,
    /// The last line of it.
    line: Vec<u8, Heap>,
    datagrams: UdpSocket,
    /// A socket to which nobody sends.
    silent: UdpSocket,
    streams: Vec<TcpStream, Heap>,
}

impl<'a> Clients<'a> {
    /// Clients that have these acts before them, one after the other. Their server gets a free address.
    pub(crate) fn new(
        rt: &'a HostRuntime,
        heap: Heap,
        acts: &'static [Act],
    ) -> io::Result<Clients<'a>> {
        let any = SocketAddr::from((Ipv4Addr::LOCALHOST, 0));
        let free = UdpSocket::bind(rt, any)?;
        let datagrams = UdpSocket::bind(rt, any)?;
        datagrams.set_nonblocking(true)?;
        let silent = UdpSocket::bind(rt, any)?;
        silent.set_read_timeout(Some(Duration::from_millis(SETTLING)))?;
        Ok(Clients {
            rt,
            heap,
            server: free.local_addr()?,
            acts,
            done: 0,
            log: Vec::new(heap),
            line: Vec::new(heap),
            datagrams,
            silent,
            streams: Vec::new(heap),
        })
    }

    /// Sends a datagram to the server.
    fn send(&self, digits: &str) -> io::Result<()> {
        if let Some(octets) = octets(self.heap, digits) {
            self.datagrams.send_to(&octets, self.server)?;
        }
        Ok(())
    }

    /// Opens a connection. The system does so before the server accepts it.
    fn connect(&mut self) -> io::Result<()> {
        let stream = TcpStream::connect(self.rt, self.server)?;
        stream.set_read_timeout(Some(Duration::from_secs(5)))?;
        self.streams.push(stream)?;
        Ok(())
    }

    /// Writes octets and an end on the connection that was opened as the n-th from 0.
    fn write_on(&mut self, number: usize, digits: &str) -> io::Result<()> {
        if let Some(octets) = octets(self.heap, digits) {
            if let Some(stream) = self.streams.get_mut(number) {
                stream.write_all(&octets)?;
                stream.shutdown(Shutdown::Write)?;
            }
        }
        Ok(())
    }

    /// Does the next act, if the last line of the log is that for which it waits.
    fn act(&mut self) -> io::Result<()> {
        let Some(act) = self.acts.get(self.done) else {
            return Ok(());
        };
        if self.line.starts_with(act.line.as_bytes()) {
            self.done += 1;
            for octets in act.datagrams {
                self.send(octets)?;
            }
            for _stream in 0..act.opened {
                self.connect()?;
            }
            for &(number, octets) in act.written {
                self.write_on(number, octets)?;
            }
            self.settle();
        }
        Ok(())
    }

    /// Waits, so that what was sent has come: a busy system may hand it on later, and a server of few turns
    /// would miss it.
    pub(crate) fn settle(&self) {
        let _none = self.silent.recv_from(&mut [0; 1]);
    }

    /// Whether exactly these octets came on the connection that was opened as the n-th from 0, up to its end.
    pub(crate) fn has_read(&mut self, number: usize, digits: &str) -> io::Result<bool> {
        let mut found = Vec::new(self.heap);
        if let Some(stream) = self.streams.get_mut(number) {
            stream.read_to_end(&mut found)?;
        }
        Ok(are(self.heap, &found, digits))
    }

    /// Whether the next datagram that came is this one from the server.
    pub(crate) fn has_received(&self, digits: &str) -> io::Result<bool> {
        let mut found = [0; 1024];
        let (count, from) = self.datagrams.recv_from(&mut found)?;
        Ok(from == self.server && are(self.heap, &found[..count], digits))
    }

    /// Whether no further datagram came.
    pub(crate) fn has_no_more(&self) -> bool {
        match self.datagrams.recv_from(&mut [0; 1]) {
            Ok(_) => false,
            Err(error) => error.kind() == ErrorKind::WouldBlock,
        }
    }
}

impl Write for Clients<'_> {
    fn write(&mut self, octets: &[u8]) -> io::Result<usize> {
        self.log.extend_from_slice(octets)?;
        for octet in octets {
            self.line.push(*octet)?;
            if *octet == b'\n' {
                self.act()?;
                self.line.clear();
            }
        }
        Ok(octets.len())
    }

    fn flush(&mut self) -> io::Result<()> {
        Ok(())
    }
}
