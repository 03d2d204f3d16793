//! The system's network and clock, beside a log of diagnostic lines.

use crate::lines::Stream;
use log::kv::Source;
use log::span::Spans;
use log::{LevelFilter, Line, Log, Metadata, Record};
use std::fmt::Display;
use std::io;
use std::net::{Net, SocketAddr, TcpListener, TcpStream, UdpSocket};
use std::time::{Clock, Duration};

/// The system, and the levels of which lines are logged. `Logged` of the crate `log` hands on no sockets of
/// datagrams.
#[derive(Clone, Copy)]
pub struct LoggedSystem {
    pub rt: HostRuntime,
    pub level: LevelFilter,
}

impl Net for LoggedSystem {
    type Stream = TcpStream;

    type Listener = TcpListener;

    fn bind(&self, address: SocketAddr) -> io::Result<TcpListener> {
        self.rt.bind(address)
    }

    fn connect(&self, address: SocketAddr) -> io::Result<TcpStream> {
        self.rt.connect(address)
    }

    fn bind_udp(&self, address: SocketAddr) -> io::Result<UdpSocket> {
        self.rt.bind_udp(address)
    }
}

impl Clock for LoggedSystem {
    fn monotonic(&self) -> io::Result<Duration> {
        self.rt.monotonic()
    }

    fn since_1970(&self) -> io::Result<Duration> {
        self.rt.since_1970()
    }

    fn sleep(&self, duration: Duration) {
        self.rt.sleep(duration)
    }
}

impl Log for LoggedSystem {
    fn enabled(&self, metadata: &Metadata<'_>) -> bool {
        self.level.allows(metadata.level())
    }

    /// A line that standard error can't take at once is left out.
    fn log<D: Display, K: Source, S: Spans>(&self, logged: &Record<'_, D, K, S>) {
        if Stream::Errors.is_ready() {
            let rt = self.rt;
            let line = Line::new(logged);
            let _written = eprintln!(rt; "{line}");
        }
    }

    fn flush(&self) {}

    fn target(&self) -> &str {
        ""
    }
}
