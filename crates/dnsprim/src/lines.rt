//! Standard output and standard error as a server writes to them: nobody who doesn't read them stops it.

use libc::net::{POLLOUT, poll};
use libc::types::pollfd;
use std::io::{self, ErrorKind, Write};

/// Standard output or standard error.
#[derive(Clone, Copy)]
pub enum Stream {
    Output,
    Errors,
}

/// How many octets a pipe that takes any takes at least (PIPE_BUF).
const PIECE: usize = 4096;

/// Standard output or standard error, which refuses what it can't take at once: a pipe that nobody empties,
/// or a terminal that is held.
#[derive(Drop)]
pub struct Lines<'a> {
    rt: &'a HostRuntime,
    stream: Stream,
}

impl<'a> Lines<'a> {
    pub fn to_output(rt: &'a HostRuntime) -> Lines<'a> {
        Lines {
            rt,
            stream: Stream::Output,
        }
    }

    pub fn to_errors(rt: &'a HostRuntime) -> Lines<'a> {
        Lines {
            rt,
            stream: Stream::Errors,
        }
    }
}

impl Stream {
    /// Whether it takes octets now, or says at once that it doesn't.
    pub fn is_ready(self) -> bool {
        let descriptor = match self {
            Stream::Output => 1,
            Stream::Errors => 2,
        };
        let mut polled = [pollfd {
            fd: descriptor,
            events: POLLOUT,
            revents: 0,
        }];
        poll(&mut polled, 0) > 0
    }
}

impl Write for Lines<'_> {
    fn write(&mut self, octets: &[u8]) -> io::Result<usize> {
        if !self.stream.is_ready() {
            return Err(ErrorKind::WouldBlock.into());
        }
        let piece = octets.len().min(PIECE);
        match self.stream {
            Stream::Output => self.rt.stdout().write(&octets[..piece]),
            Stream::Errors => self.rt.stderr().write(&octets[..piece]),
        }
    }

    fn flush(&mut self) -> io::Result<()> {
        match self.stream {
            Stream::Output => self.rt.stdout().flush(),
            Stream::Errors => self.rt.stderr().flush(),
        }
    }
}
