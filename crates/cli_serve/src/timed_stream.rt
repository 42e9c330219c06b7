//! A connection whose time is limited.

use crate::connection::LIMIT;
use std::io::{self, ErrorKind, Read, Write};
use std::net::TcpStream;
use std::time::{Duration, Instant};

/// One end of a connection, whose reads and writes fail once its time is up: each waits for what is left of it at most.
/// So a client that stalls, or sends a byte now and then, costs no more than that time.
#[derive(Clone, Copy)]
pub(crate) struct TimedStream<'a> {
    rt: &'a HostRuntime,
    stream: &'a TcpStream,
    taken: Instant,
}

impl<'a> TimedStream<'a> {
    /// An end of a connection that was taken at this time.
    pub(crate) fn new(
        rt: &'a HostRuntime,
        stream: &'a TcpStream,
        taken: Instant,
    ) -> TimedStream<'a> {
        TimedStream { rt, stream, taken }
    }

    /// What is left of the connection's time; an error where nothing is.
    fn left(&self) -> io::Result<Duration> {
        let spent = self.taken.elapsed(self.rt)?;
        match Duration::from_secs(LIMIT).checked_sub(spent) {
            Some(left) if !left.is_zero() => Ok(left),
            _ => Err(io::Error::from(ErrorKind::TimedOut)),
        }
    }
}

impl Read for TimedStream<'_> {
    ghost use Rattle.std.specs.Prelude.{None};

    ghost remaining = { λ _. None };

    fn read(&mut self, buffer: &mut [u8]) -> io::Result<usize> {
        let left = self.left()?;
        self.stream.set_read_timeout(Some(left))?;
        let mut stream = self.stream;
        stream.read(buffer)
    }
}

impl Write for TimedStream<'_> {
    ghost use Rattle.std.specs.Prelude.{None};

    ghost contents = { λ _. None };

    fn write(&mut self, bytes: &[u8]) -> io::Result<usize> {
        let left = self.left()?;
        self.stream.set_write_timeout(Some(left))?;
        let mut stream = self.stream;
        stream.write(bytes)
    }

    fn flush(&mut self) -> io::Result<()> {
        let mut stream = self.stream;
        stream.flush()
    }
}
