//! The response of a run's last request, at which the store failed.

use crate::connection::Connection;
use crate::timed_stream::TimedStream;
use std::io::{Read, Write};
use std::net::Shutdown;

/// Writes the response of a connection as its peer takes it, and reads the rest of the request away; true where it was
/// written whole. Nothing else can be answered then, so this may wait, for what is left of the connection's time.
pub(crate) fn write_last(rt: &HostRuntime, connection: &Connection) -> bool {
    if connection.stream.set_nonblocking(false).is_err() {
        return false;
    }
    let mut stream = TimedStream::new(rt, &connection.stream, connection.taken);
    if stream.write_all(&connection.response).is_err() {
        return false;
    }
    let _ended = connection.stream.shutdown(Shutdown::Write);
    take_rest(stream);
    true
}

/// Reads to the end of the input, or of the connection's time: the system would take the response back with bytes that
/// were not read.
fn take_rest(mut stream: TimedStream<'_>) {
    let mut scratch = [0; 4_096];
    for _ in 0..u64::MAX {
        match stream.read(&mut scratch) {
            Ok(0) | Err(_) => return,
            Ok(_) => {}
        }
    }
}
