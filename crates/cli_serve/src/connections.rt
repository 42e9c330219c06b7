//! Many connections at once, in one thread.

use crate::connection::{Connection, Turn};
use crate::held::Held;
use crate::last_response::write_last;
use crate::machine_clock::moment;
use cli_common::Status;
use deliveries::Delivery;
use desk::Desk;
use desk_record::{Recorder, Undelivered, deliver};
use mio::unix::SourceFd;
use mio::{Events, Interest, Poll, Token};
use panel_http::Routes;
use std::alloc::Global;
use std::io::{self, ErrorKind};
use std::net::{TcpListener, TcpStream};
use std::os::fd::{AsRawFd, RawFd};
use std::time::{Duration, Instant};
use store::Store;

/// How many connections are taken at a turn, so that those that are held have theirs.
const TAKEN: u32 = 64;

/// How many milliseconds a read waits at most where no other connection is held.
const MOMENT: u64 = 1;

/// How many events are looked at in a turn.
pub const EVENTS: usize = 256;

/// The token of the listener; the others are the keys of the connections that are held.
const LISTENER: Token = Token(usize::MAX);

/// The connections of a server: those that are held, since their peers have more to send or to take, and those to come.
#[derive(Drop)]
pub struct Connections {
    routes: Routes,
    listener: TcpListener,
    poll: Poll,
    held: Held,
    /// How many are to be taken yet.
    left: u64,
    /// Whether `accept` waits for a connection: where none is held, that costs the fewest calls of the system.
    waits: bool,
    /// Whether a connection may be there to be taken.
    comes: bool,
    /// Whether a tick of the machine's clock comes before each request.
    clock: bool,
}

/// Whether the run goes on.
#[derive(Clone, Copy, PartialEq, Eq)]
enum Goes {
    On,
    /// The store failed at a request, or the record can't be written, and the response was; or readiness can't be found
    /// out.
    Ends,
}

impl Connections {
    /// The connections to a listener, of which so many are taken.
    pub fn new(
        rt: &HostRuntime,
        listener: TcpListener,
        requests: u64,
        clock: bool,
    ) -> io::Result<Connections> {
        let routes = Routes::new(rt.alloc())?;
        let poll = Poll::new(rt)?;
        let descriptor = listener.as_raw_fd();
        poll.registry()
            .register(&mut SourceFd(&descriptor), LISTENER, Interest::READABLE)?;
        Ok(Connections {
            routes,
            listener,
            poll,
            held: Held::new(rt.alloc())?,
            left: requests,
            waits: true,
            comes: false,
            clock,
        })
    }

    /// Takes the connections, and answers the request of each as soon as it is whole. One that can't be taken counts
    /// too, where none can be let go for it; what becomes of a response ends nothing, but of one at which the store
    /// failed, which ends the run with its status.
    pub fn serve<S: Store + Drop, R: Recorder>(
        &mut self,
        rt: &HostRuntime,
        desk: &mut Desk<S>,
        recorder: &mut R,
        events: &mut Events<Global>,
    ) -> Status {
        for _ in 0..u64::MAX {
            if self.held.connections.is_empty() && self.left == 0 {
                return Status::Done;
            }
            let goes = if self.held.connections.is_empty() {
                self.wait_for_one(rt, desk, recorder)
            } else {
                self.serve_held(rt, desk, recorder, events)
            };
            if goes == Goes::Ends {
                return Status::Store;
            }
        }
        Status::Done
    }

    /// Has `accept` wait, or not.
    fn set_waits(&mut self, waits: bool) -> io::Result<()> {
        if self.waits != waits {
            self.listener.set_nonblocking(!waits)?;
            self.waits = waits;
            self.comes = true;
        }
        Ok(())
    }

    /// Waits for the next connection, where none is held, and begins with it.
    fn wait_for_one<S: Store + Drop, R: Recorder>(
        &mut self,
        rt: &HostRuntime,
        desk: &mut Desk<S>,
        recorder: &mut R,
    ) -> Goes {
        if self.set_waits(true).is_err() {
            return Goes::Ends;
        }
        self.left = self.left.saturating_sub(1);
        match self.listener.accept() {
            Ok((stream, _peer)) => self.begin(rt, desk, recorder, stream),
            Err(_) => Goes::On,
        }
    }

    /// Goes on with the connections that are held and may go on, and takes some that are there.
    fn serve_held<S: Store + Drop, R: Recorder>(
        &mut self,
        rt: &HostRuntime,
        desk: &mut Desk<S>,
        recorder: &mut R,
        events: &mut Events<Global>,
    ) -> Goes {
        if self.set_waits(false).is_err() {
            return Goes::Ends;
        }
        let wait = self.wait(rt);
        if self.poll.poll(events, Some(wait)).is_err() {
            return Goes::Ends;
        }
        self.let_go_late(rt);
        for event in &*events {
            let token = event.token();
            if token == LISTENER {
                self.comes = true;
            } else if self.go_on(rt, desk, recorder, token.0) == Goes::Ends {
                return Goes::Ends;
            }
        }
        self.take(rt, desk, recorder)
    }

    /// How long to wait at most: not at all where a connection may be there to be taken.
    fn wait(&self, rt: &HostRuntime) -> Duration {
        if self.comes && self.left > 0 {
            return Duration::ZERO;
        }
        match Instant::now(rt) {
            Ok(now) => self.held.time_left(now),
            Err(_) => Duration::ZERO,
        }
    }

    /// Lets go those whose time is over, and all where the clock fails.
    fn let_go_late(&mut self, rt: &HostRuntime) {
        match Instant::now(rt) {
            Ok(now) => self.held.let_go_late(now),
            Err(_) => self.held.connections.clear(),
        }
    }

    /// Takes those that are there, a few at a turn.
    fn take<S: Store + Drop, R: Recorder>(
        &mut self,
        rt: &HostRuntime,
        desk: &mut Desk<S>,
        recorder: &mut R,
    ) -> Goes {
        for _ in 0..TAKEN {
            if !self.comes || self.left == 0 {
                return Goes::On;
            }
            match self.listener.accept() {
                Ok((stream, _peer)) => {
                    self.left = self.left.saturating_sub(1);
                    if self.begin(rt, desk, recorder, stream) == Goes::Ends {
                        return Goes::Ends;
                    }
                }
                Err(error) => self.not_taken(&error),
            }
        }
        Goes::On
    }

    /// Goes on where a connection was not taken: none was there, or it failed, as where no descriptor is left. Then the
    /// one that was taken first makes room.
    fn not_taken(&mut self, error: &io::Error) {
        match error.kind() {
            ErrorKind::WouldBlock => self.comes = false,
            _ => {
                if !self.held.let_go_first() {
                    self.left = self.left.saturating_sub(1);
                }
            }
        }
    }

    /// Begins with a connection that was taken. Where the clock that limits its time fails, it is let go.
    fn begin<S: Store + Drop, R: Recorder>(
        &mut self,
        rt: &HostRuntime,
        desk: &mut Desk<S>,
        recorder: &mut R,
        stream: TcpStream,
    ) -> Goes {
        let Ok(taken) = Instant::now(rt) else {
            return Goes::On;
        };
        if self.clock && deliver_tick(rt, desk, recorder) == Goes::Ends {
            return Goes::Ends;
        }
        if self.prepare(&stream).is_err() {
            return Goes::On;
        }
        let mut connection = Connection::new(rt.alloc(), stream, taken);
        match connection.turn(rt.alloc(), &self.routes, desk, recorder) {
            Turn::Over => Goes::On,
            Turn::Failed => last(rt, &connection),
            Turn::WaitsToWrite => self.hold(connection, Interest::WRITABLE),
            Turn::WaitsToRead | Turn::HasMore => self.hold(connection, Interest::READABLE),
        }
    }

    /// Has the reads of a connection that was taken not wait, or where no other is held a moment at most: so a request
    /// that is in flight is read as it comes, without readiness.
    fn prepare(&self, stream: &TcpStream) -> io::Result<()> {
        if self.waits {
            stream.set_read_timeout(Some(Duration::from_millis(MOMENT)))
        } else {
            stream.set_nonblocking(true)
        }
    }

    /// Holds a connection that waits for its peer, or for its next turn. Where its readiness can't be found out, it is
    /// let go.
    fn hold(&mut self, connection: Connection, interest: Interest) -> Goes {
        if self.waits && connection.stream.set_nonblocking(true).is_err() {
            return Goes::On;
        }
        self.held.make_room();
        let token = Token(self.held.connections.vacant_key());
        let descriptor = connection.stream.as_raw_fd();
        let registered = self
            .poll
            .registry()
            .register(&mut SourceFd(&descriptor), token, interest);
        if registered.is_ok() {
            self.held.insert(connection);
        }
        Goes::On
    }

    /// Goes on with a connection that is held, if it still is.
    fn go_on<S: Store + Drop, R: Recorder>(
        &mut self,
        rt: &HostRuntime,
        desk: &mut Desk<S>,
        recorder: &mut R,
        key: usize,
    ) -> Goes {
        let Some(connection) = self.held.connections.get_mut(key) else {
            return Goes::On;
        };
        let before = connection.memory();
        let turn = connection.turn(rt.alloc(), &self.routes, desk, recorder);
        let has_grown = connection.memory() > before;
        let descriptor = connection.stream.as_raw_fd();
        match turn {
            Turn::WaitsToRead => {}
            Turn::HasMore => self.wait_again(key, descriptor, Interest::READABLE),
            Turn::WaitsToWrite => self.wait_again(key, descriptor, Interest::WRITABLE),
            Turn::Over | Turn::Failed => return self.end(rt, key, turn),
        }
        if has_grown {
            self.held.bound_memory();
        }
        Goes::On
    }

    /// Waits for another readiness of a connection, or for the same, which is reported again if it is there.
    fn wait_again(&mut self, key: usize, descriptor: RawFd, interest: Interest) {
        let registered = self
            .poll
            .registry()
            .reregister(&mut SourceFd(&descriptor), Token(key), interest);
        if registered.is_err() {
            let _gone = self.held.connections.try_remove(key);
        }
    }

    /// Lets a connection go, after its last response where the store failed at its request.
    fn end(&mut self, rt: &HostRuntime, key: usize, turn: Turn) -> Goes {
        match self.held.connections.try_remove(key) {
            Some(connection) if turn == Turn::Failed => last(rt, &connection),
            _ => Goes::On,
        }
    }
}

/// Ends the run with the response of a connection at whose request the store failed, if that is written whole.
fn last(rt: &HostRuntime, connection: &Connection) -> Goes {
    if write_last(rt, connection) {
        Goes::Ends
    } else {
        Goes::On
    }
}

/// Delivers a tick at the moment of the machine's clock, if that can be read. A fault of the store shows at the
/// request; where the record can't be written, the run ends.
fn deliver_tick<S: Store + Drop, R: Recorder>(
    rt: &HostRuntime,
    desk: &mut Desk<S>,
    recorder: &mut R,
) -> Goes {
    let Some(at) = moment(rt) else {
        return Goes::On;
    };
    match deliver(rt.alloc(), desk, recorder, &Delivery::Tick { at }) {
        Err(Undelivered::NotRecorded) => Goes::Ends,
        _ => Goes::On,
    }
}
