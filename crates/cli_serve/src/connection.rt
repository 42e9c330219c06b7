//! A connection, at whatever stage it is.

use desk::Desk;
use desk_record::Recorder;
use panel_http::{
    Counted, Gathered, Request, Routes, Served, StatusCode, gather, serve_come, serve_request,
};
use std::alloc::Global;
use std::io::{ErrorKind, Read, Write};
use std::mem;
use std::net::{Shutdown, TcpStream};
use std::time::{Duration, Instant};
use store::Store;

/// How many seconds a connection may take from when it was taken.
pub(crate) const LIMIT: u64 = 5;

/// How many reads have an input read away at a turn, so that none holds the others up.
const READS: u32 = 8;

/// How many bytes of a response the system takes at once, whatever its peer does.
const TAKEN_AT_ONCE: usize = 4_096;

/// A connection that was taken, whose reads wait a moment at most, and whose writes don't.
#[derive(Drop)]
pub(crate) struct Connection {
    pub(crate) stream: TcpStream,
    pub(crate) taken: Instant,
    stage: Stage,
    /// What has come of its request, and how many bytes of it are waited for before it is looked at again.
    come: Vec<u8>,
    lacks: usize,
    /// The response, and how many bytes of it the peer took.
    pub(crate) response: Vec<u8>,
    written: usize,
}

#[derive(Clone, Copy)]
enum Stage {
    /// Its request comes.
    Request,
    /// Its response goes out.
    Response,
    /// Its response goes out, which refuses the request: bytes of that may be in flight still.
    Refusal,
    /// The rest of a request that was refused is read away: the system would take the response back with it.
    Rest,
}

/// What a request got.
#[derive(Clone, Copy)]
enum Answer {
    Success,
    Refusal,
    /// The response that says that the store failed.
    StoreFailed,
    None,
}

/// What a connection waits for after a turn.
#[derive(Clone, Copy, PartialEq, Eq)]
pub(crate) enum Turn {
    /// Nothing more has come from its peer yet.
    WaitsToRead,
    /// Its peer takes no more yet.
    WaitsToWrite,
    /// Others have their turn; it may have more to read.
    HasMore,
    /// Nothing: it is let go.
    Over,
    /// The store failed at its request: nothing of the response is written yet.
    Failed,
}

impl Connection {
    pub(crate) fn new(alloc: Global, stream: TcpStream, taken: Instant) -> Connection {
        Connection {
            stream,
            taken,
            stage: Stage::Request,
            come: Vec::new(alloc),
            lacks: 1,
            response: Vec::new(alloc),
            written: 0,
        }
    }

    /// When its time is over; none where no clock says so.
    pub(crate) fn end(&self) -> Option<Instant> {
        self.taken.checked_add(Duration::from_secs(LIMIT))
    }

    /// How many bytes of memory are taken for what has come of its request.
    pub(crate) fn memory(&self) -> usize {
        self.come.capacity()
    }

    /// Goes on with the connection as far as its peer lets.
    pub(crate) fn turn<S: Store + Drop, R: Recorder>(
        &mut self,
        alloc: Global,
        routes: &Routes,
        desk: &mut Desk<S>,
        recorder: &mut R,
    ) -> Turn {
        if let Stage::Request = self.stage {
            let request = match gather(
                alloc,
                routes,
                desk.building(),
                &mut Counted::new(&self.stream),
                &mut self.come,
                &mut self.lacks,
            ) {
                Gathered::Waits => return Turn::WaitsToRead,
                Gathered::HasMore => return Turn::HasMore,
                Gathered::Lost | Gathered::NoMemory => return Turn::Over,
                Gathered::Asks(request) => Some(request),
                Gathered::Whole | Gathered::Ended => None,
            };
            match self.answer(alloc, routes, request, desk, recorder) {
                Answer::Success => self.stage = Stage::Response,
                Answer::Refusal => self.stage = Stage::Refusal,
                Answer::StoreFailed => return Turn::Failed,
                Answer::None => return Turn::Over,
            }
        }
        match self.stage {
            Stage::Request | Stage::Response => self.write(),
            Stage::Refusal => self.refuse(),
            Stage::Rest => self.read_away(),
        }
    }

    /// Serves the request that has come: as it was read, or else by its bytes.
    fn answer<S: Store + Drop, R: Recorder>(
        &mut self,
        alloc: Global,
        routes: &Routes,
        request: Option<Request>,
        desk: &mut Desk<S>,
        recorder: &mut R,
    ) -> Answer {
        let come = mem::replace(&mut self.come, Vec::new(alloc));
        let mut writer = Counted::new(Vec::new(alloc));
        let served = match request {
            Some(request) => serve_request(alloc, &request, &mut writer, desk, recorder),
            None => serve_come(alloc, routes, &come, &mut writer, desk, recorder),
        };
        let Served::Answered(status) = served else {
            return Answer::None;
        };
        self.response = writer.into_inner();
        if self.response.len() > TAKEN_AT_ONCE && self.stream.set_nonblocking(true).is_err() {
            return Answer::None;
        }
        if status == StatusCode::INTERNAL_SERVER_ERROR {
            Answer::StoreFailed
        } else if status.is_success() {
            Answer::Success
        } else {
            Answer::Refusal
        }
    }

    /// Writes what is left of a response that refuses the request, and then reads the rest of that away.
    fn refuse(&mut self) -> Turn {
        match self.write() {
            Turn::Over => {}
            waits => return waits,
        }
        if self.written < self.response.len() || self.stream.shutdown(Shutdown::Write).is_err() {
            return Turn::Over;
        }
        self.stage = Stage::Rest;
        self.read_away()
    }

    /// Writes what is left of the response.
    fn write(&mut self) -> Turn {
        for _ in 0..u64::MAX {
            let Some(rest) = self.response.get(self.written..) else {
                return Turn::Over;
            };
            if rest.is_empty() {
                return Turn::Over;
            }
            match self.stream.write(rest) {
                Ok(0) => return Turn::Over,
                Ok(count) => self.written = self.written.saturating_add(count),
                Err(error) if error.kind() == ErrorKind::WouldBlock => return Turn::WaitsToWrite,
                Err(_) => return Turn::Over,
            }
        }
        Turn::Over
    }

    /// Reads what has come, to the end of the input.
    fn read_away(&mut self) -> Turn {
        let mut scratch = [0; 4_096];
        for _ in 0..READS {
            match self.stream.read(&mut scratch) {
                Ok(0) => return Turn::Over,
                Ok(_) => {}
                Err(error) if error.kind() == ErrorKind::WouldBlock => return Turn::WaitsToRead,
                Err(_) => return Turn::Over,
            }
        }
        Turn::HasMore
    }
}
