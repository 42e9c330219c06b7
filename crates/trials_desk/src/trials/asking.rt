//! The worked request, and how a desk is asked. A long text, a call with a long contract and an assertion are dear to
//! prove beside other code, so each of them stands in a function of its own.
use crate::trials::ends::{Page, Pieces};
use desk::Desk;
use desk_record::NoRecord;
use panel_http::{Counted, Routes, Served, serve_one};
use std::alloc::Global;
use std::fmt::Display;
use std::io::{Read, Write};
use std::process::Abort;
use store::Store;

/// A command of P1.
pub(crate) fn command() -> &'static str {
    "POST /panels/P1/commands HTTP/1.1\r\nHost: desk\r\nContent-Length: 57\r\n\r\n{\"number\":1,\"point\":\"R101-SET\",\"priority\":8,\"value\":2150}"
}

/// The response to the command.
pub(crate) fn done() -> &'static str {
    "HTTP/1.1 200 OK\r\nContent-Type: application/json\r\nContent-Length: 56\r\nConnection: close\r\n\r\n{\"answer\":\"done\",\"number\":1,\"present\":2150,\"priority\":8}"
}

/// The response with the command's point before any command.
pub(crate) fn point_before() -> &'static str {
    "HTTP/1.1 200 OK\r\nContent-Type: application/json\r\nContent-Length: 156\r\nConnection: close\r\n\r\n{\"answer\":\"point\",\"places\":[null,null,null,null,null,null,null,null,null,null,null,null,null,null,null,null],\"point\":\"R101-SET\",\"present\":1800,\"priority\":0}"
}

/// How long the command's head is.
pub(crate) const HEAD: usize = 69;

/// What was made of a request, what was written, and whether a read or a write was counted as failed.
#[derive(Drop)]
pub(crate) struct Got {
    pub(crate) served: Served,
    pub(crate) text: Vec<u8>,
    pub(crate) has_failed: bool,
}

/// What is made of a request, without what is promised of it: the promise is dear to carry, and dearer at the types of
/// one store and one connection. Where memory for the routes is refused it is what no test awaits.
pub(crate) fn served<S: Store + Drop, R: Read, W: Write>(
    alloc: Global,
    desk: &mut Desk<S>,
    reader: &mut Counted<R>,
    writer: &mut Counted<W>,
) -> Served {
    match Routes::new(alloc) {
        Ok(routes) => serve_one(alloc, &routes, reader, writer, desk, &mut NoRecord),
        Err(_) => Served::NoReply,
    }
}

/// What a request that comes in pieces gets on a page with so much room.
pub(crate) fn serve<S: Store + Drop>(
    alloc: Global,
    desk: &mut Desk<S>,
    input: Pieces<'_>,
    room: usize,
) -> Got {
    let mut reader = Counted::new(input);
    let mut writer = Counted::new(Page::new(alloc, room));
    let served = served(alloc, desk, &mut reader, &mut writer);
    let has_failed = reader.failures() > 0 || writer.failures() > 0;
    Got {
        served,
        text: writer.into_inner().text,
        has_failed,
    }
}

/// What a whole request gets, which comes in pieces of a size.
pub(crate) fn ask<S: Store + Drop>(
    alloc: Global,
    desk: &mut Desk<S>,
    request: &str,
    size: usize,
) -> Got {
    let input = Pieces {
        text: request.as_bytes(),
        first: size,
        size,
        fails: false,
    };
    serve(alloc, desk, input, 10_000)
}

/// What was made of a request, and what was written, are what is wanted, and no failure is counted where it was
/// answered; with the place at which that is asked.
pub(crate) fn assert_got<T: Display + Drop>(
    rt: &impl Abort,
    got: &Got,
    served: Served,
    text: &str,
    place: T,
) {
    let is_wanted = got.served == served && got.text.as_slice() == text.as_bytes();
    let is_counted = got.has_failed && matches!(served, Served::Answered(_));
    assert!(rt; is_wanted && !is_counted, "at {place}");
}
