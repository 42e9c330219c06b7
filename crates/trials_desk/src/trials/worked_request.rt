//! The worked request over tables in memory and in a database: in two reads, cut inside its body, and with a reply that is
//! lost after each byte.
use crate::trials::asking::{Got, HEAD, ask, assert_got, command, done, point_before, serve};
use crate::trials::desks::desk_over;
use crate::trials::ends::Pieces;
use panel_http::{Served, StatusCode};
use std::alloc::Global;
use std::process::Abort;
use std::test::Fail;
use store::Store;
use store_memory::MemStore;
use trials_buildings::new_database;

/// The response to a request that ends inside its body.
fn cut() -> &'static str {
    "HTTP/1.1 400 Bad Request\r\nContent-Type: application/json\r\nContent-Length: 37\r\nConnection: close\r\n\r\n{\"answer\":\"bad_request\",\"fault\":\"H5\"}"
}

/// The response with the command's point after it.
fn point_after() -> &'static str {
    "HTTP/1.1 200 OK\r\nContent-Type: application/json\r\nContent-Length: 156\r\nConnection: close\r\n\r\n{\"answer\":\"point\",\"places\":[null,null,null,null,null,null,null,2150,null,null,null,null,null,null,null,null],\"point\":\"R101-SET\",\"present\":2150,\"priority\":8}"
}

/// How much of the command comes, and how much of it in the first of two reads; how much of a response gets out; what
/// is made of the command and written; and what a request for its point gets then. Afterwards the whole command gets
/// its response.
#[derive(Clone, Copy)]
struct Case {
    end: usize,
    first: usize,
    room: usize,
    served: Served,
    text: &'static str,
    point: &'static str,
}

fn two_reads(first: usize) -> Case {
    Case {
        end: command().len(),
        first,
        room: 1_000,
        served: Served::Answered(StatusCode::OK),
        text: done(),
        point: point_after(),
    }
}

fn cut_body(end: usize) -> Case {
    Case {
        end,
        first: HEAD,
        room: 1_000,
        served: Served::Answered(StatusCode::BAD_REQUEST),
        text: cut(),
        point: point_before(),
    }
}

fn lost_reply(room: usize) -> Case {
    Case {
        end: command().len(),
        first: HEAD,
        room,
        served: Served::ReplyLost,
        text: done().get(..room).unwrap_or(""),
        point: point_after(),
    }
}

fn input(case: &Case) -> Pieces<'static> {
    Pieces {
        text: command().as_bytes().get(..case.end).unwrap_or(&[]),
        first: case.first,
        size: 1_000,
        fails: false,
    }
}

/// What a desk answers to a case, then to a request for the point, and then to the whole command.
#[derive(Drop)]
struct Responses {
    first: Got,
    point: Got,
    again: Got,
}

fn ask_desk<S: Store + Drop>(alloc: Global, store: S, case: &Case) -> Result<Responses, Fail> {
    let mut desk = desk_over(alloc, store)?;
    let first = serve(alloc, &mut desk, input(case), case.room);
    let point = ask(
        alloc,
        &mut desk,
        "GET /points/R101-SET HTTP/1.1\r\n\r\n",
        1_000,
    );
    let again = ask(alloc, &mut desk, command(), 1_000);
    let _store = desk.into_store();
    Ok(Responses {
        first,
        point,
        again,
    })
}

fn assert_first(rt: &impl Abort, got: &Got, case: &Case) {
    let is_wanted = got.served == case.served && got.text.as_slice() == case.text.as_bytes();
    let is_counted = got.has_failed && matches!(case.served, Served::Answered(_));
    assert!(rt;
        is_wanted && !is_counted,
        "cut at {} and {}, with room for {}",
        case.first,
        case.end,
        case.room
    );
}

fn try_case<S: Store + Drop>(
    rt: &impl Abort,
    alloc: Global,
    store: S,
    case: &Case,
) -> Result<(), Fail> {
    let responses = ask_desk(alloc, store, case)?;
    assert_first(rt, &responses.first, case);
    assert_got(
        rt,
        &responses.point,
        Served::Answered(StatusCode::OK),
        case.point,
        case.end,
    );
    assert_got(
        rt,
        &responses.again,
        Served::Answered(StatusCode::OK),
        done(),
        "the repeat",
    );
    Ok(())
}

/// A case by its name.
#[derive(Clone, Copy)]
enum Way {
    TwoReads { first: usize },
    CutBody { end: usize },
    LostReply { room: usize },
}

fn case_of(way: Way) -> Case {
    match way {
        Way::TwoReads { first } => two_reads(first),
        Way::CutBody { end } => cut_body(end),
        Way::LostReply { room } => lost_reply(room),
    }
}

// Each way in which the request comes in two reads.
fn push_two_reads(ways: &mut Vec<Way>) -> Result<(), Fail> {
    for first in 1..command().len() {
        ways.push(Way::TwoReads { first })?;
    }
    Ok(())
}

// Each place in its body at which it ends.
fn push_cut_bodies(ways: &mut Vec<Way>) -> Result<(), Fail> {
    for end in HEAD..command().len() {
        ways.push(Way::CutBody { end })?;
    }
    Ok(())
}

// Each byte of the response after which no more gets out.
fn push_lost_replies(ways: &mut Vec<Way>) -> Result<(), Fail> {
    for room in 0..done().len() {
        ways.push(Way::LostReply { room })?;
    }
    Ok(())
}

fn ways(alloc: Global) -> Result<Vec<Way>, Fail> {
    let mut ways = Vec::new(alloc);
    push_two_reads(&mut ways)?;
    push_cut_bodies(&mut ways)?;
    push_lost_replies(&mut ways)?;
    Ok(ways)
}

// Tries each case over new tables in memory.
fn try_cases(rt: &impl Abort, alloc: Global) -> Result<(), Fail> {
    for way in &ways(alloc)? {
        try_case(rt, alloc, MemStore::new(alloc), &case_of(*way))?;
    }
    Ok(())
}

// Tries each case over new tables in a database.
fn try_cases_in_databases(rt: &impl Abort, alloc: Global) -> Result<(), Fail> {
    for way in &ways(alloc)? {
        try_case(rt, alloc, new_database(alloc)?, &case_of(*way))?;
    }
    Ok(())
}

#[test]
fn the_request_is_answered_once(rt: HostRuntime) -> Result<(), Fail> {
    try_cases(&rt, rt.alloc())
}

#[test]
fn a_database_answers_the_request_once(rt: HostRuntime) -> Result<(), Fail> {
    try_cases_in_databases(&rt, rt.alloc())
}
