//! The worked request, gathered from an input that has nothing yet before each piece, and served.
use crate::trials::asking::{Got, assert_got, command, done};
use crate::trials::desks::desk_over;
use crate::trials::ends::Halting;
use building::Building;
use desk::Desk;
use desk_record::NoRecord;
use panel_http::{
    Counted, Gathered, Request, Routes, Served, StatusCode, gather, serve_come, serve_request,
};
use std::alloc::Global;
use std::process::Abort;
use std::test::Fail;
use store::Store;
use store_memory::MemStore;

/// The response to a request that ends inside its body.
const CUT: &str =
    "HTTP/1.1 400 Bad Request\r\nContent-Type: application/json\r\nContent-Length: 37\r\nConnection: close\r\n\r\n{\"answer\":\"bad_request\",\"fault\":\"H5\"}";

/// What has come of an input, and how it ended.
#[derive(Drop)]
struct Come {
    how: Gathered,
    bytes: Vec<u8>,
}

/// Gathers an input as long as it may have more.
fn gathered(alloc: Global, routes: &Routes, building: &Building, text: &[u8], size: usize) -> Come {
    let mut input = Counted::new(Halting {
        text,
        size,
        is_there: false,
    });
    let mut bytes = Vec::new(alloc);
    let mut lacks = 1;
    let mut how = Gathered::HasMore;
    for _ in 0..2_000 {
        how = gather(alloc, routes, building, &mut input, &mut bytes, &mut lacks);
        if !matches!(how, Gathered::Waits | Gathered::HasMore) {
            break;
        }
    }
    Come { how, bytes }
}

/// What a request gets that was handed on, without what is promised of it.
fn request_served<S: Store + Drop>(alloc: Global, desk: &mut Desk<S>, request: &Request) -> Got {
    let mut writer = Counted::new(Vec::new(alloc));
    let served = serve_request(alloc, request, &mut writer, desk, &mut NoRecord);
    let has_failed = writer.failures() > 0;
    Got {
        served,
        text: writer.into_inner(),
        has_failed,
    }
}

/// What the bytes that have come get, without what is promised of it.
fn bytes_served<S: Store + Drop>(
    alloc: Global,
    routes: &Routes,
    desk: &mut Desk<S>,
    come: &[u8],
) -> Got {
    let mut writer = Counted::new(Vec::new(alloc));
    let served = serve_come(alloc, routes, come, &mut writer, desk, &mut NoRecord);
    let has_failed = writer.failures() > 0;
    Got {
        served,
        text: writer.into_inner(),
        has_failed,
    }
}

/// The command in pieces of a size: a whole request, of which no more is read than there is. What was handed on gets
/// what is wanted, and so do its bytes, of another desk.
fn try_whole(rt: &impl Abort, alloc: Global, size: usize) -> Result<(), Fail> {
    let routes = Routes::new(alloc)?;
    let mut desk = desk_over(alloc, MemStore::new(alloc))?;
    let come = gathered(alloc, &routes, desk.building(), command().as_bytes(), size);
    let Gathered::Asks(request) = &come.how else {
        panic!(rt; "in pieces of {size}");
    };
    let got = request_served(alloc, &mut desk, request);
    let _store = desk.into_store();
    assert_got(rt, &got, Served::Answered(StatusCode::OK), done(), size);
    try_bytes(rt, alloc, &routes, &come.bytes, size)
}

/// The bytes of the command, gathered in pieces of a size.
fn try_bytes(
    rt: &impl Abort,
    alloc: Global,
    routes: &Routes,
    come: &[u8],
    size: usize,
) -> Result<(), Fail> {
    let mut desk = desk_over(alloc, MemStore::new(alloc))?;
    let got = bytes_served(alloc, routes, &mut desk, come);
    let _store = desk.into_store();
    assert_got(rt, &got, Served::Answered(StatusCode::OK), done(), size);
    Ok(())
}

/// The command without its last byte, which is all that there is.
fn try_cut(rt: &impl Abort, alloc: Global) -> Result<(), Fail> {
    let routes = Routes::new(alloc)?;
    let mut desk = desk_over(alloc, MemStore::new(alloc))?;
    let end = command().len().saturating_sub(1);
    let come = gathered(
        alloc,
        &routes,
        desk.building(),
        command().as_bytes().get(..end).unwrap_or(&[]),
        50,
    );
    assert!(rt; matches!(come.how, Gathered::Ended), "cut at {end}");
    let got = bytes_served(alloc, &routes, &mut desk, &come.bytes);
    let _store = desk.into_store();
    assert_got(
        rt,
        &got,
        Served::Answered(StatusCode::BAD_REQUEST),
        CUT,
        end,
    );
    Ok(())
}

#[test]
fn a_request_is_gathered_and_served(rt: HostRuntime) -> Result<(), Fail> {
    for size in [1, 7, 1_000] {
        try_whole(&rt, rt.alloc(), size)?;
    }
    try_cut(&rt, rt.alloc())
}
