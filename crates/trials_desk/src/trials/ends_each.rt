//! The worked request, whose reader fails at each of its reads.
use crate::trials::asking::{Got, ask, assert_got, command, point_before, serve};
use crate::trials::desks::desk;
use crate::trials::ends::Pieces;
use desk::Desk;
use panel_http::{Served, StatusCode};
use std::alloc::Global;
use std::process::Abort;
use std::test::Fail;
use store::Store;

// What the first bytes of the command get, one a read, where they end or the next read fails.
fn served_start<S: Store + Drop>(
    alloc: Global,
    desk: &mut Desk<S>,
    end: usize,
    fails: bool,
) -> Got {
    let input = Pieces {
        text: command().as_bytes().get(..end).unwrap_or(&[]),
        first: 1,
        size: 1,
        fails,
    };
    serve(alloc, desk, input, 1_000)
}

// Nothing is written or delivered for an input without a byte, nor where a read fails.
fn try_reads<S: Store + Drop>(rt: &impl Abort, alloc: Global, desk: &mut Desk<S>) {
    let got = served_start(alloc, desk, 0, false);
    assert_got(rt, &got, Served::NoRequest, "", "no byte");
    for end in 0..command().len() {
        let got = served_start(alloc, desk, end, true);
        assert_got(rt, &got, Served::NoRequest, "", end);
    }
}

fn assert_untouched<S: Store + Drop>(rt: &impl Abort, alloc: Global, desk: &mut Desk<S>) {
    let got = ask(alloc, desk, "GET /points/R101-SET HTTP/1.1\r\n\r\n", 1_000);
    assert_got(
        rt,
        &got,
        Served::Answered(StatusCode::OK),
        point_before(),
        "the point",
    );
}

#[test]
fn ends_each(rt: HostRuntime) -> Result<(), Fail> {
    let mut desk = desk(rt.alloc())?;
    try_reads(&rt, rt.alloc(), &mut desk);
    assert_untouched(&rt, rt.alloc(), &mut desk);
    Ok(())
}
