//! The worked request over the loopback.
use crate::trials::asking::{Got, assert_got, command, done, served};
use crate::trials::desks::desk;
use desk::Desk;
use panel_http::{Counted, Served, StatusCode};
use std::alloc::Global;
use std::io::{Read, Write};
use std::net::{Ipv4Addr, SocketAddr, TcpListener, TcpStream};
use std::test::Fail;
use store::Store;

// What is made of the request of a connection, and whether an end of it failed.
fn serve_stream<S: Store + Drop>(
    alloc: Global,
    desk: &mut Desk<S>,
    stream: &TcpStream,
) -> (Served, bool) {
    let mut reader = Counted::new(stream);
    let mut writer = Counted::new(stream);
    let served = served(alloc, desk, &mut reader, &mut writer);
    (served, reader.failures() > 0 || writer.failures() > 0)
}

// What the command gets over the loopback: a client connects and writes it, the desk accepts and answers, and the
// client reads as much as the response is long.
fn got_over_the_loopback<S: Store + Drop>(
    rt: &HostRuntime,
    desk: &mut Desk<S>,
) -> Result<Got, Fail> {
    let listener = TcpListener::bind(rt, SocketAddr::from((Ipv4Addr::LOCALHOST, 0)))?;
    let mut client = TcpStream::connect(rt, listener.local_addr()?)?;
    client.write_all(command().as_bytes())?;
    let (stream, _peer) = listener.accept()?;
    let (served, has_failed) = serve_stream(rt.alloc(), desk, &stream);
    let mut text = vec![in rt.alloc(); 0u8; done().len()]?;
    client.read_exact(&mut text)?;
    Ok(Got {
        served,
        text,
        has_failed,
    })
}

// What it gets of a new desk.
fn got_of_a_new_desk(rt: &HostRuntime) -> Result<Got, Fail> {
    let mut desk = desk(rt.alloc())?;
    let got = got_over_the_loopback(rt, &mut desk);
    let _store = desk.into_store();
    got
}

#[test]
fn a_command_over_the_loopback_gets_its_response(rt: HostRuntime) -> Result<(), Fail> {
    let got = got_of_a_new_desk(&rt)?;
    assert_got(
        &rt,
        &got,
        Served::Answered(StatusCode::OK),
        done(),
        "the loopback",
    );
    Ok(())
}
