//! One delivery over HTTP, and its reply.
use crate::fault::Fault;
use deliveries::{Delivery, Reply};
use panel::{Entry, line_of, reply_of};
use points::Name;
use std::alloc::Global;
use std::io::{self, Read, Write};
use std::net::{TcpStream, ToSocketAddrs};
use std::time::{Duration, Instant};

// How many seconds a connection, a write, a read, and all reads of a response may take.
const LIMIT: u64 = 6;

// The longest response that is read.
const LONGEST: usize = 65_536;

// The target's last part, and the body, of a delivery.
fn body_of(alloc: Global, delivery: &Delivery) -> Result<String, Fault> {
    match delivery {
        Delivery::Command {
            number,
            content,
            ..
        } => {
            let number = u64::try_from(*number).unwrap_or(0);
            let entry = Entry::Pressed {
                number,
                content: *content,
            };
            Ok(line_of(alloc, &entry)?)
        }
        Delivery::Skip { upto, .. } => Ok(format!(in alloc; "{{\"upto\":{upto}}}\n")?),
        _ => Ok(String::new(alloc)),
    }
}

fn route_of(delivery: &Delivery) -> &'static str {
    match delivery {
        Delivery::Skip { .. } => "skip",
        _ => "commands",
    }
}

// The request of a delivery.
fn request_of(
    alloc: Global,
    address: &str,
    name: &Name,
    delivery: &Delivery,
) -> Result<String, Fault> {
    let body = body_of(alloc, delivery)?;
    let (route, size) = (route_of(delivery), body.as_str().len());
    let mut request = format!(in alloc;
        "POST /panels/{name}/{route} HTTP/1.1\r\nHost: {address}\r\nContent-Length: {size}\r\nConnection: close\r\n\r\n"
    )?;
    request.push_str(body.as_str())?;
    Ok(request)
}

// Reads to the end of a response, or for the limit.
fn read_response(rt: &HostRuntime, stream: &TcpStream) -> io::Result<Vec<u8>> {
    let (began, limit) = (Instant::now(rt)?, Duration::from_secs(LIMIT));
    let mut response = Vec::new(rt.alloc());
    let mut block = [0u8; 4_096];
    let mut stream = stream;
    for _ in 0..u64::MAX {
        let count = stream.read(&mut block)?;
        if count == 0 || LONGEST < response.len() || limit <= began.elapsed(rt)? {
            break;
        }
        response.extend_from_slice(&block[..count])?;
    }
    Ok(response)
}

// Sends a request over a new connection, and reads the response.
fn exchanged(rt: &HostRuntime, address: &str, request: &str) -> io::Result<Vec<u8>> {
    let limit = Duration::from_secs(LIMIT);
    let mut response = Vec::new(rt.alloc());
    for place in address.to_socket_addrs(rt)? {
        let stream = TcpStream::connect_timeout(rt, &place, limit)?;
        stream.set_read_timeout(Some(limit))?;
        stream.set_write_timeout(Some(limit))?;
        let mut writer = &stream;
        writer.write_all(request.as_bytes())?;
        response = read_response(rt, &stream)?;
        break;
    }
    Ok(response)
}

// What stands behind the head of a response: nothing where the head has no end.
fn body_in(response: &[u8]) -> &[u8] {
    for (index, part) in response.windows(4).enumerate() {
        if part == b"\r\n\r\n".as_slice() {
            return &response[index + 4..];
        }
    }
    &[]
}

/// Sends a delivery, and answers its reply: none where the connection fails, or where what comes back is no answer of
/// the desk to a panel.
pub fn exchange(
    rt: &HostRuntime,
    address: &str,
    name: &Name,
    delivery: &Delivery,
) -> Result<Option<Reply>, Fault> {
    let request = request_of(rt.alloc(), address, name, delivery)?;
    match exchanged(rt, address, request.as_str()) {
        Ok(response) => Ok(reply_of(rt.alloc(), body_in(response.as_slice()))?),
        Err(_) => Ok(None),
    }
}
