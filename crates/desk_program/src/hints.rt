//! The hints at a building, and at a holiday list.
use crate::input_at;
use building_hints::hints;
use cli_common::Status;
use std::io::{self, BufWriter};

/// Prints the hints at the building of a path, and at the holiday list of another. It is an error where memory for the
/// output's buffer is refused.
pub fn run<'a>(rt: &HostRuntime, file: &'a str, list: Option<&'a str>) -> io::Result<Status> {
    let mut out = BufWriter::new(rt.alloc(), io::writer(rt))?;
    let building = input_at(rt, file);
    let list = match list {
        Some(path) => Some(input_at(rt, path)),
        None => None,
    };
    Ok(hints(rt.alloc(), building, list, &mut out, &mut rt.stderr()))
}
