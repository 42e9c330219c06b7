//! Have the files of a path lost a part of a database?
ghost use Rattle.std.specs.Prelude.{◌↔◌, IsTrue};
ghost use Rattle.store_file.specs.Lost.{HasLostPart};

use std::fs;
use std::io::{self, ErrorKind, Read};
use store::OpenFault;

/// The length of a database file's header up to the size of its pages.
const HEADER: usize = 18;

/// The largest page, which two bytes can't hold.
const LARGEST_PAGE: u64 = 65_536;

/// The least length of a log with a frame: its header, and that of a frame.
const LEAST_LOG: u64 = 32 + 24;

/// What the header of a database file says of the size of its pages; 0 where it has none.
pub(crate) fn page_size_on_disk(rt: &HostRuntime, path: &str) -> io::Result<u16> {
    let mut header = [0u8; HEADER];
    let mut file = fs::open(rt, path)?;
    match file.read_exact(&mut header) {
        Ok(()) => Ok(u16::from_be_bytes([header[16], header[17]])),
        Err(_) => Ok(0),
    }
}

/// The bytes of a page at most, as the header says its size.
fn page_bytes(size: u16) -> u64 {
    match size {
        0 | 1 => LARGEST_PAGE,
        size => u64::from(size),
    }
}

/// Whether a database file of this length, which has pages of such a size, or its log has lost the other. A missing
/// file has no length.
fn has_lost_part(database: u64, page: u64, log: Option<u64>) -> bool
    ensures { IsTrue result ↔ HasLostPart database page log }
{
    match log {
        Some(length) => database == 0 && length >= LEAST_LOG,
        None => 0 < database && database <= page,
    }
}

/// The length of the file of a path, if there is one.
fn length_at(rt: &HostRuntime, path: &str) -> io::Result<Option<u64>> {
    match fs::metadata(rt, path) {
        Ok(found) => Ok(Some(found.len())),
        Err(error) if error.kind() == ErrorKind::NotFound => Ok(None),
        Err(error) => Err(error),
    }
}

/// The path of the log of a database, which lies where a link leads.
pub(crate) fn log_path(rt: &HostRuntime, path: &str) -> io::Result<String> {
    match fs::canonicalize(rt, path) {
        Ok(real) => Ok(format!(in rt.alloc(); "{}-wal", real.as_str())?),
        Err(error) if error.kind() == ErrorKind::NotFound => {
            Ok(format!(in rt.alloc(); "{path}-wal")?)
        }
        Err(error) => Err(error),
    }
}

/// The bytes of a page at most of a database file of this length.
fn page_at(rt: &HostRuntime, path: &str, database: u64) -> io::Result<u64> {
    if database == 0 {
        return Ok(LARGEST_PAGE);
    }
    Ok(page_bytes(page_size_on_disk(rt, path)?))
}

/// Whether a part of the database of a path is lost.
fn lacks_part(rt: &HostRuntime, path: &str) -> io::Result<bool> {
    let database = length_at(rt, path)?.unwrap_or(0);
    let log = length_at(rt, &log_path(rt, path)?)?;
    Ok(has_lost_part(database, page_at(rt, path, database)?, log))
}

/// Refuses the files of a path that have lost a part of a database, before they are opened: that makes what is missing,
/// and a database would be begun anew.
pub(crate) fn refuse_lost(rt: &HostRuntime, path: &str) -> Result<(), OpenFault> {
    match lacks_part(rt, path) {
        Ok(false) => Ok(()),
        Ok(true) => Err(OpenFault::Failed),
        Err(error) => match error.kind() {
            ErrorKind::OutOfMemory => Err(OpenFault::NoMemory),
            _ => Err(OpenFault::Failed),
        },
    }
}
