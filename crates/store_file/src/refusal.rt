//! Why a database is not opened, as far as its files tell.
use crate::lost_part::refuse_lost;
use sqlite::Unknown;
use sqlite_std_file::OpenError;
use std::io::{self, ErrorKind, Read};
use std::{fmt, fs};

/// The bytes that a database file begins with.
const FIRST_BYTES: &[u8; 16] = b"SQLite format 3\0";

/// Why the database of a path is not opened (S2).
#[derive(Clone, Copy)]
pub enum Refusal {
    /// Another process holds it.
    Held,
    /// The user of this process may not read and write it, or its folder.
    NotWritable,
    /// The disk has no room for its log.
    DiskFull,
    /// It is a folder or a device, or has a second name.
    NotPlain,
    /// It has lost its log, or the log has lost it.
    LostPart,
    /// It is another file than SQLite's.
    NotDatabase,
    /// Its content, or the disk.
    Damaged,
}

impl fmt::Display for Refusal {
    fn fmt<W: fmt::Write>(&self, f: &mut fmt::Formatter<W>) -> fmt::Result {
        f.write_str(match self {
            Refusal::Held => "another process holds it",
            Refusal::NotWritable => "this user may not read and write it",
            Refusal::DiskFull => "the disk is full",
            Refusal::NotPlain => "it is no plain file, or has a second name",
            Refusal::LostPart => "it or its -wal is missing",
            Refusal::NotDatabase => "it is no SQLite database",
            Refusal::Damaged => "it is damaged, or the disk failed",
        })
    }
}

/// Why the database of a path was not opened just now, where that is S2. Its files are looked at once more.
pub fn refusal_at(rt: &HostRuntime, path: &str) -> Refusal {
    match has_first_bytes(rt, path) {
        Ok(true) => {}
        Ok(false) => return Refusal::NotDatabase,
        Err(error) => return unopened(error.kind()),
    }
    if refuse_lost(rt, path).is_err() {
        return Refusal::LostPart;
    }
    match sqlite_std_file::open(rt, path, Unknown) {
        Ok(_files) => Refusal::Damaged,
        Err(OpenError::Busy) => Refusal::Held,
        Err(OpenError::Io(error)) => unopened(error.kind()),
        Err(_) => Refusal::Damaged,
    }
}

fn unopened(kind: ErrorKind) -> Refusal {
    match kind {
        ErrorKind::PermissionDenied | ErrorKind::ReadOnlyFilesystem => Refusal::NotWritable,
        ErrorKind::StorageFull => Refusal::DiskFull,
        ErrorKind::Unsupported | ErrorKind::IsADirectory => Refusal::NotPlain,
        _ => Refusal::Damaged,
    }
}

fn has_first_bytes(rt: &HostRuntime, path: &str) -> io::Result<bool> {
    let mut first = [0u8; 16];
    let mut file = fs::open(rt, path)?;
    match file.read_exact(&mut first) {
        Ok(()) => Ok(&first == FIRST_BYTES),
        Err(error) if error.kind() == ErrorKind::UnexpectedEof => Ok(false),
        Err(error) => Err(error),
    }
}
