//! The journal's file.
use crate::fault::Fault;
use panel::{Entry, PanelEnd, PressFault, entry_of, line_of};
use points::Name;
use std::alloc::Global;
use std::fs::{self, File, OpenOptions};
use std::io::{self, ErrorKind, Read, Write};

/// A journal, open to be written on, and the panel's end that it leads to: none where the journal is empty.
#[derive(Drop)]
pub struct Opened {
    pub file: File,
    pub end: Option<PanelEnd>,
}

// The end that a first entry begins.
fn begun(alloc: Global, name: Name, entry: &Entry) -> Result<PanelEnd, Fault> {
    match entry {
        Entry::Began { panel, first } => {
            if *panel != name {
                return Err(Fault::OtherPanel);
            }
            match first.checked_sub(64) {
                Some(next) => Ok(PanelEnd::resume(alloc, name, next)?),
                None => Err(Fault::Journal(1)),
            }
        }
        _ => Err(Fault::Journal(1)),
    }
}

// Takes an entry up; false where it is not in its place.
fn take(end: &mut PanelEnd, entry: &Entry) -> Result<bool, Fault> {
    match entry {
        Entry::Began { .. } => Ok(false),
        Entry::Pressed { number, content } => {
            if *number != end.next_number() {
                return Ok(false);
            }
            match end.press(content) {
                Ok(given) => {
                    end.keep(given);
                    Ok(true)
                }
                Err(PressFault::NoMemory) => Err(Fault::NoMemory),
                Err(_) => Ok(false),
            }
        }
        Entry::Heard { reply } => {
            let _command = end.hear(reply);
            Ok(true)
        }
        Entry::GaveUp { number } => {
            end.give_up(*number);
            Ok(true)
        }
    }
}

// The end that the lines of a journal lead to.
fn taken_up(alloc: Global, name: Name, text: &[u8]) -> Result<Option<PanelEnd>, Fault> {
    let mut end = None;
    let mut number = 0u64;
    for line in text.split(|byte| *byte == b'\n') {
        number = number.saturating_add(1);
        if line.is_empty() {
            continue;
        }
        let Some(entry) = entry_of(alloc, line)? else {
            return Err(Fault::Journal(number));
        };
        end = Some(match end {
            None => begun(alloc, name, &entry)?,
            Some(mut end) => {
                if !take(&mut end, &entry)? {
                    return Err(Fault::Journal(number));
                }
                end
            }
        });
    }
    Ok(end)
}

// How many bytes of a journal are whole lines.
fn whole_lines(text: &[u8]) -> usize {
    text.iter()
        .rposition(|byte| *byte == b'\n')
        .map_or(0, |last| last.saturating_add(1))
}

/// The panel's end that the journal of a path leads to; none where there is no journal. Nothing is written.
pub fn look(rt: &HostRuntime, name: Name, path: &str) -> Result<Option<PanelEnd>, Fault> {
    match fs::read(rt, path) {
        Ok(text) => {
            let whole = whole_lines(text.as_slice());
            taken_up(rt.alloc(), name, text.get(..whole).unwrap_or(&[]))
        }
        Err(error) => match error.kind() {
            ErrorKind::NotFound => Ok(None),
            _ => Err(Fault::Io(error)),
        },
    }
}

// Has the disk keep the name of a journal, which may be new.
fn keep_name(rt: &HostRuntime, path: &str) -> io::Result<()> {
    let folder = match path.rsplit_once('/') {
        Some(("", _)) => "/",
        Some((folder, _)) => folder,
        None => ".",
    };
    File::open(rt, folder)?.sync_all()
}

/// Opens the journal of a path for this run alone, or makes an empty one. What a stop left of a last line is cut off:
/// nothing of it was sent.
pub fn open(rt: &HostRuntime, name: Name, path: &str) -> Result<Opened, Fault> {
    let alloc = rt.alloc();
    let mut file = OpenOptions::new()
        .read(true)
        .append(true)
        .create(true)
        .open(rt, path)?;
    if file.try_lock().is_err() {
        return Err(Fault::InUse);
    }
    let mut text = Vec::new(alloc);
    file.read_to_end(&mut text)?;
    if text.is_empty() {
        keep_name(rt, path)?;
    }
    let whole = whole_lines(text.as_slice());
    if whole < text.len() {
        file.set_len(whole as u64)?;
        text.truncate(whole);
    }
    let end = taken_up(alloc, name, text.as_slice())?;
    Ok(Opened { file, end })
}

/// Writes an entry at the end of a journal.
pub fn append(alloc: Global, file: &mut File, entry: &Entry) -> Result<(), Fault> {
    let line = line_of(alloc, entry)?;
    file.write_all(line.as_bytes())?;
    Ok(())
}

/// Writes an entry, and returns once the disk has it.
pub fn keep(alloc: Global, file: &mut File, entry: &Entry) -> Result<(), Fault> {
    append(alloc, file, entry)?;
    file.sync_data()?;
    Ok(())
}
