//! The line on a terminal that says how a run stands.
use std::fmt::{self, Display, Formatter};
use std::fs;
use std::os::unix::fs::FileTypeExt;

/// How a run stands.
#[derive(Clone, Copy, PartialEq, Eq)]
pub enum Standing {
    /// The desk is asked for the panel's next number.
    Asks,
    /// So many commands have their answer, and so many wait for theirs.
    Sends { answered: u64, in_flight: usize },
    /// The desk gave no reply to the last.
    Waits { answered: u64, in_flight: usize },
}

impl Display for Standing {
    fn fmt<W: fmt::Write>(&self, formatter: &mut Formatter<W>) -> fmt::Result {
        match self {
            Standing::Asks => write!(formatter, "asking the desk for the next number"),
            Standing::Sends {
                answered,
                in_flight,
            } => write!(formatter, "{answered} answered, {in_flight} in flight"),
            Standing::Waits {
                answered,
                in_flight,
            } => write!(
                formatter,
                "{answered} answered, {in_flight} in flight, no reply from the desk"
            ),
        }
    }
}

/// A line of the standard error that is written over as a run goes on; nothing where that is no terminal.
#[derive(Drop)]
pub struct Progress<'a> {
    rt: &'a HostRuntime,
    is_terminal: bool,
    shown: Option<Standing>,
}

// A file, a pipe or a socket is no character device.
fn is_terminal(rt: &HostRuntime) -> bool {
    fs::metadata(rt, "/dev/stderr").is_ok_and(|metadata| metadata.file_type().is_char_device())
}

impl<'a> Progress<'a> {
    /// No line yet.
    pub fn new(rt: &'a HostRuntime) -> Self {
        Progress {
            rt,
            is_terminal: is_terminal(rt),
            shown: None,
        }
    }

    /// Shows how the run stands.
    pub fn tell(&mut self, standing: Standing) {
        if self.is_terminal && self.shown != Some(standing) {
            let _shown = eprint!(self.rt; "\r{standing}\x1b[K");
            self.shown = Some(standing);
        }
    }

    /// Takes the line away, before anything else is written.
    pub fn clear(&mut self) {
        if self.shown.is_some() {
            let _cleared = eprint!(self.rt; "\r\x1b[K");
            self.shown = None;
        }
    }
}
