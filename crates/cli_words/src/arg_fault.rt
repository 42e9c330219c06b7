//! Why the words of a command line ask nothing.

use crate::version::VERSION;
use std::alloc::AllocError;
use std::fmt;

/// Why the words ask nothing.
#[derive(Drop)]
pub enum ArgFault {
    /// The words are refused, or they ask for help. Its text is `clap`'s.
    Words(clap::Error),
    /// They ask which version this is, by `--version` or `-V`.
    Version,
    /// Memory was refused.
    NoMemory,
}

impl fmt::Display for ArgFault {
    fn fmt<W: fmt::Write>(&self, f: &mut fmt::Formatter<W>) -> fmt::Result {
        match self {
            ArgFault::Words(error) => write!(f, "{error}"),
            ArgFault::Version => writeln!(f, "desk {VERSION}"),
            ArgFault::NoMemory => f.write_str("desk: out of memory\n"),
        }
    }
}

impl From<AllocError> for ArgFault {
    ghost use Rattle.std.specs.Prelude.{◌≡◌};
    ghost use Rattle.cli_words.specs.declared.arg_fault.ArgFault.{ArgFault};

    ghost from_gives = { λ _ fault. fault ≡ ArgFault.NoMemory };

    fn from(_error: AllocError) -> ArgFault {
        ArgFault::NoMemory
    }
}
