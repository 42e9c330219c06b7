//! Why nothing was taken of an input.

use std::alloc::AllocError;
use std::io::{self, ErrorKind};

/// Why a read gave nothing.
#[derive(Clone, Copy)]
pub(crate) enum Untaken {
    /// Nothing is there yet.
    Waits,
    /// The read failed.
    Lost,
    /// Memory was refused, and nothing was read.
    NoMemory,
}

impl From<io::Error> for Untaken {
    ghost use Rattle.std.specs.Prelude.{◌≡◌};
    ghost use Rattle.panel_http.specs.Gathering.{IsOfRead};

    ghost from_gives = { λ _ untaken. IsOfRead untaken };

    fn from(error: io::Error) -> Untaken {
        if error.kind() == ErrorKind::WouldBlock {
            Untaken::Waits
        } else {
            Untaken::Lost
        }
    }
}

impl From<AllocError> for Untaken {
    ghost use Rattle.std.specs.Prelude.{◌≡◌};
    ghost use Rattle.panel_http.specs.declared.untaken.Untaken.{Untaken};

    ghost from_gives = { λ _ untaken. untaken ≡ Untaken.NoMemory };

    fn from(_error: AllocError) -> Untaken {
        Untaken::NoMemory
    }
}
