//! Why a content was not pressed.
use std::alloc::AllocFailed;
use std::error::Error;
use std::fmt;

/// Why a content got no number. Nothing changed.
#[derive(Clone, Copy, Debug, PartialEq, Eq)]
pub enum PressFault {
    /// 64 commands are in flight: press again once one of them has heard its last.
    Full,
    /// The last number, 1,000,000,000,000, was used.
    NoNumberLeft,
    /// Memory was refused.
    NoMemory,
}

impl<T: Drop> From<AllocFailed<T>> for PressFault {
    ghost use Rattle.std.specs.Prelude.{◌≡◌};
    ghost use Rattle.panel.specs.declared.press_fault.PressFault.TheVariants.{NoMemory};

    ghost from_gives = { λ _ fault. fault ≡ NoMemory };

    fn from(_refused: AllocFailed<T>) -> PressFault {
        PressFault::NoMemory
    }
}

impl fmt::Display for PressFault {
    ghost use Rattle.std.specs.Prelude.{Some};
    ghost use Rattle.panel.specs.PressFaultText.{text_of};

    ghost output = { λ fault. Some (text_of fault) };

    fn fmt<W: fmt::Write>(&self, f: &mut fmt::Formatter<W>) -> fmt::Result {
        f.write_str(match self {
            PressFault::Full => "64 commands are in flight",
            PressFault::NoNumberLeft => "the last number was used",
            PressFault::NoMemory => "no memory",
        })
    }
}

impl Error for PressFault {}
