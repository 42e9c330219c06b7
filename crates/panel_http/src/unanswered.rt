//! Why there is no response that says what is so.

use desk_record::Undelivered;
use store::StoreFault;

/// Why a request has no response of its own.
#[derive(Clone, Copy)]
pub enum Unanswered {
    /// Memory was refused, and nothing was delivered.
    NoMemory,
    /// Memory for the response was refused. Its delivery is made.
    NoReply,
    /// The record can't be written, and nothing was delivered.
    NotRecorded,
    /// The store failed, or was shut.
    Store,
}

impl From<StoreFault> for Unanswered {
    ghost use Rattle.std.specs.Prelude.{◌≡◌};
    ghost use Rattle.panel_http.specs.Answers.{of_fault};

    ghost from_gives = { λ fault unanswered. unanswered ≡ of_fault fault };

    fn from(fault: StoreFault) -> Unanswered {
        match fault {
            StoreFault::NoMemory => Unanswered::NoMemory,
            StoreFault::Failed | StoreFault::Shut | StoreFault::BadRow => Unanswered::Store,
        }
    }
}

impl From<Undelivered> for Unanswered {
    ghost use Rattle.std.specs.Prelude.{◌≡◌};
    ghost use Rattle.panel_http.specs.Answers.{of_undelivered};

    ghost from_gives = { λ fault unanswered. unanswered ≡ of_undelivered fault };

    fn from(fault: Undelivered) -> Unanswered {
        match fault {
            Undelivered::NoMemory => Unanswered::NoMemory,
            Undelivered::NotRecorded => Unanswered::NotRecorded,
            Undelivered::Store(fault) => Unanswered::from(fault),
        }
    }
}
