//! Why a database was not taken.
ghost use Rattle.std.specs.Prelude.{◌≡◌, ◌⊎◌, IsTrue};
ghost use Rattle.store.specs.declared.open_fault.OpenFault.TheVariants.{Failed, NoMemory};
ghost use Rattle.store_sql.specs.Opened.{reported_as};
ghost use Rattle.store_sql.specs.Opening.{is_sql};

use sqlite::{Error, ErrorCode};
use store::OpenFault;
use store_sql_rows::ReadFault;

/// Why a database was not taken.
#[derive(Clone, Copy, PartialEq, Eq)]
pub enum Refusal {
    /// The database refused, or it failed.
    Sql(Error),
    /// The tables are not the desk's, or of a version that is not known; or there is something where they are to be
    /// made.
    NotOurs,
    /// A row does not say what a row of its table says.
    BadRow,
}

impl Refusal {
    /// The fault that the store reports.
    pub(crate) fn fault(self) -> OpenFault
        ensures reported { result ≡ reported_as self }
        ensures sql { IsTrue (is_sql self) → (result ≡ NoMemory) ⊎ (result ≡ Failed) }
    {
        match self {
            Refusal::Sql(Error::SqliteFailure(ErrorCode::OutOfMemory)) => OpenFault::NoMemory,
            Refusal::Sql(_) => OpenFault::Failed,
            Refusal::NotOurs => OpenFault::UnknownTables,
            Refusal::BadRow => OpenFault::BadRow,
        }
    }
}

impl From<Error> for Refusal {
    ghost use Rattle.std.specs.Prelude.{◌≡◌};
    ghost use Rattle.store_sql.specs.declared.refusal.Refusal.TheVariants.{Sql};

    ghost from_gives = { λ error fault. fault ≡ Sql error };

    fn from(error: Error) -> Refusal {
        Refusal::Sql(error)
    }
}

impl From<ReadFault> for Refusal {
    ghost use Rattle.std.specs.Prelude.{◌≡◌};
    ghost use Rattle.store_sql.specs.Opening.{refusal_of};

    ghost from_gives = { λ fault reported. reported ≡ refusal_of fault };

    fn from(fault: ReadFault) -> Refusal {
        match fault {
            ReadFault::Sql(error) => Refusal::Sql(error),
            ReadFault::BadRow => Refusal::BadRow,
        }
    }
}
