//! A store in a database of SQLite.
ghost use Rattle.std.specs.Prelude.{◌≡◌, ◌↔◌, ◌⊎◌, IfErr, IfOk, IsTrue, false};
ghost use Rattle.sqlite.specs.Held.{state};
ghost use Rattle.sqlite.specs.State.{HasCleanDisk};
ghost use Rattle.store_sql_rows.specs.Creating.{IsAsBefore};
ghost use Rattle.store_sql.specs.Opening.{IsBare, IsKnown};
ghost use Rattle.store.specs.Tables.{no_tables};
ghost use Rattle.store.specs.Standing.{sound};
ghost use Rattle.store_sql.specs.Opened.{HasCause, IsFaultOfNone, IsFaultOver, IsOpened, SurvivesMaking, SurvivesTaking, left_by};
ghost use Rattle.store_sql.specs.Standing.{IsFit, standing_of};
ghost use Rattle.store.specs.declared.open_fault.OpenFault.TheVariants.{Failed, NoMemory, UnknownTables};

use crate::committing::commit_change;
use crate::entries::entries_of;
use crate::finding::{last_tick, next_of, shown_by};
use crate::making::{is_bare, make};
use crate::names::names_of;
use crate::placing::array_of;
use crate::rows::{command_of, commands_run};
use crate::session::Session;
use crate::taking::take;
use dates::Entry;
use points::{CommandRow, Name, NumberedRow, PriorityArray};
use sqlite::{Alter, Connection};
use std::alloc::Global;
use std::marker::Model;
use store::{Change, Names, OpenFault, Store, StoreFault};
use store_sql_rows::RowNumbers;

/// A store that keeps its tables in a database of SQLite. It fails for lack of memory, and where the device or the
/// database fails, which shuts it: it is opened again.
#[derive(Drop)]
pub struct SqlStore<S: Alter + Drop> {
    alloc: Global,
    session: Session<S>,
    /// The numbers of rows that were read or added, so that they are found faster.
    numbers: RowNumbers,
}

impl<S: Alter + Drop> Model for SqlStore<S> {
    ghost use Rattle.sqlite.specs.Held.{state};
    ghost use Rattle.store_sql.specs.Standing.{IsFit, session_code};
    ghost use Rattle.store_sql.specs.declared.session.Session.{Session};

    ghost Value = { Session S };

    ghost coded = { session_code S.code };

    ghost view = { λ store. store.session };

    ghost invariant = { λ store. IsFit (state S.Store store.session.connection) store.session.is_shut };
}

impl<S: Alter + Drop> SqlStore<S> {
    // A store over a connection that stands over the six tables.
    fn over(alloc: Global, connection: Connection<S>) -> SqlStore<S>
        requires fit { IsFit (state S.Store connection) false }
        ensures session { result ≡ record { connection = connection; failures = 0; is_shut = false } }
    {
        SqlStore {
            alloc,
            session: Session {
                connection,
                failures: 0,
                is_shut: false,
            },
            numbers: RowNumbers::new(alloc),
        }
    }

    /// Makes the six tables, which are empty, in a database that has nothing. S4 where the connection is in a
    /// transaction or something is in the database. A refusal hands the connection back.
    pub fn create(
        alloc: Global,
        connection: Connection<S>,
    ) -> Result<SqlStore<S>, (OpenFault, Connection<S>)>
        ensures empty { IfOk result (λ store. (standing_of S.Store store).is_honest
            → (standing_of S.Store store).content ≡ sound no_tables) }
        ensures open { IfOk result (λ store. ((standing_of S.Store store).is_shut ≡ false) × ((standing_of S.Store store).failures ≡ 0)) }
        ensures bare { IfOk result (λ store. IsBare (state S.Store connection)) }
        ensures faults { IfErr result (λ refused. IsFaultOfNone refused.0) }
        ensures unknown { IfErr result (λ refused. (refused.0 ≡ UnknownTables) ↔ (IsBare (state S.Store connection) → ⊥)) }
        ensures unchanged { IfErr result (λ refused. HasCleanDisk (state S.Store refused.1)
            → IsTrue (state S.Store refused.1).is_open → IsAsBefore (state S.Store connection) (state S.Store refused.1)) }
        ensures cause { IfErr result (λ refused. HasCleanDisk (state S.Store refused.1)
            → HasCause (state S.Store connection) (state S.Store refused.1) refused.0) }
        ensures survives { SurvivesMaking (state S.Store connection) (state S.Store (left_by result)) }
    {
        let mut connection = connection;
        match make(&mut connection) {
            Ok(()) => Ok(SqlStore::over(alloc, connection)),
            Err(refusal) => Err((refusal.fault(), connection)),
        }
    }

    /// Opens the six tables that a connection holds. Tables of version 1 are of version 2 from then on, without the
    /// rows of each panel more than 1,000 below its next number: in one transaction, so that a stop leaves the one or
    /// the other. S4 where the connection is in a transaction, or the tables are others, or of another version; S5
    /// where a row that has to be read cannot stand. A refusal hands the connection back.
    pub fn open(
        alloc: Global,
        connection: Connection<S>,
    ) -> Result<SqlStore<S>, (OpenFault, Connection<S>)>
        ensures opened { IfOk result (λ store. (standing_of S.Store store).is_honest
            → IsOpened (state S.Store connection) (state S.Store store.connection)) }
        ensures open { IfOk result (λ store. ((standing_of S.Store store).is_shut ≡ false) × ((standing_of S.Store store).failures ≡ 0)) }
        ensures unchanged { IfErr result (λ refused. HasCleanDisk (state S.Store refused.1)
            → IsTrue (state S.Store refused.1).is_open → IsAsBefore (state S.Store connection) (state S.Store refused.1)) }
        ensures cause { IfErr result (λ refused. HasCleanDisk (state S.Store refused.1)
            → HasCause (state S.Store connection) (state S.Store refused.1) refused.0) }
        ensures known { IsKnown (state S.Store connection)
            → IfErr result (λ refused. HasCleanDisk (state S.Store refused.1) → IsFaultOver (state S.Store connection) refused.0) }
        ensures unknown { (IsKnown (state S.Store connection) → ⊥)
            → IfErr result (λ refused. HasCleanDisk (state S.Store refused.1) → IsFaultOfNone refused.0) }
        ensures was_known { IfOk result (λ store. (standing_of S.Store store).is_honest → IsKnown (state S.Store connection)) }
        ensures survives { SurvivesTaking (state S.Store connection) (state S.Store (left_by result)) }
    {
        let mut connection = connection;
        match take(alloc, &mut connection) {
            Ok(()) => Ok(SqlStore::over(alloc, connection)),
            Err(refusal) => Err((refusal.fault(), connection)),
        }
    }

    /// Makes the tables where nothing is in the database, and else opens those that it has.
    pub fn create_or_open(
        alloc: Global,
        connection: Connection<S>,
    ) -> Result<SqlStore<S>, (OpenFault, Connection<S>)>
        ensures empty { IsBare (state S.Store connection)
            → IfOk result (λ store. (standing_of S.Store store).is_honest → (standing_of S.Store store).content ≡ sound no_tables) }
        ensures opened { (IsBare (state S.Store connection) → ⊥)
            → IfOk result
            (λ store. (standing_of S.Store store).is_honest → IsOpened (state S.Store connection) (state S.Store store.connection)) }
        ensures open { IfOk result (λ store. ((standing_of S.Store store).is_shut ≡ false) × ((standing_of S.Store store).failures ≡ 0)) }
        ensures unchanged { IfErr result (λ refused. HasCleanDisk (state S.Store refused.1)
            → IsTrue (state S.Store refused.1).is_open → IsAsBefore (state S.Store connection) (state S.Store refused.1)) }
        ensures cause { IfErr result (λ refused. HasCleanDisk (state S.Store refused.1)
            → HasCause (state S.Store connection) (state S.Store refused.1) refused.0) }
        ensures unmade { IsBare (state S.Store connection)
            → IfErr result (λ refused. (refused.0 ≡ NoMemory) ⊎ (refused.0 ≡ Failed)) }
        ensures known { IsKnown (state S.Store connection)
            → IfErr result (λ refused. HasCleanDisk (state S.Store refused.1) → IsFaultOver (state S.Store connection) refused.0) }
        ensures unknown { (IsBare (state S.Store connection) → ⊥) → (IsKnown (state S.Store connection) → ⊥)
            → IfErr result (λ refused. HasCleanDisk (state S.Store refused.1) → IsFaultOfNone refused.0) }
        ensures was_known { (IsBare (state S.Store connection) → ⊥)
            → IfOk result (λ store. (standing_of S.Store store).is_honest → IsKnown (state S.Store connection)) }
        ensures survives_making { IsBare (state S.Store connection)
            → SurvivesMaking (state S.Store connection) (state S.Store (left_by result)) }
        ensures survives_taking { (IsBare (state S.Store connection) → ⊥)
            → SurvivesTaking (state S.Store connection) (state S.Store (left_by result)) }
    {
        if is_bare(&connection) {
            SqlStore::create(alloc, connection)
        } else {
            SqlStore::open(alloc, connection)
        }
    }

    /// The connection, also of a store that a failure has shut.
    pub fn into_connection(self) -> Connection<S>
        ensures { result ≡ self.connection }
    {
        self.session.connection
    }
}

impl<S: Alter + Drop> Store for SqlStore<S> {
    ghost use Rattle.store_sql.specs.Standing.{standing_of};

    ghost standing = { standing_of S.Store };

    fn panel_next(&mut self, panel: &Name) -> Result<u64, StoreFault> {
        if self.session.is_shut {
            return Err(StoreFault::Shut);
        }
        let asked = next_of(&mut self.session.connection, &mut self.numbers, panel);
        self.session.tell(asked)
    }

    fn command(&mut self, panel: &Name, number: u64) -> Result<Option<CommandRow>, StoreFault> {
        if self.session.is_shut {
            return Err(StoreFault::Shut);
        }
        let asked = command_of(&mut self.session.connection, panel, number);
        self.session.tell(asked)
    }

    fn commands_run(
        &mut self,
        panel: &Name,
        from: u64,
        upto: u64,
    ) -> Result<Vec<NumberedRow>, StoreFault> {
        if self.session.is_shut {
            return Err(StoreFault::Shut);
        }
        let asked = commands_run(self.alloc, &mut self.session.connection, panel, from, upto);
        self.session.tell(asked)
    }

    fn array(&mut self, point: &Name) -> Result<PriorityArray, StoreFault> {
        if self.session.is_shut {
            return Err(StoreFault::Shut);
        }
        let asked = array_of(&mut self.session.connection, &mut self.numbers, point);
        self.session.tell(asked)
    }

    fn shown(&mut self, schedule: &Name) -> Result<Option<Option<i64>>, StoreFault> {
        if self.session.is_shut {
            return Err(StoreFault::Shut);
        }
        let asked = shown_by(&mut self.session.connection, &mut self.numbers, schedule);
        self.session.tell(asked)
    }

    fn last_tick(&mut self) -> Result<Option<i64>, StoreFault> {
        if self.session.is_shut {
            return Err(StoreFault::Shut);
        }
        let asked = last_tick(&mut self.session.connection);
        self.session.tell(asked)
    }

    fn entries(&mut self, calendar: &Name) -> Result<Vec<Entry>, StoreFault> {
        if self.session.is_shut {
            return Err(StoreFault::Shut);
        }
        let asked = entries_of(self.alloc, &mut self.session.connection, calendar);
        self.session.tell(asked)
    }

    fn names(&mut self) -> Result<Names, StoreFault> {
        if self.session.is_shut {
            return Err(StoreFault::Shut);
        }
        let asked = names_of(self.alloc, &mut self.session.connection, &mut self.numbers);
        self.session.tell(asked)
    }

    fn commit(&mut self, change: &Change) -> Result<(), StoreFault> {
        if self.session.is_shut {
            return Err(StoreFault::Shut);
        }
        let connection = &mut self.session.connection;
        match commit_change(self.alloc, connection, &mut self.numbers, change) {
            Ok(()) => Ok(()),
            Err(error) => Err(self.session.refuse(error)),
        }
    }

    fn failures(&self) -> u64 {
        self.session.failures
    }
}
