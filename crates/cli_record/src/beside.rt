//! A desk that is opened beside a record.
ghost use Rattle.std.specs.Prelude.{◌≡◌, ◌&&◌, ◌||◌, List, ℕ, IfErr, IfOk, None, Option, Some, false, is_none, is_some, not};
ghost use Rattle.std.specs.Io.Buffered.{reader_remaining};
ghost use Rattle.cli_base.specs.Base.{BeginsOn};
ghost use Rattle.deliveries.specs.Delivered.{Holds};
ghost use Rattle.deliveries.specs.declared.delivery.Delivery.{Delivery as a_delivery};
ghost use Rattle.desk.specs.Opening.{Opens};
ghost use Rattle.store.specs.Standing.{IsSettled};
ghost use Rattle.store_memory.specs.Memory.{standing_of};
ghost use Rattle.store_memory.specs.declared.mem_store.MemStore.{MemStore as a_base};
ghost use Rattle.cli_record.specs.Beside.{HoldsStill, MissesDatabase, OpensBeside, OpensOver, RefusesBeside, RefusesOver, tells_no_database, told_by};
ghost use Rattle.cli_record.specs.Replayed.{MayHave};

use crate::belonging::First;
use crate::beside_fault::BesideFault;
use crate::difference::Difference;
use crate::replayed::{Matched, Replayed, replay_record};
use building::Building;
use cli_base::desk_on;
use cli_common::{ListInput, RunFault};
use desk::Desk;
use std::alloc::Global;
use std::io::{self, BufReader, Read};
use store::{OpenFault, Store};
use store_memory::MemStore;

/// A database, and the call that opens its store.
#[derive(Clone, Copy)]
pub struct Database<'a, O> {
    /// Its path, as it was given.
    pub path: &'a str,
    /// Whether nothing is there yet, so that it would be made.
    pub is_missing: bool,
    /// Opens its store.
    pub opener: O,
}

/// A desk over a store that is the record's own, and the first place of a point where the store has another value than the
/// record makes with the desk's building, if there is one: the building's file may have been edited since.
#[derive(Drop)]
pub struct Beside<S: Store + Drop> {
    pub desk: Desk<S>,
    pub otherwise: Option<Difference>,
}

/// Why no desk is opened, and the store that was, if one was.
#[derive(Drop)]
pub struct Unopened<'a, S> {
    pub fault: BesideFault<'a>,
    pub store: Option<S>,
}

/// The desk over a store that was looked at beside its record.
fn desk_over<'a, S: Store + Drop>(
    alloc: Global,
    matched: Matched,
    store: S,
    record_path: &'a str,
    database: &'a str,
) -> Result<Beside<S>, Unopened<'a, S>>
    ensures opened { IfOk result (λ it. (matched.found.difference ≡ None) × (it.desk.building ≡ matched.building)
        × (it.otherwise ≡ matched.found.otherwise) × Opens matched.building None (S.standing store) (S.standing it.desk.store)) }
    ensures refused { IfErr result (λ end. (told_by end.fault ≡ matched.found.difference)
        × ((left : S) × (end.store ≡ Some left) × (IsSettled (S.standing store) → HoldsStill (S.standing store) (S.standing left)))) }
    ensures found { IfErr result (λ end. tells_no_database end.fault ≡ false) }
{
    let Matched {
        building,
        found: First {
            difference,
            otherwise,
        },
    } = matched;
    if let Some(difference) = difference {
        let fault = BesideFault::OtherRecord {
            path: record_path,
            database,
            difference,
        };
        return Err(Unopened {
            fault,
            store: Some(store),
        });
    }
    match Desk::open(alloc, building, store) {
        Ok(desk) => Ok(Beside { desk, otherwise }),
        Err((fault, store)) => Err(Unopened {
            fault: BesideFault::from(fault),
            store: Some(store),
        }),
    }
}

/// The desk over a store, once the store is seen to be the record's own.
fn open_over<'a, S: Store + Drop, T: Store + Drop>(
    alloc: Global,
    replayed: Replayed<T>,
    store: S,
    record_path: &'a str,
    database: &'a str,
) -> Result<Beside<S>, Unopened<'a, S>>
    requires honest { (t : T) → (T.standing t).is_honest }
    ensures building { IfOk result (λ it. it.desk.building ≡ replayed.building) }
    ensures opened { IfOk result (λ it. OpensOver replayed.building replayed.last (T.standing replayed.store) it.otherwise
        (S.standing store) (S.standing it.desk.store)) }
    ensures refused { IfErr result (λ end. (left : S) × (end.store ≡ Some left)
        × RefusesOver replayed.building replayed.last (T.standing replayed.store) (S.standing store) (S.standing left) end.fault) }
    ensures found { IfErr result (λ end. tells_no_database end.fault ≡ false) }
{
    let mut store = store;
    match replayed.matched(alloc, &mut store) {
        Ok(matched) => desk_over(alloc, matched, store, record_path, database),
        Err(fault) => Err(Unopened {
            fault: BesideFault::from(RunFault::from(fault)),
            store: Some(store),
        }),
    }
}

/// Whether a database is missing beside a record that stands on a base, or has deliveries.
fn lacks_database<T: Store + Drop>(is_missing: bool, has_base: bool, replayed: &Replayed<T>) -> bool
    ensures { result ≡ (is_missing && (has_base || not (is_none replayed.now.last))) }
{
    is_missing && (has_base || !replayed.is_empty())
}

/// The same, over the record that is read and the store that is opened. The record is replayed to this desk, whose store is
/// always honest, and which may stand on a base.
#[tactic(auto, using(crate::proofs::BesideLemmas::misses_none))]
fn open_with<'a, R: Read + Drop, P, S: Store + Drop, O, T: Store + Drop>(
    alloc: Global,
    desk: Desk<T>,
    has_base: bool,
    list: ListInput<'a, P>,
    database: Database<'a, O>,
) -> Result<Beside<S>, Unopened<'a, S>>
where
    P: FnOnce() -> io::Result<Option<BufReader<R>>>,
    O: FnOnce() -> Result<S, OpenFault>,
    requires read { P.IsAlwaysCallable list.open }
    requires opened { O.IsAlwaysCallable database.opener }
    requires honest { (t : T) → (T.standing t).is_honest }
    ensures building { IfOk result (λ it. it.desk.building ≡ desk.building) }
    ensures opened { (base : Option a_base) → is_some base ≡ has_base
        → ((earlier : List a_delivery) → BeginsOn standing_of desk.building earlier base → Holds desk.building earlier (T.standing desk.store))
        → IfOk result (λ it. OpensBeside S.standing (O.post database.entry.opener) database.entry.is_missing desk.building
        base (MayHave (P.post list.entry.open) (reader_remaining R.remaining)) it.otherwise (S.standing it.desk.store)) }
    ensures refused { (base : Option a_base) → is_some base ≡ has_base
        → ((earlier : List a_delivery) → BeginsOn standing_of desk.building earlier base → Holds desk.building earlier (T.standing desk.store))
        → IfErr result (λ end. (left : S) → end.store ≡ Some left
        → RefusesBeside S.standing (O.post database.entry.opener) database.entry.is_missing desk.building
        base (MayHave (P.post list.entry.open) (reader_remaining R.remaining)) end.fault (S.standing left)) }
    ensures told { IfErr result (λ end. end.store ≡ None → told_by end.fault ≡ None) }
    ensures no_database { (base : Option a_base) → is_some base ≡ has_base
        → ((earlier : List a_delivery) → BeginsOn standing_of desk.building earlier base → Holds desk.building earlier (T.standing desk.store))
        → IfErr result (λ end. MissesDatabase database.entry.is_missing desk.building
        base (MayHave (P.post list.entry.open) (reader_remaining R.remaining)) end.fault) }
{
    let record_path = list.path;
    let Database {
        path,
        is_missing,
        opener,
    } = database;
    let replayed = match replay_record(alloc, desk, list) {
        Ok(replayed) => replayed,
        Err(fault) => {
            return Err(Unopened {
                fault: BesideFault::of_replay(fault, record_path),
                store: None,
            });
        }
    };
    if lacks_database(is_missing, has_base, &replayed) {
        let fault = BesideFault::NoDatabase {
            path: record_path,
            database: path,
        };
        return Err(Unopened { fault, store: None });
    }
    match opener() {
        Ok(store) => open_over(alloc, replayed, store, record_path, path),
        Err(fault) => Err(Unopened {
            fault: BesideFault::from(RunFault::from(fault)),
            store: None,
        }),
    }
}

/// Opens a desk of a building over the store of a database, beside the record of a path, which may stand on a base: once
/// the store is seen to be the record's own (`Replayed::matched`). The record is read through first; a database that is
/// missing is opened, which makes it, only beside a record that is missing or empty too, and stands on no base. Else the
/// fault says where they differ first, and the store was only read. What the record makes otherwise than the store has it,
/// with the building, is told with the desk.
#[tactic(auto, using(crate::proofs::BesideLemmas::misses_none))]
pub fn open_beside<'a, R: Read + Drop, P, S: Store + Drop, O>(
    alloc: Global,
    building: Building,
    list: ListInput<'a, P>,
    base: Option<MemStore>,
    database: Database<'a, O>,
) -> Result<Beside<S>, Unopened<'a, S>>
where
    P: FnOnce() -> io::Result<Option<BufReader<R>>>,
    O: FnOnce() -> Result<S, OpenFault>,
    requires read { P.IsAlwaysCallable list.open }
    requires opened { O.IsAlwaysCallable database.opener }
    ensures building { IfOk result (λ it. it.desk.building ≡ building) }
    ensures opened { IfOk result (λ it. OpensBeside S.standing (O.post database.entry.opener) database.entry.is_missing building
        base (MayHave (P.post list.entry.open) (reader_remaining R.remaining)) it.otherwise (S.standing it.desk.store)) }
    ensures refused { IfErr result (λ end. (left : S) → end.store ≡ Some left
        → RefusesBeside S.standing (O.post database.entry.opener) database.entry.is_missing building
        base (MayHave (P.post list.entry.open) (reader_remaining R.remaining)) end.fault (S.standing left)) }
    ensures told { IfErr result (λ end. end.store ≡ None → told_by end.fault ≡ None) }
    ensures no_database { IfErr result (λ end. MissesDatabase database.entry.is_missing building
        base (MayHave (P.post list.entry.open) (reader_remaining R.remaining)) end.fault) }
{
    let has_base = base.is_some();
    match desk_on(alloc, building, base) {
        Ok(desk) => open_with(alloc, desk, has_base, list, database),
        Err(fault) => Err(Unopened {
            fault: BesideFault::from(fault),
            store: None,
        }),
    }
}
