//! The record of a run.
ghost use Rattle.std.specs.Prelude.{◌≡◌, List, None, IfOk};
ghost use Rattle.deliveries.specs.declared.delivery.Delivery.{Delivery as a_delivery};
ghost use Rattle.desk_record.specs.Recorded.{listed};
ghost use Rattle.cli_store.specs.Answered.{Opens};
ghost use Rattle.cli_store.specs.Keeper.{standing_of};
ghost use Rattle.cli_store.specs.Recorded.{IsTakenUp};

use building::Building;
use cli_common::RunFault;
use cli_record::Database;
use deliveries::Delivery;
use desk::Desk;
use desk_record::{Record, RecordFault, Recorder, ResumeFault, resume};
use sqlite_disk::Disk;
use std::alloc::Global;
use store::{OpenFault, Store, StoreFault};
use store_memory::MemStore;

/// Where a run writes its deliveries down.
#[derive(Drop)]
pub struct Recording<'a, P, Q> {
    /// The path of the record; nothing where none is kept.
    pub path: Option<&'a str>,
    /// The tables of its base, if it stands on one.
    pub base: Option<MemStore>,
    /// Opens its file to be read, if there is one.
    pub reader: P,
    /// Opens its file to be written, which is made where there is none.
    pub opener: Q,
}

/// What a run opens, once the file of its building is read: the store, and then its record, if it keeps one.
#[derive(Drop)]
pub struct Opening<'a, O, P, Q> {
    /// The database, and what opens the store.
    pub database: Database<'a, O>,
    /// Where its deliveries are written down.
    pub recording: Recording<'a, P, Q>,
}

/// The record of a run, if it keeps one.
#[derive(Drop)]
pub(crate) struct Keeper<R> {
    kept: Option<R>,
    /// Whether it was shut, since the store failed.
    is_shut: bool,
    /// Whether the record couldn't be written.
    has_failed: bool,
}

impl<R: Recorder> Keeper<R> {
    /// Whether the record couldn't be written.
    pub(crate) fn has_failed(&self) -> bool {
        self.has_failed
    }

    /// Takes note of how a write ended.
    fn note(&mut self, ended: Result<(), RecordFault>) -> Result<(), RecordFault>
        ensures same { result ≡ ended }
        ensures kept { self.new.kept ≡ self.old.kept }
    {
        if let Err(RecordFault::Failed) = ended {
            self.has_failed = !self.is_shut;
        }
        ended
    }
}

impl<R: Recorder> Recorder for Keeper<R> {
    ghost standing = { standing_of R.Recorder.standing };

    fn write_down(
        &mut self,
        alloc: Global,
        building: &Building,
        delivery: &Delivery,
    ) -> Result<(), RecordFault> {
        let Some(record) = &mut self.kept else {
            return Ok(());
        };
        let ended = record.write_down(alloc, building, delivery);
        self.note(ended)
    }

    fn take_back(&mut self) -> Result<(), RecordFault> {
        let Some(record) = &mut self.kept else {
            return Ok(());
        };
        let ended = record.take_back();
        self.note(ended)
    }

    fn shut(&mut self) {
        self.is_shut = true;
        if let Some(record) = &mut self.kept {
            record.shut();
        }
    }
}

/// What ends a run whose record, of this path, is not opened or taken up.
fn fault_of<'a>(fault: ResumeFault, path: &'a str) -> RunFault<'a> {
    match fault {
        ResumeFault::NoMemory | ResumeFault::Store(StoreFault::NoMemory) => RunFault::NoMemory,
        ResumeFault::NotRead => RunFault::CannotRead { path },
        ResumeFault::NotWritten => RunFault::CannotWrite { path },
        ResumeFault::NotDelivery => RunFault::NotARecord { path },
        ResumeFault::Store(fault) => RunFault::Store(fault),
    }
}

/// Begins with the record of a path: takes off a last line without its end, and makes its last delivery once more.
pub(crate) fn resume_at<'a, S: Store + Drop, D: Disk + Drop, Q>(
    alloc: Global,
    desk: &mut Desk<S>,
    path: &'a str,
    opener: Q,
) -> Result<Record<D>, RunFault<'a>>
where
    Q: FnOnce() -> Result<D, OpenFault>,
    requires { Q.IsAlwaysCallable opener }
    ensures taken { (deliveries : List a_delivery)
        → Opens (Q.post opener) (λ disk. listed desk.old.building (D.Disk.seen disk) ≡ deliveries)
        → IfOk result (λ taken. IsTakenUp desk.old.building deliveries (⟦<Record<D> as Recorder>⟧.standing taken)
        (S.standing desk.old.store) (S.standing desk.new.store)) }
    ensures honest { (S.standing desk.new.store).is_honest → (S.standing desk.old.store).is_honest }
    ensures building { desk.new.building ≡ desk.old.building }
{
    let disk = match opener() {
        Ok(disk) => disk,
        Err(OpenFault::NoMemory) => return Err(RunFault::NoMemory),
        Err(_) => return Err(RunFault::CannotWrite { path }),
    };
    match resume(alloc, desk, disk) {
        Ok(record) => Ok(record),
        Err(end) => Err(fault_of(end.fault, path)),
    }
}

/// The record of a run that keeps none, or of a path, with which its desk is level.
pub(crate) fn take_up<'a, S: Store + Drop, D: Disk + Drop, Q>(
    alloc: Global,
    desk: &mut Desk<S>,
    path: Option<&'a str>,
    opener: Q,
) -> Result<Keeper<Record<D>>, RunFault<'a>>
where
    Q: FnOnce() -> Result<D, OpenFault>,
    Q: Drop,
    requires { Q.IsAlwaysCallable opener }
    ensures none { path.entry ≡ None → desk.new ≡ desk.old }
    ensures building { desk.new.building ≡ desk.old.building }
{
    let Some(path) = path else {
        return Ok(Keeper {
            kept: None,
            is_shut: false,
            has_failed: false,
        });
    };
    let record = resume_at(alloc, desk, path, opener)?;
    Ok(Keeper {
        kept: Some(record),
        is_shut: false,
        has_failed: false,
    })
}
