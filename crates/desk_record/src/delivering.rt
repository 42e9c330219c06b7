//! A delivery that is written down before it is made.
ghost use Rattle.std.specs.Prelude.{◌≡◌, List, None, Err, OnOk};
ghost use Rattle.std.specs.Bool.{IsTrue};
ghost use Rattle.deliveries.specs.Delivered.{Holds};
ghost use Rattle.deliveries.specs.declared.delivery.Delivery.{Delivery as a_delivery};
ghost use Rattle.desk_record.specs.Delivering.{DeliversOrNot};
ghost use Rattle.desk_record.specs.Recorded.{InStep};
ghost use Rattle.desk_record.specs.Recording.{HasWritten};
ghost use Rattle.store.specs.declared.fault.StoreFault.{StoreFault as a_fault};
ghost use Rattle.store.specs.Standing.{Goes};

use crate::recorder::{RecordFault, Recorder};
use deliveries::{Delivery, Reply};
use desk::Desk;
use std::alloc::Global;
use store::{Store, StoreFault};

/// Why a delivery is not answered.
#[derive(Clone, Copy, Debug)]
pub enum Undelivered {
    /// There was no memory to write it down; it was not made.
    NoMemory,
    /// It can't be written down, or its line could not be taken back; it was not made, and the record is shut.
    NotRecorded,
    /// It was written down, and the store refused it or failed.
    Store(StoreFault),
}

impl From<RecordFault> for Undelivered {
    ghost use Rattle.std.specs.Prelude.{◌≡◌};
    ghost use Rattle.desk_record.specs.Delivering.{unrecorded};

    ghost from_gives = { λ fault given. given ≡ unrecorded fault };

    fn from(fault: RecordFault) -> Undelivered {
        match fault {
            RecordFault::NoMemory => Undelivered::NoMemory,
            RecordFault::Failed => Undelivered::NotRecorded,
        }
    }
}

/// Writes a delivery down, and then makes it. It is made only once its line is on the disk. Where it ends in want of
/// memory, or the store refuses it, its line is taken off again; where the store fails, it may have been made or not,
/// and the record is shut with its line last, so that the next start makes it once more.
pub fn deliver<S: Store + Drop, R: Recorder>(
    alloc: Global,
    desk: &mut Desk<S>,
    recorder: &mut R,
    delivery: &Delivery,
) -> Result<Reply, Undelivered>
    ensures delivers { (earlier : List a_delivery) → (S.standing desk.new.store).is_honest
        → Holds desk.old.building earlier (S.standing desk.old.store)
        → DeliversOrNot desk.old.building earlier delivery.now result (S.standing desk.new.store) }
    ensures goes { (fault : a_fault) → result ≡ Err (Undelivered.Store fault)
        → Goes (Some fault) (S.standing desk.old.store) (S.standing desk.new.store) }
    ensures goes_on { OnOk result (Goes None (S.standing desk.old.store) (S.standing desk.new.store)) }
    ensures written { OnOk result ((R.standing recorder.new).is_honest
        → HasWritten desk.old.building delivery.now (R.standing recorder.old) (R.standing recorder.new)) }
    ensures recorded { (earlier : List a_delivery) → (S.standing desk.new.store).is_honest → (R.standing recorder.new).is_honest
        → InStep desk.old.building earlier (R.standing recorder.old) (S.standing desk.old.store)
        → InStep desk.old.building earlier (R.standing recorder.new) (S.standing desk.new.store) }
    ensures not_recorded { result ≡ Err Undelivered.NotRecorded → IsTrue (R.standing recorder.new).is_shut }
    ensures honest { (S.standing desk.new.store).is_honest → (S.standing desk.old.store).is_honest }
    ensures honest_record { (R.standing recorder.new).is_honest → (R.standing recorder.old).is_honest }
    ensures building { desk.new.building ≡ desk.old.building }
{
    recorder.write_down(alloc, desk.building(), delivery)?;
    let fault = match desk.deliver(delivery) {
        Ok(reply) => return Ok(reply),
        Err(fault) => fault,
    };
    match fault {
        StoreFault::Failed => recorder.shut(),
        _ => recorder.take_back()?,
    }
    Err(Undelivered::Store(fault))
}
