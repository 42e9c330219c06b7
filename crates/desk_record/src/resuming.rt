//! A record that is taken up again.
ghost use Rattle.std.specs.Prelude.{◌≡◌, ◌+◌, ◌++◌, ◌<◌, ◌^◌, ℕ, List, length, Err, IfErr, IfOk, OnErr, OnOk};
ghost use Rattle.std.specs.Bool.{IsTrue};
ghost use Rattle.sqlite_disk.specs.Disk.{Cut, Only};
ghost use Rattle.deliveries.specs.declared.delivery.Delivery.{Delivery as a_delivery};
ghost use Rattle.desk_record.specs.LastLine.{TellsLast};
ghost use Rattle.desk_record.specs.Recorded.{HasTables, InStep, IsBehind, listed};
ghost use Rattle.desk_record.specs.Resuming.{IsEndOf, IsMended, KeepsLines, LosesTorn};
ghost use Rattle.store.specs.declared.fault.StoreFault.{StoreFault as a_fault};
ghost use Rattle.store.specs.Standing.{Goes};

use crate::again::deliver_again;
use crate::last_line::{Ending, read_ending};
use crate::record::Record;
use crate::recorder::Recorder;
use crate::resume_fault::{NotResumed, ResumeFault};
use desk::Desk;
use json::Scratch;
use sqlite_disk::Disk;
use std::alloc::Global;
use store::Store;

/// How much of the end of a record is read: its last line has to lie there.
const REACH: usize = 1 << 20;

/// The end of a file, from this place on.
#[derive(Drop)]
struct FileEnd {
    from: usize,
    bytes: Vec<u8>,
}

fn read_end<D: Disk>(alloc: Global, disk: &mut D) -> Result<FileEnd, ResumeFault>
    requires { IsTrue (D.Disk.is_usable disk.old) }
    ensures usable { IsTrue (D.Disk.is_usable disk.new) }
    ensures seen { D.Disk.seen disk.new ≡ D.Disk.seen disk.old }
    ensures clean { IsTrue (D.Disk.is_clean disk.new) → IsTrue (D.Disk.is_clean disk.old) }
    ensures fits { IfOk result (λ end. end.from + length end.bytes.items < 2 ^ 64) }
    ensures end { IfOk result (λ end. IsTrue (D.Disk.is_clean disk.new)
        → IsEndOf (D.Disk.seen disk.old) end.from end.bytes.items) }
{
    let Ok(len) = disk.len() else {
        return Err(ResumeFault::NotRead);
    };
    let from = len.saturating_sub(REACH);
    let mut bytes = Vec::new(alloc);
    let Ok(()) = bytes.resize(len - from, 0) else {
        return Err(ResumeFault::NoMemory);
    };
    match disk.read_at(from, &mut bytes) {
        Ok(()) => Ok(FileEnd { from, bytes }),
        Err(_) => Err(ResumeFault::NotRead),
    }
}

/// Takes off what stands after the whole lines.
fn mend<D: Disk>(disk: &mut D, whole: usize) -> Result<(), ResumeFault>
    requires { IsTrue (D.Disk.is_usable disk.old) }
    ensures clean { IsTrue (D.Disk.is_clean disk.new) → IsTrue (D.Disk.is_clean disk.old) }
    ensures cut { Cut whole (D.Disk.seen disk.old) (D.Disk.seen disk.new) }
    ensures len { OnOk result (length (D.Disk.seen disk.new) ≡ whole) }
    ensures on_disk { OnOk result (Only (D.Disk.seen disk.new) (D.Disk.may_leave disk.new)) }
    ensures usable { OnOk result (IsTrue (D.Disk.is_usable disk.new)) }
    ensures reported { IfErr result (λ fault. fault ≡ ResumeFault.NotWritten) }
{
    disk.set_len(whole).or(Err(ResumeFault::NotWritten))?;
    disk.sync().or(Err(ResumeFault::NotWritten))
}

/// Makes the delivery of the last line once more, if there is one.
fn catch_up_store<S: Store + Drop>(desk: &mut Desk<S>, ending: &Ending) -> Result<(), ResumeFault>
    ensures honest { (S.standing desk.new.store).is_honest → (S.standing desk.old.store).is_honest }
    ensures caught_up { (earlier : List a_delivery) (file : List ℕ) → OnOk result ((S.standing desk.new.store).is_honest
        → TellsLast desk.old.building file ending.now.whole ending.now.delivery
        → IsBehind desk.old.building earlier (listed desk.old.building file) (S.standing desk.old.store)
        → HasTables desk.old.building (earlier ++ listed desk.old.building file) (S.standing desk.new.store)) }
    ensures behind { (earlier : List a_delivery) (file : List ℕ) → OnErr result ((S.standing desk.new.store).is_honest
        → TellsLast desk.old.building file ending.now.whole ending.now.delivery
        → IsBehind desk.old.building earlier (listed desk.old.building file) (S.standing desk.old.store)
        → IsBehind desk.old.building earlier (listed desk.old.building file) (S.standing desk.new.store)) }
    ensures reported { IfErr result (λ fault. fault ≡ ResumeFault.NotDelivery → ⊥) }
    ensures building { desk.new.building ≡ desk.old.building }
{
    match &ending.delivery {
        None => Ok(()),
        Some(delivery) => match deliver_again(desk, delivery) {
            Ok(()) => Ok(()),
            Err(fault) => Err(ResumeFault::Store(fault)),
        },
    }
}

/// Takes off what stands after the whole lines of a record, and makes the delivery of the last of them once more.
/// Answers how many bytes there are then.
fn catch_up<S: Store + Drop, D: Disk>(
    alloc: Global,
    scratch: &mut Scratch,
    desk: &mut Desk<S>,
    disk: &mut D,
) -> Result<usize, ResumeFault>
    ensures clean { IsTrue (D.Disk.is_clean disk.new) → IsTrue (D.Disk.is_clean disk.old) }
    ensures honest { (S.standing desk.new.store).is_honest → (S.standing desk.old.store).is_honest }
    ensures usable { OnOk result (IsTrue (D.Disk.is_usable disk.new)) }
    ensures len { IfOk result (λ whole. whole ≡ length (D.Disk.seen disk.new)) }
    ensures mended { OnOk result (IsTrue (D.Disk.is_clean disk.new)
        → IsMended desk.old.building (D.Disk.seen disk.old) (D.Disk.seen disk.new) (D.Disk.may_leave disk.new)) }
    ensures caught_up { OnOk result ((earlier : List a_delivery) → (S.standing desk.new.store).is_honest → IsTrue (D.Disk.is_clean disk.new)
        → IsBehind desk.old.building earlier (listed desk.old.building (D.Disk.seen disk.old)) (S.standing desk.old.store)
        → HasTables desk.old.building (earlier ++ listed desk.old.building (D.Disk.seen disk.old)) (S.standing desk.new.store)) }
    ensures keeps { OnErr result (IsTrue (D.Disk.is_clean disk.new)
        → KeepsLines desk.old.building (D.Disk.seen disk.old) (D.Disk.seen disk.new)) }
    ensures refused { result ≡ Err ResumeFault.NotDelivery → D.Disk.seen disk.new ≡ D.Disk.seen disk.old }
    ensures behind { OnErr result ((earlier : List a_delivery) → (S.standing desk.new.store).is_honest → IsTrue (D.Disk.is_clean disk.new)
        → IsBehind desk.old.building earlier (listed desk.old.building (D.Disk.seen disk.old)) (S.standing desk.old.store)
        → IsBehind desk.old.building earlier (listed desk.old.building (D.Disk.seen disk.old)) (S.standing desk.new.store)) }
    ensures building { desk.new.building ≡ desk.old.building }
{
    if !disk.may_be_used() {
        return Err(ResumeFault::NotRead);
    }
    let end = read_end(alloc, disk)?;
    let ending = read_ending(alloc, scratch, desk.building(), end.from, &end.bytes)?;
    mend(disk, ending.whole)?;
    catch_up_store(desk, &ending)?;
    Ok(ending.whole)
}

/// Takes a record up again, for a desk over the store that was kept beside it: takes off what stands after its last
/// line, which was never delivered, and delivers the last line once more, since it was delivered or not; it is not
/// written down again. What stands there has to begin as a line that is written: a file that holds something else is
/// not changed. An empty file is an empty record. At most the last 1 MiB is read. After a fault the store is behind the
/// record as before, and nothing is off the file but what stood after its last line.
pub fn resume<S: Store + Drop, D: Disk + Drop>(
    alloc: Global,
    desk: &mut Desk<S>,
    disk: D,
) -> Result<Record<D>, NotResumed<D>>
    ensures lists { IfOk result (λ taken. IsTrue (D.Disk.is_clean taken.lines.disk)
        → listed desk.old.building (D.Disk.seen taken.lines.disk) ≡ listed desk.old.building (D.Disk.seen disk)) }
    ensures torn { IfOk result (λ taken. IsTrue (D.Disk.is_clean taken.lines.disk)
        → LosesTorn (D.Disk.seen disk) (D.Disk.seen taken.lines.disk)) }
    ensures in_step { IfOk result (λ taken. (earlier : List a_delivery) → (S.standing desk.new.store).is_honest
        → IsTrue (D.Disk.is_clean taken.lines.disk)
        → IsBehind desk.old.building earlier (listed desk.old.building (D.Disk.seen disk)) (S.standing desk.old.store)
        → InStep desk.old.building earlier (⟦<Record<D> as Recorder>⟧.standing taken) (S.standing desk.new.store)) }
    ensures clean { IfOk result (λ taken. IsTrue (D.Disk.is_clean taken.lines.disk) → IsTrue (D.Disk.is_clean disk)) }
    ensures keeps { IfErr result (λ end. IsTrue (D.Disk.is_clean end.disk)
        → KeepsLines desk.old.building (D.Disk.seen disk) (D.Disk.seen end.disk)) }
    ensures refused { IfErr result (λ end. end.fault ≡ ResumeFault.NotDelivery → D.Disk.seen end.disk ≡ D.Disk.seen disk) }
    ensures behind { IfErr result (λ end. (earlier : List a_delivery) → (S.standing desk.new.store).is_honest → IsTrue (D.Disk.is_clean end.disk)
        → IsBehind desk.old.building earlier (listed desk.old.building (D.Disk.seen disk)) (S.standing desk.old.store)
        → IsBehind desk.old.building earlier (listed desk.old.building (D.Disk.seen disk)) (S.standing desk.new.store)) }
    ensures honest { (S.standing desk.new.store).is_honest → (S.standing desk.old.store).is_honest }
    ensures building { desk.new.building ≡ desk.old.building }
{
    let mut disk = disk;
    let mut scratch = Scratch::new(alloc);
    match catch_up(alloc, &mut scratch, desk, &mut disk) {
        Ok(whole) => Ok(Record::new(alloc, scratch, disk, whole)),
        Err(fault) => Err(NotResumed { fault, disk }),
    }
}
