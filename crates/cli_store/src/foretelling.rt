//! The import that is only tried.
ghost use Rattle.std.specs.Prelude.{◌≡◌, IfOk, List, OnOk, Some, ℕ};
ghost use Rattle.std.specs.Io.KnownBytes.{Appends, Keeps};
ghost use Rattle.cli_common.specs.Input.{bytes_of};
ghost use Rattle.cli_store.specs.Answered.{IsImport};
ghost use Rattle.cli_store.specs.Foretold.{IsForetold};
ghost use Rattle.deliveries.specs.Delivered.{Holds};
ghost use Rattle.deliveries.specs.Reply.{reply};
ghost use Rattle.deliveries.specs.declared.delivery.Delivery.{Delivery as a_delivery};
ghost use Rattle.delivery_json.specs.ReplyText.{reply_line};

use crate::answering::print_reply;
use crate::clock_delivery::read_import;
use crate::ended::Ended;
use cli_base::{Base, BaseFault, desk_on, read_base};
use cli_common::{Input, RunFault, Status, read_building};
use deliveries::Delivery;
use desk::Desk;
use std::alloc::Global;
use std::io::{Read, Write};
use store::{OpenFault, Store};

/// Prints the reply that the import of a holiday list would get, and changes nothing: `desk import --dry-run FILE DB CSV`.
/// The store that is found, if there is one, is only read; the import is delivered over a copy of its tables in memory.
pub fn foretell<'a, B: Read + Drop, L: Read + Drop, S: Store + Drop, O, W: Write, F: Write>(
    alloc: Global,
    file: Input<'a, B>,
    list: Input<'a, L>,
    finder: O,
    out: &mut W,
    fault: &mut F,
) -> Ended<S>
where
    O: FnOnce() -> Result<Option<S>, OpenFault>,
    requires { O.IsAlwaysCallable finder }
    ensures done { result.status ≡ Status.Done → (file_bytes list_bytes : List ℕ)
        → bytes_of B.remaining file.entry.reader ≡ Some file_bytes → bytes_of L.remaining list.entry.reader ≡ Some list_bytes
        → IsForetold S.standing (O.post finder) (IsImport list_bytes) file_bytes result.store (W.contents out.old) (W.contents out.new) }
    ensures quiet { result.status ≡ Status.Done → Keeps (F.contents fault.old) (F.contents fault.new) }
{
    match foretell_over(alloc, file, list, finder, out) {
        Ok(store) => Ended {
            status: Status::Done,
            store,
        },
        Err(end) => {
            end.print(alloc, fault);
            Ended {
                status: end.status(),
                store: None,
            }
        }
    }
}

fn foretell_over<'a, B: Read + Drop, L: Read + Drop, S: Store + Drop, O, W: Write>(
    alloc: Global,
    file: Input<'a, B>,
    list: Input<'a, L>,
    finder: O,
    out: &mut W,
) -> Result<Option<S>, RunFault<'a>>
where
    O: FnOnce() -> Result<Option<S>, OpenFault>,
    requires { O.IsAlwaysCallable finder }
    ensures { IfOk result (λ left. (file_bytes list_bytes : List ℕ)
        → bytes_of B.remaining file.entry.reader ≡ Some file_bytes → bytes_of L.remaining list.entry.reader ≡ Some list_bytes
        → IsForetold S.standing (O.post finder) (IsImport list_bytes) file_bytes left (W.contents out.old) (W.contents out.new)) }
{
    let building = read_building(alloc, file)?;
    let delivery = read_import(alloc, &building, list)?;
    let Base { tables, store } = match read_base(alloc, finder) {
        Ok(base) => base,
        Err(BaseFault::NotOpened(fault)) => return Err(RunFault::from(fault)),
        Err(BaseFault::NotRead(fault)) => return Err(RunFault::from(fault)),
    };
    let desk = desk_on(alloc, building, tables)?;
    answer_over(alloc, desk, &delivery, out)?;
    Ok(store)
}

/// Prints the reply of a delivery to a desk, which is let go then.
fn answer_over<'a, S: Store + Drop, W: Write>(
    alloc: Global,
    desk: Desk<S>,
    delivery: &Delivery,
    out: &mut W,
) -> Result<(), RunFault<'a>>
    requires { (s : S) → (S.standing s).is_honest }
    ensures { OnOk result ((earlier : List a_delivery) → Holds desk.building earlier (S.standing desk.store)
        → Appends (W.contents out.old) (W.contents out.new) (reply_line (reply desk.building earlier delivery.now))) }
{
    let mut desk = desk;
    let reply = desk.deliver(delivery)?;
    print_reply(alloc, reply, out)
}
