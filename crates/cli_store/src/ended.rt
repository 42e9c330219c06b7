//! How a run over a store ends.
ghost use Rattle.std.specs.Prelude.{◌≡◌, Ok, Some};
ghost use Rattle.std.specs.Io.KnownBytes.{Keeps};

use cli_common::{RunFault, Status};
use cli_record::{BesideFault, Unopened};
use std::alloc::Global;
use std::io::Write;
use store::StoreFault;

/// How a run ended, and the store that it opened, as it stands then, if it opened one.
#[derive(Drop)]
pub struct Ended<S> {
    pub status: Status,
    pub store: Option<S>,
}

/// How a run that delivers ended, and the disk of its record, as it stands then, if one is kept and the delivery was
/// answered.
#[derive(Drop)]
pub struct Delivered<S, D> {
    pub ended: Ended<S>,
    pub disk: Option<D>,
}

impl<S, D: Drop> Delivered<S, D> {
    /// Lets the record's disk go.
    pub fn into_ended(self) -> Ended<S>
        ensures { result ≡ self.ended }
    {
        self.ended
    }
}

/// Why a run ended early, and the store that it had opened, as it stands then.
#[derive(Drop)]
pub(crate) struct Stopped<'a, S> {
    pub(crate) fault: BesideFault<'a>,
    pub(crate) store: Option<S>,
}

impl<'a, S> From<RunFault<'a>> for Stopped<'a, S> {
    ghost use Rattle.std.specs.Prelude.{◌≡◌, None};

    ghost from_gives = { λ _ stopped. stopped.store ≡ None };

    fn from(fault: RunFault<'a>) -> Stopped<'a, S> {
        Stopped {
            fault: BesideFault::from(fault),
            store: None,
        }
    }
}

impl<'a, S> From<Unopened<'a, S>> for Stopped<'a, S> {
    ghost use Rattle.std.specs.Prelude.{◌≡◌};

    ghost from_gives = { λ unopened stopped. stopped.store ≡ unopened.store };

    fn from(unopened: Unopened<'a, S>) -> Stopped<'a, S> {
        Stopped {
            fault: unopened.fault,
            store: unopened.store,
        }
    }
}

impl<S> Stopped<'_, S> {
    /// Prints the fault as one line, and hands the store on.
    pub(crate) fn print<F: Write>(self, alloc: Global, out: &mut F) -> Ended<S>
        ensures early { (result.status ≡ Status.Done) → ⊥ }
        ensures store { result.store ≡ self.entry.store }
    {
        self.fault.print(alloc, out);
        Ended {
            status: self.fault.status(),
            store: self.store,
        }
    }
}

/// Ends a run, whose store is closed. A store that can't be closed is printed to `fault` as one line, where it was no
/// failure of the store that ended the run.
pub fn finish<S, C, F: Write>(alloc: Global, ended: Ended<S>, closer: C, fault: &mut F) -> Status
where
    C: FnOnce(S) -> Result<(), StoreFault>,
    requires { C.IsAlwaysCallable closer }
    ensures done { result ≡ Status.Done → ended.status ≡ Status.Done }
    ensures closed { result ≡ Status.Done → (left : S) → ended.store ≡ Some left → C.post closer left (Ok tt) }
    ensures quiet { result ≡ Status.Done → Keeps (F.contents fault.old) (F.contents fault.new) }
{
    let Ended { status, store } = ended;
    match store {
        Some(store) => match closer(store) {
            Ok(()) => status,
            Err(why) => print_unclosed(alloc, status, why, fault),
        },
        None => status,
    }
}

/// The status of a run whose store is not closed.
fn print_unclosed<F: Write>(alloc: Global, status: Status, why: StoreFault, fault: &mut F) -> Status
    ensures { result ≡ Status.Store }
{
    if !matches!(status, Status::Store) {
        RunFault::from(why).print(alloc, fault);
    }
    Status::Store
}
