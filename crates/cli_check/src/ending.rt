//! The end of an adoption.
ghost use Rattle.std.specs.Prelude.{◌≡◌, ◌⊎◌, IfSome, Ok, string_bytes};
ghost use Rattle.std.specs.Io.KnownBytes.{Appends, Keeps};

use crate::adoption_fault::AdoptionFault;
use crate::adoption_run::{Adopted, TakenAlong};
use cli_common::{Status, print_whole};
use std::alloc::Global;
use std::io::{self, Write};
use store::StoreFault;

/// Ends an adoption: closes the database that was made, puts it in its place, the path `made`, and only then prints the
/// text on `out`. Where one of these fails that is printed on `fault` as one line; where the printing does, what was
/// put in its place is withdrawn, so that it stands there with the status `Done` alone.
pub fn finish<S: Drop, T, C, P, X, W: Write, F: Write>(
    alloc: Global,
    adopted: Adopted<S, T>,
    made: &str,
    closer: C,
    placer: P,
    withdrawer: X,
    out: &mut W,
    fault: &mut F,
) -> Status
where
    C: FnOnce(T) -> Result<(), StoreFault>,
    P: FnOnce() -> io::Result<()>,
    X: FnOnce(),
    C: Drop,
    P: Drop,
    X: Drop,
    requires closes { C.IsAlwaysCallable closer }
    requires places { P.IsAlwaysCallable placer }
    requires withdraws { X.IsAlwaysCallable withdrawer }
    ensures done { result ≡ Status.Done → adopted.status ≡ Status.Done }
    ensures closed { result ≡ Status.Done → IfSome adopted.taken (λ it. C.post closer it.into (Ok tt) × P.post placer (Ok tt)) }
    ensures printed { result ≡ Status.Done → IfSome adopted.taken (λ it. Appends (W.contents out.old) (W.contents out.new) (string_bytes it.text)) }
    ensures placed_first { Keeps (W.contents out.old) (W.contents out.new) ⊎ P.post placer (Ok tt) }
    ensures quiet { result ≡ Status.Done → Keeps (F.contents fault.old) (F.contents fault.new) }
{
    let Adopted { status, taken } = adopted;
    let Some(
        TakenAlong {
            from: _from,
            into,
            text,
        },
    ) = taken
    else {
        return status;
    };
    let end = match closer(into) {
        Err(why) => AdoptionFault::of_writing(why, made),
        Ok(()) => match placer() {
            Err(_) => AdoptionFault::NotPlaced { path: made },
            Ok(()) => match print_whole(out, text.as_str()) {
                Ok(()) => return status,
                Err(why) => {
                    withdrawer();
                    AdoptionFault::Run(why)
                }
            },
        },
    };
    end.print(alloc, fault);
    end.status()
}
