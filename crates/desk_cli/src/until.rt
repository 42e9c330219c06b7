//! Where a list ends by what its user says.
ghost use Rattle.std.specs.Prelude.{◌≡◌, IfErr, IfOk, string_bytes};
ghost use Rattle.desk_cli.specs.Until.{IsUntil, RefusesUntil, said_in, until_line};

use building::Building;
use cli_common::RunFault;
use desk_why::moment_text;
use moments::{Moment, moment_meant};
use std::alloc::{AllocError, Global};

/// The moment that a text means on the building's clock, in hundredths of a second since 1970-01-01T00:00:00Z, if there
/// is a text. One that says no moment, and one that the clock does not show, are the faults.
pub(crate) fn until_of<'a>(
    building: &Building,
    said: Option<&'a str>,
) -> Result<Option<i64>, RunFault<'a>>
    ensures until { IfOk result (IsUntil building.now (said_in said.entry)) }
    ensures refuses { IfErr result (RefusesUntil building.now (said_in said.entry)) }
{
    let Some(text) = said else {
        return Ok(None);
    };
    let Some(moment) = Moment::read(text) else {
        return Err(RunFault::NotMoment { text });
    };
    match moment_meant(building.zone(), moment) {
        Some(at) => Ok(Some(at)),
        None => Err(RunFault::NotShown { text }),
    }
}

/// The line that tells which moment of the building's clock that was.
pub(crate) fn until_line(
    alloc: Global,
    building: &Building,
    until: Option<i64>,
) -> Result<String, AllocError>
    ensures { IfOk result (λ text. string_bytes text ≡ until_line building.now until) }
{
    match until {
        Some(at) => {
            let moment = moment_text(alloc, building, at)?;
            format!(in alloc; "until {moment}\n")
        }
        None => Ok(String::new(alloc)),
    }
}
