//! The machine's clock.

ghost use Rattle.std.specs.Prelude.{◌≡◌, ◌/◌};
ghost use Rattle.std.specs.Duration.{as_nanos};

use std::time::{Duration, SystemTime};

/// The moment of the machine's clock, in hundredths of a second since 1970, where it can be read.
pub fn moment(rt: &HostRuntime) -> Option<i64> {
    let now = SystemTime::now(rt).ok()?;
    let since = now.duration_since(SystemTime::UNIX_EPOCH).ok()?;
    i64::try_from(hundredths(&since)).ok()
}

/// The whole hundredths of a second in a time.
fn hundredths(time: &Duration) -> u128
    ensures { result ≡ as_nanos time.now / 10_000_000 }
{
    time.as_millis() / 10
}
