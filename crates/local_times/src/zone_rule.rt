//! The rule of a time zone.

ghost use Rattle.std.specs.Prelude.{◌≡◌, option_map, Some};
ghost use Rattle.jiff.specs.ZoneView.{plain_zone};
ghost use Rattle.jiff_tz.specs.PosixReader.{read_whole};
ghost use Rattle.local_times.specs.ZoneRule.{rule_text};

use jiff::tz::TimeZone;
use std::marker::Model;

/// The rule of a time zone, as a POSIX rule text says it. Contracts see it as the time zone of `jiff_tz` that stands
/// behind one of `jiff`, and that is what it holds, so that a proof of what only names a rule has no `jiff` to read. It
/// takes no memory.
#[derive(Clone, Copy)]
pub struct ZoneRule {
    zone: jiff_tz::TimeZone<'static>,
}

impl Model for ZoneRule {
    ghost use Rattle.jiff_tz.specs.declared.timezone.TimeZone.{TimeZone as plain_time_zone};

    ghost Value = { plain_time_zone };

    ghost view = { λ rule. rule.zone };

    ghost inverse = { λ zone. record { zone = zone } };
}

impl ZoneRule {
    /// Reads a POSIX rule, as `CET-1CEST,M3.5.0,M10.5.0/3`. A name of the zone database is none.
    pub fn read(text: &str) -> Option<ZoneRule>
        ensures { option_map rule_text result ≡ option_map Some (read_whole text.now) }
    {
        let zone = TimeZone::posix(text).ok()?;
        Some(ZoneRule {
            zone: zone.to_plain(),
        })
    }

    /// The rule as a time zone of `jiff`.
    pub(crate) fn time_zone(&self) -> TimeZone<'static>
        ensures { plain_zone result ≡ self.now }
    {
        TimeZone::from_plain(self.zone)
    }
}
