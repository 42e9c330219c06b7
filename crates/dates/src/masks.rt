//! Masks: numbers below 32, a bit for each.
ghost use Rattle.std.specs.Prelude.{◌≡◌, ◌<◌};
ghost use Rattle.dates.specs.Masks.{has_bit, has_both};

use crate::Day;

/// The bits 1 to 31: any day of a month.
pub(crate) const ANY_DAY: u32 = 0xffff_fffe;

/// The bits 0 to 30: any number of days left in a month.
pub(crate) const ANY_DAYS_LEFT: u32 = 0x7fff_ffff;

/// Whether a mask has the bit of a number.
pub(crate) fn has_bit(mask: u32, number: u8) -> bool
    requires { number < 32 }
    ensures { result ≡ has_bit mask number }
{
    (mask >> number) & 1 == 1
}

/// Whether one mask has the day of the month, and another the number of days that are left in it.
#[tactic(auto, using(crate::proofs::MaskLemmas::days_left_low))]
pub(crate) fn has_both(days: u32, days_left: u32, day: Day) -> bool
    ensures { result ≡ has_both days days_left day }
{
    has_bit(days, day.day_of_month()) && has_bit(days_left, day.days_left_in_month())
}
