//! The words of the lines.
ghost use Rattle.std.specs.Prelude.{◌≡◌, IfOk, string_bytes};
ghost use Rattle.points.specs.PointLine.{left_in, right_in};
ghost use Rattle.jiff_core.specs.Weekday.{monday_zero};
ghost use Rattle.desk_why.specs.Words.{title_at, title_of, use_of};

use dates::{Day, Weekday};
use points::push_right;
use std::alloc::{AllocError, Global};

/// The places of what a priority is kept for, or of another title.
pub const TITLE_WIDTH: usize = 26;

/// The places of a value.
pub const VALUE_WIDTH: usize = 12;

/// What the standard keeps a priority for (table 19-1).
pub fn use_of(priority: u8) -> &'static str
    ensures { result.now ≡ use_of priority }
{
    match priority {
        1 => "Manual-Life Safety",
        2 => "Automatic-Life Safety",
        5 => "Critical Equipment Control",
        6 => "Minimum On/Off",
        8 => "Manual Operator",
        _ => "Available",
    }
}

fn title(weekday: Weekday) -> &'static str
    ensures { result.now ≡ title_at (monday_zero weekday) }
{
    match weekday {
        Weekday::Monday => "Monday",
        Weekday::Tuesday => "Tuesday",
        Weekday::Wednesday => "Wednesday",
        Weekday::Thursday => "Thursday",
        Weekday::Friday => "Friday",
        Weekday::Saturday => "Saturday",
        Weekday::Sunday => "Sunday",
    }
}

/// The name of a day's weekday.
pub fn title_of(day: Day) -> &'static str
    ensures { result.now ≡ title_of day }
{
    title(day.weekday())
}

/// A text at the right of so many places; a text that is longer stands whole.
pub fn right_in(alloc: Global, text: &str, width: usize) -> Result<String, AllocError>
    ensures { IfOk result (λ placed. string_bytes placed ≡ right_in width text.now) }
{
    let mut placed = String::new(alloc);
    push_right(&mut placed, text, width)?;
    Ok(placed)
}

/// A text at the left of so many places; a text that is longer stands whole.
pub fn left_in(alloc: Global, text: &str, width: usize) -> Result<String, AllocError>
    ensures { IfOk result (λ placed. string_bytes placed ≡ left_in width text.now) }
{
    let mut placed = String::from_str(alloc, text)?;
    push_right(&mut placed, "", width.saturating_sub(text.len()))?;
    Ok(placed)
}
