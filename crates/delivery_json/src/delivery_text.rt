//! The text of a delivery, as a line of a list.

ghost use Rattle.std.specs.Prelude.{◌≡◌, ◌++◌, IfOk, OnOk, string_bytes};
ghost use Rattle.std.specs.List.{flat_map};
ghost use Rattle.delivery_json.specs.DeliveryText.{command_line, content_text, delivery_line, import_line};
ghost use Rattle.delivery_json.specs.DeliveryText.{row_text, value_text};

use building::Building;
use deliveries::Delivery;
use points::{Content, Name};
use sched::CalendarEntry;
use std::alloc::{AllocError, Global};

/// A delivery as a line of a list, with its line end (LF): one JSON object, compact, its keys in byte order. A command
/// always has its priority. A row of an import is left out where the building lacks its calendar. The only error is
/// want of memory.
pub fn line_of_delivery(
    alloc: Global,
    building: &Building,
    delivery: &Delivery,
) -> Result<String, AllocError>
    ensures { IfOk result (λ line. string_bytes line ≡ delivery_line building.now delivery.now) }
{
    match delivery {
        Delivery::Command {
            panel,
            number,
            content,
        } => command_line(alloc, panel, *number, content),
        Delivery::Skip { panel, upto } => {
            format!(in alloc; "{{\"panel\":\"{panel}\",\"skip\":{upto}}}\n")
        }
        Delivery::Tick { at } => format!(in alloc; "{{\"tick\":{at}}}\n"),
        Delivery::Import { rows } => import_line(alloc, building, rows.as_slice()),
    }
}

/// The line of a command.
#[tactic(auto, unfolding(crate::specs::DeliveryText::command_line))]
fn command_line(
    alloc: Global,
    panel: &Name,
    number: i64,
    content: &Content,
) -> Result<String, AllocError>
    ensures { IfOk result (λ line. string_bytes line ≡ command_line panel.now number content.now) }
{
    let mut line = format!(in alloc; "{{\"number\":{number},\"panel\":\"{panel}\",")?;
    push_content(&mut line, content)?;
    line.push_str("}\n")?;
    Ok(line)
}

/// Writes the members of a command's content, with its priority in any case.
fn push_content(line: &mut String, content: &Content) -> Result<(), AllocError>
    ensures { OnOk result (string_bytes line.new ≡ string_bytes line.old ++ content_text content.now) }
{
    write!(
        line,
        "\"point\":\"{}\",\"priority\":{},\"value\":",
        content.point, content.priority
    )?;
    push_value(line, content.value)?;
    Ok(())
}

/// Writes a value: a number, or null for NULL.
fn push_value(line: &mut String, value: Option<i64>) -> Result<(), AllocError>
    ensures { OnOk result (string_bytes line.new ≡ string_bytes line.old ++ value_text value) }
{
    match value {
        Some(value) => write!(line, "{value}"),
        None => line.push_str("null"),
    }
}

/// The line of an import, with its rows as a holiday list.
fn import_line(
    alloc: Global,
    building: &Building,
    rows: &[CalendarEntry],
) -> Result<String, AllocError>
    ensures { IfOk result (λ line. string_bytes line ≡ import_line building.now rows.now) }
{
    let mut line = String::from_str(alloc, "{\"import\":\"calendar,entry\\n")?;
    push_rows(&mut line, building, rows)?;
    line.push_str("\"}\n")?;
    Ok(line)
}

/// Writes the rows of a holiday list.
fn push_rows(
    line: &mut String,
    building: &Building,
    rows: &[CalendarEntry],
) -> Result<(), AllocError>
    ensures { OnOk result (string_bytes line.new ≡ string_bytes line.old ++ flat_map (row_text building.now) rows.now) }
{
    for row in rows {
        push_row(line, building, row)?;
    }
    Ok(())
}

/// Writes a row of a holiday list, or nothing where the building lacks its calendar.
fn push_row(line: &mut String, building: &Building, row: &CalendarEntry) -> Result<(), AllocError>
    ensures { OnOk result (string_bytes line.new ≡ string_bytes line.old ++ row_text building.now row.now) }
{
    match building.calendars().get(row.calendar.index) {
        Some(calendar) => write!(line, "{},{}\\n", calendar.name, row.entry),
        None => Ok(()),
    }
}
