//! The hints at a building file.
ghost use Rattle.std.specs.Prelude.{◌≡◌, List, ℕ, IfOk, OnOk, Ok, Some, option_map, string_bytes};
ghost use Rattle.std.specs.Io.KnownBytes.{Appends, Keeps};
ghost use Rattle.building.specs.Building.{contents_of};
ghost use Rattle.building.specs.BuildingFile.{building_of};
ghost use Rattle.cli_common.specs.Input.{bytes_of};
ghost use Rattle.building_hints.specs.Hints.{Hints, IsText, hint_lines, hints_text};

use crate::calendar_hints::push_calendars;
use crate::list_bytes::read_all;
use crate::list_hints::push_list;
use crate::panel_hints::push_panels;
use crate::schedule_hints::push_schedules;
use crate::shared_places::push_pairs;
use building::Building;
use cli_common::{Input, RunFault, Status, print_whole, read_building};
use std::alloc::{AllocError, Global};
use std::io::{Read, Write};

// The lines of all hints.
fn hint_lines(alloc: Global, building: &Building) -> Result<String, AllocError>
    ensures { IfOk result (λ text. string_bytes text ≡ hint_lines (contents_of building.now)) }
{
    let mut text = String::new(alloc);
    push_calendars(&mut text, building.calendars(), building.schedules())?;
    push_panels(&mut text, building.panels())?;
    push_schedules(&mut text, building.schedules())?;
    push_pairs(&mut text, building.schedules())?;
    Ok(text)
}

// The lines of all hints, or the one line that there is none.
fn hints_text(alloc: Global, building: &Building) -> Result<String, AllocError>
    ensures { IfOk result (λ text. string_bytes text ≡ hints_text (contents_of building.now)) }
{
    let lines = hint_lines(alloc, building)?;
    if lines.is_empty() {
        String::from_str(alloc, "no hints\n")
    } else {
        Ok(lines)
    }
}

// The hints at a building, and behind them those at a holiday list.
fn whole_text<'a, C: Read + Drop>(
    alloc: Global,
    building: &Building,
    list: Option<Input<'a, C>>,
) -> Result<String, RunFault<'a>>
    ensures { IfOk result (λ text. IsText (contents_of building.now) (option_map (λ it. bytes_of C.remaining it.reader) list.entry)
        (string_bytes text)) }
{
    let mut text = hints_text(alloc, building)?;
    if let Some(list) = list {
        let bytes = read_all(alloc, list)?;
        push_list(alloc, &mut text, building, bytes.as_slice())?;
    }
    Ok(text)
}

fn hints_over<'a, B: Read + Drop, C: Read + Drop, W: Write>(
    alloc: Global,
    file: Input<'a, B>,
    list: Option<Input<'a, C>>,
    out: &mut W,
) -> Result<(), RunFault<'a>>
    ensures { OnOk result ((bytes : List ℕ) → bytes_of B.remaining file.entry.reader ≡ Some bytes
        → Hints bytes (option_map (λ it. bytes_of C.remaining it.reader) list.entry) (W.contents out.old) (W.contents out.new)) }
{
    let building = read_building(alloc, file)?;
    let text = whole_text(alloc, &building, list)?;
    print_whole(out, text.as_str())?;
    Ok(())
}

/// Reads the building of a file, and prints what it may say but not mean, a line each, or that there is no hint; then,
/// where there is a holiday list, what may be wrong with that: `desk check --hints FILE [CSV]`. A hint is no fault. A
/// fault of the building is printed to `fault` as one line.
pub fn hints<B: Read + Drop, C: Read + Drop, W: Write, F: Write>(
    alloc: Global,
    file: Input<'_, B>,
    list: Option<Input<'_, C>>,
    out: &mut W,
    fault: &mut F,
) -> Status
    ensures done { result ≡ Status.Done → (bytes : List ℕ)
        → bytes_of B.remaining file.entry.reader ≡ Some bytes
        → Hints bytes (option_map (λ it. bytes_of C.remaining it.reader) list.entry) (W.contents out.old) (W.contents out.new) }
    ensures quiet { result ≡ Status.Done → Keeps (F.contents fault.old) (F.contents fault.new) }
{
    match hints_over(alloc, file, list, out) {
        Ok(()) => Status::Done,
        Err(end) => {
            end.print(alloc, fault);
            end.status()
        }
    }
}
