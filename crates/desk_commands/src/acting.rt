//! Acting on a panel's commands, in their order.
ghost use Rattle.std.specs.Prelude.{◌≡◌, ◌≤◌, ◌++◌, ◌∷◌, [], false, IfOk, OnOk, Some, None, option_copied};
ghost use Rattle.std.specs.List.{All};
ghost use Rattle.std.specs.Result.{result_err};
ghost use Rattle.points.specs.declared.command_row.CommandState.TheVariants.{Answered};
ghost use Rattle.points.specs.PriorityArray.{Places, present_of};
ghost use Rattle.building.specs.Building.{Building as a_building};
ghost use Rattle.points.specs.Rights.{names_no_place, point_named};
ghost use Rattle.window.specs.declared.numbered_content.NumberedContent.{NumberedContent as an_entry};
ghost use Rattle.deliveries.specs.Accepted.{panel_named};
ghost use Rattle.deliveries.specs.Machine.{answer_to, commanded, default_of, done_of, places_after};
ghost use Rattle.deliveries.specs.Moved.{answered_rows, places_after_each};
ghost use Rattle.store.specs.Change.{IsKeptRow, IsNumber, IsPlace, IsState};
ghost use Rattle.store.specs.Standing.{IsOpen, Reads};
ghost use Rattle.points.specs.Texts.{Text};
ghost use Rattle.desk_commands.specs.Written.{Acts, commanding, places_at, written};

use building::Building;
use points::{
    Answer, CommandRow, CommandState, Content, Name, Panel, Point, PriorityArray, permit_for,
};
use std::alloc::{AllocError, Global};
use store::{KeptRow, PlaceValue, Store, StoreFault};
use window::NumberedContent;

/// What a panel's commands make: a row for each, and the places that they write.
#[derive(Drop)]
pub struct Acted {
    pub rows: Vec<KeptRow>,
    pub places: Vec<PlaceValue>,
}

// Puts the values that are written at a point in its priority array.
fn put_written(array: &mut PriorityArray, values: &[PlaceValue], point: &Name)
    requires { All IsPlace values.now }
    ensures { array.new ≡ places_at point.now values.now array.old }
{
    for value in values {
        if value.point == *point {
            array.set(value.priority, value.value);
        }
    }
}

// The relinquish default of a point, where it was found.
fn relinquish_default(point: Option<&Point>) -> i64
    ensures { (building : a_building) (name : Text) → option_copied point.entry ≡ point_named building.points name
        → result ≡ default_of building name }
{
    match point {
        Some(point) => point.relinquish_default,
        None => 0,
    }
}

// Puts a content's value in its place.
fn command_array(array: &mut PriorityArray, content: &Content)
    requires { names_no_place content.now.priority ≡ false }
    ensures { array.new ≡ commanded array.old content.now }
{
    array.set(content.priority as u8, content.value);
}

// Writes a content's value, unless its place has it already.
fn push_value(
    values: &mut Vec<PlaceValue>,
    array: &PriorityArray,
    content: &Content,
) -> Result<(), AllocError>
    requires permitted { names_no_place content.now.priority ≡ false }
    requires places { All IsPlace values.old.items }
    ensures values { (held : Text → Places) → array.now ≡ written values.old.items held content.now.point
        → OnOk result (written values.new.items held ≡ commanding content.now (written values.old.items held)) }
    ensures places { OnOk result (All IsPlace values.new.items) }
{
    let priority = content.priority as u8;
    if array.value_at(priority) == content.value {
        return Ok(());
    }
    values.push(PlaceValue {
        point: content.point,
        priority,
        value: content.value,
    })?;
    Ok(())
}

// Writes a permitted content in its place, and answers what its point presents then, which was found by its name.
fn write<S: Store>(
    store: &mut S,
    building: &Building,
    point: Option<&Point>,
    values: &mut Vec<PlaceValue>,
    content: &Content,
) -> Result<Answer, StoreFault>
    requires found { option_copied point ≡ point_named building.now.points content.now.point }
    requires permitted { names_no_place content.now.priority ≡ false }
    requires places { All IsPlace values.old.items }
    ensures reads { Reads (result_err result) (S.standing store.old) (S.standing store.new) }
    ensures answer { (S.standing store.new).is_honest → IfOk result (λ answer. answer
        ≡ done_of (present_of (commanded (written values.old.items (S.standing store.old).content.tables.places content.now.point) content.now)
        (default_of building.now content.now.point))) }
    ensures values { (S.standing store.new).is_honest → OnOk result
        (written values.new.items (S.standing store.old).content.tables.places
        ≡ commanding content.now (written values.old.items (S.standing store.old).content.tables.places)) }
    ensures places { OnOk result (All IsPlace values.new.items) }
    ensures state { IfOk result (λ answer. IsState (Answered answer)) }
{
    let mut array = store.array(&content.point)?;
    put_written(&mut array, values.as_slice(), &content.point);
    push_value(values, &array, content)?;
    command_array(&mut array, content);
    let (present, priority) = array.present(relinquish_default(point));
    Ok(Answer::Done { present, priority })
}

// Answers one command, after those whose values are written, and writes its value if it is permitted.
fn answer_command<S: Store>(
    store: &mut S,
    building: &Building,
    panel: &Panel,
    values: &mut Vec<PlaceValue>,
    content: &Content,
) -> Result<Answer, StoreFault>
    requires open { IsOpen (S.standing store.old) }
    requires known { panel_named building.now panel.now.name ≡ Some panel.now }
    requires places { All IsPlace values.old.items }
    ensures reads { Reads (result_err result) (S.standing store.old) (S.standing store.new) }
    ensures answer { (S.standing store.new).is_honest → IfOk result (λ answer. answer
        ≡ answer_to building.now (written values.old.items (S.standing store.old).content.tables.places) panel.now.name content.now) }
    ensures values { (S.standing store.new).is_honest → OnOk result
        (written values.new.items (S.standing store.old).content.tables.places
        ≡ places_after building.now (written values.old.items (S.standing store.old).content.tables.places) panel.now.name content.now) }
    ensures places { OnOk result (All IsPlace values.new.items) }
    ensures state { IfOk result (λ answer. IsState (Answered answer)) }
{
    let point = building.find_point(&content.point);
    match permit_for(point, panel, content) {
        Ok(()) => write(store, building, point, values, content),
        Err(rule) => Ok(Answer::Refused(rule)),
    }
}

// Acts on one command, after those before it.
fn act_on<S: Store>(
    store: &mut S,
    building: &Building,
    panel: &Panel,
    acted: &mut Acted,
    entry: &NumberedContent,
) -> Result<(), StoreFault>
    requires open { IsOpen (S.standing store.old) }
    requires known { panel_named building.now panel.now.name ≡ Some panel.now }
    requires number { IsNumber entry.now.number }
    requires places { All IsPlace acted.old.places.items }
    requires rows { All IsKeptRow acted.old.rows.items }
    ensures reads { Reads (result_err result) (S.standing store.old) (S.standing store.new) }
    ensures acts { (S.standing store.new).is_honest → OnOk result
        (Acts building.now panel.now.name (S.standing store.old).content.tables.places entry.now acted.old acted.new) }
    ensures places { OnOk result (All IsPlace acted.new.places.items) }
    ensures rows { OnOk result (All IsKeptRow acted.new.rows.items) }
{
    let answer = answer_command(store, building, panel, &mut acted.places, &entry.content)?;
    acted.rows.push(KeptRow {
        panel: panel.name,
        number: entry.number,
        row: CommandRow {
            content: entry.content,
            state: CommandState::Answered(answer),
        },
    })?;
    Ok(())
}

/// Acts on a panel's commands, one after the other, in memory: the store is only read.
pub fn act_on_each<S: Store>(
    alloc: Global,
    store: &mut S,
    building: &Building,
    panel: &Panel,
    entries: &[NumberedContent],
) -> Result<Acted, StoreFault>
    requires open { IsOpen (S.standing store.old) }
    requires known { panel_named building.now panel.now.name ≡ Some panel.now }
    requires numbers { All (λ (entry : an_entry). IsNumber entry.number) entries.now }
    ensures reads { Reads (result_err result) (S.standing store.old) (S.standing store.new) }
    ensures rows { (S.standing store.new).is_honest → IfOk result (λ acted. acted.rows.items
        ≡ answered_rows building.now (S.standing store.old).content.tables.places panel.now.name entries.now) }
    ensures places { (S.standing store.new).is_honest → IfOk result (λ acted. written acted.places.items (S.standing store.old).content.tables.places
        ≡ places_after_each building.now (S.standing store.old).content.tables.places panel.now.name entries.now) }
    ensures kept { IfOk result (λ acted. All IsKeptRow acted.rows.items) }
    ensures placed { IfOk result (λ acted. All IsPlace acted.places.items) }
{
    let mut acted = Acted {
        rows: Vec::new(alloc),
        places: Vec::new(alloc),
    };
    for entry in entries {
        act_on(store, building, panel, &mut acted, entry)?;
    }
    Ok(acted)
}
