//! The point that a `[[point]]` table of a building file names.

ghost use Rattle.std.specs.Prelude.{◌≡◌, IfOk, IsTrue};
ghost use Rattle.toml.specs.View.{table_view};
ghost use Rattle.building.specs.PointTable.{analog_at, binary_at, bound_at, is_bound, is_kind};
ghost use Rattle.building.specs.PointTable.{is_sound_point, kind_at, kind_named, multi_at, point_in};

use crate::building_refusal::BuildingFault;
use crate::cause::Cause;
use crate::fields::Fields;
use crate::file_fault::FileFault;
use crate::key::Key;
use crate::section_tables::ReadTable;
use points::{GREATEST_ANALOG, Kind, LEAST_ANALOG, MOST_STATES, Name, Point};

/// Reads a point.
pub(crate) struct PointTable;

impl ReadTable<Point> for PointTable {
    ghost meaning = { λ _. point_in };

    ghost is_sound = { λ _. is_sound_point };

    fn read(&self, fields: &Fields<'_>, name: Name) -> Result<Point, BuildingFault> {
        Ok(point_in(fields, name)?)
    }
}

#[tactic(auto, unfolding(crate::specs::PointTable::point_in))]
fn point_in(fields: &Fields<'_>, name: Name) -> Result<Point, FileFault>
    ensures answers { result ≡ point_in fields.now.location name (table_view fields.now.table.now) }
    ensures named { IfOk result (λ point. point.name ≡ name) }
    ensures sound { IfOk result (λ point. IsTrue (is_sound_point point)) }
{
    let kind = kind_at(fields)?;
    let relinquish_default = fields.integer(Key::Default)?;
    if kind.admits(relinquish_default) {
        Ok(Point {
            name,
            kind,
            relinquish_default,
        })
    } else {
        Err(fields.fault(Key::Default, Cause::OutsideKind))
    }
}

#[tactic(auto, unfolding(crate::specs::PointTable::kind_at))]
fn kind_at(fields: &Fields<'_>) -> Result<Kind, FileFault>
    ensures answers { result ≡ kind_at fields.now.location (table_view fields.now.table.now) }
    ensures sound { IfOk result (λ kind. IsTrue (is_kind kind)) }
{
    kind_named(fields.text(Key::Kind)?, fields)
}

fn kind_named(word: &str, fields: &Fields<'_>) -> Result<Kind, FileFault>
    ensures answers { result
        ≡ kind_named fields.now.location word.now (table_view fields.now.table.now) }
    ensures sound { IfOk result (λ kind. IsTrue (is_kind kind)) }
{
    match word {
        "binary" => binary_at(fields),
        "multi" => multi_at(fields),
        "analog" => analog_at(fields),
        _ => Err(fields.fault(Key::Kind, Cause::WrongType)),
    }
}

fn binary_at(fields: &Fields<'_>) -> Result<Kind, FileFault>
    ensures answers { result ≡ binary_at fields.now.location (table_view fields.now.table.now) }
    ensures sound { IfOk result (λ kind. IsTrue (is_kind kind)) }
{
    fields.has_none(&[Key::States, Key::Low, Key::High])?;
    Ok(Kind::Binary)
}

fn multi_at(fields: &Fields<'_>) -> Result<Kind, FileFault>
    ensures answers { result ≡ multi_at fields.now.location (table_view fields.now.table.now) }
    ensures sound { IfOk result (λ kind. IsTrue (is_kind kind)) }
{
    let states = fields.integer(Key::States)?;
    if states < 1 || MOST_STATES < states {
        return Err(fields.fault(Key::States, Cause::BeyondLimit));
    }
    fields.has_none(&[Key::Low, Key::High])?;
    Ok(Kind::Multistate { states })
}

fn analog_at(fields: &Fields<'_>) -> Result<Kind, FileFault>
    ensures answers { result ≡ analog_at fields.now.location (table_view fields.now.table.now) }
    ensures sound { IfOk result (λ kind. IsTrue (is_kind kind)) }
{
    fields.has_none(&[Key::States])?;
    let low = bound_at(fields, Key::Low)?;
    let high = bound_at(fields, Key::High)?;
    if low <= high {
        Ok(Kind::Analog { low, high })
    } else {
        Err(fields.fault(Key::High, Cause::OutsideKind))
    }
}

/// A bound of an analog point.
fn bound_at(fields: &Fields<'_>, key: Key) -> Result<i64, FileFault>
    ensures answers { result ≡ bound_at fields.now.location key (table_view fields.now.table.now) }
    ensures sound { IfOk result (λ value. IsTrue (is_bound value)) }
{
    let value = fields.integer(key)?;
    if LEAST_ANALOG <= value && value <= GREATEST_ANALOG {
        Ok(value)
    } else {
        Err(fields.fault(key, Cause::BeyondLimit))
    }
}
