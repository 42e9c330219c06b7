//! The tables of a section, each with a name of its own.

ghost use Rattle.std.specs.Prelude.{◌≡◌, [], false, IfOk, IsTrue};
ghost use Rattle.std.specs.List.{list_all};
ghost use Rattle.toml.specs.View.{items_view, table_view, view};
ghost use Rattle.building.specs.Answers.{Answers};
ghost use Rattle.points.specs.FaultSteps.{result_map};
ghost use Rattle.building.specs.Roster.{has_name};
ghost use Rattle.building.specs.Section.{each_table, name_at, new_name, table_at, table_in};

use crate::building_refusal::BuildingFault;
use crate::cause::Cause;
use crate::fields::Fields;
use crate::file_fault::FileFault;
use crate::key::Key;
use crate::location::Location;
use crate::named::Named;
use crate::roster::Roster;
use crate::section::Section;
use points::Name;
use std::alloc::Global;
use toml::Value;

/// How a table of a section is read.
pub(crate) trait ReadTable<T: Named> {
    ghost use Rattle.std.specs.Prelude.{◌≡◌, Bool, IfOk, IsTrue, List, Result, ℕ};
    ghost use Rattle.toml.specs.Data.{Members};
    ghost use Rattle.toml.specs.View.{table_view};
    ghost use Rattle.building.specs.Answers.{Answers};
    ghost use Rattle.building.specs.declared.file_fault.FileFault.{FileFault};
    ghost use Rattle.building.specs.declared.location.Location.{Location};

    /// What a table of the name means, or its first fault after the name.
    ghost meaning: { Self → Location → List ℕ → Members → Result T FileFault };

    /// What holds of each table that is read.
    ghost is_sound: { Self → T → Bool };

    fn read(&self, fields: &Fields<'_>, name: Name) -> Result<T, BuildingFault>
        ensures answers { Answers (meaning self.now fields.now.location name
            (table_view fields.now.table.now)) result }
        ensures named { IfOk result (λ x. T.name_of x ≡ name) }
        ensures sound { IfOk result (λ x. IsTrue (is_sound self.now x)) };
}

/// What the tables of a section mean, in their order, or the first fault. A table has no key but these
/// (B2), and begins with its name (B3 to B6).
pub(crate) fn read_section<T: Named + Drop, R: ReadTable<T>>(
    alloc: Global,
    reader: &R,
    section: Section,
    known: &[Key],
    items: &[Value],
) -> Result<Roster<T>, BuildingFault>
    ensures answers { Answers (each_table section T.name_of
        (table_in known.now T.name_of (R.meaning reader.now)) [] (items_view items.now)) result }
    ensures sound { IfOk result (λ tables. IsTrue (list_all (R.is_sound reader.now) tables)) }
{
    let mut tables = Roster::new(alloc);
    for (index, item) in items.iter().enumerate() {
        let location = Location {
            section,
            position: index + 1,
            in_exception: false,
        };
        tables.push(table_in(reader, known, location, &tables, item)?)?;
    }
    Ok(tables)
}

/// What a table means, after those that stand before it in its section.
fn table_in<T: Named, R: ReadTable<T>>(
    reader: &R,
    known: &[Key],
    location: Location,
    earlier: &Roster<T>,
    item: &Value,
) -> Result<T, BuildingFault>
    ensures answers { Answers (table_in known.now T.name_of (R.meaning reader.now) location earlier.now
        (view item.now)) result }
    ensures new { IfOk result (λ x. has_name T.name_of (T.name_of x) earlier.now ≡ false) }
    ensures sound { IfOk result (λ x. IsTrue (R.is_sound reader.now x)) }
{
    let fields = Fields {
        table: table_at(location, item)?,
        location,
    };
    fields.has_only(known)?;
    let name = new_name(&fields, earlier)?;
    reader.read(&fields, name)
}

/// An item of a section as a table.
fn table_at<'a>(location: Location, item: &'a Value) -> Result<&'a toml::Table, FileFault>
    ensures { result_map (λ table. table_view table.now) result ≡ table_at location (view item.now) }
{
    item.as_table()
        .ok_or(location.fault(Key::Unknown, Cause::WrongType))
}

/// The name of a table, which no table before it has (B3 to B6).
fn new_name<T: Named>(fields: &Fields<'_>, earlier: &Roster<T>) -> Result<Name, FileFault>
    ensures answers { result ≡ new_name fields.now.location T.name_of earlier.now
        (table_view fields.now.table.now) }
    ensures new { IfOk result (λ name. has_name T.name_of name earlier.now ≡ false) }
{
    let name = name_at(fields)?;
    if earlier.has(&name) {
        Err(fields.fault(Key::Name, Cause::RepeatedName))
    } else {
        Ok(name)
    }
}

/// The name that a table gives itself (B3 to B5).
fn name_at(fields: &Fields<'_>) -> Result<Name, FileFault>
    ensures { result ≡ name_at fields.now.location (table_view fields.now.table.now) }
{
    points::name_of(fields.text(Key::Name)?).ok_or(fields.fault(Key::Name, Cause::NotAName))
}
