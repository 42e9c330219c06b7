//! Lists of names that refer to items of the file.

ghost use Rattle.std.specs.Prelude.{◌≡◌, [], IfOk, IsTrue};
ghost use Rattle.std.specs.List.{list_all};
ghost use Rattle.toml.specs.View.{items_view};
ghost use Rattle.building.specs.Answers.{Answers};
ghost use Rattle.points.specs.FaultSteps.{result_map};
ghost use Rattle.building.specs.Reference.{each_reference, is_named, reference};

use crate::building_refusal::BuildingFault;
use crate::cause::Cause;
use crate::fields::Fields;
use crate::file_fault::FileFault;
use crate::key::Key;
use crate::named::Named;
use crate::roster::Roster;
use points::{Name, NameIndex};
use std::alloc::Global;
use toml::Value;

/// The names of a list at a key, each of an item that is there (B7) and each once (B6).
pub(crate) fn read_references<T: Named>(
    alloc: Global,
    fields: &Fields<'_>,
    key: Key,
    there: &Roster<T>,
    items: &[Value],
) -> Result<NameIndex, BuildingFault>
    ensures answers { Answers (each_reference fields.now.location key T.name_of there.now []
        (items_view items.now)) result }
    ensures sound { IfOk result (λ names. IsTrue (list_all (is_named T.name_of there.now) names)) }
{
    let mut names = NameIndex::new(alloc);
    for item in items {
        let name = reference(fields, key, there, fields.text_in(key, item)?)?;
        if !names.insert(name)? {
            return Err(fields.fault(key, Cause::RepeatedName).into());
        }
    }
    Ok(names)
}

/// The name of an item that is there (B7).
pub(crate) fn reference<T: Named>(
    fields: &Fields<'_>,
    key: Key,
    there: &Roster<T>,
    text: &str,
) -> Result<Name, FileFault>
    ensures answers { result ≡ reference fields.now.location key T.name_of there.now text.now }
    ensures sound { IfOk result (λ name. IsTrue (is_named T.name_of there.now name)) }
{
    match points::name_of(text) {
        Some(name) if there.has(&name) => Ok(name),
        _ => Err(fields.fault(key, Cause::UnknownName)),
    }
}
