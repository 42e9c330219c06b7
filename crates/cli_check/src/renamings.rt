//! The renamings among the words.
ghost use Rattle.std.specs.Prelude.{◌≡◌, ◌++◌, ◌∷◌, [], IfOk, OnOk, map};
ghost use Rattle.desk_adopt.specs.declared.renaming.Renaming.{Renaming as a_renaming};
ghost use Rattle.std.specs.List.{list_any};
ghost use Rattle.std.specs.Str.{bytes_eq};
ghost use Rattle.cli_check.specs.Renamings.{AreRenamings, IsRenaming, JoinsThem, has_name};

use crate::adoption_fault::{AdoptionFault, RenamingFault};
use building::Building;
use desk_adopt::Renaming;
use points::Name;
use std::alloc::Global;

/// Whether a point, a panel, a schedule or a calendar of the building has the name.
fn has_name(building: &Building, name: &Name) -> bool
    ensures { result ≡ has_name building.now name.now }
{
    building.find_point(name).is_some()
        || building.find_panel(name).is_some()
        || building.schedule_index(name).is_some()
        || building.calendar_index(name).is_some()
}

fn is_renamed(renamings: &[Renaming], name: &Name) -> bool
    ensures { result ≡ list_any (λ it. bytes_eq it.old name.now) renamings.now }
{
    renamings.iter().any(|it| it.old == *name)
}

fn is_taken(renamings: &[Renaming], name: &Name) -> bool
    ensures { result ≡ list_any (λ it. bytes_eq it.new name.now) renamings.now }
{
    renamings.iter().any(|it| it.new == *name)
}

/// The renaming of a text beside those before it, or why it is none.
fn renaming_in(
    building: &Building,
    earlier: &[Renaming],
    text: &str,
) -> Result<Renaming, RenamingFault>
    ensures read { IfOk result (λ it. IsRenaming text.now it) }
    ensures joins { IfOk result (λ it. JoinsThem building.now earlier.now it) }
{
    let Some(renaming) = Renaming::read(text) else {
        return Err(RenamingFault::Malformed);
    };
    if is_renamed(earlier, &renaming.old) {
        return Err(RenamingFault::RenamedTwice(renaming.old));
    }
    if is_taken(earlier, &renaming.new) {
        return Err(RenamingFault::TakenTwice(renaming.new));
    }
    if !has_name(building, &renaming.new) {
        return Err(RenamingFault::NotInBuilding(renaming.new));
    }
    Ok(renaming)
}

/// Puts the renaming of a text last, beside those before it.
fn add_renaming<'a>(
    alloc: Global,
    building: &Building,
    renamings: &mut Vec<Renaming>,
    text: &str,
) -> Result<(), AdoptionFault<'a>>
    ensures { OnOk result ((it : a_renaming) × IsRenaming text.now it × JoinsThem building.now renamings.old.items it
        × (renamings.new.items ≡ renamings.old.items ++ it ∷ [])) }
{
    match renaming_in(building, renamings.as_slice(), text) {
        Ok(renaming) => {
            renamings.push(renaming)?;
            Ok(())
        }
        Err(fault) => {
            let text = String::from_str(alloc, text)?;
            Err(AdoptionFault::NotARenaming { text, fault })
        }
    }
}

/// The renamings of texts, each `OLD=NEW_NAME`, or why one is none: no name is renamed twice or taken twice, and each
/// that is taken is the building's.
pub fn renamings_in<'a>(
    alloc: Global,
    building: &Building,
    texts: &[&str],
) -> Result<Vec<Renaming>, AdoptionFault<'a>>
    ensures { IfOk result (λ renamings. AreRenamings building.now (map (λ text. text.now) texts.now) renamings.items) }
{
    let mut renamings = Vec::new(alloc);
    for text in texts {
        add_renaming(alloc, building, &mut renamings, text)?;
    }
    Ok(renamings)
}
