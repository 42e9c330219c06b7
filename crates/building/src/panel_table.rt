//! The panel that a `[[panel]]` table of a building file names.

ghost use Rattle.std.specs.Prelude.{IfOk, IsTrue};
ghost use Rattle.std.specs.List.{list_all};
ghost use Rattle.toml.specs.View.{items_view, table_view};
ghost use Rattle.building.specs.Answers.{Answers};
ghost use Rattle.building.specs.Items.{each_item};
ghost use Rattle.building.specs.Priority.{write_priority_in};
ghost use Rattle.points.specs.Priority.{is_write_priority};
ghost use Rattle.building.specs.PanelTable.{is_sound_panel, panel_in};

use crate::building_refusal::BuildingFault;
use crate::fields::Fields;
use crate::item_list::{ReadItem, read_items};
use crate::key::Key;
use crate::priority::write_priority;
use crate::reference::read_references;
use crate::roster::Roster;
use crate::section_tables::ReadTable;
use points::{Listing, Name, Panel, Point};
use std::alloc::Global;
use toml::Value;

/// Reads a panel, beside the points of the building.
#[derive(Drop)]
pub(crate) struct PanelTable<'a> {
    pub alloc: Global,
    pub points: &'a Roster<Point>,
}

impl ReadTable<Panel> for PanelTable<'_> {
    ghost meaning = { λ reader. panel_in reader.points.now };

    ghost is_sound = { λ reader. is_sound_panel reader.points.now };

    #[tactic(auto, unfolding(crate::specs::PanelTable::panel_in))]
    fn read(&self, fields: &Fields<'_>, name: Name) -> Result<Panel, BuildingFault> {
        let granted = fields.list(Key::Points)?;
        let points = read_references(self.alloc, fields, Key::Points, self.points, granted)?;
        let listed = fields.list(Key::Priorities)?;
        let priorities = read_priorities(self.alloc, fields, listed)?;
        Ok(Panel {
            name,
            points,
            priorities,
        })
    }
}

/// The priorities that are granted.
fn read_priorities(
    alloc: Global,
    fields: &Fields<'_>,
    items: &[Value],
) -> Result<Listing<u8>, BuildingFault>
    ensures answers { Answers (each_item (write_priority_in fields.now.location Key.Priorities)
        (items_view items.now)) result }
    ensures sound { IfOk result (λ ns. IsTrue (list_all is_write_priority ns)) }
{
    let key = Key::Priorities;
    let priorities = read_items(alloc, &PriorityItem { fields, key }, items)?;
    Ok(Listing::from_vec(priorities))
}

/// Reads a priority that a panel may be granted.
#[derive(Drop)]
struct PriorityItem<'a> {
    fields: &'a Fields<'a>,
    key: Key,
}

impl ReadItem<u8> for PriorityItem<'_> {
    ghost meaning = { λ reader. write_priority_in reader.fields.now.location reader.key };

    ghost is_sound = { λ _. is_write_priority };

    fn read(&self, item: &Value) -> Result<u8, BuildingFault> {
        Ok(write_priority(self.fields, self.key, item)?)
    }
}
