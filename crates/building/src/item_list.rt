//! A TOML list, read item by item.

ghost use Rattle.std.specs.Prelude.{IfOk, IsTrue};
ghost use Rattle.std.specs.List.{list_all};
ghost use Rattle.points.specs.FaultSteps.{result_map};
ghost use Rattle.toml.specs.View.{items_view, view};
ghost use Rattle.building.specs.Answers.{Answers};
ghost use Rattle.building.specs.Items.{each_item};

use crate::building_refusal::BuildingFault;
use std::alloc::Global;
use toml::Value;

/// How an item of a list is read.
pub(crate) trait ReadItem<T> {
    ghost use Rattle.std.specs.Prelude.{Bool, Result};
    ghost use Rattle.toml.specs.Data.{Data};
    ghost use Rattle.building.specs.declared.file_fault.FileFault.{FileFault};

    /// What an item means, or its first fault.
    ghost meaning: { Self → Data → Result T FileFault };

    /// What holds of each item that is read.
    ghost is_sound: { Self → T → Bool };

    fn read(&self, item: &Value) -> Result<T, BuildingFault>
        ensures answers { Answers (meaning self.now (view item.now)) result }
        ensures sound { IfOk result (λ x. IsTrue (is_sound self.now x)) };
}

/// What the items mean, in their order, or the first fault.
pub(crate) fn read_items<T: Drop, R: ReadItem<T>>(
    alloc: Global,
    reader: &R,
    items: &[Value],
) -> Result<Vec<T>, BuildingFault>
    ensures answers { Answers (each_item (R.meaning reader.now) (items_view items.now))
        (result_map (λ v. v.items) result) }
    ensures sound { IfOk result (λ v. IsTrue (list_all (R.is_sound reader.now) v.items)) }
{
    let mut values = Vec::new(alloc);
    for item in items {
        values.push(reader.read(item)?)?;
    }
    Ok(values)
}
