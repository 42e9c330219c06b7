//! Lists of time values of a building file.

ghost use Rattle.std.specs.Prelude.{◌≡◌, IfOk, IsTrue};
ghost use Rattle.std.specs.List.{list_all};
ghost use Rattle.toml.specs.View.{items_view, view};
ghost use Rattle.building.specs.Answers.{Answers};
ghost use Rattle.building.specs.TimeLists.{has_values_in, is_list_within, list_of};
ghost use Rattle.building.specs.TimeLists.{time_value_in};

use crate::building_refusal::BuildingFault;
use crate::cause::Cause;
use crate::fields::Fields;
use crate::file_fault::FileFault;
use crate::item_list::{ReadItem, read_items};
use crate::key::Key;
use crate::kinds::lies_in_all;
use crate::time_value::read_time_value;
use points::Kind;
use sched::{DayList, TimeValue};
use std::alloc::Global;
use toml::Value;

/// The time values that a list has at most (this profile's limit).
const MOST_TIME_VALUES: usize = 100;

/// Reads time values, and lists of them, of values that lie in each of the kinds.
#[derive(Clone, Copy)]
pub(crate) struct TimeLists<'a> {
    pub alloc: Global,
    pub fields: &'a Fields<'a>,
    pub key: Key,
    pub kinds: &'a [Kind],
}

impl ReadItem<TimeValue> for TimeLists<'_> {
    ghost meaning = { λ reader. time_value_in reader.fields.now.location reader.key reader.kinds.now };

    ghost is_sound = { λ reader. has_values_in reader.kinds.now };

    fn read(&self, item: &Value) -> Result<TimeValue, BuildingFault> {
        Ok(self.time_value_in(item)?)
    }
}

impl TimeLists<'_> {
    /// The time value of a text (B4, B9, B11).
    fn time_value_in(&self, item: &Value) -> Result<TimeValue, FileFault>
        ensures answers { result
            ≡ time_value_in self.now.fields.now.location self.now.key self.now.kinds.now (view item.now) }
        ensures sound { IfOk result (λ x. IsTrue (has_values_in self.now.kinds.now x)) }
    {
        let text = self.fields.text_in(self.key, item)?;
        let fault = self.fields.fault(self.key, Cause::NotATimeValue);
        let time_value = read_time_value(text).ok_or(fault)?;
        if lies_in_all(self.kinds, time_value.value) {
            Ok(time_value)
        } else {
            Err(self.fields.fault(self.key, Cause::OutsideKind))
        }
    }

    /// The time values of a list (B13, then item by item).
    pub(crate) fn list_of(&self, items: &[Value]) -> Result<DayList, BuildingFault>
        ensures answers { Answers (list_of self.now.fields.now.location self.now.key self.now.kinds.now
            (items_view items.now)) result }
        ensures sound { IfOk result (λ list. IsTrue (is_list_within self.now.kinds.now list)) }
    {
        self.fields.at_most(MOST_TIME_VALUES, self.key, items)?;
        let time_values = read_items(self.alloc, self, items)?;
        Ok(DayList::from_vec(self.alloc, time_values)?)
    }
}
