//! Lists of time values that give no value.
ghost use Rattle.std.specs.Prelude.{◌≡◌, is_none};
ghost use Rattle.sched.specs.DayList.{list_value};
ghost use Rattle.building_hints.specs.NullLists.{is_null_all_day};

use sched::{DayList, Time};

fn is_null_at(list: &DayList, time: Time) -> bool
    ensures { result ≡ is_none (list_value list.now time) }
{
    list.value_at(time).is_none()
}

/// Whether the list has a value other than NULL at no time of a day: at none of the times that it names, since from one to
/// the next its value stands.
#[tactic(auto, unfolding(crate::specs::NullLists::is_null_all_day))]
pub(crate) fn is_null_all_day(list: &DayList) -> bool
    ensures { result ≡ is_null_all_day list.now }
{
    list.as_slice().iter().all(|it| is_null_at(list, it.time))
}
