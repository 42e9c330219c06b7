//! The JSON values of what a building has.

ghost use Rattle.std.specs.Prelude.{◌≡◌};
ghost use Rattle.desk_cli.specs.Description.{on_leave_text};

use crate::json_value::{JsonValue, array_of};
use building::{NamedCalendar, NamedSchedule, OnLeave};
use dates::Entry;
use points::{Kind, Name, Panel, Point};
use serde_json::{Value, json};
use std::alloc::{AllocError, Global};

impl JsonValue for Name {
    ghost use Rattle.serde_json.specs.Data.{string};

    ghost json = { string };

    fn json_value(&self, alloc: Global) -> Result<Value, AllocError> {
        json!(in alloc; self.as_str())
    }
}

/// A priority is a number.
impl JsonValue for u8 {
    ghost use Rattle.desk_cli.specs.Description.{priority_data};

    ghost json = { priority_data };

    fn json_value(&self, _alloc: Global) -> Result<Value, AllocError> {
        Ok(Value::from(*self))
    }
}

impl JsonValue for Point {
    ghost use Rattle.desk_cli.specs.Description.{point_data};

    ghost json = { point_data };

    fn json_value(&self, alloc: Global) -> Result<Value, AllocError> {
        let name = self.name.as_str();
        let default = self.relinquish_default;
        match self.kind {
            Kind::Binary => {
                json!(in alloc; {"name": name, "kind": "binary", "default": default})
            }
            Kind::Multistate { states } => {
                json!(in alloc; {"name": name, "kind": "multi", "states": states, "default": default})
            }
            Kind::Analog { low, high } => {
                json!(in alloc; {"name": name, "kind": "analog", "low": low, "high": high, "default": default})
            }
        }
    }
}

impl JsonValue for Panel {
    ghost use Rattle.desk_cli.specs.Description.{panel_data};

    ghost json = { panel_data };

    fn json_value(&self, alloc: Global) -> Result<Value, AllocError> {
        let points = array_of(alloc, self.points.as_slice())?;
        let priorities = array_of(alloc, self.priorities.as_slice())?;
        json!(in alloc; {"name": self.name.as_str(), "points": points, "priorities": priorities})
    }
}

/// A calendar is printed as its name.
impl JsonValue for NamedCalendar {
    ghost use Rattle.desk_cli.specs.Description.{calendar_data};

    ghost json = { calendar_data };

    fn json_value(&self, alloc: Global) -> Result<Value, AllocError> {
        json!(in alloc; self.name.as_str())
    }
}

impl JsonValue for NamedSchedule {
    ghost use Rattle.desk_cli.specs.Description.{schedule_data};

    ghost json = { schedule_data };

    fn json_value(&self, alloc: Global) -> Result<Value, AllocError> {
        let period = Entry::Range(self.schedule.effective_period).write(alloc)?;
        let targets = array_of(alloc, self.targets.as_slice())?;
        json!(in alloc; {
            "name": self.name.as_str(),
            "period": period.as_str(),
            "priority": self.priority,
            "targets": targets,
            "on_leave": on_leave_text(self.on_leave)
        })
    }
}

/// The word of a building file for what becomes of a schedule's places.
fn on_leave_text(on_leave: OnLeave) -> &'static str
    ensures { result.now ≡ on_leave_text on_leave }
{
    match on_leave {
        OnLeave::Stay => "stay",
        OnLeave::Release => "release",
    }
}
