//! The text of the worked building.
use std::alloc::{AllocError, Global};

const WITHOUT_SCHEDULE: &str = r#"
zone = "CET-1CEST,M3.5.0,M10.5.0/3"
[[point]]
name = "R101-SET"
kind = "analog"
low = 500
high = 3500
default = 1800
[[point]]
name = "LIGHT"
kind = "binary"
default = 0
[[panel]]
name = "P1"
points = ["R101-SET", "LIGHT"]
priorities = [8, 10]
[[panel]]
name = "P2"
points = ["R101-SET"]
priorities = [9, 15]
"#;

const SCHEDULE: &str = r#"
[[calendar]]
name = "HOLIDAYS"
entries = ["2025-12-25"]
[[schedule]]
name = "R101-DAY"
priority = 15
targets = ["R101-SET"]
default = 1600
weekly = [["08:00=2100"], [], [], [], [], [], ["02:45=1900"]]
[[schedule.exception]]
priority = 5
calendar = "HOLIDAYS"
times = ["00:00=1500"]
"#;

/// The worked building without its calendar and schedule. It is named here alone: a long text that is named in a
/// function is evaluated in its proof.
pub fn without_schedule() -> &'static str {
    WITHOUT_SCHEDULE
}

/// The worked building.
pub fn worked_building(alloc: Global) -> Result<String, AllocError> {
    let mut building = String::from_str(alloc, without_schedule())?;
    building.push_str(SCHEDULE)?;
    Ok(building)
}
