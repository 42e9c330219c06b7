//! The schedule that a `[[schedule]]` table of a building file names.

ghost use Rattle.std.specs.Prelude.{◌≡◌, IfOk, IsTrue};
ghost use Rattle.std.specs.List.{list_all};
ghost use Rattle.toml.specs.View.{table_view};
ghost use Rattle.building.specs.Answers.{Answers};
ghost use Rattle.building.specs.Reference.{is_named};
ghost use Rattle.points.specs.Priority.{is_write_priority};
ghost use Rattle.building.specs.ScheduleTable.{is_sound_schedule, leave_in, leave_of, period_at, period_of};
ghost use Rattle.building.specs.ScheduleTable.{priority_at, schedule_in, targets_at};

use crate::building_refusal::BuildingFault;
use crate::cause::Cause;
use crate::day_values::day_values_in;
use crate::fields::Fields;
use crate::file_fault::FileFault;
use crate::key::Key;
use crate::kinds::kinds_of;
use crate::named_calendar::NamedCalendar;
use crate::named_schedule::{NamedSchedule, OnLeave};
use crate::priority::write_priority;
use crate::reference::read_references;
use crate::roster::Roster;
use crate::section_tables::ReadTable;
use dates::{Entry, EntryFault, Range};
use points::{Name, NameIndex, Point};
use sched::Schedule;
use std::alloc::Global;

/// The points that a schedule writes to at most (this profile's limit).
const MOST_TARGETS: usize = 100;

/// Reads a schedule, beside the points and the calendars of the building.
#[derive(Drop)]
pub(crate) struct ScheduleTable<'a> {
    pub alloc: Global,
    pub points: &'a Roster<Point>,
    pub calendars: &'a Roster<NamedCalendar>,
}

impl ReadTable<NamedSchedule> for ScheduleTable<'_> {
    ghost meaning = { λ reader. schedule_in reader.points.now reader.calendars.now };

    ghost is_sound = { λ reader. is_sound_schedule reader.points.now reader.calendars.now };

    #[tactic(auto, unfolding(crate::specs::ScheduleTable::schedule_in))]
    fn read(&self, fields: &Fields<'_>, name: Name) -> Result<NamedSchedule, BuildingFault> {
        let effective_period = period_at(fields)?;
        let priority = priority_at(fields)?;
        let targets = self.targets_at(fields)?;
        let kinds = kinds_of(self.alloc, self.points, targets.as_slice())?;
        let table = Fields {
            table: &*fields.table,
            location: fields.location,
        };
        let values = day_values_in(self.alloc, &table, &*self.calendars, kinds.as_slice())?;
        let on_leave = leave_in(fields)?;
        Ok(NamedSchedule {
            name,
            priority,
            targets,
            on_leave,
            schedule: Schedule {
                effective_period,
                weekly: values.weekly,
                exceptions: values.exceptions,
                default: values.default,
            },
        })
    }
}

impl ScheduleTable<'_> {
    /// The points that the schedule writes to, each once.
    fn targets_at(&self, fields: &Fields<'_>) -> Result<NameIndex, BuildingFault>
        ensures answers { Answers (targets_at self.now.points.now fields.now.location
            (table_view fields.now.table.now)) result }
        ensures sound { IfOk result (λ names. IsTrue
            (list_all (is_named (λ point. point.name) self.now.points.now) names)) }
    {
        let listed = fields.list(Key::Targets)?;
        fields.at_most(MOST_TARGETS, Key::Targets, listed)?;
        read_references(self.alloc, fields, Key::Targets, self.points, listed)
    }
}

/// The days on which the schedule is active: all of them where the key is missing.
fn period_at(fields: &Fields<'_>) -> Result<Range, FileFault>
    ensures { result ≡ period_at fields.now.location (table_view fields.now.table.now) }
{
    match fields.optional_text(Key::Period)? {
        None => Ok(Range {
            start: None,
            end: None,
        }),
        Some(text) => period_of(fields, text),
    }
}

/// The range that a text spells (B8).
fn period_of(fields: &Fields<'_>, text: &str) -> Result<Range, FileFault>
    ensures { result ≡ period_of fields.now.location text.now }
{
    match Entry::read(text) {
        Ok(Entry::Range(range)) => Ok(range),
        Ok(_) => Err(fields.fault(Key::Period, Cause::NotAnEntry(EntryFault::Shape))),
        Err(fault) => Err(fields.fault(Key::Period, Cause::NotAnEntry(fault))),
    }
}

fn priority_at(fields: &Fields<'_>) -> Result<u8, FileFault>
    ensures answers { result ≡ priority_at fields.now.location (table_view fields.now.table.now) }
    ensures sound { IfOk result (λ n. IsTrue (is_write_priority n)) }
{
    write_priority(fields, Key::Priority, fields.required(Key::Priority)?)
}

fn leave_in(fields: &Fields<'_>) -> Result<OnLeave, FileFault>
    ensures { result ≡ leave_in fields.now.location (table_view fields.now.table.now) }
{
    match fields.optional_text(Key::OnLeave)? {
        None => Ok(OnLeave::Stay),
        Some(text) => leave_of(fields, text),
    }
}

fn leave_of(fields: &Fields<'_>, text: &str) -> Result<OnLeave, FileFault>
    ensures { result ≡ leave_of fields.now.location text.now }
{
    match text {
        "stay" => Ok(OnLeave::Stay),
        "release" => Ok(OnLeave::Release),
        _ => Err(fields.fault(Key::OnLeave, Cause::WrongType)),
    }
}
