//! The exceptions of a schedule in a building file.

ghost use Rattle.std.specs.Prelude.{◌≡◌, IfOk, IfSome, IsTrue};
ghost use Rattle.toml.specs.View.{table_view, view};
ghost use Rattle.building.specs.Answers.{Answers};
ghost use Rattle.points.specs.FaultSteps.{result_map};
ghost use Rattle.building.specs.ExceptionTable.{calendar_at, calendar_named, exception_in, fields_at};
ghost use Rattle.building.specs.ExceptionTable.{is_sound_exception, is_sound_period, period_in, period_of};
ghost use Rattle.building.specs.ExceptionTable.{times_at};
ghost use Rattle.building.specs.TimeLists.{is_list_within};

use crate::building_refusal::BuildingFault;
use crate::cause::Cause;
use crate::entry_text::entry_in;
use crate::fields::Fields;
use crate::file_fault::FileFault;
use crate::item_list::ReadItem;
use crate::key::Key;
use crate::location::Location;
use crate::named_calendar::NamedCalendar;
use crate::priority::event_priority;
use crate::roster::Roster;
use crate::time_lists::TimeLists;
use points::Kind;
use sched::{CalId, DayList, Exception, Period};
use std::alloc::Global;
use toml::{Table, Value};

/// Reads an exception, beside the calendars of the building, of values that lie in each of the kinds.
#[derive(Drop)]
pub(crate) struct ExceptionTable<'a> {
    pub alloc: Global,
    /// Where the exceptions stand.
    pub location: Location,
    pub calendars: &'a Roster<NamedCalendar>,
    pub kinds: &'a [Kind],
}

impl ReadItem<Exception> for ExceptionTable<'_> {
    ghost meaning = { λ reader. exception_in reader.location reader.calendars.now reader.kinds.now };

    ghost is_sound = { λ reader. is_sound_exception reader.calendars.now reader.kinds.now };

    #[tactic(auto, unfolding(crate::specs::ExceptionTable::exception_in))]
    fn read(&self, item: &Value) -> Result<Exception, BuildingFault> {
        let fields = Fields {
            table: table_at(self.location, item)?,
            location: self.location,
        };
        fields.has_only(&[Key::Priority, Key::Entry, Key::Calendar, Key::Times])?;
        let priority = fields.required(Key::Priority)?;
        let event_priority = event_priority(&fields, Key::Priority, priority)?;
        let period = period_in(&fields, self.calendars)?;
        let times = self.times_at(&fields)?;
        Ok(Exception {
            period,
            event_priority,
            times,
        })
    }
}

impl ExceptionTable<'_> {
    fn times_at(&self, fields: &Fields<'_>) -> Result<DayList, BuildingFault>
        ensures answers { Answers (times_at fields.now.location self.now.kinds.now
            (table_view fields.now.table.now)) result }
        ensures sound { IfOk result (λ list. IsTrue (is_list_within self.now.kinds.now list)) }
    {
        let lists = TimeLists {
            alloc: self.alloc,
            fields,
            key: Key::Times,
            kinds: self.kinds,
        };
        lists.list_of(fields.list(Key::Times)?)
    }
}

/// An exception as a table.
fn table_at<'a>(location: Location, item: &'a Value) -> Result<&'a Table, FileFault>
    ensures { result_map (λ table. table_view table.now) result ≡ fields_at location (view item.now) }
{
    item.as_table()
        .ok_or(location.fault(Key::Exception, Cause::WrongType))
}

/// The days of an exception: those of an entry, or of a calendar.
fn period_in(fields: &Fields<'_>, calendars: &Roster<NamedCalendar>) -> Result<Period, FileFault>
    ensures answers { result
        ≡ period_in fields.now.location calendars.now (table_view fields.now.table.now) }
    ensures sound { IfOk result (λ period. IsTrue (is_sound_period calendars.now period)) }
{
    match (fields.value(Key::Entry), fields.value(Key::Calendar)) {
        (None, None) => Err(fields.fault(Key::Entry, Cause::MissingKey)),
        (Some(entry), None) => Ok(Period::Entry(entry_in(fields, Key::Entry, entry)?)),
        (None, Some(calendar)) => Ok(Period::Calendar(calendar_at(fields, calendars, calendar)?)),
        (Some(_), Some(_)) => Err(fields.fault(Key::Unknown, Cause::UnknownKey)),
    }
}

/// The calendar that a text names (B4, B7).
fn calendar_at(
    fields: &Fields<'_>,
    calendars: &Roster<NamedCalendar>,
    value: &Value,
) -> Result<CalId, FileFault>
    ensures answers { result ≡ calendar_at fields.now.location calendars.now (view value.now) }
    ensures sound { IfOk result (λ id. IsTrue (is_sound_period calendars.now (Period.Calendar id))) }
{
    let text = fields.text_in(Key::Calendar, value)?;
    let fault = fields.fault(Key::Calendar, Cause::UnknownName);
    calendar_named(calendars, text).ok_or(fault)
}

fn calendar_named(calendars: &Roster<NamedCalendar>, text: &str) -> Option<CalId>
    ensures answers { result ≡ calendar_named calendars.now text.now }
    ensures sound { IfSome result (λ id. IsTrue (is_sound_period calendars.now (Period.Calendar id))) }
{
    let index = calendars.position(&points::name_of(text)?)?;
    Some(CalId { index })
}
