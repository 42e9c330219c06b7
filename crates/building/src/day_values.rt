//! What a schedule of a building file says of each day.

ghost use Rattle.std.specs.Prelude.{◌≡◌, [], IfOk, IsTrue};
ghost use Rattle.std.specs.List.{list_all};
ghost use Rattle.toml.specs.View.{items_view, table_view};
ghost use Rattle.building.specs.Answers.{Answers};
ghost use Rattle.building.specs.DayValues.{are_sound, day_in, day_values_in, default_in, exceptions_in};
ghost use Rattle.building.specs.DayValues.{exceptions_of, seven_empty, seven_lists, week_in, week_of};
ghost use Rattle.building.specs.ExceptionTable.{is_sound_exception};
ghost use Rattle.building.specs.Kinds.{lies_in_all};
ghost use Rattle.building.specs.TimeLists.{is_list_within};

use crate::building_refusal::BuildingFault;
use crate::cause::Cause;
use crate::exception_table::ExceptionTable;
use crate::fields::Fields;
use crate::file_fault::FileFault;
use crate::item_list::read_items;
use crate::key::Key;
use crate::kinds::lies_in_all;
use crate::named_calendar::NamedCalendar;
use crate::roster::Roster;
use crate::time_lists::TimeLists;
use points::{Kind, Listing};
use sched::{DayList, Exception};
use std::alloc::Global;
use toml::Value;

/// The exceptions that a schedule has at most (this profile's limit).
const MOST_EXCEPTIONS: usize = 100;

/// What a schedule says of each day.
#[derive(Drop)]
pub(crate) struct DayValues {
    pub default: Option<i64>,
    pub weekly: [DayList; 7],
    pub exceptions: Listing<Exception>,
}

/// What a schedule says of each day, beside the calendars, in values that lie in each of the kinds.
pub(crate) fn day_values_in<'a>(
    alloc: Global,
    fields: &'a Fields<'a>,
    calendars: &'a Roster<NamedCalendar>,
    kinds: &'a [Kind],
) -> Result<DayValues, BuildingFault>
    ensures answers { Answers (day_values_in fields.now.location calendars.now kinds.now
        (table_view fields.now.table.now)) result }
    ensures sound { IfOk result (λ values. IsTrue (are_sound calendars.now kinds.now values)) }
{
    let reader = DayReader {
        alloc,
        fields,
        calendars,
        kinds,
    };
    reader.read()
}

/// Reads what a schedule says of each day.
#[derive(Drop)]
struct DayReader<'a> {
    alloc: Global,
    fields: &'a Fields<'a>,
    calendars: &'a Roster<NamedCalendar>,
    kinds: &'a [Kind],
}

impl DayReader<'_> {
    #[tactic(auto, unfolding(crate::specs::DayValues::day_values_in))]
    fn read(&self) -> Result<DayValues, BuildingFault>
        ensures answers { Answers (day_values_in self.now.fields.now.location self.now.calendars.now
            self.now.kinds.now (table_view self.now.fields.now.table.now)) result }
        ensures sound { IfOk result (λ values.
            IsTrue (are_sound self.now.calendars.now self.now.kinds.now values)) }
    {
        let default = default_in(self.fields, self.kinds)?;
        let weekly = self.week_in()?;
        let exceptions = self.exceptions_in()?;
        Ok(DayValues {
            default,
            weekly,
            exceptions,
        })
    }

    fn week_in(&self) -> Result<[DayList; 7], BuildingFault>
        ensures answers { Answers (week_in self.now.fields.now.location self.now.kinds.now
            (table_view self.now.fields.now.table.now)) result }
        ensures sound { IfOk result (λ lists. IsTrue (list_all (is_list_within self.now.kinds.now) lists)) }
    {
        match self.fields.optional_list(Key::Weekly)? {
            None => Ok(seven_empty(self.alloc)),
            Some(lists) => self.week_of(lists),
        }
    }

    fn week_of(&self, lists: &[Value]) -> Result<[DayList; 7], BuildingFault>
        ensures answers { Answers (week_of self.now.fields.now.location self.now.kinds.now
            (items_view lists.now)) result }
        ensures sound { IfOk result (λ lists. IsTrue (list_all (is_list_within self.now.kinds.now) lists)) }
    {
        self.fields.exactly(7, Key::Weekly, lists)?;
        self.seven_lists(lists)
    }

    /// The seven lists of a week, Monday's first.
    #[tactic(auto, unfolding(crate::specs::DayValues::seven_lists))]
    fn seven_lists(&self, lists: &[Value]) -> Result<[DayList; 7], BuildingFault>
        ensures answers { Answers (seven_lists self.now.fields.now.location self.now.kinds.now
            (items_view lists.now)) result }
        ensures sound { IfOk result (λ lists. IsTrue (list_all (is_list_within self.now.kinds.now) lists)) }
    {
        let mut week = seven_empty(self.alloc);
        week[0] = self.day_in(lists, 0)?;
        week[1] = self.day_in(lists, 1)?;
        week[2] = self.day_in(lists, 2)?;
        week[3] = self.day_in(lists, 3)?;
        week[4] = self.day_in(lists, 4)?;
        week[5] = self.day_in(lists, 5)?;
        week[6] = self.day_in(lists, 6)?;
        Ok(week)
    }

    /// The list of a day, Monday's at 0.
    fn day_in(&self, lists: &[Value], index: usize) -> Result<DayList, BuildingFault>
        ensures answers { Answers (day_in index self.now.fields.now.location self.now.kinds.now
            (items_view lists.now)) result }
        ensures sound { IfOk result (λ list. IsTrue (is_list_within self.now.kinds.now list)) }
    {
        let time_lists = TimeLists {
            alloc: self.alloc,
            fields: self.fields,
            key: Key::Weekly,
            kinds: self.kinds,
        };
        time_lists.list_of(self.fields.list_at(Key::Weekly, lists, index)?)
    }

    fn exceptions_in(&self) -> Result<Listing<Exception>, BuildingFault>
        ensures answers { Answers (exceptions_in self.now.fields.now.location self.now.calendars.now
            self.now.kinds.now (table_view self.now.fields.now.table.now)) result }
        ensures sound { IfOk result (λ exceptions. IsTrue
            (list_all (is_sound_exception self.now.calendars.now self.now.kinds.now) exceptions)) }
    {
        match self.fields.optional_list(Key::Exception)? {
            None => Ok(Listing::from_vec(Vec::new(self.alloc))),
            Some(items) => self.exceptions_of(items),
        }
    }

    fn exceptions_of(&self, items: &[Value]) -> Result<Listing<Exception>, BuildingFault>
        ensures answers { Answers (exceptions_of self.now.fields.now.location self.now.calendars.now
            self.now.kinds.now (items_view items.now)) result }
        ensures sound { IfOk result (λ exceptions. IsTrue
            (list_all (is_sound_exception self.now.calendars.now self.now.kinds.now) exceptions)) }
    {
        self.fields.at_most(MOST_EXCEPTIONS, Key::Exception, items)?;
        self.fields.all_tables(Key::Exception, items)?;
        let table = ExceptionTable {
            alloc: self.alloc,
            location: self.fields.location.exceptions(),
            calendars: self.calendars,
            kinds: self.kinds,
        };
        Ok(Listing::from_vec(read_items(self.alloc, &table, items)?))
    }
}

/// The value where nothing else gives one (B4, B11).
fn default_in(fields: &Fields<'_>, kinds: &[Kind]) -> Result<Option<i64>, FileFault>
    ensures answers { result
        ≡ default_in fields.now.location kinds.now (table_view fields.now.table.now) }
    ensures sound { IfOk result (λ value. IsTrue (lies_in_all kinds.now value)) }
{
    let value = fields.optional_integer(Key::Default)?;
    if lies_in_all(kinds, value) {
        Ok(value)
    } else {
        Err(fields.fault(Key::Default, Cause::OutsideKind))
    }
}

fn seven_empty(alloc: Global) -> [DayList; 7]
    ensures { result ≡ seven_empty }
{
    [
        DayList::empty(alloc),
        DayList::empty(alloc),
        DayList::empty(alloc),
        DayList::empty(alloc),
        DayList::empty(alloc),
        DayList::empty(alloc),
        DayList::empty(alloc),
    ]
}
