//! What the schedules of a building write and show.
ghost use Rattle.std.specs.Prelude.{◌≡◌, ◌++◌, ◌∷◌, [], Bool, IfOk, IfSome, IsTrue, List, OnOk, None, Some, slice_get};
ghost use Rattle.std.specs.List.{All, flat_map, list_all};
ghost use Rattle.std.specs.Result.{result_err};
ghost use Rattle.building.specs.declared.named_schedule.NamedSchedule.{NamedSchedule as a_schedule};
ghost use Rattle.building.specs.Building.{Building as a_building};
ghost use Rattle.desk_settling.specs.Calendars.{Tells, calendars_of, with_items};
ghost use Rattle.sched.specs.Calendar.{hold_on};
ghost use Rattle.desk_settling.specs.Kept.{AreSpans, AreToday, HasSpans, current_of};
ghost use Rattle.desk_settling.specs.Rests.{HaveRested};
ghost use Rattle.desk_settling.specs.Settled.{Now, at_each_target, cleared_by, put_by, shown_by, changes_shown, when_leaving, written};
ghost use Rattle.desk_settling.specs.Turns.{Turns, now_at};
ghost use Rattle.store.specs.Change.{IsPlace};
ghost use Rattle.store.specs.Standing.{IsOpen, Reads};
ghost use Rattle.points.specs.Texts.{Text};
ghost use Rattle.points.specs.Priority.{is_write_priority};

use crate::kept::{Kept, KeptDay};
use crate::today::calendars_today;
use building::{Building, NamedSchedule, OnLeave};
use dates::Day;
use local_times::LocalTime;
use sched::Time;
use std::alloc::{AllocError, Global};
use store::{ImportedEntry, PlaceValue, ShownValue, Store, StoreFault};

/// What the schedules write, and what of them changes that is shown.
#[derive(Drop)]
pub struct Settlement {
    /// The places that are written, in this order: of two values for one place the later counts.
    pub places: Vec<PlaceValue>,
    pub shown: Vec<ShownValue>,
}

// What schedules wrote so far: the places that leaving ones clear, those that due ones put, and what is shown.
#[derive(Drop)]
struct Written {
    cleared: Vec<PlaceValue>,
    put: Vec<PlaceValue>,
    shown: Vec<ShownValue>,
}

// Puts a value in the place of each target of a schedule.
fn push_at_each(
    places: &mut Vec<PlaceValue>,
    schedule: &NamedSchedule,
    value: Option<i64>,
) -> Result<(), AllocError>
    requires priority { IsTrue (is_write_priority schedule.now.priority) }
    requires placed { All IsPlace places.old.items }
    ensures places { OnOk result (places.new.items ≡ places.old.items ++ at_each_target value schedule.now) }
    ensures placed { OnOk result (All IsPlace places.new.items) }
{
    for target in schedule.targets.as_slice() {
        places.push(PlaceValue {
            point: *target,
            priority: schedule.priority,
            value,
        })?;
    }
    Ok(())
}

// A due schedule puts its value, and shows it.
fn put_due(
    written: &mut Written,
    schedule: &NamedSchedule,
    value: Option<i64>,
) -> Result<(), AllocError>
    requires priority { IsTrue (is_write_priority schedule.now.priority) }
    requires placed { All IsPlace written.old.put.items }
    ensures put { OnOk result (written.new.put.items ≡ written.old.put.items ++ at_each_target value schedule.now) }
    ensures shown { OnOk result (written.new.shown.items
        ≡ written.old.shown.items ++ record { schedule = schedule.now.name; shown = Some value } ∷ []) }
    ensures cleared { written.new.cleared ≡ written.old.cleared }
    ensures placed { OnOk result (All IsPlace written.new.put.items) }
{
    push_at_each(&mut written.put, schedule, value)?;
    written.shown.push(ShownValue {
        schedule: schedule.name,
        shown: Some(value),
    })?;
    Ok(())
}

// The places of a schedule that releases them are cleared.
fn clear(written: &mut Written, schedule: &NamedSchedule) -> Result<(), AllocError>
    requires priority { IsTrue (is_write_priority schedule.now.priority) }
    requires placed { All IsPlace written.old.cleared.items }
    ensures cleared { OnOk result (written.new.cleared.items ≡ written.old.cleared.items ++ when_leaving schedule.now) }
    ensures put { written.new.put ≡ written.old.put }
    ensures shown { written.new.shown ≡ written.old.shown }
    ensures placed { OnOk result (All IsPlace written.new.cleared.items) }
{
    match schedule.on_leave {
        OnLeave::Stay => Ok(()),
        OnLeave::Release => push_at_each(&mut written.cleared, schedule, None),
    }
}

// A schedule falls quiet: it shows nothing, and where it releases its places they are cleared.
fn fall_quiet(written: &mut Written, schedule: &NamedSchedule) -> Result<(), AllocError>
    requires priority { IsTrue (is_write_priority schedule.now.priority) }
    requires placed { All IsPlace written.old.cleared.items }
    ensures cleared { OnOk result (written.new.cleared.items ≡ written.old.cleared.items ++ when_leaving schedule.now) }
    ensures shown { OnOk result (written.new.shown.items
        ≡ written.old.shown.items ++ record { schedule = schedule.now.name; shown = None } ∷ []) }
    ensures put { written.new.put ≡ written.old.put }
    ensures placed { OnOk result (All IsPlace written.new.cleared.items) }
{
    clear(written, schedule)?;
    written.shown.push(ShownValue {
        schedule: schedule.name,
        shown: None,
    })?;
    Ok(())
}

// What a schedule that shows this writes, after those before it, where this is its value if it is active.
#[tactic(auto, unfolding(crate::specs::Settled::is_due, crate::specs::Settled::falls_quiet))]
fn turn(
    written: &mut Written,
    schedule: &NamedSchedule,
    shown: Option<Option<i64>>,
    current: Option<Option<i64>>,
) -> Result<(), AllocError>
    requires priority { IsTrue (is_write_priority schedule.now.priority) }
    requires cleared { All IsPlace written.old.cleared.items }
    requires put { All IsPlace written.old.put.items }
    ensures turns { (now : Now) → current ≡ current_of now schedule.now
        → OnOk result (Turns now shown schedule.now written.old written.new) }
    ensures cleared { OnOk result (All IsPlace written.new.cleared.items) }
    ensures put { OnOk result (All IsPlace written.new.put.items) }
{
    if let Some(value) = current {
        if shown == Some(value) {
            return Ok(());
        }
        return put_due(written, schedule, value);
    }
    match shown {
        Some(_) => fall_quiet(written, schedule),
        None => Ok(()),
    }
}

// The value of a schedule, by its index, at a time of the day that is kept, if it is active.
fn current(
    kept: &mut KeptDay,
    evaluations: &mut u64,
    index: usize,
    schedule: &NamedSchedule,
    local: LocalTime,
) -> Option<Option<i64>>
    ensures current { (schedules : List a_schedule) → kept.old.day ≡ local.day → slice_get schedules index ≡ Some schedule.now
        → HasSpans schedules kept.old → result ≡ current_of (now_at kept.old.calendars.items local) schedule.now }
    ensures spans { (schedules : List a_schedule) → kept.old.day ≡ local.day → slice_get schedules index ≡ Some schedule.now
        → HasSpans schedules kept.old → HasSpans schedules kept.new }
    ensures day { kept.new.day ≡ kept.old.day }
    ensures calendars { kept.new.calendars ≡ kept.old.calendars }
{
    if !schedule.schedule.active(local.day) {
        return None;
    }
    Some(kept.value_at(evaluations, index, schedule, local))
}

// What one schedule writes, after those before it.
fn settle_one<S: Store>(
    store: &mut S,
    written: &mut Written,
    schedule: &NamedSchedule,
    current: Option<Option<i64>>,
) -> Result<(), StoreFault>
    requires priority { IsTrue (is_write_priority schedule.now.priority) }
    requires cleared { All IsPlace written.old.cleared.items }
    requires put { All IsPlace written.old.put.items }
    ensures reads { Reads (result_err result) (S.standing store.old) (S.standing store.new) }
    ensures turns { (S.standing store.new).is_honest → (now : Now) → current ≡ current_of now schedule.now
        → OnOk result (Turns now ((S.standing store.old).content.tables.shown schedule.now.name) schedule.now written.old written.new) }
    ensures cleared { OnOk result (All IsPlace written.new.cleared.items) }
    ensures put { OnOk result (All IsPlace written.new.put.items) }
{
    let shown = store.shown(&schedule.name)?;
    turn(written, schedule, shown, current)?;
    Ok(())
}

// What the schedules write at a time of the day that is kept, each after those before it. Of those that rest since an
// earlier time nothing is asked.
fn settle_each<S: Store>(
    alloc: Global,
    store: &mut S,
    kept: &mut KeptDay,
    evaluations: &mut u64,
    schedules: &[NamedSchedule],
    since: &Option<Time>,
    local: &LocalTime,
) -> Result<Written, StoreFault>
    requires open { IsOpen (S.standing store.old) }
    requires priorities { IsTrue (list_all (λ (schedule : a_schedule). is_write_priority schedule.priority) schedules.now) }
    requires day { kept.old.day ≡ local.now.day }
    requires spans { HasSpans schedules.now kept.old }
    ensures reads { Reads (result_err result) (S.standing store.old) (S.standing store.new) }
    ensures cleared { (S.standing store.new).is_honest
        → HaveRested kept.old.calendars.items local.now.day (S.standing store.old).content.tables.shown schedules.now since.now
        → IfOk result (λ all. all.cleared.items
        ≡ flat_map (cleared_by (now_at kept.old.calendars.items local.now) (S.standing store.old).content.tables.shown) schedules.now) }
    ensures put { (S.standing store.new).is_honest
        → HaveRested kept.old.calendars.items local.now.day (S.standing store.old).content.tables.shown schedules.now since.now
        → IfOk result (λ all. all.put.items
        ≡ flat_map (put_by (now_at kept.old.calendars.items local.now) (S.standing store.old).content.tables.shown) schedules.now) }
    ensures shown { (S.standing store.new).is_honest
        → HaveRested kept.old.calendars.items local.now.day (S.standing store.old).content.tables.shown schedules.now since.now
        → IfOk result (λ all. all.shown.items
        ≡ flat_map (shown_by (now_at kept.old.calendars.items local.now) (S.standing store.old).content.tables.shown) schedules.now) }
    ensures placed { IfOk result (λ all. All IsPlace all.cleared.items × All IsPlace all.put.items) }
    ensures spans { OnOk result (HasSpans schedules.now kept.new) }
    ensures day { kept.new.day ≡ kept.old.day }
    ensures calendars { kept.new.calendars ≡ kept.old.calendars }
{
    let mut all = Written {
        cleared: Vec::new(alloc),
        put: Vec::new(alloc),
        shown: Vec::new(alloc),
    };
    for (index, schedule) in schedules.iter().enumerate() {
        if kept.rests(index, schedule, *since, local.time) {
            continue;
        }
        let value = current(kept, evaluations, index, schedule, *local);
        settle_one(store, &mut all, schedule, value)?;
    }
    Ok(all)
}

// All that was written: what was cleared, and then what was put.
fn joined(all: Written) -> Result<Settlement, AllocError>
    requires cleared { All IsPlace all.cleared.items }
    requires put { All IsPlace all.put.items }
    ensures places { IfOk result (λ settlement. settlement.places.items ≡ all.cleared.items ++ all.put.items) }
    ensures shown { IfOk result (λ settlement. settlement.shown ≡ all.shown) }
    ensures placed { IfOk result (λ settlement. All IsPlace settlement.places.items) }
{
    let mut places = all.cleared;
    places.extend_from_slice(all.put.as_slice())?;
    Ok(Settlement {
        places,
        shown: all.shown,
    })
}

// What the schedules of a building write and show at a time of the day that is kept. Of those that rest since an
// earlier time nothing is asked.
fn settle_on<S: Store>(
    alloc: Global,
    store: &mut S,
    building: &Building,
    kept: &mut KeptDay,
    evaluations: &mut u64,
    since: Option<Time>,
    local: LocalTime,
) -> Result<Settlement, StoreFault>
    requires open { IsOpen (S.standing store.old) }
    requires day { kept.old.day ≡ local.day }
    requires spans { HasSpans building.now.schedules kept.old }
    ensures reads { Reads (result_err result) (S.standing store.old) (S.standing store.new) }
    ensures places { (S.standing store.new).is_honest
        → HaveRested kept.old.calendars.items local.day (S.standing store.old).content.tables.shown building.now.schedules since
        → IfOk result (λ settlement. settlement.places.items
        ≡ written (now_at kept.old.calendars.items local) (S.standing store.old).content.tables.shown building.now.schedules) }
    ensures shown { (S.standing store.new).is_honest
        → HaveRested kept.old.calendars.items local.day (S.standing store.old).content.tables.shown building.now.schedules since
        → IfOk result (λ settlement. settlement.shown.items
        ≡ changes_shown (now_at kept.old.calendars.items local) (S.standing store.old).content.tables.shown building.now.schedules) }
    ensures placed { IfOk result (λ settlement. All IsPlace settlement.places.items) }
    ensures spans { OnOk result (HasSpans building.now.schedules kept.new) }
    ensures day { kept.new.day ≡ kept.old.day }
    ensures calendars { kept.new.calendars ≡ kept.old.calendars }
{
    let all = settle_each(
        alloc,
        store,
        kept,
        evaluations,
        building.schedules(),
        &since,
        &local,
    )?;
    Ok(joined(all)?)
}

// A day of which nothing was evaluated yet, where these items are imported beside what the store holds.
fn new_day<S: Store>(
    alloc: Global,
    store: &mut S,
    building: &Building,
    items: &[ImportedEntry],
    day: Day,
) -> Result<KeptDay, StoreFault>
    requires open { IsOpen (S.standing store.old) }
    ensures reads { Reads (result_err result) (S.standing store.old) (S.standing store.new) }
    ensures today { (S.standing store.new).is_honest → (imported : Text → List Text)
        → Tells (S.standing store.old).content.tables.imported imported
        → IfOk result (λ kept. hold_on day kept.calendars.items ≡ hold_on day (calendars_of building.now (with_items imported items.now))) }
    ensures spans { IfOk result (λ kept. HasSpans building.now.schedules kept) }
    ensures day { IfOk result (λ kept. kept.day ≡ day) }
{
    let calendars = calendars_today(alloc, store, building, items, day)?;
    Ok(KeptDay::new(alloc, day, calendars, building.schedules().len())?)
}

/// What the schedules of a building write and show at a local time, where these items are imported beside what
/// the store holds. The store is only read. Each active schedule is evaluated, and no day is kept.
pub fn settle<S: Store>(
    alloc: Global,
    store: &mut S,
    building: &Building,
    kept: &mut Kept,
    items: &[ImportedEntry],
    local: LocalTime,
) -> Result<Settlement, StoreFault>
    requires open { IsOpen (S.standing store.old) }
    ensures reads { Reads (result_err result) (S.standing store.old) (S.standing store.new) }
    ensures places { (S.standing store.new).is_honest → (imported : Text → List Text)
        → Tells (S.standing store.old).content.tables.imported imported
        → IfOk result (λ settlement. settlement.places.items
        ≡ written (now_at (calendars_of building.now (with_items imported items.now)) local)
        (S.standing store.old).content.tables.shown building.now.schedules) }
    ensures shown { (S.standing store.new).is_honest → (imported : Text → List Text)
        → Tells (S.standing store.old).content.tables.imported imported
        → IfOk result (λ settlement. settlement.shown.items
        ≡ changes_shown (now_at (calendars_of building.now (with_items imported items.now)) local)
        (S.standing store.old).content.tables.shown building.now.schedules) }
    ensures placed { IfOk result (λ settlement. All IsPlace settlement.places.items) }
    ensures spans { (building : a_building) → AreSpans building kept.new }
    ensures today { (building : a_building) (table : Text → Text → Bool) → AreToday building table kept.new }
{
    kept.forget();
    let mut day = new_day(alloc, store, building, items, local.day)?;
    settle_on(
        alloc,
        store,
        building,
        &mut day,
        &mut kept.evaluations,
        None,
        local,
    )
}

// The day, if it is the one that is kept, or else a new one.
fn day_of<S: Store>(
    alloc: Global,
    store: &mut S,
    building: &Building,
    kept: &mut Kept,
    day: Day,
) -> Result<KeptDay, StoreFault>
    requires open { IsOpen (S.standing store.old) }
    requires spans { AreSpans building.now kept.old }
    ensures reads { Reads (result_err result) (S.standing store.old) (S.standing store.new) }
    ensures today { (S.standing store.new).is_honest
        → AreToday building.now (S.standing store.old).content.tables.imported kept.old
        → (imported : Text → List Text) → Tells (S.standing store.old).content.tables.imported imported
        → IfOk result (λ found. hold_on day found.calendars.items ≡ hold_on day (calendars_of building.now imported)) }
    ensures spans { IfOk result (λ found. HasSpans building.now.schedules found) }
    ensures day { IfOk result (λ found. found.day ≡ day) }
    ensures taken { kept.new.day ≡ None }
{
    if let Some(found) = kept.take(day) {
        return Ok(found);
    }
    new_day(alloc, store, building, &[], day)
}

// The time of a local time, if it is one of this day.
fn time_on(local: Option<LocalTime>, day: Day) -> Option<Time>
    ensures { IfSome result (λ time. local ≡ Some (record { day = day; time = time })) }
{
    match local {
        Some(local) if local.day == day => Some(local.time),
        _ => None,
    }
}

/// The same where nothing is imported beside what the store holds, over what is kept of the day. Where an earlier local
/// time of that day is given, at which nothing was due, a schedule is passed over whose span holds both times, or that
/// is not active on that day: neither its value nor what it shows is asked. Which calendars hold is asked once a day.
pub fn settle_again<S: Store>(
    alloc: Global,
    store: &mut S,
    building: &Building,
    kept: &mut Kept,
    since: Option<LocalTime>,
    local: LocalTime,
) -> Result<Settlement, StoreFault>
    requires open { IsOpen (S.standing store.old) }
    requires spans { AreSpans building.now kept.old }
    ensures reads { Reads (result_err result) (S.standing store.old) (S.standing store.new) }
    ensures places { (S.standing store.new).is_honest
        → AreToday building.now (S.standing store.old).content.tables.imported kept.old
        → (imported : Text → List Text) → Tells (S.standing store.old).content.tables.imported imported
        → IfSome since (λ earlier. changes_shown (now_at (calendars_of building.now imported) earlier)
        (S.standing store.old).content.tables.shown building.now.schedules ≡ [])
        → IfOk result (λ settlement. settlement.places.items
        ≡ written (now_at (calendars_of building.now imported) local) (S.standing store.old).content.tables.shown building.now.schedules) }
    ensures shown { (S.standing store.new).is_honest
        → AreToday building.now (S.standing store.old).content.tables.imported kept.old
        → (imported : Text → List Text) → Tells (S.standing store.old).content.tables.imported imported
        → IfSome since (λ earlier. changes_shown (now_at (calendars_of building.now imported) earlier)
        (S.standing store.old).content.tables.shown building.now.schedules ≡ [])
        → IfOk result (λ settlement. settlement.shown.items
        ≡ changes_shown (now_at (calendars_of building.now imported) local) (S.standing store.old).content.tables.shown building.now.schedules) }
    ensures placed { IfOk result (λ settlement. All IsPlace settlement.places.items) }
    ensures spans { AreSpans building.now kept.new }
    ensures today { (S.standing store.new).is_honest
        → AreToday building.now (S.standing store.old).content.tables.imported kept.old
        → AreToday building.now (S.standing store.old).content.tables.imported kept.new }
{
    let mut day = day_of(alloc, store, building, kept, local.day)?;
    let since = time_on(since, local.day);
    let settlement = settle_on(
        alloc,
        store,
        building,
        &mut day,
        &mut kept.evaluations,
        since,
        local,
    )?;
    kept.day = Some(day);
    Ok(settlement)
}
