//! What is kept of the schedules between the ticks of a day.
ghost use Rattle.std.specs.Prelude.{◌≡◌, ◌↔◌, ◌≤◌, Bool, ◌⊎◌, ℕ, IfOk, IfSome, List, None, Some, slice_get};
ghost use Rattle.std.specs.Bool.{IsTrue};
ghost use Rattle.building.specs.Building.{Building};
ghost use Rattle.building.specs.declared.named_schedule.NamedSchedule.{NamedSchedule as a_schedule};
ghost use Rattle.sched.specs.Schedule.{schedule_value};
ghost use Rattle.desk_settling.specs.Kept.{AreSpans, AreToday, HasSpans};
ghost use Rattle.desk_settling.specs.Rests.{Rests, at_time};
ghost use Rattle.desk_settling.specs.Settled.{Shown};
ghost use Rattle.points.specs.Texts.{Text};

use building::NamedSchedule;
use dates::Day;
use local_times::LocalTime;
use sched::{Calendar, Span, Time};
use std::alloc::{AllocError, Global};

/// A span of a day over which the value of a schedule stands, and the value.
#[derive(Clone, Copy)]
pub struct KeptSpan {
    pub span: Span,
    pub value: Option<i64>,
}

impl KeptSpan {
    /// Whether a time of the span's day lies in it.
    fn holds_time(&self, time: Time) -> bool
        ensures { IsTrue result ↔ (self.now.span.first ≤ time) × (time ≤ self.now.span.last) }
    {
        self.span.first <= time && time <= self.span.last
    }
}

/// What was found of a day.
#[derive(Drop)]
pub struct KeptDay {
    pub(crate) day: Day,
    /// Calendars that hold on the day where those of the building do.
    pub(crate) calendars: Vec<Calendar>,
    /// For each schedule, by its index, the span that was evaluated last.
    pub(crate) spans: Vec<Option<KeptSpan>>,
}

/// What is kept between ticks: the day of the last one with its spans, as long as nothing was imported since.
#[derive(Drop)]
pub struct Kept {
    pub(crate) day: Option<KeptDay>,
    pub(crate) evaluations: u64,
}

impl Kept {
    /// Nothing is kept.
    pub fn new() -> Self
        ensures spans { (building : Building) → AreSpans building result }
        ensures today { (building : Building) (table : Text → Text → Bool) → AreToday building table result }
        ensures evaluations { result.evaluations ≡ 0 }
    {
        Kept {
            day: None,
            evaluations: 0,
        }
    }

    /// How often a schedule was evaluated; the count stays at its greatest value.
    pub fn evaluations(&self) -> u64
        ensures { result ≡ self.now.evaluations }
    {
        self.evaluations
    }

    /// Keeps no day.
    pub fn forget(&mut self)
        ensures spans { (building : Building) → AreSpans building self.new }
        ensures today { (building : Building) (table : Text → Text → Bool) → AreToday building table self.new }
        ensures evaluations { self.new.evaluations ≡ self.old.evaluations }
    {
        self.day = None;
    }

    /// The day, if it is the one that is kept; it is kept no longer.
    pub(crate) fn take(&mut self, day: Day) -> Option<KeptDay>
        ensures taken { self.new.day ≡ None }
        ensures was { IfSome result (λ kept. (self.old.day ≡ Some kept) × (kept.day ≡ day)) }
    {
        match self.day.take() {
            Some(kept) if kept.day == day => Some(kept),
            _ => None,
        }
    }
}

/// What is kept of a schedule.
fn kept_at(spans: &[Option<KeptSpan>], index: usize) -> Option<KeptSpan>
    ensures { IfSome result (λ kept. slice_get spans.now index ≡ Some (Some kept)) }
{
    match spans.get(index) {
        Some(kept) => *kept,
        None => None,
    }
}

impl KeptDay {
    /// A day on which these calendars hold, with a place for each of so many schedules and no span yet.
    pub(crate) fn new(
        alloc: Global,
        day: Day,
        calendars: Vec<Calendar>,
        count: usize,
    ) -> Result<KeptDay, AllocError>
        ensures day { IfOk result (λ kept. kept.day ≡ day) }
        ensures calendars { IfOk result (λ kept. kept.calendars ≡ calendars) }
        ensures spans { IfOk result (λ kept. (schedules : List a_schedule) → HasSpans schedules kept) }
    {
        let mut spans = Vec::new(alloc);
        for _ in 0..count {
            spans.push(None)?;
        }
        Ok(KeptDay {
            day,
            calendars,
            spans,
        })
    }

    /// Keeps the span of a schedule.
    fn keep(&mut self, index: usize, kept: KeptSpan)
        ensures day { self.new.day ≡ self.old.day }
        ensures calendars { self.new.calendars ≡ self.old.calendars }
        ensures spans { (other : ℕ) (found : _) → slice_get self.new.spans.items other ≡ Some (Some found)
            → ((other ≡ index) × (found ≡ kept)) ⊎ (slice_get self.old.spans.items other ≡ Some (Some found)) }
    {
        if index < self.spans.len() {
            self.spans[index] = Some(kept);
        }
    }

    /// The value that is kept of a schedule, if its span holds the time.
    fn kept_value(&self, index: usize, day: Day, time: Time) -> Option<Option<i64>>
        ensures { (schedules : List a_schedule) (schedule : a_schedule) → self.now.day ≡ day
            → slice_get schedules index ≡ Some schedule → HasSpans schedules self.now
            → IfSome result (λ value. value ≡ schedule_value schedule.schedule self.now.calendars.items day time) }
    {
        match kept_at(self.spans.as_slice(), index) {
            Some(kept) if kept.span.holds(day, time) => Some(kept.value),
            _ => None,
        }
    }

    /// Whether one span that is kept of a schedule holds both times of the day.
    fn one_span_holds(&self, index: usize, earlier: Time, time: Time) -> bool
        ensures { (schedules : List a_schedule) (schedule : a_schedule) → slice_get schedules index ≡ Some schedule
            → HasSpans schedules self.now → IsTrue result
            → schedule_value schedule.schedule self.now.calendars.items self.now.day earlier
            ≡ schedule_value schedule.schedule self.now.calendars.items self.now.day time }
    {
        match kept_at(self.spans.as_slice(), index) {
            Some(kept) if kept.holds_time(earlier) => kept.holds_time(time),
            _ => false,
        }
    }

    /// Whether a schedule that showed what it should at an earlier time of the day still does: one span holds both
    /// times, or it is not active on that day. Nothing is asked of a store.
    pub(crate) fn rests(
        &self,
        index: usize,
        schedule: &NamedSchedule,
        since: Option<Time>,
        time: Time,
    ) -> bool
        ensures { (schedules : List a_schedule) (shown : Shown) → slice_get schedules index ≡ Some schedule.now
            → HasSpans schedules self.now
            → IfSome since (λ earlier. Rests (at_time self.now.calendars.items self.now.day earlier) shown schedule.now)
            → IsTrue result → Rests (at_time self.now.calendars.items self.now.day time) shown schedule.now }
    {
        let Some(earlier) = since else {
            return false;
        };
        if self.one_span_holds(index, earlier, time) {
            return true;
        }
        !schedule.schedule.active(self.day)
    }

    /// The value of a schedule at a time of the day: that of its span, where one holds the time, or else anew.
    pub(crate) fn value_at(
        &mut self,
        evaluations: &mut u64,
        index: usize,
        schedule: &NamedSchedule,
        local: LocalTime,
    ) -> Option<i64>
        ensures value { (schedules : List a_schedule) → self.old.day ≡ local.day → slice_get schedules index ≡ Some schedule.now
            → HasSpans schedules self.old → result ≡ schedule_value schedule.now.schedule self.old.calendars.items local.day local.time }
        ensures spans { (schedules : List a_schedule) → self.old.day ≡ local.day → slice_get schedules index ≡ Some schedule.now
            → HasSpans schedules self.old → HasSpans schedules self.new }
        ensures day { self.new.day ≡ self.old.day }
        ensures calendars { self.new.calendars ≡ self.old.calendars }
    {
        let LocalTime { day, time } = local;
        if let Some(value) = self.kept_value(index, day, time) {
            return value;
        }
        let calendars = self.calendars.as_slice();
        let (value, span) = schedule.schedule.value_span(calendars, day, time);
        *evaluations = evaluations.saturating_add(1);
        self.keep(index, KeptSpan { span, value });
        value
    }
}
