//! Spans of a day over which a schedule's value stands.
ghost use Rattle.std.specs.Prelude.{◌≡◌, ◌↔◌, ◌⊎◌, ◌++◌, ◌-◌, ◌≤◌, ℕ, List, IsTrue, MatchOption, if◌then◌else◌, option_copied};
ghost use Rattle.std.specs.List.{flat_map};
ghost use Rattle.sched.specs.DayList.{list_value, times_of};
ghost use Rattle.sched.specs.Exceptions.{exception_now, lower_first, speaks};
ghost use Rattle.sched.specs.Named.{exception_times, named_times};
ghost use Rattle.sched.specs.Schedule.{schedule_value};
ghost use Rattle.sched.specs.Spans.{IsInSpan, IsSpanAt};

use crate::calendar::Calendar;
use crate::day_list::DayList;
use crate::exception::Exception;
use crate::schedule::Schedule;
use crate::time::Time;
use dates::Day;

/// The times of a day from a first to a last one, both included.
#[derive(Clone, Copy)]
pub struct Span {
    pub day: Day,
    pub first: Time,
    pub last: Time,
}

impl Span {
    /// Whether the span holds this time of this day.
    pub fn holds(&self, day: Day, time: Time) -> bool
        ensures { IsTrue result ↔ IsInSpan self.now day time }
    {
        if self.day != day {
            return false;
        }
        self.first <= time && time <= self.last
    }
}

// The later of a span's first time and a named time, if there is one.
fn first_from(first: Time, named: Option<Time>) -> Time
    ensures rises { first ≤ result }
    ensures is { MatchOption named (result ≡ first) (λ t. (t ≤ result) × ((result ≡ first) ⊎ (result ≡ t))) }
{
    match named {
        Some(time) if first < time => time,
        _ => first,
    }
}

// The earlier of a span's last time and the time a hundredth before a named one, if there is one.
fn last_before(last: Time, named: Option<Time>) -> Time
    ensures falls { result ≤ last }
    ensures is { MatchOption named (result ≡ last) (λ t. (result ≤ t - 1) × ((result ≡ last) ⊎ (result ≡ t - 1))) }
{
    match named {
        Some(time) if time <= last => time.hundredth_before(),
        _ => last,
    }
}

// Narrows the span to the times around a time that a list names, and answers the list's value at the time.
fn narrow_by_list(span: &mut Span, list: &DayList, time: Time) -> Option<i64>
    ensures value { result ≡ list_value list.now time }
    ensures day { span.new.day ≡ span.old.day }
    ensures ends { (times : List ℕ) → IsSpanAt times time span.old → IsSpanAt (times ++ times_of list.now) time span.new }
{
    let (latest, next) = list.around(time);
    span.last = last_before(span.last, next);
    match latest {
        Some(element) => {
            span.first = first_from(span.first, Some(element.time));
            element.value
        }
        None => None,
    }
}

// Narrows the span by the list of an exception that is in effect, and answers whether it has a value at the time.
fn narrow_by_exception(
    span: &mut Span,
    exception: &Exception,
    calendars: &[Calendar],
    day: Day,
    time: Time,
) -> bool
    ensures speaks { result ≡ speaks calendars.now day time exception.now }
    ensures day { span.new.day ≡ span.old.day }
    ensures ends { (times : List ℕ) → IsSpanAt times time span.old
        → IsSpanAt (times ++ exception_times calendars.now day exception.now) time span.new }
{
    exception.is_in_effect(calendars, day) && narrow_by_list(span, &exception.times, time).is_some()
}

// Of the exception that counts so far and one behind it that speaks, the one of the lower number, and of equal ones the
// first.
fn counting<'a>(
    best: Option<&'a Exception>,
    next: &'a Exception,
    speaks: bool,
) -> Option<&'a Exception>
    ensures { option_copied result ≡ (if speaks then lower_first (option_copied best.entry) next.now else option_copied best.entry) }
{
    if !speaks {
        return best;
    }
    match best {
        Some(best) if best.event_priority <= next.event_priority => Some(best),
        _ => Some(next),
    }
}

// Narrows the span by each exception that is in effect, and answers which of those that speak counts.
fn narrow_by_exceptions<'a>(
    span: &mut Span,
    exceptions: &'a [Exception],
    calendars: &[Calendar],
    day: Day,
    time: Time,
) -> Option<&'a Exception>
    ensures now { option_copied result ≡ exception_now calendars.now day time exceptions.now }
    ensures day { span.new.day ≡ span.old.day }
    ensures ends { (times : List ℕ) → IsSpanAt times time span.old
        → IsSpanAt (times ++ flat_map (exception_times calendars.now day) exceptions.now) time span.new }
{
    let mut best = None;
    for exception in exceptions {
        let speaks = narrow_by_exception(span, exception, calendars, day, time);
        best = counting(best, exception, speaks);
    }
    best
}

impl Schedule {
    /// The value at a time of a day, and the span of that day over which no list names another time: it
    /// begins at the latest time, at or before the asked one, of an element of the weekday's list or of an
    /// exception in effect that day, else at 00:00:00.00, and ends a hundredth of a second before the next
    /// such time, else at 23:59:59.99. Over it the value stands. It takes no memory.
    #[tactic(auto, unfolding(crate::specs::Schedule::schedule_value))]
    pub fn value_span(&self, calendars: &[Calendar], day: Day, time: Time) -> (Option<i64>, Span)
        ensures value { result.0 ≡ schedule_value self.now calendars.now day time }
        ensures day { result.1.day ≡ day }
        ensures ends { IsSpanAt (named_times self.now calendars.now day) time result.1 }
        ensures stands { (c : ℕ) → result.1.first ≤ c → c ≤ result.1.last → schedule_value self.now calendars.now day c ≡ result.0 }
    {
        let mut span = Span {
            day,
            first: Time::MIDNIGHT,
            last: Time::LAST,
        };
        let weekday = narrow_by_list(&mut span, self.weekday_list(day), time);
        let exception = narrow_by_exceptions(
            &mut span,
            self.exceptions.as_slice(),
            calendars,
            day,
            time,
        );
        prove!(time.hundredths() <= 8_639_999);
        let exceptional = match exception {
            Some(exception) => exception.times.value_at(time),
            None => None,
        };
        (exceptional.or(weekday).or(self.default), span)
    }
}
