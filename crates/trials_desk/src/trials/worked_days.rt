//! Schedules' days that are worked out by hand: spans, and lists of time values.
use dates::{Day, Entry, Range};
use points::Listing;
use sched::{DayList, Exception, Period, Schedule, Time, TimeValue};
use std::alloc::Global;
use std::process::Abort;
use std::test::Fail;

const LAST: u32 = 8_639_999;

/// Hundredths of a second since midnight, and a value or NULL.
type At = (u32, Option<i64>);

fn at(rt: &impl Abort, hundredths: u32) -> Time {
    Time::new(hundredths).expect(rt, "a time of the day")
}

fn list(rt: &impl Abort, alloc: Global, items: &[At]) -> Result<DayList, Fail> {
    let mut time_values = Vec::new(alloc);
    for (hundredths, value) in items {
        let time = at(rt, *hundredths);
        let value = *value;
        time_values.push(TimeValue { time, value })?;
    }
    Ok(DayList::from_vec(alloc, time_values)?)
}

fn exception(event_priority: u8, times: DayList) -> Result<Exception, Fail> {
    Ok(Exception {
        period: Period::Entry(Entry::read("*-*-*")?),
        event_priority,
        times,
    })
}

/// Four exceptions over empty weekly lists and the default 1800.
fn four_exceptions(rt: &impl Abort, alloc: Global) -> Result<Schedule, Fail> {
    let first = list(rt, alloc, &[(2_880_000, Some(1700)), (4_320_000, None)])?;
    let mut exceptions = Vec::new(alloc);
    exceptions.push(exception(3, first)?)?;
    exceptions.push(exception(3, list(rt, alloc, &[(0, Some(1500))])?)?)?;
    exceptions.push(exception(3, list(rt, alloc, &[(0, Some(1600))])?)?)?;
    exceptions.push(exception(2, list(rt, alloc, &[(4_680_000, Some(1400))])?)?)?;
    Ok(Schedule {
        effective_period: Range {
            start: None,
            end: None,
        },
        weekly: std::array::from_fn(|_| DayList::empty(alloc)),
        exceptions: Listing::from_vec(exceptions),
        default: Some(1800),
    })
}

/// An asked time, the value then, and the span's first and last time.
const SPANS: [(u32, i64, u32, u32); 6] = [
    (0, 1500, 0, 2_879_999),
    (2_879_999, 1500, 0, 2_879_999),
    (2_880_000, 1700, 2_880_000, 4_319_999),
    (4_500_000, 1500, 4_320_000, 4_679_999),
    (4_680_000, 1400, 4_680_000, LAST),
    (LAST, 1400, 4_680_000, LAST),
];

#[test]
fn a_span_goes_from_one_named_time_to_the_next(rt: HostRuntime) -> Result<(), Fail> {
    let schedule = four_exceptions(&rt, rt.alloc())?;
    let day = Day::new(2025, 6, 2).expect(&rt, "the calendar has the day");
    for (hundredths, value, first, last) in SPANS {
        let (now, span) = schedule.value_span(&[], day, at(&rt, hundredths));
        assert_eq!(rt; now, Some(value), "at {hundredths}");
        assert_eq!(rt; span.first.hundredths(), first, "at {hundredths}");
        assert_eq!(rt; span.last.hundredths(), last, "at {hundredths}");
    }
    Ok(())
}

/// A list, an asked time, and the list's value then.
const LISTS: [(&[At], u32, Option<i64>); 5] = [
    (
        &[(4_320_000, Some(1)), (2_160_000, Some(2))],
        2_159_999,
        None,
    ),
    (
        &[(4_320_000, Some(1)), (2_160_000, Some(2))],
        2_160_000,
        Some(2),
    ),
    (
        &[(4_320_000, Some(1)), (2_160_000, Some(2))],
        4_320_000,
        Some(1),
    ),
    (
        &[(2_880_000, Some(1)), (2_880_000, Some(2))],
        2_879_999,
        None,
    ),
    (
        &[(2_880_000, Some(1)), (2_880_000, Some(2))],
        2_880_000,
        Some(2),
    ),
];

#[test]
fn a_list_need_not_be_sorted_and_of_equal_times_the_later_counts(
    rt: HostRuntime,
) -> Result<(), Fail> {
    for (items, hundredths, value) in LISTS {
        let times = list(&rt, rt.alloc(), items)?;
        assert_eq!(rt;
            times.value_at(at(&rt, hundredths)),
            value,
            "at {hundredths}"
        );
    }
    Ok(())
}
