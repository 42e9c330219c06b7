//! How often schedules are evaluated: once for each span of a day over which the value stands.
use crate::trials::desks::desk;
use dates::Entry;
use deliveries::{Delivery, Reply};
use desk::Desk;
use points::Listing;
use sched::{CalId, CalendarEntry};
use std::alloc::Global;
use std::process::Abort;
use std::test::Fail;
use store::{Store, StoreFault};

/// A tick at a moment, how many values it writes, and how often schedules were evaluated then.
#[derive(Clone, Copy)]
struct Ticked {
    at: i64,
    writes: u64,
    evaluations: u64,
}

/// Before and at the time at which the weekly list names a value, and a second later.
const FIRST_TICKS: [Ticked; 3] = [
    Ticked {
        at: 174_884_399_999,
        writes: 1,
        evaluations: 1,
    },
    Ticked {
        at: 174_884_400_000,
        writes: 1,
        evaluations: 2,
    },
    Ticked {
        at: 174_884_400_100,
        writes: 0,
        evaluations: 2,
    },
];

/// The beginning of the next day.
const NEXT_DAY: [Ticked; 1] = [Ticked {
    at: 174_890_160_000,
    writes: 1,
    evaluations: 4,
}];

/// The night in which the clock is set back: 02:30 and 02:50, and 02:30 once more.
const FOLD: [Ticked; 3] = [
    Ticked {
        at: 176_143_860_000,
        writes: 1,
        evaluations: 1,
    },
    Ticked {
        at: 176_143_980_000,
        writes: 1,
        evaluations: 2,
    },
    Ticked {
        at: 176_144_220_000,
        writes: 1,
        evaluations: 3,
    },
];

// The reply to a delivery, without what is promised of it.
fn delivered<S: Store + Drop>(
    desk: &mut Desk<S>,
    delivery: &Delivery,
) -> Result<Reply, StoreFault> {
    desk.deliver(delivery)
}

// How many values a delivery writes, if it is a tick or an import that is answered.
fn writes<S: Store + Drop>(desk: &mut Desk<S>, delivery: &Delivery) -> Option<u64> {
    match delivered(desk, delivery) {
        Ok(Reply::Ticked { writes } | Reply::Imported { writes, .. }) => Some(writes),
        _ => None,
    }
}

fn assert_counts<S: Store + Drop>(
    rt: &impl Abort,
    desk: &mut Desk<S>,
    delivery: &Delivery,
    wanted: (u64, u64),
) {
    let written = writes(desk, delivery);
    assert_eq!(rt; written, Some(wanted.0));
    assert_eq!(rt; desk.evaluations(), wanted.1);
}

fn assert_ticks<S: Store + Drop>(rt: &impl Abort, desk: &mut Desk<S>, ticks: &[Ticked]) {
    for tick in ticks {
        let delivery = Delivery::Tick { at: tick.at };
        assert_counts(rt, desk, &delivery, (tick.writes, tick.evaluations));
    }
}

// An import of one holiday.
fn holiday(alloc: Global) -> Result<Delivery, Fail> {
    let mut rows = Vec::new(alloc);
    rows.push(CalendarEntry {
        calendar: CalId { index: 0 },
        entry: Entry::read("2025-06-02")?,
    })?;
    Ok(Delivery::Import {
        rows: Listing::from_vec(rows),
    })
}

#[test]
fn a_schedule_is_evaluated_once_a_span(rt: HostRuntime) -> Result<(), Fail> {
    let alloc = rt.alloc();
    let mut desk = desk(alloc)?;
    let import = holiday(alloc)?;
    assert_eq!(rt; desk.evaluations(), 0);
    assert_ticks(&rt, &mut desk, &FIRST_TICKS);
    assert_counts(&rt, &mut desk, &import, (1, 3));
    assert_counts(&rt, &mut desk, &import, (0, 3));
    assert_ticks(&rt, &mut desk, &NEXT_DAY);
    Ok(())
}

#[test]
fn a_schedule_is_evaluated_in_both_hours_of_a_night(rt: HostRuntime) -> Result<(), Fail> {
    let mut desk = desk(rt.alloc())?;
    assert_ticks(&rt, &mut desk, &FOLD);
    Ok(())
}
