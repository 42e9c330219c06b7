//! Rows that are put again, by their numbers and, where these are not known, by their keys, and rows that take the place of
//! one that falls out.
use crate::trials::databases::opened_again;
use points::{CommandRow, CommandState, Content, Name};
use std::alloc::Global;
use std::test::Fail;
use store::{Change, KeptRow, NextNumber, PlaceValue, RowsBelow, ShownValue, Store};
use trials_buildings::new_database;

fn put_place<S: Store>(
    alloc: Global,
    store: &mut S,
    point: &str,
    value: Option<i64>,
) -> Result<(), Fail> {
    let mut change = Change::new(alloc);
    change.places.push(PlaceValue {
        point: Name::read(point)?,
        priority: 8,
        value,
    })?;
    store.commit(&change)?;
    Ok(())
}

fn place<S: Store>(store: &mut S, point: &str) -> Result<Option<i64>, Fail> {
    Ok(store.array(&Name::read(point)?)?.value_at(8))
}

#[test]
fn a_place_is_put_again_and_again(rt: HostRuntime) -> Result<(), Fail> {
    let alloc = rt.alloc();
    let mut store = new_database(alloc)?;
    put_place(alloc, &mut store, "LIGHT", Some(1))?;
    for value in [
        Some(2100),
        Some(2150),
        Some(2200),
        None,
        Some(2250),
        Some(2300),
        Some(2350),
    ] {
        put_place(alloc, &mut store, "R101-SET", value)?;
        assert_eq!(rt; place(&mut store, "R101-SET")?, value);
    }
    assert_eq!(rt; place(&mut store, "LIGHT")?, Some(1));
    Ok(())
}

fn put_shown<S: Store>(
    alloc: Global,
    store: &mut S,
    schedule: &str,
    shown: Option<Option<i64>>,
) -> Result<(), Fail> {
    let mut change = Change::new(alloc);
    change.shown.push(ShownValue {
        schedule: Name::read(schedule)?,
        shown,
    })?;
    store.commit(&change)?;
    Ok(())
}

#[test]
fn what_a_schedule_shows_is_put_again_and_again(rt: HostRuntime) -> Result<(), Fail> {
    let alloc = rt.alloc();
    let mut store = new_database(alloc)?;
    put_shown(alloc, &mut store, "LIGHT-DAY", Some(Some(1)))?;
    for shown in [
        Some(Some(2100)),
        Some(Some(2150)),
        Some(None),
        None,
        Some(Some(2250)),
        Some(Some(2300)),
        Some(None),
    ] {
        put_shown(alloc, &mut store, "R101-DAY", shown)?;
        assert_eq!(rt; store.shown(&Name::read("R101-DAY")?)?, shown);
    }
    assert_eq!(rt; store.shown(&Name::read("LIGHT-DAY")?)?, Some(Some(1)));
    Ok(())
}

fn put_next<S: Store>(alloc: Global, store: &mut S, panel: &str, next: u64) -> Result<(), Fail> {
    if next < 1 || next > 1000 {
        return Ok(());
    }
    let mut change = Change::new(alloc);
    change.nexts.push(NextNumber {
        panel: Name::read(panel)?,
        next,
    })?;
    store.commit(&change)?;
    Ok(())
}

#[test]
fn a_next_number_is_put_again_and_again(rt: HostRuntime) -> Result<(), Fail> {
    let alloc = rt.alloc();
    let mut store = new_database(alloc)?;
    put_next(alloc, &mut store, "P2", 7)?;
    for next in [2, 3, 4, 9] {
        put_next(alloc, &mut store, "P1", next)?;
        assert_eq!(rt; store.panel_next(&Name::read("P1")?)?, next);
    }
    assert_eq!(rt; store.panel_next(&Name::read("P2")?)?, 7);
    Ok(())
}

#[test]
fn rows_that_were_not_read_are_put_again(rt: HostRuntime) -> Result<(), Fail> {
    let alloc = rt.alloc();
    let mut store = new_database(alloc)?;
    put_place(alloc, &mut store, "R101-SET", Some(2100))?;
    put_shown(alloc, &mut store, "R101-DAY", Some(Some(2100)))?;
    put_next(alloc, &mut store, "P1", 2)?;
    let mut store = opened_again(alloc, store)?;
    put_place(alloc, &mut store, "R101-SET", Some(2150))?;
    put_shown(alloc, &mut store, "R101-DAY", Some(None))?;
    put_next(alloc, &mut store, "P1", 3)?;
    assert_eq!(rt; place(&mut store, "R101-SET")?, Some(2150));
    assert_eq!(rt; store.shown(&Name::read("R101-DAY")?)?, Some(None));
    assert_eq!(rt; store.panel_next(&Name::read("P1")?)?, 3);
    Ok(())
}

// Puts the row of a parked command with this value, and drops the rows of its panel below a number.
fn put_row<S: Store>(
    alloc: Global,
    store: &mut S,
    number: u64,
    value: i64,
    below: u64,
) -> Result<(), Fail> {
    if number < 1 || number > 1000 {
        return Ok(());
    }
    let panel = Name::read("P1")?;
    let content = Content {
        point: Name::read("R101-SET")?,
        priority: 8,
        value: Some(value),
    };
    let row = CommandRow {
        content,
        state: CommandState::Parked,
    };
    let mut change = Change::new(alloc);
    change.rows.push(KeptRow { panel, number, row })?;
    change.dropped.push(RowsBelow {
        panel,
        number: below,
    })?;
    store.commit(&change)?;
    Ok(())
}

// The value that the row under a number asks for, or 0 where none stands there.
fn asked<S: Store>(store: &mut S, number: u64) -> Result<i64, Fail> {
    match store.command(&Name::read("P1")?, number)? {
        Some(row) => Ok(row.content.value.unwrap_or(0)),
        None => Ok(0),
    }
}

fn all_asked<S: Store>(store: &mut S) -> Result<[i64; 7], Fail> {
    Ok([
        asked(store, 1)?,
        asked(store, 2)?,
        asked(store, 3)?,
        asked(store, 4)?,
        asked(store, 5)?,
        asked(store, 6)?,
        asked(store, 7)?,
    ])
}

#[test]
fn a_row_takes_the_place_of_one_that_falls_out(rt: HostRuntime) -> Result<(), Fail> {
    let alloc = rt.alloc();
    let mut store = new_database(alloc)?;
    put_row(alloc, &mut store, 1, 2110, 0)?;
    put_row(alloc, &mut store, 2, 2120, 1)?;
    assert_eq!(rt; all_asked(&mut store)?, [2110, 2120, 0, 0, 0, 0, 0]);
    put_row(alloc, &mut store, 3, 2130, 2)?;
    assert_eq!(rt; all_asked(&mut store)?, [0, 2120, 2130, 0, 0, 0, 0]);
    // Two fall out.
    put_row(alloc, &mut store, 6, 2160, 4)?;
    assert_eq!(rt; all_asked(&mut store)?, [0, 0, 0, 0, 0, 2160, 0]);
    put_row(alloc, &mut store, 7, 2170, 4)?;
    assert_eq!(rt; all_asked(&mut store)?, [0, 0, 0, 0, 0, 2160, 2170]);
    // One falls out, and one stands under the number.
    put_row(alloc, &mut store, 7, 2180, 7)?;
    assert_eq!(rt; all_asked(&mut store)?, [0, 0, 0, 0, 0, 0, 2180]);
    Ok(())
}
