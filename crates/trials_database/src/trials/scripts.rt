//! Lines that are delivered to a desk over a store, and what is printed of it.
use crate::trials::contents::push_content;
use building::Building;
use deliveries::{Delivery, Reply};
use delivery_json::LineFault;
use desk::Desk;
use desk_cli::answer_line;
use json::Scratch;
use std::alloc::Global;
use std::fmt::{Debug, Display, Write};
use std::process::Abort;
use std::test::Fail;
use store::{Store, StoreFault};
use store_memory::MemStore;
use trials_buildings::opened;

/// A building's file, and lines of deliveries.
#[derive(Clone, Copy)]
pub(crate) struct Script<'a> {
    pub(crate) building: &'a str,
    pub(crate) lines: &'a str,
}

/// What a desk says, the reply or the fault of each line, and then of a run; and what its store holds before and after.
#[derive(Drop)]
pub(crate) struct Outcome {
    pub(crate) before: String,
    pub(crate) printed: String,
    pub(crate) after: String,
}

impl Outcome {
    pub(crate) fn new(alloc: Global) -> Outcome {
        Outcome {
            before: String::new(alloc),
            printed: String::new(alloc),
            after: String::new(alloc),
        }
    }
}

// What a line is answered, without what is promised of it.
fn answered<S: Store + Drop>(
    alloc: Global,
    desk: &mut Desk<S>,
    line: &str,
) -> Result<String, LineFault> {
    let mut text = String::new(alloc);
    answer_line(
        alloc,
        &mut Scratch::new(alloc),
        &mut text,
        desk,
        line.as_bytes(),
    )?;
    Ok(text)
}

/// Appends a fault as a line.
pub(crate) fn push_fault<F: Display + Drop>(fault: F, printed: &mut String) -> Result<(), Fail> {
    writeln!(printed, "{fault}")?;
    Ok(())
}

fn push_answer(answer: Result<String, LineFault>, printed: &mut String) -> Result<(), Fail> {
    match answer {
        Ok(reply) => Ok(printed.push_str(reply.as_str())?),
        Err(LineFault::NotDone(fault)) => push_fault(fault, printed),
        Err(LineFault::NotDelivery) => push_fault("no delivery", printed),
    }
}

fn push_answers<S: Store + Drop>(
    alloc: Global,
    desk: &mut Desk<S>,
    lines: &str,
    printed: &mut String,
) -> Result<(), Fail> {
    for line in lines.lines() {
        push_answer(answered(alloc, desk, line), printed)?;
    }
    Ok(())
}

// What a run of one delivery that changes nothing is answered, without what is promised of it.
fn ran<S: Store + Drop>(desk: &mut Desk<S>) -> (Vec<Reply>, Option<StoreFault>) {
    desk.run(&[Delivery::Tick { at: -1 }])
}

/// What is printed of such a run: how many replies there are, and the fault.
pub(crate) const RUN: &str = "run 1 None\n";

/// The same where the store is shut.
pub(crate) const RUN_SHUT: &str = "run 0 Some(Shut)\n";

fn push_run<S: Store + Drop>(desk: &mut Desk<S>, printed: &mut String) -> Result<(), Fail> {
    let (replies, fault) = ran(desk);
    writeln!(printed, "run {} {fault:?}", replies.len())?;
    Ok(())
}

fn push_all<S: Store + Drop>(
    alloc: Global,
    desk: &mut Desk<S>,
    lines: &str,
    printed: &mut String,
) -> Result<(), Fail> {
    push_answers(alloc, desk, lines, printed)?;
    push_run(desk, printed)
}

// Tells a desk the lines of a script, and then runs a delivery that changes nothing; and gives its store back.
fn run_desk<S: Store + Drop>(
    alloc: Global,
    desk: Desk<S>,
    script: Script<'_>,
    outcome: &mut Outcome,
) -> (Result<(), Fail>, S) {
    let mut desk = desk;
    let done = push_all(alloc, &mut desk, script.lines, &mut outcome.printed);
    let mut store = desk.into_store();
    match done {
        Ok(()) => (push_content(&mut store, &mut outcome.after), store),
        Err(fail) => (Err(fail), store),
    }
}

fn run_over<S: Store + Drop>(
    alloc: Global,
    building: Building,
    store: S,
    script: Script<'_>,
    outcome: &mut Outcome,
) -> (Result<(), Fail>, S) {
    match opened(alloc, building, store) {
        Ok(desk) => run_desk(alloc, desk, script, outcome),
        Err((fault, store)) => (push_fault(fault, &mut outcome.printed), store),
    }
}

fn building_of(alloc: Global, script: Script<'_>) -> Result<Building, Fail> {
    Ok(Building::read(alloc, script.building.as_bytes())?)
}

/// Opens a desk over a store, delivers the lines of a script to it, and gives the store back. A fault of the opening is
/// printed in place of the replies.
pub(crate) fn run<S: Store + Drop>(
    alloc: Global,
    store: S,
    script: Script<'_>,
    outcome: &mut Outcome,
) -> (Result<(), Fail>, S) {
    let mut store = store;
    if let Err(fail) = push_content(&mut store, &mut outcome.before) {
        return (Err(fail), store);
    }
    match building_of(alloc, script) {
        Ok(building) => run_over(alloc, building, store, script, outcome),
        Err(fail) => (Err(fail), store),
    }
}

/// Runs a script over empty tables in memory.
pub(crate) fn run_in_memory(
    alloc: Global,
    script: Script<'_>,
    outcome: &mut Outcome,
) -> Result<(), Fail> {
    let (done, _store) = run(alloc, MemStore::new(alloc), script, outcome);
    done
}

/// A text is the one that is wanted, at a row or a place: asserted here for all tests, since each assertion is dear to
/// prove beside other code.
pub(crate) fn assert_same<T: Debug + Drop>(rt: &impl Abort, text: &str, wanted: &str, at: T) {
    assert_eq!(rt; text, wanted, "{at:?}");
}

/// Something holds, at a row or a place.
pub(crate) fn assert_holds<T: Debug + Drop>(rt: &impl Abort, holds: bool, at: T) {
    assert!(rt; holds, "{at:?}");
}
