//! The exchange over a bad network of `docs/PANELS.md`.
use crate::trials::panels::{due, new_end, press_kept};
use deliveries::Reply;
use panel::PanelEnd;
use points::Answer;
use std::alloc::Global;
use std::process::Abort;
use std::test::Fail;

fn done(number: i64, present: i64) -> Reply {
    let answer = Answer::Done {
        present,
        priority: 8,
    };
    Reply::Answered { number, answer }
}

// The number of the command that hears its last with a reply, or 0.
fn ended(end: &mut PanelEnd, reply: Reply) -> u64 {
    end.hear(&reply).map_or(0, |command| command.number)
}

fn assert_parked_waits(rt: &impl Abort, end: &mut PanelEnd) {
    let parked = Reply::Parked { next: 1, number: 3 };
    assert_eq!(rt; ended(end, parked), 0, "parked");
    assert_eq!(rt; ended(end, done(1, 2000)), 1, "done");
    assert_eq!(rt; ended(end, done(1, 2000)), 0, "the same answer again");
    assert_eq!(rt; ended(end, done(2, 2100)), 2, "done, for 2");
    assert_eq!(rt; ended(end, done(3, 2200)), 3, "done, for 3");
}

#[test]
fn numbers_are_sent_again_until_they_are_answered(rt: HostRuntime) -> Result<(), Fail> {
    let mut end = new_end(rt.alloc())?;
    for value in [2000, 2100, 2200] {
        press_kept(&mut end, value)?;
    }
    assert_eq!(rt;
        due(rt.alloc(), &end)?.as_str(),
        "#1 = 2000;#2 = 2100;#3 = 2200;"
    );
    assert_parked_waits(&rt, &mut end);
    assert!(rt; end.is_at_rest());
    assert_eq!(rt; end.next_number(), 4);
    Ok(())
}

// Number 4 is given up, and 5 waits until the skip is done.
fn end_with_a_skip(alloc: Global) -> Result<PanelEnd, Fail> {
    let mut end = new_end(alloc)?;
    for value in [2000, 2100, 2200, 2300, 1] {
        press_kept(&mut end, value)?;
    }
    for number in 1..4 {
        let _command = end.hear(&done(number, 2000));
    }
    end.give_up(4);
    Ok(end)
}

#[test]
fn a_number_that_is_given_up_hears_that_it_was_skipped(rt: HostRuntime) -> Result<(), Fail> {
    let mut end = end_with_a_skip(rt.alloc())?;
    assert_eq!(rt; due(rt.alloc(), &end)?.as_str(), "skip 5;");
    assert_eq!(rt; ended(&mut end, Reply::SkipDone { next: 6 }), 0);
    assert_eq!(rt; due(rt.alloc(), &end)?.as_str(), "#4 = 2300;#5 = 1;");
    assert_eq!(rt; ended(&mut end, Reply::Skipped { number: 4 }), 4);
    assert!(rt; !end.is_at_rest());
    assert_eq!(rt; ended(&mut end, done(5, 1)), 5);
    assert!(rt; end.is_at_rest());
    Ok(())
}

#[test]
fn faults_end_nothing(rt: HostRuntime) -> Result<(), Fail> {
    let mut end = new_end(rt.alloc())?;
    press_kept(&mut end, 2000)?;
    for reply in [Reply::NoPanel, Reply::BadNumber, Reply::Old] {
        assert_eq!(rt; ended(&mut end, reply), 0);
    }
    assert_eq!(rt; due(rt.alloc(), &end)?.as_str(), "#1 = 2000;");
    assert_eq!(rt; ended(&mut end, Reply::Forgotten { number: 1 }), 1);
    Ok(())
}
