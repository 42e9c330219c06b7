//! The window of 64, a lost journal, a desk that fell back, and the last number.
use crate::trials::panels::{content, due, new_end, press_kept, resumed_end};
use deliveries::Reply;
use panel::{PanelEnd, PressFault};
use points::Answer;
use std::alloc::Global;
use std::process::Abort;
use std::test::Fail;

#[test]
fn the_sixty_fifth_press_waits(rt: HostRuntime) -> Result<(), Fail> {
    let mut end = new_end(rt.alloc())?;
    for value in 2000..2064 {
        press_kept(&mut end, value)?;
    }
    assert_eq!(rt; end.in_flight().len(), 64);
    assert_eq!(rt; end.press(&content(2064)?), Err(PressFault::Full));
    let answer = Answer::Done {
        present: 2000,
        priority: 8,
    };
    let _command = end.hear(&Reply::Answered { number: 1, answer });
    assert_eq!(rt; end.press(&content(2064)?), Ok(65));
    Ok(())
}

#[test]
fn a_lost_journal_numbers_on_behind_a_skip(rt: HostRuntime) -> Result<(), Fail> {
    let mut end = resumed_end(rt.alloc(), 40)?.expect(&rt, "an end");
    assert_eq!(rt; press_kept(&mut end, 2000)?, 104);
    assert_eq!(rt; due(rt.alloc(), &end)?.as_str(), "skip 104;");
    let _command = end.hear(&Reply::SkipDone { next: 104 });
    assert_eq!(rt; due(rt.alloc(), &end)?.as_str(), "#104 = 2000;");
    Ok(())
}

// After a TooFar or a SkipDone that says `next`, what is due is a skip to `upto`.
fn assert_steps(
    rt: &impl Abort,
    alloc: Global,
    end: &mut PanelEnd,
    next: u64,
    upto: &str,
) -> Result<(), Fail> {
    let _command = end.hear(&Reply::SkipDone { next });
    assert_eq!(rt; due(alloc, end)?.as_str(), upto);
    Ok(())
}

#[test]
fn a_desk_that_fell_back_is_led_by_steps_of_64(rt: HostRuntime) -> Result<(), Fail> {
    let mut end = resumed_end(rt.alloc(), 136)?.expect(&rt, "an end");
    let _command = end.hear(&Reply::SkipDone { next: 200 });
    press_kept(&mut end, 2000)?;
    end.desk_restored(1);
    assert_eq!(rt; due(rt.alloc(), &end)?.as_str(), "skip 200;");
    let _command = end.hear(&Reply::TooFar {
        next: 1,
        number: 200,
    });
    assert_eq!(rt; due(rt.alloc(), &end)?.as_str(), "skip 65;");
    assert_steps(&rt, rt.alloc(), &mut end, 65, "skip 129;")?;
    assert_steps(&rt, rt.alloc(), &mut end, 129, "skip 193;")?;
    assert_steps(&rt, rt.alloc(), &mut end, 193, "skip 200;")?;
    assert_steps(&rt, rt.alloc(), &mut end, 200, "#200 = 2000;")
}

#[test]
fn the_last_number_is_a_million_millions(rt: HostRuntime) -> Result<(), Fail> {
    let mut end = resumed_end(rt.alloc(), 999_999_999_936)?.expect(&rt, "an end");
    assert_eq!(rt; end.press(&content(2000)?), Ok(1_000_000_000_000));
    assert_eq!(rt; end.press(&content(2000)?), Err(PressFault::NoNumberLeft));
    let past = resumed_end(rt.alloc(), 999_999_999_937)?;
    assert_eq!(rt; past.err(), Some(PressFault::NoNumberLeft));
    Ok(())
}
