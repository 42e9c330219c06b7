//! What the journal has is due, and is taken up after a restart.
use crate::trials::panels::{content, due, new_end};
use deliveries::Reply;
use panel::Move;
use points::{Answer, Rule};
use std::test::Fail;

#[test]
fn a_press_is_due_once_it_is_kept(rt: HostRuntime) -> Result<(), Fail> {
    let mut end = new_end(rt.alloc())?;
    let first = end.press(&content(2000)?)?;
    let second = end.press(&content(2100)?)?;
    assert_eq!(rt; due(rt.alloc(), &end)?.as_str(), "");
    end.keep(first);
    assert_eq!(rt; due(rt.alloc(), &end)?.as_str(), "#1 = 2000;");
    end.keep(second);
    assert_eq!(rt; due(rt.alloc(), &end)?.as_str(), "#1 = 2000;#2 = 2100;");
    Ok(())
}

#[test]
fn a_journal_is_taken_up(rt: HostRuntime) -> Result<(), Fail> {
    let reply = Reply::Answered {
        number: 1,
        answer: Answer::Refused(Rule::ReservedPriority),
    };
    let moves = [
        Move::Press {
            content: content(2000)?,
        },
        Move::Press {
            content: content(2100)?,
        },
        Move::Hear { reply },
        Move::Press {
            content: content(2200)?,
        },
    ];
    let mut end = new_end(rt.alloc())?;
    end.replay(&moves)?;
    assert_eq!(rt; due(rt.alloc(), &end)?.as_str(), "#2 = 2100;#3 = 2200;");
    end.replay(&[Move::GiveUp { number: 2 }])?;
    assert_eq!(rt; due(rt.alloc(), &end)?.as_str(), "skip 3;");
    Ok(())
}
