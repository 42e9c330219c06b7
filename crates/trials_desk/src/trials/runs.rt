//! A run of a list of deliveries, with ample memory.
use crate::trials::desks::desk;
use deliveries::{Delivery, Reply};
use desk::Desk;
use points::{Answer, Content, Name, Rule};
use std::alloc::Global;
use std::process::Abort;
use std::test::Fail;
use store::{Store, StoreFault};

fn command(number: i64, priority: i64) -> Result<Delivery, Fail> {
    Ok(Delivery::Command {
        panel: Name::read("P1")?,
        number,
        content: Content {
            point: Name::read("LIGHT")?,
            priority,
            value: Some(1),
        },
    })
}

fn answered(number: i64, answer: Answer) -> Reply {
    Reply::Answered { number, answer }
}

/// A command, its repeat, and one at the reserved priority.
fn deliveries(alloc: Global) -> Result<Vec<Delivery>, Fail> {
    let mut deliveries = Vec::new(alloc);
    deliveries.push(command(1, 8)?)?;
    deliveries.push(command(1, 8)?)?;
    deliveries.push(command(2, 6)?)?;
    Ok(deliveries)
}

fn replies() -> [Reply; 3] {
    let done = Answer::Done {
        present: 1,
        priority: 8,
    };
    let refused = Answer::Refused(Rule::ReservedPriority);
    [answered(1, done), answered(1, done), answered(2, refused)]
}

// The replies of a run, without what is promised of it.
fn run_over<S: Store + Drop>(
    desk: &mut Desk<S>,
    deliveries: &[Delivery],
) -> (Vec<Reply>, Option<StoreFault>) {
    desk.run(deliveries)
}

fn assert_replies(rt: &impl Abort, given: &[Reply]) {
    assert_eq!(rt; given, replies().as_slice());
}

#[test]
fn a_run_answers_each_delivery_in_order(rt: HostRuntime) -> Result<(), Fail> {
    let deliveries = deliveries(rt.alloc())?;
    let mut desk = desk(rt.alloc())?;
    let (given, fault) = run_over(&mut desk, deliveries.as_slice());
    assert_eq!(rt; fault, None);
    assert_replies(&rt, given.as_slice());
    Ok(())
}
