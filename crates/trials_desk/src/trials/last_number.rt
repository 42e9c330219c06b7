//! The last number of a panel, planned as a call.
use points::{Content, Listing, Name};
use std::alloc::Global;
use std::test::Fail;
use window::{PanelView, Plan, Verdict, plan_command};

// The plan for a command with the last number, which is the next one, without what is promised of it.
fn planned(alloc: Global) -> Result<Plan, Fail> {
    let view = PanelView {
        next: 1_000_000_000_000,
        asked: None,
        run: Listing::from_vec(Vec::new(alloc)),
    };
    let content = Content {
        point: Name::read("R101-SET")?,
        priority: 8,
        value: Some(2150),
    };
    Ok(plan_command(alloc, &view, 1_000_000_000_000, &content)?)
}

#[test]
fn the_last_number_is_acted_on(rt: HostRuntime) -> Result<(), Fail> {
    let plan = planned(rt.alloc())?;
    assert!(rt; matches!(plan.verdict, Verdict::Applies), "the verdict");
    assert_eq!(rt; plan.next, 1_000_000_000_001);
    assert_eq!(rt; plan.apply.as_slice().len(), 1);
    assert!(rt; plan.park.is_none(), "it waits for nothing");
    Ok(())
}
