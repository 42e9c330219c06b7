//! What a store holds, as text: the answer of each of its reads, for the names of the worked building.
ghost use Rattle.std.specs.Prelude.{◌≤◌};

use points::Name;
use std::fmt::{Debug, Write};
use std::test::Fail;
use store::Store;

/// The greatest number of a panel whose row is printed.
const LAST_NUMBER: u64 = 9;

// The one place where an answer is written, whatever its type: each such place is dear to prove.
fn push_result<T: Debug + Drop>(label: &str, outcome: T, content: &mut String) -> Result<(), Fail> {
    write!(content, "{label} {outcome:?} ")?;
    Ok(())
}

fn push_rows<S: Store>(store: &mut S, panel: &Name, content: &mut String) -> Result<(), Fail> {
    for number in 1..LAST_NUMBER + 1 {
        push_result("row", number, content)?;
        push_result("is", store.command(panel, number), content)?;
    }
    Ok(())
}

fn push_run<S: Store>(
    store: &mut S,
    panel: &Name,
    from: u64,
    upto: u64,
    content: &mut String,
) -> Result<(), Fail>
    requires { from ≤ upto }
{
    push_result("run", store.commands_run(panel, from, upto), content)
}

fn push_panel<S: Store>(store: &mut S, name: &str, content: &mut String) -> Result<(), Fail> {
    let panel = Name::read(name)?;
    push_result("panel", name, content)?;
    push_result("next", store.panel_next(&panel), content)?;
    push_run(store, &panel, 1, 4, content)?;
    push_run(store, &panel, 2, 2, content)?;
    push_run(store, &panel, 5, 6, content)?;
    push_run(store, &panel, 1, 70, content)?;
    push_rows(store, &panel, content)
}

fn push_point<S: Store>(store: &mut S, name: &str, content: &mut String) -> Result<(), Fail> {
    push_result("point", name, content)?;
    push_result("array", store.array(&Name::read(name)?), content)
}

fn push_clock<S: Store>(store: &mut S, content: &mut String) -> Result<(), Fail> {
    push_result("last", store.last_tick(), content)?;
    push_result("shown", store.shown(&Name::read("R101-DAY")?), content)?;
    push_result("entries", store.entries(&Name::read("HOLIDAYS")?), content)
}

/// Appends what a store answers to each read, and how often its disk has failed.
pub(crate) fn push_content<S: Store>(store: &mut S, content: &mut String) -> Result<(), Fail> {
    push_result("names", store.names(), content)?;
    push_panel(store, "P1", content)?;
    push_panel(store, "P2", content)?;
    push_point(store, "R101-SET", content)?;
    push_point(store, "LIGHT", content)?;
    push_clock(store, content)?;
    push_result("failures", store.failures(), content)
}
