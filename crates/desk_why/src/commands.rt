//! The places after a panel's commands that are acted on.
ghost use Rattle.std.specs.Prelude.{◌≡◌, ◌&&◌, ◌==◌, false, OnOk, is_none, option_copied};
ghost use Rattle.std.specs.Str.{bytes_eq};
ghost use Rattle.desk_why.specs.Authors.{held_after_command, held_by_command};
ghost use Rattle.desk_why.specs.Steps.{Becomes, held_after_run, put_where};
ghost use Rattle.deliveries.specs.Machine.{place_of, rule_for};
ghost use Rattle.points.specs.Rights.{names_no_place};

use crate::author::{Author, Held};
use crate::authors::Authors;
use building::Building;
use points::{Content, Name, NumberedRow};
use std::alloc::AllocError;

// Whether no rule is against a panel's content.
fn is_permitted(building: &Building, panel: &Name, content: &Content) -> bool
    ensures { result ≡ is_none (rule_for building.now panel.now content.now) }
{
    match building.find_panel(panel) {
        Some(panel) => building.permit(panel, content).is_ok(),
        None => false,
    }
}

// What a command puts.
fn held_by_command(
    panel: &Name,
    number: u64,
    after: Option<i64>,
    value: Option<i64>,
) -> Option<Held>
    ensures { result ≡ held_by_command panel.now number after value }
{
    let value = value?;
    Some(Held {
        value,
        author: Author::Command {
            panel: *panel,
            number,
            after,
        },
    })
}

// Puts what a permitted content puts in its place.
fn put_content(
    authors: &mut Authors,
    content: &Content,
    held: Option<&Held>,
) -> Result<(), AllocError>
    requires { names_no_place content.now.priority ≡ false }
    ensures { OnOk result (Becomes (put_where (λ q r. bytes_eq content.now.point q && place_of content.now.priority == r)
        (option_copied held.entry)) authors.old authors.new) }
{
    authors.put(&content.point, content.priority as u8, held)
}

// Acts on a command.
fn act_on(
    authors: &mut Authors,
    building: &Building,
    after: Option<i64>,
    panel: &Name,
    entry: &NumberedRow,
) -> Result<(), AllocError>
    ensures { OnOk result (Becomes (held_after_command building.now after panel.now entry.now.number entry.now.row.content)
        authors.old authors.new) }
{
    let content = &entry.row.content;
    if !is_permitted(building, panel, content) {
        return Ok(());
    }
    let held = held_by_command(panel, entry.number, after, content.value);
    put_content(authors, content, held.as_ref())
}

/// Acts on the commands of a run, after this last tick.
pub fn act_on_run(
    authors: &mut Authors,
    building: &Building,
    after: Option<i64>,
    panel: &Name,
    run: &[NumberedRow],
) -> Result<(), AllocError>
    ensures { OnOk result (Becomes (held_after_run building.now after panel.now run.now) authors.old authors.new) }
{
    for entry in run {
        act_on(authors, building, after, panel, entry)?;
    }
    Ok(())
}
