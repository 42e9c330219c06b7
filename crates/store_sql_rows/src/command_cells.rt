//! What the cells of a row of `command` say of the command's content and of its state.
ghost use Rattle.std.specs.Prelude.{◌≡◌, ◌+◌, ◌≤◌, Some, None, option_map, IfOk, IfErr, pos};
ghost use Rattle.points.specs.declared.answer.Answer.TheVariants.{Refused};
ghost use Rattle.points.specs.declared.command_row.CommandState.TheVariants.{Answered};
ghost use Rattle.sqlite_value.specs.declared.value.Value.TheVariants.{Int, Null};
ghost use Rattle.sqlite_value.specs.Order.{column};
ghost use Rattle.sqlite_value.specs.Value.{owned};
ghost use Rattle.store.specs.Change.{IsState};
ghost use Rattle.store_sql_rows.specs.declared.read_fault.ReadFault.TheVariants.{BadRow};
ghost use Rattle.store_sql_rows.specs.Cells.{cell_of};
ghost use Rattle.store_sql_rows.specs.Rows.{command_in, content_in, done_in, parked_in, refused_in, state_in};

use crate::cells::{cell_at, count_of, name_at, number_at, number_of, optional_at};
use crate::read_fault::ReadFault;
use points::{Answer, CommandRow, CommandState, Content, Rule};
use sqlite::Row;
use sqlite_value::value::ValueRef;

/// The cells of a command's state: its number, and what belongs to it.
#[derive(Clone, Copy)]
pub struct StateCells {
    /// 0 for parked, 1 for done, 2 for refused.
    pub code: i64,
    /// Of done the present value, of refused the rule's number; else NULL.
    pub a: Option<i64>,
    /// Of done the priority; else NULL.
    pub b: Option<i64>,
}

fn parked_of(a: ValueRef<'_>, b: ValueRef<'_>) -> Option<CommandState>
    ensures { result ≡ parked_in (owned a.entry) (owned b.entry) }
{
    match (a, b) {
        (ValueRef::Null, ValueRef::Null) => Some(CommandState::Parked),
        _ => None,
    }
}

fn done_of(a: ValueRef<'_>, b: ValueRef<'_>) -> Option<CommandState>
    ensures { result ≡ done_in (owned a.entry) (owned b.entry) }
{
    let present = number_of(a)?;
    let priority = count_of(b, 0, 16)?;
    Some(CommandState::Answered(Answer::Done {
        present,
        priority: priority as u8,
    }))
}

fn rule_of(number: i64) -> Option<Rule>
    ensures { option_map (λ rule. Answered (Refused rule)) result ≡ refused_in (Int number) Null }
{
    match number {
        1 => Some(Rule::NoSuchPoint),
        2 => Some(Rule::NotGranted),
        3 => Some(Rule::NoSuchPriority),
        4 => Some(Rule::ReservedPriority),
        5 => Some(Rule::PriorityNotGranted),
        6 => Some(Rule::OutsideKind),
        _ => None,
    }
}

fn refused_of(a: ValueRef<'_>, b: ValueRef<'_>) -> Option<CommandState>
    ensures { result ≡ refused_in (owned a.entry) (owned b.entry) }
{
    match (a, b) {
        (ValueRef::Int(number), ValueRef::Null) => Some(CommandState::Answered(Answer::Refused(
            rule_of(number)?,
        ))),
        _ => None,
    }
}

fn state_of(state: ValueRef<'_>, a: ValueRef<'_>, b: ValueRef<'_>) -> Option<CommandState>
    ensures { result ≡ state_in (owned state.entry) (owned a.entry) (owned b.entry) }
{
    match state {
        ValueRef::Int(0) => parked_of(a, b),
        ValueRef::Int(1) => done_of(a, b),
        ValueRef::Int(2) => refused_of(a, b),
        _ => None,
    }
}

// The three cells of a content, from a column on.
fn content_at(row: &Row, at: usize) -> Result<Content, ReadFault>
    requires { at ≤ 100 }
    ensures value { IfOk result
        (λ content. content_in (column row.now at) (column row.now (at + 1)) (column row.now (at + 2)) ≡ Some content) }
    ensures bad { IfErr result (λ fault. content_in (column row.now at) (column row.now (at + 1)) (column row.now (at + 2)) ≡ None) }
    ensures fault { IfErr result (λ fault. fault ≡ BadRow) }
{
    let point = name_at(row, at)?;
    let priority = number_at(row, at + 1)?;
    let value = optional_at(row, at + 2)?;
    Ok(Content {
        point,
        priority,
        value,
    })
}

/// The command of the six cells from a column on (one of the first 101): its content's three, then its state's
/// three.
pub fn command_at(row: &Row, at: usize) -> Result<CommandRow, ReadFault>
    requires { at ≤ 100 }
    ensures value { IfOk result (λ kept. command_in (column row.now at) (column row.now (at + 1)) (column row.now (at + 2))
        (column row.now (at + 3)) (column row.now (at + 4)) (column row.now (at + 5)) ≡ Some kept) }
    ensures bad { IfErr result (λ fault. command_in (column row.now at) (column row.now (at + 1)) (column row.now (at + 2))
        (column row.now (at + 3)) (column row.now (at + 4)) (column row.now (at + 5)) ≡ None) }
    ensures fault { IfErr result (λ fault. fault ≡ BadRow) }
{
    let content = content_at(row, at)?;
    let state = state_of(
        cell_at(row, at + 3),
        cell_at(row, at + 4),
        cell_at(row, at + 5),
    );
    match state {
        Some(state) => Ok(CommandRow { content, state }),
        None => Err(ReadFault::BadRow),
    }
}

fn number_of_rule(rule: Rule) -> i64
    ensures { refused_in (Int result) Null ≡ Some (Answered (Refused rule)) }
{
    match rule {
        Rule::NoSuchPoint => 1,
        Rule::NotGranted => 2,
        Rule::NoSuchPriority => 3,
        Rule::ReservedPriority => 4,
        Rule::PriorityNotGranted => 5,
        Rule::OutsideKind => 6,
    }
}

/// The cells that say a state.
pub fn cells_of(state: &CommandState) -> StateCells
    requires { IsState state.now }
    ensures { state_in (Int result.code) (cell_of result.a) (cell_of result.b) ≡ Some state.now }
{
    match *state {
        CommandState::Parked => StateCells {
            code: 0,
            a: None,
            b: None,
        },
        CommandState::Answered(Answer::Done { present, priority }) => StateCells {
            code: 1,
            a: Some(present),
            b: Some(i64::from(priority)),
        },
        CommandState::Answered(Answer::Refused(rule)) => StateCells {
            code: 2,
            a: Some(number_of_rule(rule)),
            b: None,
        },
    }
}
