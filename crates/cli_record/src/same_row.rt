//! Whether what two sides have is the same.
ghost use Rattle.std.specs.Prelude.{◌≡◌};
ghost use Rattle.cli_record.specs.Differences.{same_answer, same_row, same_shown, same_state, same_value};

use points::{Answer, CommandRow, CommandState};

fn is_same_answer(answer: &Answer, other: &Answer) -> bool
    ensures { result ≡ same_answer answer.now other.now }
{
    match (answer, other) {
        (
            Answer::Done { present, priority },
            Answer::Done {
                present: value,
                priority: at,
            },
        ) => present == value && priority == at,
        (Answer::Refused(rule), Answer::Refused(other)) => rule == other,
        _ => false,
    }
}

fn is_same_state(state: &CommandState, other: &CommandState) -> bool
    ensures { result ≡ same_state state.now other.now }
{
    match (state, other) {
        (CommandState::Parked, CommandState::Parked) => true,
        (CommandState::Answered(answer), CommandState::Answered(other)) => {
            is_same_answer(answer, other)
        }
        _ => false,
    }
}

/// Whether the rows under a number of two panels are the same, or there is none under both.
pub fn is_same_row(row: Option<CommandRow>, other: Option<CommandRow>) -> bool
    ensures { result ≡ same_row row other }
{
    match (row, other) {
        (None, None) => true,
        (Some(row), Some(other)) => {
            row.content.is_same_as(&other.content) && is_same_state(&row.state, &other.state)
        }
        _ => false,
    }
}

/// Whether two values are the same, or there is none on both sides.
pub fn is_same_value(value: Option<i64>, other: Option<i64>) -> bool
    ensures { result ≡ same_value value other }
{
    value == other
}

/// Whether two schedules show the same, or are quiet both.
pub fn is_same_shown(shown: Option<Option<i64>>, other: Option<Option<i64>>) -> bool
    ensures { result ≡ same_shown shown other }
{
    match (shown, other) {
        (None, None) => true,
        (Some(value), Some(other)) => is_same_value(value, other),
        _ => false,
    }
}
