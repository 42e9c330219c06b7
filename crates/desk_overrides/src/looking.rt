//! What gives a point its value.
ghost use Rattle.std.specs.Prelude.{◌≡◌};
ghost use Rattle.desk_overrides.specs.Overrides.{given_by};
ghost use Rattle.desk_overrides.specs.Watched.{given_from};
ghost use Rattle.desk_why.specs.AuthorsTable.{held_in};

use crate::overriding::Given;
use desk_why::{Author, Authors, Held};
use points::Name;

/// The priorities of a point's places.
const PRIORITIES: [u8; 16] = [1, 2, 3, 4, 5, 6, 7, 8, 9, 10, 11, 12, 13, 14, 15, 16];

// The command that put a value at a priority, if one did.
fn given_by(priority: u8, held: &Held) -> Option<Given>
    ensures { result ≡ given_by priority held.now.value held.now.author }
{
    match held.author {
        Author::Command { panel, number, .. } => Some(Given {
            value: held.value,
            priority,
            panel,
            number,
        }),
        Author::Schedule { .. } | Author::BeforeRecord => None,
    }
}

/// The command that gives a point its value, if one does: that of the first place that holds a value.
pub(crate) fn given_at(authors: &Authors, point: &Name) -> Option<Given>
    ensures { result ≡ given_from (held_in authors.now point.now) }
{
    for priority in &PRIORITIES {
        if let Some(held) = authors.held(point, *priority) {
            return given_by(*priority, &held);
        }
    }
    None
}
