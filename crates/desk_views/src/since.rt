//! Since when a value stands in its place.
ghost use Rattle.std.specs.Prelude.{◌≡◌};
ghost use Rattle.desk_views.specs.Views.{since_of};

use desk_why::{Author, Settling};

/// The tick at which a schedule put a value there, or the last tick before a command or an import did, if there was one.
/// Of what was put there before the record it is not known.
pub fn since_of(author: &Author) -> Option<i64>
    ensures { result ≡ since_of author.now }
{
    match author {
        Author::Command { after, .. } => *after,
        Author::Schedule { settling, .. } => match settling {
            Settling::Tick { at } => Some(*at),
            Settling::Import { after } => Some(*after),
        },
        Author::BeforeRecord => None,
    }
}
