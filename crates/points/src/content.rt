//! What a panel's command asks for.
use crate::name::Name;

/// What a command asks for: a value, or NULL, in one place of a point's priority array. It is what came,
/// so any of it may be refused.
#[derive(Clone, Copy, Debug, PartialEq, Eq)]
pub struct Content {
    pub point: Name,
    /// 1 to 16 where it names a place; a command without one is at `LOWEST_PRIORITY`.
    pub priority: i64,
    /// The value; `None` is NULL, which relinquishes the place.
    pub value: Option<i64>,
}

impl Content {
    ghost use Rattle.std.specs.Prelude.{◌≡◌};
    ghost use Rattle.points.specs.ContentEq.{content_eq};

    /// Whether the two ask for the same: the same point, priority and value.
    #[tactic(auto, unfolding(crate::specs::ContentEq::content_eq))]
    pub fn is_same_as(&self, other: &Content) -> bool
        ensures { result ≡ content_eq self.now other.now }
    {
        self.point == other.point && self.priority == other.priority && self.value == other.value
    }
}
