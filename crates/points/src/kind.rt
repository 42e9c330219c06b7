//! The kinds of value that a point can have.
ghost use Rattle.std.specs.Prelude.{◌≡◌};
ghost use Rattle.points.specs.Kind.{lies_in};

/// How many states a multistate point has at most (this profile's limit).
pub const MOST_STATES: i64 = 1_000;

/// The least `low` of an analog point, in hundredths of its unit (this profile's limit).
pub const LEAST_ANALOG: i64 = -1_000_000_000;

/// The greatest `high` of an analog point, in hundredths of its unit (this profile's limit).
pub const GREATEST_ANALOG: i64 = 1_000_000_000;

/// The kind of a point, and so the values that may stand in it. Every kind accepts NULL.
#[derive(Clone, Copy)]
pub enum Kind {
    /// 0 inactive, 1 active.
    Binary,
    /// 1 to the number of states, which is 1 to `MOST_STATES`.
    Multistate { states: i64 },
    /// Whole hundredths of the point's unit, `low` and `high` included, both from `LEAST_ANALOG` to
    /// `GREATEST_ANALOG`.
    Analog { low: i64, high: i64 },
}

impl Kind {
    /// Whether a value, other than NULL, lies in the kind.
    pub fn admits(&self, value: i64) -> bool
        ensures { result ≡ lies_in self.now value }
    {
        match *self {
            Kind::Binary => 0 <= value && value <= 1,
            Kind::Multistate { states } => 1 <= value && value <= states,
            Kind::Analog { low, high } => low <= value && value <= high,
        }
    }
}
