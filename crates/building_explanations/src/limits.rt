//! The values that lie in a kind, from the least to the greatest.
ghost use Rattle.std.specs.Prelude.{◌≡◌, ℤ};
ghost use Rattle.std.specs.Int.{int_max, int_min};
ghost use Rattle.points.specs.Kind.{is_between, lies_in};

use points::Kind;
use std::fmt;

/// The values from the least to the greatest, both among them.
#[derive(Clone, Copy)]
pub(crate) struct Limits {
    pub least: i64,
    pub greatest: i64,
}

impl Limits {
    /// Every value.
    pub const NONE: Limits = Limits {
        least: i64::MIN,
        greatest: i64::MAX,
    };

    /// The values that lie in a kind.
    pub fn of_kind(kind: Kind) -> Limits
        ensures { (value : ℤ) → is_between result.least result.greatest value ≡ lies_in kind value }
    {
        let (least, greatest) = match kind {
            Kind::Binary => (0, 1),
            Kind::Multistate { states } => (1, states),
            Kind::Analog { low, high } => (low, high),
        };
        Limits { least, greatest }
    }

    /// Whether a value is one of these.
    pub fn has(&self, value: i64) -> bool
        ensures { result ≡ is_between self.now.least self.now.greatest value }
    {
        self.least <= value && value <= self.greatest
    }

    /// The values that are among both of these.
    pub fn both(&self, other: &Limits) -> Limits
        ensures least { result.least ≡ int_max self.now.least other.now.least }
        ensures greatest { result.greatest ≡ int_min self.now.greatest other.now.greatest }
    {
        Limits {
            least: self.least.max(other.least),
            greatest: self.greatest.min(other.greatest),
        }
    }
}

impl fmt::Display for Limits {
    fn fmt<W: fmt::Write>(&self, f: &mut fmt::Formatter<W>) -> fmt::Result {
        let Limits { least, greatest } = self;
        write!(f, "{least} to {greatest}")
    }
}
