//! The rules under which a panel's command is refused.
use std::fmt;

/// Why a command is refused (this profile's rules). Of several reasons the first counts, in the order in
/// which they stand here. A rule is printed as its code.
#[derive(Clone, Copy, Debug, PartialEq, Eq)]
pub enum Rule {
    /// X1: the building has no such point.
    NoSuchPoint,
    /// X2: the point is not granted to the panel.
    NotGranted,
    /// X3: the priority is not 1 to 16.
    NoSuchPriority,
    /// X4: the priority is 6, which is for minimum on and off times alone (19.2).
    ReservedPriority,
    /// X5: the priority is not granted to the panel.
    PriorityNotGranted,
    /// X6: the value lies outside the point's kind.
    OutsideKind,
}

impl fmt::Display for Rule {
    ghost use Rattle.std.specs.Prelude.{Some};
    ghost use Rattle.points.specs.RuleCode.{code_of};

    ghost output = { λ rule. Some (code_of rule) };

    fn fmt<W: fmt::Write>(&self, f: &mut fmt::Formatter<W>) -> fmt::Result {
        f.write_str(match self {
            Rule::NoSuchPoint => "X1",
            Rule::NotGranted => "X2",
            Rule::NoSuchPriority => "X3",
            Rule::ReservedPriority => "X4",
            Rule::PriorityNotGranted => "X5",
            Rule::OutsideKind => "X6",
        })
    }
}
