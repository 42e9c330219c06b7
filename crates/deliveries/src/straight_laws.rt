//! Laws of the straight list.
ghost use Rattle.deliveries.specs.StraightLaws.{StraightIsSameMachine, StraightIsSameTables, StraightUsesNoTolerance};

/// The machine does the same: the events are those of the list, each import cut to the rows that it adds.
pub fn straight_is_same_machine()
    ensures { StraightIsSameMachine }
{}

/// The tables are the same, kept answers included.
pub fn straight_is_same_tables()
    ensures { StraightIsSameTables }
{}

/// No repeat, no gap, no late or early delivery: each one does something at once, but for the last group, which is
/// parked.
pub fn straight_uses_no_tolerance()
    ensures { StraightUsesNoTolerance }
{}
