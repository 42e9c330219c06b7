//! Laws of what one ask becomes in the straight list.
ghost use Rattle.window.specs.StraightenedLaws.{StraightenedByContents, WalkStaysStraight};

/// What one ask becomes leads a panel that is straight to where the ask leads.
pub fn walk_stays_straight()
    ensures { WalkStaysStraight }
{}

/// What one ask becomes follows from the contents that it applies.
pub fn straightened_by_contents()
    ensures { StraightenedByContents }
{}
