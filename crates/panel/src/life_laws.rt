//! Laws of what becomes of what is pressed at a panel, over both ends.
ghost use Rattle.panel.specs.Laws.{AtRestAllIsDone, CommandsAreApplied, CommandsAreFirst, CommandsArePressed};
ghost use Rattle.panel.specs.Laws.{OnlyGivenUpIsMissing, RepliesAreTrue, SentStaysSent, SkipsAreTrue};

/// What is acted on of a panel is what its front has passed; of what its life pressed it is a part, by rising number,
/// each once; what is missing there was given up; where nothing was given up, it is the first of what was pressed.
pub fn commands_are_pressed()
    ensures applied { CommandsAreApplied }
    ensures part { CommandsArePressed }
    ensures missing { OnlyGivenUpIsMissing }
    ensures first { CommandsAreFirst }
{}

/// Each reply that ends a command tells the truth about it; and where each press has had one and nothing was given
/// up, what is acted on is what was pressed.
pub fn replies_are_true()
    ensures replies { RepliesAreTrue }
    ensures skips { SkipsAreTrue }
    ensures at_rest { AtRestAllIsDone }
{}

/// A life goes on, and what it sent stays what it sent.
pub fn life_goes_on()
    ensures { SentStaysSent }
{}
