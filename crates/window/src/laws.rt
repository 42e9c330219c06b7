//! Laws of the numbering, each a contract of a function that does nothing.
ghost use Rattle.window.specs.Laws.{FrontIsLeastMissing, FrontNeverFalls, NoKeyPastWindow, NoRunPastWindow, RefusedChangesNothing, SkipAppliesParkedAndGivesUpMissing};

/// The front is the least number, at or above what was given up, that was not accepted.
pub fn front_is_least_missing()
    ensures { FrontIsLeastMissing }
{}

/// Whatever a panel asks, its front never falls.
pub fn front_never_falls()
    ensures { FrontNeverFalls }
{}

/// A command that is not accepted leaves what was accepted, and so the front.
pub fn refused_changes_nothing()
    ensures { RefusedChangesNothing }
{}

/// No command is accepted at or past the front plus the window.
pub fn no_key_past_window()
    ensures { NoKeyPastWindow }
{}

/// A skip applies what was parked below it, and gives up exactly the missing numbers below it.
pub fn skip_applies_parked_and_gives_up_missing()
    ensures { SkipAppliesParkedAndGivesUpMissing }
{}

/// No view has more rows in its run than the window has numbers.
pub fn no_run_past_window()
    ensures { NoRunPastWindow }
{}
