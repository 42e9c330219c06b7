//! What follows for whoever delivers again.
ghost use Rattle.deliveries.specs.Laws.{KnownImportChangesNothing, LateTickChangesNothing, LateTickIsOld, SettledOnceIsSettled};

/// A law: schedules that have settled write nothing more at the same moment; a tick that is not later than one
/// before it, and an import that adds nothing, change nothing.
pub fn delivered_again_changes_nothing()
    ensures settled { SettledOnceIsSettled }
    ensures late_tick { LateTickChangesNothing }
    ensures old { LateTickIsOld }
    ensures known_import { KnownImportChangesNothing }
{}
