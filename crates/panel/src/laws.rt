//! Laws of runs, each a contract of a function that does nothing.
ghost use Rattle.panel.specs.Upheld.{NamedIsSent, SentStaysSent};

/// A run goes on, and what it sent stays what it sent.
pub fn sent_stays_sent()
    ensures { SentStaysSent }
{}

/// What `due` named at any time of a run was sent by it: so a list in which each of the panel's deliveries was named,
/// or lies below the run's first number, is one of those that the contract of `in_flight` speaks of.
pub fn named_is_sent()
    ensures { NamedIsSent }
{}
