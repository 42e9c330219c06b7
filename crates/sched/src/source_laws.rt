//! What follows of the source of a value, and of its next change.
ghost use Rattle.sched.specs.NextLaws.{NextChangeIsTheFirst};
ghost use Rattle.sched.specs.SourceLaws.{IndexIsOfTheException, SourceHasTheValue};

/// A law: the index is that of the exception that `sched` chooses, and the source has the schedule's value.
pub fn source_has_the_value()
    ensures index { IndexIsOfTheException }
    ensures value { SourceHasTheValue }
{}

/// A law: the next change is at the first later time of the day at which the schedule's value is another, and where
/// there is none, the value stands to the end of the day.
pub fn next_change_is_the_first()
    ensures { NextChangeIsTheFirst }
{}
