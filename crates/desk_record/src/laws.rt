//! What follows for a delivery that is made once more, and for a line that a stop tears.
ghost use Rattle.desk_record.specs.Again.{TwiceLeavesTheTables};
ghost use Rattle.desk_record.specs.Torn.{EachBeginningMayBeTorn};

/// The same delivery twice in a row leaves the tables that it leaves once.
pub fn twice_leaves_the_tables()
    ensures { TwiceLeavesTheTables }
{}

/// Each beginning of a line that is written may be torn: `resume` doesn't refuse a file for it.
pub fn each_beginning_may_be_torn()
    ensures { EachBeginningMayBeTorn }
{}
