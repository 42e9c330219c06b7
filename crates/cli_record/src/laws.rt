//! What it means that no difference is found.
ghost use Rattle.cli_record.specs.Agreeing.{NoDifferenceWhereTablesAgree, NoPlaceWherePointsAgree};

/// There is no difference just where the tables agree at the names of the building: in the next numbers, in the rows
/// under the numbers that a panel may still repeat or use, in the places of each point, in what schedules show, in the
/// entries of calendars, and in the last tick.
pub fn no_difference_where_tables_agree()
    ensures { NoDifferenceWhereTablesAgree }
{}

/// No place of a point is the first that differs, just where each point has one value or none in each of its places on
/// both sides.
pub fn no_place_where_points_agree()
    ensures { NoPlaceWherePointsAgree }
{}
