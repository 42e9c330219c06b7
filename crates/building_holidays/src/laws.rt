//! A law of holiday lists, the contract of a function that does nothing.
ghost use Rattle.building_holidays.specs.ListLaws.{FaultIsTheLeast, RowsAreOfAllRecords};

/// A list has rows exactly where each of its records says one, and they are these; it is at fault exactly
/// where a record is, and the fault is that of the least faulty record.
pub fn all_rows_or_the_least_fault()
    ensures rows { RowsAreOfAllRecords }
    ensures fault { FaultIsTheLeast }
{}
