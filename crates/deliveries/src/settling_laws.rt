//! A law of settling: what it leaves in each place, and of each schedule.
ghost use Rattle.deliveries.specs.SettlingLaws.{EachPlaceHolds, EachScheduleShows};

/// Afterwards a place holds the value of the last due schedule in file order that targets it; where there is none,
/// nothing if one that leaves and releases targets it, else what it held. Each active schedule shows its value, and
/// each other one is quiet.
pub fn settling_leaves_what_the_rule_says()
    ensures places { EachPlaceHolds }
    ensures schedules { EachScheduleShows }
{}
