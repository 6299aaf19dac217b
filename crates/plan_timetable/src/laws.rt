//! The meaning of a latest start, as a law without code.
ghost use Rattle.plan_timetable.specs.Laws.{LatestStartsAreGreatest};

/// States that the latest start of a place is the greatest one from which neither this service nor a later one
/// nor the return is late.
pub fn latest_starts_are_greatest()
    ensures { LatestStartsAreGreatest }
{}
