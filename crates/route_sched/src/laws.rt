//! Laws of the schedule, for every problem and route.
ghost use Rattle.route_sched.specs.Agreement.{SchedulesAgree};

/// Proves that a route has the same starts, loads and length in two problems with the same depot and the same
/// stops for the route's numbers. The schedule depends on nothing else in a problem.
pub fn schedules_agree()
    ensures { SchedulesAgree }
{}
