//! The stops after which a pin may end.
ghost use Rattle.std.specs.Prelude.{◌≡◌};
ghost use Rattle.route_sched.specs.Route.{AreDistinctStops};
ghost use Rattle.plan_timetable.specs.Entries.{pin_may_end};

use plan_audit::is_feasible;
use plan_types::Problem;

/// Returns whether a pin may end after the first `stops` stops of the route: they alone are a feasible route.
pub(crate) fn pin_may_end(problem: &Problem, route: &[u32], stops: u64) -> bool
    requires { AreDistinctStops problem.now route.now }
    ensures { result ≡ pin_may_end problem.now route.now stops }
{
    stops <= route.len() as u64 && is_feasible(problem, &route[..stops as usize])
}
