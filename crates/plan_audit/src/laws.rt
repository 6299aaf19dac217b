//! Laws of the verdict, for every problem, plan and verdict.
ghost use Rattle.plan_audit.specs.Laws.{PassesAreSound, PassesArePlans, UnsoundIsBroken, PlansPassIffSound, SolutionsPassIffSound, RoutesAreFeasible, RoutesAreJudgedByTrueCost};
ghost use Rattle.plan_audit.specs.Printing.{UsedRoutesAreSound, WholePlansPassPrinted};
ghost use Rattle.plan_audit.specs.Locality.{FeasibleAloneDecidesFeasibility, PassesDecidesTheVerdict, PassingIsLocal, PlansAreDisjointRoutes, PinsAreDistinctStops, SubjectsHaveVerdicts, RoutesHaveAnswers, RoutesMayBeReplaced, VerdictsAreUnique, FeasibilityIsLocal};

use plan_types::{requests_are_found_by_stop, requests_are_stored_by_name};
use route_sched::schedules_agree;

/// Proves that a passing plan or solution is sound. Each planned request is served once, by one vehicle, its
/// pickup before its delivery. No vehicle exceeds its capacity. With time windows, each service starts within
/// its window and each vehicle returns in time.
pub fn a_passing_plan_is_sound()
    ensures { PassesAreSound }
{
    requests_are_found_by_stop();
}

/// Proves that the routes of a passing plan or solution are a plan. Each of them has distinct stops of current
/// requests, as `route_fault`, `plan_cost` and the schedules require.
pub fn routes_that_pass_are_a_plan()
    ensures { PassesArePlans }
{}

/// Proves that the verdict on an unsound plan or solution is `Broken`.
pub fn an_unsound_plan_does_not_pass()
    ensures { UnsoundIsBroken }
{
    requests_are_found_by_stop();
}

/// Proves that a plan passes exactly if it is sound, has one route for each vehicle, and each route begins with
/// its pin.
pub fn plans_pass_iff_sound()
    ensures { PlansPassIffSound }
{
    requests_are_stored_by_name();
    requests_are_found_by_stop();
}

/// Proves that a printed solution passes exactly if it is sound, plans every request, uses no more vehicles
/// than there are, and its printed cost is its distance.
pub fn solutions_pass_iff_sound()
    ensures { SolutionsPassIffSound }
{
    requests_are_stored_by_name();
    requests_are_found_by_stop();
}

/// Proves that routes have the same verdict as a solution that prints them with their true distance. Both pass
/// with the same cost, or both report the same rule at the same place.
pub fn routes_are_judged_by_true_cost()
    ensures { RoutesAreJudgedByTrueCost }
{}

/// Proves that each route is feasible alone if rules 3 to 8 hold.
pub fn routes_that_pass_are_feasible_alone()
    ensures { RoutesAreFeasible }
{}

/// Proves that the test `feasible_alone` of a route is true exactly if the route is feasible alone by the
/// rules. Definitions that compute a value, for example those of moves and commands, use this test and
/// `passes`.
pub fn feasible_alone_decides_feasibility()
    ensures { FeasibleAloneDecidesFeasibility }
{}

/// Proves that the test `passes` of a plan with its pins is true exactly if its verdict is `Pass`.
pub fn passes_decides_the_verdict()
    ensures { PassesDecidesTheVerdict }
{}

/// Proves that a plan passes exactly if its stops are distinct stops of current requests, each vehicle has a
/// route, and each route is feasible alone and begins with its pin. So after a change of some routes only these
/// routes need a check.
pub fn passing_is_local()
    ensures { PassingIsLocal }
{}

/// Proves that routes are a plan exactly if each has distinct stops of current requests and no two share a
/// stop.
pub fn plans_are_disjoint_routes()
    ensures { PlansAreDisjointRoutes }
{}

/// Proves that the pins of a passing plan have distinct stops of current requests.
pub fn pins_are_distinct_stops()
    ensures { PinsAreDistinctStops }
{}

/// Proves that a passing plan still passes after some routes are replaced. The new routes must have distinct
/// stops of current requests, be feasible alone and begin with their pins, and no two routes may share a stop.
pub fn routes_may_be_replaced()
    ensures { RoutesMayBeReplaced }
{}

/// Proves that every plan with its pins and every printed solution has a verdict: it passes, or there is a
/// first violation. Every list of distinct stops of current requests is feasible alone, or there is a first
/// rule that it breaks alone.
pub fn each_plan_has_a_verdict()
    ensures verdicts { SubjectsHaveVerdicts }
    ensures routes { RoutesHaveAnswers }
{}

/// Proves that an audit has only one answer.
pub fn verdicts_are_unique()
    ensures { VerdictsAreUnique }
{}

/// Proves that feasibility of a route alone depends only on the route's own requests.
pub fn feasibility_is_local()
    ensures { FeasibilityIsLocal }
{
    schedules_agree();
}

/// Proves that a sound plan is sound without its empty routes. So a plan that passes and leaves no request out
/// also passes as it is printed: with its nonempty routes and its distance.
pub fn empty_routes_change_no_verdict()
    ensures sound { UsedRoutesAreSound }
    ensures printed { WholePlansPassPrinted }
{
    requests_are_stored_by_name();
    requests_are_found_by_stop();
}
