//! Checks that a plan from elsewhere passes with the pins of a job, without allocating.
//!
//! The auditor allocates a table of the first position of each stop, but `check` may not allocate. So each stop
//! is compared with all later ones, in quadratic time.
ghost use Rattle.std.specs.Prelude.{◌≡◌, ◌++◌, ◌&&◌, All, is_some};
ghost use Rattle.std.specs.List.{concat, list_all};
ghost use Rattle.plan_types.specs.Instance.{stop_at};
ghost use Rattle.route_sched.specs.Route.{AreDistinctStops};
ghost use Rattle.plan_audit.specs.Passes.{are_distinct, are_distinct_stops, begin_with_pins, feasible_alone, passes};

use plan_audit::{is_feasible, plans_are_disjoint_routes};
use plan_types::{Problem, Route};
use route_sched::has_stop;

/// Returns whether these routes pass as a plan of the problem with these pins. Allocates nothing; its time is
/// quadratic in the number of stops.
#[tactic(auto, using(crate::proofs::PlanCheckLemmas::in_parts))]
pub(crate) fn is_passing(problem: &Problem, pins: &[Route], routes: &[Route]) -> bool
    ensures { result ≡ passes problem.now pins.now routes.now }
{
    plans_are_disjoint_routes();
    if !are_distinct_stops(problem, routes) {
        return false;
    }
    routes.len() == problem.fleet as usize
        && are_feasible(problem, routes)
        && begin_with_pins(routes, pins)
}

// Returns whether each stop belongs to a request and none occurs twice.
#[tactic(auto, using(crate::proofs::PlanCheckLemmas::all_of_joined))]
fn are_distinct_stops(problem: &Problem, routes: &[Route]) -> bool
    ensures { result ≡ are_distinct_stops problem.now (concat routes.now) }
{
    are_all_known(problem, routes) && are_distinct(routes)
}

fn are_all_known(problem: &Problem, routes: &[Route]) -> bool
    ensures { result ≡ list_all (list_all (λ n. is_some (stop_at problem.now n))) routes.now }
{
    routes
        .iter()
        .all(|route| are_known_in(problem, route.as_slice()))
}

fn are_known_in(problem: &Problem, route: &[u32]) -> bool
    ensures { result ≡ list_all (λ n. is_some (stop_at problem.now n)) route.now }
{
    route.iter().all(|stop| problem.stop(*stop).is_some())
}

// Returns whether no stop occurs twice.
fn are_distinct(routes: &[Route]) -> bool
    ensures { result ≡ are_distinct (concat routes.now) }
{
    let mut left = routes;
    while let [route, following @ ..] = left {
        if !are_distinct_from_later(route.as_slice(), following) {
            return false;
        }
        left = following;
    }
    true
}

// Returns whether no stop of the route occurs again, later in this route or in a later one.
fn are_distinct_from_later(route: &[u32], later: &[Route]) -> bool
    ensures { are_distinct (route.now ++ concat later.now)
        ≡ (result && are_distinct (concat later.now)) }
{
    let mut left = route;
    while let [stop, following @ ..] = left {
        if following.contains(stop) || has_stop(later, *stop) {
            return false;
        }
        left = following;
    }
    true
}

// Returns whether each route is feasible by itself.
fn are_feasible(problem: &Problem, routes: &[Route]) -> bool
    requires { All (AreDistinctStops problem.now) routes.now }
    ensures { result ≡ list_all (feasible_alone problem.now) routes.now }
{
    for route in routes {
        if !is_feasible(problem, route.as_slice()) {
            return false;
        }
    }
    true
}

// Returns whether each route begins with its pin. A vehicle without a route must have an empty pin.
fn begin_with_pins(routes: &[Route], pins: &[Route]) -> bool
    ensures { result ≡ begin_with_pins routes.now pins.now }
{
    let mut left = routes;
    for pin in pins {
        let pin = pin.as_slice();
        match left {
            [route, following @ ..] if route.as_slice().starts_with(pin) => left = following,
            [] if pin.is_empty() => {}
            _ => return false,
        }
    }
    true
}
