//! Rules 6 to 8, on loads and times. Each is checked by one pass along each route and without allocating.
//!
//! Routes that keep all three rules need only one pass: `cost_within_limits` checks each visit and sums the
//! distances. If it returns `None`, the rules are checked one after another, so that the first violation is
//! reported.
ghost use Rattle.std.specs.Prelude.{◌≡◌, ℕ, ◌^◌, ◌<◌, ◌+◌, Bool, IfSome, All, length};
ghost use Rattle.route_sched.specs.Cost.{cost_of, unplanned_count};
ghost use Rattle.route_sched.specs.Limits.{is_too_late, exceeds_capacity};
ghost use Rattle.route_sched.specs.Route.{AreDistinctStops};
ghost use Rattle.route_sched.specs.Schedule.{start, route_length};
ghost use Rattle.route_sched.specs.declared.visits.Visit.{Visit};
ghost use Rattle.plan_audit.specs.FirstFault.{first_place_fault, FindsFirstFault, place_fault_by, late_return_fault, visit_fault, is_overloaded, is_late, breaks_window, breaks_limits, KeepsLimits};
ghost use Rattle.plan_audit.specs.Verdict.{Subject, routes_of, KeepsRules};

use crate::faults::{Fault, PlaceFault, first_fault};
use plan_types::{Cost, Kind, Problem, Route};
use route_sched::{Visit, Visits, exceeds_capacity, is_too_late, vehicle_count};

/// Returns the cost of routes that keep rules 6 to 8, with one pass over each route. The caller has counted the
/// unplanned requests. `None` means that the routes may break a rule.
pub(crate) fn cost_within_limits(
    problem: &Problem,
    routes: &[Route],
    unplanned: u64,
) -> Option<Cost>
    requires live { All (AreDistinctStops problem.now) routes.now }
    requires counted { unplanned ≡ unplanned_count problem.now routes.now }
    ensures kept { IfSome result (λ _. (s : Subject) → routes_of s ≡ routes.now
        → KeepsRules 6 8 problem.now s) }
    ensures cost { IfSome result (λ cost. cost ≡ cost_of problem.now routes.now) }
{
    let mut distance: u64 = 0;
    for route in routes {
        // If the sum overflowed, the result would be `None` too, so no bound on the distances is needed.
        distance = distance.checked_add(distance_within_limits(problem, route.as_slice())?)?;
    }
    Some(Cost {
        unplanned,
        vehicles: vehicle_count(problem.kind, routes),
        distance,
    })
}

// Returns the distance of a route that keeps rules 6 to 8. The return is checked like a stop: the depot has no
// demand and no service, so this check is no stricter than the rules. An empty route has distance 0.
fn distance_within_limits(problem: &Problem, route: &[u32]) -> Option<u64>
    requires { AreDistinctStops problem.now route.now }
    ensures kept { IfSome result (λ _. KeepsLimits problem.now route.now) }
    ensures length { IfSome result (λ length. length ≡ route_length problem.now route.now) }
{
    if route.is_empty() {
        return Some(0);
    }
    let mut length: u64 = 0;
    for visit in Visits::new(problem, route) {
        if breaks_limits(problem, &visit) {
            return None;
        }
        length = length.checked_add(u64::from(visit.leg))?;
    }
    Some(length)
}

// Returns whether a visit breaks a rule on loads or times.
fn breaks_limits(problem: &Problem, visit: &Visit) -> bool
    ensures { result ≡ breaks_limits problem.now visit.now }
{
    is_overloaded(visit, problem.capacity) || breaks_window(problem.kind, visit)
}

// Returns whether service starts too late in a problem with time windows.
fn breaks_window(kind: Kind, visit: &Visit) -> bool
    ensures { result ≡ breaks_window kind visit.now }
{
    match kind {
        Kind::LiLim => is_late(visit),
        Kind::Vrp => false,
    }
}

/// Finds the first stop of the plan after which the load exceeds the capacity.
pub(crate) fn first_overload(problem: &Problem, routes: &[Route]) -> Option<Fault>
    requires { All (AreDistinctStops problem.now) routes.now }
    ensures { FindsFirstFault
        (place_fault_by (λ _ route i n. visit_fault problem.now (is_overloaded problem.now) route i n))
        routes.now result }
{
    first_fault(routes, |_, route| overload(problem, route))
}

/// Finds the first stop of the plan whose service starts too late.
pub(crate) fn first_late(problem: &Problem, routes: &[Route]) -> Option<Fault>
    requires { All (AreDistinctStops problem.now) routes.now }
    ensures { FindsFirstFault
        (place_fault_by (λ _ route i n. visit_fault problem.now is_late route i n)) routes.now result }
{
    first_fault(routes, |_, route| late_stop(problem, route))
}

/// Finds the first vehicle of the plan that returns too late, and reports the place after its last stop.
pub(crate) fn first_late_return(problem: &Problem, routes: &[Route]) -> Option<Fault>
    requires { All (AreDistinctStops problem.now) routes.now }
    ensures { FindsFirstFault (λ _ route. late_return_fault problem.now route) routes.now result }
{
    first_fault(routes, |_, route| late_return(problem, route))
}

/// Returns the place of the return if the vehicle leaves the depot and returns too late.
pub(crate) fn late_return(problem: &Problem, route: &[u32]) -> Option<PlaceFault>
    requires { AreDistinctStops problem.now route.now }
    ensures reported { result ≡ late_return_fault problem.now route.now }
    ensures fits { IfSome result (λ t. t.place + 1 < 2 ^ 64) }
{
    if route.is_empty() || !returns_late(problem, route) {
        return None;
    }
    Some(PlaceFault {
        place: route.len(),
        stop: 0,
    })
}

/// Finds the first stop after which the load exceeds the capacity.
pub(crate) fn overload(problem: &Problem, route: &[u32]) -> Option<PlaceFault>
    requires { AreDistinctStops problem.now route.now }
    ensures reported { result ≡ first_place_fault
        (visit_fault problem.now (is_overloaded problem.now) route.now) 0 route.now }
    ensures fits { IfSome result (λ t. t.place + 1 < 2 ^ 64) }
{
    let capacity = problem.capacity;
    first_visit(problem, route, |visit| is_overloaded(&visit, capacity))
}

fn is_overloaded(visit: &Visit, capacity: u32) -> bool
    ensures { result ≡ exceeds_capacity visit.now.load capacity }
{
    exceeds_capacity(visit.load, capacity)
}

/// Finds the first stop whose service starts too late.
pub(crate) fn late_stop(problem: &Problem, route: &[u32]) -> Option<PlaceFault>
    requires { AreDistinctStops problem.now route.now }
    ensures reported { result ≡ first_place_fault (visit_fault problem.now is_late route.now) 0 route.now }
    ensures fits { IfSome result (λ t. t.place + 1 < 2 ^ 64) }
{
    first_visit(problem, route, |visit| is_late(&visit))
}

fn is_late(visit: &Visit) -> bool
    ensures { result ≡ is_late visit.now }
{
    is_too_late(visit.start, visit.stop.latest)
}

// Finds the first stop for whose visit `fails` returns true.
fn first_visit<F: Fn(Visit) -> bool>(
    problem: &Problem,
    route: &[u32],
    fails: F,
) -> Option<PlaceFault>
    requires once { AreDistinctStops problem.now route.now }
    requires callable { F.IsAlwaysCallable fails }
    ensures reported { (test : Visit → Bool) → ((v : Visit) (b : Bool) → F.post fails v b → b ≡ test v)
        → result ≡ first_place_fault (visit_fault problem.now test route.now) 0 route.now }
    ensures fits { IfSome result (λ t. t.place + 1 < 2 ^ 64) }
{
    let mut visits = Visits::new(problem, route);
    for (place, stop) in route.iter().enumerate() {
        let Some(visit) = visits.next() else {
            break;
        };
        if fails(visit) {
            return Some(PlaceFault { place, stop: *stop });
        }
    }
    None
}

// Returns whether the vehicle returns after the depot's latest time.
fn returns_late(problem: &Problem, route: &[u32]) -> bool
    requires { AreDistinctStops problem.now route.now }
    ensures { result ≡ is_too_late (start problem.now route.now (length route.now + 1))
        problem.now.depot.latest }
{
    is_too_late(return_time(problem, route), problem.depot.latest)
}

// Returns the time when the vehicle is back at the depot.
fn return_time(problem: &Problem, route: &[u32]) -> u64
    requires { AreDistinctStops problem.now route.now }
    ensures { result ≡ start problem.now route.now (length route.now + 1) }
{
    match Visits::new(problem, route).nth(route.len()) {
        Some(visit) => visit.start,
        None => unreachable!(),
    }
}
