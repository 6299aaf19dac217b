//! Rules 3 to 8 for a list of stops, as if it were the only route of a plan. A pair cannot be split then.
//!
//! These functions allocate nothing, so unlike an audit they have no table of first positions. They search the
//! list for each partner instead.
ghost use Rattle.std.specs.Prelude.{◌≡◌, ◌∷◌, [], ◌<◌, MatchOption};
ghost use Rattle.route_sched.specs.Route.{AreDistinctStops};
ghost use Rattle.plan_audit.specs.FirstFault.{first_place_fault, position_of, missing_at, early_delivery_at};
ghost use Rattle.plan_audit.specs.Passes.{feasible_alone};
ghost use Rattle.plan_audit.specs.Alone.{IsFeasibleAlone, IsFaultAlone, IsFirstBrokenAlone};

use crate::faults::{PlaceFault, first_place_fault};
use crate::first_positions::StopPosition;
use crate::laws::feasible_alone_decides_feasibility;
use crate::pairs::{early_delivery, missing_partner};
use crate::rules::Rule;
use crate::timing::{late_return, late_stop, overload};
use plan_types::{Kind, Problem};

/// Returns the number of the first of the rules 3 to 8 that these stops break as the only route, or `None` if
/// the list is feasible alone. The caller guarantees that the stops belong to current requests and are
/// distinct. Allocates nothing, and so searches the list for the other stop of each pair, which takes quadratic
/// time.
pub fn route_fault(problem: &Problem, route: &[u32]) -> Option<u32>
    requires { AreDistinctStops problem.now route.now }
    ensures { MatchOption result (IsFeasibleAlone problem.now route.now)
        (IsFaultAlone problem.now route.now) }
{
    match first_broken_alone(problem, route) {
        Some(rule) => Some(rule.number()),
        None => None,
    }
}

/// Returns whether the list is feasible alone: as the only route it breaks none of the rules 3 to 8. The caller
/// guarantees that the stops belong to current requests and are distinct. Takes as long as `route_fault` and
/// allocates nothing either.
pub fn is_feasible(problem: &Problem, route: &[u32]) -> bool
    requires { AreDistinctStops problem.now route.now }
    ensures { result ≡ feasible_alone problem.now route.now }
{
    feasible_alone_decides_feasibility();
    route_fault(problem, route).is_none()
}

// Returns the first of the rules 3 to 8 that the list breaks as the only route. A pair cannot be split if there
// is only one route.
fn first_broken_alone(problem: &Problem, route: &[u32]) -> Option<Rule>
    requires { AreDistinctStops problem.now route.now }
    ensures { MatchOption result (IsFeasibleAlone problem.now route.now)
        (IsFirstBrokenAlone problem.now route.now) }
{
    if missing_alone(problem, route).is_some() {
        return Some(Rule::MissingStop);
    }
    if early_delivery_alone(problem, route).is_some() {
        return Some(Rule::EarlyDelivery);
    }
    if overload(problem, route).is_some() {
        return Some(Rule::Load);
    }
    match problem.kind {
        Kind::LiLim => {}
        Kind::Vrp => return None,
    }
    if late_stop(problem, route).is_some() {
        return Some(Rule::Late);
    }
    if late_return(problem, route).is_some() {
        return Some(Rule::LateReturn);
    }
    None
}

// Returns the first stop whose partner is not in the list.
fn missing_alone(problem: &Problem, route: &[u32]) -> Option<PlaceFault>
    ensures { result ≡ first_place_fault (λ _ n. missing_at problem.now (route.now ∷ []) n) 0 route.now }
{
    first_place_fault(route, |_, stop| missing_stop(problem, route, stop))
}

fn missing_stop(problem: &Problem, route: &[u32], stop: u32) -> Option<u32>
    ensures { result ≡ missing_at problem.now (route.now ∷ []) stop }
{
    missing_partner(problem, stop, |other| position_alone(route, other))
}

// Returns the first delivery whose pickup is later in the list.
fn early_delivery_alone(problem: &Problem, route: &[u32]) -> Option<PlaceFault>
    ensures { result ≡ first_place_fault (early_delivery_at problem.now (route.now ∷ [])) 0 route.now }
{
    first_place_fault(route, |place, stop| {
        early_delivery_at(problem, route, place, stop)
    })
}

fn early_delivery_at(problem: &Problem, route: &[u32], place: usize, stop: u32) -> Option<u32>
    ensures { result ≡ early_delivery_at problem.now (route.now ∷ []) place stop }
{
    early_delivery(problem, place, stop, |other| position_alone(route, other))
}

// Returns the first position of a stop in the list.
fn position_alone(route: &[u32], stop: u32) -> Option<StopPosition>
    ensures { result ≡ position_of (route.now ∷ []) stop }
{
    let place = route.iter().position(|other| *other == stop)?;
    Some(StopPosition { route: 0, place })
}
