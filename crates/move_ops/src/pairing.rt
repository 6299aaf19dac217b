//! A check that a route has whole pairs, each pickup before its delivery.
ghost use Rattle.std.specs.Prelude.{◌≡◌, not, true, false};
ghost use Rattle.std.specs.Option.{option_map_or};
ghost use Rattle.plan_types.specs.Instance.{partner_at, pickup_at};
ghost use Rattle.plan_audit.specs.Passes.{has, has_whole_pairs, picks_up_first};
ghost use Rattle.move_ops.specs.WholePairs.{are_paired};

use crate::lists::is_in;
use plan_types::Problem;

/// Returns whether each pair of the route is whole, with its pickup before its delivery.
pub(crate) fn are_paired(problem: &Problem, route: &[u32]) -> bool
    ensures { result ≡ are_paired problem.now route.now }
{
    has_whole_pairs(problem, route) && picks_up_first(problem, route)
}

fn has_whole_pairs(problem: &Problem, route: &[u32]) -> bool
    ensures { result ≡ has_whole_pairs problem.now route.now }
{
    for stop in route {
        if !has_partner(problem, route, *stop) {
            return false;
        }
    }
    true
}

// Returns whether the route has the other stop of the stop's pair, if there is a pair.
fn has_partner(problem: &Problem, route: &[u32], stop: u32) -> bool
    ensures { result ≡ option_map_or (has route.now) (partner_at problem.now stop) true }
{
    match problem.partner_of(stop) {
        Some(partner) => is_in(route, partner),
        None => true,
    }
}

fn picks_up_first(problem: &Problem, route: &[u32]) -> bool
    ensures { result ≡ picks_up_first problem.now route.now }
{
    let mut left = route;
    while let [stop, following @ ..] = left {
        if has_pickup(problem, following, *stop) {
            return false;
        }
        left = following;
    }
    true
}

// Returns whether the pickup of `delivery` is among `stops`. False if `delivery` is not a delivery.
fn has_pickup(problem: &Problem, stops: &[u32], delivery: u32) -> bool
    ensures { result ≡ option_map_or (has stops.now) (pickup_at problem.now delivery) false }
{
    match problem.pickup_of(delivery) {
        Some(pickup) => is_in(stops, pickup),
        None => false,
    }
}
