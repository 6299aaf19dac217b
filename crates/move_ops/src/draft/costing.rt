//! The cost of a draft after an exchange or a 2-opt*, computed before the move is made and checked.
//!
//! Few moves are accepted. The legs that a move changes give its exact cost, which rules out most of them before
//! any route is built. Nothing is computed if vehicles count (Li-Lim), nor for pairs, nor for an exchange within
//! one route.
ghost use Rattle.std.specs.Prelude.{◌≡◌, ◌≤◌, ◌+◌, ◌^◌, IfSome, Some, slice_get};
ghost use Rattle.plan_types.specs.Limits.{IsVisit};
ghost use Rattle.nint_dist.specs.Distance.{distance, HasValidCoordinates};
ghost use Rattle.move_ops.specs.Drafts.{draft_of, IsDraftOf};
ghost use Rattle.move_ops.specs.MoveCosts.{IsCostIfMade};
ghost use Rattle.move_ops.specs.Legs.{distance_via, distance_across, IsCutOf, IsCostWithLegs, IsSinglePlace, IsSinglePlaceOf};
ghost use Rattle.move_ops.specs.Insertion.{route_of};
ghost use Rattle.move_ops.specs.Moves.{exchanged, crossed};

use super::Draft;
use super::rearranging::{Cut, Cuts};
use crate::naming::request_named;
use nint_dist::dist;
use plan_audit::passing_is_local;
use plan_types::{
    Cost, Kind, Pins, Problem, Request, Stop, requests_are_found_by_stop,
    requests_are_stored_by_name,
};

// The place of a single in a draft. Indices count from 0.
#[derive(Clone, Copy)]
struct SinglePlace {
    stop: Stop,
    vehicle: u64,
    index: usize,
}

impl Draft {
    /// Returns the cost of the draft after `exchange`, if that move makes a plan. `None` means that the cost is
    /// not known.
    pub fn exchange_cost(&self, problem: &Problem, pins: &Pins, a: u32, b: u32) -> Option<Cost>
        requires { IsDraftOf problem.now pins.now.routes self.now }
        ensures { IfSome result (λ cost. IsCostIfMade problem.now
            (exchanged problem.now pins.now.routes (draft_of self.now) a b) cost) }
    {
        passing_is_local();
        requests_are_found_by_stop();
        requests_are_stored_by_name();
        if problem.kind != Kind::Vrp {
            return None;
        }
        let first = self.single_place(problem, pins, a)?;
        let second = self.single_place(problem, pins, b)?;
        if first.vehicle == second.vehicle {
            return None;
        }
        let before = self.distance_via(problem, pins, &first, &first.stop)
            + self.distance_via(problem, pins, &second, &second.stop);
        let after = self.distance_via(problem, pins, &first, &second.stop)
            + self.distance_via(problem, pins, &second, &first.stop);
        self.cost_with_legs(before, after)
    }

    // Returns the place of a single if the vehicle hint of its stop is right.
    fn single_place(&self, problem: &Problem, pins: &Pins, name: u32) -> Option<SinglePlace>
        requires { IsDraftOf problem.now pins.now.routes self.now }
        ensures { IfSome result (λ place. IsSinglePlaceOf problem.now (draft_of self.now) name place) }
    {
        let Some(Request::Single(stop)) = request_named(problem, name) else {
            return None;
        };
        let vehicle = u64::from(*self.vehicle_hints.get(stop.number as usize)?);
        let index = place_of(self.route(vehicle), stop.number)?;
        Some(SinglePlace {
            stop,
            vehicle,
            index,
        })
    }

    // Returns the distance from the stop before the place `place` to `stop`, and on to the stop after that
    // place.
    fn distance_via(&self, problem: &Problem, pins: &Pins, place: &SinglePlace, stop: &Stop) -> u64
        requires is { IsDraftOf problem.now pins.now.routes self.now }
        requires single_at { IsSinglePlace (draft_of self.now) place.now }
        requires stop { IsVisit stop.now }
        ensures value { result ≡ distance_via problem.now
            (route_of (draft_of self.now) place.now.vehicle) place.now.index stop.now }
        ensures bound { result ≤ 2 ^ 33 }
    {
        let table = self.table(place.vehicle);
        // Proves that the route has few stops, so that the number of the next place does not overflow.
        let _few = table.stop_count();
        let before = table.stop(place.index);
        let following = table.stop(place.index + 2);
        leg_length(before, stop) + leg_length(stop, following)
    }

    /// Returns the cost of the draft after `cross`, if that move makes a plan. `None` means that the cost is not
    /// known.
    pub fn cross_cost(
        &self,
        problem: &Problem,
        pins: &Pins,
        a: u64,
        a_cut: u64,
        b: u64,
        b_cut: u64,
    ) -> Option<Cost>
        requires { IsDraftOf problem.now pins.now.routes self.now }
        ensures { IfSome result (λ cost. IsCostIfMade problem.now
            (crossed problem.now pins.now.routes (draft_of self.now) a a_cut b b_cut) cost) }
    {
        passing_is_local();
        if problem.kind != Kind::Vrp {
            return None;
        }
        let cuts = Cuts::of(a, a_cut, b, b_cut);
        if !self.are_crossable(pins, cuts) {
            return None;
        }
        let Cuts { first, second } = cuts;
        let before = self.distance_across(problem, pins, first, first)
            + self.distance_across(problem, pins, second, second);
        let after = self.distance_across(problem, pins, first, second)
            + self.distance_across(problem, pins, second, first);
        self.cost_with_legs(before, after)
    }

    // Returns the distance from the last stop before the cut `from` to the first stop after the cut `to`. The
    // cuts may be the same.
    fn distance_across(&self, problem: &Problem, pins: &Pins, from: Cut, to: Cut) -> u64
        requires is { IsDraftOf problem.now pins.now.routes self.now }
        requires from { IsCutOf (draft_of self.now) from }
        requires to { IsCutOf (draft_of self.now) to }
        ensures value { result ≡ distance_across problem.now
            (route_of (draft_of self.now) from.vehicle) from.stops
            (route_of (draft_of self.now) to.vehicle) (to.stops + 1) }
        ensures bound { result ≤ 2 ^ 32 }
    {
        let last = self.table(from.vehicle).stop(from.stops as usize);
        let table = self.table(to.vehicle);
        // Proves that the route has few stops, so that the number of the next place does not overflow.
        let _few = table.stop_count();
        let next = table.stop(to.stops as usize + 1);
        leg_length(last, next)
    }

    // Returns the cost of the draft if legs with the total length `before` are replaced by legs with the total
    // length `after`.
    fn cost_with_legs(&self, before: u64, after: u64) -> Option<Cost>
        ensures { IfSome result (λ cost. IsCostWithLegs self.now.cost before after cost) }
    {
        let distance = self.cost.distance.checked_add(after)?.checked_sub(before)?;
        Some(Cost {
            unplanned: self.cost.unplanned,
            vehicles: self.cost.vehicles,
            distance,
        })
    }
}

// Returns the index of a stop in a route.
fn place_of(route: &[u32], stop: u32) -> Option<usize>
    ensures { IfSome result (λ index. slice_get route.now index ≡ Some stop) }
{
    for index in 0..route.len() {
        if route[index] == stop {
            return Some(index);
        }
    }
    None
}

// Returns the distance between two stops.
fn leg_length(from: &Stop, to: &Stop) -> u64
    requires from { HasValidCoordinates from.now }
    requires to { HasValidCoordinates to.now }
    ensures value { result ≡ distance from.now to.now }
    ensures bound { result ≤ 2 ^ 32 }
{
    u64::from(dist(from, to))
}
