//! An iterator over the places of a route. It allocates nothing, so the auditor needs no list for a route.

ghost use Rattle.std.specs.Prelude.{◌≡◌, ℕ, ◌+◌, ◌≤◌, ◌^◌, ◌+ℤ◌, unsigned_abs};
ghost use Rattle.plan_types.specs.Limits.{IsVisit};
ghost use Rattle.route_sched.specs.Route.{AreDistinctStops};
ghost use Rattle.route_sched.specs.VisitList.{next_visit};

use crate::places::next_stop;
use nint_dist::dist;
use plan_types::{Problem, Stop};
use std::marker::Model;

/// A visit at a place of a route.
#[derive(Clone, Copy, Debug, PartialEq, Eq)]
pub struct Visit {
    /// The stop, or the depot at the return.
    pub stop: Stop,
    /// The time when service starts.
    pub start: u64,
    /// The load after the visit.
    pub load: i64,
    /// The distance from the previous place.
    pub leg: u32,
}

/// The visits of a route: each stop in order, then the return to the depot.
#[derive(Drop)]
pub struct Visits<'a> {
    problem: &'a Problem,
    route: &'a [u32],
    // The vehicle's place on the route, and the visit at this place.
    place: usize,
    last: Visit,
}

impl<'a> Model for Visits<'a> {
    ghost use Rattle.route_sched.specs.VisitsValue.{VisitsValue};

    ghost Value = { VisitsValue };

    ghost use Rattle.route_sched.specs.VisitsState.{visits_value, IsVisitsState};

    ghost view = { visits_value };

    ghost invariant = { IsVisitsState };
}

impl<'a> Visits<'a> {
    /// Returns the visits of a route. Allocates nothing.
    pub fn new(problem: &'a Problem, route: &'a [u32]) -> Visits<'a>
        requires { AreDistinctStops problem.now route.now }
        ensures { result ≡ record { problem = problem.now; route = route.now; place = 0 } }
    {
        let stop = problem.depot;
        let last = Visit {
            stop,
            start: u64::from(stop.earliest),
            load: 0,
            leg: 0,
        };
        Visits {
            problem,
            route,
            place: 0,
            last,
        }
    }
}

impl<'a> Iterator for Visits<'a> {
    type Item = Visit;

    ghost use Rattle.std.specs.Prelude.{IfSome, Some, length};
    ghost use Rattle.std.specs.Iterator.{UpTo, YieldsFirst, at_most, item_count};
    ghost use Rattle.std.specs.Iterator.SizeHint.{IsWithinCount};
    ghost use Rattle.route_sched.specs.VisitList.{visits_from};

    ghost next_gives = { YieldsFirst (λ v. visits_from v.problem v.route v.place) };

    ghost remaining = { item_count (λ v. visits_from v.problem v.route v.place) };

    fn next(&mut self) -> Option<Visit> {
        if self.place > self.route.len() {
            return None;
        }
        let stop = next_stop(self.problem, self.route, self.place);
        self.last = next_visit(&self.last, stop);
        self.place += 1;
        Some(self.last)
    }

    fn size_hint(&self) -> (usize, Option<usize>)
        ensures lower { IsWithinCount result.0
            (at_most (length (visits_from self.now.problem self.now.route self.now.place))) }
        ensures upper { IfSome result.1
            (UpTo (at_most (length (visits_from self.now.problem self.now.route self.now.place)))) }
        ensures exact { let left = length
            (visits_from self.now.problem self.now.route self.now.place)
            in result ≡ (left, Some left) }
    {
        let left = self.route.len() + 1 - self.place;
        (left, Some(left))
    }
}

// Returns the visit of a stop directly after another visit.
fn next_visit(last: &Visit, stop: &Stop) -> Visit
    requires last { IsVisit last.now.stop }
    requires stop { IsVisit stop.now }
    requires start { last.now.start ≤ 2 ^ 60 }
    requires load { unsigned_abs last.now.load ≤ 2 ^ 60 }
    ensures value { result ≡ next_visit last.now stop.now }
    ensures leg { result.leg ≤ 2828427 }
    ensures load { unsigned_abs result.load ≤ unsigned_abs last.now.load + 2 ^ 31 }
{
    let leg = dist(&last.stop, stop);
    let arrival = last.start + u64::from(last.stop.service) + u64::from(leg);
    Visit {
        stop: *stop,
        start: arrival.max(u64::from(stop.earliest)),
        load: load_after(last.load, stop.demand),
        leg,
    }
}

/// Returns the load after a stop with this demand.
pub fn load_after(load: i64, demand: i32) -> i64
    requires { unsigned_abs load ≤ 2 ^ 60 }
    ensures value { result ≡ load +ℤ demand }
    ensures bound { unsigned_abs result ≤ unsigned_abs load + 2 ^ 31 }
{
    load + i64::from(demand)
}
