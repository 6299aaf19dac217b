//! Rules 1 to 5, checked by the first position of each stop, and the requests in no route.
ghost use Rattle.std.specs.Prelude.{◌≡◌, ℕ, ◌^◌, ◌+◌, ◌<◌, ◌≤◌, vec_len, List, None, Option, All, IfOk, IfSome, slice_index_or, slice_get};
ghost use Rattle.std.specs.Option.{option_and_then};
ghost use Rattle.plan_audit.specs.FirstFault.{first_place_fault, FindsFirstFault, place_fault_by, first_unserved, unserved_in, position_of, unknown_at, repeated_at, missing_at, split_at, early_delivery_at};
ghost use Rattle.route_sched.specs.Cost.{has_stop, is_planned, unplanned_count};
ghost use Rattle.plan_types.specs.Instance.{IsInstance};
ghost use Rattle.plan_types.specs.Laws.{IsBelowNext};

use crate::faults::{Fault, PlaceFault, first_fault, first_place_fault};
use crate::first_positions::{StopPosition, first_positions};
use crate::pairs::{early_delivery, missing_partner};
use plan_types::{OutOfMemory, Problem, Request, Route, numbers_are_below_next_number};
use std::alloc::Global;

/// A plan under audit, with the first position of each stop number.
#[derive(Drop)]
pub(crate) struct Scan<'a> {
    pub problem: &'a Problem,
    pub routes: &'a [Route],
    first_positions: Vec<Option<StopPosition>>,
    ghost sized: { problem.now.next_number ≤ vec_len first_positions },
    ghost seated: { (n : ℕ) → n < vec_len first_positions
        → slice_index_or first_positions.items n None ≡ position_of routes.now n },
}

impl<'a> Scan<'a> {
    /// Records the first positions of the stops in these routes.
    pub(crate) fn new(
        alloc: Global,
        problem: &'a Problem,
        routes: &'a [Route],
    ) -> Result<Scan<'a>, OutOfMemory>
        ensures made { IfOk result (λ scan. (scan.problem.now ≡ problem.entry.now)
            × (scan.routes.now ≡ routes.entry.now)) }
        ensures valid { IfOk result (λ scan. IsInstance scan.problem.now) }
    {
        let first_positions = first_positions(alloc, problem.next_number as usize, routes)?;
        Ok(Scan {
            problem,
            routes,
            first_positions,
        })
    }
}

impl Scan<'_> {
    // Returns the first position of a stop number of the problem.
    fn first_position(&self, stop: u32) -> Option<StopPosition>
        ensures { stop < self.now.problem.now.next_number
            → result ≡ position_of self.now.routes.now stop }
    {
        self.first_positions
            .as_slice()
            .get(stop as usize)
            .copied()
            .flatten()
    }

    /// Finds the first stop of the plan that belongs to no request.
    pub(crate) fn first_unknown(&self) -> Option<Fault>
        ensures { FindsFirstFault
            (place_fault_by (λ _ _ _ n. unknown_at self.now.problem.now self.now.routes.now n))
            self.now.routes.now result }
    {
        first_fault(self.routes, |_, route| self.unknown(route))
    }

    /// Finds the first stop of the plan that is at an earlier place too.
    pub(crate) fn first_repeated(&self) -> Option<Fault>
        requires { All (λ route. All (λ n. n < self.now.problem.now.next_number) route)
            self.now.routes.now }
        ensures { FindsFirstFault
            (place_fault_by (λ r _ i n. repeated_at self.now.problem.now self.now.routes.now r i n))
            self.now.routes.now result }
    {
        first_fault(self.routes, |number, route| self.repeated(number, route))
    }

    /// Finds the first stop of the plan whose partner is in no route, and reports the partner.
    pub(crate) fn first_missing(&self) -> Option<Fault>
        ensures { FindsFirstFault
            (place_fault_by (λ _ _ _ n. missing_at self.now.problem.now self.now.routes.now n))
            self.now.routes.now result }
    {
        first_fault(self.routes, |_, route| self.missing(route))
    }

    /// Finds the first stop of the plan whose partner is in another route.
    pub(crate) fn first_split(&self) -> Option<Fault>
        ensures { FindsFirstFault
            (place_fault_by (λ r _ _ n. split_at self.now.problem.now self.now.routes.now r n))
            self.now.routes.now result }
    {
        first_fault(self.routes, |number, route| self.split(number, route))
    }

    /// Finds the first delivery of the plan whose pickup is later in its route.
    pub(crate) fn first_early_delivery(&self) -> Option<Fault>
        ensures { FindsFirstFault
            (place_fault_by (λ _ _ i n. early_delivery_at self.now.problem.now self.now.routes.now i n))
            self.now.routes.now result }
    {
        first_fault(self.routes, |_, route| self.early_delivery_in(route))
    }

    /// Returns the lowest name of a request with no stop in any route.
    pub(crate) fn first_unserved(&self) -> Option<u32>
        ensures { result ≡ first_unserved self.now.routes.now self.now.problem.now.requests }
    {
        let problem = self.problem;
        for index in 0..problem.requests.len() {
            if let Some(name) = self.unserved_at(index) {
                return Some(name);
            }
        }
        None
    }

    /// Returns the number of requests with no stop in any route.
    pub(crate) fn unplanned(&self) -> u64
        ensures { result ≡ unplanned_count self.now.problem.now self.now.routes.now }
    {
        let problem = self.problem;
        let mut unplanned = 0;
        for index in 0..problem.requests.len() {
            if self.unserved_at(index).is_some() {
                unplanned += 1;
            }
        }
        unplanned
    }

    // Returns the name of the request at this index if it is not planned.
    fn unserved_at(&self, index: usize) -> Option<u32>
        ensures { result ≡ option_and_then (unserved_in self.now.routes.now)
            (slice_get self.now.problem.now.requests index) }
    {
        numbers_are_below_next_number();
        let problem = self.problem;
        let (name, request) = problem.requests.get_index(index)?;
        if self.is_planned(request) {
            None
        } else {
            Some(*name)
        }
    }

    fn is_planned(&self, request: &Request) -> bool
        ensures { IsBelowNext self.now.problem.now request.now
            → result ≡ is_planned self.now.routes.now request.now }
    {
        match request {
            Request::Single(stop) => self.has_stop(stop.number),
            Request::Pair(pickup, delivery) => {
                self.has_stop(pickup.number) || self.has_stop(delivery.number)
            }
        }
    }

    // Returns whether a route has the stop.
    fn has_stop(&self, stop: u32) -> bool
        ensures { stop < self.now.problem.now.next_number
            → result ≡ has_stop self.now.routes.now stop }
    {
        self.first_position(stop).is_some()
    }

    // Finds the first stop of a route that belongs to no request.
    fn unknown(&self, route: &[u32]) -> Option<PlaceFault>
        ensures reported { result ≡ first_place_fault
            (λ _ n. unknown_at self.now.problem.now self.now.routes.now n) 0 route.now }
        ensures fits { IfSome result (λ t. t.place + 1 < 2 ^ 64) }
    {
        first_place_fault(route, |_, stop| match self.problem.stop(stop) {
            Some(_) => None,
            None => Some(stop),
        })
    }

    // Finds the first stop of a route that is at an earlier place too.
    fn repeated(&self, number: usize, route: &[u32]) -> Option<PlaceFault>
        requires { All (λ n. n < self.now.problem.now.next_number) route.now }
        ensures reported { result ≡ first_place_fault
            (repeated_at self.now.problem.now self.now.routes.now number) 0 route.now }
        ensures fits { IfSome result (λ t. t.place + 1 < 2 ^ 64) }
    {
        first_place_fault(route, |place, stop| self.repeated_stop(number, place, stop))
    }

    fn repeated_stop(&self, number: usize, place: usize, stop: u32) -> Option<u32>
        ensures { stop < self.now.problem.now.next_number
            → result ≡ repeated_at self.now.problem.now self.now.routes.now number place stop }
    {
        let first_position = self.first_position(stop)?;
        if first_position.route == number && first_position.place == place {
            None
        } else {
            Some(stop)
        }
    }

    // Finds the first stop of a route whose partner is in no route.
    fn missing(&self, route: &[u32]) -> Option<PlaceFault>
        ensures reported { result ≡ first_place_fault
            (λ _ n. missing_at self.now.problem.now self.now.routes.now n) 0 route.now }
        ensures fits { IfSome result (λ t. t.place + 1 < 2 ^ 64) }
    {
        first_place_fault(route, |_, stop| self.missing_stop(stop))
    }

    fn missing_stop(&self, stop: u32) -> Option<u32>
        ensures { result ≡ missing_at self.now.problem.now self.now.routes.now stop }
    {
        missing_partner(self.problem, stop, |stop| self.first_position(stop))
    }

    // Finds the first stop of a route whose partner is in another route.
    fn split(&self, number: usize, route: &[u32]) -> Option<PlaceFault>
        ensures reported { result ≡ first_place_fault
            (λ _ n. split_at self.now.problem.now self.now.routes.now number n) 0 route.now }
        ensures fits { IfSome result (λ t. t.place + 1 < 2 ^ 64) }
    {
        first_place_fault(route, |_, stop| self.split_stop(number, stop))
    }

    fn split_stop(&self, number: usize, stop: u32) -> Option<u32>
        ensures { result ≡ split_at self.now.problem.now self.now.routes.now number stop }
    {
        let first_position = self.first_position(self.problem.partner_of(stop)?)?;
        if first_position.route == number {
            None
        } else {
            Some(stop)
        }
    }

    // Finds the first delivery of a route whose pickup is later.
    fn early_delivery_in(&self, route: &[u32]) -> Option<PlaceFault>
        ensures reported { result ≡ first_place_fault
            (early_delivery_at self.now.problem.now self.now.routes.now) 0 route.now }
        ensures fits { IfSome result (λ t. t.place + 1 < 2 ^ 64) }
    {
        first_place_fault(route, |place, stop| self.early_delivery_at(place, stop))
    }

    fn early_delivery_at(&self, place: usize, stop: u32) -> Option<u32>
        ensures { result ≡ early_delivery_at self.now.problem.now self.now.routes.now place stop }
    {
        early_delivery(self.problem, place, stop, |stop| self.first_position(stop))
    }
}
