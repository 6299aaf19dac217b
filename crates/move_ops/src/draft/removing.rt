//! Removing requests from a draft.
//!
//! A removal looks only at the routes in which the requests' stops are: a stop is in one route at most. All
//! stops of a request leave together, so the other pairs stay whole and only the limits are checked. Hardly any
//! removal breaks a limit, so a route is checked while its table is built in spare memory
//! (`Tour::into_rebuilt_if_feasible`). So the limits take no pass of their own. If the route is refused, the
//! memory of the table is freed.
ghost use Rattle.std.specs.Prelude.{◌≡◌, ◌≤◌, ◌+◌, ◌∷◌, [], length, nat_eq, true, false, ℕ, All, IsSome, IfSome, IfOk, OnOk, OnErr, MatchOption};
ghost use Rattle.route_sched.specs.Cost.{has_stop, is_planned};
ghost use Rattle.move_ops.specs.Changes.{changes_of, distinct_count, removals, with_routes, AreCourses, AreIn, AreToursOf, AreVehiclesToChange, IsChange, IsRemoval, Collects};
ghost use Rattle.move_ops.specs.Moves.{removed, without_named, is_of_named, is_movable_name};
ghost use Rattle.std.specs.List.{concat, list_all, IsDistinct};
ghost use Rattle.plan_types.specs.declared.limits.TheConstants.{MAX_FLEET};
ghost use Rattle.plan_types.specs.Request.{stop_in};
ghost use Rattle.plan_audit.specs.Passes.{feasible_alone, has};
ghost use Rattle.route_sched.specs.Route.{AreDistinctStops};
ghost use Rattle.move_ops.specs.WholePairs.{are_paired};
ghost use Rattle.move_ops.specs.Tables.{AreTablesIn};
ghost use Rattle.std.specs.Option.{option_map};
ghost use Rattle.move_ops.specs.Drafts.{draft_of, base_of, IsDraftOf, IsMade};

use super::Draft;
use crate::facts::problem_keeps_limits;
use crate::lists::is_in;
use crate::naming::request_named;
use crate::removal::keep_others;
use crate::tour::Tour;
use crate::vehicle_hints::clear_hint;
use plan_audit::{feasible_alone_decides_feasibility, passing_is_local, plans_are_disjoint_routes};
use plan_types::{
    OutOfMemory, Pins, Problem, Request, requests_are_found_by_stop, requests_are_stored_by_name,
};
use std::mem;

impl Draft {
    /// Removes the requests from the draft, as `remove` in `plan_moves` does. Returns whether they were removed.
    pub fn remove(
        &mut self,
        problem: &Problem,
        pins: &Pins,
        names: &[u32],
    ) -> Result<bool, OutOfMemory>
        requires { IsDraftOf problem.now pins.now.routes self.old }
        ensures is { OnOk result (IsDraftOf problem.now pins.now.routes self.new) }
        ensures base { OnOk result (base_of self.new ≡ base_of self.old) }
        ensures draft { IfOk result (λ made.
            IsMade (removed problem.now pins.now.routes (draft_of self.old) names.now) made
            self.old self.new) }
        ensures err { OnErr result (self.new ≡ self.old) }
    {
        match self.removing(problem, pins, names)? {
            Some(tours) => {
                self.install_removal(problem, pins, names, tours);
                Ok(true)
            }
            None => Ok(false),
        }
    }

    // Replaces the tours of some vehicles by tours without the stops of these requests.
    fn install_removal(
        &mut self,
        problem: &Problem,
        pins: &Pins,
        names: &[u32],
        tours: Vec<(u32, Tour)>,
    )
        requires is { IsDraftOf problem.now pins.now.routes self.old }
        requires courses { AreCourses problem.now tours.items }
        requires change { IsChange problem.now pins.now.routes
            (draft_of self.old) (changes_of tours.items)
            (self.old.cost.unplanned + distinct_count names.now) }
        requires names { with_routes (draft_of self.old) (changes_of tours.items)
            ≡ without_named problem.now names.now (draft_of self.old) }
        ensures is { IsDraftOf problem.now pins.now.routes self.new }
        ensures base { base_of self.new ≡ base_of self.old }
        ensures draft { draft_of self.new
            ≡ with_routes (draft_of self.old) (changes_of tours.items) }
    {
        let unplanned = self.cost.unplanned + distinct_count(names);
        self.install(problem, pins, tours, unplanned);
        self.clear_named(problem, names);
    }

    // Clears the hints of the stops of these requests. No route has these stops.
    fn clear_named(&mut self, problem: &Problem, names: &[u32])
        requires { (n : ℕ) → is_of_named problem.now names.now n ≡ true
            → has_stop (draft_of self.old) n ≡ false }
        ensures { self.new ≡ self.old }
    {
        requests_are_found_by_stop();
        problem_keeps_limits(problem);
        for name in names {
            if let Some(request) = request_named(problem, *name) {
                self.clear_request(&request);
            }
        }
    }

    fn clear_request(&mut self, request: &Request)
        requires { (n : ℕ) → IsSome (stop_in n request.now)
            → has_stop (draft_of self.old) n ≡ false }
        ensures { self.new ≡ self.old }
    {
        match request {
            Request::Single(stop) => self.clear(stop.number),
            Request::Pair(pickup, delivery) => {
                self.clear(pickup.number);
                self.clear(delivery.number);
            }
        }
    }

    fn clear(&mut self, stop: u32)
        requires { has_stop (draft_of self.old) stop ≡ false }
        ensures { self.new ≡ self.old }
    {
        clear_hint(&mut self.vehicle_hints, stop);
    }

    // Returns the tours without these requests, if the plan with them passes. The pairs of these tours are
    // whole, since all stops of a request leave together. A route is checked while its table is built, since
    // hardly any removal breaks a limit.
    fn removing(
        &mut self,
        problem: &Problem,
        pins: &Pins,
        names: &[u32],
    ) -> Result<Option<Vec<(u32, Tour)>>, OutOfMemory>
        requires { IsDraftOf problem.now pins.now.routes self.old }
        ensures routes { IfOk result
            (λ o. option_map (λ ts. with_routes (draft_of self.old) (changes_of ts.items)) o
            ≡ removed problem.now pins.now.routes (draft_of self.old) names.now) }
        ensures tours { IfOk result (λ o. IfSome o (λ ts. IsRemoval problem.now pins.now.routes
            (draft_of self.old) names.now self.old.cost.unplanned ts.items)) }
        ensures same { self.new ≡ self.old }
    {
        passing_is_local();
        plans_are_disjoint_routes();
        feasible_alone_decides_feasibility();
        requests_are_stored_by_name();
        requests_are_found_by_stop();
        let Some(vehicles) = self.vehicles_of(problem, pins, names)? else {
            return Ok(None);
        };
        self.tours_without(problem, names, &vehicles)
    }

    // Returns the tours of these vehicles without the stops of the named requests, or `None` if one of the
    // routes is not feasible by itself. The caller guarantees that pairs stay whole.
    fn tours_without(
        &mut self,
        problem: &Problem,
        names: &[u32],
        vehicles: &[u64],
    ) -> Result<Option<Vec<(u32, Tour)>>, OutOfMemory>
        requires tables { AreTablesIn problem.now self.old.tours }
        requires few { length self.old.tours ≤ MAX_FLEET }
        requires within { AreIn (draft_of self.old) vehicles.now }
        requires once { All (λ c. AreDistinctStops problem.now c.route)
            (removals problem.now names.now (draft_of self.old) vehicles.now) }
        requires pairs { All (λ c. are_paired problem.now c.route ≡ true)
            (removals problem.now names.now (draft_of self.old) vehicles.now) }
        ensures tours { IfOk result (λ o. MatchOption o
            (list_all (λ c. feasible_alone problem.now c.route)
            (removals problem.now names.now (draft_of self.old) vehicles.now) ≡ false)
            (λ tours. (list_all (λ c. feasible_alone problem.now c.route)
            (removals problem.now names.now (draft_of self.old) vehicles.now) ≡ true)
            × AreToursOf problem.now
            (removals problem.now names.now (draft_of self.old) vehicles.now) tours.items)) }
        ensures same { self.new ≡ self.old }
    {
        let alloc = *self.tours.allocator();
        let mut tours = Vec::with_capacity(alloc, vehicles.len())?;
        let mut route = mem::replace(&mut self.room, Vec::new(alloc));
        for vehicle in vehicles {
            keep_others(&mut route, problem, names, self.route(*vehicle))?;
            let Some(tour) = self.feasible_tour(problem, *vehicle as u32, &route)? else {
                return Ok(None);
            };
            tours.push((*vehicle as u32, tour))?;
        }
        self.room = route;
        Ok(Some(tours))
    }

    // Returns the vehicles of the named requests' stops, if each of these requests can be moved.
    fn vehicles_of(
        &self,
        problem: &Problem,
        pins: &Pins,
        names: &[u32],
    ) -> Result<Option<Vec<u64>>, OutOfMemory>
        requires draft { IsDraftOf problem.now pins.now.routes self.now }
        requires once { IsDistinct nat_eq (concat (draft_of self.now)) }
        ensures { IfOk result (λ o. MatchOption o
            (list_all (is_movable_name problem.now pins.now.routes (draft_of self.now)) names.now
            ≡ false)
            (λ vehicles. AreVehiclesToChange problem.now pins.now.routes (draft_of self.now)
            names.now vehicles.items)) }
    {
        let mut vehicles = Vec::with_capacity(*self.tours.allocator(), names.len())?;
        for name in names {
            if !self.collect_vehicles_of(problem, pins, *name, &mut vehicles)? {
                return Ok(None);
            }
        }
        Ok(Some(vehicles))
    }

    // Adds the vehicles of the request's stops if the request can be moved. Returns whether it can.
    fn collect_vehicles_of(
        &self,
        problem: &Problem,
        pins: &Pins,
        name: u32,
        vehicles: &mut Vec<u64>,
    ) -> Result<bool, OutOfMemory>
        requires draft { IsDraftOf problem.now pins.now.routes self.now }
        requires once { IsDistinct nat_eq (concat (draft_of self.now)) }
        ensures movable { IfOk result (λ is. is
            ≡ is_movable_name problem.now pins.now.routes (draft_of self.now) name) }
        ensures noted { IfOk result (λ is. is ≡ true → Collects (draft_of self.now)
            (λ n. is_of_named problem.now (name ∷ []) n ≡ true)
            vehicles.old.items vehicles.new.items) }
    {
        requests_are_stored_by_name();
        let Some(request) = request_named(problem, name) else {
            return Ok(false);
        };
        if self.is_pinned(problem, pins, &request) {
            return Ok(false);
        }
        self.collect_vehicles(&request, vehicles)
    }

    /// Adds the vehicles of the request's stops to the list. Returns whether a route has a stop of the request,
    /// that is, whether the request is planned.
    pub(crate) fn collect_vehicles(
        &self,
        request: &Request,
        vehicles: &mut Vec<u64>,
    ) -> Result<bool, OutOfMemory>
        requires { IsDistinct nat_eq (concat (draft_of self.now)) }
        ensures planned { IfOk result (λ is. is ≡ is_planned (draft_of self.now) request.now) }
        ensures noted { OnOk result (Collects (draft_of self.now)
            (λ n. IsSome (stop_in n request.now)) vehicles.old.items vehicles.new.items) }
    {
        match request {
            Request::Single(stop) => self.collect_vehicle(stop.number, vehicles),
            Request::Pair(pickup, delivery) => {
                let is_picked_up = self.collect_vehicle(pickup.number, vehicles)?;
                let is_delivered = self.collect_vehicle(delivery.number, vehicles)?;
                Ok(is_picked_up || is_delivered)
            }
        }
    }

    // Adds the vehicle of the stop to the list. Returns whether the stop is in a route.
    fn collect_vehicle(&self, stop: u32, vehicles: &mut Vec<u64>) -> Result<bool, OutOfMemory>
        requires { IsDistinct nat_eq (concat (draft_of self.now)) }
        ensures planned { IfOk result (λ is. is ≡ has_stop (draft_of self.now) stop) }
        ensures noted { OnOk result (Collects (draft_of self.now) (λ n. n ≡ stop)
            vehicles.old.items vehicles.new.items) }
    {
        let vehicle = self.vehicle_of(stop);
        if vehicle == 0 {
            return Ok(false);
        }
        if is_among(vehicles, vehicle) {
            return Ok(true);
        }
        vehicles.push(vehicle)?;
        Ok(true)
    }
}

// Returns how many different names there are.
fn distinct_count(names: &[u32]) -> u64
    ensures count { result ≡ distinct_count names.now }
    ensures few { result ≤ length names.now }
{
    let mut count = 0;
    let mut left = names;
    while let [name, others @ ..] = left {
        if !is_in(others, *name) {
            count += 1;
        }
        left = others;
    }
    count
}

fn is_among(vehicles: &[u64], vehicle: u64) -> bool
    ensures { result ≡ has vehicles.now vehicle }
{
    vehicles.contains(&vehicle)
}
