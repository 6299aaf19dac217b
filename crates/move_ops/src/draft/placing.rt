//! Inserting requests into a draft.
//!
//! The draft keeps one list for the new route and spare memory for its table. Once these are large enough,
//! inserting a request does not allocate. Often the vehicle then has its route of the base again, for example
//! when a request goes back to its old place. In this case the route and table are taken from the log, and
//! nothing is computed.
ghost use Rattle.std.specs.Prelude.{◌≡◌, ◌≤◌, ◌^◌, length, true, false, Some, None, IfSome, IfOk, OnOk, OnErr};
ghost use Rattle.route_sched.specs.Cost.{cost_of, total_length, unplanned_count};
ghost use Rattle.slack_tables.specs.Course.{course_of, course_route};
ghost use Rattle.move_ops.specs.Tables.{AreTablesIn};
ghost use Rattle.move_ops.specs.Changes.{IsInsertable};
ghost use Rattle.move_ops.specs.InsertionSearch.{IsBestWithin};
ghost use Rattle.plan_types.specs.Request.{request_name};
ghost use Rattle.move_ops.specs.Insertion.{best_insertion, is_place_of, inserted_at, request_named, with_request_at, with_route};
ghost use Rattle.route_sched.specs.Route.{AreDistinctStops};
ghost use Rattle.slack_tables.specs.Insertion.{KeepsLimits};
ghost use Rattle.move_ops.specs.UndoLog.{HasRoute};
ghost use Rattle.move_ops.specs.FreshTables.{AreWithin};
ghost use Rattle.move_ops.specs.BoundedPlacement.{IsPlacedBelow};
ghost use Rattle.move_ops.specs.Drafts.{undone, draft_of, base_of, IsDraftOf, IsMade, placed};

use super::Draft;
use crate::insert::{Insertion, are_places, insert_into};
use crate::laws::{best_insertions_are_least, insertion_laws};
use crate::lists::route_of;
use crate::naming::request_named;
use crate::tables::{InsertionContext, Limit, NO_LIMIT, Vehicles, best_within};
use crate::tour::{Tour, tour_of};
use plan_audit::{feasible_alone_decides_feasibility, passing_is_local};
use plan_types::{
    Cost, OutOfMemory, Pins, Problem, Request, Route, numbers_are_below_next_number,
    requests_are_found_by_stop, requests_are_stored_by_name,
};
use std::mem;

// The greatest number of changed vehicles that a best insertion looks at first. If more are changed, as in a
// plan that is built from nothing, it looks at no vehicle first.
const MAX_FIRST: usize = 16;

impl Draft {
    /// Inserts a request at its best place. The draft is unchanged if there is no such place, or if the name is
    /// not of a current, unplanned request.
    pub fn place(&mut self, problem: &Problem, pins: &Pins, name: u32) -> Result<(), OutOfMemory>
        requires { IsDraftOf problem.now pins.now.routes self.old }
        ensures is { OnOk result (IsDraftOf problem.now pins.now.routes self.new) }
        ensures base { OnOk result (base_of self.new ≡ base_of self.old) }
        ensures draft { OnOk result (draft_of self.new
            ≡ placed problem.now pins.now.routes (draft_of self.old) name) }
        ensures err { OnErr result (self.new ≡ self.old) }
    {
        let Some(request) = request_named(problem, name) else {
            return Ok(());
        };
        match self.best(problem, pins, &request) {
            Some(place) => self.put(problem, pins, &request, place),
            None => Ok(()),
        }
    }

    /// Inserts a request at its best place if that opens no vehicle and adds less than `below` to the distance.
    /// Otherwise the draft is unchanged. Returns whether the request was inserted.
    pub fn place_below(
        &mut self,
        problem: &Problem,
        pins: &Pins,
        name: u32,
        below: i64,
    ) -> Result<bool, OutOfMemory>
        requires { IsDraftOf problem.now pins.now.routes self.old }
        ensures is { OnOk result (IsDraftOf problem.now pins.now.routes self.new) }
        ensures base { OnOk result (base_of self.new ≡ base_of self.old) }
        ensures placed { IfOk result (λ made. IsPlacedBelow problem.now pins.now.routes name below
            made (draft_of self.old) (draft_of self.new)) }
        ensures err { OnErr result (self.new ≡ self.old) }
    {
        insertion_laws();
        let Some(request) = request_named(problem, name) else {
            return Ok(false);
        };
        let limit = Limit {
            opens: false,
            below,
        };
        let Some(place) = self.best_within(problem, pins, &request, &limit) else {
            return Ok(false);
        };
        self.put(problem, pins, &request, place)?;
        Ok(true)
    }

    /// Inserts a request into the draft at this place, as `insert_at` does. Returns whether it was inserted.
    pub(crate) fn insert(
        &mut self,
        problem: &Problem,
        pins: &Pins,
        name: u32,
        place: Insertion,
    ) -> Result<bool, OutOfMemory>
        requires { IsDraftOf problem.now pins.now.routes self.old }
        ensures { IfOk result (λ made.
            IsMade (inserted_at problem.now pins.now.routes (draft_of self.old) name place) made
            self.old self.new) }
    {
        let Some(request) = request_named(problem, name) else {
            return Ok(false);
        };
        if !self.can_insert(problem, pins, &request, place)? {
            return Ok(false);
        }
        self.put(problem, pins, &request, place)?;
        Ok(true)
    }

    /// Returns the best insertion of a current request into the draft, as `best_insertion` defines it.
    pub(crate) fn best(
        &self,
        problem: &Problem,
        pins: &Pins,
        request: &Request,
    ) -> Option<Insertion>
        requires is { IsDraftOf problem.now pins.now.routes self.now }
        requires request { request_named problem.now (request_name request.now) ≡ Some request.now }
        ensures best { result ≡ best_insertion problem.now pins.now.routes (draft_of self.now)
            (request_name request.now) }
        ensures put { IfSome result
            (IsInsertable problem.now pins.now.routes (draft_of self.now) request.now) }
    {
        insertion_laws();
        self.best_within(problem, pins, request, &NO_LIMIT)
    }

    // Like `best`, but returns `None` unless the insertion costs less than `limit`.
    fn best_within(
        &self,
        problem: &Problem,
        pins: &Pins,
        request: &Request,
        limit: &Limit,
    ) -> Option<Insertion>
        requires is { IsDraftOf problem.now pins.now.routes self.now }
        requires request { request_named problem.now (request_name request.now) ≡ Some request.now }
        ensures best { IsBestWithin problem.now pins.now.routes (draft_of self.now) request.now
            limit.now result }
        ensures put { IfSome result
            (IsInsertable problem.now pins.now.routes (draft_of self.now) request.now) }
    {
        passing_is_local();
        feasible_alone_decides_feasibility();
        best_insertions_are_least();
        requests_are_found_by_stop();
        requests_are_stored_by_name();
        numbers_are_below_next_number();
        if self.is_planned(request) {
            return None;
        }
        let terms = InsertionContext {
            problem,
            pins: pins.routes.as_slice(),
            limit,
        };
        let vehicles = Vehicles {
            tables: &self.tours,
            max_demands: &self.max_demands,
            end: self.scan_len(),
            first: self.changed_vehicles(),
        };
        best_within(&terms, &vehicles, request)
    }

    // Returns the vehicles that a best insertion looks at first: those that were changed, if they are few.
    fn changed_vehicles(&self) -> &[(u32, Tour)]
        ensures { AreWithin (length self.now.tours) result.now }
    {
        if self.log.len() > MAX_FIRST {
            return &[];
        }
        self.log.as_slice()
    }

    // Returns whether a current request can be inserted at this place: it is unplanned, the place is after the
    // pin, and the result passes.
    fn can_insert(
        &self,
        problem: &Problem,
        pins: &Pins,
        request: &Request,
        place: Insertion,
    ) -> Result<bool, OutOfMemory>
        requires is { IsDraftOf problem.now pins.now.routes self.now }
        requires request { request_named problem.now (request_name request.now) ≡ Some request.now }
        ensures put { IfOk result (λ can. can ≡ true
            → IsInsertable problem.now pins.now.routes (draft_of self.now) request.now place) }
        ensures none { IfOk result (λ can. can ≡ false → inserted_at problem.now pins.now.routes
            (draft_of self.now) (request_name request.now) place ≡ None) }
    {
        passing_is_local();
        feasible_alone_decides_feasibility();
        requests_are_found_by_stop();
        requests_are_stored_by_name();
        numbers_are_below_next_number();
        if self.is_planned(request) {
            return Ok(false);
        }
        if !self.is_place_of(pins.routes.as_slice(), request, place) {
            return Ok(false);
        }
        let Insertion {
            vehicle,
            pickup,
            delivery,
        } = place;
        let mut route = Vec::new(*self.tours.allocator());
        insert_into(&mut route, request, pickup, delivery, self.route(vehicle))?;
        Ok(tour_of(&self.tours, vehicle).is_feasible(problem, &route))
    }

    // Returns whether the request can have this place, which must be after the pin of its vehicle.
    fn is_place_of(&self, pins: &[Route], request: &Request, place: Insertion) -> bool
        ensures { result ≡ is_place_of pins.now (draft_of self.now) request.now place }
    {
        let Insertion {
            vehicle,
            pickup,
            delivery,
        } = place;
        if vehicle < 1 || (self.tours.len() as u64) < vehicle {
            return false;
        }
        let kept = route_of(pins, vehicle).len() as u64;
        let stops = self.route(vehicle).len() as u64;
        are_places(request, kept, stops, pickup, delivery)
    }

    // Inserts the request into the draft at a place where it can be inserted.
    fn put(
        &mut self,
        problem: &Problem,
        pins: &Pins,
        request: &Request,
        place: Insertion,
    ) -> Result<(), OutOfMemory>
        requires is { IsDraftOf problem.now pins.now.routes self.old }
        requires put { IsInsertable problem.now pins.now.routes (draft_of self.old) request.now place }
        ensures is { OnOk result (IsDraftOf problem.now pins.now.routes self.new) }
        ensures base { OnOk result (base_of self.new ≡ base_of self.old) }
        ensures draft { OnOk result (draft_of self.new
            ≡ with_request_at (draft_of self.old) request.now place) }
        ensures err { OnErr result (self.new ≡ self.old) }
    {
        let Insertion {
            vehicle,
            pickup,
            delivery,
        } = place;
        let mut route = mem::replace(&mut self.room, Vec::new(*self.tours.allocator()));
        insert_into(&mut route, request, pickup, delivery, self.route(vehicle))?;
        let unplanned = self.cost.unplanned - 1;
        self.cost = self.set_route(problem, vehicle as u32, &route, unplanned)?;
        self.room = route;
        Ok(())
    }

    // Replaces the route of a vehicle. Returns the cost of the draft, with `unplanned` as the number of
    // unplanned requests. A move often restores the route of the base: then its tour is taken from the log.
    fn set_route(
        &mut self,
        problem: &Problem,
        vehicle: u32,
        route: &[u32],
        unplanned: u64,
    ) -> Result<Cost, OutOfMemory>
        requires tables { AreTablesIn problem.now self.old.tours }
        requires base { AreTablesIn problem.now (undone self.old.tours self.old.log) }
        requires cost { self.old.cost ≡ cost_of problem.now (draft_of self.old) }
        requires from_one { 1 ≤ vehicle }
        requires within { vehicle ≤ length self.old.tours }
        requires route { AreDistinctStops problem.now route.now }
        requires limits { KeepsLimits problem.now route.now }
        requires small { total_length problem.now
            (with_route (draft_of self.old) vehicle route.now) ≤ 2 ^ 63 }
        requires unplanned { unplanned ≡ unplanned_count problem.now
            (with_route (draft_of self.old) vehicle route.now) }
        ensures cost { IfOk result (λ cost. cost ≡ cost_of problem.now
            (with_route (draft_of self.old) vehicle route.now)) }
        ensures set { OnOk result
            (HasRoute problem.now self.old self.new vehicle route.now) }
        ensures err { OnErr result (self.new ≡ self.old) }
    {
        if let Some(entry) = self.entry_of(vehicle) {
            let base = &self.log[entry].1;
            if base.stops() == route {
                let cost = self.cost_with(problem, vehicle, base, unplanned);
                self.undo(entry);
                return Ok(cost);
            }
        }
        let tour = self.new_tour(problem, vehicle, route)?;
        let cost = self.cost_with(problem, vehicle, &tour, unplanned);
        self.set_tour(vehicle, tour);
        Ok(cost)
    }

    // Returns the cost of the draft after `vehicle` gets the tour `tour`, if `unplanned` requests are then left
    // out.
    fn cost_with(&self, problem: &Problem, vehicle: u32, tour: &Tour, unplanned: u64) -> Cost
        requires tables { AreTablesIn problem.now self.now.tours }
        requires cost { self.now.cost ≡ cost_of problem.now (draft_of self.now) }
        requires from_one { 1 ≤ vehicle }
        requires within { vehicle ≤ length self.now.tours }
        requires course { course_of problem.now (course_route tour.now) ≡ tour.now }
        requires small { total_length problem.now
            (with_route (draft_of self.now) vehicle (course_route tour.now)) ≤ 2 ^ 63 }
        requires unplanned { unplanned ≡ unplanned_count problem.now
            (with_route (draft_of self.now) vehicle (course_route tour.now)) }
        ensures { result ≡ cost_of problem.now
            (with_route (draft_of self.now) vehicle (course_route tour.now)) }
    {
        let old = self.distance_of(problem, vehicle);
        Cost {
            unplanned,
            vehicles: self.vehicle_count_with(problem, vehicle, tour, self.cost.vehicles),
            distance: self.cost.distance - old + tour.table().distance(),
        }
    }
}
