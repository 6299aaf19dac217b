//! A plan that is changed in place: the base plan, and a draft made from it.
//!
//! The log keeps the route and table that each changed vehicle had in the base, once per vehicle. Discarding
//! the draft puts them back; accepting it clears the log. The moves are in the files of `draft/`. A removal
//! allocates two short lists, of vehicles and of their tours; an exchange and a 2-opt* allocate a few. A move
//! allocates everything before its first change, and the log has room for every vehicle from the start. So if
//! an allocation fails, the draft is unchanged.
//!
//! Besides the routes, the draft keeps the following data, so that the time of a step does not grow with the
//! fleet:
//! - `used_len`: the length of the used part of the plan. No vehicle after it has a stop. Best insertions look
//!   at the vehicles of the used part and at the next one, which represents all idle vehicles. A request that
//!   opens a vehicle takes the first idle one, so few vehicles of the used part are empty;
//! - `vehicle_hints`: for each stop, the vehicle to look at first. 0 says that no route has the stop, which is
//!   an invariant. Any other number is a hint that may be stale, so it is checked;
//! - `max_demands`: for each vehicle, the greatest demand that a single may have. A single with a greater
//!   demand fits nowhere into the route, so best insertions skip full vehicles without reading their tables;
//! - `cost`: a change updates the distance and the number of used vehicles from the routes that it replaces. A
//!   removal adds the number of its names to the unplanned requests (a repeated name counts once); placing a
//!   request subtracts one.
//!
//! Each call takes the problem and the pins. `IsDraftOf` ties them to the draft, so the type borrows nothing.
ghost use Rattle.std.specs.Prelude.{◌≡◌, ◌≤◌, ◌<◌, ◌-◌, ◌==◌, not, true, false, ℕ, List, [], Some, IfOk, MatchOption, IsTrue, length, slice_get, slice_set, slice_index_or, vec_capacity};
ghost use Rattle.std.specs.List.{remove};
ghost use Rattle.slack_tables.specs.Course.{Course, course_route, IsCourseIn};
ghost use Rattle.plan_types.specs.Instance.{Instance};
ghost use Rattle.plan_audit.specs.Passes.{passes};
ghost use Rattle.route_sched.specs.Cost.{cost_of, has_stop, is_planned};
ghost use Rattle.move_ops.specs.Insertion.{route_of};
ghost use Rattle.move_ops.specs.Moves.{is_movable};
ghost use Rattle.move_ops.specs.Changes.{IsVehicleWith};
ghost use Rattle.move_ops.specs.InsertionSearch.{IsScanLen};
ghost use Rattle.move_ops.specs.Drafts.{AreIdleAfter, DraftState, undone, draft_of, base_of, IsDraftOf};
ghost use Rattle.move_ops.specs.UndoLog.{is_logged, IsEntry};
ghost use Rattle.move_ops.specs.FreshTables.{AreWithin};

mod costing;
mod installing;
mod placing;
mod rearranging;
mod removing;

use crate::laws::plans_pass_without_pins;
use crate::lists::is_in;
use crate::max_demands::{max_demands_of, set_max_demand};
use crate::tour::{Tour, swap};
use crate::tours::{routes_of, tours_of, used_len_of, vehicle_hints_of, vehicle_with};
use crate::vehicle_hints::{marks, set_hints};
use plan_audit::passing_is_local;
use plan_types::{Cost, OutOfMemory, Pins, Plan, Problem, Request};
use route_sched::{has_stop, plan_cost};
use slack_tables::RouteTable;
use std::alloc::Global;
use std::marker::Model;

/// A base plan, and a draft made from it by changes in place. The moves change the draft, which is then
/// discarded or becomes the base. Neither can fail for lack of memory.
#[derive(Debug, Drop)]
pub struct Draft {
    tours: Vec<Tour>,
    // No vehicle after the first `used_len` has a stop.
    used_len: usize,
    // The tours of the base for the vehicles that changed, each vehicle once. Its capacity suffices for all
    // vehicles.
    log: Vec<(u32, Tour)>,
    // Spare memory for tours and for a route.
    spare: Vec<Tour>,
    room: Vec<u32>,
    // By stop number: 0 if no route of the draft has the stop, else the vehicle to look at first.
    vehicle_hints: Vec<u32>,
    // By stop number: whether the stop is pinned.
    pinned: Vec<bool>,
    // By vehicle: the greatest demand that a single may have.
    max_demands: Vec<i64>,
    cost: Cost,
    base_cost: Cost,
}

impl Model for Draft {
    ghost use Rattle.move_ops.specs.Changes.{IsVehicleWith};
    ghost use Rattle.move_ops.specs.Drafts.{DraftState};
    ghost use Rattle.move_ops.specs.DraftInvariant.{draft_state, IsDraftInvariant};

    ghost Value = { DraftState };

    ghost view = { draft_state };

    ghost invariant = { IsDraftInvariant };
}

impl Draft {
    /// Builds the tables of a plan. The plan is both the base and the draft.
    pub fn build(
        alloc: Global,
        problem: &Problem,
        pins: &Pins,
        plan: &Plan,
    ) -> Result<Draft, OutOfMemory>
        requires { passes problem.now pins.now.routes plan.now.routes ≡ true }
        ensures is { IfOk result (λ d. IsDraftOf problem.now pins.now.routes d) }
        ensures base { IfOk result (λ d. base_of d ≡ plan.now.routes) }
        ensures draft { IfOk result (λ d. draft_of d ≡ plan.now.routes) }
    {
        passing_is_local();
        plans_pass_without_pins();
        let len = problem.next_number as usize;
        let tours = tours_of(alloc, problem, plan.routes.as_slice())?;
        let log = Vec::with_capacity(alloc, tours.len())?;
        let used_len = used_len_of(&tours, tours.len());
        let vehicle_hints = vehicle_hints_of(alloc, &tours, len)?;
        let pinned = marks(alloc, pins.routes.as_slice(), len)?;
        let max_demands = max_demands_of(alloc, &tours)?;
        let cost = plan_cost(problem, plan);
        Ok(Draft {
            tours,
            used_len,
            log,
            spare: Vec::new(alloc),
            room: Vec::new(alloc),
            vehicle_hints,
            pinned,
            max_demands,
            cost,
            base_cost: cost,
        })
    }

    /// Makes the draft the new base. Cannot fail.
    pub fn accept(&mut self)
        ensures base { base_of self.new ≡ draft_of self.old }
        ensures draft { draft_of self.new ≡ draft_of self.old }
        ensures is { (p : Instance) (pins : List (List ℕ)) → IsDraftOf p pins self.old
            → IsDraftOf p pins self.new }
    {
        clear_log(&mut self.log, &mut self.spare);
        self.base_cost = self.cost;
        self.used_len = used_len_of(&self.tours, self.used_len);
    }

    /// Undoes all changes, so that the draft is the base again. Cannot fail.
    pub fn discard(&mut self)
        ensures base { base_of self.new ≡ base_of self.old }
        ensures draft { draft_of self.new ≡ base_of self.old }
        ensures is { (p : Instance) (pins : List (List ℕ)) → IsDraftOf p pins self.old
            → IsDraftOf p pins self.new }
    {
        while self.is_changed() {
            let newest = self.log.len() - 1;
            self.undo(newest);
        }
        self.cost = self.base_cost;
    }

    /// Returns a plan with a copy of the draft's routes.
    pub fn plan(&self, alloc: Global) -> Result<Plan, OutOfMemory>
        ensures { IfOk result (λ plan. plan.routes ≡ draft_of self.now) }
    {
        Ok(Plan {
            routes: routes_of(alloc, &self.tours)?,
        })
    }

    /// Returns the route of a vehicle in the draft, or an empty one if there is no such vehicle. Vehicles count
    /// from 1.
    pub fn route(&self, vehicle: u64) -> &[u32]
        ensures { result.now ≡ route_of (draft_of self.now) vehicle }
    {
        if vehicle == 0 {
            return &[];
        }
        let index = (vehicle - 1) as usize;
        if self.tours.len() <= index {
            return &[];
        }
        self.tours[index].stops()
    }

    /// Returns the table of a vehicle's route in the draft. Vehicles count from 1. The caller guarantees that
    /// the vehicle exists.
    #[inline(always)]
    pub fn table(&self, vehicle: u64) -> &RouteTable
        requires from_one { 1 ≤ vehicle }
        requires within { vehicle ≤ length (draft_of self.now) }
        ensures route { course_route result.now ≡ route_of (draft_of self.now) vehicle }
        ensures course { (p : Instance) (pins : List (List ℕ)) → IsDraftOf p pins self.now
            → IsCourseIn p result.now }
    {
        self.tours[(vehicle - 1) as usize].table()
    }

    /// Returns the length of the used part of the draft: no vehicle after it has a stop.
    pub fn used_len(&self) -> u64
        ensures within { result ≤ length (draft_of self.now) }
        ensures idle { AreIdleAfter result (draft_of self.now) }
    {
        self.used_len as u64
    }

    /// Returns how many vehicles a best insertion looks at: the used part and, if there is one, the next
    /// vehicle. The next vehicle has no stops and represents all later ones.
    pub(crate) fn scan_len(&self) -> usize
        ensures within { result ≤ length self.now.tours }
        ensures scan_len { IsScanLen (draft_of self.now) result }
    {
        let vehicles = self.tours.len();
        if self.used_len < vehicles {
            return self.used_len + 1;
        }
        vehicles
    }

    /// Returns whether a stop of the request is in the draft and no stop of the request is pinned.
    pub fn is_movable(&self, problem: &Problem, pins: &Pins, request: &Request) -> bool
        requires { IsDraftOf problem.now pins.now.routes self.now }
        ensures { result ≡ is_movable pins.now.routes (draft_of self.now) request.now }
    {
        self.is_planned(request) && !self.is_pinned(problem, pins, request)
    }

    /// Returns whether a stop of the request is pinned.
    pub fn is_pinned(&self, problem: &Problem, pins: &Pins, request: &Request) -> bool
        requires { IsDraftOf problem.now pins.now.routes self.now }
        ensures { result ≡ is_planned pins.now.routes request.now }
    {
        match request {
            Request::Single(stop) => self.is_pinned_stop(pins, stop.number),
            Request::Pair(pickup, delivery) => {
                self.is_pinned_stop(pins, pickup.number)
                    || self.is_pinned_stop(pins, delivery.number)
            }
        }
    }

    fn is_pinned_stop(&self, pins: &Pins, stop: u32) -> bool
        requires { (n : ℕ) → n < length self.now.pinned
            → slice_index_or self.now.pinned n false ≡ has_stop pins.now.routes n }
        ensures { result ≡ has_stop pins.now.routes stop }
    {
        if (stop as usize) < self.pinned.len() {
            return self.pinned[stop as usize];
        }
        has_stop(pins.routes.as_slice(), stop)
    }

    /// Returns whether a stop of the request is in the draft.
    pub fn is_planned(&self, request: &Request) -> bool
        ensures { result ≡ is_planned (draft_of self.now) request.now }
    {
        match request {
            Request::Single(stop) => self.has_stop(stop.number),
            Request::Pair(pickup, delivery) => {
                self.has_stop(pickup.number) || self.has_stop(delivery.number)
            }
        }
    }

    /// Returns whether a route of the draft has the stop.
    #[tactic(auto, using(crate::proofs::VehicleListLemmas::has_by_vehicle))]
    pub fn has_stop(&self, stop: u32) -> bool
        ensures { result ≡ has_stop (draft_of self.now) stop }
    {
        self.vehicle_of(stop) != 0
    }

    /// Returns the vehicle whose route has the stop, or 0 if none has it.
    pub(crate) fn vehicle_of(&self, stop: u32) -> u64
        ensures { IsVehicleWith (draft_of self.now) stop result }
    {
        if (stop as usize) < self.vehicle_hints.len() {
            let vehicle = u64::from(self.vehicle_hints[stop as usize]);
            if vehicle == 0 {
                return 0;
            }
            if is_in(self.route(vehicle), stop) {
                return vehicle;
            }
        }
        vehicle_with(&self.tours, stop)
    }

    /// Returns the cost of the draft.
    pub fn cost(&self, problem: &Problem, pins: &Pins) -> Cost
        requires { IsDraftOf problem.now pins.now.routes self.now }
        ensures { result ≡ cost_of problem.now (draft_of self.now) }
    {
        self.cost
    }

    /// Returns whether the draft is known to be the base, without comparing the two: whether the log is empty.
    /// After a change and its reversal this may be `false`.
    pub fn is_base(&self) -> bool
        ensures { IsTrue result → draft_of self.now ≡ base_of self.now }
    {
        !self.is_changed()
    }

    // Returns whether the log has a changed vehicle.
    fn is_changed(&self) -> bool
        ensures { result ≡ not (length self.now.log == 0) }
    {
        !self.log.is_empty()
    }

    // Replaces the tour of a vehicle. Cannot fail, since the log has room for each vehicle.
    fn set_tour(&mut self, vehicle: u32, tour: Tour)
        requires from_one { 1 ≤ vehicle }
        requires within { vehicle ≤ length self.old.tours }
        ensures tours { self.new.tours ≡ slice_set self.old.tours (vehicle - 1) tour }
        ensures base { undone self.new.tours self.new.log ≡ undone self.old.tours self.old.log }
        ensures pinned { self.new.pinned ≡ self.old.pinned }
        ensures cost { self.new.cost ≡ self.old.cost }
        ensures base_cost { self.new.base_cost ≡ self.old.base_cost }
    {
        let is_first = self.entry_of(vehicle).is_none();
        set_hints(&mut self.vehicle_hints, tour.stops(), vehicle);
        set_max_demand(&mut self.max_demands, vehicle, &tour);
        let old = swap(&mut self.tours, (vehicle - 1) as usize, tour);
        self.used_len = used_len_with(self.used_len, vehicle);
        if is_first {
            self.log.push_reserved((vehicle, old));
        } else {
            keep(&mut self.spare, old);
        }
    }

    // Returns the index of the vehicle's entry in the log, or `None` if the log has no such entry.
    fn entry_of(&self, vehicle: u32) -> Option<usize>
        ensures { MatchOption result (is_logged self.now.log vehicle ≡ false)
            (λ entry. IsEntry self.now.log vehicle entry) }
    {
        for entry in 0..self.log.len() {
            if self.log[entry].0 == vehicle {
                return Some(entry);
            }
        }
        None
    }

    // Removes an entry from the log and restores the entry's tour, which its vehicle had in the base.
    fn undo(&mut self, entry: usize)
        requires { entry < length self.old.log }
        ensures tours { (e : ℕ × Course) → slice_get self.old.log entry ≡ Some e
            → self.new.tours ≡ slice_set self.old.tours (e.0 - 1) e.1 }
        ensures base { undone self.new.tours self.new.log ≡ undone self.old.tours self.old.log }
        ensures log { length self.new.log ≡ length self.old.log - 1 }
        ensures pinned { self.new.pinned ≡ self.old.pinned }
        ensures cost { self.new.cost ≡ self.old.cost }
        ensures base_cost { self.new.base_cost ≡ self.old.base_cost }
    {
        let (vehicle, tour) = remove_entry(&mut self.log, entry);
        set_hints(&mut self.vehicle_hints, tour.stops(), vehicle);
        set_max_demand(&mut self.max_demands, vehicle, &tour);
        let tried = swap(&mut self.tours, (vehicle - 1) as usize, tour);
        self.used_len = used_len_with(self.used_len, vehicle);
        keep(&mut self.spare, tried);
    }
}

// Removes an entry from a log.
fn remove_entry(log: &mut Vec<(u32, Tour)>, entry: usize) -> (u32, Tour)
    requires { entry < length log.old.items }
    ensures at { slice_get log.old.items entry ≡ Some result }
    ensures rest { log.new.items ≡ remove log.old.items entry }
    ensures len { length log.new.items ≡ length log.old.items - 1 }
    ensures room { vec_capacity log.new ≡ vec_capacity log.old }
    ensures within { (n : ℕ) → AreWithin n log.old.items → AreWithin n (remove log.old.items entry)
        × ((1 ≤ result.0) × (result.0 ≤ n)) }
{
    log.remove(entry)
}

// Clears a log and keeps the memory of its tours as far as `spare` can grow.
fn clear_log(log: &mut Vec<(u32, Tour)>, spare: &mut Vec<Tour>)
    ensures none { log.new.items ≡ [] }
    ensures room { vec_capacity log.new ≡ vec_capacity log.old }
{
    while let Some((_, tour)) = log.pop() {
        keep(spare, tour);
    }
}

// Returns the length of the used part after `vehicle` gets another route.
fn used_len_with(used_len: usize, vehicle: u32) -> usize
    ensures used_len { used_len ≤ result }
    ensures vehicle { vehicle ≤ result }
    ensures least { (n : ℕ) → used_len ≤ n → vehicle ≤ n → result ≤ n }
{
    let vehicle = vehicle as usize;
    if used_len < vehicle {
        return vehicle;
    }
    used_len
}

// Keeps the memory of a tour in `spare`, or frees it if `spare` cannot grow.
fn keep(spare: &mut Vec<Tour>, tour: Tour) {
    spare.push(tour).ok();
}
