//! Moves that exchange stops of a draft: two requests swap places, or two routes swap their ends (2-opt*).
//!
//! Such moves are refused often, so their routes are checked before any table is built: first the limits, since
//! they are broken more often, and then the pairs.
ghost use Rattle.std.specs.Prelude.{◌≡◌, ◌==◌, ◌&&◌, ◌≤◌, ◌⊎◌, not, nat_eq, map, length, IsSome, IfSome, IfOk, OnOk, OnErr};
ghost use Rattle.std.specs.List.{concat, IsDistinct};
ghost use Rattle.plan_types.specs.declared.limits.TheConstants.{MAX_FLEET};
ghost use Rattle.plan_types.specs.Request.{stop_in};
ghost use Rattle.move_ops.specs.Insertion.{route_of};
ghost use Rattle.move_ops.specs.Legs.{cuts_of, IsCutOf};
ghost use Rattle.move_ops.specs.Changes.{with_routes, AreChanges, AreIn, AreVehiclesOf, IsChange};
ghost use Rattle.move_ops.specs.Moves.{counterpart, exchanged, crossed, joined, is_cut, are_exchangeable};
ghost use Rattle.std.specs.Option.{option_map};
ghost use Rattle.move_ops.specs.Drafts.{draft_of, base_of, IsDraftOf, IsMade};

use super::Draft;
use crate::changes::{Change, are_all_feasible};
use crate::lists::route_of;
use crate::naming::request_named;
use crate::swap::{counterparts, have_same_form};
use crate::tour::tour_of;
use plan_audit::{feasible_alone_decides_feasibility, passing_is_local, plans_are_disjoint_routes};
use plan_types::{
    OutOfMemory, Pins, Problem, Request, Route, requests_are_found_by_stop,
    requests_are_stored_by_name,
};

/// A cut of a vehicle's route, after its first `stops` stops.
#[derive(Clone, Copy)]
pub(super) struct Cut {
    pub(super) vehicle: u64,
    pub(super) stops: u64,
}

/// The cuts of two routes whose ends are exchanged.
#[derive(Clone, Copy)]
pub(super) struct Cuts {
    pub(super) first: Cut,
    pub(super) second: Cut,
}

impl Cuts {
    pub(super) fn of(a: u64, a_cut: u64, b: u64, b_cut: u64) -> Cuts
        ensures { result ≡ cuts_of a a_cut b b_cut }
    {
        Cuts {
            first: Cut {
                vehicle: a,
                stops: a_cut,
            },
            second: Cut {
                vehicle: b,
                stops: b_cut,
            },
        }
    }
}

impl Draft {
    /// Exchanges two requests of the draft, as `exchange` in `plan_moves` does. Returns whether the move was
    /// made.
    pub fn exchange(
        &mut self,
        problem: &Problem,
        pins: &Pins,
        a: u32,
        b: u32,
    ) -> Result<bool, OutOfMemory>
        requires { IsDraftOf problem.now pins.now.routes self.old }
        ensures is { OnOk result (IsDraftOf problem.now pins.now.routes self.new) }
        ensures base { OnOk result (base_of self.new ≡ base_of self.old) }
        ensures draft { IfOk result (λ made.
            IsMade (exchanged problem.now pins.now.routes (draft_of self.old) a b) made self.old
            self.new) }
        ensures err { OnErr result (self.new ≡ self.old) }
    {
        let unplanned = self.cost.unplanned;
        let changes = self.exchange_changes(problem, pins, a, b)?;
        self.apply(problem, pins, changes, unplanned)
    }

    // Returns the routes with the two requests exchanged, if the plan with them passes.
    fn exchange_changes(
        &self,
        problem: &Problem,
        pins: &Pins,
        a: u32,
        b: u32,
    ) -> Result<Option<Vec<Change>>, OutOfMemory>
        requires { IsDraftOf problem.now pins.now.routes self.now }
        ensures routes { IfOk result
            (λ o. option_map (λ cs. with_routes (draft_of self.now) cs.items) o
            ≡ exchanged problem.now pins.now.routes (draft_of self.now) a b) }
        ensures change { IfOk result
            (λ o. IfSome o (λ cs. IsChange problem.now pins.now.routes
            (draft_of self.now) cs.items self.now.cost.unplanned)) }
    {
        passing_is_local();
        plans_are_disjoint_routes();
        feasible_alone_decides_feasibility();
        requests_are_found_by_stop();
        requests_are_stored_by_name();
        if a == b {
            return Ok(None);
        }
        let Some(first) = request_named(problem, a) else {
            return Ok(None);
        };
        let Some(second) = request_named(problem, b) else {
            return Ok(None);
        };
        if !self.are_exchangeable(problem, pins, &first, &second) {
            return Ok(None);
        }
        let changes = self.exchanges(&first, &second)?;
        if !are_all_feasible(problem, &self.tours, &changes) {
            return Ok(None);
        }
        Ok(Some(changes))
    }

    // Returns the changed routes of an exchange: each stop of one request takes the place of its counterpart in
    // the other. Only vehicles with a stop of the two requests are in the list.
    fn exchanges(&self, first: &Request, second: &Request) -> Result<Vec<Change>, OutOfMemory>
        requires few { length (draft_of self.now) ≤ MAX_FLEET }
        requires once { IsDistinct nat_eq (concat (draft_of self.now)) }
        ensures { IfOk result (λ changes. AreChanges (draft_of self.now)
            (map (map (counterpart first.now second.now)) (draft_of self.now)) changes.items) }
    {
        let mut vehicles = Vec::with_capacity(*self.tours.allocator(), 4)?;
        self.collect_vehicles(first, &mut vehicles)?;
        self.collect_vehicles(second, &mut vehicles)?;
        self.exchanges_at(first, second, &vehicles)
    }

    fn exchanges_at(
        &self,
        first: &Request,
        second: &Request,
        vehicles: &[u64],
    ) -> Result<Vec<Change>, OutOfMemory>
        requires few { length (draft_of self.now) ≤ MAX_FLEET }
        requires within { AreIn (draft_of self.now) vehicles.now }
        requires found { AreVehiclesOf (draft_of self.now)
            (λ n. IsSome (stop_in n first.now) ⊎ IsSome (stop_in n second.now)) vehicles.now }
        ensures { IfOk result (λ changes. AreChanges (draft_of self.now)
            (map (map (counterpart first.now second.now)) (draft_of self.now)) changes.items) }
    {
        let alloc = *self.tours.allocator();
        let mut changes = Vec::with_capacity(alloc, vehicles.len())?;
        for vehicle in vehicles {
            let route = counterparts(alloc, self.route(*vehicle), first, second)?;
            changes.push(Change {
                vehicle: *vehicle as u32,
                route,
            })?;
        }
        Ok(changes)
    }

    // Returns whether both requests can be moved, and both are singles or both are pairs.
    fn are_exchangeable(
        &self,
        problem: &Problem,
        pins: &Pins,
        first: &Request,
        second: &Request,
    ) -> bool
        requires { IsDraftOf problem.now pins.now.routes self.now }
        ensures { result ≡ are_exchangeable pins.now.routes
            (draft_of self.now) first.now second.now }
    {
        self.is_movable(problem, pins, first)
            && self.is_movable(problem, pins, second)
            && have_same_form(first, second)
    }

    /// Exchanges the ends of two routes of the draft, as `two_opt_star` does. Returns whether the move was made.
    pub fn cross(
        &mut self,
        problem: &Problem,
        pins: &Pins,
        a: u64,
        a_cut: u64,
        b: u64,
        b_cut: u64,
    ) -> Result<bool, OutOfMemory>
        requires { IsDraftOf problem.now pins.now.routes self.old }
        ensures is { OnOk result (IsDraftOf problem.now pins.now.routes self.new) }
        ensures base { OnOk result (base_of self.new ≡ base_of self.old) }
        ensures draft { IfOk result (λ made.
            IsMade (crossed problem.now pins.now.routes (draft_of self.old) a a_cut b b_cut)
            made self.old self.new) }
        ensures err { OnErr result (self.new ≡ self.old) }
    {
        let unplanned = self.cost.unplanned;
        let changes = self.cross_changes(problem, pins, Cuts::of(a, a_cut, b, b_cut))?;
        self.apply(problem, pins, changes, unplanned)
    }

    // Returns the two routes with their ends exchanged, if the plan with them passes.
    fn cross_changes(
        &self,
        problem: &Problem,
        pins: &Pins,
        cuts: Cuts,
    ) -> Result<Option<Vec<Change>>, OutOfMemory>
        requires { IsDraftOf problem.now pins.now.routes self.now }
        ensures routes { IfOk result
            (λ o. option_map (λ cs. with_routes (draft_of self.now) cs.items) o
            ≡ crossed problem.now pins.now.routes (draft_of self.now)
            cuts.first.vehicle cuts.first.stops cuts.second.vehicle cuts.second.stops) }
        ensures change { IfOk result
            (λ o. IfSome o (λ cs. IsChange problem.now pins.now.routes
            (draft_of self.now) cs.items self.now.cost.unplanned)) }
    {
        passing_is_local();
        feasible_alone_decides_feasibility();
        if !self.are_crossable(pins, cuts) {
            return Ok(None);
        }
        let Cuts { first, second } = cuts;
        let first_route = self.joined(first, second)?;
        let second_route = self.joined(second, first)?;
        if !tour_of(&self.tours, first.vehicle).is_feasible(problem, first_route.as_slice()) {
            return Ok(None);
        }
        if !tour_of(&self.tours, second.vehicle).is_feasible(problem, second_route.as_slice()) {
            return Ok(None);
        }
        let mut changes = Vec::with_capacity(*self.tours.allocator(), 2)?;
        changes.push(Change {
            vehicle: first.vehicle as u32,
            route: first_route,
        })?;
        changes.push(Change {
            vehicle: second.vehicle as u32,
            route: second_route,
        })?;
        Ok(Some(changes))
    }

    /// Returns whether these are valid cuts of two different routes.
    pub(super) fn are_crossable(&self, pins: &Pins, cuts: Cuts) -> bool
        ensures { result ≡ (not (cuts.first.vehicle == cuts.second.vehicle)
            && (is_cut pins.now.routes (draft_of self.now) cuts.first.vehicle cuts.first.stops
            && is_cut pins.now.routes (draft_of self.now) cuts.second.vehicle cuts.second.stops)) }
    {
        let kept = pins.routes.as_slice();
        let Cuts { first, second } = cuts;
        first.vehicle != second.vehicle && self.is_cut(kept, first) && self.is_cut(kept, second)
    }

    // Returns whether this is a valid cut: the vehicle exists, its route has at least `cut.stops` stops, and
    // its pin at most `cut.stops`.
    fn is_cut(&self, pins: &[Route], cut: Cut) -> bool
        ensures { result ≡ is_cut pins.now (draft_of self.now) cut.vehicle cut.stops }
    {
        if cut.vehicle < 1 || (self.tours.len() as u64) < cut.vehicle {
            return false;
        }
        let kept = route_of(pins, cut.vehicle).len() as u64;
        let stops = self.route(cut.vehicle).len() as u64;
        kept <= cut.stops && cut.stops <= stops
    }

    // Returns the stops before the cut `first` of one route, followed by the stops after the cut `second` of
    // another.
    fn joined(&self, first: Cut, second: Cut) -> Result<Route, OutOfMemory>
        requires first { IsCutOf (draft_of self.now) first }
        requires second { IsCutOf (draft_of self.now) second }
        ensures { IfOk result
            (λ new. new ≡ joined (route_of (draft_of self.now) first.vehicle) first.stops
            (route_of (draft_of self.now) second.vehicle) second.stops) }
    {
        let first = &self.route(first.vehicle)[..first.stops as usize];
        let second = &self.route(second.vehicle)[second.stops as usize..];
        let mut new = Route::with_capacity(*self.tours.allocator(), first.len() + second.len())?;
        new.extend_from_slice(first)?;
        new.extend_from_slice(second)?;
        Ok(new)
    }
}
