//! The best insertion of a request into a plan, by a table for each vehicle.
//!
//! The search goes from vehicle to vehicle and keeps the best insertion so far. It compares costs by whether a
//! vehicle is opened, then by the added distance, then by vehicle and places. The vehicles that a draft has
//! changed are looked at first: a removed request mostly fits best where it was, and then most other vehicles
//! are ruled out. Since these vehicles come out of order, a later insertion with an equal distance is better if
//! its vehicle has a lower number.
//!
//! Before the first insertion is found, a limit takes the place of the best one so far: an insertion that does
//! not cost less than the limit is ignored. The limit is compared in the same way as an insertion. So if an
//! insertion is found, it is the best of all.
//!
//! Tables need a plan that passes with no pins, so `build` and `refresh` take none. The law
//! `plans_pass_without_pins` shows that a plan which passes with its own pins is such a plan.
ghost use Rattle.std.specs.Prelude.{◌≡◌, ◌+◌, ◌<ℤ◌, pos, true, false, [], map, Some, IfOk, IsSome, length};
ghost use Rattle.std.specs.Option.{option_map};
ghost use Rattle.plan_types.specs.Instance.{IsInstance};
ghost use Rattle.plan_types.specs.Request.{request_name};
ghost use Rattle.slack_tables.specs.Course.{course_route};
ghost use Rattle.slack_tables.specs.RequestFloors.{AreDistances};
ghost use Rattle.move_ops.specs.Insertion.{request_named, route_of, best_insertion};
ghost use Rattle.plan_audit.specs.Passes.{passes};
ghost use Rattle.move_ops.specs.FreshTables.{fresh_of, AreWithin};
ghost use Rattle.move_ops.specs.Tables.{plan_of, AreVehicles};
ghost use Rattle.move_ops.specs.InsertionSearch.{opens, bound_of, bound_over, candidate_place, IsQuery, IsQueryOver, IsBestAmongThese, IsBestWithin, IsScannable, IsScanned, IsLooseBound, bound_against, IsBetter, IsEntryOf, IsEntryWithStops, IsBelowMaximum};

use crate::facts::problem_keeps_limits;
use crate::insert::{Insertion, tuple_of};
use crate::laws::insertion_laws;
use crate::lists::route_of;
use crate::max_demands::is_full;
use crate::tour::Tour;
use crate::tours::tours_of;
use plan_audit::{feasible_alone_decides_feasibility, passing_is_local, plans_are_disjoint_routes};
use plan_types::{Kind, OutOfMemory, Pins, Plan, Problem, Request, Route};
use slack_tables::{PricedInsertion, RequestDistances};
use std::alloc::Global;
use std::marker::Model;

/// The tables of a plan's routes, one for each vehicle.
#[derive(Debug, Drop)]
pub struct Tables {
    tables: Vec<Tour>,
}

impl Model for Tables {
    ghost use Rattle.std.specs.Prelude.{List};
    ghost use Rattle.slack_tables.specs.Course.{Course};

    ghost Value = { List Course };

    ghost view = { λ t. t.tables.items };
}

// The best insertion so far, and whether it opens a vehicle.
#[derive(Clone, Copy)]
struct Candidate {
    vehicle: u64,
    opens: bool,
    addition: PricedInsertion,
}

impl Candidate {
    // Returns the insertion without its distance.
    fn place(&self) -> Insertion
        ensures { result ≡ candidate_place self.now }
    {
        Insertion {
            vehicle: self.vehicle,
            pickup: self.addition.pickup,
            delivery: self.addition.delivery,
        }
    }
}

/// A bound on an insertion: its cost must be below that of an insertion that opens a vehicle or not (`opens`)
/// and adds `below` to the distance.
#[derive(Clone, Copy)]
pub(crate) struct Limit {
    pub opens: bool,
    pub below: i64,
}

/// No limit: every insertion costs less.
pub(crate) const NO_LIMIT: Limit = Limit {
    opens: true,
    below: i64::MAX,
};

/// The problem, pins and limit with which a best insertion is searched. Places are after the pins.
#[derive(Clone, Copy)]
pub(crate) struct InsertionContext<'a> {
    pub problem: &'a Problem,
    pub pins: &'a [Route],
    pub limit: &'a Limit,
}

/// The vehicles to search for a place.
#[derive(Clone, Copy)]
pub(crate) struct Vehicles<'a> {
    pub tables: &'a [Tour],
    /// The greatest demand that a single may have in each vehicle, as far as it is known.
    pub max_demands: &'a [i64],
    /// The number of vehicles to look at. All later vehicles are idle. If there are any, one of the first `end`
    /// is idle, too, and represents them.
    pub end: usize,
    /// The vehicles to look at first.
    pub first: &'a [(u32, Tour)],
}

// A vehicle with its tour.
#[derive(Clone, Copy)]
struct Vehicle<'a> {
    number: u64,
    tour: &'a Tour,
}

impl Tables {
    ghost use Rattle.std.specs.Prelude.{OnOk, OnErr};
    ghost use Rattle.std.specs.Option.{IsSomeAnd};
    ghost use Rattle.route_sched.specs.Cost.{is_planned};
    ghost use Rattle.move_ops.specs.FreshTables.{replaced, AreWithin};
    ghost use Rattle.move_ops.specs.Tables.{tables_of, AreTablesIn, DifferOnlyAt};

    /// Builds the tables of a plan that passes.
    pub fn build(alloc: Global, problem: &Problem, plan: &Plan) -> Result<Tables, OutOfMemory>
        requires { passes problem.now [] plan.now.routes ≡ true }
        ensures tables { IfOk result (λ tables. tables ≡ tables_of problem.now plan.now.routes) }
        ensures plan { IfOk result (λ tables. plan_of tables ≡ plan.now.routes) }
    {
        Ok(Tables {
            tables: tours_of(alloc, problem, plan.routes.as_slice())?,
        })
    }

    /// Returns the best insertion of a request into the plan of the tables, as `best_insertion` defines it. The
    /// name must be of a current, unplanned request. Does not allocate.
    pub fn best(&self, problem: &Problem, pins: &Pins, name: u32) -> Option<(u64, u64, u64)>
        requires tables { AreTablesIn problem.now self.now }
        requires pass { passes problem.now pins.now.routes (plan_of self.now) ≡ true }
        requires free { IsSomeAnd (request_named problem.now name)
            (λ r. is_planned (plan_of self.now) r ≡ false) }
        ensures { result ≡ best_insertion problem.now pins.now.routes (plan_of self.now) name }
    {
        insertion_laws();
        let request = current_request(problem, name);
        let tables = self.tables.as_slice();
        let pins = pins.routes.as_slice();
        let terms = InsertionContext {
            problem,
            pins,
            limit: &NO_LIMIT,
        };
        let vehicles = Vehicles {
            tables,
            max_demands: &[],
            end: tables.len(),
            first: &[],
        };
        tuple_of(best_within(&terms, &vehicles, request))
    }

    /// Rebuilds the tables of these vehicles for a plan whose other routes are those of the tables. Vehicles
    /// count from 1; the list may be empty or name a vehicle twice. All new tables are built before one
    /// replaces an old one, so if an allocation fails the old ones stay.
    pub fn refresh(
        &mut self,
        problem: &Problem,
        plan: &Plan,
        vehicles: &[u32],
    ) -> Result<(), OutOfMemory>
        requires tables { AreTablesIn problem.now self.old }
        requires pass { passes problem.now [] plan.now.routes ≡ true }
        requires vehicles { AreVehicles problem.now vehicles.now }
        requires others { DifferOnlyAt vehicles.now (plan_of self.old) plan.now.routes }
        ensures tables { OnOk result (self.new ≡ tables_of problem.now plan.now.routes) }
        ensures plan { OnOk result (plan_of self.new ≡ plan.now.routes) }
        ensures err { OnErr result (self.new ≡ self.old) }
    {
        passing_is_local();
        plans_are_disjoint_routes();
        problem_keeps_limits(problem);
        let alloc = *self.tables.allocator();
        let fresh = fresh_tables(alloc, problem, plan.routes.as_slice(), vehicles)?;
        self.replace(fresh);
        Ok(())
    }

    // Replaces the tables of these vehicles.
    fn replace(&mut self, fresh: Vec<(u32, Tour)>)
        requires { AreWithin (length self.old) fresh.items }
        ensures { self.new ≡ replaced self.old fresh.items }
    {
        for (vehicle, table) in fresh {
            self.tables[(vehicle - 1) as usize] = table;
        }
    }
}

// Builds the tables of these vehicles' routes.
fn fresh_tables(
    alloc: Global,
    problem: &Problem,
    routes: &[Route],
    vehicles: &[u32],
) -> Result<Vec<(u32, Tour)>, OutOfMemory>
    requires pass { passes problem.now [] routes.now ≡ true }
    requires vehicles { AreVehicles problem.now vehicles.now }
    ensures { IfOk result (λ fresh. fresh.items
        ≡ map (fresh_of problem.now routes.now) vehicles.now) }
{
    passing_is_local();
    plans_are_disjoint_routes();
    feasible_alone_decides_feasibility();
    problem_keeps_limits(problem);
    let mut fresh = Vec::with_capacity(alloc, vehicles.len())?;
    for vehicle in vehicles {
        let route = route_of(routes, u64::from(*vehicle));
        fresh.push((*vehicle, Tour::build(alloc, problem, route)?))?;
    }
    Ok(fresh)
}

// Returns the current request with this name.
fn current_request(problem: &Problem, name: u32) -> &Request
    requires { IsSome (request_named problem.now name) }
    ensures found { request_named problem.now name ≡ Some result.now }
    ensures name { request_name result.now ≡ name }
    ensures problem { IsInstance problem.now }
{
    problem.requests.get(&name).unwrap()
}

/// Returns the best insertion over all vehicles if it costs less than the limit.
pub(crate) fn best_within(
    terms: &InsertionContext,
    vehicles: &Vehicles,
    request: &Request,
) -> Option<Insertion>
    requires { let t = terms.now in let v = vehicles.now in IsQueryOver t.problem.now t.pins.now
        v.tables.now v.max_demands.now v.end v.first.now request.now }
    ensures { let t = terms.now in IsBestWithin t.problem.now t.pins.now
        (plan_of vehicles.now.tables.now) request.now t.limit.now result }
{
    let found = match request {
        Request::Single(_) => best_by_max_demands(terms, vehicles, vehicles.max_demands, request),
        Request::Pair(_, _) => best_by_max_demands(terms, vehicles, &[], request),
    };
    match found {
        Some(found) => Some(found.place()),
        None => None,
    }
}

// Returns the best insertion if it costs less than the limit. `max_demands` is empty for a pair. The function
// is inlined twice, so that the loop over the vehicles does not check again whether the request is a single.
// Empty vehicles are alike, so the first of them represents all, also those after `end`.
#[inline(always)]
fn best_by_max_demands(
    terms: &InsertionContext,
    vehicles: &Vehicles,
    max_demands: &[i64],
    request: &Request,
) -> Option<Candidate>
    requires { let t = terms.now in let v = vehicles.now in IsQueryOver t.problem.now t.pins.now
        v.tables.now max_demands.now v.end v.first.now request.now }
    ensures { let t = terms.now in IsBestWithin t.problem.now t.pins.now
        (plan_of vehicles.now.tables.now) request.now t.limit.now (option_map candidate_place result) }
{
    insertion_laws();
    let problem = terms.problem;
    let tables = vehicles.tables;
    let ways = RequestDistances::of(&problem.depot, request);
    let mut best = best_of_first(terms, vehicles, request, &ways);
    let mut below = bound_from(terms.limit, &best, 1);
    let mut has_idle = false;
    for k in 0..vehicles.end {
        let tour = &tables[k];
        if is_full(max_demands, k, request) {
            tour.stops_are_few();
            continue;
        }
        if tour.stop_count() == 0 {
            if has_idle {
                continue;
            }
            has_idle = true;
        }
        let vehicle = Vehicle {
            number: k as u64 + 1,
            tour,
        };
        below = scan_vehicle(
            terms,
            request,
            &ways,
            vehicles.first,
            vehicle,
            below,
            &mut best,
        );
    }
    best
}

// Returns the best insertion over the used vehicles of `first`.
#[inline(never)]
fn best_of_first(
    terms: &InsertionContext,
    vehicles: &Vehicles,
    request: &Request,
    ways: &RequestDistances,
) -> Option<Candidate>
    requires query { IsQuery terms.now.problem.now terms.now.pins.now vehicles.now.tables.now
        request.now }
    requires distances { AreDistances terms.now.problem.now.depot request.now ways.now }
    requires first { AreWithin (length vehicles.now.tables.now) vehicles.now.first.now }
    ensures best { let t = terms.now in let routes = plan_of vehicles.now.tables.now in
        let first = vehicles.now.first.now in
        IsBestAmongThese t.problem.now t.pins.now routes request.now t.limit.now
        (IsEntryWithStops routes first (length first)) result }
    ensures short { IsBelowMaximum result }
{
    insertion_laws();
    let tables = vehicles.tables;
    let first = vehicles.first;
    let mut best = None;
    for j in 0..first.len() {
        let number = u64::from(first[j].0);
        let index = (number - 1) as usize;
        let tour = &tables[index];
        if tour.stop_count() != 0 {
            let below = bound_from(terms.limit, &best, number);
            let vehicle = Vehicle { number, tour };
            scan_vehicle(terms, request, ways, &[], vehicle, below, &mut best);
        }
    }
    best
}

// Looks for a better insertion at this vehicle, unless the vehicle is one of `first`, which were looked at
// before. Returns a bound for the used vehicles from this one on: an insertion that adds at least this bound is
// not better. One number serves all these vehicles, since mostly the only question is whether it rules a
// vehicle out.
#[inline(always)]
fn scan_vehicle(
    terms: &InsertionContext,
    request: &Request,
    ways: &RequestDistances,
    first: &[(u32, Tour)],
    vehicle: Vehicle,
    below: i64,
    best: &mut Option<Candidate>,
) -> i64
    requires vehicle { IsScannable terms.now.problem.now terms.now.pins.now request.now ways.now
        vehicle.number vehicle.tour.now }
    requires below { IsLooseBound vehicle.number terms.now.limit.now best.old below }
    requires short { IsBelowMaximum best.old }
    ensures scanned { let t = terms.now in let v = vehicle.entry in
        IsScanned t.problem.now (course_route v.tour.now) request.now
        (length (route_of t.pins.now v.number)) first.now v.number t.limit.now best.old best.new }
    ensures below { IsLooseBound vehicle.entry.number terms.now.limit.now best.new result }
    ensures short { IsBelowMaximum best.new }
{
    let Vehicle { number, tour } = vehicle;
    if tour.stop_count() != 0 {
        if tour.table().rules_out_with(request, ways, below) {
            return below;
        }
        if is_among(first, number) {
            return bound_from(terms.limit, best, number);
        }
    }
    scan_places(terms, request, ways, vehicle, best);
    bound_from(terms.limit, best, number)
}

// Looks for a better insertion at each place of a vehicle that isn't ruled out. The pin is looked up only for
// such vehicles.
#[inline(never)]
fn scan_places(
    terms: &InsertionContext,
    request: &Request,
    ways: &RequestDistances,
    vehicle: Vehicle,
    best: &mut Option<Candidate>,
)
    requires vehicle { IsScannable terms.now.problem.now terms.now.pins.now request.now ways.now
        vehicle.number vehicle.tour.now }
    requires short { IsBelowMaximum best.old }
    ensures better { let t = terms.now in let v = vehicle.entry in
        IsBetter t.problem.now (course_route v.tour.now) request.now
        (length (route_of t.pins.now v.number)) v.number t.limit.now best.old best.new }
    ensures short { IsBelowMaximum best.new }
{
    let Vehicle { number, tour } = vehicle;
    let problem = terms.problem;
    let opens = opens(problem.kind, tour);
    let Some(below) = bound(number, opens, terms.limit, best) else {
        return;
    };
    let kept = route_of(terms.pins, number).len() as u64;
    if let Some(addition) = tour.table().best_places_with(request, ways, kept, below) {
        *best = Some(Candidate {
            vehicle: number,
            opens,
            addition,
        });
    }
}

// Returns whether the vehicle is in the list.
fn is_among(first: &[(u32, Tour)], vehicle: u64) -> bool
    ensures { result ≡ true → IsEntryOf first.now vehicle }
{
    for j in 0..first.len() {
        if u64::from(first[j].0) == vehicle {
            return true;
        }
    }
    false
}

// Returns whether inserting a request into this route opens a vehicle. Always false if vehicles do not count
// (`Vrp`).
#[inline(always)]
fn opens(kind: Kind, table: &Tour) -> bool
    ensures { result ≡ opens kind (course_route table.now) }
{
    match kind {
        Kind::LiLim => table.stop_count() == 0,
        Kind::Vrp => false,
    }
}

// Returns the bound below which the added distance of an insertion at this vehicle has to be, for the insertion
// to be better than the best so far or, if none was found yet, than the limit. Returns `None` if it can't be.
#[inline(always)]
fn bound(vehicle: u64, opens: bool, limit: &Limit, best: &Option<Candidate>) -> Option<i64>
    requires { IsBelowMaximum best.now }
    ensures { result ≡ bound_of vehicle opens limit.now best.now }
{
    match best {
        None => bound_over(limit.opens, limit.below, opens),
        Some(best) => bound_over(best.opens, bound_at(vehicle, best), opens),
    }
}

// Returns the bound below which the added distance of an insertion has to be, for the insertion to be better
// than a rival that adds `distance`, or `None` if it can't be. `opens` and `rival_opens` say whether each of
// the two opens a vehicle.
#[inline(always)]
fn bound_over(rival_opens: bool, distance: i64, opens: bool) -> Option<i64>
    ensures { result ≡ bound_over rival_opens distance opens }
{
    if rival_opens && !opens {
        return Some(i64::MAX);
    }
    if opens && !rival_opens {
        return None;
    }
    Some(distance)
}

// Returns the bound below which the added distance of an insertion at this vehicle has to be, for the insertion
// to be better than `best`, if both open equally many vehicles.
#[inline(always)]
fn bound_at(vehicle: u64, best: &Candidate) -> i64
    requires { best.now.addition.distance <ℤ pos 9223372036854775807 }
    ensures { result ≡ bound_against vehicle best.now }
{
    if vehicle < best.vehicle {
        best.addition.distance + 1
    } else {
        best.addition.distance
    }
}

// Returns a bound for the used vehicles from this one on. An insertion that adds at least this bound is not
// better than the best so far, or than the limit.
#[inline(always)]
fn bound_from(limit: &Limit, best: &Option<Candidate>, vehicle: u64) -> i64
    requires { IsBelowMaximum best.now }
    ensures { IsLooseBound vehicle limit.now best.now result }
{
    match best {
        None => {
            if limit.opens {
                return i64::MAX;
            }
            limit.below
        }
        Some(best) => {
            if best.opens {
                return i64::MAX;
            }
            bound_at(vehicle, best)
        }
    }
}
