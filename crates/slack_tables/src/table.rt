//! The table of a route: a list of places with what is known about each.
//!
//! The depot is at both ends of the list, so no place is a special case: at place 0 the vehicle departs, and
//! after the last stop it returns. The forward pass fills in starts, loads and distances, beginning after the
//! prefix that the route shares with a given table (`shared_prefix`). The backward pass fills in latest starts and
//! greatest loads (`slack`). Windows are checked only if the kind of the problem has them. So in a table of a
//! `Vrp` problem only the starts are meaningful times.

ghost use Rattle.std.specs.Prelude.{◌≡◌, ◌↔◌, ◌+◌, ◌-◌, ◌<◌, ◌≤◌, ℕ, Some, true, IsSome, IsTrue, IfOk, OnOk, OnErr, length, slice_index_or};
ghost use Rattle.plan_types.specs.declared.requests.Stop.{Stop};
ghost use Rattle.plan_types.specs.Request.{IsRequest};
ghost use Rattle.plan_types.specs.Instance.{IsInstance};
ghost use Rattle.nint_dist.specs.Distance.{HasValidCoordinates, distance};
ghost use Rattle.route_sched.specs.Route.{AreDistinctStops, place};
ghost use Rattle.slack_tables.specs.Insertion.{request_named, KeepsLimits};
ghost use Rattle.slack_tables.specs.declared.progress.PlaceSlack.{PlaceSlack};
ghost use Rattle.slack_tables.specs.ForwardPass.{at_depot, forward_row, AreForwardRows};
ghost use Rattle.slack_tables.specs.SharedPrefix.{KnowsPrefixes};
ghost use Rattle.slack_tables.specs.TableFields.{limits_of, AreKnown, IsTableOf};
ghost use Rattle.slack_tables.specs.Legs.{AreLinked};
ghost use Rattle.slack_tables.specs.TableCursor.{KnowsStops};

use crate::insertion::{added_by_pair, added_by_single};
use crate::known_legs::{cursor_at, find_next_stop, is_next, next_cursor, next_leg};
use crate::legs::small_row;
use crate::progress::{Limits, PlaceSlack, Progress};
use crate::request::RequestDistances;
use crate::ride::{driven_on, is_within_limits, ride_at, ride_of};
use crate::scan::{PricedInsertion, best_pair, best_single, rules_out_single};
use crate::shared_prefix::{
    copy_prefix, progress_after_prefix, set_place, shared_prefix_length, stop_after_prefix,
};
use crate::slack::fill_slack;
use crate::span::Span;
use plan_types::{Kind, OutOfMemory, Problem, Request, Stop, requests_are_found_by_stop};
use std::alloc::Global;
use std::marker::Model;

/// The table of a route. For each place it has the start of service, the latest start, the load and the
/// distance so far. Distances and times are in the problem's unit.
#[derive(Debug, Drop)]
pub struct RouteTable {
    limits: Limits,
    depot: Stop,
    // The depot, each stop in order, and the depot at the return.
    places: Vec<PlaceSlack>,
    span: Span,
}

impl Model for RouteTable {
    ghost use Rattle.slack_tables.specs.Course.{Course};

    ghost Value = { Course };

    ghost use Rattle.slack_tables.specs.TableFields.{course_within, IsTable};

    ghost view = { course_within };

    ghost invariant = { IsTable };
}

impl RouteTable {
    ghost use Rattle.std.specs.Prelude.{List, IsSomeAnd, IfSome};
    ghost use Rattle.plan_types.specs.Instance.{Instance};
    ghost use Rattle.route_sched.specs.Schedule.{start, load, route_length};
    ghost use Rattle.slack_tables.specs.Latest.{IsLatestStartLimit};
    ghost use Rattle.slack_tables.specs.Course.{course_of, course_route, IsCourseIn};
    ghost use Rattle.slack_tables.specs.Insertion.{inserted, ArePlaces, KeepsLimits, IsAdded};
    ghost use Rattle.slack_tables.specs.Best.{IsBestAddition};
    ghost use Rattle.slack_tables.specs.FitsNowhere.{FitsNowhere, IsMaxDemand};
    ghost use Rattle.slack_tables.specs.RequestFloors.{AreFloors, AreDistances};

    /// Builds the table of a route. The caller guarantees that its stops belong to current requests, are
    /// distinct, and keep the capacity and the windows.
    pub fn build(alloc: Global, problem: &Problem, route: &[u32]) -> Result<RouteTable, OutOfMemory>
        requires route { AreDistinctStops problem.now route.now }
        requires limits { KeepsLimits problem.now route.now }
        ensures course { IfOk result (λ table. table ≡ course_of problem.now route.now) }
        ensures route { IfOk result (λ table. course_route table ≡ route.now) }
    {
        let mut places = Vec::with_capacity(alloc, route.len() + 2)?;
        rebuild_places(&mut places, problem, &[], route)?;
        let span = Span::of(places.as_slice());
        Ok(RouteTable {
            limits: limits_of(problem),
            depot: problem.depot,
            places,
            span,
        })
    }

    /// Makes this the table of another route, reusing its memory. If an allocation fails, the table stays
    /// unchanged. This is fastest if the route of `near` has most stops of `route` in the same order.
    pub fn rebuild(
        &mut self,
        problem: &Problem,
        near: &RouteTable,
        route: &[u32],
    ) -> Result<(), OutOfMemory>
        requires near { IsCourseIn problem.now near.now }
        requires route { AreDistinctStops problem.now route.now }
        requires limits { KeepsLimits problem.now route.now }
        ensures course { OnOk result (self.new ≡ course_of problem.now route.now) }
        ensures route { OnOk result (course_route self.new ≡ route.now) }
        ensures refused { OnErr result (self.new ≡ self.old) }
    {
        rebuild_places(&mut self.places, problem, near.rows(), route)?;
        self.limits = limits_of(problem);
        self.depot = problem.depot;
        self.span = Span::of(self.places.as_slice());
        Ok(())
    }

    /// Turns this table into the table of another route, reusing its memory. Returns `None` if the route
    /// exceeds the capacity or a window. This is fastest if the route of `near` has most stops of `route` in
    /// the same order.
    ///
    /// This takes one pass along the route. `keeps_limits` followed by `rebuild` takes two.
    pub fn into_rebuilt(
        self,
        problem: &Problem,
        near: &RouteTable,
        route: &[u32],
    ) -> Result<Option<RouteTable>, OutOfMemory>
        requires near { IsCourseIn problem.now near.now }
        requires route { AreDistinctStops problem.now route.now }
        ensures course { IfOk result (λ o.
            IfSome o (λ table. table ≡ course_of problem.now route.now)) }
        ensures route { IfOk result (λ o. IfSome o (λ table. course_route table ≡ route.now)) }
        ensures kept { IfOk result (λ o. (IsSome o) ↔ KeepsLimits problem.now route.now) }
    {
        let RouteTable { mut places, .. } = self;
        if !rebuild_places(&mut places, problem, near.rows(), route)? {
            return Ok(None);
        }
        let span = Span::of(places.as_slice());
        Ok(Some(RouteTable {
            limits: limits_of(problem),
            depot: problem.depot,
            places,
            span,
        }))
    }

    /// Returns whether a route keeps the capacity and the windows. This is fastest if the route of this table
    /// has most stops of `route` in the same order.
    pub fn keeps_limits(&self, problem: &Problem, route: &[u32]) -> bool
        requires near { IsCourseIn problem.now self.now }
        requires route { AreDistinctStops problem.now route.now }
        ensures { (result ≡ true) ↔ KeepsLimits problem.now route.now }
    {
        stops_are_few(problem, route);
        drive_route(&mut [], problem, self.rows(), route)
    }

    // Returns the places of the table. They also serve to build the tables of similar routes.
    #[inline(always)]
    fn rows(&self) -> &[PlaceSlack]
        ensures known { AreKnown self.now result.now }
        ensures linked { AreLinked result.now }
        ensures prefixes { (p : Instance) → IsCourseIn p self.now → KnowsPrefixes p result.now }
        ensures stops { (p : Instance) → IsCourseIn p self.now → KnowsStops p result.now }
    {
        self.places.as_slice()
    }

    /// Returns the number of stops of the route.
    pub fn stop_count(&self) -> usize
        ensures count { result ≡ length self.now.stops }
        ensures few { result ≤ 40001 }
    {
        self.places.len() - 2
    }

    /// Returns the stop at a place. It is the depot at place 0 and after the last stop.
    #[inline(always)]
    pub fn stop(&self, index: usize) -> &Stop
        requires { index ≤ length self.now.stops + 1 }
        ensures stop { (p : Instance) (route : List ℕ) → course_of p route ≡ self.now
            → result.now ≡ place p route index }
        ensures placed { HasValidCoordinates result.now }
    {
        let places = self.rows();
        &small_row(places, index).at.stop
    }

    /// Returns whether the bounding box of the route shows that each stop of the route is farther from `center`
    /// than `reach`.
    #[inline(always)]
    pub fn is_beyond(&self, center: &Stop, reach: u32) -> bool
        ensures { IsTrue result → (p : Instance) (route : List ℕ) → course_of p route ≡ self.now
            → (k : ℕ) → 1 ≤ k → k ≤ length route
            → reach < distance center.now (place p route k) }
    {
        self.span.is_beyond(center, reach)
    }

    /// Returns the start of service at a place. Place 0 is the departure from the depot; the place after the
    /// last stop is the return.
    pub fn start(&self, place: usize) -> u64
        requires { place ≤ length self.now.stops + 1 }
        ensures { (p : Instance) (route : List ℕ) → course_of p route ≡ self.now
            → result ≡ start p route place }
    {
        let places = self.rows();
        row_at(places, place).at.start
    }

    /// Returns the latest start of service at a place that misses neither a later window nor the return. The
    /// window of the place itself does not count. Returns `None` if any start will do: at the return, and for a
    /// problem of kind `Vrp`.
    pub fn latest_start(&self, place: usize) -> Option<u64>
        requires { place ≤ length self.now.stops + 1 }
        ensures { (p : Instance) (route : List ℕ) → course_of p route ≡ self.now
            → IsLatestStartLimit p route place result }
    {
        let places = self.rows();
        if place + 1 == places.len() {
            return None;
        }
        match self.limits.kind {
            Kind::LiLim => Some(row_at(places, place).latest_start),
            Kind::Vrp => None,
        }
    }

    /// Returns the load after a place.
    pub fn load(&self, place: usize) -> i64
        requires { place ≤ length self.now.stops + 1 }
        ensures { (p : Instance) (route : List ℕ) → course_of p route ≡ self.now
            → result ≡ load p route place }
    {
        let places = self.rows();
        load_at(row_at(places, place))
    }

    /// Returns the distance of the route, including the return to the depot.
    pub fn distance(&self) -> u64
        ensures { (p : Instance) (route : List ℕ) → course_of p route ≡ self.now
            → result ≡ route_length p route }
    {
        let places = self.rows();
        row_at(places, places.len() - 1).at.distance
    }

    /// Returns the distance that a request adds if it is inserted with its pickup at place `i` and its delivery
    /// at place `j` of the new route, or a single at `i`. Returns `None` if the new route exceeds the capacity
    /// or a window. Places count from 1. Allocates nothing. If the request is already in the route, the answer
    /// is about inserting it a second time.
    ///
    /// The added distance can be negative, since rounded distances break the triangle inequality.
    pub fn try_insert(&self, problem: &Problem, name: u32, i: u64, j: u64) -> Option<i64>
        requires course { IsCourseIn problem.now self.now }
        requires places { IsSomeAnd (request_named problem.now name)
            (λ r. ArePlaces r (length (course_route self.now)) i j) }
        ensures { IfSome (request_named problem.now name)
            (λ r. IsAdded problem.now (course_route self.now)
            (inserted r i j (course_route self.now)) result) }
    {
        requests_are_found_by_stop();
        let places = self.rows();
        match current_request(problem, name) {
            Request::Single(stop) => added_by_single(self.limits, places, stop, i as usize),
            Request::Pair(pickup, delivery) => {
                added_by_pair(
                    self.limits,
                    places,
                    pickup,
                    delivery,
                    i as usize,
                    j as usize,
                )
            }
        }
    }

    /// Returns whether the bounding box and the load of the route show that a request fits nowhere for less
    /// than `below`. If not, `best_places` may still find no place.
    #[inline(always)]
    pub fn rules_out(&self, request: &Request, below: i64) -> bool
        ensures { result ≡ true → FitsNowhere self.now request.now below }
    {
        let ways = RequestDistances::floors(&self.depot, request);
        self.rules_out_with(request, &ways, below)
    }

    /// Like `rules_out`, for callers that try many routes with the same request: `ways` has the distances of
    /// the request.
    #[inline(always)]
    pub fn rules_out_with(&self, request: &Request, ways: &RequestDistances, below: i64) -> bool
        requires { AreFloors self.now.depot request.now ways.now }
        ensures { result ≡ true → FitsNowhere self.now request.now below }
    {
        requests_are_found_by_stop();
        match request {
            Request::Single(stop) => {
                rules_out_single(self.limits, &self.span, stop, ways.to_depot, below)
            }
            Request::Pair(pickup, delivery) => {
                self.span.is_far_pair(pickup, delivery, ways, below)
            }
        }
    }

    /// Returns the greatest demand of a single that may fit. A single with a greater demand exceeds the
    /// capacity wherever it is inserted.
    pub fn max_demand(&self) -> i64
        ensures { IsMaxDemand self.now result }
    {
        requests_are_found_by_stop();
        self.span.max_demand(self.limits)
    }

    /// Returns the insertion of a request that adds the least distance, with its pickup or single after the
    /// first `kept` stops. Returns `None` if it fits nowhere for less than `below`. Among places that add the
    /// same distance, the earliest pickup place wins, then the earliest delivery place. Allocates nothing.
    ///
    /// The distance is the one that `try_insert` returns for these places, in any problem that has the request
    /// and the route's stops. Call `rules_out` first: it is much faster if the answer is `None`.
    pub fn best_places(&self, request: &Request, kept: u64, below: i64) -> Option<PricedInsertion>
        requires request { IsRequest request.now }
        requires kept { kept ≤ length self.now.stops }
        ensures { (p : Instance) (name : ℕ) → IsInstance p → IsCourseIn p self.now
            → request_named p name ≡ Some request.now
            → IsBestAddition p (course_route self.now) request.now kept below result }
    {
        let ways = RequestDistances::of(&self.depot, request);
        self.best_places_with(request, &ways, kept, below)
    }

    /// Like `best_places`, for callers that try many routes with the same request: `ways` has the distances of
    /// the request.
    pub fn best_places_with(
        &self,
        request: &Request,
        ways: &RequestDistances,
        kept: u64,
        below: i64,
    ) -> Option<PricedInsertion>
        requires request { IsRequest request.now }
        requires ways { AreDistances self.now.depot request.now ways.now }
        requires kept { kept ≤ length self.now.stops }
        ensures { (p : Instance) (name : ℕ) → IsInstance p → IsCourseIn p self.now
            → request_named p name ≡ Some request.now
            → IsBestAddition p (course_route self.now) request.now kept below result }
    {
        requests_are_found_by_stop();
        let places = self.rows();
        match request {
            Request::Single(stop) => {
                best_single(self.limits, places, stop, kept as usize, below)
            }
            Request::Pair(pickup, delivery) => best_pair(
                self.limits,
                places,
                pickup,
                delivery,
                ways.between_stops,
                kept as usize,
                below,
            ),
        }
    }
}

/// Returns the place with this number, counted from 0.
pub(crate) fn row_at(places: &[PlaceSlack], place: usize) -> &PlaceSlack
    requires { place < length places.now }
    ensures { (d : PlaceSlack) → result.now ≡ slice_index_or places.now place d }
{
    &places[place]
}

fn load_at(place: &PlaceSlack) -> i64
    ensures { result ≡ place.now.at.load }
{
    place.at.load
}

// Rebuilds the places for another route, and returns whether the route keeps the limits.
fn rebuild_places(
    places: &mut Vec<PlaceSlack>,
    problem: &Problem,
    known: &[PlaceSlack],
    route: &[u32],
) -> Result<bool, OutOfMemory>
    requires known { AreLinked known.now }
    requires prefixes { KnowsPrefixes problem.now known.now }
    requires stops { KnowsStops problem.now known.now }
    requires route { AreDistinctStops problem.now route.now }
    ensures kept { IfOk result (λ kept. (kept ≡ true) ↔ KeepsLimits problem.now route.now) }
    ensures made { IfOk result (λ kept. kept ≡ true
        → IsTableOf problem.now route.now places.new.items) }
    ensures refused { OnErr result (places.new.items ≡ places.old.items) }
{
    stops_are_few(problem, route);
    places.resize(route.len() + 2, forward_row(at_depot(&problem.depot)))?;
    Ok(fill(places.as_mut_slice(), problem, known, route))
}

// Fills in the places of a route, and returns whether the route keeps the limits.
fn fill(places: &mut [PlaceSlack], problem: &Problem, known: &[PlaceSlack], route: &[u32]) -> bool
    requires known { AreLinked known.now }
    requires prefixes { KnowsPrefixes problem.now known.now }
    requires stops { KnowsStops problem.now known.now }
    requires route { AreDistinctStops problem.now route.now }
    requires count { length places.old ≡ length route.now + 2 }
    requires few { length route.now ≤ 40001 }
    ensures kept { (result ≡ true) ↔ KeepsLimits problem.now route.now }
    ensures made { result ≡ true → IsTableOf problem.now route.now places.new }
{
    if !drive_route(places, problem, known, route) {
        return false;
    }
    fill_slack(problem.kind, places);
    true
}

// Returns whether a route keeps the limits. Sets each place of the route that fits into `places`, with nothing
// known about later places.
fn drive_route(
    places: &mut [PlaceSlack],
    problem: &Problem,
    known: &[PlaceSlack],
    route: &[u32],
) -> bool
    requires known { AreLinked known.now }
    requires prefixes { KnowsPrefixes problem.now known.now }
    requires stops { KnowsStops problem.now known.now }
    requires route { AreDistinctStops problem.now route.now }
    requires count { length places.old ≤ length route.now + 2 }
    requires few { length route.now ≤ 40001 }
    ensures kept { (result ≡ true) ↔ KeepsLimits problem.now route.now }
    ensures opened { result ≡ true → AreForwardRows (place problem.now route.now) places.new }
{
    let limits = limits_of(problem);
    let prefix_len = shared_prefix_length(known, route);
    set_place(places, 0, at_depot(&problem.depot));
    copy_prefix(places, known, prefix_len);
    let mut from = stop_after_prefix(problem, known, prefix_len);
    let mut ride = ride_of(&progress_after_prefix(problem, known, prefix_len));
    let mut cursor = cursor_at(known, prefix_len, from);
    for k in prefix_len..route.len() + 1 {
        let is_next = is_next(known, &cursor, route, k);
        let stop = find_next_stop(problem, known, &cursor, is_next, route, k);
        let way = next_leg(known, &cursor, is_next, from, stop);
        ride = driven_on(&ride, from, way, stop);
        if !is_within_limits(limits, &ride, stop) {
            return false;
        }
        set_place(places, k + 1, ride_at(&ride, stop));
        cursor = next_cursor(known, &cursor, is_next, stop);
        from = stop;
    }
    true
}

// Proves that a route has at most as many stops as there are stop numbers.
fn stops_are_few(problem: &Problem, route: &[u32])
    requires { AreDistinctStops problem.now route.now }
    ensures { length route.now ≤ 40001 }
{
    let _kind = problem.kind;
}

// Returns the current request with this name.
fn current_request(problem: &Problem, name: u32) -> &Request
    requires { IsSome (request_named problem.now name) }
    ensures found { request_named problem.now name ≡ Some result.now }
    ensures request { IsRequest result.now }
    ensures problem { IsInstance problem.now }
{
    problem.requests.get(&name).unwrap()
}

// Returns the limits of a problem's vehicles.
fn limits_of(problem: &Problem) -> Limits
    ensures value { result ≡ limits_of problem.now }
    ensures valid { IsInstance problem.now }
{
    Limits {
        kind: problem.kind,
        capacity: problem.capacity,
    }
}

/// Returns the state at the depot, before the vehicle departs.
pub(crate) fn at_depot(depot: &Stop) -> Progress
    ensures { result ≡ at_depot depot.now }
{
    Progress {
        stop: *depot,
        start: u64::from(depot.earliest),
        load: 0,
        distance: 0,
    }
}

/// Returns a place with nothing known about later places.
pub(crate) fn forward_row(at: Progress) -> PlaceSlack
    ensures { result ≡ forward_row at }
{
    PlaceSlack {
        at,
        latest_start: u64::MAX,
        max_load: at.load,
    }
}
