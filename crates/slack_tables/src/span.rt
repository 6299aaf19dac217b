//! Lower bounds on the distance that a request adds to a route, computed without looking at each place.
//!
//! A span has the bounding box of the stops, the longest leg between two consecutive stops, the longer of the
//! first and the last leg, and the load at the end. These rule out scans that cannot find anything:
//! - A single that exceeds the capacity at the end exceeds it wherever it is inserted.
//! - A stop adds at least twice its distance to the box minus the longest leg. At an end of the route it adds
//!   at least its distances to the box and to the depot, minus the longer of the first and the last leg.
//! - A pair whose stops are not consecutive adds at least the sum of these bounds for both stops. If they are
//!   consecutive and between two stops, it adds at least both distances to the box plus the distance between
//!   its stops, minus the longest leg. At an end of the route, the distance to the depot replaces one distance
//!   to the box, and the longer of the first and the last leg replaces the longest leg.
//!
//! The bounds do not rely on the triangle inequality, so rounding does not invalidate them. Distances are
//! bounded from below without a square root: by the greater of their components along two directions
//! (`distance_lower_bound`), at most about 2 % too low, or faster by the longer side (`longer_side_between`),
//! up to 30 % too low.

ghost use Rattle.std.specs.Prelude.{◌≡◌, ◌+◌, ◌*◌, ◌^◌, ◌≤◌, ◌<◌, ℕ, ℤ, pos, ◌+ℤ◌, ◌-ℤ◌, ◌≤ℤ◌, ◌<ℤ◌, ◌-◌, IsTrue, All, length, slice_index_or, unsigned_abs};
ghost use Rattle.plan_types.specs.declared.requests.Stop.{Stop};
ghost use Rattle.nint_dist.specs.Distance.{distance};
ghost use Rattle.slack_tables.specs.declared.progress.PlaceSlack.{PlaceSlack};
ghost use Rattle.slack_tables.specs.DriveSteps.{IsSmallRow};
ghost use Rattle.slack_tables.specs.RequestFloors.{AreFloorsOfPair, AreSmallDistances};
ghost use Rattle.slack_tables.specs.Span.{IsInside, IsSmallSpan, IsSpanTo, AreEnds, IsSpan, IsFloor, IsFloorOfPair, IsFarSingle, IsFarPair, table_leg};

use crate::legs::small_row;
use crate::progress::{Limits, PlaceSlack, difference};
use crate::request::RequestDistances;
use nint_dist::distances_are_nearest_roots;
use plan_types::Stop;

/// The bounding box of the stops of a route, its longest leg between stops, the longer of its legs from and to
/// the depot, and its load at the end.
#[derive(Clone, Copy, Debug)]
pub(crate) struct Span {
    west: i32,
    east: i32,
    south: i32,
    north: i32,
    longest_leg: i64,
    longest_depot_leg: i64,
    load: i64,
}

// Lower bounds on the distances from a stop: to all stops in a span (`inside`) and to the depot (`to_depot`).
#[derive(Clone, Copy)]
struct DistanceFloors {
    inside: u64,
    to_depot: u64,
}

impl Span {
    /// Returns the span of the places of a route.
    pub(crate) fn of(places: &[PlaceSlack]) -> Span
        requires places { All IsSmallRow places.now }
        requires count { 2 ≤ length places.now }
        ensures { IsSpan result places.now }
    {
        let mut span = Span::of_first_stop(places);
        for k in 2..places.len() - 1 {
            let before = small_row(places, k - 1);
            let here = small_row(places, k);
            span = span.extended(before, here);
        }
        span
    }

    // Returns the span of only the first stop, with the ends of the route.
    fn of_first_stop(places: &[PlaceSlack]) -> Span
        requires places { All IsSmallRow places.now }
        requires count { 2 ≤ length places.now }
        ensures within { IsSpanTo result places.now 2 }
        ensures ends { AreEnds result places.now }
    {
        let first = small_row(places, 1);
        let end = small_row(places, places.len() - 1);
        Span {
            west: first.at.stop.x,
            east: first.at.stop.x,
            south: first.at.stop.y,
            north: first.at.stop.y,
            longest_leg: 0,
            longest_depot_leg: longest_depot_leg(places),
            load: end.at.load,
        }
    }

    // Returns the span extended by the place `here`, which follows the place `before` of the span.
    fn extended(&self, before: &PlaceSlack, here: &PlaceSlack) -> Span
        requires before { IsSmallRow before.now }
        requires here { IsSmallRow here.now }
        requires small { IsSmallSpan self.now }
        ensures inside { IsInside result here.now.at.stop }
        ensures wider { (s : Stop) → IsInside self.now s → IsInside result s }
        ensures table_leg { table_leg before.now here.now ≤ℤ result.longest_leg }
        ensures longer { self.now.longest_leg ≤ℤ result.longest_leg }
        ensures longest_depot_leg { result.longest_depot_leg ≡ self.now.longest_depot_leg }
        ensures load { result.load ≡ self.now.load }
        ensures small { IsSmallSpan result }
    {
        let stop = &here.at.stop;
        Span {
            west: min_of(&self.west, &stop.x),
            east: max_of(&self.east, &stop.x),
            south: min_of(&self.south, &stop.y),
            north: max_of(&self.north, &stop.y),
            longest_leg: self.longer(before, here),
            longest_depot_leg: self.longest_depot_leg,
            load: self.load,
        }
    }

    fn longer(&self, before: &PlaceSlack, here: &PlaceSlack) -> i64
        requires before { IsSmallRow before.now }
        requires here { IsSmallRow here.now }
        requires small { IsSmallSpan self.now }
        ensures here { table_leg before.now here.now ≤ℤ result }
        ensures before { self.now.longest_leg ≤ℤ result }
        ensures small { unsigned_abs result ≤ 2 ^ 52 }
    {
        self.longest_leg.max(table_leg(before, here))
    }

    /// Returns the greatest demand of a single that may fit. A single with a greater demand exceeds the
    /// capacity wherever it is inserted.
    pub(crate) fn max_demand(&self, limits: Limits) -> i64
        requires small { IsSmallSpan self.now }
        ensures { (demand : ℤ) → result <ℤ demand
            → pos limits.capacity <ℤ (self.now.load +ℤ demand) }
    {
        i64::from(limits.capacity) - self.load
    }

    /// Returns whether a single exceeds the capacity wherever it is inserted.
    pub(crate) fn is_full(&self, limits: Limits, stop: &Stop) -> bool
        requires small { IsSmallSpan self.now }
        ensures { IsTrue result → pos limits.capacity <ℤ (self.now.load +ℤ stop.now.demand) }
    {
        self.max_demand(limits) < i64::from(stop.demand)
    }

    /// Returns whether a single adds `below` or more wherever it is inserted. `to_depot` is a lower bound on its
    /// distance to the depot.
    pub(crate) fn is_far_single(&self, stop: &Stop, to_depot: u64, below: i64) -> bool
        requires small { IsSmallSpan self.now }
        requires to_depot { to_depot ≤ 2 ^ 33 }
        ensures { IsTrue result → (depot : Stop) → to_depot ≤ distance depot stop.now
            → IsFarSingle self.now depot stop.now below }
    {
        let inside = self.lower_bound_inside(stop);
        if self.inner(inside) < below {
            return false;
        }
        self.floor(&DistanceFloors { inside, to_depot }) >= below
    }

    /// Returns whether a pair adds `below` or more wherever it is inserted. `ways` has lower bounds on its
    /// distances.
    pub(crate) fn is_far_pair(
        &self,
        pickup: &Stop,
        delivery: &Stop,
        ways: &RequestDistances,
        below: i64,
    ) -> bool
        requires small { IsSmallSpan self.now }
        requires ways { AreSmallDistances ways.now }
        ensures { IsTrue result → (depot : Stop)
            → AreFloorsOfPair depot pickup.now delivery.now ways.now
            → IsFarPair self.now depot pickup.now delivery.now below }
    {
        let pickup_inside = self.lower_bound_inside(pickup);
        let delivery_inside = self.lower_bound_inside(delivery);
        if self.inner(pickup_inside) + self.inner(delivery_inside) < below {
            return false;
        }
        let to_pickup = DistanceFloors {
            inside: pickup_inside,
            to_depot: ways.to_depot,
        };
        let to_delivery = DistanceFloors {
            inside: delivery_inside,
            to_depot: ways.delivery_to_depot,
        };
        self.floor(&to_pickup) + self.floor(&to_delivery) >= below
            && self.floor_of_pair(&to_pickup, &to_delivery, ways.between_stops) >= below
    }

    // Returns a lower bound on the distance that a stop adds between two stops of the route.
    fn inner(&self, inside: u64) -> i64
        requires small { IsSmallSpan self.now }
        requires inside { inside ≤ 2 ^ 33 }
        ensures value { result ≡ pos (inside + inside) -ℤ self.now.longest_leg }
        ensures small { unsigned_abs result ≤ 2 ^ 53 }
    {
        difference(inside + inside, 0) - self.longest_leg
    }

    // Returns a lower bound on the distance that a stop adds anywhere in the route.
    fn floor(&self, near: &DistanceFloors) -> i64
        requires small { IsSmallSpan self.now }
        requires inside { near.now.inside ≤ 2 ^ 33 }
        requires to_depot { near.now.to_depot ≤ 2 ^ 33 }
        ensures floor { IsFloor self.now near.now result }
        ensures small { unsigned_abs result ≤ 2 ^ 53 }
    {
        let outer = difference(near.inside + near.to_depot, 0) - self.longest_depot_leg;
        self.inner(near.inside).min(outer)
    }

    // Returns a lower bound on the distance that a pair adds if its stops are consecutive.
    fn floor_of_pair(
        &self,
        pickup: &DistanceFloors,
        delivery: &DistanceFloors,
        between_stops: u64,
    ) -> i64
        requires small { IsSmallSpan self.now }
        requires pickup_inside { pickup.now.inside ≤ 2 ^ 33 }
        requires pickup_home { pickup.now.to_depot ≤ 2 ^ 33 }
        requires delivery_inside { delivery.now.inside ≤ 2 ^ 33 }
        requires delivery_home { delivery.now.to_depot ≤ 2 ^ 33 }
        requires between_stops { between_stops ≤ 2 ^ 33 }
        ensures { IsFloorOfPair self.now pickup.now delivery.now between_stops result }
    {
        let inner = difference(pickup.inside + between_stops + delivery.inside, 0)
            - self.longest_leg;
        let ends = (pickup.to_depot + delivery.inside).min(pickup.inside + delivery.to_depot);
        let outer = difference(ends + between_stops, 0) - self.longest_depot_leg;
        inner.min(outer)
    }

    /// Returns whether each stop in the span is known to be farther from `center` than `reach`.
    #[inline(always)]
    pub(crate) fn is_beyond(&self, center: &Stop, reach: u32) -> bool
        ensures { IsTrue result → (s : Stop) → IsInside self.now s → reach < distance center.now s }
    {
        distances_are_nearest_roots();
        let dx = gap(self.west, self.east, center.x);
        let dy = gap(self.south, self.north, center.y);
        u64::from(reach) < longer_side(dx, dy)
    }

    // Returns a lower bound on the distance from the stop to each stop in the span.
    fn lower_bound_inside(&self, stop: &Stop) -> u64
        ensures below { (s : Stop) → IsInside self.now s → result ≤ distance s stop.now }
        ensures bound { result ≤ 2 ^ 33 }
    {
        distances_are_nearest_roots();
        let dx = gap(self.west, self.east, stop.x);
        let dy = gap(self.south, self.north, stop.y);
        length_lower_bound(dx, dy)
    }
}

// Returns the longer of the legs from and to the depot.
fn longest_depot_leg(places: &[PlaceSlack]) -> i64
    requires places { All IsSmallRow places.now }
    requires count { 2 ≤ length places.now }
    ensures first { (d : PlaceSlack) → table_leg (slice_index_or places.now 0 d)
        (slice_index_or places.now 1 d) ≤ℤ result }
    ensures last { (d : PlaceSlack) → table_leg (slice_index_or places.now (length places.now - 2) d)
        (slice_index_or places.now (length places.now - 1) d) ≤ℤ result }
    ensures small { unsigned_abs result ≤ 2 ^ 52 }
{
    let depot = small_row(places, 0);
    let first = small_row(places, 1);
    let last = small_row(places, places.len() - 2);
    let end = small_row(places, places.len() - 1);
    table_leg(depot, first).max(table_leg(last, end))
}

// Returns the leg from one place to the next.
fn table_leg(before: &PlaceSlack, here: &PlaceSlack) -> i64
    requires before { IsSmallRow before.now }
    requires here { IsSmallRow here.now }
    ensures value { result ≡ table_leg before.now here.now }
    ensures small { unsigned_abs result ≤ 2 ^ 51 }
{
    difference(here.at.distance, before.at.distance)
}

/// Returns a lower bound on the distance between two stops.
pub(crate) fn distance_lower_bound(a: &Stop, b: &Stop) -> u64
    ensures below { result ≤ distance a.now b.now }
    ensures bound { result ≤ 2 ^ 33 }
{
    distances_are_nearest_roots();
    length_lower_bound(u64::from(a.x.abs_diff(b.x)), u64::from(a.y.abs_diff(b.y)))
}

/// Returns a lower bound on the distance between two stops: the greater difference of their coordinates. It is
/// faster than `distance_lower_bound` and less exact.
#[inline(always)]
pub(crate) fn longer_side_between(a: &Stop, b: &Stop) -> u64
    ensures below { result ≤ distance a.now b.now }
    ensures bound { result ≤ 2 ^ 33 }
{
    distances_are_nearest_roots();
    longer_side(u64::from(a.x.abs_diff(b.x)), u64::from(a.y.abs_diff(b.y)))
}

// Returns a lower bound on the distance between stops whose coordinates differ by `dx` and `dy`.
#[inline(always)]
fn longer_side(dx: u64, dy: u64) -> u64
    requires dx { dx < 2 ^ 32 }
    requires dy { dy < 2 ^ 32 }
    ensures below { (e : ℕ) → dx * dx + dy * dy ≤ e * (e + 1) → result ≤ e }
    ensures bound { result ≤ 2 ^ 33 }
{
    dx.max(dy)
}

// Returns the distance of the coordinate `x` from the interval between `low` and `high`.
fn gap(low: i32, high: i32, x: i32) -> u64
    ensures below { (z : ℤ) → low ≤ℤ z → z ≤ℤ high → result ≤ unsigned_abs (z -ℤ x) }
    ensures bound { result < 2 ^ 32 }
{
    if x < low {
        return u64::from(low.abs_diff(x));
    }
    if high < x {
        return u64::from(x.abs_diff(high));
    }
    0
}

// Returns a lower bound on the distance between stops whose coordinates differ by `dx` and `dy`, without a
// square root. A distance is at least its component along any direction. One of the two directions used here is
// close to that of the distance.
fn length_lower_bound(dx: u64, dy: u64) -> u64
    requires dx { dx < 2 ^ 32 }
    requires dy { dy < 2 ^ 32 }
    ensures below { (e : ℕ) → dx * dx + dy * dy ≤ e * (e + 1) → result ≤ e }
    ensures bound { result ≤ 2 ^ 33 }
{
    let long = dx.max(dy);
    let short = dx.min(dy);
    let flat = (long * 251 + short * 50) / 256;
    let steep = (long * 213 + short * 142) / 256;
    flat.max(steep)
}

// Returns the smaller of two coordinates. Takes references, so that the goals of callers mention only numbers.
fn min_of(a: &i32, b: &i32) -> i32
    ensures first { result ≤ℤ a.now }
    ensures second { result ≤ℤ b.now }
{
    (*a).min(*b)
}

// Returns the greater of two coordinates.
fn max_of(a: &i32, b: &i32) -> i32
    ensures first { a.now ≤ℤ result }
    ensures second { b.now ≤ℤ result }
{
    (*a).max(*b)
}
