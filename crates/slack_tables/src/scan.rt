//! The places of a route at which a request adds the least distance.
//!
//! A scan tries each place of the pickup, and for each the places of the delivery. Most places are skipped
//! before a square root is taken:
//! - all places, before the scan starts, if the span of the route rules out the request (`rules_out` of
//!   `table`);
//! - places of the pickup where a lower bound on times shows that the pickup or the next stop is too late
//!   (`closed`);
//! - places of a pickup or a single where a lower bound on prices shows that each insertion adds no less than
//!   the best so far, or no less than `below`;
//! - the rest of the delivery's places, once the vehicle is past the delivery's latest time.
//!
//! For the bounds on prices, a buffer on the stack holds the least detours to the delivery from each place on
//! (`legs`), so a scan allocates nothing. The buffer has room for 128 places, including both depot places. For
//! longer routes the least detours are not used.

ghost use Rattle.std.specs.Prelude.{◌≡◌, ◌+◌, ◌^◌, ◌-◌, ◌≤◌, ◌<◌, pos, ◌+ℤ◌, ◌-ℤ◌, ◌≤ℤ◌, All, IfSome, IsTrue, true, length, slice_index_or, unsigned_abs};
ghost use Rattle.plan_types.specs.Limits.{IsVisit};
ghost use Rattle.nint_dist.specs.Distance.{distance};
ghost use Rattle.slack_tables.specs.declared.progress.PlaceSlack.{PlaceSlack};
ghost use Rattle.slack_tables.specs.Best.{IsFirstOf, BestPlacesAreUnique};
ghost use Rattle.slack_tables.specs.ClosedPlaces.{AreTight};
ghost use Rattle.slack_tables.specs.DriveSteps.{IsSmall, IsSmallRow};
ghost use Rattle.slack_tables.specs.Legs.{AreLinked, AreAscending, IsNearBy};
ghost use Rattle.slack_tables.specs.Walk.{IsTrip, IsScan, IsScanFrom, IsLoadedRide, IsNearLeg};
ghost use Rattle.slack_tables.specs.Span.{IsSmallSpan, RulesOut};
ghost use Rattle.slack_tables.specs.Ride.{IsSmallRide, IsNearRide};
ghost use Rattle.slack_tables.specs.Scan.{AddsSingle, AddsPair, AddsDelivery, AreTooExpensive, IsNearLoadedRide, served_single, picked_up, advanced, none_below, offered, accepted};

use crate::closed::{first_open, is_closed, is_past};
use crate::legs::{
    BUFFER_LEN, SHORT_BUFFER_LEN, cannot_improve, fill_least_detours, leg_at, leg_longer_side,
    leg_lower_bound, small_row,
};
use crate::progress::{Limits, PlaceSlack, Progress, difference, is_in_time};
use crate::ride::{Detour, Ride, price, price_below, ride_of, ride_on};
use crate::span::Span;
use plan_types::Stop;

/// An insertion of a request into a route, with the distance that it adds.
///
/// In the new route the pickup is at place `pickup` and the delivery at place `delivery`. For a single both are
/// the same. Places count from 1.
#[derive(Clone, Copy, Debug, PartialEq, Eq)]
pub struct PricedInsertion {
    /// The added distance. It is negative if rounded distances make the route shorter.
    pub distance: i64,
    pub pickup: u64,
    pub delivery: u64,
}

/// Proves that there is only one best insertion: two calls of `best_places` with the same arguments return the
/// same insertion.
pub fn best_places_are_unique()
    ensures { BestPlacesAreUnique }
{}

// The best insertion so far, and the bound below which the distance of the next one has to be.
#[derive(Clone, Copy)]
struct Best {
    bound: i64,
    found: Option<PricedInsertion>,
}

impl Best {
    fn none_below(bound: i64) -> Best
        ensures { result ≡ none_below bound }
    {
        Best { bound, found: None }
    }

    // Records the insertion at these two places if it adds less than `bound`.
    fn offer(&mut self, distance: Option<i64>, pickup: usize, delivery: usize)
        ensures { self.new ≡ offered self.old distance pickup delivery }
    {
        match distance {
            Some(distance) if distance < self.bound => {
                self.bound = distance;
                self.found = Some(PricedInsertion {
                    distance,
                    pickup: pickup as u64,
                    delivery: delivery as u64,
                });
            }
            _ => {}
        }
    }

    // Records an insertion, if there is one, that adds less than `bound`.
    fn accept(&mut self, found: Option<PricedInsertion>)
        ensures { self.new ≡ accepted self.old found }
    {
        if let Some(addition) = found {
            self.bound = addition.distance;
            self.found = found;
        }
    }
}

/// Returns whether the span of a route shows that a single fits nowhere for less than `below`. `to_depot` is a
/// lower bound on the distance from the depot to the single.
#[inline(always)]
pub(crate) fn rules_out_single(
    limits: Limits,
    span: &Span,
    stop: &Stop,
    to_depot: u64,
    below: i64,
) -> bool
    requires small { IsSmallSpan span.now }
    requires to_depot { to_depot ≤ 2 ^ 33 }
    ensures { result ≡ true → (depot : Stop) → to_depot ≤ distance depot stop.now
        → RulesOut limits span.now depot stop.now below }
{
    if span.is_full(limits, stop) {
        return true;
    }
    span.is_far_single(stop, to_depot, below)
}

/// Returns the best place of a single after the first `kept` stops.
pub(crate) fn best_single(
    limits: Limits,
    places: &[PlaceSlack],
    stop: &Stop,
    kept: usize,
    below: i64,
) -> Option<PricedInsertion>
    requires places { All IsSmallRow places.now }
    requires stop { IsVisit stop.now }
    requires kept { kept + 2 ≤ length places.now }
    ensures { (d : PlaceSlack)
        → IsFirstOf (AddsSingle limits places.now stop.now kept below d) result }
{
    let mut best = Best::none_below(below);
    let mut to = leg_longer_side(places, kept, stop);
    for i in kept + 1..places.len() {
        let from = leg_longer_side(places, i, stop);
        let bound = best.bound;
        let distance = single_at(limits, places, stop, i, Detour { to, from }, bound);
        best.offer(distance, i, i);
        to = from;
    }
    best.found
}

// Returns the distance that a single adds at place `i` if it is less than `below` and all limits are kept.
// Compares prices by lower bounds first, since these take no square root: the faster bound, then the more exact
// one.
fn single_at(
    limits: Limits,
    places: &[PlaceSlack],
    stop: &Stop,
    i: usize,
    near: Detour,
    below: i64,
) -> Option<i64>
    requires places { All IsSmallRow places.now }
    requires stop { IsVisit stop.now }
    requires near { IsNearBy places.now stop.now i near }
    ensures { (d : PlaceSlack) → result ≡ served_single below limits places.now stop.now i d }
{
    let before = small_row(places, i - 1);
    let tail = small_row(places, i);
    let ride = ride_of(&before.at);
    if price(&ride, near, tail) >= below {
        return None;
    }
    let least = Detour {
        to: leg_lower_bound(places, i - 1, stop),
        from: leg_lower_bound(places, i, stop),
    };
    if price(&ride, least, tail) >= below {
        return None;
    }
    let detour = Detour {
        to: leg_at(places, i - 1, stop),
        from: leg_at(places, i, stop),
    };
    let service = before.at.stop.service;
    price_below(below, limits, &ride, service, detour, stop, tail)
}

/// Returns the best places of a pair with its pickup after the first `kept` stops. `between_stops` is the distance
/// between pickup and delivery.
pub(crate) fn best_pair(
    limits: Limits,
    places: &[PlaceSlack],
    pickup: &Stop,
    delivery: &Stop,
    between_stops: u64,
    kept: usize,
    below: i64,
) -> Option<PricedInsertion>
    requires places { All IsSmallRow places.now }
    requires ways { AreLinked places.now }
    requires ascending { AreAscending places.now }
    requires tight { AreTight limits.kind places.now }
    requires few { length places.now ≤ 40003 }
    requires pickup { IsVisit pickup.now }
    requires delivery { IsVisit delivery.now }
    requires between_stops { between_stops ≡ distance pickup.now delivery.now }
    requires between_stops_small { between_stops ≤ 2 ^ 32 }
    requires kept { kept + 2 ≤ length places.now }
    ensures { (d : PlaceSlack) → IsFirstOf
        (AddsPair limits places.now pickup.now delivery.now kept below d) result }
{
    let first = first_open(limits, places, pickup, kept);
    if first == places.len() {
        return None;
    }
    let trip = Trip {
        limits,
        pickup: *pickup,
        delivery: *delivery,
        between_stops,
    };
    if places.len() > BUFFER_LEN {
        return best_from(&trip, places, &[], first, below);
    }
    if places.len() > SHORT_BUFFER_LEN {
        return best_with_buffer(&trip, places, &mut [0; BUFFER_LEN], first, below);
    }
    best_with_buffer(&trip, places, &mut [0; SHORT_BUFFER_LEN], first, below)
}

// Calls `best_from` with a buffer for the least detours from each place on.
fn best_with_buffer(
    trip: &Trip,
    places: &[PlaceSlack],
    room: &mut [i64],
    first: usize,
    below: i64,
) -> Option<PricedInsertion>
    requires scan { IsScan trip.now places.now }
    requires from_one { 1 ≤ first }
    requires within { first < length places.now }
    requires room { length places.now ≤ length room.old }
    ensures { (d : PlaceSlack) → IsFirstOf (AddsPair trip.now.limits places.now trip.now.pickup
        trip.now.delivery (first - 1) below d) result }
{
    let least = &mut room[..places.len()];
    fill_least_detours(least, places, &trip.delivery, first);
    best_from(trip, places, least, first, below)
}

// A pair, the distance between its stops, and the limits of the vehicle.
#[derive(Clone, Copy)]
struct Trip {
    limits: Limits,
    pickup: Stop,
    delivery: Stop,
    between_stops: u64,
}

// Returns the best places of a pair with its pickup at place `first` or later. Ends at a place if service at
// the previous place starts after the pickup's latest time: then this place and all later ones are too late for
// the pickup.
fn best_from(
    trip: &Trip,
    places: &[PlaceSlack],
    least: &[i64],
    first: usize,
    below: i64,
) -> Option<PricedInsertion>
    requires scan { IsScanFrom trip.now places.now first least.now }
    requires from_one { 1 ≤ first }
    requires within { first < length places.now }
    ensures { (d : PlaceSlack) → IsFirstOf (AddsPair trip.now.limits places.now trip.now.pickup
        trip.now.delivery (first - 1) below d) result }
{
    let mut best = Best::none_below(below);
    let mut to = leg_lower_bound(places, first - 1, &trip.pickup);
    for i in first..places.len() {
        if is_past(trip.limits, places, &trip.pickup, i) {
            return best.found;
        }
        let from = leg_lower_bound(places, i, &trip.pickup);
        let bound = best.bound;
        best.accept(best_at(trip, places, least, i, Detour { to, from }, bound));
        to = from;
    }
    best.found
}

// Returns the best place of the delivery if the pickup is at place `i`. `near` has lower bounds on the
// distances to and from the pickup. Takes no square root if they show that the pickup is too late or that no
// price is below the bound.
fn best_at(
    trip: &Trip,
    places: &[PlaceSlack],
    least: &[i64],
    i: usize,
    near: Detour,
    below: i64,
) -> Option<PricedInsertion>
    requires scan { IsScanFrom trip.now places.now i least.now }
    requires near { IsNearBy places.now trip.now.pickup i near }
    ensures { (d : PlaceSlack) → IsFirstOf
        (AddsDelivery trip.now.limits places.now trip.now.pickup trip.now.delivery i below d)
        result }
{
    if is_closed(trip.limits, places, &trip.pickup, i, near) {
        return None;
    }
    if are_too_expensive(trip, places, least, i, near, below) {
        return None;
    }
    let before = small_row(places, i - 1);
    let to = leg_at(places, i - 1, &trip.pickup);
    let onward = leg_at(places, i, &trip.pickup);
    let Some(first) = pick_up(trip, &before.at, to, onward) else {
        return None;
    };
    best_delivery(trip, places, least, i, first, below)
}

// Returns whether lower bounds on prices show that a pair with its pickup at place `i` adds `below` or more at
// each place of its delivery.
fn are_too_expensive(
    trip: &Trip,
    places: &[PlaceSlack],
    least: &[i64],
    i: usize,
    near: Detour,
    below: i64,
) -> bool
    requires scan { IsScanFrom trip.now places.now i least.now }
    requires near { IsNearBy places.now trip.now.pickup i near }
    ensures { IsTrue result → AreTooExpensive trip.now.limits places.now trip.now.pickup
        trip.now.delivery i below }
{
    let before = small_row(places, i - 1);
    let next = small_row(places, i);
    let from = leg_lower_bound(places, i, &trip.delivery);
    let reach = before.at.distance + near.to;
    let beside = reach + trip.between_stops + from;
    is_too_expensive(least, i, beside, reach + near.from, next.at.distance, below)
}

// Returns whether neither a delivery directly after the pickup at place `i` nor a later one adds less than
// `below`. `near` is the distance up to place `i` of the table through both stops, `apart` the distance through
// only the pickup, and `base` the distance through neither.
fn is_too_expensive(least: &[i64], i: usize, near: u64, apart: u64, base: u64, below: i64) -> bool
    requires near { near ≤ 2 ^ 59 }
    requires apart { apart ≤ 2 ^ 59 }
    requires base { base ≤ 2 ^ 59 }
    requires least { i < length least.now
        → unsigned_abs (slice_index_or least.now i (pos 0)) ≤ 2 ^ 60 }
    ensures near { IsTrue result → below ≤ℤ (pos near -ℤ pos base) }
    ensures within { IsTrue result → i < length least.now }
    ensures apart { IsTrue result
        → below ≤ℤ ((pos apart -ℤ pos base) +ℤ slice_index_or least.now i (pos 0)) }
{
    difference(near, base) >= below && cannot_improve(least, i, apart, base, below)
}

// A vehicle between two places, with the pickup on board.
#[derive(Clone, Copy)]
struct LoadedRide {
    ride: Ride,
    // The service time at the last stop.
    service: u32,
    // The distance from the vehicle's place to the delivery.
    to_delivery: u64,
    // The distance from the vehicle's place to the next place of the table.
    onward: u64,
}

// Returns the state at the pickup if it is within the limits. `to` and `onward` are the distances to the pickup
// and from it to the next place of the table.
fn pick_up(trip: &Trip, before: &Progress, to: u64, onward: u64) -> Option<LoadedRide>
    requires trip { IsTrip trip.now }
    requires before { IsSmall (2 ^ 50) before.now }
    requires to { to ≤ 2 ^ 32 }
    requires onward { onward ≤ 2 ^ 32 }
    ensures value { result ≡ picked_up trip.now before.now to onward }
    ensures near { IfSome result (λ on. IsNearLoadedRide on) }
{
    let from = ride_of(before);
    let Some(ride) = ride_on(trip.limits, &from, before.stop.service, to, &trip.pickup) else {
        return None;
    };
    Some(LoadedRide {
        ride,
        service: trip.pickup.service,
        to_delivery: trip.between_stops,
        onward,
    })
}

// Returns the state at the next place, which is place `j - 1` of the table. `to_delivery` is the distance from
// that place to the delivery. Returns `None` if the place exceeds a limit or is the last one.
fn advance(
    limits: Limits,
    on: &LoadedRide,
    places: &[PlaceSlack],
    j: usize,
    to_delivery: u64,
) -> Option<LoadedRide>
    requires ride { IsSmallRide (2 ^ 58) on.now.ride }
    requires onward { on.now.onward ≤ 2 ^ 58 }
    requires from_two { 2 ≤ j }
    requires within { j ≤ length places.now }
    requires ways { AreLinked places.now }
    ensures value { (d : PlaceSlack) → result ≡ advanced limits on.now places.now j to_delivery d }
    ensures near { IfSome result (λ next. IsNearRide on.now.ride on.now.onward next.ride) }
{
    if j == places.len() {
        return None;
    }
    let here = &places[j - 1];
    let Some(ride) = ride_on(limits, &on.ride, on.service, on.onward, &here.at.stop) else {
        return None;
    };
    Some(LoadedRide {
        ride,
        service: here.at.stop.service,
        to_delivery,
        onward: places[j].at.distance - here.at.distance,
    })
}

// Returns the best place of the delivery if the pickup is at place `i` and the vehicle is at the pickup in
// state `first`. Ends once the vehicle is past the delivery's latest time.
fn best_delivery(
    trip: &Trip,
    places: &[PlaceSlack],
    least: &[i64],
    i: usize,
    first: LoadedRide,
    below: i64,
) -> Option<PricedInsertion>
    requires scan { IsScanFrom trip.now places.now i least.now }
    requires from_one { 1 ≤ i }
    requires within { i < length places.now }
    requires underway { (d : PlaceSlack)
        → IsLoadedRide trip.now.limits places.now trip.now.pickup trip.now.delivery i
        (i + 1) d first }
    requires near { (d : PlaceSlack) → IsNearLeg places.now (i + 1) d first }
    ensures { (d : PlaceSlack) → IsFirstOf
        (AddsDelivery trip.now.limits places.now trip.now.pickup trip.now.delivery i below d)
        result }
{
    let next = small_row(places, i);
    let base = next.at.distance;
    let reach = first.ride.distance + first.onward;
    let mut on = first;
    let mut best = Best::none_below(below);
    let latest = u64::from(trip.delivery.latest);
    for j in i + 1..places.len() + 1 {
        if !is_in_time(trip.limits.kind, on.ride.start, latest) {
            return best.found;
        }
        let tail = small_row(places, j - 1);
        let detour = Detour {
            to: on.to_delivery,
            from: leg_at(places, j - 1, &trip.delivery),
        };
        let bound = best.bound;
        let distance = price_below(
            bound,
            trip.limits,
            &on.ride,
            on.service,
            detour,
            &trip.delivery,
            tail,
        );
        best.offer(distance, i, j);
        let bound = best.bound;
        if cannot_improve(least, j - 1, reach, base, bound) {
            return best.found;
        }
        let Some(next) = advance(trip.limits, &on, places, j, detour.from) else {
            return best.found;
        };
        on = next;
    }
    best.found
}
