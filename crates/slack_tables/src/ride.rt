//! The step of a vehicle to the next stop, and between the places of a table. Used to build tables, for one
//! insertion and for the scan.
//!
//! A `Ride` is the state of a vehicle without its stop. Callers pass the length of each leg, so a known leg is
//! not computed again. Prices are compared before limits are checked.

ghost use Rattle.std.specs.Prelude.{◌≡◌, ◌≤◌, ◌+◌, ◌^◌, unsigned_abs, IfSome};
ghost use Rattle.plan_types.specs.Limits.{IsVisit};
ghost use Rattle.slack_tables.specs.DriveSteps.{driven_on, IsNear, IsSmall, IsSmallRow};
ghost use Rattle.nint_dist.specs.Distance.{distance};
ghost use Rattle.slack_tables.specs.Ride.{ride_of, ride_at, driven, is_within_limits, ridden, tail_is_within_limits, continues_within_limits, can_visit, price, price_below, IsSmallRide, IsNearRide};

use crate::progress::{Limits, PlaceSlack, Progress, difference, is_in_time, moved_load};
use plan_types::Stop;
use route_sched::load_after;

/// The time and load of a vehicle at a place, and its distance so far.
#[derive(Clone, Copy)]
pub(crate) struct Ride {
    pub start: u64,
    pub load: i64,
    pub distance: u64,
}

/// Returns the state without the stop.
pub(crate) fn ride_of(at: &Progress) -> Ride
    ensures { result ≡ ride_of at.now }
{
    Ride {
        start: at.start,
        load: at.load,
        distance: at.distance,
    }
}

/// Returns the state after the service and the leg to another stop. A vehicle that arrives early waits.
pub(crate) fn drive(from: &Ride, service: u32, leg: u64, to: &Stop) -> Ride
    requires from { IsSmallRide (2 ^ 58) from.now }
    requires leg { leg ≤ 2 ^ 58 }
    ensures value { result ≡ driven from.now service leg to.now }
    ensures start { result.start ≤ from.now.start + service + leg + 2 ^ 32 }
    ensures load { unsigned_abs result.load ≤ unsigned_abs from.now.load + 2 ^ 31 }
{
    let arrival = from.start + u64::from(service) + leg;
    Ride {
        start: arrival.max(u64::from(to.earliest)),
        load: load_after(from.load, to.demand),
        distance: from.distance + leg,
    }
}

/// Returns the state after the leg between two stops.
#[inline(always)]
pub(crate) fn driven_on(ride: &Ride, from: &Stop, way: u64, stop: &Stop) -> Ride
    requires from { IsSmall (2 ^ 58) (ride_at ride.now from.now) }
    requires to { IsVisit stop.now }
    requires way { way ≡ distance from.now stop.now }
    requires bound { way ≤ 2828427 }
    ensures value { ride_at result stop.now ≡ driven_on (ride_at ride.now from.now) stop.now }
    ensures near { IsNear (ride_at ride.now from.now) (ride_at result stop.now) }
{
    drive(ride, from.service, way, stop)
}

/// Returns the state at this stop.
#[inline(always)]
pub(crate) fn ride_at(ride: &Ride, stop: &Stop) -> Progress
    ensures { result ≡ ride_at ride.now stop.now }
{
    Progress {
        stop: *stop,
        start: ride.start,
        load: ride.load,
        distance: ride.distance,
    }
}

/// Returns whether the load and the start are within the limits at this stop.
pub(crate) fn is_within_limits(limits: Limits, ride: &Ride, stop: &Stop) -> bool
    ensures { result ≡ is_within_limits limits ride.now stop.now }
{
    ride.load <= i64::from(limits.capacity)
        && is_in_time(limits.kind, ride.start, u64::from(stop.latest))
}

/// Returns the state at the next stop if it is within the limits.
pub(crate) fn ride_on(
    limits: Limits,
    from: &Ride,
    service: u32,
    leg: u64,
    to: &Stop,
) -> Option<Ride>
    requires from { IsSmallRide (2 ^ 58) from.now }
    requires leg { leg ≤ 2 ^ 58 }
    ensures value { result ≡ ridden limits from.now service leg to.now }
    ensures near { IfSome result (λ ride. IsNearRide from.now leg ride) }
{
    let ride = drive(from, service, leg, to);
    if is_within_limits(limits, &ride, to) {
        Some(ride)
    } else {
        None
    }
}

// Returns whether all places of the old route after `tail` keep the limits if the vehicle is at `tail` in state
// `ride`.
fn tail_is_within_limits(limits: Limits, ride: &Ride, tail: &PlaceSlack) -> bool
    requires ride { IsSmallRide (2 ^ 60) ride.now }
    requires tail { IsSmallRow tail.now }
    ensures { result ≡ tail_is_within_limits limits ride.now tail.now }
{
    moved_load(tail.max_load, tail.at.load, ride.load) <= i64::from(limits.capacity)
        && is_in_time(limits.kind, ride.start, tail.latest_start)
}

// Returns whether the place `tail` and all later places keep the limits if the vehicle continues to `tail`.
fn continues_within_limits(
    limits: Limits,
    from: &Ride,
    service: u32,
    leg: u64,
    tail: &PlaceSlack,
) -> bool
    requires from { IsSmallRide (2 ^ 58) from.now }
    requires leg { leg ≤ 2 ^ 58 }
    requires tail { IsSmallRow tail.now }
    ensures { result ≡ continues_within_limits limits from.now service leg tail.now }
{
    let ride = drive(from, service, leg, &tail.at.stop);
    is_within_limits(limits, &ride, &tail.at.stop) && tail_is_within_limits(limits, &ride, tail)
}

/// The distances from a place to a stop, and from the stop to the next place.
#[derive(Clone, Copy)]
pub(crate) struct Detour {
    pub to: u64,
    pub from: u64,
}

// Returns whether the limits are kept at the stop, at the next place and at all later places.
fn can_visit(
    limits: Limits,
    at: &Ride,
    service: u32,
    detour: Detour,
    stop: &Stop,
    tail: &PlaceSlack,
) -> bool
    requires at { IsSmallRide (2 ^ 56) at.now }
    requires to { detour.to ≤ 2 ^ 56 }
    requires from { detour.from ≤ 2 ^ 56 }
    requires tail { IsSmallRow tail.now }
    ensures { result ≡ can_visit limits at.now service detour.to stop.now detour.from tail.now }
{
    let ride = drive(at, service, detour.to, stop);
    is_within_limits(limits, &ride, stop)
        && continues_within_limits(limits, &ride, stop.service, detour.from, tail)
}

/// Returns the distance that `stop` adds before the place `tail` if the distance is less than `below` and all
/// limits are kept. The distance is compared first, since that is faster than checking the limits.
pub(crate) fn price_below(
    below: i64,
    limits: Limits,
    at: &Ride,
    service: u32,
    detour: Detour,
    stop: &Stop,
    tail: &PlaceSlack,
) -> Option<i64>
    requires at { IsSmallRide (2 ^ 56) at.now }
    requires to { detour.to ≤ 2 ^ 56 }
    requires from { detour.from ≤ 2 ^ 56 }
    requires tail { IsSmallRow tail.now }
    ensures { result ≡ price_below below limits at.now service detour.to stop.now detour.from
        tail.now }
{
    let price = price(at, detour, tail);
    if price < below && can_visit(limits, at, service, detour, stop, tail) {
        Some(price)
    } else {
        None
    }
}

/// Returns the distance that a detour to a stop adds before a place.
pub(crate) fn price(at: &Ride, detour: Detour, tail: &PlaceSlack) -> i64
    requires at { at.now.distance ≤ 2 ^ 58 }
    requires to { detour.to ≤ 2 ^ 58 }
    requires from { detour.from ≤ 2 ^ 58 }
    requires tail { tail.now.at.distance ≤ 2 ^ 60 }
    ensures { result ≡ price at.now detour.to detour.from tail.now }
{
    difference(at.distance + detour.to + detour.from, tail.at.distance)
}
