//! The distance that a request adds at given places of a route.

ghost use Rattle.std.specs.Prelude.{◌≡◌, ◌+◌, ◌-◌, ◌^◌, ◌<◌, ◌≤◌, All, length};
ghost use Rattle.plan_types.specs.Limits.{IsVisit};
ghost use Rattle.slack_tables.specs.declared.progress.PlaceSlack.{PlaceSlack};
ghost use Rattle.slack_tables.specs.DriveSteps.{with_single, with_pair, IsSmallRow};

use crate::legs::{leg_at, small_row};
use crate::progress::{Limits, PlaceSlack};
use crate::ride::{Detour, price_below, ride_of, ride_on};
use nint_dist::dist;
use plan_types::Stop;

// An upper bound: no price is this high.
const MAX_PRICE: i64 = i64::MAX;

/// Returns the distance that a single adds if it is inserted after place `i - 1`.
pub(crate) fn added_by_single(
    limits: Limits,
    places: &[PlaceSlack],
    stop: &Stop,
    i: usize,
) -> Option<i64>
    requires places { All IsSmallRow places.now }
    requires stop { IsVisit stop.now }
    requires from_one { 1 ≤ i }
    requires within { i < length places.now }
    ensures { (d : PlaceSlack) → result ≡ with_single limits places.now stop.now i d }
{
    let before = small_row(places, i - 1);
    let tail = small_row(places, i);
    let detour = Detour {
        to: leg_at(places, i - 1, stop),
        from: leg_at(places, i, stop),
    };
    let service = before.at.stop.service;
    price_below(
        MAX_PRICE,
        limits,
        &ride_of(&before.at),
        service,
        detour,
        stop,
        tail,
    )
}

/// Returns the distance that a pair adds if its pickup is inserted after place `i - 1` and its delivery is at
/// place `j` of the new route.
pub(crate) fn added_by_pair(
    limits: Limits,
    places: &[PlaceSlack],
    pickup: &Stop,
    delivery: &Stop,
    i: usize,
    j: usize,
) -> Option<i64>
    requires places { All IsSmallRow places.now }
    requires few { length places.now ≤ 40003 }
    requires pickup { IsVisit pickup.now }
    requires delivery { IsVisit delivery.now }
    requires from_one { 1 ≤ i }
    requires order { i < j }
    requires within { j ≤ length places.now }
    ensures { (d : PlaceSlack)
        → result ≡ with_pair limits places.now pickup.now delivery.now i j d }
{
    let before = &small_row(places, i - 1).at;
    let to = leg_at(places, i - 1, pickup);
    let mut stop = *pickup;
    let mut ride = ride_on(limits, &ride_of(before), before.stop.service, to, pickup)?;
    for k in i..j - 1 {
        let next = &small_row(places, k).at.stop;
        ride = ride_on(limits, &ride, stop.service, leg_at(places, k, &stop), next)?;
        stop = *next;
    }
    let detour = Detour {
        to: u64::from(dist(&stop, delivery)),
        from: leg_at(places, j - 1, delivery),
    };
    let tail = small_row(places, j - 1);
    price_below(
        MAX_PRICE,
        limits,
        &ride,
        stop.service,
        detour,
        delivery,
        tail,
    )
}
