//! The places of a route where lower bounds on distances show that a pickup is too late or makes later stops
//! late.
//!
//! A place is skipped if such a bound shows that the vehicle reaches the pickup after its latest time, or the
//! next stop more than 1 after that stop's latest start. The 1 is for a delivery directly after the pickup. It
//! can make the rest of the trip shorter by 1, since rounded distances break the triangle inequality.

ghost use Rattle.std.specs.Prelude.{◌≡◌, ◌+◌, ◌-◌, ◌^◌, ◌≤◌, ◌<◌, All, IsTrue, length, slice_index_or};
ghost use Rattle.nint_dist.specs.Distance.{distance};
ghost use Rattle.slack_tables.specs.declared.progress.PlaceSlack.{PlaceSlack};
ghost use Rattle.slack_tables.specs.ClosedPlaces.{deadline_of, makes_late, has_deadline_before, AreTight, IsClosed, AreClosed};
ghost use Rattle.slack_tables.specs.DriveSteps.{IsSmallRow};
ghost use Rattle.slack_tables.specs.Legs.{AreAscending};

use crate::legs::{leg_longer_side, small_row};
use crate::progress::{Limits, PlaceSlack, is_in_time};
use crate::ride::Detour;
use nint_dist::detours_save_at_most_one;
use plan_types::{Kind, Stop};

/// Returns the first place after the first `kept` stops where lower bounds on distances do not rule out the
/// pickup, or the number of places if there is none. Takes no square root.
pub(crate) fn first_open(limits: Limits, places: &[PlaceSlack], pickup: &Stop, kept: usize) -> usize
    requires places { All IsSmallRow places.now }
    requires ascending { AreAscending places.now }
    requires tight { AreTight limits.kind places.now }
    requires kept { kept + 2 ≤ length places.now }
    ensures following { kept < result }
    ensures within { result ≤ length places.now }
    ensures closed { AreClosed limits places.now pickup.now kept result }
{
    let first = first_by_deadline(limits, places, pickup, kept);
    let mut to = leg_longer_side(places, first - 1, pickup);
    for i in first..places.len() {
        if is_past(limits, places, pickup, i) {
            return places.len();
        }
        let from = leg_longer_side(places, i, pickup);
        if !is_closed(limits, places, pickup, i, Detour { to, from }) {
            return i;
        }
        to = from;
    }
    places.len()
}

// Returns the first place after the first `kept` stops where `deadline_of` is not more than 1 before the
// pickup's window opens, or the number of places if there is none.
fn first_by_deadline(limits: Limits, places: &[PlaceSlack], pickup: &Stop, kept: usize) -> usize
    requires places { All IsSmallRow places.now }
    requires tight { AreTight limits.kind places.now }
    requires kept { kept + 2 ≤ length places.now }
    ensures following { kept < result }
    ensures within { result ≤ length places.now }
    ensures closed { AreClosed limits places.now pickup.now kept result }
{
    detours_save_at_most_one();
    for i in kept + 1..places.len() {
        if !has_deadline_before(limits.kind, small_row(places, i), pickup.earliest) {
            return i;
        }
    }
    places.len()
}

// Returns whether service at a place must start more than 1 before `earliest`.
#[inline(always)]
fn has_deadline_before(kind: Kind, place: &PlaceSlack, earliest: u32) -> bool
    ensures { result ≡ has_deadline_before kind place.now earliest }
{
    match kind {
        Kind::LiLim => deadline_of(place) + 1 < u64::from(earliest),
        Kind::Vrp => false,
    }
}

// Returns the latest start of service at a place from which neither its own window nor a later one is missed.
#[inline(always)]
fn deadline_of(place: &PlaceSlack) -> u64
    ensures value { result ≡ deadline_of place.now }
    ensures bound { result < 2 ^ 32 }
{
    place.latest_start.min(u64::from(place.at.stop.latest))
}

/// Returns whether service at place `i - 1` starts after the pickup's latest time. If it does, place `i` and
/// all later places are too late for the pickup.
#[inline(always)]
pub(crate) fn is_past(limits: Limits, places: &[PlaceSlack], pickup: &Stop, i: usize) -> bool
    requires places { All IsSmallRow places.now }
    requires ascending { AreAscending places.now }
    requires from_one { 1 ≤ i }
    requires within { i < length places.now }
    ensures { IsTrue result → AreClosed limits places.now pickup.now (i - 1) (length places.now) }
{
    let before = small_row(places, i - 1);
    !is_in_time(limits.kind, before.at.start, u64::from(pickup.latest))
}

/// Returns whether lower bounds on the distances to and from a pickup at place `i` show that no pair fits with
/// its pickup at this place.
///
/// A delivery directly after the pickup can make the rest of the trip shorter by 1, since rounded distances
/// break the triangle inequality.
#[inline(always)]
pub(crate) fn is_closed(
    limits: Limits,
    places: &[PlaceSlack],
    pickup: &Stop,
    i: usize,
    near: Detour,
) -> bool
    requires places { All IsSmallRow places.now }
    requires tight { AreTight limits.kind places.now }
    requires from_one { 1 ≤ i }
    requires within { i < length places.now }
    requires to { (d : PlaceSlack) → near.to
        ≤ distance (slice_index_or places.now (i - 1) d).at.stop pickup.now }
    requires from { (d : PlaceSlack) → near.from
        ≤ distance (slice_index_or places.now i d).at.stop pickup.now }
    requires to_small { near.to ≤ 2 ^ 33 }
    requires from_small { near.from ≤ 2 ^ 33 }
    ensures { IsTrue result → IsClosed limits places.now pickup.now i }
{
    detours_save_at_most_one();
    let before = small_row(places, i - 1);
    let next = small_row(places, i);
    match limits.kind {
        Kind::LiLim => makes_late(before, next, pickup, near),
        Kind::Vrp => false,
    }
}

// Returns whether a pickup between two places, or the place after it, is too late.
#[inline(always)]
fn makes_late(before: &PlaceSlack, next: &PlaceSlack, pickup: &Stop, near: Detour) -> bool
    requires before { IsSmallRow before.now }
    requires to { near.to ≤ 2 ^ 33 }
    requires from { near.from ≤ 2 ^ 33 }
    ensures { result ≡ makes_late before.now next.now pickup.now near.to near.from }
{
    let arrival = before.at.start + u64::from(before.at.stop.service) + near.to;
    let start = arrival.max(u64::from(pickup.earliest));
    u64::from(pickup.latest) < start
        || deadline_of(next) + 1 < start + u64::from(pickup.service) + near.from
}
