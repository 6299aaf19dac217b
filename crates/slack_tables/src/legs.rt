//! The distances between the places of a table and a stop, exact or as lower bounds, and the least detours from
//! each place on.

ghost use Rattle.std.specs.Prelude.{◌≡◌, ◌+◌, ◌^◌, ◌≤◌, ◌<◌, All, IsTrue, ℕ, length};
ghost use Rattle.std.specs.Int.{int_min};
ghost use Rattle.plan_types.specs.Limits.{IsVisit};
ghost use Rattle.nint_dist.specs.Distance.{distance};
ghost use Rattle.std.specs.Prelude.{slice_index_or, ℤ, pos, ◌+ℤ◌, ◌-ℤ◌, ◌≤ℤ◌, unsigned_abs};
ghost use Rattle.slack_tables.specs.declared.progress.PlaceSlack.{PlaceSlack};
ghost use Rattle.slack_tables.specs.DriveSteps.{IsSmallRow};
ghost use Rattle.slack_tables.specs.Legs.{AreLeastDetours};

use crate::progress::{PlaceSlack, difference};
use crate::span::{distance_lower_bound, longer_side_between};
use crate::table::row_at;
use nint_dist::dist;
use plan_types::Stop;

/// The greatest number of places for which the least detours are stored. They are on the stack, so nothing is
/// allocated.
pub(crate) const BUFFER_LEN: usize = 128;

/// The number of places up to which a smaller buffer is used, since it takes less time to clear.
pub(crate) const SHORT_BUFFER_LEN: usize = 32;

// An upper bound: no detour is this long.
const MAX_DETOUR: i64 = 1 << 60;

/// Returns the distance between a place and the stop.
#[inline(always)]
pub(crate) fn leg_at(places: &[PlaceSlack], k: usize, stop: &Stop) -> u64
    requires places { All IsSmallRow places.now }
    requires stop { IsVisit stop.now }
    requires within { k < length places.now }
    ensures value { (d : PlaceSlack) → result
        ≡ distance (slice_index_or places.now k d).at.stop stop.now }
    ensures bound { result ≤ 2 ^ 32 }
{
    let place = small_row(places, k);
    u64::from(dist(&place.at.stop, stop))
}

/// Returns a lower bound on the distance between a place and the stop, without a square root.
pub(crate) fn leg_lower_bound(places: &[PlaceSlack], k: usize, stop: &Stop) -> u64
    requires within { k < length places.now }
    ensures value { (d : PlaceSlack) → result
        ≤ distance (slice_index_or places.now k d).at.stop stop.now }
    ensures bound { result ≤ 2 ^ 33 }
{
    let place = row_at(places, k);
    distance_lower_bound(&place.at.stop, stop)
}

/// Returns a lower bound on the distance between a place and the stop: the greater difference of their
/// coordinates. It is faster than `leg_lower_bound` and less exact.
#[inline(always)]
pub(crate) fn leg_longer_side(places: &[PlaceSlack], k: usize, stop: &Stop) -> u64
    requires within { k < length places.now }
    ensures value { (d : PlaceSlack) → result
        ≤ distance (slice_index_or places.now k d).at.stop stop.now }
    ensures bound { result ≤ 2 ^ 33 }
{
    let place = row_at(places, k);
    longer_side_between(&place.at.stop, stop)
}

// Returns by how much a detour to a stop makes the leg from `here` to `next` longer. `to` is the distance from
// `here` to the stop, `from` the distance from the stop to `next`.
fn detour(here: &PlaceSlack, to: u64, from: u64, next: &PlaceSlack) -> i64
    requires here { IsSmallRow here.now }
    requires to { to ≤ 2 ^ 33 }
    requires from { from ≤ 2 ^ 33 }
    requires next { IsSmallRow next.now }
    ensures value { result
        ≡ pos (here.now.at.distance + to + from) -ℤ pos next.now.at.distance }
    ensures small { unsigned_abs result ≤ 2 ^ 60 }
{
    difference(here.at.distance + to + from, next.at.distance)
}

/// Fills in, for each place from `first` on, a lower bound on all detours from that place on.
pub(crate) fn fill_least_detours(
    least: &mut [i64],
    places: &[PlaceSlack],
    stop: &Stop,
    first: usize,
)
    requires places { All IsSmallRow places.now }
    requires count { length least.old ≡ length places.now }
    requires within { first < length least.old }
    ensures { AreLeastDetours first least.new places.now stop.now }
{
    let last = least.len() - 1;
    least[last] = MAX_DETOUR;
    let mut from = leg_lower_bound(places, last, stop);
    for k in (first..last).rev() {
        let here = small_row(places, k);
        let next = small_row(places, k + 1);
        let to = leg_lower_bound(places, k, stop);
        least[k] = min_of(detour(here, to, from, next), least[k + 1]);
        from = to;
    }
}

fn min_of(a: i64, b: i64) -> i64
    ensures { result ≡ int_min a b }
{
    a.min(b)
}

/// Returns whether each insertion from place `k` on is known to add `bound` or more, if the distance up to
/// place `k` has already grown from `base` to `reach`.
pub(crate) fn cannot_improve(least: &[i64], k: usize, reach: u64, base: u64, bound: i64) -> bool
    requires reach { reach ≤ 2 ^ 59 }
    requires base { base ≤ 2 ^ 59 }
    requires least { k < length least.now
        → unsigned_abs (slice_index_or least.now k (pos 0)) ≤ 2 ^ 60 }
    ensures within { IsTrue result → k < length least.now }
    ensures expensive { IsTrue result → bound ≤ℤ
        ((pos reach -ℤ pos base) +ℤ slice_index_or least.now k (pos 0)) }
{
    k < least.len() && difference(reach, base) + least[k] >= bound
}

/// Returns a place of a table. Its numbers are small enough that sums do not overflow.
pub(crate) fn small_row(places: &[PlaceSlack], k: usize) -> &PlaceSlack
    requires places { All IsSmallRow places.now }
    requires within { k < length places.now }
    ensures place { (d : PlaceSlack) → result.now ≡ slice_index_or places.now k d }
    ensures small { IsSmallRow result.now }
{
    row_at(places, k)
}
