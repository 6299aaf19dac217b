//! The prefix that a route shares with the route of a table. Its places are copied from the table.
//!
//! `rebuild`, `into_rebuilt` and `keeps_limits` get the table of a route that usually has most stops in the
//! same order. They copy the shared prefix. They compute each later place, with legs from the table if it has
//! them (`known_legs`). The table must be of the same problem, so that the same number means the same stop.

ghost use Rattle.std.specs.Prelude.{◌≡◌, ℕ, List, ◌+◌, ◌<◌, ◌≤◌, length, slice_set};
ghost use Rattle.plan_types.specs.Instance.{Instance};
ghost use Rattle.route_sched.specs.Route.{place};
ghost use Rattle.slack_tables.specs.SharedPrefix.{IsSharedPrefix, HasReached, KnowsPrefixes};
ghost use Rattle.slack_tables.specs.ForwardPass.{forward_row, AreForwardRowsTo};

use crate::progress::{PlaceSlack, Progress};
use crate::table::{at_depot, forward_row};
use plan_types::{Problem, Stop};

/// Returns the length of the shared prefix: the number of first stops of a route that the table has at the same
/// places.
pub(crate) fn shared_prefix_length(known: &[PlaceSlack], route: &[u32]) -> usize
    ensures within { result ≤ length route.now }
    ensures known { 0 < result → result + 1 < length known.now }
    ensures shared_prefix { IsSharedPrefix known.now route.now result }
{
    let end = route.len().min(known.len().saturating_sub(2));
    for k in 0..end {
        if known[k + 1].at.stop.number != route[k] {
            return k;
        }
    }
    end
}

/// Returns the state of the vehicle after the shared prefix.
pub(crate) fn progress_after_prefix(
    problem: &Problem,
    known: &[PlaceSlack],
    prefix_len: usize,
) -> Progress
    requires prefixes { KnowsPrefixes problem.now known.now }
    requires known { 0 < prefix_len → prefix_len + 1 < length known.now }
    ensures { (route : List ℕ) → IsSharedPrefix known.now route prefix_len
        → HasReached problem.now route prefix_len result }
{
    if prefix_len == 0 {
        return at_depot(&problem.depot);
    }
    known[prefix_len].at
}

/// Returns the last stop of the shared prefix, or the depot if the prefix is empty.
pub(crate) fn stop_after_prefix<'a>(
    problem: &'a Problem,
    known: &'a [PlaceSlack],
    prefix_len: usize,
) -> &'a Stop
    requires prefixes { KnowsPrefixes problem.now known.now }
    requires known { 0 < prefix_len → prefix_len + 1 < length known.now }
    ensures { (route : List ℕ) → IsSharedPrefix known.now route prefix_len
        → result.now ≡ place problem.now route prefix_len }
{
    if prefix_len == 0 {
        return &problem.depot;
    }
    &known[prefix_len].at.stop
}

/// Copies the places of the shared prefix from the table, except for what depends on later places.
pub(crate) fn copy_prefix(places: &mut [PlaceSlack], known: &[PlaceSlack], prefix_len: usize)
    requires known { 0 < prefix_len → prefix_len + 1 < length known.now }
    requires few { prefix_len ≤ 40001 }
    ensures len { length places.new ≡ length places.old }
    ensures opened { (p : Instance) (route : List ℕ) → KnowsPrefixes p known.now
        → IsSharedPrefix known.now route prefix_len → AreForwardRowsTo (place p route) 1 places.old
        → AreForwardRowsTo (place p route) (prefix_len + 1) places.new }
{
    for k in 0..prefix_len {
        set_place(places, k + 1, known[k + 1].at);
    }
}

/// Sets a place to this state, with nothing known about later places, if `places` is long enough.
#[inline(always)]
pub(crate) fn set_place(places: &mut [PlaceSlack], place: usize, at: Progress)
    ensures { places.new ≡ slice_set places.old place (forward_row at) }
{
    if place < places.len() {
        places[place] = forward_row(at);
    }
}
