//! Stops and legs, taken from a table that has them, since a lookup is faster than a square root.
//!
//! If the vehicle is at a place of the table, by its coordinates, and the next stop is at the table's next
//! place, by its number, then the stop and the leg are taken from the table. Otherwise the stop is looked up in
//! the problem and the leg is computed. So how far the table is searched for a stop affects only the time.

ghost use Rattle.std.specs.Prelude.{◌≡◌, ◌+◌, ◌<◌, ◌≤◌, IsTrue, length, slice_index};
ghost use Rattle.plan_types.specs.Limits.{IsVisit};
ghost use Rattle.nint_dist.specs.Distance.{distance};
ghost use Rattle.route_sched.specs.Route.{AreDistinctStops, place};
ghost use Rattle.slack_tables.specs.Legs.{AreLinked};
ghost use Rattle.slack_tables.specs.TableCursor.{IsLocatedAt, IsCursorFor, IsNext, KnowsStops};

use crate::progress::PlaceSlack;
use crate::table::row_at;
use nint_dist::{dist, distances_are_nearest_roots};
use plan_types::{Problem, Stop};
use route_sched::next_stop;

// Returns whether two stops have the same coordinates.
fn is_same_location(stop: &Stop, other: &Stop) -> bool
    ensures { IsTrue result → (stop.now.x ≡ other.now.x) × (stop.now.y ≡ other.now.y) }
{
    stop.x == other.x && stop.y == other.y
}

/// A cursor into a table: the place of the vehicle's stop, or the last place that was found if `is_here` is
/// false.
#[derive(Clone, Copy)]
pub(crate) struct TableCursor {
    pub place: usize,
    pub is_here: bool,
}

/// Returns a cursor at this place. Its `is_here` is true if the table's stop there has the coordinates of the
/// vehicle's stop.
pub(crate) fn cursor_at(known: &[PlaceSlack], place: usize, stop: &Stop) -> TableCursor
    ensures { IsCursorFor known.now stop.now result }
{
    let is_here = place < known.len() && is_same_location(&known[place].at.stop, stop);
    TableCursor { place, is_here }
}

/// Returns whether the table's next place has the next stop of the route, or the depot after the last stop.
#[inline(always)]
pub(crate) fn is_next(known: &[PlaceSlack], cursor: &TableCursor, route: &[u32], k: usize) -> bool
    requires { IsTrue cursor.now.is_here → cursor.now.place < length known.now }
    ensures { IsTrue result → IsNext known.now route.now cursor.now k }
{
    if !cursor.is_here {
        return false;
    }
    let next = cursor.place + 1;
    next < known.len() && known[next].at.stop.number == next_stop_number(route, k)
}

// Returns the number of the stop after the first `k` stops of a route, or 0 for the depot.
#[inline(always)]
fn next_stop_number(route: &[u32], k: usize) -> u32
    ensures { result ≡ slice_index route.now k }
{
    if k < route.len() {
        return route[k];
    }
    0
}

/// Returns the next stop of a route. If `is_next`, takes it from the table, since a lookup in the problem takes
/// longer.
#[inline(always)]
pub(crate) fn find_next_stop<'a>(
    problem: &'a Problem,
    known: &'a [PlaceSlack],
    cursor: &TableCursor,
    is_next: bool,
    route: &[u32],
    k: usize,
) -> &'a Stop
    requires route { AreDistinctStops problem.now route.now }
    requires within { k ≤ length route.now }
    requires depot { problem.now.depot.number ≡ 0 }
    requires stops { KnowsStops problem.now known.now }
    requires next { IsTrue is_next → IsNext known.now route.now cursor.now k }
    ensures value { result.now ≡ place problem.now route.now (k + 1) }
    ensures visit { IsVisit result.now }
    ensures next { IsTrue is_next → IsLocatedAt known.now (cursor.now.place + 1) result.now }
{
    if is_next {
        return &row_at(known, cursor.place + 1).at.stop;
    }
    next_stop(problem, route, k)
}

/// Returns the distance to the next stop of a route, from the table if `is_next`.
#[inline(always)]
pub(crate) fn next_leg(
    known: &[PlaceSlack],
    cursor: &TableCursor,
    is_next: bool,
    from: &Stop,
    to: &Stop,
) -> u64
    requires linked { AreLinked known.now }
    requires from { IsVisit from.now }
    requires to { IsVisit to.now }
    requires here { IsTrue is_next → IsLocatedAt known.now cursor.now.place from.now }
    requires next { IsTrue is_next → IsLocatedAt known.now (cursor.now.place + 1) to.now }
    ensures value { result ≡ distance from.now to.now }
    ensures bound { result ≤ 2828427 }
{
    distances_are_nearest_roots();
    if is_next {
        return row_at(known, cursor.place + 1).at.distance
            - row_at(known, cursor.place).at.distance;
    }
    u64::from(dist(from, to))
}

/// Returns the cursor for the next stop of a route. If not `is_next`, searches a few places ahead for the stop.
#[inline(always)]
pub(crate) fn next_cursor(
    known: &[PlaceSlack],
    cursor: &TableCursor,
    is_next: bool,
    stop: &Stop,
) -> TableCursor
    requires next { IsTrue is_next → IsLocatedAt known.now (cursor.now.place + 1) stop.now }
    ensures { IsCursorFor known.now stop.now result }
{
    if is_next {
        return TableCursor {
            place: cursor.place + 1,
            is_here: true,
        };
    }
    search_ahead(known, cursor.place, stop)
}

// A stop is searched for at the places less than this far ahead. After a move most stops of a route are where
// they were or a few places on.
const LOOKAHEAD: usize = 8;

// Returns a cursor at the table's place of the stop if this is one of the next few places. Otherwise `is_here`
// is false.
#[inline(always)]
fn search_ahead(known: &[PlaceSlack], place: usize, stop: &Stop) -> TableCursor
    ensures { IsCursorFor known.now stop.now result }
{
    let end = known.len().min(place.saturating_add(LOOKAHEAD));
    for k in place.saturating_add(1)..end {
        if is_same_location(&known[k].at.stop, stop) {
            return TableCursor {
                place: k,
                is_here: true,
            };
        }
    }
    TableCursor {
        place,
        is_here: false,
    }
}
