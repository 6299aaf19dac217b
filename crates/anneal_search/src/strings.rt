//! The strings that a step cuts out of routes, and the requests with a stop in them.
ghost use Rattle.std.specs.Prelude.{◌≡◌, ◌++◌, ◌<◌, ◌≤◌, true, Some, All, IfOk, IfSome, OnOk, length};
ghost use Rattle.std.specs.List.{concat};
ghost use Rattle.std.specs.Option.{option_copied};
ghost use Rattle.plan_types.specs.Instance.{stop_at};
ghost use Rattle.plan_types.specs.Limits.{IsStop};
ghost use Rattle.nint_dist.specs.Distance.{HasValidCoordinates};
ghost use Rattle.route_sched.specs.Cost.{has_stop, used_count};
ghost use Rattle.move_ops.specs.Drafts.{draft_of, IsDraftOf};
ghost use Rattle.seeded_search.specs.SpatialIndex.{AreNearestStopLists};
ghost use Rattle.seeded_search.specs.Steps.{movable_names};
ghost use Rattle.anneal_search.specs.Strings.{longest, route_count, placed_cut, cut_of, cut_stops, strings_of, seed, drawn_stop, movable_at, movable_of, ruined_around, ruined_names};
ghost use Rattle.anneal_search.specs.StepLoops.{ArePlanned, IsCutOf, IsInRoute};

use crate::draws::{DrawnItem, draw};
use crate::routes::NearStop;
use crate::routes_by_nearest_stops::routes_around;
use move_ops::{Draft, request_named};
use plan_types::{OutOfMemory, Pins, Problem, Stop};
use seeded_search::{SearchContext, SpatialIndex};
use std::alloc::Global;

/// The position of a string in a route. Places count from 0.
#[derive(Clone, Copy, Debug, PartialEq, Eq)]
pub struct Cut {
    /// The place of the string's first stop.
    pub first: usize,
    /// The place after the string's last stop.
    pub end: usize,
    /// The place of the stop inside the string that stays, if there is one.
    pub kept: Option<usize>,
}

/// Returns the requests that the words of a step remove: the movable ones with a stop in a string, once for each
/// such stop.
#[inline(never)]
pub(crate) fn ruined_names(
    alloc: Global,
    context: &SearchContext,
    draft: &Draft,
    spatial_index: &mut SpatialIndex,
    movable: &[u32],
    words: &[u32; 16],
) -> Result<Vec<u32>, OutOfMemory>
    requires draft { IsDraftOf context.now.problem.now context.now.pins.now.routes draft.now }
    requires movable { let c = context.now in
        movable.now ≡ movable_names c.problem.now c.pins.now.routes (draft_of draft.now) }
    requires nearest_stops { AreNearestStopLists context.now.problem.now spatial_index.old }
    ensures names { let c = context.now in IfOk result (λ names. names.items
        ≡ ruined_names c.problem.now c.pins.now.routes (draft_of draft.now) words.now) }
    ensures nearest_stops { OnOk result
        (AreNearestStopLists context.now.problem.now spatial_index.new) }
{
    match seed(context.problem, movable, words[0]) {
        Some(center) => ruined_around(alloc, context, draft, spatial_index, center, words),
        None => Ok(Vec::new(alloc)),
    }
}

// Returns the stop around which strings are cut.
fn seed<'a>(problem: &'a Problem, movable: &[u32], word: u32) -> Option<&'a Stop>
    ensures found { option_copied result ≡ seed problem.now movable.now word }
    ensures stop { IfSome result (λ s. IsStop s.now) }
    ensures known { IfSome result (λ s. stop_at problem.now s.now.number ≡ Some s.now) }
{
    let DrawnItem { number, rest } = draw(word, movable.len());
    let name = movable.get(number)?;
    drawn_stop(problem, *name, rest)
}

// Returns the stop of the drawn request: the single stop, or the pickup or the delivery as the rest of the word
// says.
fn drawn_stop(problem: &Problem, name: u32, rest: u32) -> Option<&Stop>
    ensures found { option_copied result ≡ drawn_stop problem.now name rest }
    ensures stop { IfSome result (λ s. IsStop s.now) }
    ensures known { IfSome result (λ s. stop_at problem.now s.now.number ≡ Some s.now) }
{
    if rest < 1 << 31 {
        return problem.stop(name);
    }
    match problem.partner_of(name) {
        Some(delivery) => problem.stop(delivery),
        None => problem.stop(name),
    }
}

fn ruined_around(
    alloc: Global,
    context: &SearchContext,
    draft: &Draft,
    spatial_index: &mut SpatialIndex,
    center: &Stop,
    words: &[u32; 16],
) -> Result<Vec<u32>, OutOfMemory>
    requires draft { IsDraftOf context.now.problem.now context.now.pins.now.routes draft.now }
    requires center { HasValidCoordinates center.now }
    requires known { stop_at context.now.problem.now center.now.number ≡ Some center.now }
    requires nearest_stops { AreNearestStopLists context.now.problem.now spatial_index.old }
    ensures names { let c = context.now in IfOk result (λ names. names.items
        ≡ ruined_around c.problem.now c.pins.now.routes (draft_of draft.now) words.now center.now) }
    ensures nearest_stops { OnOk result
        (AreNearestStopLists context.now.problem.now spatial_index.new) }
{
    let SearchContext { problem, pins, .. } = *context;
    let longest = longest(draft);
    let count = route_count(longest, words[1]);
    let nears = routes_around(alloc, problem, draft, spatial_index, center, count)?;
    let stops = strings_of(alloc, draft, longest, &nears, words)?;
    movable_of(alloc, problem, pins, draft, &stops)
}

// Returns the greatest number of stops that a string removes: 10, or the mean length of the used routes, rounded
// down, if that is smaller. One more stop may stay inside.
fn longest(draft: &Draft) -> usize
    ensures value { result ≡ longest (draft_of draft.now) }
    ensures bound { result ≤ 10 }
{
    let Totals { stops, used } = totals_of(draft);
    if used == 0 {
        return 0;
    }
    (stops / u128::from(used)).min(10) as usize
}

// The number of stops in all routes, and the number of routes that are not empty.
#[derive(Clone, Copy)]
struct Totals {
    stops: u128,
    used: u64,
}

fn totals_of(draft: &Draft) -> Totals
    ensures stops { result.stops ≡ length (concat (draft_of draft.now)) }
    ensures used { result.used ≡ used_count (draft_of draft.now) }
{
    let mut stops = 0;
    let mut used = 0;
    for index in 0..draft.used_len() {
        let route = draft.route(index + 1);
        stops += route.len() as u128;
        used += u64::from(!route.is_empty());
    }
    Totals { stops, used }
}

// Returns the number of routes to cut. Christiaens and Vanden Berghe cut between 1 and 4 * 10 / (1 + longest)
// routes, to remove about ten stops on average. Here a number below 4 * 10 - (1 + longest) is drawn, divided by
// 1 + longest and rounded down. One more route than this is cut, but at most 12.
fn route_count(longest: usize, word: u32) -> usize
    requires { longest ≤ 10 }
    ensures value { result ≡ route_count longest word }
    ensures bound { result ≤ 12 }
{
    let cuts = draw(word, 39 - longest).number;
    (1 + cuts / (1 + longest)).min(12)
}

// Returns the stops of the strings in these routes.
fn strings_of(
    alloc: Global,
    draft: &Draft,
    longest: usize,
    nears: &[NearStop],
    words: &[u32; 16],
) -> Result<Vec<u32>, OutOfMemory>
    requires few { length nears.now ≤ 12 }
    requires longest { longest ≤ 10 }
    requires places { All (IsInRoute (draft_of draft.now)) nears.now }
    ensures { IfOk result (λ stops. stops.items
        ≡ strings_of (draft_of draft.now) words.now longest 0 nears.now) }
{
    let mut stops = Vec::with_capacity(alloc, nears.len() * longest)?;
    for index in 0..nears.len() {
        let near = nears[index];
        let route = draft.route(near.vehicle);
        let cut = cut_of(longest, words[4 + index], route.len(), near.place);
        push_stops(&mut stops, route, &cut)?;
    }
    Ok(stops)
}

// Appends the stops of a string, except the one that stays.
fn push_stops(stops: &mut Vec<u32>, route: &[u32], cut: &Cut) -> Result<(), OutOfMemory>
    requires { IsCutOf (length route.now) cut.now }
    ensures { OnOk result (stops.new.items ≡ stops.old.items ++ cut_stops route.now cut.now) }
{
    match cut.kept {
        Some(kept) => {
            stops.extend_from_slice(&route[cut.first..kept])?;
            stops.extend_from_slice(&route[kept + 1..cut.end])
        }
        None => stops.extend_from_slice(&route[cut.first..cut.end]),
    }
}

// Returns the position of the string that contains this place, in a route of `stops` stops.
fn cut_of(longest: usize, word: u32, stops: usize, place: usize) -> Cut
    requires { place < stops }
    ensures value { result ≡ cut_of longest word stops place }
    ensures within { IsCutOf stops result }
{
    let DrawnItem { number, rest } = draw(word, stops.min(longest));
    let taken = 1 + number;
    if taken < 2 || stops <= taken {
        return placed_cut(rest, stops, place, taken, false);
    }
    let splits = draw(rest, 2);
    placed_cut(splits.rest, stops, place, taken, splits.number == 1)
}

// Returns the position of the string, drawn from all positions that contain this place.
fn placed_cut(word: u32, stops: usize, place: usize, taken: usize, keeps: bool) -> Cut
    requires place { place < stops }
    requires some { 1 ≤ taken }
    requires within { taken ≤ stops }
    requires kept { keeps ≡ true → taken < stops }
    ensures value { result ≡ placed_cut word stops place taken keeps }
    ensures within { IsCutOf stops result }
{
    let count = if keeps { taken + 1 } else { taken };
    let low = (place + 1).saturating_sub(count);
    let high = place.min(stops - count);
    let DrawnItem { number, rest } = draw(word, high - low + 1);
    let first = low + number;
    let kept = if keeps {
        Some(first + 1 + draw(rest, taken - 1).number)
    } else {
        None
    };
    Cut {
        first,
        end: first + count,
        kept,
    }
}

// Returns the movable requests of these stops.
fn movable_of(
    alloc: Global,
    problem: &Problem,
    pins: &Pins,
    draft: &Draft,
    stops: &[u32],
) -> Result<Vec<u32>, OutOfMemory>
    requires draft { IsDraftOf problem.now pins.now.routes draft.now }
    requires planned { ArePlanned (draft_of draft.now) stops.now }
    ensures { IfOk result (λ names. names.items
        ≡ movable_of problem.now pins.now.routes (draft_of draft.now) stops.now) }
{
    let mut names = Vec::with_capacity(alloc, stops.len())?;
    for stop in stops {
        if let Some(name) = movable_at(problem, pins, draft, *stop) {
            names.push(name)?;
        }
    }
    Ok(names)
}

// Returns the request of a stop if it is movable. Since the stop is planned, so is its request; it only has to be
// checked that none of its stops is pinned.
fn movable_at(problem: &Problem, pins: &Pins, draft: &Draft, stop: u32) -> Option<u32>
    requires draft { IsDraftOf problem.now pins.now.routes draft.now }
    requires planned { has_stop (draft_of draft.now) stop ≡ true }
    ensures { result ≡ movable_at problem.now pins.now.routes (draft_of draft.now) stop }
{
    let name = problem.name_of(stop)?;
    let request = request_named(problem, name)?;
    if draft.is_pinned(problem, pins, &request) {
        None
    } else {
        Some(name)
    }
}
