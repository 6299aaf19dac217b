//! A request tried at each place of a route, and the best of these trials.
ghost use Rattle.std.specs.Prelude.{◌≡◌, ◌≤◌, ◌<◌, ◌+◌, ◌-◌, ℕ, IfOk, IfSome, Some, length, map, take, true};
ghost use Rattle.std.specs.List.{range_with_len};
ghost use Rattle.route_sched.specs.Route.{AreDistinctStops};
ghost use Rattle.route_sched.specs.Schedule.{route_length};
ghost use Rattle.plan_explain.specs.Tables.{rows_of};
ghost use Rattle.plan_types.specs.declared.requests.Request.TheVariants.{Pair, Single};
ghost use Rattle.plan_types.specs.declared.requests.Stop.{Stop};
ghost use Rattle.move_ops.specs.Insertion.{inserted};
ghost use Rattle.request_explanation.specs.Insertions.{IsBase, IsDetour, FitsCapacity, IsNumberOf, HasPickupAt, IsTour, violations_in, is_settled, route_with};
ghost use Rattle.request_explanation.specs.Trials.{MayTake, best_from, best_trial, best_with, better, is_better, trial_of, trial_at};

use crate::insertions::{
    Detour, FirstViolations, Tour, distance_with, fits_capacity, rows_with, surely_violates,
    surely_violates_anyway, violation_with, violations_at, violations_in, violations_with,
};
use crate::latest_arrivals::latest_arrivals_of;
use crate::limit_violations::{LimitViolation, is_late_by_one, violates_less, violation_of};
use nint_dist::detours_save_at_most_one;
use plan_explain::{Row, rows_of};
use plan_types::{OutOfMemory, Problem, Request, Stop};
use route_sched::{next_stop, route_distance};
use std::alloc::Global;

/// The outcome of a request at its places in a route.
#[derive(Clone, Copy)]
pub(crate) struct Trial {
    pub violation: Option<LimitViolation>,
    /// The distance of the new route.
    pub distance: u64,
    /// The places of the stops in the new route; for a single both are the same.
    pub pickup: u64,
    pub delivery: u64,
}

/// Returns the best trial at the places after the first `kept` stops of the route: the first one that violates
/// least and, among those, has the shortest distance.
pub(crate) fn best_trial(
    alloc: Global,
    problem: &Problem,
    route: &[u32],
    request: &Request,
    kept: usize,
) -> Result<Option<Trial>, OutOfMemory>
    requires { MayTake problem.now request.now route.now }
    ensures { IfOk result (λ best. best ≡ best_trial problem.now route.now request.now kept) }
{
    match request {
        Request::Single(stop) => best_single(alloc, problem, route, stop, kept),
        Request::Pair(pickup, delivery) => {
            best_pair(alloc, problem, route, pickup, delivery, kept)
        }
    }
}

fn best_single(
    alloc: Global,
    problem: &Problem,
    route: &[u32],
    stop: &Stop,
    kept: usize,
) -> Result<Option<Trial>, OutOfMemory>
    requires { MayTake problem.now (Single stop.now) route.now }
    ensures { IfOk result (λ best. best
        ≡ best_trial problem.now route.now (Single stop.now) kept) }
{
    let mut best = None;
    for front in kept..route.len() + 1 {
        let trial = single_trial(alloc, problem, route, stop, front + 1)?;
        best = better(best, trial);
    }
    Ok(best)
}

fn best_pair(
    alloc: Global,
    problem: &Problem,
    route: &[u32],
    pickup: &Stop,
    delivery: &Stop,
    kept: usize,
) -> Result<Option<Trial>, OutOfMemory>
    requires { MayTake problem.now (Pair pickup.now delivery.now) route.now }
    ensures { IfOk result (λ best. best
        ≡ best_trial problem.now route.now (Pair pickup.now delivery.now) kept) }
{
    // Both stops are inserted at the end, so the whole route comes before them.
    let last = route.len() + 1;
    let whole = with_pair(alloc, route, pickup, delivery, last, last + 1)?;
    let stop = next_stop(problem, whole.as_slice(), route.len());
    let rows = rows_of(alloc, problem, route)?;
    let latest_arrivals = latest_arrivals_of(alloc, rows.as_slice())?;
    let base = Tour {
        route,
        rows: rows.as_slice(),
        latest_arrivals: latest_arrivals.as_slice(),
        distance: route_distance(problem, route),
        stop,
    };
    best_pickup(alloc, problem, route, pickup, delivery, &base, kept)
}

// Returns the best trial of a pair. The rows of the route are those of `base`.
fn best_pickup(
    alloc: Global,
    problem: &Problem,
    route: &[u32],
    pickup: &Stop,
    delivery: &Stop,
    base: &Tour<'_>,
    kept: usize,
) -> Result<Option<Trial>, OutOfMemory>
    requires once { MayTake problem.now (Pair pickup.now delivery.now) route.now }
    requires base { IsBase problem.now route.now pickup.now base.now }
    ensures { IfOk result (λ best. best
        ≡ best_trial problem.now route.now (Pair pickup.now delivery.now) kept) }
{
    let mut best = None;
    let mut front = violations_in(problem, &base.rows[..kept.min(base.rows.len())]);
    for at in kept..route.len() + 1 {
        let place = at + 1;
        if !can_skip_pickup(problem, base, front, place, &best) {
            best = best_delivery(alloc, problem, route, pickup, delivery, base, place, best)?;
        }
        front = front.then(violations_at(problem, &base.rows[at]));
    }
    Ok(best)
}

// Returns the best of `so_far` and the trials with the pickup at this place.
fn best_delivery(
    alloc: Global,
    problem: &Problem,
    route: &[u32],
    pickup: &Stop,
    delivery: &Stop,
    base: &Tour<'_>,
    place: usize,
    so_far: Option<Trial>,
) -> Result<Option<Trial>, OutOfMemory>
    requires once { MayTake problem.now (Pair pickup.now delivery.now) route.now }
    requires base { IsBase problem.now route.now pickup.now base.now }
    requires from { 1 ≤ place }
    requires within { place ≤ length route.now + 1 }
    ensures { IfOk result (λ best. best ≡ best_from so_far
        (map (trial_at problem.now route.now (Pair pickup.now delivery.now))
        (map (λ j. (place, j)) (range_with_len (place + 1) (length route.now + 2 - place))))) }
{
    // The delivery is at the end, so the stops before it are the route with the pickup.
    let whole = with_pair(alloc, route, pickup, delivery, place, route.len() + 2)?;
    let stop = next_stop(problem, whole.as_slice(), route.len() + 1);
    let picked = &whole.as_slice()[..route.len() + 1];
    let rows = rows_with_pickup(alloc, problem, base, picked, place)?;
    let latest_arrivals = latest_arrivals_of(alloc, rows.as_slice())?;
    let tour = Tour {
        route: picked,
        rows: rows.as_slice(),
        latest_arrivals: latest_arrivals.as_slice(),
        distance: distance_with_pickup(problem, base, picked, place),
        stop,
    };
    best_delivery_after(
        alloc, problem, route, pickup, delivery, &tour, place, so_far,
    )
}

// Returns whether the best trial so far surely beats every trial with the pickup, the stop of `base`, at this
// place. `front` has the violations in the rows before this place. Each such trial violates at least as much as
// the rows up to the pickup. Its distance is at least the distance with the pickup alone, less 1, since a
// detour to the delivery saves at most 1.
fn can_skip_pickup(
    problem: &Problem,
    base: &Tour<'_>,
    front: FirstViolations,
    place: usize,
    best: &Option<Trial>,
) -> bool
    requires base { IsTour problem.now base.now }
    requires within { (1 ≤ place) × (place ≤ length base.now.route.now + 1) }
    requires front { front ≡ violations_in problem.now (take (place - 1) base.now.rows.now) }
    ensures { result ≡ true → (a b : Stop) → IsNumberOf problem.now base.now a.number
        → best.now ≡ best_from best.now (map (trial_at problem.now base.now.route.now (Pair a b))
        (map (λ j. (place, j)) (range_with_len (place + 1)
        (length base.now.route.now + 2 - place)))) }
{
    detours_save_at_most_one();
    let Some(best) = best else {
        return false;
    };
    if place == 1 {
        return false;
    }
    let detour = Detour::of(problem, base, place - 1);
    let Some(found) = violations_with(problem, base, front, &detour, place - 1) else {
        return false;
    };
    if violates_less(&best.violation, found.least()) {
        return true;
    }
    let Some(distance) = distance_with(base.distance, &detour) else {
        return false;
    };
    if distance <= best.distance {
        return false;
    }
    if !violates_less(found.least(), &best.violation) {
        return true;
    }
    is_late_by_one(&best.violation) && surely_violates_anyway(problem, base, &detour, place - 1)
}

// Returns the rows of the route with the pickup at this place.
fn rows_with_pickup(
    alloc: Global,
    problem: &Problem,
    base: &Tour<'_>,
    picked: &[u32],
    place: usize,
) -> Result<Vec<Row>, OutOfMemory>
    requires base { IsTour problem.now base.now }
    requires once { AreDistinctStops problem.now picked.now }
    requires within { (1 ≤ place) × (place ≤ length base.now.route.now + 1) }
    requires picked { HasPickupAt problem.now base.now place picked.now }
    ensures { IfOk result (λ rows. rows.items ≡ rows_of problem.now picked.now) }
{
    if place > 1 {
        let detour = Detour::of(problem, base, place - 1);
        if let Some(rows) = rows_with(alloc, problem, base, &detour, place - 1)? {
            return Ok(rows);
        }
    }
    rows_of(alloc, problem, picked)
}

// Returns the distance of the route with the pickup at this place.
fn distance_with_pickup(problem: &Problem, base: &Tour<'_>, picked: &[u32], place: usize) -> u64
    requires base { IsTour problem.now base.now }
    requires once { AreDistinctStops problem.now picked.now }
    requires within { (1 ≤ place) × (place ≤ length base.now.route.now + 1) }
    requires picked { HasPickupAt problem.now base.now place picked.now }
    ensures { result ≡ route_length problem.now picked.now }
{
    if place > 1 {
        let detour = Detour::of(problem, base, place - 1);
        if let Some(distance) = distance_with(base.distance, &detour) {
            return distance;
        }
    }
    route_distance(problem, picked)
}

// Returns the best of `so_far` and the trials with the pickup at this place. `tour` is the route with the
// pickup.
fn best_delivery_after(
    alloc: Global,
    problem: &Problem,
    route: &[u32],
    pickup: &Stop,
    delivery: &Stop,
    tour: &Tour<'_>,
    place: usize,
    so_far: Option<Trial>,
) -> Result<Option<Trial>, OutOfMemory>
    requires once { MayTake problem.now (Pair pickup.now delivery.now) route.now }
    requires within { (1 ≤ place) × (place ≤ length route.now + 1) }
    requires tour { IsTour problem.now tour.now }
    requires picked { tour.now.route.now ≡ inserted (Single pickup.now) place place route.now }
    requires number { IsNumberOf problem.now tour.now delivery.now.number }
    ensures { IfOk result (λ best. best ≡ best_from so_far
        (map (trial_at problem.now route.now (Pair pickup.now delivery.now))
        (map (λ j. (place, j)) (range_with_len (place + 1) (length route.now + 2 - place))))) }
{
    let fits_capacity = fits_capacity(problem.capacity, tour.rows, place, tour.stop);
    let mut front = violations_in(problem, &tour.rows[..place]);
    let mut best = so_far;
    for following in place + 1..route.len() + 3 {
        if is_settled(&front, &best) {
            return Ok(best);
        }
        best = match quick_trial(
            problem,
            tour,
            front,
            place,
            following - 1,
            fits_capacity,
            &best,
        ) {
            Some(None) => best,
            Some(Some(trial)) => better(best, trial),
            None => {
                let trial = pair_trial(alloc, problem, route, pickup, delivery, place, following)?;
                better(best, trial)
            }
        };
        front = front.then(violations_at(problem, &tour.rows[following - 1]));
    }
    Ok(best)
}

// Returns whether the best trial so far violates less than every route that begins with the rows in which
// `front` was found.
fn is_settled(front: &FirstViolations, best: &Option<Trial>) -> bool
    ensures { result ≡ is_settled front.now best.now }
{
    match best {
        Some(best) => violates_less(&best.violation, front.least()),
        None => false,
    }
}

// Returns the trial of the tour with its stop inserted after the first `at` stops. `None` means not known.
// `Some(None)` means that the trial is no better than the best trial so far.
fn quick_trial(
    problem: &Problem,
    tour: &Tour<'_>,
    front: FirstViolations,
    pickup: usize,
    at: usize,
    fits_capacity: bool,
    best: &Option<Trial>,
) -> Option<Option<Trial>>
    requires tour { IsTour problem.now tour.now }
    requires within { (1 ≤ at) × (at ≤ length tour.now.route.now) }
    requires front { front ≡ violations_in problem.now (take at tour.now.rows.now) }
    requires light { fits_capacity ≡ true → FitsCapacity problem.now tour.now at }
    ensures { IfSome result (λ known. (number : ℕ) → IsNumberOf problem.now tour.now number
        → best_with best.now known
        ≡ better best.now (trial_of problem.now (route_with tour.now at number) pickup (at + 1))) }
{
    let detour = Detour::of(problem, tour, at);
    let distance = distance_with(tour.distance, &detour)?;
    if is_beaten(problem, tour, &detour, at, distance, best) {
        return Some(None);
    }
    let violation = violation_with(problem, tour, front, &detour, at, fits_capacity)?;
    let trial = Trial {
        violation,
        distance,
        pickup: pickup as u64,
        delivery: at as u64 + 1,
    };
    Some(Some(trial))
}

// Returns whether the best trial so far surely beats the tour with its stop inserted at this place. That is so
// if the tour with the stop is no shorter, and is known to violate at least as much.
fn is_beaten(
    problem: &Problem,
    tour: &Tour<'_>,
    detour: &Detour,
    at: usize,
    distance: u64,
    best: &Option<Trial>,
) -> bool
    requires tour { IsTour problem.now tour.now }
    requires within { (1 ≤ at) × (at ≤ length tour.now.route.now) }
    requires detour { IsDetour problem.now tour.now at detour.now }
    requires far { distance + detour.now.travel
        ≡ tour.now.distance + detour.now.to + detour.now.from }
    ensures { result ≡ true → (number pickup : ℕ) → IsNumberOf problem.now tour.now number
        → best.now ≡ better best.now
        (trial_of problem.now (route_with tour.now at number) pickup (at + 1)) }
{
    let Some(best) = best else {
        return false;
    };
    if distance < best.distance {
        return false;
    }
    match &best.violation {
        None => true,
        Some(_) => is_late_by_one(&best.violation) && surely_violates(problem, tour, detour, at),
    }
}

fn single_trial(
    alloc: Global,
    problem: &Problem,
    route: &[u32],
    stop: &Stop,
    place: usize,
) -> Result<Trial, OutOfMemory>
    requires once { MayTake problem.now (Single stop.now) route.now }
    requires from { 1 ≤ place }
    requires within { place ≤ length route.now + 1 }
    ensures { IfOk result (λ trial. trial
        ≡ trial_at problem.now route.now (Single stop.now) (place, place)) }
{
    let tried = with_single(alloc, route, stop, place)?;
    trial_of(alloc, problem, tried.as_slice(), place, place)
}

// Returns the route with a single inserted.
fn with_single(
    alloc: Global,
    route: &[u32],
    stop: &Stop,
    place: usize,
) -> Result<Vec<u32>, OutOfMemory>
    requires from { 1 ≤ place }
    requires within { place ≤ length route.now + 1 }
    ensures { IfOk result (λ new. new.items ≡ inserted (Single stop.now) place place route.now) }
{
    let mut new = Vec::from_slice(alloc, route)?;
    new.insert(place - 1, stop.number)?;
    Ok(new)
}

fn pair_trial(
    alloc: Global,
    problem: &Problem,
    route: &[u32],
    pickup: &Stop,
    delivery: &Stop,
    place: usize,
    following: usize,
) -> Result<Trial, OutOfMemory>
    requires once { MayTake problem.now (Pair pickup.now delivery.now) route.now }
    requires from { 1 ≤ place }
    requires order { place < following }
    requires within { following ≤ length route.now + 2 }
    ensures { IfOk result (λ trial. trial
        ≡ trial_at problem.now route.now (Pair pickup.now delivery.now) (place, following)) }
{
    let tried = with_pair(alloc, route, pickup, delivery, place, following)?;
    trial_of(alloc, problem, tried.as_slice(), place, following)
}

// Returns the route with a pair inserted.
fn with_pair(
    alloc: Global,
    route: &[u32],
    pickup: &Stop,
    delivery: &Stop,
    place: usize,
    following: usize,
) -> Result<Vec<u32>, OutOfMemory>
    requires from { 1 ≤ place }
    requires order { place < following }
    requires within { following ≤ length route.now + 2 }
    ensures { IfOk result (λ new. new.items
        ≡ inserted (Pair pickup.now delivery.now) place following route.now) }
{
    let mut new = Vec::from_slice(alloc, route)?;
    new.insert(place - 1, pickup.number)?;
    new.insert(following - 1, delivery.number)?;
    Ok(new)
}

// Returns the trial of this route, in which the request has these places.
fn trial_of(
    alloc: Global,
    problem: &Problem,
    tried: &[u32],
    pickup: usize,
    delivery: usize,
) -> Result<Trial, OutOfMemory>
    requires { AreDistinctStops problem.now tried.now }
    ensures { IfOk result (λ trial. trial ≡ trial_of problem.now tried.now pickup delivery) }
{
    Ok(Trial {
        violation: violation_of(alloc, problem, tried)?,
        distance: route_distance(problem, tried),
        pickup: pickup as u64,
        delivery: delivery as u64,
    })
}

// Returns the better of the best trial so far and the next trial.
fn better(best: Option<Trial>, trial: Trial) -> Option<Trial>
    ensures { result ≡ better best trial }
{
    match best {
        None => Some(trial),
        Some(best) => {
            if is_better(&trial, &best) {
                Some(trial)
            } else {
                Some(best)
            }
        }
    }
}

// Returns whether one trial violates less than the other, or no more with a shorter distance.
fn is_better(trial: &Trial, other: &Trial) -> bool
    ensures { result ≡ is_better trial.now other.now }
{
    violates_less(&trial.violation, &other.violation)
        || (!violates_less(&other.violation, &trial.violation) && trial.distance < other.distance)
}
