//! One more stop in a route whose rows are known: the violations of the new route, found without computing the
//! rows before the stop again.
//!
//! The violations before the stop are carried from place to place. The rows after it are delayed up to the
//! first violation. Sums are not known to fit here, so these functions return `None` on overflow. `None` then
//! means "not known", and the caller takes the slow path.
ghost use Rattle.std.specs.Prelude.{◌≡◌, ◌<◌, ◌≤◌, ◌+◌, ◌-◌, ◌+ℤ◌, ◌∷◌, ◌++◌, [], ℕ, IfOk, IfSome, None, drop, length, pos, slice_index_or, take, true};
ghost use Rattle.std.specs.List.{insert};
ghost use Rattle.plan_types.specs.declared.requests.Kind.TheVariants.{LiLim};
ghost use Rattle.plan_explain.specs.Tables.{rows_of};
ghost use Rattle.plan_explain.specs.declared.rows.Row.{Row};
ghost use Rattle.request_explanation.specs.LimitViolations.{excess_of, lateness_in, violation_of, overload_in};
ghost use Rattle.request_explanation.specs.MovedRows.{moved_from, moved_row};
ghost use Rattle.request_explanation.specs.Insertions.{IsDetour, FitsCapacity, IsNumberOf, IsTour, arrival_with, IsLateAnyway, violations_in, violations_then, with_load_change, least_of, violation_after, inserted_row, route_with};

use crate::limit_violations::{
    LimitViolation, is_heavy, is_late, lateness_at, lateness_in, overload_at, overload_in,
};
use nint_dist::{detours_save_at_most_one, dist};
use plan_explain::Row;
use plan_types::{Kind, OutOfMemory, Problem, Stop};
use route_sched::{load_after, next_stop};
use std::alloc::Global;

// Demands are added only to loads of at most this value, so that no sum overflows.
const MAX_LOAD: u64 = 1 << 60;

/// The first overload and the first lateness of some rows.
#[derive(Clone, Copy)]
pub(crate) struct FirstViolations {
    pub over: Option<LimitViolation>,
    pub late: Option<LimitViolation>,
}

impl FirstViolations {
    /// Returns the first violations of the rows of `self`, followed by the rows of `next`.
    pub(crate) fn then(self, next: FirstViolations) -> FirstViolations
        ensures { result ≡ violations_then self next }
    {
        FirstViolations {
            over: self.over.or(next.over),
            late: self.late.or(next.late),
        }
    }

    /// Returns the least violation that a route can have if it begins with the rows of `self`.
    pub(crate) fn least(&self) -> &Option<LimitViolation>
        ensures { result.now ≡ least_of self.now }
    {
        match self.over {
            Some(_) => &self.over,
            None => &self.late,
        }
    }
}

/// Returns the first violations of these rows.
pub(crate) fn violations_in(problem: &Problem, rows: &[Row]) -> FirstViolations
    ensures { result ≡ violations_in problem.now rows.now }
{
    FirstViolations {
        over: overload_in(problem.capacity, rows),
        late: lateness_in(problem.kind, rows),
    }
}

/// Returns the violations of one row.
pub(crate) fn violations_at(problem: &Problem, row: &Row) -> FirstViolations
    ensures { result ≡ violations_in problem.now (row.now ∷ []) }
{
    violations_in(problem, &[*row])
}

/// Returns whether a scan shows that each row after the first `at` rows stays within the capacity with the
/// demand of this stop added.
pub(crate) fn fits_capacity(capacity: u32, rows: &[Row], at: usize, stop: &Stop) -> bool
    requires { at ≤ length rows.now }
    ensures { result ≡ true
        → overload_in capacity (with_load_change stop.now.demand (drop at rows.now)) ≡ None }
{
    match overload_after(capacity, &rows[at..], stop.demand) {
        Some(None) => true,
        _ => false,
    }
}

// Returns the first of these rows that is overloaded if each load changes by `change`.
fn overload_after(capacity: u32, rows: &[Row], change: i32) -> Option<Option<LimitViolation>>
    ensures { IfSome result (λ over. over ≡ overload_in capacity (with_load_change change rows.now)) }
{
    for row in rows {
        let load = changed(row.load, change)?;
        let row = Row { load, ..*row };
        if is_heavy(capacity, &row) {
            return Some(Some(overload_at(capacity, &row)));
        }
    }
    Some(None)
}

fn changed(load: i64, change: i32) -> Option<i64>
    ensures { IfSome result (λ new. new ≡ load +ℤ change) }
{
    if load.unsigned_abs() > MAX_LOAD {
        return None;
    }
    Some(load_after(load, change))
}

// Returns the first of these rows that is late if the time before them changes from `before` to `now`.
fn lateness_after(rows: &[Row], now: u64, before: u64) -> Option<Option<LimitViolation>>
    ensures { IfSome result (λ late. late
        ≡ lateness_in LiLim (moved_from now before (pos 0) rows.now)) }
{
    let mut left = now;
    let mut had_left = before;
    for row in rows {
        let arrival = left.checked_add(row.arrival.saturating_sub(had_left))?;
        left = arrival.max(u64::from(row.earliest));
        let moved = Row {
            arrival,
            start: left,
            ..*row
        };
        if is_late(&moved) {
            return Some(Some(lateness_at(&moved)));
        }
        had_left = row.start;
    }
    Some(None)
}

// Returns the first violation of a route whose rows from index `at` on are delayed. `found` has the violations
// before that row, and the vehicle arrives at it at time `now`. If `fits_capacity` holds, the loads are not
// scanned again.
fn violation_after(
    problem: &Problem,
    found: FirstViolations,
    rows: &[Row],
    at: usize,
    now: u64,
    stop: &Stop,
    fits_capacity: bool,
) -> Option<Option<LimitViolation>>
    requires within { at < length rows.now }
    requires light { fits_capacity ≡ true
        → overload_in problem.now.capacity (with_load_change stop.now.demand (drop at rows.now)) ≡ None }
    ensures { (d : Row) → IfSome result (λ violation. violation ≡ violation_after problem.now found now
        (slice_index_or rows.now at d).arrival stop.now.demand (drop at rows.now)) }
{
    if let Some(over) = found.over {
        return Some(Some(over));
    }
    if !fits_capacity {
        if let Some(over) = overload_after(problem.capacity, &rows[at..], stop.demand)? {
            return Some(Some(over));
        }
    }
    if let Some(late) = found.late {
        return Some(Some(late));
    }
    match problem.kind {
        Kind::LiLim => lateness_after(&rows[at..], now, rows[at].arrival),
        Kind::Vrp => Some(None),
    }
}

// Returns the row of a stop that follows this row.
fn inserted_row(here: &Row, service: u32, travel: u32, stop: &Stop) -> Option<Row>
    ensures { IfSome result (λ row. row ≡ inserted_row here.now service travel stop.now) }
{
    let left = here.start.checked_add(u64::from(service))?;
    let arrival = left.checked_add(u64::from(travel))?;
    Some(Row {
        place: here.place.checked_add(1)?,
        stop: stop.number,
        arrival,
        start: arrival.max(u64::from(stop.earliest)),
        earliest: stop.earliest,
        latest: stop.latest,
        load: changed(here.load, stop.demand)?,
    })
}

/// A route with its rows, and a stop that may be inserted.
#[derive(Clone, Copy)]
pub(crate) struct Tour<'a> {
    pub route: &'a [u32],
    pub rows: &'a [Row],
    /// The latest arrival at each row.
    pub latest_arrivals: &'a [u64],
    /// The distance of the route.
    pub distance: u64,
    pub stop: &'a Stop,
}

/// The legs to the inserted stop and from it, if it is inserted after the first `at` stops of a route.
#[derive(Clone, Copy)]
pub(crate) struct Detour {
    /// The duration of service at the stop before the inserted one.
    pub service: u32,
    pub to: u32,
    pub from: u32,
    /// The leg that the detour replaces.
    pub travel: u32,
}

impl Detour {
    #[inline(always)]
    pub(crate) fn of(problem: &Problem, tour: &Tour<'_>, at: usize) -> Detour
        requires tour { IsTour problem.now tour.now }
        requires within { at ≤ length tour.now.route.now }
        requires from { 1 ≤ at }
        ensures { IsDetour problem.now tour.now at result }
    {
        let before = next_stop(problem, tour.route, at - 1);
        let next = next_stop(problem, tour.route, at);
        Detour {
            service: before.service,
            to: dist(before, tour.stop),
            from: dist(tour.stop, next),
            travel: dist(before, next),
        }
    }
}

/// Returns the first limit that the route exceeds with the stop inserted after its first `at` stops. `front`
/// has the violations in the first `at` rows. `None` means not known.
pub(crate) fn violation_with(
    problem: &Problem,
    tour: &Tour<'_>,
    front: FirstViolations,
    detour: &Detour,
    at: usize,
    fits_capacity: bool,
) -> Option<Option<LimitViolation>>
    requires tour { IsTour problem.now tour.now }
    requires within { (1 ≤ at) × (at ≤ length tour.now.route.now) }
    requires front { front ≡ violations_in problem.now (take at tour.now.rows.now) }
    requires detour { IsDetour problem.now tour.now at detour.now }
    requires light { fits_capacity ≡ true → FitsCapacity problem.now tour.now at }
    ensures { IfSome result (λ violation. (number : ℕ) → IsNumberOf problem.now tour.now number
        → violation ≡ violation_of problem.now (route_with tour.now at number)) }
{
    let Tour { rows, stop, .. } = *tour;
    let row = inserted_row(&rows[at - 1], detour.service, detour.to, stop)?;
    let arrival = arrival_after(&row, stop, detour)?;
    let found = front.then(violations_in(problem, &[row]));
    let violation = violation_after(problem, found, rows, at, arrival, stop, fits_capacity)?;
    Some(violation)
}

/// Returns the violations in the rows of the new route up to the stop, which is inserted after the first `at`
/// stops. `front` has the violations in the first `at` rows. `None` means not known.
pub(crate) fn violations_with(
    problem: &Problem,
    tour: &Tour<'_>,
    front: FirstViolations,
    detour: &Detour,
    at: usize,
) -> Option<FirstViolations>
    requires tour { IsTour problem.now tour.now }
    requires within { (1 ≤ at) × (at ≤ length tour.now.route.now) }
    requires front { front ≡ violations_in problem.now (take at tour.now.rows.now) }
    requires detour { IsDetour problem.now tour.now at detour.now }
    ensures { IfSome result (λ found. (number : ℕ) → IsNumberOf problem.now tour.now number
        → found ≡ violations_in problem.now
        (take (at + 1) (rows_of problem.now (route_with tour.now at number)))) }
{
    let row = inserted_row(&tour.rows[at - 1], detour.service, detour.to, tour.stop)?;
    Some(front.then(violations_in(problem, &[row])))
}

/// Returns whether the latest arrivals show that the route exceeds a limit with the stop inserted at this
/// place. `false` means not known.
pub(crate) fn surely_violates(
    problem: &Problem,
    tour: &Tour<'_>,
    detour: &Detour,
    at: usize,
) -> bool
    requires tour { IsTour problem.now tour.now }
    requires within { (1 ≤ at) × (at ≤ length tour.now.route.now) }
    requires detour { IsDetour problem.now tour.now at detour.now }
    ensures { result ≡ true → (number : ℕ) → IsNumberOf problem.now tour.now number
        → 1 ≤ excess_of (violation_of problem.now (route_with tour.now at number)) }
{
    match problem.kind {
        Kind::LiLim => match arrival_with(tour, detour, at) {
            Some(arrival) => tour.latest_arrivals[at] < arrival,
            None => false,
        },
        Kind::Vrp => false,
    }
}

/// Returns whether the latest arrivals show that the route exceeds a limit wherever one more stop is inserted
/// after this one. `false` means not known.
pub(crate) fn surely_violates_anyway(
    problem: &Problem,
    tour: &Tour<'_>,
    detour: &Detour,
    at: usize,
) -> bool
    requires tour { IsTour problem.now tour.now }
    requires within { (1 ≤ at) × (at ≤ length tour.now.route.now) }
    requires detour { IsDetour problem.now tour.now at detour.now }
    ensures { result ≡ true → (number other later : ℕ) → IsNumberOf problem.now tour.now number
        → at < later → later ≤ length tour.now.route.now + 1
        → 1 ≤ excess_of (violation_of problem.now (insert (route_with tour.now at number) later other)) }
{
    detours_save_at_most_one();
    match problem.kind {
        Kind::LiLim => is_late_anyway(tour, detour, at),
        Kind::Vrp => false,
    }
}

// Returns whether the stop is late if it is inserted after the first `at` stops, or the vehicle then arrives at
// the next stop more than 1 after the latest arrival.
fn is_late_anyway(tour: &Tour<'_>, detour: &Detour, at: usize) -> bool
    requires rows { (1 ≤ at) × (at < length tour.now.rows.now) }
    requires latest_arrivals { at < length tour.now.latest_arrivals.now }
    ensures { result ≡ true → (d : Row) → IsLateAnyway tour.now detour.now at
        (slice_index_or tour.now.rows.now (at - 1) d) }
{
    let Some(row) = inserted_row(&tour.rows[at - 1], detour.service, detour.to, tour.stop) else {
        return false;
    };
    if is_late(&row) {
        return true;
    }
    match arrival_after(&row, tour.stop, detour) {
        Some(arrival) => tour.latest_arrivals[at] < arrival.saturating_sub(1),
        None => false,
    }
}

// Returns the arrival at the next stop, if the stop is inserted after the first `at` stops. `None` means not
// known.
fn arrival_with(tour: &Tour<'_>, detour: &Detour, at: usize) -> Option<u64>
    requires { (1 ≤ at) × (at ≤ length tour.now.rows.now) }
    ensures { (d : Row) → IfSome result (λ arrival. arrival ≡ arrival_with tour.now detour.now
        (slice_index_or tour.now.rows.now (at - 1) d)) }
{
    let row = inserted_row(&tour.rows[at - 1], detour.service, detour.to, tour.stop)?;
    arrival_after(&row, tour.stop, detour)
}

/// Returns the distance with the detour. `None` means not known.
pub(crate) fn distance_with(distance: u64, detour: &Detour) -> Option<u64>
    ensures { IfSome result (λ longer. longer + detour.now.travel
        ≡ distance + detour.now.to + detour.now.from) }
{
    let to = distance.checked_add(u64::from(detour.to))?;
    let from = to.checked_add(u64::from(detour.from))?;
    from.checked_sub(u64::from(detour.travel))
}

// Returns the arrival at the place after this row, which is the row of `stop`.
fn arrival_after(row: &Row, stop: &Stop, detour: &Detour) -> Option<u64>
    ensures { IfSome result (λ arrival. arrival
        ≡ row.now.start + stop.now.service + detour.now.from) }
{
    let left = row.start.checked_add(u64::from(stop.service))?;
    left.checked_add(u64::from(detour.from))
}

/// Returns the rows of the route with the stop inserted after its first `at` stops. `None` means not known.
pub(crate) fn rows_with(
    alloc: Global,
    problem: &Problem,
    tour: &Tour<'_>,
    detour: &Detour,
    at: usize,
) -> Result<Option<Vec<Row>>, OutOfMemory>
    requires tour { IsTour problem.now tour.now }
    requires within { (1 ≤ at) × (at ≤ length tour.now.route.now) }
    requires detour { IsDetour problem.now tour.now at detour.now }
    ensures { IfOk result (λ o. IfSome o (λ rows.
        (number : ℕ) → IsNumberOf problem.now tour.now number
        → rows.items ≡ rows_of problem.now (route_with tour.now at number))) }
{
    let Tour { rows, stop, .. } = *tour;
    let Some(row) = inserted_row(&rows[at - 1], detour.service, detour.to, stop) else {
        return Ok(None);
    };
    let Some(arrival) = arrival_after(&row, stop, detour) else {
        return Ok(None);
    };
    let moved = moved_rows(alloc, rows, at, row, arrival, rows[at].arrival, stop)?;
    let Some(new) = moved else {
        return Ok(None);
    };
    Ok(Some(new))
}

// Returns the first `at` rows, the new row, and the other rows, each one place later, with the demand of `stop`
// and the delay. The time before them changes from `before` to `now`.
fn moved_rows(
    alloc: Global,
    rows: &[Row],
    at: usize,
    row: Row,
    now: u64,
    before: u64,
    stop: &Stop,
) -> Result<Option<Vec<Row>>, OutOfMemory>
    requires { at < length rows.now }
    ensures { IfOk result (λ o. IfSome o (λ new. new.items ≡ take at rows.now
        ++ (row ∷ moved_from now before stop.now.demand (drop at rows.now)))) }
{
    let mut new = Vec::from_slice(alloc, &rows[..at])?;
    new.push(row)?;
    let mut left = now;
    let mut had_left = before;
    for index in at..rows.len() {
        let Some(row) = moved_row(&rows[index], left, had_left, stop) else {
            return Ok(None);
        };
        left = row.start;
        had_left = rows[index].start;
        new.push(row)?;
    }
    Ok(Some(new))
}

fn moved_row(row: &Row, now: u64, before: u64, stop: &Stop) -> Option<Row>
    ensures { IfSome result (λ new. new
        ≡ moved_row (now + (row.now.arrival - before)) stop.now.demand row.now) }
{
    let arrival = now.checked_add(row.arrival.saturating_sub(before))?;
    Some(Row {
        place: row.place.checked_add(1)?,
        stop: row.stop,
        arrival,
        start: arrival.max(u64::from(row.earliest)),
        earliest: row.earliest,
        latest: row.latest,
        load: changed(row.load, stop.demand)?,
    })
}
