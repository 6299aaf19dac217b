//! The places of a route, each with the leg to it and its service.
ghost use Rattle.std.specs.Prelude.{◌≡◌, ◌+◌, ◌<◌, ◌^◌, IfOk, map};
ghost use Rattle.route_sched.specs.Route.{AreDistinctStops};
ghost use Rattle.plan_explain.specs.Tables.{stop_visit_at, stop_visits_of, rows_of, departure};

use crate::rows::Row;
use plan_types::{OutOfMemory, Problem};
use route_sched::{Visit, Visits};
use std::alloc::Global;

/// A visit to a place of a route, with the leg to it and the service. Distances and times are in the problem's
/// unit.
#[derive(Clone, Copy, Debug, PartialEq, Eq)]
pub struct StopVisit {
    pub row: Row,
    /// The distance from the previous place, which is also the travel time.
    pub leg: u32,
    /// The duration of service.
    pub service: u32,
}

/// Returns the visits of a route, with the return to the depot as the last one. Times and distances are in the
/// problem's unit, loads in the unit of its demands.
pub fn stop_visits_of(
    alloc: Global,
    problem: &Problem,
    route: &[u32],
) -> Result<Vec<StopVisit>, OutOfMemory>
    requires { AreDistinctStops problem.now route.now }
    ensures { IfOk result (λ stop_visits. stop_visits.items
        ≡ stop_visits_of problem.now route.now) }
{
    let mut stop_visits = Vec::new(alloc);
    let mut visits = Visits::new(problem, route);
    let mut last = Visit {
        stop: problem.depot,
        start: u64::from(problem.depot.earliest),
        load: 0,
        leg: 0,
    };
    for place in 0..route.len() + 1 {
        let visit = match visits.next() {
            Some(visit) => visit,
            None => unreachable!(),
        };
        stop_visits.push(stop_visit(place, &last, &visit))?;
        last = visit;
    }
    Ok(stop_visits)
}

// Returns the visit at place `place + 1`. Its arrival is computed from `last`, the visit at place `place`.
fn stop_visit(place: usize, last: &Visit, visit: &Visit) -> StopVisit
    requires place { place + 1 < 2 ^ 64 }
    requires time { last.now.start + last.now.stop.service + visit.now.leg < 2 ^ 64 }
    ensures { result ≡ stop_visit_at (place + 1)
        (last.now.start + last.now.stop.service + visit.now.leg) visit.now }
{
    StopVisit {
        row: Row {
            place: place as u64 + 1,
            stop: visit.stop.number,
            arrival: last.start + u64::from(last.stop.service) + u64::from(visit.leg),
            start: visit.start,
            earliest: visit.stop.earliest,
            latest: visit.stop.latest,
            load: visit.load,
        },
        leg: visit.leg,
        service: visit.stop.service,
    }
}

/// Returns the rows of a route, with the return to the depot as the last one.
pub fn rows_of(alloc: Global, problem: &Problem, route: &[u32]) -> Result<Vec<Row>, OutOfMemory>
    requires { AreDistinctStops problem.now route.now }
    ensures { IfOk result (λ rows. rows.items ≡ rows_of problem.now route.now) }
{
    let visits = stop_visits_of(alloc, problem, route)?;
    rows_at(alloc, visits.as_slice())
}

fn rows_at(alloc: Global, visits: &[StopVisit]) -> Result<Vec<Row>, OutOfMemory>
    ensures { IfOk result (λ rows. rows.items ≡ map (λ h. h.row) visits.now) }
{
    let mut rows = Vec::new(alloc);
    for visit in visits {
        rows.push(visit.row)?;
    }
    Ok(rows)
}

/// Returns the latest departure from the previous place that delays no service. A vehicle that leaves then
/// arrives exactly when service starts.
pub fn departure(visit: &StopVisit) -> u64
    ensures { result ≡ departure visit.now }
{
    visit.row.start.saturating_sub(u64::from(visit.leg))
}
