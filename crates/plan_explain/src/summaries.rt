//! The summary of a solution: a line for each route, and the sums.
ghost use Rattle.std.specs.Prelude.{◌≡◌, ◌++◌, ◌<◌, ◌^◌, All, IfOk, OnOk, fold, map, pos, sum_by};
ghost use Rattle.std.specs.Int.{int_max};
ghost use Rattle.route_sched.specs.Route.{AreDistinctStops};
ghost use Rattle.plan_explain.specs.Summaries.{lines_text, route_line, route_lines, summary_heading, summary_of, summary_text, sums_text, waiting_time, waiting};
ghost use Rattle.plan_explain.specs.Tables.{rows_of};

use crate::rows::Row;
use crate::stop_visits::rows_of;
use crate::templates::Value::{Right, RightLong, RightSigned};
use crate::templates::put_template;
use plan_types::{Kind, OutOfMemory, Problem, Route};
use route_sched::{route_distance, total_distance};
use rule_violations::visit_after;
use std::alloc::Global;
use text_buffer::TextBuffer;

/// The totals of a route. Distance and times are in the problem's unit, the load in the unit of its demands.
#[derive(Clone, Copy, Debug, PartialEq, Eq)]
pub struct Summary {
    pub stops: u64,
    /// The sum of the legs, including those from and to the depot.
    pub distance: u64,
    /// The greatest load of the vehicle, at least 0.
    pub load: i64,
    /// The departure from the depot that makes the vehicle arrive at the first stop just when service starts.
    pub departure: u64,
    /// The time when the vehicle is back at the depot.
    pub return_time: u64,
    /// The total waiting time at the stops.
    pub waiting: u64,
}

/// Appends a line for each route, and the sums.
pub(crate) fn put_summary(
    alloc: Global,
    text: &mut TextBuffer,
    problem: &Problem,
    routes: &[Route],
) -> Result<(), OutOfMemory>
    requires { All (AreDistinctStops problem.now) routes.now }
    ensures { OnOk result (text.new ≡ text.old ++ summary_text problem.now routes.now) }
{
    let summaries = summaries(alloc, problem, routes)?;
    let distance = total_distance(problem, routes);
    put_lines(text, problem.kind, summaries.as_slice(), distance);
    Ok(())
}

fn summaries(
    alloc: Global,
    problem: &Problem,
    routes: &[Route],
) -> Result<Vec<Summary>, OutOfMemory>
    requires { All (AreDistinctStops problem.now) routes.now }
    ensures { IfOk result (λ summaries. summaries.items
        ≡ map (summary_of problem.now) routes.now) }
{
    let mut summaries = Vec::new(alloc);
    for route in routes {
        summaries.push(summary_of(alloc, problem, route.as_slice())?)?;
    }
    Ok(summaries)
}

/// Returns the totals of a route.
pub fn summary_of(alloc: Global, problem: &Problem, route: &[u32]) -> Result<Summary, OutOfMemory>
    requires { AreDistinctStops problem.now route.now }
    ensures { IfOk result (λ summary. summary ≡ summary_of problem.now route.now) }
{
    let rows = rows_of(alloc, problem, route)?;
    let first = visit_after(problem, route, 0);
    Ok(Summary {
        stops: route.len() as u64,
        distance: route_distance(problem, route),
        load: greatest_load(rows.as_slice()),
        departure: first.start.saturating_sub(u64::from(first.leg)),
        return_time: visit_after(problem, route, route.len()).start,
        waiting: waiting(problem, route, rows.as_slice()),
    })
}

fn greatest_load(rows: &[Row]) -> i64
    ensures { result ≡ fold int_max (pos 0) (map (λ r. r.load) rows.now) }
{
    let mut greatest = 0;
    for row in rows {
        greatest = greatest.max(row.load);
    }
    greatest
}

// Returns the total waiting time. It never exceeds the time of the return, so the sum can't overflow.
fn waiting(problem: &Problem, route: &[u32], rows: &[Row]) -> u64
    requires { rows.now ≡ rows_of problem.now route.now }
    ensures { result ≡ waiting problem.now route.now }
{
    let mut waiting = 0;
    for row in rows {
        waiting += waiting_time(row);
    }
    waiting
}

/// Returns the waiting time at the place of a row: the start of service minus the arrival.
pub fn waiting_time(row: &Row) -> u64
    ensures value { result ≡ waiting_time row.now }
    ensures fits { row.now.start < 2 ^ 64 }
{
    row.start.saturating_sub(row.arrival)
}

#[tactic(auto, unfolding(crate::specs::Summaries::lines_text))]
fn put_lines(text: &mut TextBuffer, kind: Kind, summaries: &[Summary], distance: u128)
    ensures { text.new ≡ text.old ++ lines_text kind summaries.now distance }
{
    text.push_str(heading(kind));
    put_routes(text, kind, summaries);
    put_sums(
        text,
        kind,
        stops_in(summaries),
        distance,
        waiting_in(summaries),
    );
}

fn heading(kind: Kind) -> &'static str
    ensures { result.now ≡ summary_heading kind }
{
    match kind {
        Kind::LiLim => "route  stops   distance      load    set off     return    waiting\n",
        Kind::Vrp => "route  stops   distance      load\n",
    }
}

fn put_routes(text: &mut TextBuffer, kind: Kind, summaries: &[Summary])
    ensures { text.new ≡ text.old ++ route_lines kind 1 summaries.now }
{
    for (route, summary) in summaries.iter().enumerate() {
        put_route(text, kind, route as u64 + 1, summary);
    }
}

fn put_route(text: &mut TextBuffer, kind: Kind, route: u64, summary: &Summary)
    ensures { text.new ≡ text.old ++ route_line kind route summary.now }
{
    let (route, stops) = (Right(5, route), Right(6, summary.stops));
    let (distance, load) = (Right(10, summary.distance), RightSigned(9, summary.load));
    match kind {
        Kind::LiLim => {
            let departure = Right(10, summary.departure);
            let return_time = Right(10, summary.return_time);
            let waiting = Right(10, summary.waiting);
            let values = [
                route,
                stops,
                distance,
                load,
                departure,
                return_time,
                waiting,
            ];
            put_template(text, "@ @ @ @ @ @ @\n", &values)
        }
        Kind::Vrp => put_template(text, "@ @ @ @\n", &[route, stops, distance, load]),
    }
}

fn stops_in(summaries: &[Summary]) -> u128
    ensures { result ≡ sum_by (λ s. s.stops) summaries.now }
{
    let mut stops = 0;
    for summary in summaries {
        stops += u128::from(summary.stops);
    }
    stops
}

fn waiting_in(summaries: &[Summary]) -> u128
    ensures { result ≡ sum_by (λ s. s.waiting) summaries.now }
{
    let mut waiting = 0;
    for summary in summaries {
        waiting += u128::from(summary.waiting);
    }
    waiting
}

fn put_sums(text: &mut TextBuffer, kind: Kind, stops: u128, distance: u128, waiting: u128)
    ensures { text.new ≡ text.old ++ sums_text kind stops distance waiting }
{
    let (stops, distance) = (RightLong(6, stops), RightLong(10, distance));
    match kind {
        Kind::LiLim => {
            put_template(
                text,
                "  sum @ @ @\n",
                &[stops, distance, RightLong(42, waiting)],
            )
        }
        Kind::Vrp => put_template(text, "  sum @ @\n", &[stops, distance]),
    }
}
