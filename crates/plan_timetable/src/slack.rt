//! The latest start of service.
ghost use Rattle.std.specs.Prelude.{◌≡◌, ◌<◌, true, IfOk, length};
ghost use Rattle.plan_types.specs.declared.requests.Kind.TheVariants.{LiLim};
ghost use Rattle.plan_audit.specs.Passes.{feasible_alone};
ghost use Rattle.route_sched.specs.Route.{AreDistinctStops};
ghost use Rattle.plan_timetable.specs.Entries.{latest_allowed, latest_start_shown};
ghost use Rattle.plan_timetable.specs.Timed.{IsRowIn, IsTableOf, IsTimed};

use plan_audit::is_feasible;
use plan_explain::Row;
use plan_types::{Kind, OutOfMemory, Problem};
use slack_tables::RouteTable;
use std::alloc::Global;

/// Returns the table of a route, if the problem has times and the route is feasible alone.
pub(crate) fn table_of(
    alloc: Global,
    problem: &Problem,
    route: &[u32],
) -> Result<Option<RouteTable>, OutOfMemory>
    requires route { AreDistinctStops problem.now route.now }
    requires used { 0 < length route.now }
    ensures { IfOk result (IsTableOf problem.now route.now) }
{
    match problem.kind {
        Kind::LiLim => {}
        Kind::Vrp => return Ok(None),
    }
    if !is_feasible(problem, route) {
        return Ok(None);
    }
    Ok(Some(timed_table(alloc, problem, route)?))
}

// Returns the table of a route with times that is feasible alone.
fn timed_table(alloc: Global, problem: &Problem, route: &[u32]) -> Result<RouteTable, OutOfMemory>
    requires route { AreDistinctStops problem.now route.now }
    requires used { 0 < length route.now }
    requires kind { problem.now.kind ≡ LiLim }
    requires feasible { feasible_alone problem.now route.now ≡ true }
    ensures { IfOk result (IsTimed problem.now route.now) }
{
    RouteTable::build(alloc, problem, route)
}

/// Returns the latest start at the place of a row, if there is a table.
pub(crate) fn latest_start_shown(
    problem: &Problem,
    route: &[u32],
    table: &Option<RouteTable>,
    row: &Row,
) -> Option<u64>
    requires table { IsTableOf problem.now route.now table.now }
    requires row { IsRowIn problem.now route.now row.now }
    ensures { result ≡ latest_start_shown problem.now route.now row.now.place }
{
    match table {
        Some(table) => Some(latest_allowed(problem, route, table, row)),
        None => None,
    }
}

// Returns the latest start from which neither this service nor a later one nor the return is late.
fn latest_allowed(problem: &Problem, route: &[u32], table: &RouteTable, row: &Row) -> u64
    requires table { IsTimed problem.now route.now table.now }
    requires row { IsRowIn problem.now route.now row.now }
    ensures { result ≡ latest_allowed problem.now route.now row.now.place }
{
    let here = u64::from(row.latest);
    match table.latest_start(row.place as usize) {
        Some(following) => here.min(following),
        None => here,
    }
}
