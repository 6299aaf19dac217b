//! The values of each place of a route.
ghost use Rattle.std.specs.Prelude.{◌≡◌, ◌<◌, IfOk, length};
ghost use Rattle.plan_explain.specs.Tables.{stop_visits_of};
ghost use Rattle.route_sched.specs.Route.{AreDistinctStops};
ghost use Rattle.plan_timetable.specs.Entries.{entries_of, entry_of, role_of};
ghost use Rattle.plan_timetable.specs.Timed.{IsRowIn, IsTableOf};

use crate::pin_ends::pin_may_end;
use crate::slack::{latest_start_shown, table_of};
use plan_explain::{StopVisit, stop_visits_of};
use plan_types::{OutOfMemory, Problem};
use slack_tables::RouteTable;
use std::alloc::Global;

/// The task of a vehicle at a place.
#[derive(Clone, Copy)]
pub(crate) enum Role {
    Pickup,
    Delivery,
    Single,
    Return,
}

/// The values of a place.
#[derive(Clone, Copy)]
pub(crate) struct Entry {
    pub visit: StopVisit,
    pub role: Role,
    /// The number of the other stop of the pair.
    pub partner: Option<u32>,
    /// The latest start from which nothing is late at this place or later, if it is printed.
    pub latest: Option<u64>,
    /// Whether a pin may end at this place.
    pub pin_may_end: bool,
}

/// Returns the values of the places of a used route, with the return to the depot as the last one.
pub(crate) fn entries(
    alloc: Global,
    problem: &Problem,
    route: &[u32],
) -> Result<Vec<Entry>, OutOfMemory>
    requires route { AreDistinctStops problem.now route.now }
    requires used { 0 < length route.now }
    ensures { IfOk result (λ entries. entries.items ≡ entries_of problem.now route.now) }
{
    let visits = stop_visits_of(alloc, problem, route)?;
    let table = table_of(alloc, problem, route)?;
    entries_at(alloc, problem, route, &table, visits.as_slice())
}

// Returns the values of the places of these visits.
fn entries_at(
    alloc: Global,
    problem: &Problem,
    route: &[u32],
    table: &Option<RouteTable>,
    visits: &[StopVisit],
) -> Result<Vec<Entry>, OutOfMemory>
    requires route { AreDistinctStops problem.now route.now }
    requires table { IsTableOf problem.now route.now table.now }
    requires visits { visits.now ≡ stop_visits_of problem.now route.now }
    ensures { IfOk result (λ entries. entries.items ≡ entries_of problem.now route.now) }
{
    let mut entries = Vec::new(alloc);
    for visit in visits {
        entries.push(entry_of(problem, route, table, visit))?;
    }
    Ok(entries)
}

fn entry_of(
    problem: &Problem,
    route: &[u32],
    table: &Option<RouteTable>,
    visit: &StopVisit,
) -> Entry
    requires route { AreDistinctStops problem.now route.now }
    requires table { IsTableOf problem.now route.now table.now }
    requires row { IsRowIn problem.now route.now visit.now.row }
    ensures { result ≡ entry_of problem.now route.now visit.now }
{
    let row = &visit.row;
    Entry {
        visit: *visit,
        role: role_of(problem, row.stop),
        partner: problem.partner_of(row.stop),
        latest: latest_start_shown(problem, route, table, row),
        pin_may_end: pin_may_end(problem, route, row.place),
    }
}

// Returns the task at the stop with this number; 0 is the depot.
fn role_of(problem: &Problem, stop: u32) -> Role
    ensures { result ≡ role_of problem.now stop }
{
    if stop == 0 {
        return Role::Return;
    }
    if problem.pickup_of(stop).is_some() {
        return Role::Delivery;
    }
    if problem.partner_of(stop).is_some() {
        return Role::Pickup;
    }
    Role::Single
}
