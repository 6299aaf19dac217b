//! New routes for some vehicles of a draft, before their tables are built.
ghost use Rattle.std.specs.Prelude.{◌≡◌, ◌≤◌, All, length};
ghost use Rattle.std.specs.List.{list_all};
ghost use Rattle.route_sched.specs.Route.{AreDistinctStops};
ghost use Rattle.plan_audit.specs.Passes.{feasible_alone};
ghost use Rattle.move_ops.specs.Tables.{AreTablesIn};

use crate::tour::{Tour, tour_of};
use plan_types::{Problem, Route};

/// A new route for a vehicle.
#[derive(Drop)]
pub(crate) struct Change {
    pub(crate) vehicle: u32,
    pub(crate) route: Route,
}

/// Returns whether each of these routes is feasible by itself. `tours` are the tours that the vehicles have so
/// far.
pub(crate) fn are_all_feasible(problem: &Problem, tours: &[Tour], changes: &[Change]) -> bool
    requires tables { AreTablesIn problem.now tours.now }
    requires within { All (λ c. (1 ≤ c.vehicle) × (c.vehicle ≤ length tours.now)) changes.now }
    requires once { All (λ c. AreDistinctStops problem.now c.route) changes.now }
    ensures { result ≡ list_all (λ c. feasible_alone problem.now c.route) changes.now }
{
    for change in changes {
        let tour = tour_of(tours, u64::from(change.vehicle));
        if !tour.is_feasible(problem, change.route.as_slice()) {
            return false;
        }
    }
    true
}
