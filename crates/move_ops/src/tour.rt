//! A route with its table.
ghost use Rattle.std.specs.Prelude.{◌≡◌, ◌≤◌, ◌<◌, IfOk, Some, slice_get, slice_set, length};
ghost use Rattle.route_sched.specs.Route.{AreDistinctStops};
ghost use Rattle.slack_tables.specs.Insertion.{KeepsLimits};
ghost use Rattle.slack_tables.specs.Course.{course_of, course_route, IsCourseIn};
ghost use Rattle.plan_audit.specs.Passes.{feasible_alone};
ghost use Rattle.move_ops.specs.Tables.{AreTablesIn};
ghost use Rattle.move_ops.specs.Changes.{IsTourIfFeasible, IsRouteToCheck};
ghost use Rattle.plan_types.specs.Instance.{Instance};

use crate::facts::problem_keeps_limits;
use crate::pairing::are_paired;
use plan_types::{OutOfMemory, Problem};
use slack_tables::RouteTable;
use std::alloc::Global;
use std::marker::Model;
use std::mem;

/// The route of a vehicle with its table.
#[derive(Debug, Drop)]
pub(crate) struct Tour {
    stops: Vec<u32>,
    table: RouteTable,
}

impl Model for Tour {
    ghost use Rattle.std.specs.Prelude.{◌≡◌};
    ghost use Rattle.slack_tables.specs.Course.{Course, course_route};

    ghost Value = { Course };

    ghost view = { λ t. t.table };

    ghost invariant = { λ t. t.stops.items ≡ course_route t.table };
}

impl Tour {
    /// Builds the tour of a route that keeps the capacity and the windows.
    pub(crate) fn build(
        alloc: Global,
        problem: &Problem,
        route: &[u32],
    ) -> Result<Tour, OutOfMemory>
        requires route { AreDistinctStops problem.now route.now }
        requires limits { KeepsLimits problem.now route.now }
        ensures course { IfOk result (λ tour. tour ≡ course_of problem.now route.now) }
        ensures route { IfOk result (λ tour. course_route tour ≡ route.now) }
    {
        let table = RouteTable::build(alloc, problem, route)?;
        let stops = Vec::from_slice(alloc, route)?;
        Ok(Tour { stops, table })
    }

    /// Builds the tour of another route in the memory of this one, as far as that suffices. This is fastest if
    /// `near` has most stops of `route` in the same order.
    pub(crate) fn into_rebuilt(
        self,
        problem: &Problem,
        near: &Tour,
        route: &[u32],
    ) -> Result<Tour, OutOfMemory>
        requires near { IsCourseIn problem.now near.now }
        requires route { AreDistinctStops problem.now route.now }
        requires limits { KeepsLimits problem.now route.now }
        ensures course { IfOk result (λ tour. tour ≡ course_of problem.now route.now) }
        ensures route { IfOk result (λ tour. course_route tour ≡ route.now) }
    {
        let Tour {
            mut stops,
            mut table,
        } = self;
        table.rebuild(problem, &near.table, route)?;
        stops.clear();
        stops.extend_from_slice(route)?;
        Ok(Tour { stops, table })
    }

    /// Returns whether a route is feasible by itself. This is fastest if this tour has most stops of `route` in
    /// the same order.
    pub(crate) fn is_feasible(&self, problem: &Problem, route: &[u32]) -> bool
        requires course { IsCourseIn problem.now self.now }
        requires once { AreDistinctStops problem.now route.now }
        ensures { result ≡ feasible_alone problem.now route.now }
    {
        problem_keeps_limits(problem);
        self.table.keeps_limits(problem, route) && are_paired(problem, route)
    }

    /// Builds the tour of another route in the memory of this one, as far as that suffices. Returns `None` if
    /// the route is not feasible by itself. The caller guarantees that its pairs are whole, each pickup before
    /// its delivery. This is fastest if `near` has most stops of `route` in the same order.
    pub(crate) fn into_rebuilt_if_feasible(
        self,
        problem: &Problem,
        near: &Tour,
        route: &[u32],
    ) -> Result<Option<Tour>, OutOfMemory>
        requires { IsRouteToCheck problem.now near.now route.now }
        ensures { IfOk result (λ o. IsTourIfFeasible problem.now route.now o) }
    {
        problem_keeps_limits(problem);
        let Tour { mut stops, table } = self;
        let Some(table) = table.into_rebuilt(problem, &near.table, route)? else {
            return Ok(None);
        };
        stops.clear();
        stops.extend_from_slice(route)?;
        Ok(Some(Tour { stops, table }))
    }

    /// Like `into_rebuilt_if_feasible`, but in new memory.
    pub(crate) fn build_if_feasible(
        alloc: Global,
        problem: &Problem,
        near: &Tour,
        route: &[u32],
    ) -> Result<Option<Tour>, OutOfMemory>
        requires { IsRouteToCheck problem.now near.now route.now }
        ensures { IfOk result (λ o. IsTourIfFeasible problem.now route.now o) }
    {
        problem_keeps_limits(problem);
        if !near.table.keeps_limits(problem, route) {
            return Ok(None);
        }
        Ok(Some(Tour::build(alloc, problem, route)?))
    }

    /// Returns how many stops the route has.
    pub(crate) fn stop_count(&self) -> usize
        ensures count { result ≡ length self.now.stops }
        ensures few { result ≤ 40001 }
    {
        self.table.stop_count()
    }

    /// States that a route has at most as many stops as there are stop numbers.
    pub(crate) fn stops_are_few(&self)
        ensures { length self.now.stops ≤ 40001 }
    {
        let _count = self.stop_count();
    }

    /// Returns the stops in order.
    pub(crate) fn stops(&self) -> &[u32]
        ensures { result.now ≡ course_route self.now }
    {
        self.stops.as_slice()
    }

    /// Returns the table of the route.
    pub(crate) fn table(&self) -> &RouteTable
        ensures { result.now ≡ self.now }
    {
        &self.table
    }
}

/// Returns the tour of a vehicle. Vehicles count from 1.
pub(crate) fn tour_of(tours: &[Tour], vehicle: u64) -> &Tour
    requires from_one { 1 ≤ vehicle }
    requires within { vehicle ≤ length tours.now }
    ensures { (p : Instance) → AreTablesIn p tours.now → IsCourseIn p result.now }
{
    &tours[(vehicle - 1) as usize]
}

/// Replaces a tour by another and returns the old one.
pub(crate) fn swap(tours: &mut Vec<Tour>, index: usize, tour: Tour) -> Tour
    requires { index < length tours.old.items }
    ensures old { slice_get tours.old.items index ≡ Some result }
    ensures new { tours.new.items ≡ slice_set tours.old.items index tour }
{
    mem::replace(&mut tours[index], tour)
}
