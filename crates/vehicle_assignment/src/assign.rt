//! The step from a solution's text to a plan.
ghost use Rattle.std.specs.Prelude.{◌≡◌, ◌⊎◌, IfErr, IfOk, Ok, Err};
ghost use Rattle.vehicle_assignment.specs.Assignments.{assigned_plan};
ghost use Rattle.vehicle_assignment.specs.AssignedPlan.{Gives, IsFound, IsFoundOrOutOfMemory};

use crate::assignment::assign_by_pins;
use crate::faults::AssignmentFault;
use crate::fill::{fill_empty, pad};
use plan_audit::{Verdict, audit_solution};
use plan_types::{Pins, Plan, Problem, Route, Routes};
use sol_text::read_sol;
use std::alloc::Global;

/// Reads a solution from the text of a CVRPLIB `.sol` file and returns the plan with a vehicle for each of its
/// routes.
///
/// Each vehicle with a pin, in ascending order of number, gets the first remaining route that begins with its
/// pin. The other vehicles, in ascending order of number, get the remaining routes in order. Vehicles left over
/// get an empty route.
///
/// # Errors
///
/// Returns `Sol` with the text's first fault; else `Broken` with the first violation if the auditor does not
/// pass the solution; else `PinWithoutRoute` with the first vehicle whose pin begins no remaining route. Returns
/// `OutOfMemory` if an allocation fails.
pub fn assign_vehicles(
    alloc: Global,
    problem: &Problem,
    pins: &Pins,
    text: &[u8],
) -> Result<Plan, AssignmentFault>
    ensures { IsFoundOrOutOfMemory problem.now pins.now.routes text.now result }
{
    let solution = read_sol(alloc, text)?;
    match audit_solution(alloc, problem, &solution)? {
        Verdict::Pass(_) => assigned_plan(
            alloc,
            problem.fleet,
            pins.routes.as_slice(),
            solution.routes,
        ),
        Verdict::Broken {
            rule,
            route,
            place,
            stop,
        } => Err(AssignmentFault::Broken {
            rule,
            route,
            place,
            stop,
        }),
    }
}

// Returns the plan with these routes for the given number of vehicles.
fn assigned_plan(
    alloc: Global,
    fleet: u32,
    pins: &[Route],
    routes: Routes,
) -> Result<Plan, AssignmentFault>
    ensures { Gives result (assigned_plan fleet pins.now routes) }
{
    let mut claims = assign_by_pins(alloc, pins, routes)?;
    pad(alloc, &mut claims.assigned, fleet)?;
    let routes = fill_empty(alloc, claims.assigned, claims.remaining)?;
    Ok(Plan { routes })
}
