//! Laws for every problem, pins and text.
ghost use Rattle.vehicle_assignment.specs.Laws.{AssignedPlansPass, AssignmentIsUnique, AssignmentKeepsRoutes, AssignmentFunctionExists};

use plan_audit::{each_plan_has_a_verdict, verdicts_are_unique};

/// Proves that there is exactly one function from a problem, pins and a text to the plan of the text, or to the
/// reason why there is none.
pub fn assignment_is_unique()
    ensures some { AssignmentFunctionExists }
    ensures one { AssignmentIsUnique }
{
    each_plan_has_a_verdict();
    verdicts_are_unique();
}

/// Proves that a plan has exactly the routes of the solution and empty routes for the other vehicles, if
/// neither the pins nor the used routes outnumber the vehicles. Each route begins with its vehicle's pin.
pub fn assignment_keeps_routes()
    ensures { AssignmentKeepsRoutes }
{}

/// Proves that a solution that passes the audit also passes as a plan with the pins, at the same cost, once
/// vehicles are assigned to its routes. The pins must not outnumber the vehicles.
pub fn assigned_plans_pass()
    ensures { AssignedPlansPass }
{}
