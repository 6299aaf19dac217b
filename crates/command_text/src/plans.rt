//! The text of a solution, which follows an `adopt` command.
ghost use Rattle.command_text.specs.Readings.{IsPlanUnlessMemory, IsReading, Reading};

use command_core::Job;
use plan_types::Plan;
use std::alloc::Global;
use vehicle_assignment::{AssignmentFault, assign_vehicles, assignment_is_unique};

/// Reads the text of a solution of the job's problem. Returns a plan that keeps the job's pins. Otherwise
/// returns the reason why the solution is not such a plan, or out of memory.
pub fn read_plan(alloc: Global, job: &Job, text: &[u8]) -> Result<Plan, AssignmentFault>
    ensures { (reading : Reading) → IsReading reading
        → IsPlanUnlessMemory result (reading.plan job.now.problem job.now.pins text.now) }
{
    assignment_is_unique();
    assign_vehicles(alloc, &job.problem, &job.pins, text)
}
