//! Executes operations with a planner. The operations of this crate are refused only if memory runs out.
ghost use Rattle.std.specs.Prelude.{◌≡◌, IfErr, IfOk, OnOk};
ghost use Rattle.route_sched.specs.Cost.{cost_of};
ghost use Rattle.command_core.specs.Effects.{effect};
ghost use Rattle.command_types.specs.declared.states.State.TheVariants.{Loaded};

use command_core::{Change, Command, Job, Planner, Refusal, State};
use plan_types::{Cost, OutOfMemory};
use std::alloc::{AllocError, Global};

/// Executes an operation, or fails if memory runs out.
pub(crate) fn execute(
    alloc: Global,
    planner: &mut Planner,
    command: Command,
) -> Result<(), OutOfMemory>
    ensures { OnOk result (planner.new ≡ effect planner.old command) }
{
    out_of_memory_if_refused(planner.change(alloc, &command))
}

// Turns any refusal into `OutOfMemory`, since no other cause is possible.
fn out_of_memory_if_refused(changed: Result<Change, Refusal>) -> Result<(), OutOfMemory>
    ensures { OnOk result (IfErr changed (λ _. ⊥)) }
{
    match changed {
        Ok(_) => Ok(()),
        Err(_) => Err(AllocError),
    }
}

/// Returns the planner's job and the cost of its incumbent. A planner without a job, which does not occur here,
/// counts as out of memory.
pub(crate) fn incumbent_of(planner: &Planner) -> Result<(&Job, Cost), OutOfMemory>
    ensures job { IfOk result (λ found. planner.now ≡ Loaded found.0.now) }
    ensures cost { IfOk result (λ found. found.1 ≡ cost_of found.0.now.problem found.0.now.plan) }
{
    match planner.incumbent() {
        Some(found) => Ok(found),
        None => Err(AllocError),
    }
}

/// Returns the planner's job if its operations succeeded.
pub(crate) fn final_job(planner: Planner, made: Result<(), OutOfMemory>) -> Result<Job, OutOfMemory>
    ensures { IfOk result (λ job. (planner ≡ Loaded job) × IfErr made (λ _. ⊥)) }
{
    match made {
        Ok(()) => into_job(planner),
        Err(error) => Err(error),
    }
}

/// Consumes the planner and returns its job. A planner without a job counts as out of memory.
pub(crate) fn into_job(planner: Planner) -> Result<Job, OutOfMemory>
    ensures { IfOk result (λ job. planner ≡ Loaded job) }
{
    match planner.into_state() {
        State::Loaded(job) => Ok(job),
        State::Empty => Err(AllocError),
    }
}
