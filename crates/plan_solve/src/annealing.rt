//! Annealing: the operations of the command `anneal 0 STEPS`, with a progress line before the first one and
//! after each that reaches another twentieth of the steps.
ghost use Rattle.std.specs.Prelude.{◌≡◌, true, max, IfOk};
ghost use Rattle.std.specs.Io.KnownBytes.{Appends};
ghost use Rattle.plan_solve.specs.Solved.{anneal_lines, annealed, line_after, twentieths_made};
ghost use Rattle.plan_solve.specs.ProgressState.{HasMade, HasEnded};
ghost use Rattle.route_sched.specs.Cost.{cost_of};
ghost use Rattle.command_types.specs.Job.{JobValue};
ghost use Rattle.command_types.specs.declared.states.State.TheVariants.{Loaded};

use crate::execute::{execute, incumbent_of};
use crate::progress_lines::{EndedJob, write_progress};
use command_core::{Job, Planner, State};
use command_text::{StepCursor, next_command};
use plan_types::{Cost, OutOfMemory};
use std::alloc::Global;
use std::io::Write;

/// The progress lines written so far.
#[derive(Clone, Copy)]
struct ProgressState {
    /// Whether each progress line was written.
    is_written: bool,
    /// The number of twentieths of all steps that were made when the last line was written.
    parts: u128,
}

/// Makes this many steps of annealing by stages. If vehicles count, the first half of the steps looks for plans
/// with fewer vehicles.
pub(crate) fn anneal_with_progress<W: Write>(
    alloc: Global,
    begun: Job,
    steps: u32,
    progress: &mut W,
) -> Result<EndedJob, OutOfMemory>
    ensures { IfOk result (HasEnded (W.contents progress.old) (W.contents progress.new)
        (annealed begun steps) (anneal_lines begun steps)) }
{
    let mut planner = Planner::new(State::Loaded(begun));
    let reported = anneal_by_stages(alloc, &mut planner, steps, progress);
    EndedJob::of(planner, reported)
}

// Makes the steps, starting from the planner's job. Returns whether each progress line was written.
fn anneal_by_stages<W: Write>(
    alloc: Global,
    planner: &mut Planner,
    steps: u32,
    progress: &mut W,
) -> Result<bool, OutOfMemory>
    ensures { IfOk result (λ is_written. (begun : JobValue) → planner.old ≡ Loaded begun
        → HasMade (W.contents progress.old) (W.contents progress.new)
        (annealed begun steps) (anneal_lines begun steps) planner.new is_written) }
{
    let (job, cost) = incumbent_of(planner)?;
    let is_written = write_progress(true, job, cost, progress);
    let mut reported = ProgressState {
        is_written,
        parts: 0,
    };
    let mut left = StepCursor::Stages {
        from: 0,
        to: u64::from(steps),
    };
    while let Some((command, following)) = next_command(left, planner.state()) {
        execute(alloc, planner, command)?;
        let (job, cost) = incumbent_of(planner)?;
        reported = write_progress_if_due(reported, job, cost, steps, progress);
        left = following;
    }
    Ok(reported.is_written)
}

// Writes a progress line if the job has made more twentieths of all steps than when the last line was written.
fn write_progress_if_due<W: Write>(
    reported: ProgressState,
    job: &Job,
    cost: Cost,
    steps: u32,
    progress: &mut W,
) -> ProgressState
    requires { cost ≡ cost_of job.now.problem job.now.plan }
    ensures parts { result.parts ≡ max reported.parts (twentieths_made steps job.now) }
    ensures reported { result.is_written ≡ true → (reported.is_written ≡ true)
        × Appends (W.contents progress.old) (W.contents progress.new)
        (line_after steps reported.parts job.now) }
{
    let parts = twentieths_made(job, steps);
    if parts <= reported.parts {
        return reported;
    }
    let is_written = write_progress(reported.is_written, job, cost, progress);
    ProgressState { is_written, parts }
}

// Returns how many twentieths of the steps the job has made.
fn twentieths_made(job: &Job, steps: u32) -> u128
    ensures { result ≡ twentieths_made steps job.now }
{
    let made = 20 * u128::from(job.steps);
    made.checked_div(u128::from(steps)).unwrap_or(0)
}
