//! The operations of `anneal FROM TO`, one by one. If the number of vehicles counts, the first half of the steps
//! anneals and then looks for fewer vehicles, and the second half anneals in stages.
ghost use Rattle.std.specs.Prelude.{◌≡◌, ◌≤◌, ◌<◌, ◌==◌, ◌+◌, ◌-◌, min, [], ◌∷◌, Some, None, IfSome, MatchOption, if◌then◌else◌};
ghost use Rattle.annealing_schedule.specs.Stages.{boundary, hundredths_of, mean_leg_share, stage_of};
ghost use Rattle.command_core.specs.Effects.{effect};
ghost use Rattle.command_types.specs.declared.states.State.TheVariants.{Loaded};
ghost use Rattle.command_text.specs.Answering.{commands_of};
ghost use Rattle.command_text.specs.Staging.{commands_in_stage, first_anneal_end, halfway, hundredths_due, next_deviation, reducing_hundredths, reducing_steps, stage_commands, staged_hundredths, staged_steps, steps_due};

use crate::steps::{MAX_ANNEAL_PIECE, StepCursor};
use annealing_schedule::{boundary, hundredths, mean_leg_share, stage_of};
use command_core::{Command, Job, MAX_REDUCE_STEPS};
use plan_audit::passing_is_local;
use plan_types::Kind;

/// The deviation during the annealing before the search for fewer vehicles, in hundredths of the mean leg.
pub const FIRST_HUNDREDTHS: u32 = 100;

/// Returns the next operation of annealing in stages and the cursor after it. At the start of a stage, this
/// operation sets the deviation of the stage.
pub(crate) fn next_stage_command(from: u64, to: u64, job: &Job) -> Option<(Command, StepCursor)>
    ensures { MatchOption result (stage_commands from to job.now ≡ [])
        (λ x. stage_commands from to job.now
        ≡ x.0 ∷ commands_of x.1 (effect (Loaded job.now) x.0)) }
{
    match next_deviation(from, to, job) {
        Some(deviation) => Some((
            Command::Deviation(deviation),
            StepCursor::InStage { from, to },
        )),
        None => next_in_stage(from, to, job),
    }
}

/// Returns the next operation of annealing in stages once the deviation is set, and the cursor after it.
pub(crate) fn next_in_stage(from: u64, to: u64, job: &Job) -> Option<(Command, StepCursor)>
    ensures { MatchOption result (commands_in_stage from to job.now ≡ [])
        (λ x. commands_in_stage from to job.now
        ≡ x.0 ∷ commands_of x.1 (effect (Loaded job.now) x.0)) }
{
    let command = steps_due(job.problem.kind, from, to, job.steps)?;
    Some((command, StepCursor::Stages { from, to }))
}

// Returns the deviation to set before the next steps, or `None` if it stays as it is.
fn next_deviation(from: u64, to: u64, job: &Job) -> Option<u32>
    ensures { result ≡ next_deviation from to job.now }
{
    let hundredths = hundredths_due(job.problem.kind, from, to, job.steps)?;
    Some(share_of(job, hundredths))
}

// Returns the given number of hundredths of the mean leg of the job's plan.
fn share_of(job: &Job, hundredths: u32) -> u32
    ensures { result ≡ mean_leg_share job.now.problem job.now.plan hundredths }
{
    passing_is_local();
    mean_leg_share(&job.problem, &job.plan, hundredths)
}

// Returns the operation that makes the next steps, or `None` if no steps are left.
fn steps_due(kind: Kind, from: u64, to: u64, step: u64) -> Option<Command>
    ensures { result ≡ steps_due kind from to step }
{
    match kind {
        Kind::LiLim => reducing_steps(from, to, step),
        Kind::Vrp => staged_steps(from, to, step),
    }
}

// Returns the result of `steps_due` for a problem in which the number of vehicles counts.
fn reducing_steps(from: u64, to: u64, step: u64) -> Option<Command>
    ensures { result ≡ reducing_steps from to step }
{
    if step < from {
        return None;
    }
    let first_anneal_end = first_anneal_end(from, to);
    if step < first_anneal_end {
        return Some(Command::Anneal(at_most(first_anneal_end - step, MAX_ANNEAL_PIECE)));
    }
    let half = halfway(from, to);
    if step < half {
        return Some(Command::Reduce(at_most(half - step, MAX_REDUCE_STEPS)));
    }
    staged_steps(half, to, step)
}

// Returns the result of `steps_due` if all steps anneal in stages.
fn staged_steps(from: u64, to: u64, step: u64) -> Option<Command>
    ensures { result ≡ staged_steps from to step }
{
    let stage = stage_of_step(from, to, step)?;
    let count = boundary(from, to, stage + 1) - step;
    Some(Command::Anneal(at_most(count, MAX_ANNEAL_PIECE)))
}

// Returns the deviation to set before the next steps, in hundredths of the mean leg, or `None` if it stays as it
// is.
fn hundredths_due(kind: Kind, from: u64, to: u64, step: u64) -> Option<u32>
    ensures { result ≡ hundredths_due kind from to step }
{
    match kind {
        Kind::LiLim => reducing_hundredths(from, to, step),
        Kind::Vrp => staged_hundredths(from, to, step),
    }
}

// Returns the result of `hundredths_due` for a problem in which the number of vehicles counts.
fn reducing_hundredths(from: u64, to: u64, step: u64) -> Option<u32>
    ensures { result ≡ reducing_hundredths from to step }
{
    let half = halfway(from, to);
    if half <= step {
        return staged_hundredths(half, to, step);
    }
    if step == from && step < first_anneal_end(from, to) {
        return Some(FIRST_HUNDREDTHS);
    }
    None
}

// Returns the result of `hundredths_due` if all steps anneal in stages: the deviation is set at the start of a
// stage.
fn staged_hundredths(from: u64, to: u64, step: u64) -> Option<u32>
    ensures { result ≡ staged_hundredths from to step }
{
    let stage = stage_of_step(from, to, step)?;
    if step == boundary(from, to, stage) {
        Some(hundredths(stage))
    } else {
        None
    }
}

// Returns the step at which the search for fewer vehicles ends and the stages begin.
fn halfway(from: u64, to: u64) -> u64
    ensures value { result ≡ halfway from to }
    ensures begun { from ≤ result }
{
    from + to.saturating_sub(from) / 2
}

// Returns the step at which the search for fewer vehicles begins.
fn first_anneal_end(from: u64, to: u64) -> u64
    ensures { result ≡ first_anneal_end from to }
{
    from + (halfway(from, to) - from) / 20
}

// Returns the stage of a step, counted from 0, or `None` if the step is not in `from..to`.
fn stage_of_step(from: u64, to: u64, step: u64) -> Option<u32>
    ensures stage { result ≡ stage_of from to step }
    ensures within { IfSome result (λ k. (from ≤ to) × (k < 20)
        × (step < boundary from to (k + 1))) }
{
    if to < from {
        return None;
    }
    stage_of(from, to, step)
}

// Returns `count`, but at most `most`, the greatest number of steps of one operation.
fn at_most(count: u64, most: u32) -> u32
    ensures { result ≡ min count most }
{
    count.min(u64::from(most)) as u32
}
