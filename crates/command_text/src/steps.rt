//! The operations of a command that makes steps, or of `freeze`, which sets pins instead.
ghost use Rattle.std.specs.Prelude.{◌≡◌, ◌-◌, ◌≤◌, ◌<◌, [], ◌∷◌, ◌^◌, MatchOption};
ghost use Rattle.command_core.specs.Effects.{effect};
ghost use Rattle.command_types.specs.declared.limits.TheConstants.{MAX_SEARCH_STEPS};
ghost use Rattle.command_types.specs.declared.states.State.TheVariants.{Empty, Loaded};
ghost use Rattle.command_text.specs.Answering.{steps_to_freeze, commands_of, counts_of, steps_in_stages, steps_from, steps_to_make, steps_to_reach, unless_spent};

use crate::answers::Answer;
use crate::freezing::next_freeze_command;
use crate::staging::{next_in_stage, next_stage_command};
use command_core::{Command, Job, MAX_REDUCE_STEPS, MAX_SEARCH_STEPS, MAX_STEPS, Refusal, State};
use plan_types::Kind;
use plan_types::limits::MAX_REQUESTED_STEPS;

/// The maximum number of annealing steps in one operation, so that progress is printed often and a crash loses
/// little.
pub const MAX_ANNEAL_PIECE: u32 = 16_384;

/// A command that takes several operations, which make steps or set pins.
#[derive(Clone, Copy, Debug, PartialEq, Eq)]
pub enum StepRequest {
    /// This many search steps, 1..=`MAX_REQUESTED_STEPS`.
    Search(u32),
    /// Search steps until the state has made this number of steps, 0..=`MAX_STEPS`.
    Reach(u64),
    /// This many annealing steps, 1..=`MAX_REQUESTED_STEPS`.
    Anneal(u32),
    /// This many steps that look for fewer vehicles, 1..=`MAX_REQUESTED_STEPS`.
    Reduce(u32),
    /// The steps `from..to` of annealing in stages, with `from <= to <= MAX_STEPS`.
    Stages { from: u64, to: u64 },
    /// The pins of all stops to which a vehicle has departed by this time, 0..=`MAX_TIME`.
    Freeze(u32),
}

/// The steps that a command still has to make, or the pins that it still has to set.
#[derive(Clone, Copy, Debug, PartialEq, Eq)]
pub enum StepCursor {
    /// This many search steps.
    Search(u32),
    /// This many annealing steps.
    Anneal(u32),
    /// This many steps that look for fewer vehicles.
    Reduce(u32),
    /// The rest of the steps `from..to` of annealing in stages.
    Stages { from: u64, to: u64 },
    /// The steps of `Stages`, once the deviation for the next steps is set.
    InStage { from: u64, to: u64 },
    /// The pins of `freeze` for this time, from vehicle `first` on.
    Freeze { time: u32, first: u32 },
}

/// Returns the steps or pins that a command has to make. For `reach N` these are the steps that the state lacks,
/// none if it has made N or more.
///
/// # Errors
///
/// `NoInstance` before the first `load`. `StepsSpent` if `search N`, `anneal N` or `reduce N` would pass
/// `MAX_STEPS`. `Range` if `reach N` or `anneal FROM TO` lacks more than `MAX_REQUESTED_STEPS` steps, or if the
/// state has not reached FROM. `NoTimes` for `freeze T` on an instance without times.
pub fn steps_to_make(state: &State, goal: StepRequest) -> Result<StepCursor, Answer>
    ensures { result ≡ steps_to_make state.now goal }
{
    match state {
        State::Empty => Err(Answer::Refused(Refusal::NoInstance)),
        State::Loaded(job) => steps_from(job, goal),
    }
}

fn steps_from(job: &Job, goal: StepRequest) -> Result<StepCursor, Answer>
    ensures { result ≡ steps_from job.now goal }
{
    match goal {
        StepRequest::Search(count) => unless_spent(job, count, StepCursor::Search(count)),
        StepRequest::Anneal(count) => unless_spent(job, count, StepCursor::Anneal(count)),
        StepRequest::Reduce(count) => unless_spent(job, count, StepCursor::Reduce(count)),
        StepRequest::Reach(number) => steps_to_reach(job, number),
        StepRequest::Stages { from, to } => steps_in_stages(job, from, to),
        StepRequest::Freeze(time) => steps_to_freeze(job.problem.kind, time),
    }
}

// Returns these steps, or a refusal if the job would then have made more than `MAX_STEPS`.
fn unless_spent(job: &Job, count: u32, steps: StepCursor) -> Result<StepCursor, Answer>
    ensures { result ≡ unless_spent job.now count steps }
{
    if job.steps + u64::from(count) <= MAX_STEPS {
        Ok(steps)
    } else {
        Err(Answer::Refused(Refusal::StepsSpent))
    }
}

fn steps_to_reach(job: &Job, number: u64) -> Result<StepCursor, Answer>
    ensures { result ≡ steps_to_reach job.now number }
{
    if number <= job.steps + MAX_REQUESTED_STEPS {
        Ok(StepCursor::Search(number.saturating_sub(job.steps) as u32))
    } else {
        Err(Answer::Refused(Refusal::Range))
    }
}

fn steps_in_stages(job: &Job, from: u64, to: u64) -> Result<StepCursor, Answer>
    ensures { result ≡ steps_in_stages job.now from to }
{
    if from <= job.steps && to <= job.steps + MAX_REQUESTED_STEPS {
        Ok(StepCursor::Stages { from, to })
    } else {
        Err(Answer::Refused(Refusal::Range))
    }
}

// Returns the pins of `freeze`, or `NoTimes` if the instance has no times.
fn steps_to_freeze(kind: Kind, time: u32) -> Result<StepCursor, Answer>
    ensures { result ≡ steps_to_freeze kind time }
{
    match kind {
        Kind::LiLim => Ok(StepCursor::Freeze { time, first: 1 }),
        Kind::Vrp => Err(Answer::NoTimes),
    }
}

/// Returns the next operation and the cursor after it, or `None` if no steps or pins are left.
#[tactic(auto, using(crate::proofs::StepLemmas::no_counts))]
pub fn next_command(steps: StepCursor, state: &State) -> Option<(Command, StepCursor)>
    ensures { MatchOption result (commands_of steps state.now ≡ [])
        (λ x. commands_of steps state.now ≡ x.0 ∷ commands_of x.1 (effect state.now x.0)) }
{
    match steps {
        StepCursor::Search(0) => None,
        StepCursor::Anneal(0) => None,
        StepCursor::Reduce(0) => None,
        StepCursor::Search(left) => {
            let count = next_count(left);
            Some((
                Command::Search(count),
                StepCursor::Search(left - u32::from(count)),
            ))
        }
        StepCursor::Anneal(left) => {
            let count = next_piece(left, MAX_ANNEAL_PIECE);
            Some((Command::Anneal(count), StepCursor::Anneal(left - count)))
        }
        StepCursor::Reduce(left) => {
            let count = next_piece(left, MAX_REDUCE_STEPS);
            Some((Command::Reduce(count), StepCursor::Reduce(left - count)))
        }
        StepCursor::Stages { from, to } => next_stage_command(from, to, job_in(state)?),
        StepCursor::InStage { from, to } => next_in_stage(from, to, job_in(state)?),
        StepCursor::Freeze { time, first } => next_freeze_command(
            state,
            job_in(state)?,
            time,
            first,
        ),
    }
}

fn job_in(state: &State) -> Option<&Job>
    ensures { MatchOption result (state.now ≡ Empty) (λ job. state.now ≡ Loaded job.now) }
{
    match state {
        State::Empty => None,
        State::Loaded(job) => Some(job),
    }
}

/// Returns the number of search steps of the next operation if `left` steps are left. It is at most
/// `MAX_SEARCH_STEPS`.
#[tactic(auto, using(crate::proofs::StepLemmas::large_count, crate::proofs::StepLemmas::small_count))]
pub fn next_count(left: u32) -> u16
    requires { 0 < left }
    ensures counts { counts_of MAX_SEARCH_STEPS left
        ≡ result ∷ counts_of MAX_SEARCH_STEPS (left - result) }
    ensures least { 0 < result }
    ensures most { result ≤ left }
{
    if left < u32::from(MAX_SEARCH_STEPS) {
        left as u16
    } else {
        MAX_SEARCH_STEPS
    }
}

// Returns the number of steps of the next operation, if `left` steps are left and one operation makes at most
// `most`.
#[tactic(auto, using(crate::proofs::StepLemmas::large_count, crate::proofs::StepLemmas::small_count))]
fn next_piece(left: u32, most: u32) -> u32
    requires left { 0 < left }
    requires most { 0 < most }
    ensures counts { counts_of most left ≡ result ∷ counts_of most (left - result) }
    ensures most { result ≤ left }
{
    if left < most { left } else { most }
}
