//! `apply`, and `execute`, which hands each command to the module that executes it.
ghost use Rattle.std.specs.Prelude.{◌≡◌, None, Some, Ok, Err, ◌⊎◌, IfSome, IfOk, IfErr, MatchResult};
ghost use Rattle.command_core.specs.KeptSearch.{IsKept, IsSearchStateOf, IsStepOutcome, IsOutcome};
ghost use Rattle.command_core.specs.Changes.{with_change};
ghost use Rattle.command_core.specs.Effects.{job_after, effect};
ghost use Rattle.command_core.specs.Refusals.{job_refusal, refusal};
ghost use Rattle.command_types.specs.Commands.{IsCommand};
ghost use Rattle.command_types.specs.States.{IsState};

use crate::acceptance::check;
use crate::add::{add, add_single};
use crate::adopt::adopt;
use crate::build::{build, deviate};
use crate::changes::{Change, JobChange};
use crate::laws::commands_keep_invariants;
use crate::load::load;
use crate::pin::{pin, unpin};
use crate::reduce::reduce;
use crate::step::{StepCount, StepOutcome, step};
use crate::withdraw::withdraw;
use command_types::{Command, Job, Refusal, State};
use log::Log;
use log::sink::Discard;
use seeded_search::SearchState;
use std::alloc::Global;

/// Returns the state that the command makes. The old state stays.
///
/// # Errors
///
/// The refusal of `check`, before anything is allocated; then `OutOfMemory`.
pub fn apply(alloc: Global, state: &State, command: &Command) -> Result<State, Refusal>
    ensures ok { IfOk result (λ new. (new ≡ effect state.now command.now)
        × (refusal state.now command.now ≡ None)) }
    ensures err { IfErr result (λ r. (refusal state.now command.now ≡ Some r)
        ⊎ ((refusal state.now command.now ≡ None) × (r ≡ Refusal.OutOfMemory))) }
{
    commands_keep_invariants();
    keep_invariants(state, command);
    check(state, command)?;
    let carried = execute(&Discard, alloc, state, None, command)?;
    apply_change(state, carried.change)
}

// Returns a copy of the state with this change. The old state stays.
fn apply_change(state: &State, change: Change) -> Result<State, Refusal>
    requires { IsState (with_change change state.now) }
    ensures ok { IfOk result (λ new. new ≡ with_change change state.now) }
    ensures err { IfErr result (λ r. r ≡ Refusal.OutOfMemory) }
{
    match change {
        Change::Replace(new) => Ok(new),
        Change::Update(change) => apply_job_change(state, change),
    }
}

// Returns a copy of the state with this change of its job. The old state stays.
fn apply_job_change(state: &State, change: JobChange) -> Result<State, Refusal>
    requires { IsState (with_change (Change.Update change) state.now) }
    ensures ok { IfOk result (λ new. new ≡ with_change (Change.Update change) state.now) }
    ensures err { IfErr result (λ r. r ≡ Refusal.OutOfMemory) }
{
    let mut new = state.copy()?;
    drop(Change::Update(change).swap_into(&mut new));
    Ok(new)
}

/// Proves that a state, and a problem to be loaded, satisfy their invariants.
pub(crate) fn keep_invariants(state: &State, command: &Command)
    ensures state { IsState state.now }
    ensures command { IsCommand command.now }
{
    if let State::Loaded(job) = state {
        let _steps = job.steps;
    }
    if let Command::Load(problem, seed) = command {
        let _name = problem.name_of(0);
        let _seed = *seed;
    }
}

/// A command's change, and the search state over the changed job if one is kept.
#[derive(Drop)]
pub(crate) struct CommandOutcome {
    pub change: Change,
    pub search_state: Option<SearchState>,
}

/// Executes a command that is not refused. Steps continue the search state that was kept; any other command that
/// changes a job drops it. Each attempt with fewer vehicles is logged when it ends.
pub(crate) fn execute<R: Log>(
    rt: &R,
    alloc: Global,
    state: &State,
    kept: Option<SearchState>,
    command: &Command,
) -> Result<CommandOutcome, Refusal>
    requires accepted { refusal state.now command.now ≡ None }
    requires kept { IsKept state.now kept }
    ensures ok { IfOk result (IsOutcome state.now (effect state.now command.now)) }
    ensures err { IfErr result (λ r. r ≡ Refusal.OutOfMemory) }
{
    match state {
        State::Loaded(job) => execute_on_job(rt, alloc, job, kept, command),
        State::Empty => begin(alloc, command),
    }
}

// Executes a command on the empty state.
fn begin(alloc: Global, command: &Command) -> Result<CommandOutcome, Refusal>
    requires { refusal State.Empty command.now ≡ None }
    ensures ok { IfOk result (IsOutcome State.Empty (effect State.Empty command.now)) }
    ensures err { IfErr result (λ r. r ≡ Refusal.OutOfMemory) }
{
    match command {
        Command::Load(problem, seed) => new_job(load(alloc, problem, *seed)),
        _ => Err(Refusal::NoInstance),
    }
}

// Executes a command on a job. `Search`, `Checkpoint` and `Anneal` keep the search state; any other command drops
// it.
fn execute_on_job<R: Log>(
    rt: &R,
    alloc: Global,
    job: &Job,
    kept: Option<SearchState>,
    command: &Command,
) -> Result<CommandOutcome, Refusal>
    requires accepted { job_refusal job.now command.now ≡ None }
    requires kept { IfSome kept (IsSearchStateOf job.now) }
    ensures ok { IfOk result (IsOutcome (State.Loaded job.now)
        (State.Loaded (job_after job.now command.now))) }
    ensures err { IfErr result (λ r. r ≡ Refusal.OutOfMemory) }
{
    match command {
        Command::Search(count) => step_outcome(step(alloc, job, kept, StepCount::Search(*count))),
        Command::Checkpoint => Ok(CommandOutcome {
            change: Change::Update(JobChange::Nothing),
            search_state: kept,
        }),
        Command::Anneal(count) => step_outcome(step(alloc, job, kept, StepCount::Anneal(*count))),
        _ => execute_without_search_state(rt, alloc, job, command),
    }
}

// Executes a command that keeps no search state.
fn execute_without_search_state<R: Log>(
    rt: &R,
    alloc: Global,
    job: &Job,
    command: &Command,
) -> Result<CommandOutcome, Refusal>
    requires { job_refusal job.now command.now ≡ None }
    ensures ok { IfOk result (IsOutcome (State.Loaded job.now)
        (State.Loaded (job_after job.now command.now))) }
    ensures err { IfErr result (λ r. r ≡ Refusal.OutOfMemory) }
{
    match command {
        Command::Load(problem, seed) => new_job(load(alloc, problem, *seed)),
        Command::Add {
            demand,
            pickup,
            delivery,
        } => new_job(add(job, *demand, pickup, delivery)),
        Command::Add1 { demand, spot } => new_job(add_single(job, *demand, spot)),
        Command::Withdraw(name) => new_job(withdraw(alloc, job, *name)),
        Command::Pin(vehicle, stops) => job_change(pin(alloc, job, *vehicle, *stops)),
        Command::Unpin(vehicle) => job_change(unpin(alloc, job, *vehicle)),
        Command::Build => job_change(build(alloc, job)),
        Command::Search(count) => step_outcome(step(alloc, job, None, StepCount::Search(*count))),
        Command::Checkpoint => job_change(Ok(JobChange::Nothing)),
        Command::Deviation(deviation) => job_change(deviate(job, *deviation)),
        Command::Anneal(count) => step_outcome(step(alloc, job, None, StepCount::Anneal(*count))),
        Command::Reduce(count) => step_outcome(reduce(rt, alloc, job, *count)),
        Command::Adopt(plan) => job_change(adopt(job, plan)),
    }
}

// Returns the outcome that replaces the whole state by this job, or the refusal.
fn new_job(made: Result<Job, Refusal>) -> Result<CommandOutcome, Refusal>
    ensures { MatchResult made
        (λ job. result ≡ Ok (record { change = Change.Replace (State.Loaded job); search_state = None }))
        (λ r. result ≡ Err r) }
{
    Ok(CommandOutcome {
        change: Change::Replace(State::Loaded(made?)),
        search_state: None,
    })
}

// Returns the outcome that changes these parts of the job and keeps no search state, or the refusal.
fn job_change(made: Result<JobChange, Refusal>) -> Result<CommandOutcome, Refusal>
    ensures { MatchResult made
        (λ change. result ≡ Ok (record { change = Change.Update change; search_state = None }))
        (λ r. result ≡ Err r) }
{
    Ok(CommandOutcome {
        change: Change::Update(made?),
        search_state: None,
    })
}

// Returns the outcome that changes parts of the job and keeps the search state after the steps, or the refusal.
fn step_outcome(made: Result<StepOutcome, Refusal>) -> Result<CommandOutcome, Refusal>
    ensures { MatchResult made
        (λ stepped. result ≡ Ok (record {
          change = Change.Update stepped.change;
          search_state = Some stepped.search_state;
        }))
        (λ r. result ≡ Err r) }
{
    let StepOutcome {
        change,
        search_state,
    } = made?;
    Ok(CommandOutcome {
        change: Change::Update(change),
        search_state: Some(search_state),
    })
}
