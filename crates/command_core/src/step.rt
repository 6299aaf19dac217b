//! `Search` and `Anneal`: steps over a job's plans. The search state is kept from one command to the next.
ghost use Rattle.std.specs.Prelude.{◌≡◌, ◌+◌, None, IfSome, IfOk, IfErr};
ghost use Rattle.seeded_search.specs.SearchStates.{IsSearchState};
ghost use Rattle.command_core.specs.KeptSearch.{IsSearchStateOf, IsStepOutcome, with_search_plans, command_for};
ghost use Rattle.command_core.specs.Effects.{job_after};
ghost use Rattle.command_core.specs.Refusals.{job_refusal};
ghost use Rattle.command_types.specs.Commands.{steps_of};

use crate::changes::JobChange;
use anneal_search::continue_annealing;
use command_types::{Job, Refusal};
use plan_types::OutOfMemory;
use seeded_search::{Found, SearchContext, SearchState, continue_search};
use std::alloc::Global;

/// A number of steps, of the search or of annealing.
#[derive(Clone, Copy)]
pub(crate) enum StepCount {
    Search(u16),
    Anneal(u32),
}

impl StepCount {
    fn count(self) -> u64
        ensures { result ≡ steps_of (command_for self) }
    {
        match self {
            StepCount::Search(count) => u64::from(count),
            StepCount::Anneal(count) => u64::from(count),
        }
    }
}

/// The change that steps make to a job, and the search state after them.
#[derive(Drop)]
pub(crate) struct StepOutcome {
    pub change: JobChange,
    pub search_state: SearchState,
}

/// Makes the requested steps. If a search state is kept, the steps continue it and no table is rebuilt.
#[tactic(auto, using(crate::proofs::StepLimitLemmas::steps_fit))]
pub(crate) fn step(
    alloc: Global,
    job: &Job,
    kept: Option<SearchState>,
    steps: StepCount,
) -> Result<StepOutcome, Refusal>
    requires accepted { job_refusal job.now (command_for steps) ≡ None }
    requires kept { IfSome kept (IsSearchStateOf job.now) }
    ensures ok { IfOk result (IsStepOutcome job.now (job_after job.now (command_for steps))) }
    ensures err { IfErr result (λ r. r ≡ Refusal.OutOfMemory) }
{
    let search_state = search_state_of(alloc, job, kept)?;
    let search_state = step_on(alloc, job, search_state, steps)?;
    Ok(changed_by(alloc, job, search_state, job.steps + steps.count())?)
}

/// Returns the values that all steps of a job share.
pub(crate) fn context_of(job: &Job) -> SearchContext<'_>
    ensures problem { result.problem.now ≡ job.now.problem }
    ensures pins { result.pins.now.routes ≡ job.now.pins }
    ensures deviation { result.deviation ≡ job.now.deviation }
    ensures seed { result.seed ≡ job.now.seed }
{
    SearchContext {
        problem: &job.problem,
        pins: &job.pins,
        deviation: job.deviation,
        seed: job.seed,
    }
}

// Returns the search state after these steps.
#[tactic(auto, using(crate::proofs::StepLimitLemmas::steps_fit))]
fn step_on(
    alloc: Global,
    job: &Job,
    search_state: SearchState,
    steps: StepCount,
) -> Result<SearchState, OutOfMemory>
    requires accepted { job_refusal job.now (command_for steps) ≡ None }
    requires search_state { IsSearchStateOf job.now search_state }
    ensures search_state { IfOk result (IsSearchState job.now.problem job.now.pins) }
    ensures job { IfOk result (λ on.
        with_search_plans job.now on (job.now.steps + steps_of (command_for steps))
        ≡ job_after job.now (command_for steps)) }
{
    let context = context_of(job);
    let count = steps.count();
    match steps {
        StepCount::Search(_) => continue_search(alloc, &context, search_state, job.steps, count),
        StepCount::Anneal(_) => continue_annealing(alloc, &context, search_state, job.steps, count),
    }
}

// Returns the kept search state, or a new one.
fn search_state_of(
    alloc: Global,
    job: &Job,
    kept: Option<SearchState>,
) -> Result<SearchState, OutOfMemory>
    requires { IfSome kept (IsSearchStateOf job.now) }
    ensures { IfOk result (IsSearchStateOf job.now) }
{
    match kept {
        Some(search_state) => Ok(search_state),
        None => SearchState::begin(alloc, &context_of(job), &job.plan, &job.work),
    }
}

// Returns the change of the job to the plans of this search state, with `steps` steps made in all.
pub(crate) fn changed_by(
    alloc: Global,
    job: &Job,
    search_state: SearchState,
    steps: u64,
) -> Result<StepOutcome, OutOfMemory>
    requires { IsSearchState job.now.problem job.now.pins search_state }
    ensures { IfOk result (IsStepOutcome job.now (with_search_plans job.now search_state steps)) }
{
    let Found { plan, work } = search_state.plans(alloc)?;
    Ok(StepOutcome {
        change: JobChange::Plans { plan, work, steps },
        search_state,
    })
}
