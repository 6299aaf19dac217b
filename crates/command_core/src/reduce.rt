//! `Reduce`: attempts to use fewer vehicles, then annealing with the remaining steps.
ghost use Rattle.std.specs.Prelude.{◌≡◌, ◌≤◌, ◌-◌, None, IfOk, IfErr};
ghost use Rattle.plan_types.specs.declared.limits.TheConstants.{MAX_STEPS};
ghost use Rattle.seeded_search.specs.SearchStates.{IsSearchState, search_plans_of};
ghost use Rattle.anneal_search.specs.Annealing.{anneal_steps};
ghost use Rattle.command_core.specs.Effects.{reduced};
ghost use Rattle.command_core.specs.KeptSearch.{IsStepOutcome};
ghost use Rattle.command_core.specs.Refusals.{job_refusal};
ghost use Rattle.command_types.specs.declared.commands.Command.TheVariants.{Reduce};

use crate::step::{StepOutcome, changed_by, context_of};
use anneal_search::continue_annealing;
use command_types::{Job, Refusal};
use fleet_reduction::{attempts_keep_plans, reduce_fleet};
use log::Log;
use plan_types::OutOfMemory;
use seeded_search::SearchState;
use std::alloc::Global;

/// Makes `count` steps, starting at the incumbent: first the attempts to use fewer vehicles, then annealing.
/// Each attempt is logged when it ends.
pub(crate) fn reduce<R: Log>(
    rt: &R,
    alloc: Global,
    job: &Job,
    count: u32,
) -> Result<StepOutcome, Refusal>
    requires { job_refusal job.now (Reduce count) ≡ None }
    ensures ok { IfOk result (IsStepOutcome job.now (reduced job.now count)) }
    ensures err { IfErr result (λ r. r ≡ Refusal.OutOfMemory) }
{
    attempts_keep_plans();
    let context = context_of(job);
    let tried = reduce_fleet(rt, alloc, &context, &job.plan, job.steps, count)?;
    let end = job.steps + u64::from(count);
    let search_state = SearchState::begin(alloc, &context, &tried.plan, &tried.plan)?;
    let search_state = anneal_to(alloc, job, search_state, tried.step, end)?;
    Ok(changed_by(alloc, job, search_state, end)?)
}

// Makes the annealing steps from `step` up to, but not including, `end`.
fn anneal_to(
    alloc: Global,
    job: &Job,
    search_state: SearchState,
    step: u64,
    end: u64,
) -> Result<SearchState, OutOfMemory>
    requires search_state { IsSearchState job.now.problem job.now.pins search_state }
    requires order { step ≤ end }
    requires last { end ≤ MAX_STEPS }
    ensures search_plans { IfOk result (λ on. search_plans_of on ≡ anneal_steps job.now.problem job.now.pins
        job.now.deviation job.now.seed step (end - step) (search_plans_of search_state)) }
    ensures search_state { IfOk result (IsSearchState job.now.problem job.now.pins) }
{
    if step == end {
        return Ok(search_state);
    }
    continue_annealing(alloc, &context_of(job), search_state, step, end - step)
}
