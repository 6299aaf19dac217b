//! One step of a search, and many: each step takes its words and changes the search state.
ghost use Rattle.std.specs.Prelude.{◌≡◌, ◌+◌, ◌<◌, ◌≤◌, true, IfOk};
ghost use Rattle.plan_types.specs.declared.limits.TheConstants.{MAX_STEPS};
ghost use Rattle.plan_audit.specs.Passes.{passes};
ghost use Rattle.seeded_search.specs.Steps.{search_plans, step as one_step, steps};
ghost use Rattle.seeded_search.specs.StepLaws.{BothPass};
ghost use Rattle.seeded_search.specs.SearchStates.{IsSearchState, search_plans_of};

use crate::search_context::SearchContext;
use crate::search_state::SearchState;
use crate::stream::StepWords;
use plan_types::{OutOfMemory, Pins, Plan, Problem};
use std::alloc::Global;

/// The result of a search.
#[derive(Debug, Drop)]
pub struct Found {
    /// The incumbent: the best plan so far.
    pub plan: Plan,
    /// The working plan, from which the search continues.
    pub work: Plan,
}

/// Makes one step of a search, from an incumbent and a working plan: record-to-record travel (Dueck 1993). The
/// words of the step make a candidate from the working plan.
///
/// The candidate becomes the working plan if it leaves fewer requests unplanned than the incumbent; or as many,
/// and uses fewer vehicles; or as many of both, and its distance is at most `deviation` greater. It also becomes
/// the incumbent if it costs no more. Without a candidate nothing changes.
///
/// Both plans must pass with these pins. Steps count from 0 and are below `MAX_STEPS`.
pub fn search_step(
    alloc: Global,
    problem: &Problem,
    pins: &Pins,
    plan: &Plan,
    work: &Plan,
    deviation: u32,
    seed: u64,
    step: u64,
) -> Result<Found, OutOfMemory>
    requires plan { passes problem.now pins.now.routes plan.now.routes ≡ true }
    requires work { passes problem.now pins.now.routes work.now.routes ≡ true }
    requires step { step < MAX_STEPS }
    ensures found { IfOk result (λ found. search_plans found.plan.routes found.work.routes
        ≡ one_step problem.now pins.now.routes deviation seed step
        (search_plans plan.now.routes work.now.routes)) }
    ensures passing { IfOk result
        (λ found. BothPass problem.now pins.now.routes
        (search_plans found.plan.routes found.work.routes)) }
{
    search_steps(alloc, problem, pins, plan, work, deviation, seed, step, 1)
}

/// Makes `count` steps of a search, from step number `step` on, each as `search_step` makes it. The number of
/// the last step is below `MAX_STEPS`.
pub fn search_steps(
    alloc: Global,
    problem: &Problem,
    pins: &Pins,
    plan: &Plan,
    work: &Plan,
    deviation: u32,
    seed: u64,
    step: u64,
    count: u64,
) -> Result<Found, OutOfMemory>
    requires plan { passes problem.now pins.now.routes plan.now.routes ≡ true }
    requires work { passes problem.now pins.now.routes work.now.routes ≡ true }
    requires first { step < MAX_STEPS }
    requires last { step + count ≤ MAX_STEPS }
    ensures found { IfOk result (λ found. search_plans found.plan.routes found.work.routes
        ≡ steps problem.now pins.now.routes deviation seed step count
        (search_plans plan.now.routes work.now.routes)) }
    ensures passing { IfOk result
        (λ found. BothPass problem.now pins.now.routes
        (search_plans found.plan.routes found.work.routes)) }
{
    let context = SearchContext {
        problem,
        pins,
        deviation,
        seed,
    };
    let search_state = SearchState::begin(alloc, &context, plan, work)?;
    continue_search(alloc, &context, search_state, step, count)?.end(alloc)
}

/// Makes `count` steps from a search state, from step number `step` on. If an allocation fails, the state is
/// lost.
#[tactic(auto, unfolding(crate::specs::Steps::step, crate::specs::Steps::steps))]
pub fn continue_search(
    alloc: Global,
    context: &SearchContext,
    search_state: SearchState,
    step: u64,
    count: u64,
) -> Result<SearchState, OutOfMemory>
    requires search_state { let c = context.now in
        IsSearchState c.problem.now c.pins.now.routes search_state }
    requires first { step < MAX_STEPS }
    requires last { step + count ≤ MAX_STEPS }
    ensures search_plans { let c = context.now in IfOk result (λ on. search_plans_of on
        ≡ steps c.problem.now c.pins.now.routes c.deviation c.seed step count
        (search_plans_of search_state)) }
    ensures search_state { let c = context.now in
        IfOk result (λ on. IsSearchState c.problem.now c.pins.now.routes on) }
{
    let mut search_state = search_state;
    let mut words = StepWords::from_step(context.seed, step);
    for done in 0..count {
        search_state.step(alloc, context, &words.next_step())?;
    }
    Ok(search_state)
}
