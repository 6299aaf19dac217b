//! One annealing step, and many: the words of each step, the candidate, and the plans that it replaces.
ghost use Rattle.std.specs.Prelude.{◌≡◌, ◌+◌, ◌<◌, ◌≤◌, true, IfOk, OnOk};
ghost use Rattle.plan_types.specs.declared.limits.TheConstants.{MAX_STEPS};
ghost use Rattle.plan_audit.specs.Passes.{passes};
ghost use Rattle.route_sched.specs.Cost.{cost_of};
ghost use Rattle.move_ops.specs.Drafts.{base_of, draft_of};
ghost use Rattle.seeded_search.specs.StepLaws.{BothPass};
ghost use Rattle.seeded_search.specs.SearchStates.{search_plans_of, KeepsSearchState, IsSearchState};
ghost use Rattle.anneal_search.specs.Annealing.{search_plans, candidate, accepted, annealed, annealed_by, anneal_step, anneal_steps};
ghost use Rattle.anneal_search.specs.StepLoops.{HasImproved, KeepsAnnealing, IsAnnealing};

use crate::candidates::make_candidate_near;
use plan_types::{Cost, OutOfMemory, Pins, Plan, Problem, costs_compare_lexicographically};
use seeded_search::{
    Found, SearchContext, SearchState, SpatialIndex, StepWords, Threshold, is_near,
};
use std::alloc::Global;

/// Makes one annealing step from an incumbent and a working plan. The words of the step make a candidate of the
/// working plan. The candidate becomes the working plan if it leaves out fewer requests than the working plan;
/// or as many, and uses fewer vehicles; or as many of both, and its distance is at most `deviation` greater. If
/// it also costs no more than the incumbent, it becomes the incumbent, too. Without a candidate nothing
/// changes.
///
/// Both plans must pass with these pins. Steps are numbered from 0, below `MAX_STEPS`. This is threshold accepting
/// (Dueck and Scheuer 1990) with string removals (Christiaens and Vanden Berghe 2020).
pub fn anneal_step(
    alloc: Global,
    problem: &Problem,
    pins: &Pins,
    plan: &Plan,
    work: &Plan,
    deviation: u32,
    seed: u64,
    step: u64,
) -> Result<Found, OutOfMemory>
    requires plan { passes problem.now pins.now.routes plan.now.routes ≡ true }
    requires work { passes problem.now pins.now.routes work.now.routes ≡ true }
    requires step { step < MAX_STEPS }
    ensures found { IfOk result (λ found. search_plans found.plan.routes found.work.routes
        ≡ anneal_step problem.now pins.now.routes deviation seed step
        (search_plans plan.now.routes work.now.routes)) }
    ensures passing { IfOk result
        (λ found. BothPass problem.now pins.now.routes
        (search_plans found.plan.routes found.work.routes)) }
{
    anneal_steps(alloc, problem, pins, plan, work, deviation, seed, step, 1)
}

/// Makes `count` annealing steps from step number `step` on, each as `anneal_step` makes it. The number of the
/// last step is below `MAX_STEPS`.
pub fn anneal_steps(
    alloc: Global,
    problem: &Problem,
    pins: &Pins,
    plan: &Plan,
    work: &Plan,
    deviation: u32,
    seed: u64,
    step: u64,
    count: u64,
) -> Result<Found, OutOfMemory>
    requires plan { passes problem.now pins.now.routes plan.now.routes ≡ true }
    requires work { passes problem.now pins.now.routes work.now.routes ≡ true }
    requires first { step < MAX_STEPS }
    requires last { step + count ≤ MAX_STEPS }
    ensures found { IfOk result (λ found. search_plans found.plan.routes found.work.routes
        ≡ anneal_steps problem.now pins.now.routes deviation seed step count
        (search_plans plan.now.routes work.now.routes)) }
    ensures passing { IfOk result
        (λ found. BothPass problem.now pins.now.routes
        (search_plans found.plan.routes found.work.routes)) }
{
    let context = SearchContext {
        problem,
        pins,
        deviation,
        seed,
    };
    let search_state = SearchState::begin(alloc, &context, plan, work)?;
    continue_annealing(alloc, &context, search_state, step, count)?.end(alloc)
}

/// The state of annealing between two steps.
#[derive(Drop)]
pub struct Annealing {
    /// The plans with their tables and lists.
    pub search_state: SearchState,
    /// The cost of the working plan.
    pub work: Cost,
}

impl Annealing {
    /// Begins annealing of `count` steps from a search state. If there are enough steps, lists of nearest stops are
    /// made when they are needed.
    pub(crate) fn begin(
        alloc: Global,
        context: &SearchContext,
        search_state: SearchState,
        count: u64,
    ) -> Result<Annealing, OutOfMemory>
        requires { IsSearchState context.now.problem.now context.now.pins.now.routes search_state }
        ensures search_plans { IfOk result (λ annealing. search_plans_of annealing.search_state ≡ search_plans_of search_state) }
        ensures annealing { let c = context.now in
            IfOk result (IsAnnealing c.problem.now c.pins.now.routes) }
    {
        let SearchContext { problem, pins, .. } = *context;
        let work = search_state.draft.cost(problem, pins);
        let mut search_state = search_state;
        if nearest_stops_pay_off(problem, count)
            && search_state.spatial_index.nearest_stops.is_empty()
        {
            search_state.spatial_index = SpatialIndex::build(alloc, problem)?;
        }
        Ok(Annealing { search_state, work })
    }

    // Makes a step with these words.
    fn step(
        &mut self,
        alloc: Global,
        context: &SearchContext,
        words: &[u32; 16],
    ) -> Result<(), OutOfMemory>
        requires { IsAnnealing context.now.problem.now context.now.pins.now.routes self.old }
        ensures search_plans { let c = context.now in OnOk result
            (search_plans_of self.new.search_state
            ≡ annealed_by c.problem.now c.deviation (search_plans_of self.old.search_state)
            (candidate c.problem.now c.pins.now.routes (base_of self.old.search_state.draft) words.now)) }
        ensures annealing { let c = context.now in
            OnOk result (IsAnnealing c.problem.now c.pins.now.routes self.new) }
    {
        let near = Threshold {
            deviation: context.deviation,
            best: &self.work,
        };
        if !make_candidate_near(
            context,
            &mut self.search_state.draft,
            &self.search_state.lists,
            &mut self.search_state.spatial_index,
            words,
            &near,
        )? {
            return Ok(());
        }
        self.settle(alloc, context)
    }

    // Replaces the plans that the candidate replaces.
    fn settle(&mut self, alloc: Global, context: &SearchContext) -> Result<(), OutOfMemory>
        requires { KeepsAnnealing context.now.problem.now context.now.pins.now.routes self.old }
        ensures search_plans { let c = context.now in OnOk result
            (search_plans_of self.new.search_state
            ≡ annealed c.problem.now c.deviation (search_plans_of self.old.search_state)
            (draft_of self.old.search_state.draft)) }
        ensures annealing { let c = context.now in
            OnOk result (IsAnnealing c.problem.now c.pins.now.routes self.new) }
    {
        let cost = self.search_state.draft.cost(context.problem, context.pins);
        if !is_near(context.deviation, &cost, &self.work) {
            self.search_state.draft.discard();
            return Ok(());
        }
        self.accept(alloc, context, &cost)
    }

    /// Accepts the candidate, which has this cost: it becomes the working plan and, if it costs no more than the
    /// incumbent, the incumbent, too.
    pub(crate) fn accept(
        &mut self,
        alloc: Global,
        context: &SearchContext,
        cost: &Cost,
    ) -> Result<(), OutOfMemory>
        requires keeps { let c = context.now in
            KeepsAnnealing c.problem.now c.pins.now.routes self.old }
        requires cost { cost.now
            ≡ cost_of context.now.problem.now (draft_of self.old.search_state.draft) }
        ensures search_plans { let old = self.old.search_state in OnOk result
            (search_plans_of self.new.search_state
            ≡ accepted context.now.problem.now (search_plans_of old) (draft_of old.draft)) }
        ensures annealing { let c = context.now in
            OnOk result (IsAnnealing c.problem.now c.pins.now.routes self.new) }
    {
        let improved = improve(alloc, context, &mut self.search_state, cost)?;
        self.work = *cost;
        self.search_state.accept(context, cost)?;
        self.search_state.is_at_incumbent = improved;
        Ok(())
    }
}

// Returns whether the steps save more than it costs to sort all stops: whether there is at least one step for every
// sixteen stop numbers. Sorting takes less time than one step for every hundred stops.
fn nearest_stops_pay_off(problem: &Problem, count: u64) -> bool {
    u64::from(problem.next_number) / 16 <= count
}

// Makes the candidate the incumbent if it costs no more, and returns whether it did.
fn improve(
    alloc: Global,
    context: &SearchContext,
    search_state: &mut SearchState,
    cost: &Cost,
) -> Result<bool, OutOfMemory>
    requires keeps { let c = context.now in
        KeepsSearchState c.problem.now c.pins.now.routes search_state.old }
    requires cost { cost.now ≡ cost_of context.now.problem.now (draft_of search_state.old.draft) }
    ensures { let c = context.now in IfOk result
        (HasImproved c.problem.now c.pins.now.routes search_state.old search_state.new) }
{
    costs_compare_lexicographically();
    if *cost <= search_state.best {
        search_state.improve(alloc, context, cost)?;
        return Ok(true);
    }
    Ok(false)
}

/// Continues a search state by `count` annealing steps, from step number `step` on. If memory runs out, the
/// search state is lost.
#[tactic(auto, unfolding(crate::specs::Annealing::anneal_step, crate::specs::Annealing::anneal_steps))]
pub fn continue_annealing(
    alloc: Global,
    context: &SearchContext,
    search_state: SearchState,
    step: u64,
    count: u64,
) -> Result<SearchState, OutOfMemory>
    requires search_state { let c = context.now in
        IsSearchState c.problem.now c.pins.now.routes search_state }
    requires first { step < MAX_STEPS }
    requires last { step + count ≤ MAX_STEPS }
    ensures search_plans { let c = context.now in IfOk result (λ on. search_plans_of on
        ≡ anneal_steps c.problem.now c.pins.now.routes c.deviation c.seed step count
        (search_plans_of search_state)) }
    ensures search_state { let c = context.now in
        IfOk result (λ on. IsSearchState c.problem.now c.pins.now.routes on) }
{
    let mut annealing = Annealing::begin(alloc, context, search_state, count)?;
    let mut words = StepWords::from_step(context.seed, step);
    for done in 0..count {
        annealing.step(alloc, context, &words.next_step())?;
    }
    Ok(annealing.search_state)
}
