//! An attempt to serve every request: annealing steps that compare plans by how often the requests that they
//! leave out were left out before (absence counters, Christiaens and Vanden Berghe 2020).
ghost use Rattle.std.specs.Prelude.{◌≡◌, ◌+◌, ◌*◌, ◌-◌, ◌<◌, ◌≤◌, ◌^◌, not, true, ◌==◌, IfOk, OnOk};
ghost use Rattle.plan_types.specs.declared.limits.TheConstants.{MAX_STEPS};
ghost use Rattle.plan_audit.specs.Passes.{passes};
ghost use Rattle.route_sched.specs.Cost.{cost_of};
ghost use Rattle.move_ops.specs.Drafts.{base_of, draft_of};
ghost use Rattle.seeded_search.specs.Steps.{unplanned_names};
ghost use Rattle.anneal_search.specs.Annealing.{candidate};
ghost use Rattle.anneal_search.specs.Absences.{AreAtMost, HoldLeftOut};
ghost use Rattle.anneal_search.specs.StepLoops.{KeepsAnnealing, IsAnnealing};
ghost use Rattle.anneal_search.specs.AttemptState.{begun, is_acceptable, attempt_with, attempt_after, attempt_steps};
ghost use Rattle.anneal_search.specs.AttemptLaws.{IsAttemptResult};
ghost use Rattle.anneal_search.specs.AttemptSteps.{IsAttempt, KeepsAttempt, attempt_state};

use crate::absences::{count, left_out, weight};
use crate::candidates::make;
use crate::search::Annealing;
use plan_types::{Cost, OutOfMemory, Plan};
use seeded_search::{SearchContext, SearchState, StepWords};
use std::alloc::Global;

/// The result of an attempt.
#[derive(Debug, Drop)]
pub struct Reduction {
    /// The best plan.
    pub plan: Plan,
    /// The number of the step after the last one.
    pub step: u64,
}

/// Makes at most `most` steps of an attempt that begins with this plan, from step number `step` on. It stops
/// earlier once the best plan leaves no request out.
///
/// The words of a step make a candidate from the working plan, as in `anneal_step`. An absence counter says how
/// often a request was left out before. The candidate becomes the working plan if it leaves out fewer requests,
/// or if the counters of the requests that it leaves out have a smaller sum. It also does if number and sum are
/// equal and its distance is at most `deviation` greater. If it then costs no more than the best plan, it
/// becomes the best plan, too.
///
/// At the end of a step, each request that the candidate leaves out is counted once more, whether or not the
/// candidate was accepted. The plan must pass with these pins, and the number of the last step must be below
/// `MAX_STEPS`.
#[tactic(auto, unfolding(crate::specs::AttemptState::attempt_step, crate::specs::AttemptState::attempt_steps))]
pub fn attempt_steps(
    alloc: Global,
    context: &SearchContext,
    plan: &Plan,
    step: u64,
    most: u32,
) -> Result<Reduction, OutOfMemory>
    requires plan { let c = context.now in
        passes c.problem.now c.pins.now.routes plan.now.routes ≡ true }
    requires first { step < MAX_STEPS }
    requires last { step + most ≤ MAX_STEPS }
    ensures tried { let c = context.now in IfOk result (IsAttemptResult
        (attempt_steps c.problem.now c.pins.now.routes c.deviation c.seed most
        (begun c.problem.now plan.now.routes step))) }
{
    let mut attempt = Attempt::begin(alloc, context, plan, most)?;
    let mut words = StepWords::from_step(context.seed, step);
    while attempt.made < most && attempt.leaves_out() {
        attempt.step(alloc, context, &words.next_step())?;
    }
    let step = step + u64::from(attempt.made);
    Ok(Reduction {
        plan: attempt.into_best(),
        step,
    })
}

/// An attempt between two steps.
#[derive(Drop)]
pub struct Attempt {
    /// The plans with their tables and lists.
    pub annealing: Annealing,
    /// The absence counters, by name of the request.
    pub absences: Vec<u64>,
    /// The number of steps made.
    pub made: u32,
}

impl Attempt {
    // Begins an attempt of at most `most` steps.
    fn begin(
        alloc: Global,
        context: &SearchContext,
        plan: &Plan,
        most: u32,
    ) -> Result<Attempt, OutOfMemory>
        requires { let c = context.now in
            passes c.problem.now c.pins.now.routes plan.now.routes ≡ true }
        ensures made { IfOk result (λ attempt. attempt.made ≡ 0) }
        ensures begun { IfOk result (λ attempt. (step : _)
            → attempt_state step attempt ≡ begun context.now.problem.now plan.now.routes step) }
        ensures attempt { let c = context.now in
            IfOk result (IsAttempt c.problem.now c.pins.now.routes) }
    {
        let problem = context.problem;
        let search_state = SearchState::begin(alloc, context, plan, plan)?;
        let annealing = Annealing::begin(alloc, context, search_state, u64::from(most))?;
        Ok(Attempt {
            annealing,
            absences: vec![in alloc; 0; problem.next_number as usize]?,
            made: 0,
        })
    }

    // Returns whether the best plan leaves a request out.
    fn leaves_out(&self) -> bool
        ensures { result ≡ not (self.now.annealing.search_state.best.unplanned == 0) }
    {
        self.annealing.search_state.best.unplanned > 0
    }

    // Returns the best plan.
    fn into_best(self) -> Plan
        ensures { result ≡ self.annealing.search_state.incumbent }
    {
        let Annealing { search_state, .. } = self.annealing;
        search_state.incumbent
    }

    // Makes a step with these words.
    fn step(
        &mut self,
        alloc: Global,
        context: &SearchContext,
        words: &[u32; 16],
    ) -> Result<(), OutOfMemory>
        requires attempt { let c = context.now in
            IsAttempt c.problem.now c.pins.now.routes self.old }
        requires most { self.old.made + 1 < 2 ^ 32 }
        ensures made { OnOk result (self.new.made ≡ self.old.made + 1) }
        ensures tried { let c = context.now in OnOk result ((first : _)
            → attempt_state first self.new
            ≡ attempt_after c.problem.now c.deviation (attempt_state first self.old)
            (candidate c.problem.now c.pins.now.routes
            (base_of self.old.annealing.search_state.draft) words.now)) }
        ensures attempt { let c = context.now in
            OnOk result (IsAttempt c.problem.now c.pins.now.routes self.new) }
    {
        let search_state = &mut self.annealing.search_state;
        let made = make(
            alloc,
            context,
            &mut search_state.draft,
            &search_state.lists,
            &mut search_state.spatial_index,
            words,
        )?;
        let Some(missing) = made else {
            self.made += 1;
            return Ok(());
        };
        self.settle(alloc, context, &missing)
    }

    // Replaces the plans that the candidate replaces, and counts the requests that it leaves out. The names of all
    // these requests are in `missing`.
    fn settle(
        &mut self,
        alloc: Global,
        context: &SearchContext,
        missing: &[u32],
    ) -> Result<(), OutOfMemory>
        requires keeps { let c = context.now in
            KeepsAttempt c.problem.now c.pins.now.routes self.old }
        requires most { self.old.made + 1 < 2 ^ 32 }
        requires missing { HoldLeftOut context.now.problem.now
            (draft_of self.old.annealing.search_state.draft) missing.now }
        ensures made { OnOk result (self.new.made ≡ self.old.made + 1) }
        ensures tried { let c = context.now in OnOk result ((first : _)
            → attempt_state first self.new
            ≡ attempt_with c.problem.now c.deviation (attempt_state first self.old)
            (draft_of self.old.annealing.search_state.draft)) }
        ensures attempt { let c = context.now in
            OnOk result (IsAttempt c.problem.now c.pins.now.routes self.new) }
    {
        let SearchContext { problem, pins, .. } = *context;
        self.made += 1;
        let left_out = left_out(alloc, problem, &self.annealing.search_state.draft, missing)?;
        let cost = self.annealing.search_state.draft.cost(problem, pins);
        let follows = self.is_acceptable(context.deviation, &cost, &left_out);
        count(&mut self.absences, &left_out);
        if !follows {
            self.annealing.search_state.draft.discard();
            return Ok(());
        }
        self.annealing.accept(alloc, context, &cost)
    }

    // Returns whether a candidate of this cost that leaves out these requests may become the working plan.
    fn is_acceptable(&self, deviation: u32, cost: &Cost, left_out: &[u32]) -> bool
        ensures { (p : _) (pins c : _) → KeepsAttempt p pins self.now
            → cost.now ≡ cost_of p c → left_out.now ≡ unplanned_names p c
            → result ≡ is_acceptable p deviation self.now.absences.items c
            (base_of self.now.annealing.search_state.draft) }
    {
        let work = &self.annealing.work;
        if cost.unplanned < work.unplanned {
            return true;
        }
        let weight_then = weight(&self.absences, left_out);
        let weight_now = weight(&self.absences, &self.annealing.search_state.lists.unplanned);
        if weight_then != weight_now || cost.unplanned != work.unplanned {
            return weight_then < weight_now;
        }
        cost.distance.saturating_sub(work.distance) <= u64::from(deviation)
    }
}
