//! The state of a search between steps, and how it accepts a candidate (record-to-record travel, Dueck 1993).
//!
//! The candidate is a draft over the working plan (`move_ops::Draft`), which is accepted or discarded. No plan
//! is copied for it. If the plan after an exchange or a 2-opt* is known to be too far from the incumbent in
//! cost, the step ends before a route changes. A candidate that costs no more than the incumbent is near it, so
//! accepting the draft once serves both plans.
//!
//! The lists of movable and of unplanned requests stay valid if no request is unplanned before and after a
//! candidate is accepted, since both plans then have all requests, and also if the candidate equals the plan
//! that it was made from. Otherwise they are refilled.
ghost use Rattle.std.specs.Prelude.{◌≡◌, true, IfOk, OnOk};
ghost use Rattle.route_sched.specs.Cost.{cost_of};
ghost use Rattle.plan_audit.specs.Passes.{passes};
ghost use Rattle.move_ops.specs.Drafts.{base_of, draft_of, IsDraftOf};
ghost use Rattle.seeded_search.specs.Steps.{search_plans, candidate, after_candidate, after_candidate_if_any};
ghost use Rattle.seeded_search.specs.SearchStates.{KeepsSearchState, IsSearchState, AreListsOf, HasNewIncumbent, HasNewWorkingPlan, search_plans_of};

use crate::candidate_threshold::{Threshold, is_near};
use crate::incumbent::copy_draft;
use crate::lists::RequestLists;
use crate::operators::make;
use crate::search::Found;
use crate::search_context::SearchContext;
use crate::spatial_index::SpatialIndex;
use move_ops::Draft;
use plan_audit::passing_is_local;
use plan_types::{Cost, OutOfMemory, Plan, costs_compare_lexicographically};
use route_sched::plan_cost;
use std::alloc::Global;

/// A search between two steps, of any kind.
#[derive(Drop)]
pub struct SearchState {
    /// The working plan, and the candidate made from it.
    pub draft: Draft,
    /// The best plan so far.
    pub incumbent: Plan,
    /// No vehicle after the first `used_len` has a stop in the incumbent.
    pub used_len: u64,
    /// The cost of the incumbent.
    pub best: Cost,
    /// The lists of the working plan.
    pub lists: RequestLists,
    /// Whether the working plan is known to be the incumbent.
    pub is_at_incumbent: bool,
    /// The stops nearest to each stop. The steps of this crate do not need them.
    pub spatial_index: SpatialIndex,
}

impl SearchState {
    /// Returns a search before its first step.
    pub fn begin(
        alloc: Global,
        context: &SearchContext,
        plan: &Plan,
        work: &Plan,
    ) -> Result<SearchState, OutOfMemory>
        requires plan { let c = context.now in
            passes c.problem.now c.pins.now.routes plan.now.routes ≡ true }
        requires work { let c = context.now in
            passes c.problem.now c.pins.now.routes work.now.routes ≡ true }
        ensures search_plans { IfOk result
            (λ search_state. search_plans_of search_state ≡ search_plans plan.now.routes work.now.routes) }
        ensures search_state { let c = context.now in
            IfOk result (λ search_state. IsSearchState c.problem.now c.pins.now.routes search_state) }
    {
        passing_is_local();
        let SearchContext { problem, pins, .. } = *context;
        let draft = Draft::build(alloc, problem, pins, work)?;
        let lists = RequestLists::build(alloc, problem, pins, &draft)?;
        Ok(SearchState {
            draft,
            incumbent: plan.copy()?,
            used_len: plan.routes.as_slice().len() as u64,
            best: plan_cost(problem, plan),
            lists,
            is_at_incumbent: false,
            spatial_index: SpatialIndex::none(alloc),
        })
    }

    /// Makes a step with these words.
    pub(crate) fn step(
        &mut self,
        alloc: Global,
        context: &SearchContext,
        words: &[u32; 16],
    ) -> Result<(), OutOfMemory>
        requires { IsSearchState context.now.problem.now context.now.pins.now.routes self.old }
        ensures search_plans { let c = context.now in OnOk result (search_plans_of self.new
            ≡ after_candidate_if_any c.problem.now c.deviation (search_plans_of self.old)
            (candidate c.problem.now c.pins.now.routes (base_of self.old.draft) words.now)) }
        ensures search_state { let c = context.now in
            OnOk result (IsSearchState c.problem.now c.pins.now.routes self.new) }
    {
        let near = Threshold {
            deviation: context.deviation,
            best: &self.best,
        };
        if !make(alloc, context, &mut self.draft, &self.lists, words, &near)? {
            return Ok(());
        }
        self.settle(alloc, context)
    }

    // Accepts the candidate as working plan and incumbent, or only as working plan, or discards it.
    fn settle(&mut self, alloc: Global, context: &SearchContext) -> Result<(), OutOfMemory>
        requires { KeepsSearchState context.now.problem.now context.now.pins.now.routes self.old }
        ensures search_plans { let c = context.now in OnOk result (search_plans_of self.new
            ≡ after_candidate c.problem.now c.deviation (search_plans_of self.old)
            (draft_of self.old.draft)) }
        ensures search_state { let c = context.now in
            OnOk result (IsSearchState c.problem.now c.pins.now.routes self.new) }
    {
        costs_compare_lexicographically();
        passing_is_local();
        let cost = self.draft.cost(context.problem, context.pins);
        if cost <= self.best {
            self.improve(alloc, context, &cost)?;
            self.accept(context, &cost)?;
            self.is_at_incumbent = true;
            return Ok(());
        }
        if !is_near(context.deviation, &cost, &self.best) {
            self.draft.discard();
            return Ok(());
        }
        self.accept(context, &cost)
    }

    /// Makes the candidate, which costs `cost`, the incumbent. If the candidate is known to be the incumbent
    /// already, no route is read.
    pub fn improve(
        &mut self,
        alloc: Global,
        context: &SearchContext,
        cost: &Cost,
    ) -> Result<(), OutOfMemory>
        requires keeps { let c = context.now in
            KeepsSearchState c.problem.now c.pins.now.routes self.old }
        requires cost { cost.now ≡ cost_of context.now.problem.now (draft_of self.old.draft) }
        ensures { let c = context.now in
            OnOk result (HasNewIncumbent c.problem.now c.pins.now.routes self.old self.new) }
    {
        passing_is_local();
        self.best = *cost;
        if self.is_at_incumbent && self.draft.is_base() {
            return Ok(());
        }
        self.is_at_incumbent = false;
        copy_draft(
            alloc,
            &self.draft,
            &mut self.incumbent.routes,
            self.used_len,
        )?;
        self.used_len = self.draft.used_len();
        Ok(())
    }

    /// Makes the candidate, which costs `cost`, the working plan. The working plan is then not known to be the
    /// incumbent.
    pub fn accept(&mut self, context: &SearchContext, cost: &Cost) -> Result<(), OutOfMemory>
        requires draft { let c = context.now in
            IsDraftOf c.problem.now c.pins.now.routes self.old.draft }
        requires lists { let c = context.now in
            AreListsOf c.problem.now c.pins.now.routes (base_of self.old.draft) self.old.lists }
        requires cost { cost.now ≡ cost_of context.now.problem.now (draft_of self.old.draft) }
        ensures { let c = context.now in
            OnOk result (HasNewWorkingPlan c.problem.now c.pins.now.routes self.old self.new) }
    {
        let is_base = self.draft.is_base();
        self.is_at_incumbent = false;
        self.draft.accept();
        if is_base {
            return Ok(());
        }
        if cost.unplanned == 0 && self.lists.unplanned.is_empty() {
            return Ok(());
        }
        self.lists.fill(context.problem, context.pins, &self.draft)
    }

    /// Returns copies of both plans. The search can continue.
    pub fn plans(&self, alloc: Global) -> Result<Found, OutOfMemory>
        requires { draft_of self.now.draft ≡ base_of self.now.draft }
        ensures { IfOk result (λ found. search_plans found.plan.routes found.work.routes
            ≡ search_plans_of self.now) }
    {
        Ok(Found {
            plan: self.incumbent.copy()?,
            work: self.draft.plan(alloc)?,
        })
    }

    /// Ends the search and returns both plans.
    pub fn end(self, alloc: Global) -> Result<Found, OutOfMemory>
        requires { draft_of self.draft ≡ base_of self.draft }
        ensures { IfOk result (λ found. search_plans found.plan.routes found.work.routes
            ≡ search_plans_of self) }
    {
        Ok(Found {
            plan: self.incumbent,
            work: self.draft.plan(alloc)?,
        })
    }
}
